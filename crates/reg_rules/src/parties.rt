//! The accounts of an instruction: which there are, their kinds and their statuses.

ghost use Rattle.std.specs.Prelude.{◌≡◌, ◌∷◌, ◌++◌, ◌==◌, map};
ghost use Rattle.std.specs.Option.{option_to_list};
ghost use Rattle.std.specs.List.{list_any, list_all};
ghost use Rattle.reg_base.specs.Acts.{other_known};
ghost use Rattle.reg_rules.specs.ActRules.{rule_of, fits_receiver, is_not_closed};
ghost use Rattle.reg_rules.specs.Checks.{has_repeat, has_right_kinds, source_allows, destination_allows};
ghost use Rattle.reg_rules.specs.Cases.{seen_in};
ghost use Rattle.reg_rules.specs.Indexed.{accounts_at};

use crate::case::Case;
use crate::indexed::next_at;
use crate::rule::{
    KindRule, fits_first, fits_first_receiver, fits_receiver, fits_source, is_not_closed,
};
use reg_account::Account;
use reg_base::{AccountKind, AccountNo, Movement, Share};

/// Whether two of the accounts that must be known are the same.
pub(crate) fn names_one_twice(movement: &Movement) -> bool
    ensures { result ≡ has_repeat
        ((movement.now.first ∷ map (λ share. share.to) movement.now.shares)
        ++ option_to_list (other_known movement.now.change)) }
{
    has_repeat(
        movement.first,
        movement.shares.as_slice(),
        &movement.also_known(),
    )
}

// Whether one of these accounts occurs twice: this one, those that receive, and the other one, if there is one.
fn has_repeat(first: AccountNo, shares: &[Share], other: &Option<AccountNo>) -> bool
    ensures { result ≡ has_repeat ((first ∷ map (λ share. share.to) shares.now) ++ option_to_list other.now) }
{
    match shares.split_first() {
        None => comes_again(first, shares, other),
        Some((share, rest)) => {
            comes_again(first, shares, other) || has_repeat(share.to, rest, other)
        }
    }
}

// Whether this account is among those that receive, or is the other one.
fn comes_again(account: AccountNo, shares: &[Share], other: &Option<AccountNo>) -> bool
    ensures { result ≡ list_any (λ y. y == account) (map (λ share. share.to) shares.now ++ option_to_list other.now) }
{
    receives(account, shares) || is_same(account, other)
}

fn is_same(account: AccountNo, other: &Option<AccountNo>) -> bool
    ensures { result ≡ list_any (λ y. y == account) (option_to_list other.now) }
{
    match *other {
        Some(other) => other == account,
        None => false,
    }
}

fn receives(account: AccountNo, shares: &[Share]) -> bool
    ensures { result ≡ list_any (λ share. share.to == account) shares.now }
{
    shares.iter().any(|share| share.to == account)
}

/// Whether the accounts are of kinds that the act allows.
pub(crate) fn has_right_kinds(case: &Case) -> bool
    ensures { result ≡ has_right_kinds (rule_of case.now.instruction.act) (seen_in case.now) }
{
    let kinds = case.found.rule.kinds;
    let first = case.first.kind();
    fits_first(kinds, first) && receivers_fit(kinds, first, case.accounts, case.receivers)
}

fn receivers_fit(
    rule: KindRule,
    first: AccountKind,
    accounts: &[Account],
    receivers: &[u32],
) -> bool
    ensures { result ≡ list_all (λ v. fits_receiver rule first v.kind) (accounts_at accounts.now receivers.now) }
{
    match next_at(accounts, receivers) {
        None => true,
        Some((account, others)) => {
            fits_receiver(rule, first, account.kind())
                && receivers_fit(rule, first, accounts, others)
        }
    }
}

/// Whether the first account has the status that the act needs of a source.
pub(crate) fn source_allows(case: &Case) -> bool
    ensures { result ≡ source_allows (rule_of case.now.instruction.act) (seen_in case.now) }
{
    fits_source(case.found.rule.status, case.first.status())
}

/// Whether no account that receives is closed. The first receives what is created.
pub(crate) fn destination_allows(case: &Case) -> bool
    ensures { result ≡ destination_allows (rule_of case.now.instruction.act) (seen_in case.now) }
{
    fits_first_receiver(case.found.rule.status, case.first.status())
        && none_is_closed(case.accounts, case.receivers)
}

fn none_is_closed(accounts: &[Account], receivers: &[u32]) -> bool
    ensures { result ≡ list_all (λ v. is_not_closed v.status) (accounts_at accounts.now receivers.now) }
{
    match next_at(accounts, receivers) {
        None => true,
        Some((account, others)) => {
            is_not_closed(account.status()) && none_is_closed(accounts, others)
        }
    }
}
