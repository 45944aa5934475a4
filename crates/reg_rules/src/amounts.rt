//! Amounts: what accounts hold, have surrendered and have deleted, and what they may.

ghost use Rattle.std.specs.Prelude.{◌≡◌, ◌+◌, ◌≤◌, Some, nat_le, nat_lt, length};
ghost use Rattle.std.specs.List.{list_any};
ghost use Rattle.reg_base.specs.declared.limits.TheConstants.{MOST_RETIRED, MOST_ROWS};
ghost use Rattle.reg_base.specs.Acts.{movement_of, change_of};
ghost use Rattle.reg_account.specs.Account.{retired_by};
ghost use Rattle.reg_rules.specs.Checks.{is_kind_not_allowed, is_short, overfills, overfills_first, overfills_some};
ghost use Rattle.reg_rules.specs.Checks.{is_retired_too_large, are_rows_full};
ghost use Rattle.reg_rules.specs.Cases.{receiving, seen_in};
ghost use Rattle.reg_rules.specs.Indexed.{accounts_at};

use crate::case::Case;
use crate::indexed::next_at;
use reg_account::Account;
use reg_base::{AllowanceKind, Change, MOST_HELD, MOST_RETIRED, MOST_ROWS, Retirement, Share};

/// Whether the first account holds fewer allowances than leave it.
pub(crate) fn is_short(case: &Case) -> bool
    ensures { result ≡ is_short (movement_of case.now.instruction.act) (seen_in case.now) }
{
    let movement = case.movement;
    u128::from(case.first.held(movement.kind)) < movement.leaves
}

/// Whether an account that receives would hold more than it may.
pub(crate) fn overfills_some(case: &Case) -> bool
    ensures { result ≡ overfills_some (movement_of case.now.instruction.act) (seen_in case.now) }
{
    let movement = case.movement;
    overfills_any(
        movement.kind,
        case.accounts,
        case.receivers,
        movement.shares.as_slice(),
    )
}

// Whether one of the accounts at these indexes would hold more than it may with its share.
fn overfills_any(
    kind: AllowanceKind,
    accounts: &[Account],
    receivers: &[u32],
    shares: &[Share],
) -> bool
    ensures { result ≡ list_any (overfills kind) (receiving (accounts_at accounts.now receivers.now) shares.now) }
{
    match next_at(accounts, receivers) {
        None => false,
        Some((account, others)) => match shares.split_first() {
            None => false,
            Some((share, rest)) => {
                overfills(kind, account, share.amount)
                    || overfills_any(kind, accounts, others, rest)
            }
        },
    }
}

/// Whether the first account would hold more allowances than it may with what is created on it, or comes back to it.
pub(crate) fn overfills_first(case: &Case) -> bool
    ensures { result ≡ overfills_first (change_of case.now.instruction.act) (seen_in case.now) }
{
    match case.movement.change {
        Change::Credit { kind, amount } => overfills(kind, case.first, amount),
        Change::Unretire { .. } => match case.found.row {
            Some(row) => overfills(row.kind, case.first, row.amount),
            None => false,
        },
        _ => false,
    }
}

// Whether the account would hold more allowances than it may with this amount.
fn overfills(kind: AllowanceKind, account: &Account, amount: u64) -> bool
    ensures { result ≡ overfills kind (record { account = Some account.now; amount = amount }) }
{
    MOST_HELD - account.held(kind) < amount
}

/// Whether the surrender table lacks the account's kind together with the kind of the allowances.
pub(crate) fn is_kind_not_allowed(case: &Case) -> bool
    ensures { result ≡ is_kind_not_allowed case.now.setting.rules (change_of case.now.instruction.act)
        (seen_in case.now) }
{
    let setting = case.setting;
    match case.movement.change {
        Change::Retire {
            retirement: Retirement::Surrendered,
            kind,
            ..
        } => !setting.rules.may_surrender(case.first.kind(), kind),
        _ => false,
    }
}

/// Whether more would be surrendered, or deleted, than may be.
pub(crate) fn is_retired_too_large(case: &Case) -> bool
    ensures { result ≡ is_retired_too_large (change_of case.now.instruction.act) (seen_in case.now) }
{
    match case.movement.change {
        Change::Retire {
            retirement,
            kind,
            amount,
        } => retires_too_much(retirement, kind, amount, case.first),
        _ => false,
    }
}

fn retires_too_much(way: Retirement, kind: AllowanceKind, amount: u64, account: &Account) -> bool
    ensures { result ≡ nat_lt MOST_RETIRED (retired_by account.now way kind + amount) }
{
    match way {
        Retirement::Surrendered => MOST_RETIRED - account.surrendered(kind) < amount,
        Retirement::Deleted => MOST_RETIRED - account.deleted(kind) < amount,
    }
}

/// Whether something is surrendered, or deleted, and the account has as many rows as it may have.
pub(crate) fn are_rows_full(case: &Case) -> bool
    ensures { result ≡ are_rows_full (change_of case.now.instruction.act) (seen_in case.now) }
{
    match case.movement.change {
        Change::Retire { .. } => has_all_rows(case.first),
        _ => false,
    }
}

fn has_all_rows(account: &Account) -> bool
    ensures { result ≡ nat_le MOST_ROWS (length account.now.rows) }
{
    MOST_ROWS <= account.rows().len()
}
