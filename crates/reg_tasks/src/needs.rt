//! Which parcels the instruction at a place needs.

ghost use Rattle.std.specs.Prelude.{◌≡◌, ◌==◌, ◌↔◌, ◌≤◌, IsTrue, true, find, length, nat_eq, IsPermutation};
ghost use Rattle.std.specs.List.{list_any, list_all, IsDistinct};
ghost use Rattle.reg_rules.specs.State.{numbers};
ghost use Rattle.reg_schedules.specs.Pool.{tail_in};
ghost use Rattle.reg_schedules.specs.Docks.{names_needed, is_name};
ghost use Rattle.reg_tasks.specs.Names.{has_names, FindsFrom};
ghost use Rattle.reg_tasks.specs.Parcels.{names_of, values_of};

use crate::naming::Naming;
use crate::parcel::Parcel;
use reg_base::AccountNo;
use reg_plan::Arrow;

// The tail of the arrow at this account, of those that lead to a place, or 0 if there is none.
pub(crate) fn tail_in(arrows: &[Arrow], account: AccountNo) -> u32
    ensures { result ≡ tail_in arrows.now account }
{
    match arrow_at(arrows, account) {
        Some(arrow) => arrow.from,
        None => 0,
    }
}

// The first of these arrows at the account, if there is one.
pub(crate) fn arrow_at(arrows: &[Arrow], account: AccountNo) -> Option<Arrow>
    ensures { result ≡ find (λ arrow. arrow.account == account) arrows.now }
{
    arrows
        .iter()
        .copied()
        .find(|arrow| arrow.account == account)
}

// Whether the parcel has this name.
pub(crate) fn is_named<N: Naming>(parcel: &Parcel<N>, account: AccountNo, after: u32) -> bool
    ensures { result ≡ is_name (parcel.now.value.number, parcel.now.after) (account, after) }
{
    parcel.account() == account && parcel.after() == after
}

// Whether a parcel has this name.
fn has_name<N: Naming>(parcels: &[Parcel<N>], account: AccountNo, after: u32) -> bool
    ensures { result ≡ list_any (λ n. is_name n (account, after)) (names_of parcels.now) }
{
    for parcel in parcels {
        if is_named(parcel, account, after) {
            return true;
        }
    }
    false
}

fn has_each<N: Naming>(parcels: &[Parcel<N>], accounts: &[AccountNo], arrows: &[Arrow]) -> bool
    ensures { result ≡ list_all (λ w. list_any (λ n. is_name n w) (names_of parcels.now))
        (names_needed arrows.now accounts.now) }
{
    for account in accounts {
        if !has_name(parcels, *account, tail_in(arrows, *account)) {
            return false;
        }
    }
    true
}

// Whether the parcels are those that a place needs, by the accounts that it touches and the arrows that lead to it.
pub(crate) fn are_needed<N: Naming>(
    parcels: &[Parcel<N>],
    accounts: &[AccountNo],
    arrows: &[Arrow],
) -> bool
    ensures { result ≡ has_names (names_of parcels.now) (names_needed arrows.now accounts.now) }
{
    parcels.len() == accounts.len() && has_each(parcels, accounts, arrows)
}

// An index from this one on, counted from 0, at which a parcel has this name.
fn find_from<N: Naming>(
    parcels: &[Parcel<N>],
    from: usize,
    account: AccountNo,
    after: u32,
) -> Option<usize>
    ensures { FindsFrom (names_of parcels.now) from (account, after) result }
{
    for index in from..parcels.len() {
        if is_named(&parcels[index], account, after) {
            return Some(index);
        }
    }
    None
}

// Puts the parcels that a place needs in the order of its footprint.
pub(crate) fn put_in_order<N: Naming>(
    parcels: &mut [Parcel<N>],
    accounts: &[AccountNo],
    arrows: &[Arrow],
)
    requires needed { has_names (names_of parcels.old) (names_needed arrows.now accounts.now) ≡ true }
    requires distinct { IsDistinct nat_eq accounts.now }
    ensures permutation { IsPermutation parcels.old parcels.new }
    ensures names { names_of parcels.new ≡ names_needed arrows.now accounts.now }
{
    for index in 0..accounts.len() {
        let account = accounts[index];
        let found = find_from(parcels, index, account, tail_in(arrows, account));
        if let Some(other) = found {
            parcels.swap(index, other);
        }
    }
}

// Whether the parcels are of these accounts, in this order.
pub(crate) fn are_of<N: Naming>(parcels: &[Parcel<N>], accounts: &[AccountNo]) -> bool
    ensures { IsTrue result ↔ (numbers (values_of parcels.now) ≡ accounts.now) }
{
    if parcels.len() != accounts.len() {
        return false;
    }
    for index in 0..accounts.len() {
        if parcels[index].account() != accounts[index] {
            return false;
        }
    }
    true
}
