//! The accounts at indexes of a list.

ghost use Rattle.std.specs.Prelude.{◌≡◌, ◌+◌, ◌∷◌, ◌<◌, ◌≤◌, [], length, MatchOption};
ghost use Rattle.reg_rules.specs.State.{numbers};
ghost use Rattle.reg_rules.specs.Indexed.{accounts_at, StandAt};

use reg_account::Account;
use reg_base::{MOST_TOUCHED, Movement};

/// The account at the first of these indexes, and the other indexes; `None` if no index is left, or no account is
/// there.
pub(crate) fn next_at<'a>(
    accounts: &'a [Account],
    indexes: &'a [u32],
) -> Option<(&'a Account, &'a [u32])>
    ensures { MatchOption result
        (accounts_at accounts.now indexes.now ≡ [])
        (λ found. (accounts_at accounts.now indexes.now ≡ found.0.now ∷ accounts_at accounts.now found.1.now)
        × (length found.1.now < length indexes.now)) }
{
    match indexes.split_first() {
        None => None,
        Some((index, others)) => match accounts.get(*index as usize) {
            None => None,
            Some(account) => Some((account, others)),
        },
    }
}

const FRONT: [u32; MOST_TOUCHED] = [0, 1, 2, 3, 4, 5, 6, 7, 8];

/// The indexes of all accounts of a list, in its order. The list has no more accounts than this movement has.
pub(crate) fn front(accounts: &[Account], movement: &Movement) -> &'static [u32]
    requires { length accounts.now ≤ 1 + length movement.now.shares }
    ensures all { accounts_at accounts.now result.now ≡ accounts.now }
    ensures stand { StandAt (numbers accounts.now) result.now (numbers accounts.now) }
{
    let _few = movement.shares.as_slice();
    &FRONT[..accounts.len()]
}
