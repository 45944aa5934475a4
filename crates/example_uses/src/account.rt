//! A use of `reg_account`.

ghost use Rattle.std.specs.Prelude.{◌≡◌, ◌+◌, ◌&&◌, nat_le, MatchBool};
ghost use Rattle.reg_account.specs.Account.{held_by, credited, debited};
ghost use Rattle.reg_base.specs.declared.limits.TheConstants.{MOST_HELD};

use reg_account::Account;
use reg_base::{AllowanceKind, MOST_HELD};

/// Moves allowances of a kind from one account to another, if the first holds them and the second may hold
/// them too. Answers whether it did. Nothing else changes.
pub fn pass_on(from: &mut Account, to: &mut Account, kind: AllowanceKind, amount: u64) -> bool
    ensures answer { result ≡ (nat_le amount (held_by from.old kind)
        && nat_le (held_by to.old kind + amount) MOST_HELD) }
    ensures accounts { MatchBool result
        ((from.new ≡ debited from.old kind amount) × (to.new ≡ credited to.old kind amount))
        ((from.new ≡ from.old) × (to.new ≡ to.old)) }
{
    if amount > from.held(kind) || amount > MOST_HELD - to.held(kind) {
        return false;
    }
    from.debit(kind, amount);
    to.credit(kind, amount);
    true
}
