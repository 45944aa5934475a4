//! The accounts that an instruction reads or changes.

ghost use Rattle.std.specs.Prelude.{◌≡◌, ◌+◌, ◌<◌, ◌≤◌, [], ◌++◌, ◌∷◌, length, if◌then◌else◌};
ghost use Rattle.reg_base.specs.declared.limits.TheConstants.{MOST_TOUCHED};
ghost use Rattle.reg_base.specs.Footprint.{is_among};

use crate::limits::MOST_TOUCHED;
use crate::numbers::AccountNo;
use std::marker::Model;

/// The accounts that an instruction reads or changes, in their order, each once, at most 9. A contract sees their list.
#[derive(Clone, Copy, Debug)]
pub struct Footprint {
    array: [AccountNo; MOST_TOUCHED],
    count: usize,
}

impl Model for Footprint {
    ghost use Rattle.std.specs.Prelude.{ℕ, List, length, take};
    ghost use Rattle.reg_base.specs.declared.limits.TheConstants.{MOST_TOUCHED};
    ghost use Rattle.reg_base.specs.Padding.{IsPadded, padded, array_again, count_again};

    ghost Value = { List ℕ };

    ghost view = { λ f. take f.count f.array };

    ghost invariant = { λ f. IsPadded MOST_TOUCHED 1 f.array f.count };

    ghost inverse = { λ xs. record { array = padded MOST_TOUCHED 1 xs; count = length xs } };

    ghost inverse_ok = { λ f p i. record {
      array = array_again MOST_TOUCHED 1 f.array f.count p i;
      count = count_again MOST_TOUCHED 1 f.array f.count p i;
    } };
}

impl Footprint {
    /// No account.
    pub(crate) fn none() -> Self
        ensures { result ≡ [] }
    {
        Footprint {
            array: [AccountNo::LOWEST; MOST_TOUCHED],
            count: 0,
        }
    }

    /// These accounts, and one more unless it is among them.
    pub(crate) fn with(self, account: AccountNo) -> Self
        requires { length self < MOST_TOUCHED }
        ensures { result ≡ (if is_among self account then self else self ++ account ∷ []) }
    {
        if self.has(account) {
            self
        } else {
            self.pushed(account)
        }
    }

    fn has(&self, account: AccountNo) -> bool
        ensures { result ≡ is_among self.now account }
    {
        self.as_slice().iter().any(|known| *known == account)
    }

    fn pushed(self, account: AccountNo) -> Self
        requires { length self < MOST_TOUCHED }
        ensures { result ≡ self ++ account ∷ [] }
    {
        let mut array = self.array;
        array[self.count] = account;
        Footprint {
            array,
            count: self.count + 1,
        }
    }

    /// The accounts, in their order.
    pub fn as_slice(&self) -> &[AccountNo]
        ensures value { result.now ≡ self.now }
        ensures few { length result.now ≤ MOST_TOUCHED }
    {
        &self.array[..self.count]
    }
}
