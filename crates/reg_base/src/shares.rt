//! Accounts that receive allowances, and how many.

ghost use Rattle.std.specs.Prelude.{◌≡◌, ◌↔◌, ◌+◌, ◌*◌, ◌^◌, ◌<◌, ◌≤◌, [], ◌∷◌, ◌++◌, length, take, IsSome, IfSome};
ghost use Rattle.reg_base.specs.declared.limits.TheConstants.{MOST_SHARES};
ghost use Rattle.reg_base.specs.Acts.{total_of};
ghost use Rattle.reg_base.specs.Numbers.{IsWithin};
ghost use Rattle.reg_base.specs.Padding.{IsPadded};

use crate::limits::MOST_SHARES;
use crate::numbers::AccountNo;
use std::marker::Model;

/// An account that receives allowances, and how many.
#[derive(Clone, Copy, Debug, PartialEq, Eq)]
pub struct Share {
    /// The account that receives.
    pub to: AccountNo,
    /// How many allowances: any number. A check refuses 0.
    pub amount: u64,
}

/// Accounts that receive allowances, and how many each, in their order, at most 8. A contract sees their list.
#[derive(Clone, Copy, Debug, PartialEq, Eq)]
pub struct Receivers {
    array: [Share; MOST_SHARES],
    count: usize,
}

impl Model for Receivers {
    ghost use Rattle.std.specs.Prelude.{List, length, take};
    ghost use Rattle.reg_base.specs.declared.limits.TheConstants.{MOST_SHARES};
    ghost use Rattle.reg_base.specs.declared.shares.Share.{Share};
    ghost use Rattle.reg_base.specs.Padding.{IsPadded, padded, array_again, count_again};

    ghost Value = { List Share };

    ghost view = { λ s. take s.count s.array };

    ghost invariant = { λ s. IsPadded MOST_SHARES (record { to = 1; amount = 0 }) s.array s.count };

    ghost inverse = { λ xs. record {
      array = padded MOST_SHARES (record { to = 1; amount = 0 }) xs;
      count = length xs;
    } };

    ghost inverse_ok = { λ s p i. record {
      array = array_again MOST_SHARES (record { to = 1; amount = 0 }) s.array s.count p i;
      count = count_again MOST_SHARES (record { to = 1; amount = 0 }) s.array s.count p i;
    } };
}

impl Share {
    /// What stands behind the last share where there are fewer than 8: 0 allowances for account 1.
    pub const UNUSED: Share = Share {
        to: AccountNo::LOWEST,
        amount: 0,
    };
}

impl Receivers {
    /// No account receives.
    pub fn none() -> Self
        ensures { result ≡ [] }
    {
        Receivers {
            array: [Share::UNUSED; MOST_SHARES],
            count: 0,
        }
    }

    /// One account receives.
    pub fn one(to: AccountNo, amount: u64) -> Self
        ensures { result ≡ record { to = to; amount = amount } ∷ [] }
    {
        let mut array = [Share::UNUSED; MOST_SHARES];
        array[0] = Share { to, amount };
        Receivers { array, count: 1 }
    }

    // These, and one account more that receives.
    fn with(self, share: Share) -> Self
        requires { length self < MOST_SHARES }
        ensures { result ≡ self ++ share ∷ [] }
    {
        let mut array = self.array;
        array[self.count] = share;
        Receivers {
            array,
            count: self.count + 1,
        }
    }

    // The accounts of these shares receive.
    fn of(shares: &[Share]) -> Self
        requires { length shares.now ≤ MOST_SHARES }
        ensures { result ≡ shares.now }
    {
        let mut receivers = Receivers::none();
        for share in shares {
            receivers = receivers.with(*share);
        }
        receivers
    }

    /// The accounts and what each receives, in their order.
    pub fn as_slice(&self) -> &[Share]
        ensures value { result.now ≡ self.now }
        ensures few { length result.now ≤ MOST_SHARES }
    {
        &self.array[..self.count]
    }
}

/// The shares of a distribution, in their order, 1 to 8. A contract sees their list.
#[derive(Clone, Copy, Debug, PartialEq, Eq)]
pub struct Shares {
    receivers: Receivers,
}

impl Model for Shares {
    ghost use Rattle.std.specs.Prelude.{List, length};
    ghost use Rattle.reg_base.specs.declared.limits.TheConstants.{MOST_SHARES};
    ghost use Rattle.reg_base.specs.declared.shares.Share.{Share};
    ghost use Rattle.reg_base.specs.Numbers.{IsWithin};

    ghost Value = { List Share };

    ghost view = { λ s. s.receivers };

    ghost invariant = { λ s. IsWithin 1 MOST_SHARES (length s.receivers) };

    ghost inverse = { λ xs. record { receivers = xs } };
}

impl Shares {
    /// The shares of a distribution, or `None` unless there are 1 to 8. Takes no memory.
    pub fn new(shares: &[Share]) -> Option<Self>
        ensures valid { IsSome result ↔ IsWithin 1 MOST_SHARES (length shares.now) }
        ensures value { IfSome result (λ s. s ≡ shares.now) }
    {
        if 1 <= shares.len() && shares.len() <= MOST_SHARES {
            Some(Shares {
                receivers: Receivers::of(shares),
            })
        } else {
            None
        }
    }

    /// The first `count` shares of this array, at least one, behind which [`Share::UNUSED`] stands. Copies none and
    /// tests nothing: for callers that have counted them, as a reader does.
    pub fn of_array(array: [Share; MOST_SHARES], count: usize) -> Self
        requires some { 1 ≤ count }
        requires padded { IsPadded MOST_SHARES (record { to = 1; amount = 0 }) array count }
        ensures { result ≡ take count array }
    {
        Shares {
            receivers: Receivers { array, count },
        }
    }

    /// The shares, in their order.
    pub fn as_slice(&self) -> &[Share]
        ensures value { result.now ≡ self.now }
        ensures some { IsWithin 1 MOST_SHARES (length result.now) }
    {
        self.receivers.as_slice()
    }

    // The accounts that receive.
    pub(crate) fn receivers(self) -> Receivers
        ensures { result ≡ self }
    {
        self.receivers
    }

    /// How many allowances all shares are together.
    pub fn total(&self) -> u128
        ensures { result ≡ total_of self.now }
    {
        total_of(self.receivers.as_slice())
    }
}

// How many allowances these shares are together.
fn total_of(shares: &[Share]) -> u128
    requires { length shares.now ≤ MOST_SHARES }
    ensures value { result ≡ total_of shares.now }
    ensures few { result ≤ length shares.now * 2 ^ 64 }
{
    match shares.split_first() {
        None => 0,
        Some((first, rest)) => u128::from(first.amount) + total_of(rest),
    }
}
