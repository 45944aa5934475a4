//! What a plan is made of.

use reg_base::AccountNo;

/// From one instruction to the next one that touches the same account.
///
/// Arrows are compared by `to`, then `from`, then `account`.
#[derive(Clone, Copy, Debug, PartialEq, Eq, PartialOrd, Ord)]
pub struct Arrow {
    /// The place of the later instruction, counted from 1: the arrow's head.
    pub to: u32,
    /// The place of the earlier instruction, counted from 1: the arrow's tail.
    pub from: u32,
    /// The account that both touch, and no instruction between them.
    pub account: AccountNo,
}

/// The first instruction that touches an account.
#[derive(Clone, Copy, Debug, PartialEq, Eq)]
pub struct Opening {
    /// The account.
    pub account: AccountNo,
    /// The place, counted from 1, of the first instruction that touches it.
    pub first: u32,
}

// An account, and the place of an instruction that touches it: compared by account, then by place.
#[derive(Clone, Copy, Debug, PartialEq, Eq, PartialOrd, Ord)]
pub(crate) struct Touch {
    pub(crate) account: AccountNo,
    pub(crate) place: u32,
}
