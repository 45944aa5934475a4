//! A region that came back.

use crate::instruction::Placed;
use reg_account::Account;

/// What came of a region whose instructions were carried out.
#[derive(Drop)]
pub(crate) struct SettledList {
    /// Its accounts afterwards, in their order.
    pub(crate) accounts: Vec<Account>,
    /// The replies, by rising place.
    pub(crate) replies: Vec<Placed>,
}
