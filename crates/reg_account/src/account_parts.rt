//! The parts of an account, not yet tested.

use crate::lists::Lists;
use reg_base::{AccountKind, AccountNo, HolderNo, Status};
use thiserror::Error;

/// How many allowances of each kind an account holds. Allowances are fungible, so numbers are enough.
#[derive(Clone, Copy, Debug, PartialEq, Eq)]
pub struct Holdings {
    /// The number of general allowances.
    pub general: u64,
    /// The number of aviation allowances.
    pub aviation: u64,
}

/// The parts of an account, not yet tested.
#[derive(Debug, Drop)]
pub struct AccountParts {
    /// Its number.
    pub number: AccountNo,
    /// Its kind.
    pub kind: AccountKind,
    /// Its holder.
    pub holder: HolderNo,
    /// Its status.
    pub status: Status,
    /// Whether it allows transfers to accounts that it does not trust.
    pub outside: bool,
    /// Whether a transfer to a trusted account needs no approval.
    pub waiver: bool,
    /// The correction factor of its compliance figures of period 1, from -10^15 to 10^15 tonnes of carbon dioxide
    /// equivalent.
    pub correction: i64,
    /// What it holds: 0 to 10^15 allowances of each kind.
    pub held: Holdings,
    /// Its correction factors of later periods (by rising period, 2 to 8; each from -10^15 to 10^15 tonnes, and none
    /// 0), its representatives (at most 64, by rising user number), its trusted account list (at most 256 entries, by
    /// rising account number), its surrenders and deletions (at most 4,096, by rising record number; each of 1 to 10^15
    /// allowances; a surrender for a period from 1 to 8; no surrendered and no deleted sum of a kind above 10^15), its
    /// emissions (by rising year; each 0 to 10^12 tonnes) and its determined figures (by rising year; each -4 x 10^15
    /// to 4 x 10^15 tonnes).
    pub lists: Lists,
}

/// Why parts are not an account: the first of these that applies.
#[derive(Clone, Copy, Debug, PartialEq, Eq, Error)]
pub enum AccountFault {
    /// A correction factor is below -10^15 or above 10^15 tonnes; or the periods of later factors don't rise from 2 to
    /// 8, or one of these factors is 0.
    #[error("a correction factor is not -10^15 to 10^15 tonnes, or those of later periods are 0 or don't rise from 2 to 8")]
    Correction,
    /// A holding is above 10^15 allowances.
    #[error("a holding is above 10^15 allowances")]
    Holding,
    /// There are more than 64 representatives, or their numbers don't rise.
    #[error("the representatives are more than 64, or don't rise")]
    Users,
    /// There are more than 256 trusted accounts, or their numbers don't rise.
    #[error("the trusted accounts are more than 256, or don't rise")]
    Trusted,
    /// There are more than 4,096 surrenders and deletions, their numbers don't rise, an amount is not 1 to 10^15, or
    /// the period of a surrender is not 1 to 8.
    #[error("the surrenders and deletions are more than 4,096, don't rise, or have an amount that is not 1 to 10^15 or a period that is not 1 to 8")]
    Rows,
    /// What was surrendered, or deleted, of a kind and not reversed is together above 10^15 allowances.
    #[error("a surrendered or deleted amount is above 10^15 allowances")]
    Retired,
    /// The years of the emissions don't rise, or emissions are above 10^12 tonnes.
    #[error("the years of the emissions don't rise, or emissions are above 10^12 tonnes")]
    Emissions,
    /// The years of the determined figures don't rise, or a figure is not -4 x 10^15 to 4 x 10^15 tonnes.
    #[error("the years of the figures don't rise, or a figure is not -4 x 10^15 to 4 x 10^15 tonnes")]
    Figures,
}
