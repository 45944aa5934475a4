//! The limits of this profile, each with its unit, as docs/RULES.md has them. This project set them; they don't come
//! from the law.

/// The most accounts of a book.
pub const MOST_ACCOUNTS: usize = 100_000;
/// The most instructions of a batch.
pub const MOST_INSTRUCTIONS: usize = 16_384;
/// The most administrators of a day.
pub const MOST_ADMINISTRATORS: usize = 64;
/// The largest account, user and holder number. The smallest is 1.
pub const MOST_NUMBER: u32 = 999_999_999;
/// The largest record number. The smallest is 1.
pub const MOST_RECORD: u64 = 1_000_000_000_000_000;
/// The most allowances of one kind that one account holds.
pub const MOST_HELD: u64 = 1_000_000_000_000_000;
/// The most allowances of one kind that one account has surrendered, and the most that it has deleted, without those
/// that were reversed. One surrender or deletion has no more either.
pub const MOST_RETIRED: u64 = 1_000_000_000_000_000;
/// The most representatives of one account.
pub const MOST_USERS: usize = 64;
/// The most entries of one trusted account list.
pub const MOST_TRUSTED: usize = 256;
/// The most surrenders and deletions of one account, together.
pub const MOST_ROWS: usize = 4_096;
/// The largest emissions of a year, in tonnes of carbon dioxide equivalent. The smallest are 0.
pub const MOST_EMISSIONS: u64 = 1_000_000_000_000;
/// The largest compliance figure that is kept, in tonnes of carbon dioxide equivalent. The smallest is its negative.
pub const MOST_FIGURE: i64 = 4_000_000_000_000_000;
/// The largest correction factor, in tonnes of carbon dioxide equivalent. The smallest is its negative.
pub const MOST_CORRECTION: i64 = 1_000_000_000_000_000;
/// The longest lag and the longest reversal window, in working days.
pub const MOST_LAG: u16 = 1_000;
/// The earliest year of a period, of emissions and of a figure.
pub const FIRST_YEAR: u16 = 2021;
/// The latest year of a period, of emissions and of a figure.
pub const LAST_YEAR: u16 = 2100;
/// The earliest date, 2021-01-01, in days since 1970-01-01.
pub const FIRST_DAY: u32 = 18_628;
/// The latest date, 2100-12-31, in days since 1970-01-01.
pub const LAST_DAY: u32 = 47_846;
/// The most accounts that receive allowances by one instruction.
pub const MOST_SHARES: usize = 8;
/// The most accounts that one instruction touches: the first, and those that receive.
pub const MOST_TOUCHED: usize = 9;
/// The most periods that the rules of a day name.
pub const MOST_PERIODS: u8 = 8;
