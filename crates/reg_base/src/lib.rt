//! What a day is made of, apart from its book: numbers within their limits, the working calendar, the rules, the
//! directory of accounts, and the batch of instructions with the accounts that each touches; and the checks of an
//! instruction, by code and name. docs/RULES.md says in words what these are.
//!
//! A use of it, proved in `example_uses/src/base.rt`:
//!
//! ```rust
//! ghost use Rattle.std.specs.Prelude.{◌≡◌, ℕ, MatchResult};
//! ghost use Rattle.reg_base.specs.Rising.{FirstNotRising};
//! ghost use Rattle.reg_base.specs.Calendar.{IsCalendar, due};
//! ghost use Rattle.reg_base.specs.declared.calendar.CalendarFault.TheVariants.{NotRising};
//!
//! use reg_base::{Calendar, CalendarFault, Day};
//!
//! /// The date on which an instruction falls due that was proposed on `proposed`: the (`lag` + 1)th of these working
//! /// days on or after `proposed`, if there are so many.
//! ///
//! /// # Errors
//! /// `NotRising` if the days are no calendar.
//! pub fn due_day(days: Vec<Day>, proposed: Day, lag: u16) -> Result<Option<Day>, CalendarFault>
//!     ensures { MatchResult result
//!         (λ day. (day ≡ due days.items proposed lag) × IsCalendar days.items)
//!         (λ fault. (place : ℕ) × (fault ≡ NotRising place) × FirstNotRising days.items place) }
//! {
//!     let calendar = Calendar::new(days)?;
//!     Ok(calendar.due(proposed, lag))
//! }
//! ```
//!
//! A value of these types is within its limits. Nothing here takes memory except [`Directory::insert`], and a
//! constructor that refuses drops what it was given.
#![tactic(auto)]

mod act;
mod batch;
mod calendar;
mod digits;
mod directory;
mod few;
mod footprint;
mod instruction;
mod kinds;
pub mod laws;
mod limits;
mod movement;
mod numbers;
mod refusals;
mod rules;
mod sentences;
mod shares;
mod words;

pub use act::Act;
pub use batch::{Batch, BatchFault};
pub use calendar::{Calendar, CalendarFault};
pub use digits::NumberFault;
pub use directory::{Directory, NoMemory, likely_index};
pub use few::FEW_ROWS;
pub use footprint::Footprint;
pub use instruction::Instruction;
pub use kinds::{AccountKind, AllowanceKind, Retirement, Right, Status};
pub use limits::{
    FIRST_DAY, FIRST_YEAR, LAST_DAY, LAST_YEAR, MOST_ACCOUNTS, MOST_ADMINISTRATORS,
    MOST_CORRECTION, MOST_EMISSIONS, MOST_FIGURE, MOST_HELD, MOST_INSTRUCTIONS, MOST_LAG,
    MOST_NUMBER, MOST_PERIODS, MOST_RECORD, MOST_RETIRED, MOST_ROWS, MOST_SHARES, MOST_TOUCHED,
    MOST_TRUSTED, MOST_USERS,
};
pub use movement::{Change, Movement};
pub use numbers::{AccountNo, Day, HolderNo, RecordNo, UserNo, Year};
pub use refusals::{CHECKS, Refusal};
pub use rules::{Rules, RulesFault, RulesParts};
pub use shares::{Receivers, Share, Shares};
pub use words::UnknownWord;
