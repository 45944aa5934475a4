//! Why a call gives no text.

ghost use Rattle.std.specs.Prelude.{◌≡◌};
ghost use Rattle.registry_c.specs.Answers.{fault_of_text};
ghost use Rattle.registry_c.specs.declared.fault.Fault.TheVariants as fault;

use reg_base::NoMemory;
use reg_text::{Cause, DayFault};

/// Why a call gives no text.
#[derive(Clone, Copy, Debug, PartialEq, Eq)]
pub enum Fault {
    /// The text is not a day text.
    Row {
        /// The number of the first faulty row, counted from 1. If the text ends too
        /// early: the number of rows plus 1.
        row: u64,
        /// The first cause that applies to it.
        cause: Cause,
    },
    /// The account of a statement is not in the book.
    NoAccount,
    /// What should be the date of the next day is no date, or none that is later than the day.
    NoDate,
    /// Memory ran out.
    NoMemory,
}

impl From<DayFault> for Fault {
    ghost from_gives = { λ e f. f ≡ fault_of_text e };

    fn from(fault: DayFault) -> Fault {
        match fault {
            DayFault::Row { row, cause } => Fault::Row { row, cause },
            DayFault::NoMemory => Fault::NoMemory,
        }
    }
}

impl From<NoMemory> for Fault {
    ghost from_gives = { λ _ f. f ≡ fault.NoMemory };

    fn from(_refused: NoMemory) -> Fault {
        Fault::NoMemory
    }
}
