//! Why a command gave no text.

ghost use Rattle.std.specs.Prelude.{◌≡◌, Some};
ghost use Rattle.reg_front.specs.declared.fault.FrontFault.TheVariants.{NoMemory};
ghost use Rattle.reg_front.specs.Faults.{fault_of_read, fault_of_day};
ghost use Rattle.reg_front.specs.Lines.{fault_text};

use crate::device::ReadFault;
use crate::line::text_of;
use reg_base::NoMemory;
use reg_text::{Cause, DayFault};
use std::error::Error;
use std::fmt;

/// Why [`run`](crate::run) gave no text. `Display` gives its line on standard error, without the end of the line.
#[derive(Clone, Copy, Debug, PartialEq, Eq)]
pub enum FrontFault {
    /// The input is not a day text.
    Row {
        /// The number of the first faulty row, counted from 1. If the text ends too
        /// early: the number of rows plus 1.
        row: u64,
        /// The first cause that applies to it.
        cause: Cause,
    },
    /// The reader failed, or the input has more than 2^30 bytes.
    Read,
    /// The number of workers is not 1 to 8.
    Workers,
    /// The account of a statement is not in the book.
    NoAccount,
    /// A thread could not be started. No call of this crate answers it, since the others then do its work. A program
    /// over `settle_with` of `reg_work`, which may answer `NoThread`, can tell it by this one.
    NoThread,
    /// Memory ran out.
    NoMemory,
    /// The writer failed. It may have taken a prefix of the text.
    WriteFailed,
}

impl fmt::Display for FrontFault {
    ghost output = { λ fault. Some (fault_text fault) };

    fn fmt<W: fmt::Write>(&self, f: &mut fmt::Formatter<W>) -> fmt::Result {
        f.write_str(text_of(*self).as_str())
    }
}

impl Error for FrontFault {}

impl From<ReadFault> for FrontFault {
    ghost from_gives = { λ e fault. fault ≡ fault_of_read e };

    fn from(fault: ReadFault) -> FrontFault {
        match fault {
            ReadFault::Failed => FrontFault::Read,
            ReadFault::TooLong => FrontFault::Read,
            ReadFault::NoMemory => FrontFault::NoMemory,
        }
    }
}

impl From<DayFault> for FrontFault {
    ghost from_gives = { λ e fault. fault ≡ fault_of_day e };

    fn from(fault: DayFault) -> FrontFault {
        match fault {
            DayFault::Row { row, cause } => FrontFault::Row { row, cause },
            DayFault::NoMemory => FrontFault::NoMemory,
        }
    }
}

impl From<NoMemory> for FrontFault {
    ghost from_gives = { λ _ fault. fault ≡ NoMemory };

    fn from(_refused: NoMemory) -> FrontFault {
        FrontFault::NoMemory
    }
}
