//! Why a day was not settled by regions.

ghost use Rattle.std.specs.Prelude.{◌≡◌, Some, None};
ghost use Rattle.reg_regions.specs.declared.not_settled.RegionsFault.TheVariants as fault;

use reg_base::NoMemory;
use reg_book::Parts;
use thiserror::Error;

/// Why a day was not settled: the first of these that applies.
#[derive(Clone, Copy, Debug, PartialEq, Eq, Error)]
pub enum RegionsFault {
    /// The number of workers is not 1 to 8.
    #[error("workers must be 1 to 8")]
    Workers,
    /// The first record number of the batch is not the book's next record number.
    #[error("the batch does not begin with record {next}")]
    WrongBase {
        /// The book's next record number.
        next: u64,
    },
    /// Memory ran out.
    #[error("out of memory")]
    NoMemory,
}

/// Why a day was not settled, and the book if it is whole.
#[derive(Debug, Drop, Error)]
#[error("{fault}")]
pub struct NotSettled {
    /// Why it was not settled.
    pub fault: RegionsFault,
    /// The book as it was, exactly if the fault is `Workers` or `WrongBase`. If memory ran out it is gone, also where
    /// this came before an account had moved: who may want it again keeps the text from which it was read.
    pub parts: Option<Parts>,
}

impl NotSettled {
    // A fault that was found before an account moved, and the book as it was.
    pub(crate) fn with_book(fault: RegionsFault, parts: Parts) -> NotSettled
        ensures { result ≡ record { fault = fault; parts = Some parts } }
    {
        NotSettled {
            fault,
            parts: Some(parts),
        }
    }
}

/// Memory ran out: the book is gone.
impl From<NoMemory> for NotSettled {
    ghost from_gives = { λ _ e. e ≡ record { fault = fault.NoMemory; parts = None } };

    fn from(_none: NoMemory) -> NotSettled {
        NotSettled {
            fault: RegionsFault::NoMemory,
            parts: None,
        }
    }
}
