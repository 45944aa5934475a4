//! What was lacking for a task or a settled day.

ghost use Rattle.std.specs.Prelude.{◌≡◌};
ghost use Rattle.reg_tasks.specs.declared.lack.Lack.TheVariants.{Memory};

use reg_base::NoMemory;
use std::alloc::{AllocError, AllocFailed};
use thiserror::Error;

/// Why a task, or a settled day, was not made of the parcels that are there.
#[derive(Clone, Copy, Debug, PartialEq, Eq, Error)]
pub enum Lack {
    /// Memory ran out.
    #[error("out of memory")]
    Memory,
    /// A parcel or a row that is needed is not there, or one that is not needed is. If a day is named and all comes
    /// from its own context in a legal order, this does not occur.
    #[error("a parcel or a row is not the one that is needed")]
    Foreign,
}

impl From<NoMemory> for Lack {
    ghost from_gives = { λ _ lack. lack ≡ Memory };

    fn from(_none: NoMemory) -> Lack {
        Lack::Memory
    }
}

impl From<AllocError> for Lack {
    ghost from_gives = { λ _ lack. lack ≡ Memory };

    fn from(_refused: AllocError) -> Lack {
        Lack::Memory
    }
}

impl<T: Drop> From<AllocFailed<T>> for Lack {
    ghost from_gives = { λ _ lack. lack ≡ Memory };

    fn from(_refused: AllocFailed<T>) -> Lack {
        Lack::Memory
    }
}
