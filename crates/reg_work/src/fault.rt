//! Why a day was not settled.

ghost use Rattle.std.specs.Prelude.{◌≡◌};
ghost use Rattle.reg_work.specs.Shortages.{fault_of_shortage, fault_of_context};
ghost use Rattle.reg_tasks.specs.declared.lack.Lack.TheVariants.{Memory};
ghost use Rattle.reg_work.specs.declared.fault.Shortage.TheVariants.{Day};

use reg_base::NoMemory;
use reg_book::SettleFault;
use reg_tasks::Lack;
use std::alloc::AllocError;
use thiserror::Error;

/// Why workers did not settle a batch: the first of these that applies.
#[derive(Clone, Copy, Debug, PartialEq, Eq, Error)]
pub enum WorkFault {
    /// The number of workers is not 1 to 8.
    #[error("workers must be 1 to 8")]
    Workers,
    /// The first record number of the batch is not the book's next record number.
    #[error("the batch does not begin with record {next}")]
    WrongBase {
        /// The book's next record number.
        next: u64,
    },
    /// A thread could not be started.
    #[error("no thread")]
    NoThread,
    /// Memory ran out.
    #[error("out of memory")]
    NoMemory,
}

/// What workers lacked: the first of these that applies.
#[derive(Clone, Copy, Debug, PartialEq, Eq, Error)]
pub(crate) enum Shortage {
    /// A thread could not be started.
    #[error("no thread")]
    Thread,
    /// Something was lacking for a task or the settled day.
    #[error("{0}")]
    Day(Lack),
}

/// What is lacking for a day is told as memory. If a day is named and all comes from its own context in a legal order,
/// nothing else can be lacking.
impl From<Shortage> for WorkFault {
    ghost from_gives = { λ shortage fault. fault ≡ fault_of_shortage shortage };

    fn from(shortage: Shortage) -> WorkFault {
        match shortage {
            Shortage::Thread => WorkFault::NoThread,
            Shortage::Day(_) => WorkFault::NoMemory,
        }
    }
}

impl From<SettleFault> for WorkFault {
    ghost from_gives = { λ plain fault. fault ≡ fault_of_context plain };

    fn from(fault: SettleFault) -> WorkFault {
        match fault {
            SettleFault::WrongBase { next } => WorkFault::WrongBase { next },
            SettleFault::NoMemory => WorkFault::NoMemory,
        }
    }
}

impl From<NoMemory> for Shortage {
    ghost from_gives = { λ _ shortage. shortage ≡ Day Memory };

    fn from(_none: NoMemory) -> Shortage {
        Shortage::Day(Lack::Memory)
    }
}

impl From<AllocError> for Shortage {
    ghost from_gives = { λ _ shortage. shortage ≡ Day Memory };

    fn from(_refused: AllocError) -> Shortage {
        Shortage::Day(Lack::Memory)
    }
}

impl From<Lack> for Shortage {
    ghost from_gives = { λ lack shortage. shortage ≡ Day lack };

    fn from(lack: Lack) -> Shortage {
        Shortage::Day(lack)
    }
}
