//! How a call ended.

use crate::digest::{Digest, digest_of};
use reg_base::NoMemory;
use reg_book::{BookFault, SettleFault};
use reg_plan::OrderFault;
use reg_regions::RegionsFault;
use reg_tasks::RunFault;
use reg_text::{DayFault, StatementFault};
use reg_work::WorkFault;
use std::fmt::Debug;

/// How a call ended.
#[derive(Clone, Copy, PartialEq, Eq)]
pub enum Ended {
    /// With what it is there for, of which this is the digest.
    Done(Digest),
    /// It answered that memory ran out.
    NoMemory,
    /// It answered that a thread could not be started.
    NoThread,
    /// It gave back what it was given.
    GivenBack,
    /// In another way.
    Otherwise,
}

impl Ended {
    /// The word for it.
    pub(crate) fn word(self) -> &'static str {
        match self {
            Ended::Done(_) => "done",
            Ended::NoMemory => "no memory",
            Ended::NoThread => "no thread",
            Ended::GivenBack => "given back",
            Ended::Otherwise => "otherwise",
        }
    }

    /// Whether the call was refused something.
    pub(crate) fn is_refused(self) -> bool {
        match self {
            Ended::NoMemory | Ended::NoThread | Ended::GivenBack => true,
            Ended::Done(_) | Ended::Otherwise => false,
        }
    }
}

/// How a call ended that answered this. What it answered is gone then.
pub(crate) fn how_ended<T: Debug + Drop, F: Into<Ended>>(answer: Result<T, F>) -> Ended {
    match answer {
        Ok(value) => Ended::Done(digest_of(&value)),
        Err(fault) => fault.into(),
    }
}

impl From<NoMemory> for Ended {
    fn from(_fault: NoMemory) -> Ended {
        Ended::NoMemory
    }
}

impl From<BookFault> for Ended {
    fn from(fault: BookFault) -> Ended {
        match fault {
            BookFault::NoMemory => Ended::NoMemory,
            _ => Ended::Otherwise,
        }
    }
}

impl From<SettleFault> for Ended {
    fn from(fault: SettleFault) -> Ended {
        match fault {
            SettleFault::NoMemory => Ended::NoMemory,
            SettleFault::WrongBase { .. } => Ended::Otherwise,
        }
    }
}

impl From<OrderFault> for Ended {
    fn from(fault: OrderFault) -> Ended {
        match fault {
            OrderFault::NoMemory => Ended::NoMemory,
            _ => Ended::Otherwise,
        }
    }
}

impl From<RunFault> for Ended {
    fn from(fault: RunFault) -> Ended {
        match fault {
            RunFault::NoMemory => Ended::NoMemory,
            RunFault::Order(_) => Ended::Otherwise,
        }
    }
}

impl From<RegionsFault> for Ended {
    fn from(fault: RegionsFault) -> Ended {
        match fault {
            RegionsFault::NoMemory => Ended::NoMemory,
            RegionsFault::Workers | RegionsFault::WrongBase { .. } => Ended::Otherwise,
        }
    }
}

impl From<WorkFault> for Ended {
    fn from(fault: WorkFault) -> Ended {
        match fault {
            WorkFault::NoMemory => Ended::NoMemory,
            WorkFault::NoThread => Ended::NoThread,
            WorkFault::Workers | WorkFault::WrongBase { .. } => Ended::Otherwise,
        }
    }
}

impl From<DayFault> for Ended {
    fn from(fault: DayFault) -> Ended {
        match fault {
            DayFault::NoMemory => Ended::NoMemory,
            DayFault::Row { .. } => Ended::Otherwise,
        }
    }
}

impl From<StatementFault> for Ended {
    fn from(fault: StatementFault) -> Ended {
        match fault {
            StatementFault::NoMemory => Ended::NoMemory,
            StatementFault::UnknownAccount => Ended::Otherwise,
        }
    }
}
