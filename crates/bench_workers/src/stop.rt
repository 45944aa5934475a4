//! Why a run ends early, and what is written.

use reg_regions::RegionsFault;
use reg_work::WorkFault;
use std::alloc::{AllocError, Global};
use std::fmt::{Debug, Display};
use std::io::Write;

/// Why nothing more was done.
pub(crate) enum Stop {
    /// The words or the text are not taken.
    Input,
    /// Memory ran out, or a thread could not be started.
    Short,
    /// The output was not taken.
    Output,
}

impl From<AllocError> for Stop {
    fn from(_refused: AllocError) -> Stop {
        Stop::Short
    }
}

impl From<WorkFault> for Stop {
    fn from(fault: WorkFault) -> Stop {
        match fault {
            WorkFault::NoThread | WorkFault::NoMemory => Stop::Short,
            WorkFault::Workers | WorkFault::WrongBase { .. } => Stop::Input,
        }
    }
}

impl From<RegionsFault> for Stop {
    fn from(fault: RegionsFault) -> Stop {
        match fault {
            RegionsFault::NoMemory => Stop::Short,
            RegionsFault::Workers | RegionsFault::WrongBase { .. } => Stop::Input,
        }
    }
}

/// Writes a line.
pub(crate) fn tell<W: Write>(writer: &mut W, line: &impl Display) -> Result<(), Stop> {
    if writeln!(writer, "{line}").is_err() {
        return Err(Stop::Output);
    }
    Ok(())
}

/// What a settled or a closed day is, in a text that tells two different ones apart.
pub(crate) fn told<T: Debug>(alloc: Global, day: &T) -> Result<String, Stop> {
    match format!(in alloc; "{:?}", day) {
        Ok(text) => Ok(text),
        Err(_) => Err(Stop::Short),
    }
}

/// The number that stands at this index of the words.
pub(crate) fn number_at(words: &[String], place: usize) -> Result<u32, Stop> {
    let Some(word) = words.get(place) else {
        return Err(Stop::Input);
    };
    match word.as_str().parse::<u32>() {
        Ok(number) => Ok(number),
        Err(_) => Err(Stop::Input),
    }
}
