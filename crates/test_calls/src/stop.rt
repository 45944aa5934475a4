//! Why nothing more was tried.

use std::alloc::{AllocError, AllocFailed};

/// Why nothing more was tried.
#[derive(Clone, Copy)]
pub enum Stop {
    /// The words or the text are not taken, or the call cannot be made on this day.
    Input,
    /// Memory ran out outside the tried calls.
    Short,
    /// The output was not taken.
    Output,
}

impl From<AllocError> for Stop {
    fn from(_refused: AllocError) -> Stop {
        Stop::Short
    }
}

impl<T: Drop> From<AllocFailed<T>> for Stop {
    fn from(_refused: AllocFailed<T>) -> Stop {
        Stop::Short
    }
}
