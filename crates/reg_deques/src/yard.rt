//! The deques of all workers.

use crate::numbered::Numbered;
use crate::stealer::Stealer;

/// The deques of all workers, where they take from each other. The workers' threads may share it, each with the pass of
/// its worker.
#[derive(Drop)]
pub struct Yard<T: Numbered> {
    pub(crate) stealers: Vec<Stealer<T>>,
}
