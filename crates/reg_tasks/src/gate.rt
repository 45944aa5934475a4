//! What a worker passes before it runs a task.

use crate::naming::Naming;
use crate::task::Task;

/// What each worker passes with a complete task before it runs it. Several workers may pass at once.
pub trait Gate: Sync {
    /// A worker, counted from 0, is about to run a task.
    fn enter<N: Naming>(&self, worker: u32, task: &Task<N>);
}

/// A gate that does nothing.
#[derive(Clone, Copy)]
pub struct FreeGate;

impl Gate for FreeGate {
    fn enter<N: Naming>(&self, _worker: u32, _task: &Task<N>) {}
}
