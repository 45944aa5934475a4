//! A task that was run.

/// The answer to a task, and who ran it.
#[derive(Drop)]
pub struct Ran<A> {
    /// The number of the task.
    pub number: u32,
    /// The worker that ran it, counted from 0.
    pub worker: u32,
    /// Whether it took the task from the deque of another worker.
    pub stolen: bool,
    /// What came of the task.
    pub answer: A,
}
