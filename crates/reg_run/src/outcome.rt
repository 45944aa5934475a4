//! What came of tasks.

use crate::ran::Ran;

/// What came of tasks that workers ran.
#[derive(Drop)]
pub struct Outcome<A, N> {
    /// The answers, by rising number of their tasks.
    pub answers: Vec<Ran<A>>,
    /// What each worker noted, from worker 0 on.
    pub notes: Vec<N>,
}
