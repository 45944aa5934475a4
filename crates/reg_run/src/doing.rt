//! What is done with a task.

ghost use Rattle.std.specs.Prelude.{◌≡◌, ◌≤◌, [], ◌∷◌, ◌++◌, ℕ, List, IfOk};

use reg_base::NoMemory;
use reg_deques::Numbered;
use std::alloc::Global;

/// What is to be done with tasks `T`, of which each has its number. What comes of one is its answer, an `A`. Each
/// worker has notes of its own, an `N`, which are lent to the tasks that it runs. Workers share the value.
pub trait Do<T: Numbered, A, N>: Sync {
    // How many tasks there are.
    ghost count: { Self → ℕ };

    // What has to hold before a task is run.
    ghost ready: { Self → Type 0 };

    // What is promised of the answer to the task with this number.
    ghost promises: { Self → ℕ → A → Type 0 };

    // What the notes of this worker say, once it has given these answers, in this order.
    ghost noted: { ℕ → List A → N → Type 0 };

    /// How many tasks there are. Their numbers are 1 to this one.
    fn count(&self) -> u32
        ensures { result ≡ count self.now };

    /// The number of a task.
    fn number(&self, task: &T) -> u32
        ensures number { result ≡ T.number task.now }
        ensures within { (1 ≤ result) × (result ≤ count self.now) };

    /// The notes of a worker, counted from 0, that has run nothing yet.
    fn begin(&self, alloc: Global, worker: u32) -> N
        ensures { noted worker [] result };

    /// Runs a task, by a worker that claimed it; `stolen` says whether it was in the deque of another one.
    ///
    /// # Errors
    /// `NoMemory` if memory ran out. Then the task is gone.
    fn run(
        &self,
        alloc: Global,
        worker: u32,
        stolen: bool,
        task: T,
        notes: &mut N,
    ) -> Result<A, NoMemory>
        requires { ready self.now }
        ensures promised { IfOk result (λ answer. promises self.now (T.number task) answer) }
        ensures noted { IfOk result (λ answer. (before : List A) → noted worker before notes.old
            → noted worker (before ++ answer ∷ []) notes.new) };
}
