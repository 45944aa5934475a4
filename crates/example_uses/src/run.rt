//! A use of `reg_run`.

ghost use Rattle.std.specs.Prelude.{◌≡◌, All, IfOk, IsPermutation, map};
ghost use Rattle.reg_base.specs.Rising.{count_up};

use reg_base::NoMemory;
use reg_deques::Numbered;
use reg_run::{Do, Ran, run};
use std::alloc::Global;
use std::thread::Threads;

/// Runs tasks by two workers, and answers what came of each. What the caller's type promises holds of all answers.
///
/// # Errors
/// `NoMemory` if memory ran out.
pub fn run_by_two<
    T: Numbered + Drop + Send,
    A: Drop + Send,
    N: Drop + Send,
    D: Do<T, A, N>,
    R: Threads + Sync,
>(rt: &R, alloc: Global, doing: &D, tasks: Vec<T>) -> Result<Vec<Ran<A>>, NoMemory>
    requires ready { D.ready doing.now }
    requires numbers { IsPermutation (count_up 1 (D.count doing.now)) (map T.number tasks.items) }
    ensures { IfOk result (λ all. All (λ r. D.promises doing.now r.number r.answer) all.items) }
{
    let outcome = run(rt, alloc, doing, tasks, 2)?;
    Ok(outcome.answers)
}
