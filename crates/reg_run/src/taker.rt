//! How a worker puts tasks into its own deque, and takes them: from there, or from the deques of the others.

ghost use Rattle.std.specs.Prelude.{◌≡◌, [], ◌∷◌, IfSome, IfNone, IfErr, OnOk, Some, slice_get};
ghost use Rattle.reg_deques.specs.Passes.{owner_id};
ghost use Rattle.reg_deques.specs.Yards.{deques, deques_of_pass, views, worker_of, IsPassOf, StealsAny};

use crossbeam_utils::Backoff;
use reg_base::NoMemory;
use reg_deques::{Numbered, Owner, Pass, Steal, Yard};
use std::marker::{Brand, PhantomData};

/// Which claim table and which deques the workers of a call share, and how many tasks there are. It has no code. What a
/// thread gives back is known by its type alone, so its type names them.
pub trait Sharing {
    ghost use Rattle.std.specs.Prelude.{ℕ, List};
    ghost use Rattle.atomic_table.specs.Seated.{TableId};
    ghost use Rattle.reg_deques.specs.Passes.{DequeId};

    ghost count: { ℕ };

    ghost table: { TableId };

    ghost deques: { List DequeId };
}

/// Those that a caller picks from its own arguments.
impl Sharing for Brand {
    ghost use Rattle.std.specs.Prelude.{[]};

    ghost count = { 0 };

    ghost table = { record { words = 0; slots = 0; views_name = 0; atom = 0; block = 0; offset = 0; slot_names = [] } };

    ghost deques = { [] };
}

/// A worker's own deque, and what it knows of the others. The deque is the one of the shared ones that has the number
/// of the worker.
#[derive(Drop)]
pub struct Taker<T: Numbered, S: Sharing> {
    pub(crate) owner: Owner<T>,
    pub(crate) pass: Pass<T>,
    pub(crate) of: PhantomData<S>,
    pub(crate) ghost deques_are: { deques_of_pass pass ≡ S.deques },
    pub(crate) ghost own: { slice_get S.deques (worker_of pass) ≡ Some (owner_id owner) },
}

/// A task that a worker took, and whether from another one's deque.
#[derive(Drop)]
pub struct Taken<T> {
    /// The task.
    pub task: T,
    /// Whether it was in the deque of another worker.
    pub stolen: bool,
}

impl<T: Numbered + Drop, S: Sharing> Taker<T, S> {
    ghost use Rattle.std.specs.Prelude.{false};
    ghost use Rattle.reg_run.specs.Taking.{TakesNext, known_by, knows_put};

    /// Puts a task into the worker's own deque.
    ///
    /// # Errors
    /// `NoMemory` if memory ran out. Then the task is gone.
    pub fn put(&mut self, task: T) -> Result<(), NoMemory>
        ensures put { OnOk result (known_by self.new ≡ knows_put (T.number task ∷ []) (known_by self.old)) }
        ensures refused { IfErr result (λ _. known_by self.new ≡ known_by self.old) }
    {
        match self.owner.put(task) {
            Ok(()) => Ok(()),
            Err(_) => Err(NoMemory),
        }
    }

    /// The first task of the worker's own deque. `None` if it is empty.
    pub fn take_own(&mut self) -> Option<T>
        ensures some { IfSome result (λ t. TakesNext (known_by self.old) false (T.number t) (known_by self.new)) }
        ensures none { IfNone result (known_by self.new ≡ known_by self.old) }
    {
        self.owner.take_own()
    }

    /// The first task of the worker's own deque, or else of another one's. `None` if it found none.
    pub fn take(&mut self, yard: &Yard<T>) -> Option<Taken<T>>
        requires yard { deques yard.now ≡ S.deques }
        ensures some { IfSome result
            (λ t. TakesNext (known_by self.old) t.stolen (T.number t.task) (known_by self.new)) }
        ensures none { IfNone result (known_by self.new ≡ known_by self.old) }
    {
        if let Some(task) = self.take_own() {
            return Some(Taken {
                task,
                stolen: false,
            });
        }
        let task = steal(yard, &mut self.pass)?;
        Some(Taken { task, stolen: true })
    }
}

// Steals a task from another worker. If somebody was quicker, it backs off and looks again: each time a task was taken,
// so this comes to an end.
fn steal<T: Numbered + Drop>(yard: &Yard<T>, pass: &mut Pass<T>) -> Option<T>
    requires of { IsPassOf yard.now pass.old }
    ensures of { deques_of_pass pass.new ≡ deques_of_pass pass.old }
    ensures worker { worker_of pass.new ≡ worker_of pass.old }
    ensures some { IfSome result
        (λ t. StealsAny (worker_of pass.old) (views pass.old) (T.number t) (views pass.new)) }
    ensures none { IfNone result (views pass.new ≡ views pass.old) }
{
    let backoff = Backoff::new();
    for _look in 0..u32::MAX {
        match yard.steal_any(pass) {
            Steal::Success(task) => return Some(task),
            Steal::Empty => return None,
            Steal::Retry => backoff.snooze(),
        }
    }
    None
}
