//! A use of `reg_deques`.

ghost use Rattle.std.specs.Prelude.{IfSome, ◌∷◌, []};
ghost use Rattle.reg_deques.specs.Views.{with_put};
ghost use Rattle.reg_deques.specs.Steps.{TakesOwn};
ghost use Rattle.reg_deques.specs.Passes.{owned};

use reg_deques::{Numbered, Owner};

/// Puts a task behind those of a worker's deque, and takes the first one, which is this task only if no other is
/// there. `None` if the deque has no room for it, or if thieves have taken all tasks.
pub fn put_and_take<T: Numbered + Drop>(owner: &mut Owner<T>, task: T) -> Option<T>
    ensures { IfSome result (λ t. TakesOwn (with_put (T.number task ∷ []) (owned owner.old)) (T.number t)
        (owned owner.new)) }
{
    owner.put(task).ok()?;
    owner.take_own()
}
