//! A use of `reg_levels`.

ghost use Rattle.std.specs.Prelude.{◌≡◌, IfSome};
ghost use Rattle.reg_book.specs.Day.{settled_day};

use reg_book::Settled;
use reg_levels::Levels;
use reg_tasks::{Context, Naming};
use std::alloc::Global;

/// Settles a day level by level, on the calling thread. `None` if memory ran out.
pub fn settle_by_levels<N: Naming>(alloc: Global, context: &Context<N>) -> Option<Settled>
    ensures { IfSome result (λ s. IfSome N.day (λ day. s ≡ settled_day day)) }
{
    let mut levels = Levels::open(alloc, context).ok()?;
    while levels.are_left() {
        let mut outcomes = Vec::new(alloc);
        for task in levels.take(alloc, 256).ok()? {
            // No two of these touch the same account, so they may run at the same time.
            outcomes.push(task.run(alloc, context).ok()?).ok()?;
        }
        levels.lay(outcomes).ok()?;
    }
    levels.into_settled(alloc).ok()
}
