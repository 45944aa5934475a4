//! A use of `reg_tasks`.

ghost use Rattle.std.specs.Prelude.{◌≡◌, true, IfSome, OnSome};
ghost use Rattle.reg_plan.specs.Plans.{inward};
ghost use Rattle.reg_schedules.specs.Pool.{footprint_at};
ghost use Rattle.reg_schedules.specs.Docks.{names_needed};
ghost use Rattle.reg_tasks.specs.Contexts.{the_day};
ghost use Rattle.reg_tasks.specs.Names.{has_names, IsRowOfDay, AreLeft};
ghost use Rattle.reg_tasks.specs.Parcels.{names_of};
ghost use Rattle.reg_tasks.specs.Places.{IsPlaceOf};

use reg_tasks::{Context, Naming, Parcel, Task, TaskOutcome};
use std::alloc::Global;

/// Runs the instruction at a place, counted from 1, on these values of accounts, if they are those that it needs.
/// If a day is named, its row is the day's. `None` if they are others, or memory ran out.
pub fn run_on<N: Naming>(
    alloc: Global,
    context: &Context<N>,
    place: u32,
    parcels: Vec<Parcel<N>>,
) -> Option<TaskOutcome<N>>
    requires place { IsPlaceOf context.now.batch.now place }
    ensures needed { IfSome result
        (λ _. has_names (names_of parcels.items)
        (names_needed (inward context.now.plan.arrows place) (footprint_at (the_day context.now) place)) ≡ true) }
    ensures row { IfSome result (λ o. IsRowOfDay N.day place o.row) }
    ensures left { IfSome result (λ o. AreLeft N.day place (names_of o.parcels.items)) }
{
    let task = Task::assemble(context, place, parcels).ok()?;
    task.run(alloc, context).ok()
}
