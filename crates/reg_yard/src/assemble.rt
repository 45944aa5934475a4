//! The task of a place, if its parcels are there.

ghost use Rattle.std.specs.Prelude.{◌≡◌, length, IfSome, IsPermutation, vec_capacity};
ghost use Rattle.std.specs.Option.{option_map};
ghost use Rattle.reg_schedules.specs.Pool.{footprint_at};
ghost use Rattle.reg_tasks.specs.Contexts.{the_day};
ghost use Rattle.reg_tasks.specs.Places.{IsPlaceOf};
ghost use Rattle.reg_tasks.specs.Parcels.{parcels_of};
ghost use Rattle.reg_tasks.specs.Tasks.{task_of};
ghost use Rattle.reg_yard.specs.Held.{left_at, waiting_of, FitInDock, FewWait, HaveRoom};

use crate::awaited::awaited_accounts;
use reg_tasks::{Context, Naming, Parcel, Task};

/// The task of a place, if these parcels are all that it awaits, and otherwise the parcels. The place is counted from
/// 1.
pub(crate) fn try_assemble<N: Naming>(
    context: &Context<N>,
    place: u32,
    parcels: Vec<Parcel<N>>,
) -> (Option<Vec<Parcel<N>>>, Option<Task<N>>)
    requires place { IsPlaceOf context.now.batch.now place }
    requires few { FitInDock (the_day context.now) context.now.plan place (parcels_of parcels.items) }
    requires room { vec_capacity parcels ≡ length (footprint_at (the_day context.now) place) }
    ensures left { (waiting_of result.0, option_map task_of result.1)
        ≡ left_at (the_day context.now) context.now.plan place (parcels_of parcels.items) }
    ensures few { FewWait (the_day context.now) context.now.plan place result.0 }
    ensures room { HaveRoom (the_day context.now) place result.0 }
    ensures place { IfSome result.1 (λ t. t.place ≡ place) }
    ensures parcels { IfSome result.1 (λ t. IsPermutation parcels.items t.parcels.items) }
{
    if parcels.len() < awaited_accounts(context, place).len() {
        return (Some(parcels), None);
    }
    // Each that came was awaited, and none came twice: so as many as the accounts are all of them.
    let task = Task::of_unordered(context, place, parcels);
    (None, Some(task))
}
