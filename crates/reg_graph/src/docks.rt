//! The docks at the start.

ghost use Rattle.std.specs.Prelude.{◌≡◌, length, IfOk, vec_capacity};
ghost use Rattle.reg_tasks.specs.Contexts.{the_day};
ghost use Rattle.reg_tasks.specs.Places.{IsPlaceOf};
ghost use Rattle.reg_schedules.specs.Pool.{footprint_at};
ghost use Rattle.reg_schedules.specs.World.{opened_at};
ghost use Rattle.reg_tasks.specs.Parcels.{parcels_of};

use reg_base::NoMemory;
use reg_tasks::{Context, Naming, Parcel};
use std::alloc::Global;

// The opening values that lie in the dock of a place at the start, with room for all parcels that it awaits, and for no
// more: one for each account that its instruction touches.
pub(crate) fn open_dock<N: Naming>(
    alloc: Global,
    context: &Context<N>,
    place: u32,
) -> Result<Vec<Parcel<N>>, NoMemory>
    requires place { IsPlaceOf context.now.batch.now place }
    ensures came { IfOk result
        (λ came. parcels_of came.items ≡ opened_at (the_day context.now) context.now.plan place) }
    ensures room { IfOk result (λ came. vec_capacity came ≡ length (footprint_at (the_day context.now) place)) }
{
    let accounts = context.touched_at(place);
    let mut came = Vec::with_capacity(alloc, accounts.len())?;
    for account in accounts {
        if context.tail_of(place, *account) == 0 {
            came.push_reserved(context.opening(alloc, *account)?);
        }
    }
    Ok(came)
}
