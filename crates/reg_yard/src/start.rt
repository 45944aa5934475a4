//! The docks at the start.

ghost use Rattle.std.specs.Prelude.{◌≡◌, ◌==◌, ◌++◌, [], Some, None, length, map, IfOk, if◌then◌else◌};
ghost use Rattle.reg_base.specs.Rising.{count_up};
ghost use Rattle.reg_plan.specs.Plans.{inward};
ghost use Rattle.reg_tasks.specs.Contexts.{the_day};
ghost use Rattle.reg_tasks.specs.Places.{IsPlaceOf};
ghost use Rattle.reg_tasks.specs.Tasks.{task_of};
ghost use Rattle.reg_yard.specs.AtOnce.{tasks_from, tasks_at_once};
ghost use Rattle.reg_yard.specs.Dock.{came_to};
ghost use Rattle.reg_yard.specs.Docks.{dock_places};

use crate::dock::Dock;
use crate::locked::LockedDock;
use reg_base::NoMemory;
use reg_tasks::{Context, Naming, Task};
use std::alloc::Global;

// The dock of a place behind a lock. If its task awaits nothing, it comes behind the others.
fn open_dock<'c, 'a, N: Naming>(
    alloc: Global,
    context: &'c Context<'a, N>,
    place: u32,
    tasks: &mut Vec<Task<N>>,
) -> Result<LockedDock<'c, 'a, N>, NoMemory>
    requires place { IsPlaceOf context.now.batch.now place }
    ensures place { IfOk result (λ dock. dock.place ≡ place) }
    ensures tasks { IfOk result
        (λ dock. map task_of tasks.new.items
        ≡ map task_of tasks.old.items ++ tasks_from (the_day context.now) place 1) }
{
    let (dock, task) = Dock::new(alloc, context, place)?;
    if let Some(task) = task {
        tasks.push(task)?;
    }
    Ok(LockedDock::new(dock))
}

/// A dock for each place, to which nothing has come yet, and the tasks that await nothing, by rising place.
pub(crate) fn open_docks<'c, 'a, N: Naming>(
    alloc: Global,
    context: &'c Context<'a, N>,
) -> Result<(Vec<LockedDock<'c, 'a, N>>, Vec<Task<N>>), NoMemory>
    ensures places { IfOk result (λ r. dock_places r.0.items ≡ count_up 1 (length context.now.batch.now.instructions)) }
    ensures tasks { IfOk result (λ r. map task_of r.1.items ≡ tasks_at_once (the_day context.now)) }
{
    let places = context.batch().len();
    let mut docks = Vec::with_capacity(alloc, places as usize)?;
    let mut tasks = Vec::new(alloc);
    for before in 0..places {
        docks.push(open_dock(alloc, context, before + 1, &mut tasks)?)?;
    }
    Ok((docks, tasks))
}

// The dock of a place at the start, if the tasks that wait for no other are made elsewhere: one that awaits parcels if
// the instruction waits for another, and otherwise one whose task has gone out.
fn waiting_dock<'c, 'a, N: Naming>(
    alloc: Global,
    context: &'c Context<'a, N>,
    place: u32,
) -> Result<Dock<'c, 'a, N>, NoMemory>
    requires place { IsPlaceOf context.now.batch.now place }
    ensures place { IfOk result (λ dock. dock.place ≡ place) }
    ensures came { IfOk result
        (λ dock. came_to dock ≡ (if length (inward context.now.plan.arrows place) == 0 then None else Some [])) }
{
    if context.waits(place) {
        return Dock::waiting(alloc, context, place);
    }
    Ok(Dock::emptied(context, place))
}

/// A dock for each place. Nothing has come yet to those of instructions that wait for others; the tasks of all others
/// have gone out.
pub(crate) fn waiting_docks<'c, 'a, N: Naming>(
    alloc: Global,
    context: &'c Context<'a, N>,
) -> Result<Vec<LockedDock<'c, 'a, N>>, NoMemory>
    ensures { IfOk result (λ docks. dock_places docks.items ≡ count_up 1 (length context.now.batch.now.instructions)) }
{
    let places = context.batch().len();
    let mut docks = Vec::with_capacity(alloc, places as usize)?;
    for before in 0..places {
        docks.push(LockedDock::new(waiting_dock(alloc, context, before + 1)?))?;
    }
    Ok(docks)
}
