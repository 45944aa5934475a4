//! The workers' world.

ghost use Rattle.std.specs.Prelude.{◌≡◌, ◌≤◌, IfOk};
ghost use Rattle.reg_tasks.specs.Contexts.{the_day};
ghost use Rattle.reg_schedules.specs.World.{at_start};
ghost use Rattle.reg_schedules.specs.Schedules.{IsReached};
ghost use Rattle.reg_graph.specs.WorldParts.{world_of, DocksHaveRoom};
ghost use Rattle.reg_schedules.specs.declared.event.TheConstants.{MOST_WORKERS};

use crate::world_parts::Parts;
use reg_base::NoMemory;
use reg_schedules::MOST_WORKERS;
use reg_tasks::{Context, Naming};
use std::alloc::Global;

/// Workers with their lists of tasks, the docks in which parcels wait for each other, and what was done. Some schedule
/// of the workers' events leads to it from the start. A dock has room for the accounts that its instruction touches,
/// and for no more.
#[derive(Drop)]
pub struct World<'c, 'a, N: Naming> {
    pub(crate) context: &'c Context<'a, N>,
    pub(crate) alloc: Global,
    pub(crate) parts: Parts<N>,
    pub ghost reached: { ∥ IsReached (the_day context.now) context.now.plan (world_of parts) ∥₁ },
    pub ghost dock_room: { DocksHaveRoom (the_day context.now) parts.docks.items },
}

impl<'c, 'a, N: Naming> World<'c, 'a, N> {
    /// The world before the first event. The opening values lie in the docks of the instructions that need them. The
    /// tasks that are complete from the first are dealt to the workers' lists by rising place, in turn from worker 0.
    /// No worker has anything in hand. There are 1 to 8 workers.
    ///
    /// # Errors
    /// `NoMemory` if memory ran out.
    pub fn new(
        alloc: Global,
        context: &'c Context<'a, N>,
        workers: u32,
    ) -> Result<World<'c, 'a, N>, NoMemory>
        requires some { 1 ≤ workers }
        requires few { workers ≤ MOST_WORKERS }
        ensures start { IfOk result (λ w. world_of w.parts ≡ at_start (the_day context.now) context.now.plan workers) }
        ensures context { IfOk result (λ w. w.context.now ≡ context.now) }
    {
        let parts = Parts::at_start(alloc, context, workers)?;
        Ok(World {
            context,
            alloc,
            parts,
        })
    }

    /// The day that the workers settle.
    pub fn context(&self) -> &'c Context<'a, N>
        ensures { result.now ≡ self.now.context.now }
    {
        self.context
    }
}

/// The most workers of a world are 8.
pub fn most_workers_are_eight()
    ensures { MOST_WORKERS ≡ 8 }
{}
