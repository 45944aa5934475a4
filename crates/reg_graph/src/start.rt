//! The parts of a world at the start.

ghost use Rattle.std.specs.Prelude.{◌≡◌, ◌≤◌, [], None, All, IfOk, map, replicate};
ghost use Rattle.std.specs.VecDeque.{deque_capacity};
ghost use Rattle.reg_schedules.specs.World.{empty};
ghost use Rattle.reg_tasks.specs.Tasks.{task_of};
ghost use Rattle.reg_graph.specs.WorldParts.{hand_of};

use crate::docks::open_dock;
use crate::hand::Hand;
use crate::world_parts::Parts;
use reg_base::NoMemory;
use reg_rules::LogRow;
use reg_tasks::{Context, Naming, Task};
use std::alloc::Global;
use std::collections::VecDeque;

// A list without tasks for each worker, with room for a task of each place.
fn empty_lists<N: Naming>(
    alloc: Global,
    workers: u32,
    places: usize,
) -> Result<Vec<VecDeque<Task<N>>>, NoMemory>
    ensures lists { IfOk result (λ lists. map (λ tasks. map task_of tasks.items) lists.items ≡ replicate workers []) }
    ensures room { IfOk result (λ lists. All (λ tasks. places ≤ deque_capacity tasks) lists.items) }
{
    let mut lists = Vec::with_capacity(alloc, workers as usize)?;
    for _ in 0..workers {
        lists.push(VecDeque::with_capacity(alloc, places)?)?;
    }
    Ok(lists)
}

// An empty hand for each worker.
fn empty_hands<N: Naming>(alloc: Global, workers: u32) -> Result<Vec<Hand<N>>, NoMemory>
    ensures { IfOk result (λ hands. map hand_of hands.items ≡ replicate workers empty) }
{
    let mut hands = Vec::with_capacity(alloc, workers as usize)?;
    for _ in 0..workers {
        hands.push(Hand::Carries(None, Vec::new(alloc)))?;
    }
    Ok(hands)
}

// No row yet for each place.
fn no_rows(alloc: Global, places: u32) -> Result<Vec<Option<LogRow>>, NoMemory>
    ensures { IfOk result (λ rows. rows.items ≡ replicate places None) }
{
    let mut rows = Vec::with_capacity(alloc, places as usize)?;
    for _ in 0..places {
        rows.push(None)?;
    }
    Ok(rows)
}

impl<N: Naming> Parts<N> {
    ghost use Rattle.std.specs.Prelude.{◌+◌, ◌++◌, ◌∷◌, ◌<◌, length};
    ghost use Rattle.reg_tasks.specs.Contexts.{the_day};
    ghost use Rattle.reg_tasks.specs.Places.{IsPlaceOf};
    ghost use Rattle.reg_schedules.specs.World.{dock_at, at_start};
    ghost use Rattle.reg_graph.specs.WorldParts.{docks_of, DocksHaveRoom, task_lists, world_of, task_at_start, IsDealt};

    // No dock yet. Each list is without tasks, each hand is empty, and no place has a row.
    fn without_docks(alloc: Global, places: u32, workers: u32) -> Result<Parts<N>, NoMemory>
        ensures none { IfOk result (λ parts. parts.docks.items ≡ []) }
        ensures world { IfOk result
            (λ parts. world_of parts
            ≡ record {
              docks = [];
              lists = replicate workers [];
              hands = replicate workers empty;
              rows = replicate places None;
              closing = [];
            }) }
    {
        let count = places as usize;
        Ok(Parts {
            docks: Vec::with_capacity(alloc, count)?,
            lists: empty_lists(alloc, workers, count)?,
            hands: empty_hands(alloc, workers)?,
            rows: no_rows(alloc, places)?,
            closing: Vec::new(alloc),
            log: Vec::with_capacity(alloc, count)?,
        })
    }

    // Adds the dock of the next place. If its task is complete from the first, it goes to the end of the worker's list.
    // Answers the worker to whom the next task goes.
    fn open_place(
        &mut self,
        alloc: Global,
        context: &Context<N>,
        place: u32,
        worker: usize,
    ) -> Result<usize, NoMemory>
        requires place { IsPlaceOf context.now.batch.now place }
        requires there { worker < length self.old.lists.items }
        requires next { length self.old.docks.items + 1 ≡ place }
        requires rooms { DocksHaveRoom (the_day context.now) self.old.docks.items }
        ensures there { IfOk result (λ next. next < length self.new.lists.items) }
        ensures count { IfOk result (λ next. length self.new.docks.items ≡ length self.old.docks.items + 1) }
        ensures rooms { IfOk result (λ next. DocksHaveRoom (the_day context.now) self.new.docks.items) }
        ensures docks { IfOk result
            (λ next. docks_of self.new.docks.items
            ≡ docks_of self.old.docks.items ++ dock_at (the_day context.now) context.now.plan place ∷ []) }
        ensures lists { IfOk result
            (λ next. IsDealt (task_at_start (the_day context.now) context.now.plan place) worker
            (task_lists self.old.lists.items) next (task_lists self.new.lists.items)) }
        ensures others { IfOk result
            (λ next. world_of self.new
            ≡ record (world_of self.old) {
              docks = docks_of self.new.docks.items;
              lists = task_lists self.new.lists.items;
            }) }
    {
        let came = open_dock(alloc, context, place)?;
        match Task::assemble(context, place, came) {
            Ok(task) => {
                self.docks.push(None)?;
                self.lists[worker].push_back(task)?;
                let next = worker + 1;
                Ok(if next == self.lists.len() { 0 } else { next })
            }
            Err(came) => {
                self.docks.push(Some(came))?;
                Ok(worker)
            }
        }
    }

    /// The parts at the start: the opening values lie in the docks of the instructions that need them, and the tasks
    /// that are complete from the first are dealt to the workers' lists, by rising place, in turn from worker 0.
    ///
    /// # Errors
    /// `NoMemory` if memory ran out.
    pub(crate) fn at_start(
        alloc: Global,
        context: &Context<N>,
        workers: u32,
    ) -> Result<Parts<N>, NoMemory>
        requires some { 1 ≤ workers }
        ensures start { IfOk result
            (λ parts. world_of parts ≡ at_start (the_day context.now) context.now.plan workers) }
        ensures rooms { IfOk result (λ parts. DocksHaveRoom (the_day context.now) parts.docks.items) }
    {
        let places = context.batch().len();
        let mut parts = Parts::without_docks(alloc, places, workers)?;
        let mut worker = 0;
        for before in 0..places {
            worker = parts.open_place(alloc, context, before + 1, worker)?;
        }
        Ok(parts)
    }
}
