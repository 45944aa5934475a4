//! A worker: what it has, and its steps.

ghost use Rattle.std.specs.Prelude.{◌≡◌, [], length};
ghost use Rattle.reg_claim.specs.Seats.{known, seat_table, IsToFinish};
ghost use Rattle.reg_tasks.specs.Gathering.{places_of};
ghost use Rattle.reg_work.specs.Shifts.{places_ran};

use crate::execution::Execution;
use crate::shared::Shared;
use reg_base::NoMemory;
use reg_claim::Seat;
use reg_deques::Numbered;
use reg_run::{ReadyWorker, Sharing, Taken, Taker};
use reg_tasks::{Done, Gate, Lack, LastParcel, Naming, Parcel, Ran, Task};
use std::alloc::Global;
use std::sync::Wait;
use std::sync::atomic::Ordering;

// So many places are opened at once. The values of so many instructions are still near the processor when they are run.
const AT_ONCE: u32 = 32;

/// A worker: how it takes tasks, its seat, and what it did.
#[derive(Drop)]
pub(crate) struct Worker<T: Numbered, N: Naming, S: Sharing> {
    pub(crate) taker: Taker<T, S>,
    pub(crate) seat: Seat,
    pub(crate) ran: Vec<Ran<N>>,
    pub(crate) done: Vec<Done<N>>,
    pub(crate) closing: Vec<LastParcel<N>>,
    pub(crate) ghost table_is: { seat_table seat ≡ S.table },
    pub(crate) ghost one_stake: { (known seat).stake ≡ 1 },
    pub(crate) ghost finished: { places_ran ran.items ≡ (known seat).finished },
    pub(crate) ghost rows: { places_of done.items ≡ (known seat).finished },
}

impl<N: Naming, S: Sharing> Worker<Task<N>, N, S> {
    ghost use Rattle.std.specs.Prelude.{◌⊎◌, true, false, Some, ◌++◌, ◌∷◌, IfOk, IfSome, IfNone, OnOk};
    ghost use Rattle.std.specs.Option.{option_map};
    ghost use Rattle.reg_plan.specs.Plans.{inward};
    ghost use Rattle.reg_tasks.specs.Contexts.{the_day};
    ghost use Rattle.reg_tasks.specs.Places.{IsPlaceOf};
    ghost use Rattle.reg_tasks.specs.Gathering.{is_last};
    ghost use Rattle.reg_tasks.specs.LastParcels.{parcels_in};
    ghost use Rattle.reg_tasks.specs.Parcels.{values_of};
    ghost use Rattle.reg_tasks.specs.Slots.{name_of};
    ghost use Rattle.reg_tasks.specs.Tasks.{task_of};
    ghost use Rattle.reg_run.specs.Taking.{TakesNext, known_by, knows_put};
    ghost use Rattle.reg_yard.specs.Parcels.{parcel_of, goes_to};
    ghost use Rattle.reg_work.specs.Ends.{sees_end};
    ghost use Rattle.reg_work.specs.Frames.{IsSameThief, OwnerAlone, SeatAlone, TakerAlone};
    ghost use Rattle.reg_work.specs.Handing.{IsDelivered, with_task};
    ghost use Rattle.reg_work.specs.Executions.{reply_at};

    /// A worker begins: it did nothing yet.
    pub(crate) fn new(alloc: Global, ready: ReadyWorker<Task<N>, S>) -> Worker<Task<N>, N, S>
        ensures same { known result.seat ≡ known ready.seat }
        ensures taker { known_by result.taker ≡ known_by ready.taker }
        ensures none { (result.ran.items ≡ []) × (result.done.items ≡ []) × (result.closing.items ≡ []) }
    {
        let ReadyWorker { taker, seat } = ready;
        Worker {
            taker,
            seat,
            ran: Vec::new(alloc),
            done: Vec::new(alloc),
            closing: Vec::new(alloc),
        }
    }

    /// Whether all places are finished, or the workers are to leave.
    pub(crate) fn is_over(&mut self, shared: &Shared<'_, Task<N>, N, S>) -> bool
        ensures over { result ≡ sees_end S.count (known self.new.seat) }
        ensures rest { SeatAlone self.old self.new }
    {
        let look = shared.table.look(&mut self.seat);
        look.stopped || look.done >= shared.context.batch().len()
    }

    /// Tells all workers to leave.
    pub(crate) fn stop(&mut self, shared: &Shared<'_, Task<N>, N, S>)
        ensures over { sees_end S.count (known self.new.seat) ≡ true }
        ensures rest { SeatAlone self.old self.new }
    {
        shared.table.stop(&mut self.seat);
    }

    /// Opens the next places of the day that no worker has opened, at most `AT_ONCE`, by copies of the book's accounts.
    /// Several workers may do so at once, each with other places. Answers `false` if all places were taken before.
    ///
    /// # Errors
    /// `Memory` if memory ran out. `Foreign` if a dock gives back an opening value.
    pub(crate) fn open_next<R: Wait>(
        &mut self,
        rt: &R,
        alloc: Global,
        shared: &Shared<'_, Task<N>, N, S>,
    ) -> Result<bool, Lack>
        ensures rest { OwnerAlone self.old self.new }
    {
        let count = shared.context.batch().len();
        if shared.opened.load(Ordering::SeqCst) >= count {
            return Ok(false);
        }
        let first = shared.opened.fetch_add(AT_ONCE, Ordering::SeqCst);
        for before in first..first.saturating_add(AT_ONCE).min(count) {
            self.open_place(rt, alloc, shared, before + 1)?;
        }
        Ok(true)
    }

    // Opens a place: puts its task into the worker's own deque, if the instruction waits for no other, and otherwise
    // delivers the opening values that it needs.
    fn open_place<R: Wait>(
        &mut self,
        rt: &R,
        alloc: Global,
        shared: &Shared<'_, Task<N>, N, S>,
        place: u32,
    ) -> Result<(), Lack>
        requires place { IsPlaceOf shared.now.context.now.batch.now place }
        ensures rest { OwnerAlone self.old self.new }
        ensures task { OnOk result
            (length (inward shared.now.context.now.plan.arrows place) ≡ 0
            → known_by self.new.taker ≡ knows_put (place ∷ []) (known_by self.old.taker)) }
    {
        if let Some(task) = Task::open(alloc, shared.context, place)? {
            return self.put(task);
        }
        let arrows = shared.context.arrows_to(place);
        for index in 0..shared.context.touched_at(place).len() {
            if let Some(parcel) = shared.context.opening_at(alloc, place, arrows, index)? {
                self.deliver(rt, shared, parcel)?;
            }
        }
        Ok(())
    }

    // Puts a task into the worker's own deque.
    fn put(&mut self, task: Task<N>) -> Result<(), Lack>
        ensures rest { OwnerAlone self.old self.new }
        ensures task { OnOk result
            (known_by self.new.taker ≡ knows_put (task.place ∷ []) (known_by self.old.taker)) }
    {
        self.taker.put(task)?;
        Ok(())
    }

    // Delivers an opening value to the dock that awaits it, and puts the task that is complete with it into the
    // worker's own deque.
    fn deliver<R: Wait>(
        &mut self,
        rt: &R,
        shared: &Shared<'_, Task<N>, N, S>,
        parcel: Parcel<N>,
    ) -> Result<(), Lack>
        ensures rest { OwnerAlone self.old self.new }
        ensures delivered { OnOk result
            (IsDelivered N.day (goes_to shared.now.docks.context.now.plan (parcel_of parcel)) (parcel_of parcel)
            (known_by self.old.taker).own (known_by self.new.taker).own) }
    {
        match shared.docks.deliver(rt, parcel) {
            Ok(task) => self.put_complete(task),
            Err(_) => Err(Lack::Foreign),
        }
    }

    // Puts a task that a dock gave out, if it did, into the worker's own deque.
    fn put_complete(&mut self, complete: Option<Task<N>>) -> Result<(), Lack>
        ensures rest { OwnerAlone self.old self.new }
        ensures task { OnOk result
            ((known_by self.new.taker).own ≡ with_task (option_map task_of complete) (known_by self.old.taker).own) }
    {
        match complete {
            Some(task) => self.put(task),
            None => Ok(()),
        }
    }

    /// The first task of its own deque.
    pub(crate) fn take_own(&mut self) -> Option<Task<N>>
        ensures rest { TakerAlone self.old self.new }
        ensures some { IfSome result
            (λ t. TakesNext (known_by self.old.taker) false t.place (known_by self.new.taker)) }
        ensures none { IfNone result (known_by self.new.taker ≡ known_by self.old.taker) }
    {
        self.taker.take_own()
    }

    /// The first task of its own deque, or else of another worker's: these are tried in rising number. `None` if each
    /// was empty.
    pub(crate) fn take(&mut self, shared: &Shared<'_, Task<N>, N, S>) -> Option<Taken<Task<N>>>
        ensures rest { TakerAlone self.old self.new }
        ensures some { IfSome result
            (λ t. TakesNext (known_by self.old.taker) t.stolen t.task.place (known_by self.new.taker)) }
        ensures none { IfNone result (known_by self.new.taker ≡ known_by self.old.taker) }
    {
        self.taker.take(&shared.yard)
    }

    /// Claims the place of a task, then passes the gate and runs the task. If the place is claimed already, the task is
    /// not run, and there is no execution.
    ///
    /// # Errors
    /// `Memory` if memory ran out. If no day is named, also if the task is of another context, and `Foreign` if its
    /// place is none of this one.
    pub(crate) fn run<G: Gate>(
        &mut self,
        alloc: Global,
        shared: &Shared<'_, Task<N>, N, S>,
        gate: &G,
        worker: u32,
        task: Task<N>,
    ) -> Result<Option<Execution<N>>, Lack>
        ensures execution { IfOk result
            (λ execution. IfSome execution (λ t. IsToFinish t.ran.place (known self.new.seat))) }
        ensures rest { SeatAlone self.old self.new }
        ensures place { IfOk result (λ execution. IfSome execution (λ t. t.ran.place ≡ task.place)) }
        ensures made { IfOk result
            (λ execution. IfSome execution
            (λ t. reply_at (the_day shared.now.context.now) task.place (values_of task.parcels.items)
            ≡ Some (values_of t.left.items, t.done.reply))) }
        ensures none { IfOk result (λ execution. IfNone execution (known self.new.seat ≡ known self.old.seat)) }
    {
        let place = task.place();
        if place == 0 || place > shared.context.batch().len() {
            return Err(Lack::Foreign);
        }
        if !shared.table.claim(&mut self.seat, place) {
            return Ok(None);
        }
        let execution = self.run_claimed(alloc, shared, gate, worker, task)?;
        Ok(Some(execution))
    }

    // Passes the gate with a task whose place the worker has claimed, and runs it. No worker that steals runs a task
    // anywhere else.
    fn run_claimed<G: Gate>(
        &self,
        alloc: Global,
        shared: &Shared<'_, Task<N>, N, S>,
        gate: &G,
        worker: u32,
        task: Task<N>,
    ) -> Result<Execution<N>, Lack>
        requires claimed { IsToFinish task.place (known self.now.seat) }
        ensures place { IfOk result (λ t. t.ran.place ≡ task.place) }
        ensures made { IfOk result
            (λ t. reply_at (the_day shared.now.context.now) task.place (values_of task.parcels.items)
            ≡ Some (values_of t.left.items, t.done.reply)) }
    {
        gate.enter(worker, &task);
        let Ok(outcome) = task.run(alloc, shared.context) else {
            return Err(Lack::Memory);
        };
        let (ran, done, left) = outcome.into_done();
        Ok(Execution { ran, done, left })
    }

    /// Hands on what an instruction left: to the dock of the instruction that waits for it, and each task that is
    /// complete with it into the worker's own deque. What no later instruction needs is kept.
    ///
    /// # Errors
    /// `Memory` if memory ran out. `Foreign` if a dock gives back a parcel that a later instruction needs.
    pub(crate) fn hand_on<R: Wait>(
        &mut self,
        rt: &R,
        shared: &Shared<'_, Task<N>, N, S>,
        execution: &mut Execution<N>,
    ) -> Result<(), Lack>
        ensures seat { self.new.seat ≡ self.old.seat }
        ensures work { (self.new.ran ≡ self.old.ran) × (self.new.done ≡ self.old.done) }
        ensures others { IsSameThief (known_by self.old.taker) (known_by self.new.taker) }
        ensures ran { (execution.new.ran ≡ execution.old.ran) × (execution.new.done ≡ execution.old.done) }
        ensures all { OnOk result (execution.new.left.items ≡ []) }
    {
        while let Some(parcel) = execution.left.pop() {
            self.hand_on_one(rt, shared, parcel)?;
        }
        Ok(())
    }

    // Hands on one parcel that an instruction left. Most parcels are awaited, so their docks are asked first; one that
    // comes back is kept, if no later instruction needs it.
    fn hand_on_one<R: Wait>(
        &mut self,
        rt: &R,
        shared: &Shared<'_, Task<N>, N, S>,
        parcel: Parcel<N>,
    ) -> Result<(), Lack>
        ensures seat { self.new.seat ≡ self.old.seat }
        ensures work { (self.new.ran ≡ self.old.ran) × (self.new.done ≡ self.old.done) }
        ensures others { IsSameThief (known_by self.old.taker) (known_by self.new.taker) }
        ensures handed { OnOk result
            (IsDelivered N.day (goes_to shared.now.docks.context.now.plan (parcel_of parcel)) (parcel_of parcel)
            (known_by self.old.taker).own (known_by self.new.taker).own
            ⊎ (parcels_in self.new.closing.items ≡ parcels_in self.old.closing.items ++ parcel ∷ [])) }
    {
        match shared.docks.deliver(rt, parcel) {
            Ok(complete) => self.put_complete(complete),
            Err(back) => self.keep(shared, back),
        }
    }

    // Keeps a parcel that no dock awaits, if it is the last one of its account.
    fn keep(&mut self, shared: &Shared<'_, Task<N>, N, S>, parcel: Parcel<N>) -> Result<(), Lack>
        ensures seat { self.new.seat ≡ self.old.seat }
        ensures work { (self.new.ran ≡ self.old.ran) × (self.new.done ≡ self.old.done) }
        ensures taker { self.new.taker ≡ self.old.taker }
        ensures kept { OnOk result
            (parcels_in self.new.closing.items ≡ parcels_in self.old.closing.items ++ parcel ∷ []) }
        ensures last { OnOk result
            (is_last (the_day shared.now.context.now) shared.now.context.now.plan (name_of parcel) ≡ true) }
    {
        let Ok(last) = shared.context.last_parcel(parcel) else {
            return Err(Lack::Foreign);
        };
        self.closing.push(last)?;
        Ok(())
    }

    /// Counts the place of an execution as finished, and keeps its reply. All that it left was handed on.
    ///
    /// # Errors
    /// `NoMemory` if memory ran out.
    pub(crate) fn finish(
        &mut self,
        shared: &Shared<'_, Task<N>, N, S>,
        execution: Execution<N>,
    ) -> Result<(), NoMemory>
        requires claimed { IsToFinish execution.ran.place (known self.old.seat) }
        requires handed { execution.left.items ≡ [] }
        ensures ran { OnOk result (self.new.ran.items ≡ self.old.ran.items ++ execution.ran ∷ []) }
        ensures done { OnOk result (self.new.done.items ≡ self.old.done.items ++ execution.done ∷ []) }
        ensures closing { self.new.closing ≡ self.old.closing }
        ensures taker { self.new.taker ≡ self.old.taker }
    {
        self.ran.reserve(1)?;
        self.done.reserve(1)?;
        let Execution { ran, done, .. } = execution;
        shared.table.finish(&mut self.seat, ran.place());
        self.ran.push_reserved(ran);
        self.done.push_reserved(done);
        Ok(())
    }
}
