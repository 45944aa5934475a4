//! An instruction with the values of its accounts.

ghost use Rattle.std.specs.Prelude.{◌≡◌};
ghost use Rattle.reg_tasks.specs.Names.{AreComplete};
ghost use Rattle.reg_tasks.specs.Parcels.{names_of};

use crate::context::Context;
use crate::naming::Naming;
use crate::needs::{are_needed, are_of, put_in_order};
use crate::opened::open_all;
use crate::outcome::TaskOutcome;
use crate::parcel::Parcel;
use crate::run::{apply_at, are_behind, number_of, pack, pack_after, unpack};
use reg_base::NoMemory;
use reg_base::laws::{each_footprint_is_sound, last_toucher_is_last};
use reg_book::{each_is_a_step, stays_ready, value_is_last_touchers};
use reg_deques::Numbered;
use reg_plan::laws::tails_are_last_touchers;
use reg_rules::step_laws;
use std::alloc::Global;

/// An instruction with the parcels of its footprint, complete. If a day is named, they are those that the instruction
/// needs.
#[derive(Drop)]
pub struct Task<N: Naming> {
    place: u32,
    parcels: Vec<Parcel<N>>,
    pub ghost complete: { AreComplete N.day place (names_of parcels.items) },
}

// In a deque it counts as its place.
impl<N: Naming> Numbered for Task<N> {
    ghost number = { λ t. t.place };
}

impl<N: Naming> Task<N> {
    ghost use Rattle.std.specs.Prelude.{◌≤◌, ◌==◌, true, Some, length, map, is_some, IfOk, IfErr, IfSome};
    ghost use Rattle.reg_rules.specs.State.{account};
    ghost use Rattle.reg_plan.specs.Plans.{inward};
    ghost use Rattle.reg_book.specs.Day.{DayValue};
    ghost use Rattle.reg_tasks.specs.Contexts.{the_day};
    ghost use Rattle.reg_tasks.specs.Places.{IsPlaceOf};
    ghost use Rattle.reg_schedules.specs.Pool.{footprint_at, run_at};
    ghost use Rattle.reg_tasks.specs.Parcels.{values_of, afters_of, parcels_of};
    ghost use Rattle.reg_schedules.specs.Docks.{names_needed};
    ghost use Rattle.reg_tasks.specs.Names.{IsFor};
    ghost use Rattle.reg_base.specs.declared.limits.TheConstants.{MOST_TOUCHED};
    ghost use Rattle.reg_schedules.specs.World.{left_by};
    ghost use Rattle.reg_tasks.specs.Tasks.{are_all, Assembles, IsTaskOf};

    /// The task of a place, exactly if the parcels are, in any order, one for each account that its instruction
    /// touches, each named by the tail of the arrow that leads there, or by 0 if there is none. The place is counted
    /// from 1. Takes no memory.
    ///
    /// # Errors
    /// The parcels as they were, if they are not those.
    pub fn assemble(
        context: &Context<N>,
        place: u32,
        parcels: Vec<Parcel<N>>,
    ) -> Result<Task<N>, Vec<Parcel<N>>>
        requires place { IsPlaceOf context.now.batch.now place }
        ensures { Assembles (the_day context.now) context.now.plan place parcels result }
    {
        let touched = context.touched_at(place);
        let arrows = context.arrows_to(place);
        if !are_needed(&parcels, touched, arrows) {
            return Err(parcels);
        }
        Ok(Task::of_unordered(context, place, parcels))
    }

    /// The task of a place with just the parcels that its instruction needs, in any order. Tests nothing: for a dock,
    /// which has tested each of them when it came. The place is counted from 1. Takes no memory.
    pub fn of_unordered(context: &Context<N>, place: u32, mut parcels: Vec<Parcel<N>>) -> Task<N>
        requires place { IsPlaceOf context.now.batch.now place }
        requires needed { are_all (the_day context.now) context.now.plan place parcels.items ≡ true }
        ensures { IsTaskOf (the_day context.now) context.now.plan place parcels.items result }
    {
        each_footprint_is_sound();
        last_toucher_is_last();
        tails_are_last_touchers();
        put_in_order(
            &mut parcels,
            context.touched_at(place),
            context.arrows_to(place),
        );
        Task { place, parcels }
    }

    /// The task of a place with just the parcels that its instruction needs, in the order of its footprint. Tests
    /// nothing: for the slots, which have tested what they take.
    pub(crate) fn of_needed(context: &Context<N>, place: u32, parcels: Vec<Parcel<N>>) -> Task<N>
        requires place { IsPlaceOf context.now.batch.now place }
        requires needed { names_of parcels.items
            ≡ names_needed (inward context.now.plan.arrows place) (footprint_at (the_day context.now) place) }
        ensures place { result.place ≡ place }
        ensures parcels { result.parcels ≡ parcels }
    {
        let _context = context;
        last_toucher_is_last();
        tails_are_last_touchers();
        Task { place, parcels }
    }

    /// The task of a place with the opening values of the accounts that its instruction touches, in the order of its
    /// footprint, exactly if no arrow leads to the place. The place is counted from 1.
    ///
    /// # Errors
    /// `NoMemory` if memory ran out.
    pub fn open(
        alloc: Global,
        context: &Context<N>,
        place: u32,
    ) -> Result<Option<Task<N>>, NoMemory>
        requires place { IsPlaceOf context.now.batch.now place }
        ensures waits { IfOk result (λ t. is_some t ≡ (length (inward context.now.plan.arrows place) == 0)) }
        ensures place { IfOk result (λ t. IfSome t (λ t. t.place ≡ place)) }
        ensures names { IfOk result
            (λ t. IfSome t (λ t. names_of t.parcels.items
            ≡ map (λ a. (a, 0)) (footprint_at (the_day context.now) place))) }
        ensures values { IfOk result
            (λ t. IfSome t (λ t. map (λ p. Some p.value) t.parcels.items
            ≡ map (λ a. account context.now.book.now.accounts a) (footprint_at (the_day context.now) place))) }
    {
        if !context.arrows_to(place).is_empty() {
            return Ok(None);
        }
        each_footprint_is_sound();
        last_toucher_is_last();
        tails_are_last_touchers();
        let likely = context.likely_slots(place);
        let parcels = open_all(alloc, context, context.touched_at(place), likely)?;
        Ok(Some(Task { place, parcels }))
    }

    /// The place of its instruction, counted from 1.
    pub fn place(&self) -> u32
        ensures { result ≡ self.now.place }
    {
        self.place
    }

    /// How many parcels it has: one for each account that its instruction touches.
    pub fn parcel_count(&self) -> usize
        ensures { result ≡ length self.now.parcels.items }
    {
        self.parcels.len()
    }

    // Whether the task is of the context: its place is one of the context's, its parcels are of the accounts that the
    // instruction touches, and their surrenders and deletions have lower record numbers. If a day is named, it is.
    fn fits(&self, context: &Context<N>) -> bool
        ensures is_for { result ≡ true → IsFor (the_day context.now) self.now.place (values_of self.now.parcels.items) }
        ensures named { (d : DayValue) → N.day ≡ Some d → result ≡ true }
    {
        context.is_day();
        stays_ready();
        value_is_last_touchers();
        if self.place == 0 || self.place > context.batch().len() {
            return false;
        }
        let touched = context.touched_at(self.place);
        if !are_of(&self.parcels, touched) {
            return false;
        }
        are_behind(number_of(context, self.place), &self.parcels)
    }

    /// Runs the instruction on the task's own values. The parcels that come out are named by the task's place.
    ///
    /// # Errors
    /// The task as it was, if memory ran out. If no day is named, also if the task is of another context and does not
    /// fit this one: its place is none of the batch, its accounts are not those that the instruction there touches, or
    /// one of them has a surrender or deletion with the record number of the instruction or a higher one.
    pub fn run(self, alloc: Global, context: &Context<N>) -> Result<TaskOutcome<N>, Task<N>>
        ensures place { IfOk result (λ o. o.place ≡ self.place) }
        ensures made { IfOk result
            (λ o. run_at (the_day context.now) self.place (values_of self.parcels.items)
            ≡ Some (values_of o.parcels.items, o.row)) }
        ensures left { IfOk result (λ o. parcels_of o.parcels.items ≡ left_by self.place (values_of o.parcels.items)) }
        ensures few { IfOk result (λ o. length o.parcels.items ≤ MOST_TOUCHED) }
        ensures back { IfErr result
            (λ t. (t.place ≡ self.place) × (values_of t.parcels.items ≡ values_of self.parcels.items)
            × (afters_of t.parcels.items ≡ afters_of self.parcels.items)) }
    {
        each_footprint_is_sound();
        step_laws();
        each_is_a_step();
        value_is_last_touchers();
        if !self.fits(context) {
            return Err(self);
        }
        let count = self.parcels.len();
        let Ok(room) = Vec::with_capacity(alloc, count) else {
            return Err(self);
        };
        let Ok(left) = Vec::with_capacity(alloc, count) else {
            return Err(self);
        };
        let Task { place, parcels } = self;
        let likely = context.likely_slots(place);
        let (mut own, afters) = unpack(parcels, room);
        let Ok(row) = apply_at(alloc, context, place, &mut own) else {
            let parcels = pack(own, afters.as_slice(), likely, left);
            return Err(Task { place, parcels });
        };
        let parcels = pack_after(own, place, likely, left);
        Ok(TaskOutcome::new(place, row, parcels))
    }
}
