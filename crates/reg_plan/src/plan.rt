//! The plan of a batch.

ghost use Rattle.std.specs.Prelude.{◌≡◌, ◌-◌, ◌≤◌, [], None, IfOk, IfErr, OnOk, length, slice_index_or};
ghost use Rattle.reg_base.specs.declared.limits.TheConstants.{MOST_INSTRUCTIONS, MOST_TOUCHED};

use crate::arrow::{Arrow, Opening};
use crate::arrows::{find_openings, sorted_arrows, sorted_by_tail};
use crate::index::{End, likely_counts, with_end};
use crate::levels::find_levels;
use crate::likely::{LikelySlots, find_slots};
use crate::order::{OrderFault, check_numbers};
use crate::runs::{Found, count_runs, find_by_runs, find_run};
use crate::touched::Touched;
use crate::touches::in_order;
use reg_base::laws::each_footprint_is_sound;
use reg_base::{AccountNo, Batch, Directory, NoMemory};
use std::alloc::Global;
use std::marker::Model;
use std::thread::Threads;

/// Which instructions of a batch have to wait for which others, and which accounts each of them touches. A clause sees
/// the plan as plain data.
#[derive(Debug, Drop)]
pub struct Plan {
    arrows: Vec<Arrow>,
    by_tail: Vec<Arrow>,
    openings: Vec<Opening>,
    levels: Vec<u32>,
    heads: Vec<u32>,
    tails: Vec<u32>,
    touched: Touched,
    slots: Vec<u32>,
}

impl Model for Plan {
    ghost use Rattle.reg_plan.specs.Plans.{PlanValue, IsKept};

    ghost Value = { PlanValue };

    ghost view = { λ p. record {
      arrows = p.arrows.items;
      openings = p.openings.items;
      levels = p.levels.items;
      footprints = p.touched;
    } };

    ghost invariant = { λ p. IsKept p.arrows.items p.by_tail.items p.levels.items p.touched };
}

impl Plan {
    ghost use Rattle.reg_plan.specs.Plans.{IsPlan, inward, outward};
    ghost use Rattle.reg_plan.specs.Orders.{first_order_fault, IsOrderFault};
    ghost use Rattle.reg_plan.specs.Runs.{IsFound};

    /// The plan of these instructions over the accounts of this directory.
    ///
    /// The time is linear in the instructions, sorting apart.
    ///
    /// # Errors
    /// `NoMemory` if memory ran out.
    pub fn of(alloc: Global, batch: &Batch, directory: &Directory) -> Result<Plan, NoMemory>
        ensures { IfOk result (λ plan. IsPlan directory.now batch.now.instructions plan) }
    {
        batch.len();
        let found = find_run(alloc, directory, 1, batch.instructions())?;
        Plan::of_found(alloc, batch, directory, found)
    }

    /// The same as [`Plan::of`], by at most so many threads, of which the calling one is one. Each looks up the
    /// accounts of a run of instructions; if there are several runs, each has `least` instructions or more. If a thread
    /// can't be started, the calling thread does its work.
    ///
    /// # Errors
    /// `NoMemory` if memory ran out.
    pub fn of_with<R: Threads + Sync>(
        rt: &R,
        alloc: Global,
        batch: &Batch,
        directory: &Directory,
        threads: u32,
        least: u32,
    ) -> Result<Plan, NoMemory>
        ensures { IfOk result (λ plan. IsPlan directory.now batch.now.instructions plan) }
    {
        let runs = count_runs(batch.len(), threads, least);
        let found = find_by_runs(rt, alloc, directory, batch.instructions(), runs)?;
        Plan::of_found(alloc, batch, directory, found)
    }

    // The plan of these instructions, of which this was found.
    fn of_found(
        alloc: Global,
        batch: &Batch,
        directory: &Directory,
        found: Found,
    ) -> Result<Plan, NoMemory>
        requires { IsFound directory.now 1 batch.now.instructions found }
        ensures { IfOk result (λ plan. IsPlan directory.now batch.now.instructions plan) }
    {
        let _directory = directory;
        // No instruction touches an account twice, so no arrow stands twice.
        each_footprint_is_sound();
        let places = batch.len() as usize;
        let Found {
            touched,
            touches: unordered,
        } = found;
        let touches = in_order(unordered)?;
        let openings = find_openings(alloc, &touches)?;
        let arrows = sorted_arrows(alloc, &touches)?;
        let by_tail = sorted_by_tail(alloc, &arrows)?;
        let levels = find_levels(alloc, &arrows, places)?;
        let heads = likely_counts(alloc, End::Head, &arrows, places)?;
        let tails = likely_counts(alloc, End::Tail, &by_tail, places)?;
        let slots = find_slots(alloc, &touched, &touches)?;
        Ok(Plan {
            arrows,
            by_tail,
            openings,
            levels,
            heads,
            tails,
            touched,
            slots,
        })
    }

    /// The arrows, sorted by `to`, `from` and `account`.
    pub fn arrows(&self) -> &[Arrow]
        ensures { result.now ≡ self.now.arrows }
    {
        &self.arrows
    }

    /// The arrows that lead to a place, sorted by `from` and `account`. The place is counted from 1.
    ///
    /// The time does not depend on the number of arrows.
    pub fn inward(&self, place: u32) -> &[Arrow]
        requires from_one { 1 ≤ place }
        requires within { place ≤ length self.now.levels }
        ensures { result.now ≡ inward self.now.arrows place }
    {
        with_end(&self.arrows, End::Head, &self.heads, place)
    }

    /// The arrows that lead from a place, sorted by `to` and `account`. The place is counted from 1.
    ///
    /// The time does not depend on the number of arrows.
    pub fn outward(&self, place: u32) -> &[Arrow]
        requires from_one { 1 ≤ place }
        requires within { place ≤ length self.now.levels }
        ensures { result.now ≡ outward self.now.arrows place }
    {
        with_end(&self.by_tail, End::Tail, &self.tails, place)
    }

    /// Each touched account with its first instruction, by rising account.
    pub fn openings(&self) -> &[Opening]
        ensures { result.now ≡ self.now.openings }
    {
        &self.openings
    }

    /// The level of each place: 1 without an inward arrow, else 1 more than the greatest level of a tail.
    pub fn levels(&self) -> &[u32]
        ensures { result.now ≡ self.now.levels }
    {
        &self.levels
    }

    /// The accounts that the instruction at a place touches, in the order of its footprint. The place is counted from
    /// 1.
    pub fn touched_at(&self, place: u32) -> &[AccountNo]
        requires from_one { 1 ≤ place }
        requires within { place ≤ length self.now.levels }
        ensures value { result.now ≡ slice_index_or self.now.footprints (place - 1) [] }
        ensures few { length result.now ≤ MOST_TOUCHED }
    {
        self.touched.at(place)
    }

    /// The likely slots of the accounts that the instruction at a place touches, in the order of its footprint. The
    /// place is counted from 1; of any other place the answer is of no use.
    pub fn likely_slots(&self, place: u32) -> LikelySlots<'_> {
        LikelySlots::from(&self.slots, self.touched.likely_begin(place))
    }

    /// How many places there are, at most 16,384.
    pub fn len(&self) -> u32
        ensures value { result ≡ length self.now.levels }
        ensures few { result ≤ MOST_INSTRUCTIONS }
    {
        self.levels.len() as u32
    }

    /// Whether this list of places, counted from 1, is a legal order: each place once, with each arrow's tail before
    /// its head.
    ///
    /// The time is linear in the instructions and the arrows, look-ups apart.
    ///
    /// # Errors
    /// `Length` for a list of another length than the batch; `NoMemory` if memory ran out; else the fault of the first
    /// position that has one, in the order of [`OrderFault`].
    pub fn check_order(&self, alloc: Global, order: &[u32]) -> Result<(), OrderFault>
        ensures legal { OnOk result (first_order_fault self.now order.now ≡ None) }
        ensures fault { IfErr result (λ fault. IsOrderFault self.now order.now fault) }
    {
        if order.len() != self.levels.len() {
            return Err(OrderFault::Length);
        }
        let Ok(mut came) = vec![in alloc; false; order.len()] else {
            return Err(OrderFault::NoMemory);
        };
        check_numbers(&self.arrows, &self.heads, &mut came, order)
    }
}
