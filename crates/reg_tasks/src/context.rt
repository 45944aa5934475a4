//! A day with its plan.

ghost use Rattle.std.specs.Prelude.{◌≡◌, ◌+◌, ◌≤◌, length, Some, is_some, true, MatchResult, IfOk, IsTrue};
ghost use Rattle.reg_base.specs.Touches.{is_touched};
ghost use Rattle.reg_rules.specs.State.{account};
ghost use Rattle.reg_plan.specs.Plans.{IsPlan, inward, outward};
ghost use Rattle.reg_book.specs.Book.{directory_of};
ghost use Rattle.reg_book.specs.Day.{IsDay};
ghost use Rattle.reg_book.specs.Settling.{IsSettleFault};
ghost use Rattle.reg_schedules.specs.Pool.{directory, footprint_at};
ghost use Rattle.reg_base.specs.Rising.{IsRising};
ghost use Rattle.reg_base.specs.declared.limits.TheConstants.{MOST_TOUCHED};
ghost use Rattle.reg_tasks.specs.Names.{IsNamed};
ghost use Rattle.reg_tasks.specs.Slots.{opened_accounts};

use crate::naming::Naming;
use crate::parcel::Parcel;
use reg_base::laws::each_footprint_is_sound;
use reg_base::{AccountNo, Batch, Directory, NoMemory, Rules};
use reg_book::{Book, SettleFault};
use reg_plan::{Arrow, LikelySlots, Opening, Plan};
use std::alloc::Global;
use std::marker::PhantomData;

/// The book, the rules and the batch of a day, and the plan of its instructions.
#[derive(Drop)]
pub struct Context<'a, N: Naming> {
    book: &'a Book,
    rules: &'a Rules,
    batch: &'a Batch,
    plan: Plan,
    of: PhantomData<N>,
    pub ghost named: { IsNamed N.day book.now rules.now batch.now },
    pub ghost follows: { batch.now.base + 1 ≡ book.now.next },
    pub ghost planned: { ∥ IsPlan (directory_of book.now.accounts) batch.now.instructions plan ∥₁ },
}

impl<'a, N: Naming> Context<'a, N> {
    ghost use Rattle.reg_tasks.specs.Contexts.{the_day};
    ghost use Rattle.reg_tasks.specs.Places.{IsPlaceOf};
    ghost use Rattle.reg_tasks.specs.Opened.{IsOpeningValue};

    /// The context of a day. If a day is named, it must be this one.
    ///
    /// The time is linear in the instructions, sorting apart.
    ///
    /// # Errors
    /// `WrongBase` if the first record number of the batch is not the book's next record number. Otherwise `NoMemory`
    /// if memory ran out.
    pub fn of(
        alloc: Global,
        book: &'a Book,
        rules: &'a Rules,
        batch: &'a Batch,
    ) -> Result<Context<'a, N>, SettleFault>
        requires day { IsNamed N.day book.now rules.now batch.now }
        ensures answer { MatchResult result
            (λ c. (batch.now.base + 1 ≡ book.now.next) × (c.book.now ≡ book.now) × (c.rules.now ≡ rules.now)
            × (c.batch.now ≡ batch.now))
            (IsSettleFault book.now batch.now) }
    {
        let next = book.next_record();
        if batch.base() + 1 != next {
            return Err(SettleFault::WrongBase { next });
        }
        let Ok(plan) = Plan::of(alloc, batch, book.directory()) else {
            return Err(SettleFault::NoMemory);
        };
        Ok(Context {
            book,
            rules,
            batch,
            plan,
            of: PhantomData,
        })
    }

    /// The plan of the instructions.
    pub fn plan(&self) -> &Plan
        ensures value { result.now ≡ self.now.plan }
        ensures planned { ∥ IsPlan (directory (the_day self.now)) self.now.batch.now.instructions result.now ∥₁ }
    {
        &self.plan
    }

    /// The book.
    pub fn book(&self) -> &'a Book
        ensures { result.now ≡ self.now.book.now }
    {
        self.book
    }

    /// The rules.
    pub fn rules(&self) -> &'a Rules
        ensures { result.now ≡ self.now.rules.now }
    {
        self.rules
    }

    /// The batch.
    pub fn batch(&self) -> &'a Batch
        ensures { result.now ≡ self.now.batch.now }
    {
        self.batch
    }

    /// The parts make a day. This method does nothing: a proof learns it from the call.
    pub fn is_day(&self)
        ensures { IsDay (the_day self.now) }
    {
        self.book.next_record();
        self.rules.are_within_limits();
        self.batch.len();
    }

    /// The accounts that the instruction at a place touches. The place is counted from 1.
    pub fn touched_at(&self, place: u32) -> &[AccountNo]
        requires place { IsPlaceOf self.now.batch.now place }
        ensures value { result.now ≡ footprint_at (the_day self.now) place }
        ensures few { length result.now ≤ MOST_TOUCHED }
    {
        self.plan.touched_at(place)
    }

    // Where the accounts that the instruction at a place touches are likely to have their slots, in their order.
    pub(crate) fn likely_slots(&self, place: u32) -> LikelySlots<'_> {
        self.plan.likely_slots(place)
    }

    // The first instruction of each touched account, by rising account.
    pub(crate) fn openings(&self) -> &[Opening]
        ensures value { result.now ≡ self.now.plan.openings }
        ensures rising { IsRising (opened_accounts result.now) }
    {
        self.plan.openings()
    }

    /// The arrows that lead to a place, counted from 1.
    pub fn arrows_to(&self, place: u32) -> &[Arrow]
        requires place { IsPlaceOf self.now.batch.now place }
        ensures { result.now ≡ inward self.now.plan.arrows place }
    {
        self.plan.inward(place)
    }

    /// The arrows that lead from a place, counted from 1.
    pub(crate) fn arrows_from(&self, place: u32) -> &[Arrow]
        requires place { IsPlaceOf self.now.batch.now place }
        ensures { result.now ≡ outward self.now.plan.arrows place }
    {
        self.plan.outward(place)
    }

    // The value of an account of the book, which is likely to have this slot.
    pub(crate) fn open(
        &self,
        alloc: Global,
        number: AccountNo,
        likely_slot: u32,
    ) -> Result<Parcel<N>, NoMemory>
        requires known { is_some (account self.now.book.now.accounts number) ≡ true }
        ensures { IfOk result (IsOpeningValue self.now.book.now.accounts number) }
    {
        let value = self.book.get(number).unwrap().copy(alloc)?;
        Ok(Parcel::new(value, 0, likely_slot))
    }

    // The opening value of an account that some instruction touches, and that is likely to have this slot.
    pub(crate) fn open_touched(
        &self,
        alloc: Global,
        number: AccountNo,
        likely_slot: u32,
    ) -> Result<Parcel<N>, NoMemory>
        requires touched { IsTrue
            (is_touched (directory_of self.now.book.now.accounts) self.now.batch.now.instructions number) }
        ensures { IfOk result (IsOpeningValue self.now.book.now.accounts number) }
    {
        // An account that an instruction touches is in the directory, and so in the book.
        each_footprint_is_sound();
        self.open(alloc, number, likely_slot)
    }

    /// The opening value of an account that some instruction touches, as a copy of what the book has.
    ///
    /// # Errors
    /// `NoMemory` if memory ran out.
    pub fn opening(&self, alloc: Global, number: AccountNo) -> Result<Parcel<N>, NoMemory>
        requires touched { IsTrue
            (is_touched (directory_of self.now.book.now.accounts) self.now.batch.now.instructions number) }
        ensures { IfOk result (IsOpeningValue self.now.book.now.accounts number) }
    {
        self.open_touched(alloc, number, 0)
    }
}
