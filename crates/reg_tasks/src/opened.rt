//! The opening values of accounts.

ghost use Rattle.std.specs.Prelude.{◌≡◌, ◌==◌, ◌<◌, true, not, All, Some, is_some, map, length, IfOk};
ghost use Rattle.reg_rules.specs.State.{account};
ghost use Rattle.reg_tasks.specs.Parcels.{names_of};

use crate::context::Context;
use crate::naming::Naming;
use crate::needs::tail_in;
use crate::parcel::Parcel;
use reg_base::laws::each_footprint_is_sound;
use reg_base::{AccountNo, NoMemory};
use reg_plan::{Arrow, LikelySlots};
use std::alloc::Global;

/// The opening values of accounts that are in the book, in their order. The likely slots are those of the accounts.
pub(crate) fn open_all<N: Naming>(
    alloc: Global,
    context: &Context<N>,
    accounts: &[AccountNo],
    mut likely: LikelySlots,
) -> Result<Vec<Parcel<N>>, NoMemory>
    requires known { All (λ a. is_some (account context.now.book.now.accounts a) ≡ true) accounts.now }
    ensures names { IfOk result (λ ps. names_of ps.items ≡ map (λ a. (a, 0)) accounts.now) }
    ensures values { IfOk result
        (λ ps. map (λ p. Some p.value) ps.items ≡ map (λ a. account context.now.book.now.accounts a) accounts.now) }
{
    let mut parcels = Vec::with_capacity(alloc, accounts.len())?;
    for account in accounts {
        let parcel = context.open(alloc, *account, likely.next())?;
        parcels.push(parcel)?;
    }
    Ok(parcels)
}

impl<N: Naming> Context<'_, N> {
    ghost use Rattle.reg_plan.specs.Plans.{inward};
    ghost use Rattle.reg_schedules.specs.Pool.{footprint_at};
    ghost use Rattle.reg_tasks.specs.Contexts.{the_day};
    ghost use Rattle.reg_tasks.specs.Places.{IsPlaceOf};
    ghost use Rattle.reg_tasks.specs.Opened.{IsOpeningAt};

    /// Whether the instruction at a place waits for another: an arrow leads there. The place is counted from 1.
    pub fn waits(&self, place: u32) -> bool
        requires place { IsPlaceOf self.now.batch.now place }
        ensures { result ≡ not (length (inward self.now.plan.arrows place) == 0) }
    {
        !self.arrows_to(place).is_empty()
    }

    /// The opening value of the account that stands at this index of the footprint of a place, exactly if no arrow
    /// leads to the place at that account. The arrows are all that lead to the place: a caller that opens several
    /// values of a place looks them up once. The place is counted from 1, the index from 0, and the footprint must have
    /// the index.
    ///
    /// # Errors
    /// `NoMemory` if memory ran out.
    pub fn opening_at(
        &self,
        alloc: Global,
        place: u32,
        arrows: &[Arrow],
        index: usize,
    ) -> Result<Option<Parcel<N>>, NoMemory>
        requires place { IsPlaceOf self.now.batch.now place }
        requires arrows { arrows.now ≡ inward self.now.plan.arrows place }
        requires there { index < length (footprint_at (the_day self.now) place) }
        ensures { IfOk result (IsOpeningAt (the_day self.now) self.now.plan place index) }
    {
        each_footprint_is_sound();
        let account = self.touched_at(place)[index];
        if tail_in(arrows, account) != 0 {
            return Ok(None);
        }
        let slot = self.likely_slots(place).at(index);
        Ok(Some(self.open(alloc, account, slot)?))
    }
}
