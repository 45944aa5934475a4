//! Where the value of an account comes from, and where it goes on to.

ghost use Rattle.std.specs.Prelude.{◌≡◌, true, false, MatchResult};
ghost use Rattle.reg_base.specs.Rising.{IsRising};
ghost use Rattle.reg_tasks.specs.Contexts.{the_day};
ghost use Rattle.reg_tasks.specs.Gathering.{is_last};
ghost use Rattle.reg_tasks.specs.Openings.{first_in};
ghost use Rattle.reg_tasks.specs.Slots.{name_of, opened_accounts};

use crate::context::Context;
use crate::last_parcel::LastParcel;
use crate::likely::find_slot;
use crate::naming::Naming;
use crate::needs::{arrow_at, tail_in};
use crate::parcel::Parcel;
use reg_base::AccountNo;
use reg_base::laws::last_toucher_is_last;
use reg_plan::Opening;
use reg_plan::laws::tails_are_last_touchers;

// The place of the first instruction that touches an account, if one of these openings is the account's. If it is the
// likely one, one comparison shows it.
fn first_in(openings: &[Opening], account: AccountNo, likely: u32) -> Option<u32>
    requires { IsRising (opened_accounts openings.now) }
    ensures { result ≡ first_in openings.now account }
{
    match find_slot(openings, account, likely) {
        Some(slot) => Some(openings[slot].first),
        None => None,
    }
}

// Whether no later instruction touches the account of a parcel: the instruction after which it stands does, and no
// arrow leads on from there.
fn is_last<N: Naming>(context: &Context<N>, parcel: &Parcel<N>) -> bool
    ensures { result ≡ is_last (the_day context.now) context.now.plan (name_of parcel.now) }
{
    let place = parcel.after();
    if place == 0 || place > context.batch().len() {
        return false;
    }
    let touched = context.touched_at(place);
    touched.contains(&parcel.account()) && !context.leads_on(place, parcel.account())
}

impl<N: Naming> Context<'_, N> {
    ghost use Rattle.reg_schedules.specs.Pool.{tail_of, leads_on};
    ghost use Rattle.reg_schedules.specs.World.{head_of};
    ghost use Rattle.reg_tasks.specs.Openings.{first_at};
    ghost use Rattle.reg_tasks.specs.Places.{IsPlaceOf};

    /// The place of the instruction from which the instruction at this place has the value of an account, or 0 if that
    /// is the opening value. Places are counted from 1.
    pub fn tail_of(&self, place: u32, account: AccountNo) -> u32
        requires place { IsPlaceOf self.now.batch.now place }
        ensures { result ≡ tail_of self.now.plan place account }
    {
        tail_in(self.arrows_to(place), account)
    }

    /// The place of the instruction that needs the value of an account as the instruction at this place leaves it, if
    /// there is one. Places are counted from 1.
    pub fn head_of(&self, place: u32, account: AccountNo) -> Option<u32>
        requires place { IsPlaceOf self.now.batch.now place }
        ensures { result ≡ head_of self.now.plan place account }
    {
        arrow_at(self.arrows_from(place), account).map(|arrow| arrow.to)
    }

    /// Whether an arrow leads on from a place at an account. The place is counted from 1.
    pub fn leads_on(&self, place: u32, account: AccountNo) -> bool
        requires place { IsPlaceOf self.now.batch.now place }
        ensures { result ≡ leads_on self.now.plan place account }
    {
        self.arrows_from(place)
            .iter()
            .any(|arrow| arrow.account == account)
    }

    /// The place of the first instruction that touches the account of a parcel, if one does. Places are counted from 1.
    ///
    /// The time is logarithmic in the touched accounts. It does not depend on them for a parcel of this context, except
    /// one that [`Context::opening`] made.
    pub fn first_for(&self, parcel: &Parcel<N>) -> Option<u32>
        ensures { result ≡ first_at self.now.plan parcel.now.value.number }
    {
        first_in(self.openings(), parcel.account(), parcel.likely_slot())
    }

    /// The parcel as a last one, exactly if no later instruction needs it: the instruction after which it stands
    /// touches its account, and no arrow leads on from there.
    ///
    /// # Errors
    /// The parcel as it was, if it is no last one.
    pub fn last_parcel(&self, parcel: Parcel<N>) -> Result<LastParcel<N>, Parcel<N>>
        ensures { MatchResult result
            (λ last. (last.parcel ≡ parcel) × (is_last (the_day self.now) self.now.plan (name_of parcel) ≡ true))
            (λ back. (back ≡ parcel) × (is_last (the_day self.now) self.now.plan (name_of parcel) ≡ false)) }
    {
        last_toucher_is_last();
        tails_are_last_touchers();
        if !is_last(self, &parcel) {
            return Err(parcel);
        }
        let last = LastParcel::new(parcel);
        Ok(last)
    }
}
