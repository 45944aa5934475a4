//! The parcels that a place awaits.

ghost use Rattle.std.specs.Prelude.{◌≡◌, ◌==◌, ◌&&◌, not, is_some};
ghost use Rattle.std.specs.List.{list_any};
ghost use Rattle.reg_schedules.specs.Pool.{footprint_at};
ghost use Rattle.reg_schedules.specs.Docks.{awaited, of_name, is_name, is_not_awaited};
ghost use Rattle.reg_tasks.specs.Contexts.{the_day};
ghost use Rattle.reg_tasks.specs.Places.{IsPlaceOf};
ghost use Rattle.reg_tasks.specs.Parcels.{parcels_of};
ghost use Rattle.reg_yard.specs.Parcels.{parcel_of};

use reg_base::AccountNo;
use reg_tasks::{Context, Naming, Parcel};

/// The accounts of which a place awaits a parcel. The place is counted from 1.
pub(crate) fn awaited_accounts<'c, N: Naming>(
    context: &'c Context<N>,
    place: u32,
) -> &'c [AccountNo]
    requires place { IsPlaceOf context.now.batch.now place }
    ensures { result.now ≡ footprint_at (the_day context.now) place }
{
    context.touched_at(place)
}

// Whether the account is among these.
fn is_of(accounts: &[AccountNo], account: AccountNo) -> bool
    ensures { result ≡ list_any (λ other. other == account) accounts.now }
{
    accounts.iter().any(|other| *other == account)
}

// Whether the instruction at a place needs the parcel.
fn is_needed<N: Naming>(context: &Context<N>, place: u32, parcel: &Parcel<N>) -> bool
    requires place { IsPlaceOf context.now.batch.now place }
    ensures { result ≡ list_any (is_name (parcel.now.value.number, parcel.now.after))
        (awaited (the_day context.now) context.now.plan place) }
{
    let account = parcel.account();
    is_of(awaited_accounts(context, place), account)
        && context.tail_of(place, account) == parcel.after()
}

// Whether a parcel has the name of this one.
fn is_same<N: Naming>(one: &Parcel<N>, other: &Parcel<N>) -> bool
    ensures { result ≡ is_name (one.now.value.number, one.now.after) (other.now.value.number, other.now.after) }
{
    one.account() == other.account() && one.after() == other.after()
}

// Whether a parcel of this name is among those that came.
fn has_come<N: Naming>(came: &[Parcel<N>], parcel: &Parcel<N>) -> bool
    ensures { result ≡ is_some (of_name (parcels_of came.now) (parcel.now.value.number, parcel.now.after)) }
{
    for other in came {
        if is_same(other, parcel) {
            return true;
        }
    }
    false
}

/// Whether a place still awaits the parcel after these came. The place is counted from 1.
pub(crate) fn is_awaited<N: Naming>(
    context: &Context<N>,
    place: u32,
    came: &[Parcel<N>],
    parcel: &Parcel<N>,
) -> bool
    requires place { IsPlaceOf context.now.batch.now place }
    ensures { result ≡ not (is_not_awaited (the_day context.now) context.now.plan place (parcels_of came.now)
        (parcel_of parcel.now)) }
{
    is_needed(context, place, parcel) && !has_come(came, parcel)
}
