//! Carrying out an instruction on the values of its own accounts.

ghost use Rattle.std.specs.Prelude.{◌≡◌, ◌+◌, ◌≤◌, All, Some, [], length, map, not, IfOk, OnErr, vec_len, vec_capacity};
ghost use Rattle.std.specs.List.{AllByRecursion, list_all};
ghost use Rattle.reg_base.specs.declared.limits.TheConstants.{MOST_TOUCHED};
ghost use Rattle.reg_rules.specs.Effect.{IsBehind};
ghost use Rattle.reg_rules.specs.State.{numbers};
ghost use Rattle.reg_book.specs.Book.{has_row_ahead};
ghost use Rattle.reg_tasks.specs.Contexts.{the_day};
ghost use Rattle.reg_tasks.specs.Places.{IsPlaceOf};
ghost use Rattle.reg_schedules.specs.Pool.{footprint_at, run_at};
ghost use Rattle.reg_tasks.specs.Names.{IsValue, AreValues};
ghost use Rattle.reg_tasks.specs.Parcels.{values_of, afters_of};

use crate::context::Context;
use crate::naming::Naming;
use crate::parcel::Parcel;
use arrayvec::ArrayVec;
use reg_account::Account;
use reg_base::{MOST_TOUCHED, NoMemory, RecordNo};
use reg_book::has_row_ahead;
use reg_plan::LikelySlots;
use reg_rules::{LogRow, execute, log_row};
use std::alloc::Global;

// The places after which the values of a task stand.
pub(crate) type Afters = ArrayVec<u32, MOST_TOUCHED>;

// Whether the values of these parcels have surrenders and deletions of lower record numbers alone.
pub(crate) fn are_behind<N: Naming>(number: RecordNo, parcels: &[Parcel<N>]) -> bool
    ensures { result ≡ list_all (λ v. not (has_row_ahead number v)) (values_of parcels.now) }
{
    for parcel in parcels {
        if has_row_ahead(number.get(), parcel.value()) {
            return false;
        }
    }
    true
}

// The record number of a place.
pub(crate) fn number_of<N: Naming>(context: &Context<N>, place: u32) -> RecordNo
    requires place { IsPlaceOf context.now.batch.now place }
    ensures { result ≡ context.now.batch.now.base + place }
{
    RecordNo::new(context.batch().base() + u64::from(place)).unwrap()
}

// Carries out the instruction at a place on the values of the accounts that it touches, which have no surrender or
// deletion of this place or a later one, and answers its row.
pub(crate) fn apply_at<N: Naming>(
    alloc: Global,
    context: &Context<N>,
    place: u32,
    own: &mut [Account],
) -> Result<LogRow, NoMemory>
    requires place { IsPlaceOf context.now.batch.now place }
    requires touched { numbers own.old ≡ footprint_at (the_day context.now) place }
    requires behind { All (IsBehind (context.now.batch.now.base + place)) own.old }
    ensures ok { IfOk result (λ row. run_at (the_day context.now) place own.old ≡ Some (own.new, row)) }
    ensures err { OnErr result (own.new ≡ own.old) }
{
    let number = number_of(context, place);
    let batch = context.batch();
    let instruction = batch.at(place);
    let reply = execute(
        alloc,
        context.rules(),
        batch.day(),
        number,
        instruction,
        context.book().directory(),
        own,
    )?;
    Ok(log_row(number, batch.day(), *instruction, reply))
}

// The accounts of parcels, in the room that was made for them, and the places after which they stand.
pub(crate) fn unpack<N: Naming>(
    parcels: Vec<Parcel<N>>,
    mut own: Vec<Account>,
) -> (Vec<Account>, Afters)
    requires few { length parcels.items ≤ MOST_TOUCHED }
    requires empty { own.items ≡ [] }
    requires fits { length parcels.items ≤ vec_capacity own }
    ensures own { result.0.items ≡ values_of parcels.items }
    ensures afters { result.1.items ≡ afters_of parcels.items }
{
    let mut afters = Afters::new();
    for parcel in parcels {
        let (value, after) = parcel.into_parts();
        own.push(value).unwrap();
        afters.push(after);
    }
    (own, afters)
}

// The parcels of these accounts, each after a place of its own, in the room that was made for them. The likely slots
// are those of the accounts.
pub(crate) fn pack<N: Naming>(
    own: Vec<Account>,
    afters: &[u32],
    mut likely: LikelySlots,
    mut parcels: Vec<Parcel<N>>,
) -> Vec<Parcel<N>>
    requires right { AreValues N.day own.items afters.now }
    requires same { length own.items ≡ length afters.now }
    requires empty { parcels.items ≡ [] }
    requires fits { length own.items ≤ vec_capacity parcels }
    ensures values { values_of result.items ≡ own.items }
    ensures afters { afters_of result.items ≡ afters.now }
{
    let mut index = 0;
    for value in own {
        let parcel = Parcel::new(value, afters[index], likely.next());
        parcels.push(parcel).unwrap();
        index += 1;
    }
    parcels
}

// The parcels of these accounts after this place, in the room that was made for them. The likely slots are those of the
// accounts.
pub(crate) fn pack_after<N: Naming>(
    own: Vec<Account>,
    place: u32,
    mut likely: LikelySlots,
    mut parcels: Vec<Parcel<N>>,
) -> Vec<Parcel<N>>
    requires right { AllByRecursion (λ v. IsValue N.day v place) own.items }
    requires empty { parcels.items ≡ [] }
    requires fits { length own.items ≤ vec_capacity parcels }
    ensures values { values_of result.items ≡ own.items }
    ensures afters { afters_of result.items ≡ map (λ v. place) own.items }
{
    for value in own {
        let parcel = Parcel::new(value, place, likely.next());
        parcels.push(parcel).unwrap();
    }
    parcels
}
