//! The place that awaits a parcel.

ghost use Rattle.std.specs.Prelude.{◌≡◌};
ghost use Rattle.reg_yard.specs.Parcels.{parcel_of, goes_to};

use reg_tasks::{Context, Naming, Parcel};

/// The place that awaits a parcel, if one does: that of the first instruction that touches its account for an opening
/// value, and for any other the head of the arrow that leads on from it.
pub(crate) fn place_for<N: Naming>(context: &Context<N>, parcel: &Parcel<N>) -> Option<u32>
    ensures { result ≡ goes_to context.now.plan (parcel_of parcel.now) }
{
    let after = parcel.after();
    if after == 0 {
        return context.first_for(parcel);
    }
    if after > context.batch().len() {
        return None;
    }
    context.head_of(after, parcel.account())
}
