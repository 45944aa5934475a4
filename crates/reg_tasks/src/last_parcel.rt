//! The value of an account that no later instruction needs.

ghost use Rattle.std.specs.Prelude.{◌≡◌};
ghost use Rattle.reg_tasks.specs.Gathering.{IsClosing};

use crate::naming::Naming;
use crate::parcel::Parcel;
use reg_account::Account;
use reg_base::AccountNo;

/// A parcel that no later instruction needs: the last instruction that touches its account left it. If a day is named,
/// it has the closing value of its account. Only [`Context::last_parcel`](crate::Context::last_parcel) makes one, which
/// tests it, so nobody tests it again.
#[derive(Drop)]
pub struct LastParcel<N: Naming> {
    parcel: Parcel<N>,
    pub ghost closing: { IsClosing N.day (parcel.value.number, parcel.after) },
}

impl<N: Naming> LastParcel<N> {
    // A parcel that was tested.
    pub(crate) fn new(parcel: Parcel<N>) -> LastParcel<N>
        requires { IsClosing N.day (parcel.value.number, parcel.after) }
        ensures { result.parcel ≡ parcel }
    {
        LastParcel { parcel }
    }

    /// The number of its account.
    pub fn account(&self) -> AccountNo
        ensures { result ≡ self.now.parcel.value.number }
    {
        self.parcel.account()
    }

    // Which slot its account is likely to have. Nothing is promised of it.
    pub(crate) fn likely_slot(&self) -> u32 {
        self.parcel.likely_slot()
    }

    // The account as it is there.
    pub(crate) fn into_value(self) -> Account
        ensures { result ≡ self.parcel.value }
    {
        let LastParcel { parcel } = self;
        let (value, _) = parcel.into_parts();
        value
    }
}
