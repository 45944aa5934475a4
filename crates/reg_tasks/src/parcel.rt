//! The value of one account, named.

ghost use Rattle.std.specs.Prelude.{◌≡◌};
ghost use Rattle.reg_tasks.specs.Names.{IsValue};

use crate::naming::Naming;
use reg_account::Account;
use reg_base::AccountNo;
use std::marker::PhantomData;

/// The value of one account as the instruction at a place left it, or, at place 0, as it was before the first. If a
/// day is named, a parcel has exactly the value that the instructions one after another give. Nothing makes one except
/// a context and the run of a task, and it is not `Clone`.
#[derive(Drop)]
pub struct Parcel<N: Naming> {
    value: Account,
    after: u32,
    likely_slot: u32,
    of: PhantomData<N>,
    pub ghost right: { IsValue N.day value after },
}

impl<N: Naming> Parcel<N> {
    pub(crate) fn new(value: Account, after: u32, likely_slot: u32) -> Parcel<N>
        requires { IsValue N.day value after }
        ensures value { result.value ≡ value }
        ensures after { result.after ≡ after }
    {
        Parcel {
            value,
            after,
            likely_slot,
            of: PhantomData,
        }
    }

    /// The number of its account.
    pub fn account(&self) -> AccountNo
        ensures { result ≡ self.now.value.number }
    {
        self.value.number()
    }

    /// The place, counted from 1, of the instruction after which it stands, or 0 for the opening value.
    pub fn after(&self) -> u32
        ensures { result ≡ self.now.after }
    {
        self.after
    }

    // Which slot its account is likely to have. Nothing is promised of it: whoever takes it tests whether it is the
    // account's.
    pub(crate) fn likely_slot(&self) -> u32 {
        self.likely_slot
    }

    /// The account as it is there.
    pub fn value(&self) -> &Account
        ensures value { result.now ≡ self.now.value }
        ensures right { IsValue N.day result.now self.now.after }
    {
        &self.value
    }

    /// The account as it is there, and the place after which it stands.
    pub fn into_parts(self) -> (Account, u32)
        ensures value { result.0 ≡ self.value }
        ensures after { result.1 ≡ self.after }
        ensures right { IsValue N.day result.0 result.1 }
    {
        let Parcel { value, after, .. } = self;
        (value, after)
    }
}
