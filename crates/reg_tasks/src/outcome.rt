//! What a run gives.

ghost use Rattle.std.specs.Prelude.{◌≡◌};
ghost use Rattle.reg_tasks.specs.Names.{IsRowOfDay, AreLeft};
ghost use Rattle.reg_tasks.specs.Parcels.{names_of};

use crate::done::Done;
use crate::naming::Naming;
use crate::parcel::Parcel;
use reg_rules::LogRow;
use std::marker::PhantomData;

/// What the run of a task gives: the row of its instruction, and the parcels of its footprint as the instruction left
/// them. Only [`Task::run`](crate::Task::run) makes one.
#[derive(Drop)]
pub struct TaskOutcome<N: Naming> {
    place: u32,
    row: LogRow,
    parcels: Vec<Parcel<N>>,
    pub ghost row_is: { IsRowOfDay N.day place row },
    pub ghost left: { AreLeft N.day place (names_of parcels.items) },
}

/// The instruction at a place was run. Only an outcome that is taken apart gives one, so each stands for a run of the
/// complete task.
#[derive(Drop)]
pub struct Ran<N: Naming> {
    place: u32,
    of: PhantomData<N>,
}

impl<N: Naming> Ran<N> {
    /// The place of the instruction, counted from 1.
    pub fn place(&self) -> u32
        ensures { result ≡ self.now.place }
    {
        self.place
    }
}

impl<N: Naming> TaskOutcome<N> {
    pub(crate) fn new(place: u32, row: LogRow, parcels: Vec<Parcel<N>>) -> TaskOutcome<N>
        requires row { IsRowOfDay N.day place row }
        requires left { AreLeft N.day place (names_of parcels.items) }
        ensures place { result.place ≡ place }
        ensures row { result.row ≡ row }
        ensures parcels { result.parcels ≡ parcels }
    {
        TaskOutcome {
            place,
            row,
            parcels,
        }
    }

    // The parcels, as the instruction left them.
    pub(crate) fn parcels(&self) -> &[Parcel<N>]
        ensures value { result.now ≡ self.now.parcels.items }
        ensures left { AreLeft N.day self.now.place (names_of result.now) }
    {
        &self.parcels
    }

    /// The run of the place, the place with its reply, and the parcels in the order of the footprint, each named by the
    /// place. The rest of the row is dropped: it is in the batch.
    pub fn into_done(self) -> (Ran<N>, Done<N>, Vec<Parcel<N>>)
        ensures ran { result.0.place ≡ self.place }
        ensures done { (result.1.place ≡ self.place) × (result.1.reply ≡ self.row.reply) }
        ensures parcels { (result.2.items ≡ self.parcels.items) × AreLeft N.day self.place (names_of result.2.items) }
    {
        let (ran, row, parcels) = self.into_parts();
        let done = Done::new(ran.place(), row);
        (ran, done, parcels)
    }

    /// The run of the place, the row of its instruction, and the parcels in the order of the footprint, each named by
    /// the place.
    pub fn into_parts(self) -> (Ran<N>, LogRow, Vec<Parcel<N>>)
        ensures ran { result.0.place ≡ self.place }
        ensures row { (result.1 ≡ self.row) × IsRowOfDay N.day self.place result.1 }
        ensures parcels { (result.2.items ≡ self.parcels.items) × AreLeft N.day self.place (names_of result.2.items) }
    {
        let TaskOutcome {
            place,
            row,
            parcels,
        } = self;
        let ran = Ran {
            place,
            of: PhantomData,
        };
        (ran, row, parcels)
    }
}
