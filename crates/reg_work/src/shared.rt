//! What the workers of one call share.

ghost use Rattle.std.specs.Prelude.{◌≡◌, length};
ghost use Rattle.reg_claim.specs.Seats.{table_id, places};
ghost use Rattle.reg_deques.specs.Yards.{deques};

use reg_claim::ClaimTable;
use reg_deques::Numbered;
use reg_run::Sharing;
use reg_tasks::{Context, Naming};
use reg_yard::{Docks, Yard};
use std::marker::PhantomData;
use std::sync::atomic::AtomicU32;

/// What the workers of a call share: the day, its docks, who claimed what, the deques of all workers, and how many
/// places of the day were opened.
#[derive(Drop)]
pub(crate) struct Shared<'c, T: Numbered, N: Naming, S: Sharing> {
    pub(crate) context: &'c Context<'c, N>,
    pub(crate) docks: Docks<'c, 'c, N>,
    pub(crate) table: ClaimTable,
    pub(crate) yard: Yard<T>,
    pub(crate) opened: AtomicU32,
    pub(crate) of: PhantomData<S>,
    pub(crate) ghost counted: { length context.now.batch.now.instructions ≡ S.count },
    pub(crate) ghost table_is: { table_id table ≡ S.table },
    pub(crate) ghost places_are: { places table ≡ S.count },
    pub(crate) ghost deques_are: { deques yard ≡ S.deques },
}
