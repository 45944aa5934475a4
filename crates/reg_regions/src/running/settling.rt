//! A region is a task: to settle it is what a worker does with it.

ghost use Rattle.std.specs.Prelude.{◌≡◌, ◌++◌, length, IfOk};
ghost use Rattle.reg_regions.specs.Settling.{kept, places_in};
ghost use Rattle.reg_regions.specs.Stealing.{IsGround, IsSettledList};

use crate::gate::PlaceGate;
use crate::running::region::{Cutting, ListRegion};
use crate::running::settled_list::SettledList;
use crate::running::shift::{Notes, settle_gated};
use reg_base::{Batch, NoMemory};
use reg_rules::Setting;
use reg_run::Do;
use std::alloc::Global;
use std::marker::PhantomData;

/// The settlement of regions: the day that they are of, and the gate that workers pass.
#[derive(Drop)]
pub(crate) struct Settling<'s, 'a, C: Cutting, G: PlaceGate> {
    pub(crate) setting: &'a Setting<'s>,
    pub(crate) batch: &'a Batch,
    pub(crate) gate: &'a G,
    /// How many regions there are.
    pub(crate) count: u32,
    pub(crate) of: PhantomData<C>,
    pub(crate) ghost counted: { count ≡ length C.openings },
}

impl<'s, 'a, C: Cutting + Sync, N: Notes, G: PlaceGate + Sync> Do<ListRegion<C>, SettledList, N>
    for Settling<'s, 'a, C, G> {
    ghost use Rattle.reg_regions.specs.Stealing.{IsGround, IsSettledList, IsNoted};

    ghost count = { λ s. s.count };

    ghost ready = { λ s. IsGround s.setting.now s.batch.now C.openings C.deals };

    ghost promises = { λ s number list. IsSettledList s.setting.now s.batch.now C.openings C.deals number list };

    ghost noted = { IsNoted N.worker N.keeps N.places };

    fn count(&self) -> u32 {
        self.count
    }

    fn number(&self, region: &ListRegion<C>) -> u32 {
        region.number
    }

    fn begin(&self, alloc: Global, worker: u32) -> N {
        N::begin(alloc, worker)
    }

    fn run(
        &self,
        alloc: Global,
        _worker: u32,
        stolen: bool,
        region: ListRegion<C>,
        notes: &mut N,
    ) -> Result<SettledList, NoMemory> {
        notes.own(stolen)?;
        settle_region(alloc, self.setting, self.batch, self.gate, region, notes)
    }
}

// Carries out the instructions of a region, in their order.
fn settle_region<C: Cutting, N: Notes, G: PlaceGate>(
    alloc: Global,
    setting: &Setting,
    batch: &Batch,
    gate: &G,
    region: ListRegion<C>,
    notes: &mut N,
) -> Result<SettledList, NoMemory>
    requires ground { IsGround setting.now batch.now C.openings C.deals }
    ensures settled { IfOk result
        (λ list. IsSettledList setting.now batch.now C.openings C.deals region.number list) }
    ensures worker { N.worker notes.new ≡ N.worker notes.old }
    ensures noted { IfOk result
        (λ list. N.places notes.new ≡ N.places notes.old ++ kept N.keeps (places_in list.replies.items)) }
{
    let ListRegion {
        deal,
        mut accounts,
        ..
    } = region;
    let replies = settle_gated(
        alloc,
        setting,
        batch,
        &deal.places,
        &deal.indexes,
        &mut accounts,
        gate,
        notes,
    )?;
    Ok(SettledList { accounts, replies })
}
