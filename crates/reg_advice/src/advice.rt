//! Advice on how a day is dealt out to regions. Nothing is promised of it: `admission` tests it before it is used.

ghost use Rattle.reg_base.specs.Rising.{IsRising};
ghost use Rattle.reg_rules.specs.State.{numbers};
ghost use Rattle.reg_facts.specs.Lists.{joined_lists};

use crate::bundles::Bundles;
use crate::dealing::{Deal, Dealing};
use crate::homes::Homes;
use crate::labels::Labels;
use crate::layout::{Layout, MOST_REGIONS};
use crate::lookups::find_by_runs;
use crate::movers::Movers;
use crate::numbers::{index_at, number_or_zero};
use crate::runs::runs_of;
use reg_account::Account;
use reg_base::{Batch, NoMemory};
use reg_book::Indexes;
use std::alloc::Global;
use std::thread::Threads;

/// How the day is dealt out to these lists, each a region or a part of one. `None` for one worker or one list, if there
/// is no account, or if memory ran out.
pub fn advise<R: Threads + Sync>(
    rt: &R,
    alloc: Global,
    lists: &[Vec<Account>],
    batch: &Batch,
    workers: u32,
) -> Option<Dealing>
    requires { IsRising (numbers (joined_lists lists.now)) }
{
    if workers < 2 {
        return None;
    }
    if lists.len() < 2 {
        return None;
    }
    match try_deal(rt, alloc, lists, batch, workers) {
        Ok(dealing) => dealing,
        Err(NoMemory) => None,
    }
}

fn try_deal<R: Threads + Sync>(
    rt: &R,
    alloc: Global,
    lists: &[Vec<Account>],
    batch: &Batch,
    workers: u32,
) -> Result<Option<Dealing>, NoMemory>
    requires { IsRising (numbers (joined_lists lists.now)) }
{
    let Some(layout) = Layout::of(alloc, lists)? else {
        return Ok(None);
    };
    let runs = runs_of(batch.len(), workers);
    let found = find_by_runs(rt, alloc, lists, &layout, batch.instructions(), runs)?;
    match deal_bundles(alloc, &layout, &found, batch.len(), workers)? {
        Some(dealing) => Ok(Some(dealing)),
        None => Ok(Some(deal_to_one(alloc, lists.len(), batch.len(), found)?)),
    }
}

// All instructions dealt to one region, which has the accounts of all lists.
fn deal_to_one(
    alloc: Global,
    lists: usize,
    instructions: u32,
    runs: Vec<Vec<Indexes>>,
) -> Result<Dealing, NoMemory> {
    let mut indexes = Vec::with_capacity(alloc, instructions as usize)?;
    for run in runs {
        let mut run = run;
        indexes.append(&mut run)?;
    }
    let mut deals = Vec::new(alloc);
    deals.push(Deal::of_all(alloc, instructions, indexes)?)?;
    Ok(Dealing {
        joins: vec![in alloc; 0u32; lists]?,
        swaps: Vec::new(alloc),
        deals,
    })
}

// Each bundle dealt to a region, or `None` if that is not worth it, or regions have no room.
fn deal_bundles(
    alloc: Global,
    lists: &Layout,
    runs: &[Vec<Indexes>],
    instructions: u32,
    workers: u32,
) -> Result<Option<Dealing>, NoMemory> {
    let labels = Labels::of(alloc, instructions, lists.accounts, runs)?;
    let bundles = Bundles::of(alloc, &labels)?;
    let Some(housed) = house(alloc, lists, &bundles, instructions, workers)? else {
        return Ok(None);
    };
    let Housed { layout, homes } = housed;
    let Labels {
        of_places,
        touchers,
        ..
    } = labels;
    let swapped = Movers::of(
        alloc,
        &layout,
        touchers,
        &of_places,
        &bundles.members,
        &homes,
    )?;
    let Some(movers) = swapped else {
        return Ok(None);
    };
    let deals = deal_all(alloc, &layout, &homes, &of_places, runs, &movers.stands)?;
    Ok(Some(Dealing {
        joins: layout.joins,
        swaps: movers.swaps,
        deals,
    }))
}

// Regions, and which of them each bundle goes to.
#[derive(Drop)]
struct Housed {
    layout: Layout,
    homes: Homes,
}

// The lists as regions that have room for all bundles. If they have none, they are joined to as many as there are
// workers, which only pays if the heaviest bundle leaves the others something to do.
fn house(
    alloc: Global,
    lists: &Layout,
    bundles: &Bundles,
    instructions: u32,
    workers: u32,
) -> Result<Option<Housed>, NoMemory> {
    let layout = lists.within(alloc, MOST_REGIONS)?;
    if bundles.largest() <= layout.largest() {
        if let Some(homes) = Homes::of(alloc, &layout, bundles, instructions)? {
            return Ok(Some(Housed { layout, homes }));
        }
    }
    if bundles.heaviest() > most_of(instructions) {
        return Ok(None);
    }
    let layout = lists.within(alloc, workers)?;
    match Homes::of(alloc, &layout, bundles, instructions)? {
        Some(homes) => Ok(Some(Housed { layout, homes })),
        None => Ok(None),
    }
}

// If a bundle has more instructions than this, three fifths of all, it is not worth dealing out the others.
fn most_of(instructions: u32) -> u32 {
    (instructions / 5).saturating_mul(3)
}

// The regions, of which each has the places of its bundles.
fn deal_all(
    alloc: Global,
    layout: &Layout,
    homes: &Homes,
    labels: &[u32],
    runs: &[Vec<Indexes>],
    stands: &[u32],
) -> Result<Vec<Deal>, NoMemory> {
    let mut deals = empty_deals(alloc, &homes.loads)?;
    let mut place: u32 = 0;
    for run in runs {
        for own in run {
            place = place.saturating_add(1);
            let home = number_or_zero(&homes.regions, number_or_zero(labels, place));
            let here = moved(own, stands, layout.start(home));
            if (home as usize) < deals.len() {
                add_place(&mut deals[home as usize], place, here)?;
            }
        }
    }
    Ok(deals)
}

// Regions with room for so many instructions.
fn empty_deals(alloc: Global, loads: &[u32]) -> Result<Vec<Deal>, NoMemory> {
    let mut deals = Vec::with_capacity(alloc, loads.len())?;
    for load in loads {
        deals.push(Deal {
            places: Vec::with_capacity(alloc, *load as usize)?,
            indexes: Vec::with_capacity(alloc, *load as usize)?,
        })?;
    }
    Ok(deals)
}

fn add_place(deal: &mut Deal, place: u32, indexes: Indexes) -> Result<(), NoMemory> {
    deal.places.push(place)?;
    deal.indexes.push(indexes)?;
    Ok(())
}

// Where accounts stand after the swaps, counted from the start of a region.
fn moved(own: &Indexes, stands: &[u32], start: u32) -> Indexes {
    let mut here = Indexes::new();
    for index in own.as_slice() {
        if !here.is_full() {
            here.push(index_at(stands, *index).unwrap_or(0).saturating_sub(start));
        }
    }
    here
}

#[cfg(test)]
mod tests {
    use super::*;
    use crate::dealing::Swap;
    use crate::small::{lists_of, run_of};
    use std::process::Abort;

    // How instructions that touch accounts at these indexes are dealt out to two lists, each of three accounts.
    fn dealt(rt: &impl Abort, alloc: Global, places: u32, touched: &[&[u32]]) -> Option<Dealing> {
        let lists = lists_of(rt, alloc, &[&[1, 2, 3], &[4, 5, 6]]);
        let found = Layout::of(alloc, &lists).expect(rt, "memory");
        let layout = found.expect(rt, "accounts");
        let runs = run_of(rt, alloc, touched);
        deal_bundles(alloc, &layout, &runs, places, 2).expect(rt, "memory")
    }

    fn places_of(dealing: &Dealing, region: usize) -> &[u32] {
        match dealing.deals.get(region) {
            Some(deal) => deal.places.as_slice(),
            None => &[],
        }
    }

    // Places 1 and 3 have an account in common. The account at 3 is swapped with the one at 2.
    #[test]
    fn two_bundles_are_dealt_to_two_regions(rt: HostRuntime) {
        let dealing = dealt(&rt, rt.alloc(), 3, &[&[0, 3], &[4, 5], &[1, 3]]).expect(&rt, "advice");
        let swap = Swap { one: 3, other: 2 };
        assert_eq!(rt; dealing.swaps.as_slice(), [swap].as_slice());
        assert_eq!(rt; dealing.joins.as_slice(), [0, 1].as_slice());
        assert_eq!(rt; places_of(&dealing, 0), [1, 3].as_slice());
        assert_eq!(rt; places_of(&dealing, 1), [2].as_slice());
        let first = dealing.deals.first().expect(&rt, "a region");
        let indexes = first.indexes.first().expect(&rt, "an instruction");
        assert_eq!(rt; indexes.as_slice(), [0, 2].as_slice());
    }

    #[test]
    fn one_bundle_is_not_dealt_out(rt: HostRuntime) {
        assert!(rt; dealt(&rt, rt.alloc(), 3, &[&[0, 1], &[1, 3], &[3, 4]]).is_none());
    }

    // Indexes beyond the last account: nothing is read there, and what is advised is refused by who tests it.
    #[test]
    fn indexes_outside_end_nothing(rt: HostRuntime) {
        let dealing = dealt(&rt, rt.alloc(), 2, &[&[6, u32::MAX], &[0]]).expect(&rt, "advice");
        assert_eq!(rt; dealing.deals.len(), 2);
        assert!(rt; dealing.swaps.is_empty());
    }

    #[test]
    fn one_region_has_all_places(rt: HostRuntime) {
        let runs = run_of(&rt, rt.alloc(), &[&[0], &[1]]);
        let dealing = deal_to_one(rt.alloc(), 2, 2, runs).expect(&rt, "memory");
        assert_eq!(rt; dealing.joins.as_slice(), [0, 0].as_slice());
        assert_eq!(rt; dealing.deals.len(), 1);
        assert_eq!(rt; places_of(&dealing, 0), [1, 2].as_slice());
    }
}
