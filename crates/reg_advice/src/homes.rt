//! Which region each bundle goes to.

use crate::bundles::Bundles;
use crate::layout::{Layout, MOST_REGIONS};
use crate::numbers::{lower, number_or_zero, put_number, raise};
use reg_base::NoMemory;
use std::alloc::Global;

/// The regions of bundles.
#[derive(Drop)]
pub(crate) struct Homes {
    /// The region of each bundle by its label. One that has none yet is at the first.
    pub(crate) regions: Vec<u32>,
    /// How many instructions each region has.
    pub(crate) loads: Vec<u32>,
    // For how many accounts more each region has room.
    left: Vec<u32>,
    // How many instructions a region gets at most, if it can be helped.
    quota: u32,
}

impl Homes {
    /// The region of each bundle. `None` if there is no room for one. The heaviest bundles go first, each to the region
    /// that has most of its accounts, as long as that does not get too much.
    ///
    /// # Errors
    /// `NoMemory` if memory ran out.
    pub(crate) fn of(
        alloc: Global,
        layout: &Layout,
        bundles: &Bundles,
        instructions: u32,
    ) -> Result<Option<Homes>, NoMemory> {
        let quota = quota_of(instructions, layout.regions);
        let heavy = heaviest_first(alloc, &bundles.weights)?;
        let mut homes = Homes::new(alloc, layout, bundles.weights.len(), quota)?;
        for label in &heavy {
            if homes.place(layout, bundles, *label).is_none() {
                return Ok(None);
            }
        }
        let mut label: u32 = 0;
        for weight in &bundles.weights {
            if *weight == 1 && homes.place(layout, bundles, label).is_none() {
                return Ok(None);
            }
            label = label.saturating_add(1);
        }
        Ok(Some(homes))
    }

    fn new(alloc: Global, layout: &Layout, labels: usize, quota: u32) -> Result<Homes, NoMemory> {
        let mut left = Vec::with_capacity(alloc, layout.regions as usize)?;
        for region in 0..layout.regions {
            left.push(layout.len(region))?;
        }
        Ok(Homes {
            regions: vec![in alloc; 0u32; labels]?,
            loads: vec![in alloc; 0u32; layout.regions as usize]?,
            left,
            quota,
        })
    }

    // Finds a region for a bundle, puts it there, and answers which one that is.
    fn place(&mut self, layout: &Layout, bundles: &Bundles, label: u32) -> Option<u32> {
        let weight = number_or_zero(&bundles.weights, label);
        let size = number_or_zero(&bundles.sizes, label);
        let members = bundles.members_of(label);
        let region = self.best(layout, members, weight, size)?;
        put_number(&mut self.regions, label, region);
        raise(&mut self.loads, region, weight);
        lower(&mut self.left, region, size);
        Some(region)
    }

    // The region for a bundle with these accounts.
    fn best(&self, layout: &Layout, members: &[u32], weight: u32, size: u32) -> Option<u32> {
        match self.nearest(layout, members, weight, size) {
            Some(region) => Some(region),
            None => self.idlest(layout, size),
        }
    }

    // The region with most of these accounts, of those that have room and do not get more than their quota.
    fn nearest(&self, layout: &Layout, members: &[u32], weight: u32, size: u32) -> Option<u32> {
        let mut standing = [0u32; MOST_REGIONS as usize];
        let mut best = None;
        let mut most = 0;
        for member in members {
            let region = layout.region_of(*member);
            raise(&mut standing, region, 1);
            let here = number_or_zero(&standing, region);
            let load = number_or_zero(&self.loads, region).saturating_add(weight);
            if here > most && load <= self.quota && number_or_zero(&self.left, region) >= size {
                best = Some(region);
                most = here;
            }
        }
        best
    }

    // The region with the least to do, of those that have room.
    fn idlest(&self, layout: &Layout, size: u32) -> Option<u32> {
        let mut idlest = None;
        let mut least = u32::MAX;
        for region in 0..layout.regions {
            let load = number_or_zero(&self.loads, region);
            if load < least && number_or_zero(&self.left, region) >= size {
                idlest = Some(region);
                least = load;
            }
        }
        idlest
    }
}

// The labels of bundles of two instructions and more, the heaviest first.
fn heaviest_first(alloc: Global, weights: &[u32]) -> Result<Vec<u32>, NoMemory> {
    let mut heavy = Vec::new(alloc);
    let mut label: u32 = 0;
    for weight in weights {
        if *weight > 1 {
            heavy.push(label)?;
        }
        label = label.saturating_add(1);
    }
    heavy.sort_unstable_by_key(|label| u32::MAX - number_or_zero(weights, *label));
    Ok(heavy)
}

// How many of so many instructions a region gets at most, if it can be helped.
fn quota_of(instructions: u32, regions: u32) -> u32 {
    let even = instructions / regions.max(1);
    even.saturating_add(even / 32).saturating_add(1)
}

#[cfg(test)]
mod tests {
    use super::*;
    use crate::labels::Labels;
    use crate::small::{lists_of, run_of};
    use std::process::Abort;

    // The homes of bundles of a book of two lists, each of two accounts.
    fn homes(rt: &impl Abort, alloc: Global, places: u32, touched: &[&[u32]]) -> Option<Homes> {
        let lists = lists_of(rt, alloc, &[&[1, 2], &[3, 4]]);
        let found = Layout::of(alloc, &lists).expect(rt, "memory");
        let layout = found.expect(rt, "accounts");
        let runs = run_of(rt, alloc, touched);
        let labels = Labels::of(alloc, places, 4, &runs).expect(rt, "memory");
        let bundles = Bundles::of(alloc, &labels).expect(rt, "memory");
        Homes::of(alloc, &layout, &bundles, places).expect(rt, "memory")
    }

    #[test]
    fn a_bundle_goes_where_most_of_its_accounts_are(rt: HostRuntime) {
        let homes = homes(&rt, rt.alloc(), 2, &[&[2, 3], &[0, 1]]).expect(&rt, "room");
        assert_eq!(rt; homes.regions.as_slice(), [0, 1, 0].as_slice());
        assert_eq!(rt; homes.loads.as_slice(), [1, 1].as_slice());
    }

    #[test]
    fn nobody_gets_more_than_a_share(rt: HostRuntime) {
        let homes = homes(&rt, rt.alloc(), 4, &[&[0], &[0], &[1], &[1]]).expect(&rt, "room");
        assert_eq!(rt; homes.loads.as_slice(), [2, 2].as_slice());
    }

    #[test]
    fn a_bundle_without_room_has_no_home(rt: HostRuntime) {
        assert!(rt; homes(&rt, rt.alloc(), 2, &[&[0, 2], &[2, 1]]).is_none());
    }

    #[test]
    fn every_home_is_a_region(rt: HostRuntime) {
        let homes = homes(&rt, rt.alloc(), 3, &[&[0], &[9], &[]]).expect(&rt, "room");
        for region in &homes.regions {
            assert!(rt; *region < 2);
        }
    }
}
