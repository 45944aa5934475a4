//! Which accounts are swapped, so that each stands in the region of its bundle.

use crate::dealing::Swap;
use crate::homes::Homes;
use crate::layout::Layout;
use crate::numbers::{index_at, number_or_zero, put_index, put_number, short};
use reg_base::NoMemory;
use std::alloc::Global;

// An account that stands in a region and is to stand in another.
#[derive(Clone, Copy, Drop)]
struct Mover {
    // The account, by where it stood first.
    account: u32,
    // Where it stands now.
    stands: u32,
    // The one behind it with the same way: see `index_at`.
    next: u32,
}

// Whether accounts were brought to the regions of their bundles, or found nothing free there.
#[derive(Clone, Copy, Drop)]
enum Brought {
    Home,
    Nowhere,
}

/// Accounts while swaps are looked for.
#[derive(Drop)]
pub(crate) struct Movers {
    /// For each touched account where it stands, and nothing for each other account: see `index_at`.
    pub(crate) stands: Vec<u32>,
    /// The swaps so far.
    pub(crate) swaps: Vec<Swap>,
    waiting: Vec<Mover>,
    // For each region and each other one the first mover from the one to the other: see `index_at`.
    heads: Vec<u32>,
    // From which index on each region may have an account that no instruction touches.
    free: Vec<u32>,
    regions: u32,
}

impl Movers {
    /// The swaps after which each touched account stands in the region of its bundle. `None` if there is no room.
    ///
    /// # Errors
    /// `NoMemory` if memory ran out.
    pub(crate) fn of(
        alloc: Global,
        layout: &Layout,
        touchers: Vec<u32>,
        labels: &[u32],
        members: &[u32],
        homes: &Homes,
    ) -> Result<Option<Movers>, NoMemory> {
        let mut movers = Movers::new(alloc, layout, touchers, members.len())?;
        for account in members {
            // Up to here the list of what stands where has the first place that touches it.
            let label = number_or_zero(labels, number_or_zero(&movers.stands, *account));
            let home = number_or_zero(&homes.regions, label);
            put_index(&mut movers.stands, *account, *account);
            let here = layout.region_of(*account);
            if here != home {
                movers.pair(*account, here, home)?;
            }
        }
        match movers.bring_all_home(layout)? {
            Brought::Home => Ok(Some(movers)),
            Brought::Nowhere => Ok(None),
        }
    }

    fn new(
        alloc: Global,
        layout: &Layout,
        stands: Vec<u32>,
        movers: usize,
    ) -> Result<Movers, NoMemory> {
        let mut free = Vec::with_capacity(alloc, layout.regions as usize)?;
        for region in 0..layout.regions {
            free.push(layout.start(region))?;
        }
        let ways = layout.regions.saturating_mul(layout.regions);
        Ok(Movers {
            stands,
            swaps: Vec::with_capacity(alloc, movers)?,
            waiting: Vec::with_capacity(alloc, movers)?,
            heads: vec![in alloc; 0u32; ways as usize]?,
            free,
            regions: layout.regions,
        })
    }

    fn way(&self, here: u32, home: u32) -> u32 {
        here.saturating_mul(self.regions).saturating_add(home)
    }

    // Lets what stands at an index of a region wait until something comes for it from another.
    fn wait(&mut self, account: u32, stands: u32, here: u32, home: u32) -> Result<(), NoMemory> {
        let way = self.way(here, home);
        let next = number_or_zero(&self.heads, way);
        put_index(&mut self.heads, way, short(self.waiting.len()));
        self.waiting.push(Mover {
            account,
            stands,
            next,
        })?;
        Ok(())
    }

    // What waits in a region for another.
    fn take(&mut self, here: u32, home: u32) -> Option<Mover> {
        let way = self.way(here, home);
        let first = index_at(&self.heads, way)?;
        let mover = *self.waiting.get(first as usize)?;
        put_number(&mut self.heads, way, mover.next);
        Some(mover)
    }

    // What waits in a region for any other, and for which.
    fn take_any(&mut self, here: u32) -> Option<(Mover, u32)> {
        for home in 0..self.regions {
            if home != here {
                if let Some(mover) = self.take(here, home) {
                    return Some((mover, home));
                }
            }
        }
        None
    }

    // Swaps an account with one that goes the other way, or lets it wait for one.
    fn pair(&mut self, account: u32, here: u32, home: u32) -> Result<(), NoMemory> {
        match self.take(home, here) {
            Some(other) => self.exchange(account, account, other),
            None => self.wait(account, account, here, home),
        }
    }

    // Swaps an account, which stands at an index, with one that waits.
    fn exchange(&mut self, account: u32, stands: u32, other: Mover) -> Result<(), NoMemory> {
        put_index(&mut self.stands, account, other.stands);
        put_index(&mut self.stands, other.account, stands);
        self.swaps.push(Swap {
            one: stands,
            other: other.stands,
        })?;
        Ok(())
    }

    // Brings each account home that still waits, as long as there is room.
    fn bring_all_home(&mut self, layout: &Layout) -> Result<Brought, NoMemory> {
        for here in 0..self.regions {
            for home in 0..self.regions {
                if here != home {
                    let Brought::Home = self.bring_those_home(layout, here, home)? else {
                        return Ok(Brought::Nowhere);
                    };
                }
            }
        }
        Ok(Brought::Home)
    }

    fn bring_those_home(
        &mut self,
        layout: &Layout,
        here: u32,
        home: u32,
    ) -> Result<Brought, NoMemory> {
        for _waiting in 0..layout.accounts {
            let Some(mover) = self.take(here, home) else {
                return Ok(Brought::Home);
            };
            let Brought::Home = self.bring_home(layout, mover, here, home)? else {
                return Ok(Brought::Nowhere);
            };
        }
        Ok(Brought::Home)
    }

    // Swaps an account into its region, and what comes for it too, until something comes that may stay.
    fn bring_home(
        &mut self,
        layout: &Layout,
        mover: Mover,
        here: u32,
        home: u32,
    ) -> Result<Brought, NoMemory> {
        let mut account = mover.account;
        let mut wanted = home;
        for _swap in 0..layout.accounts {
            if let Some(other) = self.take(wanted, here) {
                self.exchange(account, mover.stands, other)?;
                return Ok(Brought::Home);
            }
            if let Some(index) = self.next_free(layout, wanted) {
                self.change_places(account, mover.stands, index, here)?;
                return Ok(Brought::Home);
            }
            let Some((other, next)) = self.take_any(wanted) else {
                return Ok(Brought::Nowhere);
            };
            self.exchange(account, mover.stands, other)?;
            account = other.account;
            wanted = next;
        }
        Ok(Brought::Nowhere)
    }

    // Swaps an account, which stands at an index of a region, with one at another index that no instruction touches.
    // The other one then waits where the first one stood, until an account is to come there.
    fn change_places(
        &mut self,
        account: u32,
        stands: u32,
        index: u32,
        here: u32,
    ) -> Result<(), NoMemory> {
        put_index(&mut self.stands, account, index);
        self.swaps.push(Swap {
            one: stands,
            other: index,
        })?;
        self.wait(account, stands, here, here)
    }

    // The next index of a region at which an account stands that no instruction touches.
    fn next_free(&mut self, layout: &Layout, region: u32) -> Option<u32> {
        for index in number_or_zero(&self.free, region)..layout.end(region) {
            if index_at(&self.stands, index).is_none() {
                put_number(&mut self.free, region, index.saturating_add(1));
                return Some(index);
            }
        }
        put_number(&mut self.free, region, layout.end(region));
        let left = self.take(region, region)?;
        Some(left.stands)
    }
}

#[cfg(test)]
mod tests {
    use super::*;
    use crate::bundles::Bundles;
    use crate::labels::Labels;
    use crate::small::{lists_of, run_of};
    use std::process::Abort;

    // The swaps in a book of two lists, each of three accounts, and where accounts stand afterwards.
    fn movers(rt: &impl Abort, alloc: Global, places: u32, touched: &[&[u32]]) -> Option<Movers> {
        let lists = lists_of(rt, alloc, &[&[1, 2, 3], &[4, 5, 6]]);
        let found = Layout::of(alloc, &lists).expect(rt, "memory");
        let layout = found.expect(rt, "accounts");
        let runs = run_of(rt, alloc, touched);
        let labels = Labels::of(alloc, places, 6, &runs).expect(rt, "memory");
        let bundles = Bundles::of(alloc, &labels).expect(rt, "memory");
        let found = Homes::of(alloc, &layout, &bundles, places).expect(rt, "memory");
        let homes = found.expect(rt, "room");
        let Labels {
            of_places,
            touchers,
            ..
        } = labels;
        Movers::of(
            alloc,
            &layout,
            touchers,
            &of_places,
            &bundles.members,
            &homes,
        )
        .expect(rt, "memory")
    }

    #[test]
    fn who_is_at_home_stays(rt: HostRuntime) {
        let movers = movers(&rt, rt.alloc(), 2, &[&[0, 1], &[4, 5]]).expect(&rt, "room");
        assert!(rt; movers.swaps.is_empty());
        assert_eq!(rt; movers.stands.as_slice(), [1, 2, 0, 0, 5, 6].as_slice());
    }

    // Both bundles have two accounts at home and one in the other list: these two change places.
    #[test]
    fn two_that_go_opposite_ways_change_places(rt: HostRuntime) {
        let movers = movers(&rt, rt.alloc(), 2, &[&[0, 1, 3], &[4, 5, 2]]).expect(&rt, "room");
        let swap = Swap { one: 2, other: 3 };
        assert_eq!(rt; movers.swaps.as_slice(), [swap].as_slice());
        assert_eq!(rt; movers.stands.as_slice(), [1, 2, 4, 3, 5, 6].as_slice());
    }

    // The account at 3 takes the place of the one at 2, which no instruction touches.
    #[test]
    fn one_alone_goes_where_nothing_is_touched(rt: HostRuntime) {
        let movers = movers(&rt, rt.alloc(), 2, &[&[0, 1, 3], &[4, 5]]).expect(&rt, "room");
        let swap = Swap { one: 3, other: 2 };
        assert_eq!(rt; movers.swaps.as_slice(), [swap].as_slice());
        assert_eq!(rt; index_at(&movers.stands, 3), Some(2));
    }
}
