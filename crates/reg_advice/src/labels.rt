//! Which instructions belong together: those that touch a common account, directly or over others. Each place points at
//! one of its bundle that is not later, and the first place of a bundle at itself; pointers are shortened on the way.

use crate::numbers::{number_or_zero, put_number};
use reg_base::NoMemory;
use reg_book::Indexes;
use std::alloc::Global;

/// Which bundle each place and each account belongs to.
#[derive(Drop)]
pub(crate) struct Labels {
    /// For each place, counted from 1, the first place of its bundle: its label. The number at index 0, where there is
    /// no place, is 0.
    pub(crate) of_places: Vec<u32>,
    /// For each account the first place that touches it, or 0.
    pub(crate) touchers: Vec<u32>,
    /// The accounts that places touch, each once.
    pub(crate) touched: Vec<u32>,
}

impl Labels {
    /// Those of so many places, for each of which there are the indexes of the accounts that it touches, run by run.
    ///
    /// # Errors
    /// `NoMemory` if memory ran out.
    pub(crate) fn of(
        alloc: Global,
        places: u32,
        accounts: u32,
        runs: &[Vec<Indexes>],
    ) -> Result<Labels, NoMemory> {
        let mut labels = Labels {
            of_places: alone(alloc, places)?,
            touchers: vec![in alloc; 0u32; accounts as usize]?,
            touched: Vec::with_capacity(alloc, (places as usize).saturating_mul(2))?,
        };
        let mut place: u32 = 0;
        for run in runs {
            for own in run {
                place = place.saturating_add(1);
                labels.touch_all(place, own)?;
            }
        }
        shorten_all(&mut labels.of_places);
        Ok(labels)
    }

    /// The label of an account's bundle, or 0 if no place touches it.
    pub(crate) fn of_account(&self, account: u32) -> u32 {
        number_or_zero(&self.of_places, number_or_zero(&self.touchers, account))
    }

    // Makes the bundle of a place one with those of its accounts.
    fn touch_all(&mut self, place: u32, own: &Indexes) -> Result<(), NoMemory> {
        for account in own.as_slice() {
            let first = number_or_zero(&self.touchers, *account);
            if first == 0 {
                put_number(&mut self.touchers, *account, place);
                self.touched.push(*account)?;
            } else {
                unite(&mut self.of_places, first, place);
            }
        }
        Ok(())
    }
}

// Pointers of the places 0 to this one, each at itself.
fn alone(alloc: Global, places: u32) -> Result<Vec<u32>, NoMemory> {
    let count = places.saturating_add(1);
    let mut pointers = Vec::with_capacity(alloc, count as usize)?;
    for place in 0..count {
        pointers.push(place)?;
    }
    Ok(pointers)
}

// Makes the bundles of two places one.
fn unite(pointers: &mut [u32], one: u32, other: u32) {
    let first = find(pointers, one);
    let second = find(pointers, other);
    put_number(pointers, first.max(second), first.min(second));
}

// Where the pointers of a place end.
fn find(pointers: &mut [u32], place: u32) -> u32 {
    let mut at = place;
    for _step in 0..pointers.len() {
        let up = number_or_zero(pointers, at);
        if up == at {
            break;
        }
        let further = number_or_zero(pointers, up);
        put_number(pointers, at, further);
        at = further;
    }
    at
}

// Lets each place point at its label: those before it do already.
fn shorten_all(pointers: &mut [u32]) {
    for index in 0..pointers.len() {
        let label = number_or_zero(pointers, pointers[index]);
        pointers[index] = label;
    }
}

#[cfg(test)]
mod tests {
    use super::*;
    use crate::small::run_of;

    // Four instructions: the third touches what the first and the second touch, and the fourth nothing of theirs.
    #[test]
    fn a_common_account_makes_one_bundle(rt: HostRuntime) {
        let runs = run_of(&rt, rt.alloc(), &[&[0, 1], &[3, 4], &[1, 3], &[2]]);
        let labels = Labels::of(rt.alloc(), 4, 5, &runs).expect(&rt, "memory");
        assert_eq!(rt; labels.of_places.as_slice(), [0, 1, 1, 1, 4].as_slice());
        assert_eq!(rt; labels.touchers.as_slice(), [1, 1, 4, 2, 2].as_slice());
        assert_eq!(rt; labels.touched.as_slice(), [0, 1, 3, 4, 2].as_slice());
        assert_eq!(rt; labels.of_account(4), 1);
        assert_eq!(rt; labels.of_account(2), 4);
    }

    #[test]
    fn what_touches_nothing_is_alone(rt: HostRuntime) {
        let runs = run_of(&rt, rt.alloc(), &[&[], &[0], &[]]);
        let labels = Labels::of(rt.alloc(), 3, 2, &runs).expect(&rt, "memory");
        assert_eq!(rt; labels.of_places.as_slice(), [0, 1, 2, 3].as_slice());
        assert_eq!(rt; labels.touched.as_slice(), [0].as_slice());
        assert_eq!(rt; labels.of_account(1), 0);
    }

    #[test]
    fn an_index_outside_is_nobodys(rt: HostRuntime) {
        let runs = run_of(&rt, rt.alloc(), &[&[9], &[9, 0]]);
        let labels = Labels::of(rt.alloc(), 2, 1, &runs).expect(&rt, "memory");
        assert_eq!(rt; labels.of_places.as_slice(), [0, 1, 2].as_slice());
        assert_eq!(rt; labels.of_account(9), 0);
    }
}
