//! What is known of bundles: instructions that belong together, with their accounts.

use crate::labels::Labels;
use crate::numbers::{number_or_zero, put_number, raise};
use reg_base::NoMemory;
use std::alloc::Global;

/// What is known of bundles, by their labels.
#[derive(Drop)]
pub(crate) struct Bundles {
    /// How many instructions each bundle has.
    pub(crate) weights: Vec<u32>,
    /// How many accounts it has.
    pub(crate) sizes: Vec<u32>,
    /// All accounts that instructions touch, each once, those of a bundle one behind the other.
    pub(crate) members: Vec<u32>,
    // Where the accounts of each bundle end among these.
    ends: Vec<u32>,
}

impl Bundles {
    /// What is known of the bundles with these labels.
    ///
    /// # Errors
    /// `NoMemory` if memory ran out.
    pub(crate) fn of(alloc: Global, labels: &Labels) -> Result<Bundles, NoMemory> {
        let mut weights = vec![in alloc; 0u32; labels.of_places.len()]?;
        let mut sizes = vec![in alloc; 0u32; labels.of_places.len()]?;
        for label in labels.of_places.iter().skip(1) {
            raise(&mut weights, *label, 1);
        }
        for account in &labels.touched {
            raise(&mut sizes, labels.of_account(*account), 1);
        }
        let mut ends = begins_of(alloc, &sizes)?;
        let mut members = vec![in alloc; 0u32; labels.touched.len()]?;
        for account in &labels.touched {
            let label = labels.of_account(*account);
            put_number(&mut members, number_or_zero(&ends, label), *account);
            raise(&mut ends, label, 1);
        }
        Ok(Bundles {
            weights,
            sizes,
            members,
            ends,
        })
    }

    /// How many accounts the largest bundle has.
    pub(crate) fn largest(&self) -> u32 {
        greatest(&self.sizes)
    }

    /// How many instructions the heaviest bundle has.
    pub(crate) fn heaviest(&self) -> u32 {
        greatest(&self.weights)
    }

    /// The accounts of a bundle.
    pub(crate) fn members_of(&self, label: u32) -> &[u32] {
        let end = number_or_zero(&self.ends, label) as usize;
        let start = end.saturating_sub(number_or_zero(&self.sizes, label) as usize);
        match self.members.get(start..end) {
            Some(members) => members,
            None => &[],
        }
    }
}

// Where each bundle begins, if each has so many.
fn begins_of(alloc: Global, sizes: &[u32]) -> Result<Vec<u32>, NoMemory> {
    let mut begins = Vec::with_capacity(alloc, sizes.len())?;
    let mut all: u32 = 0;
    for size in sizes {
        begins.push(all)?;
        all = all.saturating_add(*size);
    }
    Ok(begins)
}

fn greatest(numbers: &[u32]) -> u32 {
    let mut most: u32 = 0;
    for number in numbers {
        most = most.max(*number);
    }
    most
}

#[cfg(test)]
mod tests {
    use super::*;
    use crate::small::run_of;

    // The bundle of the places 1 and 3 has the accounts 0, 1 and 2, that of place 2 has the accounts 4 and 3.
    #[test]
    fn each_account_is_a_member_of_its_bundle(rt: HostRuntime) {
        let runs = run_of(&rt, rt.alloc(), &[&[0, 1], &[4, 3], &[1, 2]]);
        let labels = Labels::of(rt.alloc(), 3, 6, &runs).expect(&rt, "memory");
        let bundles = Bundles::of(rt.alloc(), &labels).expect(&rt, "memory");
        assert_eq!(rt; bundles.weights.as_slice(), [0, 2, 1, 0].as_slice());
        assert_eq!(rt; bundles.sizes.as_slice(), [0, 3, 2, 0].as_slice());
        assert_eq!(rt; bundles.members_of(1), [0, 1, 2].as_slice());
        assert_eq!(rt; bundles.members_of(2), [4, 3].as_slice());
        assert_eq!(rt; bundles.heaviest(), 2);
        assert_eq!(rt; bundles.largest(), 3);
    }

    #[test]
    fn a_label_outside_has_no_members(rt: HostRuntime) {
        let runs = run_of(&rt, rt.alloc(), &[&[0]]);
        let labels = Labels::of(rt.alloc(), 1, 1, &runs).expect(&rt, "memory");
        let bundles = Bundles::of(rt.alloc(), &labels).expect(&rt, "memory");
        assert!(rt; bundles.members_of(0).is_empty());
        assert!(rt; bundles.members_of(7).is_empty());
    }
}
