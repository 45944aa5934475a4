//! How accounts lie in lists.

use crate::numbers::{number_or_zero, short};
use reg_account::Account;
use reg_base::{AccountNo, NoMemory};
use std::alloc::Global;

/// How many regions a day has at most: three for each worker are wanted. If there are more lists, some are joined.
pub(crate) const MOST_REGIONS: u32 = 64;

// How many accounts a block has: the region of its first one is kept.
const BLOCK: u32 = 64;

/// Lists of accounts one behind the other, of which each is a region, or several that follow each other are one. The
/// index of an account counts through all of them, from 0.
#[derive(Drop)]
pub(crate) struct Layout {
    /// How many accounts there are.
    pub(crate) accounts: u32,
    /// How many regions there are.
    pub(crate) regions: u32,
    /// For each list the region that it is a part of. Only [`Layout::within`] tells this.
    pub(crate) joins: Vec<u32>,
    // Where each region begins, and at the end how many accounts there are.
    starts: Vec<u32>,
    // The first number in each list, or if it has no account, that of the list before it, or else the lowest of all.
    // Only `Layout::of` tells this.
    firsts: Vec<AccountNo>,
    // For each block of accounts the region in which its first one stands.
    blocks: Vec<u32>,
}

impl Layout {
    /// How accounts lie in these lists, each a region. `None` if there is no account.
    ///
    /// # Errors
    /// `NoMemory` if memory ran out.
    pub(crate) fn of(alloc: Global, lists: &[Vec<Account>]) -> Result<Option<Layout>, NoMemory> {
        let Some(lowest) = lowest_number(lists) else {
            return Ok(None);
        };
        let mut starts = Vec::with_capacity(alloc, lists.len().saturating_add(1))?;
        let mut firsts = Vec::with_capacity(alloc, lists.len())?;
        let mut blocks = Vec::new(alloc);
        let mut first = lowest;
        let mut accounts: u32 = 0;
        let mut region: u32 = 0;
        for list in lists {
            if let Some(account) = list.first() {
                first = account.number();
            }
            starts.push(accounts)?;
            firsts.push(first)?;
            accounts = accounts.saturating_add(short(list.len()));
            add_blocks(&mut blocks, accounts, region)?;
            region = region.saturating_add(1);
        }
        starts.push(accounts)?;
        Ok(Some(Layout {
            accounts,
            regions: region,
            joins: Vec::new(alloc),
            starts,
            firsts,
            blocks,
        }))
    }

    /// The same lists in at most so many regions, of about as many accounts each if some have to be joined.
    ///
    /// # Errors
    /// `NoMemory` if memory ran out.
    pub(crate) fn within(&self, alloc: Global, most: u32) -> Result<Layout, NoMemory> {
        let mut starts = Vec::with_capacity(alloc, self.starts.len())?;
        let mut joins = Vec::with_capacity(alloc, self.starts.len())?;
        let mut blocks = Vec::new(alloc);
        let mut last = u32::MAX;
        for list in 0..self.regions {
            let group = self.group_of(list, most);
            if group != last {
                starts.push(self.start(list))?;
                last = group;
            }
            let region = short(starts.len()).saturating_sub(1);
            joins.push(region)?;
            add_blocks(&mut blocks, self.end(list), region)?;
        }
        let regions = short(starts.len());
        starts.push(self.accounts)?;
        Ok(Layout {
            accounts: self.accounts,
            regions,
            joins,
            starts,
            firsts: Vec::new(alloc),
            blocks,
        })
    }

    /// The region in which an account stands, counted from 0.
    pub(crate) fn region_of(&self, index: u32) -> u32 {
        let mut region = number_or_zero(&self.blocks, index / BLOCK);
        for _later in region..self.regions {
            if index < self.end(region) {
                break;
            }
            region = region.saturating_add(1);
        }
        region
    }

    // Which of so many equal shares of the accounts has the middle of a list. If there are no more lists, each has its
    // own.
    fn group_of(&self, list: u32, most: u32) -> u32 {
        if self.regions <= most {
            return list;
        }
        let size = self.accounts.div_ceil(most.max(1)).max(1);
        let middle = (self.start(list) / 2).saturating_add(self.end(list) / 2);
        (middle / size).min(most.saturating_sub(1))
    }

    /// The list in which an account with this number would stand, if none are joined.
    pub(crate) fn list_for(&self, number: AccountNo) -> u32 {
        let mut list: u32 = 0;
        let mut end = short(self.firsts.len());
        for _half in 0..u32::BITS {
            let middle = list.saturating_add(end.saturating_sub(list) / 2);
            if middle <= list {
                break;
            }
            if self.begins_by(middle, number) {
                list = middle;
            } else {
                end = middle;
            }
        }
        self.last_with_accounts(list)
    }

    // The list itself, or else the nearest one before it that has accounts.
    fn last_with_accounts(&self, list: u32) -> u32 {
        let mut last = list;
        for _empty in 0..list {
            if self.len(last) > 0 {
                break;
            }
            last = last.saturating_sub(1);
        }
        last
    }

    // Whether a list begins with this number, or with one below it.
    fn begins_by(&self, list: u32, number: AccountNo) -> bool {
        match self.firsts.get(list as usize) {
            Some(first) => *first <= number,
            None => false,
        }
    }

    /// How many accounts the largest region has.
    pub(crate) fn largest(&self) -> u32 {
        let mut most: u32 = 0;
        for region in 0..self.regions {
            most = most.max(self.len(region));
        }
        most
    }

    /// Where a region begins.
    pub(crate) fn start(&self, region: u32) -> u32 {
        number_or_zero(&self.starts, region)
    }

    /// Where a region ends.
    pub(crate) fn end(&self, region: u32) -> u32 {
        number_or_zero(&self.starts, region.saturating_add(1))
    }

    /// How many accounts a region has.
    pub(crate) fn len(&self, region: u32) -> u32 {
        self.end(region).saturating_sub(self.start(region))
    }
}

// The lowest number, if there is an account.
fn lowest_number(lists: &[Vec<Account>]) -> Option<AccountNo> {
    for list in lists {
        if let Some(account) = list.first() {
            return Some(account.number());
        }
    }
    None
}

// Adds the blocks that begin before an index.
fn add_blocks(blocks: &mut Vec<u32>, until: u32, region: u32) -> Result<(), NoMemory> {
    let all = until.div_ceil(BLOCK);
    let begun = short(blocks.len());
    for _block in begun..all {
        blocks.push(region)?;
    }
    Ok(())
}

#[cfg(test)]
mod tests {
    use super::*;
    use crate::small::lists_of;
    use std::process::Abort;

    fn number(rt: &impl Abort, number: u32) -> AccountNo {
        AccountNo::new(number).expect(rt, "an account number")
    }

    fn layout(rt: &impl Abort, alloc: Global, numbers: &[&[u32]]) -> Layout {
        let lists = lists_of(rt, alloc, numbers);
        let found = Layout::of(alloc, &lists).expect(rt, "memory");
        found.expect(rt, "accounts")
    }

    #[test]
    fn each_account_lies_in_its_list(rt: HostRuntime) {
        let layout = layout(&rt, rt.alloc(), &[&[10, 20], &[], &[30, 40, 50]]);
        assert_eq!(rt; layout.accounts, 5);
        assert_eq!(rt; layout.regions, 3);
        assert_eq!(rt; layout.largest(), 3);
        for (index, region) in [(0, 0), (1, 0), (2, 2), (4, 2)] {
            assert_eq!(rt; layout.region_of(index), region, "at {index}");
        }
        for (wanted, list) in [(10, 0), (25, 0), (30, 2), (99, 2), (1, 0)] {
            assert_eq!(rt; layout.list_for(number(&rt, wanted)), list, "of {wanted}");
        }
    }

    #[test]
    fn an_index_outside_is_in_no_region(rt: HostRuntime) {
        let layout = layout(&rt, rt.alloc(), &[&[1], &[2]]);
        assert_eq!(rt; layout.region_of(2), layout.regions);
        assert_eq!(rt; layout.len(2), 0);
        assert_eq!(rt; layout.start(9), 0);
    }

    #[test]
    fn joined_lists_follow_each_other(rt: HostRuntime) {
        let layout = layout(&rt, rt.alloc(), &[&[1, 2], &[3, 4], &[5, 6], &[7, 8]]);
        let joined = layout.within(rt.alloc(), 2).expect(&rt, "memory");
        assert_eq!(rt; joined.regions, 2);
        assert_eq!(rt; joined.joins.as_slice(), [0, 0, 1, 1].as_slice());
        assert_eq!(rt; joined.len(0), 4);
        assert_eq!(rt; joined.region_of(4), 1);
        let same = layout.within(rt.alloc(), 4).expect(&rt, "memory");
        assert_eq!(rt; same.joins.as_slice(), [0, 1, 2, 3].as_slice());
    }

    #[test]
    fn no_account_is_no_layout(rt: HostRuntime) {
        let lists = lists_of(&rt, rt.alloc(), &[&[], &[]]);
        let found = Layout::of(rt.alloc(), &lists).expect(&rt, "memory");
        assert!(rt; found.is_none());
    }
}
