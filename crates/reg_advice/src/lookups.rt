//! Where the accounts of instructions stand in lists.

ghost use Rattle.reg_base.specs.Rising.{IsRising};
ghost use Rattle.reg_rules.specs.State.{numbers};
ghost use Rattle.reg_facts.specs.Lists.{joined_lists};

use crate::layout::Layout;
use reg_account::Account;
use reg_base::{AccountNo, Instruction, NoMemory};
use reg_book::{Indexes, index_of};
use std::alloc::Global;
use std::thread;
use std::thread::Threads;

/// For each instruction the indexes of the accounts that it touches, in so many runs, about. Each run is looked up by a
/// thread of its own where one can be started.
///
/// # Errors
/// `NoMemory` if memory ran out.
pub(crate) fn find_by_runs<R: Threads + Sync>(
    rt: &R,
    alloc: Global,
    lists: &[Vec<Account>],
    layout: &Layout,
    instructions: &[Instruction],
    runs: u32,
) -> Result<Vec<Vec<Indexes>>, NoMemory>
    requires { IsRising (numbers (joined_lists lists.now)) }
{
    let size = (instructions.len() / runs.max(1) as usize).saturating_add(1);
    let found = thread::map_chunks(
        rt,
        alloc,
        instructions,
        size,
        &|_, run|
            requires { IsRising (numbers (joined_lists lists.now)) }
        { find_indexes(alloc, lists, layout, run) },
    )?;
    let mut all = Vec::with_capacity(alloc, found.len())?;
    for run in found {
        all.push(run?)?;
    }
    Ok(all)
}

// Those of a run.
fn find_indexes(
    alloc: Global,
    lists: &[Vec<Account>],
    layout: &Layout,
    instructions: &[Instruction],
) -> Result<Vec<Indexes>, NoMemory>
    requires { IsRising (numbers (joined_lists lists.now)) }
{
    let mut indexes = Vec::with_capacity(alloc, instructions.len())?;
    for instruction in instructions {
        indexes.push(indexes_of(lists, layout, instruction))?;
    }
    Ok(indexes)
}

// No indexes, if an account that must be known is not there.
fn indexes_of(lists: &[Vec<Account>], layout: &Layout, instruction: &Instruction) -> Indexes
    requires { IsRising (numbers (joined_lists lists.now)) }
{
    let movement = instruction.act.movement();
    if let Some(number) = movement.also_known() {
        if find_account(lists, layout, number).is_none() {
            return Indexes::new();
        }
    }
    let mut indexes = Indexes::new();
    let parties = movement.parties();
    for number in parties.as_slice() {
        match find_account(lists, layout, *number) {
            None => return Indexes::new(),
            Some(index) => push_index(&mut indexes, index),
        }
    }
    indexes
}

// The index of the account with this number.
fn find_account(lists: &[Vec<Account>], layout: &Layout, number: AccountNo) -> Option<u32>
    requires { IsRising (numbers (joined_lists lists.now)) }
{
    let region = layout.list_for(number);
    if region as usize >= lists.len() {
        return None;
    }
    let index = index_of(&lists[region as usize], number)?;
    let Ok(short) = u32::try_from(index) else {
        return None;
    };
    Some(layout.start(region).saturating_add(short))
}

fn push_index(indexes: &mut Indexes, index: u32) {
    if !indexes.is_full() {
        indexes.push(index);
    }
}

#[cfg(test)]
mod tests {
    use super::*;
    use crate::small::book_of;

    #[test]
    fn an_account_is_found_by_its_number(rt: HostRuntime) {
        let parts = book_of(&rt, rt.alloc(), &[10, 30, 40]);
        let lists = parts.lists();
        let found = Layout::of(rt.alloc(), lists).expect(&rt, "memory");
        let layout = found.expect(&rt, "accounts");
        let wanted = [
            (10, Some(0)),
            (30, Some(1)),
            (40, Some(2)),
            (1, None),
            (20, None),
            (50, None),
        ];
        for (number, index) in wanted {
            let account = AccountNo::new(number).expect(&rt, "an account number");
            assert_eq!(rt; find_account(lists, &layout, account), index, "{number}");
        }
    }
}
