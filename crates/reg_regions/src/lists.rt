//! Lists of accounts that are cut, so that there is one for each region that is wanted, or joined, so that bundles have
//! room.

ghost use Rattle.std.specs.Prelude.{◌≡◌, ◌++◌, ◌<◌, ◌≤◌, IfOk, OnOk};
ghost use Rattle.reg_regions.specs.Lists.{joined_lists};

use reg_account::Account;
use reg_advice::numbers::{number_or_zero, raise, short};
use reg_base::NoMemory;
use std::alloc::Global;

/// The same accounts, in their order, in so many lists or more. Some of them may have no accounts.
///
/// # Errors
/// `NoMemory` if memory ran out. The accounts are dropped then.
pub(crate) fn cut_lists(
    alloc: Global,
    lists: Vec<Vec<Account>>,
    wanted: usize,
) -> Result<Vec<Vec<Account>>, NoMemory>
    ensures { IfOk result (λ cut. joined_lists cut.items ≡ joined_lists lists.items) }
{
    if lists.len() >= wanted {
        return Ok(lists);
    }
    let size = count_accounts(&lists).div_ceil(wanted.max(1)).max(1);
    let mut cut = Vec::with_capacity(alloc, wanted)?;
    for list in lists {
        cut_list(&mut cut, list, size)?;
    }
    fill(alloc, &mut cut, wanted)?;
    Ok(cut)
}

/// The same accounts, in their order, in as many lists or fewer: `joins` has for each list the number, counted from 0,
/// of that which it becomes a part of. These numbers rise by 0 or 1.
///
/// # Errors
/// `NoMemory` if memory ran out. The accounts are dropped then.
pub(crate) fn join_lists(
    alloc: Global,
    lists: Vec<Vec<Account>>,
    joins: &[u32],
) -> Result<Vec<Vec<Account>>, NoMemory>
    ensures { IfOk result (λ joined. joined_lists joined.items ≡ joined_lists lists.items) }
{
    let mut joined = Vec::with_capacity(alloc, lists.len())?;
    let sizes = sizes_together(alloc, &lists, joins)?;
    let mut index: u32 = 0;
    for list in lists {
        let region = number_or_zero(joins, index);
        if region < short(joined.len()) {
            join_last(&mut joined, list)?;
        } else {
            joined.push(reserved(list, number_or_zero(&sizes, region))?)?;
        }
        index = index.saturating_add(1);
    }
    Ok(joined)
}

/// The same accounts, in their order, in one list. The first list takes up the others, so each account moves once at
/// most.
///
/// # Errors
/// `NoMemory` if memory ran out. The accounts are dropped then.
pub(crate) fn join_all(alloc: Global, lists: Vec<Vec<Account>>) -> Result<Vec<Account>, NoMemory>
    ensures { IfOk result (λ all. all.items ≡ joined_lists lists.items) }
{
    let count = count_accounts(&lists);
    let mut lists = lists.into_iter();
    let Some(first) = lists.next() else {
        return Ok(Vec::new(alloc));
    };
    let mut all = reserved(first, short(count))?;
    for list in lists {
        let mut list = list;
        all.append(&mut list)?;
    }
    Ok(all)
}

// How many accounts come together in each list.
fn sizes_together(
    alloc: Global,
    lists: &[Vec<Account>],
    joins: &[u32],
) -> Result<Vec<u32>, NoMemory> {
    let mut sizes = vec![in alloc; 0u32; lists.len()]?;
    let mut index: u32 = 0;
    for list in lists {
        raise(&mut sizes, number_or_zero(joins, index), short(list.len()));
        index = index.saturating_add(1);
    }
    Ok(sizes)
}

// A list with room for so many accounts, so that those that come behind it move once.
fn reserved(list: Vec<Account>, count: u32) -> Result<Vec<Account>, NoMemory>
    ensures { IfOk result (λ roomy. roomy.items ≡ list.items) }
{
    let mut list = list;
    list.reserve((count as usize).saturating_sub(list.len()))?;
    Ok(list)
}

// Puts accounts behind those of the last list.
fn join_last(joined: &mut Vec<Vec<Account>>, list: Vec<Account>) -> Result<(), NoMemory>
    ensures { OnOk result (joined_lists joined.new.items ≡ joined_lists joined.old.items ++ list.items) }
{
    let mut list = list;
    let Some(last) = joined.pop() else {
        joined.push(list)?;
        return Ok(());
    };
    let mut last = last;
    last.append(&mut list)?;
    joined.push(last)?;
    Ok(())
}

// How many accounts lists have together. Nothing is promised of the number: lists are cut by it.
fn count_accounts(lists: &[Vec<Account>]) -> usize {
    let mut count: usize = 0;
    for list in lists {
        count = count.saturating_add(list.len());
    }
    count
}

// Puts a list behind others, in lists of so many accounts or fewer. Each account moves once at most.
fn cut_list(cut: &mut Vec<Vec<Account>>, list: Vec<Account>, size: usize) -> Result<(), NoMemory>
    requires { 1 ≤ size }
    ensures { OnOk result (joined_lists cut.new.items ≡ joined_lists cut.old.items ++ list.items) }
{
    let mut front = list;
    if front.len() <= size {
        cut.push(front)?;
        return Ok(());
    }
    let tail = front.split_off(front.len() - size)?;
    cut_list(cut, front, size)?;
    cut.push(tail)?;
    Ok(())
}

// Puts lists without accounts behind others, until there are so many.
fn fill(alloc: Global, cut: &mut Vec<Vec<Account>>, wanted: usize) -> Result<(), NoMemory>
    ensures { OnOk result (joined_lists cut.new.items ≡ joined_lists cut.old.items) }
{
    for _list in cut.len()..wanted {
        cut.push(Vec::new(alloc))?;
    }
    Ok(())
}
