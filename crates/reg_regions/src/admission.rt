//! What advice has to pass before it is used: its swaps are within the book, each place is dealt once, and each account
//! then stands at home.

ghost use Rattle.std.specs.Prelude.{◌≡◌, ◌≤◌, All, false, IsTrue, MatchOption, length};
ghost use Rattle.reg_book.specs.Book.{directory_of};
ghost use Rattle.reg_regions.specs.Dealing.{IsAdmitted, AreDealtOnce};
ghost use Rattle.reg_regions.specs.Homes.{AreAllHome};
ghost use Rattle.reg_regions.specs.Lists.{joined_lists};
ghost use Rattle.reg_regions.specs.Swaps.{IsSwapWithin, exchanged};

use crate::admission::accounts::are_all_home;
use crate::admission::places::have_all_places;
use crate::exchange::{swap_all, swap_back};
use reg_account::Account;
use reg_advice::numbers::short;
use reg_advice::{Deal, Dealing, Swap, runs_of};
use reg_base::{Batch, NoMemory};
use reg_rules::Setting;
use std::alloc::Global;
use std::thread::Threads;

mod accounts;
mod places;

/// Admits advice on how a day is dealt out to these lists, each a region: accounts are swapped, and those that
/// instructions touch then stand in the regions of these. `None` if there is no advice, if a test of it fails, or if
/// memory for a test ran out: the accounts then stand where they stood.
pub(crate) fn admit<R: Threads + Sync>(
    rt: &R,
    alloc: Global,
    setting: &Setting,
    batch: &Batch,
    advice: Option<Dealing>,
    lists: Vec<Vec<Account>>,
    workers: u32,
) -> (Option<Dealing>, Vec<Vec<Account>>)
    requires directory { setting.now.directory ≡ directory_of (joined_lists lists.items) }
    ensures { MatchOption result.0 (joined_lists result.1.items ≡ joined_lists lists.items)
        (λ dealing. IsAdmitted setting.now batch.now dealing (joined_lists lists.items) result.1.items) }
{
    let mut lists = lists;
    let dealing = admit_in(rt, alloc, setting, batch, advice, workers, &mut lists);
    (dealing, lists)
}

fn admit_in<R: Threads + Sync>(
    rt: &R,
    alloc: Global,
    setting: &Setting,
    batch: &Batch,
    advice: Option<Dealing>,
    workers: u32,
    lists: &mut [Vec<Account>],
) -> Option<Dealing>
    requires { setting.now.directory ≡ directory_of (joined_lists lists.old) }
    ensures { MatchOption result (joined_lists lists.new ≡ joined_lists lists.old)
        (λ dealing. IsAdmitted setting.now batch.now dealing (joined_lists lists.old) lists.new) }
{
    let dealing = advice?;
    if !are_within(&dealing.swaps, count_all(lists)) {
        return None;
    }
    if !is_each_dealt_once(alloc, batch, &dealing.deals) {
        return None;
    }
    let runs = runs_of(batch.len(), workers).min(short(lists.len()));
    if !swap_home(rt, alloc, setting, batch, &dealing, lists, runs) {
        return None;
    }
    Some(dealing)
}

fn is_each_dealt_once(alloc: Global, batch: &Batch, deals: &[Deal]) -> bool
    ensures { IsTrue result → AreDealtOnce batch.now deals.now }
{
    match have_all_places(alloc, batch.len(), deals) {
        Ok(all) => all,
        Err(NoMemory) => false,
    }
}

// How many accounts lists have at least.
fn count_all(lists: &[Vec<Account>]) -> usize
    ensures { result ≤ length (joined_lists lists.now) }
{
    match lists.split_first() {
        None => 0,
        Some((list, later)) => count_all(later).saturating_add(list.len()),
    }
}

// Whether each swap is of two of the first so many.
fn are_within(swaps: &[Swap], count: usize) -> bool
    ensures { IsTrue result → All (IsSwapWithin count) swaps.now }
{
    for swap in swaps {
        if !is_within(*swap, count) {
            return false;
        }
    }
    true
}

fn is_within(swap: Swap, count: usize) -> bool
    ensures { IsTrue result → IsSwapWithin count swap }
{
    if swap.one as usize >= count {
        return false;
    }
    (swap.other as usize) < count
}

// Swaps accounts, and answers whether each list is then the region that it is said to be. If one is not, all accounts
// stand where they stood.
fn swap_home<R: Threads + Sync>(
    rt: &R,
    alloc: Global,
    setting: &Setting,
    batch: &Batch,
    dealing: &Dealing,
    lists: &mut [Vec<Account>],
    runs: u32,
) -> bool
    requires within { All (IsSwapWithin (length (joined_lists lists.old))) dealing.now.swaps.items }
    requires directory { setting.now.directory ≡ directory_of (joined_lists lists.old) }
    ensures swapped { IsTrue result
        → joined_lists lists.new ≡ exchanged dealing.now.swaps.items (joined_lists lists.old) }
    ensures home { IsTrue result → AreAllHome setting.now batch.now lists.new dealing.now.deals.items }
    ensures stays { result ≡ false → joined_lists lists.new ≡ joined_lists lists.old }
{
    swap_all(lists, &dealing.swaps);
    if are_all_home(rt, alloc, setting, batch, lists, &dealing.deals, runs) {
        return true;
    }
    swap_back(lists, &dealing.swaps);
    false
}
