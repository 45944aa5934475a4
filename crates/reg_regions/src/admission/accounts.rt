//! Whether the accounts of all regions stand where these say.

ghost use Rattle.std.specs.Prelude.{◌≡◌, ◌<◌, ◌≤◌, ◌+◌, ◌/◌, ◌%◌, All, IfOk, IsTrue, true, drop, min, length, vec_len};
ghost use Rattle.std.specs.Prelude.{slice_index};
ghost use Rattle.std.specs.Option.{option_map_or};
ghost use Rattle.reg_base.specs.Chunks.{MadeOfChunks};
ghost use Rattle.reg_base.specs.Directory.{is_known};
ghost use Rattle.reg_rules.specs.State.{numbers};
ghost use Rattle.reg_book.specs.Indexes.{StandAt, index_lists};
ghost use Rattle.reg_regions.specs.Homes.{IsHome, AreHome, AreAllHome, AreFirstHome, AreHomeIfSo, AreKnown};

use reg_account::Account;
use reg_advice::Deal;
use reg_base::{AccountNo, Batch, Directory};
use reg_book::Indexes;
use reg_rules::Setting;
use std::alloc::{AllocError, Global};
use std::thread;
use std::thread::Threads;

/// Whether each of these lists is the region of its accounts: the accounts of the region's instructions stand where it
/// says. The lists are looked at in at most so many runs, each by a thread of its own where one can be started. `false`
/// if memory for what these answer ran out, too.
pub(crate) fn are_all_home<R: Threads + Sync>(
    rt: &R,
    alloc: Global,
    setting: &Setting,
    batch: &Batch,
    lists: &[Vec<Account>],
    deals: &[Deal],
    runs: u32,
) -> bool
    requires known { All (λ l. AreKnown setting.now.directory (numbers l.items)) lists.now }
    ensures { IsTrue result → AreAllHome setting.now batch.now lists.now deals.now }
{
    if lists.len() != deals.len() {
        return false;
    }
    let size = lists.len().div_ceil(runs.max(1) as usize).max(1);
    let Ok(found) = look_at_each_run(rt, alloc, setting, batch, lists, deals, size) else {
        return false;
    };
    for home in found {
        if !home {
            return false;
        }
    }
    true
}

// Whether the lists of each run of so many are regions that begin with these deals.
fn look_at_each_run<R: Threads + Sync>(
    rt: &R,
    alloc: Global,
    setting: &Setting,
    batch: &Batch,
    lists: &[Vec<Account>],
    deals: &[Deal],
    size: usize,
) -> Result<Vec<bool>, AllocError>
    requires size { 0 < size }
    requires known { All (λ l. AreKnown setting.now.directory (numbers l.items)) lists.now }
    ensures len { IfOk result (λ runs. vec_len runs ≡ length lists.now / size + min 1 (length lists.now % size)) }
    ensures each { IfOk result
        (λ runs. MadeOfChunks (AreHomeIfSo setting.now batch.now deals.now) lists.now size runs.items) }
{
    thread::map_chunks(
        rt,
        alloc,
        lists,
        size,
        &|start, run|
            requires { All (λ l. AreKnown setting.now.directory (numbers l.items)) run.now }
            ensures { AreHomeIfSo setting.entry.now batch.entry.now deals.entry.now start run.now result }
        { are_listed_home(setting, batch, run, behind(deals, start)) },
    )
}

// The deals from an index on.
fn behind(deals: &[Deal], start: usize) -> &[Deal]
    ensures { result.now ≡ drop start deals.now }
{
    match deals.get(start..) {
        Some(later) => later,
        None => &[],
    }
}

// Whether these lists are regions that begin with these deals.
fn are_listed_home(setting: &Setting, batch: &Batch, lists: &[Vec<Account>], deals: &[Deal]) -> bool
    requires { All (λ l. AreKnown setting.now.directory (numbers l.items)) lists.now }
    ensures { IsTrue result → AreFirstHome setting.now batch.now lists.now deals.now }
{
    match lists.split_first() {
        None => true,
        Some((list, rest)) => match deals.split_first() {
            None => false,
            Some((deal, later)) => {
                are_home(setting, batch, list, &deal.places, &deal.indexes)
                    && are_listed_home(setting, batch, rest, later)
            }
        },
    }
}

// Whether these are places of the batch, each above the one before it, and the accounts that the instruction at each
// touches stand at its indexes.
fn are_home(
    setting: &Setting,
    batch: &Batch,
    accounts: &[Account],
    places: &[u32],
    indexes: &[Indexes],
) -> bool
    requires { AreKnown setting.now.directory (numbers accounts.now) }
    ensures { IsTrue result
        → AreHome setting.now batch.now (numbers accounts.now) places.now (index_lists indexes.now) }
{
    let mut last = 0;
    for (index, place) in places.iter().enumerate() {
        if *place <= last {
            return false;
        }
        if index >= indexes.len() {
            return false;
        }
        if !is_home(setting, batch, accounts, *place, &indexes[index]) {
            return false;
        }
        last = *place;
    }
    true
}

// Whether there is an instruction at this place, and the accounts that it touches stand at these indexes. Accounts that
// stand in a region are known: so the directory is asked for none of them.
fn is_home(
    setting: &Setting,
    batch: &Batch,
    accounts: &[Account],
    place: u32,
    indexes: &Indexes,
) -> bool
    requires { AreKnown setting.now.directory (numbers accounts.now) }
    ensures { IsTrue result → IsHome setting.now batch.now (numbers accounts.now) place indexes.now.items }
{
    if place < 1 {
        return false;
    }
    if place > batch.len() {
        return false;
    }
    let instruction = batch.at(place);
    if indexes.is_empty() {
        let touched = instruction.touches(setting.directory);
        return stand_at(accounts, indexes.as_slice(), touched.as_slice());
    }
    let movement = instruction.act.movement();
    if !is_known_if_any(setting.directory, movement.also_known()) {
        return false;
    }
    let parties = movement.parties();
    stand_at(accounts, indexes.as_slice(), parties.as_slice())
}

// Whether the directory has the account, if there is one.
fn is_known_if_any(directory: &Directory, wanted: Option<AccountNo>) -> bool
    ensures { result ≡ option_map_or (is_known directory.now) wanted true }
{
    match wanted {
        Some(number) => directory.find(number).is_some(),
        None => true,
    }
}

// Whether accounts with these numbers stand at these indexes.
fn stand_at(accounts: &[Account], indexes: &[u32], wanted: &[AccountNo]) -> bool
    ensures { IsTrue result → StandAt (numbers accounts.now) indexes.now wanted.now }
{
    if indexes.len() != wanted.len() {
        return false;
    }
    for (k, index) in indexes.iter().enumerate() {
        if !has_number(accounts, *index as usize, wanted[k]) {
            return false;
        }
    }
    true
}

// Whether the account at this index has this number.
fn has_number(accounts: &[Account], index: usize, wanted: AccountNo) -> bool
    ensures { IsTrue result
        → (index < length (numbers accounts.now)) × (slice_index (numbers accounts.now) index ≡ wanted) }
{
    match accounts.get(index) {
        Some(account) => account.number() == wanted,
        None => false,
    }
}
