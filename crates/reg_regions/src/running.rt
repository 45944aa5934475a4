//! Regions settled by workers that steal them.
//!
//! A region is a list of accounts owned by value, with the places of the instructions that touch these accounts alone.
//! One worker settles it whole, in the order of the batch. How workers take regions and steal them is `reg_run`'s: each
//! region is a task there, the heaviest first.

ghost use Rattle.std.specs.Prelude.{◌≡◌, ◌+◌, ◌≤◌, ◌<◌, ◌^◌, ℕ, length, map, vec_len, IfOk, IfSome, IsPermutation};
ghost use Rattle.reg_base.specs.Rules.{AreRules};
ghost use Rattle.reg_rules.specs.Laws.{IsReady};
ghost use Rattle.reg_regions.specs.Dealing.{AreDealtOnce, AreSettledOnce};
ghost use Rattle.reg_regions.specs.Homes.{AreAllHome};
ghost use Rattle.reg_regions.specs.Lists.{joined_lists, sizes_of};
ghost use Rattle.reg_regions.specs.Working.{WereSettledBy};
ghost use Rattle.reg_regions.specs.Stealing.{region_openings, IsGround, AreNotesOf, first_numbers, times_noted};

use crate::gate::PlaceGate;
use crate::instruction::Placed;
use crate::running::region::{Cutting, ListRegion, make_regions};
use crate::running::replies::in_places;
use crate::running::settled_list::SettledList;
use crate::running::settling::Settling;
use crate::running::shift::Notes;
use reg_account::Account;
use reg_advice::Deal;
use reg_base::{Batch, FEW_ROWS, NoMemory};
use reg_rules::{Reply, Setting, step_laws};
use reg_run::{Outcome, Ran, run};
use std::alloc::Global;
use std::marker::{Brand, PhantomData};
use std::thread::Threads;

mod region;
mod replies;
pub(crate) mod settled_list;
mod settling;
pub(crate) mod shift;
pub(crate) mod whole;

/// What workers made of lists of accounts.
#[derive(Drop)]
pub(crate) struct SettledLists<N> {
    /// The lists, in their order.
    pub(crate) lists: Vec<Vec<Account>>,
    /// The replies, in the order of the batch.
    pub(crate) replies: Vec<Reply>,
    /// What each worker noted, from worker 0 on.
    pub(crate) notes: Vec<N>,
}

/// Carries out the instructions of regions, each of which is a list of accounts, by workers that steal regions from one
/// another. The calling thread is the last worker, and each of the others has a thread of its own where one can be
/// started. If there is only one region with instructions, or if there are fewer than 1,024 instructions and the gate
/// is open, worker 0 alone carries them out, which is the calling thread then.
///
/// # Errors
/// `NoMemory` if memory ran out. The lists are dropped then, and all threads have ended.
pub(crate) fn settle_lists<N: Notes + Send, R: Threads + Sync, G: PlaceGate + Sync>(
    rt: &R,
    alloc: Global,
    setting: &Setting,
    batch: &Batch,
    deals: Vec<Deal>,
    lists: Vec<Vec<Account>>,
    workers: u32,
    gate: &G,
) -> Result<SettledLists<N>, NoMemory>
    requires workers { (1 ≤ workers) × (workers ≤ 8) }
    requires rules { AreRules setting.now.rules }
    requires ready { IsReady (batch.now.base + 1) (joined_lists lists.items) }
    requires home { AreAllHome setting.now batch.now lists.items deals.items }
    requires each_once { AreDealtOnce batch.now deals.items }
    ensures settled { IfOk result (λ s. AreSettledOnce setting.now batch.now (joined_lists lists.items)
        (joined_lists s.lists.items) s.replies.items) }
    ensures sizes { IfOk result (λ s. sizes_of s.lists.items ≡ sizes_of lists.items) }
    ensures notes { IfOk result
        (λ s. AreNotesOf N.worker N.keeps N.places workers (length batch.now.instructions) s.notes.items) }
    ensures worked { IfOk result (λ s. WereSettledBy batch.now workers) }
{
    let Some(_count) = count_of(&lists) else {
        return Err(NoMemory);
    };
    settle_by_workers::<Brand, N, R, G>(rt, alloc, setting, batch, deals, lists, workers, gate)
}

// How many lists there are. None if they are too many to be numbered.
fn count_of(lists: &[Vec<Account>]) -> Option<u32>
    ensures { IfSome result (λ count. (count ≡ length lists.now) × (count < 2 ^ 32)) }
{
    u32::try_from(lists.len()).ok()
}

// Whether the instructions are so few that one worker has carried them out before another has begun, and nobody waits
// for a worker.
fn is_small<G: PlaceGate>(batch: &Batch, gate: &G) -> bool {
    gate.is_open() && batch.len() < FEW_ROWS
}

// How many workers there is something to do for: one, or all.
fn busy_workers<G: PlaceGate>(batch: &Batch, deals: &[Deal], workers: u32, gate: &G) -> u32
    requires { 1 ≤ workers }
    ensures some { 1 ≤ result }
    ensures few { result ≤ workers }
{
    if is_small(batch, gate) || are_few(deals) {
        1
    } else {
        workers
    }
}

// Whether fewer than two regions have instructions.
fn are_few(deals: &[Deal]) -> bool {
    let mut busy = false;
    for deal in deals {
        if !deal.places.is_empty() {
            if busy {
                return false;
            }
            busy = true;
        }
    }
    true
}

// The notes of the first workers, and those of the others up to so many, who carried out nothing.
fn with_idle<N: Notes>(
    alloc: Global,
    busy: u32,
    workers: u32,
    notes: Vec<N>,
) -> Result<Vec<N>, NoMemory>
    requires few { busy ≤ workers }
    requires busy { map N.worker notes.items ≡ first_numbers busy }
    ensures workers { IfOk result (λ all. map N.worker all.items ≡ first_numbers workers) }
    ensures times { IfOk result
        (λ all. (p : ℕ) → times_noted N.places p all.items ≡ times_noted N.places p notes.items) }
{
    let mut all = notes;
    for worker in busy..workers {
        all.push(N::begin(alloc, worker))?;
    }
    Ok(all)
}

// Settles the regions by workers: each is a task.
fn settle_by_workers<
    C: Cutting + Send + Sync,
    N: Notes + Send,
    R: Threads + Sync,
    G: PlaceGate + Sync,
>(
    rt: &R,
    alloc: Global,
    setting: &Setting,
    batch: &Batch,
    deals: Vec<Deal>,
    lists: Vec<Vec<Account>>,
    workers: u32,
    gate: &G,
) -> Result<SettledLists<N>, NoMemory>
    requires workers { (1 ≤ workers) × (workers ≤ 8) }
    requires openings { C.openings ≡ region_openings lists.items }
    requires deals { C.deals ≡ deals.items }
    requires ground { IsGround setting.now batch.now C.openings C.deals }
    requires each_once { AreDealtOnce batch.now C.deals }
    requires few { vec_len lists < 2 ^ 32 }
    ensures settled { IfOk result (λ s. AreSettledOnce setting.now batch.now (joined_lists lists.items)
        (joined_lists s.lists.items) s.replies.items) }
    ensures sizes { IfOk result (λ s. sizes_of s.lists.items ≡ sizes_of lists.items) }
    ensures notes { IfOk result
        (λ s. AreNotesOf N.worker N.keeps N.places workers (length batch.now.instructions) s.notes.items) }
    ensures worked { IfOk result (λ s. WereSettledBy batch.now workers) }
{
    step_laws();
    let count = lists.len() as u32;
    let busy = busy_workers(batch, &deals, workers, gate);
    let mut regions = make_regions::<C>(alloc, deals, lists)?;
    heaviest_first(&mut regions);
    let settling: Settling<C, G> = Settling {
        setting,
        batch,
        gate,
        count,
        of: PhantomData,
    };
    let ended = run(rt, alloc, &settling, regions, busy)?;
    let Outcome { answers, notes } = ended;
    let notes = with_idle(alloc, busy, workers, notes)?;
    let (lists, told) = take_apart(alloc, answers)?;
    let replies = in_places(alloc, batch.len(), told)?;
    Ok(SettledLists {
        lists,
        replies,
        notes,
    })
}

// Regions with most instructions come first.
fn heaviest_first<C: Cutting>(regions: &mut Vec<ListRegion<C>>)
    ensures { IsPermutation regions.old.items regions.new.items }
{
    regions.sort_unstable_by_key(|region| region.deal.places.len());
    regions.reverse();
}

// The accounts of settled regions and their replies, one region after another.
fn take_apart(
    alloc: Global,
    settled: Vec<Ran<SettledList>>,
) -> Result<(Vec<Vec<Account>>, Vec<Vec<Placed>>), NoMemory>
    ensures lists { IfOk result (λ parts. parts.0.items ≡ map (λ s. s.answer.accounts) settled.items) }
    ensures replies { IfOk result (λ parts. parts.1.items ≡ map (λ s. s.answer.replies) settled.items) }
{
    let mut lists = Vec::with_capacity(alloc, settled.len())?;
    let mut replies = Vec::with_capacity(alloc, settled.len())?;
    for one in settled {
        let SettledList {
            accounts,
            replies: own,
        } = one.answer;
        lists.push(accounts)?;
        replies.push(own)?;
    }
    Ok((lists, replies))
}
