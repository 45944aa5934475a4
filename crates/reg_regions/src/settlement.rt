//! The settlement of a day by regions of its book.

ghost use Rattle.std.specs.Prelude.{◌≡◌, ◌+◌, ◌≤◌, true, IfOk, IfErr, MatchResult, length};
ghost use Rattle.reg_base.specs.declared.limits.TheConstants.{MOST_ACCOUNTS};
ghost use Rattle.reg_base.specs.Rising.{IsRising};
ghost use Rattle.reg_base.specs.Rules.{AreRules};
ghost use Rattle.reg_rules.specs.Laws.{IsReady};
ghost use Rattle.reg_rules.specs.State.{numbers};
ghost use Rattle.reg_book.specs.Book.{directory_of};
ghost use Rattle.reg_book.specs.Day.{day_of, settled_day, replies_of};
ghost use Rattle.reg_book.specs.Settled.{committed};
ghost use Rattle.reg_regions.specs.Outcomes.{may_work, AreShiftsOf, IsRegionsFault, handed_back};
ghost use Rattle.reg_regions.specs.Dealing.{AreTurned};
ghost use Rattle.reg_regions.specs.Lists.{joined_lists};
ghost use Rattle.reg_regions.specs.Stealing.{AreNotesOf};
ghost use Rattle.reg_regions.specs.Working.{WereSettledBy};

use crate::admission::admit;
use crate::exchange::swap_back;
use crate::gate::PlaceGate;
use crate::laws::regions_are_a_day;
use crate::lists::{cut_lists, join_lists};
use crate::not_settled::{NotSettled, RegionsFault};
use crate::running::shift::{NoShift, Notes, WorkShift};
use crate::running::whole::settle_whole;
use crate::running::{SettledLists, settle_lists};
use reg_account::Account;
use reg_advice::{Dealing, advise};
use reg_base::{Batch, NoMemory, Rules};
use reg_book::{
    ClosedParts, Parts, closing_is_a_book, settled_is_closing, stays_ready, untouched_stay,
};
use reg_rules::{Setting, step_laws};
use std::alloc::Global;
use std::thread::Threads;

// The most workers that settle a day.
const MOST_WORKERS: u32 = 8;

// How many regions are wanted for each worker, so that one that is done with its own can steal others.
const REGIONS_EACH: u32 = 3;

/// Settles a batch on the book's own accounts, by workers. Each list of the book becomes a region; if there are fewer
/// than three for each of several workers, and fewer than instructions, the lists are cut before, and if there are more
/// than 64, some are joined. Instructions that touch an account in common, directly or over others, are carried out in
/// one region, and accounts that stand in another are swapped for this, and swapped back. If their accounts are more
/// than a list has, lists are joined to as many as there are workers. A worker takes a region whole, and when it has
/// none left, it takes one from another worker. The book after the day is the one that `settle_plain` and then
/// `Book::commit` give, and the replies are those in the log.
///
/// If the day can't be dealt out so, as with one worker, or if lists have no room for what belongs together, and this
/// has more than three fifths of all instructions, worker 0, which is the calling thread, carries out all of them in
/// the order of the batch, and the book has one list afterwards. If there are fewer than 1,024 instructions, and the
/// gate is open, it carries out all regions.
///
/// There is a shift for each worker, from worker 0 on, and each place from 1 to the number of instructions is in one
/// shift, once.
///
/// # Errors
/// The first of these that applies. `Workers` if the number of workers is not 1 to 8. `WrongBase` if the first record
/// number of the batch is not the book's next record number. Both are told before any memory is taken or thread is
/// started, and give the book back as it was. `NoMemory` if memory ran out: then the book is gone. All threads have
/// ended. Where a thread can't be started, the others do its work.
pub fn settle_regions<R: Threads + Sync, G: PlaceGate + Sync>(
    rt: &R,
    alloc: Global,
    parts: Parts,
    rules: &Rules,
    batch: &Batch,
    workers: u32,
    gate: &G,
) -> Result<(ClosedParts, Vec<WorkShift>), NotSettled>
    ensures closed { MatchResult result
        (λ c. (may_work workers ≡ true) × (batch.now.base + 1 ≡ parts.next)
        × (c.0.parts ≡ committed parts (settled_day (day_of parts rules.now batch.now))))
        (λ e. IsRegionsFault workers parts batch.now e.fault) }
    ensures replies { IfOk result (λ c. c.0.replies.items ≡ replies_of (day_of parts rules.now batch.now)) }
    ensures shifts { IfOk result (λ c. AreShiftsOf workers (length batch.now.instructions) c.1.items) }
    ensures worked { IfOk result (λ c. WereSettledBy batch.now workers) }
    ensures back { IfErr result (λ e. e.parts ≡ handed_back e.fault parts) }
{
    if !are_allowed(workers) {
        return Err(NotSettled::with_book(RegionsFault::Workers, parts));
    }
    let next = parts.next_record();
    if batch.base() + 1 != next {
        return Err(NotSettled::with_book(RegionsFault::WrongBase { next }, parts));
    }
    Ok(settle_book(rt, alloc, parts, rules, batch, workers, gate)?)
}

/// The same of a batch that begins with the book's next record number, by 1 to 8 workers: so neither is tested, and
/// there is no other fault than want of memory. No shift is built.
///
/// # Errors
/// `NoMemory` if memory ran out: then the book is gone. All threads have ended.
pub fn settle_without_shifts<R: Threads + Sync, G: PlaceGate + Sync>(
    rt: &R,
    alloc: Global,
    parts: Parts,
    rules: &Rules,
    batch: &Batch,
    workers: u32,
    gate: &G,
) -> Result<ClosedParts, NoMemory>
    requires follows { batch.now.base + 1 ≡ parts.next }
    requires workers { may_work workers ≡ true }
    ensures parts { IfOk result
        (λ closed. closed.parts ≡ committed parts (settled_day (day_of parts rules.now batch.now))) }
    ensures replies { IfOk result
        (λ closed. closed.replies.items ≡ replies_of (day_of parts rules.now batch.now)) }
    ensures worked { IfOk result (λ closed. WereSettledBy batch.now workers) }
{
    let (closed, _) = settle_book::<NoShift, R, G>(rt, alloc, parts, rules, batch, workers, gate)?;
    Ok(closed)
}

/// Whether so many workers may settle a day: 1 to 8.
pub fn are_allowed(workers: u32) -> bool
    ensures { result ≡ may_work workers }
{
    (1..=MOST_WORKERS).contains(&workers)
}

// Settles a batch, which begins with the book's next record number, by workers whose number is within its limits.
fn settle_book<N: Notes + Send, R: Threads + Sync, G: PlaceGate + Sync>(
    rt: &R,
    alloc: Global,
    parts: Parts,
    rules: &Rules,
    batch: &Batch,
    workers: u32,
    gate: &G,
) -> Result<(ClosedParts, Vec<N>), NoMemory>
    requires follows { batch.now.base + 1 ≡ parts.next }
    requires workers { may_work workers ≡ true }
    ensures parts { IfOk result
        (λ c. c.0.parts ≡ committed parts (settled_day (day_of parts rules.now batch.now))) }
    ensures replies { IfOk result (λ c. c.0.replies.items ≡ replies_of (day_of parts rules.now batch.now)) }
    ensures notes { IfOk result
        (λ c. AreNotesOf N.worker N.keeps N.places workers (length batch.now.instructions) c.1.items) }
    ensures worked { IfOk result (λ c. WereSettledBy batch.now workers) }
{
    rules.are_within_limits();
    step_laws();
    stays_ready();
    untouched_stay();
    closing_is_a_book();
    settled_is_closing();
    regions_are_a_day();
    // (for the proof: the base is within its limits)
    batch.base();
    let count = batch.len();
    let (lists, directory, next) = parts.into_lists();
    let setting = Setting {
        rules,
        day: batch.day(),
        directory: &directory,
    };
    let settled = settle_by_advice(rt, alloc, &setting, batch, lists, workers, gate)?;
    let SettledLists {
        lists: left,
        replies,
        notes,
    } = settled;
    let parts = Parts::of_lists(left, directory, next + u64::from(count));
    Ok((ClosedParts { parts, replies }, notes))
}

// How many regions are wanted: a single worker wants no more than there are, and nobody more than instructions.
fn regions_wanted(workers: u32, instructions: u32) -> usize {
    if workers < 2 {
        return 0;
    }
    workers.saturating_mul(REGIONS_EACH).min(instructions) as usize
}

// Carries out the instructions by regions, or as those of one region if they can't be dealt out. A book in fewer lists
// than regions are wanted is cut before.
fn settle_by_advice<N: Notes + Send, R: Threads + Sync, G: PlaceGate + Sync>(
    rt: &R,
    alloc: Global,
    setting: &Setting,
    batch: &Batch,
    lists: Vec<Vec<Account>>,
    workers: u32,
    gate: &G,
) -> Result<SettledLists<N>, NoMemory>
    requires workers { (1 ≤ workers) × (workers ≤ 8) }
    requires rules { AreRules setting.now.rules }
    requires ready { IsReady (batch.now.base + 1) (joined_lists lists.items) }
    requires rising { IsRising (numbers (joined_lists lists.items)) }
    requires few { length (joined_lists lists.items) ≤ MOST_ACCOUNTS }
    requires directory { setting.now.directory ≡ directory_of (joined_lists lists.items) }
    ensures turned { IfOk result
        (λ s. AreTurned setting.now batch.now (joined_lists lists.items) (joined_lists s.lists.items) s.replies.items) }
    ensures notes { IfOk result
        (λ s. AreNotesOf N.worker N.keeps N.places workers (length batch.now.instructions) s.notes.items) }
    ensures worked { IfOk result (λ s. WereSettledBy batch.now workers) }
{
    let cut = cut_lists(alloc, lists, regions_wanted(workers, batch.len()))?;
    let advice = advise(rt, alloc, &cut, batch, workers);
    let regions = join_as_advised(alloc, cut, &advice)?;
    let (found, lists) = admit(rt, alloc, setting, batch, advice, regions, workers);
    let Some(dealing) = found else {
        return settle_whole(rt, alloc, setting, batch, lists, workers, gate);
    };
    let Dealing { swaps, deals, .. } = dealing;
    let mut settled = settle_lists(rt, alloc, setting, batch, deals, lists, workers, gate)?;
    swap_back(&mut settled.lists, &swaps);
    Ok(settled)
}

fn join_as_advised(
    alloc: Global,
    lists: Vec<Vec<Account>>,
    advice: &Option<Dealing>,
) -> Result<Vec<Vec<Account>>, NoMemory>
    ensures { IfOk result (λ joined. joined_lists joined.items ≡ joined_lists lists.items) }
{
    match advice {
        Some(dealing) => join_lists(alloc, lists, &dealing.joins),
        None => Ok(lists),
    }
}
