//! All accounts as one region.

ghost use Rattle.std.specs.Prelude.{◌≡◌, ◌+◌, ◌≤◌, [], ◌∷◌, IfOk, length};
ghost use Rattle.reg_base.specs.declared.limits.TheConstants.{MOST_ACCOUNTS};
ghost use Rattle.reg_base.specs.Rising.{IsRising, count_up};
ghost use Rattle.reg_base.specs.Rules.{AreRules};
ghost use Rattle.reg_rules.specs.Laws.{IsReady};
ghost use Rattle.reg_rules.specs.State.{numbers};
ghost use Rattle.reg_book.specs.Book.{directory_of};
ghost use Rattle.reg_book.specs.Indexes.{index_lists};
ghost use Rattle.reg_regions.specs.Dealing.{AreTurned};
ghost use Rattle.reg_regions.specs.Homes.{AreHome};
ghost use Rattle.reg_regions.specs.Lists.{joined_lists};
ghost use Rattle.reg_regions.specs.Stealing.{AreNotesOf};
ghost use Rattle.reg_regions.specs.Working.{WereSettledBy};

use crate::gate::PlaceGate;
use crate::lists::join_all;
use crate::running::shift::Notes;
use crate::running::{SettledLists, settle_lists};
use reg_account::Account;
use reg_advice::Deal;
use reg_base::{Batch, NoMemory};
use reg_book::all_indexes;
use reg_rules::Setting;
use std::alloc::Global;
use std::thread::Threads;

/// Carries out all instructions as those of one region, which has the accounts of all lists. One worker does so.
///
/// # Errors
/// `NoMemory` if memory ran out.
pub(crate) fn settle_whole<N: Notes + Send, R: Threads + Sync, G: PlaceGate + Sync>(
    rt: &R,
    alloc: Global,
    setting: &Setting,
    batch: &Batch,
    lists: Vec<Vec<Account>>,
    workers: u32,
    gate: &G,
) -> Result<SettledLists<N>, NoMemory>
    requires workers { (1 ≤ workers) × (workers ≤ 8) }
    requires rules { AreRules setting.now.rules }
    requires ready { IsReady (batch.now.base + 1) (joined_lists lists.items) }
    requires rising { IsRising (numbers (joined_lists lists.items)) }
    requires few { length (joined_lists lists.items) ≤ MOST_ACCOUNTS }
    requires directory { setting.now.directory ≡ directory_of (joined_lists lists.items) }
    ensures turned { IfOk result
        (λ s. AreTurned setting.now batch.now (joined_lists lists.items) (joined_lists s.lists.items) s.replies.items) }
    ensures notes { IfOk result
        (λ s. AreNotesOf N.worker N.keeps N.places workers (length batch.now.instructions) s.notes.items) }
    ensures worked { IfOk result (λ s. WereSettledBy batch.now workers) }
{
    let accounts = join_all(alloc, lists)?;
    let deal = deal_whole(alloc, setting, batch, &accounts)?;
    let deals = alone(alloc, deal)?;
    let lists = alone(alloc, accounts)?;
    settle_lists(rt, alloc, setting, batch, deals, lists, workers, gate)
}

// What the region of these accounts has to do: all instructions.
fn deal_whole(
    alloc: Global,
    setting: &Setting,
    batch: &Batch,
    accounts: &[Account],
) -> Result<Deal, NoMemory>
    requires rising { IsRising (numbers accounts.now) }
    requires few { length accounts.now ≤ MOST_ACCOUNTS }
    requires directory { setting.now.directory ≡ directory_of accounts.now }
    ensures home { IfOk result (λ d. AreHome setting.now batch.now (numbers accounts.now) d.places.items
        (index_lists d.indexes.items)) }
    ensures places { IfOk result (λ d. d.places.items ≡ count_up 1 (length batch.now.instructions)) }
{
    let indexes = all_indexes(alloc, accounts, batch.instructions())?;
    let deal = Deal::of_all(alloc, batch.len(), indexes)?;
    Ok(deal)
}

// A list of this one alone.
fn alone<T: Drop>(alloc: Global, item: T) -> Result<Vec<T>, NoMemory>
    ensures { IfOk result (λ items. items.items ≡ item ∷ []) }
{
    let mut items = Vec::new(alloc);
    items.push(item)?;
    Ok(items)
}
