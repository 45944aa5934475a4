//! The plain settlement of a day.

ghost use Rattle.std.specs.Prelude.{◌≡◌, ◌+◌, length, IfOk, OnOk, MatchResult};
ghost use Rattle.reg_base.specs.Rules.{AreRules};
ghost use Rattle.reg_rules.specs.State.{numbers};
ghost use Rattle.reg_rules.specs.Laws.{IsReady};
ghost use Rattle.reg_book.specs.Fold.{state_after, rows_of, replies_in};
ghost use Rattle.reg_book.specs.Settled.{IsOfBook};
ghost use Rattle.reg_book.specs.Day.{day_of, settled_day, rows_replied};
ghost use Rattle.reg_book.specs.Settling.{IsSettleFault};
ghost use Rattle.reg_book.specs.Indexes.{AllStandAt, index_lists};

use crate::book::Book;
use crate::indexes::Indexes;
use crate::settled::Settled;
use crate::touched::{Touched, find_touched};
use reg_account::Account;
use reg_base::{Batch, NoMemory, RecordNo, Rules};
use reg_rules::{LogRow, Reply, Setting, execute_at, log_row, step_laws};
use std::alloc::Global;
use thiserror::Error;

/// Why a batch was not settled: the first of these that applies.
#[derive(Clone, Copy, Debug, PartialEq, Eq, Error)]
pub enum SettleFault {
    /// The first record number of the batch is not the book's next record number.
    #[error("the batch does not begin with record {next}")]
    WrongBase {
        /// The book's next record number.
        next: u64,
    },
    /// Memory ran out.
    #[error("out of memory")]
    NoMemory,
}

/// Settles a batch: executes its instructions one after another, each on the accounts as the instructions before it
/// left them. The book is not changed.
///
/// The time is linear in the book's accounts and in the batch, except for the look-ups: an account is looked up once
/// for each instruction that touches it. Each touched account is copied once.
///
/// # Errors
/// `WrongBase` if the first record number of the batch is not the book's next record number. Otherwise `NoMemory` if
/// memory ran out.
pub fn settle_plain(
    alloc: Global,
    book: &Book,
    rules: &Rules,
    batch: &Batch,
) -> Result<Settled, SettleFault>
    ensures settled { MatchResult result
        (λ s. (batch.now.base + 1 ≡ book.now.next) × (s ≡ settled_day (day_of book.now rules.now batch.now)))
        (IsSettleFault book.now batch.now) }
    ensures of_book { IfOk result (λ s. IsOfBook book.now s) }
{
    let next = book.next_record();
    if batch.base() + 1 != next {
        return Err(SettleFault::WrongBase { next });
    }
    match settle_batch(alloc, book, rules, batch) {
        Ok(settled) => Ok(settled),
        Err(NoMemory) => Err(SettleFault::NoMemory),
    }
}

// Settles a batch whose first record number is the book's next one.
fn settle_batch(
    alloc: Global,
    book: &Book,
    rules: &Rules,
    batch: &Batch,
) -> Result<Settled, NoMemory>
    requires { batch.now.base + 1 ≡ book.now.next }
    ensures settled { IfOk result (λ s. s ≡ settled_day (day_of book.now rules.now batch.now)) }
    ensures of_book { IfOk result (λ s. IsOfBook book.now s) }
{
    rules.are_within_limits();
    let base = batch.base();
    // By the laws, settling the touched accounts gives what settling all accounts would give.
    step_laws();
    let directory = book.directory();
    let Touched {
        mut accounts,
        indexes,
    } = find_touched(alloc, book.accounts(), batch.instructions())?;
    let setting = Setting {
        rules,
        day: batch.day(),
        directory,
    };
    let replies = settle_all(alloc, &setting, batch, &mut accounts, &indexes)?;
    let rows = make_log(alloc, batch, replies)?;
    Ok(Settled::new(base, rows, accounts))
}

// The log of a batch with these replies: all else of it is in the batch.
fn make_log(alloc: Global, batch: &Batch, replies: Vec<Reply>) -> Result<Vec<LogRow>, NoMemory>
    requires { length replies.items ≡ length batch.now.instructions }
    ensures { IfOk result (λ rows. rows.items ≡ rows_replied batch.now replies.items) }
{
    let day = batch.day();
    let instructions = batch.instructions();
    let mut rows = Vec::with_capacity(alloc, replies.len())?;
    let mut last = batch.base();
    let mut index = 0;
    for reply in replies {
        last += 1;
        let number = RecordNo::new(last).unwrap();
        rows.push(log_row(number, day, instructions[index], reply))?;
        index += 1;
    }
    Ok(rows)
}

/// Carries all instructions of the batch out on accounts, and answers the replies. There is a list of indexes for each
/// instruction: those of the accounts that it touches.
///
/// # Errors
/// `NoMemory` if memory ran out. Some instructions may have been carried out then.
pub(crate) fn settle_all(
    alloc: Global,
    setting: &Setting,
    batch: &Batch,
    accounts: &mut [Account],
    indexes: &[Indexes],
) -> Result<Vec<Reply>, NoMemory>
    requires rules { AreRules setting.now.rules }
    requires ready { IsReady (batch.now.base + 1) accounts.old }
    requires indexes { AllStandAt setting.now.directory (numbers accounts.old)
        (index_lists indexes.now) batch.now.instructions }
    ensures replies { IfOk result
        (λ replies. replies.items
        ≡ replies_in (rows_of setting.now accounts.old (batch.now.base + 1) batch.now.instructions)) }
    ensures accounts { OnOk result
        (accounts.new ≡ state_after setting.now accounts.old (batch.now.base + 1) batch.now.instructions) }
{
    step_laws();
    setting.day.get();
    let instructions = batch.instructions();
    let mut replies = Vec::with_capacity(alloc, instructions.len())?;
    let mut last = batch.base();
    for (index, instruction) in instructions.iter().enumerate() {
        last += 1;
        let number = RecordNo::new(last).unwrap();
        let movement = instruction.act.movement();
        let reply = execute_at(
            alloc,
            setting,
            &movement,
            number,
            instruction,
            accounts,
            indexes[index].as_slice(),
        )?;
        replies.push(reply)?;
    }
    Ok(replies)
}
