//! The text of each command, for a day that was read.

ghost use Rattle.std.specs.Prelude.{◌≡◌, ◌<◌, ◌≤◌, ◌+◌, ◌++◌, [], true, None, IfOk, MatchResult};
ghost use Rattle.reg_book.specs.Chains.{book_after};
ghost use Rattle.reg_book.specs.Day.{day_of, log_of, replies_of, rows_replied};
ghost use Rattle.reg_base.specs.Workers.{may_work};
ghost use Rattle.reg_text.specs.Inputs.{day_of_input, day_of_parts};
ghost use Rattle.reg_text.specs.NextDays.{report_of};
ghost use Rattle.reg_text.specs.Report.{report_rows, text_of};
ghost use Rattle.reg_text.specs.Determined.{figures_rows};
ghost use Rattle.reg_text.specs.Totals.{totals_rows};
ghost use Rattle.reg_text.specs.Statement.{statement_of, has_account};
ghost use Rattle.reg_regions.specs.Working.{WereSettledBy};
ghost use Rattle.reg_front.specs.declared.command.Command.TheVariants.{Settle, Statement};
ghost use Rattle.reg_front.specs.declared.fault.FrontFault.TheVariants as front;
ghost use Rattle.reg_front.specs.Made.{text_made};
ghost use Rattle.reg_text.specs.PlanText.{IsPlanText};
ghost use Rattle.reg_front.specs.Runs.{command_fault, IsTextFor, IsCommandFault};

use crate::command::Command;
use crate::fault::FrontFault;
use reg_base::{AccountNo, Batch, FEW_ROWS, NoMemory, Rules};
use reg_book::{ClosedParts, Parts, log_is_made_again, settle_in_place};
use reg_plan::Plan;
use reg_regions::{FreePlaces, are_allowed, settle_without_shifts};
use reg_text::{
    DayInput, DayParts, StatementFault, figures_of_parts, plan_text, statement, totals_of_parts,
    write_report_pieces,
};
use std::alloc::Global;
use std::thread::Threads;

/// The text of a command, and the closed day from which it was made, if the command closed the day. Whoever has it
/// frees it, or leaves that to the end of the program.
#[derive(Drop)]
pub(crate) struct Used {
    // What comes before `text`: the pieces of a report.
    pub(crate) pieces: Vec<Vec<u8>>,
    pub(crate) text: Vec<u8>,
    closed: Option<ClosedParts>,
}

/// The text of a command for a day, made by so many threads. Those of `settle` are its workers. The pieces of the input
/// are no longer needed: a report and a text of figures take their memory, and for another text it is given back.
///
/// # Errors
/// `Workers` if the number of workers is not 1 to 8, and `NoAccount` if the account of a statement is not in the book.
/// Otherwise `NoMemory` if memory ran out. It is no error if a thread can't be started.
pub(crate) fn make_text<T: Threads + Sync>(
    rt: &T,
    alloc: Global,
    day: DayParts,
    input: Vec<Vec<u8>>,
    command: &Command,
    threads: u32,
) -> Result<Used, FrontFault>
    requires follows { day.batch.base + 1 ≡ day.parts.next }
    requires threads { may_work threads ≡ true }
    ensures { MatchResult result
        (λ used. (command_fault command.now day.parts ≡ None)
        × IsTextFor command.now (day_of_parts day) (text_made used))
        (IsCommandFault command.now day.parts) }
{
    match *command {
        Command::Settle { workers } => {
            if !are_allowed(workers) {
                return Err(FrontFault::Workers);
            }
            let used = make_report(rt, alloc, day, input, workers)?;
            Ok(used)
        }
        Command::Figures => make_figures(rt, alloc, day, largest_of(alloc, input), threads),
        Command::Plan => {
            drop(input);
            make_plan(rt, alloc, &day, threads)
        }
        Command::Statement { account } => {
            drop(input);
            make_statement(alloc, day, account)
        }
        Command::Totals => {
            drop(input);
            make_totals(rt, alloc, day, threads)
        }
    }
}

// The memory of the largest of these texts, if there is one; that of the others is given back.
fn largest_of(alloc: Global, texts: Vec<Vec<u8>>) -> Vec<u8> {
    let mut largest = Vec::new(alloc);
    for text in texts {
        if text.capacity() > largest.capacity() {
            largest = text;
        }
    }
    largest
}

// The report of the day, settled by workers, who also spell it, in the place of texts that are no longer needed.
fn make_report<T: Threads + Sync>(
    rt: &T,
    alloc: Global,
    day: DayParts,
    spare: Vec<Vec<u8>>,
    workers: u32,
) -> Result<Used, NoMemory>
    requires follows { day.batch.base + 1 ≡ day.parts.next }
    requires workers { may_work workers ≡ true }
    ensures text { IfOk result (λ used. text_made used ≡ report_of (day_of_parts day)) }
    ensures worked { IfOk result (λ used. 1 < workers → WereSettledBy day.batch workers) }
{
    log_is_made_again();
    let DayParts {
        rules,
        parts,
        batch,
    } = day;
    let closed = close_day(rt, alloc, parts, &rules, &batch, workers)?;
    let used = spell(rt, alloc, closed, &batch, spare, workers as usize)?;
    Ok(used)
}

// The report of a closed day, spelled by so many threads in the place of texts that are no longer needed.
fn spell<T: Threads + Sync>(
    rt: &T,
    alloc: Global,
    closed: ClosedParts,
    batch: &Batch,
    spare: Vec<Vec<u8>>,
    threads: usize,
) -> Result<Used, NoMemory>
    requires { 1 ≤ threads }
    ensures { IfOk result (λ used. text_made used
        ≡ text_of (report_rows closed.parts (rows_replied batch.now closed.replies.items))) }
{
    let replies = closed.replies.as_slice();
    let pieces = write_report_pieces(rt, alloc, &closed.parts, batch, replies, spare, threads)?;
    Ok(Used {
        pieces,
        text: Vec::new(alloc),
        closed: Some(closed),
    })
}

// What a command has used whose text is one piece.
fn used_for(alloc: Global, text: Vec<u8>, closed: Option<ClosedParts>) -> Used
    ensures { text_made result ≡ text.items }
{
    Used {
        pieces: Vec::new(alloc),
        text,
        closed,
    }
}

// The plan of the day's instructions, whose accounts at most so many threads look up.
fn make_plan<T: Threads + Sync>(
    rt: &T,
    alloc: Global,
    day: &DayParts,
    threads: u32,
) -> Result<Used, FrontFault>
    ensures { MatchResult result
        (λ used. IsPlanText (day_of_parts day.now) (text_made used))
        (λ fault. fault ≡ front.NoMemory) }
{
    let directory = day.parts.directory();
    let plan = Plan::of_with(rt, alloc, &day.batch, directory, threads, FEW_ROWS)?;
    let text = plan_text(alloc, &plan)?;
    Ok(used_for(alloc, text, None))
}

// The statement of an account.
fn make_statement(alloc: Global, day: DayParts, account: AccountNo) -> Result<Used, FrontFault>
    requires { day.batch.base + 1 ≡ day.parts.next }
    ensures { MatchResult result
        (λ used. (has_account day.parts account ≡ true)
        × (text_made used ≡ text_of (statement_of day.parts (log_of (day_of_parts day)) account)))
        (IsCommandFault (Statement account) day.parts) }
{
    if day.parts.get(account).is_none() {
        return Err(FrontFault::NoAccount);
    }
    let Ok(input) = day.into_input(alloc) else {
        return Err(FrontFault::NoMemory);
    };
    let text = state_account(alloc, &input, account)?;
    Ok(used_for(alloc, text, None))
}

// The text of the statement of an account that is in the book.
fn state_account(alloc: Global, day: &DayInput, account: AccountNo) -> Result<Vec<u8>, NoMemory>
    requires follows { day.now.batch.base + 1 ≡ day.now.book.next }
    requires there { has_account day.now.book account ≡ true }
    ensures { IfOk result
        (λ text. text.items ≡ text_of (statement_of day.now.book (log_of (day_of_input day.now)) account)) }
{
    let settled = day.settle(alloc)?;
    match statement(alloc, &day.book, settled.rows(), account) {
        Ok(text) => Ok(text),
        Err(StatementFault::NoMemory) => Err(NoMemory),
        Err(StatementFault::UnknownAccount) => unreachable!(),
    }
}

// The determined figures of all accounts after the day, in the place of bytes that are no longer needed.
fn make_figures<T: Threads + Sync>(
    rt: &T,
    alloc: Global,
    day: DayParts,
    bytes: Vec<u8>,
    threads: u32,
) -> Result<Used, FrontFault>
    requires follows { day.batch.base + 1 ≡ day.parts.next }
    requires threads { may_work threads ≡ true }
    ensures { MatchResult result
        (λ used. text_made used ≡ text_of (figures_rows (book_after (day_of_parts day))))
        (λ fault. fault ≡ front.NoMemory) }
{
    let closed = close_day(rt, alloc, day.parts, &day.rules, &day.batch, threads)?;
    let text = figures_of_parts(bytes, &closed.parts)?;
    Ok(used_for(alloc, text, Some(closed)))
}

// The totals after the day.
fn make_totals<T: Threads + Sync>(
    rt: &T,
    alloc: Global,
    day: DayParts,
    threads: u32,
) -> Result<Used, FrontFault>
    requires follows { day.batch.base + 1 ≡ day.parts.next }
    requires threads { may_work threads ≡ true }
    ensures { MatchResult result
        (λ used. text_made used ≡ text_of (totals_rows (book_after (day_of_parts day))))
        (λ fault. fault ≡ front.NoMemory) }
{
    let closed = close_day(rt, alloc, day.parts, &day.rules, &day.batch, threads)?;
    let text = totals_of_parts(alloc, &closed.parts)?;
    Ok(used_for(alloc, text, Some(closed)))
}

// Settles a day on its own book, by so many threads. One alone goes through the batch, and deals nothing out.
fn close_day<T: Threads + Sync>(
    rt: &T,
    alloc: Global,
    parts: Parts,
    rules: &Rules,
    batch: &Batch,
    threads: u32,
) -> Result<ClosedParts, NoMemory>
    requires follows { batch.now.base + 1 ≡ parts.next }
    requires threads { may_work threads ≡ true }
    ensures book { IfOk result (λ closed. closed.parts ≡ book_after (day_of parts rules.now batch.now)) }
    ensures replies { IfOk result (λ closed. closed.replies.items ≡ replies_of (day_of parts rules.now batch.now)) }
    ensures worked { IfOk result (λ closed. 1 < threads → WereSettledBy batch.now threads) }
{
    if threads > 1 {
        return settle_without_shifts(rt, alloc, parts, rules, batch, threads, &FreePlaces);
    }
    let Ok(book) = parts.into_book(alloc) else {
        return Err(NoMemory);
    };
    let closed = settle_in_place(alloc, book, rules, batch)?;
    let Ok(parts) = Parts::of_book(alloc, closed.book) else {
        return Err(NoMemory);
    };
    Ok(ClosedParts {
        parts,
        replies: closed.replies,
    })
}
