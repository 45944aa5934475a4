//! The text that answers a question of a day.

ghost use Rattle.std.specs.Prelude.{◌≡◌, ◌+◌, IfOk, MatchResult, Ok, Err};
ghost use Rattle.reg_book.specs.Chains.{book_after};
ghost use Rattle.reg_book.specs.Day.{log_of};
ghost use Rattle.reg_text.specs.Determined.{figures_rows};
ghost use Rattle.reg_text.specs.Inputs.{day_of_input};
ghost use Rattle.reg_text.specs.NextDays.{report_of};
ghost use Rattle.reg_text.specs.Report.{log_rows, text_of};
ghost use Rattle.reg_text.specs.Totals.{totals_rows};
ghost use Rattle.registry_c.specs.Answers.{IsDue};
ghost use Rattle.registry_c.specs.Questions.{IsAnswer, IsRefusal};
ghost use Rattle.registry_c.specs.declared.question.Question.TheVariants as asked;

use crate::fault::Fault;
use crate::question::Question;
use reg_base::{AccountNo, NoMemory};
use reg_book::{ClosedDay, log_is_made_again, settle_in_place};
use reg_plan::Plan;
use reg_text::{
    DayInput, StatementFault, all_statements, figures, plan_text, read_day, statement, totals_text,
    write_log, write_report_over,
};
use std::alloc::Global;

/// The text that answers a question of the day that these bytes describe.
///
/// # Errors
/// `Row` if the bytes are no day text, with the first faulty row and the first cause that applies to it. `NoAccount` if
/// the account of a statement is not in the book. Otherwise `NoMemory` if memory ran out.
pub(crate) fn text_for(alloc: Global, question: Question, day: &[u8]) -> Result<Vec<u8>, Fault>
    ensures { MatchResult result
        (λ text. IsDue question day.now (Ok text.items))
        (λ fault. IsDue question day.now (Err fault)) }
{
    let day = read_day(alloc, day)?;
    make_text(alloc, question, day)
}

// The text that answers a question of a day.
fn make_text(alloc: Global, question: Question, day: DayInput) -> Result<Vec<u8>, Fault>
    requires { day.batch.base + 1 ≡ day.book.next }
    ensures { MatchResult result
        (λ text. IsAnswer question (day_of_input day) text.items)
        (IsRefusal question day.book) }
{
    match question {
        Question::Report => Ok(make_report(alloc, day)?),
        Question::Log => Ok(make_log(alloc, &day)?),
        Question::Plan => Ok(make_plan(alloc, &day)?),
        Question::Statement { account } => make_statement(alloc, &day, account),
        Question::Statements => Ok(make_statements(alloc, &day)?),
        Question::Figures => Ok(make_figures(alloc, day)?),
        Question::Totals => Ok(make_totals(alloc, day)?),
    }
}

// The report of the day, settled on its own book.
fn make_report(alloc: Global, day: DayInput) -> Result<Vec<u8>, NoMemory>
    requires { day.batch.base + 1 ≡ day.book.next }
    ensures { IfOk result (λ text. text.items ≡ report_of (day_of_input day)) }
{
    log_is_made_again();
    let DayInput { book, rules, batch } = day;
    let closed = settle_in_place(alloc, book, &rules, &batch)?;
    let replies = closed.replies.as_slice();
    let text = write_report_over(Vec::new(alloc), &closed.book, &batch, replies)?;
    Ok(text)
}

// The log of the day.
fn make_log(alloc: Global, day: &DayInput) -> Result<Vec<u8>, NoMemory>
    requires { day.now.batch.base + 1 ≡ day.now.book.next }
    ensures { IfOk result (λ text. text.items ≡ text_of (log_rows (log_of (day_of_input day.now)))) }
{
    let settled = day.settle(alloc)?;
    write_log(alloc, settled.rows())
}

// The plan of the day's instructions.
fn make_plan(alloc: Global, day: &DayInput) -> Result<Vec<u8>, NoMemory>
    ensures { IfOk result (λ text. IsAnswer asked.Plan (day_of_input day.now) text.items) }
{
    let plan = Plan::of(alloc, &day.batch, day.book.directory())?;
    plan_text(alloc, &plan)
}

// The statement of an account.
fn make_statement(alloc: Global, day: &DayInput, account: u32) -> Result<Vec<u8>, Fault>
    requires { day.now.batch.base + 1 ≡ day.now.book.next }
    ensures { MatchResult result
        (λ text. IsAnswer (asked.Statement account) (day_of_input day.now) text.items)
        (IsRefusal (asked.Statement account) day.now.book) }
{
    let Some(number) = AccountNo::new(account) else {
        // (each account of a book has an account number)
        day.book.accounts();
        return Err(Fault::NoAccount);
    };
    if day.book.get(number).is_none() {
        return Err(Fault::NoAccount);
    }
    let settled = day.settle(alloc)?;
    match statement(alloc, &day.book, settled.rows(), number) {
        Ok(text) => Ok(text),
        Err(StatementFault::NoMemory) => Err(Fault::NoMemory),
        Err(StatementFault::UnknownAccount) => unreachable!(),
    }
}

// The statements of all accounts.
fn make_statements(alloc: Global, day: &DayInput) -> Result<Vec<u8>, NoMemory>
    requires { day.now.batch.base + 1 ≡ day.now.book.next }
    ensures { IfOk result (λ text. IsAnswer asked.Statements (day_of_input day.now) text.items) }
{
    let settled = day.settle(alloc)?;
    all_statements(alloc, &day.book, settled.rows())
}

// The determined figures of all accounts after the day.
fn make_figures(alloc: Global, day: DayInput) -> Result<Vec<u8>, NoMemory>
    requires { day.batch.base + 1 ≡ day.book.next }
    ensures { IfOk result (λ text. text.items ≡ text_of (figures_rows (book_after (day_of_input day)))) }
{
    let closed = close(alloc, day)?;
    figures(alloc, &closed.book)
}

// The totals after the day.
fn make_totals(alloc: Global, day: DayInput) -> Result<Vec<u8>, NoMemory>
    requires { day.batch.base + 1 ≡ day.book.next }
    ensures { IfOk result (λ text. text.items ≡ text_of (totals_rows (book_after (day_of_input day)))) }
{
    let closed = close(alloc, day)?;
    totals_text(alloc, &closed.book)
}

// Settles the day on its own book.
fn close(alloc: Global, day: DayInput) -> Result<ClosedDay, NoMemory>
    requires { day.batch.base + 1 ≡ day.book.next }
    ensures { IfOk result (λ closed. closed.book ≡ book_after (day_of_input day)) }
{
    settle_in_place(alloc, day.book, &day.rules, &day.batch)
}
