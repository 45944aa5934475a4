//! The text of the next day up to its instructions.

ghost use Rattle.std.specs.Prelude.{◌≡◌, ◌+◌, IfOk, MatchResult, Ok, Err};
ghost use Rattle.reg_book.specs.Chains.{book_after};
ghost use Rattle.reg_text.specs.Dates.{date_of};
ghost use Rattle.reg_text.specs.Inputs.{day_of_input};
ghost use Rattle.reg_text.specs.NextText.{front_text};
ghost use Rattle.registry_c.specs.Next.{IsNextDue, is_later};

use crate::fault::Fault;
use reg_base::{Day, NoMemory};
use reg_book::settle_in_place;
use reg_text::{DayInput, Version, read_date, read_day, read_version, write_front};
use std::alloc::Global;

/// The text of the day behind the one that these bytes describe, up to its instructions.
///
/// # Errors
/// `Row` if the bytes are no day text, with the first faulty row and the first cause that applies to it. `NoDate` if
/// `date` is no date, or not later than the day. Otherwise `NoMemory` if memory ran out.
pub(crate) fn next_for(alloc: Global, day: &[u8], date: &[u8]) -> Result<Vec<u8>, Fault>
    ensures { MatchResult result
        (λ text. IsNextDue day.now date.now (Ok text.items))
        (λ fault. IsNextDue day.now date.now (Err fault)) }
{
    let input = read_day(alloc, day)?;
    let Ok(next) = read_date(date) else {
        return Err(Fault::NoDate);
    };
    if next <= input.batch.day() {
        return Err(Fault::NoDate);
    }
    let version = read_version(alloc, day)?.unwrap_or(Version::Two);
    Ok(make_next(alloc, input, version, next)?)
}

// The text of the next day up to its instructions. As a call of its own it does not share a frame with the reader.
#[inline(never)]
fn make_next(
    alloc: Global,
    input: DayInput,
    version: Version,
    next: Day,
) -> Result<Vec<u8>, NoMemory>
    requires { input.batch.base + 1 ≡ input.book.next }
    ensures { IfOk result
        (λ text. text.items ≡ front_text version input.rules (book_after (day_of_input input)) next) }
{
    let DayInput { book, rules, batch } = input;
    let closed = settle_in_place(alloc, book, &rules, &batch)?;
    write_front(alloc, version, &rules, &closed.book, next)
}
