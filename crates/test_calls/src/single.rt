//! One instruction, applied to a book.

use crate::call::{Call, try_call};
use crate::digest::{Digest, digest_of};
use crate::endings::Ended;
use crate::settling::day_of;
use crate::stop::Stop;
use reg_base::{Batch, Day, Instruction, RecordNo, Rules};
use reg_book::{ApplyFault, Book, settle_in_place};
use reg_rules::{LogRow, log_row};
use reg_text::DayInput;
use std::alloc::Global;
use std::io::Write;

// `Book::apply`.
#[derive(Drop)]
struct Applying {
    book: Book,
    rules: Rules,
    day: Day,
    instruction: Instruction,
}

impl Call for Applying {
    fn make(&mut self, alloc: Global) -> Ended {
        match self
            .book
            .apply(alloc, &self.rules, self.day, &self.instruction)
        {
            Ok(row) => Ended::Done(digest_after(&row, &self.book)),
            Err(ApplyFault::NoMemory) => Ended::NoMemory,
            Err(ApplyFault::NumbersSpent) => Ended::Otherwise,
        }
    }

    fn lent(&self) -> Digest {
        digest_of(&self.book)
    }
}

// The digest of a row, and of the book that its instruction has left.
fn digest_after(row: &LogRow, book: &Book) -> Digest {
    let mut digest = digest_of(row);
    digest.add(book);
    digest
}

// The only instruction of a batch.
fn only_of(batch: &Batch) -> Result<Instruction, Stop> {
    match batch.instructions() {
        [instruction] => Ok(*instruction),
        _ => Err(Stop::Input),
    }
}

// What settling a day of one instruction in place leaves.
fn settled_of(alloc: Global, day: DayInput) -> Result<Digest, Stop> {
    let instruction = only_of(&day.batch)?;
    let DayInput { book, rules, batch } = day;
    let next = book.next_record();
    if batch.base() + 1 != next {
        return Err(Stop::Input);
    }
    let Some(number) = RecordNo::new(next) else {
        return Err(Stop::Input);
    };
    let Ok(closed) = settle_in_place(alloc, book, &rules, &batch) else {
        return Err(Stop::Short);
    };
    let Some(reply) = closed.replies.into_iter().next() else {
        return Err(Stop::Input);
    };
    let row = log_row(number, batch.day(), instruction, reply);
    Ok(digest_after(&row, &closed.book))
}

/// Tries `Book::apply` of the only instruction of a day: it is to leave what settling the day in place does.
pub(crate) fn try_apply<W: Write>(alloc: Global, text: &[u8], writer: &mut W) -> Result<(), Stop> {
    let wanted = settled_of(alloc, day_of(alloc, text)?)?;
    let day = day_of(alloc, text)?;
    let instruction = only_of(&day.batch)?;
    let on = day.batch.day();
    let DayInput { book, rules, .. } = day;
    let mut call = Applying {
        book,
        rules,
        day: on,
        instruction,
    };
    try_call(alloc, &text, &mut call, Ended::Done(wanted), writer)
}
