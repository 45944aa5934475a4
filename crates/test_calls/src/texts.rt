//! Texts: reading a day, and what is written of a book.

use crate::call::{Call, try_rehearsed, try_threads};
use crate::digest::{Digest, digest_of};
use crate::endings::{Ended, how_ended};
use crate::stop::Stop;
use reg_base::{AccountNo, NoMemory};
use reg_book::settle_plain;
use reg_rules::{Closing, Holdings, LogRow, Reply};
use reg_text::{
    DayFault, DayInput, DayParts, Version, all_statements, figures, read_day, read_day_of_pieces,
    read_instruction, read_version, statement, totals_text, write_book, write_front, write_log_row,
    write_report, write_report_pieces,
};
use std::alloc::Global;
use std::io::Write;
use std::thread::Threads;

// `read_day`.
#[derive(Drop)]
struct Reading<'t> {
    text: &'t [u8],
}

impl Call for Reading<'_> {
    fn make(&mut self, alloc: Global) -> Ended {
        how_ended(read_day(alloc, self.text))
    }
}

/// Tries `read_day`.
pub(crate) fn try_read<W: Write>(alloc: Global, text: &[u8], writer: &mut W) -> Result<(), Stop> {
    try_rehearsed(alloc, &text, &mut Reading { text }, writer)
}

// `read_instruction`.
#[derive(Drop)]
struct ReadingRow<'t> {
    text: &'t [u8],
}

impl Call for ReadingRow<'_> {
    fn make(&mut self, alloc: Global) -> Ended {
        match read_instruction(alloc, self.text) {
            Ok(instruction) => Ended::Done(digest_of(&instruction)),
            Err(fault) => fault.into(),
        }
    }
}

/// Tries `read_instruction` on a text of one row.
pub(crate) fn try_read_row<W: Write>(
    alloc: Global,
    text: &[u8],
    writer: &mut W,
) -> Result<(), Stop> {
    try_rehearsed(alloc, &text, &mut ReadingRow { text }, writer)
}

// `read_version`.
#[derive(Drop)]
struct ReadingVersion<'t> {
    text: &'t [u8],
}

impl Call for ReadingVersion<'_> {
    fn make(&mut self, alloc: Global) -> Ended {
        how_ended(read_version(alloc, self.text))
    }
}

/// Tries `read_version`.
pub(crate) fn try_read_version<W: Write>(
    alloc: Global,
    text: &[u8],
    writer: &mut W,
) -> Result<(), Stop> {
    try_rehearsed(alloc, &text, &mut ReadingVersion { text }, writer)
}

// How reading ended: with a day, or with the first fault of the text, which is looked at too.
fn how_read(answer: Result<DayInput, DayFault>) -> Ended {
    match answer {
        Ok(day) => Ended::Done(digest_of(&day)),
        Err(DayFault::NoMemory) => Ended::NoMemory,
        Err(fault) => Ended::Done(digest_of(&fault)),
    }
}

// The same of a day whose accounts were read into lists, which are joined.
fn how_joined(alloc: Global, answer: Result<DayParts, DayFault>) -> Ended {
    match answer {
        Ok(day) => match day.into_input(alloc) {
            Ok(day) => how_read(Ok(day)),
            Err(_) => Ended::NoMemory,
        },
        Err(fault) => how_read(Err(fault)),
    }
}

// A text as one piece.
fn one_piece(alloc: Global, text: &[u8]) -> Result<Vec<Vec<u8>>, NoMemory> {
    let mut piece = Vec::new(alloc);
    piece.extend_from_slice(text)?;
    let mut pieces = Vec::new(alloc);
    pieces.push(piece)?;
    Ok(pieces)
}

/// Tries `read_day_of_pieces` by at most so many parts of any size: it is to end as `read_day` does.
pub(crate) fn try_read_pieces<R: Threads + Sync, W: Write>(
    rt: &R,
    alloc: Global,
    text: &[u8],
    parts: u32,
    writer: &mut W,
) -> Result<(), Stop> {
    let wanted = how_read(read_day(alloc, text));
    let Ok(pieces) = one_piece(alloc, text) else {
        return Err(Stop::Short);
    };
    let call = || how_joined(
        alloc,
        read_day_of_pieces(rt, alloc, &pieces, parts as usize, 1),
    );
    try_threads(&text, call, wanted, writer)
}

// How the writing of pieces ended: with their bytes, one after another.
fn how_spelled(answer: Result<Vec<Vec<u8>>, NoMemory>) -> Ended {
    match answer {
        Ok(pieces) => Ended::Done(digest_of_pieces(&pieces)),
        Err(NoMemory) => Ended::NoMemory,
    }
}

fn digest_of_pieces(pieces: &[Vec<u8>]) -> Digest {
    let mut digest = Digest::new();
    for piece in pieces {
        digest.add_bytes(piece);
    }
    digest
}

// Spells the report of a day by so many threads, or by one if the number is 0, in the memory of a text that is no
// longer needed.
fn spell_pieces<R: Threads + Sync>(
    rt: &R,
    alloc: Global,
    day: &DayParts,
    replies: &[Reply],
    threads: u32,
) -> Result<Vec<Vec<u8>>, NoMemory> {
    let (parts, batch) = (&day.parts, &day.batch);
    let spare = one_piece(alloc, b"no longer needed")?;
    if threads == 0 {
        return write_report_pieces(rt, alloc, parts, batch, replies, spare, 1);
    }
    write_report_pieces(rt, alloc, parts, batch, replies, spare, threads as usize)
}

// A copy of a reply.
fn copy_reply(alloc: Global, reply: &Reply) -> Result<Reply, Stop> {
    match reply {
        Reply::Done { closing, figure } => {
            let mut holdings = Holdings::new(alloc);
            for held in closing.as_slice() {
                holdings.push(*held)?;
            }
            Ok(Reply::Done {
                closing: Closing::new(holdings),
                figure: *figure,
            })
        }
        Reply::Refused(refusal) => Ok(Reply::Refused(*refusal)),
    }
}

// Copies of the replies in log rows.
fn copy_replies(alloc: Global, rows: &[LogRow]) -> Result<Vec<Reply>, Stop> {
    let mut replies = Vec::new(alloc);
    for row in rows {
        replies.push(copy_reply(alloc, &row.reply)?)?;
    }
    Ok(replies)
}

/// Tries `write_report_pieces` by so many threads, on accounts in lists as so many others read them: its pieces are to
/// be the report that `write_report` writes.
pub(crate) fn try_pieces<R: Threads + Sync, W: Write>(
    rt: &R,
    alloc: Global,
    text: &[u8],
    readers: u32,
    threads: u32,
    writer: &mut W,
) -> Result<(), Stop> {
    let Ok(pieces) = one_piece(alloc, text) else {
        return Err(Stop::Short);
    };
    let Ok(day) = read_day_of_pieces(rt, alloc, &pieces, readers as usize, 1) else {
        return Err(Stop::Input);
    };
    let Ok(input) = read_day(alloc, text) else {
        return Err(Stop::Input);
    };
    let Ok(settled) = settle_plain(alloc, &input.book, &input.rules, &input.batch) else {
        return Err(Stop::Short);
    };
    let rows = settled.rows();
    let Ok(whole) = write_report(alloc, &input.book, rows) else {
        return Err(Stop::Short);
    };
    let wanted = Ended::Done(digest_of_pieces(&[whole]));
    let replies = copy_replies(alloc, rows)?;
    let call = || how_spelled(spell_pieces(rt, alloc, &day, &replies, threads));
    try_threads(&text, call, wanted, writer)
}

/// A text that is written of a book or of a log.
#[derive(Clone, Copy)]
pub(crate) enum Written {
    /// The report, with the log of the day.
    Report,
    /// The book.
    Book,
    /// The determined figures.
    Figures,
    /// The totals.
    Totals,
    /// The statement of the account with the number 1.
    Statement,
    /// The statements of all accounts.
    Statements,
    /// The text of the day up to its instructions, in version 2.
    Front,
    /// The first row of the log.
    LogRow,
}

// A call that writes a text of the book before the day.
#[derive(Drop)]
struct Writing<'d> {
    day: &'d DayInput,
    rows: &'d [LogRow],
    written: Written,
}

impl Writing<'_> {
    // Writes the statement of an account.
    fn state(&self, alloc: Global) -> Ended {
        let Some(number) = AccountNo::new(1) else {
            return Ended::Otherwise;
        };
        how_ended(statement(alloc, &self.day.book, self.rows, number))
    }

    // Writes the text of the day up to its instructions.
    fn write_front(&self, alloc: Global) -> Ended {
        let day = self.day;
        how_ended(write_front(alloc, Version::Two, &day.rules, &day.book, day.batch.day()))
    }

    // Writes the first row of the log.
    fn write_row(&self, alloc: Global) -> Ended {
        let Some(row) = self.rows.first() else {
            return Ended::Otherwise;
        };
        how_ended(write_log_row(alloc, row))
    }
}

impl Call for Writing<'_> {
    fn make(&mut self, alloc: Global) -> Ended {
        let book = &self.day.book;
        match self.written {
            Written::Report => how_ended(write_report(alloc, book, self.rows)),
            Written::Book => how_ended(write_book(alloc, book)),
            Written::Figures => how_ended(figures(alloc, book)),
            Written::Totals => how_ended(totals_text(alloc, book)),
            Written::Statement => self.state(alloc),
            Written::Statements => how_ended(all_statements(alloc, book, self.rows)),
            Written::Front => self.write_front(alloc),
            Written::LogRow => self.write_row(alloc),
        }
    }
}

/// Tries the call that writes this text of the book before the day.
pub(crate) fn try_text<W: Write>(
    alloc: Global,
    day: &DayInput,
    written: Written,
    writer: &mut W,
) -> Result<(), Stop> {
    let Ok(settled) = settle_plain(alloc, &day.book, &day.rules, &day.batch) else {
        return Err(Stop::Short);
    };
    let mut call = Writing {
        day,
        rows: settled.rows(),
        written,
    };
    try_rehearsed(alloc, day, &mut call, writer)
}
