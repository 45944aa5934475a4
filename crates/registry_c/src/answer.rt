//! What a call tells its caller, and what it writes.

ghost use Rattle.std.specs.Prelude.{◌≡◌, Ok, Err};
ghost use Rattle.registry_c.specs.Answers.{Tells, answer_of, cause_number, room_after};
ghost use Rattle.registry_c.specs.Names.{TellsText};
ghost use Rattle.registry_c.specs.Next.{TellsNext};

use crate::fault::Fault;
use crate::next::next_for;
use crate::question::Question;
use crate::texts::text_for;
use reg_text::Cause;
use std::alloc::Global;

/// What became of a call. Its fields lie in memory as in `struct registry_answer` of the header.
#[repr(C)]
#[derive(Clone, Copy, Debug, PartialEq, Eq)]
pub struct Answer {
    /// 0 if there is a text; 2 if there is no such account; 3 if the day text has a fault; 4 if memory ran out; 6 if
    /// the date of the next day is none, or not later than the day.
    pub status: u32,
    /// The number of the first cause that applies to the faulty row, from 1 on in the order of [`Cause`]. Otherwise 0.
    pub cause: u32,
    /// The number of the first faulty row, counted from 1; if the text ends too early, the number of rows plus 1.
    /// Otherwise 0.
    pub row: u64,
    /// The number of bytes of the text, also if there was no room for them. After a fault 0.
    pub length: usize,
}

/// Answers a question of the day that a text describes, and writes the answer's text if there is room for all of it.
pub(crate) fn tell(alloc: Global, question: Question, day: &[u8], room: &mut [u8]) -> Answer
    ensures { Tells question day.now result room.old room.new }
{
    match text_for(alloc, question, day) {
        Ok(text) => put(text.as_slice(), room),
        Err(fault) => refuse(fault),
    }
}

/// Answers the text of the next day up to its instructions, from the text of the day and a date, and writes it if there
/// is room for all of it.
pub(crate) fn tell_next(alloc: Global, day: &[u8], date: &[u8], room: &mut [u8]) -> Answer
    ensures { TellsNext day.now date.now result room.old room.new }
{
    match next_for(alloc, day, date) {
        Ok(text) => put(text.as_slice(), room),
        Err(fault) => refuse(fault),
    }
}

/// Writes a word or a sentence, if there is room for all of it.
pub(crate) fn tell_text(text: &str, room: &mut [u8]) -> Answer
    ensures { TellsText text.now result room.old room.new }
{
    put(text.as_bytes(), room)
}

// Writes a text to the front of the room, if there is room for all of it.
fn put(text: &[u8], room: &mut [u8]) -> Answer
    ensures answer { result ≡ answer_of (Ok text.now) }
    ensures room { room.new ≡ room_after (Ok text.now) room.old }
{
    let length = text.len();
    if length <= room.len() {
        room[..length].copy_from_slice(text);
    }
    Answer {
        status: 0,
        cause: 0,
        row: 0,
        length,
    }
}

// What is told of a fault.
fn refuse(fault: Fault) -> Answer
    ensures { result ≡ answer_of (Err fault) }
{
    let (status, cause, row) = match fault {
        Fault::NoAccount => (2, 0, 0),
        Fault::Row { row, cause } => (3, number_of(cause), row),
        Fault::NoMemory => (4, 0, 0),
        Fault::NoDate => (6, 0, 0),
    };
    Answer {
        status,
        cause,
        row,
        length: 0,
    }
}

/// The number of a cause, in the order of `Cause`.
pub(crate) fn number_of(cause: Cause) -> u32
    ensures { result ≡ cause_number cause }
{
    match cause {
        Cause::End => 1,
        Cause::Tag => 2,
        Cause::Fields => 3,
        Cause::Number => 4,
        Cause::Date => 5,
        Cause::Word => 6,
        Cause::Version => 7,
        Cause::Limit => 8,
        Cause::Order => 9,
    }
}
