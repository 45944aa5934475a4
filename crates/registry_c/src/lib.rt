//! The engine for programs in other languages: a static library whose functions read a day text in the caller's memory
//! and write the text of a command into the caller's memory. `include/registry.h` tells their callers in C all that is
//! here.
//!
//! Nothing outlives a call, and nothing is shared between two: a call takes memory from the C library and gives all of
//! it back. So calls may come from several threads at once. None of them starts a thread or waits for one.
#![tactic(auto)]

ghost use Rattle.std.specs.Prelude.{◌≡◌, codes};
ghost use Rattle.registry_c.specs.Answers.{Tells};
ghost use Rattle.registry_c.specs.Columns.{column_with, name_of_column, sentence_with};
ghost use Rattle.registry_c.specs.Most.{room_most};
ghost use Rattle.registry_c.specs.Names.{TellsText, cause_with, check_with};
ghost use Rattle.registry_c.specs.Names.{sentence_of_check, word_of_cause, word_of_check};
ghost use Rattle.registry_c.specs.Next.{TellsNext};
ghost use Rattle.registry_c.specs.Places.{TellsPlace};
ghost use Rattle.registry_c.specs.declared.question.Question.TheVariants.{Figures, Log, Plan};
ghost use Rattle.registry_c.specs.declared.question.Question.TheVariants.{Report, Statement, Statements, Totals};

mod answer;
mod causes;
mod columns;
mod fault;
mod most;
mod names;
mod next;
mod place;
mod question;
mod rows;
mod texts;
mod wanted;

use crate::answer::{tell, tell_next, tell_text};
pub use answer::Answer;
pub use columns::Column;
pub use fault::Fault;
pub use most::each_report_has_room;
pub use place::Place;
pub use question::Question;
use std::alloc::Global;
pub use wanted::Wanted;

// The version of what the header says. A change that breaks a caller raises it.
const VERSION: u32 = 1;

// The version of the engine, as its program tells it.
const ENGINE_VERSION: &str = "1.2";

/// Settles the day: its report, byte for byte that of the program's command `settle`.
#[unsafe(no_mangle)]
pub extern "C" fn registry_settle(alloc: Global, day: &[u8], room: &mut [u8]) -> Answer
    ensures { Tells Report day.now result room.old room.new }
{
    tell(alloc, Question::Report, day, room)
}

/// How many bytes the report of a day text of this length has at most: eight times as many, or the largest number if
/// that is more. By the law [`each_report_has_room`] one call of [`registry_settle`] with so much room is enough.
#[unsafe(no_mangle)]
pub extern "C" fn registry_report_most(day_length: usize) -> usize
    ensures { result ≡ room_most day_length }
{
    most::room_for_report(day_length)
}

/// Settles the day as a trial: the log rows of its report alone, which say of each instruction that it is done, or why
/// it is refused.
#[unsafe(no_mangle)]
pub extern "C" fn registry_try(alloc: Global, day: &[u8], room: &mut [u8]) -> Answer
    ensures { Tells Log day.now result room.old room.new }
{
    tell(alloc, Question::Log, day, room)
}

/// The plan of the day, which settles nothing.
#[unsafe(no_mangle)]
pub extern "C" fn registry_plan(alloc: Global, day: &[u8], room: &mut [u8]) -> Answer
    ensures { Tells Plan day.now result room.old room.new }
{
    tell(alloc, Question::Plan, day, room)
}

/// The statement of an account over the day. The answer says so if the account is not in the book of the day.
#[unsafe(no_mangle)]
pub extern "C" fn registry_statement(
    alloc: Global,
    day: &[u8],
    account: u32,
    room: &mut [u8],
) -> Answer
    ensures { Tells (Statement account) day.now result room.old room.new }
{
    tell(alloc, Question::Statement { account }, day, room)
}

/// The statements of all accounts, in the order of the accounts, one behind another: each is that of
/// [`registry_statement`], and ends with its row `end`. The day is settled once.
#[unsafe(no_mangle)]
pub extern "C" fn registry_statements(alloc: Global, day: &[u8], room: &mut [u8]) -> Answer
    ensures { Tells Statements day.now result room.old room.new }
{
    tell(alloc, Question::Statements, day, room)
}

/// The text of the next day up to its instructions, from the text of a day and a later date, YYYY-MM-DD: its heading,
/// and the accounts as the day leaves them. The answer says so if there is no such date, or it is not later than the
/// day. The law `each_next_text_is_read_on` of `reg_text` says how the text is read with instructions behind it.
#[unsafe(no_mangle)]
pub extern "C" fn registry_next(alloc: Global, day: &[u8], date: &[u8], room: &mut [u8]) -> Answer
    ensures { TellsNext day.now date.now result room.old room.new }
{
    tell_next(alloc, day, date, room)
}

/// The determined compliance figures of all accounts after the day.
#[unsafe(no_mangle)]
pub extern "C" fn registry_figures(alloc: Global, day: &[u8], room: &mut [u8]) -> Answer
    ensures { Tells Figures day.now result room.old room.new }
{
    tell(alloc, Question::Figures, day, room)
}

/// The totals after the day.
#[unsafe(no_mangle)]
pub extern "C" fn registry_totals(alloc: Global, day: &[u8], room: &mut [u8]) -> Answer
    ensures { Tells Totals day.now result room.old room.new }
{
    tell(alloc, Question::Totals, day, room)
}

/// The version of the library's interface: 1. A caller compares it with that of the header it was made with.
#[unsafe(no_mangle)]
pub extern "C" fn registry_version() -> u32
    ensures { result ≡ 1 }
{
    VERSION
}

/// The version of the engine, such as `1.2`, as `registry --version` tells it.
#[unsafe(no_mangle)]
pub extern "C" fn registry_version_string(room: &mut [u8]) -> Answer
    ensures { TellsText (codes "1.2") result room.old room.new }
{
    tell_text(ENGINE_VERSION, room)
}

/// The word of a cause, as the program writes it. A number that is no cause has the empty text.
#[unsafe(no_mangle)]
pub extern "C" fn registry_cause_word(cause: u32, room: &mut [u8]) -> Answer
    ensures { TellsText (word_of_cause (cause_with cause)) result room.old room.new }
{
    tell_text(names::word_of_cause(cause), room)
}

/// The name of the check with this code, as it stands in a log. A code that is no check's has the empty text.
#[unsafe(no_mangle)]
pub extern "C" fn registry_refusal_word(code: u32, room: &mut [u8]) -> Answer
    ensures { TellsText (word_of_check (check_with code)) result room.old room.new }
{
    tell_text(names::word_of_check(code), room)
}

/// Why the check with this code refuses an instruction, in a sentence. A code that is no check's has the empty text.
#[unsafe(no_mangle)]
pub extern "C" fn registry_refusal_sentence(code: u32, room: &mut [u8]) -> Answer
    ensures { TellsText (sentence_of_check (check_with code)) result room.old room.new }
{
    tell_text(names::sentence_of_check(code), room)
}

/// Where the first fault of a text stands, if it is no day text: its row, its cause, and the field of the row. Row and
/// cause are those that [`registry_settle`] tells. The field is looked for a second time, which promises nothing.
#[unsafe(no_mangle)]
pub extern "C" fn registry_find_fault(alloc: Global, day: &[u8]) -> Place
    ensures { TellsPlace day.now result }
{
    place::find_fault(alloc, day)
}

/// The name of the column with this number, as docs/FORMATS.md has it. A number that is no column's has the empty text.
#[unsafe(no_mangle)]
pub extern "C" fn registry_field_name(column: u32, room: &mut [u8]) -> Answer
    ensures { TellsText (name_of_column (column_with column)) result room.old room.new }
{
    tell_text(names::name_of_column(column), room)
}

/// What is wrong with a row by this cause in this column, in a sentence: what is wanted there. A column that there is
/// not stands for the row as a whole, and a number that is no cause has the empty text.
#[unsafe(no_mangle)]
pub extern "C" fn registry_fault_sentence(cause: u32, column: u32, room: &mut [u8]) -> Answer
    ensures { TellsText (sentence_with (cause_with cause) (column_with column)) result room.old room.new }
{
    tell_text(names::sentence_of(cause, column), room)
}
