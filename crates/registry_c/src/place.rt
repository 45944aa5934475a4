//! Where the first fault of a day text stands. Its row and its cause are those that the reader told. The field is found
//! by a second look at this row, which is safe and promises no more than that the row has such a field.

ghost use Rattle.std.specs.Prelude.{◌≡◌};
ghost use Rattle.registry_c.specs.Places.{IsPlaced, TellsPlace, without_row};

use crate::answer::number_of as number_of_cause;
use crate::columns::Column;
use crate::rows::{column_at, is_word};
use crate::wanted::number_of;
use csv::ByteRecord;
use reg_base::{MOST_ROWS, NoMemory};
use reg_cuts::{next_row, start_rows};
use reg_text::{Cause, DayFault, read_day};
use std::alloc::Global;

/// Where the first fault of a day text stands. Its fields lie in memory as in `struct registry_place` of the header.
#[repr(C)]
#[derive(Clone, Copy, Debug, PartialEq, Eq)]
pub struct Place {
    /// 0 if there is no fault; 3 if there is one; 4 if memory ran out.
    pub status: u32,
    /// The number of the first cause that applies to the faulty row, from 1 on in the order of [`Cause`]. Otherwise 0.
    pub cause: u32,
    /// The number of the first faulty row, counted from 1; if the text ends too early, the number of rows plus 1.
    /// Otherwise 0.
    pub row: u64,
    /// The number of the faulty field in its row, counted from 1; 0 if it is the row as a whole.
    pub field: u32,
    /// The number of the column of this field: `registry_field_name` tells its name. Otherwise 0.
    pub column: u32,
}

// A field of a row, counted from 0, and its column.
#[derive(Clone, Copy, Debug, PartialEq, Eq)]
struct Field {
    index: usize,
    column: Column,
}

// What the rows before a faulty one say, as far as its limits depend on it.
#[derive(Clone, Copy, Debug, PartialEq, Eq)]
struct Seen {
    // How many periods there are.
    periods: u64,
    // The next record number.
    next: u64,
    // How many surrenders and deletions the last account has.
    retired: u64,
}

// The field of a row, counted from 0, or the empty one.
fn field_at(row: &ByteRecord, index: usize) -> &[u8] {
    match row.get(index) {
        Some(field) => field,
        None => &[],
    }
}

impl Seen {
    // The same with one more row.
    fn with(self, row: &ByteRecord) -> Seen {
        let tag = field_at(row, 0);
        if is_word(tag, b"day") {
            let next = number_of(field_at(row, 2)).unwrap_or(u64::MAX);
            return Seen { next, ..self };
        }
        if is_word(tag, b"period") {
            return Seen {
                periods: self.periods.saturating_add(1),
                ..self
            };
        }
        if is_word(tag, b"account") {
            return Seen { retired: 0, ..self };
        }
        if is_word(tag, b"retired") {
            return Seen {
                retired: self.retired.saturating_add(1),
                ..self
            };
        }
        self
    }
}

// The field of a row with this index.
fn field_with(row: &ByteRecord, index: usize) -> Option<Field> {
    if index >= row.len() {
        return None;
    }
    let column = column_at(field_at(row, 0), field_at(row, 4), index)?;
    Some(Field { index, column })
}

// The first field from the left to which a cause applies.
fn first_faulty(row: &ByteRecord, cause: Cause, periods: u64) -> Option<Field> {
    for index in 1..row.len() {
        if let Some(field) = field_with(row, index) {
            if field
                .column
                .wanted()
                .is_faulty(cause, field_at(row, index), periods)
            {
                return Some(field);
            }
        }
    }
    None
}

// The field of a row that is outside a limit although each of its fields is within its own: a deletion names no period;
// the number of a row is below the next one; and the sum of amounts has its limit.
fn beyond_a_sum(row: &ByteRecord, seen: Seen) -> Option<Field> {
    if !is_word(field_at(row, 0), b"retired") {
        return None;
    }
    if is_word(field_at(row, 2), b"deletion") && row.len() == 8 {
        return field_with(row, 7);
    }
    if seen.retired >= MOST_ROWS as u64 {
        return None;
    }
    match number_of(field_at(row, 1)) {
        Some(number) if number >= seen.next => field_with(row, 1),
        _ => field_with(row, 4),
    }
}

// The field by which a row does not come after the one before it; or the last year of a period that ends before it
// begins.
fn out_of_order(row: &ByteRecord) -> Option<Field> {
    let years = (number_of(field_at(row, 1)), number_of(field_at(row, 2)));
    match years {
        (Some(first), Some(last)) if last < first && is_word(field_at(row, 0), b"period") => {
            field_with(row, 2)
        }
        _ => field_with(row, 1),
    }
}

// The field of a faulty row to which its cause applies.
fn field_in(row: &ByteRecord, cause: Cause, seen: Seen) -> Option<Field> {
    match cause {
        Cause::End | Cause::Fields => None,
        Cause::Tag => field_with(row, 0),
        Cause::Order => out_of_order(row),
        Cause::Word => first_faulty(row, cause, seen.periods).or(field_with(row, 1)),
        Cause::Limit => match first_faulty(row, cause, seen.periods) {
            Some(field) => Some(field),
            None => beyond_a_sum(row, seen),
        },
        Cause::Number | Cause::Date | Cause::Version => first_faulty(row, cause, seen.periods),
    }
}

// The field of the row with this number, counted from 1, to which its cause applies.
fn find_field(
    alloc: Global,
    text: &[u8],
    number: u64,
    cause: Cause,
) -> Result<Option<Field>, NoMemory> {
    let mut reader = start_rows(alloc, text);
    let mut row = ByteRecord::new(alloc);
    let mut seen = Seen {
        periods: 0,
        next: u64::MAX,
        retired: 0,
    };
    let mut left = number;
    'rows: while next_row(&mut reader, &mut row)? {
        if left <= 1 {
            return Ok(field_in(&row, cause, seen));
        }
        seen = seen.with(&row);
        left -= 1;
    }
    Ok(None)
}

// What is told of a text without a fault, or if memory ran out.
fn without_row(status: u32) -> Place
    ensures { result ≡ without_row status }
{
    Place {
        status,
        cause: 0,
        row: 0,
        field: 0,
        column: 0,
    }
}

// What is told of a fault in this field, if it is one's.
fn place_of(row: u64, cause: Cause, field: Option<Field>) -> Place
    ensures { IsPlaced row cause result }
{
    let (number, column) = match field {
        Some(field) => (
            u32::try_from(field.index).map_or(0, |index| index.saturating_add(1)),
            field.column.number(),
        ),
        None => (0, 0),
    };
    Place {
        status: 3,
        cause: number_of_cause(cause),
        row,
        field: number,
        column,
    }
}

/// Where the first fault of these bytes stands, if they are no day text.
pub(crate) fn find_fault(alloc: Global, day: &[u8]) -> Place
    ensures { TellsPlace day.now result }
{
    match read_day(alloc, day) {
        Ok(_day) => without_row(0),
        Err(DayFault::NoMemory) => without_row(4),
        Err(DayFault::Row { row, cause }) => match find_field(alloc, day, row, cause) {
            Ok(field) => place_of(row, cause, field),
            Err(NoMemory) => without_row(4),
        },
    }
}
