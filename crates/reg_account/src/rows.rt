//! Surrenders and deletions, as rows by rising record number.

ghost use Rattle.std.specs.Prelude.{◌≡◌, ◌<◌, Some, None, IfOk, MatchOption, length, slice_index};
ghost use Rattle.reg_base.specs.Rising.{IsRising};
ghost use Rattle.reg_account.specs.Rows.{retirement_of, row_numbers, row_in, with_mark};
ghost use Rattle.reg_account.specs.RowIndexes.{RowStandsAt};

use reg_base::{AllowanceKind, Day, NoMemory, RecordNo, Retirement};
use std::alloc::Global;

/// What became of the allowances of a row.
#[derive(Clone, Copy, Debug, PartialEq, Eq)]
pub enum Fate {
    /// They were surrendered for the emissions of a period.
    Surrendered {
        /// The number of the period, 1 to 8.
        period: u8,
    },
    /// They were deleted.
    Deleted,
}

impl Fate {
    /// Whether they were surrendered or deleted.
    pub fn retirement(self) -> Retirement
        ensures { result ≡ retirement_of self }
    {
        match self {
            Fate::Surrendered { .. } => Retirement::Surrendered,
            Fate::Deleted => Retirement::Deleted,
        }
    }
}

/// A surrender or a deletion. The fields stand by their size, so that a row takes 24 bytes.
#[derive(Clone, Copy, Debug, PartialEq, Eq)]
pub struct RetirementRow {
    /// The record number of the instruction.
    pub number: RecordNo,
    /// How many allowances, 1 to 10^15.
    pub amount: u64,
    /// The settlement day on which the instruction was carried out.
    pub day: Day,
    /// Whether the allowances were surrendered, and for which period, or deleted.
    pub fate: Fate,
    /// Their kind.
    pub kind: AllowanceKind,
    /// Whether it was reversed.
    pub reversed: bool,
}

/// The index of the row with this number, counted from 0.
pub(crate) fn index_of(rows: &[RetirementRow], number: RecordNo) -> Option<usize>
    requires { IsRising (row_numbers rows.now) }
    ensures { MatchOption result (row_in rows.now number ≡ None) (λ index. RowStandsAt rows.now index number) }
{
    match rows.binary_search_by_key(&number, |row| row.number) {
        Ok(index) => Some(index),
        Err(_) => None,
    }
}

/// The row with this number.
pub(crate) fn find_row(rows: &[RetirementRow], number: RecordNo) -> Option<RetirementRow>
    requires { IsRising (row_numbers rows.now) }
    ensures { result ≡ row_in rows.now number }
{
    match rows.binary_search_by_key(&number, |row| row.number) {
        Ok(index) => Some(rows[index]),
        Err(_) => None,
    }
}

/// Marks the row at this index as reversed, and answers it as it was.
pub(crate) fn mark_reversed(rows: &mut [RetirementRow], index: usize) -> RetirementRow
    requires rising { IsRising (row_numbers rows.old) }
    requires within { index < length rows.old }
    ensures row { row_in rows.old (slice_index (row_numbers rows.old) index) ≡ Some result }
    ensures marked { rows.new ≡ with_mark (slice_index (row_numbers rows.old) index) rows.old }
{
    let row = rows[index];
    rows[index].reversed = true;
    row
}

/// These rows, with room for an eighth more: a day that adds some to a long list does not copy it once more.
pub(crate) fn copy_rows(
    alloc: Global,
    rows: &[RetirementRow],
) -> Result<Vec<RetirementRow>, NoMemory>
    ensures { IfOk result (λ copy. copy.items ≡ rows.now) }
{
    let mut copy = Vec::with_capacity(alloc, rows.len() + rows.len() / 8)?;
    copy.extend_from_slice(rows)?;
    Ok(copy)
}
