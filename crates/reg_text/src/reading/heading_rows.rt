//! The rows of the heading before its lists.

ghost use Rattle.std.specs.Prelude.{◌≡◌, IfOk};
ghost use Rattle.reg_book.specs.Book.{IsNext};
ghost use Rattle.csv.specs.Records.{fields_of};
ghost use Rattle.reg_text.specs.declared.reading.tag.Tag.TheVariants as tag;
ghost use Rattle.reg_text.specs.Scopes.{widest};
ghost use Rattle.reg_text.specs.Grammar.{row_read};

use crate::cause::Cause;
use crate::fields::dates::read_date;
use crate::fields::limits::{read_lag, read_next, read_period, read_year};
use crate::fields::words::read_named;
use crate::reading::row::{field_at, has_fields};
use crate::reading::scope::{Scope, Version};
use csv::ByteRecord;
use reg_base::{Day, Year};

/// The lags and the reversal window, in working days.
#[derive(Clone, Copy, Debug, PartialEq, Eq)]
pub(crate) struct Lags {
    /// The lag of a transfer to a trusted account.
    pub trusted: u16,
    /// The lag of any other transfer.
    pub other: u16,
    /// How long it takes until a new entry of a trusted account list takes effect.
    pub list: u16,
    /// How long a surrender or a deletion can be reversed.
    pub reversal: u16,
}

/// `format,1` or `format,2`: the version.
pub(crate) fn read_format_row(row: &ByteRecord) -> Result<Version, Cause>
    ensures { result ≡ row_read widest tag.Format (fields_of row.now) }
{
    if !has_fields(row, 2) {
        return Err(Cause::Fields);
    }
    read_named(field_at(row, 1), Cause::Version)
}

/// `day,DATE,NEXT`: the settlement day, and the next record number.
pub(crate) fn read_day_row(row: &ByteRecord) -> Result<(Day, u64), Cause>
    ensures value { result ≡ row_read widest tag.Day (fields_of row.now) }
    ensures next { IfOk result (λ v. IsNext v.1) }
{
    if !has_fields(row, 3) {
        return Err(Cause::Fields);
    }
    let day = read_date(field_at(row, 1))?;
    let next = read_next(field_at(row, 2))?;
    Ok((day, next))
}

/// `period,FIRST,LAST`: the first year, and the last, which is not before it.
pub(crate) fn read_period_row(row: &ByteRecord) -> Result<(Year, Year), Cause>
    ensures { result ≡ row_read widest tag.Period (fields_of row.now) }
{
    if !has_fields(row, 3) {
        return Err(Cause::Fields);
    }
    let first = read_year(field_at(row, 1))?;
    let last = read_year(field_at(row, 2))?;
    if first > last {
        return Err(Cause::Order);
    }
    Ok((first, last))
}

/// `current,PERIOD`: the current period.
pub(crate) fn read_current_row(scope: Scope, row: &ByteRecord) -> Result<u8, Cause>
    ensures { result ≡ row_read scope tag.Current (fields_of row.now) }
{
    if !has_fields(row, 2) {
        return Err(Cause::Fields);
    }
    read_period(field_at(row, 1), 1, scope.periods)
}

/// `lags,TRUSTED,OTHER,LIST,REVERSAL`, each in working days.
pub(crate) fn read_lags_row(row: &ByteRecord) -> Result<Lags, Cause>
    ensures { result ≡ row_read widest tag.Lags (fields_of row.now) }
{
    if !has_fields(row, 5) {
        return Err(Cause::Fields);
    }
    let trusted = read_lag(field_at(row, 1))?;
    let other = read_lag(field_at(row, 2))?;
    let list = read_lag(field_at(row, 3))?;
    let reversal = read_lag(field_at(row, 4))?;
    Ok(Lags {
        trusted,
        other,
        list,
        reversal,
    })
}
