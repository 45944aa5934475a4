//! The rows of an account's lists, which come behind the account's own row.

ghost use Rattle.std.specs.Prelude.{◌≡◌};
ghost use Rattle.csv.specs.Records.{fields_of};
ghost use Rattle.reg_text.specs.Causes.{test};
ghost use Rattle.reg_text.specs.declared.cause.Cause.TheVariants as cause;
ghost use Rattle.reg_text.specs.declared.reading.tag.Tag.TheVariants as tag;
ghost use Rattle.reg_text.specs.Scopes.{widest};
ghost use Rattle.reg_text.specs.Grammar.{row_read, retired_fields, retired_period, may_name, fate_said};

use crate::cause::Cause;
use crate::fields::dates::read_date;
use crate::fields::limits::{
    read_account_no, read_period, read_record_no, read_retired_amount, read_tonnes, read_user_no,
    read_year,
};
use crate::fields::signed::{read_figure, read_later_correction};
use crate::fields::words::read_word;
use crate::reading::row::{field_at, has_fields};
use crate::reading::scope::{Scope, Version};
use csv::ByteRecord;
use reg_account::{
    Correction, Emission, Fate, Figure, Representative, Retirement, RetirementRow, TrustedEntry,
};

/// `correction,PERIOD,FACTOR`: the correction factor of a period after the first.
pub(crate) fn read_correction_row(scope: Scope, row: &ByteRecord) -> Result<Correction, Cause>
    ensures { result ≡ row_read scope tag.Correction (fields_of row.now) }
{
    if !has_fields(row, 3) {
        return Err(Cause::Fields);
    }
    let period = read_period(field_at(row, 1), 2, scope.periods)?;
    let factor = read_later_correction(field_at(row, 2))?;
    Ok(Correction { period, factor })
}

/// `user,USER,RIGHT`: a representative.
pub(crate) fn read_representative_row(row: &ByteRecord) -> Result<Representative, Cause>
    ensures { result ≡ row_read widest tag.User (fields_of row.now) }
{
    if !has_fields(row, 3) {
        return Err(Cause::Fields);
    }
    let user = read_user_no(field_at(row, 1))?;
    let right = read_word(field_at(row, 2))?;
    Ok(Representative { user, right })
}

/// `trusted,NO,DATE`: an entry of the trusted account list.
pub(crate) fn read_trusted_row(row: &ByteRecord) -> Result<TrustedEntry, Cause>
    ensures { result ≡ row_read widest tag.Trusted (fields_of row.now) }
{
    if !has_fields(row, 3) {
        return Err(Cause::Fields);
    }
    let account = read_account_no(field_at(row, 1))?;
    let effective = read_date(field_at(row, 2))?;
    Ok(TrustedEntry { account, effective })
}

// Whether the row of a surrender or a deletion has as many fields as it needs: in the second version there may be one
// more.
fn has_retired_fields(scope: Scope, row: &ByteRecord) -> bool
    ensures { result ≡ (retired_fields scope).ends 1 (fields_of row.now) }
{
    has_fields(row, 7) || (scope.version == Version::Two && has_fields(row, 8))
}

// The period that the last field names, if there is such a field.
fn read_retired_period(scope: Scope, row: &ByteRecord) -> Result<Option<u8>, Cause>
    ensures { result ≡ (retired_period scope).read 7 (fields_of row.now) }
{
    if has_fields(row, 7) {
        return Ok(None);
    }
    let period = read_period(field_at(row, 7), 2, scope.periods)?;
    Ok(Some(period))
}

// What became of allowances: a surrender that names no period is for the first, and a deletion names none.
fn read_fate(what: Retirement, period: Option<u8>) -> Result<Fate, Cause>
    ensures { result ≡ test (may_name what period) cause.Limit (fate_said what period) }
{
    match what {
        Retirement::Surrendered => Ok(Fate::Surrendered {
            period: period.unwrap_or(1),
        }),
        Retirement::Deleted => match period {
            None => Ok(Fate::Deleted),
            Some(_) => Err(Cause::Limit),
        },
    }
}

/// `retired,NUMBER,WHAT,KIND,AMOUNT,DATE,REVERSED` or the same and `PERIOD`: a surrender or a deletion.
pub(crate) fn read_retired_row(scope: Scope, row: &ByteRecord) -> Result<RetirementRow, Cause>
    ensures { result ≡ row_read scope tag.Retired (fields_of row.now) }
{
    if !has_retired_fields(scope, row) {
        return Err(Cause::Fields);
    }
    let number = read_record_no(field_at(row, 1))?;
    let what = read_word(field_at(row, 2))?;
    let kind = read_word(field_at(row, 3))?;
    let amount = read_retired_amount(field_at(row, 4))?;
    let day = read_date(field_at(row, 5))?;
    let reversed = read_word(field_at(row, 6))?;
    let period = read_retired_period(scope, row)?;
    let fate = read_fate(what, period)?;
    Ok(RetirementRow {
        number,
        amount,
        day,
        fate,
        kind,
        reversed,
    })
}

/// `emissions,YEAR,TONNES`: the emissions of a year.
pub(crate) fn read_emissions_row(row: &ByteRecord) -> Result<Emission, Cause>
    ensures { result ≡ row_read widest tag.Emissions (fields_of row.now) }
{
    if !has_fields(row, 3) {
        return Err(Cause::Fields);
    }
    let year = read_year(field_at(row, 1))?;
    let tonnes = read_tonnes(field_at(row, 2))?;
    Ok(Emission { year, tonnes })
}

/// `figure,YEAR,FIGURE`: the determined figure of a year.
pub(crate) fn read_figure_row(row: &ByteRecord) -> Result<Figure, Cause>
    ensures { result ≡ row_read widest tag.Figure (fields_of row.now) }
{
    if !has_fields(row, 3) {
        return Err(Cause::Fields);
    }
    let year = read_year(field_at(row, 1))?;
    let tonnes = read_figure(field_at(row, 2))?;
    Ok(Figure { year, tonnes })
}
