//! The rows of the heading's lists: what may be surrendered from which accounts, administrators, working days.

ghost use Rattle.std.specs.Prelude.{◌≡◌};
ghost use Rattle.csv.specs.Records.{fields_of};
ghost use Rattle.reg_text.specs.declared.reading.tag.Tag.TheVariants as tag;
ghost use Rattle.reg_text.specs.Scopes.{widest};
ghost use Rattle.reg_rules.specs.ActRules.{is_operator_kind};
ghost use Rattle.reg_text.specs.Grammar.{row_read, pair_index};

use crate::cause::Cause;
use crate::fields::dates::read_date;
use crate::fields::limits::read_user_no;
use crate::fields::words::read_word;
use crate::reading::row::{field_at, has_fields};
use csv::ByteRecord;
use reg_base::{AccountKind, AllowanceKind, Day, UserNo};

// Whether allowances may be surrendered from accounts of this kind, if the rules of a day allow it.
fn is_operator_kind(kind: AccountKind) -> bool
    ensures { result ≡ is_operator_kind kind }
{
    match kind {
        AccountKind::Operator | AccountKind::Aircraft => true,
        AccountKind::Total | AccountKind::Allocation | AccountKind::Trading => false,
    }
}

/// The index of a pair of kinds among the four that may be surrendered, counted from 0.
pub(crate) fn pair_index(pair: (AccountKind, AllowanceKind)) -> u8
    ensures { result ≡ pair_index pair }
{
    match pair {
        (AccountKind::Aircraft, AllowanceKind::General) => 2,
        (AccountKind::Aircraft, AllowanceKind::Aviation) => 3,
        (_, AllowanceKind::General) => 0,
        (_, AllowanceKind::Aviation) => 1,
    }
}

/// `surrender,ACCOUNTKIND,KIND`: allowances of this kind may be surrendered from accounts of that kind. If both are
/// words of kinds, but not one of the four pairs, the cause is `Word` too.
pub(crate) fn read_surrender_row(row: &ByteRecord) -> Result<(AccountKind, AllowanceKind), Cause>
    ensures { result ≡ row_read widest tag.Surrender (fields_of row.now) }
{
    if !has_fields(row, 3) {
        return Err(Cause::Fields);
    }
    let account = read_word(field_at(row, 1))?;
    let allowance = read_word(field_at(row, 2))?;
    if !is_operator_kind(account) {
        return Err(Cause::Word);
    }
    Ok((account, allowance))
}

/// `admin,USER`: an administrator.
pub(crate) fn read_admin_row(row: &ByteRecord) -> Result<UserNo, Cause>
    ensures { result ≡ row_read widest tag.Admin (fields_of row.now) }
{
    if !has_fields(row, 2) {
        return Err(Cause::Fields);
    }
    read_user_no(field_at(row, 1))
}

/// `work,DATE`: a working day.
pub(crate) fn read_work_row(row: &ByteRecord) -> Result<Day, Cause>
    ensures { result ≡ row_read widest tag.Work (fields_of row.now) }
{
    if !has_fields(row, 2) {
        return Err(Cause::Fields);
    }
    read_date(field_at(row, 1))
}
