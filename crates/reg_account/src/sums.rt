//! The sums that an account keeps beside its rows, so that none is added up again.

ghost use Rattle.std.specs.Prelude.{◌≡◌, ℕ, ◌+◌, ◌-◌, ◌<◌, ◌≤◌, ◌^◌, ◌==◌, ◌&&◌, nat_le, false, length, slice_index};
ghost use Rattle.std.specs.Prelude.{if◌then◌else◌};
ghost use Rattle.reg_base.specs.declared.limits.TheConstants.{MOST_PERIODS};
ghost use Rattle.reg_base.specs.declared.kinds.AllowanceKind.{AllowanceKind};
ghost use Rattle.reg_base.specs.declared.kinds.Retirement.{Retirement as Way};
ghost use Rattle.reg_base.specs.Numbers.{IsWithin};
ghost use Rattle.reg_account.specs.Rows.{retirement_of, is_for, amount_in, amount_for};
ghost use Rattle.reg_account.specs.Sums.{sum_at, sum_for, is_period};

use crate::rows::{Fate, RetirementRow};
use reg_base::{AllowanceKind, MOST_PERIODS, Retirement};

/// The sums of the periods, that of period 1 first.
type ByPeriod = [u128; MOST_PERIODS as usize];

/// How many allowances of each kind were surrendered and deleted, and not reversed.
#[derive(Clone, Copy, Debug, PartialEq, Eq)]
pub(crate) struct Sums {
    pub surrendered_general: u128,
    pub surrendered_aviation: u128,
    pub deleted_general: u128,
    pub deleted_aviation: u128,
    // How many were surrendered for each period, of both kinds together.
    pub by_period: ByPeriod,
}

impl Sums {
    /// The sums over no rows.
    pub(crate) const NONE: Sums = Sums {
        surrendered_general: 0,
        surrendered_aviation: 0,
        deleted_general: 0,
        deleted_aviation: 0,
        by_period: [0; MOST_PERIODS as usize],
    };
}

/// The sum for this way of leaving, and this kind.
pub(crate) fn get_sum(sums: &Sums, way: Retirement, kind: AllowanceKind) -> u128
    ensures { result ≡ sum_at sums.now way kind }
{
    match (way, kind) {
        (Retirement::Surrendered, AllowanceKind::General) => sums.surrendered_general,
        (Retirement::Surrendered, AllowanceKind::Aviation) => sums.surrendered_aviation,
        (Retirement::Deleted, AllowanceKind::General) => sums.deleted_general,
        (Retirement::Deleted, AllowanceKind::Aviation) => sums.deleted_aviation,
    }
}

/// The sum of both kinds that were surrendered for this period.
pub(crate) fn get_sum_for(sums: &Sums, period: u8) -> u128
    requires period { IsWithin 1 MOST_PERIODS period }
    requires eight { length sums.now.by_period ≡ MOST_PERIODS }
    ensures { result ≡ sum_for sums.now period }
{
    sums.by_period[usize::from(period) - 1]
}

/// Counts a row that was added, if it is not reversed. A surrender for a period that there cannot be counts for none.
pub(crate) fn count_row(sums: &mut Sums, row: RetirementRow)
    requires of_kind { sum_at sums.old (retirement_of row.fate) row.kind + 18446744073709551615 < 2 ^ 128 }
    requires of_period { (period : ℕ) → IsWithin 1 MOST_PERIODS period
        → sum_for sums.old period + 18446744073709551615 < 2 ^ 128 }
    requires eight { length sums.old.by_period ≡ MOST_PERIODS }
    ensures limit { row.amount ≤ 18446744073709551615 }
    ensures counted { (way : Way) (kind : AllowanceKind)
        → sum_at sums.new way kind ≡ sum_at sums.old way kind + amount_in way kind row }
    ensures counted_for { (period : ℕ) → IsWithin 1 MOST_PERIODS period
        → sum_for sums.new period ≡ sum_for sums.old period + amount_for period row }
    ensures eight { length sums.new.by_period ≡ MOST_PERIODS }
{
    if row.reversed {
        return;
    }
    let amount = u128::from(row.amount);
    match row.fate {
        Fate::Surrendered { period } => {
            raise_for(&mut sums.by_period, period, amount);
            match row.kind {
                AllowanceKind::General => sums.surrendered_general += amount,
                AllowanceKind::Aviation => sums.surrendered_aviation += amount,
            }
        }
        Fate::Deleted => match row.kind {
            AllowanceKind::General => sums.deleted_general += amount,
            AllowanceKind::Aviation => sums.deleted_aviation += amount,
        },
    }
}

/// Takes a row that is reversed now out of the sums. `row` is as it was before.
pub(crate) fn uncount_row(sums: &mut Sums, row: RetirementRow)
    requires counted { row.reversed ≡ false }
    requires enough { row.amount ≤ sum_at sums.old (retirement_of row.fate) row.kind }
    requires enough_for { (period : ℕ) → IsWithin 1 MOST_PERIODS period
        → amount_for period row ≤ sum_for sums.old period }
    requires eight { length sums.old.by_period ≡ MOST_PERIODS }
    ensures counted { (way : Way) (kind : AllowanceKind)
        → sum_at sums.new way kind + amount_in way kind row ≡ sum_at sums.old way kind }
    ensures counted_for { (period : ℕ) → IsWithin 1 MOST_PERIODS period
        → sum_for sums.new period + amount_for period row ≡ sum_for sums.old period }
    ensures eight { length sums.new.by_period ≡ MOST_PERIODS }
{
    let amount = u128::from(row.amount);
    match row.fate {
        Fate::Surrendered { period } => {
            lower_for(&mut sums.by_period, period, amount);
            match row.kind {
                AllowanceKind::General => sums.surrendered_general -= amount,
                AllowanceKind::Aviation => sums.surrendered_aviation -= amount,
            }
        }
        Fate::Deleted => match row.kind {
            AllowanceKind::General => sums.deleted_general -= amount,
            AllowanceKind::Aviation => sums.deleted_aviation -= amount,
        },
    }
}

// Whether there may be a period of this number.
fn is_period(period: u8) -> bool
    ensures { result ≡ is_period period }
{
    1 <= period && period <= MOST_PERIODS
}

// Raises the sum of this period, if there may be such a period.
fn raise_for(sums: &mut ByPeriod, period: u8, amount: u128)
    requires room { (p : ℕ) → IsWithin 1 MOST_PERIODS p → slice_index sums.old (p - 1) + amount < 2 ^ 128 }
    requires eight { length sums.old ≡ MOST_PERIODS }
    ensures raised { (p : ℕ) → IsWithin 1 MOST_PERIODS p
        → slice_index sums.new (p - 1) ≡ slice_index sums.old (p - 1) + (if p == period then amount else 0) }
    ensures eight { length sums.new ≡ MOST_PERIODS }
{
    if is_period(period) {
        sums[usize::from(period) - 1] += amount;
    }
}

// Lowers the sum of this period, if there may be such a period.
fn lower_for(sums: &mut ByPeriod, period: u8, amount: u128)
    requires enough { (p : ℕ) → IsWithin 1 MOST_PERIODS p
        → (if p == period then amount else 0) ≤ slice_index sums.old (p - 1) }
    requires eight { length sums.old ≡ MOST_PERIODS }
    ensures lowered { (p : ℕ) → IsWithin 1 MOST_PERIODS p
        → slice_index sums.new (p - 1) + (if p == period then amount else 0) ≡ slice_index sums.old (p - 1) }
    ensures eight { length sums.new ≡ MOST_PERIODS }
{
    if is_period(period) {
        sums[usize::from(period) - 1] -= amount;
    }
}
