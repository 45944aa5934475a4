//! The history of an account that has some, with the sums over its rows.

ghost use Rattle.std.specs.Prelude.{◌≡◌, ◌++◌, [], ◌∷◌, false, IfOk, OnOk, OnErr, MatchOption};
ghost use Rattle.reg_base.specs.Rising.{IsRising};
ghost use Rattle.reg_base.specs.declared.limits.TheConstants.{MOST_PERIODS};
ghost use Rattle.reg_base.specs.Numbers.{IsWithin};
ghost use Rattle.reg_account.specs.Rows.{row_numbers, row_in, retired_in, surrendered_in, with_mark};
ghost use Rattle.reg_account.specs.Years.{emission_years, figure_years, with_emission, with_figure};
ghost use Rattle.reg_account.specs.Lists.{HistoryValue, no_history};

use crate::corrections::Correction;
use crate::rows::{RetirementRow, copy_rows, index_of, mark_reversed};
use crate::sums::{Sums, count_row, get_sum, get_sum_for, uncount_row};
use crate::years::{Emission, Figure, put_emission, put_figure};
use reg_base::{AllowanceKind, NoMemory, RecordNo, Retirement};
use std::alloc::Global;
use std::marker::Model;

/// A history, and the sums over the rows.
#[derive(Debug, Drop)]
pub(crate) struct Kept {
    corrections: Vec<Correction>,
    rows: Vec<RetirementRow>,
    emissions: Vec<Emission>,
    figures: Vec<Figure>,
    // The sums over the rows that were not reversed.
    sums: Sums,
}

impl Model for Kept {
    ghost use Rattle.reg_account.specs.Lists.{HistoryValue};
    ghost use Rattle.reg_account.specs.Sums.{SumsAgree};

    ghost Value = { HistoryValue };

    ghost view = { λ k. record {
      corrections = k.corrections.items;
      rows = k.rows.items;
      emissions = k.emissions.items;
      figures = k.figures.items;
    } };

    ghost invariant = { λ k. SumsAgree k.sums k.rows.items };
}

impl Kept {
    pub(crate) fn empty(alloc: Global) -> Self
        ensures { result ≡ no_history }
    {
        Kept {
            corrections: Vec::new(alloc),
            rows: Vec::new(alloc),
            emissions: Vec::new(alloc),
            figures: Vec::new(alloc),
            sums: Sums::NONE,
        }
    }

    pub(crate) fn corrections(&self) -> &[Correction]
        ensures { result.now ≡ self.now.corrections }
    {
        &self.corrections
    }

    pub(crate) fn rows(&self) -> &[RetirementRow]
        ensures { result.now ≡ self.now.rows }
    {
        &self.rows
    }

    pub(crate) fn emissions(&self) -> &[Emission]
        ensures { result.now ≡ self.now.emissions }
    {
        &self.emissions
    }

    pub(crate) fn figures(&self) -> &[Figure]
        ensures { result.now ≡ self.now.figures }
    {
        &self.figures
    }

    pub(crate) fn sum(&self, way: Retirement, kind: AllowanceKind) -> u128
        ensures { result ≡ retired_in way kind self.now.rows }
    {
        get_sum(&self.sums, way, kind)
    }

    pub(crate) fn surrendered_for(&self, period: u8) -> u128
        requires { IsWithin 1 MOST_PERIODS period }
        ensures { result ≡ surrendered_in period self.now.rows }
    {
        get_sum_for(&self.sums, period)
    }

    #[inline(always)]
    pub(crate) fn push_correction(&mut self, correction: Correction) -> Result<(), NoMemory>
        ensures ok { OnOk result
            (self.new ≡ record self.old { corrections = self.old.corrections ++ correction ∷ [] }) }
        ensures err { OnErr result (self.new ≡ self.old) }
    {
        self.corrections.push(correction)?;
        Ok(())
    }

    #[inline(always)]
    pub(crate) fn push_row(&mut self, row: RetirementRow) -> Result<(), NoMemory>
        ensures ok { OnOk result (self.new ≡ record self.old { rows = self.old.rows ++ row ∷ [] }) }
        ensures err { OnErr result (self.new ≡ self.old) }
    {
        let added = row;
        self.rows.push(added)?;
        count_row(&mut self.sums, row);
        Ok(())
    }

    #[inline(always)]
    pub(crate) fn push_emission(&mut self, emission: Emission) -> Result<(), NoMemory>
        ensures ok { OnOk result (self.new ≡ record self.old { emissions = self.old.emissions ++ emission ∷ [] }) }
        ensures err { OnErr result (self.new ≡ self.old) }
    {
        self.emissions.push(emission)?;
        Ok(())
    }

    #[inline(always)]
    pub(crate) fn push_figure(&mut self, figure: Figure) -> Result<(), NoMemory>
        ensures ok { OnOk result (self.new ≡ record self.old { figures = self.old.figures ++ figure ∷ [] }) }
        ensures err { OnErr result (self.new ≡ self.old) }
    {
        self.figures.push(figure)?;
        Ok(())
    }

    pub(crate) fn put_emission(&mut self, new: Emission) -> Result<(), NoMemory>
        requires { IsRising (emission_years self.old.emissions) }
        ensures ok { OnOk result (self.new ≡ record self.old { emissions = with_emission new self.old.emissions }) }
        ensures err { OnErr result (self.new ≡ self.old) }
    {
        put_emission(&mut self.emissions, new)
    }

    pub(crate) fn put_figure(&mut self, new: Figure) -> Result<(), NoMemory>
        requires { IsRising (figure_years self.old.figures) }
        ensures ok { OnOk result (self.new ≡ record self.old { figures = with_figure new self.old.figures }) }
        ensures err { OnErr result (self.new ≡ self.old) }
    {
        put_figure(&mut self.figures, new)
    }

    /// Marks the row with this number as reversed, and answers it as it was.
    pub(crate) fn reverse(&mut self, number: RecordNo) -> Option<RetirementRow>
        requires rising { IsRising (row_numbers self.old.rows) }
        requires stands { MatchOption (row_in self.old.rows number) ⊥ (λ row. row.reversed ≡ false) }
        ensures row { result ≡ row_in self.old.rows number }
        ensures marked { self.new ≡ record self.old { rows = with_mark number self.old.rows } }
    {
        match index_of(&self.rows, number) {
            Some(index) => {
                let row = mark_reversed(&mut self.rows, index);
                let reversed = row;
                uncount_row(&mut self.sums, reversed);
                Some(row)
            }
            None => None,
        }
    }

    /// A second history, equal to this one, with room for some rows more.
    pub(crate) fn copy(&self, alloc: Global) -> Result<Kept, NoMemory>
        ensures { IfOk result (λ k. k ≡ self.now) }
    {
        Ok(Kept {
            corrections: self.corrections.clone()?,
            rows: copy_rows(alloc, &self.rows)?,
            emissions: self.emissions.clone()?,
            figures: self.figures.clone()?,
            sums: self.sums,
        })
    }
}
