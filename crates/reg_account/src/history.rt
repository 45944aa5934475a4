//! The history of an account: its correction factors of later periods, its surrenders and deletions, its emissions and
//! its determined figures.

ghost use Rattle.std.specs.Prelude.{◌≡◌, ◌++◌, [], ◌∷◌, false, IfOk, OnOk, OnErr, MatchOption};
ghost use Rattle.reg_base.specs.Rising.{IsRising};
ghost use Rattle.reg_base.specs.declared.limits.TheConstants.{MOST_PERIODS};
ghost use Rattle.reg_base.specs.Numbers.{IsWithin};
ghost use Rattle.reg_account.specs.Rows.{row_numbers, row_in, retired_in, surrendered_in, with_mark};
ghost use Rattle.reg_account.specs.Years.{emission_years, figure_years, with_emission, with_figure};
ghost use Rattle.reg_account.specs.Lists.{HistoryValue, no_history};

use crate::corrections::Correction;
use crate::kept::Kept;
use crate::rows::RetirementRow;
use crate::years::{Emission, Figure};
use reg_base::{AllowanceKind, NoMemory, RecordNo, Retirement};
use std::alloc::Global;
use std::marker::Model;

/// The correction factors of later periods of an account, its surrenders and deletions, its emissions and its
/// determined figures, not yet tested. A contract sees them as plain data. Most accounts have none, so a history of
/// nothing takes no memory.
#[derive(Debug, Drop)]
pub(crate) struct History {
    alloc: Global,
    kept: Option<Box<Kept>>,
}

impl Model for History {
    ghost use Rattle.std.specs.Option.{option_map_or};
    ghost use Rattle.reg_account.specs.Lists.{HistoryValue, no_history};

    ghost Value = { HistoryValue };

    ghost view = { λ l. option_map_or (λ b. b.value) l.kept no_history };
}

impl History {
    /// A history of nothing. Takes no memory.
    pub(crate) fn empty(alloc: Global) -> Self
        ensures { result ≡ no_history }
    {
        History { alloc, kept: None }
    }

    /// The correction factors of later periods.
    pub(crate) fn corrections(&self) -> &[Correction]
        ensures { result.now ≡ self.now.corrections }
    {
        match &self.kept {
            Some(kept) => kept.corrections(),
            None => &[],
        }
    }

    /// The surrenders and deletions.
    pub(crate) fn rows(&self) -> &[RetirementRow]
        ensures { result.now ≡ self.now.rows }
    {
        match &self.kept {
            Some(kept) => kept.rows(),
            None => &[],
        }
    }

    /// The emissions.
    pub(crate) fn emissions(&self) -> &[Emission]
        ensures { result.now ≡ self.now.emissions }
    {
        match &self.kept {
            Some(kept) => kept.emissions(),
            None => &[],
        }
    }

    /// The determined figures.
    pub(crate) fn figures(&self) -> &[Figure]
        ensures { result.now ≡ self.now.figures }
    {
        match &self.kept {
            Some(kept) => kept.figures(),
            None => &[],
        }
    }

    /// Appends the correction factor of a later period.
    ///
    /// # Errors
    /// `NoMemory` if memory ran out. The history is unchanged.
    #[inline(always)]
    pub(crate) fn push_correction(&mut self, correction: Correction) -> Result<(), NoMemory>
        ensures ok { OnOk result
            (self.new ≡ record self.old { corrections = self.old.corrections ++ correction ∷ [] }) }
        ensures err { OnErr result (self.new ≡ self.old) }
    {
        match &mut self.kept {
            Some(kept) => kept.push_correction(correction),
            None => {
                let mut kept = Kept::empty(self.alloc);
                kept.push_correction(correction)?;
                self.kept = Some(Box::new(self.alloc, kept)?);
                Ok(())
            }
        }
    }

    /// Appends a surrender or a deletion.
    ///
    /// # Errors
    /// `NoMemory` if memory ran out. The history is unchanged.
    #[inline(always)]
    pub(crate) fn push_row(&mut self, row: RetirementRow) -> Result<(), NoMemory>
        ensures ok { OnOk result (self.new ≡ record self.old { rows = self.old.rows ++ row ∷ [] }) }
        ensures err { OnErr result (self.new ≡ self.old) }
    {
        match &mut self.kept {
            Some(kept) => kept.push_row(row),
            None => {
                let mut kept = Kept::empty(self.alloc);
                kept.push_row(row)?;
                self.kept = Some(Box::new(self.alloc, kept)?);
                Ok(())
            }
        }
    }

    /// Appends the emissions of a year.
    ///
    /// # Errors
    /// `NoMemory` if memory ran out. The history is unchanged.
    #[inline(always)]
    pub(crate) fn push_emission(&mut self, emission: Emission) -> Result<(), NoMemory>
        ensures ok { OnOk result (self.new ≡ record self.old { emissions = self.old.emissions ++ emission ∷ [] }) }
        ensures err { OnErr result (self.new ≡ self.old) }
    {
        match &mut self.kept {
            Some(kept) => kept.push_emission(emission),
            None => {
                let mut kept = Kept::empty(self.alloc);
                kept.push_emission(emission)?;
                self.kept = Some(Box::new(self.alloc, kept)?);
                Ok(())
            }
        }
    }

    /// Appends the determined figure of a year.
    ///
    /// # Errors
    /// `NoMemory` if memory ran out. The history is unchanged.
    #[inline(always)]
    pub(crate) fn push_figure(&mut self, figure: Figure) -> Result<(), NoMemory>
        ensures ok { OnOk result (self.new ≡ record self.old { figures = self.old.figures ++ figure ∷ [] }) }
        ensures err { OnErr result (self.new ≡ self.old) }
    {
        match &mut self.kept {
            Some(kept) => kept.push_figure(figure),
            None => {
                let mut kept = Kept::empty(self.alloc);
                kept.push_figure(figure)?;
                self.kept = Some(Box::new(self.alloc, kept)?);
                Ok(())
            }
        }
    }

    /// How many allowances of this kind were surrendered (or deleted) and not reversed. Takes no memory and goes
    /// through no list.
    pub(crate) fn sum(&self, way: Retirement, kind: AllowanceKind) -> u128
        ensures { result ≡ retired_in way kind self.now.rows }
    {
        match &self.kept {
            Some(kept) => kept.sum(way, kind),
            None => 0,
        }
    }

    /// How many allowances of both kinds were surrendered for this period, 1 to 8, and not reversed. Takes no memory
    /// and goes through no list.
    pub(crate) fn surrendered_for(&self, period: u8) -> u128
        requires { IsWithin 1 MOST_PERIODS period }
        ensures { result ≡ surrendered_in period self.now.rows }
    {
        match &self.kept {
            Some(kept) => kept.surrendered_for(period),
            None => 0,
        }
    }

    /// Puts these emissions where they belong by year. Earlier ones of that year are replaced.
    ///
    /// # Errors
    /// `NoMemory` if memory ran out. The history is unchanged.
    pub(crate) fn put_emission(&mut self, new: Emission) -> Result<(), NoMemory>
        requires { IsRising (emission_years self.old.emissions) }
        ensures ok { OnOk result (self.new ≡ record self.old { emissions = with_emission new self.old.emissions }) }
        ensures err { OnErr result (self.new ≡ self.old) }
    {
        match &mut self.kept {
            Some(kept) => kept.put_emission(new),
            None => self.push_emission(new),
        }
    }

    /// Puts this determined figure where it belongs by year. An earlier one of that year is replaced.
    ///
    /// # Errors
    /// `NoMemory` if memory ran out. The history is unchanged.
    pub(crate) fn put_figure(&mut self, new: Figure) -> Result<(), NoMemory>
        requires { IsRising (figure_years self.old.figures) }
        ensures ok { OnOk result (self.new ≡ record self.old { figures = with_figure new self.old.figures }) }
        ensures err { OnErr result (self.new ≡ self.old) }
    {
        match &mut self.kept {
            Some(kept) => kept.put_figure(new),
            None => self.push_figure(new),
        }
    }

    /// Marks the row with this number as reversed, and answers it as it was. Takes no memory.
    pub(crate) fn reverse(&mut self, number: RecordNo) -> Option<RetirementRow>
        requires rising { IsRising (row_numbers self.old.rows) }
        requires stands { MatchOption (row_in self.old.rows number) ⊥ (λ row. row.reversed ≡ false) }
        ensures row { result ≡ row_in self.old.rows number }
        ensures marked { self.new ≡ record self.old { rows = with_mark number self.old.rows } }
    {
        match &mut self.kept {
            Some(kept) => kept.reverse(number),
            None => None,
        }
    }

    /// A second history, equal to this one.
    ///
    /// # Errors
    /// `NoMemory` if memory ran out.
    pub(crate) fn copy(&self, alloc: Global) -> Result<History, NoMemory>
        ensures { IfOk result (λ l. l ≡ self.now) }
    {
        let kept = match &self.kept {
            Some(kept) => Some(Box::new(alloc, kept.copy(alloc)?)?),
            None => None,
        };
        Ok(History { alloc, kept })
    }
}
