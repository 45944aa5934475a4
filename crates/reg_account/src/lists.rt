//! The lists of an account: its representatives, its trusted account list, and those of its history.

ghost use Rattle.std.specs.Prelude.{◌≡◌, ◌++◌, [], ◌∷◌, false, IfOk, OnOk, OnErr, MatchOption};
ghost use Rattle.reg_base.specs.Rising.{IsRising};
ghost use Rattle.reg_account.specs.Trusted.{trusted_numbers, with_entry, without_entry};
ghost use Rattle.reg_base.specs.declared.limits.TheConstants.{MOST_PERIODS};
ghost use Rattle.reg_base.specs.Numbers.{IsWithin};
ghost use Rattle.reg_account.specs.Rows.{row_numbers, row_in, retired_in, surrendered_in, with_mark};
ghost use Rattle.reg_account.specs.Years.{emission_years, figure_years, with_emission, with_figure};
ghost use Rattle.reg_account.specs.Lists.{ListsValue, no_lists};

use crate::corrections::Correction;
use crate::history::History;
use crate::rows::RetirementRow;
use crate::trusted::{Entries, TrustedEntry, put_entry, remove_entry};
use crate::users::Representative;
use crate::years::{Emission, Figure};
use reg_base::{AccountNo, AllowanceKind, NoMemory, RecordNo, Retirement};
use smallvec::SmallVec;
use std::alloc::Global;
use std::marker::Model;

/// Representatives. Most accounts have two to four, so four take no allocation of their own.
type Users = SmallVec<Representative, 4>;

/// What lists have, if one of them has something.
#[derive(Debug, Drop)]
struct Filled {
    users: Users,
    trusted: Entries,
    history: History,
}

/// The lists of an account, not yet tested: its correction factors of later periods, its representatives, its trusted
/// account list, its surrenders and deletions, its emissions and its determined figures. A contract sees them as plain
/// data. Lists to which nothing was ever added take no memory.
#[derive(Debug, Drop)]
pub struct Lists {
    alloc: Global,
    // One allocation has what most accounts have. A history is rarer and larger: it is behind another.
    filled: Option<Box<Filled>>,
}

impl Model for Lists {
    ghost use Rattle.std.specs.Option.{option_map_or};
    ghost use Rattle.reg_account.specs.Lists.{ListsValue, no_lists, lists_made};

    ghost Value = { ListsValue };

    ghost view = { λ l. option_map_or
        (λ b. lists_made b.value.users.items b.value.trusted.items b.value.history) l.filled no_lists };
}

impl Lists {
    /// Lists without anything. Takes no memory.
    pub fn empty(alloc: Global) -> Self
        ensures { result ≡ no_lists }
    {
        Lists {
            alloc,
            filled: None,
        }
    }

    /// The correction factors of later periods.
    pub fn corrections(&self) -> &[Correction]
        ensures { result.now ≡ self.now.corrections }
    {
        match &self.filled {
            Some(filled) => filled.history.corrections(),
            None => &[],
        }
    }

    /// The representatives.
    pub fn users(&self) -> &[Representative]
        ensures { result.now ≡ self.now.users }
    {
        match &self.filled {
            Some(filled) => filled.users.as_slice(),
            None => &[],
        }
    }

    /// The trusted account list.
    pub fn trusted(&self) -> &[TrustedEntry]
        ensures { result.now ≡ self.now.trusted }
    {
        match &self.filled {
            Some(filled) => filled.trusted.as_slice(),
            None => &[],
        }
    }

    /// The surrenders and deletions.
    pub fn rows(&self) -> &[RetirementRow]
        ensures { result.now ≡ self.now.rows }
    {
        match &self.filled {
            Some(filled) => filled.history.rows(),
            None => &[],
        }
    }

    /// The emissions.
    pub fn emissions(&self) -> &[Emission]
        ensures { result.now ≡ self.now.emissions }
    {
        match &self.filled {
            Some(filled) => filled.history.emissions(),
            None => &[],
        }
    }

    /// The determined figures.
    pub fn figures(&self) -> &[Figure]
        ensures { result.now ≡ self.now.figures }
    {
        match &self.filled {
            Some(filled) => filled.history.figures(),
            None => &[],
        }
    }

    /// Appends the correction factor of a later period.
    ///
    /// # Errors
    /// `NoMemory` if memory ran out. The lists are unchanged.
    #[inline(always)]
    pub fn push_correction(&mut self, correction: Correction) -> Result<(), NoMemory>
        ensures ok { OnOk result
            (self.new ≡ record self.old { corrections = self.old.corrections ++ correction ∷ [] }) }
        ensures err { OnErr result (self.new ≡ self.old) }
    {
        match &mut self.filled {
            Some(filled) => filled.history.push_correction(correction),
            None => {
                let mut filled = Filled::empty(self.alloc);
                filled.history.push_correction(correction)?;
                self.filled = Some(Box::new(self.alloc, filled)?);
                Ok(())
            }
        }
    }

    /// Appends a representative.
    ///
    /// # Errors
    /// `NoMemory` if memory ran out. The lists are unchanged.
    #[inline(always)]
    pub fn push_user(&mut self, user: Representative) -> Result<(), NoMemory>
        ensures ok { OnOk result (self.new ≡ record self.old { users = self.old.users ++ user ∷ [] }) }
        ensures err { OnErr result (self.new ≡ self.old) }
    {
        match &mut self.filled {
            Some(filled) => filled.users.push(user)?,
            None => {
                let mut filled = Filled::empty(self.alloc);
                filled.users.push(user)?;
                self.filled = Some(Box::new(self.alloc, filled)?);
            }
        }
        Ok(())
    }

    /// Appends an entry of the trusted account list.
    ///
    /// # Errors
    /// `NoMemory` if memory ran out. The lists are unchanged.
    #[inline(always)]
    pub fn push_trusted(&mut self, entry: TrustedEntry) -> Result<(), NoMemory>
        ensures ok { OnOk result (self.new ≡ record self.old { trusted = self.old.trusted ++ entry ∷ [] }) }
        ensures err { OnErr result (self.new ≡ self.old) }
    {
        match &mut self.filled {
            Some(filled) => filled.trusted.push(entry)?,
            None => {
                let mut filled = Filled::empty(self.alloc);
                filled.trusted.push(entry)?;
                self.filled = Some(Box::new(self.alloc, filled)?);
            }
        }
        Ok(())
    }

    /// Appends a surrender or a deletion.
    ///
    /// # Errors
    /// `NoMemory` if memory ran out. The lists are unchanged.
    #[inline(always)]
    pub fn push_row(&mut self, row: RetirementRow) -> Result<(), NoMemory>
        ensures ok { OnOk result (self.new ≡ record self.old { rows = self.old.rows ++ row ∷ [] }) }
        ensures err { OnErr result (self.new ≡ self.old) }
    {
        match &mut self.filled {
            Some(filled) => filled.history.push_row(row),
            None => {
                let mut filled = Filled::empty(self.alloc);
                filled.history.push_row(row)?;
                self.filled = Some(Box::new(self.alloc, filled)?);
                Ok(())
            }
        }
    }

    /// Appends the emissions of a year.
    ///
    /// # Errors
    /// `NoMemory` if memory ran out. The lists are unchanged.
    #[inline(always)]
    pub fn push_emission(&mut self, emission: Emission) -> Result<(), NoMemory>
        ensures ok { OnOk result (self.new ≡ record self.old { emissions = self.old.emissions ++ emission ∷ [] }) }
        ensures err { OnErr result (self.new ≡ self.old) }
    {
        match &mut self.filled {
            Some(filled) => filled.history.push_emission(emission),
            None => {
                let mut filled = Filled::empty(self.alloc);
                filled.history.push_emission(emission)?;
                self.filled = Some(Box::new(self.alloc, filled)?);
                Ok(())
            }
        }
    }

    /// Appends the determined figure of a year.
    ///
    /// # Errors
    /// `NoMemory` if memory ran out. The lists are unchanged.
    #[inline(always)]
    pub fn push_figure(&mut self, figure: Figure) -> Result<(), NoMemory>
        ensures ok { OnOk result (self.new ≡ record self.old { figures = self.old.figures ++ figure ∷ [] }) }
        ensures err { OnErr result (self.new ≡ self.old) }
    {
        match &mut self.filled {
            Some(filled) => filled.history.push_figure(figure),
            None => {
                let mut filled = Filled::empty(self.alloc);
                filled.history.push_figure(figure)?;
                self.filled = Some(Box::new(self.alloc, filled)?);
                Ok(())
            }
        }
    }

    /// The lists as they are; nothing is left in them. Takes no memory.
    pub fn take(&mut self) -> Lists
        ensures taken { result ≡ self.old }
        ensures empty { self.new ≡ no_lists }
    {
        Lists {
            alloc: self.alloc,
            filled: self.filled.take(),
        }
    }

    /// How many allowances of this kind were surrendered (or deleted) and not reversed. Takes no memory and goes
    /// through no list.
    pub fn sum(&self, way: Retirement, kind: AllowanceKind) -> u128
        ensures { result ≡ retired_in way kind self.now.rows }
    {
        match &self.filled {
            Some(filled) => filled.history.sum(way, kind),
            None => 0,
        }
    }

    /// How many allowances of both kinds were surrendered for this period, 1 to 8, and not reversed. Takes no memory
    /// and goes through no list.
    pub fn surrendered_for(&self, period: u8) -> u128
        requires { IsWithin 1 MOST_PERIODS period }
        ensures { result ≡ surrendered_in period self.now.rows }
    {
        match &self.filled {
            Some(filled) => filled.history.surrendered_for(period),
            None => 0,
        }
    }

    /// Puts this entry where it belongs by account number. An earlier one of that account is replaced.
    ///
    /// # Errors
    /// `NoMemory` if memory ran out. The lists are unchanged.
    pub(crate) fn put_trusted(&mut self, new: TrustedEntry) -> Result<(), NoMemory>
        requires { IsRising (trusted_numbers self.old.trusted) }
        ensures ok { OnOk result (self.new ≡ record self.old { trusted = with_entry new self.old.trusted }) }
        ensures err { OnErr result (self.new ≡ self.old) }
    {
        match &mut self.filled {
            Some(filled) => put_entry(&mut filled.trusted, new),
            None => self.push_trusted(new),
        }
    }

    /// Takes the entry of this account off the trusted account list, if there is one. Takes no memory.
    pub(crate) fn remove_trusted(&mut self, account: AccountNo)
        requires { IsRising (trusted_numbers self.old.trusted) }
        ensures { self.new ≡ record self.old { trusted = without_entry account self.old.trusted } }
    {
        if let Some(filled) = &mut self.filled {
            remove_entry(&mut filled.trusted, account);
        }
    }

    /// Puts these emissions where they belong by year. Earlier ones of that year are replaced.
    ///
    /// # Errors
    /// `NoMemory` if memory ran out. The lists are unchanged.
    pub(crate) fn put_emission(&mut self, new: Emission) -> Result<(), NoMemory>
        requires { IsRising (emission_years self.old.emissions) }
        ensures ok { OnOk result (self.new ≡ record self.old { emissions = with_emission new self.old.emissions }) }
        ensures err { OnErr result (self.new ≡ self.old) }
    {
        match &mut self.filled {
            Some(filled) => filled.history.put_emission(new),
            None => self.push_emission(new),
        }
    }

    /// Puts this determined figure where it belongs by year. An earlier one of that year is replaced.
    ///
    /// # Errors
    /// `NoMemory` if memory ran out. The lists are unchanged.
    pub(crate) fn put_figure(&mut self, new: Figure) -> Result<(), NoMemory>
        requires { IsRising (figure_years self.old.figures) }
        ensures ok { OnOk result (self.new ≡ record self.old { figures = with_figure new self.old.figures }) }
        ensures err { OnErr result (self.new ≡ self.old) }
    {
        match &mut self.filled {
            Some(filled) => filled.history.put_figure(new),
            None => self.push_figure(new),
        }
    }

    /// Marks the row with this number as reversed, and answers it as it was. Takes no memory.
    pub(crate) fn reverse(&mut self, number: RecordNo) -> Option<RetirementRow>
        requires rising { IsRising (row_numbers self.old.rows) }
        requires stands { MatchOption (row_in self.old.rows number) ⊥ (λ row. row.reversed ≡ false) }
        ensures row { result ≡ row_in self.old.rows number }
        ensures marked { self.new ≡ record self.old { rows = with_mark number self.old.rows } }
    {
        match &mut self.filled {
            Some(filled) => filled.history.reverse(number),
            None => None,
        }
    }

    /// Equal lists.
    ///
    /// # Errors
    /// `NoMemory` if memory ran out.
    pub(crate) fn copy(&self, alloc: Global) -> Result<Lists, NoMemory>
        ensures { IfOk result (λ l. l ≡ self.now) }
    {
        let filled = match &self.filled {
            Some(filled) => Some(Box::new(alloc, filled.copy(alloc)?)?),
            None => None,
        };
        Ok(Lists { alloc, filled })
    }
}

impl Filled {
    ghost use Rattle.reg_account.specs.Lists.{no_history};

    fn empty(alloc: Global) -> Self
        ensures users { result.users.items ≡ [] }
        ensures trusted { result.trusted.items ≡ [] }
        ensures history { result.history ≡ no_history }
    {
        Filled {
            users: SmallVec::new(alloc),
            trusted: SmallVec::new(alloc),
            history: History::empty(alloc),
        }
    }

    fn copy(&self, alloc: Global) -> Result<Filled, NoMemory>
        ensures users { IfOk result (λ f. f.users.items ≡ self.now.users.items) }
        ensures trusted { IfOk result (λ f. f.trusted.items ≡ self.now.trusted.items) }
        ensures history { IfOk result (λ f. f.history ≡ self.now.history) }
    {
        Ok(Filled {
            users: SmallVec::from_slice(alloc, self.users.as_slice())?,
            trusted: SmallVec::from_slice(alloc, self.trusted.as_slice())?,
            history: self.history.copy(alloc)?,
        })
    }
}
