//! The accounts that each instruction of a batch touches.

ghost use Rattle.std.specs.Prelude.{◌≡◌, ℕ, ◌-◌, ◌<◌, ◌≤◌, [], ◌∷◌, ◌++◌, length, take, drop, slice_index_or, IfOk};
ghost use Rattle.std.specs.Prelude.{OnOk};
ghost use Rattle.reg_plan.specs.Touched.{moved_by};

use crate::arrow::Touch;
use reg_base::{AccountNo, Directory, Instruction, NoMemory};
use std::alloc::Global;
use std::marker::Model;

/// The accounts that each instruction of a batch touches, so that they are looked up in the directory once. They are
/// kept one instruction after another, with the index behind those of each. A contract sees a list of accounts for each
/// instruction.
#[derive(Debug, Drop)]
pub(crate) struct Touched {
    accounts: Vec<AccountNo>,
    ends: Vec<usize>,
}

impl Model for Touched {
    ghost use Rattle.std.specs.Prelude.{ℕ, List};
    ghost use Rattle.reg_plan.specs.Touched.{parts_from, AreFlat};

    ghost Value = { List (List ℕ) };

    ghost view = { λ t. parts_from t.accounts.items 0 t.ends.items };

    ghost invariant = { λ t. AreFlat (parts_from t.accounts.items 0 t.ends.items) t.accounts.items t.ends.items };
}

impl Touched {
    ghost use Rattle.reg_base.specs.Footprints.{footprints};
    ghost use Rattle.reg_plan.specs.Touched.{AreFew};

    /// The accounts that each of these instructions touches.
    ///
    /// # Errors
    /// `NoMemory` if memory ran out.
    pub(crate) fn of(
        alloc: Global,
        directory: &Directory,
        instructions: &[Instruction],
    ) -> Result<Touched, NoMemory>
        ensures value { IfOk result (λ touched. touched ≡ footprints directory.now instructions.now) }
        ensures few { IfOk result (λ touched. AreFew touched) }
    {
        let mut accounts = Vec::new(alloc);
        let mut ends = Vec::with_capacity(alloc, instructions.len())?;
        for instruction in instructions {
            let footprint = instruction.touches(directory);
            accounts.extend_from_slice(footprint.as_slice())?;
            ends.push(accounts.len())?;
        }
        Ok(Touched { accounts, ends })
    }

    /// These, and behind them the accounts of further instructions.
    ///
    /// # Errors
    /// `NoMemory` if memory ran out. All are dropped then.
    pub(crate) fn append(self, more: Touched) -> Result<Touched, NoMemory>
        ensures { IfOk result (λ both. both ≡ self ++ more) }
    {
        let Touched {
            mut accounts,
            mut ends,
        } = self;
        let Touched {
            accounts: mut further,
            ends: places,
        } = more;
        push_moved(&mut ends, accounts.len(), &places)?;
        accounts.append(&mut further)?;
        Ok(Touched { accounts, ends })
    }

    /// The accounts that the instruction at a place touches. The place is counted from 1.
    pub(crate) fn at(&self, place: u32) -> &[AccountNo]
        requires from_one { 1 ≤ place }
        requires within { place ≤ length self.now }
        ensures { result.now ≡ slice_index_or self.now (place - 1) [] }
    {
        let index = place as usize - 1;
        let end = self.ends[index];
        part(&self.accounts, begin_at(&self.ends, index), end)
    }

    /// How many instructions there are.
    pub(crate) fn len(&self) -> usize
        ensures { result ≡ length self.now }
    {
        self.ends.len()
    }

    /// How many accounts there are in all. Nothing is promised of it.
    pub(crate) fn count(&self) -> usize {
        self.accounts.len()
    }

    /// Where the accounts of a place likely begin among all, counted from 0. The place is counted from 1. Nothing is
    /// promised of it.
    pub(crate) fn likely_begin(&self, place: u32) -> usize {
        let index = (place as usize).saturating_sub(1);
        if index < self.ends.len() {
            begin_at(&self.ends, index)
        } else {
            0
        }
    }

    /// Where a touch likely stands among all accounts, counted from 0. Nothing is promised of it.
    pub(crate) fn likely_index(&self, touch: Touch) -> usize {
        let begin = self.likely_begin(touch.place);
        if begin >= self.accounts.len() {
            return begin;
        }
        let own = &self.accounts[begin..];
        let ahead = own.iter().position(|account| *account == touch.account);
        begin.saturating_add(ahead.unwrap_or(0))
    }
}

// Puts the ends of further lists behind these ends, each raised by `later`.
fn push_moved(ends: &mut Vec<usize>, later: usize, places: &[usize]) -> Result<(), NoMemory>
    ensures { OnOk result (ends.new.items ≡ ends.old.items ++ moved_by later places.now) }
{
    for place in places {
        // The sum never overflows: it is at most nine touches for each of 16,384 instructions.
        let Some(moved) = later.checked_add(*place) else {
            return Err(NoMemory);
        };
        ends.push(moved)?;
    }
    Ok(())
}

// The index at which a list begins, which is the one behind the list before it.
fn begin_at(ends: &[usize], index: usize) -> usize
    requires { index < length ends.now }
    ensures { result ≡ slice_index_or (0 ∷ ends.now) index 0 }
{
    if index == 0 {
        return 0;
    }
    ends[index - 1]
}

// The part of a list from one index to another.
fn part(flat: &[AccountNo], begin: usize, end: usize) -> &[AccountNo]
    requires rises { begin ≤ end }
    requires within { end ≤ length flat.now }
    ensures { result.now ≡ take (end - begin) (drop begin flat.now) }
{
    let rest = &flat[begin..];
    &rest[..end - begin]
}
