//! Gathering the settled day from the outcomes of all instructions.

ghost use Rattle.std.specs.Prelude.{◌≡◌, ◌≢◌, ℕ, ◌+◌, ◌^◌, ◌<◌, ◌≤◌, ◌↔◌, false, Some, None, length, IfOk, IfErr};
ghost use Rattle.std.specs.Prelude.{IfSome, IsTrue, MatchOption, IsPermutation};
ghost use Rattle.std.specs.List.{AllByRecursion};
ghost use Rattle.std.specs.List.Sorted.{IsNonDecreasingBy};
ghost use Rattle.std.specs.FinMap as fin;
ghost use Rattle.reg_base.specs.Rising.{is_rising_from};
ghost use Rattle.reg_rules.specs.State.{numbers};
ghost use Rattle.reg_base.specs.declared.limits.TheConstants.{MOST_RECORD};
ghost use Rattle.reg_book.specs.Settled.{IsOfBook};
ghost use Rattle.reg_book.specs.Day.{DayValue, log_of, settled_day};
ghost use Rattle.reg_tasks.specs.Contexts.{the_day};
ghost use Rattle.reg_tasks.specs.Parcels.{names_of, values_of};
ghost use Rattle.reg_tasks.specs.Gathering.{AreRows, AreFirstRows, AreClosing, AreNotAll, IsGathered, IsCommittable};
ghost use Rattle.reg_tasks.specs.Gathering.{IsWhole, are_counted, are_outcomes, have_accounts, places_of};
ghost use Rattle.reg_tasks.specs.Gathering.{replies_by_number, replies_from};
ghost use Rattle.reg_tasks.specs.LastParcels.{parcels_in};
ghost use Rattle.reg_tasks.specs.Slots.{LacksFor, opened_accounts};
ghost use Rattle.reg_schedules.specs.Schedules.{AreLastValues};

use crate::collect::{are_outcomes, have_accounts, into_rows, sort_done, sort_parcels};
use crate::context::Context;
use crate::done::Done;
use crate::lack::Lack;
use crate::last_parcel::LastParcel;
use crate::naming::Naming;
use crate::parcel::Parcel;
use reg_account::Account;
use reg_base::laws::last_toucher_is_last;
use reg_base::{Directory, NoMemory};
use reg_book::{
    Settled, has_row_ahead, settled_is_closing, settled_is_of_book, value_is_last_touchers,
};
use reg_plan::laws::tails_are_last_touchers;
use reg_rules::LogRow;
use std::alloc::Global;

// Whether the directory has the account with its kind and its holder.
fn is_listed(directory: &Directory, account: &Account) -> bool
    ensures { IsTrue result ↔ (fin.get directory.now account.now.number ≡ Some (account.now.kind, account.now.holder)) }
{
    match directory.find(account.number()) {
        Some((kind, holder)) => kind == account.kind() && holder == account.holder(),
        None => false,
    }
}

// Whether an account of a settled day may be committed to the book of this directory, which goes on with this record
// number.
fn is_committable(directory: &Directory, next: u64, account: &Account) -> bool
    ensures { IsTrue result ↔ IsCommittable directory.now next account.now }
{
    is_listed(directory, account) && !has_row_ahead(next, account)
}

fn are_committable(directory: &Directory, next: u64, accounts: &[Account]) -> bool
    ensures { IsTrue result ↔ AllByRecursion (IsCommittable directory.now next) accounts.now }
{
    for account in accounts {
        if !is_committable(directory, next, account) {
            return false;
        }
    }
    true
}

// Whether the rows have the record numbers from this one on.
fn are_counted(first: u64, rows: &[LogRow]) -> bool
    requires { first + length rows.now ≤ MOST_RECORD + 1 }
    ensures { result ≡ are_counted first rows.now }
{
    let mut next = first;
    for row in rows {
        if row.number.get() != next {
            return false;
        }
        next += 1;
    }
    true
}

// Whether the accounts stand by rising number.
fn are_rising(accounts: &[Account]) -> bool
    ensures { result ≡ is_rising_from 0 (numbers accounts.now) }
{
    let mut least = 0;
    for account in accounts {
        let number = account.number().get();
        if number < least {
            return false;
        }
        least = number + 1;
    }
    true
}

// Whether rows and accounts, each in order, make a settled day of the context's batch that may be committed to its
// book.
fn are_whole<N: Naming>(context: &Context<N>, rows: &[LogRow], accounts: &[Account]) -> bool
    ensures { IsTrue result ↔ IsWhole context.now.book.now context.now.batch.now rows.now accounts.now }
{
    let batch = context.batch();
    let book = context.book();
    let count = batch.len();
    let next = batch.base() + u64::from(count) + 1;
    if rows.len() != count as usize {
        return false;
    }
    if !are_counted(batch.base() + 1, rows) {
        return false;
    }
    if !are_rising(accounts) {
        return false;
    }
    are_committable(book.directory(), next, accounts)
}

// The accounts of last parcels, in their order.
fn values<N: Naming>(alloc: Global, parcels: Vec<LastParcel<N>>) -> Result<Vec<Account>, NoMemory>
    ensures { IfOk result (λ accounts. accounts.items ≡ values_of (parcels_in parcels.items)) }
{
    let mut accounts = Vec::with_capacity(alloc, parcels.len())?;
    for parcel in parcels {
        accounts.push(parcel.into_value())?;
    }
    Ok(accounts)
}

// Sorts accounts by number, in place.
fn sort_accounts(accounts: &mut [Account])
    ensures same { IsPermutation accounts.old accounts.new }
    ensures sorted { IsNonDecreasingBy (λ account. account.number) accounts.new }
{
    accounts.sort_unstable_by_key(|account| account.number());
}

// The settled day of these rows and accounts, each in order, if they make one. If a day is named, they do.
fn settle<N: Naming>(
    context: &Context<N>,
    rows: Vec<LogRow>,
    accounts: Vec<Account>,
) -> Option<Settled>
    requires gathered { IsGathered N.day rows.items accounts.items }
    ensures settled { MatchOption result (N.day ≡ None) (λ s. IfSome N.day (λ d. s ≡ settled_day d)) }
    ensures of_book { IfSome result (λ s. IsOfBook context.now.book.now s) }
{
    context.is_day();
    settled_is_closing();
    settled_is_of_book();
    if !are_whole(context, &rows, &accounts) {
        return None;
    }
    Some(Settled::of(context.batch().base(), rows, accounts))
}

/// The settled day of its log and last parcels by rising account, if these are those of all touched accounts.
pub(crate) fn settle_log<N: Naming>(
    alloc: Global,
    context: &Context<N>,
    log: Vec<LogRow>,
    parcels: Vec<LastParcel<N>>,
) -> Result<Settled, Lack>
    requires log { AreFirstRows N.day (length context.now.batch.now.instructions) log.items }
    ensures settled { IfOk result (λ s. IfSome N.day (λ d. s ≡ settled_day d)) }
    ensures of_book { IfOk result (λ s. IsOfBook context.now.book.now s) }
    ensures lack { IfErr result
        (LacksFor ((d : DayValue) → N.day ≡ Some d
        → have_accounts (opened_accounts context.now.plan.openings) (names_of (parcels_in parcels.items)) ≡ false)) }
{
    context.is_day();
    value_is_last_touchers();
    last_toucher_is_last();
    tails_are_last_touchers();
    settled_is_closing();
    settled_is_of_book();
    if !have_accounts(context, &parcels) {
        return Err(Lack::Foreign);
    }
    let closing = values(alloc, parcels)?;
    settle(context, log, closing).ok_or(Lack::Foreign)
}

// The settled day of replies by rising place and last parcels by rising account, if they are those of all places and of
// all touched accounts.
fn settle_sorted<N: Naming>(
    alloc: Global,
    context: &Context<N>,
    rows: Vec<Done<N>>,
    parcels: Vec<LastParcel<N>>,
) -> Result<Settled, Lack>
    ensures settled { IfOk result (λ s. IfSome N.day (λ d. s ≡ settled_day d)) }
    ensures of_book { IfOk result (λ s. IsOfBook context.now.book.now s) }
    ensures lack { IfErr result (LacksFor ((d : DayValue) → N.day ≡ Some d
        → are_outcomes (the_day context.now) (opened_accounts context.now.plan.openings)
        (places_of rows.items) (names_of (parcels_in parcels.items)) ≡ false)) }
{
    context.is_day();
    value_is_last_touchers();
    last_toucher_is_last();
    tails_are_last_touchers();
    settled_is_closing();
    settled_is_of_book();
    if !are_outcomes(context, &rows, &parcels) {
        return Err(Lack::Foreign);
    }
    let log = into_rows(alloc, context, rows)?;
    let accounts = values(alloc, parcels)?;
    settle(context, log, accounts).ok_or(Lack::Foreign)
}

// The place of the instruction of a row, by its record number.
fn place_of<N: Naming>(context: &Context<N>, row: &LogRow) -> Option<u32>
    ensures { MatchOption result
        ((place : ℕ) → place < 2 ^ 32 → place + context.now.batch.now.base ≢ row.now.number)
        (λ place. place + context.now.batch.now.base ≡ row.now.number) }
{
    let place = row.number.get().checked_sub(context.batch().base())?;
    u32::try_from(place).ok()
}

// The replies in rows, with the places of the rows. `NoMemory` also if a row has a record number of no place.
fn with_places<N: Naming>(
    alloc: Global,
    context: &Context<N>,
    rows: Vec<LogRow>,
) -> Result<Vec<Done<N>>, NoMemory>
    requires rows { AreRows N.day rows.items }
    ensures rows { IfOk result
        (λ done. replies_from context.now.batch.now.base done.items ≡ replies_by_number rows.items) }
{
    context.is_day();
    let mut done = Vec::with_capacity(alloc, rows.len())?;
    for row in rows {
        let Some(place) = place_of(context, &row) else {
            return Err(NoMemory);
        };
        done.push_reserved(Done::new(place, row));
    }
    Ok(done)
}

// The parcels as last ones, in their order. `NoMemory` also if one of them is no last one.
fn last_parcels<N: Naming>(
    alloc: Global,
    context: &Context<N>,
    parcels: Vec<Parcel<N>>,
) -> Result<Vec<LastParcel<N>>, NoMemory>
    ensures { IfOk result (λ lasts. parcels_in lasts.items ≡ parcels.items) }
{
    let mut lasts = Vec::with_capacity(alloc, parcels.len())?;
    for parcel in parcels {
        let Ok(last) = context.last_parcel(parcel) else {
            return Err(NoMemory);
        };
        lasts.push(last)?;
    }
    Ok(lasts)
}

impl<N: Naming> Context<'_, N> {
    /// The settled day, from its log in the order of the batch, and the touched accounts as the last instruction left
    /// them, in any order. Takes no memory.
    pub fn settle_day(&self, log: Vec<LogRow>, mut accounts: Vec<Account>) -> Settled
        requires log { log.items ≡ log_of (the_day self.now) }
        requires accounts { AreLastValues (the_day self.now) accounts.items }
        ensures settled { result ≡ settled_day (the_day self.now) }
        ensures of_book { IsOfBook self.now.book.now result }
    {
        self.is_day();
        settled_is_closing();
        settled_is_of_book();
        sort_accounts(&mut accounts);
        Settled::of(self.batch().base(), log, accounts)
    }

    /// The settled day, from what is kept of each instruction that was run and the last parcels, both in any order.
    /// What they are is known by their types; that none is missing and none stands twice is tested.
    ///
    /// The time is linear in the replies and the parcels, sorting and look-ups apart.
    ///
    /// # Errors
    /// `Memory` if memory ran out. `Foreign` if there is not exactly one reply for each place, or not exactly one last
    /// parcel for each touched account. If no day is named, also if they are of another context.
    pub fn gather_done(
        &self,
        alloc: Global,
        mut rows: Vec<Done<N>>,
        mut parcels: Vec<LastParcel<N>>,
    ) -> Result<Settled, Lack>
        ensures settled { IfOk result (λ s. IfSome N.day (λ d. s ≡ settled_day d)) }
        ensures of_book { IfOk result (λ s. IsOfBook self.now.book.now s) }
        ensures lack { IfErr result (LacksFor (AreNotAll N.day (places_of rows.items)
            (names_of (parcels_in parcels.items)))) }
    {
        last_toucher_is_last();
        tails_are_last_touchers();
        sort_done(&mut rows);
        sort_parcels(&mut parcels);
        settle_sorted(alloc, self, rows, parcels)
    }

    /// The settled day, from the row of each instruction and the parcel of each touched account after its last
    /// instruction, both in any order. If a day is named, they must be those of this day.
    ///
    /// The time is linear in the rows and the parcels, sorting and look-ups apart.
    ///
    /// # Errors
    /// `NoMemory` if memory ran out. If no day is named, also if the rows and the parcels are not those.
    pub fn gather(
        &self,
        alloc: Global,
        rows: Vec<LogRow>,
        parcels: Vec<Parcel<N>>,
    ) -> Result<Settled, NoMemory>
        requires rows { AreRows N.day rows.items }
        requires parcels { AreClosing N.day (names_of parcels.items) }
        ensures settled { IfOk result (λ s. IfSome N.day (λ d. s ≡ settled_day d)) }
        ensures of_book { IfOk result (λ s. IsOfBook self.now.book.now s) }
    {
        let done = with_places(alloc, self, rows)?;
        let lasts = last_parcels(alloc, self, parcels)?;
        self.gather_done(alloc, done, lasts).or(Err(NoMemory))
    }
}
