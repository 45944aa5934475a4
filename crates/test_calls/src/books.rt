//! A book in the making, and a directory.

use crate::call::{Call, rehearse, try_call};
use crate::digest::{Digest, digest_of};
use crate::endings::Ended;
use crate::stop::Stop;
use reg_account::Account;
use reg_base::{Directory, NoMemory};
use reg_book::BookDraft;
use reg_text::DayInput;
use std::alloc::Global;
use std::io::Write;

// `BookDraft::insert` of an account.
#[derive(Drop)]
struct Inserting {
    draft: BookDraft,
    account: Option<Account>,
}

impl Call for Inserting {
    fn make(&mut self, _alloc: Global) -> Ended {
        let Some(account) = self.account.take() else {
            return Ended::Otherwise;
        };
        match self.draft.insert(account) {
            Ok(()) => Ended::Done(digest_of(&self.draft)),
            Err((account, fault)) => {
                self.account = Some(account);
                fault.into()
            }
        }
    }

    fn lent(&self) -> Digest {
        let mut digest = digest_of(&self.draft);
        digest.add(&self.account);
        digest
    }
}

// A copy of an account.
fn copy_of(alloc: Global, account: &Account) -> Result<Account, Stop> {
    match account.copy(alloc) {
        Ok(copy) => Ok(copy),
        Err(NoMemory) => Err(Stop::Short),
    }
}

// A draft of the first accounts of a day, so many.
fn draft_of(alloc: Global, day: &DayInput, count: usize) -> Result<BookDraft, Stop> {
    let mut draft = BookDraft::new(alloc, day.book.next_record());
    for account in day.book.accounts().iter().take(count) {
        if draft.insert(copy_of(alloc, account)?).is_err() {
            return Err(Stop::Short);
        }
    }
    Ok(draft)
}

// A draft of the first accounts of a day, so many, and the account after them.
fn make_inserting(alloc: Global, day: &DayInput, before: usize) -> Result<Inserting, Stop> {
    let Some(account) = day.book.accounts().get(before) else {
        return Err(Stop::Input);
    };
    let draft = draft_of(alloc, day, before)?;
    let account = Some(copy_of(alloc, account)?);
    Ok(Inserting { draft, account })
}

/// Tries `BookDraft::insert` of an account that comes after so many.
pub(crate) fn try_draft<W: Write>(
    alloc: Global,
    day: &DayInput,
    before: usize,
    writer: &mut W,
) -> Result<(), Stop> {
    let wanted = rehearse(alloc, &mut make_inserting(alloc, day, before)?);
    let mut call = make_inserting(alloc, day, before)?;
    try_call(alloc, day, &mut call, wanted, writer)
}

// `Directory::insert` of an account of the book.
#[derive(Drop)]
struct Entering<'d> {
    directory: Directory,
    account: &'d Account,
}

impl Call for Entering<'_> {
    fn make(&mut self, _alloc: Global) -> Ended {
        let account = self.account;
        match self
            .directory
            .insert(account.number(), account.kind(), account.holder())
        {
            Ok(true) => Ended::Done(digest_of(&self.directory)),
            Ok(false) => Ended::Otherwise,
            Err(NoMemory) => Ended::NoMemory,
        }
    }

    fn lent(&self) -> Digest {
        digest_of(&self.directory)
    }
}

// An empty directory, or one that has the second account already, so that the first one comes late.
fn make_entering(alloc: Global, day: &DayInput, is_late: bool) -> Result<Entering<'_>, Stop> {
    let accounts = day.book.accounts();
    let (Some(account), Some(second)) = (accounts.first(), accounts.get(1)) else {
        return Err(Stop::Input);
    };
    let mut directory = Directory::empty(alloc);
    if is_late
        && directory
            .insert(second.number(), second.kind(), second.holder())
            .is_err()
    {
        return Err(Stop::Short);
    }
    Ok(Entering { directory, account })
}

/// Tries `Directory::insert` of the first account, into an empty directory or after the second account.
pub(crate) fn try_directory<W: Write>(
    alloc: Global,
    day: &DayInput,
    is_late: bool,
    writer: &mut W,
) -> Result<(), Stop> {
    let wanted = rehearse(alloc, &mut make_entering(alloc, day, is_late)?);
    let mut call = make_entering(alloc, day, is_late)?;
    try_call(alloc, day, &mut call, wanted, writer)
}
