//! Accounts that come by rising number, on their way into a book.

ghost use Rattle.std.specs.Prelude.{◌≡◌, ◌<◌, ◌∷◌, ◌++◌, [], OnOk, OnErr, vec_len, vec_capacity};
ghost use Rattle.reg_facts.specs.Lists.{joined_lists};

use reg_account::Account;
use reg_base::{AccountKind, AccountNo, HolderNo, NoMemory};
use std::alloc::Global;
use std::marker::Model;
use std::mem;

/// Accounts one behind the other, and what the directory of their book will say of each. A contract sees the list of
/// the accounts. They lie in one list or more, and are never moved from one to another.
#[derive(Debug, Drop)]
pub struct ListedAccounts {
    // The lists before the last one.
    before: Vec<Vec<Account>>,
    // The list into which accounts are put.
    last: Vec<Account>,
    entries: Vec<(AccountNo, (AccountKind, HolderNo))>,
    // With so many accounts in the last list, a new one is begun, unless there are `most` lists before the last.
    size: usize,
    // The most lists before the last one.
    most: usize,
}

impl Model for ListedAccounts {
    ghost use Rattle.std.specs.Prelude.{◌≡◌, ◌++◌, List, map};
    ghost use Rattle.reg_account.specs.Account.{AccountValue};
    ghost use Rattle.reg_book.specs.Book.{entry_of};
    ghost use Rattle.reg_facts.specs.Lists.{joined_lists};

    ghost Value = { List AccountValue };

    ghost view = { λ l. joined_lists l.before.items ++ l.last.items };

    ghost invariant = { λ l. l.entries.items ≡ map entry_of (joined_lists l.before.items ++ l.last.items) };
}

impl ListedAccounts {
    ghost use Rattle.std.specs.Prelude.{map, IfOk, IfErr};
    ghost use Rattle.reg_book.specs.Book.{entry_of};

    /// No accounts. Those that are put into it will lie in one list. Takes no memory.
    pub fn empty(alloc: Global) -> Self
        ensures { result ≡ [] }
    {
        ListedAccounts::in_lists(alloc, 0, 0)
    }

    /// No accounts. Those that are put into it will lie in lists of `size` accounts, at most `most` of them, and all
    /// further ones in one list behind these. Takes no memory: each list gets room for `size` accounts, and an eighth
    /// more, with its first account, if there is memory.
    pub fn in_lists(alloc: Global, size: usize, most: usize) -> Self
        ensures { result ≡ [] }
    {
        ListedAccounts {
            before: Vec::new(alloc),
            last: Vec::new(alloc),
            entries: Vec::new(alloc),
            size,
            most,
        }
    }

    /// Puts an account behind the others. Nothing is compared.
    ///
    /// # Errors
    /// `NoMemory` if memory ran out. The list is unchanged, and the account is given up.
    pub fn push_last(&mut self, account: Account) -> Result<(), NoMemory>
        ensures ok { OnOk result (self.new ≡ self.old ++ account ∷ []) }
        ensures err { OnErr result (self.new ≡ self.old) }
    {
        if self.last.len() >= self.size && self.before.len() < self.most {
            begin_list(&mut self.before, &mut self.last)?;
        }
        if self.entries.is_empty() {
            let all = self.size.saturating_mul(self.most.saturating_add(1));
            expect(&mut self.entries, all);
        }
        make_room(&mut self.last, self.size)?;
        self.entries
            .push((account.number(), (account.kind(), account.holder())))?;
        self.last.push(account).unwrap();
        Ok(())
    }

    /// Puts the accounts of another list behind these: their lists are moved, and nothing in them is looked at. If
    /// there are no accounts here, the other list is taken as it is. Where room has to be made for what the directory
    /// will say, it is made for `awaited` accounts more, if these are more than come now.
    ///
    /// # Errors
    /// `NoMemory` if memory ran out. The list is unchanged, and the other one is given up.
    pub fn append(&mut self, others: ListedAccounts, awaited: usize) -> Result<(), NoMemory>
        ensures ok { OnOk result (self.new ≡ self.old ++ others) }
        ensures err { OnErr result (self.new ≡ self.old) }
    {
        if self.entries.is_empty() {
            *self = others;
            return Ok(());
        }
        let ListedAccounts {
            before,
            last,
            mut entries,
            ..
        } = others;
        self.entries.reserve(awaited.max(entries.len()))?;
        append_lists(&mut self.before, &mut self.last, before, last)?;
        self.entries.append(&mut entries).unwrap();
        Ok(())
    }

    /// The lists of the accounts, and what the directory will say of each account.
    ///
    /// # Errors
    /// The accounts as they were, with `NoMemory`, if memory ran out.
    pub(crate) fn into_lists(
        self,
    ) -> Result<(Vec<Vec<Account>>, Vec<(AccountNo, (AccountKind, HolderNo))>), (Self, NoMemory)>
        ensures accounts { IfOk result (λ parts. joined_lists parts.0.items ≡ self) }
        ensures entries { IfOk result (λ parts. parts.1.items ≡ map entry_of self) }
        ensures back { IfErr result (λ e. e.0 ≡ self) }
    {
        let ListedAccounts {
            mut before,
            mut last,
            entries,
            size,
            most,
        } = self;
        match begin_list(&mut before, &mut last) {
            Ok(()) => Ok((before, entries)),
            Err(none) => {
                let listed = ListedAccounts {
                    before,
                    last,
                    entries,
                    size,
                    most,
                };
                Err((listed, none))
            }
        }
    }
}

// Makes room for so many values and an eighth more, if there is memory.
fn expect<T>(list: &mut Vec<T>, count: usize)
    ensures { list.new.items ≡ list.old.items }
{
    let _ = list.reserve_exact(count.saturating_add(count / 8));
}

// Makes room for one account more. The first one of a list gets it with so many others, if there is memory.
fn make_room(list: &mut Vec<Account>, size: usize) -> Result<(), NoMemory>
    ensures same { list.new.items ≡ list.old.items }
    ensures room { OnOk result (vec_len list.new < vec_capacity list.new) }
{
    if list.is_empty() {
        expect(list, size);
    }
    list.reserve(1)?;
    Ok(())
}

// Puts the last list behind those before it, and begins an empty one. Whatever comes of it, the accounts stay.
fn begin_list(before: &mut Vec<Vec<Account>>, last: &mut Vec<Account>) -> Result<(), NoMemory>
    ensures same { joined_lists before.new.items ++ last.new.items ≡ joined_lists before.old.items ++ last.old.items }
    ensures empty { OnOk result (last.new.items ≡ []) }
{
    before.reserve(1)?;
    let alloc = *last.allocator();
    before.push(mem::replace(last, Vec::new(alloc))).unwrap();
    Ok(())
}

// Puts other lists behind these.
fn append_lists(
    before: &mut Vec<Vec<Account>>,
    last: &mut Vec<Account>,
    others: Vec<Vec<Account>>,
    last_of_others: Vec<Account>,
) -> Result<(), NoMemory>
    ensures ok { OnOk result (joined_lists before.new.items ++ last.new.items
        ≡ (joined_lists before.old.items ++ last.old.items) ++ (joined_lists others.items ++ last_of_others.items)) }
    ensures err { OnErr result
        (joined_lists before.new.items ++ last.new.items ≡ joined_lists before.old.items ++ last.old.items) }
{
    begin_list(before, last)?;
    let mut others = others;
    before.append(&mut others)?;
    *last = last_of_others;
    Ok(())
}
