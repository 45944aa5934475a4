//! The indexes of accounts in a list by rising number.

ghost use Rattle.std.specs.Prelude.{◌≡◌, ◌<◌, ◌≤◌, false, true, None, IfOk, IfSome, MatchOption, length, map};
ghost use Rattle.std.specs.Option.{option_map_or};
ghost use Rattle.std.specs.List.{AllByRecursion, HoldsAt, list_all};
ghost use Rattle.reg_base.specs.declared.limits.TheConstants.{MOST_ACCOUNTS, MOST_TOUCHED};
ghost use Rattle.reg_base.specs.Directory.{is_known};
ghost use Rattle.reg_base.specs.Footprint.{footprint};
ghost use Rattle.reg_base.specs.Rising.{IsRising};
ghost use Rattle.reg_rules.specs.State.{account, numbers};
ghost use Rattle.reg_book.specs.Book.{directory_of};
ghost use Rattle.reg_book.specs.Indexes.{StandAt, AllStandAt, each_at, index_lists};
ghost use Rattle.reg_book.specs.Marks.{ranks_from};

use arrayvec::ArrayVec;
use reg_account::Account;
use reg_base::{AccountNo, Instruction, MOST_TOUCHED, NoMemory, likely_index};
use std::alloc::Global;

/// Indexes of the accounts that one instruction touches, in the order of its footprint, each counted from 0. They are
/// kept for each instruction of a batch, so each takes 32 bits alone: a book has at most 100,000 accounts.
pub type Indexes = ArrayVec<u32, MOST_TOUCHED>;

/// For each instruction the indexes of the accounts that it touches: none if an account that must be known is not in
/// the list. The accounts must stand by rising number, and be at most 100,000. An account is looked up once for each
/// instruction that touches it.
///
/// # Errors
/// `NoMemory` if memory ran out.
pub fn all_indexes(
    alloc: Global,
    accounts: &[Account],
    instructions: &[Instruction],
) -> Result<Vec<Indexes>, NoMemory>
    requires rising { IsRising (numbers accounts.now) }
    requires few { length accounts.now ≤ MOST_ACCOUNTS }
    ensures { IfOk result (λ indexes. AllStandAt (directory_of accounts.now) (numbers accounts.now)
        (index_lists indexes.items) instructions.now) }
{
    let mut indexes = Vec::with_capacity(alloc, instructions.len())?;
    for instruction in instructions {
        indexes.push(indexes_of(accounts, instruction))?;
    }
    Ok(indexes)
}

/// The indexes of the accounts that the instruction touches, in the order of its footprint. There is no index if an
/// account that must be known is not there.
pub(crate) fn indexes_of(accounts: &[Account], instruction: &Instruction) -> Indexes
    requires rising { IsRising (numbers accounts.now) }
    requires few { length accounts.now ≤ MOST_ACCOUNTS }
    ensures { StandAt (numbers accounts.now) result.items (footprint (directory_of accounts.now) instruction.now.act) }
{
    let movement = instruction.act.movement();
    if !is_there(accounts, movement.also_known()) {
        return Indexes::new();
    }
    let parties = movement.parties();
    match find_indexes(accounts, parties.as_slice()) {
        Some(indexes) => indexes,
        None => Indexes::new(),
    }
}

// Whether the account is there, if there is one that has to be.
fn is_there(accounts: &[Account], wanted: Option<AccountNo>) -> bool
    requires { IsRising (numbers accounts.now) }
    ensures { result ≡ option_map_or (is_known (directory_of accounts.now)) wanted true }
{
    match wanted {
        Some(number) => match index_of(accounts, number) {
            Some(_) => true,
            None => false,
        },
        None => true,
    }
}

// The indexes of the accounts with these numbers, or `None` if one of them is not there.
fn find_indexes(accounts: &[Account], wanted: &[AccountNo]) -> Option<Indexes>
    requires rising { IsRising (numbers accounts.now) }
    requires few { length accounts.now ≤ MOST_ACCOUNTS }
    requires few_wanted { length wanted.now ≤ MOST_TOUCHED }
    ensures indexes { IfSome result (λ indexes. StandAt (numbers accounts.now) indexes.items wanted.now) }
    ensures known { MatchOption result
        (list_all (is_known (directory_of accounts.now)) wanted.now ≡ false)
        (λ _. list_all (is_known (directory_of accounts.now)) wanted.now ≡ true) }
{
    let mut indexes = Indexes::new();
    for number in wanted {
        match index_of(accounts, *number) {
            None => return None,
            Some(index) => indexes.push(index as u32),
        }
    }
    Some(indexes)
}

/// The index of the account with this number in a list by rising number, counted from 0, or `None` if it is not there.
/// Takes no memory.
///
/// The time is logarithmic in the accounts, and constant where their numbers rise evenly.
pub fn index_of(accounts: &[Account], number: AccountNo) -> Option<usize>
    requires { IsRising (numbers accounts.now) }
    ensures { MatchOption result (account accounts.now number ≡ None) (HoldsAt (λ v. v.number ≡ number) accounts.now) }
{
    match guess_index(accounts, number) {
        Some(index) => Some(index),
        None => search_index(accounts, number),
    }
}

// The index at which the account stands if the numbers rise evenly from the first account to the last, and if it does
// stand there. One comparison shows it.
fn guess_index(accounts: &[Account], number: AccountNo) -> Option<usize>
    ensures { IfSome result (HoldsAt (λ v. v.number ≡ number) accounts.now) }
{
    let first = accounts.first()?.number();
    let last = accounts.last()?.number();
    let index = likely_index(first, last, accounts.len(), number);
    let account = accounts.get(index)?;
    (account.number() == number).then_some(index)
}

fn search_index(accounts: &[Account], number: AccountNo) -> Option<usize>
    requires { IsRising (numbers accounts.now) }
    ensures { MatchOption result (account accounts.now number ≡ None) (HoldsAt (λ v. v.number ≡ number) accounts.now) }
{
    match accounts.binary_search_by_key(&number, |account| account.number()) {
        Ok(index) => Some(index),
        Err(_) => None,
    }
}

/// For each mark, how many are set before it. This is the index of its account among the marked ones.
pub(crate) fn ranks_of(alloc: Global, marks: &[bool]) -> Result<Vec<u32>, NoMemory>
    requires { length marks.now ≤ MOST_ACCOUNTS }
    ensures { IfOk result (λ ranks. ranks.items ≡ ranks_from 0 marks.now) }
{
    let mut ranks = Vec::with_capacity(alloc, marks.len())?;
    let mut count = 0;
    for mark in marks {
        ranks.push(count)?;
        count += u32::from(*mark);
    }
    Ok(ranks)
}

/// Replaces each index by the rank that stands at it.
pub(crate) fn rank_all(indexes: &mut [Indexes], ranks: &[u32])
    requires { AllByRecursion (AllByRecursion (λ index. index < length ranks.now)) (index_lists indexes.old) }
    ensures { index_lists indexes.new ≡ map (each_at ranks.now) (index_lists indexes.old) }
{
    for own in indexes.iter_mut() {
        *own = ranks_at(own, ranks);
    }
}

// The ranks at these indexes.
fn ranks_at(indexes: &Indexes, ranks: &[u32]) -> Indexes
    requires { AllByRecursion (λ index. index < length ranks.now) indexes.now.items }
    ensures { result.items ≡ each_at ranks.now indexes.now.items }
{
    let mut own = Indexes::new();
    for index in indexes.as_slice() {
        own.push(ranks[*index as usize]);
    }
    own
}
