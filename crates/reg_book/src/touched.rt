//! The accounts that a batch touches.

ghost use Rattle.std.specs.Prelude.{◌≡◌, ◌<◌, ◌≤◌, IfOk, length};
ghost use Rattle.std.specs.List.{AllByRecursion};
ghost use Rattle.reg_base.specs.declared.limits.TheConstants.{MOST_ACCOUNTS};
ghost use Rattle.reg_base.specs.Rising.{IsRising};
ghost use Rattle.reg_rules.specs.State.{numbers};
ghost use Rattle.reg_book.specs.Book.{directory_of};
ghost use Rattle.reg_book.specs.Fold.{touched_of};
ghost use Rattle.reg_book.specs.Indexes.{AllStandAt, index_lists};
ghost use Rattle.reg_book.specs.Marks.{marked_at, all_marked_at, picked};

use crate::indexes::{Indexes, all_indexes, rank_all, ranks_of};
use reg_account::Account;
use reg_base::{Instruction, NoMemory};
use std::alloc::Global;

/// The accounts that a batch touches: copies of them in their order, and the indexes of those of each instruction.
pub(crate) struct Touched {
    /// Copies of the accounts, in their order.
    pub accounts: Vec<Account>,
    /// For each instruction the indexes of its accounts among the copies.
    pub indexes: Vec<Indexes>,
}

/// Finds the accounts that some instruction touches, and copies each of them once. An account is looked up once for
/// each instruction that touches it.
///
/// # Errors
/// `NoMemory` if memory ran out.
pub(crate) fn find_touched(
    alloc: Global,
    accounts: &[Account],
    instructions: &[Instruction],
) -> Result<Touched, NoMemory>
    requires rising { IsRising (numbers accounts.now) }
    requires few { length accounts.now ≤ MOST_ACCOUNTS }
    ensures accounts { IfOk result
        (λ t. t.accounts.items ≡ touched_of (directory_of accounts.now) instructions.now accounts.now) }
    ensures indexes { IfOk result
        (λ t. AllStandAt (directory_of accounts.now) (numbers t.accounts.items)
        (index_lists t.indexes.items) instructions.now) }
{
    let mut indexes = all_indexes(alloc, accounts, instructions)?;
    let mut marks = vec![in alloc; false; accounts.len()]?;
    mark_all(&mut marks, &indexes);
    // A copy stands at the rank of its account.
    let ranks = ranks_of(alloc, &marks)?;
    rank_all(&mut indexes, &ranks);
    let accounts = copy_marked(alloc, accounts, &marks)?;
    Ok(Touched { accounts, indexes })
}

// Sets the marks at all these indexes.
fn mark_all(marks: &mut [bool], indexes: &[Indexes])
    requires { AllByRecursion (AllByRecursion (λ index. index < length marks.old)) (index_lists indexes.now) }
    ensures marks { marks.new ≡ all_marked_at marks.old (index_lists indexes.now) }
    ensures size { length marks.new ≡ length marks.old }
{
    for own in indexes {
        mark(marks, own);
    }
}

// Sets the marks at these indexes.
fn mark(marks: &mut [bool], indexes: &Indexes)
    requires { AllByRecursion (λ index. index < length marks.old) indexes.now.items }
    ensures marks { marks.new ≡ marked_at marks.old indexes.now.items }
    ensures size { length marks.new ≡ length marks.old }
{
    for index in indexes.as_slice() {
        marks[*index as usize] = true;
    }
}

// Copies of the marked accounts, in the same order.
fn copy_marked(
    alloc: Global,
    accounts: &[Account],
    marks: &[bool],
) -> Result<Vec<Account>, NoMemory>
    requires { length marks.now ≡ length accounts.now }
    ensures { IfOk result (λ copies. copies.items ≡ picked marks.now accounts.now) }
{
    let count = marks.iter().filter(|mark| **mark).count();
    let mut copies = Vec::with_capacity(alloc, count)?;
    for (index, account) in accounts.iter().enumerate() {
        if marks[index] {
            copies.push(account.copy(alloc)?)?;
        }
    }
    Ok(copies)
}
