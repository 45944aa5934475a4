//! One instruction on all accounts of a book.

ghost use Rattle.std.specs.Prelude.{◌≡◌, ◌≤◌, All, IfOk, OnErr, None, length};
ghost use Rattle.reg_base.specs.declared.limits.TheConstants.{MOST_ACCOUNTS};
ghost use Rattle.reg_base.specs.Rising.{IsRising};
ghost use Rattle.reg_rules.specs.Checks.{refusal};
ghost use Rattle.reg_rules.specs.Effect.{IsBehind};
ghost use Rattle.reg_rules.specs.State.{numbers};
ghost use Rattle.reg_rules.specs.Step.{step};
ghost use Rattle.reg_book.specs.Book.{directory_of};

use crate::indexes::indexes_of;
use reg_account::Account;
use reg_base::{Instruction, NoMemory, RecordNo};
use reg_rules::{Reply, Setting, execute_at, step_laws};
use std::alloc::Global;
use thiserror::Error;

/// Why an instruction was not applied.
#[derive(Clone, Copy, Debug, PartialEq, Eq, Error)]
pub enum ApplyFault {
    /// The book has no record number left: its last record is number 10^15.
    #[error("no record number is left")]
    NumbersSpent,
    /// Memory ran out.
    #[error("out of memory")]
    NoMemory,
}

/// Carries the instruction out on all accounts of a book, which stand by rising number, or refuses it. A refused
/// instruction takes no memory.
///
/// # Errors
/// `NoMemory` if memory ran out. The accounts stay as they were.
pub(crate) fn carry_out(
    alloc: Global,
    setting: &Setting,
    number: RecordNo,
    instruction: &Instruction,
    accounts: &mut Vec<Account>,
) -> Result<Reply, NoMemory>
    requires rising { IsRising (numbers accounts.old.items) }
    requires few { length accounts.old.items ≤ MOST_ACCOUNTS }
    requires behind { All (IsBehind number) accounts.old.items }
    requires listed { setting.now.directory ≡ directory_of accounts.old.items }
    ensures ok { IfOk result
        (λ reply. (accounts.new.items, reply) ≡ step setting.now accounts.old.items number instruction.now) }
    ensures err { OnErr result
        ((accounts.new.items ≡ accounts.old.items)
        × (refusal setting.now accounts.old.items instruction.now ≡ None)) }
{
    step_laws();
    let own = indexes_of(accounts, instruction);
    let movement = instruction.act.movement();
    execute_at(
        alloc,
        setting,
        &movement,
        number,
        instruction,
        accounts,
        own.as_slice(),
    )
}
