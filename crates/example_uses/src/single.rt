//! A use of `reg_book` for one instruction at a time.

ghost use Rattle.std.specs.Prelude.{◌≡◌, ◌+◌, IfOk, IfErr, OnOk, OnErr};
ghost use Rattle.reg_rules.specs.Checks.{refusal};
ghost use Rattle.reg_book.specs.Single.{setting_on, IsApplyFault};

use reg_base::{Day, Instruction, Refusal, Rules};
use reg_book::{ApplyFault, Book};
use std::alloc::Global;

/// Settles one instruction, and answers the check that refused it, or `None` if it was carried out. In both cases
/// one record number is used up.
///
/// # Errors
/// As [`Book::apply`]. The book stays as it is.
pub fn settle_one(
    alloc: Global,
    book: &mut Book,
    rules: &Rules,
    day: Day,
    instruction: &Instruction,
) -> Result<Option<Refusal>, ApplyFault>
    ensures refused { IfOk result
        (λ found. found ≡ refusal (setting_on book.old rules.now day) book.old.accounts instruction.now) }
    ensures next { OnOk result (book.new.next ≡ book.old.next + 1) }
    ensures fault { IfErr result (IsApplyFault book.old rules.now day instruction.now) }
    ensures unchanged { OnErr result (book.new ≡ book.old) }
{
    let row = book.apply(alloc, rules, day, instruction)?;
    Ok(row.reply.refusal())
}
