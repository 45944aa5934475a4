//! What is true of a day's instructions one after another. Each law is the contract of a function that does nothing. A
//! function whose proof needs a law calls it.

ghost use Rattle.reg_book.specs.Conservation.{FoldConserves};
ghost use Rattle.reg_book.specs.Chains.{IsChain, IsChainByHand, ChainLeavesABook, ChainKeepsAccounts, ChainLaws};
ghost use Rattle.reg_book.specs.Laws.{EachIsAStep, LogIsMadeAgain, NumbersStay, UntouchedStay, ValueIsLastTouchers};
ghost use Rattle.reg_book.specs.Laws.{ClosedStays, ClosedIsNeverLeft, StaysReady, SettledAreTouched};
ghost use Rattle.reg_book.specs.Laws.{CommittedIsClosing, ClosingIsABook, SettledIsInOrder, SettledIsOfBook};

use reg_rules::{step_conserves, step_keeps_closed, step_laws};

/// Each instruction is carried out on what the ones before it left.
pub fn each_is_a_step()
    ensures { EachIsAStep }
{}

/// The batch of a day has all of its log but the replies.
pub fn log_is_made_again()
    ensures { LogIsMadeAgain }
{}

/// No account is added, removed or moved. One that no instruction touches stays as it is.
pub fn untouched_stay()
    ensures accounts { UntouchedStay }
    ensures numbers { NumbersStay }
{
    step_laws();
}

/// Each touched account ends with the value that the last instruction touching it gave it.
pub fn value_is_last_touchers()
    ensures { ValueIsLastTouchers }
{
    step_laws();
}

/// An account that is closed stays closed for the rest of the day, and it keeps what it holds, its lists and everything
/// else.
pub fn fold_keeps_closed()
    ensures value { ClosedStays }
    ensures status { ClosedIsNeverLeft }
{
    step_keeps_closed();
}

/// Throughout a day the accounts stay within their limits, and surrenders and deletions have numbers below that of the
/// next instruction.
pub fn stays_ready()
    ensures { StaysReady }
{
    step_laws();
}

/// A settled day has the accounts that an instruction touched as the last one left them. If it is committed, the book
/// holds what all instructions leave one after another.
pub fn settled_is_closing()
    ensures settled { SettledAreTouched }
    ensures committed { CommittedIsClosing }
{
    step_laws();
}

/// The state after all instructions of a day, with the directory that the book had before it, is a book again. Its next
/// record number has risen by the number of instructions.
pub fn closing_is_a_book()
    ensures { ClosingIsABook }
{
    step_laws();
}

/// A settled day stands in order, and may be committed to its book.
pub fn settled_is_of_book()
    ensures in_order { SettledIsInOrder }
    ensures of_book { SettledIsOfBook }
{
    step_laws();
}

/// Over a day the number of allowances of a kind that all accounts hold or have surrendered changes only by accepted
/// creations, deletions and reversals of deletions. A surrender and its reversal leave it as it is.
pub fn fold_conserves()
    ensures { FoldConserves }
{
    step_laws();
    step_conserves();
}

/// Days one after another, each with the book that the day before left: the record numbers of all days go on without a
/// gap, an account that was closed stays as it was on all later days, and over all days the number of allowances of a
/// kind changes only by accepted creations, deletions and reversals of deletions. The same is true if each book is
/// changed by hand before its day, as far as such a change leaves the next record number, closed accounts and the
/// number of allowances. Without changes by hand no account is added, removed or moved, and each day leaves a book
/// again.
pub fn every_chain()
    ensures books { ChainLeavesABook }
    ensures accounts { ChainKeepsAccounts }
    ensures plain { ChainLaws IsChain }
    ensures by_hand { ChainLaws IsChainByHand }
{
    stays_ready();
    untouched_stay();
    settled_is_of_book();
    settled_is_closing();
    fold_keeps_closed();
    fold_conserves();
}
