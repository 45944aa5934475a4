//! Laws of every step. Each law is the contract of a function that does nothing. A function whose proof needs a law
//! calls it.

ghost use Rattle.reg_rules.specs.ActLaws.{ActLaws};
ghost use Rattle.reg_rules.specs.Checks.{LatestIsOfTheLatestYear};
ghost use Rattle.reg_rules.specs.Closed.{ClosedIsNeverLeftInStep, ClosedStaysInStep, NothingIsDoneOnClosed};
ghost use Rattle.reg_rules.specs.Conservation.{StepConserves};
ghost use Rattle.reg_rules.specs.Laws.{StepLaws};

use reg_account::laws::{changes_keep_limits, number_laws, trust_laws, year_laws};

/// The laws of every step, whatever its act. The accounts that an instruction touches decide its refusal, its reply
/// and the new value of each account. An account that it does not touch stays as it is. No account is added, removed
/// or moved. None changes its kind, holder, switches, correction factors or representatives, and each stays within
/// its limits. A refused instruction changes nothing. Two states are equal if they have the same numbers, each once,
/// and the same account at each of them.
pub fn step_laws()
    ensures { StepLaws }
{
    changes_keep_limits();
}

/// What each act does, entry by entry: what becomes of holdings, surrenders, deletions, emissions, determined figures,
/// trusted lists and statuses, and that all else stays.
pub fn act_laws()
    ensures { ActLaws }
{
    year_laws();
    trust_laws();
}

/// An accepted instruction changes the number of allowances only by what it creates, deletes and brings back. A
/// surrender and its reversal leave the number as it is.
pub fn step_conserves()
    ensures { StepConserves }
{
    number_laws();
}

/// An accepted instruction touches no closed account. So a closed account stays closed, and it keeps what it holds, its
/// lists and everything else.
pub fn step_keeps_closed()
    ensures nothing_done { NothingIsDoneOnClosed }
    ensures value { ClosedStaysInStep }
    ensures status { ClosedIsNeverLeftInStep }
{}

/// Check 22 finds the latest year of the period that has a determined figure, since an account's figures rise by year.
pub fn latest_is_of_the_latest_year()
    ensures { LatestIsOfTheLatestYear }
{}
