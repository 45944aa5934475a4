//! Laws of the definitions. Each law is the contract of a function that does nothing. A function whose proof needs a
//! law calls it.

ghost use Rattle.reg_account.specs.Account.{FitAccountsHaveNoFault};
ghost use Rattle.reg_account.specs.Laws.{ChangesKeepLimits, NumberLaws, TrustLaws, YearLaws, FigureLaws};

/// An account within its limits has no fault.
pub fn fit_accounts_have_no_fault()
    ensures { FitAccountsHaveNoFault }
{}

/// Each change keeps an account within its limits.
pub fn changes_keep_limits()
    ensures { ChangesKeepLimits }
{}

/// What each change makes of the number of allowances that an account holds or has surrendered. A surrender and its
/// reversal leave it as it is.
pub fn number_laws()
    ensures { NumberLaws }
{}

/// The trusted account list changes only for the account that is put on it, or taken off it.
pub fn trust_laws()
    ensures { TrustLaws }
{}

/// Emissions and determined figures change only for the year that is set.
pub fn year_laws()
    ensures { YearLaws }
{}

/// A reversal lowers the compliance figure of a year by the amount of its row, if the row counts for this figure.
pub fn figure_laws()
    ensures { FigureLaws }
{}
