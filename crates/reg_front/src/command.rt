//! What to do with a day text.

use reg_base::AccountNo;

/// What [`run`](crate::run) does with the day that it reads.
#[derive(Clone, Copy, Debug, PartialEq, Eq)]
pub enum Command {
    /// Settles the day by workers and writes the report.
    Settle {
        /// The number of workers, 1 to 8. The report does not depend on it.
        workers: u32,
    },
    /// Writes which instructions of the day have to wait for which others. Settles nothing.
    Plan,
    /// Settles the day and writes what an account held before, its log rows, and what it holds after.
    Statement {
        /// The account.
        account: AccountNo,
    },
    /// Settles the day and writes the determined compliance figures of all accounts after it.
    Figures,
    /// Settles the day and writes the totals after it.
    Totals,
}
