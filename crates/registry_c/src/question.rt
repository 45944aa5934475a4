//! What a call asks of a day.

/// What a call asks of the day that it is given.
#[derive(Clone, Copy, Debug, PartialEq, Eq)]
pub enum Question {
    /// The report of the settled day.
    Report,
    /// The log of the settled day alone.
    Log,
    /// Which instructions have to wait for which others. Nothing is settled.
    Plan,
    /// What an account held before the day, its log rows, and what it holds after.
    Statement {
        /// The number of the account, which may be any number.
        account: u32,
    },
    /// The statements of all accounts, one behind another.
    Statements,
    /// The determined compliance figures of all accounts after the day.
    Figures,
    /// The totals after the day.
    Totals,
}
