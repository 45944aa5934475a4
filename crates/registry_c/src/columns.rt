//! The columns of the rows of a day text: what stands in each, and how docs/FORMATS.md calls it.

ghost use Rattle.std.specs.Prelude.{◌≡◌};
ghost use Rattle.registry_c.specs.Columns.{column_name, column_number, column_with, columns, wanted_in};

use crate::wanted::Wanted;

/// What stands in a field of a row.
#[derive(Clone, Copy, Debug, PartialEq, Eq)]
pub enum Column {
    /// The tag, in front of each row.
    Tag,
    /// `format`: the version of the format.
    Version,
    /// `day`, `work`, `trusted` and `retired`: a day.
    Date,
    /// `day`: the next record number.
    NextRecord,
    /// `period`: its first year.
    FirstYear,
    /// `period`: its last year.
    LastYear,
    /// `current`: the current period.
    CurrentPeriod,
    /// `lags`: the lag of transfers to trusted accounts.
    TrustedLag,
    /// `lags`: the lag of other transfers.
    OtherLag,
    /// `lags`: the lag of an addition to a trusted list.
    ListLag,
    /// `lags`: the window of reversals.
    ReversalWindow,
    /// `surrender`: the kind of an account that may surrender.
    SurrenderingKind,
    /// A kind of allowances.
    AllowanceKind,
    /// `admin` and `user`: a user.
    User,
    /// `account` and `trusted`: an account.
    AccountNumber,
    /// `account`: its kind.
    AccountKind,
    /// `account`: its holder.
    Holder,
    /// `account`, and a change of a status: a status.
    Status,
    /// `account`: whether it allows transfers outside its trusted list.
    Outside,
    /// `account`: whether a transfer to a trusted account needs no approval.
    Waiver,
    /// `account`: its correction factor of period 1.
    FirstFactor,
    /// `account`: its general allowances.
    HeldGeneral,
    /// `account`: its aviation allowances.
    HeldAviation,
    /// `correction` and `retired`: a period after the first.
    LaterPeriod,
    /// `correction`: the factor of a period after the first.
    LaterFactor,
    /// `user`: the right of a representative.
    Right,
    /// `retired`, and a reversal: a record number.
    RecordNumber,
    /// `retired`: whether it is a surrender or a deletion.
    Retirement,
    /// `retired`: how many allowances.
    RetiredAmount,
    /// `retired`: whether it was reversed.
    Reversed,
    /// A year.
    Year,
    /// `emissions`: those of a year.
    Tonnes,
    /// `figure`: a determined figure.
    Figure,
    /// `do`: the day on which it was proposed.
    Proposed,
    /// `do`: who proposed it.
    Proposer,
    /// `do`: who approved it.
    Approver,
    /// `do`: the act.
    Act,
    /// `do`: the account that gives.
    From,
    /// `do`: the account that receives.
    To,
    /// `do`: how many allowances.
    Amount,
    /// `do`: the account that the act changes.
    Account,
    /// `do`: the account that a trusted list names.
    OtherAccount,
    /// `do`: the emissions that are entered.
    EnteredTonnes,
}

// The table of columns: of each its number, its name in docs/FORMATS.md, and what is wanted in it. `columns!` hands
// all of them to the macro that is named first.
macro_rules! columns {
    ($make:ident $($of:tt)?) => {
        $make! { [$($of)?]
            Tag 1 "tag" Tag,
            Version 2 "VERSION" Version,
            Date 3 "DATE" Date,
            NextRecord 4 "NEXT" NextRecord,
            FirstYear 5 "FIRST" Year,
            LastYear 6 "LAST" Year,
            CurrentPeriod 7 "PERIOD" Period,
            TrustedLag 8 "TRUSTED" Lag,
            OtherLag 9 "OTHER" Lag,
            ListLag 10 "LIST" Lag,
            ReversalWindow 11 "REVERSAL" Lag,
            SurrenderingKind 12 "ACCOUNTKIND" SurrenderingKind,
            AllowanceKind 13 "KIND" AllowanceKind,
            User 14 "USER" Number,
            AccountNumber 15 "NO" Number,
            AccountKind 16 "KIND" AccountKind,
            Holder 17 "HOLDER" Number,
            Status 18 "STATUS" Status,
            Outside 19 "OUTSIDE" YesOrNo,
            Waiver 20 "WAIVER" YesOrNo,
            FirstFactor 21 "CORRECTION" Factor,
            HeldGeneral 22 "GENERAL" Holding,
            HeldAviation 23 "AVIATION" Holding,
            LaterPeriod 24 "PERIOD" LaterPeriod,
            LaterFactor 25 "FACTOR" LaterFactor,
            Right 26 "RIGHT" Right,
            RecordNumber 27 "NUMBER" Record,
            Retirement 28 "WHAT" Retirement,
            RetiredAmount 29 "AMOUNT" RetiredAmount,
            Reversed 30 "REVERSED" YesOrNo,
            Year 31 "YEAR" Year,
            Tonnes 32 "TONNES" Tonnes,
            Figure 33 "FIGURE" Figure,
            Proposed 34 "PROPOSED" Date,
            Proposer 35 "PROPOSER" Number,
            Approver 36 "APPROVER" Approver,
            Act 37 "ACT" Act,
            From 38 "FROM" Number,
            To 39 "TO" Number,
            Amount 40 "AMOUNT" AnyNumber,
            Account 41 "ACCOUNT" Number,
            OtherAccount 42 "OTHER" Number,
            EnteredTonnes 43 "TONNES" AnyNumber,
        }
    };
}

macro_rules! numbers {
    ([$of:tt] $($column:ident $number:literal $name:literal $wanted:ident,)*) => {
        match $of {
            $(Column::$column => $number,)*
        }
    };
}

macro_rules! names {
    ([$of:tt] $($column:ident $number:literal $name:literal $wanted:ident,)*) => {
        match $of {
            $(Column::$column => $name,)*
        }
    };
}

macro_rules! wants {
    ([$of:tt] $($column:ident $number:literal $name:literal $wanted:ident,)*) => {
        match $of {
            $(Column::$column => Wanted::$wanted,)*
        }
    };
}

macro_rules! list {
    ([] $($column:ident $number:literal $name:literal $wanted:ident,)*) => {
        [$(Column::$column),*]
    };
}

// All columns, in the order of their numbers.
const COLUMNS: [Column; 43] = columns!(list);

impl Column {
    /// The number of the column, from 1 on.
    pub(crate) fn number(self) -> u32
        ensures { result ≡ column_number self }
    {
        columns!(numbers self)
    }

    /// Its name in docs/FORMATS.md.
    pub(crate) fn name(self) -> &'static str
        ensures { result.now ≡ column_name self }
    {
        columns!(names self)
    }

    /// What is wanted in it.
    pub(crate) fn wanted(self) -> Wanted
        ensures { result ≡ wanted_in self }
    {
        columns!(wants self)
    }
}

/// The column with this number, if there is one.
pub(crate) fn column_with(number: u32) -> Option<Column>
    ensures { result ≡ column_with number }
{
    COLUMNS
        .iter()
        .copied()
        .find(|column| column.number() == number)
}
