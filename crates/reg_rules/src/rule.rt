//! The table of acts of docs/RULES.md: what each act asks of its accounts, who proposes and approves it, and how long
//! it waits.

ghost use Rattle.std.specs.Prelude.{◌≡◌};
ghost use Rattle.reg_rules.specs.ActRules.{act_row, rule_of, is_holder_kind, is_operator_kind, is_allocation_kind};
ghost use Rattle.reg_rules.specs.ActRules.{is_total_kind, is_central_kind, may_go_central, fits_first, fits_receiver};
ghost use Rattle.reg_rules.specs.ActRules.{is_opened, is_opened_or_blocked, is_not_closed, fits_source};
ghost use Rattle.reg_rules.specs.ActRules.{fits_first_receiver};

use reg_base::{AccountKind, Act, Status};

/// Between which kinds of accounts an act may be, or of which kind its only account may be.
#[derive(Clone, Copy, Debug, PartialEq, Eq)]
pub enum KindRule {
    /// From a holder's account to a holder's account.
    HolderToHolder,
    /// From an operator's or aircraft operator's account to an allocation account.
    OperatorToAllocation,
    /// From an allocation account to operators' or aircraft operators' accounts.
    AllocationToOperator,
    /// From the total quantity account to an allocation account, or from an allocation account back, or to an
    /// operator's or aircraft operator's account.
    Central,
    /// A holder's account.
    OfHolder,
    /// An operator's or aircraft operator's account.
    OfOperator,
    /// The total quantity account.
    OfTotal,
}

/// The status that an act needs of its first account.
#[derive(Clone, Copy, Debug, PartialEq, Eq)]
pub enum StatusRule {
    /// Opened.
    IsOpened,
    /// Opened or blocked.
    OpenedOrBlocked,
    /// Any except closed.
    NotClosed,
    /// Any except closed, since the first account receives: this is asked when the receivers are asked.
    AsReceiver,
}

/// Who proposes and approves an act.
#[derive(Clone, Copy, Debug, PartialEq, Eq)]
pub enum Who {
    /// Authorised representatives of the first account.
    Representatives,
    /// Administrators.
    Administrators,
}

/// What a user does for an instruction.
#[derive(Clone, Copy, Debug, PartialEq, Eq)]
pub enum Role {
    /// Proposes it.
    Proposer,
    /// Approves it.
    Approver,
}

/// The lag between the day of the proposal and the due day. Where trust decides on the lag, it decides also whether the
/// act needs an approval, and whether it is refused as not trusted.
#[derive(Clone, Copy, Debug, PartialEq, Eq)]
pub enum LagRule {
    /// The lag of transfers: one if the account that receives is trusted on the settlement day, another if it is not.
    /// If it is trusted, the act needs no approval from an account with the waiver. If it is not, the act is refused
    /// for an account that allows no transfers outside its trusted account list.
    ByTrust,
    /// 0 working days: the due day is the first working day on or after the day of the proposal.
    NoLag,
}

/// A row of the table of acts.
#[derive(Clone, Copy, Debug, PartialEq, Eq)]
pub struct ActRule {
    /// Between which kinds of accounts.
    pub kinds: KindRule,
    /// The status that the first account needs.
    pub status: StatusRule,
    /// Who proposes and approves.
    pub who: Who,
    /// The lag.
    pub lag: LagRule,
}

fn row(kinds: KindRule, status: StatusRule, who: Who, lag: LagRule) -> ActRule
    ensures { result ≡ act_row kinds status who lag }
{
    ActRule {
        kinds,
        status,
        who,
        lag,
    }
}

/// The row of an act.
pub(crate) fn rule_of(act: &Act) -> ActRule
    ensures { result ≡ rule_of act.now }
{
    use KindRule::*;
    use LagRule::*;
    use StatusRule::*;
    use Who::*;
    match *act {
        Act::Transfer { .. } => row(HolderToHolder, IsOpened, Representatives, ByTrust),
        Act::Surrender { .. } => row(OfOperator, NotClosed, Representatives, NoLag),
        Act::Delete { .. } => row(OfHolder, IsOpened, Representatives, NoLag),
        Act::ReturnExcess { .. } => row(OperatorToAllocation, NotClosed, Representatives, NoLag),
        Act::Reverse { .. } => row(OfHolder, NotClosed, Administrators, NoLag),
        Act::Create { .. } => row(OfTotal, AsReceiver, Administrators, NoLag),
        Act::CentralMove { .. } => row(Central, NotClosed, Administrators, NoLag),
        Act::Distribute { .. } => row(AllocationToOperator, NotClosed, Administrators, NoLag),
        Act::Trust { .. } | Act::Untrust { .. } => row(OfHolder, NotClosed, Representatives, NoLag),
        Act::SetStatus { .. } => row(OfHolder, NotClosed, Administrators, NoLag),
        Act::EnterEmissions { .. } => row(OfOperator, NotClosed, Administrators, NoLag),
        Act::Assess { .. } => row(OfOperator, OpenedOrBlocked, Administrators, NoLag),
    }
}

/// Whether the first account may be of this kind.
pub(crate) fn fits_first(rule: KindRule, kind: AccountKind) -> bool
    ensures { result ≡ fits_first rule kind }
{
    match rule {
        KindRule::HolderToHolder | KindRule::OfHolder => is_holder_kind(kind),
        KindRule::OperatorToAllocation | KindRule::OfOperator => is_operator_kind(kind),
        KindRule::AllocationToOperator => is_allocation_kind(kind),
        KindRule::Central => is_central_kind(kind),
        KindRule::OfTotal => is_total_kind(kind),
    }
}

/// Whether an account that receives may be of this kind if the first account is of the kind `first`.
pub(crate) fn fits_receiver(rule: KindRule, first: AccountKind, kind: AccountKind) -> bool
    ensures { result ≡ fits_receiver rule first kind }
{
    match rule {
        KindRule::HolderToHolder => is_holder_kind(kind),
        KindRule::OperatorToAllocation => is_allocation_kind(kind),
        KindRule::AllocationToOperator => is_operator_kind(kind),
        KindRule::Central => may_go_central(first, kind),
        KindRule::OfHolder | KindRule::OfOperator | KindRule::OfTotal => false,
    }
}

fn is_holder_kind(kind: AccountKind) -> bool
    ensures { result ≡ is_holder_kind kind }
{
    match kind {
        AccountKind::Operator | AccountKind::Aircraft | AccountKind::Trading => true,
        AccountKind::Total | AccountKind::Allocation => false,
    }
}

fn is_operator_kind(kind: AccountKind) -> bool
    ensures { result ≡ is_operator_kind kind }
{
    match kind {
        AccountKind::Operator | AccountKind::Aircraft => true,
        AccountKind::Total | AccountKind::Allocation | AccountKind::Trading => false,
    }
}

fn is_allocation_kind(kind: AccountKind) -> bool
    ensures { result ≡ is_allocation_kind kind }
{
    match kind {
        AccountKind::Allocation => true,
        AccountKind::Total | AccountKind::Operator | AccountKind::Aircraft | AccountKind::Trading =>
            false,
    }
}

fn is_total_kind(kind: AccountKind) -> bool
    ensures { result ≡ is_total_kind kind }
{
    match kind {
        AccountKind::Total => true,
        AccountKind::Allocation
        | AccountKind::Operator
        | AccountKind::Aircraft
        | AccountKind::Trading => false,
    }
}

fn is_central_kind(kind: AccountKind) -> bool
    ensures { result ≡ is_central_kind kind }
{
    match kind {
        AccountKind::Total | AccountKind::Allocation => true,
        AccountKind::Operator | AccountKind::Aircraft | AccountKind::Trading => false,
    }
}

// Whether allowances may go from a central account of the first kind to an account of the second.
fn may_go_central(from: AccountKind, to: AccountKind) -> bool
    ensures { result ≡ may_go_central from to }
{
    match from {
        AccountKind::Total => is_allocation_kind(to),
        AccountKind::Allocation => is_total_kind(to) || is_operator_kind(to),
        AccountKind::Operator | AccountKind::Aircraft | AccountKind::Trading => false,
    }
}

/// Whether the first account may have this status as the source.
pub(crate) fn fits_source(rule: StatusRule, status: Status) -> bool
    ensures { result ≡ fits_source rule status }
{
    match rule {
        StatusRule::IsOpened => is_opened(status),
        StatusRule::OpenedOrBlocked => is_opened_or_blocked(status),
        StatusRule::NotClosed => is_not_closed(status),
        StatusRule::AsReceiver => true,
    }
}

/// Whether the first account may have this status as a receiver.
pub(crate) fn fits_first_receiver(rule: StatusRule, status: Status) -> bool
    ensures { result ≡ fits_first_receiver rule status }
{
    match rule {
        StatusRule::AsReceiver => is_not_closed(status),
        StatusRule::IsOpened | StatusRule::OpenedOrBlocked | StatusRule::NotClosed => true,
    }
}

fn is_opened(status: Status) -> bool
    ensures { result ≡ is_opened status }
{
    match status {
        Status::Opened => true,
        Status::Blocked | Status::Excluded | Status::Closed => false,
    }
}

fn is_opened_or_blocked(status: Status) -> bool
    ensures { result ≡ is_opened_or_blocked status }
{
    match status {
        Status::Opened | Status::Blocked => true,
        Status::Excluded | Status::Closed => false,
    }
}

/// Whether the status is not closed.
pub(crate) fn is_not_closed(status: Status) -> bool
    ensures { result ≡ is_not_closed status }
{
    match status {
        Status::Opened | Status::Blocked | Status::Excluded => true,
        Status::Closed => false,
    }
}
