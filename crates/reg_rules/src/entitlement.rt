//! Who may propose and approve an instruction.

ghost use Rattle.std.specs.Prelude.{◌≡◌, Some, false};
ghost use Rattle.std.specs.Option.{option_map_or};
ghost use Rattle.reg_account.specs.Users.{right_in};
ghost use Rattle.reg_rules.specs.Cases.{seen_in};
ghost use Rattle.reg_rules.specs.Entitlements.{includes, is_entitled, is_not_proposer, is_same_representative};
ghost use Rattle.reg_rules.specs.Entitlements.{is_not_approver};

use crate::case::Case;
use crate::rule::{Role, Who};
use reg_account::Account;
use reg_base::{Instruction, Right, Rules, UserNo};

/// Whether the proposer may not propose the act.
pub(crate) fn is_not_proposer(case: &Case) -> bool
    ensures { result ≡ is_not_proposer case.now.setting.rules case.now.instruction (seen_in case.now) }
{
    let setting = case.setting;
    let who = case.found.rule.who;
    !is_entitled(
        setting.rules,
        who,
        Role::Proposer,
        case.first,
        case.instruction.proposer,
    )
}

/// Whether the approver, if there is one, is the proposer.
pub(crate) fn is_same_representative(instruction: &Instruction) -> bool
    ensures { result ≡ is_same_representative instruction.now }
{
    match instruction.approver {
        Some(approver) => approver == instruction.proposer,
        None => false,
    }
}

/// Whether the approver, if there is one, may not approve the act.
pub(crate) fn is_not_approver(case: &Case) -> bool
    ensures { result ≡ is_not_approver case.now.setting.rules case.now.instruction (seen_in case.now) }
{
    let setting = case.setting;
    let who = case.found.rule.who;
    match case.instruction.approver {
        Some(approver) => !is_entitled(setting.rules, who, Role::Approver, case.first, approver),
        None => false,
    }
}

// Whether the user may take this role: as a representative of this account, or as an administrator.
fn is_entitled(rules: &Rules, who: Who, role: Role, account: &Account, user: UserNo) -> bool
    ensures { result ≡ is_entitled rules.now who role (Some account.now) user }
{
    match who {
        Who::Representatives => is_included(role, account.right(user)),
        Who::Administrators => rules.is_admin(user),
    }
}

// Whether there is a right, and it includes the role.
fn is_included(role: Role, right: Option<Right>) -> bool
    ensures { result ≡ option_map_or (λ own. includes own role) right false }
{
    match right {
        Some(right) => includes(right, role),
        None => false,
    }
}

fn includes(right: Right, role: Role) -> bool
    ensures { result ≡ includes right role }
{
    match (right, role) {
        (Right::Propose, Role::Proposer) | (Right::Approve, Role::Approver) | (Right::Both, _) =>
            true,
        (Right::Propose, Role::Approver) | (Right::Approve, Role::Proposer) => false,
    }
}
