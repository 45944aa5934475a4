//! The case of an instruction: all that its checks look at.

use crate::found::Found;
use crate::setting::Setting;
use reg_account::Account;
use reg_base::{Instruction, Movement};
use std::marker::Model;

/// An instruction whose accounts are all known and of which none is named twice, with all that its checks look at. A
/// contract sees what it is given; all else is found from that, once.
#[derive(Drop)]
pub(crate) struct Case<'a, 's> {
    /// What stays the same while the day is settled.
    pub(crate) setting: &'a Setting<'s>,
    /// The instruction.
    pub(crate) instruction: &'a Instruction,
    /// What it does.
    pub(crate) movement: &'a Movement,
    /// Its first account.
    pub(crate) first: &'a Account,
    /// The list of accounts that they are in.
    pub(crate) accounts: &'a [Account],
    /// The indexes of the accounts that receive, in the order of their shares.
    pub(crate) receivers: &'a [u32],
    /// What several checks ask.
    pub(crate) found: Found,
}

impl<'a, 's> Model for Case<'a, 's> {
    ghost use Rattle.std.specs.Coded.{codes, coded_ℕ, coded×};
    ghost use Rattle.std.specs.Ordering.{nat_cmp};
    ghost use Rattle.std.specs.FinMap as map;
    ghost use Rattle.reg_base.specs.contracts.kinds.AccountKind as account_kind;
    ghost use Rattle.reg_base.specs.contracts.kinds.AllowanceKind as allowance_kind;
    ghost use Rattle.reg_rules.specs.Cases.{Case as CaseValue, IsCase};
    ghost use Rattle.reg_rules.specs.Indexed.{accounts_at};

    ghost Value = { CaseValue };

    ghost coded = { Prim.hlevel (
      codes,
      account_kind.the_row.coded,
      allowance_kind.the_row.coded,
      map.code {R = nat_cmp} coded_ℕ
          (coded× account_kind.the_row.coded coded_ℕ),
    ) };

    ghost view = { λ s. record {
      setting = s.setting.now;
      instruction = s.instruction.now;
      first = s.first.now;
      receivers = accounts_at s.accounts.now s.receivers.now;
    } };

    ghost invariant = { λ s. IsCase
        (record {
          setting = s.setting.now;
          instruction = s.instruction.now;
          first = s.first.now;
          receivers = accounts_at s.accounts.now s.receivers.now;
        })
        s.movement.now s.found };
}
