//! What stays the same while a day is settled.

use reg_base::{Day, Directory, Rules};
use std::marker::Model;

/// The rules, the settlement day and the directory. A contract sees them as plain data.
#[derive(Drop)]
pub struct Setting<'a> {
    /// The rules of the day.
    pub rules: &'a Rules,
    /// The settlement day.
    pub day: Day,
    /// The kinds and holders of all accounts.
    pub directory: &'a Directory,
}

impl<'a> Model for Setting<'a> {
    ghost use Rattle.std.specs.Coded.{codes, coded_ℕ, coded×};
    ghost use Rattle.std.specs.Ordering.{nat_cmp};
    ghost use Rattle.std.specs.FinMap as map;
    ghost use Rattle.reg_base.specs.contracts.kinds.AccountKind as account_kind;
    ghost use Rattle.reg_base.specs.contracts.kinds.AllowanceKind as allowance_kind;
    ghost use Rattle.reg_rules.specs.State.{Setting as SettingValue};

    ghost Value = { SettingValue };

    ghost coded = { Prim.hlevel (
      codes,
      account_kind.the_row.coded,
      allowance_kind.the_row.coded,
      map.code {R = nat_cmp} coded_ℕ
          (coded× account_kind.the_row.coded coded_ℕ),
    ) };

    ghost view = { λ s. record { rules = s.rules.now; day = s.day; directory = s.directory.now } };
}
