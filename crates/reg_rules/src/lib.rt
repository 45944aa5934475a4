//! The rules of the registry, as docs/RULES.md has them: which instructions are refused and why, what an accepted
//! instruction does, and its row in the log.
//!
//! A use of it, proved in `example_uses/src/rules.rt`:
//!
//! ```rust
//! ghost use Rattle.std.specs.Prelude.{◌≡◌, All, IfOk, OnOk, OnErr};
//! ghost use Rattle.reg_base.specs.Footprint.{footprint};
//! ghost use Rattle.reg_base.specs.declared.refusals.Refusal.{Refusal};
//! ghost use Rattle.reg_rules.specs.declared.reply.Reply.TheVariants.{Refused};
//! ghost use Rattle.reg_rules.specs.State.{numbers};
//! ghost use Rattle.reg_rules.specs.Effect.{IsBehind};
//! ghost use Rattle.reg_rules.specs.Step.{row_of};
//! ghost use Rattle.reg_rules.specs.Laws.{after_step, reply_to};
//!
//! use reg_account::Account;
//! use reg_base::{Instruction, NoMemory, RecordNo};
//! use reg_rules::{LogRow, Setting, execute, log_row};
//! use std::alloc::Global;
//!
//! /// Carries an instruction out on the accounts that it touches, or refuses it, and answers its row in the log. If it
//! /// is refused, the accounts stay as they are.
//! ///
//! /// # Errors
//! /// `NoMemory` if memory ran out. The accounts stay as they are.
//! pub fn carry_out(
//!     alloc: Global,
//!     setting: &Setting,
//!     number: RecordNo,
//!     instruction: &Instruction,
//!     accounts: &mut [Account],
//! ) -> Result<LogRow, NoMemory>
//!     requires own { numbers accounts.old ≡ footprint setting.now.directory instruction.now.act }
//!     requires behind { All (IsBehind number) accounts.old }
//!     ensures row { IfOk result
//!         (λ row. row ≡ row_of setting.now number instruction.now
//!         (reply_to setting.now accounts.old number instruction.now)) }
//!     ensures after { OnOk result (accounts.new ≡ after_step setting.now accounts.old number instruction.now) }
//!     ensures refused { IfOk result (λ row. (q : Refusal) → row.reply ≡ Refused q → accounts.new ≡ accounts.old) }
//!     ensures err { OnErr result (accounts.new ≡ accounts.old) }
//! {
//!     let Setting {
//!         rules,
//!         day,
//!         directory,
//!     } = *setting;
//!     let reply = execute(alloc, rules, day, number, instruction, directory, accounts)?;
//!     Ok(log_row(number, day, *instruction, reply))
//! }
//! ```
#![tactic(auto)]

mod amounts;
mod case;
mod checks;
mod compliance;
mod entitlement;
mod found;
mod indexed;
mod laws;
mod parties;
mod reply;
mod reversal;
mod rule;
mod setting;
mod step;
mod trust;

pub use checks::decide;
pub use laws::{
    act_laws, latest_is_of_the_latest_year, step_conserves, step_keeps_closed, step_laws,
};
pub use reply::{Closing, HeldNow, Holdings, LogRow, Reply};
pub use setting::Setting;
pub use step::{execute, execute_at, log_row};
