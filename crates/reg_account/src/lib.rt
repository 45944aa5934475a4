//! One account: what it is, who represents it, which accounts it trusts, what it holds, what it has surrendered and
//! deleted, its compliance, and how a settlement changes it.
//!
//! A use of it, proved in `example_uses/src/account.rt`:
//!
//! ```rust
//! ghost use Rattle.std.specs.Prelude.{◌≡◌, ◌+◌, ◌&&◌, nat_le, MatchBool};
//! ghost use Rattle.reg_account.specs.Account.{held_by, credited, debited};
//! ghost use Rattle.reg_base.specs.declared.limits.TheConstants.{MOST_HELD};
//!
//! use reg_account::Account;
//! use reg_base::{AllowanceKind, MOST_HELD};
//!
//! /// Moves allowances of a kind from one account to another, if the first holds them and the second may hold
//! /// them too. Answers whether it did. Nothing else changes.
//! pub fn pass_on(from: &mut Account, to: &mut Account, kind: AllowanceKind, amount: u64) -> bool
//!     ensures answer { result ≡ (nat_le amount (held_by from.old kind)
//!         && nat_le (held_by to.old kind + amount) MOST_HELD) }
//!     ensures accounts { MatchBool result
//!         ((from.new ≡ debited from.old kind amount) × (to.new ≡ credited to.old kind amount))
//!         ((from.new ≡ from.old) × (to.new ≡ to.old)) }
//! {
//!     if amount > from.held(kind) || amount > MOST_HELD - to.held(kind) {
//!         return false;
//!     }
//!     from.debit(kind, amount);
//!     to.credit(kind, amount);
//!     true
//! }
//! ```
#![tactic(auto)]

mod account;
mod account_parts;
mod corrections;
mod faults;
mod figure;
mod history;
mod kept;
pub mod laws;
mod lists;
mod ranges;
mod rows;
mod sums;
mod trusted;
mod users;
mod years;

pub use account::Account;
pub use account_parts::{AccountFault, AccountParts, Holdings};
pub use corrections::Correction;
pub use figure::FigureFault;
pub use lists::Lists;
pub use reg_base::Retirement;
pub use rows::{Fate, RetirementRow};
pub use trusted::TrustedEntry;
pub use users::Representative;
pub use years::{Emission, Figure};
