//! The calls that take memory, of all crates below `reg_front`, each by a word: `test_refusals` makes them where
//! the memory or the thread that a call asks for is refused.
//!
//! No call keeps what it left: a digest of that is made at once, which takes no memory, and digests are compared. So
//! nothing that owns memory lives where the output is written, and the prover has little to free at its many exits.
#![tactic(auto)]

mod accounts;
mod books;
mod call;
mod claims;
mod digest;
mod docks;
mod endings;
mod plans;
mod settling;
mod single;
mod steps;
mod stop;
mod tasks;
mod texts;
mod words;
mod worlds;
mod yards;

pub use crate::call::{tell, try_threads};
pub use crate::digest::Digest;
pub use crate::endings::Ended;
pub use crate::stop::Stop;
pub use crate::words::try_named;
