//! A first use of each library crate: one function a crate, which its callers can copy. In `rows` stand uses of the
//! calls for single rows, in `single` one of the call for a single instruction.
#![tactic(auto)]

pub mod account;
pub mod advice;
pub mod base;
pub mod book;
pub mod claim;
pub mod counting;
pub mod cuts;
pub mod deques;
pub mod front;
pub mod graph;
pub mod levels;
pub mod plan;
pub mod regions;
pub mod rows;
pub mod rules;
pub mod run;
pub mod schedules;
pub mod single;
pub mod tasks;
pub mod text;
pub mod work;
pub mod yard;
