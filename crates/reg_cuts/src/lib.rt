//! The rows of a csv text, as docs/FORMATS.md has them, and of parts of it: where a text may be cut so that the rows of
//! its parts, one after another, are those of the whole.
//!
//! A use of it, proved in `example_uses/src/cuts.rt`:
//!
//! ```rust
//! ghost use Rattle.std.specs.Prelude.{◌≡◌, ◌++◌, true};
//! ghost use Rattle.reg_cuts.specs.Rows.{rows_in_text};
//!
//! use reg_cuts::{each_cut_splits, has_no_mark, is_cut};
//!
//! /// True only if what stands behind a part of a text can be read without that part. It may be false although it can.
//! pub fn stands_alone(before: &[u8], behind: &[u8]) -> bool
//!     ensures { result ≡ true → rows_in_text (before.now ++ behind.now)
//!         ≡ rows_in_text before.now ++ rows_in_text behind.now }
//! {
//!     each_cut_splits();
//!     is_cut(before) && has_no_mark(behind)
//! }
//! ```
#![tactic(auto)]

mod cutting;
mod laws;
mod rows;

pub use cutting::{cut_near, cut_parts, has_no_mark, is_cut};
pub use laws::{
    cuts_go_on, each_cut_splits, each_split_splits, each_text_has_few_rows,
    lines_without_quotes_are_cuts,
};
pub use rows::{next_row, start_rows};
