//! Words for counting in lists and joining them, and the facts about plain lists, numbers and sums that proofs of
//! several crates cite. There is no code here. It uses nothing but `std`, so that `reg_claim`, which uses it, loads
//! little.
//!
//! | where | what |
//! |---|---|
//! | `specs/Counting.antt` | the sum of a number over a list, how often a number stands in one |
//! | `specs/Lists.antt` | the items of lists, one list after another; the first numbers |
//! | `proofs/lemmas/Lists.antt` | what holds of each element of a list, an element by its index, swaps |
//! | `proofs/lemmas/Members.antt` | the elements of a list one by one: in another order, behind a filter or a search |
//! | `proofs/lemmas/Numbers.antt` | how two numbers compare; no test is both true and false |
//! | `proofs/lemmas/Times.antt` | how often numbers stand in a list |
//! | `proofs/lemmas/Totals.antt` | sums over lists |
//!
//! A fact that `std` has stands in none of them: `rt lemma WORD..` finds it. One that needs a type of the registry
//! stands in `proofs/lemmas` of the lowest crate that has the type.
//!
//! A use of it, proved in `example_uses/src/counting.rt`:
//!
//! ```rust
//! ghost use Rattle.std.specs.Prelude.{◌≡◌};
//! ghost use Rattle.reg_facts.specs.Counting.{times};
//!
//! /// How often a number stands in a list.
//! pub fn count(numbers: &[u32], wanted: u32) -> usize
//!     ensures { result ≡ times wanted numbers.now }
//! {
//!     numbers.iter().filter(|number| **number == wanted).count()
//! }
//! ```
#![tactic(auto)]
