//! The tests of `reg_front`, and of the texts of all faults, which it tells. It has nothing but tests.
#![tactic(auto)]

#[cfg(test)]
mod front;
#[cfg(test)]
mod texts;
