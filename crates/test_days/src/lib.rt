//! The tests of all crates below `reg_front`: what their proofs cannot see. It has nothing but tests.
#![tactic(auto)]

#[cfg(test)]
mod book;
#[cfg(test)]
mod distributions;
#[cfg(test)]
mod docks;
#[cfg(test)]
mod fixtures;
#[cfg(test)]
mod levels;
#[cfg(test)]
mod orders;
#[cfg(test)]
mod periods;
#[cfg(test)]
mod regions;
#[cfg(test)]
mod stealing;
#[cfg(test)]
#[cfg(test)]
mod words;
#[cfg(test)]
mod worlds;
#[cfg(test)]
mod yards;
