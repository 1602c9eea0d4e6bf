//! Runs of packet numbers in an array that a caller from C owns: where a number is among them, what an insertion or a
//! removal does to them, and that change. Calls that check the runs and calls that don't are made of these, so nothing
//! here needs the entries to be a set's runs: only what they then are of it is promised if they are.
#![tactic(auto)]

pub mod change;
pub mod parts;
pub mod places;
pub mod words;
