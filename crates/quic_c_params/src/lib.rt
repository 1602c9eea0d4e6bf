//! Functions exported to C: transport parameters, read into a struct and written from it, and a list's single entries.
//! Every argument may have every value: no function has a precondition.
#![tactic(auto)]

mod address;
mod entries;
mod faults;
mod further;
pub mod laws;
mod lists;
mod read;
mod show;
mod words;
mod write;

pub use words::{CParam, CParams, CRefusal};
