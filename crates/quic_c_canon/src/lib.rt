//! Functions exported to C: the shortest payload with the same meaning as a given one, written into the caller's bytes.
//! They don't allocate. Every argument may have any value.
#![tactic(auto)]

mod canonical;
mod words;

pub use words::CCanon;
