//! Functions exported to C: sets of packet numbers whose runs begin anywhere in an array that the caller owns. No call
//! checks every run, so a set of many costs a receiver about as much as one of few. Every argument may have any value: no
//! function has a precondition. With entries that aren't the runs of a set a function changes only entries of the array,
//! but what it returns means nothing.
#![tactic(auto)]

mod moves;
mod runs;
mod within;
mod words;

pub use quic_c_entries::words::CRange;
pub use words::CRuns;
