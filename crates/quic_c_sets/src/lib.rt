//! Functions exported to C: sets of packet numbers in an array that the caller owns, and ACKs of such sets. Every
//! argument may have any value: no function has a precondition.
#![tactic(auto)]

mod acks;
mod checks;
mod sets;
mod within;

pub use quic_c_entries::words::CRange;
