//! Functions exported to C that read frames, and the ranges of ACKs. What a caller keeps between calls are structs of
//! plain words, and the bytes are given again with each call. Every function is safe with any argument values.
#![tactic(auto)]

mod acks;
mod body;
mod by_kind;
mod codes;
mod fast;
mod fast_acks;
mod fill;
mod fill_ranges;
mod frames;
mod front;
pub mod laws;
mod skip;
pub mod walks;
