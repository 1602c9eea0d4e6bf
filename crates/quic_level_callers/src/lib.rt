//! Keys by level and key phase: a caller of the law of runs, and keys of which no two open the same payloads.
#![tactic(auto)]

pub mod callers;
pub mod shifted;
