//! Opens packets with keys by level and key phase (RFC 9001, sections 2.1, 4, 5 and 6).
#![tactic(auto)]

pub mod keys;
pub mod laws;
pub mod levels;
pub mod opening;
pub mod protection;
pub mod receiving;
