//! What functions exported to C return, as names and as numbers.
#![tactic(auto)]

pub mod faults;
pub mod laws;
pub mod results;
