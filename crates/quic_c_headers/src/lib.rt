//! Functions exported to C: reading and writing packet headers, and removing and applying their protection. Every
//! function is safe with any argument values.
#![tactic(auto)]

mod faults;
mod fields;
mod headers;
pub mod laws;
mod negotiation;
mod protection;
pub mod walks;
mod words;
mod write;

pub use words::{CHeader, HeaderFields};
