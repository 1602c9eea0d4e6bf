//! Where each field of a transport parameter's value is in its bytes (RFC 9000, section 18.2).
#![tactic(auto)]

mod field;
pub mod laws;
mod row;
pub mod value;
