//! Packet headers as values, and their encoder (RFC 9000, section 17; RFC 9369, section 3).
#![tactic(auto)]

pub mod encode;
pub mod fields;
pub mod header;
pub mod laws;
pub mod long_type;
pub mod store;
