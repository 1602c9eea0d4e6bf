//! Numbers, ids and addresses as bytes, and the traits by which values are read from the front of a buffer and written
//! to its end (RFC 9000, sections 2.1 and 16).
#![tactic(auto)]

pub mod coding;
pub mod ids;
pub mod laws;
pub mod varint;
