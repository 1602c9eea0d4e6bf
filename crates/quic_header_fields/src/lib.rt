//! Where each field of a packet's header is in its bytes (RFC 9000, section 17; RFC 8999, section 5.1).
#![tactic(auto)]

pub mod fault;
pub mod field;
pub mod header;
pub mod laws;
pub mod packet;
pub mod row;
