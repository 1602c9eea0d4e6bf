//! Traits of packet and header keys, with laws, which your cipher implements (RFC 9001, section 5), and truncated
//! packet numbers (RFC 9000, section 17.1).
#![tactic(auto)]

pub mod crypto;
pub mod packet_number;
pub mod toy;
