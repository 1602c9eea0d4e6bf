//! Which packets in flight an ACK acknowledges (RFC 9000, section 19.3; RFC 9002, section 5).
#![tactic(auto)]

pub mod acked;
