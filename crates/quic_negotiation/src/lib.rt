//! The answer to a packet whose version an endpoint doesn't support: a Version Negotiation packet (RFC 8999, section 6;
//! RFC 9000, section 6.1).
#![tactic(auto)]

pub mod answer;
pub mod ids;
