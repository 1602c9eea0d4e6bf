//! Stateless resets: datagrams by which an endpoint that has lost a connection's state ends that connection (RFC 9000,
//! section 10.3).
#![tactic(auto)]

pub mod reset;
