//! Seals and opens packets (RFC 9000, sections 12 and 17; RFC 9001, section 5; RFC 9369, section 3). The crate
//! reexports `quic_crypto`, `quic_header_encode` and `quic_header_decode`.
#![tactic(auto)]

pub mod crypto;
pub mod keys;
pub mod laws;
pub mod opening;
pub mod packet;
pub mod pairs;
mod payload;
pub mod seal;
