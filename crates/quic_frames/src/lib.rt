//! Reads and writes the frames of a payload (RFC 9000, sections 12.4 and 19). The crate reexports what frames hold and
//! the transport errors (section 20.1).
#![tactic(auto)]

pub mod frame;
pub mod laws;

pub use quic_errors::transport_error;
