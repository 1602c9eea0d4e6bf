//! What frames hold: ACKs, closes and other structs, each with its encoder (RFC 9000, section 19). `quic_frames` builds
//! on this crate and reexports its names.
#![tactic(auto)]

pub mod frame;
