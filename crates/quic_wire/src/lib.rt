//! The wire layer of QUIC in one crate: frames, packets, transport parameters, canonical payloads, sets of packet
//! numbers, and the laws that hold of all of them. What users call is reexported from the crates below.
#![tactic(auto)]

pub mod calls;
pub mod laws;
pub mod levels;
pub mod meanings;
pub mod rfc;

pub use quic_base::{coding, ids, varint};
pub use quic_canon::canonical;
pub use quic_errors::transport_error;
pub use quic_frames::frame;
pub use quic_packets::{crypto, packet, pairs};
pub use quic_params::transport_parameters;
pub use quic_permitted::permitted;
pub use quic_ranges::range_set;
