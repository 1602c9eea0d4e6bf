//! Types of frames, error codes and transport errors (RFC 9000, sections 19 and 20.1).
#![tactic(auto)]

pub mod frame_type;
pub mod invalid_frame;
pub mod transport_error;
