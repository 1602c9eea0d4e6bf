//! Which packets may carry a frame, and which side may send it (RFC 9000, sections 2.1, 12.4 and 19).
#![tactic(auto)]

pub mod permitted;
