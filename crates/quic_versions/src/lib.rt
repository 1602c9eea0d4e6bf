//! The transport parameter version_information, with which the two sides agree on a version (RFC 9368).
#![tactic(auto)]

pub mod information;
pub mod laws;
pub mod store;
