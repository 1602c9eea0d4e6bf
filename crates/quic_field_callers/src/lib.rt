//! Where each field of a header, a frame or a parameter is: callers that are proved from public contracts.
#![tactic(auto)]

pub mod headers;
pub mod params;
