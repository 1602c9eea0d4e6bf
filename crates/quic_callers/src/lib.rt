//! Callers of sets, frames, headers and transport parameters, each proved only from public contracts.
#![tactic(auto)]

pub mod acks;
pub mod client;
pub mod frames;
pub mod headers;
pub mod ids;
pub mod lists;
pub mod params;
pub mod payloads;
pub mod results;
pub mod sets;
