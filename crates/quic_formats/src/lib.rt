//! What the RFCs call frames, headers, transport parameters and their fields, and what their numbers count: the names
//! beside the rows that are proved, for docs/formats.json.
#![tactic(auto)]

pub mod frame_names;
pub mod header_names;
pub mod parameter_names;
