//! Functions exported to C: which packets may carry a frame and which side may send it, what else RFC 9000 says
//! of its kind, and whether reset tokens are equal. They don't allocate. Every argument may have any value.
#![tactic(auto)]

mod permitted;
mod rules;
mod tokens;
