//! What C sees of frames: the structs, the words of a frame, and the rules that flags name. What reads frames for C and
//! what writes them build on it.
#![tactic(auto)]

pub mod flags;
pub mod show;
pub mod words;
