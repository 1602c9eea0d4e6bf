//! What sets, encoders of frames and errors leave if an allocation fails.
#![tactic(auto)]

#[cfg(test)]
mod tests;
