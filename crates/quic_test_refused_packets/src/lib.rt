//! What calls on headers, packets, parameters and whole payloads leave if an allocation fails.
#![tactic(auto)]

pub mod counting;
#[cfg(test)]
mod tests;
pub mod worked;
