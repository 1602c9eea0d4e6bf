//! Functions exported to C: varints and packet numbers. Every function is safe with any argument values.
#![tactic(auto)]

mod numbers;
