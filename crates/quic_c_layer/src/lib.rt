//! Functions exported to C: what each stack writes again beside frames, headers and parameters. These are nonces and
//! the constants of a version, what a Retry's tag protects, version_information, stateless resets, and the answer to a
//! packet of an unknown version. They don't allocate. Every argument may have any value.
#![tactic(auto)]

mod negotiation;
mod resets;
mod tls;
mod versions;
