//! What RFC 9001 says of bytes up to the cipher: nonces of packets, the bytes that a Retry's tag protects, and the
//! constants of versions 1 and 2. Keys are derived, and ciphers are called, elsewhere.
#![tactic(auto)]

pub mod constants;
pub mod nonce;
pub mod retry;
