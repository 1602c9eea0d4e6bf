//! Keys of packets, as traits with laws, and a pair that protects nothing.

pub use quic_crypto::crypto::{CryptoError, HeaderKey, PacketKey};
pub use quic_crypto::toy;
