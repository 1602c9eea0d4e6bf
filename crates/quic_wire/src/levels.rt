//! Opening packets with keys by level and key phase (RFC 9001, sections 2.1 and 4 to 6).

pub use quic_levels::keys::{LevelKeys, OneRttKeys};
pub use quic_levels::levels::Level;
pub use quic_levels::opening::{LevelError, open_next};
pub use quic_levels::receiving::Receiver;
