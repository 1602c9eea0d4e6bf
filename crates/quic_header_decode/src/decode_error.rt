//! Why no packet can be read from a datagram.
ghost use Rattle.std.specs.Prelude.{◌≡◌};
ghost use Rattle.quic_header_decode.specs.Reading.{at_end};
ghost use Rattle.quic_header_decode.specs.Refusal.{refusal_of};

use quic_base::coding::UnexpectedEnd;
use quic_base::ids::ConnectionId;
use thiserror::Error;

/// Why no packet can be read from the remaining bytes of a datagram. Nothing after these can be read, so the rest of
/// the datagram is dropped.
#[derive(Clone, Copy, Debug, PartialEq, Eq, PartialOrd, Ord, Hash, Drop, Error)]
pub enum PacketDecodeError {
    /// The endpoint doesn't support the version of a long header (RFC 9000, section 6.1).
    #[error("unsupported version {version:x}")]
    UnsupportedVersion {
        /// The sender's id.
        src_cid: ConnectionId,
        /// The receiver's id.
        dst_cid: ConnectionId,
        /// The version.
        version: u32,
    },
    /// The header or the packet is malformed, as the text says.
    #[error("invalid header: {0}")]
    InvalidHeader(&'static str),
    /// An allocation failed.
    #[error("out of memory")]
    OutOfMemory,
}

/// Bytes that end within a field of a header.
impl From<UnexpectedEnd> for PacketDecodeError {
    ghost from_gives = { λ _ e. refusal_of e ≡ at_end };

    fn from(_end: UnexpectedEnd) -> PacketDecodeError {
        PacketDecodeError::InvalidHeader("unexpected end of packet")
    }
}
