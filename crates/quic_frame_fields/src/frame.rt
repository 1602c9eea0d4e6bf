//! What frames hold, and their encoders (RFC 9000, section 19).

use quic_base::ids::{ConnectionId, ResetToken, StreamId};
use quic_base::varint::VarInt;

mod ack;
pub mod ack_encode;
mod close;
mod datagrams;
pub mod encode;
pub mod fault;
pub mod field;
mod first_range;
pub mod stream_meta;
pub mod write;
pub mod write_into;

pub use ack::{Ack, AckError, AckIter, EcnCounts};
pub use close::{ApplicationClose, Close, ConnectionClose};
pub use first_range::split_first_range;
pub use quic_errors::frame_type::FrameType;
pub use stream_meta::{StreamMeta, StreamMetaVec};

/// The sender ends a stream early (RFC 9000, section 19.4).
#[derive(Clone, Copy, Debug)]
pub struct ResetStream {
    /// The stream.
    pub id: StreamId,
    /// The application's error code.
    pub error_code: VarInt,
    /// The final size of the stream in bytes.
    pub final_offset: VarInt,
}

/// The receiver no longer wants a stream's data (RFC 9000, section 19.5).
#[derive(Clone, Copy, Debug)]
pub struct StopSending {
    /// The stream.
    pub id: StreamId,
    /// The application's error code.
    pub error_code: VarInt,
}

/// Bytes of the handshake (RFC 9000, section 19.6).
#[derive(Clone, Copy, Debug)]
pub struct Crypto<'a> {
    /// The offset of the data in the CRYPTO stream.
    pub offset: u64,
    /// A slice of the payload.
    pub bytes: &'a [u8],
}

/// A token for a later connection (RFC 9000, section 19.7).
#[derive(Clone, Copy, Debug)]
pub struct NewToken<'a> {
    /// A slice of the payload.
    pub token: &'a [u8],
}

/// Bytes of a stream (RFC 9000, section 19.8).
#[derive(Clone, Copy, Debug)]
pub struct Stream<'a> {
    /// The stream.
    pub id: StreamId,
    /// The offset of the data in the stream.
    pub offset: u64,
    /// Whether the stream ends with these bytes.
    pub fin: bool,
    /// A slice of the payload.
    pub bytes: &'a [u8],
}

/// Another id for the connection (RFC 9000, section 19.15).
#[derive(Clone, Copy, Debug)]
pub struct NewConnectionId {
    /// The sequence number of the id.
    pub sequence: u64,
    /// Ids with lower sequence numbers are to be retired.
    pub retire_prior_to: u64,
    /// The id.
    pub id: ConnectionId,
    /// The stateless reset token for the id.
    pub reset_token: ResetToken,
}

/// Data that is sent once (RFC 9221, section 4).
#[derive(Clone, Copy, Debug)]
pub struct Datagram<'a> {
    /// A slice of the payload.
    pub bytes: &'a [u8],
}

/// How often the sender wants acknowledgements (draft-ietf-quic-ack-frequency, section 4).
#[derive(Clone, Copy, Debug, PartialEq, Eq)]
pub struct AckFrequency {
    /// The sequence number of the frame, by which a receiver ignores older ones.
    pub sequence: VarInt,
    /// How many ack-eliciting packets may be received before an acknowledgement is sent.
    pub ack_eliciting_threshold: VarInt,
    /// How long an acknowledgement may be delayed, in microseconds.
    pub request_max_ack_delay: VarInt,
    /// How far packets may be out of order before an acknowledgement is sent.
    pub reordering_threshold: VarInt,
}

impl Crypto<'_> {
    /// The greatest size of the frame's shortest encoding in bytes, without its data.
    pub const SIZE_BOUND: usize = 1 + 8 + 8;
}

// The type's byte, an offset and a length.
const _: () = prove!(Crypto::SIZE_BOUND == 17);
