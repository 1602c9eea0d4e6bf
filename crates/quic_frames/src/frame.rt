//! Frames, and reading a payload frame by frame (RFC 9000, section 19).
ghost use Rattle.std.specs.Prelude.{◌≡◌, ◌≤◌, Bool, take};
ghost use Rattle.quic_frame_fields.specs.Numbers.{AreNumeric, shortest_varints};
ghost use Rattle.quic_frame_fields.specs.Shortest.{shortest_frame};

use quic_base::ids::{Dir, StreamId};
use quic_base::varint::VarInt;

mod body;
mod bounds;
mod checked;
mod encode;
mod encode_into;
mod field;
mod found;
mod in_range;
mod iter;
mod numbers;
mod reading;
mod rules;
mod size_bound;

pub use checked::{Checked, first_error};
pub use iter::Iter;
use numbers::padded;
pub use quic_errors::frame_type::FrameType;
pub use quic_errors::invalid_frame::InvalidFrame;
pub use quic_frame_fields::frame::{
    Ack, AckError, AckFrequency, AckIter, ApplicationClose, Close, ConnectionClose, Crypto,
    Datagram, EcnCounts, NewConnectionId, NewToken, ResetStream, StopSending, Stream, StreamMeta,
    StreamMetaVec, split_first_range,
};
pub use reading::is_known_type;
pub use rules::{Breach, Rules};
pub use size_bound::{FrameStruct, RETIRE_CONNECTION_ID_SIZE_BOUND};

/// A frame of a payload, whose bytes it borrows. Numbers that were read are below 2^62, except for the eight bytes of
/// PATH_CHALLENGE and PATH_RESPONSE.
#[derive(Clone, Copy, Debug)]
pub enum Frame<'a> {
    /// A byte without meaning (RFC 9000, section 19.1).
    Padding,
    /// Asks for an acknowledgement (RFC 9000, section 19.2).
    Ping,
    /// Which packets arrived (RFC 9000, section 19.3).
    Ack(Ack<'a>),
    /// The sender ends a stream early (RFC 9000, section 19.4).
    ResetStream(ResetStream),
    /// The receiver no longer wants a stream's data (RFC 9000, section 19.5).
    StopSending(StopSending),
    /// Bytes of the handshake (RFC 9000, section 19.6).
    Crypto(Crypto<'a>),
    /// A token for a later connection (RFC 9000, section 19.7).
    NewToken(NewToken<'a>),
    /// Bytes of a stream (RFC 9000, section 19.8).
    Stream(Stream<'a>),
    /// How many bytes may be sent on the connection (RFC 9000, section 19.9).
    MaxData(VarInt),
    /// How many bytes may be sent on a stream (RFC 9000, section 19.10).
    MaxStreamData {
        /// The stream.
        id: StreamId,
        /// The limit on its offsets.
        offset: u64,
    },
    /// How many streams the peer may open (RFC 9000, section 19.11).
    MaxStreams {
        /// The direction of these streams.
        dir: Dir,
        /// How many in all, since the connection began.
        count: u64,
    },
    /// The sender is blocked by the connection's limit (RFC 9000, section 19.12).
    DataBlocked {
        /// That limit.
        offset: u64,
    },
    /// The sender is blocked by a stream's limit (RFC 9000, section 19.13).
    StreamDataBlocked {
        /// The stream.
        id: StreamId,
        /// That limit.
        offset: u64,
    },
    /// The sender is blocked by the limit on streams (RFC 9000, section 19.14).
    StreamsBlocked {
        /// The direction of these streams.
        dir: Dir,
        /// That limit.
        limit: u64,
    },
    /// Another id for the connection (RFC 9000, section 19.15).
    NewConnectionId(NewConnectionId),
    /// A connection id that will no longer be used (RFC 9000, section 19.16).
    RetireConnectionId {
        /// The sequence number of the id.
        sequence: u64,
    },
    /// Tests a path (RFC 9000, section 19.17).
    PathChallenge(u64),
    /// The response to such a test (RFC 9000, section 19.18).
    PathResponse(u64),
    /// Closes the connection (RFC 9000, section 19.19).
    Close(Close<'a>),
    /// Data that is sent once (RFC 9221, section 4).
    Datagram(Datagram<'a>),
    /// How often the sender wants acknowledgements (the ACK frequency extension).
    AckFrequency(AckFrequency),
    /// Asks for an acknowledgement at once (the ACK frequency extension).
    ImmediateAck,
    /// The handshake is done (RFC 9000, section 19.20).
    HandshakeDone,
}

impl Frame<'_> {
    ghost use Rattle.quic_frames.specs.InRange.{InRange, IsTypedFrame, IsWrittenAsNumbers};
    ghost use Rattle.quic_frames.specs.Meaning.{meaning_of, type_of, is_eliciting};

    /// The type that names the frame: ACK also if it has ECN counts, 0x30 for each DATAGRAM. That of a STREAM has the
    /// OFF bit exactly when the offset isn't 0, and never the LEN bit.
    pub fn ty(&self) -> FrameType
        ensures { result ≡ type_of (meaning_of self.now) }
    {
        match self {
            Frame::Padding => FrameType::PADDING,
            Frame::Ping => FrameType::PING,
            Frame::Ack(_) => FrameType::ACK,
            Frame::ResetStream(_) => FrameType::RESET_STREAM,
            Frame::StopSending(_) => FrameType::STOP_SENDING,
            Frame::Crypto(_) => FrameType::CRYPTO,
            Frame::NewToken(_) => FrameType::NEW_TOKEN,
            Frame::Stream(stream) => FrameType::of_stream(stream.offset != 0, stream.fin),
            Frame::MaxData(_) => FrameType::MAX_DATA,
            Frame::MaxStreamData { .. } => FrameType::MAX_STREAM_DATA,
            Frame::MaxStreams { dir: Dir::Bi, .. } => FrameType::MAX_STREAMS_BIDI,
            Frame::MaxStreams { dir: Dir::Uni, .. } => FrameType::MAX_STREAMS_UNI,
            Frame::DataBlocked { .. } => FrameType::DATA_BLOCKED,
            Frame::StreamDataBlocked { .. } => FrameType::STREAM_DATA_BLOCKED,
            Frame::StreamsBlocked { dir: Dir::Bi, .. } => FrameType::STREAMS_BLOCKED_BIDI,
            Frame::StreamsBlocked { dir: Dir::Uni, .. } => FrameType::STREAMS_BLOCKED_UNI,
            Frame::NewConnectionId(_) => FrameType::NEW_CONNECTION_ID,
            Frame::RetireConnectionId { .. } => FrameType::RETIRE_CONNECTION_ID,
            Frame::PathChallenge(_) => FrameType::PATH_CHALLENGE,
            Frame::PathResponse(_) => FrameType::PATH_RESPONSE,
            Frame::Close(Close::Connection(_)) => FrameType::CONNECTION_CLOSE,
            Frame::Close(Close::Application(_)) => FrameType::APPLICATION_CLOSE,
            Frame::Datagram(_) => FrameType::DATAGRAM,
            Frame::AckFrequency(_) => FrameType::ACK_FREQUENCY,
            Frame::ImmediateAck => FrameType::IMMEDIATE_ACK,
            Frame::HandshakeDone => FrameType::HANDSHAKE_DONE,
        }
    }

    // The numbers that make up the frame, its type first, in front of zeros, and how many there are. Frames of the
    // other kinds hold bytes, or are frequent and have writers of their own.
    #[tactic(auto, unfolding(quic_frame_fields::specs::Shortest::shortest_frame))]
    fn numbers(&self) -> ([u64; 5], usize)
        requires { IsWrittenAsNumbers self.now }
        ensures few { result.1 ≤ 5 }
        ensures shortest { (last : Bool) → shortest_frame last (meaning_of self.now)
            ≡ shortest_varints (take result.1 result.0) }
        ensures numeric { InRange self.now → AreNumeric (take result.1 result.0) }
        ensures typed { IsTypedFrame self.now }
    {
        match self {
            Frame::AckFrequency(frequency) => padded(&frequency.numbers()),
            _ => padded(&[]),
        }
    }

    /// Whether the frame is ack-eliciting (RFC 9002, section 2): any except ACK, PADDING and closes.
    pub fn is_ack_eliciting(&self) -> bool
        ensures { result ≡ is_eliciting (meaning_of self.now).name }
    {
        !matches!(self, Frame::Ack(_) | Frame::Padding | Frame::Close(_))
    }
}
