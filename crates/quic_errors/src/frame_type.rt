//! The types of frames, and their names.
ghost use Rattle.std.specs.Prelude.{◌≡◌, ◌≢◌, ◌+◌, ◌<◌, ◌^◌, ℕ, None, Some, drop, MatchOption, if◌then◌else◌};
ghost use Rattle.quic_base.specs.Varint.{Encodes, shortest_varint};
ghost use Rattle.quic_errors.specs.Names.{name_of, own_name, shared_name};

use bytes::{Buf, BufMut};
use quic_base::coding::{self, Codec, NoRoom};
use quic_base::varint::VarInt;
use std::fmt;
use std::marker::Model;

/// A frame type: the number that begins a frame, below 2^62 (RFC 9000, section 12.4). Contracts see it as that number.
#[derive(Clone, Copy, PartialEq, Eq)]
pub struct FrameType(u64);

impl Model for FrameType {
    ghost Value = { ℕ };

    ghost view = { λ t. t.0 };

    ghost invariant = { λ t. t.0 < 2 ^ 62 };

    ghost inverse = { λ n. record { 0 = n } };
}

/// The types that have their own name. STREAM and DATAGRAM frames have several types each.
impl FrameType {
    ghost use Rattle.quic_errors.specs.Types.{type_or_zero};

    /// A byte without meaning (RFC 9000, section 19.1).
    pub const PADDING: FrameType = FrameType(0x00);

    /// It asks for an acknowledgement (RFC 9000, section 19.2).
    pub const PING: FrameType = FrameType(0x01);

    /// Ranges of packet numbers that were received (RFC 9000, section 19.3).
    pub const ACK: FrameType = FrameType(0x02);

    /// The same, with ECN counts (RFC 9000, section 19.3.2).
    pub const ACK_ECN: FrameType = FrameType(0x03);

    /// The sender ends its part of a stream early (RFC 9000, section 19.4).
    pub const RESET_STREAM: FrameType = FrameType(0x04);

    /// The receiver wants no more of a stream (RFC 9000, section 19.5).
    pub const STOP_SENDING: FrameType = FrameType(0x05);

    /// Data of the handshake (RFC 9000, section 19.6).
    pub const CRYPTO: FrameType = FrameType(0x06);

    /// A token for a later connection (RFC 9000, section 19.7).
    pub const NEW_TOKEN: FrameType = FrameType(0x07);

    /// How many bytes may be sent on all streams together (RFC 9000, section 19.9).
    pub const MAX_DATA: FrameType = FrameType(0x10);

    /// How many bytes may be sent on a stream (RFC 9000, section 19.10).
    pub const MAX_STREAM_DATA: FrameType = FrameType(0x11);

    /// How many bidirectional streams the peer may open (RFC 9000, section 19.11).
    pub const MAX_STREAMS_BIDI: FrameType = FrameType(0x12);

    /// How many unidirectional streams the peer may open (RFC 9000, section 19.11).
    pub const MAX_STREAMS_UNI: FrameType = FrameType(0x13);

    /// The sender is blocked by the connection's limit (RFC 9000, section 19.12).
    pub const DATA_BLOCKED: FrameType = FrameType(0x14);

    /// The sender is blocked by a stream's limit (RFC 9000, section 19.13).
    pub const STREAM_DATA_BLOCKED: FrameType = FrameType(0x15);

    /// The sender is blocked by the limit on bidirectional streams (RFC 9000, section 19.14).
    pub const STREAMS_BLOCKED_BIDI: FrameType = FrameType(0x16);

    /// The sender is blocked by the limit on unidirectional streams (RFC 9000, section 19.14).
    pub const STREAMS_BLOCKED_UNI: FrameType = FrameType(0x17);

    /// Another connection id (RFC 9000, section 19.15).
    pub const NEW_CONNECTION_ID: FrameType = FrameType(0x18);

    /// A connection id that will no longer be used (RFC 9000, section 19.16).
    pub const RETIRE_CONNECTION_ID: FrameType = FrameType(0x19);

    /// Eight bytes that the peer must send back (RFC 9000, section 19.17).
    pub const PATH_CHALLENGE: FrameType = FrameType(0x1a);

    /// The eight bytes of a challenge (RFC 9000, section 19.18).
    pub const PATH_RESPONSE: FrameType = FrameType(0x1b);

    /// The transport closes the connection (RFC 9000, section 19.19).
    pub const CONNECTION_CLOSE: FrameType = FrameType(0x1c);

    /// The application closes the connection (RFC 9000, section 19.19).
    pub const APPLICATION_CLOSE: FrameType = FrameType(0x1d);

    /// The server has confirmed the handshake (RFC 9000, section 19.20).
    pub const HANDSHAKE_DONE: FrameType = FrameType(0x1e);

    /// It asks for an acknowledgement at once (draft-ietf-quic-ack-frequency, section 5).
    pub const IMMEDIATE_ACK: FrameType = FrameType(0x1f);

    /// How often acknowledgements are wanted (draft-ietf-quic-ack-frequency, section 4).
    pub const ACK_FREQUENCY: FrameType = FrameType(0xaf);

    /// The type of a DATAGRAM without its LEN bit (RFC 9221, section 4).
    pub const DATAGRAM: FrameType = FrameType(0x30);

    /// The type of a STREAM without its LEN bit (RFC 9000, section 19.8).
    pub fn of_stream(has_offset: bool, fin: bool) -> FrameType
        ensures { result ≡ 8 + (if has_offset then 4 else 0) + (if fin then 1 else 0) }
    {
        match (has_offset, fin) {
            (false, false) => FrameType(0x08),
            (false, true) => FrameType(0x09),
            (true, false) => FrameType(0x0c),
            (true, true) => FrameType(0x0d),
        }
    }

    /// The type with this number. The caller must ensure that it is below 2^62 (RFC 9000, section 12.4).
    pub fn of(number: u64) -> FrameType
        requires { number < 2 ^ 62 }
        ensures { result ≡ number }
    {
        FrameType(number)
    }

    /// The type with this number, or `None` if it is 0. A close so names the frame that caused it (RFC 9000, section
    /// 19.19). The caller must ensure that the number is below 2^62.
    pub fn or_none(number: u64) -> Option<FrameType>
        requires { number < 2 ^ 62 }
        ensures value { type_or_zero result ≡ number }
        ensures apart { result ≢ Some 0 }
    {
        (number != 0).then_some(FrameType(number))
    }

    /// The number, below 2^62.
    pub fn into_inner(self) -> u64
        ensures { result ≡ self }
    {
        self.0
    }

    // The name of the constant, if there is one.
    fn own_name(self) -> Option<&'static str>
        ensures { MatchOption result (own_name self ≡ None) (λ name. own_name self ≡ Some name.now) }
    {
        Some(match self.0 {
            0x00 => "PADDING",
            0x01 => "PING",
            0x02 => "ACK",
            0x03 => "ACK_ECN",
            0x04 => "RESET_STREAM",
            0x05 => "STOP_SENDING",
            0x06 => "CRYPTO",
            0x07 => "NEW_TOKEN",
            0x10 => "MAX_DATA",
            0x11 => "MAX_STREAM_DATA",
            0x12 => "MAX_STREAMS_BIDI",
            0x13 => "MAX_STREAMS_UNI",
            0x14 => "DATA_BLOCKED",
            0x15 => "STREAM_DATA_BLOCKED",
            0x16 => "STREAMS_BLOCKED_BIDI",
            0x17 => "STREAMS_BLOCKED_UNI",
            0x18 => "NEW_CONNECTION_ID",
            0x19 => "RETIRE_CONNECTION_ID",
            0x1a => "PATH_CHALLENGE",
            0x1b => "PATH_RESPONSE",
            0x1c => "CONNECTION_CLOSE",
            0x1d => "APPLICATION_CLOSE",
            0x1e => "HANDSHAKE_DONE",
            0x1f => "IMMEDIATE_ACK",
            0xaf => "ACK_FREQUENCY",
            _ => return None,
        })
    }
}

// No frame that is read has this name: an ACK with ECN counts is named ACK.
const _: () = prove!(FrameType::ACK_ECN.0 == 0x03);

/// A type is encoded as the varint of its number.
impl Codec for FrameType {
    ghost encoded = { Encodes };

    ghost encoding = { shortest_varint };

    ghost after_cut = { drop 1 };

    fn decode<B: Buf>(buf: &mut B) -> coding::Result<FrameType> {
        Ok(FrameType(VarInt::decode(buf)?.into_inner()))
    }

    fn encode<B: BufMut>(&self, buf: &mut B) -> Result<(), NoRoom> {
        VarInt::from_u64_unchecked(self.0).encode(buf)
    }
}

impl fmt::Display for FrameType {
    ghost output = { λ ty. Some (name_of ty) };

    fn fmt<W: fmt::Write>(&self, f: &mut fmt::Formatter<W>) -> fmt::Result {
        if let Some(name) = self.own_name() {
            return f.write_str(name);
        }
        match self.0 {
            0x08..=0x0f => f.write_str("STREAM"),
            0x30 | 0x31 => f.write_str("DATAGRAM"),
            ty => write!(f, "<unknown {ty:x}>"),
        }
    }
}

/// The name of the constant, or else `Type(XX)` with at least two hexadecimal digits.
impl fmt::Debug for FrameType {
    fn fmt<W: fmt::Write>(&self, f: &mut fmt::Formatter<W>) -> fmt::Result {
        match self.own_name() {
            Some(name) => f.write_str(name),
            None => {
                let ty = self.0;
                write!(f, "Type({ty:02x})")
            }
        }
    }
}
