//! Cuts datagrams into packets (RFC 9000, section 12.2).
ghost use Rattle.std.specs.Prelude.{◌≡◌, ◌<◌, ◌≤◌, length, take, drop, IsTrue, IfErr, IfOk, IsErrOf, IfSome, IsNone, MatchResult, ◌⊎◌, ◌↔◌};
ghost use Rattle.quic_header_decode.specs.Headers.{dst_of, space_of, IsShort, IsInitial, IsZeroRtt};
ghost use Rattle.quic_header_decode.specs.Datagram.{CutsFirst, IsUncut};
ghost use Rattle.quic_header_decode.specs.Reading.{cut_at, left_of, read_by, IsRest};
ghost use Rattle.quic_header_decode.specs.Refusal.{GivesRead};

use crate::decode_error::PacketDecodeError;
use crate::parser::ConnectionIdParser;
use crate::protected::{ProtectedHeader, ProtectedInitialHeader};
use bytes::BytesMut;
use quic_base::coding::{Cursor, are_bytes};
use quic_base::ids::{ConnectionId, SpaceId};
use quic_header_encode::long_type::LongType;
use std::marker::Model;

/// A packet that was cut from a datagram, whose header is still protected.
#[derive(Debug, Drop)]
pub struct PartialDecode {
    pub(crate) plain_header: ProtectedHeader,
    pub(crate) packet: BytesMut,
    pub(crate) position: usize,
}

impl Model for PartialDecode {
    ghost use Rattle.std.specs.Prelude.{◌≤◌, length};
    ghost use Rattle.quic_header_decode.specs.Datagram.{CutPacket};
    ghost use Rattle.quic_header_decode.specs.Reading.{IsPlaced};

    ghost Value = { CutPacket };

    ghost view = { λ p. record { head = p.plain_header; header_end = p.position; bytes = p.packet.items } };

    ghost invariant = { λ p. IsPlaced p.plain_header p.position × (p.position ≤ length p.packet.items) };
}

impl PartialDecode {
    /// Cuts the first packet from a datagram, and returns it with the bytes after it, if there are any. An Initial,
    /// Handshake or 0-RTT packet ends where the length in its header says; others end with the datagram. If no header
    /// can be read, the error is that of `ProtectedHeader::decode`; a length beyond the end is `InvalidHeader("packet
    /// too short to contain payload length")`. `OutOfMemory` comes only from a parser that allocates, or if bytes
    /// follow the packet.
    ///
    /// Without `grease` a version negotiation whose fixed bit is clear is rejected, although clients ignore that bit
    /// (RFC 9000, section 17.2.1).
    #[inline(always)]
    pub fn new<P: ConnectionIdParser>(
        bytes: BytesMut,
        parser: &P,
        versions: &[u32],
        grease: bool,
    ) -> Result<(Self, Option<BytesMut>), PacketDecodeError>
        ensures cut { IfOk result (λ x. CutsFirst (read_by (P.parsed parser.now) versions.now grease) bytes.items
            x.0 (left_of x.1)) }
        ensures rest { IfOk result (λ x. IfSome x.1 (λ rest. 0 < length rest.items)) }
        ensures shorter { IfOk result (λ x. IfSome x.1 (λ rest. length rest.items < length bytes.items)) }
        ensures refused { IfErr result (λ e. IsUncut (read_by (P.parsed parser.now) versions.now grease)
            (P.takes_memory parser.now) bytes.items e) }
    {
        are_bytes(bytes.as_slice());
        Self::cut(bytes, parser, versions, grease)
    }

    #[inline(always)]
    #[tactic(auto, unfolding(crate::specs::Reading::cut_at))]
    fn cut<P: ConnectionIdParser>(
        bytes: BytesMut,
        parser: &P,
        versions: &[u32],
        grease: bool,
    ) -> Result<(Self, Option<BytesMut>), PacketDecodeError>
        ensures exact { GivesRead (λ x. (x.0.head, x.0.header_end, length x.0.bytes)) result
            (cut_at (read_by (P.parsed parser.now) versions.now grease) bytes.items) }
        ensures packet { IfOk result (λ x. x.0.bytes ≡ take (length x.0.bytes) bytes.items) }
        ensures rest { IfOk result (λ x. IsRest x.1 (drop (length x.0.bytes) bytes.items)) }
        ensures memory { IsErrOf result PacketDecodeError.OutOfMemory → IsTrue (P.takes_memory parser.now)
            ⊎ MatchResult (cut_at (read_by (P.parsed parser.now) versions.now grease) bytes.items)
            (λ x. x.2 < length bytes.items) (λ _. ⊥) }
    {
        let mut buf = Cursor::new(bytes);
        let read = ProtectedHeader::decode_header(&mut buf, parser, versions, grease);
        let position = buf.position();
        let remaining = buf.remaining() as u64;
        let mut datagram = buf.into_inner();
        // All errors leave here, so that the datagram is dropped in one place.
        let refusal = match read {
            Ok(plain_header) => {
                let len = plain_header.payload_len().unwrap_or(remaining);
                if len == remaining {
                    let whole = PartialDecode {
                        plain_header,
                        packet: datagram,
                        position,
                    };
                    return Ok((whole, None));
                }
                if remaining < len {
                    PacketDecodeError::InvalidHeader("packet too short to contain payload length")
                } else if let Ok(packet) = datagram.split_to(position + len as usize) {
                    let front = PartialDecode {
                        plain_header,
                        packet,
                        position,
                    };
                    return Ok((front, Some(datagram)));
                } else {
                    PacketDecodeError::OutOfMemory
                }
            }
            Err(e) => e,
        };
        Err(refusal)
    }

    /// The packet's bytes.
    pub fn data(&self) -> &[u8]
        ensures { result.now ≡ self.now.bytes }
    {
        self.packet.as_slice()
    }

    /// How many bytes the packet has.
    #[allow(clippy::len_without_is_empty)]
    pub fn len(&self) -> usize
        ensures { result ≡ length self.now.bytes }
    {
        self.packet.len()
    }

    /// The header, still protected.
    pub fn header(&self) -> &ProtectedHeader
        ensures { result.now ≡ self.now.head }
    {
        &self.plain_header
    }

    /// The header, if this is an Initial packet.
    pub fn initial_header(&self) -> Option<&ProtectedInitialHeader>
        ensures some { IfSome result (λ h. self.now.head ≡ ProtectedHeader.Initial h.now) }
        ensures none { IsNone result → IsInitial self.now.head → ⊥ }
    {
        match &self.plain_header {
            ProtectedHeader::Initial(head) => Some(head),
            _ => None,
        }
    }

    /// The receiver's id.
    pub fn dst_cid(&self) -> &ConnectionId
        ensures { result.now ≡ dst_of self.now.head }
    {
        self.plain_header.dst_cid()
    }

    /// The packet number space. `None` for Retry and version negotiation, which have no number.
    pub fn space(&self) -> Option<SpaceId>
        ensures { result ≡ space_of self.now.head }
    {
        match &self.plain_header {
            ProtectedHeader::Initial(_) => Some(SpaceId::Initial),
            ProtectedHeader::Long { ty, .. } => Some(match ty {
                LongType::Handshake => SpaceId::Handshake,
                LongType::ZeroRtt => SpaceId::Data,
            }),
            ProtectedHeader::Retry { .. } => None,
            ProtectedHeader::Short { .. } => Some(SpaceId::Data),
            ProtectedHeader::VersionNegotiate { .. } => None,
        }
    }

    /// Whether the header is long.
    pub fn has_long_header(&self) -> bool
        ensures { IsTrue result ↔ (IsShort self.now.head → ⊥) }
    {
        !matches!(&self.plain_header, ProtectedHeader::Short { .. })
    }

    /// Whether it is an Initial packet.
    pub fn is_initial(&self) -> bool
        ensures { IsTrue result ↔ IsInitial self.now.head }
    {
        matches!(&self.plain_header, ProtectedHeader::Initial(_))
    }

    /// Whether it is a 0-RTT packet.
    pub fn is_0rtt(&self) -> bool
        ensures { IsTrue result ↔ IsZeroRtt self.now.head }
    {
        matches!(
            &self.plain_header,
            ProtectedHeader::Long {
                ty: LongType::ZeroRtt,
                ..
            }
        )
    }
}
