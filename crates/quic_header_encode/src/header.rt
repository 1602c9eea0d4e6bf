//! Headers of packets as values (RFC 9000, section 17).
ghost use Rattle.std.specs.Prelude.{◌≡◌, ◌↔◌, IsTrue};
ghost use Rattle.quic_header_encode.specs.Kinds.{space_in, dst_in, number_in, phase_in, IsShortHeader, IsEarly};
ghost use Rattle.quic_header_encode.specs.Writing.{has_number};

use crate::long_type::LongType;
use bytes::Bytes;
use quic_base::ids::{ConnectionId, SpaceId};
use quic_crypto::packet_number::PacketNumber;

/// The header of an Initial packet (RFC 9000, section 17.2.2).
#[derive(Debug, Drop)]
pub struct InitialHeader {
    /// The receiver's id.
    pub dst_cid: ConnectionId,
    /// The sender's id.
    pub src_cid: ConnectionId,
    /// The token. A header that is written must have one of fewer than 2^62 bytes.
    pub token: Bytes,
    /// The truncated packet number.
    pub number: PacketNumber,
    /// The version (RFC 9000, section 15).
    pub version: u32,
}

/// The header of a packet, without protection. The length of an Initial, Handshake or 0-RTT packet isn't a part of it:
/// `PartialEncode::finish` fills it in.
#[derive(Debug, Drop)]
pub enum Header {
    /// The header of an Initial packet.
    Initial(InitialHeader),
    /// The header of a Handshake or 0-RTT packet (RFC 9000, sections 17.2.3 and 17.2.4).
    Long {
        /// Which of the two.
        ty: LongType,
        /// The receiver's id.
        dst_cid: ConnectionId,
        /// The sender's id.
        src_cid: ConnectionId,
        /// The truncated packet number.
        number: PacketNumber,
        /// The version (RFC 9000, section 15).
        version: u32,
    },
    /// The header of a Retry packet (RFC 9000, section 17.2.5). Its token and tag follow it.
    Retry {
        /// The receiver's id.
        dst_cid: ConnectionId,
        /// The sender's id.
        src_cid: ConnectionId,
        /// The version (RFC 9000, section 15).
        version: u32,
    },
    /// The header of a 1-RTT packet (RFC 9000, section 17.3.1).
    Short {
        /// The spin bit (RFC 9000, section 17.4).
        spin: bool,
        /// The Key Phase bit (RFC 9001, section 6).
        key_phase: bool,
        /// The receiver's id.
        dst_cid: ConnectionId,
        /// The truncated packet number.
        number: PacketNumber,
    },
    /// The header of a version negotiation (RFC 9000, section 17.2.1). The versions follow it.
    VersionNegotiate {
        /// The first byte without its highest bit.
        random: u8,
        /// The sender's id.
        src_cid: ConnectionId,
        /// The receiver's id.
        dst_cid: ConnectionId,
    },
}

impl Header {
    /// Whether the packet is protected: all are, except Retry and version negotiation.
    pub fn is_protected(&self) -> bool
        ensures { result ≡ has_number self.now }
    {
        match self {
            Self::Initial(_) => true,
            Self::Long { .. } => true,
            Self::Retry { .. } => false,
            Self::Short { .. } => true,
            Self::VersionNegotiate { .. } => false,
        }
    }

    /// The truncated packet number. `None` for Retry and version negotiation.
    pub fn number(&self) -> Option<PacketNumber>
        ensures { result ≡ number_in self.now }
    {
        match self {
            Self::Initial(head) => Some(head.number),
            Self::Long { number, .. } => Some(*number),
            Self::Retry { .. } => None,
            Self::Short { number, .. } => Some(*number),
            Self::VersionNegotiate { .. } => None,
        }
    }

    /// The space of the packet's number; Initial also for Retry and version negotiation, which have no number.
    pub fn space(&self) -> SpaceId
        ensures { result ≡ space_in self.now }
    {
        match self {
            Self::Initial(_) => SpaceId::Initial,
            Self::Long { ty, .. } => match ty {
                LongType::Handshake => SpaceId::Handshake,
                LongType::ZeroRtt => SpaceId::Data,
            },
            Self::Retry { .. } => SpaceId::Initial,
            Self::Short { .. } => SpaceId::Data,
            Self::VersionNegotiate { .. } => SpaceId::Initial,
        }
    }

    /// The Key Phase bit of a short header; false for others.
    pub fn key_phase(&self) -> bool
        ensures { result ≡ phase_in self.now }
    {
        match self {
            Self::Short { key_phase, .. } => *key_phase,
            _ => false,
        }
    }

    /// The receiver's id.
    pub fn dst_cid(&self) -> &ConnectionId
        ensures { result.now ≡ dst_in self.now }
    {
        match self {
            Self::Initial(head) => &head.dst_cid,
            Self::Long { dst_cid, .. } => dst_cid,
            Self::Retry { dst_cid, .. } => dst_cid,
            Self::Short { dst_cid, .. } => dst_cid,
            Self::VersionNegotiate { dst_cid, .. } => dst_cid,
        }
    }

    /// Whether the packet has frames: only the protected ones have.
    pub fn has_frames(&self) -> bool
        ensures { result ≡ has_number self.now }
    {
        self.is_protected()
    }

    /// Whether the header is short.
    pub fn is_short(&self) -> bool
        ensures { IsTrue result ↔ IsShortHeader self.now }
    {
        matches!(self, Self::Short { .. })
    }

    /// Whether it is a 1-RTT packet: only those with a short header are.
    pub fn is_1rtt(&self) -> bool
        ensures { IsTrue result ↔ IsShortHeader self.now }
    {
        self.is_short()
    }

    /// Whether it is a 0-RTT packet.
    pub fn is_0rtt(&self) -> bool
        ensures { IsTrue result ↔ IsEarly self.now }
    {
        matches!(
            self,
            Self::Long {
                ty: LongType::ZeroRtt,
                ..
            }
        )
    }
}
