//! The levels of packets' keys (RFC 9001, section 2.1).
ghost use Rattle.std.specs.Prelude.{◌≡◌};
ghost use Rattle.quic_levels.specs.Levels.{level_of, space_at};

use quic_base::ids::SpaceId;
use quic_header_decode::protected::ProtectedHeader;
use quic_header_encode::long_type::LongType;

/// The level of a packet's keys (RFC 9001, section 2.1).
#[derive(Clone, Copy, Debug, PartialEq, Eq)]
pub enum Level {
    /// Of Initial packets.
    Initial,
    /// Of 0-RTT packets.
    ZeroRtt,
    /// Of Handshake packets.
    Handshake,
    /// Of 1-RTT packets, which have a short header.
    OneRtt,
}

impl Level {
    /// The level of a packet, by its header (RFC 9001, section 4, table 1). `None` for Retry and version negotiation,
    /// which have no header protection.
    pub fn of(header: &ProtectedHeader) -> Option<Level>
        ensures { result ≡ level_of header.now }
    {
        match header {
            ProtectedHeader::Initial(_) => Some(Level::Initial),
            ProtectedHeader::Long { ty, .. } => Some(match ty {
                LongType::Handshake => Level::Handshake,
                LongType::ZeroRtt => Level::ZeroRtt,
            }),
            ProtectedHeader::Retry { .. } => None,
            ProtectedHeader::Short { .. } => Some(Level::OneRtt),
            ProtectedHeader::VersionNegotiate { .. } => None,
        }
    }

    /// The space of the level's packet numbers (RFC 9000, section 12.3). 0-RTT and 1-RTT packets share one.
    pub fn space(self) -> SpaceId
        ensures { result ≡ space_at self }
    {
        match self {
            Level::Initial => SpaceId::Initial,
            Level::ZeroRtt => SpaceId::Data,
            Level::Handshake => SpaceId::Handshake,
            Level::OneRtt => SpaceId::Data,
        }
    }
}
