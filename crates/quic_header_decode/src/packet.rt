//! Packets whose header protection was removed (RFC 9000, section 17).
ghost use Rattle.std.specs.Prelude.{◌≡◌, ◌<◌, length, slice_index, false};
ghost use Rattle.quic_header_encode.specs.declared.header.Header.TheVariants as headers;
ghost use Rattle.quic_header_encode.specs.Kinds.{reserved_zero};

use bytes::{Bytes, BytesMut};
use quic_header_encode::header::{Header, InitialHeader};

/// An Initial packet whose header protection was removed. Its payload may still be sealed.
#[derive(Debug, Drop)]
pub struct InitialPacket {
    /// The header.
    pub header: InitialHeader,
    /// The header's bytes, with the packet number.
    pub header_data: Bytes,
    /// What follows the header.
    pub payload: BytesMut,
}

/// A packet whose header protection was removed. Its payload may still be sealed.
#[derive(Debug, Drop)]
pub struct Packet {
    /// The header.
    pub header: Header,
    /// The header's bytes, with the packet number.
    pub header_data: Bytes,
    /// What follows the header: in a Retry its token and tag, in a version negotiation the versions.
    pub payload: BytesMut,
}

impl Packet {
    /// Whether the reserved bits of the header's first byte are zero, as they must be (RFC 9000, sections 17.2 and
    /// 17.3.1): 0x18 in a short header, 0x0c in others. False if `header_data` is empty.
    pub fn reserved_bits_valid(&self) -> bool
        ensures some { 0 < length self.now.header_data
            → result ≡ reserved_zero self.now.header (slice_index self.now.header_data 0) }
        ensures none { length self.now.header_data ≡ 0 → result ≡ false }
    {
        let Some(first) = self.header_data.as_slice().first() else {
            return false;
        };
        if self.header.is_short() {
            first / 8 % 4 == 0
        } else {
            first / 4 % 4 == 0
        }
    }
}

/// The same packet.
impl From<InitialPacket> for Packet {
    ghost from_gives = { λ initial packet. (packet.header ≡ headers.Initial initial.header)
        × (packet.header_data ≡ initial.header_data) × (packet.payload ≡ initial.payload) };

    fn from(initial: InitialPacket) -> Packet {
        Packet {
            header: Header::Initial(initial.header),
            header_data: initial.header_data,
            payload: initial.payload,
        }
    }
}
