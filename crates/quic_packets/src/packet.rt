//! Packet headers, cutting datagrams into packets, and sealing and opening packets.

pub use crate::keys::{Expected, Keys, SpaceKeys};
pub use crate::opening::{OpenError, Opened, Packets, open_datagram, open_packet};
pub use crate::seal::{SealError, seal_packet};
pub use quic_crypto::packet_number::PacketNumber;
pub use quic_header_decode::cut::PartialDecode;
pub use quic_header_decode::decode_error::PacketDecodeError;
pub use quic_header_decode::packet::{InitialPacket, Packet};
pub use quic_header_decode::parser::{
    ConnectionIdParser, DecodeOptions, FixedLengthConnectionIdParser,
};
pub use quic_header_decode::protected::{ProtectedHeader, ProtectedInitialHeader};
pub use quic_header_encode::encode::PartialEncode;
pub use quic_header_encode::header::{Header, InitialHeader};
pub use quic_header_encode::long_type::{
    FIXED_BIT, LONG_HEADER_FORM, LongHeaderType, LongType, SPIN_BIT, VERSION_2,
};
