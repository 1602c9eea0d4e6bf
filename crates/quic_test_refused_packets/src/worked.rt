//! Keys and headers of the worked rows.
ghost use Rattle.std.specs.Prelude.{◌≡◌, ◌≤◌, ◌<◌, ◌^◌, ◌++◌, List, [], Ok, ℕ, length};
ghost use Rattle.quic_header_encode.specs.Writing.{IsWritable};
ghost use Rattle.quic_header_decode.specs.Grammar.{IsKnownVersion};
ghost use Rattle.quic_header_decode.specs.Reading.{DecodeOptions};
ghost use Rattle.quic_packets.specs.Opening.{ExpandsIn, IsReadable};
ghost use Rattle.quic_packets.specs.Sealing.{IsLowPart};

use bytes::Bytes;
use quic_base::ids::ConnectionId;
use quic_packets::crypto::toy::{ToyHeaderKey, ToyPacketKey};
use quic_packets::packet::{
    Expected, Header, InitialHeader, Keys, LongType, PacketNumber, SpaceKeys,
};

/// The number 0 is expected in each space.
pub const ALL_ZERO: Expected = Expected {
    initial: 0,
    handshake: 0,
    app: 0,
};

/// Keys that protect nothing, in one space.
pub fn toy() -> Keys<ToyHeaderKey, ToyPacketKey> {
    Keys {
        header: ToyHeaderKey,
        packet: ToyPacketKey,
    }
}

/// The same keys in each space.
pub fn all_toy() -> SpaceKeys<ToyHeaderKey, ToyPacketKey> {
    SpaceKeys {
        initial: toy(),
        handshake: toy(),
        app: toy(),
    }
}

/// The header of an Initial packet from the id `04` to `010203`, with a token and a number of three bytes.
pub fn initial(token: &'static [u8]) -> Header
    requires { length token.now < 2 ^ 62 }
    ensures { IsWritable result }
{
    Header::Initial(InitialHeader {
        dst_cid: ConnectionId::new(b"\x01\x02\x03"),
        src_cid: ConnectionId::new(b"\x04"),
        token: Bytes::from_static(token),
        number: PacketNumber::U24(0x12_3456),
        version: 1,
    })
}

/// The header of a Handshake packet for the id `aa`, with the number 0 in one byte.
pub fn handshake(version: u32) -> Header
    ensures writable { IsWritable result }
    ensures low { IsLowPart result 0 }
    ensures found { ExpandsIn result 0 0 }
    ensures read { (context : DecodeOptions) (rest : List ℕ) → IsKnownVersion context version
        → IsReadable context result rest }
{
    Header::Long {
        ty: LongType::Handshake,
        dst_cid: ConnectionId::new(b"\xaa"),
        src_cid: ConnectionId::new(b""),
        number: PacketNumber::U8(0),
        version,
    }
}

/// The header of a 1-RTT packet for an id, with a number's lowest byte.
pub fn short(id: &[u8], number: u64) -> Header
    requires { length id.now ≤ 20 }
    ensures writable { IsWritable result }
    ensures low { IsLowPart result number }
    ensures found { number ≤ 128 → ExpandsIn result 0 number }
    ensures read { (context : DecodeOptions)
        → ((tail : List ℕ) → context.parsed (id.now ++ tail) ≡ Ok (id.now, length id.now))
        → IsReadable context result [] }
{
    Header::Short {
        spin: false,
        key_phase: false,
        dst_cid: ConnectionId::new(id),
        number: PacketNumber::U8((number % 256) as u8),
    }
}
