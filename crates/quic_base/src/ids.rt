//! Identifiers of sides, streams, connections and packet number spaces, and the limits on them
//! (RFC 9000, sections 2.1, 5.1, 10.3, 12.3, 13.4 and 14).
ghost use Rattle.std.specs.Prelude.{◌≡◌, ◌<◌, ◌^◌, ◌/◌, ◌%◌, ◌↔◌, List, ℕ, [], ◌∷◌, Some, drop, take, length, nat_eq, IsTrue, MatchOption};
ghost use Rattle.std.specs.Array.Iter.{array_into_iter_items};
ghost use Rattle.std.specs.Cmp.{partial_equiv_from_equiv};
ghost use Rattle.std.specs.Cmp.Lexicographic.{nat_list_eq_equiv, pointwise};
ghost use Rattle.std.specs.Int.{from_be_bytes, w64};
ghost use Rattle.quic_base.specs.Number.{AreBytes};
ghost use Rattle.quic_base.specs.Ids.{side_number, dir_number, stream_number, other_side, dir_text, initiator_of, dir_of, stream_text, ecn_bits};
ghost use Rattle.quic_base.specs.Varint.{Encodes, shortest_varint};

use crate::coding::{self, Codec, NoRoom, are_bytes};
use crate::varint::VarInt;
use bytes::{Buf, BufMut};
use std::marker::Model;
use std::ops::Not;
use std::{array, fmt};

mod connection_id;

pub use connection_id::{ConnectionId, MAX_CID_SIZE};

/// The most connection ids that an endpoint issues for one connection.
pub const LOC_CID_COUNT: u64 = 8;

/// The most streams that one side can open in one direction: 2^60 (RFC 9000, section 4.6).
pub const MAX_STREAM_COUNT: u64 = 1 << 60;

/// The length of a stateless reset token in bytes (RFC 9000, section 10.3).
pub const RESET_TOKEN_SIZE: usize = 16;

/// The smallest UDP payload, in bytes, for a datagram with an Initial packet (RFC 9000, section 14.1).
pub const MIN_INITIAL_SIZE: u16 = 1200;

/// The UDP payload size, in bytes, that every path must carry (RFC 9000, section 14).
pub const INITIAL_MTU: u16 = 1200;

/// The largest UDP payload in bytes (RFC 9000, section 18.2).
pub const MAX_UDP_PAYLOAD: u16 = 65527;

/// The versions that an endpoint supports by default: version 1 (RFC 9000, section 15), the drafts 29 to 34, and
/// version 2 (RFC 9369, section 3.1).
pub const DEFAULT_SUPPORTED_VERSIONS: &[u32] = &[
    0x0000_0001,
    0xff00_001d,
    0xff00_001e,
    0xff00_001f,
    0xff00_0020,
    0xff00_0021,
    0xff00_0022,
    0x6b33_43cf,
];

// The values of these constants.
const _: () = prove!(LOC_CID_COUNT == 8 && MAX_STREAM_COUNT == 1_152_921_504_606_846_976);

const _: () = prove!(RESET_TOKEN_SIZE == 16 && MAX_CID_SIZE == 20);

const _: () = prove!(MIN_INITIAL_SIZE == 1200 && INITIAL_MTU == 1200 && MAX_UDP_PAYLOAD == 65527);

const _: () = prove!(DEFAULT_SUPPORTED_VERSIONS.len() == 8);

const _: () = prove!(
    DEFAULT_SUPPORTED_VERSIONS[0] == 0x0000_0001 && DEFAULT_SUPPORTED_VERSIONS[1] == 0xff00_001d
);

const _: () = prove!(
    DEFAULT_SUPPORTED_VERSIONS[2] == 0xff00_001e && DEFAULT_SUPPORTED_VERSIONS[3] == 0xff00_001f
);

const _: () = prove!(
    DEFAULT_SUPPORTED_VERSIONS[4] == 0xff00_0020 && DEFAULT_SUPPORTED_VERSIONS[5] == 0xff00_0021
);

const _: () = prove!(
    DEFAULT_SUPPORTED_VERSIONS[6] == 0xff00_0022 && DEFAULT_SUPPORTED_VERSIONS[7] == 0x6b33_43cf
);

/// A side of a connection.
#[derive(Clone, Copy, Debug, PartialEq, Eq, PartialOrd, Ord, Hash)]
pub enum Side {
    /// The endpoint that opened the connection.
    Client = 0,
    /// The endpoint that accepted it.
    Server = 1,
}

impl Side {
    /// Whether this is the client.
    pub fn is_client(self) -> bool
        ensures { IsTrue result ↔ (self ≡ Side.Client) }
    {
        self == Side::Client
    }

    /// Whether this is the server.
    pub fn is_server(self) -> bool
        ensures { IsTrue result ↔ (self ≡ Side.Server) }
    {
        self == Side::Server
    }
}

/// The other side.
impl Not for Side {
    type Output = Side;

    ghost not_gives = { λ side other. other ≡ other_side side };

    fn not(self) -> Side {
        match self {
            Side::Client => Side::Server,
            Side::Server => Side::Client,
        }
    }
}

/// Whether data flow both ways on a stream (RFC 9000, section 2.1).
#[derive(Clone, Copy, Debug, PartialEq, Eq, PartialOrd, Ord, Hash)]
pub enum Dir {
    /// Data flow both ways.
    Bi = 0,
    /// Data flow only from the initiator.
    Uni = 1,
}

impl Dir {
    /// Both directions, in order.
    pub fn iter() -> array::IntoIter<Dir, 2>
        ensures { array_into_iter_items result ≡ Dir.Bi ∷ Dir.Uni ∷ [] }
    {
        [Dir::Bi, Dir::Uni].into_iter()
    }
}

/// `bidirectional` or `unidirectional`.
impl fmt::Display for Dir {
    ghost output = { λ dir. Some (dir_text dir) };

    fn fmt<W: fmt::Write>(&self, f: &mut fmt::Formatter<W>) -> fmt::Result {
        f.pad(match self {
            Dir::Bi => "bidirectional",
            Dir::Uni => "unidirectional",
        })
    }
}

/// A stream id, below 2^62 (RFC 9000, section 2.1). Contracts see it as that number.
#[derive(Clone, Copy, Debug, PartialEq, Eq, PartialOrd, Ord, Hash)]
pub struct StreamId(u64);

impl Model for StreamId {
    ghost Value = { ℕ };

    ghost view = { λ s. s.0 };

    ghost invariant = { λ s. s.0 < 2 ^ 62 };

    ghost inverse = { λ n. record { 0 = n } };
}

impl StreamId {
    /// The id of the stream that comes after `index` others of the same initiator and direction.
    /// The caller must ensure that `index` is below 2^60.
    pub fn new(initiator: Side, dir: Dir, index: u64) -> StreamId
        requires { index < 2 ^ 60 }
        ensures number { result ≡ stream_number initiator dir index }
        ensures initiator { initiator_of result ≡ initiator }
        ensures dir { dir_of result ≡ dir }
        ensures index { result / 4 ≡ index }
    {
        StreamId(4 * index + 2 * dir as u64 + initiator as u64)
    }

    /// Which side opened the stream.
    pub fn initiator(self) -> Side
        ensures { result ≡ initiator_of self }
    {
        if self.0 & 0x1 == 0 {
            Side::Client
        } else {
            Side::Server
        }
    }

    /// Whether data flow both ways.
    pub fn dir(self) -> Dir
        ensures { result ≡ dir_of self }
    {
        if (self.0 >> 1) & 0x1 == 0 {
            Dir::Bi
        } else {
            Dir::Uni
        }
    }

    /// How many streams of the same initiator and direction come before this one: below 2^60.
    pub fn index(self) -> u64
        ensures value { result ≡ self / 4 }
        ensures bound { result < 2 ^ 60 }
    {
        self.0 >> 2
    }
}

impl From<VarInt> for StreamId {
    ghost from_gives = { λ v s. s ≡ v };

    fn from(v: VarInt) -> StreamId {
        StreamId(v.into_inner())
    }
}

impl From<StreamId> for VarInt {
    ghost from_gives = { λ s v. v ≡ s };

    fn from(s: StreamId) -> VarInt {
        VarInt::from_u64_unchecked(s.0)
    }
}

impl From<StreamId> for u64 {
    ghost from_gives = { λ s x. (x ≡ s) × (s < 2 ^ 62) };

    fn from(s: StreamId) -> u64 {
        s.0
    }
}

/// A stream id is encoded as the varint of its number.
impl Codec for StreamId {
    ghost encoded = { Encodes };

    ghost encoding = { shortest_varint };

    ghost after_cut = { drop 1 };

    fn decode<B: Buf>(buf: &mut B) -> coding::Result<StreamId> {
        Ok(StreamId::from(VarInt::decode(buf)?))
    }

    fn encode<B: BufMut>(&self, buf: &mut B) -> Result<(), NoRoom> {
        VarInt::from(*self).encode(buf)
    }
}

/// Text such as `server unidirectional stream 5`.
impl fmt::Display for StreamId {
    ghost output = { λ n. Some (stream_text n) };

    fn fmt<W: fmt::Write>(&self, f: &mut fmt::Formatter<W>) -> fmt::Result {
        let initiator = match self.initiator() {
            Side::Client => "client",
            Side::Server => "server",
        };
        let dir = match self.dir() {
            Dir::Bi => "bidirectional",
            Dir::Uni => "unidirectional",
        };
        write!(f, "{initiator} {dir} stream {}", self.index())
    }
}

/// The ECN codepoint of a datagram. Its number is the codepoint's two bits (RFC 9000, section 13.4; RFC 3168, section
/// 5).
#[derive(Clone, Copy, Debug, PartialEq, Eq)]
pub enum EcnCodepoint {
    /// ECN-capable transport, ECT(0).
    Ect0 = 0b10,
    /// ECN-capable transport, ECT(1).
    Ect1 = 0b01,
    /// Congestion experienced, CE.
    Ce = 0b11,
}

const _: () = prove!(
    EcnCodepoint::Ect0 as u8 == 2 && EcnCodepoint::Ect1 as u8 == 1 && EcnCodepoint::Ce as u8 == 3
);

const _: () = prove!(Side::Client as u8 == 0 && Side::Server as u8 == 1);

const _: () = prove!(Dir::Bi as u8 == 0 && Dir::Uni as u8 == 1);

const _: () = prove!(
    SpaceId::Initial as u8 == 0 && SpaceId::Handshake as u8 == 1 && SpaceId::Data as u8 == 2
);

impl EcnCodepoint {
    /// The codepoint in the two lowest bits of `x`; `None` if both are 0.
    pub fn from_bits(x: u8) -> Option<EcnCodepoint>
        ensures { MatchOption result (x % 4 ≡ 0) (λ codepoint. x % 4 ≡ ecn_bits codepoint) }
    {
        match x & 0b11 {
            0b10 => Some(EcnCodepoint::Ect0),
            0b01 => Some(EcnCodepoint::Ect1),
            0b11 => Some(EcnCodepoint::Ce),
            _ => None,
        }
    }

    /// Whether this is CE: congestion was experienced.
    pub fn is_ce(self) -> bool
        ensures { IsTrue result ↔ (self ≡ EcnCodepoint.Ce) }
    {
        self == EcnCodepoint::Ce
    }
}

/// A stateless reset token (RFC 9000, section 10.3). Contracts see it as its sixteen bytes.
#[derive(Clone, Copy, Debug, Hash)]
pub struct ResetToken([u8; RESET_TOKEN_SIZE]);

impl Model for ResetToken {
    ghost Value = { List ℕ };

    ghost view = { λ t. t.0 };

    ghost inverse = { λ bytes. record { 0 = bytes } };
}

impl ResetToken {
    /// The sixteen bytes.
    pub fn as_slice(&self) -> &[u8]
        ensures value { result.now ≡ self.now }
        ensures width { length result.now ≡ RESET_TOKEN_SIZE }
    {
        &self.0
    }

    // Its first eight bytes and its last eight, each as a number.
    #[inline(always)]
    fn halves(&self) -> (u64, u64)
        ensures first { result.0 ≡ from_be_bytes w64 (take 8 self.now) }
        ensures last { result.1 ≡ from_be_bytes w64 (drop 8 self.now) }
        ensures width { length self.now ≡ RESET_TOKEN_SIZE }
        ensures bytes { AreBytes self.now }
    {
        let ResetToken(bytes) = self;
        are_bytes(bytes);
        let (Some(first), Some(last)) = (bytes.first_chunk::<8>(), bytes.last_chunk::<8>()) else {
            unreachable!()
        };
        (u64::from_be_bytes(*first), u64::from_be_bytes(*last))
    }
}

/// Two tokens are equal exactly when their bytes are. The comparison runs the same instructions for all tokens, so that
/// its time doesn't tell how many bytes are right (RFC 9000, section 10.3.1). That is counted by a test, not proved.
impl PartialEq for ResetToken {
    ghost eq = { pointwise nat_eq };

    ghost laws = { partial_equiv_from_equiv nat_list_eq_equiv };

    #[inline(always)]
    fn eq(&self, other: &ResetToken) -> bool {
        let (first, last) = self.halves();
        let (other_first, other_last) = other.halves();
        (first == other_first) & (last == other_last)
    }
}

impl Eq for ResetToken {
    ghost laws = { nat_list_eq_equiv };
}

impl From<[u8; RESET_TOKEN_SIZE]> for ResetToken {
    ghost from_gives = { λ bytes token. token ≡ bytes };

    fn from(bytes: [u8; RESET_TOKEN_SIZE]) -> ResetToken {
        ResetToken(bytes)
    }
}

impl From<ResetToken> for [u8; RESET_TOKEN_SIZE] {
    ghost from_gives = { λ token bytes. bytes ≡ token };

    fn from(token: ResetToken) -> [u8; RESET_TOKEN_SIZE] {
        token.0
    }
}

/// A connection id that an endpoint issued, with its sequence number and its token (RFC 9000, section 19.15).
#[derive(Clone, Copy, Debug)]
pub struct IssuedCid {
    /// The sequence number of the id.
    pub sequence: u64,
    /// The id.
    pub id: ConnectionId,
    /// The stateless reset token for the id.
    pub reset_token: ResetToken,
}

/// The packet number spaces (RFC 9000, section 12.3).
#[derive(Clone, Copy, Debug, PartialEq, Eq, PartialOrd, Ord)]
pub enum SpaceId {
    /// Initial packets.
    Initial = 0,
    /// Handshake packets.
    Handshake = 1,
    /// 0-RTT and 1-RTT packets.
    Data = 2,
}

impl SpaceId {
    /// All three spaces, in order.
    pub fn iter() -> array::IntoIter<SpaceId, 3>
        ensures { array_into_iter_items result
            ≡ SpaceId.Initial ∷ SpaceId.Handshake ∷ SpaceId.Data ∷ [] }
    {
        [SpaceId::Initial, SpaceId::Handshake, SpaceId::Data].into_iter()
    }
}
