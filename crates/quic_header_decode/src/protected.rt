//! Protected packet headers (RFC 9000, section 17).
ghost use Rattle.std.specs.Prelude.{◌≡◌, ◌<◌, ◌≤◌, length, IsTrue, Err, IfErr, IfOk, IsErrOf, ◌≢◌, drop};
ghost use Rattle.quic_header_decode.specs.Refusal.{refusal_of, GivesRead};
ghost use Rattle.quic_header_decode.specs.Grammar.{HeaderAt, Refused};
ghost use Rattle.quic_header_decode.specs.Headers.{dst_of};
ghost use Rattle.quic_header_decode.specs.Reading.{header_at, long_at, read_by, typed_at, len_in, IsPlaced};

use crate::decode_error::PacketDecodeError;
use crate::fields::{pass, read_id, read_var, read_word, remaining};
use crate::parser::ConnectionIdParser;
use quic_base::coding::Cursor;
use quic_base::ids::ConnectionId;
use quic_header_encode::long_type::{LongHeaderType, LongType};
use std::ops::Range;

/// The protected header of an Initial packet (RFC 9000, section 17.2.2).
#[derive(Clone, Debug, Drop)]
pub struct ProtectedInitialHeader {
    /// The receiver's id.
    pub dst_cid: ConnectionId,
    /// The sender's id.
    pub src_cid: ConnectionId,
    /// The byte range of the token in the cursor's bytes; after `PartialDecode::new`, in the packet.
    pub token_pos: Range<usize>,
    /// How many bytes the packet has after its header, including those of the packet number.
    pub len: u64,
    /// The version (RFC 9000, section 15).
    pub version: u32,
}

/// The protected header of a packet.
#[derive(Clone, Debug, Drop)]
pub enum ProtectedHeader {
    /// The header of an Initial packet.
    Initial(ProtectedInitialHeader),
    /// The header of a Handshake or 0-RTT packet (RFC 9000, sections 17.2.3 and 17.2.4).
    Long {
        /// Which of the two.
        ty: LongType,
        /// The receiver's id.
        dst_cid: ConnectionId,
        /// The sender's id.
        src_cid: ConnectionId,
        /// How many bytes the packet has after its header, including those of the packet number.
        len: u64,
        /// The version (RFC 9000, section 15).
        version: u32,
    },
    /// The header of a Retry packet (RFC 9000, section 17.2.5). Its token and tag follow it.
    Retry {
        /// The receiver's id.
        dst_cid: ConnectionId,
        /// The sender's id.
        src_cid: ConnectionId,
        /// The version (RFC 9000, section 15).
        version: u32,
    },
    /// The header of a 1-RTT packet (RFC 9000, section 17.3.1).
    Short {
        /// The spin bit (RFC 9000, section 17.4).
        spin: bool,
        /// The receiver's id.
        dst_cid: ConnectionId,
    },
    /// The header of a version negotiation (RFC 9000, section 17.2.1). The versions follow it.
    VersionNegotiate {
        /// The first byte without its highest bit.
        random: u8,
        /// The receiver's id.
        dst_cid: ConnectionId,
        /// The sender's id.
        src_cid: ConnectionId,
    },
}

impl ProtectedHeader {
    ghost use Rattle.quic_base.specs.Cursor.{unread};

    /// Reads the header at the cursor's position, in the order of its fields. The error is that of the first field that
    /// can't be read. Afterwards the cursor is at the header's end; after an error its position is unspecified. Its
    /// bytes don't change. For versions other than `versions` only the ids are read. With `grease` the fixed bit may be
    /// clear (RFC 9287). `OutOfMemory` comes only from a parser that allocates.
    ///
    /// Without `grease` every header whose fixed bit is clear is rejected, as in quinn-proto, although clients ignore
    /// that bit in a version negotiation (RFC 9000, section 17.2.1), and a version that isn't known may use it for
    /// anything (RFC 8999, section 5.1).
    #[inline(always)]
    pub fn decode<P: ConnectionIdParser>(
        buf: &mut Cursor,
        parser: &P,
        versions: &[u32],
        grease: bool,
    ) -> Result<Self, PacketDecodeError>
        ensures bytes { buf.new.bytes ≡ buf.old.bytes }
        ensures found { IfOk result (λ h. HeaderAt (read_by (P.parsed parser.now) versions.now grease)
            (length buf.old.bytes.items) (unread buf.old) h (unread buf.new)) }
        ensures refused { IfErr result (λ e. e ≢ PacketDecodeError.OutOfMemory
            → Refused (read_by (P.parsed parser.now) versions.now grease) (unread buf.old) (refusal_of e)) }
        ensures memory { IsErrOf result PacketDecodeError.OutOfMemory → IsTrue (P.takes_memory parser.now) }
        ensures places { IfOk result (λ h. IsPlaced h buf.new.position) }
    {
        let _rest = buf.rest();
        let _len = buf.remaining();
        Self::decode_header(buf, parser, versions, grease)
    }

    // Reading a short header is inlined into the caller; a long one is read by a call.
    #[inline(always)]
    #[tactic(auto, unfolding(crate::specs::Reading::header_at))]
    pub(crate) fn decode_header<P: ConnectionIdParser>(
        buf: &mut Cursor,
        parser: &P,
        versions: &[u32],
        grease: bool,
    ) -> Result<Self, PacketDecodeError>
        ensures bytes { buf.new.bytes ≡ buf.old.bytes }
        ensures exact { GivesRead (λ h. (h, unread buf.new)) result
            (header_at (read_by (P.parsed parser.now) versions.now grease)
            (length buf.old.bytes.items) (unread buf.old)) }
        ensures memory { IsErrOf result PacketDecodeError.OutOfMemory → IsTrue (P.takes_memory parser.now) }
        ensures places { IfOk result (λ h. IsPlaced h buf.new.position) }
    {
        let Some(first) = buf.rest().first() else {
            return Err(PacketDecodeError::InvalidHeader("unexpected end of packet"));
        };
        let first = *first;
        if !grease && first / 64 % 2 == 0 {
            return Err(PacketDecodeError::InvalidHeader("fixed bit unset"));
        }
        buf.advance(1);
        if first < 0x80 {
            let spin = first / 32 % 2 == 1;
            return match parser.parse(buf) {
                Ok(dst_cid) => Ok(Self::Short { spin, dst_cid }),
                Err(e) => Err(e),
            };
        }
        Self::decode_long(buf, first, versions)
    }

    // Reads the rest of a long header, after its first byte, at the cursor's position.
    #[inline(always)]
    fn decode_long(buf: &mut Cursor, first: u8, versions: &[u32]) -> Result<Self, PacketDecodeError>
        requires long { 128 ≤ first }
        ensures bytes { buf.new.bytes ≡ buf.old.bytes }
        ensures exact { GivesRead (λ h. (h, unread buf.new)) result
            (long_at versions.now (length buf.old.bytes.items) first (unread buf.old)) }
        ensures memory { result ≢ Err PacketDecodeError.OutOfMemory }
        ensures places { 0 < buf.old.position → IfOk result (λ h. IsPlaced h buf.new.position) }
    {
        let start = buf.position();
        let mut place = start;
        let head = Self::read_long(buf.get_ref().as_slice(), &mut place, first, versions);
        buf.advance(place - start);
        head
    }

    // Reads the rest of a long header, after its first byte, and moves the offset to its end. It is one function, so
    // that each header is built once, not once for each call that returns it. Each kind returns separately and builds
    // the sender's id itself, so that the id's bytes are copied directly into the result.
    #[inline(never)]
    #[tactic(auto, unfolding(crate::specs::Reading::long_at, crate::specs::Reading::typed_at))]
    fn read_long(
        bytes: &[u8],
        place: &mut usize,
        first: u8,
        versions: &[u32],
    ) -> Result<Self, PacketDecodeError>
        requires long { 128 ≤ first }
        requires inside { place.old ≤ length bytes.now }
        ensures forward { place.old ≤ place.new }
        ensures within { place.new ≤ length bytes.now }
        ensures exact { GivesRead (λ h. (h, drop place.new bytes.now)) result
            (long_at versions.now (length bytes.now) first (drop place.old bytes.now)) }
        ensures memory { result ≢ Err PacketDecodeError.OutOfMemory }
        ensures places { 0 < place.old → IfOk result (λ h. IsPlaced h place.new) }
    {
        let mut at = *place;
        let Some(version) = read_word(bytes, &mut at) else {
            return Err(PacketDecodeError::InvalidHeader("unexpected end of packet"));
        };
        let Some(dst) = read_id(bytes, &mut at) else {
            return Err(PacketDecodeError::InvalidHeader("malformed cid"));
        };
        let Some(src) = read_id(bytes, &mut at) else {
            return Err(PacketDecodeError::InvalidHeader("malformed cid"));
        };
        let dst_cid = ConnectionId::new(dst);
        if version == 0 {
            *place = at;
            return Ok(Self::VersionNegotiate {
                random: first - 0x80,
                dst_cid,
                src_cid: ConnectionId::new(src),
            });
        }
        if !versions.contains(&version) {
            return Err(PacketDecodeError::UnsupportedVersion {
                src_cid: ConnectionId::new(src),
                dst_cid,
                version,
            });
        }
        match LongHeaderType::from_byte(first, version) {
            LongHeaderType::Retry => {
                *place = at;
                return Ok(Self::Retry {
                    dst_cid,
                    src_cid: ConnectionId::new(src),
                    version,
                });
            }
            LongHeaderType::Standard(ty) => {
                let Some(len) = read_var(bytes, &mut at) else {
                    return Err(PacketDecodeError::InvalidHeader("unexpected end of packet"));
                };
                *place = at;
                return Ok(Self::Long {
                    ty,
                    dst_cid,
                    src_cid: ConnectionId::new(src),
                    len,
                    version,
                });
            }
            LongHeaderType::Initial => {}
        }
        let Some(token_len) = read_var(bytes, &mut at) else {
            return Err(PacketDecodeError::InvalidHeader("unexpected end of packet"));
        };
        let start = at;
        if token_len > remaining(bytes, start) as u64 {
            return Err(PacketDecodeError::InvalidHeader("token out of bounds"));
        }
        pass(bytes, &mut at, token_len as usize);
        let end = at;
        let Some(len) = read_var(bytes, &mut at) else {
            return Err(PacketDecodeError::InvalidHeader("unexpected end of packet"));
        };
        *place = at;
        Ok(Self::Initial(ProtectedInitialHeader {
            dst_cid,
            src_cid: ConnectionId::new(src),
            token_pos: start..end,
            len,
            version,
        }))
    }
}

impl ProtectedHeader {
    // The value of the header's Length field.
    #[inline]
    pub(crate) fn payload_len(&self) -> Option<u64>
        ensures { result ≡ len_in self.now }
    {
        match self {
            Self::Initial(head) => Some(head.len),
            Self::Long { len, .. } => Some(*len),
            _ => None,
        }
    }

    /// The receiver's id.
    pub fn dst_cid(&self) -> &ConnectionId
        ensures { result.now ≡ dst_of self.now }
    {
        match self {
            Self::Initial(head) => &head.dst_cid,
            Self::Long { dst_cid, .. } => dst_cid,
            Self::Retry { dst_cid, .. } => dst_cid,
            Self::Short { dst_cid, .. } => dst_cid,
            Self::VersionNegotiate { dst_cid, .. } => dst_cid,
        }
    }
}
