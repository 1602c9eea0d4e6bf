//! Reads headers as offsets in the caller's bytes: nothing is copied.
ghost use Rattle.std.specs.Prelude.{◌≡◌, ◌+◌, ◌<◌, ◌≤◌, ◌∷◌, ℕ, Some, None, length, drop, slice_index, slice_range, IfOk, IfSome, MatchOption, ◌==◌};
ghost use Rattle.std.specs.List.{list_any};
ghost use Rattle.quic_header_encode.specs.Writing.{IsTyped};
ghost use Rattle.quic_header_decode.specs.Reading.{Reads, wide_id_at, word_at};
ghost use Rattle.quic_header_decode.specs.Places.{any_fixed, ends_at, seen_in, src_part, type_placed, ArePlacesWithin, IsSeen, ReadAnswer};
ghost use Rattle.quic_header_decode.specs.Reading.{wide_at, wide_header_at, typed_at};

pub use crate::fields::Place;
use crate::fields::{pass, read_var, read_word, remaining};
use quic_base::coding::are_bytes;
use quic_base::ids::MAX_CID_SIZE;
pub use quic_header_encode::long_type::HeaderKind;

/// A packet's header as offsets in bytes that begin with the packet. Fields that its kind doesn't have are 0.
#[derive(Clone, Copy, Debug, PartialEq, Eq)]
pub struct HeaderPlaces {
    /// The kind.
    pub kind: HeaderKind,
    /// The first byte, still protected.
    pub first: u8,
    /// The version of QUIC: 0 for short headers, which have none, and for a version negotiation.
    pub version: u32,
    /// How many bytes the receiver's id has. It begins at offset 6 in a long header and at 1 in a short one.
    pub dst_len: usize,
    /// How many bytes the sender's id has. It begins after the receiver's id and its own length byte. Short headers
    /// have none.
    pub src_len: usize,
    /// The token of an Initial packet.
    pub token: Place,
    /// How many bytes an Initial, Handshake or 0-RTT packet has after its header, including those of the packet number.
    pub len: u64,
    /// The offset at which the header ends or, if the packet has a number, at which the number begins.
    pub header_end: usize,
}

/// Why no header can be read. Nothing after it can be read, so the rest of the datagram is dropped.
#[derive(Clone, Copy, Debug, PartialEq, Eq)]
pub enum ReadError {
    /// The endpoint doesn't support the version of a long header (RFC 9000, section 6.1). Its ids may have up to 255
    /// bytes (RFC 8999, section 5.1).
    UnsupportedVersion {
        /// The version.
        version: u32,
        /// How many bytes the receiver's id has. It begins at offset 6.
        dst_len: usize,
        /// How many bytes the sender's id has. It begins after the receiver's id and its own length byte.
        src_len: usize,
    },
    /// The bytes end within the header: "unexpected end of packet".
    UnexpectedEnd,
    /// The bytes end within a short header's id: "packet too small".
    SmallPacket,
    /// An id of a long header isn't whole, or has more than 20 bytes in a supported version: "malformed cid".
    MalformedCid,
    /// The bytes end within the token: "token out of bounds".
    TokenOutOfBounds,
}

impl HeaderPlaces {
    /// The offset at which the packet ends in a datagram of `whole` bytes: as the length in its header says, or else
    /// the datagram's end. `None` if the datagram ends before that.
    #[inline(always)]
    pub fn packet_end(&self, whole: usize) -> Option<usize>
        ensures value { result ≡ ends_at self.now whole }
        ensures within { IfSome result (λ end. end ≤ whole) }
    {
        if !self.kind.has_len() {
            return Some(whole);
        }
        if whole < self.header_end || ((whole - self.header_end) as u64) < self.len {
            return None;
        }
        Some(self.header_end + self.len as usize)
    }
}

/// Reads the header at the front of the bytes, in the order of its fields, even if the packet is cut off after it. Ids
/// of short headers have `id_len` bytes; the caller must ensure that this is at most 20. For versions other than
/// `versions` only the ids are read. The error is that of the first field that can't be read. It doesn't allocate.
///
/// The fixed bit isn't checked; it is in `first`. Clients ignore it in a version negotiation (RFC 9000, section
/// 17.2.1).
#[inline(always)]
pub fn read_header(bytes: &[u8], id_len: usize, versions: &[u32]) -> Result<HeaderPlaces, ReadError>
    requires { id_len ≤ MAX_CID_SIZE }
    ensures answer { ReadAnswer (any_fixed id_len versions.now) bytes.now (seen_in bytes.now result) }
    ensures seen { IsSeen result (length bytes.now) }
    ensures first { IfOk result (λ x. x.first ≡ slice_index bytes.now 0) }
{
    are_bytes(bytes);
    scan_header(bytes, id_len, versions)
}

/// The same for bytes that begin with `first`, the first byte of a long header.
#[inline(always)]
pub fn read_long(bytes: &[u8], first: u8, versions: &[u32]) -> Result<HeaderPlaces, ReadError>
    requires begins { bytes.now ≡ first ∷ drop 1 bytes.now }
    requires long { 128 ≤ first }
    ensures answer { (id_len : ℕ) → ReadAnswer (any_fixed id_len versions.now) bytes.now (seen_in bytes.now result) }
    ensures seen { IsSeen result (length bytes.now) }
    ensures first { IfOk result (λ x. x.first ≡ first) }
{
    are_bytes(bytes);
    scan_long(bytes, first, versions)
}

// Reads a header.
#[inline(always)]
#[tactic(auto, unfolding(crate::specs::Reading::wide_header_at))]
fn scan_header(bytes: &[u8], id_len: usize, versions: &[u32]) -> Result<HeaderPlaces, ReadError>
    requires { id_len ≤ MAX_CID_SIZE }
    ensures exact { wide_header_at id_len versions.now (length bytes.now) bytes.now ≡ seen_in bytes.now result }
    ensures seen { IsSeen result (length bytes.now) }
    ensures first { IfOk result (λ x. x.first ≡ slice_index bytes.now 0) }
{
    let Some(first) = bytes.first() else {
        return Err(ReadError::UnexpectedEnd);
    };
    let first = *first;
    if first >= 0x80 {
        return scan_long(bytes, first, versions);
    }
    if remaining(bytes, 1) < id_len {
        return Err(ReadError::SmallPacket);
    }
    Ok(HeaderPlaces {
        kind: HeaderKind::Short,
        first,
        version: 0,
        dst_len: id_len,
        src_len: 0,
        token: Place { start: 0, end: 0 },
        len: 0,
        header_end: 1 + id_len,
    })
}

// Whether a version is among the supported ones. The comparison with the first is inlined into the caller.
#[inline(always)]
fn is_among(version: u32, versions: &[u32]) -> bool
    ensures { result ≡ list_any (λ known. known == version) versions.now }
{
    if let Some(first) = versions.first() {
        if *first == version {
            return true;
        }
    }
    versions.contains(&version)
}

// The version of a long header.
#[inline(always)]
fn read_version(bytes: &[u8]) -> Option<u32>
    requires { 1 ≤ length bytes.now }
    ensures read { Reads result (drop 5 bytes.now) (word_at (drop 1 bytes.now)) }
    ensures there { IfSome result (λ _. 5 ≤ length bytes.now) }
{
    let mut place = 1;
    read_word(bytes, &mut place)
}

// How many bytes, up to 255, a connection id has whose length byte is at `at`. `None` if the bytes end before the id
// does.
#[inline(always)]
fn read_id_len(bytes: &[u8], at: usize) -> Option<usize>
    requires { at ≤ length bytes.now }
    ensures read { MatchOption result (wide_id_at (drop at bytes.now) ≡ None)
        (λ n. wide_id_at (drop at bytes.now)
        ≡ Some (slice_range bytes.now (at + 1) (at + 1 + n), drop (at + 1 + n) bytes.now)) }
    ensures there { IfSome result (λ n. at + 1 + n ≤ length bytes.now) }
    ensures few { IfSome result (λ n. n ≤ 255) }
{
    let (len, rest) = bytes[at..].split_first()?;
    let len = usize::from(*len);
    if rest.len() < len {
        return None;
    }
    Some(len)
}

// Reads a long header, whose first byte is given.
#[inline(always)]
#[tactic(auto, unfolding(crate::specs::Reading::wide_at))]
fn scan_long(bytes: &[u8], first: u8, versions: &[u32]) -> Result<HeaderPlaces, ReadError>
    requires some { 1 ≤ length bytes.now }
    requires long { 128 ≤ first }
    ensures exact { wide_at versions.now (length bytes.now) first (drop 1 bytes.now) ≡ seen_in bytes.now result }
    ensures seen { IsSeen result (length bytes.now) }
    ensures first { IfOk result (λ x. x.first ≡ first) }
{
    let Some(version) = read_version(bytes) else {
        return Err(ReadError::UnexpectedEnd);
    };
    let Some(dst_len) = read_id_len(bytes, 5) else {
        return Err(ReadError::MalformedCid);
    };
    let Some(src_len) = read_id_len(bytes, 6 + dst_len) else {
        return Err(ReadError::MalformedCid);
    };
    if version != 0 && !is_among(version, versions) {
        return Err(ReadError::UnsupportedVersion {
            version,
            dst_len,
            src_len,
        });
    }
    if dst_len > MAX_CID_SIZE || src_len > MAX_CID_SIZE {
        return Err(ReadError::MalformedCid);
    }
    let front = HeaderPlaces {
        kind: HeaderKind::VersionNegotiate,
        first,
        version,
        dst_len,
        src_len,
        token: Place { start: 0, end: 0 },
        len: 0,
        header_end: 6 + dst_len + 1 + src_len,
    };
    if version == 0 {
        return Ok(front);
    }
    read_typed(bytes, HeaderKind::of_long(first, version), front)
}

// Reads the fields after the ids of a long header, by its type.
#[inline(always)]
#[tactic(auto, unfolding(crate::specs::Reading::typed_at))]
fn read_typed(
    bytes: &[u8],
    kind: HeaderKind,
    front: HeaderPlaces,
) -> Result<HeaderPlaces, ReadError>
    requires typed { IsTyped kind }
    requires front { ArePlacesWithin HeaderKind.Retry front (length bytes.now) }
    ensures exact { typed_at (type_placed kind) (length bytes.now) (slice_range bytes.now 6 (6 + front.dst_len))
        (src_part bytes.now front) front.version (drop front.header_end bytes.now)
        ≡ seen_in bytes.now result }
    ensures seen { IsSeen result (length bytes.now) }
    ensures first { IfOk result (λ x. x.first ≡ front.first) }
{
    let mut place = front.header_end;
    match kind {
        HeaderKind::Initial => {
            let Some(token_len) = read_var(bytes, &mut place) else {
                return Err(ReadError::UnexpectedEnd);
            };
            let start = place;
            if token_len > remaining(bytes, start) as u64 {
                return Err(ReadError::TokenOutOfBounds);
            }
            pass(bytes, &mut place, token_len as usize);
            let end = place;
            let Some(len) = read_var(bytes, &mut place) else {
                return Err(ReadError::UnexpectedEnd);
            };
            Ok(HeaderPlaces {
                kind,
                token: Place { start, end },
                len,
                header_end: place,
                ..front
            })
        }
        HeaderKind::Retry => Ok(HeaderPlaces { kind, ..front }),
        _ => {
            let Some(len) = read_var(bytes, &mut place) else {
                return Err(ReadError::UnexpectedEnd);
            };
            Ok(HeaderPlaces {
                kind,
                len,
                header_end: place,
                ..front
            })
        }
    }
}
