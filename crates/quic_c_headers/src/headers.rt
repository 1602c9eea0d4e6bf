//! Reads packet headers, which are still protected.
ghost use Rattle.std.specs.Prelude.{◌≡◌, ◌≢◌, ◌+◌, ◌<◌, ◌≤◌, ◌⊎◌, ◌↔◌, ◌^◌, ◌∷◌, ℕ, Contains, List, [], IsTrue, MatchOption, Result, Ok, Err, drop, length, pos, false, slice_index, take};
ghost use Rattle.quic_base.specs.Number.{num};
ghost use Rattle.quic_base.specs.One.{ReturnsOne};
ghost use Rattle.quic_header_decode.specs.Grammar.{Cut, HeaderAt};
ghost use Rattle.quic_header_decode.specs.Places.{any_fixed, ArePlacesWithin, IsSeen};
ghost use Rattle.quic_header_decode.specs.declared.protected.ProtectedHeader.{ProtectedHeader};
ghost use Rattle.quic_header_encode.specs.Kinds.{row};
ghost use Rattle.quic_c_headers.specs.Headers.{word_of};
ghost use Rattle.quic_c_headers.specs.Packets.{IsReturned, PacketAnswerBy};
ghost use Rattle.quic_c_headers.specs.Reading.{header_words, is_partial, outcome_of, token_in, IsOfVersion, IsReceiverAt, IsReported, LacksFixedBit, Reported};
ghost use Rattle.quic_results.specs.Results.{failed, returned};

use crate::words::{
    CHeader, HANDSHAKE, INITIAL, RETRY, SHORT, UNKNOWN_VERSION, VERSION_NEGOTIATION, ZERO_RTT,
};
use quic_base::coding::are_bytes;
use quic_header_decode::laws::{one_reading, places_cut};
use quic_header_decode::places::{
    HeaderKind, HeaderPlaces, Place, ReadError, read_header, read_long,
};
use quic_results::laws::distinct;
use quic_results::results::{Failure, returned};

// The number of a kind, as C sees it.
#[inline(always)]
fn kind_word(kind: HeaderKind) -> u8
    ensures { result ≡ word_of (row kind) }
{
    match kind {
        HeaderKind::Initial => INITIAL,
        HeaderKind::ZeroRtt => ZERO_RTT,
        HeaderKind::Handshake => HANDSHAKE,
        HeaderKind::Retry => RETRY,
        HeaderKind::Short => SHORT,
        HeaderKind::VersionNegotiate => VERSION_NEGOTIATION,
    }
}

// Whether a Retry lacks its token or its tag, if the flags require both.
#[inline(always)]
fn is_partial(flags: u32, places: &HeaderPlaces, whole: usize) -> bool
    requires placed { ArePlacesWithin places.now.kind places.now whole }
    requires small { whole < 2 ^ 32 }
    ensures { result ≡ is_partial flags places.now whole }
{
    kind_word(places.kind) == RETRY && flags / 0x40 % 2 == 1 && whole < places.header_end + 17
}

// The token of an Initial or a Retry packet.
#[inline(always)]
fn token_in(places: &HeaderPlaces, whole: usize) -> Place
    requires placed { ArePlacesWithin places.now.kind places.now whole }
    requires small { whole < 2 ^ 32 }
    ensures value { result ≡ token_in places.now whole }
    ensures ordered { result.start ≤ result.end }
    ensures within { result.end ≤ whole }
{
    if kind_word(places.kind) == RETRY && places.header_end + 16 <= whole {
        return Place {
            start: places.header_end,
            end: whole - 16,
        };
    }
    places.token
}

// Stores the fields of a header, and returns where its packet ends, if it is complete.
#[inline(always)]
fn show_header(
    packet: &[u8],
    places: HeaderPlaces,
    flags: u32,
    head: &mut CHeader,
) -> Result<u32, Failure>
    requires whole { length packet.now < 2 ^ 32 }
    requires placed { ArePlacesWithin places.kind places (length packet.now) }
    ensures outcome { result ≡ outcome_of flags (Ok places) (length packet.now) }
    ensures length { result ≢ Err Failure.Length }
    ensures fixed { result ≢ Err Failure.PacketFixedBit }
    ensures words { head.new ≡ header_words flags packet.now (Ok places) head.old }
{
    let whole = packet.len();
    if is_partial(flags, &places, whole) {
        return Err(Failure::PacketRetry);
    }
    let token = token_in(&places, whole);
    let (end, outcome) = match places.packet_end(whole) {
        Some(end) => (end, Ok(end as u32)),
        None => (whole, Err(Failure::PacketCut)),
    };
    *head = CHeader {
        kind: kind_word(places.kind),
        first: places.first,
        dst_len: places.dst_len as u8,
        src_len: places.src_len as u8,
        version: places.version,
        header_end: places.header_end as u32,
        end: end as u32,
        token: token.start as u32,
        token_len: (token.end - token.start) as u32,
        len: places.len,
    };
    outcome
}

// Stores what was read in `head`, and returns where the packet ends, or why it isn't complete.
#[inline(always)]
pub(crate) fn show(
    packet: &[u8],
    read: Result<HeaderPlaces, ReadError>,
    flags: u32,
    head: &mut CHeader,
) -> Result<u32, Failure>
    requires whole { length packet.now < 2 ^ 32 }
    requires seen { IsSeen read (length packet.now) }
    ensures outcome { result ≡ outcome_of flags read (length packet.now) }
    ensures length { result ≢ Err Failure.Length }
    ensures fixed { result ≢ Err Failure.PacketFixedBit }
    ensures words { head.new ≡ header_words flags packet.now read head.old }
{
    match read {
        Ok(places) => show_header(packet, places, flags, head),
        Err(
            ReadError::UnsupportedVersion {
                version,
                dst_len,
                src_len,
            },
        ) => {
            *head = CHeader {
                kind: UNKNOWN_VERSION,
                first: packet[0],
                dst_len: dst_len as u8,
                src_len: src_len as u8,
                version,
                header_end: (6 + dst_len + 1 + src_len) as u32,
                end: packet.len() as u32,
                token: 0,
                token_len: 0,
                len: 0,
            };
            Err(Failure::PacketVersion)
        }
        Err(ReadError::UnexpectedEnd) => Err(Failure::PacketEnd),
        Err(ReadError::SmallPacket) => Err(Failure::PacketSmall),
        Err(ReadError::MalformedCid) => Err(Failure::PacketId),
        Err(ReadError::TokenOutOfBounds) => Err(Failure::PacketToken),
    }
}

// Stores a long header in `head`.
#[inline(always)]
fn show_any(packet: &[u8], first: u8, versions: &[u32], flags: u32, head: &mut CHeader) -> i64
    requires whole { length packet.now < 2 ^ 32 }
    requires begins { packet.now ≡ first ∷ drop 1 packet.now }
    requires long { 128 ≤ first }
    ensures reported { (id_len : ℕ) → IsReported flags id_len versions.now packet.now head.old result head.new }
    ensures length { result ≢ failed Failure.Length }
    ensures fixed { result ≢ failed Failure.PacketFixedBit }
{
    distinct();
    returned(show(packet, read_long(packet, first, versions), flags, head))
}

// The same as a separate function, for headers that are rare: those of a Retry packet in version 1, of other versions,
// and of short packets.
#[inline(never)]
fn show_rare(packet: &[u8], first: u8, versions: &[u32], flags: u32, head: &mut CHeader) -> i64
    requires whole { length packet.now < 2 ^ 32 }
    requires begins { packet.now ≡ first ∷ drop 1 packet.now }
    requires long { 128 ≤ first }
    ensures reported { (id_len : ℕ) → IsReported flags id_len versions.now packet.now head.old result head.new }
    ensures length { result ≢ failed Failure.Length }
    ensures fixed { result ≢ failed Failure.PacketFixedBit }
{
    show_any(packet, first, versions, flags, head)
}

// Whether a long header has version 1, which is the first of these, ids of at most 20 bytes, and at least eight bytes
// after them, whatever their lengths are. The compiler frees the copies of `show_any` for such headers of most tests.
#[inline(always)]
fn is_usual(packet: &[u8], versions: &[u32]) -> bool {
    if packet.len() < 55 {
        return false;
    }
    match (version_of(packet), versions.first()) {
        (Some(1), Some(1)) => {}
        _ => return false,
    }
    let dst_len = packet[5];
    dst_len <= 20 && packet[6 + usize::from(dst_len)] <= 20
}

// Stores a long header whose first byte is that of an Initial packet in version 1. It is a separate function, as the
// next one is, so that it needs few registers, and none are saved for a short header.
#[inline(never)]
fn show_initial(packet: &[u8], first: u8, versions: &[u32], flags: u32, head: &mut CHeader) -> i64
    requires whole { length packet.now < 2 ^ 32 }
    requires begins { packet.now ≡ first ∷ drop 1 packet.now }
    requires long { 128 ≤ first }
    ensures reported { (id_len : ℕ) → IsReported flags id_len versions.now packet.now head.old result head.new }
    ensures length { result ≢ failed Failure.Length }
    ensures fixed { result ≢ failed Failure.PacketFixedBit }
{
    if is_usual(packet, versions) {
        if let HeaderKind::Initial = HeaderKind::of_long(first, 1) {
            return show_any(packet, first, versions, flags, head);
        }
    }
    show_rare(packet, first, versions, flags, head)
}

// Stores a long header whose first byte is that of a Handshake or 0-RTT packet in version 1.
#[inline(never)]
fn show_numbered(packet: &[u8], first: u8, versions: &[u32], flags: u32, head: &mut CHeader) -> i64
    requires whole { length packet.now < 2 ^ 32 }
    requires begins { packet.now ≡ first ∷ drop 1 packet.now }
    requires long { 128 ≤ first }
    ensures reported { (id_len : ℕ) → IsReported flags id_len versions.now packet.now head.old result head.new }
    ensures length { result ≢ failed Failure.Length }
    ensures fixed { result ≢ failed Failure.PacketFixedBit }
{
    if is_usual(packet, versions) {
        match HeaderKind::of_long(first, 1) {
            HeaderKind::Handshake => return show_any(packet, first, versions, flags, head),
            HeaderKind::ZeroRtt => return show_any(packet, first, versions, flags, head),
            _ => {}
        }
    }
    show_rare(packet, first, versions, flags, head)
}

// Stores a long header, by the type that its first byte has in version 1.
#[inline(always)]
fn show_long(packet: &[u8], first: u8, versions: &[u32], flags: u32, head: &mut CHeader) -> i64
    requires whole { length packet.now < 2 ^ 32 }
    requires begins { packet.now ≡ first ∷ drop 1 packet.now }
    requires long { 128 ≤ first }
    ensures reported { (id_len : ℕ) → IsReported flags id_len versions.now packet.now head.old result head.new }
    ensures length { result ≢ failed Failure.Length }
    ensures fixed { result ≢ failed Failure.PacketFixedBit }
{
    match first / 16 % 4 {
        0 => show_initial(packet, first, versions, flags, head),
        3 => show_rare(packet, first, versions, flags, head),
        _ => show_numbered(packet, first, versions, flags, head),
    }
}

// The four bytes after the first one as a number.
#[inline(always)]
fn version_of(packet: &[u8]) -> Option<u32>
    ensures { MatchOption result (length packet.now < 5)
        (λ version. (5 ≤ length packet.now) × (version ≡ num (take 4 (drop 1 packet.now)))) }
{
    let (_first, rest) = packet.split_first()?;
    let bytes = rest.first_chunk::<4>()?;
    Some(u32::from_be_bytes(*bytes))
}

// Whether a version is one of these.
fn is_among(version: u32, versions: &[u32]) -> bool
    ensures { IsTrue result ↔ Contains versions.now version }
{
    versions.contains(&version)
}

// Whether a packet has a short header, or a long one of one of the versions.
#[inline(never)]
fn is_of_version(packet: &[u8], versions: &[u32]) -> bool
    requires { 0 < length packet.now }
    ensures { IsTrue result ↔ IsOfVersion versions.now packet.now }
{
    if packet[0] < 0x80 {
        return true;
    }
    match version_of(packet) {
        Some(version) => version != 0 && is_among(version, versions),
        None => false,
    }
}

// Whether the fixed bit of the first byte is clear although it must be set.
#[inline(always)]
pub(crate) fn lacks_fixed_bit(packet: &[u8], versions: &[u32], flags: u32) -> bool
    ensures { IsTrue result ↔ LacksFixedBit flags versions.now packet.now }
{
    match packet.first() {
        Some(first) if *first / 0x40 % 2 == 0 && flags / 0x10 % 2 == 0 => {
            flags / 0x20 % 2 == 0 || is_of_version(packet, versions)
        }
        _ => false,
    }
}

// Reads the header at the front, whatever its fixed bit is.
#[inline(always)]
fn read_any(packet: &[u8], id_len: u32, versions: &[u32], flags: u32, head: &mut CHeader) -> i64
    requires whole { length packet.now < 2 ^ 32 }
    requires few { id_len ≤ 20 }
    ensures reported { IsReported flags id_len versions.now packet.now head.old result head.new }
    ensures length { result ≢ failed Failure.Length }
    ensures fixed { result ≢ failed Failure.PacketFixedBit }
{
    distinct();
    if let Some(first) = packet.first() {
        if *first >= 0x80 {
            return show_long(packet, *first, versions, flags, head);
        }
    }
    returned(show(
        packet,
        read_header(packet, id_len as usize, versions),
        flags,
        head,
    ))
}

// Whether the fixed bit is clear, and the flags don't accept that in all packets.
#[inline(always)]
fn is_clear(packet: &[u8], flags: u32) -> bool
    ensures { result ≡ false → (versions : List ℕ) → LacksFixedBit flags versions packet.now → ⊥ }
{
    match packet.first() {
        Some(first) => *first / 0x40 % 2 == 0 && flags / 0x10 % 2 == 0,
        None => false,
    }
}

// Reads the header of a packet whose fixed bit is clear. It is a separate function, so that no registers are saved for
// other packets.
#[inline(never)]
fn read_clear(packet: &[u8], id_len: u32, versions: &[u32], flags: u32, head: &mut CHeader) -> i64
    requires whole { length packet.now < 2 ^ 32 }
    requires few { id_len ≤ 20 }
    ensures reported { (result ≡ failed Failure.PacketFixedBit)
        ⊎ IsReported flags id_len versions.now packet.now head.old result head.new }
    ensures length { result ≢ failed Failure.Length }
    ensures fixed { (result ≡ failed Failure.PacketFixedBit) ↔ LacksFixedBit flags versions.now packet.now }
    ensures same { result ≡ failed Failure.PacketFixedBit → head.new ≡ head.old }
{
    distinct();
    if lacks_fixed_bit(packet, versions, flags) {
        return i64::from(Failure::PacketFixedBit.number());
    }
    read_any(packet, id_len, versions, flags, head)
}

/// Reads the header of the packet at the front of the bytes, whether the packet is complete or ends after its header
/// (RFC 9000, section 17). Ids of short headers have `id_len` bytes. For versions other than `versions` only the ids
/// are read. It returns the offset at which the packet ends, with its header; `PacketCut`, with the header of a packet
/// that is cut off; `PacketVersion`, with the version and the ids, of up to 255 bytes (RFC 8999, section 5.1), if the
/// version isn't known; `PacketFixedBit` if the fixed bit is clear; `PacketEnd`, `PacketSmall`, `PacketId` or
/// `PacketToken` if the bytes don't begin with a header, by the first field that can't be read; `PacketRetry` for a
/// Retry that isn't complete; `Length` exactly when there are 2^32 bytes or more, or `id_len` is above 20. `head`
/// changes only with the first three.
///
/// With `flags` of 0 it reads as quinn-proto does. 0x10 accepts packets whose fixed bit is clear (RFC 9287). 0x20
/// ignores that bit in packets of versions other than `versions`, and in version negotiations, as clients do (RFC 9000,
/// section 17.2.1). 0x40 requires a token and a tag of 16 bytes in a Retry (section 17.2.5). Other bits are ignored.
#[unsafe(no_mangle)]
pub extern "C" fn quic_wire_header_read_(
    packet: &[u8],
    id_len: u32,
    versions: &[u32],
    flags: u32,
    head: &mut CHeader,
) -> i64
    ensures invalid { (result ≡ failed Failure.Length) ↔ ((2 ^ 32 ≤ length packet.now) ⊎ (20 < id_len)) }
    ensures fixed { (result ≡ failed Failure.PacketFixedBit)
        ↔ (length packet.now < 2 ^ 32) × (id_len ≤ 20) × LacksFixedBit flags versions.now packet.now }
    ensures reported { (result ≡ failed Failure.Length) ⊎ (result ≡ failed Failure.PacketFixedBit)
        ⊎ IsReported flags id_len versions.now packet.now head.old result head.new }
    ensures same { (result ≡ failed Failure.Length) ⊎ (result ≡ failed Failure.PacketFixedBit) → head.new ≡ head.old }
    // There is exactly one right outcome, with its fields.
    ensures one { (result ≡ failed Failure.Length) ⊎ (result ≡ failed Failure.PacketFixedBit)
        ⊎ ((outcome : Result ℕ Failure) (words : CHeader)
        → Reported flags id_len versions.now packet.now head.old outcome words
        → (result ≡ returned outcome) × (head.new ≡ words)) }
    // There is exactly one packet that the flags allow, or one thing that they don't, and it is returned.
    ensures packet { length packet.now < 2 ^ 32 → id_len ≤ 20
        → ReturnsOne (PacketAnswerBy flags id_len versions.now packet.now) (IsReturned packet.now result head.new) }
    // A complete packet is the one that is cut from the bytes.
    ensures whole { (end : ℕ) → result ≡ pos end
        → (h : ProtectedHeader) × Cut (any_fixed id_len versions.now) packet.now h head.new.header_end end }
{
    distinct();
    one_reading();
    places_cut();
    are_bytes(packet);
    if packet.len() > u32::MAX as usize || id_len > 20 {
        return i64::from(Failure::Length.number());
    }
    if is_clear(packet, flags) {
        return read_clear(packet, id_len, versions, flags, head);
    }
    read_any(packet, id_len, versions, flags, head)
}

/// The offset at which the short header at the front of a packet ends, with an id of `id_len` bytes (RFC 9000, section
/// 17.3). It is 0 exactly when there is none: the packet is empty or begins with a long header, it ends within the id,
/// or `id_len` is above 20. The fixed bit is ignored.
#[unsafe(no_mangle)]
pub extern "C" fn quic_wire_short_read_(packet: &[u8], id_len: u32) -> usize
    ensures read { 0 < result → (h : ProtectedHeader)
        × HeaderAt (any_fixed id_len []) (length packet.now) packet.now h (drop result packet.now) }
    ensures short { 0 < result → slice_index packet.now 0 < 128 }
    ensures within { result ≤ length packet.now }
    ensures none { result ≡ 0 → (20 < id_len) ⊎ (128 ≤ slice_index packet.now 0)
        ⊎ ((h : ProtectedHeader) (rest : List ℕ)
        → HeaderAt (any_fixed id_len []) (length packet.now) packet.now h rest → ⊥) }
{
    one_reading();
    are_bytes(packet);
    if id_len > 20 {
        return 0;
    }
    if let Some(first) = packet.first() {
        if *first >= 0x80 {
            return 0;
        }
    }
    match read_header(packet, id_len as usize, &[]) {
        Ok(places) => places.header_end,
        Err(_) => 0,
    }
}

/// The offset of the receiver's id in a packet of any version, and in `len` its length in bytes (RFC 8999, section 5).
/// A short header's id has `id_len` bytes. It is meant for forwarding packets. It returns 0 exactly when the packet
/// ends before the id does; `len` doesn't change then. The fixed bit is ignored.
#[unsafe(no_mangle)]
pub extern "C" fn quic_wire_dcid_read_(packet: &[u8], id_len: usize, len: &mut usize) -> usize
    ensures found { 0 < result → IsReceiverAt id_len packet.now result len.new }
    ensures none { result ≡ 0 → (place count : ℕ) → IsReceiverAt id_len packet.now place count → ⊥ }
    ensures same { result ≡ 0 → len.new ≡ len.old }
{
    let Some(first) = packet.first() else {
        return 0;
    };
    let (place, count) = if *first < 0x80 {
        (1, id_len)
    } else if packet.len() < 6 {
        return 0;
    } else {
        (6, packet[5] as usize)
    };
    if packet.len() - place < count {
        return 0;
    }
    *len = count;
    place
}
