//! Writes headers into the caller's bytes.
ghost use Rattle.std.specs.Prelude.{◌≡◌, ◌≢◌, ◌+◌, ◌-◌, ◌*◌, ◌/◌, ◌%◌, ◌^◌, ◌<◌, ◌≤◌, ◌⊎◌, ◌↔◌, ◌++◌, ℕ, [], IsTrue, length, take, drop, replicate};
ghost use Rattle.quic_base.specs.Number.{bytes_of};
ghost use Rattle.quic_base.specs.Varint.{IsWidth};
ghost use Rattle.quic_crypto.specs.PacketNumbers.{IsInRange};
ghost use Rattle.quic_header_encode.specs.declared.long_type.HeaderKind.TheVariants as kind;
ghost use Rattle.quic_header_encode.specs.Kinds.{row};
ghost use Rattle.quic_header_encode.specs.Writing.{token_by, type_bits, IsTyped};
ghost use Rattle.quic_header_encode.specs.Kinds.{long_front};
ghost use Rattle.quic_c_headers.specs.Headers.{part_of};
ghost use Rattle.quic_c_headers.specs.Headers.{bare_version, first_word, short_size, word_of, worded_bytes, AreParts, HasShortRoom, IsBare, IsNumbered, IsShaped, StoresShort};
ghost use Rattle.quic_c_headers.specs.Headers.{HasPossibleNumbers, IsReason, WritesHeader};
ghost use Rattle.quic_results.specs.Results.{failed};

use crate::words::{HANDSHAKE, HeaderFields, INITIAL, RETRY, SHORT, VERSION_NEGOTIATION, ZERO_RTT};
use quic_base::coding::store_array;
use quic_crypto::packet_number::PacketNumber;
use quic_header_encode::fields::store_low;
use quic_header_encode::long_type::HeaderKind;
use quic_header_encode::store::{
    Exact, HeaderRef, StoredId, store_long_start, store_no_length, store_short, store_token,
};
use quic_results::results::Failure;

// Whether a varint can have that many bytes (RFC 9000, section 16).
#[inline(always)]
fn is_width(len: u8) -> bool
    ensures { IsTrue result ↔ IsWidth len }
{
    len == 1 || len == 2 || len == 4 || len == 8
}

// Whether a header of the kind can have this number and these sizes of the number and the length.
#[inline(always)]
fn is_numbered(words: &HeaderFields) -> bool
    requires { words.now.kind ≤ 5 }
    ensures { IsTrue result ↔ IsNumbered words.now }
{
    if words.kind == RETRY || words.kind == VERSION_NEGOTIATION {
        return true;
    }
    let fits = words.kind == SHORT || is_width(words.length_len);
    0 < words.number_len && words.number_len <= 4 && words.number < 1 << 62 && fits
}

// Whether a header of the kind can have these ids and this token.
#[inline(always)]
fn are_parts(kind: u8, dst: &[u8], src: &[u8], token: &[u8]) -> bool
    ensures { IsTrue result ↔ AreParts kind dst.now src.now token.now }
{
    dst.len() <= 20
        && (kind == SHORT || src.len() <= 20)
        && (kind != INITIAL || token.len() < 1 << 62)
}

// Whether a header of the kind can have these fields, ids and token.
#[inline(always)]
fn is_shaped(words: &HeaderFields, dst: &[u8], src: &[u8], token: &[u8]) -> bool
    ensures { IsTrue result ↔ IsShaped words.now dst.now src.now token.now }
{
    words.kind <= VERSION_NEGOTIATION
        && (words.kind >= SHORT || words.version != 0)
        && is_numbered(words)
        && are_parts(words.kind, dst, src, token)
}

// Whether the version and the packet number are possible in a header of the kind, if it has them.
fn has_possible_numbers(words: &HeaderFields) -> bool
    requires { words.now.kind ≤ 5 }
    ensures { IsTrue result ↔ HasPossibleNumbers words.now }
{
    (words.kind >= SHORT || words.version != 0)
        && (words.kind == RETRY || words.kind == VERSION_NEGOTIATION || words.number < 1 << 62)
}

// Why no header with these fields can be written, if none can.
#[inline(never)]
fn why_not(words: &HeaderFields) -> Failure
    ensures { IsReason words.now result }
{
    if words.kind > VERSION_NEGOTIATION {
        Failure::Kind
    } else if has_possible_numbers(words) {
        Failure::Length
    } else {
        Failure::Number
    }
}

// The sender's id, if the header has one.
#[inline(always)]
fn source_of<'a>(kind: u8, src: &'a [u8]) -> &'a [u8]
    ensures has { kind ≢ 4 → result.now ≡ src.now }
    ensures none { kind ≡ 4 → result.now ≡ [] }
{
    if kind == SHORT { &[] } else { src }
}

// The token, if the header has one.
#[inline(always)]
fn token_of<'a>(kind: u8, token: &'a [u8]) -> &'a [u8]
    ensures has { kind ≡ 0 → result.now ≡ token.now }
    ensures none { kind ≢ 0 → result.now ≡ [] }
{
    if kind == INITIAL { token } else { &[] }
}

// The part of a number that is written, in one to four bytes.
#[inline(always)]
fn written_part(number: u64, len: u8) -> PacketNumber
    ensures value { result ≡ part_of len number }
    ensures valid { IsInRange result }
{
    match len {
        2 => PacketNumber::U16((number % (1 << 16)) as u16),
        3 => PacketNumber::U24((number % (1 << 24)) as u32),
        4 => PacketNumber::U32((number % (1 << 32)) as u32),
        _ => PacketNumber::U8((number % (1 << 8)) as u8),
    }
}

// The bits of the first byte other than the type and the number's size.
#[inline(always)]
#[tactic(auto, using(crate::proofs::Writing::clear_is, crate::proofs::Writing::spin_is, crate::proofs::Writing::phase_is))]
pub(crate) fn first_word(kind: HeaderKind, flags: u8) -> u8
    ensures { result ≡ first_word kind flags }
{
    let clear = 64 * (flags / 64 % 2);
    match kind {
        HeaderKind::Short => 64 - clear + 32 * (flags / 32 % 2) + 4 * (flags / 4 % 2),
        HeaderKind::VersionNegotiate => 128 | (64 ^ (flags % 128)),
        _ => 192 - clear,
    }
}

// How many bytes the length has, if the header has one.
#[inline(always)]
fn stored_length_len(words: &HeaderFields) -> usize
    ensures known { IsWidth result }
    ensures same { IsWidth words.now.length_len → result ≡ words.now.length_len }
{
    if is_width(words.length_len) {
        words.length_len as usize
    } else {
        2
    }
}

// The first byte of a short header. To save instructions, all its flags are copied at once, and the fixed bit, which is
// clear if its flag is set, is inverted by an addition.
#[inline(always)]
#[tactic(auto, using(crate::proofs::Writing::clear_is, crate::proofs::Writing::spin_is, crate::proofs::Writing::phase_is))]
fn short_first(flags: u8, number_len: u8) -> u8
    requires some { 1 ≤ number_len }
    requires few { number_len ≤ 4 }
    ensures { result ≡ first_word kind.Short flags + (number_len - 1) }
{
    let bits = 64 * (flags / 64 % 2) + 32 * (flags / 32 % 2) + 4 * (flags / 4 % 2);
    (64 + bits) % 128 + (number_len - 1)
}

// Stores a short header at the front, field after field, and returns the offset at which it ends.
#[inline(never)]
fn store_short_parts(words: &HeaderFields, dst: &[u8], dest: &mut [u8]) -> usize
    requires fits { HasShortRoom words.now dst.now (length dest.old) }
    ensures { StoresShort words.now dst.now dest.old dest.new result }
{
    let first = short_first(words.flags, words.number_len);
    let at = store_short(dest, first, Exact(dst));
    store_low(dest, at, words.number, words.number_len as usize)
}

// The same for a header of more than four bytes. The number's lowest four bytes are stored, whatever its length, and
// then the id overwrites those that are too many.
#[inline(always)]
fn store_short_covered(words: &HeaderFields, dst: &[u8], dest: &mut [u8]) -> usize
    requires fits { HasShortRoom words.now dst.now (length dest.old) }
    requires many { 5 ≤ short_size words.now dst.now }
    ensures { StoresShort words.now dst.now dest.old dest.new result }
{
    let behind_first = dst.len() + words.number_len as usize;
    store_array(dest, 0, [short_first(words.flags, words.number_len)]);
    let [_, _, _, _, fourth, third, second, last] = words.number.to_be_bytes();
    store_array(dest, behind_first - 3, [fourth, third, second, last]);
    Exact(dst).store(dest, 1);
    behind_first + 1
}

/// Writes the short header that `words` describes, with the receiver's id, at the front of `dest`, as
/// `quic_wire_header_write_` does but in fewer instructions. It returns `Kind` for another kind; nothing changes then.
#[unsafe(no_mangle)]
pub extern "C" fn quic_wire_short_write_(words: &HeaderFields, dst: &[u8], dest: &mut [u8]) -> i64
    ensures short { words.now.kind ≡ 4 → WritesHeader words.now dst.now [] [] dest.old result dest.new }
    ensures other { words.now.kind ≢ 4 → (result ≡ failed Failure.Kind) × (dest.new ≡ dest.old) }
{
    if words.kind != 4 {
        return i64::from(Failure::Kind.number());
    }
    if !is_shaped(words, dst, &[], &[]) {
        return i64::from(why_not(words).number());
    }
    let behind_first = dst.len() + words.number_len as usize;
    if dest.len() <= behind_first {
        return i64::from(Failure::NoRoom.number());
    }
    if behind_first < 4 {
        return store_short_parts(words, dst, dest) as i64;
    }
    store_short_covered(words, dst, dest) as i64
}

// Stores a long header up to the end of its ids at the front.
#[inline(always)]
fn store_front(
    kind: HeaderKind,
    words: &HeaderFields,
    dst: &[u8],
    src: &[u8],
    dest: &mut [u8],
) -> usize
    requires typed { IsTyped kind }
    requires some { 1 ≤ words.now.number_len }
    requires few { words.now.number_len ≤ 4 }
    requires dst_few { length dst.now ≤ 20 }
    requires src_few { length src.now ≤ 20 }
    requires room { 7 + length dst.now + length src.now ≤ length dest.old }
    ensures end { result ≡ 7 + length dst.now + length src.now }
    ensures front { take result dest.new
        ≡ long_front (192 - 64 * (words.now.flags / 64 % 2) + type_bits kind words.now.version
        + (words.now.number_len - 1)) words.now.version dst.now src.now }
    ensures back { drop result dest.new ≡ drop result dest.old }
    ensures len { length dest.new ≡ length dest.old }
{
    let first = 192 - 64 * (words.flags / 64 % 2)
        + kind.type_bits(words.version)
        + (words.number_len - 1);
    store_long_start(dest, first, words.version, Exact(dst), Exact(src))
}

// Stores the token of an Initial header after its length.
#[inline(always)]
fn store_own_token(kind: HeaderKind, dest: &mut [u8], at: usize, token: &[u8]) -> usize
    requires numeric { length token.now < 2 ^ 62 }
    requires room { at + length (token_by kind token.now) ≤ length dest.old }
    ensures end { result ≡ at + length (token_by kind token.now) }
    ensures front { take result dest.new ≡ take at dest.old ++ token_by kind token.now }
    ensures back { drop result dest.new ≡ drop result dest.old }
    ensures len { length dest.new ≡ length dest.old }
{
    match kind {
        HeaderKind::Initial => store_token::<false>(dest, at, token),
        _ => at,
    }
}

// Stores the length, which is zeros, and the number.
#[inline(always)]
fn store_end(words: &HeaderFields, dest: &mut [u8], at: usize) -> usize
    requires known { IsWidth words.now.length_len }
    requires some { 1 ≤ words.now.number_len }
    requires few { words.now.number_len ≤ 4 }
    requires room { at + (words.now.length_len + words.now.number_len) ≤ length dest.old }
    ensures end { result ≡ at + (words.now.length_len + words.now.number_len) }
    ensures front { take result dest.new ≡ take at dest.old
        ++ (replicate words.now.length_len 0 ++ bytes_of words.now.number_len words.now.number) }
    ensures back { drop result dest.new ≡ drop result dest.old }
    ensures len { length dest.new ≡ length dest.old }
{
    let at = store_no_length(dest, at, words.length_len as usize);
    store_low(dest, at, words.number, words.number_len as usize)
}

// Stores the header of a packet with a number and a length at the front.
#[inline(always)]
fn store_numbered(
    kind: HeaderKind,
    words: &HeaderFields,
    dst: &[u8],
    src: &[u8],
    token: &[u8],
    dest: &mut [u8],
) -> usize
    requires has { IsTrue (row kind).has_len }
    requires known { IsWidth words.now.length_len }
    requires some { 1 ≤ words.now.number_len }
    requires few { words.now.number_len ≤ 4 }
    requires dst_few { length dst.now ≤ 20 }
    requires src_few { length src.now ≤ 20 }
    requires numeric { length token.now < 2 ^ 62 }
    requires room { length (worded_bytes kind words.now dst.now src.now token.now) ≤ length dest.old }
    ensures end { result ≡ length (worded_bytes kind words.now dst.now src.now token.now) }
    ensures front { take result dest.new ≡ worded_bytes kind words.now dst.now src.now token.now }
    ensures back { drop result dest.new ≡ drop result dest.old }
    ensures len { length dest.new ≡ length dest.old }
{
    let at = store_front(kind, words, dst, src, dest);
    let at = store_own_token(kind, dest, at, token);
    store_end(words, dest, at)
}

// Writes a header of a kind, as `quic_wire_header_write_` does.
#[inline(always)]
fn write_as(
    kind: HeaderKind,
    words: &HeaderFields,
    dst: &[u8],
    src: &[u8],
    token: &[u8],
    dest: &mut [u8],
) -> i64
    requires kind { word_of (row kind) ≡ words.now.kind }
    ensures { WritesHeader words.now dst.now src.now token.now dest.old result dest.new }
{
    if !is_shaped(words, dst, src, token) {
        return i64::from(why_not(words).number());
    }
    let number = written_part(words.number, words.number_len);
    let source = source_of(words.kind, src);
    let own = token_of(words.kind, token);
    let head = HeaderRef {
        kind,
        first: first_word(kind, words.flags),
        version: words.version,
        dst_cid: Exact(dst),
        src_cid: Exact(source),
        token: own,
        number: &number,
        length_len: stored_length_len(words),
    };
    if !head.fits(dest.len()) {
        return i64::from(Failure::NoRoom.number());
    }
    if kind.has_len() {
        store_numbered(kind, words, dst, src, own, dest) as i64
    } else {
        head.store::<false>(dest) as i64
    }
}

// The first byte of a header without a number.
#[inline(always)]
fn bare_first(kind: HeaderKind, words: &HeaderFields) -> u8
    requires { IsBare kind }
    ensures { result ≡ first_word kind words.now.flags + type_bits kind words.now.version }
{
    match kind {
        HeaderKind::Retry => first_word(kind, words.flags) + kind.type_bits(words.version),
        _ => first_word(kind, words.flags),
    }
}

// The version in it.
#[inline(always)]
fn bare_version(kind: HeaderKind, words: &HeaderFields) -> u32
    ensures { result ≡ bare_version kind words.now.version }
{
    match kind {
        HeaderKind::VersionNegotiate => 0,
        _ => words.version,
    }
}

// Writes a Retry's header or a version negotiation, which have no number, as `quic_wire_header_write_` does.
#[inline(always)]
fn write_bare(
    kind: HeaderKind,
    words: &HeaderFields,
    dst: &[u8],
    src: &[u8],
    token: &[u8],
    dest: &mut [u8],
) -> i64
    requires kind { word_of (row kind) ≡ words.now.kind }
    requires bare { IsBare kind }
    ensures { WritesHeader words.now dst.now src.now token.now dest.old result dest.new }
{
    if !is_shaped(words, dst, src, token) {
        return i64::from(why_not(words).number());
    }
    if dest.len() < 7 + dst.len() + src.len() {
        return i64::from(Failure::NoRoom.number());
    }
    let first = bare_first(kind, words);
    let version = bare_version(kind, words);
    store_long_start(dest, first, version, Exact(dst), Exact(src)) as i64
}

/// Writes the header that `words` describes, with the ids of the receiver and of the sender and the token, unprotected,
/// at the front of `dest` (RFC 9000, section 17). It returns how many bytes the header has; the packet number, if there
/// is one, is at their end. The length of an Initial, 0-RTT or Handshake packet is zeros until `quic_wire_set_len_`.
/// Fields that the kind doesn't have are ignored. The bytes after the header don't change. It returns `NoRoom` if
/// `dest` has fewer bytes; `Kind` for a kind above 5; `Number` for a packet number of 2^62 or more, or version 0 in an
/// Initial, 0-RTT, Handshake or Retry header, which would be a version negotiation (RFC 9000, section 17.2.1); `Length`
/// for an id of more than 20 bytes, a packet number that isn't written in 1 to 4 bytes, a length of other than 1, 2, 4
/// or 8 bytes, or a token of 2^62 bytes or more. Nothing changes then. With flags of 0 the first byte is that of RFC
/// 9000.
#[unsafe(no_mangle)]
pub extern "C" fn quic_wire_header_write_(
    words: &HeaderFields,
    dst: &[u8],
    src: &[u8],
    token: &[u8],
    dest: &mut [u8],
) -> i64
    ensures { WritesHeader words.now dst.now src.now token.now dest.old result dest.new }
{
    match words.kind {
        INITIAL => write_as(HeaderKind::Initial, words, dst, src, token, dest),
        ZERO_RTT => write_as(HeaderKind::ZeroRtt, words, dst, src, token, dest),
        HANDSHAKE => write_as(HeaderKind::Handshake, words, dst, src, token, dest),
        RETRY => write_bare(HeaderKind::Retry, words, dst, src, token, dest),
        SHORT => write_as(HeaderKind::Short, words, dst, src, token, dest),
        VERSION_NEGOTIATION => write_bare(
            HeaderKind::VersionNegotiate,
            words,
            dst,
            src,
            token,
            dest,
        ),
        _ => i64::from(why_not(words).number()),
    }
}
