//! Fields, read one after another from the front of a slice, with their spans.
ghost use Rattle.std.specs.Prelude.{◌≡◌, ◌<◌, ◌≤◌, ◌+◌, ◌==◌, ◌^◌, List, ℕ, length, map, Some, None, IfSome, drop, Bool, true, false, ◌||◌};
ghost use Rattle.std.specs.List.{list_any};
ghost use Rattle.quic_base.specs.Reading.{number_at};
ghost use Rattle.quic_fields.specs.Walk.{stored, last_end};
ghost use Rattle.quic_header_decode.specs.Grammar.{HeaderValue, Version, DestinationId, SourceId, Supported, TokenLength, Token, Length, ShortId, token_length_of};
ghost use Rattle.quic_header_decode.specs.Places.{any_fixed};
ghost use Rattle.quic_header_decode.specs.Reading.{DecodeOptions, word_at, wide_id_at, long_id_at};
ghost use Rattle.quic_header_fields.specs.Kinds.{field_of};
ghost use Rattle.quic_header_fields.specs.Inside.{inside, inside_id, stop_at};
ghost use Rattle.quic_header_fields.specs.Spans.{is_known};
ghost use Rattle.quic_header_fields.specs.Walk.{FindsIn, field_in, seen_after, seen_of, with_value, walk_at};

use crate::row::Kind;
use quic_base::ids::MAX_CID_SIZE;
use quic_base::varint::split_var;
use quic_fields::field::{Span, put};

/// How many fields with values were read, and the length of a token after three others.
#[derive(Clone, Copy, Debug, PartialEq, Eq)]
pub enum Seen {
    Nothing,
    One,
    Two,
    Three,
    Four(u64),
    More,
}

impl Seen {
    // The same after one more value, a number or not.
    fn with(self, value: Option<u64>) -> Seen
        ensures { result ≡ with_value self value }
    {
        match self {
            Seen::Nothing => Seen::One,
            Seen::One => Seen::Two,
            Seen::Two => Seen::Three,
            Seen::Three => match value {
                Some(n) => Seen::Four(n),
                None => Seen::More,
            },
            Seen::Four(_) => Seen::More,
            Seen::More => Seen::More,
        }
    }

    // The length of a token that comes next.
    fn token_length(self) -> u64
        ensures { (before : List HeaderValue) → self ≡ seen_of before → result ≡ token_length_of before }
    {
        match self {
            Seen::Four(n) => n,
            _ => 0,
        }
    }
}

// Whether a version is among those that are known.
fn is_among(version: u32, versions: &[u32]) -> bool
    ensures { result ≡ list_any (λ known. known == version) versions.now }
{
    versions.contains(&version)
}

/// Whether a version is 0 or among those that are known.
pub(crate) fn is_known(version: u32, versions: &[u32]) -> bool
    ensures { (id_len : ℕ) → result ≡ is_known (any_fixed id_len versions.now) version }
{
    version == 0 || is_among(version, versions)
}

// Four bytes, the highest first.
pub(crate) fn word(bytes: &[u8]) -> Option<(u32, &[u8])>
    ensures finds { FindsIn (λ x. (x.0, x.1.now)) result (word_at bytes.now) }
    ensures fewer { IfSome result (λ x. length x.1.now ≤ length bytes.now) }
{
    let word = *bytes.first_chunk::<4>()?;
    Some((u32::from_be_bytes(word), &bytes[4..]))
}

// A number of any width.
#[tactic(auto, using(crate::proofs::Fewer::takes_fewer))]
fn number(bytes: &[u8]) -> Option<(u64, &[u8])>
    ensures finds { FindsIn (λ x. (x.0, x.1.now)) result (number_at bytes.now) }
    ensures fewer { IfSome result (λ x. length x.1.now ≤ length bytes.now) }
{
    split_var(bytes).ok()
}

// A byte, and that many bytes.
fn any_id(bytes: &[u8]) -> Option<(&[u8], &[u8])>
    ensures finds { FindsIn (λ x. (x.0.now, x.1.now)) result (wide_id_at bytes.now) }
    ensures fewer { IfSome result (λ x. length x.1.now ≤ length bytes.now) }
{
    let (n, rest) = bytes.split_first()?;
    let n = usize::from(*n);
    if rest.len() < n {
        return None;
    }
    Some(rest.split_at(n))
}

// A byte, at most 20, and that many bytes.
fn id(bytes: &[u8]) -> Option<(&[u8], &[u8])>
    ensures finds { FindsIn (λ x. (x.0.now, x.1.now)) result (long_id_at bytes.now) }
    ensures fewer { IfSome result (λ x. length x.1.now ≤ length bytes.now) }
{
    let (n, rest) = bytes.split_first()?;
    let n = usize::from(*n);
    if n > MAX_CID_SIZE || rest.len() < n {
        return None;
    }
    Some(rest.split_at(n))
}

#[tactic(auto, using(crate::proofs::Seeing::version_seen, crate::proofs::Seeing::version_unseen))]
fn read_version(seen: Seen, bytes: &[u8]) -> Option<(u64, Seen, &[u8])>
    ensures gives { (known : Bool) (options : DecodeOptions) (before : List HeaderValue) → seen ≡ seen_of before
        → FindsIn (λ x. (x.0, x.1, x.2.now)) result
        (seen_after Version before (length bytes.now) (field_in known options Version before bytes.now)) }
    ensures fewer { IfSome result (λ x. length x.2.now ≤ length bytes.now) }
{
    let (n, rest) = word(bytes)?;
    Some((u64::from(n), seen.with(Some(u64::from(n))), rest))
}

#[tactic(auto, using(crate::proofs::Seeing::token_length_seen, crate::proofs::Seeing::token_length_unseen))]
fn read_token_length(seen: Seen, bytes: &[u8]) -> Option<(u64, Seen, &[u8])>
    ensures gives { (known : Bool) (options : DecodeOptions) (before : List HeaderValue) → seen ≡ seen_of before
        → FindsIn (λ x. (x.0, x.1, x.2.now)) result
        (seen_after TokenLength before (length bytes.now) (field_in known options TokenLength before bytes.now)) }
    ensures fewer { IfSome result (λ x. length x.2.now ≤ length bytes.now) }
{
    let (n, rest) = number(bytes)?;
    Some((n, seen.with(Some(n)), rest))
}

#[tactic(auto, using(crate::proofs::Seeing::length_seen, crate::proofs::Seeing::length_unseen))]
fn read_length(seen: Seen, bytes: &[u8]) -> Option<(u64, Seen, &[u8])>
    ensures gives { (known : Bool) (options : DecodeOptions) (before : List HeaderValue) → seen ≡ seen_of before
        → FindsIn (λ x. (x.0, x.1, x.2.now)) result
        (seen_after Length before (length bytes.now) (field_in known options Length before bytes.now)) }
    ensures fewer { IfSome result (λ x. length x.2.now ≤ length bytes.now) }
{
    let (n, rest) = number(bytes)?;
    Some((n, seen.with(Some(n)), rest))
}

// The receiver's id, or the sender's.
#[tactic(auto, using(crate::proofs::Seeing::destination_seen, crate::proofs::Seeing::destination_unseen, crate::proofs::Seeing::source_seen, crate::proofs::Seeing::source_unseen))]
fn read_id(seen: Seen, bytes: &[u8]) -> Option<(u64, Seen, &[u8])>
    ensures destination { (options : DecodeOptions) (before : List HeaderValue) → seen ≡ seen_of before
        → FindsIn (λ x. (x.0, x.1, x.2.now)) result
        (seen_after DestinationId before (length bytes.now) (field_in true options DestinationId before bytes.now)) }
    ensures source { (options : DecodeOptions) (before : List HeaderValue) → seen ≡ seen_of before
        → FindsIn (λ x. (x.0, x.1, x.2.now)) result
        (seen_after SourceId before (length bytes.now) (field_in true options SourceId before bytes.now)) }
    ensures fewer { IfSome result (λ x. length x.2.now ≤ length bytes.now) }
{
    let (data, rest) = id(bytes)?;
    Some((data.len() as u64, seen.with(None), rest))
}

// The same in a version that isn't known.
#[tactic(auto, using(crate::proofs::Seeing::any_destination_seen, crate::proofs::Seeing::any_destination_unseen, crate::proofs::Seeing::any_source_seen, crate::proofs::Seeing::any_source_unseen))]
fn read_any_id(seen: Seen, bytes: &[u8]) -> Option<(u64, Seen, &[u8])>
    ensures destination { (options : DecodeOptions) (before : List HeaderValue) → seen ≡ seen_of before
        → FindsIn (λ x. (x.0, x.1, x.2.now)) result
        (seen_after DestinationId before (length bytes.now) (field_in false options DestinationId before bytes.now)) }
    ensures source { (options : DecodeOptions) (before : List HeaderValue) → seen ≡ seen_of before
        → FindsIn (λ x. (x.0, x.1, x.2.now)) result
        (seen_after SourceId before (length bytes.now) (field_in false options SourceId before bytes.now)) }
    ensures fewer { IfSome result (λ x. length x.2.now ≤ length bytes.now) }
{
    let (data, rest) = any_id(bytes)?;
    Some((data.len() as u64, seen.with(None), rest))
}

// No bytes: whether the version is among those that are known.
#[tactic(auto, using(crate::proofs::Seeing::supported_seen, crate::proofs::Seeing::supported_unseen))]
fn read_supported<'a>(
    version: u32,
    versions: &[u32],
    seen: Seen,
    bytes: &'a [u8],
) -> Option<(u64, Seen, &'a [u8])>
    ensures gives { (known : Bool) (id_len : ℕ) (before : List HeaderValue) → seen ≡ seen_of before
        → FindsIn (λ x. (x.0, x.1, x.2.now)) result (seen_after (Supported version) before (length bytes.now)
        (field_in known (any_fixed id_len versions.now) (Supported version) before bytes.now)) }
    ensures fewer { IfSome result (λ x. length x.2.now ≤ length bytes.now) }
{
    if !is_among(version, versions) {
        return None;
    }
    Some((0, seen, bytes))
}

// As many bytes as the number before.
#[tactic(auto, using(crate::proofs::Seeing::token_seen, crate::proofs::Seeing::token_unseen))]
fn read_token(seen: Seen, bytes: &[u8]) -> Option<(u64, Seen, &[u8])>
    ensures gives { (known : Bool) (options : DecodeOptions) (before : List HeaderValue) → seen ≡ seen_of before
        → FindsIn (λ x. (x.0, x.1, x.2.now)) result
        (seen_after Token before (length bytes.now) (field_in known options Token before bytes.now)) }
    ensures fewer { IfSome result (λ x. length x.2.now ≤ length bytes.now) }
{
    let n = seen.token_length();
    if n > bytes.len() as u64 {
        return None;
    }
    let rest = &bytes[n as usize..];
    Some((n, seen.with(Some(rest.len() as u64)), rest))
}

// A short header's id.
#[tactic(auto, using(crate::proofs::Seeing::short_seen, crate::proofs::Seeing::short_unseen))]
fn read_short_id(id_len: usize, seen: Seen, bytes: &[u8]) -> Option<(u64, Seen, &[u8])>
    ensures gives { (known : Bool) (versions : List ℕ) (before : List HeaderValue) → seen ≡ seen_of before
        → FindsIn (λ x. (x.0, x.1, x.2.now)) result (seen_after ShortId before (length bytes.now)
        (field_in known (any_fixed id_len versions) ShortId before bytes.now)) }
    ensures fewer { IfSome result (λ x. length x.2.now ≤ length bytes.now) }
{
    if bytes.len() < id_len {
        return None;
    }
    Some((id_len as u64, seen.with(None), &bytes[id_len..]))
}

/// What a header's fields depend on: its version, whether that is 0 or known, and how many bytes a short header's id
/// has.
#[derive(Clone, Copy, Debug, PartialEq, Eq)]
pub(crate) struct Given {
    pub(crate) version: u32,
    pub(crate) known: bool,
    pub(crate) id_len: usize,
}

// A field of any kind.
fn read_field<'a>(
    kind: Kind,
    given: Given,
    versions: &[u32],
    seen: Seen,
    bytes: &'a [u8],
) -> Option<(u64, Seen, &'a [u8])>
    ensures gives { (before : List HeaderValue) → seen ≡ seen_of before
        → FindsIn (λ x. (x.0, x.1, x.2.now)) result (seen_after (field_of given.version kind) before (length bytes.now)
        (field_in given.known (any_fixed given.id_len versions.now) (field_of given.version kind) before bytes.now)) }
    ensures fewer { IfSome result (λ x. length x.2.now ≤ length bytes.now) }
{
    match kind {
        Kind::Version => read_version(seen, bytes),
        Kind::DestinationId => {
            if given.known {
                read_id(seen, bytes)
            } else {
                read_any_id(seen, bytes)
            }
        }
        Kind::SourceId => {
            if given.known {
                read_id(seen, bytes)
            } else {
                read_any_id(seen, bytes)
            }
        }
        Kind::Supported => read_supported(given.version, versions, seen, bytes),
        Kind::TokenLength => read_token_length(seen, bytes),
        Kind::Token => read_token(seen, bytes),
        Kind::Length => read_length(seen, bytes),
        Kind::ShortId => read_short_id(given.id_len, seen, bytes),
    }
}

// Where reading stops in an id that can't be read: at its length, or at the bytes after it.
fn in_id(known: bool, bytes: &[u8]) -> (usize, u64)
    ensures { result ≡ inside_id known bytes.now }
{
    let Some((n, _)) = bytes.split_first() else {
        return (0, 0);
    };
    if known && usize::from(*n) > MAX_CID_SIZE {
        return (0, 0);
    }
    (1, 1)
}

// The same of a field of any kind.
fn stop_in(kind: Kind, known: bool, bytes: &[u8]) -> (usize, u64)
    ensures { (version : ℕ) → result ≡ inside known (field_of version kind) bytes.now }
{
    match kind {
        Kind::DestinationId => in_id(known, bytes),
        Kind::SourceId => in_id(known, bytes),
        _ => (0, 0),
    }
}

// Reads the fields in a row, of which the first has this index and begins at this offset, and stores their spans from
// that index on. Returns how many fields were read with those before them, where the last one ends, and where reading
// stops inside the next one, if that can't be read.
pub(crate) fn walk(
    kinds: &[Kind],
    given: Given,
    versions: &[u32],
    index: usize,
    start: usize,
    seen: Seen,
    bytes: &[u8],
    room: &mut [Span],
) -> (usize, usize, usize, u64)
    requires fits { start + length bytes.now < 2 ^ 63 }
    requires few { index + length kinds.now < 2 ^ 32 }
    ensures spans { (before : List HeaderValue) → seen ≡ seen_of before
        → room.new ≡ stored index (walk_at given.known (any_fixed given.id_len versions.now) index start
        (map (field_of given.version) kinds.now) before bytes.now).0 room.old }
    ensures count { (before : List HeaderValue) → seen ≡ seen_of before
        → result.0 ≡ index + length (walk_at given.known (any_fixed given.id_len versions.now) index start
        (map (field_of given.version) kinds.now) before bytes.now).0 }
    ensures few { result.0 ≤ index + length kinds.now }
    ensures within { result.1 ≤ start + length bytes.now }
    ensures inside { (before : List HeaderValue) → seen ≡ seen_of before
        → (result.2, result.3) ≡ stop_at given.known (any_fixed given.id_len versions.now)
        (map (field_of given.version) kinds.now) before bytes.now }
    ensures end { (before : List HeaderValue) → seen ≡ seen_of before
        → result.1 ≡ last_end start (walk_at given.known (any_fixed given.id_len versions.now) index start
        (map (field_of given.version) kinds.now) before bytes.now).0 }
{
    let Some((kind, others)) = kinds.split_first() else {
        return (index, start, 0, 0);
    };
    let Some((number, seen, rest)) = read_field(*kind, given, versions, seen, bytes) else {
        let (inside, numbers) = stop_in(*kind, given.known, bytes);
        return (index, start, inside, numbers);
    };
    let end = start + bytes.len().saturating_sub(rest.len());
    put(
        room,
        index,
        Span {
            field: index,
            start,
            end,
            number,
        },
    );
    walk(others, given, versions, index + 1, end, seen, rest, room)
}
