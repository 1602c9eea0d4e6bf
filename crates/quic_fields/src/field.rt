//! Fields, read one after another from the front of a slice, with their spans.
ghost use Rattle.std.specs.Prelude.{◌≡◌, ◌<◌, ◌≤◌, ◌+◌, ◌^◌, List, ℕ, length, map, slice_set, Option, Some, None, IfOk};
ghost use Rattle.quic_frame_fields.specs.Field.{Value, Varint, Counted, Id, Uint64, Bytes16, Blocks, Rest, Implied, Ordered, is_ordered, greatest_of};
ghost use Rattle.quic_frame_fields.specs.Reading.{Gives, varint_at, bytes_at, counted_at, id_at, eight_at, field_at};
ghost use Rattle.quic_fields.specs.Kinds.{field_of};
ghost use Rattle.quic_fields.specs.Inside.{stop_at};
ghost use Rattle.quic_fields.specs.Walk.{are_ordered, seen_after, seen_of, with_value, stored, walk_at, last_end, EndsAs};

use crate::inside::stop_in;
use crate::row::Kind;
use quic_base::coding::Codec;
use quic_base::varint::split_var;
use quic_frame_fields::frame::fault::Fault;
use quic_frame_fields::frame::field::blocks;

/// A field and where it is.
#[repr(C)]
#[derive(Clone, Copy, Debug, PartialEq, Eq)]
pub struct Span {
    /// Its index: 0 for the type, 1 for the first field after it.
    pub field: usize,
    /// Where it begins.
    pub start: usize,
    /// Where it ends.
    pub end: usize,
    /// Its number. Of bytes it is how many there are, which end where the field ends; of an ACK's ranges it is how many
    /// are below the first.
    pub number: u64,
}

/// How far fields were read, as libraries for C return it.
#[repr(C)]
#[derive(Clone, Copy, Debug, PartialEq, Eq)]
pub struct Reach {
    /// How many fields were read. So the field at fault has this index.
    pub count: usize,
    /// Where the last of them ends, and the field at fault begins.
    pub end: usize,
    /// How many bytes of the field at fault come before the number or the bytes at fault.
    pub inside: usize,
    /// How many numbers these are.
    pub numbers: u64,
}

/// What later fields need of the values that were read.
#[derive(Clone, Copy, Debug, PartialEq, Eq)]
pub enum Seen {
    /// There are none.
    Nothing,
    /// There are some.
    Values {
        /// The first, if it is a number; else 0.
        first: u64,
        /// The last, if it is a number.
        last: Option<u64>,
        /// Whether the last two are numbers, the second of which is at most the first.
        ordered: bool,
    },
}

impl Seen {
    // The same after one more value, a number or not.
    fn with(self, value: Option<u64>) -> Seen
        ensures { result ≡ with_value self value }
    {
        match self {
            Seen::Nothing => Seen::Values {
                first: value.unwrap_or(0),
                last: value,
                ordered: false,
            },
            Seen::Values { first, last, .. } => Seen::Values {
                first,
                last: value,
                ordered: are_ordered(last, value),
            },
        }
    }

    // The first number, 0 if the first value isn't one.
    pub(crate) fn first(self) -> u64
        ensures { (before : List Value) → self ≡ seen_of before → result ≡ greatest_of before }
    {
        match self {
            Seen::Nothing => 0,
            Seen::Values { first, .. } => first,
        }
    }

    // Whether the last two values are numbers, the second of which is at most the first.
    fn is_ordered(self) -> bool
        ensures { (before : List Value) → self ≡ seen_of before → result ≡ is_ordered before }
    {
        match self {
            Seen::Nothing => false,
            Seen::Values { ordered, .. } => ordered,
        }
    }
}

// Whether these are numbers, the second of which is at most the first.
fn are_ordered(first: Option<u64>, second: Option<u64>) -> bool
    ensures { result ≡ are_ordered first second }
{
    match (first, second) {
        (Some(a), Some(b)) => b <= a,
        _ => false,
    }
}

// A number of any width.
#[tactic(auto, using(crate::proofs::Fewer::takes_fewer), unfolding(quic_frame_fields::specs::Reading::varint_at))]
pub(crate) fn number(bytes: &[u8]) -> Result<(u64, &[u8]), Fault>
    ensures bound { IfOk result (λ x. x.0 < 2 ^ 62) }
    ensures gives { Gives (λ x. (x.0, x.1.now)) result (varint_at bytes.now) }
    ensures fewer { IfOk result (λ x. length x.1.now ≤ length bytes.now) }
{
    Ok(split_var(bytes)?)
}

// The first `n` bytes, and what follows them.
#[tactic(auto, unfolding(quic_frame_fields::specs::Reading::bytes_at))]
fn take(n: u64, bytes: &[u8]) -> Result<(&[u8], &[u8]), Fault>
    ensures gives { Gives (λ x. (x.0.now, x.1.now)) result (bytes_at n bytes.now) }
    ensures len { IfOk result (λ x. length x.0.now ≡ n) }
    ensures fewer { IfOk result (λ x. length x.1.now ≤ length bytes.now) }
{
    if n > bytes.len() as u64 {
        return Err(Fault::UnexpectedEnd);
    }
    Ok(bytes.split_at(n as usize))
}

#[tactic(auto, unfolding(quic_frame_fields::specs::Reading::counted_at))]
fn counted(bytes: &[u8]) -> Result<(&[u8], &[u8]), Fault>
    ensures gives { Gives (λ x. (x.0.now, x.1.now)) result (counted_at bytes.now) }
    ensures fewer { IfOk result (λ x. length x.1.now ≤ length bytes.now) }
{
    let (n, rest) = number(bytes)?;
    take(n, rest)
}

#[tactic(auto, unfolding(quic_frame_fields::specs::Reading::id_at))]
fn id(bytes: &[u8]) -> Result<(&[u8], &[u8]), Fault>
    ensures gives { Gives (λ x. (x.0.now, x.1.now)) result (id_at bytes.now) }
    ensures fewer { IfOk result (λ x. length x.1.now ≤ length bytes.now) }
{
    let Some((n, rest)) = bytes.split_first() else {
        return Err(Fault::UnexpectedEnd);
    };
    if *n == 0 || *n > 20 {
        return Err(Fault::Malformed);
    }
    take(u64::from(*n), rest)
}

// A number of eight bytes, the highest one first.
#[tactic(auto, using(quic_frame_fields::proofs::Eights::eights, crate::proofs::Fewer::takes_fewer))]
fn eight(bytes: &[u8]) -> Result<(u64, &[u8]), Fault>
    ensures gives { Gives (λ x. (x.0, x.1.now)) result (eight_at bytes.now) }
    ensures fewer { IfOk result (λ x. length x.1.now ≤ length bytes.now) }
{
    let mut rest = bytes;
    let n = u64::decode(&mut rest)?;
    Ok((n, rest))
}

// A field: its number, what later fields need, and what follows it.
#[tactic(auto, using(crate::proofs::Seeing::seen_number))]
fn read_number(seen: Seen, bytes: &[u8]) -> Result<(u64, Seen, &[u8]), Fault>
    ensures gives { (before : List Value) → seen ≡ seen_of before
        → Gives (λ x. (x.0, x.1, x.2.now)) result (seen_after before (field_at Varint before bytes.now)) }
    ensures fewer { IfOk result (λ x. length x.2.now ≤ length bytes.now) }
{
    let (n, rest) = number(bytes)?;
    Ok((n, seen.with(Some(n)), rest))
}

#[tactic(auto, using(crate::proofs::Seeing::seen_bytes))]
fn read_counted(seen: Seen, bytes: &[u8]) -> Result<(u64, Seen, &[u8]), Fault>
    ensures gives { (before : List Value) → seen ≡ seen_of before
        → Gives (λ x. (x.0, x.1, x.2.now)) result (seen_after before (field_at Counted before bytes.now)) }
    ensures fewer { IfOk result (λ x. length x.2.now ≤ length bytes.now) }
{
    let (data, rest) = counted(bytes)?;
    Ok((data.len() as u64, seen.with(None), rest))
}

#[tactic(auto, using(crate::proofs::Seeing::seen_bytes))]
fn read_id(seen: Seen, bytes: &[u8]) -> Result<(u64, Seen, &[u8]), Fault>
    ensures gives { (before : List Value) → seen ≡ seen_of before
        → Gives (λ x. (x.0, x.1, x.2.now)) result (seen_after before (field_at Id before bytes.now)) }
    ensures fewer { IfOk result (λ x. length x.2.now ≤ length bytes.now) }
{
    let (data, rest) = id(bytes)?;
    Ok((data.len() as u64, seen.with(None), rest))
}

#[tactic(auto, using(crate::proofs::Seeing::seen_bytes))]
fn read_token(seen: Seen, bytes: &[u8]) -> Result<(u64, Seen, &[u8]), Fault>
    ensures gives { (before : List Value) → seen ≡ seen_of before
        → Gives (λ x. (x.0, x.1, x.2.now)) result (seen_after before (field_at Bytes16 before bytes.now)) }
    ensures fewer { IfOk result (λ x. length x.2.now ≤ length bytes.now) }
{
    let (_, rest) = take(16, bytes)?;
    Ok((16, seen.with(None), rest))
}

#[tactic(auto, using(crate::proofs::Seeing::seen_bytes))]
fn read_rest(seen: Seen, bytes: &[u8]) -> Result<(u64, Seen, &[u8]), Fault>
    ensures gives { (before : List Value) → seen ≡ seen_of before
        → Gives (λ x. (x.0, x.1, x.2.now)) result (seen_after before (field_at Rest before bytes.now)) }
    ensures fewer { IfOk result (λ x. length x.2.now ≤ length bytes.now) }
{
    Ok((bytes.len() as u64, seen.with(None), &bytes[bytes.len()..]))
}

#[tactic(auto, using(crate::proofs::Seeing::seen_number))]
fn read_implied(n: u64, seen: Seen, bytes: &[u8]) -> Result<(u64, Seen, &[u8]), Fault>
    ensures gives { (before : List Value) → seen ≡ seen_of before
        → Gives (λ x. (x.0, x.1, x.2.now)) result (seen_after before (field_at (Implied n) before bytes.now)) }
    ensures fewer { IfOk result (λ x. length x.2.now ≤ length bytes.now) }
{
    Ok((n, seen.with(Some(n)), bytes))
}

fn read_ordered(seen: Seen, bytes: &[u8]) -> Result<(u64, Seen, &[u8]), Fault>
    ensures gives { (before : List Value) → seen ≡ seen_of before
        → Gives (λ x. (x.0, x.1, x.2.now)) result (seen_after before (field_at Ordered before bytes.now)) }
    ensures fewer { IfOk result (λ x. length x.2.now ≤ length bytes.now) }
{
    if !seen.is_ordered() {
        return Err(Fault::Malformed);
    }
    Ok((0, seen, bytes))
}

// A number of eight bytes.
#[tactic(auto, using(crate::proofs::Seeing::seen_number))]
fn read_eight(seen: Seen, bytes: &[u8]) -> Result<(u64, Seen, &[u8]), Fault>
    ensures gives { (before : List Value) → seen ≡ seen_of before
        → Gives (λ x. (x.0, x.1, x.2.now)) result (seen_after before (field_at Uint64 before bytes.now)) }
    ensures fewer { IfOk result (λ x. length x.2.now ≤ length bytes.now) }
{
    let (n, rest) = eight(bytes)?;
    Ok((n, seen.with(Some(n)), rest))
}

// The ranges of an ACK, whose count comes first.
#[tactic(auto, using(crate::proofs::Seeing::seen_ranges), unfolding(quic_frame_fields::specs::Reading::blocks_at))]
fn read_blocks(seen: Seen, bytes: &[u8]) -> Result<(u64, Seen, &[u8]), Fault>
    ensures gives { (before : List Value) → seen ≡ seen_of before
        → Gives (λ x. (x.0, x.1, x.2.now)) result (seen_after before (field_at Blocks before bytes.now)) }
    ensures fewer { IfOk result (λ x. length x.2.now ≤ length bytes.now) }
{
    let (count, _) = number(bytes)?;
    let (_, rest) = blocks(seen.first(), bytes)?;
    Ok((count, seen.with(None), rest))
}

// A field of any kind.
fn read_field(kind: Kind, seen: Seen, bytes: &[u8]) -> Result<(u64, Seen, &[u8]), Fault>
    ensures gives { (before : List Value) → seen ≡ seen_of before
        → Gives (λ x. (x.0, x.1, x.2.now)) result (seen_after before (field_at (field_of kind) before bytes.now)) }
    ensures fewer { IfOk result (λ x. length x.2.now ≤ length bytes.now) }
{
    match kind {
        Kind::Varint => read_number(seen, bytes),
        Kind::Counted => read_counted(seen, bytes),
        Kind::Id => read_id(seen, bytes),
        Kind::Uint64 => read_eight(seen, bytes),
        Kind::Bytes16 => read_token(seen, bytes),
        Kind::Blocks => read_blocks(seen, bytes),
        Kind::Rest => read_rest(seen, bytes),
        Kind::Implied(n) => read_implied(n, seen, bytes),
        Kind::Ordered => read_ordered(seen, bytes),
    }
}

/// How far the fields of a frame were read.
#[derive(Clone, Copy, Debug, PartialEq, Eq)]
pub struct Walked {
    /// How many fields were read. So the field at fault has this index.
    pub count: usize,
    /// Where the last of them ends, and the field at fault begins.
    pub end: usize,
    /// Why the next field can't be read; `None` if all were.
    pub fault: Option<Fault>,
    /// How many bytes of the field at fault come before the number or the bytes that can't be read.
    pub inside: usize,
    /// How many numbers these are: in a field with a length 1 after that; in an ACK's ranges 1 after the count, 2 after
    /// the first range, and then two for each range.
    pub numbers: u64,
}

/// Stores a span, if there is room for it.
pub fn put(room: &mut [Span], index: usize, span: Span)
    ensures { room.new ≡ slice_set room.old index span }
{
    if index < room.len() {
        room[index] = span;
    }
}

// Reads the fields in a row, of which the first has this index and begins at this offset, and stores their spans from
// that index on.
pub(crate) fn walk(
    kinds: &[Kind],
    index: usize,
    start: usize,
    seen: Seen,
    bytes: &[u8],
    room: &mut [Span],
) -> Walked
    requires fits { start + length bytes.now < 2 ^ 63 }
    requires few { index + length kinds.now < 2 ^ 32 }
    ensures spans { (before : List Value) → seen ≡ seen_of before
        → room.new ≡ stored index (walk_at index start (map field_of kinds.now) before bytes.now).0 room.old }
    ensures count { (before : List Value) → seen ≡ seen_of before
        → result.count ≡ index + length (walk_at index start (map field_of kinds.now) before bytes.now).0 }
    ensures ends { (before : List Value) → seen ≡ seen_of before
        → EndsAs result.fault (walk_at index start (map field_of kinds.now) before bytes.now).1 }
    ensures end { (before : List Value) → seen ≡ seen_of before
        → result.end ≡ last_end start (walk_at index start (map field_of kinds.now) before bytes.now).0 }
    ensures inside { (before : List Value) → seen ≡ seen_of before
        → (result.inside, result.numbers) ≡ stop_at (map field_of kinds.now) before bytes.now }
{
    let Some((kind, others)) = kinds.split_first() else {
        return Walked {
            count: index,
            end: start,
            fault: None,
            inside: 0,
            numbers: 0,
        };
    };
    match read_field(*kind, seen, bytes) {
        Ok((number, seen, rest)) => {
            let end = start + bytes.len().saturating_sub(rest.len());
            put(
                room,
                index,
                Span {
                    field: index,
                    start,
                    end,
                    number,
                },
            );
            walk(others, index + 1, end, seen, rest, room)
        }
        Err(fault) => {
            let (inside, numbers) = stop_in(*kind, seen, bytes);
            Walked {
                count: index,
                end: start,
                fault: Some(fault),
                inside,
                numbers,
            }
        }
    }
}
