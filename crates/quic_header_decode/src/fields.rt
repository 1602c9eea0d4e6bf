//! The fields of headers, read from an offset on, which moves to the end of what was read.
ghost use Rattle.std.specs.Prelude.{◌≡◌, ◌+◌, ◌<◌, ◌≤◌, Some, None, drop, length, IfSome, MatchOption};
ghost use Rattle.quic_base.specs.Number.{AreBytes};
ghost use Rattle.quic_base.specs.Reading.{number_at};
ghost use Rattle.quic_header_decode.specs.Reading.{Reads, word_at, long_id_at};

use quic_base::coding::are_bytes;
use quic_base::ids::MAX_CID_SIZE;
use quic_base::varint::split_var_by_word;

/// A byte range: from `start` to before `end`.
#[derive(Clone, Copy, Debug, PartialEq, Eq)]
pub struct Place {
    /// The offset of the first byte.
    pub start: usize,
    /// The offset after the last byte.
    pub end: usize,
}

// The bytes from the offset on.
#[inline]
fn left(bytes: &[u8], place: usize) -> &[u8]
    requires { place ≤ length bytes.now }
    ensures value { result.now ≡ drop place bytes.now }
    ensures bytes { AreBytes (drop place bytes.now) }
{
    let rest = &bytes[place..];
    are_bytes(rest);
    rest
}

// How many bytes there are from the offset on.
#[inline]
pub(crate) fn remaining(bytes: &[u8], place: usize) -> usize
    requires { place ≤ length bytes.now }
    ensures value { result ≡ length (drop place bytes.now) }
    ensures within { place + result ≡ length bytes.now }
{
    bytes.len() - place
}

// Skips the next `count` bytes. The caller must ensure that there are that many.
#[inline]
pub(crate) fn pass(bytes: &[u8], place: &mut usize, count: usize)
    requires inside { place.old ≤ length bytes.now }
    requires enough { count ≤ length (drop place.old bytes.now) }
    ensures forward { place.old ≤ place.new }
    ensures within { place.new ≤ length bytes.now }
    ensures place { place.new ≡ place.old + count }
    ensures rest { drop place.new bytes.now ≡ drop count (drop place.old bytes.now) }
{
    let _len = bytes.len();
    *place += count;
}

// Four bytes, the highest first.
#[inline]
pub(crate) fn read_word(bytes: &[u8], place: &mut usize) -> Option<u32>
    requires { place.old ≤ length bytes.now }
    ensures forward { place.old ≤ place.new }
    ensures within { place.new ≤ length bytes.now }
    ensures four { IfSome result (λ _. place.new ≡ place.old + 4) }
    ensures read { Reads result (drop place.new bytes.now) (word_at (drop place.old bytes.now)) }
{
    let word = *left(bytes, *place).first_chunk::<4>()?;
    pass(bytes, place, 4);
    Some(u32::from_be_bytes(word))
}

// The bytes of a connection id, after the byte of their length.
#[inline]
pub(crate) fn read_id<'a>(bytes: &'a [u8], place: &mut usize) -> Option<&'a [u8]>
    requires { place.old ≤ length bytes.now }
    ensures forward { place.old ≤ place.new }
    ensures within { place.new ≤ length bytes.now }
    ensures short { IfSome result (λ id. length id.now ≤ MAX_CID_SIZE) }
    ensures read { MatchOption result (long_id_at (drop place.old bytes.now) ≡ None)
        (λ id. long_id_at (drop place.old bytes.now) ≡ Some (id.now, drop place.new bytes.now)) }
{
    let (len, rest) = left(bytes, *place).split_first()?;
    let len = usize::from(*len);
    if len > MAX_CID_SIZE || bytes.len() < *place + 1 + len {
        return None;
    }
    pass(bytes, place, 1 + len);
    Some(&rest[..len])
}

// A varint. It is inlined into its callers, so that the offset stays in a register.
#[inline(always)]
#[tactic(auto, using(crate::proofs::FieldLaws::reading))]
pub(crate) fn read_var(bytes: &[u8], place: &mut usize) -> Option<u64>
    requires { place.old ≤ length bytes.now }
    ensures forward { place.old ≤ place.new }
    ensures within { place.new ≤ length bytes.now }
    ensures some { IfSome result (λ _. place.old < place.new) }
    ensures read { Reads result (drop place.new bytes.now) (number_at (drop place.old bytes.now)) }
{
    let rest = left(bytes, *place);
    let (number, after) = split_var_by_word(rest).ok()?;
    pass(bytes, place, rest.len() - after.len());
    Some(number)
}
