//! Writes numbers and bytes at the front of a slice.
ghost use Rattle.std.specs.Prelude.{◌≡◌, ◌<◌, ◌≤◌, ◌+◌, ◌^◌, ◌++◌, ℕ, List, Bool, length, take, drop, IfSome};
ghost use Rattle.quic_frame_fields.specs.Bodies.{shortest_body};
ghost use Rattle.quic_frame_fields.specs.Numbers.{AreNumeric, AreEncoded, shortest_varints};
ghost use Rattle.quic_frame_fields.specs.Parts.{ack_meaning};
ghost use Rattle.quic_frame_fields.specs.Putting.{Stores, Puts, Shortens};
ghost use Rattle.quic_frame_fields.specs.Sets.{AreCounts, IsAckInRange, count_numbers, header_numbers};
ghost use Rattle.quic_frame_fields.specs.Shortest.{shortest_frame, stream_header};

use super::ack_encode::header_of;
use super::write::{HEADER_ROOM, count_and_len, store_numbers};
use super::{Ack, EcnCounts, FrameType, Stream};
use quic_base::coding::store_bytes;
use quic_base::varint::{split_var_by_word, store_var};

/// Stores at most five numbers, each below 2^62, in their shortest encodings at the front of the slice, and returns how
/// many bytes they have. It is an error exactly when the slice is shorter: it doesn't change then, and the error is how
/// many bytes are needed. The room is checked once.
#[inline(always)]
pub fn numbers(dest: &mut [u8], numbers: &[u64]) -> Result<usize, usize>
    requires few { length numbers.now ≤ 5 }
    requires numeric { AreNumeric numbers.now }
    ensures { Puts result (shortest_varints numbers.now) dest.old dest.new }
{
    let mut encoded = [0; HEADER_ROOM];
    let len = store_numbers(&mut encoded, numbers);
    bytes(dest, &encoded[..len])
}

/// Stores numbers and then bytes, in the same way.
#[inline(always)]
pub fn numbers_and_bytes(dest: &mut [u8], numbers: &[u64], tail: &[u8]) -> Result<usize, usize>
    requires few { length numbers.now ≤ 5 }
    requires numeric { AreNumeric numbers.now }
    ensures { Puts result (shortest_varints numbers.now ++ tail.now) dest.old dest.new }
{
    let mut encoded = [0; HEADER_ROOM];
    let len = store_numbers(&mut encoded, numbers);
    two(dest, &encoded[..len], tail)
}

/// Stores numbers, then bytes, and then at most 64 others, in the same way.
pub fn numbers_and_two(
    dest: &mut [u8],
    numbers: &[u64],
    middle: &[u8],
    end: &[u8],
) -> Result<usize, usize>
    requires few { length numbers.now ≤ 5 }
    requires numeric { AreNumeric numbers.now }
    requires end { length end.now ≤ 64 }
    ensures { Puts result (shortest_varints numbers.now ++ (middle.now ++ end.now)) dest.old dest.new }
{
    let mut encoded = [0; HEADER_ROOM];
    let len = store_numbers(&mut encoded, numbers);
    three(dest, &encoded[..len], middle, end)
}

/// Stores at most five numbers, each below 2^62, in their shortest encodings over the bytes from `at` on, and returns
/// the offset at which they end.
#[inline(always)]
pub fn numbers_at(dest: &mut [u8], at: usize, numbers: &[u64]) -> usize
    requires few { length numbers.now ≤ 5 }
    requires numeric { AreNumeric numbers.now }
    requires room { at + length (shortest_varints numbers.now) ≤ length dest.old }
    ensures stores { Stores (shortest_varints numbers.now) at dest.old result dest.new }
    ensures len { length dest.new ≡ length dest.old }
{
    let mut encoded = [0; HEADER_ROOM];
    let len = store_numbers(&mut encoded, numbers);
    store_bytes(dest, at, &encoded[..len])
}

// Stores bytes at the front.
fn bytes(dest: &mut [u8], bytes: &[u8]) -> Result<usize, usize>
    ensures { Puts result bytes.now dest.old dest.new }
{
    if dest.len() < bytes.len() {
        return Err(bytes.len());
    }
    Ok(store_bytes(dest, 0, bytes))
}

// Stores bytes at the front, and others after them.
fn two(dest: &mut [u8], front: &[u8], end: &[u8]) -> Result<usize, usize>
    ensures { Puts result (front.now ++ end.now) dest.old dest.new }
{
    let needed = front.len() + end.len();
    if dest.len() < needed {
        return Err(needed);
    }
    let at = store_bytes(dest, 0, front);
    Ok(store_bytes(dest, at, end))
}

// Stores bytes at the front, others after them, and others after these.
fn three(dest: &mut [u8], front: &[u8], middle: &[u8], end: &[u8]) -> Result<usize, usize>
    requires front { length front.now ≤ 64 }
    requires end { length end.now ≤ 64 }
    ensures { Puts result (front.now ++ (middle.now ++ end.now)) dest.old dest.new }
{
    let needed = front.len() + middle.len() + end.len();
    if dest.len() < needed {
        return Err(needed);
    }
    let at = store_bytes(dest, 0, front);
    let at = store_bytes(dest, at, middle);
    Ok(store_bytes(dest, at, end))
}

/// Stores a STREAM with its data, in the same way. The data's length is written if it is given. The caller must ensure
/// that the offset and the length are below 2^62.
pub fn stream(dest: &mut [u8], stream: &Stream<'_>, counted: Option<u64>) -> Result<usize, usize>
    requires offset { stream.now.offset < 2 ^ 62 }
    requires counted { IfSome counted (λ n. n < 2 ^ 62) }
    ensures { Puts result (stream_header stream.now.id stream.now.offset stream.now.fin counted
        ++ stream.now.bytes.now) dest.old dest.new }
{
    let Stream {
        id,
        offset,
        fin,
        bytes,
    } = *stream;
    let ty = FrameType::of_stream(offset != 0, fin).into_inner();
    let id = u64::from(id);
    match (offset, counted) {
        (0, None) => numbers_and_bytes(dest, &[ty, id], bytes),
        (0, Some(length)) => numbers_and_bytes(dest, &[ty + 2, id, length], bytes),
        (_, None) => numbers_and_bytes(dest, &[ty, id, offset], bytes),
        (_, Some(length)) => numbers_and_bytes(dest, &[ty + 2, id, offset, length], bytes),
    }
}

/// Stores an acknowledgement that was read in its shortest encoding, in the same way; its numbers may have been encoded
/// in any widths. Blocks that are already in their shortest encoding are copied.
pub fn ack(dest: &mut [u8], ack: &Ack<'_>) -> Result<usize, usize>
    requires { IsAckInRange ack.now }
    ensures { (last : Bool) → Puts result (shortest_frame last (ack_meaning ack.now)) dest.old dest.new }
{
    ack_behind(dest, ack, 0)
}

/// The same of its body, which its type isn't part of.
pub fn ack_body(dest: &mut [u8], ack: &Ack<'_>) -> Result<usize, usize>
    requires { IsAckInRange ack.now }
    ensures { (last : Bool) → Puts result (shortest_body last (ack_meaning ack.now)) dest.old dest.new }
{
    ack_behind(dest, ack, 1)
}

// The same of what an acknowledgement has behind that many of its first four numbers, of which the type is one.
#[inline(always)]
fn ack_behind(dest: &mut [u8], ack: &Ack<'_>, first: usize) -> Result<usize, usize>
    requires in_range { IsAckInRange ack.now }
    requires first { first ≤ 4 }
    ensures { (last : Bool) → Puts result (drop (length (shortest_varints (take first (header_numbers ack.now))))
        (shortest_frame last (ack_meaning ack.now))) dest.old dest.new }
{
    let (numbers, blocks) = count_and_len(ack.additional());
    let mut header = [0; HEADER_ROOM];
    let header_len = store_numbers(&mut header, &header_of(ack, numbers)[first..]);
    let mut counts = [0; HEADER_ROOM];
    let counts_len = store_counts(&mut counts, ack.ecn());
    let needed = header_len + blocks as usize + counts_len;
    if dest.len() < needed {
        return Err(needed);
    }
    let at = store_bytes(dest, 0, &header[..header_len]);
    let at = store_shortened(dest, at, ack.additional(), blocks as usize);
    Ok(store_bytes(dest, at, &counts[..counts_len]))
}

// Stores the counts of an acknowledgement, if they are given, and returns the offset at which they end.
fn store_counts(counts: &mut [u8; HEADER_ROOM], ecn: Option<EcnCounts>) -> usize
    requires { AreCounts ecn }
    ensures within { result ≤ HEADER_ROOM }
    ensures front { take result counts.new ≡ shortest_varints (count_numbers ecn) }
{
    match ecn {
        None => 0,
        Some(ecn) => store_numbers(counts, &[ecn.ect0, ecn.ect1, ecn.ce]),
    }
}

// Stores the numbers that the bytes encode from `at` on, in their shortest encodings, which have `len` bytes, and
// returns the offset at which they end.
fn store_shortened(dest: &mut [u8], at: usize, encoded: &[u8], len: usize) -> usize
    requires shortens { Shortens encoded.now len }
    requires room { at + len ≤ length dest.old }
    ensures stores { (ns : List ℕ) → AreEncoded ns encoded.now
        → Stores (shortest_varints ns) at dest.old result dest.new }
    ensures len { length dest.new ≡ length dest.old }
{
    if len == encoded.len() {
        store_bytes(dest, at, encoded)
    } else {
        store_each(dest, at, encoded, len)
    }
}

// The same, one number after the other.
fn store_each(dest: &mut [u8], at: usize, encoded: &[u8], len: usize) -> usize
    requires shortens { Shortens encoded.now len }
    requires room { at + len ≤ length dest.old }
    ensures stores { (ns : List ℕ) → AreEncoded ns encoded.now
        → Stores (shortest_varints ns) at dest.old result dest.new }
    ensures len { length dest.new ≡ length dest.old }
{
    let mut at = at;
    let mut rest = encoded;
    while let Ok((number, after)) = split_var_by_word(rest) {
        at = store_var(dest, at, number);
        rest = after;
    }
    at
}
