//! Acknowledgements, written in their shortest form (RFC 9000, section 19.3).
ghost use Rattle.std.specs.Prelude.{◌≡◌, ◌≢◌, ◌<◌, ◌≤◌, ◌+◌, ◌-◌, ◌/◌, ◌^◌, ◌∷◌, ◌++◌, [], ℕ, Bool, IfOk, true, length, take};
ghost use Rattle.std.specs.Option.{option_copied};
ghost use Rattle.quic_ranges.specs.Runs.{IsMaximalRuns, member};
ghost use Rattle.quic_frame_fields.specs.Acks.{ranges_acked};
ghost use Rattle.quic_frame_fields.specs.Parts.{ack_meaning};
ghost use Rattle.quic_frame_fields.specs.Sets.{AreCounts, IsAckInRange, ranges_in, ack_of, ack_type, count_numbers, header_numbers};
ghost use Rattle.quic_frame_fields.specs.Shortest.{shortest_frame, shortest_below};
ghost use Rattle.quic_base.specs.Writing.{WritesTo};
ghost use Rattle.quic_frame_fields.specs.Putting.{Flushes};
ghost use Rattle.quic_frame_fields.specs.Numbers.{shortest_varints};

use super::ack::{Ack, EcnCounts};
use super::write;
use bytes::BufMut;
use quic_base::coding::NoRoom;
use quic_base::varint::store_var;
use quic_ranges::range_set::{ArrayRangeSet, Iter, RangeSet};
use std::ops::Range;

// The size of the array in which numbers are collected, so that the room is checked once for many.
const CHUNK: usize = 64;

impl Ack<'_> {
    /// Appends an ACK of a set (RFC 9000, section 19.3). Returns `NoRoom` only if the frame is longer than the buffer's
    /// spare room. The buffer then has its old contents, and possibly a prefix of the frame after them. The caller must
    /// ensure that the set isn't empty, and that its numbers, the delay and the counts are below 2^62. It doesn't
    /// allocate.
    pub fn encode<B: BufMut>(
        delay: u64,
        ranges: &ArrayRangeSet,
        ecn: Option<&EcnCounts>,
        out: &mut B,
    ) -> Result<(), NoRoom>
        requires some { ranges.now ≢ [] }
        requires members { (n : ℕ) → member ranges.now n ≡ true → n < 2 ^ 62 }
        requires delay { delay < 2 ^ 62 }
        requires counts { AreCounts (option_copied ecn) }
        ensures { (last : Bool)
            → WritesTo B.written B.spare (shortest_frame last (ack_of delay ranges.now (option_copied ecn.entry)))
            out.old out.new result }
    {
        encode_runs(delay, ranges.iter(), ranges.len(), ecn.copied(), out)
    }

    /// Appends an ACK of a `RangeSet`, as `Ack::encode` appends that of an `ArrayRangeSet`.
    pub fn encode_from<B: BufMut>(
        delay: u64,
        set: &RangeSet,
        ecn: Option<&EcnCounts>,
        out: &mut B,
    ) -> Result<(), NoRoom>
        requires some { set.now ≢ [] }
        requires members { (n : ℕ) → member set.now n ≡ true → n < 2 ^ 62 }
        requires delay { delay < 2 ^ 62 }
        requires counts { AreCounts (option_copied ecn) }
        ensures { (last : Bool) → WritesTo B.written B.spare
            (shortest_frame last (ack_of delay set.now (option_copied ecn.entry))) out.old out.new result }
    {
        encode_runs(delay, set.iter(), set.len(), ecn.copied(), out)
    }
}

// Appends an ACK of the `count` runs of a set.
fn encode_runs<B: BufMut>(
    delay: u64,
    runs: Iter<'_>,
    count: usize,
    ecn: Option<EcnCounts>,
    out: &mut B,
) -> Result<(), NoRoom>
    requires maximal { IsMaximalRuns runs }
    requires some { runs ≢ [] }
    requires count { count ≡ length runs }
    requires members { (n : ℕ) → member runs n ≡ true → n < 2 ^ 62 }
    requires delay { delay < 2 ^ 62 }
    requires counts { AreCounts ecn }
    ensures { (last : Bool) → WritesTo B.written B.spare (shortest_frame last (ack_of delay runs.entry ecn))
        out.old out.new result }
{
    let mut runs = runs;
    let Some(first) = runs.next_back() else {
        unreachable!()
    };
    let greatest = first.end - 1;
    let block = greatest - first.start;
    let below = count as u64 - 1;
    let mut chunk = [0; CHUNK];
    let at = write::store_numbers(&mut chunk, &[type_of(ecn), greatest, delay, below, block]);
    encode_below(&mut chunk, at, first, runs, out)?;
    encode_counts(ecn, out)
}

// The type of an ACK with these counts, or without.
fn type_of(ecn: Option<EcnCounts>) -> u64
    ensures { result ≡ ack_type ecn }
{
    if ecn.is_some() { 0x03 } else { 0x02 }
}

// Appends the chunk's contents if two more numbers may not fit after them, and returns the offset for these.
#[inline(always)]
fn make_room<B: BufMut>(chunk: &[u8; CHUNK], at: usize, out: &mut B) -> Result<usize, NoRoom>
    requires { at ≤ CHUNK }
    ensures near { IfOk result (λ n. n + 16 ≤ CHUNK) }
    ensures flushes { Flushes result at chunk.now
        (B.written out.old) (B.spare out.old) (B.written out.new) (B.spare out.new) }
{
    if at <= CHUNK - 16 {
        return Ok(at);
    }
    write::bytes(out, &chunk[..at])?;
    Ok(0)
}

// Stores two numbers, one after the other.
#[inline(always)]
fn store_two(chunk: &mut [u8; CHUNK], at: usize, gap: u64, len: u64) -> usize
    requires room { at + 16 ≤ CHUNK }
    requires gap { gap < 2 ^ 62 }
    requires len { len < 2 ^ 62 }
    ensures near { result ≤ CHUNK }
    ensures front { take result chunk.new ≡ take at chunk.old ++ shortest_varints (gap ∷ len ∷ []) }
{
    let at = store_var(chunk, at, gap);
    store_var(chunk, at, len)
}

// Appends the numbers that are in the chunk already, and then the runs below another one, the greatest first: for each,
// how many numbers are between it and the one above it, minus one, and how many numbers it has, minus one. They are
// collected in the chunk.
fn encode_below<B: BufMut>(
    chunk: &mut [u8; CHUNK],
    at: usize,
    above: Range<u64>,
    runs: Iter<'_>,
    out: &mut B,
) -> Result<(), NoRoom>
    requires held { at ≤ CHUNK }
    requires runs { IsMaximalRuns (runs ++ above ∷ []) }
    requires bound { above.start < 2 ^ 62 }
    ensures { WritesTo B.written B.spare (take at chunk.old ++ shortest_below above.start (ranges_in runs.entry))
        out.old out.new result }
{
    let mut at = at;
    let mut above = above;
    let mut runs = runs;
    while let Some(run) = runs.next_back() {
        at = make_room(chunk, at, out)?;
        let gap = above.start - run.end - 1;
        at = store_two(chunk, at, gap, run.end - 1 - run.start);
        above = run;
    }
    write::bytes(out, &chunk[..at])
}

// Appends the counts, if they are given.
#[inline(always)]
fn encode_counts<B: BufMut>(ecn: Option<EcnCounts>, out: &mut B) -> Result<(), NoRoom>
    requires { AreCounts ecn }
    ensures { WritesTo B.written B.spare (shortest_varints (count_numbers ecn)) out.old out.new result }
{
    match ecn {
        None => Ok(()),
        Some(counts) => counts.encode(out),
    }
}

// How many bytes `encode_counts` appends.
fn counts_len(ecn: Option<EcnCounts>) -> u128
    requires { AreCounts ecn }
    ensures value { result ≡ length (shortest_varints (count_numbers ecn)) }
    ensures small { result ≤ 24 }
{
    match ecn {
        None => 0,
        Some(counts) => write::numbers_len(&[counts.ect0, counts.ect1, counts.ce]),
    }
}

// The numbers before the blocks: the type, the greatest number, the delay, and how many ranges are below the first,
// which follows from how many `numbers` the blocks have.
#[inline(always)]
pub(super) fn header_of(ack: &Ack<'_>, numbers: u64) -> [u64; 4]
    requires { numbers / 2 ≡ length (ranges_acked ack.now) - 1 }
    ensures { result ≡ header_numbers ack.now }
{
    [type_of(ack.ecn()), ack.largest(), ack.delay(), numbers / 2]
}

/// Appends an acknowledgement that was read, whose numbers may have been encoded in any widths, as `Ack::encode`
/// appends that of a set. It doesn't allocate.
pub fn encode_ack<B: BufMut>(ack: &Ack<'_>, out: &mut B) -> Result<(), NoRoom>
    requires { IsAckInRange ack.now }
    ensures { (last : Bool) → WritesTo B.written B.spare (shortest_frame last (ack_meaning ack.now))
        out.old out.new result }
{
    let (numbers, blocks) = write::count_and_len(ack.additional());
    write::numbers(out, &header_of(ack, numbers))?;
    write::shortened(out, ack.additional(), blocks)?;
    encode_counts(ack.ecn(), out)
}

/// How many bytes `encode_ack` appends.
#[inline(always)]
pub fn ack_len(ack: &Ack<'_>) -> u128
    requires { IsAckInRange ack.now }
    ensures { (last : Bool) → result ≡ length (shortest_frame last (ack_meaning ack.now)) }
{
    let (numbers, blocks) = write::count_and_len(ack.additional());
    let header_len = write::numbers_len(&header_of(ack, numbers));
    header_len + u128::from(blocks) + counts_len(ack.ecn())
}
