//! The blocks of an ACK, read from the front of a slice.
ghost use Rattle.std.specs.Prelude.{◌≡◌, ◌<◌, ◌≤◌, ◌^◌, ◌-◌, ◌*◌, ◌++◌, List, ℕ, [], ◌∷◌, drop, length, slice_index, sum, IfErr, IfOk, IfSome, Ok, OnOk, ◌⊎◌};
ghost use Rattle.std.specs.Int.{w64, from_le_bytes};
ghost use Rattle.quic_base.specs.Number.{AreBytes};
ghost use Rattle.quic_frame_fields.specs.Field.{AreBlocks};
ghost use Rattle.quic_frame_fields.specs.Reading.{Gives, varint_at, block_at, gap_at, below_at, range_at, first_range_at, after_blocks, blocks_at, blocks_left, ranges_of, IsBlocks};
ghost use Rattle.quic_frame_fields.specs.Refusal.{AreNoBlocks};

use super::fault::Fault;
use quic_base::varint::{split_var, split_var_mostly_one_byte};

// The least number of a block of an ACK that ends at `greatest`, and what follows the block.
#[inline(always)]
#[tactic(auto, unfolding(crate::specs::Reading::varint_at, crate::specs::Reading::block_at))]
fn block(greatest: u64, bytes: &[u8]) -> Result<(u64, &[u8]), Fault>
    ensures gives { Gives (λ x. (x.0, x.1.now)) result (block_at greatest bytes.now) }
    ensures bytes { AreBytes bytes.now }
{
    let (n, rest) = split_var_mostly_one_byte(bytes)?;
    if n > greatest {
        return Err(Fault::Malformed);
    }
    Ok((greatest - n, rest))
}

// The same, inlined into the caller, for a number of any width.
#[inline(always)]
#[tactic(auto, unfolding(crate::specs::Reading::varint_at, crate::specs::Reading::block_at))]
fn near_block(greatest: u64, bytes: &[u8]) -> Result<(u64, &[u8]), Fault>
    ensures gives { Gives (λ x. (x.0, x.1.now)) result (block_at greatest bytes.now) }
    ensures bytes { AreBytes bytes.now }
{
    let (length, rest) = split_var(bytes)?;
    if length > greatest {
        return Err(Fault::Malformed);
    }
    Ok((greatest - length, rest))
}

// The greatest number of the range below a gap, which begins below `low`, and what follows the gap.
#[inline(always)]
#[tactic(auto, unfolding(crate::specs::Reading::varint_at, crate::specs::Reading::gap_at))]
fn gap(low: u64, bytes: &[u8]) -> Result<(u64, &[u8]), Fault>
    ensures gives { Gives (λ x. (x.0, x.1.now)) result (gap_at low bytes.now) }
    ensures bytes { AreBytes bytes.now }
{
    let (n, rest) = split_var(bytes)?;
    if low < 2 || n > low - 2 {
        return Err(Fault::Malformed);
    }
    Ok((low - 2 - n, rest))
}

// The two numbers at the front, if each has one byte, as most blocks and gaps of an ACK have, and what follows them.
#[inline(always)]
fn two_short(bytes: &[u8]) -> Option<(u64, u64, &[u8])>
    ensures { IfSome result (λ x. (bytes.now ≡ x.0 ∷ x.1 ∷ x.2.now) × (x.0 < 64) × (x.1 < 64)) }
{
    let (front, rest) = bytes.split_first_chunk::<2>()?;
    let [first, second] = *front;
    if (first < 64) & (second < 64) {
        Some((u64::from(first), u64::from(second), rest))
    } else {
        None
    }
}

// The range at the front, its least and its greatest number, below a range that begins at `low`, and what follows it.
#[inline(always)]
#[tactic(auto, unfolding(crate::specs::Reading::range_at))]
fn range(low: u64, bytes: &[u8]) -> Result<(u64, u64, &[u8]), Fault>
    ensures { Gives (λ x. ((x.0, x.1), x.2.now)) result (range_at low bytes.now) }
{
    if let Some((between, length, rest)) = two_short(bytes) {
        let all = between + 2 + length;
        if all <= low {
            return Ok((low - all, low - (between + 2), rest));
        }
    }
    let (greatest, rest) = gap(low, bytes)?;
    let (least, rest) = near_block(greatest, rest)?;
    Ok((least, greatest, rest))
}

// What follows `count` ranges below `low`: most ACKs have none.
#[inline(always)]
#[tactic(auto, unfolding(crate::specs::Reading::below_at))]
fn below(count: u64, low: u64, bytes: &[u8]) -> Result<&[u8], Fault>
    ensures { Gives (λ x. x.now) result (below_at count low bytes.now) }
{
    if count == 0 {
        Ok(bytes)
    } else {
        each_below(count, low, bytes)
    }
}

// The sum of the bytes of a word, each of which is below 64: first the sums of two, then the sum of these.
#[inline(always)]
#[tactic(auto, using(crate::proofs::ShortRanges::sum_of_bytes))]
fn sum_of(word: u64) -> u64
    ensures sum { (bytes : List ℕ) → length bytes ≡ 8 → ((i : ℕ) → slice_index bytes i < 64)
        → word ≡ from_le_bytes w64 bytes → result ≡ sum bytes }
    ensures small { result < 2 ^ 16 }
{
    let pairs = (word & 0x00ff_00ff_00ff_00ff) + ((word >> 8) & 0x00ff_00ff_00ff_00ff);
    pairs.wrapping_mul(0x0001_0001_0001_0001) >> 48
}

// How many whole ranges of one-byte numbers are at the front of eight bytes, and how many packet numbers they span,
// with the gaps above them. A byte of 64 or more begins a longer number.
#[inline(always)]
fn short_ranges(front: &[u8; 8]) -> (u64, u64)
    ensures few { result.0 ≤ 4 }
    ensures read { (count low : ℕ) (rest : List ℕ) → result.0 ≤ count → result.1 ≤ low
        → below_at count low (front.now ++ rest)
        ≡ below_at (count - result.0) (low - result.1) (drop (2 * result.0) front.now ++ rest) }
{
    let word = u64::from_le_bytes(*front);
    let long = word & 0xc0c0_c0c0_c0c0_c0c0;
    if long == 0 {
        return (4, sum_of(word) + 8);
    }
    let ranges = u64::from(long.trailing_zeros()) / 16;
    let short = word & ((1 << (16 * ranges)) - 1);
    (ranges, sum_of(short) + 2 * ranges)
}

// Skips ranges of one-byte numbers, four at a time, and then those before a longer number. Returns how many ranges
// remain, the least number of the last one that was skipped, and what follows it.
#[inline(always)]
fn pass_short(count: u64, low: u64, bytes: &[u8]) -> (u64, u64, &[u8])
    ensures fewer { result.0 ≤ count }
    ensures same { below_at result.0 result.1 result.2.now ≡ below_at count low bytes.now }
{
    let mut left = count;
    let mut low = low;
    let mut rest = bytes;
    while left >= 4 {
        let Some(front) = rest.first_chunk::<8>() else {
            return (left, low, rest);
        };
        let (ranges, all) = short_ranges(front);
        if all > low {
            return (left, low, rest);
        }
        low -= all;
        rest = &rest[2 * ranges as usize..];
        left -= ranges;
        if ranges < 4 {
            return (left, low, rest);
        }
    }
    (left, low, rest)
}

// The least number of the range at the front, below a range that begins at `low`, and its length in bytes; sixteen
// bytes hold its two numbers, whatever their widths. `None` if both numbers have one byte, since those after them may
// too, and if the range would go below 0. Widths are found by branches: in a run of one width the processor predicts
// the next offset.
#[inline(always)]
fn wide_front(low: u64, front: &[u8; 16]) -> Option<(u64, usize)>
    ensures within { IfSome result (λ x. x.1 ≤ 16) }
    ensures read { IfSome result (λ x. (count : ℕ) (rest : List ℕ) → 0 < count
        → below_at count low (front.now ++ rest) ≡ below_at (count - 1) x.0 (drop x.1 front.now ++ rest)) }
{
    if (front[0] < 64) & (front[1] < 64) {
        return None;
    }
    let Ok((between, rest)) = split_var(front) else {
        return None;
    };
    let Ok((length, rest)) = split_var(rest) else {
        return None;
    };
    let all = between + 2 + length;
    if all > low {
        return None;
    }
    Some((low - all, 16 - rest.len()))
}

// Skips ranges with a number longer than one byte, one after the other, up to a range of two one-byte numbers, and
// returns what `pass_short` does. It doesn't skip the last three ranges, nor those in the last fifteen bytes.
#[inline(always)]
fn pass_wide(count: u64, low: u64, bytes: &[u8]) -> (u64, u64, &[u8])
    ensures fewer { result.0 ≤ count }
    ensures same { below_at result.0 result.1 result.2.now ≡ below_at count low bytes.now }
{
    let mut left = count;
    let mut low = low;
    let mut rest = bytes;
    while left >= 4 {
        let Some(front) = rest.first_chunk::<16>() else {
            break;
        };
        let Some((least, taken)) = wide_front(low, front) else {
            break;
        };
        left -= 1;
        low = least;
        rest = &rest[taken..];
    }
    (left, low, rest)
}

// What follows `count` ranges below `low`: short ones are skipped together, then wide ones in a row, and the range that
// ended both is read by itself. Each range has bytes, so a count that is too large ends soon.
fn each_below(count: u64, low: u64, bytes: &[u8]) -> Result<&[u8], Fault>
    ensures { Gives (λ x. x.now) result (below_at count low bytes.now) }
{
    let mut left = count;
    let mut low = low;
    let mut rest = bytes;
    loop {
        let (others, reached, behind) = pass_short(left, low, rest);
        let (others, reached, behind) = pass_wide(others, reached, behind);
        if others == 0 {
            return Ok(behind);
        }
        let (least, _, after) = range(reached, behind)?;
        left = others - 1;
        low = least;
        rest = after;
    }
}

/// Reads the ranges of an ACK from the count of those below the first on: the bytes of their blocks and gaps, and what
/// follows them.
#[inline(always)]
#[tactic(auto, unfolding(crate::specs::Reading::varint_at, crate::specs::Reading::blocks_at, crate::specs::Reading::after_blocks))]
pub fn blocks(greatest: u64, bytes: &[u8]) -> Result<(&[u8], &[u8]), Fault>
    ensures gives { Gives (λ x. (x.0.now, x.1.now)) result (blocks_at greatest bytes.now) }
    ensures valid { IfOk result (λ x. IsBlocks greatest x.0.now) }
    ensures encoded { IfOk result (λ x. (ranges : List (ℕ × ℕ)) × AreBlocks greatest ranges x.0.now) }
{
    let (count, bytes) = split_var_mostly_one_byte(bytes)?;
    let (low, rest) = block(greatest, bytes)?;
    let rest = below(count, low, rest)?;
    Ok(bytes.split_at(bytes.len() - rest.len()))
}

// Whether the bytes are exactly a first block and any number of pairs of gap and block.
pub(super) fn all_blocks(greatest: u64, bytes: &[u8]) -> Result<(), Fault>
    ensures ok { OnOk result (IsBlocks greatest bytes.now) }
    ensures err { IfErr result (λ e. AreNoBlocks greatest bytes.now e
        × ((e ≡ Fault.UnexpectedEnd) ⊎ (e ≡ Fault.Malformed))) }
{
    let (mut low, mut rest) = block(greatest, bytes)?;
    while !rest.is_empty() {
        let (high, after_gap) = gap(low, rest)?;
        let (least, after) = block(high, after_gap)?;
        low = least;
        rest = after;
    }
    Ok(())
}

// The least number of the first range of blocks, and, if there are more, the greatest number of the next range, and the
// blocks of that one and those below it.
#[inline(always)]
pub(super) fn first_range(greatest: u64, blocks: &[u8]) -> (u64, u64, &[u8])
    requires some { 0 < length blocks.now }
    requires valid { blocks_left greatest blocks.now ≡ Ok [] }
    ensures first { ranges_of greatest blocks.now ≡ (result.0, greatest) ∷ ranges_of result.1 result.2.now }
    ensures valid { blocks_left result.1 result.2.now ≡ Ok [] }
{
    if let Some((length, between, rest)) = two_short(blocks) {
        let all = length + (between + 2);
        if all <= greatest {
            return (greatest - length, greatest - all, rest);
        }
    }
    wide_range(greatest, blocks)
}

// The same, whatever widths the numbers have.
fn wide_range(greatest: u64, blocks: &[u8]) -> (u64, u64, &[u8])
    requires some { 0 < length blocks.now }
    requires valid { blocks_left greatest blocks.now ≡ Ok [] }
    ensures first { ranges_of greatest blocks.now ≡ (result.0, greatest) ∷ ranges_of result.1 result.2.now }
    ensures valid { blocks_left result.1 result.2.now ≡ Ok [] }
{
    let Ok((least, rest)) = near_block(greatest, blocks) else {
        unreachable!()
    };
    if rest.is_empty() {
        return (least, 0, rest);
    }
    let Ok((next, others)) = gap(least, rest) else {
        unreachable!()
    };
    (least, next, others)
}

// The same of any bytes, or why they don't begin with a range. Reading a gap and a block of one byte each, the usual
// case, is inlined into the caller.
#[inline(always)]
pub(super) fn checked_range(greatest: u64, blocks: &[u8]) -> Result<(u64, u64, &[u8]), Fault>
    ensures gives { Gives (λ x. (x.0, x.1, x.2.now)) result (first_range_at greatest blocks.now) }
    ensures bytes { AreBytes blocks.now }
{
    if let Some((length, between, rest)) = two_short(blocks) {
        let all = length + (between + 2);
        if all <= greatest {
            return Ok((greatest - length, greatest - all, rest));
        }
    }
    checked_wide_range(greatest, blocks)
}

// The same, read number by number.
#[inline(never)]
fn checked_wide_range(greatest: u64, blocks: &[u8]) -> Result<(u64, u64, &[u8]), Fault>
    ensures gives { Gives (λ x. (x.0, x.1, x.2.now)) result (first_range_at greatest blocks.now) }
    ensures bytes { AreBytes blocks.now }
{
    let (least, rest) = near_block(greatest, blocks)?;
    if rest.is_empty() {
        return Ok((least, 0, rest));
    }
    let (next, others) = gap(least, rest)?;
    Ok((least, next, others))
}
