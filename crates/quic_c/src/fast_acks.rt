//! Readers of valid ACKs. A few ranges are read in loops of the reader, with no call.
ghost use Rattle.std.specs.Prelude.{◌≡◌, ◌<◌, ◌≤◌, ◌∷◌, ℕ, List, IfSome, Some, Ok, true, length, drop};
ghost use Rattle.quic_frame_fields.specs.Acks.{ranges_acked};
ghost use Rattle.quic_frame_fields.specs.Field.{AreBelow, AreBlocks};
ghost use Rattle.quic_frame_fields.specs.Reading.{below_at, blocks_at, range_at, varint_at};
ghost use Rattle.quic_frames.specs.declared.frame.Frame.TheVariants as frames;
ghost use Rattle.quic_c_words.specs.Shown.{first_length, frame_words, rules_in};
ghost use Rattle.quic_c.specs.Answers.{AnswersNext};
ghost use Rattle.quic_c.specs.Front.{AnswersRead};
ghost use Rattle.quic_c.specs.Kinds.{BeginsBy, FindsAck, IsAck, ReadsCounts, ack_type};

use crate::fast::{number, split_type};
use crate::frames::next_any;
use crate::front::{read_any, show_ack_of};
use quic_base::coding::are_bytes;
use quic_c_words::show::{show_parts, with_first};
use quic_c_words::words::{CFrame, CFrameIter, CGap};
use quic_frame_fields::frame::field;
use quic_frames::frame::{Ack, EcnCounts};

// With more ranges below the first the reader of all frames, which passes four short ones at a time, is worth its call.
const FEW_RANGES: u64 = 3;

// The two numbers at the front, if each has one byte, as most gaps and lengths have, and what follows them.
#[inline(always)]
pub(crate) fn two_short(bytes: &[u8]) -> Option<(u64, u64, &[u8])>
    ensures { IfSome result (λ x. (bytes.now ≡ x.0 ∷ x.1 ∷ x.2.now) × (x.0 < 64) × (x.1 < 64)) }
{
    let (front, rest) = bytes.split_first_chunk::<2>()?;
    let [first, second] = *front;
    if (first < 64) & (second < 64) {
        Some((u64::from(first), u64::from(second), rest))
    } else {
        None
    }
}

// Passes ranges of one-byte numbers, up to one that has a longer number or goes below 0. Returns how many of `count`
// are left, the least number above them, and what follows.
#[inline(always)]
fn pass_short(count: u64, low: u64, bytes: &[u8]) -> (u64, u64, &[u8])
    ensures same { below_at result.0 result.1 result.2.now ≡ below_at count low bytes.now }
    ensures fewer { length result.2.now ≤ length bytes.now }
{
    let mut left = count;
    let mut low = low;
    let mut rest = bytes;
    while left > 0 {
        let Some((between, len, after)) = two_short(rest) else {
            return (left, low, rest);
        };
        let span = between + 2 + len;
        if span > low {
            return (left, low, rest);
        }
        left -= 1;
        low -= span;
        rest = after;
    }
    (left, low, rest)
}

// The range at the front, its least and its greatest number, below a range that begins at `low`, and what follows it.
#[inline(always)]
fn range(low: u64, bytes: &[u8]) -> Option<(u64, u64, &[u8])>
    ensures read { IfSome result (λ x. range_at low bytes.now ≡ Ok ((x.0, x.1), x.2.now)) }
    ensures fewer { IfSome result (λ x. length x.2.now ≤ length bytes.now) }
{
    let (between, behind) = number(false, bytes)?;
    let (len, rest) = number(false, behind)?;
    let all = between + 2 + len;
    if all > low {
        return None;
    }
    Some((low - all, low - (between + 2), rest))
}

// What follows `count` ranges below `low`: those of one-byte numbers are passed first.
#[inline(always)]
fn below(count: u64, low: u64, bytes: &[u8]) -> Option<&[u8]>
    ensures read { IfSome result (λ rest. below_at count low bytes.now ≡ Ok rest.now) }
    ensures fewer { IfSome result (λ rest. length rest.now ≤ length bytes.now) }
{
    let (others, reached, behind) = pass_short(count, low, bytes);
    let mut left = others;
    let mut low = reached;
    let mut rest = behind;
    while left > 0 {
        let (least, _, after) = range(low, rest)?;
        left -= 1;
        low = least;
        rest = after;
    }
    Some(rest)
}

// The same as `blocks` by the reader of all frames. It is a call, so that what calls `blocks` stays small enough to be
// inlined.
#[inline(never)]
fn many_blocks(greatest: u64, bytes: &[u8]) -> Option<(&[u8], u64, &[u8], &[u8])>
    ensures read { IfSome result (λ x. blocks_at greatest bytes.now ≡ Ok (x.0.now, x.3.now)) }
    ensures encoded { IfSome result (λ x. (ranges : List (ℕ × ℕ)) × AreBlocks greatest ranges x.0.now) }
    ensures first { IfSome result (λ x. varint_at x.0.now ≡ Ok (x.1, x.2.now)) }
    ensures fewer { IfSome result (λ x. length x.3.now ≤ length bytes.now) }
{
    are_bytes(bytes);
    let Ok((ranges, rest)) = field::blocks(greatest, bytes) else {
        return None;
    };
    let (first, gaps) = number(false, ranges)?;
    Some((ranges, first, gaps, rest))
}

// After an ACK's delay: the bytes of its blocks and gaps, the first of their numbers, the bytes after that, and what
// follows them all.
#[inline(always)]
fn blocks(greatest: u64, bytes: &[u8]) -> Option<(&[u8], u64, &[u8], &[u8])>
    ensures read { IfSome result (λ x. blocks_at greatest bytes.now ≡ Ok (x.0.now, x.3.now)) }
    ensures encoded { IfSome result (λ x. (ranges : List (ℕ × ℕ)) × AreBlocks greatest ranges x.0.now) }
    ensures first { IfSome result (λ x. varint_at x.0.now ≡ Ok (x.1, x.2.now)) }
    ensures fewer { IfSome result (λ x. length x.3.now ≤ length bytes.now) }
{
    are_bytes(bytes);
    let (count, all) = number(false, bytes)?;
    are_bytes(all);
    if count > FEW_RANGES {
        return many_blocks(greatest, bytes);
    }
    let (first, behind) = number(false, all)?;
    if first > greatest {
        return None;
    }
    // For one range, as most ACKs have, the compiler then leaves out all loops.
    if count == 0 {
        let (blocks, after) = all.split_at(all.len() - behind.len());
        let (gaps, _) = behind.split_at(0);
        return Some((blocks, first, gaps, after));
    }
    let rest = below(count, greatest - first, behind)?;
    let (blocks, after) = all.split_at(all.len() - rest.len());
    let (gaps, _) = behind.split_at(behind.len() - rest.len());
    Some((blocks, first, gaps, after))
}

// The counts of an ACK that has them, and what follows them, by a call for the same reason.
#[inline(never)]
fn ecn_counts(bytes: &[u8]) -> Option<(EcnCounts, &[u8])>
    ensures read { IfSome result (λ x. ReadsCounts true bytes.now (Some x.0) x.1.now) }
    ensures fewer { IfSome result (λ x. length x.1.now ≤ length bytes.now) }
{
    let (ect0, behind) = number(false, bytes)?;
    let (ect1, after) = number(false, behind)?;
    let (ce, rest) = number(false, after)?;
    Some((EcnCounts { ect0, ect1, ce }, rest))
}

// The same of an ACK that may have none.
#[inline(always)]
fn counts(has_counts: bool, bytes: &[u8]) -> Option<(Option<EcnCounts>, &[u8])>
    ensures read { IfSome result (λ x. ReadsCounts has_counts bytes.now x.0 x.1.now) }
    ensures fewer { IfSome result (λ x. length x.1.now ≤ length bytes.now) }
{
    if !has_counts {
        return Some((None, bytes));
    }
    let (ecn, rest) = ecn_counts(bytes)?;
    Some((Some(ecn), rest))
}

// The ACK at an offset, its first range, less one, the bytes of the ranges below that, and where it ends.
#[inline(always)]
fn ack_at(has_counts: bool, payload: &[u8], begin: usize) -> Option<(Ack<'_>, u64, &[u8], usize)>
    requires within { begin ≤ length payload.now }
    requires begins { BeginsBy (IsAck has_counts) (drop begin payload.now) }
    ensures finds { IfSome result (λ x. FindsAck payload.now begin x.3 (ack_type has_counts) x.0) }
    ensures first { IfSome result (λ x. x.1 ≡ first_length (ranges_acked x.0)) }
    ensures below { IfSome result (λ x. (least : ℕ) × (ranges : List (ℕ × ℕ))
        × (ranges_acked x.0 ≡ (least, x.0.largest) ∷ ranges) × AreBelow least ranges x.2.now) }
    ensures fits { IfSome result (λ x. x.3 ≤ length payload.now) }
{
    let (_, fields) = split_type(payload, begin)?;
    let (largest, behind) = number(false, fields)?;
    let (delay, counted) = number(false, behind)?;
    let (ranges, first, gaps, after) = blocks(largest, counted)?;
    are_bytes(ranges);
    let (ecn, rest) = counts(has_counts, after)?;
    let end = payload.len() - rest.len();
    Some((
        Ack::of_blocks(largest, delay, ranges, ecn),
        first,
        gaps,
        end,
    ))
}

// The type of an ACK with counts or without.
#[inline(always)]
fn type_of(has_counts: bool) -> u16
    ensures { result ≡ ack_type has_counts }
{
    if has_counts { 0x03 } else { 0x02 }
}

// The ACK at the front. Its gaps are stored once it is known to be valid.
#[inline(never)]
pub(crate) fn read_ack<const COUNTS: bool>(
    payload: &[u8],
    flags: u32,
    out: &mut CFrame,
    gaps: &mut [CGap],
) -> i64
    requires { BeginsBy (IsAck COUNTS) payload.now }
    ensures { AnswersRead (rules_in flags) payload.now out.old gaps.old result out.new gaps.new }
{
    match ack_at(COUNTS, payload, 0) {
        Some((ack, first, below, end)) => {
            *out = show_ack_of(end, type_of(COUNTS), &ack, first, below, gaps);
            end as i64
        }
        None => read_any(payload, flags, out, gaps),
    }
}

// The words of an ACK with this first range, less one, which in a payload goes from `begin` to `end`.
#[inline(always)]
fn ack_words(begin: usize, end: usize, ty: u16, ack: &Ack<'_>, first: u64) -> CFrame
    requires { first ≡ first_length (ranges_acked ack.now) }
    ensures { result ≡ frame_words begin end ty (frames.Ack ack.now) }
{
    show_parts(begin, end, ty, with_first(ack, first))
}

// The next frame, an ACK.
#[inline(never)]
pub(crate) fn next_ack<const COUNTS: bool>(
    frames: &mut CFrameIter,
    payload: &[u8],
    out: &mut CFrame,
) -> i32
    requires within { frames.old.offset ≤ length payload.now }
    requires begins { BeginsBy (IsAck COUNTS) (drop frames.old.offset payload.now) }
    requires going { frames.old.ended ≡ 0 }
    ensures { AnswersNext (rules_in frames.old.flags) frames.old payload.now out.old result frames.new out.new }
{
    let begin = frames.offset;
    match ack_at(COUNTS, payload, begin) {
        Some((ack, first, _, end)) => {
            let ty = type_of(COUNTS);
            *out = ack_words(begin, end, ty, &ack, first);
            frames.offset = end;
            frames.last_type = u64::from(ty);
            1
        }
        None => next_any(frames, payload, out),
    }
}
