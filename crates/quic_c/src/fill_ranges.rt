//! Reads the ranges of an ACK, as many with one call as the caller has room for.
ghost use Rattle.std.specs.Prelude.{◌≡◌, ◌⊎◌, ◌↔◌, ◌-◌, ◌<◌, ◌≤◌, ◌^◌, [], pos, length};
ghost use Rattle.quic_c.specs.Ranges.{LacksRange};
ghost use Rattle.quic_c.specs.Filling.{FillsRanges};
ghost use Rattle.quic_results.specs.Results.{failed};

use crate::acks::split_range;
use quic_c_words::words::{CRange, CRangeIter};
use quic_results::results::Failure;

// Fills entries with the first ranges that are left: how many, and those that are left then.
#[inline(always)]
fn fill_ranges(from: CRangeIter, payload: &[u8], out: &mut [CRange]) -> (usize, CRangeIter)
    requires within { from.offset ≤ length payload.now }
    requires small { from.largest < 2 ^ 62 }
    ensures { FillsRanges from payload.now out.old result.1 out.new result.0 }
{
    let mut bytes = &payload[from.offset..];
    let mut left = from.left;
    let mut largest = from.largest;
    let mut count = 0;
    while count < out.len() && left > 0 {
        let Some((least, next, rest)) = split_range(largest, left - 1, bytes) else {
            return (count, words_at(payload, bytes, left, largest));
        };
        out[count] = CRange {
            start: least,
            end: largest + 1,
        };
        bytes = rest;
        left -= 1;
        largest = next;
        count += 1;
    }
    (count, words_at(payload, bytes, left, largest))
}

// The words for ranges in the last bytes of a payload.
#[inline(always)]
fn words_at(payload: &[u8], bytes: &[u8], left: u64, largest: u64) -> CRangeIter
    requires { length bytes.now ≤ length payload.now }
    ensures { result ≡ record { offset = length payload.now - length bytes.now; left = left; largest = largest } }
{
    CRangeIter {
        offset: payload.len() - bytes.len(),
        left,
        largest,
    }
}

/// The next ranges of an ACK, the greatest first (RFC 9000, section 19.3.1), as many as `out` has room for. It returns
/// 1 with how many entries were filled, at least one; `NoRoom` exactly if `out` has no entry; otherwise 0 exactly if no
/// range is left, and `Place` if no range is there, as for `quic_wire_ack_ranges_next_`. Ranges before an invalid block
/// are given first. Nothing changes unless it returns 1.
#[unsafe(no_mangle)]
pub extern "C" fn quic_wire_ack_ranges_fill_(
    ranges: &mut CRangeIter,
    payload: &[u8],
    out: &mut [CRange],
    count: &mut usize,
) -> i32
    ensures returns { (result ≡ pos 1) ⊎ (result ≡ pos 0) ⊎ (result ≡ failed Failure.NoRoom) ⊎ (result ≡ failed Failure.Place) }
    ensures ranges { result ≡ pos 1
        → (0 < count.new) × FillsRanges ranges.old payload.now out.old ranges.new out.new count.new }
    ensures end { (result ≡ pos 0) ↔ ((0 < length out.old) × (ranges.old.left ≡ 0)) }
    ensures room { (result ≡ failed Failure.NoRoom) ↔ (out.old ≡ []) }
    ensures invalid { result ≡ failed Failure.Place → LacksRange ranges.old payload.now }
    ensures same { (result ≡ pos 1) ⊎ ((ranges.new ≡ ranges.old) × (out.new ≡ out.old) × (count.new ≡ count.old)) }
{
    let from = *ranges;
    if out.is_empty() {
        return Failure::NoRoom.number();
    }
    if from.left == 0 {
        return 0;
    }
    if from.offset > payload.len() || from.largest >= 1 << 62 {
        return Failure::Place.number();
    }
    let (filled, at) = fill_ranges(from, payload, out);
    if filled == 0 {
        return Failure::Place.number();
    }
    *ranges = at;
    *count = filled;
    1
}
