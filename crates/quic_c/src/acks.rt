//! The ranges of an ACK, one with each call.
ghost use Rattle.std.specs.Prelude.{◌≡◌, ◌⊎◌, ◌↔◌, ◌<◌, ◌-◌, ◌^◌, List, ℕ, IfOk, IfSome, IsNone, OnErr, pos, length, drop};
ghost use Rattle.quic_frame_fields.specs.declared.frame.fault.Fault.{Fault};
ghost use Rattle.quic_c.specs.Ranges.{BeginsWithHead, CutRange, GivesHead, GivesRange, LacksHead, LacksRange, TakesRange};
ghost use Rattle.quic_results.specs.Results.{failed};

use quic_base::varint::split_var;
use quic_c_words::words::{CFrame, CRange, CRangeIter};
use quic_frame_fields::frame::fault::Fault;
use quic_frames::frame::split_first_range;
use quic_results::results::Failure;

/// Begins at the greatest range of the ACK at the place in the frame's words, of which only the type, the greatest
/// number, the delay and the count of its ranges are read (RFC 9000, section 19.3). Invalid blocks are reported by the
/// call that reaches them. It returns 0, or `Place` if the place is outside of the payload or no ACK begins there; then
/// nothing changes.
#[unsafe(no_mangle)]
pub extern "C" fn quic_wire_ack_ranges_init_(
    ranges: &mut CRangeIter,
    payload: &[u8],
    frame: &CFrame,
) -> i32
    ensures returns { (result ≡ pos 0) ⊎ (result ≡ failed Failure.Place) }
    ensures head { result ≡ pos 0 → GivesHead frame.now payload.now ranges.new }
    ensures refused { result ≡ failed Failure.Place → LacksHead frame.now payload.now × (ranges.new ≡ ranges.old) }
{
    let (begin, end) = (frame.begin, frame.end);
    if begin > end || end > payload.len() {
        return Failure::Place.number();
    }
    let Ok((largest, count, blocks)) = split_head(&payload[begin..end]) else {
        return Failure::Place.number();
    };
    *ranges = CRangeIter {
        offset: end - blocks.len(),
        left: count + 1,
        largest,
    };
    0
}

// The greatest number of an ACK, how many ranges are below the first, and what follows that.
#[inline(always)]
fn split_head(bytes: &[u8]) -> Result<(u64, u64, &[u8]), Fault>
    ensures none { OnErr result ((largest count : ℕ) (rest : List ℕ)
        → BeginsWithHead bytes.now largest count rest → ⊥) }
    ensures begins { IfOk result (λ x. BeginsWithHead bytes.now x.0 x.1 x.2.now) }
    ensures bound { IfOk result (λ x. x.0 < 2 ^ 62) }
    ensures counted { IfOk result (λ x. x.1 < 2 ^ 62) }
{
    let (ty, behind_type) = split_var(bytes)?;
    if ty != 2 && ty != 3 {
        return Err(Fault::InvalidFrameId);
    }
    let (largest, behind_largest) = split_var(behind_type)?;
    let (_, behind_delay) = split_var(behind_largest)?;
    let (count, blocks) = split_var(behind_delay)?;
    Ok((largest, count, blocks))
}

// The least number of the range that ends with `greatest`, the greatest number of the next one if there are `more`, and
// the bytes of that one on.
#[inline(always)]
pub(crate) fn split_range(greatest: u64, more: u64, bytes: &[u8]) -> Option<(u64, u64, &[u8])>
    ensures takes { IfSome result (λ x. TakesRange greatest more bytes.now x.0 x.1 x.2.now) }
    ensures cut { IsNone result → (reason : Fault) × CutRange greatest more bytes.now reason }
    ensures shorter { IfSome result (λ x. length x.2.now < length bytes.now) }
    ensures left { IfSome result (λ x. drop (length bytes.now - length x.2.now) bytes.now ≡ x.2.now) }
{
    if more == 0 {
        let Ok((block, rest)) = split_var(bytes) else {
            return None;
        };
        if block > greatest {
            return None;
        }
        return Some((greatest - block, 0, rest));
    }
    let Ok((least, next, rest)) = split_first_range(greatest, bytes) else {
        return None;
    };
    if rest.is_empty() {
        return None;
    }
    Some((least, next, rest))
}

/// The next range of an ACK, the greatest first (RFC 9000, section 19.3.1). It returns 1 with the range; 0 exactly if
/// none is left; `Place` if no range is there: the offset is outside of the payload, the greatest number is 2^62 or
/// more, or the bytes there don't begin with a range. Nothing changes unless it returns 1.
#[unsafe(no_mangle)]
pub extern "C" fn quic_wire_ack_ranges_next_(
    ranges: &mut CRangeIter,
    payload: &[u8],
    out: &mut CRange,
) -> i32
    ensures returns { (result ≡ pos 1) ⊎ (result ≡ pos 0) ⊎ (result ≡ failed Failure.Place) }
    ensures range { result ≡ pos 1 → GivesRange ranges.old payload.now ranges.new out.new }
    ensures end { (result ≡ pos 0) ↔ (ranges.old.left ≡ 0) }
    ensures invalid { result ≡ failed Failure.Place → LacksRange ranges.old payload.now }
    ensures same { (result ≡ pos 1) ⊎ ((ranges.new ≡ ranges.old) × (out.new ≡ out.old)) }
{
    let (offset, left, largest) = (ranges.offset, ranges.left, ranges.largest);
    if left == 0 {
        return 0;
    }
    if offset > payload.len() || largest >= 1 << 62 {
        return Failure::Place.number();
    }
    let Some((least, next, rest)) = split_range(largest, left - 1, &payload[offset..]) else {
        return Failure::Place.number();
    };
    *out = CRange {
        start: least,
        end: largest + 1,
    };
    *ranges = CRangeIter {
        offset: payload.len() - rest.len(),
        left: left - 1,
        largest: next,
    };
    1
}
