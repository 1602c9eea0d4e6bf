//! Acknowledgements: what loss recovery does with their ranges.
ghost use Rattle.std.specs.Prelude.{◌≡◌, ◌≢◌, ◌≤◌, ◌<◌, ◌^◌, ℕ, [], true, sum, IfOk, MatchOption};
ghost use Rattle.quic_callers.specs.Acked.{numbers_in};
ghost use Rattle.quic_frame_fields.specs.Acks.{ranges_acked};
ghost use Rattle.quic_frame_fields.specs.Sets.{is_in};
ghost use Rattle.quic_ranges.specs.Runs.{member};

use quic_base::coding::NoRoom;
use quic_frames::frame::{Ack, Frame, Iter};
use quic_frames::laws::set_acknowledged;
use quic_ranges::laws::runs;
use quic_ranges::range_set::ArrayRangeSet;
use std::alloc::Global;

/// The sum of the numbers that an acknowledgement has, and `None` exactly if that is 2^64 or more.
pub fn sum_of_acked(ack: &Ack<'_>) -> Option<u64>
    ensures { let all = sum (numbers_in (ranges_acked ack.now)) in MatchOption result (2 ^ 64 ≤ all) (λ n. n ≡ all) }
{
    let mut sum: u64 = 0;
    for range in ack.iter() {
        for number in range {
            let Some(more) = sum.checked_add(number) else {
                return None;
            };
            sum = more;
        }
    }
    Some(sum)
}

/// Whether an acknowledgement has a number.
pub fn is_acked(ack: &Ack<'_>, number: u64) -> bool
    ensures { result ≡ is_in (ranges_acked ack.now) number }
{
    for range in ack.iter() {
        if range.contains(&number) {
            return true;
        }
    }
    false
}

/// Writes an acknowledgement of a set as a payload of its own, reads it, and makes a set of its ranges, the same one,
/// which it returns with the delay. The caller must ensure that the set has a number, that its numbers and the delay
/// are below 2^62, and that the buffer is empty.
pub fn set_again(
    alloc: Global,
    delay: u64,
    set: &ArrayRangeSet,
    out: &mut Vec<u8>,
) -> Result<(ArrayRangeSet, u64), NoRoom>
    requires some { set.now ≢ [] }
    requires members { (n : ℕ) → member set.now n ≡ true → n < 2 ^ 62 }
    requires delay { delay < 2 ^ 62 }
    requires empty { out.old.items ≡ [] }
    ensures { IfOk result (λ read. (read.0 ≡ set.now) × (read.1 ≡ delay)) }
{
    set_acknowledged();
    runs();
    // A set's runs are maximal.
    let _runs = set.iter();
    Ack::encode(delay, set, None, out)?;
    let Ok(mut frames) = Iter::new(out) else {
        unreachable!()
    };
    let frame = match frames.next() {
        Some(Ok(frame)) => frame,
        Some(Err(_)) => unreachable!(),
        None => unreachable!(),
    };
    let Frame::Ack(ack) = frame else {
        unreachable!()
    };
    let mut again = ArrayRangeSet::new(alloc);
    for range in ack.iter() {
        let (least, greatest) = range.into_inner();
        let _ = again.insert(least..greatest + 1)?;
    }
    Ok((again, ack.delay()))
}
