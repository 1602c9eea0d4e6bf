//! What an ACK has in common with a set of packet numbers.
ghost use Rattle.std.specs.Prelude.{◌≡◌, ◌<◌, ℕ, true, IfOk};
ghost use Rattle.quic_acked.specs.Acked.{is_acked};
ghost use Rattle.quic_frame_fields.specs.Acks.{ranges_acked};
ghost use Rattle.quic_ranges.specs.Runs.{IsRunsOf, member};

use quic_base::coding::NoRoom;
use quic_frame_fields::frame::Ack;
use quic_ranges::range_set::RangeSet;

// A number above all those of a set.
fn above_all(set: &RangeSet) -> u64
    ensures { (n : ℕ) → member set.now n ≡ true → n < result }
{
    match set.iter().next_back() {
        Some(last) => last.end,
        None => 0,
    }
}

/// The packet numbers that are in flight and that an ACK acknowledges, which are newly acknowledged if those
/// acknowledged before are no longer in flight (RFC 9002, appendix A.7). `in_flight` doesn't change: `subtract` removes
/// what this returns. Returns `NoRoom` only if an allocation fails.
pub fn newly_acknowledged(ack: &Ack<'_>, in_flight: &RangeSet) -> Result<RangeSet, NoRoom>
    ensures { IfOk result (IsRunsOf (is_acked in_flight.now (ranges_acked ack.now))) }
{
    let end = above_all(in_flight);
    let mut left = in_flight.try_clone()?;
    for range in ack.iter() {
        let (least, greatest) = range.into_inner();
        let above = if greatest < end { greatest + 1 } else { end };
        let _ = left.remove(least..above)?;
    }
    let mut acked = in_flight.try_clone()?;
    acked.subtract(&left)?;
    Ok(acked)
}
