//! Sets of packet numbers.
ghost use Rattle.std.specs.Prelude.{◌≡◌, ℕ, true, false, MatchOption, OnErr, OnOk};
ghost use Rattle.quic_ranges.specs.Runs.{IsRunsOf, in_union, member};

use quic_base::coding::NoRoom;
use quic_ranges::laws;
use quic_ranges::range_set::RangeSet;
use std::ops::Range;

/// Puts a range into a set, and ignores the parts that were there before. After `NoRoom` the set is unchanged.
pub fn unite(set: &mut RangeSet, range: Range<u64>) -> Result<(), NoRoom>
    ensures ok { OnOk result (IsRunsOf (in_union set.old range) set.new) }
    ensures err { OnErr result (set.new ≡ set.old) }
{
    let _ = set.replace(range)?;
    Ok(())
}

/// The first number of a set; `None` exactly if the set is empty.
pub fn first_number(set: &RangeSet) -> Option<u64>
    ensures { MatchOption result ((n : ℕ) → member set.now n ≡ false) (λ n. member set.now n ≡ true) }
{
    laws::elements();
    set.elts().next()
}
