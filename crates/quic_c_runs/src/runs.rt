//! Sets of packet numbers whose runs begin anywhere in an array. They are searched, the last one first, and never checked
//! one by one.
ghost use Rattle.std.specs.Prelude.{◌≡◌, ◌<◌, ◌≤◌, ◌+◌, ◌⊎◌, ◌↔◌, pos, length, true, false, IsTrue};
ghost use Rattle.quic_ranges.specs.Runs.{IsRunsOf, in_union, in_difference, member};
ghost use Rattle.quic_results.specs.Results.{failed};
ghost use Rattle.quic_c_entries.specs.Entries.{span};
ghost use Rattle.quic_c_runs.specs.Sets.{BecomesAt, ChangesOnly, IsSetAt, LacksEntry, entries_at, runs_at};

use crate::moves::make_at;
use crate::words::CRuns;
use quic_c_entries::change::{insertion, removal};
use quic_c_entries::places::contains;
use quic_c_entries::words::CRange;
use quic_results::results::Failure;

// Whether the entries that a set names are in an array of `room` entries.
#[inline(always)]
pub(crate) fn is_within(set: CRuns, room: usize) -> bool
    ensures { IsTrue result ↔ (set.first + set.count ≤ room) }
{
    set.first <= room && set.count <= room - set.first
}

// The entries that a set names.
#[inline(always)]
pub(crate) fn entries(runs: &[CRange], set: CRuns) -> &[CRange]
    requires { set.first + set.count ≤ length runs.now }
    ensures { result.now ≡ entries_at runs.now set }
{
    &runs[set.first..set.first + set.count]
}

/// Inserts the numbers from `start` to below `end` into the set whose runs `set` names: sorted runs, none empty, none
/// touching another, which isn't checked. An empty or reversed range inserts nothing. It returns 1 if the set changed,
/// and `set` then names its runs; 0 if all the numbers were in it; `NoRoom` exactly when the set then needs one more run
/// than there are entries; `Ranges` exactly when `set` names entries that aren't in the array. Nothing changes except
/// with 1, and then no entries but those that `set` names. If these weren't such runs, the result means nothing.
///
/// If `start` is in the last run or above it, the cost doesn't depend on how many runs there are, except if a run is
/// added, no entry is left behind the set, and one is left before it: all runs are then moved to the array's front. Other
/// numbers take a binary search, and the runs above them are moved if more or fewer runs are then below these, except at
/// the front of the set if an entry is left before it.
#[unsafe(no_mangle)]
pub extern "C" fn quic_wire_runs_insert_(
    runs: &mut [CRange],
    set: &mut CRuns,
    start: u64,
    end: u64,
) -> i32
    ensures returns { (result ≡ pos 1) ⊎ (result ≡ pos 0) ⊎ (result ≡ failed Failure.NoRoom) ⊎ (result ≡ failed Failure.Ranges) }
    ensures changed { IsSetAt runs.old set.old → result ≡ pos 1
        → BecomesAt (in_union (runs_at runs.old set.old) (span start end)) runs.old set.old runs.new set.new }
    ensures kept { IsSetAt runs.old set.old → result ≡ pos 0
        → IsRunsOf (in_union (runs_at runs.old set.old) (span start end)) (runs_at runs.old set.old) }
    ensures room { IsSetAt runs.old set.old → result ≡ failed Failure.NoRoom
        → LacksEntry (in_union (runs_at runs.old set.old) (span start end)) runs.old set.old }
    ensures others { result ≡ pos 1 → ChangesOnly runs.old runs.new set.new }
    ensures invalid { (result ≡ failed Failure.Ranges) ↔ (length runs.old < set.old.first + set.old.count) }
    ensures same { (result ≡ pos 1) ⊎ ((runs.new ≡ runs.old) × (set.new ≡ set.old)) }
{
    if !is_within(*set, runs.len()) {
        return Failure::Ranges.number();
    }
    let Some(change) = insertion(entries(runs, *set), CRange { start, end }) else {
        return 0;
    };
    if make_at(runs, set, change) {
        1
    } else {
        Failure::NoRoom.number()
    }
}

/// Removes the numbers from `start` to below `end` from the set, and returns what `quic_wire_runs_insert_` does: 0 if
/// none of them was in it; `NoRoom` exactly when a run would be split in two and there is no entry for one more.
///
/// It takes two binary searches. Removed first or last runs move no other; after other removals the runs above are moved
/// if more or fewer runs are then below them.
#[unsafe(no_mangle)]
pub extern "C" fn quic_wire_runs_remove_(
    runs: &mut [CRange],
    set: &mut CRuns,
    start: u64,
    end: u64,
) -> i32
    ensures returns { (result ≡ pos 1) ⊎ (result ≡ pos 0) ⊎ (result ≡ failed Failure.NoRoom) ⊎ (result ≡ failed Failure.Ranges) }
    ensures changed { IsSetAt runs.old set.old → result ≡ pos 1
        → BecomesAt (in_difference (runs_at runs.old set.old) (span start end)) runs.old set.old runs.new set.new }
    ensures kept { IsSetAt runs.old set.old → result ≡ pos 0
        → IsRunsOf (in_difference (runs_at runs.old set.old) (span start end)) (runs_at runs.old set.old) }
    ensures room { IsSetAt runs.old set.old → result ≡ failed Failure.NoRoom
        → LacksEntry (in_difference (runs_at runs.old set.old) (span start end)) runs.old set.old }
    ensures others { result ≡ pos 1 → ChangesOnly runs.old runs.new set.new }
    ensures invalid { (result ≡ failed Failure.Ranges) ↔ (length runs.old < set.old.first + set.old.count) }
    ensures same { (result ≡ pos 1) ⊎ ((runs.new ≡ runs.old) × (set.new ≡ set.old)) }
{
    if !is_within(*set, runs.len()) {
        return Failure::Ranges.number();
    }
    let Some(change) = removal(entries(runs, *set), CRange { start, end }) else {
        return 0;
    };
    if make_at(runs, set, change) {
        1
    } else {
        Failure::NoRoom.number()
    }
}

/// Whether a number is in the set whose runs `set` names. It returns 1 if it is, 0 if it isn't, and `Ranges` exactly
/// when `set` names entries that aren't in the array. If they aren't the runs of a set, the answer is 1 or 0.
///
/// A number below the last run takes a binary search.
#[unsafe(no_mangle)]
pub extern "C" fn quic_wire_runs_contains_(runs: &[CRange], set: &CRuns, number: u64) -> i32
    ensures returns { (result ≡ pos 1) ⊎ (result ≡ pos 0) ⊎ (result ≡ failed Failure.Ranges) }
    ensures present { IsSetAt runs.now set.now → result ≡ pos 1 → member (runs_at runs.now set.now) number ≡ true }
    ensures absent { IsSetAt runs.now set.now → result ≡ pos 0 → member (runs_at runs.now set.now) number ≡ false }
    ensures invalid { (result ≡ failed Failure.Ranges) ↔ (length runs.now < set.now.first + set.now.count) }
{
    if !is_within(*set, runs.len()) {
        return Failure::Ranges.number();
    }
    if contains(entries(runs, *set), number) {
        1
    } else {
        0
    }
}
