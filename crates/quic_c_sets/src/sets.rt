//! Sets of packet numbers, each the first runs of an array.
ghost use Rattle.std.specs.Prelude.{◌≡◌, ◌⊎◌, ◌↔◌, pos, true, false};
ghost use Rattle.quic_ranges.specs.Runs.{in_union, in_difference, member};
ghost use Rattle.quic_c_entries.specs.Entries.{first_runs, span};
ghost use Rattle.quic_c_sets.specs.Sets.{Becomes, IsSet, LacksRoom, Stays};
ghost use Rattle.quic_results.specs.Results.{failed};

use crate::checks::is_set;
use quic_c_entries::change::{insertion, make, removal};
use quic_c_entries::places::contains;
use quic_c_entries::words::CRange;
use quic_results::results::Failure;

/// Inserts the numbers from `start` to below `end` into the set in the first `count` entries: sorted runs, none empty,
/// none touching another. An empty or reversed range inserts nothing. It returns 1 if the set changed, with its number
/// of runs in `count`, and the entries after them don't change; 0 if all the numbers were in it; `NoRoom` exactly when
/// the set then needs one more run than there are entries; `Ranges` exactly when `count` is above the number of
/// entries, or the first `count` aren't such runs. Nothing changes except with 1.
#[unsafe(no_mangle)]
pub extern "C" fn quic_wire_set_insert_(
    runs: &mut [CRange],
    count: &mut usize,
    start: u64,
    end: u64,
) -> i32
    ensures returns { (result ≡ pos 1) ⊎ (result ≡ pos 0) ⊎ (result ≡ failed Failure.NoRoom) ⊎ (result ≡ failed Failure.Ranges) }
    ensures changed { result ≡ pos 1
        → Becomes (in_union (first_runs count.old runs.old) (span start end)) runs.old count.old runs.new count.new }
    ensures kept { result ≡ pos 0
        → Stays (in_union (first_runs count.old runs.old) (span start end)) runs.old count.old }
    ensures room { result ≡ failed Failure.NoRoom
        → LacksRoom (in_union (first_runs count.old runs.old) (span start end)) runs.old count.old }
    ensures invalid { (result ≡ failed Failure.Ranges) ↔ (IsSet runs.old count.old → ⊥) }
    ensures same { (result ≡ pos 1) ⊎ ((runs.new ≡ runs.old) × (count.new ≡ count.old)) }
{
    let len = *count;
    if !is_set(runs, len) {
        return Failure::Ranges.number();
    }
    let Some(change) = insertion(&runs[..len], CRange { start, end }) else {
        return 0;
    };
    if make(runs, count, change) {
        1
    } else {
        Failure::NoRoom.number()
    }
}

/// Removes the numbers from `start` to below `end` from the set, and returns what `quic_wire_set_insert_` does: 0 if
/// none of them was in it; `NoRoom` exactly when a run would be split in two and there is no entry for one more.
#[unsafe(no_mangle)]
pub extern "C" fn quic_wire_set_remove_(
    runs: &mut [CRange],
    count: &mut usize,
    start: u64,
    end: u64,
) -> i32
    ensures returns { (result ≡ pos 1) ⊎ (result ≡ pos 0) ⊎ (result ≡ failed Failure.NoRoom) ⊎ (result ≡ failed Failure.Ranges) }
    ensures changed { result ≡ pos 1
        → Becomes (in_difference (first_runs count.old runs.old)
        (span start end)) runs.old count.old runs.new count.new }
    ensures kept { result ≡ pos 0
        → Stays (in_difference (first_runs count.old runs.old) (span start end)) runs.old count.old }
    ensures room { result ≡ failed Failure.NoRoom
        → LacksRoom (in_difference (first_runs count.old runs.old) (span start end)) runs.old count.old }
    ensures invalid { (result ≡ failed Failure.Ranges) ↔ (IsSet runs.old count.old → ⊥) }
    ensures same { (result ≡ pos 1) ⊎ ((runs.new ≡ runs.old) × (count.new ≡ count.old)) }
{
    let len = *count;
    if !is_set(runs, len) {
        return Failure::Ranges.number();
    }
    let Some(change) = removal(&runs[..len], CRange { start, end }) else {
        return 0;
    };
    if make(runs, count, change) {
        1
    } else {
        Failure::NoRoom.number()
    }
}

/// Whether a number is in the set in the first `count` entries. It returns 1 if it is, 0 if it isn't, and `Ranges`
/// exactly when they aren't such runs, as for `quic_wire_set_insert_`.
#[unsafe(no_mangle)]
pub extern "C" fn quic_wire_set_contains_(runs: &[CRange], count: usize, number: u64) -> i32
    ensures returns { (result ≡ pos 1) ⊎ (result ≡ pos 0) ⊎ (result ≡ failed Failure.Ranges) }
    ensures set { (result ≡ failed Failure.Ranges) ⊎ IsSet runs.now count }
    ensures present { result ≡ pos 1 → member (first_runs count runs.now) number ≡ true }
    ensures absent { result ≡ pos 0 → member (first_runs count runs.now) number ≡ false }
    ensures invalid { (result ≡ failed Failure.Ranges) ↔ (IsSet runs.now count → ⊥) }
{
    if !is_set(runs, count) {
        return Failure::Ranges.number();
    }
    if contains(&runs[..count], number) {
        1
    } else {
        0
    }
}
