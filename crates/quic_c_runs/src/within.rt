//! The part of a set that is in a range.
ghost use Rattle.std.specs.Prelude.{◌≡◌, ◌<◌, ◌≤◌, ◌+◌, ◌⊎◌, ◌↔◌, ℕ, List, length, drop, pos};
ghost use Rattle.std.specs.declared.ops.Range.{Range};
ghost use Rattle.quic_ranges.specs.Runs.{IsRunsOf, in_intersection};
ghost use Rattle.quic_c_entries.specs.Entries.{Stores, span};
ghost use Rattle.quic_c_runs.specs.Sets.{IsSetAt, runs_at};
ghost use Rattle.quic_results.specs.Results.{failed};

use crate::runs::{entries, is_within};
use crate::words::CRuns;
use quic_c_entries::parts::{count_parts, store_parts};
use quic_c_entries::places::touched;
use quic_c_entries::words::CRange;
use quic_results::results::Failure;

/// Stores the numbers that the set whose runs `set` names has from `start` to below `end` at the front of `dest`, as
/// runs: of the packet numbers that are in flight, those that a range of an ACK acknowledges (RFC 9002, appendix A.7).
/// The set doesn't change: `quic_wire_runs_remove_` removes them. It returns 0, with the number of runs in `stored`, and
/// the entries after them don't change; `NoRoom` exactly when `dest` has fewer entries than there are runs, with their
/// number in `stored`; `Ranges` exactly when `set` names entries that aren't in the array. `dest` changes only with 0,
/// and `stored` doesn't change with `Ranges`. If the entries aren't the runs of a set, what is stored means nothing, but
/// `stored` is at most the length of `dest` with 0.
///
/// It takes two binary searches, and two steps for each run in the range.
#[unsafe(no_mangle)]
pub extern "C" fn quic_wire_runs_within_(
    runs: &[CRange],
    set: &CRuns,
    start: u64,
    end: u64,
    dest: &mut [CRange],
    stored: &mut usize,
) -> i32
    ensures returns { (result ≡ pos 0) ⊎ (result ≡ failed Failure.NoRoom) ⊎ (result ≡ failed Failure.Ranges) }
    ensures found { IsSetAt runs.now set.now → result ≡ pos 0 → (parts : List (Range ℕ))
        × IsRunsOf (in_intersection (runs_at runs.now set.now) (span start end)) parts
        × Stores parts dest.old dest.new stored.new }
    ensures room { IsSetAt runs.now set.now → result ≡ failed Failure.NoRoom → (parts : List (Range ℕ))
        × IsRunsOf (in_intersection (runs_at runs.now set.now) (span start end)) parts
        × (stored.new ≡ length parts) × (length dest.old < length parts) }
    ensures others { result ≡ pos 0 → drop stored.new dest.new ≡ drop stored.new dest.old }
    ensures within { result ≡ pos 0 → stored.new ≤ length dest.new }
    ensures invalid { (result ≡ failed Failure.Ranges) ↔ (length runs.now < set.now.first + set.now.count) }
    ensures same { (result ≡ pos 0) ⊎ (dest.new ≡ dest.old) }
    ensures kept { result ≡ failed Failure.Ranges → stored.new ≡ stored.old }
{
    if !is_within(*set, runs.len()) {
        return Failure::Ranges.number();
    }
    let x = CRange { start, end };
    let found = touched(entries(runs, *set), x);
    let needed = count_parts(found, x);
    if dest.len() < needed {
        *stored = needed;
        return Failure::NoRoom.number();
    }
    *stored = store_parts(found, x, dest);
    0
}
