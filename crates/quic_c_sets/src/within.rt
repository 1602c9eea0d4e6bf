//! The part of a set that is in a range.
ghost use Rattle.std.specs.Prelude.{◌≡◌, ◌<◌, ◌⊎◌, ◌↔◌, ℕ, List, length, pos};
ghost use Rattle.std.specs.declared.ops.Range.{Range};
ghost use Rattle.quic_ranges.specs.Runs.{IsRunsOf, in_intersection};
ghost use Rattle.quic_c_entries.specs.Entries.{Stores, first_runs, span};
ghost use Rattle.quic_c_sets.specs.Sets.{IsSet};
ghost use Rattle.quic_results.specs.Results.{failed};

use crate::checks::is_set;
use quic_c_entries::parts::{count_parts, store_parts};
use quic_c_entries::words::CRange;
use quic_results::results::Failure;

/// Stores the numbers that the set in the first `count` entries has from `start` to below `end` at the front of `dest`,
/// as runs: of the packet numbers that are in flight, those that a range of an ACK acknowledges (RFC 9002, appendix
/// A.7). The set doesn't change: `quic_wire_set_remove_` removes them. It returns 0, with the number of runs in
/// `stored`, and the entries after them don't change; `NoRoom` exactly when `dest` has fewer entries than there are
/// runs, with their number in `stored`; `Ranges` exactly when the first `count` entries aren't the runs of a set, as
/// for `quic_wire_set_insert_`. `dest` changes only with 0, and `stored` doesn't change with `Ranges`.
#[unsafe(no_mangle)]
pub extern "C" fn quic_wire_set_within_(
    runs: &[CRange],
    count: usize,
    start: u64,
    end: u64,
    dest: &mut [CRange],
    stored: &mut usize,
) -> i32
    ensures returns { (result ≡ pos 0) ⊎ (result ≡ failed Failure.NoRoom) ⊎ (result ≡ failed Failure.Ranges) }
    ensures found { result ≡ pos 0 → (parts : List (Range ℕ))
        × IsRunsOf (in_intersection (first_runs count runs.now) (span start end)) parts
        × Stores parts dest.old dest.new stored.new }
    ensures room { (result ≡ failed Failure.NoRoom) → (parts : List (Range ℕ))
        × IsRunsOf (in_intersection (first_runs count runs.now) (span start end)) parts
        × (stored.new ≡ length parts) × (length dest.old < length parts) }
    ensures invalid { (result ≡ failed Failure.Ranges) ↔ (IsSet runs.now count → ⊥) }
    ensures same { (result ≡ pos 0) ⊎ (dest.new ≡ dest.old) }
    ensures kept { (result ≡ failed Failure.Ranges) → (stored.new ≡ stored.old) }
{
    if !is_set(runs, count) {
        return Failure::Ranges.number();
    }
    let x = CRange { start, end };
    let needed = count_parts(&runs[..count], x);
    if dest.len() < needed {
        *stored = needed;
        return Failure::NoRoom.number();
    }
    *stored = store_parts(&runs[..count], x, dest);
    0
}
