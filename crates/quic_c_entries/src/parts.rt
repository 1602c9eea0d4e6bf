//! The parts of runs that are in a range.
ghost use Rattle.std.specs.Prelude.{◌≡◌, ◌≤◌, length, max, min};
ghost use Rattle.quic_ranges.specs.Intersections.{as_runs, intersections};
ghost use Rattle.quic_c_entries.specs.Changes.{words_of};
ghost use Rattle.quic_c_entries.specs.Entries.{Stores, range_of, runs_of};

use crate::change::Substitute;
use crate::words::CRange;

// The part of a run that is in a range, if it has one there.
#[inline(always)]
fn part_of(run: CRange, x: CRange) -> Substitute
    ensures { runs_of (words_of result) ≡ as_runs (max run.start x.start) (min x.end run.end) }
{
    let start = run.start.max(x.start);
    let end = x.end.min(run.end);
    if start < end {
        Substitute::One(CRange { start, end })
    } else {
        Substitute::Nothing
    }
}

/// How many runs have a part in a range.
pub fn count_parts(runs: &[CRange], x: CRange) -> usize
    ensures { result ≡ length (intersections (runs_of runs.now) (range_of x)) }
{
    let mut count = 0;
    for run in runs {
        count += part_of(*run, x).len();
    }
    count
}

/// Stores the parts of runs that are in a range at the front of `dest`, and returns how many they are. The entries after
/// them don't change.
pub fn store_parts(runs: &[CRange], x: CRange, dest: &mut [CRange]) -> usize
    requires { length (intersections (runs_of runs.now) (range_of x)) ≤ length dest.old }
    ensures { Stores (intersections (runs_of runs.now) (range_of x)) dest.old dest.new result }
{
    let mut count = 0;
    for run in runs {
        let part = part_of(*run, x);
        part.write(dest, count);
        count += part.len();
    }
    count
}
