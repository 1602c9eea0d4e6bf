//! Where a number is among runs. The last run is checked first, since most changes are there; then the index is found by
//! binary search.
ghost use Rattle.std.specs.Prelude.{◌≡◌, ◌≤◌, ◌-◌, length};
ghost use Rattle.quic_ranges.specs.Intersections.{intersections};
ghost use Rattle.quic_ranges.specs.Runs.{IsMaximalRuns, member};
ghost use Rattle.quic_ranges.specs.Places.{ends_below, starts_upto};
ghost use Rattle.quic_c_entries.specs.Entries.{range_of, runs_of};

use crate::words::CRange;

// How many runs, from the first on, end below `x`.
#[inline(always)]
pub(crate) fn count_ends_below(runs: &[CRange], x: u64) -> usize
    ensures count { IsMaximalRuns (runs_of runs.now) → result ≡ ends_below (runs_of runs.now) x }
    ensures within { result ≤ length runs.now }
{
    let len = runs.len();
    if len > 0 && runs[len - 1].start <= x {
        return if runs[len - 1].end < x { len } else { len - 1 };
    }
    runs.partition_point(|run| run.end < x)
}

// How many runs, from the first on, start at `x` or before.
#[inline(always)]
pub(crate) fn count_starts_upto(runs: &[CRange], x: u64) -> usize
    ensures count { IsMaximalRuns (runs_of runs.now) → result ≡ starts_upto (runs_of runs.now) x }
    ensures within { result ≤ length runs.now }
{
    let len = runs.len();
    if len > 0 && runs[len - 1].start <= x {
        return len;
    }
    runs.partition_point(|run| run.start <= x)
}

/// Whether a number is in one of the runs of a set. If the entries aren't such runs, the result means nothing. A number
/// below the last run takes a binary search.
#[inline(always)]
pub fn contains(runs: &[CRange], x: u64) -> bool
    ensures { IsMaximalRuns (runs_of runs.now) → result ≡ member (runs_of runs.now) x }
{
    let after = count_starts_upto(runs, x);
    after > 0 && x < runs[after - 1].end
}

/// The runs of a set that have a part in a range, by two binary searches, and those beside that only touch it; no
/// others, so that a caller goes through few. If the entries aren't such runs, it is some of them.
pub fn touched(runs: &[CRange], x: CRange) -> &[CRange]
    ensures same { IsMaximalRuns (runs_of runs.now)
        → intersections (runs_of result.now) (range_of x) ≡ intersections (runs_of runs.now) (range_of x) }
    ensures few { IsMaximalRuns (runs_of runs.now)
        → length result.now ≡ starts_upto (runs_of runs.now) x.end - ends_below (runs_of runs.now) x.start }
{
    let from = count_ends_below(runs, x.start);
    let to = count_starts_upto(runs, x.end).max(from);
    &runs[from..to]
}
