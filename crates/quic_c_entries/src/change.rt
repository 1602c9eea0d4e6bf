//! What a change does to the runs of a set: which of them are removed, and which replace them.
ghost use Rattle.std.specs.Prelude.{◌≡◌, ◌≤◌, ◌<◌, ◌+◌, ◌++◌, length, take, drop, true, false, IfSome, IfNone};
ghost use Rattle.quic_ranges.specs.Intersections.{as_runs};
ghost use Rattle.quic_ranges.specs.Runs.{IsMaximalRuns, IsRunsOf, in_union, in_difference};
ghost use Rattle.quic_c_entries.specs.Entries.{range_of, runs_of};
ghost use Rattle.quic_c_entries.specs.Changes.{FitsRoom, Made, SetNeedsMore, Plans, words_of};

use crate::places::{count_ends_below, count_starts_upto};
use crate::words::CRange;

/// The runs that replace others.
#[derive(Clone, Copy)]
pub enum Substitute {
    /// No run.
    Nothing,
    /// One run.
    One(CRange),
    /// Two runs, in their order.
    Two(CRange, CRange),
}

impl Substitute {
    // Both runs, without an empty or reversed one.
    #[inline(always)]
    fn of(front: CRange, back: CRange) -> Self
        ensures { runs_of (words_of result) ≡ as_runs front.start front.end ++ as_runs back.start back.end }
    {
        match (front.start < front.end, back.start < back.end) {
            (true, true) => Substitute::Two(front, back),
            (true, false) => Substitute::One(front),
            (false, true) => Substitute::One(back),
            (false, false) => Substitute::Nothing,
        }
    }

    /// How many runs there are: at most 2.
    #[inline(always)]
    pub fn len(&self) -> usize
        ensures count { result ≡ length (words_of self.now) }
        ensures most { result ≤ 2 }
    {
        match self {
            Substitute::Nothing => 0,
            Substitute::One(_) => 1,
            Substitute::Two(_, _) => 2,
        }
    }

    /// Writes them over the entries from `at` on.
    #[inline(always)]
    pub fn write(self, runs: &mut [CRange], at: usize)
        requires { at + length (words_of self) ≤ length runs.old }
        ensures { runs.new ≡ take at runs.old ++ (words_of self ++ drop (at + length (words_of self)) runs.old) }
    {
        match self {
            Substitute::Nothing => {}
            Substitute::One(run) => runs[at] = run,
            Substitute::Two(front, back) => {
                runs[at] = front;
                runs[at + 1] = back;
            }
        }
    }
}

/// A change of a list of runs: those from `from` to before `to` are replaced by `by`.
#[derive(Clone, Copy)]
pub struct Splice {
    /// The index of the first run that is replaced.
    pub from: usize,
    /// The index of the first run behind them.
    pub to: usize,
    /// What replaces them.
    pub by: Substitute,
}

/// What an insertion of `x` does to the runs of a set; `None` if every number of `x` is in them. If the entries aren't
/// such runs, it is some change within them. Numbers below the last run take two binary searches.
#[inline(always)]
pub fn insertion(runs: &[CRange], x: CRange) -> Option<Splice>
    ensures none { IsMaximalRuns (runs_of runs.now)
        → IfNone result (IsRunsOf (in_union (runs_of runs.now) (range_of x)) (runs_of runs.now)) }
    ensures some { IsMaximalRuns (runs_of runs.now)
        → IfSome result (Plans (in_union (runs_of runs.now) (range_of x)) runs.now) }
    ensures fits { IfSome result (FitsRoom runs.now) }
{
    if x.end <= x.start {
        return None;
    }
    let from = count_ends_below(runs, x.start);
    let to = count_starts_upto(runs, x.end);
    if from >= to {
        return Some(Splice {
            from,
            to: from,
            by: Substitute::One(x),
        });
    }
    let first = runs[from];
    if first.start <= x.start && x.end <= first.end {
        return None;
    }
    let last = runs[to - 1];
    let start = x.start.min(first.start);
    let end = x.end.max(last.end);
    Some(Splice {
        from,
        to,
        by: Substitute::One(CRange { start, end }),
    })
}

/// What a removal of `x` does to the runs of a set; `None` if no number of `x` is in them. If the entries aren't such
/// runs, it is some change within them. It takes two binary searches.
#[inline(always)]
pub fn removal(runs: &[CRange], x: CRange) -> Option<Splice>
    ensures none { IsMaximalRuns (runs_of runs.now)
        → IfNone result (IsRunsOf (in_difference (runs_of runs.now) (range_of x)) (runs_of runs.now)) }
    ensures some { IsMaximalRuns (runs_of runs.now)
        → IfSome result (Plans (in_difference (runs_of runs.now) (range_of x)) runs.now) }
    ensures fits { IfSome result (FitsRoom runs.now) }
{
    if x.end <= x.start {
        return None;
    }
    let from = count_ends_below(runs, x.start + 1);
    let to = count_starts_upto(runs, x.end - 1);
    if from >= to {
        return None;
    }
    let (start, end) = (runs[from].start, runs[to - 1].end);
    let front = CRange {
        start,
        end: x.start,
    };
    let back = CRange { start: x.end, end };
    Some(Splice {
        from,
        to,
        by: Substitute::of(front, back),
    })
}

/// Makes a change to the first `count` entries, and updates their count, if there is an entry for each run. The entries
/// behind the change are moved together, if it changes how many are before them. It returns whether the change was made;
/// if not, nothing changes.
#[inline(always)]
pub fn make(runs: &mut [CRange], count: &mut usize, change: Splice) -> bool
    requires within { count.old ≤ length runs.old }
    requires fits { FitsRoom (take count.old runs.old) change }
    ensures made { result ≡ true → Made runs.old count.old change runs.new count.new }
    ensures more { result ≡ false → SetNeedsMore runs.old count.old change }
    ensures same { result ≡ false → runs.new ≡ runs.old }
    ensures counted { result ≡ false → count.new ≡ count.old }
{
    let len = *count;
    let behind = change.from + change.by.len();
    let after = behind + (len - change.to);
    if after > runs.len() {
        return false;
    }
    if change.to < len && behind != change.to {
        runs.copy_within(change.to..len, behind);
    }
    change.by.write(runs, change.from);
    *count = after;
    true
}
