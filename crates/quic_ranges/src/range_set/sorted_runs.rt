//! What a change does to the runs in a slice: which of them are removed, and which replace them. The last run is
//! checked first, since most changes are there; then the index is found by binary search.
ghost use Rattle.std.specs.Prelude.{◌≡◌, ◌<◌, ◌≤◌, ◌+◌, ◌^◌, ◌++◌, length, take, drop, IfSome, IfNone};
ghost use Rattle.std.specs.declared.ops.Range.{Range};
ghost use Rattle.quic_ranges.specs.Runs.{IsMaximalRuns, IsRunsOf, member, in_union, in_difference};
ghost use Rattle.quic_ranges.specs.Places.{ends_below, starts_upto};
ghost use Rattle.quic_ranges.specs.Intersections.{as_runs, intersections, outside};
ghost use Rattle.quic_ranges.specs.Splices.{Extends, Splices, substitutes};

use std::ops::Range;

// How many runs, from the first on, end below `x`.
fn count_ends_below(runs: &[Range<u64>], x: u64) -> usize
    requires { IsMaximalRuns runs.now }
    ensures count { result ≡ ends_below runs.now x }
    ensures within { result ≤ length runs.now }
{
    let len = runs.len();
    if len > 0 && runs[len - 1].start <= x {
        return if runs[len - 1].end < x { len } else { len - 1 };
    }
    runs.partition_point(|run| run.end < x)
}

// How many runs, from the first on, start at `x` or before.
fn count_starts_upto(runs: &[Range<u64>], x: u64) -> usize
    requires { IsMaximalRuns runs.now }
    ensures count { result ≡ starts_upto runs.now x }
    ensures within { result ≤ length runs.now }
{
    let len = runs.len();
    if len > 0 && runs[len - 1].start <= x {
        return len;
    }
    runs.partition_point(|run| run.start <= x)
}

// Whether a number is in one of the runs.
pub(crate) fn contains(runs: &[Range<u64>], x: u64) -> bool
    requires { IsMaximalRuns runs.now }
    ensures { result ≡ member runs.now x }
{
    let after = count_starts_upto(runs, x);
    after > 0 && x < runs[after - 1].end
}

// The runs that replace others.
#[derive(Drop)]
pub(crate) enum Substitute {
    Nothing,
    One(Range<u64>),
    Two(Range<u64>, Range<u64>),
}

impl Substitute {
    // Both ranges, without an empty or reversed one.
    fn of(front: Range<u64>, back: Range<u64>) -> Self
        ensures { substitutes result ≡ as_runs front.start front.end ++ as_runs back.start back.end }
    {
        match (front.start < front.end, back.start < back.end) {
            (true, true) => Substitute::Two(front, back),
            (true, false) => Substitute::One(front),
            (false, true) => Substitute::One(back),
            (false, false) => Substitute::Nothing,
        }
    }
}

impl Substitute {
    // How many runs there are.
    pub(crate) fn len(&self) -> usize
        ensures count { result ≡ length (substitutes self.now) }
        ensures most { result ≤ 2 }
    {
        match self {
            Substitute::Nothing => 0,
            Substitute::One(_) => 1,
            Substitute::Two(_, _) => 2,
        }
    }

    // Writes them over the runs from `at` on.
    pub(crate) fn write(self, runs: &mut [Range<u64>], at: usize)
        requires { at + length (substitutes self) ≤ length runs.old }
        ensures { runs.new ≡ take at runs.old
            ++ (substitutes self ++ drop (at + length (substitutes self)) runs.old) }
    {
        match self {
            Substitute::Nothing => {}
            Substitute::One(run) => runs[at] = run,
            Substitute::Two(front, back) => {
                runs[at] = front;
                runs[at + 1] = back;
            }
        }
    }
}

// The same index, returned so that the compiler sees that the next one doesn't wrap. It then moves the runs from there
// on by one call, not one by one.
pub(crate) fn place(runs: &[Range<u64>], at: usize) -> usize
    requires { at ≤ length runs.now }
    ensures { result ≡ at }
{
    at % (usize::MAX / 2 + 1)
}

// A change of a list of runs: those from `from` to before `to` are replaced by `by`.
#[derive(Drop)]
pub(crate) struct Splice {
    pub from: usize,
    pub to: usize,
    pub by: Substitute,
}

// The outcome of extending the last run by a range.
#[derive(Clone, Copy)]
pub(crate) enum Extension {
    // All its numbers are in the runs already.
    Unchanged,
    // The last run was extended, and ends where the range does.
    Extended,
    // It is after every run and touches none, so it must become a new run.
    AfterAll,
    // It begins before the last run, so its index is still to be found.
    BeforeLast,
}

// Extends the last run by `x` if `x` begins in it or at its end.
pub(crate) fn extend_last(runs: &mut [Range<u64>], x: &Range<u64>) -> Extension
    requires { IsMaximalRuns runs.old }
    ensures { Extends result runs.old x.now runs.new }
{
    if x.end <= x.start {
        return Extension::Unchanged;
    }
    let len = runs.len();
    if len == 0 || runs[len - 1].end < x.start {
        return Extension::AfterAll;
    }
    if x.start < runs[len - 1].start {
        return Extension::BeforeLast;
    }
    if x.end <= runs[len - 1].end {
        return Extension::Unchanged;
    }
    runs[len - 1].end = x.end;
    Extension::Extended
}

// What an insertion of `x` does to the runs; `None` if every number of `x` is in them.
pub(crate) fn insertion(runs: &[Range<u64>], x: &Range<u64>) -> Option<Splice>
    requires { IsMaximalRuns runs.now }
    ensures none { IfNone result (IsRunsOf (in_union runs.now x.now) runs.now) }
    ensures some { IfSome result (Splices (in_union runs.now x.now) runs.now) }
{
    if x.end <= x.start {
        return None;
    }
    let from = count_ends_below(runs, x.start);
    let to = count_starts_upto(runs, x.end);
    if from >= to {
        return Some(Splice {
            from,
            to: from,
            by: Substitute::One(x.start..x.end),
        });
    }
    let first = &runs[from];
    if first.start <= x.start && x.end <= first.end {
        return None;
    }
    let last = &runs[to - 1];
    Some(Splice {
        from,
        to,
        by: Substitute::One(x.start.min(first.start)..x.end.max(last.end)),
    })
}

// What a removal of `x` does to the runs; `None` if no number of `x` is in them.
pub(crate) fn removal(runs: &[Range<u64>], x: &Range<u64>) -> Option<Splice>
    requires { IsMaximalRuns runs.now }
    ensures none { IfNone result (IsRunsOf (in_difference runs.now x.now) runs.now) }
    ensures some { IfSome result (Splices (in_difference runs.now x.now) runs.now) }
{
    if x.end <= x.start {
        return None;
    }
    let from = count_ends_below(runs, x.start + 1);
    let to = count_starts_upto(runs, x.end - 1);
    if from >= to {
        return None;
    }
    Some(Splice {
        from,
        to,
        by: Substitute::of(runs[from].start..x.start, x.end..runs[to - 1].end),
    })
}

// The runs that `x` overlaps or touches.
pub(crate) fn touched<'a>(runs: &'a [Range<u64>], x: &Range<u64>) -> &'a [Range<u64>]
    requires maximal { IsMaximalRuns runs.now }
    requires nonempty { x.now.start < x.now.end }
    ensures outside { outside x.now.start x.now.end result.now ≡ outside x.now.start x.now.end runs.now }
    ensures intersections { intersections result.now x.now ≡ intersections runs.now x.now }
{
    &runs[count_ends_below(runs, x.start)..count_starts_upto(runs, x.end)]
}
