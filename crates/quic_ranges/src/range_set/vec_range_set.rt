//! A set of numbers, held as a sorted vector of its runs.
ghost use Rattle.std.specs.Prelude.{◌≡◌, ◌≢◌, [], ◌∷◌, ◌+◌, ◌-◌, ◌^◌, ◌≤◌, ◌<◌, ◌↔◌, ℕ, List, length, slice_get, IfOk, OnOk, OnErr, IfSome, IfNone, IsTrue, IsOk, Option};
ghost use Rattle.std.specs.Borrow.{sem};
ghost use Rattle.std.specs.Iterator.{YieldsFirst, item_count};
ghost use Rattle.std.specs.declared.ops.Range.{Range};
ghost use Rattle.quic_ranges.specs.Runs.{IsMaximalRuns, IsRunsOf, IsLeastMember, IsGreatest, TreatsBeginning, member, in_union, in_difference, in_intersection, in_sum, in_subtraction};
ghost use Rattle.quic_ranges.specs.Intersections.{intersections};
ghost use Rattle.quic_ranges.specs.Numbers.{numbers_of};
ghost use Rattle.quic_ranges.specs.Replaced.{Ends, intersections_left};

use crate::range_set::run_vec::RunVec;
use crate::range_set::runs_iter::{EltIter, Iter};
use crate::range_set::sorted_runs::{self, Extension};
use quic_base::coding::NoRoom;
use std::alloc::Global;
use std::marker::Model;
use std::ops::Range;
use std::{fmt, slice};

/// A finite set of numbers below 2^64 - 1.
#[derive(Drop)]
pub struct RangeSet {
    runs: RunVec,
    // What the last `replace` found in its range. A `Replace` reads it, and the next call reuses its memory.
    replaced: Vec<Range<u64>>,
}

impl Model for RangeSet {
    ghost use Rattle.std.specs.Prelude.{ℕ, List};
    ghost use Rattle.std.specs.declared.ops.Range.{Range};
    ghost use Rattle.quic_ranges.specs.Runs.{IsMaximalRuns};

    ghost Value = { List (Range ℕ) };

    ghost view = { λ s. s.runs };

    ghost invariant = { λ s. IsMaximalRuns s.runs };
}

impl RangeSet {
    /// The empty set.
    pub fn new(alloc: Global) -> Self
        ensures { result ≡ [] }
    {
        RangeSet {
            runs: RunVec::new(alloc),
            replaced: Vec::new(alloc),
        }
    }

    /// Whether a number is in the set.
    pub fn contains(&self, x: u64) -> bool
        ensures { result ≡ member self.now x }
    {
        sorted_runs::contains(self.runs.as_slice(), x)
    }

    /// Whether the set is empty.
    pub fn is_empty(&self) -> bool
        ensures { IsTrue result ↔ (self.now ≡ []) }
    {
        self.runs.as_slice().is_empty()
    }

    /// The least number of the set, `None` if it is empty.
    pub fn min(&self) -> Option<u64>
        ensures some { IfSome result (IsLeastMember self.now) }
        ensures none { IfNone result (self.now ≡ []) }
    {
        let first = self.iter().next()?;
        Some(first.start)
    }

    /// The greatest number of the set, `None` if it is empty.
    pub fn max(&self) -> Option<u64>
        ensures some { IfSome result (IsGreatest self.now) }
        ensures none { IfNone result (self.now ≡ []) }
    {
        let last = self.iter().next_back()?;
        Some(last.end - 1)
    }

    /// The number of runs.
    pub fn len(&self) -> usize
        ensures { result ≡ length self.now }
    {
        self.runs.as_slice().len()
    }

    /// The first run, `None` if the set is empty.
    pub fn peek_min(&self) -> Option<Range<u64>>
        ensures { result ≡ slice_get self.now 0 }
    {
        let mut runs = self.iter();
        runs.next()
    }

    /// The runs, ascending.
    pub fn iter(&self) -> Iter<'_>
        ensures runs { result ≡ self.now }
        ensures maximal { IsMaximalRuns self.now }
    {
        Iter::of(self.runs.as_slice())
    }

    /// The numbers of the set, ascending.
    pub fn elts(&self) -> EltIter<'_>
        ensures { result ≡ numbers_of self.now }
    {
        EltIter::of(self.runs.as_slice())
    }

    /// An equal set. Returns `NoRoom` if an allocation fails.
    pub fn try_clone(&self) -> Result<Self, NoRoom>
        ensures { IfOk result (λ copy. copy ≡ self.now) }
    {
        Ok(RangeSet {
            runs: self.runs.try_clone()?,
            replaced: Vec::new(*self.replaced.allocator()),
        })
    }

    /// Inserts a range. Returns true exactly when that changed the set; an empty or reversed range never does. Returns
    /// `NoRoom` only if an allocation fails, which needs a union with more runs than the set. The set is unchanged
    /// then.
    pub fn insert(&mut self, x: Range<u64>) -> Result<bool, NoRoom>
        ensures union { OnOk result (IsRunsOf (in_union self.old x) self.new) }
        ensures changed { IfOk result (λ changed. IsTrue changed ↔ (self.new ≢ self.old)) }
        ensures err { OnErr result (self.new ≡ self.old) }
        ensures no_change { IsRunsOf (in_union self.old x) self.old → IsOk result }
        ensures no_more_runs { (rs : List (Range ℕ)) → IsRunsOf (in_union self.old x) rs
            → length rs ≤ length self.old → IsOk result }
    {
        join(&mut self.runs, &x)
    }

    /// Inserts one number, as `insert` does. The caller must ensure that it is below 2^64 - 1.
    pub fn insert_one(&mut self, x: u64) -> Result<bool, NoRoom>
        requires { x < 2 ^ 64 - 1 }
        ensures union { OnOk result
            (IsRunsOf (in_union self.old (record { start = x; end = x + 1 })) self.new) }
        ensures changed { IfOk result (λ changed. IsTrue changed ↔ (self.new ≢ self.old)) }
        ensures err { OnErr result (self.new ≡ self.old) }
        ensures no_change { IsRunsOf (in_union self.old (record { start = x; end = x + 1 })) self.old
            → IsOk result }
        ensures no_more_runs { (rs : List (Range ℕ))
            → IsRunsOf (in_union self.old (record { start = x; end = x + 1 })) rs
            → length rs ≤ length self.old → IsOk result }
    {
        self.insert(x..x + 1)
    }

    /// Removes a range. Returns true exactly when that changed the set. Returns `NoRoom` only if an allocation fails,
    /// which needs a difference with more runs than the set. The set is unchanged then.
    pub fn remove(&mut self, x: Range<u64>) -> Result<bool, NoRoom>
        ensures difference { OnOk result (IsRunsOf (in_difference self.old x) self.new) }
        ensures changed { IfOk result (λ changed. IsTrue changed ↔ (self.new ≢ self.old)) }
        ensures err { OnErr result (self.new ≡ self.old) }
        ensures no_change { IsRunsOf (in_difference self.old x) self.old → IsOk result }
        ensures no_more_runs { (rs : List (Range ℕ)) → IsRunsOf (in_difference self.old x) rs
            → length rs ≤ length self.old → IsOk result }
    {
        cut(&mut self.runs, &x)
    }

    /// Inserts a range, and returns the nonempty parts of it that were in the set before. The set is the union from
    /// this call on, however many parts are read. Returns `NoRoom` only if an allocation fails, which needs such a
    /// part, or a union with more runs than the set. The set is unchanged then.
    pub fn replace(&mut self, x: Range<u64>) -> Result<Replace<'_>, NoRoom>
        ensures* union { sem 𝓛 (Ends self.entry
            (λ after. OnOk result (IsRunsOf (in_union self.old x) after)
            × OnErr result (after ≡ self.old))) }
        ensures intersections { IfOk result
            (λ found. IsRunsOf (in_intersection self.old x) (intersections_left found)) }
        ensures void { x.end ≤ x.start → IsOk result }
        ensures no_more_runs { (rs : List (Range ℕ)) → IsRunsOf (in_intersection self.old x) []
            → IsRunsOf (in_union self.old x) rs → length rs ≤ length self.old → IsOk result }
    {
        find_intersections(&mut self.replaced, self.runs.as_slice(), &x)?;
        join(&mut self.runs, &x)?;
        Ok(Replace {
            intersections: self.replaced.iter(),
        })
    }

    /// Inserts the numbers of another set. Returns `NoRoom` if an allocation fails, which never happens if nothing
    /// would change. Some of the other's runs, from the first on, were inserted then.
    pub fn add(&mut self, other: &Self) -> Result<(), NoRoom>
        ensures union { OnOk result (IsRunsOf (in_sum self.old other.now) self.new) }
        ensures err { OnErr result (TreatsBeginning in_sum self.old other.now self.new) }
        ensures no_change { IsRunsOf (in_sum self.old other.now) self.old → IsOk result }
    {
        let (runs, others) = (self.runs.as_slice(), other.runs.as_slice());
        if pays_to_merge(runs, others) {
            if let Ok(merged) = sum_of(*self.replaced.allocator(), runs, others) {
                self.runs = merged;
                return Ok(());
            }
        }
        for run in other {
            join(&mut self.runs, &run)?;
        }
        Ok(())
    }

    /// Removes the numbers of another set. Returns `NoRoom` if an allocation fails, which never happens if nothing
    /// would change. Some of the other's runs, from the first on, were removed then.
    pub fn subtract(&mut self, other: &Self) -> Result<(), NoRoom>
        ensures difference { OnOk result (IsRunsOf (in_subtraction self.old other.now) self.new) }
        ensures err { OnErr result (TreatsBeginning in_subtraction self.old other.now self.new) }
        ensures no_change { IsRunsOf (in_subtraction self.old other.now) self.old → IsOk result }
    {
        let (runs, others) = (self.runs.as_slice(), other.runs.as_slice());
        if pays_to_merge(runs, others) {
            if let Ok(merged) = difference_of(*self.replaced.allocator(), runs, others) {
                self.runs = merged;
                return Ok(());
            }
        }
        for run in other {
            cut(&mut self.runs, &run)?;
        }
        Ok(())
    }

    /// Removes the first run and returns it, or `None` if there is none.
    pub fn pop_min(&mut self) -> Option<Range<u64>>
        ensures some { IfSome result (λ run. self.old ≡ run ∷ self.new) }
        ensures none { IfNone result (self.old ≡ []) }
        ensures unchanged { IfNone result (self.new ≡ self.old) }
    {
        self.runs.pop_first()
    }
}

impl fmt::Debug for RangeSet {
    fn fmt<W: fmt::Write>(&self, f: &mut fmt::Formatter<W>) -> fmt::Result {
        f.debug_tuple("RangeSet")
            .field(&EndsByStart(self.runs.as_slice()))
            .finish()
    }
}

// Runs, printed as a map from the start of each to its end.
#[derive(Drop)]
struct EndsByStart<'a>(&'a [Range<u64>]);

impl fmt::Debug for EndsByStart<'_> {
    fn fmt<W: fmt::Write>(&self, f: &mut fmt::Formatter<W>) -> fmt::Result {
        f.debug_map()
            .entries(self.0.iter().map(|run| (run.start, run.end)))
            .finish()
    }
}

impl<'a> IntoIterator for &'a RangeSet {
    type Item = Range<u64>;

    type IntoIter = Iter<'a>;

    ghost into_iter_gives = { λ set runs. (runs ≡ set.now) × IsMaximalRuns set.now };

    fn into_iter(self) -> Iter<'a> {
        self.iter()
    }
}

/// The parts of a range that were in a set before `replace`, ascending. The set is borrowed while they are read.
#[derive(Drop)]
pub struct Replace<'a> {
    intersections: slice::Iter<'a, Range<u64>>,
}

impl<'a> Iterator for Replace<'a> {
    type Item = Range<u64>;

    ghost next_gives = { YieldsFirst intersections_left };

    ghost remaining = { item_count intersections_left };

    fn next(&mut self) -> Option<Range<u64>> {
        let replaced = self.intersections.next()?;
        Some(replaced.start..replaced.end)
    }
}

// Inserts a range into the runs. It allocates at most once, before the first change.
fn join(runs: &mut RunVec, x: &Range<u64>) -> Result<bool, NoRoom>
    requires { IsMaximalRuns runs.old }
    ensures union { OnOk result (IsRunsOf (in_union runs.old x.now) runs.new) }
    ensures changed { IfOk result (λ changed. IsTrue changed ↔ (runs.new ≢ runs.old)) }
    ensures err { OnErr result (runs.new ≡ runs.old) }
    ensures no_more_runs { (rs : List (Range ℕ)) → IsRunsOf (in_union runs.old x.now) rs
        → length rs ≤ length runs.old → IsOk result }
{
    match runs.extend_last(x) {
        Extension::Unchanged => Ok(false),
        Extension::Extended => Ok(true),
        Extension::AfterAll => {
            runs.push(x.start..x.end)?;
            Ok(true)
        }
        Extension::BeforeLast => join_among(runs, x),
    }
}

// The same for a range anywhere, by binary search.
fn join_among(runs: &mut RunVec, x: &Range<u64>) -> Result<bool, NoRoom>
    requires { IsMaximalRuns runs.old }
    ensures union { OnOk result (IsRunsOf (in_union runs.old x.now) runs.new) }
    ensures changed { IfOk result (λ changed. IsTrue changed ↔ (runs.new ≢ runs.old)) }
    ensures err { OnErr result (runs.new ≡ runs.old) }
    ensures no_more_runs { (rs : List (Range ℕ)) → IsRunsOf (in_union runs.old x.now) rs
        → length rs ≤ length runs.old → IsOk result }
{
    let Some(change) = sorted_runs::insertion(runs.as_slice(), x) else {
        return Ok(false);
    };
    runs.apply(change)?;
    Ok(true)
}

// Removes a range from the runs. It allocates at most once, before the first change.
fn cut(runs: &mut RunVec, x: &Range<u64>) -> Result<bool, NoRoom>
    requires { IsMaximalRuns runs.old }
    ensures difference { OnOk result (IsRunsOf (in_difference runs.old x.now) runs.new) }
    ensures changed { IfOk result (λ changed. IsTrue changed ↔ (runs.new ≢ runs.old)) }
    ensures err { OnErr result (runs.new ≡ runs.old) }
    ensures no_more_runs { (rs : List (Range ℕ)) → IsRunsOf (in_difference runs.old x.now) rs
        → length rs ≤ length runs.old → IsOk result }
{
    let Some(change) = sorted_runs::removal(runs.as_slice(), x) else {
        return Ok(false);
    };
    runs.apply(change)?;
    Ok(true)
}

// Whether one walk over all runs is cheaper than a search and a move for each of the others.
fn pays_to_merge(runs: &[Range<u64>], others: &[Range<u64>]) -> bool {
    others.len() >= 8 && others.len() >= runs.len() / 32
}

// The runs of both lists, merged from the front on, so that each run is joined to the last.
fn sum_of(alloc: Global, runs: &[Range<u64>], others: &[Range<u64>]) -> Result<RunVec, NoRoom>
    ensures { IfOk result (λ sum. IsRunsOf (in_sum runs.now others.now) sum) }
{
    let mut sum = RunVec::with_capacity(alloc, runs.len())?;
    let mut next = 0;
    for run in runs {
        while next < others.len() && others[next].start < run.start {
            join(&mut sum, &others[next])?;
            next += 1;
        }
        join(&mut sum, run)?;
    }
    for other in &others[next..] {
        join(&mut sum, other)?;
    }
    Ok(sum)
}

// The parts of the runs that are outside the others. `next` is the first of these that ends after the run.
fn difference_of(
    alloc: Global,
    runs: &[Range<u64>],
    others: &[Range<u64>],
) -> Result<RunVec, NoRoom>
    requires runs { IsMaximalRuns runs.now }
    requires others { IsMaximalRuns others.now }
    ensures { IfOk result (λ left. IsRunsOf (in_subtraction runs.now others.now) left) }
{
    let mut left = RunVec::with_capacity(alloc, runs.len())?;
    let mut next = 0;
    for run in runs {
        let mut start = run.start;
        while next < others.len() && others[next].end <= run.end {
            if start < others[next].start {
                left.push(start..others[next].start)?;
            }
            start = start.max(others[next].end);
            next += 1;
        }
        let mut end = run.end;
        if next < others.len() {
            end = end.min(others[next].start);
        }
        if start < end {
            left.push(start..end)?;
        }
    }
    Ok(left)
}

// Finds the parts of `x` that are in the runs.
fn find_intersections(
    found: &mut Vec<Range<u64>>,
    runs: &[Range<u64>],
    x: &Range<u64>,
) -> Result<(), NoRoom>
    requires { IsMaximalRuns runs.now }
    ensures intersections { OnOk result (found.new.items ≡ intersections runs.now x.now) }
    ensures void { x.now.end ≤ x.now.start → IsOk result }
    ensures none { intersections runs.now x.now ≡ [] → IsOk result }
{
    found.clear();
    if x.end <= x.start {
        return Ok(());
    }
    for run in sorted_runs::touched(runs, x) {
        let start = run.start.max(x.start);
        let end = x.end.min(run.end);
        if start < end {
            found.push(start..end).map_err(|_| NoRoom)?;
        }
    }
    Ok(())
}
