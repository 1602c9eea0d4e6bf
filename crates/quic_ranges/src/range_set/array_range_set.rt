//! A set of numbers that holds up to two runs inline.
ghost use Rattle.std.specs.Prelude.{◌≡◌, ◌≢◌, [], ◌≤◌, ◌<◌, ◌+◌, ◌-◌, ◌^◌, ◌∷◌, ◌++◌, ◌↔◌, ℕ, List, length, take, drop, IfSome, IfNone, IfOk, OnOk, OnErr, IsTrue, IsOk};
ghost use Rattle.std.specs.declared.ops.Range.{Range};
ghost use Rattle.smallvec.specs.SmallVec.{small_vec_len, HasRoomFor};
ghost use Rattle.quic_ranges.specs.Runs.{IsMaximalRuns, IsRunsOf, IsLeastMember, IsGreatest, member, in_union, in_difference, in_subtraction};
ghost use Rattle.quic_ranges.specs.Numbers.{numbers_of};
ghost use Rattle.quic_ranges.specs.Intersections.{outside, subtracted};
ghost use Rattle.quic_ranges.specs.Splices.{Fits, after_splice};

use crate::range_set::runs_iter::{EltIter, Iter};
use crate::range_set::sorted_runs::{self, Extension, Splice};
use quic_base::coding::NoRoom;
use smallvec::SmallVec;
use std::alloc::Global;
use std::fmt;
use std::marker::Model;
use std::ops::Range;

/// A finite set of numbers below 2^64 - 1. Up to two runs need no allocation.
#[derive(Drop)]
pub struct ArrayRangeSet {
    runs: SmallVec<Range<u64>, 2>,
}

impl Model for ArrayRangeSet {
    ghost use Rattle.std.specs.Prelude.{ℕ, List, ◌≤◌};
    ghost use Rattle.std.specs.declared.ops.Range.{Range};
    ghost use Rattle.quic_ranges.specs.Runs.{IsMaximalRuns};

    ghost Value = { List (Range ℕ) };

    ghost view = { λ s. s.runs.items };

    ghost invariant = { λ s. IsMaximalRuns s.runs.items × (2 ≤ s.runs.capacity) };
}

impl ArrayRangeSet {
    /// The empty set.
    pub fn new(alloc: Global) -> Self
        ensures { result ≡ [] }
    {
        ArrayRangeSet {
            runs: SmallVec::new(alloc),
        }
    }

    /// Whether a number is in the set.
    pub fn contains(&self, x: u64) -> bool
        ensures { result ≡ member self.now x }
    {
        sorted_runs::contains(self.runs.as_slice(), x)
    }

    /// Whether the set is empty.
    pub fn is_empty(&self) -> bool
        ensures { IsTrue result ↔ (self.now ≡ []) }
    {
        self.runs.is_empty()
    }

    /// The least number of the set, `None` if it is empty.
    pub fn min(&self) -> Option<u64>
        ensures some { IfSome result (IsLeastMember self.now) }
        ensures none { IfNone result (self.now ≡ []) }
    {
        let first = self.iter().next()?;
        Some(first.start)
    }

    /// The greatest number of the set, `None` if it is empty.
    pub fn max(&self) -> Option<u64>
        ensures some { IfSome result (IsGreatest self.now) }
        ensures none { IfNone result (self.now ≡ []) }
    {
        let last = self.iter().next_back()?;
        Some(last.end - 1)
    }

    /// The number of runs.
    pub fn len(&self) -> usize
        ensures { result ≡ length self.now }
    {
        self.runs.len()
    }

    /// The runs, ascending.
    pub fn iter(&self) -> ArrayIter<'_>
        ensures runs { result ≡ self.now }
        ensures maximal { IsMaximalRuns self.now }
    {
        Iter::of(self.runs.as_slice())
    }

    /// The numbers of the set, ascending.
    pub fn elts(&self) -> ArrayElts<'_>
        ensures { result ≡ numbers_of self.now }
    {
        EltIter::of(self.runs.as_slice())
    }

    /// An equal set. It allocates only for more than two runs, and returns `NoRoom` if that fails.
    pub fn try_clone(&self) -> Result<Self, NoRoom>
        ensures equal { IfOk result (λ copy. copy ≡ self.now) }
        ensures inline { length self.now ≤ 2 → IsOk result }
    {
        let mut runs = SmallVec::with_capacity(*self.runs.allocator(), self.runs.len())?;
        for run in self.runs.as_slice() {
            runs.push_reserved(run.start..run.end);
        }
        Ok(ArrayRangeSet { runs })
    }

    /// Inserts a range. Returns true exactly when that changed the set; an empty or reversed range never does. Returns
    /// `NoRoom` only if an allocation fails, which needs a union with more runs than the set and more than two. The set
    /// is unchanged then.
    pub fn insert(&mut self, x: Range<u64>) -> Result<bool, NoRoom>
        ensures union { OnOk result (IsRunsOf (in_union self.old x) self.new) }
        ensures changed { IfOk result (λ changed. IsTrue changed ↔ (self.new ≢ self.old)) }
        ensures err { OnErr result (self.new ≡ self.old) }
        ensures no_more_runs { (rs : List (Range ℕ)) → IsRunsOf (in_union self.old x) rs
            → length rs ≤ length self.old → IsOk result }
        ensures inline { (rs : List (Range ℕ)) → IsRunsOf (in_union self.old x) rs
            → length rs ≤ 2 → IsOk result }
    {
        join(&mut self.runs, &x)
    }

    /// Inserts one number, as `insert` does. The caller must ensure that it is below 2^64 - 1.
    pub fn insert_one(&mut self, x: u64) -> Result<bool, NoRoom>
        requires { x < 2 ^ 64 - 1 }
        ensures union { OnOk result
            (IsRunsOf (in_union self.old (record { start = x; end = x + 1 })) self.new) }
        ensures changed { IfOk result (λ changed. IsTrue changed ↔ (self.new ≢ self.old)) }
        ensures err { OnErr result (self.new ≡ self.old) }
        ensures no_more_runs { (rs : List (Range ℕ))
            → IsRunsOf (in_union self.old (record { start = x; end = x + 1 })) rs
            → length rs ≤ length self.old → IsOk result }
        ensures inline { (rs : List (Range ℕ))
            → IsRunsOf (in_union self.old (record { start = x; end = x + 1 })) rs
            → length rs ≤ 2 → IsOk result }
    {
        self.insert(x..x + 1)
    }

    /// Removes a range. Returns true exactly when that changed the set. Returns `NoRoom` only if an allocation fails,
    /// which needs a difference with more runs than the set and more than two. The set is unchanged then.
    pub fn remove(&mut self, x: Range<u64>) -> Result<bool, NoRoom>
        ensures difference { OnOk result (IsRunsOf (in_difference self.old x) self.new) }
        ensures changed { IfOk result (λ changed. IsTrue changed ↔ (self.new ≢ self.old)) }
        ensures err { OnErr result (self.new ≡ self.old) }
        ensures no_more_runs { (rs : List (Range ℕ)) → IsRunsOf (in_difference self.old x) rs
            → length rs ≤ length self.old → IsOk result }
        ensures inline { (rs : List (Range ℕ)) → IsRunsOf (in_difference self.old x) rs
            → length rs ≤ 2 → IsOk result }
    {
        let Some(change) = sorted_runs::removal(self.runs.as_slice(), &x) else {
            return Ok(false);
        };
        apply(&mut self.runs, change)?;
        Ok(true)
    }

    /// Removes the numbers of another set from this one. The difference is built separately, so the set is unchanged
    /// after `NoRoom`, which needs a difference of more than two runs.
    pub fn subtract(&mut self, other: &Self) -> Result<(), NoRoom>
        ensures difference { OnOk result (IsRunsOf (in_subtraction self.old other.now) self.new) }
        ensures err { OnErr result (self.new ≡ self.old) }
        ensures inline { (rs : List (Range ℕ)) → IsRunsOf (in_subtraction self.old other.now) rs
            → length rs ≤ 2 → IsOk result }
    {
        let left = runs_outside(
            *self.runs.allocator(),
            self.runs.as_slice(),
            other.runs.as_slice(),
        )?;
        self.runs = left;
        Ok(())
    }

    /// Removes the first run and returns it, or `None` if there is none.
    pub fn pop_min(&mut self) -> Option<Range<u64>>
        ensures some { IfSome result (λ run. self.old ≡ run ∷ self.new) }
        ensures none { IfNone result (self.old ≡ []) }
        ensures unchanged { IfNone result (self.new ≡ self.old) }
    {
        if self.runs.is_empty() {
            return None;
        }
        Some(self.runs.remove(0))
    }
}

/// The runs of an `ArrayRangeSet`, ascending, from both ends.
pub type ArrayIter<'a> = Iter<'a>;

/// The numbers of an `ArrayRangeSet`, ascending, from both ends.
pub type ArrayElts<'a> = EltIter<'a>;

impl fmt::Debug for ArrayRangeSet {
    fn fmt<W: fmt::Write>(&self, f: &mut fmt::Formatter<W>) -> fmt::Result {
        f.debug_tuple("ArrayRangeSet").field(&self.runs).finish()
    }
}

// Inserts a range into the runs. It allocates at most once, before the first change.
fn join(runs: &mut SmallVec<Range<u64>, 2>, x: &Range<u64>) -> Result<bool, NoRoom>
    requires { IsMaximalRuns runs.old.items }
    ensures union { OnOk result (IsRunsOf (in_union runs.old.items x.now) runs.new.items) }
    ensures changed { IfOk result
        (λ changed. IsTrue changed ↔ (runs.new.items ≢ runs.old.items)) }
    ensures err { OnErr result (runs.new ≡ runs.old) }
    ensures no_more_runs { (rs : List (Range ℕ)) → IsRunsOf (in_union runs.old.items x.now) rs
        → length rs ≤ small_vec_len runs.old → IsOk result }
    ensures no_room { OnErr result (HasRoomFor runs.old 1 → ⊥) }
    ensures capacity { runs.old.capacity ≤ runs.new.capacity }
{
    match sorted_runs::extend_last(runs.as_mut_slice(), x) {
        Extension::Unchanged => Ok(false),
        Extension::Extended => Ok(true),
        Extension::AfterAll => {
            runs.push(x.start..x.end).map_err(|_| NoRoom)?;
            Ok(true)
        }
        Extension::BeforeLast => join_among(runs, x),
    }
}

// The same for a range anywhere, by binary search.
fn join_among(runs: &mut SmallVec<Range<u64>, 2>, x: &Range<u64>) -> Result<bool, NoRoom>
    requires { IsMaximalRuns runs.old.items }
    ensures union { OnOk result (IsRunsOf (in_union runs.old.items x.now) runs.new.items) }
    ensures changed { IfOk result
        (λ changed. IsTrue changed ↔ (runs.new.items ≢ runs.old.items)) }
    ensures err { OnErr result (runs.new ≡ runs.old) }
    ensures no_more_runs { (rs : List (Range ℕ)) → IsRunsOf (in_union runs.old.items x.now) rs
        → length rs ≤ small_vec_len runs.old → IsOk result }
    ensures no_room { OnErr result (HasRoomFor runs.old 1 → ⊥) }
    ensures capacity { runs.old.capacity ≤ runs.new.capacity }
{
    let Some(change) = sorted_runs::insertion(runs.as_slice(), x) else {
        return Ok(false);
    };
    apply(runs, change)?;
    Ok(true)
}

// Applies a change to the runs. It allocates only if it adds a run, before anything changes.
fn apply(runs: &mut SmallVec<Range<u64>, 2>, change: Splice) -> Result<(), NoRoom>
    requires { Fits runs.old.items change }
    ensures ok { OnOk result (runs.new.items ≡ after_splice runs.old.items change) }
    ensures err { OnErr result (runs.new ≡ runs.old) }
    ensures more_runs { OnErr result
        (length (after_splice runs.old.items change) ≡ small_vec_len runs.old + 1) }
    ensures no_room { OnErr result (HasRoomFor runs.old 1 → ⊥) }
    ensures capacity { runs.old.capacity ≤ runs.new.capacity }
{
    let Splice { from, to, by } = change;
    let (less, more) = (to - from, by.len());
    if less < more {
        let at = sorted_runs::place(runs.as_slice(), to);
        runs.insert(at, 0..0).map_err(|_| NoRoom)?;
    } else if more < less {
        runs.drain(from + more..to);
    }
    by.write(runs.as_mut_slice(), from);
    Ok(())
}

// Appends the parts of a run that are outside the runs of another set.
fn push_outside(
    left: &mut SmallVec<Range<u64>, 2>,
    run: &Range<u64>,
    others: &[Range<u64>],
) -> Result<(), NoRoom>
    requires { 2 ≤ left.old.capacity }
    ensures ok { OnOk result
        (left.new.items ≡ left.old.items ++ outside run.now.start run.now.end others.now) }
    ensures err { OnErr result
        (2 < length (left.old.items ++ outside run.now.start run.now.end others.now)) }
    ensures capacity { 2 ≤ left.new.capacity }
{
    let mut start = run.start;
    let end = run.end;
    for other in others {
        let gap = end.min(other.start);
        if start < gap {
            left.push(start..gap).map_err(|_| NoRoom)?;
        }
        start = start.max(other.end);
    }
    if start < end {
        left.push(start..end).map_err(|_| NoRoom)?;
    }
    Ok(())
}

// The parts of the runs that are outside those of another set, in a new list.
fn runs_outside(
    alloc: Global,
    runs: &[Range<u64>],
    others: &[Range<u64>],
) -> Result<SmallVec<Range<u64>, 2>, NoRoom>
    requires runs { IsMaximalRuns runs.now }
    requires others { IsMaximalRuns others.now }
    ensures ok { IfOk result (λ left. left.items ≡ subtracted runs.now others.now) }
    ensures capacity { IfOk result (λ left. 2 ≤ left.capacity) }
    ensures err { OnErr result (2 < length (subtracted runs.now others.now)) }
{
    let mut left = SmallVec::new(alloc);
    for run in runs {
        push_outside(&mut left, run, sorted_runs::touched(others, run))?;
    }
    Ok(left)
}
