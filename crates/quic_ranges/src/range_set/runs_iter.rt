//! The runs and the numbers of a set, one after the other.
ghost use Rattle.std.specs.Prelude.{◌≡◌, ◌∷◌, ◌++◌, ◌+◌, ◌-◌, ◌<◌, ℕ, List};
ghost use Rattle.std.specs.Iterator.{YieldsFirst, YieldsLast, item_count};
ghost use Rattle.std.specs.Slice.Iter.{iter_rest};
ghost use Rattle.quic_ranges.specs.Numbers.{numbers_of, AreNonempty};
ghost use Rattle.quic_ranges.specs.Runs.{IsMaximalRuns};

use std::marker::Model;
use std::ops::Range;
use std::slice;

/// The runs of a set, ascending, from both ends.
#[derive(Drop)]
pub struct Iter<'a> {
    runs: slice::Iter<'a, Range<u64>>,
}

impl<'a> Iter<'a> {
    // The runs in a slice.
    pub(crate) fn of(runs: &'a [Range<u64>]) -> Self
        ensures { result ≡ runs.now }
    {
        Iter { runs: runs.iter() }
    }
}

impl<'a> Model for Iter<'a> {
    ghost use Rattle.std.specs.Prelude.{ℕ, List};
    ghost use Rattle.std.specs.declared.ops.Range.{Range};
    ghost use Rattle.std.specs.Slice.Iter.{iter_rest};

    ghost Value = { List (Range ℕ) };

    ghost view = { λ i. iter_rest i.runs };
}

impl<'a> Iterator for Iter<'a> {
    type Item = Range<u64>;

    ghost next_gives = { YieldsFirst (λ i. i) };

    ghost remaining = { item_count (λ i. i) };

    fn next(&mut self) -> Option<Range<u64>> {
        let first = self.runs.next()?;
        Some(first.start..first.end)
    }
}

impl<'a> DoubleEndedIterator for Iter<'a> {
    ghost next_back_gives = { YieldsLast (λ i. i) };

    fn next_back(&mut self) -> Option<Range<u64>> {
        let last = self.runs.next_back()?;
        Some(last.start..last.end)
    }
}

/// The numbers of a set, ascending, from both ends.
#[derive(Drop)]
pub struct EltIter<'a> {
    // The remaining parts of the run that `next` reads, and of the one that `next_back` reads.
    front: Range<u64>,
    runs: Iter<'a>,
    back: Range<u64>,
}

impl<'a> EltIter<'a> {
    // The numbers of the runs in a slice.
    pub(crate) fn of(runs: &'a [Range<u64>]) -> Self
        requires { IsMaximalRuns runs.now }
        ensures { result ≡ numbers_of runs.now }
    {
        EltIter {
            front: 0..0,
            runs: Iter::of(runs),
            back: 0..0,
        }
    }
}

impl<'a> Model for EltIter<'a> {
    ghost use Rattle.std.specs.Prelude.{ℕ, List, ◌++◌};
    ghost use Rattle.quic_ranges.specs.Numbers.{numbers, numbers_of, AreNonempty};

    ghost Value = { List ℕ };

    ghost view = { λ i. numbers i.front ++ (numbers_of i.runs ++ numbers i.back) };

    ghost invariant = { λ i. AreNonempty i.runs };
}

impl<'a> Iterator for EltIter<'a> {
    type Item = u64;

    ghost next_gives = { YieldsFirst (λ i. i) };

    ghost remaining = { item_count (λ i. i) };

    fn next(&mut self) -> Option<u64> {
        if self.front.start < self.front.end {
            let x = self.front.start;
            self.front.start = x + 1;
            return Some(x);
        }
        if let Some(run) = self.runs.next() {
            self.front = run.start + 1..run.end;
            return Some(run.start);
        }
        if self.back.start < self.back.end {
            let x = self.back.start;
            self.back.start = x + 1;
            return Some(x);
        }
        None
    }
}

impl<'a> DoubleEndedIterator for EltIter<'a> {
    ghost next_back_gives = { YieldsLast (λ i. i) };

    fn next_back(&mut self) -> Option<u64> {
        if self.back.start < self.back.end {
            self.back.end -= 1;
            return Some(self.back.end);
        }
        if let Some(run) = self.runs.next_back() {
            let x = run.end - 1;
            self.back = run.start..x;
            return Some(x);
        }
        if self.front.start < self.front.end {
            self.front.end -= 1;
            return Some(self.front.end);
        }
        None
    }
}
