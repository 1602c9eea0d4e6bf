//! What scripts call on either set.
ghost use Rattle.std.specs.Prelude.{◌<◌, ◌-◌, ◌^◌};

use super::printing::{or_none, push_number, push_option_run, push_run};
use quic_base::coding::NoRoom;
use quic_ranges::range_set::{ArrayRangeSet, RangeSet};
use std::alloc::{AllocError, Global};
use std::ops::Range;

pub(super) trait SetCalls: Sized + Drop {
    fn empty(alloc: Global) -> Self;

    fn insert_run(&mut self, run: Range<u64>) -> Result<bool, NoRoom>;

    fn insert_number(&mut self, x: u64) -> Result<bool, NoRoom>
        requires { x < 2 ^ 64 - 1 };

    fn remove_run(&mut self, run: Range<u64>) -> Result<bool, NoRoom>;

    fn subtract_set(&mut self, other: &Self) -> Result<(), NoRoom>;

    fn pop(&mut self) -> Option<Range<u64>>;

    fn has(&self, x: u64) -> bool;

    // The least member and the greatest.
    fn ends(&self) -> (Option<u64>, Option<u64>);

    // How many runs, and whether there are none.
    fn size(&self) -> (usize, bool);

    // The first 64 members.
    fn members(&self, text: &mut String) -> Result<(), AllocError>;

    // The runs that `next` and `next_back` return, by the letters `F` and `B`.
    fn runs_from(&self, text: &mut String, ends: &str) -> Result<(), AllocError>;

    fn all_runs(&self, text: &mut String) -> Result<(), AllocError>;
}

impl SetCalls for RangeSet {
    fn empty(alloc: Global) -> RangeSet {
        RangeSet::new(alloc)
    }

    fn insert_run(&mut self, run: Range<u64>) -> Result<bool, NoRoom> {
        self.insert(run)
    }

    fn insert_number(&mut self, x: u64) -> Result<bool, NoRoom> {
        self.insert_one(x)
    }

    fn remove_run(&mut self, run: Range<u64>) -> Result<bool, NoRoom> {
        self.remove(run)
    }

    fn subtract_set(&mut self, other: &RangeSet) -> Result<(), NoRoom> {
        self.subtract(other)
    }

    fn pop(&mut self) -> Option<Range<u64>> {
        self.pop_min()
    }

    fn has(&self, x: u64) -> bool {
        self.contains(x)
    }

    fn ends(&self) -> (Option<u64>, Option<u64>) {
        (self.min(), self.max())
    }

    fn size(&self) -> (usize, bool) {
        (self.len(), self.is_empty())
    }

    fn members(&self, text: &mut String) -> Result<(), AllocError> {
        for x in self.elts().take(64) {
            push_number(text, Some(x))?;
        }
        or_none(text)
    }

    fn runs_from(&self, text: &mut String, ends: &str) -> Result<(), AllocError> {
        let mut runs = self.iter();
        for end in ends.chars() {
            let run = match end {
                'F' => runs.next(),
                _ => runs.next_back(),
            };
            push_option_run(text, run)?;
        }
        Ok(())
    }

    fn all_runs(&self, text: &mut String) -> Result<(), AllocError> {
        for run in self {
            push_run(text, ", ", run)?;
        }
        or_none(text)
    }
}

impl SetCalls for ArrayRangeSet {
    fn empty(alloc: Global) -> ArrayRangeSet {
        ArrayRangeSet::new(alloc)
    }

    fn insert_run(&mut self, run: Range<u64>) -> Result<bool, NoRoom> {
        self.insert(run)
    }

    fn insert_number(&mut self, x: u64) -> Result<bool, NoRoom> {
        self.insert_one(x)
    }

    fn remove_run(&mut self, run: Range<u64>) -> Result<bool, NoRoom> {
        self.remove(run)
    }

    fn subtract_set(&mut self, other: &ArrayRangeSet) -> Result<(), NoRoom> {
        self.subtract(other)
    }

    fn pop(&mut self) -> Option<Range<u64>> {
        self.pop_min()
    }

    fn has(&self, x: u64) -> bool {
        self.contains(x)
    }

    fn ends(&self) -> (Option<u64>, Option<u64>) {
        (self.min(), self.max())
    }

    fn size(&self) -> (usize, bool) {
        (self.len(), self.is_empty())
    }

    fn members(&self, text: &mut String) -> Result<(), AllocError> {
        for x in self.elts().take(64) {
            push_number(text, Some(x))?;
        }
        or_none(text)
    }

    fn runs_from(&self, text: &mut String, ends: &str) -> Result<(), AllocError> {
        let mut runs = self.iter();
        for end in ends.chars() {
            let run = match end {
                'F' => runs.next(),
                _ => runs.next_back(),
            };
            push_option_run(text, run)?;
        }
        Ok(())
    }

    fn all_runs(&self, text: &mut String) -> Result<(), AllocError> {
        for run in self.iter() {
            push_run(text, ", ", run)?;
        }
        or_none(text)
    }
}
