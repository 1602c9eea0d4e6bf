//! Runs in a vector, from which the first can be removed without moving the others.
ghost use Rattle.std.specs.Prelude.{◌≡◌, [], ◌∷◌, ◌++◌, ◌+◌, ◌≤◌, ◌<◌, length, IfSome, IfNone, IfOk, OnOk, OnErr};
ghost use Rattle.std.specs.declared.ops.Range.{Range};
ghost use Rattle.quic_ranges.specs.Runs.{IsMaximalRuns};
ghost use Rattle.quic_ranges.specs.Splices.{Extends, Fits, after_splice};

use crate::range_set::sorted_runs::{self, Extension, Splice};
use quic_base::coding::NoRoom;
use std::alloc::Global;
use std::marker::Model;
use std::ops::Range;

// Runs, from whose front some were removed. The slots of those are freed together, once they are more than half of all,
// so that a run is moved at most once for each one that is removed.
#[derive(Drop)]
pub(crate) struct RunVec {
    items: Vec<Range<u64>>,
    taken: usize,
}

impl Model for RunVec {
    ghost use Rattle.std.specs.Prelude.{ℕ, List, ◌≤◌, drop, length};
    ghost use Rattle.std.specs.declared.ops.Range.{Range};

    ghost Value = { List (Range ℕ) };

    ghost view = { λ v. drop v.taken v.items.items };

    ghost invariant = { λ v. v.taken ≤ length v.items.items };
}

impl RunVec {
    // No runs.
    pub(crate) fn new(alloc: Global) -> Self
        ensures { result ≡ [] }
    {
        RunVec {
            items: Vec::new(alloc),
            taken: 0,
        }
    }

    // No runs, with room for `count`.
    pub(crate) fn with_capacity(alloc: Global, count: usize) -> Result<Self, NoRoom>
        ensures { IfOk result (λ empty. empty ≡ []) }
    {
        Ok(RunVec {
            items: Vec::with_capacity(alloc, count)?,
            taken: 0,
        })
    }

    pub(crate) fn as_slice(&self) -> &[Range<u64>]
        ensures { result.now ≡ self.now }
    {
        &self.items[self.taken..]
    }

    // The same runs.
    pub(crate) fn try_clone(&self) -> Result<Self, NoRoom>
        ensures { IfOk result (λ copy. copy ≡ self.now) }
    {
        let runs = self.as_slice();
        let mut items = Vec::with_capacity(*self.items.allocator(), runs.len())?;
        for run in runs {
            items.push_reserved(run.start..run.end);
        }
        Ok(RunVec { items, taken: 0 })
    }

    // Extends the last run by `x` if `x` begins in it or at its end.
    pub(crate) fn extend_last(&mut self, x: &Range<u64>) -> Extension
        requires { IsMaximalRuns self.old }
        ensures { Extends result self.old x.now self.new }
    {
        sorted_runs::extend_last(&mut self.items[self.taken..], x)
    }

    // Appends a run.
    pub(crate) fn push(&mut self, run: Range<u64>) -> Result<(), NoRoom>
        ensures ok { OnOk result (self.new ≡ self.old ++ run ∷ []) }
        ensures err { OnErr result (self.new ≡ self.old) }
    {
        self.items.push(run).map_err(|_| NoRoom)
    }

    // Applies a change to the runs. It allocates only if it adds a run, before anything changes.
    pub(crate) fn apply(&mut self, change: Splice) -> Result<(), NoRoom>
        requires { Fits self.old change }
        ensures ok { OnOk result (self.new ≡ after_splice self.old change) }
        ensures err { OnErr result (self.new ≡ self.old) }
        ensures more_runs { OnErr result (length (after_splice self.old change) ≡ length self.old + 1) }
    {
        let Splice { from, to, by } = change;
        let (from, to) = (self.taken + from, self.taken + to);
        let (less, more) = (to - from, by.len());
        if less < more {
            let at = sorted_runs::place(self.items.as_slice(), to);
            self.items.insert(at, 0..0).map_err(|_| NoRoom)?;
        } else if more < less {
            self.items.drain(from + more..to);
        }
        by.write(self.items.as_mut_slice(), from);
        Ok(())
    }

    // Removes the first run and returns it, or `None` if there is none.
    pub(crate) fn pop_first(&mut self) -> Option<Range<u64>>
        ensures some { IfSome result (λ run. self.old ≡ run ∷ self.new) }
        ensures none { IfNone result (self.old ≡ []) }
        ensures unchanged { IfNone result (self.new ≡ self.old) }
    {
        let first = self.items.get(self.taken)?;
        let first = first.start..first.end;
        self.taken += 1;
        if self.taken > self.items.len() / 2 {
            self.items.drain(..self.taken);
            self.taken = 0;
        }
        Some(first)
    }
}
