//! What the tests of sets share.
//!
//! Helpers borrow their sets and return whether every fact held, `false` if an allocation fails, so that no test
//! returns early while it owns a set.
use quic_base::coding::NoRoom;
use quic_checks::Checks;
use quic_ranges::range_set::{ArrayRangeSet, RangeSet, Replace};
use std::alloc::Global;
use std::ops::Range;
use std::test::Fail;

pub(super) type Runs = &'static [(u64, u64)];

// A call that changes a set.
#[derive(Clone, Copy)]
pub(super) enum Call {
    Insert(u64, u64),
    InsertOne(u32),
    InsertGreatest,
    Remove(u64, u64),
}

// Makes the call, and returns whether it changes the set.
pub(super) fn made(set: &mut RangeSet, call: Call) -> Result<bool, NoRoom> {
    match call {
        Call::Insert(start, end) => set.insert(start..end),
        Call::InsertOne(x) => set.insert_one(x.into()),
        Call::InsertGreatest => set.insert_one(u64::MAX - 1),
        Call::Remove(start, end) => set.remove(start..end),
    }
}

pub(super) fn made_in_array(set: &mut ArrayRangeSet, call: Call) -> Result<bool, NoRoom> {
    match call {
        Call::Insert(start, end) => set.insert(start..end),
        Call::InsertOne(x) => set.insert_one(x.into()),
        Call::InsertGreatest => set.insert_one(u64::MAX - 1),
        Call::Remove(start, end) => set.remove(start..end),
    }
}

// Runs a check on a new set; it fails if an allocation fails.
pub(super) fn on_a_set<F: FnOnce(&mut Checks, &mut RangeSet) -> Result<(), NoRoom>>(
    alloc: Global,
    check: F,
) -> Result<(), Fail>
    requires { F.IsAlwaysCallable check }
{
    let mut checks = Checks::new(alloc);
    let checked = check(&mut checks, &mut RangeSet::new(alloc));
    checks.holds(checked.is_ok());
    checks.verdict()
}

pub(super) fn on_an_array<F: FnOnce(&mut Checks, &mut ArrayRangeSet) -> Result<(), NoRoom>>(
    alloc: Global,
    check: F,
) -> Result<(), Fail>
    requires { F.IsAlwaysCallable check }
{
    let mut checks = Checks::new(alloc);
    let checked = check(&mut checks, &mut ArrayRangeSet::new(alloc));
    checks.holds(checked.is_ok());
    checks.verdict()
}

// The same with two new sets.
pub(super) fn on_two_sets<
    F: FnOnce(&mut Checks, &mut RangeSet, &mut RangeSet) -> Result<(), NoRoom>,
>(alloc: Global, check: F) -> Result<(), Fail>
    requires { F.IsAlwaysCallable check }
{
    let mut checks = Checks::new(alloc);
    let mut set = RangeSet::new(alloc);
    let checked = check(&mut checks, &mut set, &mut RangeSet::new(alloc));
    checks.holds(checked.is_ok());
    checks.verdict()
}

pub(super) fn on_two_arrays<
    F: FnOnce(&mut Checks, &mut ArrayRangeSet, &mut ArrayRangeSet) -> Result<(), NoRoom>,
>(alloc: Global, check: F) -> Result<(), Fail>
    requires { F.IsAlwaysCallable check }
{
    let mut checks = Checks::new(alloc);
    let mut set = ArrayRangeSet::new(alloc);
    let checked = check(&mut checks, &mut set, &mut ArrayRangeSet::new(alloc));
    checks.holds(checked.is_ok());
    checks.verdict()
}

pub(super) fn insert_all(set: &mut RangeSet, ranges: &[(u64, u64)]) -> Result<(), NoRoom> {
    for &(start, end) in ranges {
        let _ = set.insert(start..end)?;
    }
    Ok(())
}

pub(super) fn insert_all_in_array(
    set: &mut ArrayRangeSet,
    ranges: &[(u64, u64)],
) -> Result<(), NoRoom> {
    for &(start, end) in ranges {
        let _ = set.insert(start..end)?;
    }
    Ok(())
}

// Whether the set has exactly these runs.
pub(super) fn set_is(set: &RangeSet, runs: &[(u64, u64)]) -> bool {
    let mut rest = set.iter();
    for &(start, end) in runs {
        if rest.next() != Some(start..end) {
            return false;
        }
    }
    rest.next().is_none() && set.len() == runs.len()
}

pub(super) fn array_is(set: &ArrayRangeSet, runs: &[(u64, u64)]) -> bool {
    let mut rest = set.iter();
    for &(start, end) in runs {
        if rest.next() != Some(start..end) {
            return false;
        }
    }
    rest.next().is_none() && set.len() == runs.len()
}

// Whether exactly these ranges are returned.
fn gives(pieces: Replace<'_>, want: &[(u64, u64)]) -> bool {
    let mut rest = pieces;
    for &(start, end) in want {
        if rest.next() != Some(start..end) {
            return false;
        }
    }
    rest.next().is_none()
}

pub(super) fn gives_replaced(set: &mut RangeSet, x: Range<u64>, pieces: Runs) -> bool {
    match set.replace(x) {
        Ok(given) => gives(given, pieces),
        Err(NoRoom) => false,
    }
}
