//! Sets after a failed allocation: each is as its contract promises, and the same call then succeeds.
use super::shared::{
    Call, gives_replaced, made, made_in_array, on_a_set, on_an_array, on_two_arrays, on_two_sets,
};
use quic_base::coding::NoRoom;
use quic_checks::Checks;
use quic_ranges::range_set::{ArrayRangeSet, RangeSet, Replace};
use std::ops::Range;
use std::test::Fail;

// Enough runs for both sets to grow several times.
const COUNT: u64 = 40;

// Where the solid range ends that removals cut into runs.
const END: u64 = 10 * COUNT + 5;

// The runs of the tests, and the gaps between them.
fn run(index: u64) -> Range<u64> {
    let start = (index % 1000) * 10;
    start..start + 5
}

fn gap(index: u64) -> Range<u64> {
    let start = (index % 1000) * 10;
    start + 5..start + 10
}

// Calls again if an allocation failed, after checking the set.
macro_rules! twice {
    ($checks:ident, $call:expr, $is_kept:expr) => {
        match $call {
            Ok(answer) => answer,
            Err(NoRoom) => {
                $checks.holds_at("after the refusal", $is_kept);
                $call?
            }
        }
    };
}

// Whether the set has only the first runs.
fn set_has(set: &RangeSet, count: u64) -> bool {
    let mut rest = set.iter();
    for index in 0..count {
        if rest.next() != Some(run(index)) {
            return false;
        }
    }
    rest.next().is_none()
}

fn array_has(set: &ArrayRangeSet, count: u64) -> bool {
    let mut rest = set.iter();
    for index in 0..count {
        if rest.next() != Some(run(index)) {
            return false;
        }
    }
    rest.next().is_none()
}

// Whether the set has the first runs, and after them the rest of the solid range.
fn set_is_cut(set: &RangeSet, count: u64) -> bool {
    let mut rest = set.iter();
    for index in 0..count {
        if rest.next() != Some(run(index)) {
            return false;
        }
    }
    rest.next() == Some(run(count).start..END) && rest.next().is_none()
}

fn array_is_cut(set: &ArrayRangeSet, count: u64) -> bool {
    let mut rest = set.iter();
    for index in 0..count {
        if rest.next() != Some(run(index)) {
            return false;
        }
    }
    rest.next() == Some(run(count).start..END) && rest.next().is_none()
}

// Whether the set has only the first even numbers.
fn set_has_even(set: &RangeSet, count: u64) -> bool {
    let mut rest = set.elts();
    for index in 0..count {
        if rest.next() != Some(index % 1000 * 2) {
            return false;
        }
    }
    rest.next().is_none()
}

fn array_has_even(set: &ArrayRangeSet, count: u64) -> bool {
    let mut rest = set.elts();
    for index in 0..count {
        if rest.next() != Some(index % 1000 * 2) {
            return false;
        }
    }
    rest.next().is_none()
}

// Whether the set is what some beginning of the other's runs leaves.
fn is_begun_sum(set: &RangeSet) -> bool {
    (0..COUNT + 1).any(|count| set_has(set, count))
}

fn is_begun_difference(set: &RangeSet) -> bool {
    (0..COUNT + 1).any(|count| set_is_cut(set, count))
}

// Inserts the first runs, one after the other.
fn fill(checks: &mut Checks, set: &mut RangeSet) -> Result<(), NoRoom> {
    for index in 0..COUNT {
        let changed = twice!(checks, set.insert(run(index)), set_has(set, index));
        checks.holds(changed && set_has(set, index + 1));
    }
    Ok(())
}

fn fill_array(checks: &mut Checks, set: &mut ArrayRangeSet) -> Result<(), NoRoom> {
    for index in 0..COUNT {
        let changed = twice!(checks, set.insert(run(index)), array_has(set, index));
        checks.holds(changed && array_has(set, index + 1));
    }
    Ok(())
}

// Inserts the gaps between them.
fn fill_gaps(checks: &mut Checks, set: &mut RangeSet) -> Result<(), NoRoom> {
    for index in 0..COUNT {
        let _ = twice!(checks, set.insert(gap(index)), set.len() as u64 == index);
    }
    Ok(())
}

fn fill_gaps_in_array(checks: &mut Checks, set: &mut ArrayRangeSet) -> Result<(), NoRoom> {
    for index in 0..COUNT {
        let _ = twice!(checks, set.insert(gap(index)), set.len() as u64 == index);
    }
    Ok(())
}

#[test]
fn refused_insertions(rt: HostRuntime) -> Result<(), Fail> {
    on_a_set(rt.alloc(), fill)?;
    on_an_array(rt.alloc(), fill_array)
}

// Inserts even numbers, one after the other.
fn fill_even(checks: &mut Checks, set: &mut RangeSet) -> Result<(), NoRoom> {
    for index in 0..COUNT {
        let changed = twice!(checks, set.insert_one(2 * index), set_has_even(set, index));
        checks.holds(changed && set_has_even(set, index + 1));
    }
    Ok(())
}

fn fill_even_in_array(checks: &mut Checks, set: &mut ArrayRangeSet) -> Result<(), NoRoom> {
    for index in 0..COUNT {
        let changed = twice!(
            checks,
            set.insert_one(2 * index),
            array_has_even(set, index)
        );
        checks.holds(changed && array_has_even(set, index + 1));
    }
    Ok(())
}

#[test]
fn refused_single_insertions(rt: HostRuntime) -> Result<(), Fail> {
    on_a_set(rt.alloc(), fill_even)?;
    on_an_array(rt.alloc(), fill_even_in_array)
}

// Inserts the solid range.
fn make_solid(checks: &mut Checks, set: &mut RangeSet) -> Result<(), NoRoom> {
    let changed = twice!(checks, set.insert(0..END), set.is_empty());
    checks.holds(changed);
    Ok(())
}

fn make_solid_array(checks: &mut Checks, set: &mut ArrayRangeSet) -> Result<(), NoRoom> {
    let changed = twice!(checks, set.insert(0..END), set.is_empty());
    checks.holds(changed);
    Ok(())
}

// Removes the gaps from the solid range, one after the other.
fn cut(checks: &mut Checks, set: &mut RangeSet) -> Result<(), NoRoom> {
    make_solid(checks, set)?;
    for index in 0..COUNT {
        let changed = twice!(checks, set.remove(gap(index)), set_is_cut(set, index));
        checks.holds(changed && set_is_cut(set, index + 1));
    }
    Ok(())
}

fn cut_array(checks: &mut Checks, set: &mut ArrayRangeSet) -> Result<(), NoRoom> {
    make_solid_array(checks, set)?;
    for index in 0..COUNT {
        let changed = twice!(checks, set.remove(gap(index)), array_is_cut(set, index));
        checks.holds(changed && array_is_cut(set, index + 1));
    }
    Ok(())
}

#[test]
fn refused_removals(rt: HostRuntime) -> Result<(), Fail> {
    on_a_set(rt.alloc(), cut)?;
    on_an_array(rt.alloc(), cut_array)
}

// Inserts the first runs with `replace`. Without a piece, only the set grows.
fn replace_nothing(checks: &mut Checks, set: &mut RangeSet) -> Result<(), NoRoom> {
    for index in 0..COUNT {
        let call = set.replace(run(index)).map(|_| ());
        if call.is_err() {
            checks.holds_at("after the refusal", set_has(set, index));
            let _ = set.replace(run(index))?;
        }
        checks.holds(set_has(set, index + 1));
    }
    Ok(())
}

// Whether the first runs are returned, and no more.
fn gives_runs(pieces: Replace<'_>) -> bool {
    let mut rest = pieces;
    for index in 0..COUNT {
        if rest.next() != Some(run(index)) {
            return false;
        }
    }
    rest.next().is_none()
}

fn replaces_runs(set: &mut RangeSet) -> bool {
    match set.replace(0..END) {
        Ok(pieces) => gives_runs(pieces),
        Err(NoRoom) => false,
    }
}

fn is_solid(set: &RangeSet) -> bool {
    set.iter().next() == Some(0..END) && set.len() == 1
}

// Inserts the solid range with `replace` after that. With many pieces, their list grows.
fn replace_all(checks: &mut Checks, set: &mut RangeSet) -> Result<(), NoRoom> {
    replace_nothing(checks, set)?;
    if set.replace(0..END).is_err() {
        checks.holds_at("after the refusal", set_has(set, COUNT));
        checks.holds(replaces_runs(set));
    }
    checks.holds(is_solid(set));
    Ok(())
}

#[test]
fn refused_replacements(rt: HostRuntime) -> Result<(), Fail> {
    on_a_set(rt.alloc(), replace_all)
}

fn add(checks: &mut Checks, set: &mut RangeSet, other: &mut RangeSet) -> Result<(), NoRoom> {
    fill(checks, other)?;
    twice!(checks, set.add(other), is_begun_sum(set));
    checks.holds(set_has(set, COUNT) && set_has(other, COUNT));
    Ok(())
}

#[test]
fn refused_additions(rt: HostRuntime) -> Result<(), Fail> {
    on_two_sets(rt.alloc(), add)
}

fn subtract(checks: &mut Checks, set: &mut RangeSet, other: &mut RangeSet) -> Result<(), NoRoom> {
    fill_gaps(checks, other)?;
    make_solid(checks, set)?;
    twice!(checks, set.subtract(other), is_begun_difference(set));
    checks.holds(set_is_cut(set, COUNT));
    Ok(())
}

#[test]
fn refused_vec_subtractions(rt: HostRuntime) -> Result<(), Fail> {
    on_two_sets(rt.alloc(), subtract)
}

fn subtract_array(
    checks: &mut Checks,
    set: &mut ArrayRangeSet,
    other: &mut ArrayRangeSet,
) -> Result<(), NoRoom> {
    fill_gaps_in_array(checks, other)?;
    make_solid_array(checks, set)?;
    twice!(checks, set.subtract(other), array_is_cut(set, 0));
    checks.holds(array_is_cut(set, COUNT));
    Ok(())
}

#[test]
fn refused_array_subtractions(rt: HostRuntime) -> Result<(), Fail> {
    on_two_arrays(rt.alloc(), subtract_array)
}

// Whether a copy, if it can be allocated, has the first runs.
fn copy_has(set: &RangeSet, count: u64) -> Result<bool, NoRoom> {
    Ok(set_has(&set.try_clone()?, count))
}

fn array_copy_has(set: &ArrayRangeSet, count: u64) -> Result<bool, NoRoom> {
    Ok(array_has(&set.try_clone()?, count))
}

fn clone(checks: &mut Checks, set: &mut RangeSet) -> Result<(), NoRoom> {
    fill(checks, set)?;
    let is_same = twice!(checks, copy_has(set, COUNT), set_has(set, COUNT));
    checks.holds(is_same && set_has(set, COUNT));
    Ok(())
}

fn clone_array(checks: &mut Checks, set: &mut ArrayRangeSet) -> Result<(), NoRoom> {
    fill_array(checks, set)?;
    let is_same = twice!(checks, array_copy_has(set, COUNT), array_has(set, COUNT));
    checks.holds(is_same && array_has(set, COUNT));
    Ok(())
}

#[test]
fn refused_clones(rt: HostRuntime) -> Result<(), Fail> {
    on_a_set(rt.alloc(), clone)?;
    on_an_array(rt.alloc(), clone_array)
}

// Makes calls that don't allocate, and checks whether they change the set.
fn change(checks: &mut Checks, set: &mut RangeSet, calls: &[(Call, bool)]) {
    for &(call, changes) in calls {
        checks.holds(made(set, call) == Ok(changes));
    }
}

fn change_array(checks: &mut Checks, set: &mut ArrayRangeSet, calls: &[(Call, bool)]) {
    for &(call, changes) in calls {
        checks.holds(made_in_array(set, call) == Ok(changes));
    }
}

// No call here allocates, so each returns Ok whichever allocation fails.
const AT_FIRST: &[(Call, bool)] = &[(Call::Insert(0, 100), true), (Call::Insert(200, 210), true)];

const TAKEN: &[(Call, bool)] = &[(Call::Insert(50, 60), true), (Call::Insert(150, 300), true)];

const IN_THE_END: &[(Call, bool)] = &[(Call::Remove(0, 5), true), (Call::InsertOne(60), false)];

fn subtract_at_two_runs(
    checks: &mut Checks,
    set: &mut ArrayRangeSet,
    other: &mut ArrayRangeSet,
) -> Result<(), NoRoom> {
    change_array(checks, set, AT_FIRST);
    change_array(checks, other, TAKEN);
    set.subtract(other)?;
    checks.holds(set.len() == 2 && set.try_clone().is_ok());
    change_array(checks, set, IN_THE_END);
    Ok(())
}

#[test]
fn refused_nothing_at_two_runs(rt: HostRuntime) -> Result<(), Fail> {
    on_two_arrays(rt.alloc(), subtract_at_two_runs)
}

// Nor does one of these on the set of the first runs, which has no more runs after it.
const NO_MORE_RUNS: &[(Call, bool)] = &[
    (Call::InsertOne(5), true),
    (Call::Insert(6, 10), true),
    (Call::Insert(12, 13), false),
    (Call::InsertOne(12), false),
    (Call::Insert(395, END), true),
    (Call::Insert(3, 21), true),
    (Call::Remove(0, 2), true),
    (Call::Remove(24, 34), true),
    (Call::Remove(26, 28), false),
    (Call::Remove(40, 45), true),
];

fn change_runs(checks: &mut Checks, set: &mut RangeSet) -> Result<(), NoRoom> {
    fill(checks, set)?;
    change(checks, set, NO_MORE_RUNS);
    checks.holds(set.peek_min() == Some(2..24) && set.max() == Some(END - 1));
    checks.holds(set.len() as u64 == COUNT - 3);
    Ok(())
}

#[test]
fn refused_nothing_where_runs_grow_no_more(rt: HostRuntime) -> Result<(), Fail> {
    on_a_set(rt.alloc(), change_runs)
}

// Ranges that touch a run of that set, or two, and meet none: `replace` has nothing to return, and no more runs are
// left.
const TOUCHING: &[(u64, u64)] = &[(5, 7), (19, 20), (35, 40), (395, END)];

fn replace_what_touches(checks: &mut Checks, set: &mut RangeSet) -> Result<(), NoRoom> {
    fill(checks, set)?;
    for &(start, end) in TOUCHING {
        checks.holds_at(start, gives_replaced(set, start..end, &[]));
    }
    checks.holds(set.peek_min() == Some(0..7) && set.max() == Some(END - 1));
    checks.holds(set.len() as u64 == COUNT - 1);
    Ok(())
}

#[test]
fn refused_nothing_where_ranges_touch(rt: HostRuntime) -> Result<(), Fail> {
    on_a_set(rt.alloc(), replace_what_touches)
}

// The runs of a set that slides, and from which step on it doesn't grow.
const WIDTH: u64 = 8;

const STEADY: u64 = 50;

// Appends a run, and removes the first if there are more than eight. What it returns is the run of that step.
fn slide(checks: &mut Checks, set: &mut RangeSet) -> Result<(), NoRoom> {
    for index in 0..5000 {
        let start = 2 * index;
        match set.insert_one(start) {
            Ok(changed) => checks.holds(changed),
            Err(NoRoom) => {
                checks.holds_at(start, index < STEADY);
                let _ = set.insert_one(start)?;
            }
        }
        if index >= WIDTH {
            let first = 2 * (index - WIDTH);
            checks.holds_at(start, set.pop_min() == Some(first..first + 1));
        }
    }
    checks.holds(set.len() as u64 == WIDTH);
    Ok(())
}

// The room of removed runs is used again, so the set allocates only a few times, while it gets its eight runs.
#[test]
fn refused_nothing_while_a_set_slides(rt: HostRuntime) -> Result<(), Fail> {
    on_a_set(rt.alloc(), slide)
}
