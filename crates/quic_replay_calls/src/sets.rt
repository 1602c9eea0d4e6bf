//! Scripts of calls on both sets. A script begins at `new`; a call is what is called and its numbers. The last number
//! of `replace` is how many of the returned ranges are read; the letters of `iter` and `elts` read the next run or
//! member from the front (`F`) or the back (`B`).
mod answers;
mod printing;
mod set_calls;

use answers::{answer, follow, of_range_set_alone};
use quic_ranges::range_set::{ArrayRangeSet, RangeSet};
use set_calls::SetCalls;
use std::alloc::{AllocError, Global};
use std::test::Fail;

// Most functions here borrow the sets, and the text that they fill, so that an early return has nothing to
// drop. A text is empty before.

// Writes what each call returns on either set, and the runs of the set after it.
pub(crate) fn replay(rt: &HostRuntime, lines: &str) -> Result<(), Fail> {
    let mut set = RangeSet::new(rt.alloc());
    let mut array = ArrayRangeSet::new(rt.alloc());
    replay_on(rt, &mut set, &mut array, lines)
}

fn replay_on(
    rt: &HostRuntime,
    set: &mut RangeSet,
    array: &mut ArrayRangeSet,
    lines: &str,
) -> Result<(), Fail> {
    for line in lines.lines() {
        if line == "new" {
            begin(rt, set, array)?;
        } else {
            replay_call(rt, set, array, line)?;
        }
    }
    Ok(())
}

// Empties both sets.
fn begin(rt: &HostRuntime, set: &mut RangeSet, array: &mut ArrayRangeSet) -> Result<(), Fail> {
    *set = RangeSet::new(rt.alloc());
    *array = ArrayRangeSet::new(rt.alloc());
    println!(rt; "btree new | none")?;
    println!(rt; "array new | none")?;
    Ok(())
}

fn replay_call(
    rt: &HostRuntime,
    set: &mut RangeSet,
    array: &mut ArrayRangeSet,
    call: &str,
) -> Result<(), Fail> {
    let words: Vec<&str> = call.split(" ").collect(rt.alloc())?;
    replay_words(rt, set, array, words.as_slice())
}

fn replay_words(
    rt: &HostRuntime,
    set: &mut RangeSet,
    array: &mut ArrayRangeSet,
    words: &[&str],
) -> Result<(), Fail> {
    let [name, words @ ..] = words else {
        return Err(Fail::new("a call is missing"));
    };
    let mut numbers = Vec::new(rt.alloc());
    push_numbers(&mut numbers, words)?;
    replay_on_set(rt, set, name, words, numbers.as_slice())?;
    replay_on_array(rt, array, name, words, numbers.as_slice())
}

fn replay_on_set(
    rt: &HostRuntime,
    set: &mut RangeSet,
    name: &str,
    words: &[&str],
    numbers: &[u64],
) -> Result<(), Fail> {
    let mut text = String::new(rt.alloc());
    answer_of_set(&mut text, rt.alloc(), set, name, words, numbers)?;
    print_answer(rt, "btree", text.as_str(), set)
}

fn replay_on_array(
    rt: &HostRuntime,
    array: &mut ArrayRangeSet,
    name: &str,
    words: &[&str],
    numbers: &[u64],
) -> Result<(), Fail> {
    let mut text = String::new(rt.alloc());
    answer_of_array(&mut text, rt.alloc(), array, name, words, numbers)?;
    print_answer(rt, "array", text.as_str(), array)
}

fn print_answer<S: SetCalls>(
    rt: &HostRuntime,
    kind: &str,
    answer: &str,
    set: &S,
) -> Result<(), Fail> {
    let mut runs = String::new(rt.alloc());
    set.all_runs(&mut runs)?;
    println!(rt; "{kind} {answer} | {runs}")?;
    Ok(())
}
// The words that are numbers.
fn push_numbers(numbers: &mut Vec<u64>, words: &[&str]) -> Result<(), AllocError> {
    for word in words {
        if let Ok(number) = word.parse::<u64>() {
            numbers.push(number)?;
        }
    }
    Ok(())
}

fn answer_of_set(
    text: &mut String,
    alloc: Global,
    set: &mut RangeSet,
    name: &str,
    words: &[&str],
    numbers: &[u64],
) -> Result<(), Fail> {
    if answer(text, alloc, set, name, words, numbers)? {
        return Ok(());
    }
    of_range_set_alone(text, alloc, set, name, words, numbers)
}

// The array set has `-` for a call that it lacks.
fn answer_of_array(
    text: &mut String,
    alloc: Global,
    array: &mut ArrayRangeSet,
    name: &str,
    words: &[&str],
    numbers: &[u64],
) -> Result<(), Fail> {
    if answer(text, alloc, array, name, words, numbers)? {
        return Ok(());
    }
    follow(array, name, numbers)?;
    Ok(text.push_str("-")?)
}
