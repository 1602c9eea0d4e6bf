//! The result of each call, written to a text.
use super::printing::{or_none, push_flag, push_number, push_option_run, push_run, push_size};
use super::set_calls::SetCalls;
use quic_ranges::range_set::{ArrayRangeSet, RangeSet, Replace};
use std::alloc::{AllocError, Global};
use std::ops::Range;
use std::test::Fail;

fn first_number(numbers: &[u64]) -> Result<u64, Fail> {
    match numbers {
        [number, ..] => Ok(*number),
        [] => Err(Fail::new("a number is missing")),
    }
}

fn first_run(numbers: &[u64]) -> Result<Range<u64>, Fail> {
    match numbers {
        [start, end, ..] => Ok(*start..*end),
        _ => Err(Fail::new("a range is missing")),
    }
}

fn insert_runs<S: SetCalls>(set: &mut S, numbers: &[u64]) -> Result<(), Fail> {
    for pair in numbers.chunks_exact(2) {
        let _ = set.insert_run(first_run(pair)?)?;
    }
    Ok(())
}

fn insert<S: SetCalls>(text: &mut String, set: &mut S, numbers: &[u64]) -> Result<(), Fail> {
    let is_new = set.insert_run(first_run(numbers)?)?;
    Ok(push_flag(text, is_new)?)
}

fn insert_one<S: SetCalls>(text: &mut String, set: &mut S, numbers: &[u64]) -> Result<(), Fail> {
    let number = first_number(numbers)?;
    if number == u64::MAX {
        return Err(Fail::new("a number that is no member"));
    }
    let is_new = set.insert_number(number)?;
    Ok(push_flag(text, is_new)?)
}

fn remove<S: SetCalls>(text: &mut String, set: &mut S, numbers: &[u64]) -> Result<(), Fail> {
    let was_there = set.remove_run(first_run(numbers)?)?;
    Ok(push_flag(text, was_there)?)
}

fn subtract<S: SetCalls>(
    text: &mut String,
    set: &mut S,
    other: &mut S,
    numbers: &[u64],
) -> Result<(), Fail> {
    insert_runs(other, numbers)?;
    set.subtract_set(other)?;
    Ok(text.push_str("()")?)
}

fn pop_min<S: SetCalls>(text: &mut String, set: &mut S) -> Result<(), Fail> {
    Ok(push_option_run(text, set.pop())?)
}

// The result of a call that changes either set. For another call nothing is done, and it is `false`.
fn changed<S: SetCalls>(
    text: &mut String,
    alloc: Global,
    set: &mut S,
    name: &str,
    numbers: &[u64],
) -> Result<bool, Fail> {
    let done = match name {
        "insert" => insert(text, set, numbers),
        "insert_one" => insert_one(text, set, numbers),
        "remove" => remove(text, set, numbers),
        "subtract" => subtract(text, set, &mut S::empty(alloc), numbers),
        "pop_min" => pop_min(text, set),
        _ => return Ok(false),
    };
    done?;
    Ok(true)
}

// The result of a call that only reads either set and has no number; `false` for another call.
fn reported_alone<S: SetCalls>(text: &mut String, set: &S, name: &str) -> Result<bool, Fail> {
    let done = match name {
        "min" => push_number(text, set.ends().0),
        "max" => push_number(text, set.ends().1),
        "len" => push_size(text, set.size().0),
        "is_empty" => push_flag(text, set.size().1),
        "elts" => set.members(text),
        _ => return Ok(false),
    };
    done?;
    Ok(true)
}

// The same for a call with one more word.
fn reported_of<S: SetCalls>(
    text: &mut String,
    set: &S,
    name: &str,
    word: &str,
) -> Result<bool, Fail> {
    match name {
        "contains" => push_flag(text, set.has(word.parse()?))?,
        "iter" => set.runs_from(text, word)?,
        _ => return Ok(false),
    }
    Ok(true)
}

fn reported<S: SetCalls>(
    text: &mut String,
    set: &S,
    name: &str,
    words: &[&str],
) -> Result<bool, Fail> {
    match words {
        [] => reported_alone(text, set, name),
        [word] => reported_of(text, set, name, word),
        _ => Ok(false),
    }
}

// The result of a call that both sets have; `false` for another call.
pub(super) fn answer<S: SetCalls>(
    text: &mut String,
    alloc: Global,
    set: &mut S,
    name: &str,
    words: &[&str],
    numbers: &[u64],
) -> Result<bool, Fail> {
    if changed(text, alloc, set, name, numbers)? {
        return Ok(true);
    }
    reported(text, set, name, words)
}

// The ranges that `replace` returns, at most `limit`.
fn take(text: &mut String, pieces: &mut Replace<'_>, limit: u64) -> Result<(), AllocError> {
    for _ in 0..limit {
        let Some(piece) = pieces.next() else {
            break;
        };
        push_run(text, ", ", piece)?;
    }
    or_none(text)
}

// A third number is how many ranges are read.
fn replace(text: &mut String, set: &mut RangeSet, numbers: &[u64]) -> Result<(), Fail> {
    let limit = match numbers {
        [_, _, limit] => *limit,
        _ => u64::MAX,
    };
    let run = first_run(numbers)?;
    let mut pieces = set.replace(run)?;
    Ok(take(text, &mut pieces, limit)?)
}

fn add(
    text: &mut String,
    set: &mut RangeSet,
    other: &mut RangeSet,
    numbers: &[u64],
) -> Result<(), Fail> {
    insert_runs(other, numbers)?;
    set.add(other)?;
    Ok(text.push_str("()")?)
}

fn peek_min(text: &mut String, set: &RangeSet) -> Result<(), Fail> {
    Ok(push_option_run(text, set.peek_min())?)
}

// The members that `next` and `next_back` return, by the letters `F` and `B`.
fn members_from(text: &mut String, set: &RangeSet, ends: &str) -> Result<(), Fail> {
    let mut members = set.elts();
    for end in ends.chars() {
        let x = match end {
            'F' => members.next(),
            _ => members.next_back(),
        };
        push_number(text, x)?;
    }
    Ok(())
}

// The result of a call that only `RangeSet` has.
pub(super) fn of_range_set_alone(
    text: &mut String,
    alloc: Global,
    set: &mut RangeSet,
    name: &str,
    words: &[&str],
    numbers: &[u64],
) -> Result<(), Fail> {
    match (name, words) {
        ("replace", _) => replace(text, set, numbers),
        ("add", _) => add(text, set, &mut RangeSet::new(alloc), numbers),
        ("peek_min", _) => peek_min(text, set),
        ("elts", [ends]) => members_from(text, set, ends),
        _ => Err(Fail::new("an unknown call")),
    }
}

// Applies a call that the array set lacks to that set too.
pub(super) fn follow(set: &mut ArrayRangeSet, name: &str, numbers: &[u64]) -> Result<(), Fail> {
    match name {
        "replace" => {
            let _ = set.insert_run(first_run(numbers)?)?;
            Ok(())
        }
        "add" => insert_runs(set, numbers),
        _ => Ok(()),
    }
}
