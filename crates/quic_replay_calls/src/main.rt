//! Replays stored lists of single calls, and writes what the library returns. The lists are in `data/`, a call on each
//! line. `stdout` is the expected output, one list after another: what quinn-proto 0.11.19 returned for the same calls.
//! The gate compares it. The calls are seeded random ones, at every width and at the bounds of numbers.
#![tactic(auto)]

mod acks;
mod closes;
mod frames;
mod numbers;
mod sets;
mod texts;
mod words;

use std::fs;
use std::test::Fail;

// What the lines of a list hold.
#[derive(Clone, Copy)]
enum Kind {
    Acks,
    Closes,
    Frames,
    NumbersRead,
    NumbersWritten,
    Texts,
}

// The lists whose lines are replayed one by one.
const LISTS: [(&str, Kind); 6] = [
    ("ack-encode.in", Kind::Acks),
    ("close-encode.in", Kind::Closes),
    ("frame-encode.in", Kind::Frames),
    ("varint.in", Kind::NumbersRead),
    ("varint-encode.in", Kind::NumbersWritten),
    ("text.in", Kind::Texts),
];

fn main(rt: HostRuntime) -> Result<(), Fail> {
    replay_all(&rt)
}

fn replay_all(rt: &HostRuntime) -> Result<(), Fail> {
    replay_sets(rt)?;
    for (file, kind) in LISTS {
        replay_list(rt, file, kind)?;
    }
    Ok(())
}

fn replay_sets(rt: &HostRuntime) -> Result<(), Fail> {
    let lines = fs::read_to_string(rt, "ranges.in")?;
    sets::replay(rt, lines.as_str())
}

fn replay_list(rt: &HostRuntime, file: &str, kind: Kind) -> Result<(), Fail> {
    let lines = fs::read_to_string(rt, file)?;
    for line in lines.as_str().lines() {
        replay_line(rt, kind, line)?;
    }
    Ok(())
}

fn replay_line(rt: &HostRuntime, kind: Kind, line: &str) -> Result<(), Fail> {
    match kind {
        Kind::Acks => acks::replay(rt, line),
        Kind::Closes => closes::replay(rt, line),
        Kind::Frames => frames::replay(rt, line),
        Kind::NumbersRead => numbers::replay_reading(rt, line),
        Kind::NumbersWritten => numbers::replay_writing(rt, line),
        Kind::Texts => texts::replay(rt, line),
    }
}
