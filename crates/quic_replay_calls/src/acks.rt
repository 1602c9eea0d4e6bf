//! ACKs that are written: `DELAY A..B,C..D`, optionally followed by the three ECN counts.
ghost use Rattle.std.specs.Prelude.{IsTrue};
ghost use Rattle.std.specs.Option.{option_copied};
ghost use Rattle.quic_frames.specs.InRange.{AreCounts};

use crate::words::print_digits;
use quic_frames::frame::{Ack, EcnCounts};
use quic_ranges::range_set::ArrayRangeSet;
use std::alloc::Global;
use std::test::Fail;

// Most functions here borrow the set and the bytes that they fill, so that an early return has nothing to drop.

// Writes the bytes of a line's ACK.
pub(crate) fn replay(rt: &HostRuntime, line: &str) -> Result<(), Fail> {
    let mut out = Vec::new(rt.alloc());
    write_line(&mut out, rt.alloc(), line)?;
    print_digits(rt, out.as_slice())
}

fn insert_run(set: &mut ArrayRangeSet, run: &str) -> Result<(), Fail> {
    let Some((start, end)) = run.split_once("..") else {
        return Err("a run".into());
    };
    set.insert(start.parse()?..end.parse()?)?;
    Ok(())
}

fn insert_runs(set: &mut ArrayRangeSet, runs: &str) -> Result<(), Fail> {
    for run in runs.split(",") {
        insert_run(set, run)?;
    }
    Ok(())
}

fn are_small(counts: Option<&EcnCounts>) -> bool
    ensures { IsTrue result → AreCounts (option_copied counts.entry) }
{
    match counts {
        None => true,
        Some(counts) => counts.ect0 < 1 << 62 && counts.ect1 < 1 << 62 && counts.ce < 1 << 62,
    }
}

fn write_ack(
    out: &mut Vec<u8>,
    delay: u64,
    set: &ArrayRangeSet,
    counts: Option<&EcnCounts>,
) -> Result<(), Fail> {
    let Some(greatest) = set.max() else {
        return Err("a number".into());
    };
    if greatest >= 1 << 62 || delay >= 1 << 62 || !are_small(counts) {
        return Err("a smaller number".into());
    }
    Ack::encode(delay, set, counts, out)?;
    Ok(())
}

// The ACK for the words of a line. The set is empty before.
fn write_runs(
    out: &mut Vec<u8>,
    set: &mut ArrayRangeSet,
    delay: &str,
    runs: &str,
    counts: Option<&EcnCounts>,
) -> Result<(), Fail> {
    insert_runs(set, runs)?;
    write_ack(out, delay.parse()?, set, counts)
}

fn counts_of(words: [&str; 3]) -> Result<EcnCounts, Fail> {
    let [ect0, ect1, ce] = words;
    Ok(EcnCounts {
        ect0: ect0.parse()?,
        ect1: ect1.parse()?,
        ce: ce.parse()?,
    })
}

fn write_runs_and_counts(
    out: &mut Vec<u8>,
    set: &mut ArrayRangeSet,
    delay: &str,
    runs: &str,
    counts: [&str; 3],
) -> Result<(), Fail> {
    let counts = counts_of(counts)?;
    write_runs(out, set, delay, runs, Some(&counts))
}

fn write_words(out: &mut Vec<u8>, set: &mut ArrayRangeSet, words: &[&str]) -> Result<(), Fail> {
    match words {
        [delay, runs] => write_runs(out, set, delay, runs, None),
        [delay, runs, ect0, ect1, ce] => {
            write_runs_and_counts(out, set, delay, runs, [ect0, ect1, ce])
        }
        _ => Err("an ACK".into()),
    }
}

fn write_line(out: &mut Vec<u8>, alloc: Global, line: &str) -> Result<(), Fail> {
    let words: Vec<&str> = line.split(" ").collect(alloc)?;
    write_words(out, &mut ArrayRangeSet::new(alloc), words.as_slice())
}
