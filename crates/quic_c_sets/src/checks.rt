//! Whether entries are the runs of a set.
ghost use Rattle.std.specs.Prelude.{◌↔◌, IsTrue};
ghost use Rattle.quic_ranges.specs.Runs.{IsMaximalRuns};
ghost use Rattle.quic_c_entries.specs.Entries.{runs_of};
ghost use Rattle.quic_c_sets.specs.Sets.{IsSet};

use quic_c_entries::words::CRange;

// Whether the entries are maximal runs.
fn are_runs(runs: &[CRange]) -> bool
    ensures { IsTrue result ↔ IsMaximalRuns (runs_of runs.now) }
{
    if runs.is_empty() {
        return true;
    }
    let first = runs[0];
    if first.end <= first.start {
        return false;
    }
    let mut end = first.end;
    let mut at = 1;
    while at < runs.len() {
        let run = runs[at];
        if run.start <= end || run.end <= run.start {
            return false;
        }
        end = run.end;
        at += 1;
    }
    true
}

// Whether the first `count` entries of an array are the runs of a set.
#[inline(always)]
pub(crate) fn is_set(words: &[CRange], count: usize) -> bool
    ensures { IsTrue result ↔ IsSet words.now count }
{
    count <= words.len() && are_runs(&words[..count])
}
