//! Changes of the entries that a set names. At its front they move where the set begins, and no entry; elsewhere the
//! entries behind them are moved. All are moved to the array's front only if no entry is left behind the set.
ghost use Rattle.std.specs.Prelude.{◌≡◌, ◌≤◌, ◌<◌, ◌+◌, length, true, false, take, drop};
ghost use Rattle.std.specs.List.{copy_within};
ghost use Rattle.quic_c_entries.specs.Changes.{FitsRoom, after_change, words_of};
ghost use Rattle.quic_c_runs.specs.Moves.{MadeAt};
ghost use Rattle.quic_c_runs.specs.Sets.{entries_at};

use crate::words::CRuns;
use quic_c_entries::change::{Splice, make};
use quic_c_entries::words::CRange;

// Makes a change that begins with the first run and ends before the last. The entries behind the change stay where they
// are: what replaces the first runs is written in front of them.
#[inline(always)]
fn make_at_front(runs: &mut [CRange], set: &mut CRuns, change: Splice)
    requires within { set.old.first + set.old.count ≤ length runs.old }
    requires fits { FitsRoom (entries_at runs.old set.old) change }
    requires first { change.from ≡ 0 }
    requires room { length (words_of change.by) ≤ set.old.first + change.to }
    ensures made { MadeAt runs.old set.old change runs.new set.new }
    ensures end { set.new.first + set.new.count ≡ set.old.first + set.old.count }
{
    let len = change.by.len();
    let first = set.first + change.to - len;
    let count = set.count - change.to + len;
    change.by.write(runs, first);
    *set = CRuns { first, count };
}

// Makes a change after which the set begins where it did, if there is an entry for each run. The entries of the set
// behind the change are moved together. It returns whether the change was made; if not, nothing changes.
#[inline(always)]
fn make_behind(runs: &mut [CRange], set: &mut CRuns, change: Splice) -> bool
    requires within { set.old.first + set.old.count ≤ length runs.old }
    requires fits { FitsRoom (entries_at runs.old set.old) change }
    ensures made { result ≡ true → MadeAt runs.old set.old change runs.new set.new }
    ensures first { set.new.first ≡ set.old.first }
    ensures full { result ≡ false → set.old.first + set.old.count ≡ length runs.old }
    ensures more { result ≡ false
        → length (after_change (entries_at runs.old set.old) change) ≡ set.old.count + 1 }
    ensures same { result ≡ false → runs.new ≡ runs.old }
    ensures named { result ≡ false → set.new ≡ set.old }
{
    let mut count = set.count;
    if !make(&mut runs[set.first..], &mut count, change) {
        return false;
    }
    set.count = count;
    true
}

// Moves the entries of a set to the front of the array.
#[inline(never)]
fn move_to_front(runs: &mut [CRange], set: &mut CRuns)
    requires { set.old.first + set.old.count ≤ length runs.old }
    ensures first { set.new.first ≡ 0 }
    ensures count { set.new.count ≡ set.old.count }
    ensures moved { take set.old.count runs.new ≡ entries_at runs.old set.old }
    ensures behind { drop set.old.count runs.new ≡ drop set.old.count runs.old }
{
    let end = set.first + set.count;
    runs.copy_within(set.first..end, 0);
    set.first = 0;
}

// Makes a change to the entries that a set names, if there is an entry for each run. It returns whether it was made; if
// not, nothing changes.
#[inline(always)]
pub(crate) fn make_at(runs: &mut [CRange], set: &mut CRuns, change: Splice) -> bool
    requires within { set.old.first + set.old.count ≤ length runs.old }
    requires fits { FitsRoom (entries_at runs.old set.old) change }
    ensures made { result ≡ true → MadeAt runs.old set.old change runs.new set.new }
    ensures front { result ≡ false → set.old.first ≡ 0 }
    ensures full { result ≡ false → set.old.count ≡ length runs.old }
    ensures more { result ≡ false
        → length (after_change (entries_at runs.old set.old) change) ≡ set.old.count + 1 }
    ensures same { result ≡ false → runs.new ≡ runs.old }
    ensures named { result ≡ false → set.new ≡ set.old }
    ensures end { change.from ≡ 0 → change.to < set.old.count → length (words_of change.by) ≤ set.old.first + change.to
        → set.new.first + set.new.count ≡ set.old.first + set.old.count }
{
    if change.from == 0 && change.to < set.count && change.by.len() <= set.first + change.to {
        make_at_front(runs, set, change);
        return true;
    }
    if make_behind(runs, set, change) {
        return true;
    }
    if set.first == 0 {
        return false;
    }
    move_to_front(runs, set);
    make_behind(runs, set, change)
}
