//! Writes ACKs of sets into the caller's bytes (RFC 9000, section 19.3).
ghost use Rattle.std.specs.Prelude.{◌≡◌, ◌<◌, ◌≤◌, ◌+◌, ◌^◌, ◌∷◌, ◌++◌, ◌⊎◌, ◌↔◌, [], Bool, Ok, Err, pos, length, IsTrue};
ghost use Rattle.quic_ranges.specs.Runs.{IsMaximalRuns};
ghost use Rattle.quic_frame_fields.specs.Numbers.{AreNumeric};
ghost use Rattle.quic_frame_fields.specs.Putting.{Stores, Puts};
ghost use Rattle.quic_frame_fields.specs.Sets.{ack_of, ack_type, ranges_in};
ghost use Rattle.quic_frame_fields.specs.Shortest.{shortest_below, shortest_frame};
ghost use Rattle.quic_c_sets.specs.Acks.{DescribesSetAck, IsReason, IsRefusal, counts_in};
ghost use Rattle.quic_results.specs.Results.{failed};
ghost use Rattle.quic_c_entries.specs.Entries.{first_runs, range_of, runs_of};

use crate::checks::is_set;
use quic_base::varint::var_size;
use quic_c_entries::words::CRange;
use quic_frame_fields::frame::write::numbers_len;
use quic_frame_fields::frame::write_into::numbers_at;
use quic_results::results::Failure;

// Whether each number has an encoding.
fn are_numeric(numbers: &[u64]) -> bool
    ensures { IsTrue result ↔ AreNumeric numbers.now }
{
    for number in numbers {
        if *number >= 1 << 62 {
            return false;
        }
    }
    true
}

// Whether the arguments describe an ACK.
fn describes_ack(delay: u64, runs: &[CRange], count: usize, counts: &[u64]) -> bool
    ensures { IsTrue result ↔ DescribesSetAck delay runs.now count counts.now }
{
    if !is_set(runs, count) || count == 0 || delay >= 1 << 62 {
        return false;
    }
    if runs[count - 1].end > 1 << 62 {
        return false;
    }
    let few = counts.len();
    if few == 0 {
        return true;
    }
    if few == 3 { are_numeric(counts) } else { false }
}

// Why the arguments describe no ACK, if they don't.
#[inline(never)]
fn why_not(runs: &[CRange], count: usize, counts: &[u64]) -> Failure
    ensures { IsReason runs.now count counts.now result }
{
    if !is_set(runs, count) || count == 0 {
        Failure::Ranges
    } else if !counts.is_empty() && counts.len() != 3 {
        Failure::Length
    } else {
        Failure::Number
    }
}

// The type of an ACK with these counts, or without.
#[inline(always)]
fn type_of(counts: &[u64]) -> u64
    requires { (length counts.now ≡ 0) ⊎ (length counts.now ≡ 3) }
    ensures { result ≡ ack_type (counts_in counts.now) }
{
    let few = counts.len();
    if few == 0 { 0x02 } else { 0x03 }
}

// How many bytes the runs below another one have. Each is written as how many numbers are between it and the one above
// it, minus one, and how many it has, minus one.
fn below_len(above: CRange, runs: &[CRange]) -> usize
    requires runs { IsMaximalRuns (runs_of runs.now ++ range_of above ∷ []) }
    requires bound { above.start < 2 ^ 62 }
    ensures value { result ≡ length (shortest_below above.start (ranges_in (runs_of runs.now))) }
    ensures small { result < 2 ^ 62 }
{
    let mut above = above;
    let mut len = 0;
    let mut left = runs.len();
    while left > 0 {
        left -= 1;
        let run = runs[left];
        let gap = above.start - run.end - 1;
        let block = run.end - 1 - run.start;
        len += var_size(gap) + var_size(block);
        above = run;
    }
    len
}

// Stores the runs below another one, the greatest first, over the bytes from `at` on, and returns the offset at which
// they end.
fn store_below(dest: &mut [u8], at: usize, above: CRange, runs: &[CRange]) -> usize
    requires runs { IsMaximalRuns (runs_of runs.now ++ range_of above ∷ []) }
    requires bound { above.start < 2 ^ 62 }
    requires room { at + length (shortest_below above.start (ranges_in (runs_of runs.now))) ≤ length dest.old }
    ensures stores { Stores (shortest_below above.start (ranges_in (runs_of runs.now))) at dest.old result dest.new }
    ensures len { length dest.new ≡ length dest.old }
{
    let mut above = above;
    let mut at = at;
    let mut left = runs.len();
    while left > 0 {
        left -= 1;
        let run = runs[left];
        let gap = above.start - run.end - 1;
        let block = run.end - 1 - run.start;
        at = numbers_at(dest, at, &[gap, block]);
        above = run;
    }
    at
}

// Stores the ACK that the arguments describe at the front of the bytes.
fn store_ack(
    delay: u64,
    runs: &[CRange],
    count: usize,
    counts: &[u64],
    dest: &mut [u8],
) -> Result<usize, usize>
    requires { DescribesSetAck delay runs.now count counts.now }
    ensures { (last : Bool)
        → Puts result (shortest_frame last
        (ack_of delay (first_runs count runs.now) (counts_in counts.now))) dest.old dest.new }
{
    let first = runs[count - 1];
    let below = &runs[..count - 1];
    let greatest = first.end - 1;
    let ty = type_of(counts);
    let head = [
        ty,
        greatest,
        delay,
        count as u64 - 1,
        greatest - first.start,
    ];
    let needed = numbers_len(&head) as usize
        + below_len(first, below)
        + numbers_len(counts) as usize;
    if dest.len() < needed {
        return Err(needed);
    }
    let at = numbers_at(dest, 0, &head);
    let at = store_below(dest, at, first, below);
    Ok(numbers_at(dest, at, counts))
}

/// Writes an ACK of the set in the first `count` entries, in its shortest form, at the front of `dest` (RFC 9000,
/// section 19.3). `counts` has the ECT(0), ECT(1) and ECN-CE counts, or is empty. It returns 0 and how many bytes were
/// written, and the bytes after them don't change; `NoRoom` and how many are needed if `dest` has fewer; `Ranges`
/// exactly when the entries aren't runs, as for `quic_wire_set_insert_`, or there are none; else `Length` exactly when
/// `counts` has another length; else `Number` exactly when a number in the runs, the delay or a count is 2^62 or more.
/// `dest` changes only with 0, and `written` only with 0 and `NoRoom`.
#[unsafe(no_mangle)]
pub extern "C" fn quic_wire_ack_write_(
    delay: u64,
    runs: &[CRange],
    count: usize,
    counts: &[u64],
    dest: &mut [u8],
    written: &mut usize,
) -> i32
    ensures returns { (result ≡ pos 0) ⊎ (result ≡ failed Failure.NoRoom) ⊎ IsRefusal runs.now count counts.now result }
    ensures described { IsRefusal runs.now count counts.now result ⊎ DescribesSetAck delay runs.now count counts.now }
    ensures wrote { result ≡ pos 0 → (last : Bool)
        → Puts (Ok written.new) (shortest_frame last
        (ack_of delay (first_runs count runs.now) (counts_in counts.now))) dest.old dest.new }
    ensures room { result ≡ failed Failure.NoRoom → (last : Bool)
        → Puts (Err written.new) (shortest_frame last
        (ack_of delay (first_runs count runs.now) (counts_in counts.now))) dest.old dest.new }
    ensures refused { IsRefusal runs.now count counts.now result
        ↔ (DescribesSetAck delay runs.now count counts.now → ⊥) }
    ensures same { IsRefusal runs.now count counts.now result
        → (written.new ≡ written.old) × (dest.new ≡ dest.old) }
{
    if !describes_ack(delay, runs, count, counts) {
        return why_not(runs, count, counts).number();
    }
    match store_ack(delay, runs, count, counts, dest) {
        Ok(len) => {
            *written = len;
            0
        }
        Err(needed) => {
            *written = needed;
            Failure::NoRoom.number()
        }
    }
}
