//! Writes ACKs from gaps and lengths, the numbers that the wire has (RFC 9000, section 19.3).
ghost use Rattle.std.specs.Prelude.{◌≡◌, ◌⊎◌, ◌↔◌, ◌+◌, ◌*◌, ◌<◌, ◌≤◌, ◌^◌, ◌++◌, ◌∷◌, ℕ, List, [], Bool, Ok, Err, IsTrue, length, pos, ◌==◌, if◌then◌else◌};
ghost use Rattle.quic_base.specs.Varint.{shortest_varint};
ghost use Rattle.quic_frame_fields.specs.Numbers.{AreNumeric, shortest_varints};
ghost use Rattle.quic_frame_fields.specs.Putting.{Stores, Puts};
ghost use Rattle.quic_frame_fields.specs.Shortest.{shortest_frame};
ghost use Rattle.quic_c_write.specs.AckGaps.{ack_bytes, ack_described, behind_type, counts_list, delay_in, gap_numbers, greatest_of_words, Fit, IsAck, DescribesAck};
ghost use Rattle.quic_results.specs.Results.{failed};

use quic_base::coding::store_array;
use quic_base::varint::{IN_EIGHT, IN_FOUR, var_size};
use quic_c_words::words::{CFrame, CGap};
use quic_frame_fields::frame::write::numbers_len;
use quic_results::results::Failure;

// The type, which depends on whether there are counts.
#[inline(always)]
fn type_of(ack: &CFrame) -> u64
    ensures { result ≡ (if ack.now.flags == 2 then 0x03 else 0x02) }
{
    if ack.flags == 2 { 0x03 } else { 0x02 }
}

// Stores two bytes one by one, without making a word of them first.
#[inline(always)]
fn store_bytes(dest: &mut [u8], at: usize, one: u8, other: u8) -> usize
    requires { at + 2 ≤ length dest.old }
    ensures stores { Stores (one ∷ other ∷ []) at dest.old result dest.new }
    ensures len { length dest.new ≡ length dest.old }
{
    let at = store_array(dest, at, [one]);
    store_array(dest, at, [other])
}

// Stores a number in its shortest encoding at a place, and answers where it ends.
#[inline(always)]
#[tactic(auto, unfolding(quic_base::specs::Varint::shortest_varint, quic_base::specs::Varint::size, quic_base::specs::Number::bytes_of))]
pub(crate) fn store(dest: &mut [u8], at: usize, n: u64) -> usize
    requires numeric { n < 2 ^ 62 }
    requires room { at + length (shortest_varint n) ≤ length dest.old }
    ensures stores { Stores (shortest_varint n) at dest.old result dest.new }
    ensures len { length dest.new ≡ length dest.old }
{
    if n < 1 << 6 {
        store_array(dest, at, [n as u8])
    } else if n < 1 << 14 {
        store_bytes(dest, at, (1 << 6) + (n / 256) as u8, (n % 256) as u8)
    } else if n < 1 << 30 {
        store_array(dest, at, (IN_FOUR + n as u32).to_be_bytes())
    } else {
        store_array(dest, at, (IN_EIGHT | n).to_be_bytes())
    }
}

// Whether the ranges below one whose least number is `low` don't go below 0.
#[inline(always)]
fn fit(low: u64, gaps: &[CGap]) -> bool
    ensures { IsTrue result ↔ Fit low gaps.now }
{
    let mut low = low;
    for gap in gaps {
        if low < 2 || gap.gap > low - 2 || gap.len > low - 2 - gap.gap {
            return false;
        }
        low = low - 2 - gap.gap - gap.len;
    }
    true
}

// How many bytes the gaps and lengths have.
fn gaps_len(low: u64, gaps: &[CGap]) -> usize
    requires fit { Fit low gaps.now }
    requires small { low < 2 ^ 62 }
    ensures value { result ≡ length (shortest_varints (gap_numbers gaps.now)) }
    ensures few { result ≤ low }
{
    let mut len = 0;
    for gap in gaps {
        len += var_size(gap.gap) + var_size(gap.len);
    }
    len
}

// Stores two numbers, one after the other. If both take one byte, a single test finds that.
#[inline(always)]
fn store_two(dest: &mut [u8], at: usize, one: u64, other: u64) -> usize
    requires one { one < 2 ^ 62 }
    requires other { other < 2 ^ 62 }
    requires room { at + length (shortest_varints (one ∷ other ∷ [])) ≤ length dest.old }
    ensures stores { Stores (shortest_varints (one ∷ other ∷ [])) at dest.old result dest.new }
    ensures len { length dest.new ≡ length dest.old }
{
    if (one | other) < 1 << 6 {
        return store_bytes(dest, at, one as u8, other as u8);
    }
    let at = store(dest, at, one);
    store(dest, at, other)
}

// Stores the gaps and lengths at a place, and answers where they end.
#[inline(always)]
fn store_gaps(dest: &mut [u8], at: usize, gaps: &[CGap]) -> usize
    requires numeric { AreNumeric (gap_numbers gaps.now) }
    requires room { at + length (shortest_varints (gap_numbers gaps.now)) ≤ length dest.old }
    ensures stores { Stores (shortest_varints (gap_numbers gaps.now)) at dest.old result dest.new }
    ensures len { length dest.new ≡ length dest.old }
{
    let mut at = at;
    for gap in gaps {
        at = store_two(dest, at, gap.gap, gap.len);
    }
    at
}

// Stores the numbers between the type and the gaps, after the first byte.
#[inline(always)]
fn store_front(dest: &mut [u8], ack: &CFrame, gaps: &[CGap]) -> usize
    requires ack { IsAck ack.now gaps.now }
    requires room { 1 + length (shortest_varints (behind_type ack.now gaps.now)) ≤ length dest.old }
    ensures stores { Stores (shortest_varints (behind_type ack.now gaps.now)) 1 dest.old result dest.new }
    ensures len { length dest.new ≡ length dest.old }
{
    let at = store(dest, 1, ack.numbers[0]);
    let at = store(dest, at, ack.numbers[1]);
    store_two(dest, at, gaps.len() as u64, ack.data_len as u64)
}

// Stores the counts.
#[inline(always)]
fn store_counts(dest: &mut [u8], at: usize, ack: &CFrame) -> usize
    requires some { ack.now.flags ≡ 2 }
    requires counts { AreNumeric (counts_list ack.now) }
    requires room { at + length (shortest_varints (counts_list ack.now)) ≤ length dest.old }
    ensures stores { Stores (shortest_varints (counts_list ack.now)) at dest.old result dest.new }
    ensures len { length dest.new ≡ length dest.old }
{
    let at = store(dest, at, ack.numbers[2]);
    store_two(dest, at, ack.numbers[3], ack.numbers[4])
}

// Stores the ACK at the front. Its type comes last, when the flags are tested for the counts.
#[inline(always)]
fn store_ack(ack: &CFrame, gaps: &[CGap], dest: &mut [u8]) -> usize
    requires ack { IsAck ack.now gaps.now }
    requires room { length (ack_bytes ack.now gaps.now) ≤ length dest.old }
    ensures { Puts (Ok result) (ack_bytes ack.now gaps.now) dest.old dest.new }
{
    let at = store_front(dest, ack, gaps);
    let at = store_gaps(dest, at, gaps);
    if ack.flags != 2 {
        store_array(dest, 0, [0x02]);
        return at;
    }
    store_array(dest, 0, [0x03]);
    store_counts(dest, at, ack)
}

// How many bytes the ACK has.
#[inline(never)]
fn ack_len(ack: &CFrame, gaps: &[CGap]) -> usize
    requires { IsAck ack.now gaps.now }
    ensures { result ≡ length (ack_bytes ack.now gaps.now) }
{
    let ty = type_of(ack);
    let (greatest, first) = (ack.numbers[0], ack.data_len as u64);
    let front = [ty, greatest, ack.numbers[1], gaps.len() as u64, first];
    let counts = if ack.flags == 2 {
        numbers_len(&[ack.numbers[2], ack.numbers[3], ack.numbers[4]]) as usize
    } else {
        0
    };
    numbers_len(&front) as usize + gaps_len(greatest - first, gaps) + counts
}

// Whether the room would be enough even if each number of the ACK took the most bytes.
#[inline(always)]
fn has_room(gaps: &[CGap], room: usize) -> bool
    ensures { IsTrue result → 64 + 16 * length gaps.now ≤ room }
{
    room / 16 >= gaps.len() + 4
}

// Whether the words and the gaps describe an ACK.
#[inline(always)]
fn is_ack(ack: &CFrame, gaps: &[CGap]) -> bool
    ensures { IsTrue result ↔ IsAck ack.now gaps.now }
{
    let (greatest, first) = (ack.numbers[0], ack.data_len as u64);
    ack.kind == 0x02 && are_numeric(ack) && first <= greatest && fit(greatest - first, gaps)
}

// The counts joined by `or`: the result is below 2^62 exactly if each of them is.
#[inline(always)]
fn bits_of_counts(ack: &CFrame) -> u64
    ensures { result < 2 ^ 62 ↔ AreNumeric (counts_list ack.now) }
{
    if ack.flags == 2 {
        ack.numbers[2] | ack.numbers[3] | ack.numbers[4]
    } else {
        0
    }
}

// Whether the flags are 0 or 2, and the counts, the greatest number and the delay are below 2^62.
#[inline(always)]
fn are_numeric(ack: &CFrame) -> bool
    ensures { IsTrue result ↔ ((ack.now.flags ≡ 0) ⊎ (ack.now.flags ≡ 2))
        × AreNumeric (greatest_of_words ack.now ∷ delay_in ack.now ∷ counts_list ack.now) }
{
    if ack.flags != 0 && ack.flags != 2 {
        return false;
    }
    (ack.numbers[0] | ack.numbers[1] | bits_of_counts(ack)) < 1 << 62
}

// Writes the ACK if it fits, after its bytes were counted, or refuses it.
#[inline(never)]
fn write_counted(ack: &CFrame, gaps: &[CGap], out: &mut [u8], written: &mut usize) -> i32
    ensures returns { (result ≡ pos 0) ⊎ (result ≡ failed Failure.NoRoom) ⊎ (result ≡ failed Failure.Argument) }
    ensures described { (result ≡ failed Failure.Argument) ⊎ IsAck ack.now gaps.now }
    ensures wrote { result ≡ pos 0 → Puts (Ok written.new) (ack_bytes ack.now gaps.now) out.old out.new }
    ensures room { result ≡ failed Failure.NoRoom → Puts (Err written.new) (ack_bytes ack.now gaps.now) out.old out.new }
    ensures refused { result ≡ failed Failure.Argument → IsAck ack.now gaps.now → ⊥ }
    ensures same { (result ≡ failed Failure.Argument) → (written.new ≡ written.old) × (out.new ≡ out.old) }
{
    if !is_ack(ack, gaps) {
        return Failure::Argument.number();
    }
    let needed = ack_len(ack, gaps);
    if out.len() < needed {
        *written = needed;
        return Failure::NoRoom.number();
    }
    *written = store_ack(ack, gaps, out);
    0
}

/// Writes an ACK in its shortest encoding at the front of `out`, from the words and gaps that `quic_wire_frame_read_`
/// fills: the numbers have the greatest packet number, the delay and, with flag 2, the counts; the length of data is
/// the first range, less one; and `gaps` has the ranges below it, as gap and length. Of the other words only the kind
/// and the flags are read. It returns 0 with how many bytes were written, and bytes after those don't change;
/// `NoRoom` with how many are needed, if `out` has fewer; `Argument` exactly if the words and gaps describe no ACK: the
/// kind is another, the flags are neither 0 nor 2, a range goes below 0, or a number is 2^62 or more. `out` changes
/// only with 0, and `written` doesn't change with `Argument`.
#[unsafe(no_mangle)]
pub extern "C" fn quic_wire_ack_gaps_write_(
    ack: &CFrame,
    gaps: &[CGap],
    out: &mut [u8],
    written: &mut usize,
) -> i32
    ensures returns { (result ≡ pos 0) ⊎ (result ≡ failed Failure.NoRoom) ⊎ (result ≡ failed Failure.Argument) }
    ensures wrote { result ≡ pos 0 → (last : Bool) (low : ℕ) (below : List (ℕ × ℕ))
        → DescribesAck ack.now gaps.now low below
        → Puts (Ok written.new) (shortest_frame last (ack_described ack.now low below)) out.old out.new }
    ensures room { result ≡ failed Failure.NoRoom → (last : Bool) (low : ℕ) (below : List (ℕ × ℕ))
        → DescribesAck ack.now gaps.now low below
        → Puts (Err written.new) (shortest_frame last (ack_described ack.now low below)) out.old out.new }
    ensures described { (result ≡ failed Failure.Argument)
        ⊎ ((low : ℕ) × (below : List (ℕ × ℕ)) × DescribesAck ack.now gaps.now low below) }
    ensures refused { result ≡ failed Failure.Argument → (low : ℕ) (below : List (ℕ × ℕ))
        → DescribesAck ack.now gaps.now low below → ⊥ }
    ensures same { (result ≡ failed Failure.Argument) → (written.new ≡ written.old) × (out.new ≡ out.old) }
{
    if has_room(gaps, out.len()) && is_ack(ack, gaps) {
        *written = store_ack(ack, gaps, out);
        return 0;
    }
    write_counted(ack, gaps, out, written)
}
