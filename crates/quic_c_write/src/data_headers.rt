//! The headers of STREAM, CRYPTO and DATAGRAM frames, after which the caller puts the data.
ghost use Rattle.std.specs.Prelude.{◌≡◌, ◌==◌, ◌&&◌, ◌⊎◌, ◌↔◌, ◌<◌, ◌≤◌, ◌^◌, ◌++◌, List, ℕ, Bool, true, not, pos, length, IsTrue, IfSome, Ok};
ghost use Rattle.quic_frame_fields.specs.Numbers.{AreNumeric, shortest_varints};
ghost use Rattle.quic_frame_fields.specs.Putting.{Puts};
ghost use Rattle.quic_frame_fields.specs.Shortest.{shortest_frame, stream_header};
ghost use Rattle.quic_frames.specs.declared.frame.Frame.{Frame};
ghost use Rattle.quic_frames.specs.Meaning.{meaning_of};
ghost use Rattle.quic_c_write.specs.Headers.{IsHeaded, HasHeader, WroteHeader, HeaderNeedsMore, breaks_flags, data_header_bytes, second_in};
ghost use Rattle.quic_c_words.specs.Shown.{data_of, rules_in, is_last};
ghost use Rattle.quic_frames.specs.Rules.{breach_of, broken_if, ends_past};
ghost use Rattle.quic_frames.specs.declared.frame.rules.Breach.{Breach};
ghost use Rattle.quic_c_write.specs.Written.{CanWriteFrame};
ghost use Rattle.quic_c_words.specs.declared.words.CFrame.{CFrame};
ghost use Rattle.quic_results.specs.Results.{failed};

use crate::ack_gaps::store;
use quic_c_words::flags::is_last;
use quic_c_words::words::CFrame;
use quic_frame_fields::frame::write_into;
use quic_frames::frame::FrameType;
use quic_results::results::Failure;

// Whether the struct describes a frame that can be written without its data.
fn has_header(words: &CFrame, last: bool) -> bool
    ensures { IsTrue result ↔ HasHeader words.now last }
{
    let (flags, len) = (words.flags, words.data_len as u64);
    let [id, offset, c, d, e] = words.numbers;
    if id >= 1 << 62 || offset >= 1 << 62 || c != 0 || d != 0 || e != 0 {
        return false;
    }
    let is_short = len < 1 << 62;
    match words.kind {
        0x06 => id == 0 && flags == 0 && is_short,
        0x08 => flags <= 1 && (last || is_short),
        0x30 => id == 0 && offset == 0 && flags == 0 && (last || is_short),
        _ => false,
    }
}

// Writes at most five numbers in their shortest encodings at the front, where there is room for five of the longest,
// and returns how many bytes they have.
#[inline(always)]
pub(crate) fn put_in_place(dest: &mut [u8], numbers: &[u64]) -> usize
    requires few { length numbers.now ≤ 5 }
    requires numeric { AreNumeric numbers.now }
    requires room { 40 ≤ length dest.old }
    ensures { Puts (Ok result) (shortest_varints numbers.now) dest.old dest.new }
{
    let mut at = 0;
    for number in numbers {
        at = store(dest, at, *number);
    }
    at
}

// Writes at most five numbers in their shortest encodings at the front. If there is room for five of the longest, they
// are written in place one by one; otherwise they are put together first, and then the room is tested.
#[inline(always)]
fn put_numbers(dest: &mut [u8], numbers: &[u64]) -> Result<usize, usize>
    requires few { length numbers.now ≤ 5 }
    requires numeric { AreNumeric numbers.now }
    ensures { Puts result (shortest_varints numbers.now) dest.old dest.new }
{
    if dest.len() < 40 {
        return write_into::numbers(dest, numbers);
    }
    Ok(put_in_place(dest, numbers))
}

// Stores the header of a STREAM at the front, with the length of its data if that is given.
fn put_stream(
    id: u64,
    offset: u64,
    fin: bool,
    counted: Option<u64>,
    dest: &mut [u8],
) -> Result<usize, usize>
    requires id { id < 2 ^ 62 }
    requires offset { offset < 2 ^ 62 }
    requires counted { IfSome counted (λ n. n < 2 ^ 62) }
    ensures { Puts result (stream_header id offset fin counted) dest.old dest.new }
{
    let ty = FrameType::of_stream(offset != 0, fin).into_inner();
    match (offset, counted) {
        (0, None) => put_numbers(dest, &[ty, id]),
        (0, Some(length)) => put_numbers(dest, &[ty + 2, id, length]),
        (_, None) => put_numbers(dest, &[ty, id, offset]),
        (_, Some(length)) => put_numbers(dest, &[ty + 2, id, offset, length]),
    }
}

// Stores the header that the words describe at the front.
fn put_header(words: &CFrame, last: bool, dest: &mut [u8]) -> Result<usize, usize>
    requires { HasHeader words.now last }
    ensures { Puts result (data_header_bytes words.now last) dest.old dest.new }
{
    let len = words.data_len as u64;
    let [id, offset, ..] = words.numbers;
    match words.kind {
        0x06 => put_numbers(dest, &[0x06, offset, len]),
        0x08 => put_stream(id, offset, words.flags == 1, (!last).then_some(len), dest),
        _ if last => put_numbers(dest, &[0x30]),
        _ => put_numbers(dest, &[0x31, len]),
    }
}

// Whether the data of a CRYPTO or STREAM end past 2^62 - 1.
#[inline(never)]
fn ends_past(words: &CFrame) -> bool
    ensures { result ≡ (not (words.now.kind == 0x30) && ends_past (second_in words.now.numbers) words.now.data_len) }
{
    let len = words.data_len as u64;
    let [_, offset, ..] = words.numbers;
    let max = (1 << 62) - 1;
    words.kind != 0x30 && (len > max || offset > max - len)
}

/// Writes the shortest encoding of a STREAM, CRYPTO or DATAGRAM, without its data, at the front of `out` (RFC 9000,
/// sections 19.6 and 19.8; RFC 9221, section 4). If `flags` has 1, it is the last frame of its payload; the other flags
/// are rules, as for the calls that read. The words have the length of the data; their place isn't read. It returns 0
/// with how many bytes were written, and bytes after those don't change; `NoRoom` with how many are needed, if `out`
/// has fewer; `Argument` if the words describe no such frame that can be written; and `FrameLimit` exactly if they
/// describe one that breaks a rule. `out` changes only with 0, and `written` only with 0 and `NoRoom`.
#[unsafe(no_mangle)]
pub extern "C" fn quic_wire_frame_header_write_(
    frame: &CFrame,
    flags: u32,
    out: &mut [u8],
    written: &mut usize,
) -> i32
    ensures returns { (result ≡ pos 0) ⊎ (result ≡ failed Failure.NoRoom) ⊎ (result ≡ failed Failure.Argument)
        ⊎ (result ≡ failed Failure.FrameLimit) }
    ensures wrote { result ≡ pos 0 → WroteHeader frame.now (is_last flags) out.old out.new written.new }
    ensures room { result ≡ failed Failure.NoRoom → HeaderNeedsMore frame.now (is_last flags) out.old written.new }
    ensures refused { (result ≡ failed Failure.Argument) ↔ (HasHeader frame.now (is_last flags) → ⊥) }
    ensures broken { (result ≡ failed Failure.FrameLimit)
        ↔ (HasHeader frame.now (is_last flags) × (breaks_flags flags frame.now ≡ true)) }
    ensures same { (result ≡ pos 0) ⊎ (out.new ≡ out.old) }
    ensures kept { (result ≡ pos 0) ⊎ (result ≡ failed Failure.NoRoom) ⊎ (written.new ≡ written.old) }
{
    let last = is_last(flags);
    if !has_header(frame, last) {
        return Failure::Argument.number();
    }
    if flags & 0x002 != 0 && ends_past(frame) {
        return Failure::FrameLimit.number();
    }
    match put_header(frame, last, out) {
        Ok(n) => {
            *written = n;
            0
        }
        Err(n) => {
            *written = n;
            Failure::NoRoom.number()
        }
    }
}

/// A header followed by the data is the frame: a frame that can be written whole has a header, and its encoding is that
/// header followed by its data. It breaks a rule exactly if the header does.
pub fn header_and_data()
    ensures frame { (words : CFrame) (bytes : List ℕ) (last : Bool) (frame : Frame) → IsHeaded words.kind
        → CanWriteFrame words bytes last frame
        → HasHeader words last
        × (shortest_frame last (meaning_of frame) ≡ data_header_bytes words last ++ data_of frame) }
    ensures broken { (words : CFrame) (bytes : List ℕ) (last : Bool) (frame : Frame) (flags : ℕ) → IsHeaded words.kind
        → CanWriteFrame words bytes last frame
        → breach_of (rules_in flags) (meaning_of frame) ≡ broken_if (breaks_flags flags words) Breach.Limit }
{}
