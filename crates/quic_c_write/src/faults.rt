//! Which field of a frame can't be written.
ghost use Rattle.std.specs.Prelude.{◌≡◌, ◌==◌, ◌&&◌, ◌⊎◌, ◌+◌, ◌<◌, ◌≤◌, ◌^◌, ℕ, List, length, nat_lt, nat_le, IfSome, Some, None, true, false, if◌then◌else◌};
ghost use Rattle.quic_frames.specs.declared.frame.Frame.{Frame};
ghost use Rattle.quic_c_write.specs.Faults.{fault_by, fits_by, is_whole, token_at, FitsKind, HasOnly, IsSoundWith, IsWriteFault};
ghost use Rattle.quic_c_words.specs.Shown.{is_last};
ghost use Rattle.quic_c_write.specs.Written.{CanWriteFrame, DescribesNoFrame};

use crate::write::{data_and_token, frame_of, is_shown, is_sound};
use quic_c_words::flags::is_last;
use quic_c_words::words::CFrame;
use quic_frames::laws::read_back;
use quic_results::faults::first_false;

// No field.
const NO_FIELD: usize = usize::MAX;

fn is_varint(n: u64) -> bool
    ensures { result ≡ nat_lt n (2 ^ 62) }
{
    n < 1 << 62
}

// Whether the payload has the data.
fn is_whole(words: &CFrame, payload: &[u8]) -> bool
    ensures { result ≡ is_whole words.now payload.now }
{
    let (offset, len) = (words.data_offset, words.data_len);
    len == 0 || offset <= payload.len() && len <= payload.len() - offset
}

// Whether the payload has a token behind the data.
fn has_token(words: &CFrame, payload: &[u8]) -> bool
    ensures { words.now.kind ≡ 0x18 → result ≡ (length (token_at words.now payload.now) == 16) }
{
    let (offset, len) = (words.data_offset, words.data_len);
    if offset > payload.len() || len > payload.len() - offset {
        return false;
    }
    payload.len() - offset - len >= 16
}

// Whether data, of which the payload has all or not, can be written after their length.
fn is_counted(whole: bool, len: usize) -> bool
    ensures test { (bytes : List ℕ) → whole ≡ (length bytes == len)
        → result ≡ (whole && nat_lt (length bytes) (2 ^ 62)) }
    ensures holds { result ≡ true → (whole ≡ true) × (len < 2 ^ 62) }
{
    whole && len < 1 << 62
}

// The same of data whose length is written only if their frame isn't the last.
fn is_open(whole: bool, len: usize, last: bool) -> bool
    ensures test { (bytes : List ℕ) → whole ≡ (length bytes == len)
        → result ≡ (if last then whole else whole && nat_lt (length bytes) (2 ^ 62)) }
    ensures holds { result ≡ true → (whole ≡ true) × (last ≡ false → len < 2 ^ 62) }
{
    if last { whole } else { is_counted(whole, len) }
}

// The same of an id.
fn is_id(whole: bool, len: usize) -> bool
    ensures test { (bytes : List ℕ) → whole ≡ (length bytes == len)
        → result ≡ (whole && (nat_lt 0 (length bytes) && nat_le (length bytes) 20)) }
    ensures holds { result ≡ true → (whole ≡ true) × (0 < len) × (len ≤ 20) }
{
    whole && 0 < len && len <= 20
}

// The first field whose value can't be written, by the words, whether the payload has the data, how many they are,
// whether it has a token, and whether the frame is the last.
fn fault_of(
    kind: u16,
    flags: u32,
    numbers: [u64; 5],
    whole: bool,
    len: usize,
    token: bool,
    last: bool,
) -> Option<usize>
    ensures found { (content behind : List ℕ) → whole ≡ (length content == len)
        → (kind ≡ 0x18 → token ≡ (length behind == 16)) → result ≡ fault_by kind flags numbers whole content behind last }
    ensures fits { (content behind : List ℕ) → fits_by kind flags numbers content behind last ≡ true }
    ensures sound { result ≡ None → HasOnly kind numbers len → IsSoundWith kind flags numbers len whole token last }
    ensures few { IfSome result (λ found. found < 2 ^ 32) }
{
    let [a, b, c, d, _] = numbers;
    match kind {
        0x00 | 0x01 | 0x1e | 0x1f => None,
        0x04 => first_false(1, &[is_varint(a), is_varint(b), is_varint(c)]),
        0x05 | 0x11 | 0x15 => first_false(1, &[is_varint(a), is_varint(b)]),
        0x06 => first_false(1, &[is_varint(b), is_counted(whole, len)]),
        0x07 => first_false(1, &[is_counted(whole, len)]),
        0x08 => {
            let has_data = is_open(whole, len, last);
            first_false(1, &[flags <= 1, is_varint(a), is_varint(b), has_data])
        }
        0x10 | 0x14 => first_false(1, &[is_varint(b)]),
        0x12 => first_false(1, &[true, is_varint(b)]),
        0x13 => first_false(1, &[true, is_varint(b)]),
        0x16 => first_false(1, &[true, is_varint(b)]),
        0x17 => first_false(1, &[true, is_varint(b)]),
        0x18 => first_false(
            1,
            &[is_varint(a), is_varint(b), b <= a, is_id(whole, len), token],
        ),
        0x19 => first_false(1, &[is_varint(a)]),
        0x1a | 0x1b => None,
        0x1c => first_false(1, &[is_varint(a), is_varint(b), is_counted(whole, len)]),
        0x1d => first_false(1, &[is_varint(a), is_counted(whole, len)]),
        0x30 => first_false(1, &[is_open(whole, len, last)]),
        0xaf => first_false(1, &[is_varint(a), is_varint(b), is_varint(c), is_varint(d)]),
        _ => Some(0),
    }
}

// Whether a frame has the flags, the numbers and the length in the words, none of whose fields is at fault.
fn is_described(words: &CFrame, payload: &[u8], last: bool, whole: bool, token: bool) -> bool
    requires sound { HasOnly words.now.kind words.now.numbers words.now.data_len
        → IsSoundWith words.now.kind words.now.flags words.now.numbers words.now.data_len whole token last }
    requires whole { whole ≡ is_whole words.now payload.now }
    requires token { words.now.kind ≡ 0x18 → token ≡ (length (token_at words.now payload.now) == 16) }
    ensures { FitsKind words.now → (frame : Frame) × CanWriteFrame words.now payload.now last frame }
{
    let (kind, len) = (words.kind, words.data_len);
    let numbers = words.numbers;
    if !is_sound(kind, numbers, len) {
        return false;
    }
    let Some((bytes, token)) = data_and_token(words, payload) else {
        return false;
    };
    let Some(frame) = frame_of(kind, words.flags == 1, numbers, bytes, token) else {
        return false;
    };
    frame.type_bounds();
    is_shown(&frame, words)
}

/// The index of the first field whose value can't be written, for `quic_wire_frame_write_` with these arguments. Fields
/// are numbered as for `quic_wire_frame_fields_`; 0 is the type's, if the kind is unknown or ACK. It returns
/// `usize::MAX` if no field is at fault: then such a frame can be written, unless a number that the kind doesn't have,
/// the length of data that it doesn't have, or the flags of a kind other than STREAM aren't 0. Rules, the other bits of
/// `flags`, are ignored.
#[unsafe(no_mangle)]
pub extern "C" fn quic_wire_frame_write_fault_(frame: &CFrame, payload: &[u8], flags: u32) -> usize
    ensures field { (result ≡ usize.MAX) ⊎ IsWriteFault frame.now payload.now (is_last flags) (Some result) }
    ensures none { result ≡ usize.MAX → IsWriteFault frame.now payload.now (is_last flags) None }
    ensures refused { (result ≡ usize.MAX) ⊎ DescribesNoFrame frame.now payload.now (is_last flags) }
    ensures possible { result ≡ usize.MAX → FitsKind frame.now
        → (written : Frame) × CanWriteFrame frame.now payload.now (is_last flags) written }
{
    read_back();
    let last = is_last(flags);
    let (whole, token) = (is_whole(frame, payload), has_token(frame, payload));
    let len = frame.data_len;
    let fault = fault_of(
        frame.kind,
        frame.flags,
        frame.numbers,
        whole,
        len,
        token,
        last,
    );
    let Some(index) = fault else {
        is_described(frame, payload, last, whole, token);
        return NO_FIELD;
    };
    index
}
