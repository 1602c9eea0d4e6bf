//! Writes frames that have nothing but numbers.
ghost use Rattle.std.specs.Prelude.{◌≡◌, ◌<◌, ◌≤◌, ◌^◌, ◌∷◌, [], ◌++◌, length, IfSome, IsNone, Ok};
ghost use Rattle.quic_base.specs.Number.{bytes_of};
ghost use Rattle.quic_base.specs.Varint.{shortest_varint};
ghost use Rattle.quic_frame_fields.specs.Putting.{Puts};
ghost use Rattle.quic_c_write.specs.Plain.{WritesPlain, WroteAnyhow};

use crate::ack_gaps::store;
use crate::data_headers::put_in_place;
use quic_base::coding::store_array;
use quic_c_words::words::CFrame;

// Above all numbers that have an encoding.
const LIMIT: u64 = 1 << 62;

// The most streams of either direction (RFC 9000, section 4.6).
const MAX_STREAMS: u64 = 1 << 60;

// Writes a type and the eight bytes of a PATH_CHALLENGE or PATH_RESPONSE at the front, and returns how many bytes these
// are.
#[inline(always)]
fn put_path(ty: u64, n: u64, out: &mut [u8]) -> usize
    requires ty { ty < 2 ^ 62 }
    requires room { 40 ≤ length out.old }
    ensures { Puts (Ok result) (shortest_varint ty ++ bytes_of 8 n) out.old out.new }
{
    let at = store(out, 0, ty);
    store_array(out, at, n.to_be_bytes())
}

// Writes the frame of a kind with these first three numbers at the front, where there is room for any, and returns how
// many bytes it has. It returns `None` for numbers that can't be written or that the kind lacks, for a frame that
// breaks a rule, and for kinds that have data or four numbers, or of which a rule depends on the flags.
#[inline(always)]
fn put_kind(kind: u16, a: u64, b: u64, c: u64, out: &mut [u8]) -> Option<usize>
    requires room { 40 ≤ length out.old }
    ensures wrote { IfSome result (λ n. WritesPlain kind (a ∷ b ∷ c ∷ 0 ∷ 0 ∷ []) out.old out.new n) }
    ensures same { IsNone result → out.new ≡ out.old }
{
    match kind {
        0x00 if (a | b | c) == 0 => Some(put_in_place(out, &[0x00])),
        0x01 if (a | b | c) == 0 => Some(put_in_place(out, &[0x01])),
        0x04 if (a | b | c) < LIMIT => Some(put_in_place(out, &[0x04, a, b, c])),
        0x05 if (a | b) < LIMIT && c == 0 => Some(put_in_place(out, &[0x05, a, b])),
        0x10 if (a | c) == 0 && b < LIMIT => Some(put_in_place(out, &[0x10, b])),
        0x11 if (a | b) < LIMIT && c == 0 => Some(put_in_place(out, &[0x11, a, b])),
        0x12 if (a | c) == 0 && b <= MAX_STREAMS => Some(put_in_place(out, &[0x12, b])),
        0x13 if (a | c) == 0 && b <= MAX_STREAMS => Some(put_in_place(out, &[0x13, b])),
        0x14 if (a | c) == 0 && b < LIMIT => Some(put_in_place(out, &[0x14, b])),
        0x15 if (a | b) < LIMIT && c == 0 => Some(put_in_place(out, &[0x15, a, b])),
        0x16 if (a | c) == 0 && b <= MAX_STREAMS => Some(put_in_place(out, &[0x16, b])),
        0x17 if (a | c) == 0 && b <= MAX_STREAMS => Some(put_in_place(out, &[0x17, b])),
        0x19 if (b | c) == 0 && a < LIMIT => Some(put_in_place(out, &[0x19, a])),
        0x1a if (b | c) == 0 => Some(put_path(0x1a, a, out)),
        0x1b if (b | c) == 0 => Some(put_path(0x1b, a, out)),
        0x1e if (a | b | c) == 0 => Some(put_in_place(out, &[0x1e])),
        _ => None,
    }
}

// Writes the frame that the words describe at the front, where there is room for any, if it has nothing but numbers and
// breaks no rule, and returns how many bytes it has. It returns `None` for other words.
#[inline(always)]
pub(crate) fn write_numbers(words: &CFrame, out: &mut [u8]) -> Option<usize>
    requires room { 40 ≤ length out.old }
    ensures wrote { IfSome result (λ n. WroteAnyhow words.now out.old out.new n) }
    ensures same { IsNone result → out.new ≡ out.old }
{
    let [a, b, c, d, e] = words.numbers;
    if words.flags != 0 || words.data_len != 0 || (d | e) != 0 {
        return None;
    }
    put_kind(words.kind, a, b, c, out)
}
