//! Truncated packet numbers (RFC 9000, section 17.1).
ghost use Rattle.std.specs.Prelude.{◌≡◌, ℕ, ◌+◌, ◌-◌, ◌*◌, ◌%◌, ◌^◌, ◌<◌, ◌≤◌, ◌++◌, length, IfOk, OnOk, OnErr};
ghost use Rattle.quic_base.specs.Codec.{Takes, KeepsRoom};
ghost use Rattle.quic_crypto.specs.PacketNumbers.{low_part, number_size, window_of, number_bytes, IsInRange, Expands, SizeFor, NumberAt};

use bytes::{Buf, BufMut};
use quic_base::coding::{self, Codec, NoRoom, get_array};

/// A truncated packet number: its low part, in one to four bytes.
#[derive(Clone, Copy, Debug, PartialEq, Eq)]
pub enum PacketNumber {
    /// One byte.
    U8(u8),
    /// Two bytes.
    U16(u16),
    /// Three bytes. To write or expand it, the caller must ensure that it is below 2^24.
    U24(u32),
    /// Four bytes.
    U32(u32),
}

impl PacketNumber {
    /// The low part of `n` for a receiver that has acknowledged `largest_acked` (RFC 9000, appendix A.2). It has the
    /// fewest bytes, 1, 2, 3 or 4, so that `2 * (n - largest_acked)` is below 2^8, 2^16, 2^24 or 2^32. A receiver that
    /// expects a number from `largest_acked` to `n + 1` finds `n` with `expand`. The caller must ensure that
    /// `largest_acked` is at most `n`, and less than 2^31 below it.
    pub fn new(n: u64, largest_acked: u64) -> Self
        requires order { largest_acked ≤ n }
        requires near { n < largest_acked + 2 ^ 31 }
        ensures valid { IsInRange result }
        ensures low { low_part result ≡ n % window_of result }
        ensures size { SizeFor (n - largest_acked) (number_size result) }
        ensures back { (expected m : ℕ) → largest_acked ≤ expected → expected ≤ n + 1
            → Expands (low_part result) (window_of result) expected m → m ≡ n }
    {
        let range = (n - largest_acked) * 2;
        if range < 1 << 8 {
            Self::U8((n % (1 << 8)) as u8)
        } else if range < 1 << 16 {
            Self::U16((n % (1 << 16)) as u16)
        } else if range < 1 << 24 {
            Self::U24((n % (1 << 24)) as u32)
        } else {
            Self::U32((n % (1 << 32)) as u32)
        }
    }

    /// How many bytes it has, 1 to 4.
    #[allow(clippy::len_without_is_empty)]
    pub fn len(self) -> usize
        ensures { result ≡ number_size self }
    {
        match self {
            Self::U8(_) => 1,
            Self::U16(_) => 2,
            Self::U24(_) => 3,
            Self::U32(_) => 4,
        }
    }

    /// Appends its bytes, the highest first. Returns `NoRoom` only if they are more than the buffer's spare room. The
    /// buffer's contents don't change then. The caller must ensure that a `U24` is below 2^24.
    #[tactic(auto, unfolding(quic_base::specs::Number::bytes_of))]
    pub fn encode<W: BufMut>(self, w: &mut W) -> Result<(), NoRoom>
        requires { IsInRange self }
        ensures ok { OnOk result (W.written w.new ≡ W.written w.old ++ number_bytes self) }
        ensures err { OnErr result (W.written w.new ≡ W.written w.old) }
        ensures full { OnErr result (W.spare w.old < number_size self) }
        ensures room { KeepsRoom (W.written w.old) (W.spare w.old)
            (W.written w.new) (W.spare w.new) }
    {
        match self {
            Self::U8(x) => w.put_u8(x),
            Self::U16(x) => w.put_u16(x),
            Self::U24(x) => w.put_uint(u64::from(x), 3),
            Self::U32(x) => w.put_u32(x),
        }
        .map_err(|_| NoRoom)
    }

    /// Reads a number of `len` bytes at the front of the buffer and consumes them. It is an error exactly when fewer
    /// remain; nothing is consumed then. The caller must ensure that `len` is 1 to 4.
    pub fn decode<R: Buf>(len: usize, r: &mut R) -> coding::Result<Self>
        requires low { 1 ≤ len }
        requires high { len ≤ 4 }
        ensures ok { IfOk result (λ number. Takes (NumberAt number) (R.unread r.old) (R.unread r.new)) }
        ensures size { IfOk result (λ number. number_size number ≡ len) }
        ensures cut { OnErr result (length (R.unread r.old) < len) }
        ensures left { OnErr result (R.unread r.new ≡ R.unread r.old) }
        ensures kept { R.kept r.new ≡ R.kept r.old }
    {
        Ok(match len {
            1 => Self::U8(u8::from_be_bytes(get_array(r)?)),
            2 => Self::U16(u16::from_be_bytes(get_array(r)?)),
            3 => {
                let [high, middle, low]: [u8; 3] = get_array(r)?;
                Self::U24(u32::from_be_bytes([0, high, middle, low]))
            }
            _ => Self::U32(u32::from_be_bytes(get_array(r)?)),
        })
    }

    /// How many bytes the packet number has, by the lowest two bits of a header's first byte: one more than their value
    /// (RFC 9000, section 17.2).
    pub fn decode_len(tag: u8) -> usize
        ensures { result ≡ tag % 4 + 1 }
    {
        usize::from(tag % 4) + 1
    }

    /// The lowest two bits of a header's first byte for this number: its length in bytes minus one.
    pub fn tag(self) -> u8
        ensures { result + 1 ≡ number_size self }
    {
        match self {
            Self::U8(_) => 0,
            Self::U16(_) => 1,
            Self::U24(_) => 2,
            Self::U32(_) => 3,
        }
    }

    /// The whole packet number, from the one that is expected next (RFC 9000, appendix A.3). Of the numbers with this
    /// low part, it is the one that is less than half the window below `expected` or at most half the window above it.
    /// The window is 2^8, 2^16, 2^24 or 2^32, for 1 to 4 bytes. If that number would be negative, it is the low part
    /// itself. The result isn't checked against 2^62. The caller must ensure that a `U24` is below 2^24, and `expected`
    /// below 2^62.
    pub fn expand(self, expected: u64) -> u64
        requires valid { IsInRange self }
        requires small { expected < 2 ^ 62 }
        ensures { Expands (low_part self) (window_of self) expected result }
    {
        match self {
            Self::U8(x) => nearest(u64::from(x), 1 << 8, expected),
            Self::U16(x) => nearest(u64::from(x), 1 << 16, expected),
            Self::U24(x) => nearest(u64::from(x), 1 << 24, expected),
            Self::U32(x) => nearest(u64::from(x), 1 << 32, expected),
        }
    }
}

// The number with this low part among as many successive numbers as the window has. These begin half a window minus one
// below the expected number, or at 0.
fn nearest(low: u64, window: u64, expected: u64) -> u64
    requires residue { low < window }
    requires even { window % 2 ≡ 0 }
    requires divides { 2 ^ 62 % window ≡ 0 }
    requires small { expected < 2 ^ 62 }
    ensures { Expands low window expected result }
{
    let least = expected.saturating_sub(window / 2 - 1);
    least + (low + (1 << 62) - least) % window
}
