//! Variable-length integers (RFC 9000, section 16).
ghost use Rattle.std.specs.Prelude.{◌≡◌, ◌+◌, ◌<◌, ◌≤◌, ◌^◌, ◌++◌, List, ℕ, Ok, Some, drop, take, length, IfOk, MatchResult, OnErr, OnOk};
ghost use Rattle.std.specs.Fmt.{decimal};
ghost use Rattle.quic_base.specs.Codec.{Takes, NoFront, IsBegun, KeepsRoom};
ghost use Rattle.quic_base.specs.Reading.{Finds, number_at};
ghost use Rattle.quic_base.specs.Varint.{Encodes, IsBounded, shortest_varint, size};

use crate::coding::{self, Codec, NoRoom, UnexpectedEnd, first_byte, get_array, store_array};
use bytes::{Buf, BufMut};
use std::fmt;
use std::marker::Model;
use thiserror::Error;

/// A number too large for a varint: at least 2^62.
#[derive(Clone, Copy, Debug, PartialEq, Eq, Error)]
#[error("value too large for varint encoding")]
pub struct VarIntBoundsExceeded;

/// An integer below 2^62. Contracts see it as that number.
#[derive(Clone, Copy, PartialEq, Eq, PartialOrd, Ord, Hash)]
pub struct VarInt(u64);

impl Model for VarInt {
    ghost Value = { ℕ };

    ghost view = { λ v. v.0 };

    ghost invariant = { λ v. v.0 < 2 ^ 62 };

    ghost inverse = { λ n. record { 0 = n } };
}

impl VarInt {
    /// The greatest value, 2^62 - 1.
    pub const MAX: VarInt = VarInt((1 << 62) - 1);

    /// The length in bytes of the longest encoding.
    pub const MAX_SIZE: usize = 8;

    /// The number `x`, which always fits.
    pub const fn from_u32(x: u32) -> VarInt
        ensures { result ≡ x }
    {
        VarInt(x as u64)
    }

    /// The number `x`, or an error exactly when it is 2^62 or more.
    pub fn from_u64(x: u64) -> Result<VarInt, VarIntBoundsExceeded>
        ensures { IsBounded x result }
    {
        if x <= VarInt::MAX.0 {
            Ok(VarInt(x))
        } else {
            Err(VarIntBoundsExceeded)
        }
    }

    /// The number `x`. The caller must ensure that it is below 2^62.
    pub const fn from_u64_unchecked(x: u64) -> VarInt
        requires { x < 2 ^ 62 }
        ensures { result ≡ x }
    {
        VarInt(x)
    }

    /// The number, which is below 2^62.
    pub const fn into_inner(self) -> u64
        ensures value { result ≡ self }
        ensures bound { self < 2 ^ 62 }
    {
        self.0
    }

    /// The length in bytes of the shortest encoding: 1, 2, 4 or 8.
    #[inline(always)]
    pub const fn size(self) -> usize
        ensures { result ≡ size self }
    {
        var_size(self.0)
    }
}

// The size in bytes of the shortest encoding of a number, by its highest bit.
const SIZES: [u8; 64] = [
    1, 1, 1, 1, 1, 1, 2, 2, 2, 2, 2, 2, 2, 2, 4, 4, 4, 4, 4, 4, 4, 4, 4, 4, 4, 4, 4, 4, 4, 4, 8, 8,
    8, 8, 8, 8, 8, 8, 8, 8, 8, 8, 8, 8, 8, 8, 8, 8, 8, 8, 8, 8, 8, 8, 8, 8, 8, 8, 8, 8, 8, 8, 8, 8,
];

// The longest encoding has eight bytes (RFC 9000, section 16).
const _: () = prove!(VarInt::MAX_SIZE == 8);

/// The length in bytes of the shortest encoding of a number: 1, 2, 4 or 8. It is 8 also for 2^62 and more, which have
/// no encoding.
#[inline(always)]
pub const fn var_size(n: u64) -> usize
    ensures value { result ≡ size n }
    ensures small { result ≤ 8 }
{
    let highest = 63 - (n | 1).leading_zeros();
    SIZES[highest as usize] as usize
}

/// The default is 0.
impl Default for VarInt {
    ghost is_default = { λ v. v ≡ 0 };

    fn default() -> VarInt {
        VarInt(0)
    }
}

impl From<u8> for VarInt {
    ghost from_gives = { λ x v. v ≡ x };

    fn from(x: u8) -> VarInt {
        VarInt(u64::from(x))
    }
}

impl From<u16> for VarInt {
    ghost from_gives = { λ x v. v ≡ x };

    fn from(x: u16) -> VarInt {
        VarInt(u64::from(x))
    }
}

impl From<u32> for VarInt {
    ghost from_gives = { λ x v. v ≡ x };

    fn from(x: u32) -> VarInt {
        VarInt(u64::from(x))
    }
}

impl From<VarInt> for u64 {
    ghost from_gives = { λ v x. (x ≡ v) × (v < 2 ^ 62) };

    fn from(v: VarInt) -> u64 {
        v.0
    }
}

/// An error exactly when the number is 2^62 or more.
impl TryFrom<u64> for VarInt {
    type Error = VarIntBoundsExceeded;

    ghost try_from_gives = { IsBounded };

    fn try_from(x: u64) -> Result<VarInt, VarIntBoundsExceeded> {
        VarInt::from_u64(x)
    }
}

/// An error exactly when the number is 2^62 or more.
impl TryFrom<u128> for VarInt {
    type Error = VarIntBoundsExceeded;

    ghost try_from_gives = { IsBounded };

    fn try_from(x: u128) -> Result<VarInt, VarIntBoundsExceeded> {
        let x = u64::try_from(x).map_err(|_| VarIntBoundsExceeded)?;
        VarInt::from_u64(x)
    }
}

/// An error exactly when the number is 2^62 or more.
impl TryFrom<usize> for VarInt {
    type Error = VarIntBoundsExceeded;

    ghost try_from_gives = { IsBounded };

    fn try_from(x: usize) -> Result<VarInt, VarIntBoundsExceeded> {
        VarInt::from_u64(x as u64)
    }
}

impl fmt::Display for VarInt {
    ghost output = { λ v. Some (decimal v) };

    fn fmt<W: fmt::Write>(&self, f: &mut fmt::Formatter<W>) -> fmt::Result {
        self.0.fmt(f)
    }
}

impl fmt::Debug for VarInt {
    fn fmt<W: fmt::Write>(&self, f: &mut fmt::Formatter<W>) -> fmt::Result {
        fmt::Debug::fmt(&self.0, f)
    }
}

/// What is added to a number below 2^14 to encode it in two bytes, the higher one first: its two highest bits are the
/// width's (RFC 9000, section 16).
pub const IN_TWO: u16 = 1 << 14;

/// The same for a number below 2^30 in four bytes.
pub const IN_FOUR: u32 = 2 << 30;

/// The same for a number below 2^62 in eight bytes.
pub const IN_EIGHT: u64 = 3 << 62;

// The number that a varint at the front encodes, in any width. The first byte is read, and then the whole width by one
// load.
#[inline(always)]
fn read_number<B: Buf>(buf: &mut B) -> coding::Result<u64>
    ensures ok { IfOk result (λ v. Takes (Encodes v) (B.unread buf.old) (B.unread buf.new)) }
    ensures bound { IfOk result (λ v. v < 2 ^ 62) }
    ensures cut { OnErr result ((v : ℕ) → NoFront (Encodes v) (B.unread buf.old)) }
    ensures left { OnErr result (B.unread buf.new ≡ drop 1 (B.unread buf.old)) }
    ensures kept { B.kept buf.new ≡ B.kept buf.old }
{
    let Some(first) = first_byte(buf) else {
        return Err(UnexpectedEnd);
    };
    match first {
        0..=0x3f => {
            buf.advance(1);
            return Ok(u64::from(first));
        }
        0x40..=0x7f => {
            if let Ok(bytes) = get_array(buf) {
                return Ok(u64::from(u16::from_be_bytes(bytes) - IN_TWO));
            }
        }
        0x80..=0xbf => {
            if let Ok(bytes) = get_array(buf) {
                return Ok(u64::from(u32::from_be_bytes(bytes) - IN_FOUR));
            }
        }
        0xc0..=0xff => {
            if let Ok(bytes) = get_array(buf) {
                return Ok(u64::from_be_bytes(bytes) - IN_EIGHT);
            }
        }
    }
    buf.advance(1);
    Err(UnexpectedEnd)
}

/// The number that a varint at the front of the bytes encodes, in any width, and what follows it (RFC 9000, section
/// 16). Returns `UnexpectedEnd` exactly when the bytes end before the varint does. It has one branch for each width,
/// and is inlined into its caller, so that no slice is stored in memory for it.
#[inline(always)]
#[tactic(auto, using(crate::proofs::Readings::found))]
pub fn split_var(bytes: &[u8]) -> coding::Result<(u64, &[u8])>
    ensures read { MatchResult result (λ x. Takes (Encodes x.0) bytes.now x.1.now)
        (λ _. (v : ℕ) → NoFront (Encodes v) bytes.now) }
    ensures found { Finds (λ x. (x.0, x.1.now)) result (number_at bytes.now) }
    ensures bound { IfOk result (λ x. x.0 < 2 ^ 62) }
{
    let mut rest = bytes;
    let number = read_number(&mut rest)?;
    Ok((number, rest))
}

// The number at the front of eight bytes, and how many of them encode it. Its two width bits determine by how much the
// word is shifted.
#[inline(always)]
fn number_of_word(front: &[u8; 8]) -> (u64, usize)
    ensures encoded { Encodes result.0 (take result.1 front.now) }
    ensures width { result.1 ≤ 8 }
    ensures bound { result.0 < 2 ^ 62 }
{
    let word = u64::from_be_bytes(*front);
    let width: usize = 1 << (word >> 62);
    ((word & VarInt::MAX.0) >> (64 - 8 * width), width)
}

/// The same by one load of eight bytes, if that many remain: no branch depends on the width. Use it for numbers whose
/// widths can't be predicted. If most have one width, `split_var` is faster.
#[inline(always)]
#[tactic(auto, using(crate::proofs::Words::takes_slice))]
pub fn split_var_by_word(bytes: &[u8]) -> coding::Result<(u64, &[u8])>
    ensures read { MatchResult result (λ x. Takes (Encodes x.0) bytes.now x.1.now)
        (λ _. (v : ℕ) → NoFront (Encodes v) bytes.now) }
    ensures found { Finds (λ x. (x.0, x.1.now)) result (number_at bytes.now) }
    ensures bound { IfOk result (λ x. x.0 < 2 ^ 62) }
{
    let Some(front) = bytes.first_chunk::<8>() else {
        return split_var(bytes);
    };
    let (number, width) = number_of_word(front);
    Ok((number, &bytes[width..]))
}

/// The same for numbers of which nearly all have one byte. Reading these is inlined into the caller; longer ones are
/// read by a call.
#[inline(always)]
#[tactic(auto, using(crate::proofs::Readings::found))]
pub fn split_var_mostly_one_byte(bytes: &[u8]) -> coding::Result<(u64, &[u8])>
    ensures read { MatchResult result (λ x. Takes (Encodes x.0) bytes.now x.1.now)
        (λ _. (v : ℕ) → NoFront (Encodes v) bytes.now) }
    ensures found { Finds (λ x. (x.0, x.1.now)) result (number_at bytes.now) }
    ensures bound { IfOk result (λ x. x.0 < 2 ^ 62) }
{
    if let Some((first, rest)) = bytes.split_first() {
        if *first < 64 {
            return Ok((u64::from(*first), rest));
        }
    }
    split_var_by_call(bytes)
}

// The same by a call, for any width.
#[inline]
fn split_var_by_call(bytes: &[u8]) -> coding::Result<(u64, &[u8])>
    ensures read { MatchResult result (λ x. Takes (Encodes x.0) bytes.now x.1.now)
        (λ _. (v : ℕ) → NoFront (Encodes v) bytes.now) }
    ensures found { Finds (λ x. (x.0, x.1.now)) result (number_at bytes.now) }
    ensures bound { IfOk result (λ x. x.0 < 2 ^ 62) }
{
    split_var_by_word(bytes)
}

/// Stores a number in its shortest encoding over the bytes from `at` on (RFC 9000, section 16), and returns the offset
/// at which it ends. The caller must ensure that the number is below 2^62, and that the slice has that many bytes
/// there. Other bytes don't change.
#[inline(always)]
#[tactic(auto, unfolding(crate::specs::Varint::shortest_varint, crate::specs::Varint::size, crate::specs::Number::bytes_of))]
pub fn store_var(bytes: &mut [u8], at: usize, n: u64) -> usize
    requires numeric { n < 2 ^ 62 }
    requires room { at + size n ≤ length bytes.old }
    ensures end { result ≡ at + size n }
    ensures near { result ≤ at + 8 }
    ensures front { take result bytes.new ≡ take at bytes.old ++ shortest_varint n }
    ensures back { drop result bytes.new ≡ drop result bytes.old }
    ensures len { length bytes.new ≡ length bytes.old }
{
    if n < 1 << 6 {
        store_array(bytes, at, [n as u8])
    } else if n < 1 << 14 {
        store_array(bytes, at, (IN_TWO + n as u16).to_be_bytes())
    } else if n < 1 << 30 {
        store_array(bytes, at, (IN_FOUR + n as u32).to_be_bytes())
    } else {
        store_array(bytes, at, (IN_EIGHT + n).to_be_bytes())
    }
}

/// All four widths are read; the shortest is written. If only bytes after the first are missing, `decode` consumes the
/// first.
impl Codec for VarInt {
    ghost encoded = { Encodes };

    ghost encoding = { shortest_varint };

    ghost after_cut = { drop 1 };

    fn decode<B: Buf>(buf: &mut B) -> coding::Result<VarInt>
        ensures ok { IfOk result (λ v. Takes (Encodes v) (B.unread buf.old) (B.unread buf.new)) }
        ensures cut { OnErr result ((v : ℕ) → NoFront (Encodes v) (B.unread buf.old)) }
        ensures left { OnErr result (B.unread buf.new ≡ drop 1 (B.unread buf.old)) }
        ensures kept { B.kept buf.new ≡ B.kept buf.old }
        // What was written is read back, whatever follows it.
        ensures own { (n : ℕ) (rest : List ℕ) → n < 2 ^ 62 → B.unread buf.old ≡ shortest_varint n ++ rest
            → (result ≡ Ok n) × (B.unread buf.new ≡ rest) }
    {
        Ok(VarInt(read_number(buf)?))
    }

    fn encode<B: BufMut>(&self, buf: &mut B) -> Result<(), NoRoom>
        ensures bound { self.now < 2 ^ 62 }
        ensures encoded { Encodes self.now (shortest_varint self.now) }
        ensures ok { OnOk result (B.written buf.new ≡ B.written buf.old ++ shortest_varint self.now) }
        ensures err { OnErr result
            (IsBegun (B.written buf.old) (shortest_varint self.now) (B.written buf.new)) }
        ensures full { OnErr result (B.spare buf.old < length (shortest_varint self.now)) }
        ensures room { KeepsRoom (B.written buf.old) (B.spare buf.old)
            (B.written buf.new) (B.spare buf.new) }
    {
        let x = self.0;
        if x < 1 << 6 {
            buf.put_u8(x as u8).map_err(|_| NoRoom)
        } else if x < 1 << 14 {
            buf.put_u16(IN_TWO + x as u16).map_err(|_| NoRoom)
        } else if x < 1 << 30 {
            buf.put_u32(IN_FOUR + x as u32).map_err(|_| NoRoom)
        } else {
            buf.put_u64(IN_EIGHT + x).map_err(|_| NoRoom)
        }
    }
}
