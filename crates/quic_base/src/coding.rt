//! Reading values from the front of a buffer, and writing them to its end.
ghost use Rattle.std.specs.Prelude.{◌≡◌, ◌<◌, ◌≤◌, ◌+◌, ◌^◌, ◌++◌, List, ℕ, take, drop, length, slice_index, IfOk, IfSome, IsNone, OnErr, OnOk};
ghost use Rattle.std.specs.Net.Addr.{ipv4_octets, ipv6_octets};
ghost use Rattle.quic_base.specs.Codec.{Takes, NoFront, IsBegun, KeepsRoom};
ghost use Rattle.quic_base.specs.Number.{AreBytes, IsNumber, IsOctets, bytes_of};
ghost use Rattle.quic_base.specs.Varint.{Encodes, shortest_varint};

use crate::varint::VarInt;
use bytes::{Buf, BufMut};
use std::alloc::AllocError;
use std::net::{Ipv4Addr, Ipv6Addr};
use thiserror::Error;

mod buffer_cursor;

pub use buffer_cursor::Cursor;

/// A buffer ended before a value did.
#[derive(Clone, Copy, Debug, PartialEq, Eq, Error)]
#[error("unexpected end of buffer")]
pub struct UnexpectedEnd;

/// A buffer lacks the room for what was to be written, or an allocation failed.
#[derive(Clone, Copy, Debug, PartialEq, Eq, Error)]
#[error("no room in buffer")]
pub struct NoRoom;

impl From<AllocError> for NoRoom {
    fn from(_error: AllocError) -> NoRoom {
        NoRoom
    }
}

/// What a decoder returns.
pub type Result<T> = std::result::Result<T, UnexpectedEnd>;

/// A value that bytes encode.
pub trait Codec: Sized {
    // The bytes encode the value.
    ghost encoded: { Self → List ℕ → Type 0 };

    // The encoding that is written.
    ghost encoding: { Self → List ℕ };

    // The bytes that remain after an `UnexpectedEnd`.
    ghost after_cut: { List ℕ → List ℕ } = { λ r. r };

    /// Reads the encoding at the front of the buffer and consumes it. Returns `UnexpectedEnd` exactly when no prefix of
    /// the remaining bytes encodes a value. It doesn't allocate.
    fn decode<B: Buf>(buf: &mut B) -> Result<Self>
        ensures ok { IfOk result (λ v. Takes (encoded v) (B.unread buf.old) (B.unread buf.new)) }
        ensures cut { OnErr result ((v : Self) → NoFront (encoded v) (B.unread buf.old)) }
        ensures left { OnErr result (B.unread buf.new ≡ after_cut (B.unread buf.old)) }
        ensures kept { B.kept buf.new ≡ B.kept buf.old };

    /// Appends the encoding. Returns `NoRoom` only if the encoding is longer than the buffer's spare room. The buffer
    /// then has its old contents, and possibly a prefix of the encoding after them.
    fn encode<B: BufMut>(&self, buf: &mut B) -> std::result::Result<(), NoRoom>
        ensures encoded { encoded self.now (encoding self.now) }
        ensures ok { OnOk result (B.written buf.new ≡ B.written buf.old ++ encoding self.now) }
        ensures err { OnErr result
            (IsBegun (B.written buf.old) (encoding self.now) (B.written buf.new)) }
        ensures full { OnErr result (B.spare buf.old < length (encoding self.now)) }
        ensures room { KeepsRoom (B.written buf.old) (B.spare buf.old)
            (B.written buf.new) (B.spare buf.new) };
}

// The first remaining byte, which isn't consumed.
#[inline]
pub(crate) fn first_byte<B: Buf>(buf: &B) -> Option<u8>
    ensures none { IsNone result → length (B.unread buf.now) ≡ 0 }
    ensures some { IfSome result (λ x. (0 < length (B.unread buf.now))
        × (slice_index (B.unread buf.now) 0 ≡ x)) }
{
    buf.chunk().first().copied()
}

/// Proves that each element is a byte, for a caller that has lost that bound. It does nothing at run time.
#[inline]
pub fn are_bytes(bytes: &[u8])
    ensures { AreBytes bytes.now }
{}

/// Consumes the next N bytes and returns them, by one load if they are contiguous. N is at most 16. Returns
/// `UnexpectedEnd` exactly when fewer remain; nothing is consumed then.
#[inline]
pub fn get_array<B: Buf, const N: usize>(buf: &mut B) -> Result<[u8; N]>
    requires { N ≤ 16 }
    ensures ok { IfOk result (λ a. B.unread buf.old ≡ a ++ B.unread buf.new) }
    ensures width { IfOk result (λ a. length a ≡ N) }
    ensures bytes { IfOk result AreBytes }
    ensures cut { OnErr result (length (B.unread buf.old) < N) }
    ensures left { OnErr result (B.unread buf.new ≡ B.unread buf.old) }
    ensures kept { B.kept buf.new ≡ B.kept buf.old }
{
    if let Some(bytes) = buf.chunk().first_chunk::<N>() {
        let bytes = *bytes;
        are_bytes(&bytes);
        buf.advance(N);
        return Ok(bytes);
    }
    if buf.remaining() < N {
        return Err(UnexpectedEnd);
    }
    let mut bytes = [0; N];
    buf.copy_to_slice(&mut bytes);
    are_bytes(&bytes);
    Ok(bytes)
}

/// Stores an array over the bytes from `at` on, and returns the offset at which it ends. The caller must ensure that
/// the slice has that many bytes there. Other bytes don't change.
#[inline(always)]
pub fn store_array<const N: usize>(bytes: &mut [u8], at: usize, array: [u8; N]) -> usize
    requires { at + N ≤ length bytes.old }
    ensures end { result ≡ at + N }
    ensures front { take result bytes.new ≡ take at bytes.old ++ array.entry }
    ensures back { drop result bytes.new ≡ drop result bytes.old }
    ensures len { length bytes.new ≡ length bytes.old }
{
    bytes[at..at + N].copy_from_slice(&array);
    at + N
}

/// Stores bytes over those from `at` on, and returns the offset at which they end. The caller must ensure that the
/// slice has that many bytes there. Other bytes don't change.
#[inline(always)]
pub fn store_bytes(dest: &mut [u8], at: usize, bytes: &[u8]) -> usize
    requires { at + length bytes.now ≤ length dest.old }
    ensures end { result ≡ at + length bytes.now }
    ensures front { take result dest.new ≡ take at dest.old ++ bytes.now }
    ensures back { drop result dest.new ≡ drop result dest.old }
    ensures len { length dest.new ≡ length dest.old }
{
    let end = at + bytes.len();
    dest[at..end].copy_from_slice(bytes);
    end
}

/// A byte is encoded as itself.
impl Codec for u8 {
    ghost encoded = { IsNumber 1 };

    ghost encoding = { bytes_of 1 };

    fn decode<B: Buf>(buf: &mut B) -> Result<u8> {
        Ok(u8::from_be_bytes(get_array(buf)?))
    }

    #[tactic(auto, using(crate::proofs::Numbers::is_number_1), unfolding(crate::specs::Number::bytes_of))]
    fn encode<B: BufMut>(&self, buf: &mut B) -> std::result::Result<(), NoRoom> {
        buf.put_u8(*self).map_err(|_| NoRoom)
    }
}

/// Two bytes, the higher one first. Nothing is consumed on `UnexpectedEnd`.
impl Codec for u16 {
    ghost encoded = { IsNumber 2 };

    ghost encoding = { bytes_of 2 };

    fn decode<B: Buf>(buf: &mut B) -> Result<u16> {
        Ok(u16::from_be_bytes(get_array(buf)?))
    }

    fn encode<B: BufMut>(&self, buf: &mut B) -> std::result::Result<(), NoRoom> {
        buf.put_u16(*self).map_err(|_| NoRoom)
    }
}

/// Four bytes, the highest one first. Nothing is consumed on `UnexpectedEnd`.
impl Codec for u32 {
    ghost encoded = { IsNumber 4 };

    ghost encoding = { bytes_of 4 };

    fn decode<B: Buf>(buf: &mut B) -> Result<u32> {
        Ok(u32::from_be_bytes(get_array(buf)?))
    }

    fn encode<B: BufMut>(&self, buf: &mut B) -> std::result::Result<(), NoRoom> {
        buf.put_u32(*self).map_err(|_| NoRoom)
    }
}

/// Eight bytes, the highest one first. Nothing is consumed on `UnexpectedEnd`.
impl Codec for u64 {
    ghost encoded = { IsNumber 8 };

    ghost encoding = { bytes_of 8 };

    fn decode<B: Buf>(buf: &mut B) -> Result<u64> {
        Ok(u64::from_be_bytes(get_array(buf)?))
    }

    fn encode<B: BufMut>(&self, buf: &mut B) -> std::result::Result<(), NoRoom> {
        buf.put_u64(*self).map_err(|_| NoRoom)
    }
}

/// The four octets, in the order in which an address is written.
impl Codec for Ipv4Addr {
    ghost encoded = { λ a. IsOctets 4 (ipv4_octets a) };

    ghost encoding = { ipv4_octets };

    fn decode<B: Buf>(buf: &mut B) -> Result<Ipv4Addr> {
        Ok(Ipv4Addr::from_octets(get_array(buf)?))
    }

    fn encode<B: BufMut>(&self, buf: &mut B) -> std::result::Result<(), NoRoom> {
        let octets: [u8; 4] = self.octets();
        are_bytes(&octets);
        buf.put_slice(&octets).map_err(|_| NoRoom)
    }
}

/// The sixteen octets, in the order in which an address is written.
impl Codec for Ipv6Addr {
    ghost encoded = { λ a. IsOctets 16 (ipv6_octets a) };

    ghost encoding = { ipv6_octets };

    fn decode<B: Buf>(buf: &mut B) -> Result<Ipv6Addr> {
        Ok(Ipv6Addr::from_octets(get_array(buf)?))
    }

    fn encode<B: BufMut>(&self, buf: &mut B) -> std::result::Result<(), NoRoom> {
        let octets: [u8; 16] = self.octets();
        are_bytes(&octets);
        buf.put_slice(&octets).map_err(|_| NoRoom)
    }
}

/// Reads from any buffer by the type of the value.
pub trait BufExt: Buf {
    /// Reads and consumes the value at the front, with the result of `T::decode`.
    final fn get<T: Codec>(&mut self) -> Result<T>
    where
        Self: Sized,
        ensures ok { IfOk result
            (λ v. Takes (T.encoded v) (Self.unread self.old) (Self.unread self.new)) }
        ensures cut { OnErr result ((v : T) → NoFront (T.encoded v) (Self.unread self.old)) }
        ensures left { OnErr result (Self.unread self.new ≡ T.after_cut (Self.unread self.old)) }
        ensures kept { Self.kept self.new ≡ Self.kept self.old }
    {
        T::decode(self)
    }

    /// Reads and consumes the varint at the front (RFC 9000, section 16), with the result of `VarInt::decode`.
    final fn get_var(&mut self) -> Result<u64>
    where
        Self: Sized,
        ensures ok { IfOk result
            (λ v. Takes (Encodes v) (Self.unread self.old) (Self.unread self.new)) }
        ensures bound { IfOk result (λ v. v < 2 ^ 62) }
        ensures cut { OnErr result ((v : ℕ) → NoFront (Encodes v) (Self.unread self.old)) }
        ensures left { OnErr result (Self.unread self.new ≡ drop 1 (Self.unread self.old)) }
        ensures kept { Self.kept self.new ≡ Self.kept self.old }
    {
        Ok(VarInt::decode(self)?.into_inner())
    }
}

impl<B: Buf> BufExt for B {}

/// Writes to any buffer by the type of the value.
pub trait BufMutExt: BufMut {
    /// Appends the encoding of `x`, as `T::encode` does.
    final fn write<T: Codec + Drop>(&mut self, x: T) -> std::result::Result<(), NoRoom>
    where
        Self: Sized,
        ensures encoded { T.encoded x (T.encoding x) }
        ensures ok { OnOk result (Self.written self.new ≡ Self.written self.old ++ T.encoding x) }
        ensures err { OnErr result
            (IsBegun (Self.written self.old) (T.encoding x) (Self.written self.new)) }
        ensures full { OnErr result (Self.spare self.old < length (T.encoding x)) }
        ensures room { KeepsRoom (Self.written self.old) (Self.spare self.old)
            (Self.written self.new) (Self.spare self.new) }
    {
        x.encode(self)
    }

    /// Appends the shortest encoding of `x` as a varint (RFC 9000, section 16). The caller must ensure that
    /// `x` is below 2^62.
    final fn write_var(&mut self, x: u64) -> std::result::Result<(), NoRoom>
    where
        Self: Sized,
        requires { x < 2 ^ 62 }
        ensures encoded { Encodes x (shortest_varint x) }
        ensures ok { OnOk result (Self.written self.new ≡ Self.written self.old ++ shortest_varint x) }
        ensures err { OnErr result
            (IsBegun (Self.written self.old) (shortest_varint x) (Self.written self.new)) }
        ensures full { OnErr result (Self.spare self.old < length (shortest_varint x)) }
        ensures room { KeepsRoom (Self.written self.old) (Self.spare self.old)
            (Self.written self.new) (Self.spare self.new) }
    {
        VarInt::from_u64_unchecked(x).encode(self)
    }
}

impl<B: BufMut> BufMutExt for B {}
