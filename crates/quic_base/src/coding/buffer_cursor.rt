//! A buffer that is read from its front.
ghost use Rattle.std.specs.Prelude.{◌≡◌, ◌<◌, ◌≤◌, ◌+◌, ◌^◌, ◌∷◌, [], drop, length};
ghost use Rattle.quic_base.specs.Number.{AreBytes};

use crate::coding::are_bytes;
use bytes::{Buf, BytesMut};
use std::marker::Model;

/// A buffer, and the offset up to which it has been read. Contracts see both. Reading doesn't change the bytes.
#[derive(Drop)]
pub struct Cursor {
    buffer: BytesMut,
    place: usize,
}

impl Model for Cursor {
    ghost use Rattle.std.specs.Prelude.{◌≤◌, length};
    ghost use Rattle.quic_base.specs.Cursor.{ReadBuffer};

    ghost Value = { ReadBuffer };

    ghost view = { λ c. record { bytes = c.buffer; position = c.place } };

    ghost invariant = { λ c. c.place ≤ length c.buffer.items };
}

impl Cursor {
    ghost use Rattle.quic_base.specs.Cursor.{unread};

    /// A cursor at the front of the buffer.
    #[inline]
    pub fn new(buffer: BytesMut) -> Cursor
        ensures bytes { result.bytes ≡ buffer }
        ensures start { result.position ≡ 0 }
    {
        Cursor { buffer, place: 0 }
    }

    /// How many bytes have been read.
    #[inline]
    pub fn position(&self) -> usize
        ensures value { result ≡ self.now.position }
        ensures within { result ≤ length self.now.bytes.items }
    {
        self.place
    }

    /// How many bytes remain.
    #[inline]
    pub fn remaining(&self) -> usize
        ensures value { result ≡ length (unread self.now) }
        ensures within { self.now.position + result ≡ length self.now.bytes.items }
        ensures bound { length self.now.bytes.items < 2 ^ 63 }
    {
        self.buffer.len() - self.place
    }

    /// The remaining bytes.
    #[inline]
    pub fn rest(&self) -> &[u8]
        ensures value { result.now ≡ unread self.now }
        ensures bytes { AreBytes (unread self.now) }
    {
        let rest = &self.buffer.as_slice()[self.place..];
        are_bytes(rest);
        rest
    }

    /// Skips the next `count` bytes. The caller must ensure that there are that many.
    #[inline]
    pub fn advance(&mut self, count: usize)
        requires { count ≤ length (unread self.old) }
        ensures bytes { self.new.bytes ≡ self.old.bytes }
        ensures place { self.new.position ≡ self.old.position + count }
        ensures rest { unread self.new ≡ drop count (unread self.old) }
    {
        let _len = self.buffer.len();
        self.place += count;
    }

    /// The whole buffer, of which `position` bytes have been read.
    #[inline]
    pub fn get_ref(&self) -> &BytesMut
        ensures value { result.now ≡ self.now.bytes }
        ensures within { self.now.position ≤ length self.now.bytes.items }
    {
        &self.buffer
    }

    /// The whole buffer, of which `position` bytes had been read.
    #[inline]
    pub fn into_inner(self) -> BytesMut
        ensures value { result ≡ self.bytes }
        ensures within { self.position ≤ length self.bytes.items }
    {
        self.buffer
    }
}

/// Reads the remaining bytes.
impl Buf for Cursor {
    ghost use Rattle.quic_base.specs.Cursor.{unread};

    ghost unread = { unread };

    ghost kept = { λ c. (c.bytes.items, c.bytes.spare) ∷ [] };

    #[inline]
    fn remaining(&self) -> usize {
        Cursor::remaining(self)
    }

    #[inline]
    fn chunk(&self) -> &[u8] {
        self.rest()
    }

    #[inline]
    fn advance(&mut self, cnt: usize) {
        Cursor::advance(self, cnt);
    }
}
