//! Connection ids (RFC 9000, section 5.1).
ghost use Rattle.std.specs.Prelude.{◌≡◌, ◌+◌, ◌-◌, ◌<◌, ◌≤◌, ◌++◌, List, ℕ, ⊤, Some, drop, length, replicate, nat_eq, refl, MatchOption, OnErr, OnOk};
ghost use Rattle.std.specs.Borrow.{sem};
ghost use Rattle.std.specs.Cmp.{partial_equiv_from_equiv, po};
ghost use Rattle.std.specs.Cmp.Lexicographic.{nat_list_eq_equiv, pointwise};
ghost use Rattle.std.specs.Cmp.Rules.{hashing};
ghost use Rattle.std.specs.Hash as fed;
ghost use Rattle.std.proofs.Common.{rules};
ghost use Rattle.quic_base.specs.Codec.{Takes, NoFront, IsBegun, KeepsRoom};
ghost use Rattle.quic_base.specs.ConnectionId.{IsLongId, long_id, id_text};
ghost use Rattle.quic_base.specs.ConnectionIdOrder.{id_cmp, id_total, id_ties};
ghost use Rattle.quic_base.specs.Number.{AreBytes};

use crate::coding::{NoRoom, are_bytes, get_array};
use bytes::{Buf, BufMut};
use std::cmp::Ordering;
use std::fmt;
use std::hash::{Hash, Hasher};
use std::marker::Model;

/// The longest connection id, in bytes (RFC 9000, section 17.2).
pub const MAX_CID_SIZE: usize = 20;

/// A connection id of at most 20 bytes. Contracts see it as the list of its bytes.
#[derive(Clone, Copy)]
pub struct ConnectionId {
    // In four bytes, so that an id is copied by whole words.
    len: u32,
    bytes: [u8; MAX_CID_SIZE],
}

impl Model for ConnectionId {
    ghost use Rattle.std.specs.Prelude.{◌-◌, ◌++◌, List, ℕ, length, refl, replicate, take};
    ghost use Rattle.quic_base.specs.ConnectionId.{IsPadded, length_taken, padded_whole};

    ghost Value = { List ℕ };

    ghost view = { λ c. take c.len c.bytes };

    ghost invariant = { λ c. IsPadded c.len c.bytes };

    ghost inverse = { λ id. record { len = length id; bytes = id ++ replicate (20 - length id) 0 } };

    ghost inverse_ok = { λ a h. Prim.rw (length_taken a.len a.bytes h, padded_whole a.len a.bytes h) refl };
}

impl ConnectionId {
    ghost use Rattle.quic_base.specs.ConnectionIdLoan.{LendsBytes};

    /// The id of these bytes. The caller must ensure that they are at most 20.
    #[inline(always)]
    pub fn new(bytes: &[u8]) -> ConnectionId
        requires { length bytes.now ≤ MAX_CID_SIZE }
        ensures { result ≡ bytes.now }
    {
        let mut id = ConnectionId {
            len: bytes.len() as u32,
            bytes: [0; MAX_CID_SIZE],
        };
        copy_front(&mut id.bytes, bytes);
        id
    }

    /// Consumes the next `len` bytes as an id. The caller must ensure that there are that many, and that `len` is at
    /// most 20.
    pub fn from_buf<B: Buf>(buf: &mut B, len: usize) -> ConnectionId
        requires short { len ≤ MAX_CID_SIZE }
        requires enough { len ≤ length (B.unread buf.old) }
        ensures front { B.unread buf.old ≡ result ++ B.unread buf.new }
        ensures width { length result ≡ len }
        ensures bytes { AreBytes result }
        ensures kept { B.kept buf.new ≡ B.kept buf.old }
    {
        let mut padded = [0; MAX_CID_SIZE];
        buf.copy_to_slice(&mut padded[..len]);
        are_bytes(&padded);
        ConnectionId {
            len: len as u32,
            bytes: padded,
        }
    }

    /// Reads and consumes a length byte and that many bytes (RFC 9000, section 17.2). Returns `None` exactly when a
    /// byte is missing or the length is above 20. Only the length byte is consumed then, if there was one.
    pub fn decode_long<B: Buf>(buf: &mut B) -> Option<ConnectionId>
        ensures some { MatchOption result ((id : List ℕ) → NoFront (IsLongId id) (B.unread buf.old))
            (λ id. Takes (IsLongId id) (B.unread buf.old) (B.unread buf.new)) }
        ensures left { MatchOption result (B.unread buf.new ≡ drop 1 (B.unread buf.old)) (λ _. ⊤) }
        ensures kept { B.kept buf.new ≡ B.kept buf.old }
    {
        let Ok(bytes) = get_array(buf) else {
            return None;
        };
        let len = usize::from(u8::from_be_bytes(bytes));
        if len > MAX_CID_SIZE || buf.remaining() < len {
            return None;
        }
        Some(ConnectionId::from_buf(buf, len))
    }

    /// Appends a length byte and the id's bytes (RFC 9000, section 17.2). Returns `NoRoom` only if they are longer than
    /// the buffer's spare room. The buffer then has its old contents, and possibly a prefix of these bytes after them.
    pub fn encode_long<B: BufMut>(&self, buf: &mut B) -> Result<(), NoRoom>
        ensures encoded { IsLongId self.now (long_id self.now) }
        ensures ok { OnOk result (B.written buf.new ≡ B.written buf.old ++ long_id self.now) }
        ensures err { OnErr result
            (IsBegun (B.written buf.old) (long_id self.now) (B.written buf.new)) }
        ensures full { OnErr result (B.spare buf.old < length (long_id self.now)) }
        ensures room { KeepsRoom (B.written buf.old) (B.spare buf.old)
            (B.written buf.new) (B.spare buf.new) }
    {
        let bytes = self.as_slice();
        are_bytes(bytes);
        buf.put_u8(self.len as u8).map_err(|_| NoRoom)?;
        buf.put_slice(bytes).map_err(|_| NoRoom)
    }

    /// The bytes.
    pub fn as_slice(&self) -> &[u8]
        ensures value { result.now ≡ self.now }
        ensures short { length result.now ≤ MAX_CID_SIZE }
    {
        &self.bytes[..self.len as usize]
    }

    /// The id's bytes, followed by zeros up to 20 bytes.
    pub fn padded(&self) -> &[u8; MAX_CID_SIZE]
        ensures value { result.now ≡ self.now ++ replicate (MAX_CID_SIZE - length self.now) 0 }
        ensures short { length self.now ≤ MAX_CID_SIZE }
    {
        &self.bytes
    }

    /// The bytes, to be changed. Once the borrow ends, the id has the bytes that were written through it.
    pub fn as_mut_slice(&mut self) -> &mut [u8]
        ensures* writes_back { sem 𝓛 (LendsBytes self.entry result) }
        ensures value { result.now ≡ self.old }
    {
        &mut self.bytes[..self.len as usize]
    }

    /// Replaces the id's bytes. The caller must ensure that the new ones are as many.
    pub fn copy_from_slice(&mut self, bytes: &[u8])
        requires { length bytes.now ≡ length self.old }
        ensures { self.new ≡ bytes.now }
    {
        // This gives the prover the bound on the length.
        let _ = &self.len;
        *self = ConnectionId::new(bytes);
    }
}

// Copies the bytes to the front.
#[inline(always)]
fn copy_front(to: &mut [u8; MAX_CID_SIZE], bytes: &[u8])
    requires { length bytes.now ≤ MAX_CID_SIZE }
    ensures { to.new ≡ bytes.now ++ drop (length bytes.now) to.old }
{
    let len = bytes.len();
    if len == 8 {
        // The usual length, by one load.
        to[..8].copy_from_slice(bytes);
    } else if len >= 16 {
        copy_ends::<16>(to, bytes);
    } else if len >= 8 {
        copy_ends::<8>(to, bytes);
    } else if len >= 4 {
        copy_ends::<4>(to, bytes);
    } else {
        to[..len].copy_from_slice(bytes);
    }
}

// Copies N to 2 N bytes to the front: the first N and the last N, each by one whole load.
#[inline(always)]
fn copy_ends<const N: usize>(to: &mut [u8; MAX_CID_SIZE], bytes: &[u8])
    requires room { length bytes.now ≤ MAX_CID_SIZE }
    requires enough { N ≤ length bytes.now }
    requires covered { length bytes.now ≤ N + N }
    ensures { to.new ≡ bytes.now ++ drop (length bytes.now) to.old }
{
    let len = bytes.len();
    to[..N].copy_from_slice(&bytes[..N]);
    to[len - N..len].copy_from_slice(&bytes[len - N..]);
}

/// Two ids are equal exactly when their bytes are.
impl PartialEq for ConnectionId {
    ghost eq = { pointwise nat_eq };

    ghost laws = { partial_equiv_from_equiv nat_list_eq_equiv };

    fn eq(&self, other: &ConnectionId) -> bool {
        self.as_slice() == other.as_slice()
    }
}

impl Eq for ConnectionId {
    ghost laws = { nat_list_eq_equiv };
}

/// Hashes like the slice of its bytes.
impl Hash for ConnectionId {
    ghost hash_input = { fed.slice fed.u8 };

    ghost respects_eq = { Prim.search (hashing, rules) };

    fn hash<H: Hasher>(&self, state: &mut H) {
        self.as_slice().hash(state);
    }
}

/// Ids are ordered by length, then by bytes.
impl Ord for ConnectionId {
    ghost cmp = { id_cmp };

    ghost total = { id_total };

    ghost matches_partial_cmp = { λ a b. refl };

    ghost matches_eq = { id_ties };

    fn cmp(&self, other: &ConnectionId) -> Ordering {
        self.len
            .cmp(&other.len)
            .then_with(|| self.as_slice().cmp(other.as_slice()))
    }
}

impl PartialOrd for ConnectionId {
    ghost partial_cmp = { λ a b. Some (id_cmp a b) };

    ghost laws = { po id_total id_ties };

    fn partial_cmp(&self, other: &ConnectionId) -> Option<Ordering> {
        Some(self.cmp(other))
    }
}

/// Two lower-case hexadecimal digits per byte.
impl fmt::Display for ConnectionId {
    ghost output = { λ id. Some (id_text id) };

    fn fmt<W: fmt::Write>(&self, f: &mut fmt::Formatter<W>) -> fmt::Result {
        for byte in self.as_slice() {
            write!(f, "{byte:02x}")?;
        }
        Ok(())
    }
}

/// Text like that of the slice of its bytes.
impl fmt::Debug for ConnectionId {
    fn fmt<W: fmt::Write>(&self, f: &mut fmt::Formatter<W>) -> fmt::Result {
        fmt::Debug::fmt(self.as_slice(), f)
    }
}
