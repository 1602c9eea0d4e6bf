//! The one writer of headers. It writes a header at the front of a slice, one field after another, by stores of whole
//! arrays whose ends the next field overwrites.
ghost use Rattle.std.specs.Prelude.{◌≡◌, ◌+◌, ◌*◌, ◌^◌, ◌<◌, ◌≤◌, ◌⊎◌, ◌∷◌, ◌++◌, List, ℕ, length, take, drop, replicate, true, ◌↔◌, IsTrue};
ghost use Rattle.quic_base.specs.ConnectionId.{long_id};
ghost use Rattle.quic_base.specs.Varint.{shortest_varint, size, IsWidth};
ghost use Rattle.quic_crypto.specs.PacketNumbers.{IsInRange};
ghost use Rattle.quic_header_encode.specs.Kinds.{first_in, long_front, version_in};
ghost use Rattle.quic_header_encode.specs.Writing.{end_bytes, fields_by, stored_bytes, stored_len, token_by, with_len, HasStoreRoom, HasLow, IsExact, IsStorable, IsLong, IsShortToken, TakesLen};

use crate::fields::{store_ends, store_id, store_number};
use crate::long_type::HeaderKind;
use quic_base::coding::{store_array, store_bytes};
use quic_base::ids::ConnectionId;
use quic_base::varint::{IN_EIGHT, IN_FOUR, IN_TWO, store_var, var_size};
use quic_crypto::packet_number::PacketNumber;

/// An id that is written.
pub trait StoredId: Copy {
    ghost id: { Self → List ℕ };

    ghost room: { Self → ℕ };

    /// How many bytes the id has.
    fn len(self) -> usize
        ensures value { result ≡ length (id self) }
        ensures near { result ≤ room self };

    /// Stores the id from `at` on, and returns the offset at which it ends. The caller must ensure that it has at most
    /// 20 bytes, and that there is room for it, or for 20 bytes if it is padded.
    fn store(self, out: &mut [u8], at: usize) -> usize
        requires few { length (id self) ≤ 20 }
        requires room { at + room self ≤ length out.old }
        ensures end { result ≡ at + length (id self) }
        ensures near { result ≤ at + room self }
        ensures front { take result out.new ≡ take at out.old ++ id self }
        ensures back { drop (at + room self) out.new ≡ drop (at + room self) out.old }
        ensures len { length out.new ≡ length out.old };
}

/// An id that is written with zeros up to 20 bytes. There must be room for these.
#[derive(Clone, Copy)]
pub struct Padded<'a>(pub &'a ConnectionId);

impl StoredId for Padded<'_> {
    ghost id = { λ s. s.0.now };

    ghost room = { λ s. 20 };

    #[inline(always)]
    fn len(self) -> usize {
        self.0.as_slice().len()
    }

    #[inline(always)]
    fn store(self, out: &mut [u8], at: usize) -> usize {
        store_array(out, at, *self.0.padded());
        at + self.0.as_slice().len()
    }
}

/// An id of which only its own bytes are written.
#[derive(Clone, Copy)]
pub struct Exact<'a>(pub &'a [u8]);

impl StoredId for Exact<'_> {
    ghost id = { λ s. s.0.now };

    ghost room = { λ s. length s.0.now };

    #[inline(always)]
    fn len(self) -> usize {
        self.0.len()
    }

    #[inline(always)]
    fn store(self, out: &mut [u8], at: usize) -> usize {
        store_id(out, at, self.0)
    }
}

/// The fields of a header, with ids and a token that are borrowed.
#[derive(Clone, Copy)]
pub struct HeaderRef<'a, I> {
    /// The kind.
    pub kind: HeaderKind,
    /// The bits of the first byte other than the type and the number length. In long headers: 0xc0, or 0x80 to clear
    /// the fixed bit (RFC 9287). In short headers: 0x40, or 0 to clear the fixed bit, plus 0x20 for the spin bit and
    /// 0x04 for the key phase. In a version negotiation: the whole byte, with 0x80 set.
    pub first: u8,
    /// The version (RFC 9000, section 15). Short headers and version negotiations have none.
    pub version: u32,
    /// The receiver's id.
    pub dst_cid: I,
    /// The sender's id. Short headers have none.
    pub src_cid: I,
    /// The token of an Initial packet.
    pub token: &'a [u8],
    /// The truncated packet number. Retry and version negotiation have none.
    pub number: &'a PacketNumber,
    /// How many bytes the length field of Initial, Handshake and 0-RTT has: 1, 2, 4 or 8.
    pub length_len: usize,
}

/// Stores a short header up to its number at the front, and returns the offset at which the number begins. The caller
/// must ensure that the id has at most 20 bytes, and that there is room for it.
#[inline(always)]
pub fn store_short<I: StoredId>(out: &mut [u8], first: u8, dst_cid: I) -> usize
    requires few { length (I.id dst_cid) ≤ 20 }
    requires room { 1 + I.room dst_cid ≤ length out.old }
    ensures end { result ≡ 1 + length (I.id dst_cid) }
    ensures near { result ≤ 1 + I.room dst_cid }
    ensures front { take result out.new ≡ first ∷ I.id dst_cid }
    ensures back { drop (1 + I.room dst_cid) out.new ≡ drop (1 + I.room dst_cid) out.old }
    ensures len { length out.new ≡ length out.old }
{
    let at = store_array(out, 0, [first]);
    dst_cid.store(out, at)
}

// Stores an id after its length.
#[inline(always)]
fn store_long_id<I: StoredId>(out: &mut [u8], at: usize, id: I) -> usize
    requires few { length (I.id id) ≤ 20 }
    requires room { at + (1 + I.room id) ≤ length out.old }
    ensures end { result ≡ at + (1 + length (I.id id)) }
    ensures near { result ≤ at + (1 + I.room id) }
    ensures front { take result out.new ≡ take at out.old ++ long_id (I.id id) }
    ensures back { drop (at + (1 + I.room id)) out.new ≡ drop (at + (1 + I.room id)) out.old }
    ensures len { length out.new ≡ length out.old }
{
    let at = store_array(out, at, [id.len() as u8]);
    id.store(out, at)
}

/// Stores the beginning of a long header, up to the end of the sender's id, at the front, and returns the offset at
/// which it ends. The caller must ensure that each id has at most 20 bytes, and that there is room for it.
#[inline(always)]
#[tactic(auto, unfolding(quic_base::specs::Number::bytes_of))]
pub fn store_long_start<I: StoredId>(
    out: &mut [u8],
    first: u8,
    version: u32,
    dst: I,
    src: I,
) -> usize
    requires dst_few { length (I.id dst) ≤ 20 }
    requires src_few { length (I.id src) ≤ 20 }
    requires dst_room { 6 + I.room dst ≤ length out.old }
    requires src_room { 7 + length (I.id dst) + I.room src ≤ length out.old }
    ensures end { result ≡ 7 + length (I.id dst) + length (I.id src) }
    ensures front { take result out.new ≡ long_front first version (I.id dst) (I.id src) }
    ensures back { length (I.id dst) ≡ I.room dst → length (I.id src) ≡ I.room src
        → drop result out.new ≡ drop result out.old }
    ensures len { length out.new ≡ length out.old }
{
    let at = store_array(out, 0, [first]);
    let at = store_array(out, at, version.to_be_bytes());
    let at = store_long_id(out, at, dst);
    store_long_id(out, at, src)
}

/// Stores a token after its length, and returns the offset at which it ends. The caller must ensure that there is room
/// for it, that it has fewer than 2^62 bytes and, if SHORT is true, that it is empty or has 16 to 32.
#[inline(always)]
pub fn store_token<const SHORT: bool>(out: &mut [u8], at: usize, token: &[u8]) -> usize
    requires short { SHORT ≡ true → IsShortToken token.now }
    requires numeric { length token.now < 2 ^ 62 }
    requires room { at + (size (length token.now) + length token.now) ≤ length out.old }
    ensures end { result ≡ at + (size (length token.now) + length token.now) }
    ensures front { take result out.new ≡ take at out.old ++ (shortest_varint (length token.now) ++ token.now) }
    ensures back { drop result out.new ≡ drop result out.old }
    ensures len { length out.new ≡ length out.old }
{
    if SHORT || token.len() < 1 << 6 {
        store_short_token::<SHORT>(out, at, token)
    } else {
        store_long_token(out, at, token)
    }
}

// Stores a token whose length has one byte.
#[inline(always)]
#[tactic(auto, using(crate::proofs::Stores::size_small))]
fn store_short_token<const SHORT: bool>(out: &mut [u8], at: usize, token: &[u8]) -> usize
    requires short { SHORT ≡ true → IsShortToken token.now }
    requires small { length token.now < 2 ^ 6 }
    requires room { at + (size (length token.now) + length token.now) ≤ length out.old }
    ensures end { result ≡ at + (size (length token.now) + length token.now) }
    ensures front { take result out.new ≡ take at out.old ++ (shortest_varint (length token.now) ++ token.now) }
    ensures back { drop result out.new ≡ drop result out.old }
    ensures len { length out.new ≡ length out.old }
{
    let at = store_array(out, at, [token.len() as u8]);
    if token.len() == 0 {
        at
    } else {
        store_some::<SHORT>(out, at, token)
    }
}

// Stores bytes, at least one of them; 16 to 32 by stores.
#[inline(always)]
fn store_some<const SHORT: bool>(out: &mut [u8], at: usize, bytes: &[u8]) -> usize
    requires short { SHORT ≡ true → IsShortToken bytes.now }
    requires some { 0 < length bytes.now }
    requires room { at + length bytes.now ≤ length out.old }
    ensures end { result ≡ at + length bytes.now }
    ensures front { take result out.new ≡ take at out.old ++ bytes.now }
    ensures back { drop result out.new ≡ drop result out.old }
    ensures len { length out.new ≡ length out.old }
{
    if SHORT || bytes.len() >= 16 && bytes.len() <= 32 {
        store_ends::<16>(out, at, bytes)
    } else {
        store_bytes(out, at, bytes)
    }
}

// Stores a token whose length has more than one byte.
#[inline(never)]
fn store_long_token(out: &mut [u8], at: usize, token: &[u8]) -> usize
    requires large { 2 ^ 6 ≤ length token.now }
    requires numeric { length token.now < 2 ^ 62 }
    requires room { at + (size (length token.now) + length token.now) ≤ length out.old }
    ensures end { result ≡ at + (size (length token.now) + length token.now) }
    ensures front { take result out.new ≡ take at out.old ++ (shortest_varint (length token.now) ++ token.now) }
    ensures back { drop result out.new ≡ drop result out.old }
    ensures len { length out.new ≡ length out.old }
{
    let at = store_var(out, at, token.len() as u64);
    store_bytes(out, at, token)
}

/// Stores the `len` zeros of a length that is filled in later, 1, 2, 4 or 8, and returns the offset at which they end.
/// The caller must ensure that there is room.
#[inline(always)]
pub fn store_no_length(out: &mut [u8], at: usize, len: usize) -> usize
    requires known { IsWidth len }
    requires room { at + len ≤ length out.old }
    ensures end { result ≡ at + len }
    ensures front { take result out.new ≡ take at out.old ++ replicate len 0 }
    ensures back { drop result out.new ≡ drop result out.old }
    ensures len { length out.new ≡ length out.old }
{
    match len {
        1 => store_array(out, at, [0]),
        4 => store_array(out, at, [0; 4]),
        8 => store_array(out, at, [0; 8]),
        _ => store_array(out, at, [0; 2]),
    }
}

impl<I: StoredId> HeaderRef<'_, I> {
    // The first byte of a header that isn't short.
    #[inline(always)]
    fn long_first(&self) -> u8
        requires long { IsLong self.now.kind }
        requires low { HasLow self.now.kind self.now.first }
        ensures { result ≡ first_in (fields_by I.id self.now) }
    {
        match self.kind {
            HeaderKind::VersionNegotiate => self.first,
            HeaderKind::Retry => self.first + self.kind.type_bits(self.version),
            _ => self.first + self.kind.type_bits(self.version) + self.number.tag(),
        }
    }

    // The version in a long header.
    #[inline(always)]
    fn field_version(&self) -> u32
        requires { IsLong self.now.kind }
        ensures { result ≡ version_in (fields_by I.id self.now) }
    {
        match self.kind {
            HeaderKind::VersionNegotiate => 0,
            _ => self.version,
        }
    }

    /// How many bytes the header has. The caller must ensure that its token has fewer than 2^62 bytes.
    pub fn encoded_len(&self) -> usize
        requires { IsStorable I.id self.now }
        ensures { result ≡ stored_len I.id self.now }
    {
        match self.kind {
            HeaderKind::Short => 1 + self.dst_cid.len() + self.number.len(),
            HeaderKind::Initial => {
                let token = var_size(self.token.len() as u64) + self.token.len();
                7 + self.dst_cid.len()
                    + self.src_cid.len()
                    + token
                    + (self.length_len + self.number.len())
            }
            HeaderKind::Retry => 7 + self.dst_cid.len() + self.src_cid.len(),
            HeaderKind::VersionNegotiate => 7 + self.dst_cid.len() + self.src_cid.len(),
            _ => 7
                + self.dst_cid.len()
                + self.src_cid.len()
                + (self.number.len() + self.length_len),
        }
    }

    /// Whether `room` bytes have room for the header. Whether they have room for the longest ids is checked first.
    #[inline(always)]
    #[tactic(auto, using(crate::proofs::Sizes::stored_within))]
    pub fn fits(&self, room: usize) -> bool
        requires { IsStorable I.id self.now }
        ensures { IsTrue result ↔ (stored_len I.id self.now ≤ room) }
    {
        if room >= 68 && self.token.len() <= room - 68 {
            return true;
        }
        self.encoded_len() <= room
    }

    // Stores the token of an Initial header after its length.
    #[inline(always)]
    fn store_its_token<const SHORT_TOKEN: bool>(&self, out: &mut [u8], at: usize) -> usize
        requires short { SHORT_TOKEN ≡ true → IsShortToken self.now.token.now }
        requires numeric { length self.now.token.now < 2 ^ 62 }
        requires room { at + length (token_by self.now.kind self.now.token.now) ≤ length out.old }
        ensures end { result ≡ at + length (token_by self.now.kind self.now.token.now) }
        ensures front { take result out.new ≡ take at out.old ++ token_by self.now.kind self.now.token.now }
        ensures back { drop result out.new ≡ drop result out.old }
        ensures len { length out.new ≡ length out.old }
    {
        match self.kind {
            HeaderKind::Initial => store_token::<SHORT_TOKEN>(out, at, self.token),
            _ => at,
        }
    }

    // Stores the fields after the ids and the token: zeros for the length, and the number.
    #[inline(always)]
    fn store_end(&self, out: &mut [u8], at: usize) -> usize
        requires known { IsWidth self.now.length_len }
        requires valid { IsInRange self.now.number.now }
        requires room { at + length (end_bytes self.now) ≤ length out.old }
        ensures end { result ≡ at + length (end_bytes self.now) }
        ensures front { take result out.new ≡ take at out.old ++ end_bytes self.now }
        ensures back { drop result out.new ≡ drop result out.old }
        ensures len { length out.new ≡ length out.old }
    {
        if !self.kind.has_len() {
            return at;
        }
        let at = store_no_length(out, at, self.length_len);
        store_number(out, at, *self.number)
    }

    /// Stores a header that isn't short at the front, and returns how many bytes it has. Its length, if it has one, is
    /// zeros, which `set_len` or `PartialEncode::finish` fill in. The caller must ensure that there is room for it and,
    /// if SHORT_TOKEN is true, that the token is empty or has 16 to 32 bytes.
    #[inline(always)]
    pub fn store_long<const SHORT_TOKEN: bool>(&self, out: &mut [u8]) -> usize
        requires long { IsLong self.now.kind }
        requires storable { IsStorable I.id self.now }
        requires short { SHORT_TOKEN ≡ true → IsShortToken self.now.token.now }
        requires room { HasStoreRoom I.id I.room self.now (length out.old) }
        ensures end { result ≡ stored_len I.id self.now }
        ensures front { take result out.new ≡ stored_bytes I.id self.now }
        ensures back { IsExact I.id I.room self.now → drop result out.new ≡ drop result out.old }
        ensures len { length out.new ≡ length out.old }
    {
        let at = store_long_start(
            out,
            self.long_first(),
            self.field_version(),
            self.dst_cid,
            self.src_cid,
        );
        let at = self.store_its_token::<SHORT_TOKEN>(out, at);
        self.store_end(out, at)
    }

    /// Stores a header of any kind in the same way.
    #[inline(always)]
    pub fn store<const SHORT_TOKEN: bool>(&self, out: &mut [u8]) -> usize
        requires storable { IsStorable I.id self.now }
        requires short { SHORT_TOKEN ≡ true → IsShortToken self.now.token.now }
        requires room { HasStoreRoom I.id I.room self.now (length out.old) }
        ensures end { result ≡ stored_len I.id self.now }
        ensures front { take result out.new ≡ stored_bytes I.id self.now }
        ensures back { IsExact I.id I.room self.now → drop result out.new ≡ drop result out.old }
        ensures len { length out.new ≡ length out.old }
    {
        match self.kind {
            HeaderKind::Short => {
                let at = store_short(out, self.first + self.number.tag(), self.dst_cid);
                store_number(out, at, *self.number)
            }
            _ => self.store_long::<SHORT_TOKEN>(out),
        }
    }
}

/// Fills in the length of a packet (RFC 9000, section 17.2): the count of the bytes from `place` on, where the packet
/// number begins, in the `length_len` bytes before it, which are 1, 2, 4 or 8. It returns false, and changes nothing,
/// if `length_len` is another number, if the packet has no such offset, or if the count doesn't fit.
#[tactic(auto, unfolding(quic_base::specs::Varint::size))]
pub fn set_len(packet: &mut [u8], place: usize, length_len: usize) -> bool
    ensures set { IsTrue result → packet.new ≡ with_len length_len place packet.old }
    ensures taken { IsTrue result ↔ TakesLen length_len place (length packet.old) }
    ensures same { IsTrue result ⊎ (packet.new ≡ packet.old) }
{
    if place > packet.len() || place < length_len {
        return false;
    }
    let count = (packet.len() - place) as u64;
    if count >= 1 << 62 || length_len < var_size(count) {
        return false;
    }
    let at = place - length_len;
    match length_len {
        1 => store_array(packet, at, [count as u8]),
        2 => store_array(packet, at, (IN_TWO + count as u16).to_be_bytes()),
        4 => store_array(packet, at, (IN_FOUR + count as u32).to_be_bytes()),
        8 => store_array(packet, at, (IN_EIGHT + count).to_be_bytes()),
        _ => return false,
    };
    true
}
