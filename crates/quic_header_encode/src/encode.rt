//! Writes headers, and finishes packets (RFC 9000, section 17; RFC 9001, sections 5.3 and 5.4).
ghost use Rattle.std.specs.Prelude.{◌≡◌, ◌+◌, ◌-◌, ◌≤◌, ◌<◌, ◌^◌, ◌++◌, length, vec_len, vec_capacity, IfOk, OnErr, OnOk, IfSome, IfNone, IsOk, IsTrue, ◌↔◌, ◌⊎◌, option_map, take, drop};
ghost use Rattle.quic_base.specs.Number.{AreBytes, bytes_of};
ghost use Rattle.quic_crypto.specs.PacketNumbers.{IsInRange};
ghost use Rattle.quic_header_encode.specs.declared.header.Header.TheVariants as header;
ghost use Rattle.quic_header_encode.specs.declared.long_type.LongHeaderType.TheVariants as kind;
ghost use Rattle.quic_header_encode.specs.Writing.{kind_of, stored_bytes, stored_len, padded_id, padded_room, HasStoreRoom, IsStorable, IsShortToken, StoresHeader};
ghost use Rattle.quic_header_encode.specs.Kinds.{bit_value};
ghost use Rattle.quic_header_encode.specs.Writing.{header_size, place_in, header_bytes, AppendsHeader, IsWritable, size_in, has_length, finished, HasRoom};

use crate::header::{Header, InitialHeader};
use crate::long_type::{HeaderKind, LongType};
use crate::store::{Exact, HeaderRef, Padded};
use quic_base::coding::{NoRoom, are_bytes};
use quic_base::ids::ConnectionId;
use quic_base::varint::IN_TWO;
use quic_crypto::crypto::{HeaderKey, PacketKey};
use quic_crypto::packet_number::PacketNumber;

/// Where a header was written: what `finish` needs once the payload was appended.
#[derive(Clone, Copy, Debug)]
pub struct PartialEncode {
    /// Where the header begins in its buffer.
    pub start: usize,
    /// How many bytes the header has.
    pub header_len: usize,
    /// How many bytes the packet number has, which ends the header, and whether the header has a length, which comes
    /// before the number. `None` for Retry and version negotiation.
    pub pn: Option<(usize, bool)>,
}

// How many bytes of room are enough for a short header, for a long one without a token, and for an Initial one whose
// token has at most 32 bytes.
const SHORT_ROOM: usize = 32;

const LONG_ROOM: usize = 64;

const INITIAL_ROOM: usize = 96;

// The bits of a long header's first byte other than its type and number length.
const LONG_FIRST: u8 = 0xc0;

// The number of headers that have none.
const NO_NUMBER: PacketNumber = PacketNumber::U8(0);

// Whether a token is written without a call: it has 16 to 32 bytes, or none.
#[inline(always)]
fn is_stored_by_stores(token: &[u8]) -> bool
    ensures { IsTrue result ↔ IsShortToken token.now }
{
    token.len() == 0 || token.len() >= 16 && token.len() <= 32
}

// Appends a header if there is spare room for the longest of its kind: zeros are appended, the header is written over
// them, and the remaining ones are removed. Returns whether there was room.
#[inline(always)]
fn put<const ROOM: usize>(head: HeaderRef<'_, Padded<'_>>, out: &mut Vec<u8>) -> bool
    requires storable { IsStorable padded_id head }
    requires room { IsShortToken head.token.now → HasStoreRoom padded_id padded_room head ROOM }
    ensures items { IsTrue result → out.new.items ≡ out.old.items ++ stored_bytes padded_id head.entry }
    ensures len { IsTrue result → vec_len out.new ≡ vec_len out.old + stored_len padded_id head.entry }
    ensures capacity { vec_capacity out.old ≤ vec_capacity out.new }
    ensures same { IsTrue result ⊎ (out.new ≡ out.old) }
{
    if out.capacity() - out.len() < ROOM || !is_stored_by_stores(head.token) {
        return false;
    }
    let begin = out.len();
    let Ok(()) = out.extend_from_slice(&[0; ROOM]) else {
        unreachable!()
    };
    let len = head.store::<true>(&mut out.as_mut_slice()[begin..]);
    out.truncate(begin + len);
    true
}

// An id that is written with zeros up to 20 bytes.
#[inline(always)]
fn padded(id: &ConnectionId) -> Padded<'_>
    ensures same { padded_id result ≡ id.now }
    ensures few { length (padded_id result) ≤ 20 }
{
    let _few = id.as_slice().len();
    Padded(id)
}

// The kind of a Handshake or 0-RTT header.
#[inline(always)]
fn long_kind(ty: LongType) -> HeaderKind
    ensures { result ≡ kind_of (kind.Standard ty) }
{
    match ty {
        LongType::ZeroRtt => HeaderKind::ZeroRtt,
        LongType::Handshake => HeaderKind::Handshake,
    }
}

// The bits of a short header's first byte other than its number length.
#[inline(always)]
fn short_first(spin: bool, key_phase: bool) -> u8
    ensures value { result ≡ 64 + bit_value spin 32 + bit_value key_phase 4 }
    ensures few { result ≤ 100 }
{
    let spin = if spin { 0x20 } else { 0 };
    let key_phase = if key_phase { 0x04 } else { 0 };
    0x40 + spin + key_phase
}

// The header of an Initial packet.
#[inline(always)]
fn initial_ref(initial: &InitialHeader) -> HeaderRef<'_, Padded<'_>>
    requires { IsWritable (header.Initial initial.now) }
    ensures stores { StoresHeader padded_id result (header.Initial initial.now) }
    ensures room { IsShortToken result.token.now → HasStoreRoom padded_id padded_room result INITIAL_ROOM }
{
    HeaderRef {
        kind: HeaderKind::Initial,
        first: LONG_FIRST,
        version: initial.version,
        dst_cid: padded(&initial.dst_cid),
        src_cid: padded(&initial.src_cid),
        token: initial.token.as_slice(),
        number: &initial.number,
        length_len: 2,
    }
}

// The header of a Handshake or 0-RTT packet.
#[inline(always)]
fn long_ref<'a>(
    ty: LongType,
    version: u32,
    dst: &'a ConnectionId,
    src: &'a ConnectionId,
    number: &'a PacketNumber,
) -> HeaderRef<'a, Padded<'a>>
    requires { IsInRange number.now }
    ensures stores { StoresHeader padded_id result (header.Long ty dst.now src.now number.now version) }
    ensures room { HasStoreRoom padded_id padded_room result LONG_ROOM }
{
    HeaderRef {
        kind: long_kind(ty),
        first: LONG_FIRST,
        version,
        dst_cid: padded(dst),
        src_cid: padded(src),
        token: &[],
        number,
        length_len: 2,
    }
}

// The header of a 1-RTT packet.
#[inline(always)]
fn short_ref<'a>(
    spin: bool,
    key_phase: bool,
    dst_cid: &'a ConnectionId,
    number: &'a PacketNumber,
) -> HeaderRef<'a, Padded<'a>>
    requires { IsInRange number.now }
    ensures stores { StoresHeader padded_id result (header.Short spin key_phase dst_cid.now number.now) }
    ensures room { HasStoreRoom padded_id padded_room result SHORT_ROOM }
{
    HeaderRef {
        kind: HeaderKind::Short,
        first: short_first(spin, key_phase),
        version: 0,
        dst_cid: padded(dst_cid),
        src_cid: padded(dst_cid),
        token: &[],
        number,
        length_len: 2,
    }
}

// The header of a Retry packet.
#[inline(always)]
fn retry_ref<'a>(
    version: u32,
    dst_cid: &'a ConnectionId,
    src_cid: &'a ConnectionId,
) -> HeaderRef<'a, Padded<'a>>
    ensures { StoresHeader padded_id result (header.Retry dst_cid.now src_cid.now version) }
{
    HeaderRef {
        kind: HeaderKind::Retry,
        first: LONG_FIRST,
        version,
        dst_cid: padded(dst_cid),
        src_cid: padded(src_cid),
        token: &[],
        number: &NO_NUMBER,
        length_len: 2,
    }
}

// The header of a version negotiation.
#[inline(always)]
fn negotiation_ref<'a>(
    random: u8,
    dst_cid: &'a ConnectionId,
    src_cid: &'a ConnectionId,
) -> HeaderRef<'a, Padded<'a>>
    ensures { StoresHeader padded_id result (header.VersionNegotiate random src_cid.now dst_cid.now) }
{
    HeaderRef {
        kind: HeaderKind::VersionNegotiate,
        first: 0x80 | random,
        version: 0,
        dst_cid: padded(dst_cid),
        src_cid: padded(src_cid),
        token: &[],
        number: &NO_NUMBER,
        length_len: 2,
    }
}

impl Header {
    // The same header, with ids and a token that are borrowed.
    fn borrowed(&self) -> HeaderRef<'_, Padded<'_>>
        requires { IsWritable self.now }
        ensures { StoresHeader padded_id result self.now }
    {
        match self {
            Self::Initial(initial) => initial_ref(initial),
            Self::Long {
                ty,
                dst_cid,
                src_cid,
                number,
                version,
            } => long_ref(*ty, *version, dst_cid, src_cid, number),
            Self::Retry {
                dst_cid,
                src_cid,
                version,
            } => retry_ref(*version, dst_cid, src_cid),
            Self::Short {
                spin,
                key_phase,
                dst_cid,
                number,
            } => short_ref(*spin, *key_phase, dst_cid, number),
            Self::VersionNegotiate {
                random,
                src_cid,
                dst_cid,
            } => negotiation_ref(*random, dst_cid, src_cid),
        }
    }

    /// How many bytes `encode` appends, under the same conditions.
    pub fn encoded_len(&self) -> usize
        requires { IsWritable self.now }
        ensures value { result ≡ header_size self.now }
    {
        self.borrowed().encoded_len()
    }

    // Makes room for exactly the header, and writes it there.
    #[inline(never)]
    fn put_with_room(&self, out: &mut Vec<u8>) -> Result<(), NoRoom>
        requires { IsWritable self.now }
        ensures { AppendsHeader self.now out.old out.new result }
    {
        let head = self.borrowed();
        let head = HeaderRef {
            kind: head.kind,
            first: head.first,
            version: head.version,
            dst_cid: Exact(head.dst_cid.0.as_slice()),
            src_cid: Exact(head.src_cid.0.as_slice()),
            token: head.token,
            number: head.number,
            length_len: head.length_len,
        };
        let len = head.encoded_len();
        if out.reserve(len).is_err() {
            return Err(NoRoom);
        }
        let begin = out.len();
        match out.resize(begin + len, 0) {
            Ok(()) => (),
            Err(_) => unreachable!(),
        }
        head.store::<false>(&mut out.as_mut_slice()[begin..]);
        Ok(())
    }

    // Appends a short header.
    #[inline(never)]
    fn put_short(&self, out: &mut Vec<u8>) -> Result<(), NoRoom>
        requires { IsWritable self.now }
        ensures { AppendsHeader self.now out.old out.new result }
    {
        if let Self::Short {
            spin,
            key_phase,
            dst_cid,
            number,
        } = self
        {
            if put::<SHORT_ROOM>(short_ref(*spin, *key_phase, dst_cid, number), out) {
                return Ok(());
            }
        }
        self.put_with_room(out)
    }

    // Appends an Initial header.
    #[inline(never)]
    fn put_initial(&self, out: &mut Vec<u8>) -> Result<(), NoRoom>
        requires { IsWritable self.now }
        ensures { AppendsHeader self.now out.old out.new result }
    {
        if let Self::Initial(initial) = self {
            if put::<INITIAL_ROOM>(initial_ref(initial), out) {
                return Ok(());
            }
        }
        self.put_with_room(out)
    }

    // Appends a Handshake or 0-RTT header, or one without a number.
    #[inline(never)]
    fn put_long(&self, out: &mut Vec<u8>) -> Result<(), NoRoom>
        requires { IsWritable self.now }
        ensures { AppendsHeader self.now out.old out.new result }
    {
        if let Self::Long {
            ty,
            dst_cid,
            src_cid,
            number,
            version,
        } = self
        {
            if put::<LONG_ROOM>(long_ref(*ty, *version, dst_cid, src_cid, number), out) {
                return Ok(());
            }
        }
        self.put_with_room(out)
    }

    // Appends a header that isn't short. It isn't inlined, so that its caller makes only one comparison for a short
    // header.
    #[inline(never)]
    fn put_other(&self, out: &mut Vec<u8>) -> Result<(), NoRoom>
        requires { IsWritable self.now }
        ensures { AppendsHeader self.now out.old out.new result }
    {
        match self {
            Self::Initial(_) => self.put_initial(out),
            _ => self.put_long(out),
        }
    }

    /// How many bytes the number has, and whether the header has a length. `None` for Retry and version negotiation,
    /// which have neither.
    #[inline]
    pub fn number_place(&self) -> Option<(usize, bool)>
        ensures { result ≡ place_in self.now }
    {
        match self {
            Self::Initial(head) => Some((head.number.len(), true)),
            Self::Long { number, .. } => Some((number.len(), true)),
            Self::Short { number, .. } => Some((number.len(), false)),
            Self::Retry { .. } => None,
            Self::VersionNegotiate { .. } => None,
        }
    }

    /// How many bytes the number has, at most 4; 0 if there is no number.
    pub fn number_size(&self) -> usize
        ensures value { result ≡ size_in self.now }
        ensures small { result ≤ 4 }
    {
        match self {
            Self::Initial(head) => head.number.len(),
            Self::Long { number, .. } => number.len(),
            Self::Short { number, .. } => number.len(),
            Self::Retry { .. } => 0,
            Self::VersionNegotiate { .. } => 0,
        }
    }

    /// Whether the header has the packet's length: only those of Initial, Handshake and 0-RTT packets do.
    pub fn has_len(&self) -> bool
        ensures { result ≡ has_length self.now }
    {
        match self {
            Self::Initial(_) => true,
            Self::Long { .. } => true,
            Self::Short { .. } => false,
            Self::Retry { .. } => false,
            Self::VersionNegotiate { .. } => false,
        }
    }

    /// Appends the header, and returns where it is. The two bytes of its length, if it has one, are zeros, which
    /// `PartialEncode::finish` fills in. Returns `NoRoom` only if the header is longer than the spare room of `out` and
    /// an allocation for more fails. The bytes of `out` don't change then, and its spare room is still too little. The
    /// caller must ensure that the token has fewer than 2^62 bytes, and that a `U24` is below 2^24.
    #[inline]
    pub fn encode(&self, out: &mut Vec<u8>) -> Result<PartialEncode, NoRoom>
        requires { IsWritable self.now }
        ensures ok { OnOk result (out.new.items ≡ out.old.items ++ header_bytes self.now) }
        ensures places { IfOk result
            (λ x. (x.start ≡ vec_len out.old) × (x.header_len ≡ header_size self.now) × (x.pn ≡ place_in self.now)) }
        ensures len { OnOk result (vec_len out.new ≡ vec_len out.old + header_size self.now) }
        ensures capacity { vec_capacity out.old ≤ vec_capacity out.new }
        ensures err { OnErr result (out.new.items ≡ out.old.items) }
        ensures full { OnErr result (vec_capacity out.new < vec_len out.old + header_size self.now) }
        ensures still { OnErr result (vec_capacity out.new ≡ vec_capacity out.old) }
        ensures spare { vec_len out.old + header_size self.now ≤ vec_capacity out.old → IsOk result }
    {
        let start = out.len();
        let put = if let Self::Short { .. } = self {
            self.put_short(out)
        } else {
            self.put_other(out)
        };
        if put.is_err() {
            return Err(NoRoom);
        }
        Ok(PartialEncode {
            start,
            header_len: out.len() - start,
            pn: self.number_place(),
        })
    }
}

impl PartialEncode {
    /// Finishes the packet `buf` (RFC 9001, sections 5.3 and 5.4). It fills in the length, if the header has one; seals
    /// the payload with the packet number and the key of `crypto`, if given; and protects the header with `header_key`.
    /// The payload's last bytes are room for the tag. Retry and version negotiation don't change. The caller must
    /// ensure that the packet has its header and room for the tag; that it has at least four bytes and the sample from
    /// the number on; and, if the header has a length, fewer than 2^14 bytes from there on.
    pub fn finish<H: HeaderKey, P: PacketKey>(
        self,
        buf: &mut [u8],
        header_key: &H,
        crypto: Option<(u64, &P)>,
    )
        requires room { IfSome self.pn
            (λ pn. HasRoom pn.0 pn.1 self.header_len (H.sample_len header_key.now) (length buf.old)) }
        requires tag { IfSome self.pn
            (λ pn. IfSome crypto (λ c. self.header_len + P.tag_size c.1.now ≤ length buf.old)) }
        ensures plain { IfNone self.pn (buf.new ≡ buf.old) }
        ensures sealed { IfSome self.pn (λ pn. buf.new ≡ H.protected header_key.now (self.header_len - pn.0)
            (finished pn self.header_len
            (option_map (λ c. (P.tag_size c.1.now, P.sealed c.1.now c.0)) crypto.entry) buf.old)) }
        ensures bytes { IfSome self.pn (λ pn. AreBytes
            (finished pn self.header_len
            (option_map (λ c. (P.tag_size c.1.now, P.sealed c.1.now c.0)) crypto.entry) buf.old)) }
    {
        let Some((pn_len, write_len)) = self.pn else {
            return;
        };
        let pn_pos = self.header_len - pn_len;
        if write_len {
            write_length(buf, pn_pos);
        }
        if let Some((number, key)) = crypto {
            key.encrypt(number, buf, self.header_len);
        }
        are_bytes(buf);
        header_key.encrypt(pn_pos, buf);
    }
}

// Writes the count of the bytes from `pn_pos` on into the two bytes before it.
#[tactic(auto, unfolding(quic_base::specs::Number::bytes_of))]
fn write_length(buf: &mut [u8], pn_pos: usize)
    requires place { 2 ≤ pn_pos }
    requires within { pn_pos ≤ length buf.old }
    requires short { length buf.old - pn_pos < 2 ^ 14 }
    ensures { buf.new ≡ take (pn_pos - 2) buf.old
        ++ (bytes_of 2 (2 ^ 14 + (length buf.old - pn_pos)) ++ drop pn_pos buf.old) }
{
    let len = (buf.len() - pn_pos) as u16 + IN_TWO;
    buf[pn_pos - 2..pn_pos].copy_from_slice(&len.to_be_bytes());
}
