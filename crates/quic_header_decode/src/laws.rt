//! Laws of headers and cuts, which no single call states. The functions do nothing at run time.
ghost use Rattle.std.specs.Prelude.{◌≡◌, ◌+◌, ◌<◌, ◌≤◌, ◌++◌, List, ℕ, Result, Ok, Some, None, Option, length, take, drop, codes, slice_index, ◌^◌, IsTrue, [], ◌∷◌, Contains, Bool};
ghost use Rattle.quic_base.specs.Number.{AreBytes};
ghost use Rattle.quic_base.specs.One.{ExactlyOne};
ghost use Rattle.quic_header_decode.specs.Datagram.{PlacedPacket, ArePackets, packets_in};
ghost use Rattle.quic_header_decode.specs.Grammar.{is_fixed, HeaderAt, HeaderAnswer, Refused, Cut, CutAnswer, Uncut, IsKnownVersion};
ghost use Rattle.quic_base.specs.Varint.{Encodes};
ghost use Rattle.quic_crypto.specs.PacketNumbers.{number_bytes};
ghost use Rattle.quic_header_encode.specs.Writing.{header_bytes, header_with};
ghost use Rattle.quic_header_decode.specs.Places.{any_fixed, ends_at, header_in, ReadAnswer};
ghost use Rattle.quic_header_decode.specs.Reading.{DecodeOptions, TakesWithin, cut_at, header_at, len_in};
ghost use Rattle.quic_header_decode.specs.Refusal.{Refusal, Invalid, Unsupported};
ghost use Rattle.quic_header_decode.specs.Rfc.{RfcPacketAnswer, RfcRefusal};

use crate::places::HeaderPlaces;
use crate::protected::ProtectedHeader;
use quic_crypto::packet_number::PacketNumber;
use quic_header_encode::header::{Header, InitialHeader};
use quic_header_encode::long_type::LongType;

/// Bytes begin with one header or are rejected with one error, and the same holds for the packet that is cut from them.
/// Reading returns it, if the parser of ids consumes no more bytes than there are.
pub fn one_answer()
    ensures head { (options : DecodeOptions) (whole : ℕ) (bytes : List ℕ) (one other : Result (ProtectedHeader
        × List ℕ) Refusal)
        → AreBytes bytes → HeaderAnswer options whole bytes one → HeaderAnswer options whole bytes other → one ≡ other }
    ensures cut { (options : DecodeOptions) (bytes : List ℕ) (one other : Result (ProtectedHeader × ℕ × ℕ) Refusal)
        → AreBytes bytes → CutAnswer options bytes one → CutAnswer options bytes other → one ≡ other }
    ensures header_found { (options : DecodeOptions) (whole : ℕ) (bytes : List ℕ) → AreBytes bytes
        → length bytes ≤ whole
        → TakesWithin options
        → HeaderAnswer options whole bytes (header_at options whole bytes) }
    ensures cut_found { (options : DecodeOptions) (bytes : List ℕ) → AreBytes bytes → TakesWithin options
        → CutAnswer options bytes (cut_at options bytes) }
{}

/// Bytes begin with one header, or with the ids of one unknown version, or are rejected with one error, if all ids of
/// short headers have the same length and the fixed bit isn't checked.
pub fn one_reading()
    ensures { (id_len : ℕ) (versions bytes : List ℕ) (one other : Result (ProtectedHeader × List ℕ) Refusal)
        → AreBytes bytes
        → ReadAnswer (any_fixed id_len versions) bytes one → ReadAnswer (any_fixed id_len versions) bytes other
        → one ≡ other }
{}

/// There is one way to cut a datagram into packets, up to its end or to one error, and reading finds it.
pub fn one_row_of_packets()
    ensures one { (options : DecodeOptions) (bytes : List ℕ) (some others : List PlacedPacket)
        (refusal other : Option Refusal)
        → AreBytes bytes → ArePackets options 0 bytes some refusal → ArePackets options 0 bytes others other
        → (some ≡ others) × (refusal ≡ other) }
    ensures found { (options : DecodeOptions) (bytes : List ℕ) → AreBytes bytes → TakesWithin options
        → ArePackets options 0 bytes (packets_in options bytes).0 (packets_in options bytes).1 }
{}

/// By RFC 9000 a datagram begins with one packet, or with none for one reason. At most one of these holds whatever the
/// parser of ids does.
pub fn rfc_packets()
    ensures one { (options : DecodeOptions) (datagram : List ℕ) → AreBytes datagram → TakesWithin options
        → ExactlyOne (RfcPacketAnswer options datagram) }
    ensures only { (options : DecodeOptions) (datagram : List ℕ) (one other : Result (ProtectedHeader × ℕ × ℕ)
        RfcRefusal)
        → AreBytes datagram → RfcPacketAnswer options datagram one → RfcPacketAnswer options datagram other
        → one ≡ other }
{}

/// Where a packet ends, and what doesn't depend on the bytes after it.
pub fn ends()
    // A packet has at least a byte, so what follows it is shorter than the datagram.
    ensures some { (options : DecodeOptions) (bytes : List ℕ) (h : ProtectedHeader) (p q : ℕ)
        → Cut options bytes h p q → 0 < q }
    // A packet whose header has a length has the same header and the same end, whatever follows it.
    ensures alone { (options : DecodeOptions) (bytes other : List ℕ) (h : ProtectedHeader) (p q len : ℕ)
        → Cut options bytes h p q → len_in h ≡ Some len → Cut options (take q bytes ++ other) h p q }
    // A long header that is rejected for its fixed bit or for its version is rejected so whatever follows.
    ensures fixed { (options : DecodeOptions) (bytes other : List ℕ) → 128 ≤ slice_index bytes 0
        → Refused options bytes (Invalid (codes "fixed bit unset"))
        → Refused options (bytes ++ other) (Invalid (codes "fixed bit unset")) }
    ensures version { (options : DecodeOptions) (bytes other src dst : List ℕ) (version : ℕ) → 128 ≤ slice_index bytes 0
        → Refused options bytes (Unsupported src dst version)
        → Refused options (bytes ++ other) (Unsupported src dst version) }
{}

/// A header that was read as offsets begins a packet that ends where `packet_end` says, or one that is cut off.
pub fn places_cut()
    ensures whole { (options : DecodeOptions) (bytes : List ℕ) (x : HeaderPlaces) (q : ℕ)
        → HeaderAt options (length bytes) bytes (header_in bytes x) (drop x.header_end bytes)
        → x.header_end ≤ length bytes
        → ends_at x (length bytes) ≡ Some q → Cut options bytes (header_in bytes x) x.header_end q }
    ensures cut_off { (options : DecodeOptions) (bytes : List ℕ) (x : HeaderPlaces)
        → HeaderAt options (length bytes) bytes (header_in bytes x) (drop x.header_end bytes)
        → x.header_end ≤ length bytes
        → ends_at x (length bytes) ≡ None
        → Uncut options bytes (Invalid (codes "packet too short to contain payload length")) }
{}

/// Headers are read back as they were written, before protection is applied, whatever follows them.
pub fn written()
    // The length may be in any encoding, and the number isn't read.
    ensures initial { (options : DecodeOptions) (whole start n : ℕ) (h : InitialHeader) (len rest : List ℕ)
        → h.version < 2 ^ 32 → IsKnownVersion options h.version → length h.dst_cid ≤ 20 → length h.src_cid ≤ 20
        → length h.token < 2 ^ 62 → Encodes n len
        → start + length h.token + length (len ++ (number_bytes h.number ++ rest)) ≡ whole
        → HeaderAt options whole (header_with len (Header.Initial h) ++ rest)
        (ProtectedHeader.Initial (record {
          dst_cid = h.dst_cid;
          src_cid = h.src_cid;
          token_pos = record
              { start = start; end = start + length h.token };
          len = n;
          version = h.version;
        }))
        (number_bytes h.number ++ rest) }
    ensures long { (options : DecodeOptions) (whole n version : ℕ) (ty : LongType) (dst src len rest : List ℕ)
        (number : PacketNumber)
        → version < 2 ^ 32 → IsKnownVersion options version → length dst ≤ 20 → length src ≤ 20 → Encodes n len
        → HeaderAt options whole (header_with len (Header.Long ty dst src number version) ++ rest)
        (ProtectedHeader.Long ty dst src n version) (number_bytes number ++ rest) }
    ensures retry { (options : DecodeOptions) (whole version : ℕ) (dst src rest : List ℕ) → version < 2 ^ 32
        → IsKnownVersion options version → length dst ≤ 20 → length src ≤ 20
        → HeaderAt options whole (header_bytes (Header.Retry dst src version) ++ rest)
        (ProtectedHeader.Retry dst src version) rest }
    ensures short { (options : DecodeOptions) (whole : ℕ) (spin key_phase : Bool) (dst rest : List ℕ)
        (number : PacketNumber)
        → options.parsed (dst ++ (number_bytes number ++ rest)) ≡ Ok (dst, length dst)
        → HeaderAt options whole (header_bytes (Header.Short spin key_phase dst number) ++ rest)
        (ProtectedHeader.Short spin dst) (number_bytes number ++ rest) }
    // Of the first byte, only the bits below the highest are free.
    ensures negotiation { (options : DecodeOptions) (whole random : ℕ) (dst src rest : List ℕ) → random < 128
        → IsTrue (is_fixed options (128 + random)) → length dst ≤ 20 → length src ≤ 20
        → HeaderAt options whole (header_bytes (Header.VersionNegotiate random src dst) ++ rest)
        (ProtectedHeader.VersionNegotiate random dst src) rest }
{}

/// Two datagrams of version 1, by their bytes.
pub fn examples()
    // The client's first Initial packet (RFC 9001, section A.2): ids of eight bytes and of none, no token, and 1182
    // bytes after the header.
    ensures initial { (options : DecodeOptions) (rest : List ℕ) → Contains options.versions 1
        → HeaderAt options (18 + length rest)
        (0xc0 ∷ 0x00 ∷ 0x00 ∷ 0x00 ∷ 0x01 ∷ 0x08 ∷ 0x83 ∷ 0x94 ∷ 0xc8 ∷ 0xf0 ∷ 0x3e ∷ 0x51 ∷ 0x57 ∷ 0x08 ∷ 0x00 ∷ 0x00
        ∷ 0x44 ∷ 0x9e ∷ rest)
        (ProtectedHeader.Initial (record {
          dst_cid = 0x83 ∷ 0x94 ∷ 0xc8 ∷ 0xf0 ∷ 0x3e ∷ 0x51 ∷ 0x57 ∷ 0x08
              ∷ [];
          src_cid = [];
          token_pos = record { start = 16; end = 16 };
          len = 1182;
          version = 1;
        })) rest }
    // An Initial packet that ends within its token of five bytes.
    ensures no_token { (options : DecodeOptions) → Contains options.versions 1
        → Refused options (0xc0 ∷ 0x00 ∷ 0x00 ∷ 0x00 ∷ 0x01 ∷ 0x00 ∷ 0x00 ∷ 0x05 ∷ 0xaa ∷ [])
        (Invalid (codes "token out of bounds")) }
{}
