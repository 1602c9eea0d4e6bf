//! What the flags mean for packets. The functions do nothing at run time.
ghost use Rattle.std.specs.Prelude.{◌≡◌, ◌≢◌, ◌↔◌, ◌+◌, ℕ, List, [], Result, Ok, nat_lt, slice_index, false, ◌==◌, ◌&&◌};
ghost use Rattle.quic_base.specs.Number.{has_bit};
ghost use Rattle.quic_c_headers.specs.Headers.{word_of};
ghost use Rattle.quic_c_headers.specs.Packets.{PacketAnswerBy};
ghost use Rattle.quic_c_headers.specs.Reading.{IsOfVersion, LacksFixedBit, is_partial};
ghost use Rattle.quic_header_decode.specs.Grammar.{Cut};
ghost use Rattle.quic_header_decode.specs.Parsers.{fixed_parsed};
ghost use Rattle.quic_header_decode.specs.Places.{any_fixed};
ghost use Rattle.quic_header_decode.specs.Reading.{read_by};
ghost use Rattle.quic_header_decode.specs.Rfc.{RfcPacketAnswer, RfcRefusal};
ghost use Rattle.quic_header_decode.specs.declared.places.HeaderPlaces.{HeaderPlaces};
ghost use Rattle.quic_header_decode.specs.declared.protected.ProtectedHeader.{ProtectedHeader};
ghost use Rattle.quic_header_encode.specs.Kinds.{row};

/// With the flags a packet is rejected for its fixed bit exactly if that is clear and the packet has a short header, or
/// a long one of one of the versions (RFC 9000, sections 17.2 and 17.3); and a Retry exactly if it doesn't have a token
/// and a tag of 16 bytes after its header (section 17.2.5).
pub fn rfc_flags()
    ensures fixed { (versions packet : List ℕ) → (LacksFixedBit 0x3ef versions packet
        ↔ ((packet ≢ []) × (has_bit 0x40 (slice_index packet 0) ≡ false) × IsOfVersion versions packet)) }
    ensures retry { (x : HeaderPlaces) (whole : ℕ)
        → is_partial 0x3ef x whole ≡ ((word_of (row x.kind) == 3) && nat_lt whole (x.header_end + 17)) }
    // What the flags allow is what RFC 9000 allows, and what they don't is what it doesn't.
    ensures packet { (id_len : ℕ) (versions bytes : List ℕ) (answer : Result (ProtectedHeader × ℕ × ℕ) RfcRefusal)
        → (PacketAnswerBy 0x3ef id_len versions bytes answer
        ↔ RfcPacketAnswer (any_fixed id_len versions) bytes answer) }
{}

/// Without flags a packet is found exactly if it is cut from the bytes with the fixed bit checked, as quinn-proto does.
pub fn no_flags()
    ensures { (id_len : ℕ) (versions bytes : List ℕ) (h : ProtectedHeader) (header_end end : ℕ)
        → (PacketAnswerBy 0 id_len versions bytes (Ok (h, header_end, end))
        ↔ Cut (read_by (fixed_parsed id_len) versions false) bytes h header_end end) }
{}
