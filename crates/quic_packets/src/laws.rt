//! Laws about sealed packets, which no single call states. The functions do nothing at run time.
ghost use Rattle.std.specs.Prelude.{◌≡◌, List, Some, ℕ};
ghost use Rattle.quic_crypto.specs.PacketNumbers.{Expands, low_part, window_of};
ghost use Rattle.quic_frames.specs.Written.{IsPayload};
ghost use Rattle.quic_header_decode.specs.Datagram.{CutPacket, CutsFirst};
ghost use Rattle.quic_header_decode.specs.Headers.{space_of};
ghost use Rattle.quic_header_encode.specs.Kinds.{space_in};
ghost use Rattle.quic_packets.specs.Opening.{BeginsSealed, Opening, Opens, returned_by};
ghost use Rattle.quic_packets.specs.Pairs.{IsLawful, KeyPair};
ghost use Rattle.quic_packets.specs.Sealing.{PacketContents, Sealed};

use quic_crypto::packet_number::PacketNumber;
use quic_frames::frame::Frame;
pub use quic_header_decode::laws::{ends, one_answer, one_row_of_packets};

/// The same keys, header, number and payload make one packet; frames have one shortest payload; and a truncated number
/// means one whole number, for a given expected number.
pub fn one_packet()
    ensures packet { (keys : KeyPair) (contents : PacketContents) (one other : List ℕ)
        → Sealed keys contents one → Sealed keys contents other → one ≡ other }
    // Frames have one payload that is the shortest.
    ensures payload { (frames : List Frame) (one other : List ℕ) → IsPayload frames one → IsPayload frames other
        → one ≡ other }
    ensures number { (number : PacketNumber) (expected one other : ℕ)
        → Expands (low_part number) (window_of number) expected one
        → Expands (low_part number) (window_of number) expected other → one ≡ other }
{}

/// A packet that was sealed with lawful keys can be opened with them: whatever bytes follow a long header's packet, and
/// if nothing follows a short header's. It is cut where it ends, its number's space is that of its header, and its
/// header, number and payload are returned.
pub fn sealed_opens()
    ensures opens { (opening : Opening) (bytes : List ℕ) (contents : PacketContents) (rest : List ℕ)
        → IsLawful (opening.keys (space_in contents.header)) → BeginsSealed opening bytes contents rest
        → Opens opening bytes (returned_by opening contents) rest }
    ensures cut { (opening : Opening) (bytes : List ℕ) (contents : PacketContents) (rest : List ℕ)
        → IsLawful (opening.keys (space_in contents.header)) → (begins : BeginsSealed opening bytes contents rest)
        → (packet : CutPacket) (left : List ℕ) → CutsFirst opening.options bytes packet left
        → (packet.bytes ≡ begins.packet) × (left ≡ rest) }
    ensures space { (opening : Opening) (bytes : List ℕ) (contents : PacketContents) (rest : List ℕ)
        → IsLawful (opening.keys (space_in contents.header)) → BeginsSealed opening bytes contents rest
        → (packet : CutPacket) (left : List ℕ) → CutsFirst opening.options bytes packet left
        → space_of packet.head ≡ Some (space_in contents.header) }
{}
