//! Laws about whole runs of receptions, which no single call states. The functions do nothing at run time.
ghost use Rattle.std.specs.Prelude.{◌≡◌, ℕ, List, filter};
ghost use Rattle.quic_base.specs.declared.ids.SpaceId.{SpaceId};
ghost use Rattle.quic_header_encode.specs.Kinds.{space_in};
ghost use Rattle.quic_levels.specs.Opening.{BeginsSealed, ReturnsAgain};
ghost use Rattle.quic_levels.specs.Protection.{pair_of};
ghost use Rattle.quic_levels.specs.Receiving.{IsExpectedNext, Receives, Reception, Run, fresh, is_opened};
ghost use Rattle.quic_packets.specs.declared.keys.Expected.{Expected};
ghost use Rattle.quic_packets.specs.Pairs.{expected_in};
ghost use Rattle.quic_packets.specs.Sealing.{PacketContents};

/// After any run of receptions from a new receiver, whatever packets came, were lost, came again or weren't sealed with
/// its keys:
///
/// - the number that is expected next in each space is one more than the greatest that was opened there, or 0
/// - a packet that was sealed with the keys of its level and phase, and whose number follows from the one that is
///   expected, is opened again to its header, number and payload, unless an allocation fails
/// - receptions that opened nothing can be left out: the others are the same run, to the same expected numbers
pub fn sealed_is_received()
    ensures next { (receptions : List Reception) (expected : Expected) → Run fresh receptions expected
        → (space : SpaceId) → IsExpectedNext space receptions (expected_in expected space) }
    ensures opens { (receptions : List Reception) (expected : Expected) → Run fresh receptions expected
        → (last : Reception) (new : Expected) → Receives expected last new
        → (contents : PacketContents) (rest : List ℕ) (next : ℕ)
        → IsExpectedNext (space_in contents.header) receptions next
        → (begins : BeginsSealed last.opening next last.bytes contents rest)
        → ReturnsAgain (pair_of begins.header_key begins.packet_key) contents rest last.answer last.left }
    ensures foreign { (receptions : List Reception) (expected : Expected) → Run fresh receptions expected
        → Run fresh (filter is_opened receptions) expected }
{}
