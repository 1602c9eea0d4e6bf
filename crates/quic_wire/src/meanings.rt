//! What is proved of meanings, shortest lists, sets and packet numbers, beside the laws of `laws`.
ghost use Rattle.std.specs.Prelude.{◌≡◌, ◌≢◌, ◌+◌, ◌-◌, ◌%◌, ◌^◌, ◌<◌, ◌≤◌, ◌↔◌, ℕ, List, length, Option};
ghost use Rattle.std.specs.declared.ops.Range.{Range};
ghost use Rattle.quic_base.specs.One.{ExactlyOne};
ghost use Rattle.quic_canon.specs.Least.{IsLeast};
ghost use Rattle.quic_canon.specs.Same.{IsSame};
ghost use Rattle.quic_crypto.specs.PacketNumbers.{Expands, IsInRange, SizeFor, low_part, number_size, window_of};
ghost use Rattle.quic_frame_fields.specs.Acks.{parts_of, ranges_acked};
ghost use Rattle.quic_frame_fields.specs.Sets.{ack_of, is_in, ranges_in};
ghost use Rattle.quic_frame_fields.specs.declared.frame.ack.Ack.{Ack};
ghost use Rattle.quic_frame_fields.specs.declared.frame.ack.EcnCounts.{EcnCounts};
ghost use Rattle.quic_frames.specs.Meaning.{meaning_of};
ghost use Rattle.quic_params.specs.Meaning.{IsMeant};
ghost use Rattle.quic_params.specs.Options.{as_quinn};
ghost use Rattle.quic_params.specs.Order.{IsOrder};
ghost use Rattle.quic_params.specs.Range.{plain};
ghost use Rattle.quic_params.specs.Writing.{written, written_in};
ghost use Rattle.quic_ranges.specs.Runs.{IsMaximalRuns, member};

use quic_crypto::packet_number::PacketNumber;
use quic_frames::frame::Frame;
use quic_params::transport_parameters::TransportParameters;

/// Payloads mean the same exactly if their shortest payloads are equal.
pub fn same_meaning()
    ensures same { (payload other least least' : List ℕ) → IsLeast least payload → IsLeast least' other
        → (IsSame payload other ↔ (least ≡ least')) }
    // Each other payload with the meaning of a shortest one is longer, and a shortest one's is itself.
    ensures longer { (payload other least : List ℕ) → IsLeast least payload → IsSame other payload → other ≢ least
        → length least < length other }
    ensures again { (payload least : List ℕ) → IsLeast least payload → IsLeast least least }
{
    quic_canon::laws::one_least();
}

/// No list of some parameters is shorter than the one that is written of them, and each that is as short is written of
/// them in some order.
pub fn shortest_lists()
    ensures least { (params : TransportParameters) (list : List ℕ) → IsMeant as_quinn (plain params) list
        → length (written (plain params)) ≤ length list }
    ensures alone { (params : TransportParameters) (list : List ℕ) → IsMeant as_quinn (plain params) list
        → length list ≡ length (written (plain params))
        → (order : List ℕ) × IsOrder order × (list ≡ written_in (plain params) order) }
{
    quic_params::laws::shortest();
}

/// A set of packet numbers has one list of maximal runs, and the ranges of an ACK of the set have its numbers and no
/// others.
pub fn sets()
    ensures one { (some others : List (Range ℕ)) → IsMaximalRuns some → IsMaximalRuns others
        → ((n : ℕ) → member some n ≡ member others n) → some ≡ others }
    ensures acknowledged { (runs : List (Range ℕ)) (n : ℕ) → IsMaximalRuns runs
        → is_in (ranges_in runs) n ≡ member runs n }
    ensures read { (ack : Ack) (delay : ℕ) (runs : List (Range ℕ)) (counts : Option EcnCounts)
        → meaning_of (Frame.Ack ack) ≡ ack_of delay runs counts
        → (ranges_acked ack ≡ ranges_in runs) × ((parts_of ack).delay ≡ delay) × ((parts_of ack).ecn ≡ counts) }
{
    quic_ranges::laws::runs();
    quic_frames::laws::set_acknowledged();
}

/// A written part and an expected number determine one packet number. It is the one that was written, if the part has
/// as many bytes as the distance to an acknowledged number asks for, and the expected number is not before that one and
/// at most one above the written one.
pub fn numbers()
    ensures one { (number : PacketNumber) (expected : ℕ) → IsInRange number → expected < 2 ^ 62
        → ExactlyOne (Expands (low_part number) (window_of number) expected) }
    ensures again { (number : PacketNumber) (n acked expected : ℕ) → low_part number ≡ n % window_of number
        → SizeFor (n - acked) (number_size number) → acked ≤ expected → expected ≤ n + 1
        → Expands (low_part number) (window_of number) expected n }
{}
