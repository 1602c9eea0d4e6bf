//! Laws of what is printed, which no single call states. The functions do nothing at run time.
ghost use Rattle.std.specs.Prelude.{◌≡◌, ◌≢◌, ◌++◌, [], ◌∷◌, List, ℕ, Bool, true, false, None, Option, Result, map};
ghost use Rattle.std.specs.List.{list_all};
ghost use Rattle.hex.specs.Hex.{encode_lower};
ghost use Rattle.quic_base.specs.Number.{AreBytes};
ghost use Rattle.quic_header_decode.specs.Datagram.{PlacedPacket, ArePackets};
ghost use Rattle.quic_header_decode.specs.Refusal.{Refusal};
ghost use Rattle.quic_text.specs.DatagramText.{with_ids_of, packet_line, refusal_lines};
ghost use Rattle.quic_text.specs.IdLens.{count};
ghost use Rattle.quic_text.specs.Text.{payload_lines};
ghost use Rattle.quic_frame_fields.specs.declared.frame.fault.Fault.{Fault};
ghost use Rattle.quic_frame_fields.specs.Reading.{Broken, invalid};
ghost use Rattle.quic_frames.specs.Placed as frames;
ghost use Rattle.quic_frame_fields.specs.Payload.{TypedFrame, IsBroken};
ghost use Rattle.quic_canon.specs.Least.{IsLeast};
ghost use Rattle.quic_text.specs.FrameText.{item_line, empty_line};
ghost use Rattle.quic_text.specs.Printed.{Plain, is_plain};
ghost use Rattle.quic_base.specs.declared.ids.Side.{Side};
ghost use Rattle.quic_params.specs.Meaning.{IsReadAnswer};
ghost use Rattle.quic_params.specs.Options.{as_quinn};
ghost use Rattle.quic_params.specs.declared.error.Error.{Error};
ghost use Rattle.quic_params.specs.declared.record.TransportParameters.{TransportParameters};
ghost use Rattle.quic_text.specs.ParameterText.{answer_lines, parameter_lines};

use crate::id_len::IdLen;
use crate::mode::Mode;
use quic_canon::laws as canonical;
use quic_frames::laws::items_in_place;
use quic_params::laws;

/// If a datagram is these packets, or these and then an error, `datagram` prints exactly their lines, with these
/// offsets. Each datagram is one or the other.
pub fn packets_printed()
    ensures lines { (len : IdLen) (bytes : List ℕ) (packets : List PlacedPacket) (refusal : Option Refusal)
        → AreBytes bytes
        → ArePackets (with_ids_of (count len)) 0 bytes packets refusal
        → payload_lines (Mode.Datagram len) bytes ≡ map packet_line packets ++ refusal_lines refusal }
    ensures some { (len : IdLen) (bytes : List ℕ) → AreBytes bytes
        → (packets : List PlacedPacket) × (refusal : Option Refusal)
        × ArePackets (with_ids_of (count len)) 0 bytes packets refusal }
{}

/// If a payload is these frames, or these and then an invalid one, `frames` prints exactly their lines, with these
/// offsets.
pub fn frames_printed()
    ensures frames { (some : List frames.Placed) (bytes : List ℕ) → bytes ≢ [] → frames.ArePlaced false 0 some bytes
        → payload_lines Mode.Frames bytes ≡ map (λ p. item_line (frames.whole p)) some }
    ensures broken { (some : List frames.Placed) (bytes : List ℕ) (type : Option ℕ) (reason : Fault) → bytes ≢ []
        → AreBytes bytes → frames.IsPlacedBroken false some bytes type reason
        → payload_lines Mode.Frames bytes ≡ map (λ p. item_line (frames.whole p)) some
        ++ item_line (Broken (invalid type reason)) ∷ [] }
{
    items_in_place();
}

/// `strict` prints the same, but a type that is not in its shortest encoding is an error.
pub fn strict_printed()
    ensures frames { (some : List frames.Placed) (bytes : List ℕ) → bytes ≢ [] → frames.ArePlaced true 0 some bytes
        → payload_lines Mode.Strict bytes ≡ map (λ p. item_line (frames.whole p)) some }
    ensures broken { (some : List frames.Placed) (bytes : List ℕ) (type : Option ℕ) (reason : Fault) → bytes ≢ []
        → AreBytes bytes → frames.IsPlacedBroken true some bytes type reason
        → payload_lines Mode.Strict bytes ≡ map (λ p. item_line (frames.whole p)) some
        ++ item_line (Broken (invalid type reason)) ∷ [] }
{
    items_in_place();
}

/// `canon` prints the digits of the shortest payload with the same meaning, or the line of the error if the payload is
/// invalid.
pub fn canonical_printed()
    ensures least { (payload least : List ℕ) → IsLeast least payload
        → payload_lines Mode.Canon payload ≡ Plain (encode_lower least) ∷ [] }
    ensures broken { (found : List TypedFrame) (payload : List ℕ) (type : Option ℕ) (reason : Fault)
        → AreBytes payload → IsBroken false None found payload type reason
        → payload_lines Mode.Canon payload ≡ item_line (Broken (invalid type reason)) ∷ [] }
    ensures empty { payload_lines Mode.Canon [] ≡ empty_line ∷ [] }
    // What it prints is read by `strict` without an error.
    ensures strict { (payload least : List ℕ) → IsLeast least payload
        → list_all is_plain (payload_lines Mode.Strict least) ≡ true }
{
    canonical::one_least();
}

/// `params` prints of a list the lines of its record, or of its error, as the grammar has them.
pub fn parameter_lines()
    ensures { (side : Side) (list : List ℕ) (answer : Result TransportParameters Error) → AreBytes list
        → IsReadAnswer as_quinn side list answer
        → parameter_lines side list ≡ answer_lines answer }
{
    laws::one_answer();
    laws::answer_as_a_function();
}
