//! What a run prints of an input that is one line: what callers learn of it from the laws of texts, for every source
//! and sink.
ghost use Rattle.std.specs.Prelude.{◌≡◌, ◌≢◌, ◌++◌, ◌∷◌, [], List, ℕ, None, Option, OnOk, Result, false, map, true};
ghost use Rattle.hex.specs.Hex.{encode_lower};
ghost use Rattle.quic_base.specs.Number.{AreBytes};
ghost use Rattle.quic_canon.specs.Least.{IsLeast};
ghost use Rattle.quic_frame_fields.specs.Reading.{Broken, invalid};
ghost use Rattle.quic_frame_fields.specs.declared.frame.fault.Fault.{Fault};
ghost use Rattle.quic_frames.specs.Placed as frames;
ghost use Rattle.quic_header_decode.specs.Datagram.{PlacedPacket, ArePackets};
ghost use Rattle.quic_header_decode.specs.Refusal.{Refusal};
ghost use Rattle.quic_params.specs.Meaning.{IsReadAnswer};
ghost use Rattle.quic_params.specs.Options.{as_quinn};
ghost use Rattle.quic_params.specs.declared.error.Error.{Error};
ghost use Rattle.quic_params.specs.declared.record.TransportParameters.{TransportParameters};
ghost use Rattle.quic_text.specs.DatagramText.{with_ids_of, packet_line, refusal_lines};
ghost use Rattle.quic_text.specs.FrameText.{item_line};
ghost use Rattle.quic_text.specs.IdLens.{count};
ghost use Rattle.quic_text.specs.ParameterText.{answer_lines};
ghost use Rattle.quic_text.specs.Printed.{Plain};
ghost use Rattle.quic_bench.specs.Lines.{Prints, IsOneRow};

use quic_base::ids::Side;
use quic_header_decode::laws::one_row_of_packets;
use quic_text::{IdLen, Mode, RunError, Sink, Source, laws, run};
use std::alloc::Global;

/// Of a datagram the lines of its packets are printed, into which it can be cut in one way only.
pub fn packets_printed<R: Source, W: Sink>(
    alloc: Global,
    len: IdLen,
    source: &mut R,
    sink: &mut W,
) -> Result<bool, RunError>
    ensures { OnOk result ((bytes : List ℕ) → AreBytes bytes
        → (packets : List PlacedPacket) × (refusal : Option Refusal)
        × IsOneRow (with_ids_of (count len)) bytes packets refusal
        × Prints bytes (map packet_line packets ++ refusal_lines refusal)
        (R.given source.old) (R.given source.new) (W.taken sink.old) (W.taken sink.new)) }
{
    laws::packets_printed();
    one_row_of_packets();
    run(alloc, Mode::Datagram(len), source, sink)
}

/// Of a payload the lines of its frames are printed, and the line of its error.
pub fn frames_printed<R: Source, W: Sink>(
    alloc: Global,
    source: &mut R,
    sink: &mut W,
) -> Result<bool, RunError>
    ensures frames { OnOk result ((some : List frames.Placed) (bytes : List ℕ) → bytes ≢ []
        → frames.ArePlaced false 0 some bytes
        → Prints bytes (map (λ p. item_line (frames.whole p)) some)
        (R.given source.old) (R.given source.new) (W.taken sink.old) (W.taken sink.new)) }
    ensures broken { OnOk result ((some : List frames.Placed) (bytes : List ℕ) (type : Option ℕ) (reason : Fault)
        → bytes ≢ [] → AreBytes bytes → frames.IsPlacedBroken false some bytes type reason
        → Prints bytes (map (λ p. item_line (frames.whole p)) some ++ item_line (Broken (invalid type reason)) ∷ [])
        (R.given source.old) (R.given source.new) (W.taken sink.old) (W.taken sink.new)) }
{
    laws::frames_printed();
    run(alloc, Mode::Frames, source, sink)
}

/// The same if types must be in their shortest encodings.
pub fn strict_printed<R: Source, W: Sink>(
    alloc: Global,
    source: &mut R,
    sink: &mut W,
) -> Result<bool, RunError>
    ensures { OnOk result ((some : List frames.Placed) (bytes : List ℕ) → bytes ≢ []
        → frames.ArePlaced true 0 some bytes
        → Prints bytes (map (λ p. item_line (frames.whole p)) some)
        (R.given source.old) (R.given source.new) (W.taken sink.old) (W.taken sink.new)) }
{
    laws::strict_printed();
    run(alloc, Mode::Strict, source, sink)
}

/// Of a valid payload the digits of the shortest payload with the same meaning are printed.
pub fn least_printed<R: Source, W: Sink>(
    alloc: Global,
    source: &mut R,
    sink: &mut W,
) -> Result<bool, RunError>
    ensures { OnOk result ((payload least : List ℕ) → IsLeast least payload
        → Prints payload (Plain (encode_lower least) ∷ [])
        (R.given source.old) (R.given source.new) (W.taken sink.old) (W.taken sink.new)) }
{
    laws::canonical_printed();
    run(alloc, Mode::Canon, source, sink)
}

/// Of a list of parameters the lines of its record or of its error are printed.
pub fn parameters_printed<R: Source, W: Sink>(
    alloc: Global,
    side: Side,
    source: &mut R,
    sink: &mut W,
) -> Result<bool, RunError>
    ensures { OnOk result ((list : List ℕ) (answer : Result TransportParameters Error)
        → AreBytes list → IsReadAnswer as_quinn side list answer
        → Prints list (answer_lines answer)
        (R.given source.old) (R.given source.new) (W.taken sink.old) (W.taken sink.new)) }
{
    laws::parameter_lines();
    run(alloc, Mode::Params(side), source, sink)
}
