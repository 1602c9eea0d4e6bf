//! What is proved of the wire layer, in one place (RFC 9000, sections 12, 17, 18 and 19). Each `ensures` is a theorem
//! about all bytes, in terms of the grammar in `crates/*/specs/`; the body names the laws of other crates that prove
//! it. `(x : A) × P` says that there is an x for which P holds. The functions in the module `calls` compute the
//! readings, packets, records and shortest payloads that exist by these laws.
ghost use Rattle.std.specs.Prelude.{◌≡◌, ◌≢◌, ◌+◌, ◌++◌, ℕ, List, [], Bool, true, false, drop, filter, length, map, None, Option, Ok};
ghost use Rattle.quic_base.specs.Number.{AreBytes};
ghost use Rattle.quic_base.specs.One.{ExactlyOne};
ghost use Rattle.quic_base.specs.declared.ids.SpaceId.{SpaceId};
ghost use Rattle.quic_base.specs.Varint.{Encodes};
ghost use Rattle.quic_canon.specs.Least.{IsLeast};
ghost use Rattle.quic_frame_fields.specs.Payload.{AreClosed, Complete, FailsAfter, IsReadingAfter, IsReadingOf, Meaning, Reading, TypedFrame, followed_by, last_type};
ghost use Rattle.quic_frame_fields.specs.declared.frame.fault.Fault.{Fault};
ghost use Rattle.quic_frame_fields.specs.declared.frame.fault.Fault.TheVariants.{UnexpectedEnd};
ghost use Rattle.quic_frames.specs.Least.{frame_in};
ghost use Rattle.quic_frames.specs.Written.{IsShortestOf};
ghost use Rattle.quic_header_decode.specs.Grammar.{CutAnswer, HeaderAt};
ghost use Rattle.quic_header_decode.specs.Headers.{IsOpenedBy, IsWithoutNumber};
ghost use Rattle.quic_header_decode.specs.Reading.{DecodeOptions, TakesWithin};
ghost use Rattle.quic_header_decode.specs.declared.protected.ProtectedHeader.{ProtectedHeader};
ghost use Rattle.quic_header_encode.specs.Kinds.{space_in};
ghost use Rattle.quic_header_encode.specs.Writing.{IsWritable, header_bytes, header_with, size_in};
ghost use Rattle.quic_levels.specs.Opening as level;
ghost use Rattle.quic_levels.specs.Opening.{ReturnsAgain};
ghost use Rattle.quic_levels.specs.Protection.{pair_of};
ghost use Rattle.quic_levels.specs.Receiving.{IsExpectedNext, Receives, Reception, Run, fresh, is_opened};
ghost use Rattle.quic_packets.specs.Opening.{BeginsSealed, IsReadable, Opening, Opens, returned_by};
ghost use Rattle.quic_packets.specs.declared.keys.Expected.{Expected};
ghost use Rattle.quic_packets.specs.Pairs.{IsLawful, expected_in};
ghost use Rattle.quic_packets.specs.Sealing.{PacketContents};
ghost use Rattle.quic_params.specs.Meaning.{IsReadAnswer};
ghost use Rattle.quic_params.specs.Order.{IsOrder};
ghost use Rattle.quic_params.specs.Range.{IsRecordInRange, IsTypedRecord, plain};
ghost use Rattle.quic_params.specs.Writing.{written, written_in};
ghost use Rattle.quic_wire.specs.Plain.{IsPlainInRange};

use quic_base::ids::Side;
use quic_packets::packet::Header;
use quic_params::transport_parameters::{ReadOptions, TransportParameters};

// ---- What bytes are.

/// Every payload, also the empty one, has one reading: its frames; or its frames up to an error, with the frame type
/// that is reported, if any, and the reason. If `strict` is true, a frame type that isn't in its shortest encoding is
/// an error. Empty tokens, data past 2^62 - 1 and more than 2^60 streams aren't errors here; the rules of
/// `quic_frames::laws::checked_readings` can make them errors.
pub fn every_payload()
    ensures { (strict : Bool) (bytes : List ℕ) → AreBytes bytes → ExactlyOne (IsReadingOf strict bytes) }
{
    quic_frames::laws::one_reading();
}

/// For given options, every datagram has one first packet, or one error. The options' parser of ids must never take
/// more bytes than there are (`TakesWithin`).
pub fn every_datagram()
    ensures { (options : DecodeOptions) (bytes : List ℕ) → AreBytes bytes → TakesWithin options
        → ExactlyOne (CutAnswer options bytes) }
{
    quic_header_decode::laws::one_answer();
}

/// Every list of transport parameters has one record or one error, for the side that reads it and for each way of
/// reading (`ReadOptions`).
pub fn every_list()
    ensures { (options : ReadOptions) (side : Side) (bytes : List ℕ) → AreBytes bytes
        → ExactlyOne (IsReadAnswer options side bytes) }
{
    quic_params::laws::one_answer();
    quic_params::laws::answer_as_a_function();
}

/// Every payload with frames and without an error, its types in any encoding, has one shortest payload of the same
/// meaning; no other payload has one.
pub fn one_shortest()
    ensures one { (frames : List TypedFrame) (payload : List ℕ) → payload ≢ []
        → IsReadingOf false payload (Complete frames) → ExactlyOne (λ least. IsLeast least payload) }
    ensures none { (least payload : List ℕ) → IsLeast least payload
        → (payload ≢ []) × ((frames : List TypedFrame) × IsReadingOf false payload (Complete frames)) }
{
    quic_canon::laws::one_least();
}

// ---- What is written is read back.

/// The shortest payload of some frames is read as these frames, whether or not frame types must be in their shortest
/// encodings.
pub fn frames_again()
    ensures { (strict : Bool) (frames : List Meaning) (payload : List ℕ) → frames ≢ [] → IsShortestOf frames payload
        → (found : List TypedFrame) × IsReadingOf strict payload (Complete found)
        × (map frame_in found ≡ frames) }
{
    quic_frames::laws::one_reading();
    quic_canon::laws::one_least();
    quic_canon::laws::written_is_least();
}

/// A header whose version, fixed bit and ids (of at most 20 bytes) the options accept is read as it was written.
pub fn headers_again()
    // Headers without a packet number, up to the last connection id: a Retry of a known version, and a version
    // negotiation whose fixed bit the options accept. Any bytes may follow.
    ensures plain { (options : DecodeOptions) (header : Header) (rest : List ℕ) → IsPlainInRange options header
        → (read : ProtectedHeader) × IsWithoutNumber read header
        × HeaderAt options (length (header_bytes header ++ rest)) (header_bytes header ++ rest) read rest }
    // Headers that can be written with a packet number, in a packet without header protection: a long header of a known
    // version, whatever the Length field's value and encoding; and a short header whose id the options' parser returns,
    // whatever follows the id.
    ensures numbered { (options : DecodeOptions) (header : Header) (count : ℕ) (len payload : List ℕ)
        → IsWritable header → IsReadable options header [] → Encodes count len
        → let packet = header_with len header ++ payload in (read : ProtectedHeader) × (at : ℕ)
        × HeaderAt options (length packet) packet read (drop at packet)
        × IsOpenedBy true read at header packet (at + size_in header) }
{
    quic_header_decode::laws::written();
}

/// A packet that is sealed as this library seals (`Sealed`) is opened to its header, packet number and payload, if the
/// keys undo what they did (`IsLawful`), its header is read as in `headers_again`, and its number is near the expected
/// one (`BeginsSealed`). Any bytes may follow a packet with a long header; nothing may follow one with a short header.
pub fn packets_again()
    ensures { (opening : Opening) (bytes : List ℕ) (contents : PacketContents) (rest : List ℕ)
        → IsLawful (opening.keys (space_in contents.header)) → BeginsSealed opening bytes contents rest
        → Opens opening bytes (returned_by opening contents) rest }
{
    quic_packets::laws::sealed_opens();
}

/// A `Receiver` opens packets with keys by level and key phase, which may differ from call to call. After any
/// receptions (`Run`), whatever packets came, were lost, came again or weren't sealed with its keys:
pub fn packets_received()
    // The number that is expected next in a space is one more than the greatest that was opened there, or 0.
    ensures next { (receptions : List Reception) (expected : Expected) → Run fresh receptions expected
        → (space : SpaceId) → IsExpectedNext space receptions (expected_in expected space) }
    // A packet that was sealed with the keys of its level and phase, and whose number follows from the one that is
    // expected (`BeginsSealed`), is opened to its header, number and payload, unless an allocation fails.
    ensures opens { (receptions : List Reception) (expected : Expected) → Run fresh receptions expected
        → (last : Reception) (new : Expected) → Receives expected last new
        → (contents : PacketContents) (rest : List ℕ) (next : ℕ)
        → IsExpectedNext (space_in contents.header) receptions next
        → (begins : level.BeginsSealed last.opening next last.bytes contents rest)
        → ReturnsAgain (pair_of begins.header_key begins.packet_key) contents rest last.answer last.left }
    // Receptions that opened nothing can be left out: the others are the same run, to the same expected numbers.
    ensures foreign { (receptions : List Reception) (expected : Expected) → Run fresh receptions expected
        → Run fresh (filter is_opened receptions) expected }
{
    quic_levels::laws::sealed_is_received();
}

/// Parameters in range for the side that reads them are read, in each way of reading, as the record that was written,
/// with `grease_transport_parameter` and `write_order` None.
pub fn parameters_again()
    ensures own { (options : ReadOptions) (side : Side) (params : TransportParameters) → IsTypedRecord params
        → IsRecordInRange side params → IsReadAnswer options side (written params) (Ok (plain params)) }
    // The order in which they are written doesn't matter.
    ensures any { (options : ReadOptions) (side : Side) (params : TransportParameters) (order : List ℕ)
        → IsTypedRecord params → IsRecordInRange side params → IsOrder order
        → IsReadAnswer options side (written_in params order) (Ok (plain params)) }
{
    quic_params::laws::read_back();
}

// ---- What lasts, whatever follows.

/// What was read stays when bytes are appended: all frames, and then what these bytes are read as, if no frame is open
/// (a STREAM or DATAGRAM without a length); and an error that isn't an unexpected end, with the frames before it.
pub fn lasting()
    ensures frames { (strict : Bool) (found : List TypedFrame) (bytes more : List ℕ) (rest : Reading)
        → IsReadingOf strict bytes (Complete found) → AreClosed found
        → IsReadingAfter strict (last_type None found) more rest
        → IsReadingOf strict (bytes ++ more) (followed_by found rest) }
    ensures error { (strict : Bool) (found : List TypedFrame) (bytes more : List ℕ) (type : Option ℕ) (reason : Fault)
        → AreBytes (bytes ++ more) → reason ≢ UnexpectedEnd → IsReadingOf strict bytes (FailsAfter found type reason)
        → IsReadingOf strict (bytes ++ more) (FailsAfter found type reason) }
    // So if a payload has no error, the only error that its first bytes can have is an unexpected end.
    ensures front { (strict : Bool) (found others : List TypedFrame) (bytes more : List ℕ) (type : Option ℕ)
        (reason : Fault) → AreBytes (bytes ++ more) → IsReadingOf strict (bytes ++ more) (Complete found)
        → IsReadingOf strict bytes (FailsAfter others type reason) → reason ≡ UnexpectedEnd }
{
    quic_frames::laws::lasting();
}
