//! What is proved of the readers' mode that RFC 9000 asks for (`Rules::RFC`, `ReadOptions::RFC`): it finds what
//! `specs/Rfc.antt` allows, and nothing else.
ghost use Rattle.std.specs.Prelude.{◌≡◌, ◌≢◌, ◌↔◌, ◌⊎◌, ℕ, List, [], All, Bool, true, false, map, Ok, Err};
ghost use Rattle.quic_base.specs.Number.{AreBytes};
ghost use Rattle.quic_base.specs.One.{ExactlyOne};
ghost use Rattle.quic_canon.specs.Least.{IsLeast};
ghost use Rattle.quic_frame_fields.specs.Payload.{Meaning, TypedFrame};
ghost use Rattle.quic_frame_fields.specs.Reading.{Invalid};
ghost use Rattle.quic_frames.specs.Least.{frame_in};
ghost use Rattle.quic_frames.specs.Rules.{IsCheckedOf};
ghost use Rattle.quic_frames.specs.Written.{IsShortestOf};
ghost use Rattle.quic_header_decode.specs.Grammar.{Cut};
ghost use Rattle.quic_header_decode.specs.Reading.{DecodeOptions, TakesWithin};
ghost use Rattle.quic_header_decode.specs.Rfc.{IsComplete, IsNegotiation, IsRfcPacket, RfcPacketAnswer, with_grease};
ghost use Rattle.quic_header_decode.specs.declared.protected.ProtectedHeader.{ProtectedHeader};
ghost use Rattle.quic_params.specs.Meaning.{IsReadAnswer};
ghost use Rattle.quic_params.specs.Range.{IsRecordInRange, IsTypedRecord, plain};
ghost use Rattle.quic_params.specs.Writing.{written};
ghost use Rattle.quic_wire.specs.Rfc.{IsAllowed, IsRfcError, IsRfcList, IsRfcListError, IsRfcPayload, rfc_rules, with_error, without_error};

use crate::laws::{every_list, frames_again, parameters_again};
use quic_base::ids::Side;
use quic_frames::frame::Rules;
use quic_params::transport_parameters::{Error, ReadOptions, TransportParameters};

/// By RFC 9000's rules, with the ACK frequency extension or without it, every payload has one reading. That of a
/// payload with bytes has no error exactly if the payload is allowed; an empty one is never allowed (section 12.4), and
/// calls report it before they read.
pub fn rfc_payloads()
    ensures one { (negotiated : Bool) (payload : List ℕ) → AreBytes payload
        → ExactlyOne (IsCheckedOf (rfc_rules negotiated) payload) }
    ensures allowed { (negotiated : Bool) (frames : List TypedFrame) (payload : List ℕ) → payload ≢ []
        → (IsCheckedOf (rfc_rules negotiated) payload (without_error frames) ↔ IsRfcPayload negotiated frames payload) }
    // Its error, after frames that are allowed, is that of the first thing that isn't; by `one`, a payload has one such
    // error at most.
    ensures first { (negotiated : Bool) (frames : List TypedFrame) (payload : List ℕ) (reported : Invalid)
        → AreBytes payload
        → (IsCheckedOf (rfc_rules negotiated) payload (with_error frames reported)
        ↔ IsRfcError negotiated frames payload reported) }
    // The rules of the code are these.
    ensures rules { Rules.RFC ≡ rfc_rules false }
    ensures negotiated { record Rules.RFC { no_ack_frequency = false } ≡ rfc_rules true }
{
    quic_frames::laws::checked_readings();
    quic_frames::laws::one_reading();
    quic_frames::laws::lasting();
}

/// The shortest payload of allowed frames is allowed, and is read as these frames; and so is the shortest payload that
/// means the same as an allowed one.
pub fn rfc_frames_again()
    ensures written { (negotiated : Bool) (frames : List Meaning) (payload : List ℕ) → frames ≢ []
        → All (IsAllowed negotiated) frames → IsShortestOf frames payload
        → (found : List TypedFrame) × IsRfcPayload negotiated found payload × (map frame_in found ≡ frames) }
    ensures shortest { (negotiated : Bool) (frames : List TypedFrame) (payload least : List ℕ)
        → IsRfcPayload negotiated frames payload → IsLeast least payload
        → (found : List TypedFrame) × IsRfcPayload negotiated found least × (map frame_in found ≡ map frame_in frames) }
{
    frames_again();
    quic_canon::laws::least_by_rules();
    quic_canon::laws::written_is_least();
}

/// In RFC 9000's way of reading, every list of transport parameters has one record or one error; it has a record
/// exactly if it is allowed, for the side that reads it.
pub fn rfc_lists()
    ensures one { (side : Side) (list : List ℕ) → AreBytes list → ExactlyOne (IsReadAnswer ReadOptions.RFC side list) }
    ensures allowed { (side : Side) (list : List ℕ) (params : TransportParameters)
        → (IsReadAnswer ReadOptions.RFC side list (Ok params) ↔ IsRfcList side params list) }
    // The error is that of the first thing that isn't allowed.
    ensures first { (side : Side) (list : List ℕ) (error : Error)
        → (IsReadAnswer ReadOptions.RFC side list (Err error) ↔ IsRfcListError side list error) }
    // What is written of parameters in range is allowed.
    ensures written { (side : Side) (params : TransportParameters) → IsTypedRecord params → IsRecordInRange side params
        → IsRfcList side (plain params) (written params) }
{
    every_list();
    parameters_again();
}

/// A datagram begins with exactly one packet that is allowed, or with none for exactly one reason. Each packet that is
/// cut from it with the fixed bit checked, and isn't a Retry that lacks its token or its tag, is allowed; an allowed
/// one that isn't a version negotiation is cut so; and an allowed version negotiation is cut with the fixed bit
/// unchecked.
pub fn rfc_packets()
    ensures one { (options : DecodeOptions) (datagram : List ℕ) → AreBytes datagram → TakesWithin options
        → ExactlyOne (RfcPacketAnswer options datagram) }
    // There is at most one packet whatever the parser of ids does.
    ensures only { (options : DecodeOptions) (datagram : List ℕ) (h other : ProtectedHeader) (p q p' q' : ℕ)
        → AreBytes datagram → IsRfcPacket options datagram h p q → IsRfcPacket options datagram other p' q'
        → (h ≡ other) × (p ≡ p') × (q ≡ q') }
    ensures allowed { (options : DecodeOptions) (datagram : List ℕ) (h : ProtectedHeader) (p q : ℕ)
        → Cut (with_grease false options) datagram h p q → IsComplete h p q → IsRfcPacket options datagram h p q }
    ensures read { (options : DecodeOptions) (datagram : List ℕ) (h : ProtectedHeader) (p q : ℕ)
        → IsRfcPacket options datagram h p q
        → IsNegotiation h ⊎ Cut (with_grease false options) datagram h p q }
    ensures negotiation { (options : DecodeOptions) (datagram : List ℕ) (h : ProtectedHeader) (p q : ℕ)
        → IsNegotiation h → (Cut (with_grease true options) datagram h p q ↔ IsRfcPacket options datagram h p q) }
{
    quic_header_decode::laws::rfc_packets();
}
