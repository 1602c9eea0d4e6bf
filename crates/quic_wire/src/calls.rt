//! Functions that return what the laws speak of, or report that memory ran out. Each is proved from public contracts.
ghost use Rattle.std.specs.Prelude.{◌↔◌, false, ◌≡◌, ◌≢◌, ◌++◌, ◌+◌, ◌-◌, ◌<◌, ◌≤◌, ℕ, List, [], All, length, map, codes, IfErr, IfOk, IfSome, IsErrOf, IsTrue, MatchBool, MatchResult, OnErr, OnOk, vec_capacity, vec_len};
ghost use Rattle.quic_base.specs.Number.{AreBytes};
ghost use Rattle.quic_base.specs.One.{ReturnsOne};
ghost use Rattle.quic_base.specs.Writing.{Writes};
ghost use Rattle.quic_canon.specs.Least.{IsLeast};
ghost use Rattle.quic_canon.specs.Refusal.{IsRefused, IsWrong};
ghost use Rattle.quic_frame_fields.specs.Payload.{Complete, IsReadingOf, Reading, TypedFrame};
ghost use Rattle.quic_frames.specs.InRange.{AreTyped, CanFollow};
ghost use Rattle.quic_frames.specs.Meaning.{meaning_of};
ghost use Rattle.quic_frames.specs.Rules.{IsCheckedOf};
ghost use Rattle.quic_frames.specs.Written.{IsPayload};
ghost use Rattle.quic_header_decode.specs.Datagram.{CutsFirst, IsUncut};
ghost use Rattle.quic_header_decode.specs.Grammar.{CutAnswer};
ghost use Rattle.quic_header_decode.specs.Headers.{IsWithoutNumber};
ghost use Rattle.quic_header_decode.specs.Reading.{left_of, read_by};
ghost use Rattle.quic_header_decode.specs.Refusal.{GivesRead};
ghost use Rattle.quic_header_encode.specs.Kinds.{space_in};
ghost use Rattle.quic_header_encode.specs.Writing.{header_bytes};
ghost use Rattle.quic_packets.specs.Opening.{AreExpected, BeginsSealed, Opens, PacketAnswer, ReturnsSealed, packet_of};
ghost use Rattle.quic_packets.specs.Pairs.{IsLawful};
ghost use Rattle.quic_packets.specs.Sealing.{IsAppended, PacketContents, payload_of};
ghost use Rattle.quic_params.specs.Meaning.{IsReadAnswer};
ghost use Rattle.quic_params.specs.Options.{as_quinn};
ghost use Rattle.quic_params.specs.Range.{IsRecordInRange, plain};
ghost use Rattle.quic_wire.specs.Plain.{IsPlainInRange};
ghost use Rattle.quic_wire.specs.Reading.{IsReadByRfc, IsReturnedAs, IsReturnedUnder, MayGoOn};
ghost use Rattle.quic_wire.specs.Rfc.{IsAllowed, rfc_rules};

use crate::laws::{
    every_datagram, every_list, every_payload, frames_again, headers_again, lasting, one_shortest,
    packets_again, parameters_again,
};
use crate::rfc::{rfc_frames_again, rfc_payloads};
use bytes::BytesMut;
use quic_base::coding::{NoRoom, are_bytes};
use quic_base::ids::Side;
use quic_canon::canonical::{CanonError, canonical};
use quic_frames::frame::{Frame, InvalidFrame, Iter, Rules};
use quic_frames::laws::{least_encoding, one_reading, read_back};
use quic_packets::crypto::{HeaderKey, PacketKey};
use quic_packets::packet::{
    ConnectionIdParser, DecodeOptions, Expected, Header, OpenError, Opened, PacketDecodeError,
    PartialDecode, SpaceKeys, open_packet,
};
use quic_packets::pairs::OpeningKeys;
use quic_params::transport_parameters::{Error, ReadOptions, TransportParameters};
use std::alloc::Global;
use thiserror::Error as ThisError;

// ---- Reading.

/// Why a payload isn't read to its end.
#[derive(Clone, Copy, Debug, PartialEq, Eq, ThisError)]
pub enum PayloadError {
    /// The payload has no frame.
    #[error("packet payload is empty")]
    Empty,
    /// Memory ran out.
    #[error("out of memory")]
    OutOfMemory,
}

/// Reads a payload with `Iter`: its frames, and the error after them if there is one.
pub fn read_payload<'a>(
    alloc: Global,
    payload: &'a [u8],
) -> Result<(Vec<Frame<'a>>, Option<InvalidFrame>), PayloadError>
    ensures one { IfOk result (λ x. ReturnsOne (IsReadingOf false payload.now) (IsReturnedAs x.0.items x.1)) }
    ensures empty { IsErrOf result PayloadError.Empty ↔ (payload.now ≡ []) }
{
    every_payload();
    are_bytes(payload);
    let mut frames = Vec::new(alloc);
    let Ok(items) = Iter::new(payload) else {
        return Err(PayloadError::Empty);
    };
    for item in items {
        match item {
            Ok(frame) => {
                if frames.push(frame).is_err() {
                    return Err(PayloadError::OutOfMemory);
                }
            }
            Err(invalid) => return Ok((frames, Some(invalid))),
        }
    }
    Ok((frames, None))
}

/// Reads a payload with `Iter::with_rules`: its frames, and the error after them if there is one. With `Rules::RFC`
/// there is none exactly if RFC 9000 allows the payload (`rfc::rfc_payloads`).
pub fn read_checked<'a>(
    alloc: Global,
    payload: &'a [u8],
    rules: Rules,
) -> Result<(Vec<Frame<'a>>, Option<InvalidFrame>), PayloadError>
    ensures one { IfOk result (λ x. ReturnsOne (IsCheckedOf rules payload.now) (IsReturnedUnder x.0.items x.1)) }
    ensures empty { IsErrOf result PayloadError.Empty ↔ (payload.now ≡ []) }
{
    one_reading();
    lasting();
    are_bytes(payload);
    let mut frames = Vec::new(alloc);
    let Ok(items) = Iter::with_rules(payload, rules) else {
        return Err(PayloadError::Empty);
    };
    for item in items {
        match item {
            Ok(frame) => {
                if frames.push(frame).is_err() {
                    return Err(PayloadError::OutOfMemory);
                }
            }
            Err(refused) => return Ok((frames, Some(refused))),
        }
    }
    Ok((frames, None))
}

// RFC 9000's rules for a receiver, with the ACK frequency extension or without it.
fn rules_of(negotiated: bool) -> Rules
    ensures { result ≡ rfc_rules negotiated }
{
    Rules {
        no_ack_frequency: !negotiated,
        ..Rules::RFC
    }
}

/// Reads a payload by RFC 9000's rules, with the ACK frequency extension or without it: its frames, all of which the
/// RFC allows, and after them the error of the first thing that it doesn't allow, if there is one.
pub fn read_rfc<'a>(
    alloc: Global,
    payload: &'a [u8],
    negotiated: bool,
) -> Result<(Vec<Frame<'a>>, Option<InvalidFrame>), PayloadError>
    ensures read { IfOk result (λ x. IsReadByRfc negotiated payload.now x.0.items x.1) }
    ensures empty { IsErrOf result PayloadError.Empty ↔ (payload.now ≡ []) }
{
    rfc_payloads();
    let (frames, error) = match read_checked(alloc, payload, rules_of(negotiated)) {
        Ok(parts) => parts,
        Err(e) => return Err(e),
    };
    Ok((frames, error))
}

/// Cuts the first packet from a datagram with `PartialDecode::new`.
pub fn cut_first<P: ConnectionIdParser>(
    datagram: BytesMut,
    options: &DecodeOptions<'_, P>,
) -> Result<(PartialDecode, Option<BytesMut>), PacketDecodeError>
    ensures one { ReturnsOne (CutAnswer (read_by (P.parsed options.now.parser.now) options.now.versions.now
        options.now.grease) datagram.items)
        (GivesRead (λ x. (x.0.head, x.0.header_end, length x.0.bytes)) result) }
    ensures cut { IfOk result (λ x. CutsFirst (read_by (P.parsed options.now.parser.now) options.now.versions.now
        options.now.grease) datagram.items x.0 (left_of x.1)) }
    ensures rest { IfOk result (λ x. IfSome x.1 (λ rest. 0 < length rest.items)) }
    ensures refused { IfErr result (λ e. IsUncut (read_by (P.parsed options.now.parser.now) options.now.versions.now
        options.now.grease) (P.takes_memory options.now.parser.now) datagram.items e) }
{
    every_datagram();
    are_bytes(datagram.as_slice());
    PartialDecode::new(datagram, options.parser, options.versions, options.grease)
}

/// Reads a list of transport parameters with `TransportParameters::read`. It doesn't allocate.
pub fn read_parameters(side: Side, list: &[u8]) -> Result<TransportParameters, Error>
    ensures one { ReturnsOne (IsReadAnswer as_quinn side list.now) (λ answer. result ≡ answer) }
{
    every_list();
    are_bytes(list);
    let mut rest = list;
    TransportParameters::read(side, &mut rest)
}

/// Reads a list of transport parameters with `TransportParameters::read_with`. With `ReadOptions::RFC` there is no
/// error exactly if RFC 9000 allows the list (`rfc::rfc_lists`). It doesn't allocate.
pub fn read_parameters_with(
    side: Side,
    options: ReadOptions,
    list: &[u8],
) -> Result<TransportParameters, Error>
    ensures one { ReturnsOne (IsReadAnswer options side list.now) (λ answer. result ≡ answer) }
{
    every_list();
    are_bytes(list);
    let mut rest = list;
    TransportParameters::read_with(side, options, &mut rest)
}

/// Appends the shortest payload with the meaning of `payload`, with `canonical`.
pub fn shorten(payload: &[u8], out: &mut Vec<u8>) -> Result<(), CanonError>
    ensures one { OnOk result (ReturnsOne (λ least. IsLeast least payload.now)
        (λ least. out.new.items ≡ out.old.items ++ least)) }
    ensures refused { IfErr result (λ e. IsRefused payload.now e) }
    ensures kept { OnErr result (out.new.items ≡ out.old.items) }
    ensures capacity { OnErr result (vec_capacity out.new ≡ vec_capacity out.old) }
    ensures unread { IfErr result (λ e. (e ≢ CanonError.OutOfMemory) → out.new ≡ out.old) }
    // With room for the payload's length it doesn't fail for lack of memory.
    ensures room { vec_len out.old + length payload.now ≤ vec_capacity out.old
        → IfErr result (λ e. IsWrong payload.now e) }
{
    one_shortest();
    canonical(payload, out)
}

// ---- What is written, and reading it again.

/// Writes frames as a payload and reads it: it has these frames, and no error. The caller must ensure that the frames
/// can be written one after the other, and that the buffer is empty.
pub fn frames_read_back<'a>(
    alloc: Global,
    frames: &[Frame<'_>],
    out: &'a mut Vec<u8>,
) -> Result<Vec<Frame<'a>>, PayloadError>
    requires some { frames.now ≢ [] }
    requires follow { CanFollow frames.now }
    requires empty { out.old.items ≡ [] }
    ensures again { IfOk result (λ read. map meaning_of read.items ≡ map meaning_of frames.now) }
    ensures memory { IfErr result (λ e. e ≡ PayloadError.OutOfMemory) }
{
    if write_payload(frames, out).is_err() {
        return Err(PayloadError::OutOfMemory);
    }
    read_frames(alloc, frames, out)
}

// Reads a payload that was written from frames.
fn read_frames<'a>(
    alloc: Global,
    frames: &[Frame<'_>],
    payload: &'a [u8],
) -> Result<Vec<Frame<'a>>, PayloadError>
    requires some { frames.now ≢ [] }
    requires written { IsPayload frames.now payload.now }
    ensures again { IfOk result (λ read. map meaning_of read.items ≡ map meaning_of frames.now) }
    ensures memory { IfErr result (λ e. e ≡ PayloadError.OutOfMemory) }
{
    frames_again();
    let (read, error) = match read_payload(alloc, payload) {
        Ok(parts) => parts,
        Err(e) => return Err(e),
    };
    match error {
        None => Ok(read),
        Some(_) => unreachable!(),
    }
}

/// Writes frames that RFC 9000 allows as a payload, and reads it by its rules: it has these frames, and no error. The
/// caller must ensure that the frames can be written one after the other, and that the buffer is empty.
pub fn rfc_read_back<'a>(
    alloc: Global,
    frames: &[Frame<'_>],
    negotiated: bool,
    out: &'a mut Vec<u8>,
) -> Result<Vec<Frame<'a>>, PayloadError>
    requires some { frames.now ≢ [] }
    requires follow { CanFollow frames.now }
    requires allowed { All (IsAllowed negotiated) (map meaning_of frames.now) }
    requires empty { out.old.items ≡ [] }
    ensures again { IfOk result (λ read. map meaning_of read.items ≡ map meaning_of frames.now) }
    ensures memory { IfErr result (λ e. e ≡ PayloadError.OutOfMemory) }
{
    if write_payload(frames, out).is_err() {
        return Err(PayloadError::OutOfMemory);
    }
    read_allowed(alloc, frames, negotiated, out)
}

// Reads a payload that was written from frames that are allowed.
fn read_allowed<'a>(
    alloc: Global,
    frames: &[Frame<'_>],
    negotiated: bool,
    payload: &'a [u8],
) -> Result<Vec<Frame<'a>>, PayloadError>
    requires some { frames.now ≢ [] }
    requires written { IsPayload frames.now payload.now }
    requires allowed { All (IsAllowed negotiated) (map meaning_of frames.now) }
    ensures again { IfOk result (λ read. map meaning_of read.items ≡ map meaning_of frames.now) }
    ensures memory { IfErr result (λ e. e ≡ PayloadError.OutOfMemory) }
{
    rfc_frames_again();
    let (found, error) = match read_checked(alloc, payload, rules_of(negotiated)) {
        Ok(parts) => parts,
        Err(e) => return Err(e),
    };
    match error {
        None => Ok(found),
        Some(_) => unreachable!(),
    }
}

/// Writes parameters as a list and reads it as the given side: the parameters without grease and in the order of the
/// table. The caller must ensure that they are in range for that side, and that the buffer is empty.
pub fn parameters_read_back(
    side: Side,
    params: &TransportParameters,
    out: &mut Vec<u8>,
) -> Result<TransportParameters, NoRoom>
    requires range { IsRecordInRange side params.now }
    requires empty { out.old.items ≡ [] }
    ensures { IfOk result (λ read. read ≡ plain params.now) }
{
    parameters_again();
    params.type_bounds();
    params.write(out)?;
    match read_parameters(side, out) {
        Ok(read) => Ok(read),
        Err(_) => unreachable!(),
    }
}

/// Appends frames with `Frame::encode`, the last one as the last of its payload. If memory runs out, the buffer has its
/// old contents, and possibly a prefix of the payload after them; with room for the payload it doesn't.
pub fn write_payload(frames: &[Frame<'_>], out: &mut Vec<u8>) -> Result<(), NoRoom>
    requires { CanFollow frames.now }
    ensures appended { OnOk result (IsAppended (IsPayload frames.now) out.old.items out.new.items) }
    ensures written { Writes result (payload_of frames.now) out.old.items (vec_capacity out.old - vec_len out.old)
        out.new.items (vec_capacity out.new - vec_len out.new) }
{
    are_typed(frames);
    read_back();
    least_encoding();
    for i in 0..frames.len() {
        let last = i + 1 == frames.len();
        frames[i].encode(last, out)?;
    }
    Ok(())
}

// The values in the frames are within the bounds of their types.
fn are_typed(frames: &[Frame<'_>])
    ensures { AreTyped frames.now }
{
    for i in 0..frames.len() {
        frames[i].type_bounds();
    }
}

/// Cuts the first packet from a datagram with `cut_first`, without what follows it. If the datagram begins with a
/// written Retry or version negotiation, its header is what was written, and the only error is that memory ran out.
pub fn cut_plain<P: ConnectionIdParser>(
    datagram: BytesMut,
    options: &DecodeOptions<'_, P>,
) -> Result<PartialDecode, PacketDecodeError>
    ensures one { ReturnsOne (CutAnswer (read_by (P.parsed options.now.parser.now) options.now.versions.now
        options.now.grease) datagram.items) (GivesRead (λ x. (x.head, x.header_end, length x.bytes)) result) }
    ensures cut { IfOk result (λ x. (rest : List ℕ) × CutsFirst (read_by (P.parsed options.now.parser.now)
        options.now.versions.now options.now.grease) datagram.items x rest) }
    ensures refused { IfErr result (λ e. IsUncut (read_by (P.parsed options.now.parser.now) options.now.versions.now
        options.now.grease) (P.takes_memory options.now.parser.now) datagram.items e) }
    ensures plain { (header : Header) (rest : List ℕ) → datagram.items ≡ header_bytes header ++ rest
        → IsPlainInRange (read_by (P.parsed options.now.parser.now) options.now.versions.now options.now.grease) header
        → MatchResult result (λ x. IsWithoutNumber x.head header) (λ e. e ≡ PacketDecodeError.OutOfMemory) }
{
    headers_again();
    match cut_first(datagram, options) {
        Ok((packet, _rest)) => Ok(packet),
        Err(e) => Err(e),
    }
}

/// Opens the first packet of a datagram with `open_packet`: one that was sealed with these keys is opened to what was
/// sealed, unless memory runs out.
pub fn open_sealed<C: ConnectionIdParser, H: HeaderKey, P: PacketKey>(
    datagram: BytesMut,
    options: &DecodeOptions<'_, C>,
    keys: &SpaceKeys<H, P>,
    expected: &Expected,
) -> Result<(Opened, Option<BytesMut>), OpenError>
    requires { AreExpected expected.now }
    ensures answer { PacketAnswer (⟦<SpaceKeys<H, P> as OpeningKeys<C>>⟧.opening keys.now options.now.parser.now
        options.now.versions.now options.now.grease expected.now) datagram.items result }
    ensures sealed { let opening = ⟦<SpaceKeys<H, P> as OpeningKeys<C>>⟧.opening keys.now options.now.parser.now
        options.now.versions.now options.now.grease expected.now in
        (contents : PacketContents) (rest : List ℕ) → BeginsSealed opening datagram.items contents rest
        → MatchResult result (λ x. ReturnsSealed opening contents rest x.0 x.1) (λ e. e ≡ OpenError.OutOfMemory) }
    // So lawful keys open it.
    ensures opens { let opening = ⟦<SpaceKeys<H, P> as OpeningKeys<C>>⟧.opening keys.now options.now.parser.now
        options.now.versions.now options.now.grease expected.now in
        IfOk result (λ x. (contents : PacketContents) (rest : List ℕ) → IsLawful (opening.keys (space_in contents.header))
        → BeginsSealed opening datagram.items contents rest → Opens opening datagram.items (packet_of x.0) rest) }
{
    packets_again();
    open_packet(
        datagram,
        options.parser,
        options.versions,
        options.grease,
        keys,
        expected,
    )
}

/// Whether no payload that begins with these bytes is without an error: true if reading them fails for another reason
/// than an unexpected end. It doesn't allocate.
pub fn is_lost(front: &[u8]) -> bool
    ensures lost { IsTrue result → (more : List ℕ) (found : List TypedFrame) → AreBytes (front.now ++ more)
        → IsReadingOf false (front.now ++ more) (Complete found) → ⊥ }
    ensures going { result ≡ false → (reading : Reading) → IsReadingOf false front.now reading → MayGoOn reading }
{
    lasting();
    every_payload();
    are_bytes(front);
    let Ok(items) = Iter::new(front) else {
        return false;
    };
    for item in items {
        match item {
            Ok(_) => {}
            Err(invalid) => return is_final(invalid.reason),
        }
    }
    false
}

// Whether an error with this reason remains one whatever bytes follow.
fn is_final(reason: &str) -> bool
    ensures { MatchBool result (reason.now ≢ codes "unexpected end") (reason.now ≡ codes "unexpected end") }
{
    reason != "unexpected end"
}
