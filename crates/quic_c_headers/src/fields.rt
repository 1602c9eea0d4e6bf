//! Where each field of a packet's header is.
ghost use Rattle.std.specs.Prelude.{◌≡◌, ◌<◌, ◌≤◌, ◌⊎◌, ◌↔◌, ◌^◌, ℕ, Result, length};
ghost use Rattle.quic_c_headers.specs.Fields.{found_or, no_fields, part_of, AreFields, IsStored};
ghost use Rattle.quic_c_headers.specs.Reading.{LacksFixedBit, Reported};
ghost use Rattle.quic_results.specs.Results.{failed};

use crate::headers::{lacks_fixed_bit, show};
use crate::words::CHeader;
use quic_base::coding::are_bytes;
use quic_fields::field::{Reach, Span};
use quic_header_decode::laws::one_reading;
use quic_header_decode::places::read_header;
use quic_header_fields::fault::{spans_before_last, spans_of_partial_retry};
use quic_header_fields::laws::{one_error, one_list_of_spans, where_reading_stops};
use quic_header_fields::packet::packet_spans;
use quic_results::laws::distinct;
use quic_results::results::Failure;

// The sizes that they must have in C.
const _: () = prove!(std::mem::size_of::<Reach>() == 32);

const _: () = prove!(std::mem::size_of::<Span>() == 32);

// A header without fields.
const NO_HEADER: CHeader = CHeader {
    kind: 0,
    first: 0,
    dst_len: 0,
    src_len: 0,
    version: 0,
    header_end: 0,
    end: 0,
    token: 0,
    token_len: 0,
    len: 0,
};

// No field was read.
const NO_FIELDS: Reach = Reach {
    count: 0,
    end: 0,
    inside: 0,
    numbers: 0,
};

// What is returned: 1 for a packet, and the number of a failure for what is none.
fn found_or(outcome: Result<u32, Failure>) -> i32
    ensures { result ≡ found_or outcome }
{
    match outcome {
        Ok(_) => 1,
        Err(failure) => failure.number(),
    }
}

// Which fields are stored.
#[derive(Clone, Copy, Debug, PartialEq, Eq)]
enum Part {
    // Those that can be read.
    Whole,
    // Those before the Length of a packet that is cut off.
    Cut,
    // Those before the token or the tag that a Retry lacks.
    Retry,
}

// The same for what is reported.
fn part_of(outcome: Result<u32, Failure>) -> Part
    ensures { result ≡ part_of outcome }
{
    match outcome {
        Err(Failure::PacketCut) => Part::Cut,
        Err(Failure::PacketRetry) => Part::Retry,
        _ => Part::Whole,
    }
}

// Stores the spans of what is reported to be at the front, as far as there is room, and returns how far they go.
fn store(
    packet: &[u8],
    id_len: usize,
    versions: &[u32],
    outcome: Result<u32, Failure>,
    fields: &mut [Span],
) -> Reach
    requires few { id_len ≤ 20 }
    requires reported { (flags : ℕ) × (before after : CHeader)
        × Reported flags id_len versions.now packet.now before outcome after }
    ensures stored { AreFields id_len versions.now packet.now fields.old fields.new result outcome }
{
    one_reading();
    one_list_of_spans();
    one_error();
    where_reading_stops();
    are_bytes(packet);
    match part_of(outcome) {
        Part::Cut => spans_before_last(packet, id_len, versions, fields),
        Part::Retry => spans_of_partial_retry(packet, id_len, versions, fields),
        Part::Whole => {
            let walked = packet_spans(packet, id_len, versions, fields);
            Reach {
                count: walked.count,
                end: walked.end,
                inside: walked.inside,
                numbers: walked.numbers,
            }
        }
    }
}

/// Stores where the fields of the packet's header are, as far as `fields` reaches, and returns 1; how many they are and
/// where the last one ends, in `out`. Those of a version negotiation and of a Retry go on to the end of the packet. No
/// packet has more than eight. If `quic_wire_header_read_` returns an error for these arguments, that is returned, and
/// the fields before the one at fault are stored: of a packet that is cut off those before its Length; of a Retry
/// without a token those before that, or those before its tag. With `Length` and `PacketFixedBit` no field is stored,
/// and `out` is zeros.
#[unsafe(no_mangle)]
pub extern "C" fn quic_wire_packet_fields_(
    packet: &[u8],
    id_len: usize,
    versions: &[u32],
    flags: u32,
    fields: &mut [Span],
    out: &mut Reach,
) -> i32
    ensures invalid { (result ≡ failed Failure.Length) ↔ ((2 ^ 32 ≤ length packet.now) ⊎ (20 < id_len)) }
    ensures fixed { (result ≡ failed Failure.PacketFixedBit)
        ↔ (length packet.now < 2 ^ 32) × (id_len ≤ 20) × LacksFixedBit flags versions.now packet.now }
    ensures nothing { (result ≡ failed Failure.Length) ⊎ (result ≡ failed Failure.PacketFixedBit)
        → (fields.new ≡ fields.old) × (out.new ≡ no_fields) }
    ensures stored { (result ≡ failed Failure.Length) ⊎ (result ≡ failed Failure.PacketFixedBit)
        ⊎ IsStored flags id_len versions.now packet.now fields.old fields.new out.new result }
    // What `quic_wire_header_read_` reports for these arguments is returned, and nothing else.
    ensures same { (result ≡ failed Failure.Length) ⊎ (result ≡ failed Failure.PacketFixedBit)
        ⊎ ((outcome : Result ℕ Failure) (before after : CHeader)
        → Reported flags id_len versions.now packet.now before outcome after → result ≡ found_or outcome) }
{
    distinct();
    one_reading();
    are_bytes(packet);
    *out = NO_FIELDS;
    if packet.len() > u32::MAX as usize || id_len > 20 {
        return Failure::Length.number();
    }
    if lacks_fixed_bit(packet, versions, flags) {
        return Failure::PacketFixedBit.number();
    }
    let mut head = NO_HEADER;
    let read = read_header(packet, id_len, versions);
    let outcome = show(packet, read, flags, &mut head);
    *out = store(packet, id_len, versions, outcome, fields);
    found_or(outcome)
}
