//! Where the fields of frames, entries and headers are: what callers learn from the laws on spans.
ghost use Rattle.std.specs.Prelude.{◌≡◌, ◌≤◌, ◌⊎◌, ◌↔◌, ◌++◌, ◌-◌, ◌+◌, ℕ, List, [], Option, None, IfSome, IsTrue, length, slice_index, false};
ghost use Rattle.quic_base.specs.Varint.{Encodes};
ghost use Rattle.quic_base.specs.Codec.{Follows};
ghost use Rattle.quic_fields.specs.declared.field.Span.{Span};
ghost use Rattle.quic_fields.specs.Spans.{AreInRow, AreNumbered};
ghost use Rattle.quic_fields.specs.Rules.{IsAllowedAt};
ghost use Rattle.quic_fields.specs.Walk.{stored};
ghost use Rattle.quic_frame_fields.specs.Payload.{IsFrame, IsNoFrame, TypedFrame};
ghost use Rattle.quic_header_decode.specs.declared.protected.ProtectedHeader.{ProtectedHeader};
ghost use Rattle.quic_header_decode.specs.Grammar.{HeaderAt};
ghost use Rattle.quic_header_decode.specs.Places.{any_fixed};
ghost use Rattle.quic_header_fields.specs.Headers.{spans_in};

use quic_base::ids::MAX_CID_SIZE;
use quic_fields::entry::entry_spans;
use quic_fields::field::Span;
use quic_fields::frame::frame_spans;
use quic_fields::laws as of_frames;
use quic_fields::rules::frame_spans_by;
use quic_frame_fields::frame::fault::Fault;
use quic_frames::frame::Rules;
use quic_header_fields::header::header_spans;
use quic_header_fields::laws as of_headers;
use quic_header_fields::packet::packet_spans;

/// The frame at the front of a payload, whose fields are stored as far as `room` reaches, and how many these are: each
/// byte of the frame belongs to one of them. `None` if no frame begins the payload.
pub fn frame_in_fields<'a>(payload: &'a [u8], room: &mut [Span]) -> Option<(usize, &'a [u8])>
    ensures { IfSome result (λ r. ((found : TypedFrame) × IsFrame false found r.1.now)
        × ((spans : List Span) × (room.new ≡ stored 0 spans room.old) × (r.0 ≡ length spans)
        × AreInRow 0 spans (length r.1.now) × AreNumbered 0 spans)) }
{
    of_frames::one_list_of_spans();
    let walked = frame_spans(payload, room);
    match walked.fault {
        Some(_) => None,
        None => Some((walked.count, &payload[..walked.end])),
    }
}

/// Why a payload doesn't begin with a frame: the reason that reading it reports. `None` if it does, or if it is empty.
pub fn reason_at_front(payload: &[u8]) -> Option<Fault>
    ensures { IfSome result (λ reason. (type : Option ℕ) × IsNoFrame false None payload.now type reason) }
{
    of_frames::one_field_at_fault();
    if payload.is_empty() {
        return None;
    }
    match frame_spans(payload, &mut []).fault {
        None => None,
        Some(reason) => Some(reason),
    }
}

/// Whether a frame that the rules allow begins the payload: exactly when none of its fields is at fault.
pub fn begins_with_allowed(rules: Rules, payload: &[u8]) -> bool
    ensures { IsTrue result ↔ ((spans : List Span) × IsAllowedAt rules payload.now spans) }
{
    of_frames::one_answer_by_rules();
    match frame_spans_by(rules, payload, &mut []).0 {
        None => true,
        Some(_) => false,
    }
}

/// How many bytes the entry at the front of a list of transport parameters has: those of its number, of its value's
/// length and of its value. `None` if no entry begins the list.
pub fn entry_len(list: &[u8]) -> Option<usize>
    ensures { IfSome result (λ n. (number : ℕ) × (value front back : List ℕ) × (list.now ≡ front ++ back)
        × (n ≡ length front) × Follows (Encodes number) (Follows (Encodes (length value)) (λ x. x ≡ value)) front) }
{
    of_frames::one_list_of_spans_in_an_entry();
    let walked = entry_spans(list, &mut []);
    match walked.fault {
        Some(_) => None,
        None => Some(walked.end),
    }
}

/// Whether a header begins the bytes: exactly when none of its fields is at fault. The caller must ensure that `id_len`
/// is at most 20.
pub fn has_header(bytes: &[u8], id_len: usize, versions: &[u32]) -> bool
    requires { id_len ≤ MAX_CID_SIZE }
    ensures { IsTrue result ↔ ((h : ProtectedHeader) × (rest : List ℕ)
        × HeaderAt (any_fixed id_len versions.now) (length bytes.now) bytes.now h rest) }
{
    of_headers::one_list_of_spans();
    of_headers::one_field_at_fault();
    match header_spans(bytes, id_len, versions, &mut []).fault {
        None => true,
        Some(_) => false,
    }
}

/// Stores the fields of the header at the front, by its kind, as far as `room` reaches, and returns how many bytes they
/// have. `None` if no header begins the bytes. The caller must ensure that `id_len` is at most 20.
pub fn header_by_kind(
    bytes: &[u8],
    id_len: usize,
    versions: &[u32],
    room: &mut [Span],
) -> Option<usize>
    requires { id_len ≤ MAX_CID_SIZE }
    ensures { IfSome result (λ n. (h : ProtectedHeader) × (rest : List ℕ)
        × HeaderAt (any_fixed id_len versions.now) (length bytes.now) bytes.now h rest
        × (room.new ≡ stored 0 (spans_in (slice_index bytes.now 0) (length bytes.now - length rest) h) room.old)
        × (n + length rest ≡ length bytes.now)) }
{
    of_headers::one_list_of_spans();
    of_headers::spans_of_each_kind();
    let walked = header_spans(bytes, id_len, versions, room);
    match walked.fault {
        Some(_) => None,
        None => Some(walked.end),
    }
}

/// Stores the fields of a packet, as far as `room` reaches, and returns how many they are: a header's, and of a version
/// negotiation or a Retry those that follow it. They are all bytes that follow, up to the packet's end, or none. `None`
/// if no header begins the bytes. The caller must ensure that `id_len` is at most 20.
pub fn packet_in_fields(
    bytes: &[u8],
    id_len: usize,
    versions: &[u32],
    room: &mut [Span],
) -> Option<usize>
    requires { id_len ≤ MAX_CID_SIZE }
    ensures { IfSome result (λ n. (spans others : List Span) × (start : ℕ)
        × (room.new ≡ stored 0 (spans ++ others) room.old) × (n ≡ length (spans ++ others))
        × ((others ≡ []) ⊎ AreInRow start others (length bytes.now))) }
{
    of_headers::one_list_after_a_header();
    let walked = packet_spans(bytes, id_len, versions, room);
    match walked.fault {
        Some(_) => None,
        None => Some(walked.count),
    }
}
