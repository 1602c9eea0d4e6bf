//! The field at fault of a packet that isn't complete although its header is.
ghost use Rattle.std.specs.Prelude.{◌≡◌, ◌≤◌, ◌+◌, ℕ, List, length, map};
ghost use Rattle.quic_fields.specs.declared.field.Span.{Span};
ghost use Rattle.quic_fields.specs.Walk.{stored, last_end};
ghost use Rattle.quic_header_decode.specs.declared.protected.ProtectedHeader.{ProtectedHeader};
ghost use Rattle.quic_header_decode.specs.Places.{any_fixed};
ghost use Rattle.quic_header_fields.specs.Fault.{but_last, cut_walk, partial_spans, AreStored};
ghost use Rattle.quic_header_fields.specs.Kinds.{field_of};
ghost use Rattle.quic_header_fields.specs.Spans.{IsHeaderAt};

use crate::field::{Given, Seen, is_known, walk, word};
use crate::header::walk_header;
use crate::row::{Kind, row};
use quic_fields::field::{Reach, Span, put};

// All kinds except the last.
fn but_last(kinds: &[Kind]) -> &[Kind]
    ensures fields { (version : ℕ) → map (field_of version) result.now ≡ but_last (map (field_of version) kinds.now) }
    ensures fewer { length result.now ≤ length kinds.now }
{
    let count = kinds.len().saturating_sub(1);
    &kinds[..count]
}

// Reads the header at the front from left to right, without the last field of its row. Returns how many fields were
// read, and where the last one ends.
fn walk_cut(bytes: &[u8], id_len: usize, versions: &[u32], room: &mut [Span]) -> (usize, usize)
    ensures spans { room.new ≡ stored 0 (cut_walk (any_fixed id_len versions.now) bytes.now) room.old }
    ensures count { result.0 ≡ length (cut_walk (any_fixed id_len versions.now) bytes.now) }
    ensures end { result.1 ≡ last_end 0 (cut_walk (any_fixed id_len versions.now) bytes.now) }
{
    let Some((first, text)) = bytes.split_first() else {
        return (0, 0);
    };
    let first = *first;
    put(
        room,
        0,
        Span {
            field: 0,
            start: 0,
            end: 1,
            number: u64::from(first),
        },
    );
    if first < 0x80 {
        return (1, 1);
    }
    let Some((version, _)) = word(text) else {
        return (1, 1);
    };
    let known = is_known(version, versions);
    let given = Given {
        version,
        known,
        id_len,
    };
    let kinds = but_last(row(first, version));
    let (count, end, _, _) = walk(kinds, given, versions, 1, 1, Seen::Nothing, text, room);
    (count, end)
}

/// Stores the fields of the header at the front before its last one. If that is its Length, it is at fault in a packet
/// that has fewer bytes than it says (RFC 9000, section 17.2). It doesn't allocate.
pub fn spans_before_last(bytes: &[u8], id_len: usize, versions: &[u32], room: &mut [Span]) -> Reach
    ensures stored { (h : ProtectedHeader) (all : List Span) (rest : List ℕ)
        → IsHeaderAt (any_fixed id_len versions.now) (length bytes.now) bytes.now h all rest
        → AreStored (but_last all) room.old room.new result.count result.end }
    ensures inside { result.inside ≡ 0 }
    ensures numbers { result.numbers ≡ 0 }
{
    let (count, end) = walk_cut(bytes, id_len, versions, room);
    Reach {
        count,
        end,
        inside: 0,
        numbers: 0,
    }
}

/// Stores the fields of the Retry at the front before the one at fault, if it has no token or no integrity tag (RFC
/// 9000, section 17.2.5): the token, if a tag of 16 bytes follows the header; the tag, if fewer bytes do, after a token
/// without bytes. It doesn't allocate.
pub fn spans_of_partial_retry(
    bytes: &[u8],
    id_len: usize,
    versions: &[u32],
    room: &mut [Span],
) -> Reach
    ensures stored { (h : ProtectedHeader) (all : List Span) (rest : List ℕ)
        → IsHeaderAt (any_fixed id_len versions.now) (length bytes.now) bytes.now h all rest
        → AreStored (partial_spans all result.end (length rest)) room.old room.new result.count result.end }
    ensures inside { result.inside ≡ 0 }
    ensures numbers { result.numbers ≡ 0 }
{
    let (count, end, _, _) = walk_header(bytes, id_len, versions, room);
    if bytes.len().saturating_sub(end) >= 16 {
        return Reach {
            count,
            end,
            inside: 0,
            numbers: 0,
        };
    }
    put(
        room,
        count,
        Span {
            field: count,
            start: end,
            end,
            number: 0,
        },
    );
    Reach {
        count: count + 1,
        end,
        inside: 0,
        numbers: 0,
    }
}
