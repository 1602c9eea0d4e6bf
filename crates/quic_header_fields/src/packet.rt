//! Where each field of a packet without a number is, after its header too.
ghost use Rattle.std.specs.Prelude.{◌≡◌, ◌≤◌, ◌-◌, ◌+◌, length, None, IfSome};
ghost use Rattle.quic_fields.specs.Walk.{stored, last_end};
ghost use Rattle.quic_header_decode.specs.Places.{any_fixed, refusal_in, IsSeen};
ghost use Rattle.quic_header_fields.specs.After.{after_at, HasFields};
ghost use Rattle.quic_header_fields.specs.Inside.{stop_in_header};
ghost use Rattle.quic_header_fields.specs.Walk.{LacksHeader};

use crate::header::{Walked, walk_header};
use quic_base::ids::MAX_CID_SIZE;
use quic_fields::field::{Span, put};
use quic_header_decode::places::{HeaderKind, read_header};

// Stores the spans of what follows a header, from an index and an offset on. Returns how many fields there are with
// those of the header, and where the last one ends.
fn put_after(
    kind: HeaderKind,
    index: usize,
    start: usize,
    whole: usize,
    room: &mut [Span],
) -> (usize, usize)
    requires few { index ≤ 8 }
    requires within { start ≤ whole }
    ensures spans { room.new ≡ stored index (after_at kind index start (whole - start)) room.old }
    ensures count { result.0 ≡ index + length (after_at kind index start (whole - start)) }
    ensures end { result.1 ≡ last_end start (after_at kind index start (whole - start)) }
    ensures few { result.0 ≤ 10 }
    ensures within { result.1 ≤ whole }
{
    let n = whole - start;
    match kind {
        HeaderKind::VersionNegotiate => {
            if n % 4 != 0 {
                return (index, start);
            }
            put(
                room,
                index,
                Span {
                    field: index,
                    start,
                    end: start + n,
                    number: (n / 4) as u64,
                },
            );
            (index + 1, start + n)
        }
        HeaderKind::Retry => {
            if n < 16 {
                return (index, start);
            }
            let tag = start + (n - 16);
            put(
                room,
                index,
                Span {
                    field: index,
                    start,
                    end: tag,
                    number: (n - 16) as u64,
                },
            );
            put(
                room,
                index + 1,
                Span {
                    field: index + 1,
                    start: tag,
                    end: tag + 16,
                    number: 16,
                },
            );
            (index + 2, tag + 16)
        }
        _ => (index, start),
    }
}

/// As `header_spans`, and if the packet has no number, the spans of what follows its header, up to the end of `bytes`.
/// In a version negotiation that is one field, the supported versions, if they are whole; its number is how many they
/// are (RFC 9000, section 17.2.1). In a Retry these are the token and the integrity tag of 16 bytes, if there are that
/// many (section 17.2.5).
pub fn packet_spans(bytes: &[u8], id_len: usize, versions: &[u32], room: &mut [Span]) -> Walked
    requires { id_len ≤ MAX_CID_SIZE }
    ensures ok { result.fault ≡ None
        → HasFields (any_fixed id_len versions.now) bytes.now room.old room.new result.count result.end }
    ensures err { IfSome result.fault (λ reason. LacksHeader (any_fixed id_len versions.now) bytes.now room.old room.new
        result.count result.end (refusal_in bytes.now reason)) }
    ensures seen { IfSome result.fault (λ reason. IsSeen (Err reason) (length bytes.now)) }
    ensures inside { (result.inside, result.numbers) ≡ stop_in_header (any_fixed id_len versions.now) bytes.now }
    ensures few { result.count ≤ 10 }
    ensures within { result.end ≤ length bytes.now }
{
    let read = read_header(bytes, id_len, versions);
    let (count, end, inside, numbers) = walk_header(bytes, id_len, versions, room);
    match read {
        Ok(x) => {
            let (all, last) = put_after(x.kind, count, end, bytes.len(), room);
            Walked {
                count: all,
                end: last,
                fault: None,
                inside,
                numbers,
            }
        }
        Err(e) => Walked {
            count,
            end,
            fault: Some(e),
            inside,
            numbers,
        },
    }
}
