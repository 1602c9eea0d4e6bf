//! Where each field of a frame is.
ghost use Rattle.std.specs.Prelude.{◌≡◌, length, None, IfSome};
ghost use Rattle.quic_fields.specs.Inside.{stop_in_frame};
ghost use Rattle.quic_fields.specs.Walk.{frame_walk, stored, last_end, EndsAs, HasSpans, LacksSpans};

use crate::field::{Seen, Span, Walked, number, put, walk};
use crate::row::row;
use quic_frame_fields::frame::fault::Fault;

// Reads the frame at the front from left to right.
fn walk_frame(payload: &[u8], room: &mut [Span]) -> Walked
    ensures spans { room.new ≡ stored 0 (frame_walk payload.now).0 room.old }
    ensures count { result.count ≡ length (frame_walk payload.now).0 }
    ensures ends { EndsAs result.fault (frame_walk payload.now).1 }
    ensures end { result.end ≡ last_end 0 (frame_walk payload.now).0 }
    ensures inside { (result.inside, result.numbers) ≡ stop_in_frame payload.now }
{
    let (ty, rest) = match number(payload) {
        Ok(read) => read,
        Err(fault) => {
            return Walked {
                count: 0,
                end: 0,
                fault: Some(fault),
                inside: 0,
                numbers: 0,
            };
        }
    };
    let Some(kinds) = row(ty) else {
        return Walked {
            count: 0,
            end: 0,
            fault: Some(Fault::InvalidFrameId),
            inside: 0,
            numbers: 0,
        };
    };
    let end = payload.len().saturating_sub(rest.len());
    put(
        room,
        0,
        Span {
            field: 0,
            start: 0,
            end,
            number: ty,
        },
    );
    walk(kinds, 1, end, Seen::Nothing, rest, room)
}

/// Stores where the fields of the frame at the front are, as far as `room` reaches: its type, and then the fields of
/// the type's row (RFC 9000, section 19). No frame has more than seven. If a field can't be read, or no frame has the
/// type, the fields before it are stored, and the result says which field is at fault, where it begins, and why.
pub fn frame_spans(payload: &[u8], room: &mut [Span]) -> Walked
    ensures ok { result.fault ≡ None → HasSpans payload.now room.old room.new result.count result.end }
    ensures err { IfSome result.fault
        (λ reason. LacksSpans payload.now room.old room.new result.count result.end reason) }
    ensures inside { (result.inside, result.numbers) ≡ stop_in_frame payload.now }
{
    walk_frame(payload, room)
}
