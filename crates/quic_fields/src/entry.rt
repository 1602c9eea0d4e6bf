//! Where the fields of a transport parameter's entry are.
ghost use Rattle.std.specs.Prelude.{◌≡◌, None, IfSome};
ghost use Rattle.quic_fields.specs.Entry.{HasEntry, LacksEntry, stop_in_entry, entry_walk};
ghost use Rattle.quic_fields.specs.Inside.{stop_at};
ghost use Rattle.quic_fields.specs.Kinds.{field_of};

use crate::field::{Seen, Span, Walked, walk};
use crate::row::Kind;

static ENTRY: [Kind; 2] = [Kind::Varint, Kind::Counted];

/// Stores where the fields of the entry at the front of a list of transport parameters are, as far as `room` reaches:
/// its id, and its value with the value's length (RFC 9000, section 18). If one can't be read, the result says which,
/// where it begins, and why.
pub fn entry_spans(list: &[u8], room: &mut [Span]) -> Walked
    ensures ok { result.fault ≡ None → HasEntry list.now room.old room.new result.count result.end }
    ensures err { IfSome result.fault
        (λ reason. LacksEntry list.now room.old room.new result.count result.end reason) }
    ensures inside { (result.inside, result.numbers) ≡ stop_in_entry list.now }
{
    walk(&ENTRY, 0, 0, Seen::Nothing, list, room)
}
