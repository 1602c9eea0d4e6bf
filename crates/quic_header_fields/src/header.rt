//! Where each field of a header is.
ghost use Rattle.std.specs.Prelude.{◌≡◌, ◌≤◌, length, None, IfSome};
ghost use Rattle.quic_fields.specs.Walk.{stored, last_end};
ghost use Rattle.quic_header_decode.specs.Places.{any_fixed, refusal_in, IsSeen};
ghost use Rattle.quic_header_fields.specs.Inside.{stop_in_header};
ghost use Rattle.quic_header_fields.specs.Walk.{header_walk, HasHeader, LacksHeader};

use crate::field::{Given, Seen, is_known, walk, word};
use crate::row::row;
use quic_base::ids::MAX_CID_SIZE;
use quic_fields::field::{Span, put};
pub use quic_header_decode::places::ReadError;
use quic_header_decode::places::read_header;

/// How far the fields of a header were read.
#[derive(Clone, Copy, Debug, PartialEq, Eq)]
pub struct Walked {
    /// How many fields were read. So the field at fault has this index.
    pub count: usize,
    /// Where the last of them ends, and the field at fault begins.
    pub end: usize,
    /// Why the next field can't be read; `None` if all were.
    pub fault: Option<ReadError>,
    /// How many bytes of the field at fault come before the number or the bytes that can't be read: 1 in an id whose
    /// length can be read.
    pub inside: usize,
    /// How many numbers these are.
    pub numbers: u64,
}

// Reads the header at the front from left to right. Returns how many fields were read, where the last one
// ends, and where reading stops inside the next one, if that can't be read.
pub(crate) fn walk_header(
    bytes: &[u8],
    id_len: usize,
    versions: &[u32],
    room: &mut [Span],
) -> (usize, usize, usize, u64)
    ensures spans { room.new ≡ stored 0 (header_walk (any_fixed id_len versions.now) bytes.now).0 room.old }
    ensures count { result.0 ≡ length (header_walk (any_fixed id_len versions.now) bytes.now).0 }
    ensures end { result.1 ≡ last_end 0 (header_walk (any_fixed id_len versions.now) bytes.now).0 }
    ensures inside { (result.2, result.3) ≡ stop_in_header (any_fixed id_len versions.now) bytes.now }
    ensures few { result.0 ≤ 8 }
    ensures within { result.1 ≤ length bytes.now }
{
    let Some((first, text)) = bytes.split_first() else {
        return (0, 0, 0, 0);
    };
    let first = *first;
    put(
        room,
        0,
        Span {
            field: 0,
            start: 0,
            end: 1,
            number: u64::from(first),
        },
    );
    if first < 0x80 {
        let given = Given {
            version: 0,
            known: true,
            id_len,
        };
        return walk(
            row(first, 0),
            given,
            versions,
            1,
            1,
            Seen::Nothing,
            text,
            room,
        );
    }
    let Some((version, _)) = word(text) else {
        return (1, 1, 0, 0);
    };
    let known = is_known(version, versions);
    let given = Given {
        version,
        known,
        id_len,
    };
    walk(
        row(first, version),
        given,
        versions,
        1,
        1,
        Seen::Nothing,
        text,
        room,
    )
}

/// Stores where the fields of the header at the front are, as far as `room` reaches: its first byte, and then the
/// fields of its row (RFC 9000, sections 17.2 and 17.3). No header has more than eight. Index 1 is the version, 2 and 3
/// are the ids, each with its length byte, 4 has no bytes and stands for a version that is known, then come the token's
/// length, the token and the length, as far as the type has them; of a short header 1 is the id. If a field can't be
/// read, the fields before it are stored, and the result says which field is at fault, where it begins, and why: the
/// error is that of `read_header`. Ids of short headers have `id_len` bytes; the caller must ensure that this is at
/// most 20. For versions other than `versions` only the ids are read, which have up to 255 bytes (RFC 8999, section
/// 5.1). The fixed bit isn't checked. It doesn't allocate.
pub fn header_spans(bytes: &[u8], id_len: usize, versions: &[u32], room: &mut [Span]) -> Walked
    requires { id_len ≤ MAX_CID_SIZE }
    ensures ok { result.fault ≡ None
        → HasHeader (any_fixed id_len versions.now) bytes.now room.old room.new result.count result.end }
    ensures err { IfSome result.fault (λ reason. LacksHeader (any_fixed id_len versions.now) bytes.now room.old room.new
        result.count result.end (refusal_in bytes.now reason)) }
    ensures seen { IfSome result.fault (λ reason. IsSeen (Err reason) (length bytes.now)) }
    ensures inside { (result.inside, result.numbers) ≡ stop_in_header (any_fixed id_len versions.now) bytes.now }
    ensures few { result.count ≤ 8 }
    ensures within { result.end ≤ length bytes.now }
{
    let read = read_header(bytes, id_len, versions);
    let (count, end, inside, numbers) = walk_header(bytes, id_len, versions, room);
    let fault = match read {
        Ok(_) => None,
        Err(e) => Some(e),
    };
    Walked {
        count,
        end,
        fault,
        inside,
        numbers,
    }
}
