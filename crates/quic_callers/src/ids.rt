//! Ids: what callers learn from the laws of streams and of connection ids.
ghost use Rattle.std.specs.Prelude.{◌≡◌, ◌<◌, ◌^◌, ◌↔◌, IsTrue};

use quic_base::ids::{ConnectionId, Dir, Side, StreamId};
use quic_base::laws;

/// Whether two streams are the same one, by who opened each, its direction and its index (RFC 9000, section 2.1):
/// exactly if all three are equal. Indices must be below 2^60.
pub fn is_same_stream(one: (Side, Dir, u64), other: (Side, Dir, u64)) -> bool
    requires one { one.2 < 2 ^ 60 }
    requires other { other.2 < 2 ^ 60 }
    ensures { IsTrue result ↔ (one ≡ other) }
{
    laws::stream_ids();
    StreamId::new(one.0, one.1, one.2) == StreamId::new(other.0, other.1, other.2)
}

/// Whether packets with these ids go to one connection: exactly if the ids have the same bytes.
pub fn is_same_route(one: &ConnectionId, other: &ConnectionId) -> bool
    ensures { IsTrue result ↔ (one.now ≡ other.now) }
{
    laws::connection_ids();
    one == other
}
