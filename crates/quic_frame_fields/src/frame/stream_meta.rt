//! STREAM frames whose data the caller appends (RFC 9000, section 19.8).
ghost use Rattle.std.specs.Prelude.{◌≡◌, ◌≤◌, ◌<◌, ◌-◌, ◌^◌, ◌++◌, ℕ, List, length, Some, None, IfSome, true, false, if◌then◌else◌};
ghost use Rattle.quic_frame_fields.specs.Shortest.{shortest_frame, stream_header};
ghost use Rattle.quic_base.specs.Writing.{WritesTo};

use super::{FrameType, Stream, write};
use bytes::BufMut;
use quic_base::coding::NoRoom;
use quic_base::ids::{Dir, Side, StreamId};
use smallvec::SmallVec;
use std::ops::Range;

/// A STREAM without its data.
#[derive(Clone, Debug, Drop)]
pub struct StreamMeta {
    /// The stream.
    pub id: StreamId,
    /// The range of the data's offsets in the stream.
    pub offsets: Range<u64>,
    /// Whether the stream ends with the data.
    pub fin: bool,
}

/// Several of them. One is kept inline, without an allocation.
pub type StreamMetaVec = SmallVec<StreamMeta, 1>;

/// No data, in the client's first bidirectional stream.
impl Default for StreamMeta {
    ghost is_default = { λ meta. meta ≡ record { id = 0; offsets = record { start = 0; end = 0 }; fin = false } };

    fn default() -> Self {
        StreamMeta {
            id: StreamId::new(Side::Client, Dir::Bi, 0),
            offsets: 0..0,
            fin: false,
        }
    }
}

impl StreamMeta {
    /// Appends the frame up to its data, with the data's length if `with_length` is set. Returns `NoRoom` only if that
    /// is longer than the buffer's spare room. The buffer then has its old contents, and possibly a prefix of the frame
    /// after them. The caller must ensure that the range isn't reversed, that it starts below 2^62, and that its length
    /// is below 2^62 if it is written.
    pub fn encode<B: BufMut>(&self, with_length: bool, out: &mut B) -> Result<(), NoRoom>
        requires ordered { self.now.offsets.start ≤ self.now.offsets.end }
        requires start { self.now.offsets.start < 2 ^ 62 }
        requires counted { with_length ≡ true → self.now.offsets.end - self.now.offsets.start < 2 ^ 62 }
        ensures { WritesTo B.written B.spare (stream_header self.now.id self.now.offsets.start self.now.fin
            (if with_length then Some (self.now.offsets.end - self.now.offsets.start) else None)) out.old out.new result }
    {
        let Range { start, end } = self.offsets;
        let counted = with_length.then_some(end - start);
        encode_header(out, self.id, start, self.fin, counted)
    }
}

/// Appends a STREAM up to its data. The data's length is written if it is given. Returns `NoRoom` as
/// `StreamMeta::encode` does. The caller must ensure that the numbers are below 2^62.
pub fn encode_header<B: BufMut>(
    out: &mut B,
    id: StreamId,
    offset: u64,
    fin: bool,
    counted: Option<u64>,
) -> Result<(), NoRoom>
    requires offset { offset < 2 ^ 62 }
    requires counted { IfSome counted (λ n. n < 2 ^ 62) }
    ensures { WritesTo B.written B.spare (stream_header id offset fin counted) out.old out.new result }
{
    let ty = FrameType::of_stream(offset != 0, fin).into_inner();
    let id = u64::from(id);
    match (offset, counted) {
        (0, None) => write::numbers(out, &[ty, id]),
        (0, Some(length)) => write::numbers(out, &[ty + 2, id, length]),
        (_, None) => write::numbers(out, &[ty, id, offset]),
        (_, Some(length)) => write::numbers(out, &[ty + 2, id, offset, length]),
    }
}
