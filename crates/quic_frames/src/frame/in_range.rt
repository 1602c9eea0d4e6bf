//! Which frames can be written.
ghost use Rattle.std.specs.Prelude.{◌<◌, ◌^◌, ◌↔◌, IsTrue};
ghost use Rattle.quic_frame_fields.specs.Sets.{AreCounts};
ghost use Rattle.quic_frames.specs.InRange.{InRange};
ghost use Rattle.quic_frames.specs.declared.frame.Frame.TheVariants as frames;

use super::{Ack, Close, EcnCounts, Frame, FrameType, NewConnectionId};

impl Frame<'_> {
    /// Whether the frame has an encoding that is read as the same frame: numbers and lengths that are always written
    /// are below 2^62, the id of a NEW_CONNECTION_ID has 1 to 20 bytes and its `retire_prior_to` is at most its
    /// `sequence`, and the frame type of a close isn't PADDING, which means that there is none (RFC 9000, sections 16,
    /// 19.15 and 19.19). It doesn't allocate.
    pub fn in_range(&self) -> bool
        ensures { IsTrue result ↔ InRange self.now }
    {
        match self {
            Frame::Ack(ack) => is_ack_in_range(ack),
            Frame::Crypto(crypto) => is_varint(crypto.offset)
                && is_varint(crypto.bytes.len() as u64),
            Frame::NewToken(token) => is_varint(token.token.len() as u64),
            Frame::Stream(stream) => is_varint(stream.offset),
            Frame::MaxStreamData { offset, .. }
            | Frame::StreamDataBlocked { offset, .. }
            | Frame::DataBlocked { offset } => is_varint(*offset),
            Frame::MaxStreams { count, .. } => is_varint(*count),
            Frame::StreamsBlocked { limit, .. } => is_varint(*limit),
            Frame::NewConnectionId(new) => is_new_id_in_range(new),
            Frame::RetireConnectionId { sequence } => is_varint(*sequence),
            Frame::Close(Close::Connection(close)) => is_varint(close.reason.len() as u64)
                && close.frame_type != Some(FrameType::PADDING),
            Frame::Close(Close::Application(close)) => is_varint(close.reason.len() as u64),
            _ => true,
        }
    }
}

fn is_varint(n: u64) -> bool
    ensures { IsTrue result ↔ (n < 2 ^ 62) }
{
    n < 1 << 62
}

fn are_counts_in_range(counts: Option<EcnCounts>) -> bool
    ensures { IsTrue result ↔ AreCounts counts }
{
    match counts {
        Some(counts) => is_varint(counts.ect0) && is_varint(counts.ect1) && is_varint(counts.ce),
        None => true,
    }
}

fn is_ack_in_range(ack: &Ack<'_>) -> bool
    ensures { IsTrue result ↔ InRange (frames.Ack ack.now) }
{
    is_varint(ack.largest()) && is_varint(ack.delay()) && are_counts_in_range(ack.ecn())
}

fn is_new_id_in_range(new: &NewConnectionId) -> bool
    ensures { IsTrue result ↔ InRange (frames.NewConnectionId new.now) }
{
    let is_ordered = new.retire_prior_to <= new.sequence;
    is_varint(new.sequence) && is_ordered && !new.id.as_slice().is_empty()
}
