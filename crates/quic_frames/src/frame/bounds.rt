//! The bounds of the types of a frame's fields.
ghost use Rattle.quic_frames.specs.InRange.{IsTypedFrame};

use super::{Close, Frame};
use quic_frame_fields::frame::encode::type_or_zero;

impl Frame<'_> {
    /// Proves that each number is within its type's bound. It does nothing at run time.
    pub fn type_bounds(&self)
        ensures { IsTypedFrame self.now }
    {
        match self {
            Frame::ResetStream(r) => {
                let _ = (
                    u64::from(r.id),
                    r.error_code.into_inner(),
                    r.final_offset.into_inner(),
                );
            }
            Frame::StopSending(s) => {
                let _ = (u64::from(s.id), s.error_code.into_inner());
            }
            Frame::Stream(s) => {
                let _ = u64::from(s.id);
            }
            Frame::MaxData(n) => {
                let _ = n.into_inner();
            }
            Frame::MaxStreamData { id, .. } | Frame::StreamDataBlocked { id, .. } => {
                let _ = u64::from(*id);
            }
            Frame::NewConnectionId(n) => {
                let _ = n.reset_token.as_slice();
            }
            Frame::PathChallenge(n) | Frame::PathResponse(n) => {
                let _copy = *n;
            }
            Frame::Close(Close::Connection(c)) => {
                let _ = (u64::from(c.error_code), type_or_zero(c.frame_type));
            }
            Frame::Close(Close::Application(c)) => {
                let _ = c.error_code.into_inner();
            }
            Frame::Padding
            | Frame::Ping
            | Frame::Ack(_)
            | Frame::Crypto(_)
            | Frame::NewToken(_)
            | Frame::DataBlocked { .. }
            | Frame::MaxStreams { .. }
            | Frame::StreamsBlocked { .. }
            | Frame::RetireConnectionId { .. }
            | Frame::HandshakeDone
            | Frame::ImmediateAck
            | Frame::Datagram(_) => {}
            _ => {
                let _ = self.numbers();
            }
        }
    }
}
