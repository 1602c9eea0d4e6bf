//! The body of a frame, whose type its caller has read or writes.
ghost use Rattle.std.specs.Prelude.{◌≡◌, ◌<◌, ◌^◌, Bool, IfErr, IfOk, Some, length};
ghost use Rattle.quic_base.specs.Number.{bytes_of};
ghost use Rattle.quic_frame_fields.specs.Bodies.{shortest_body, type_written};
ghost use Rattle.quic_frame_fields.specs.Parts.{close_meaning, new_id_meaning};
ghost use Rattle.quic_frame_fields.specs.Putting.{Puts};
ghost use Rattle.quic_frame_fields.specs.Shortest.{close_reason};
ghost use Rattle.quic_frames.specs.Body.{LacksBody, ReadsBody};
ghost use Rattle.quic_frames.specs.InRange.{CanStand, InRange};
ghost use Rattle.quic_frames.specs.Meaning.{meaning_of};
ghost use Rattle.quic_frames.specs.Walk.{invalid_of};
ghost use Rattle.quic_frames.specs.declared.frame.Frame.TheVariants as frames;

use super::reading::read_frame;
use super::{Close, Datagram, Frame, FrameType, InvalidFrame, NewConnectionId, Stream};
use quic_base::coding::are_bytes;
use quic_frame_fields::frame::write_into;

impl<'a> Frame<'a> {
    /// Reads the body of a frame of this type, whose caller has read the type: the fields that follow the type in a
    /// payload (RFC 9000, section 12.4). Returns the frame and the bytes after it. The result is that of `Iter` for a
    /// payload of the type, in its shortest encoding, and these bytes; so is an error, with the type and its reason.
    /// A type that `is_known_type` doesn't know is `invalid frame ID`. It doesn't allocate.
    pub fn read_body(ty: FrameType, body: &'a [u8]) -> Result<(Frame<'a>, &'a [u8]), InvalidFrame>
        ensures frame { (strict : Bool) → IfOk result (λ x. ReadsBody strict ty body.now x.0 x.1.now) }
        ensures reason { (strict : Bool) → IfErr result (λ e. LacksBody strict ty body.now (invalid_of e)) }
        ensures of_type { IfErr result (λ e. e.ty ≡ Some ty) }
    {
        are_bytes(body);
        match read_frame(ty.into_inner(), body) {
            Ok((frame, rest)) => Ok((frame, rest)),
            Err(fault) => Err(InvalidFrame {
                ty: Some(ty),
                reason: fault.reason(),
            }),
        }
    }
}

impl Frame<'_> {
    /// The type with which the frame is written. `last` says whether the frame is the last of its payload: then the
    /// length of a STREAM or DATAGRAM isn't written. An ACK's type says whether it has ECN counts.
    pub fn written_type(&self, last: bool) -> FrameType
        ensures { result ≡ type_written last (meaning_of self.now) }
    {
        match self {
            Frame::Ack(ack) => match ack.ecn() {
                Some(_) => FrameType::ACK_ECN,
                None => FrameType::ACK,
            },
            Frame::Stream(_) => {
                if last {
                    self.ty()
                } else {
                    FrameType::of(self.ty().into_inner() + 2)
                }
            }
            Frame::Datagram(_) => {
                if last {
                    FrameType::DATAGRAM
                } else {
                    FrameType::of(0x31)
                }
            }
            _ => self.ty(),
        }
    }

    /// Stores the body of the frame at the front of the slice, and returns how many bytes it has: the bytes that
    /// `encode_into` stores behind the type, which is `written_type`. All else is as `encode_into` says. The bytes
    /// after them don't change. It is an error exactly when the slice is shorter: nothing changes then, and the error
    /// is how many bytes are needed. The caller must ensure that the frame is in range, and that data has fewer than
    /// 2^62 bytes if its length is written. It doesn't allocate.
    #[tactic(auto, unfolding(quic_frame_fields::specs::Bodies::shortest_body))]
    pub fn encode_body_into(&self, last: bool, dest: &mut [u8]) -> Result<usize, usize>
        requires { CanStand last self.now }
        ensures { Puts result (shortest_body last (meaning_of self.now)) dest.old dest.new }
    {
        match self {
            Frame::Ack(ack) => write_into::ack_body(dest, ack),
            Frame::ResetStream(reset) => write_into::numbers(dest, &reset.numbers()[1..]),
            Frame::StopSending(stop) => write_into::numbers(dest, &stop.numbers()[1..]),
            Frame::Crypto(c) => {
                write_into::numbers_and_bytes(dest, &[c.offset, c.bytes.len() as u64], c.bytes)
            }
            Frame::NewToken(t) => {
                write_into::numbers_and_bytes(dest, &[t.token.len() as u64], t.token)
            }
            Frame::Stream(stream) => stream_body(stream, last, dest),
            Frame::MaxData(limit) => write_into::numbers(dest, &[limit.into_inner()]),
            Frame::MaxStreamData { id, offset } => {
                write_into::numbers(dest, &[u64::from(*id), *offset])
            }
            Frame::MaxStreams { count, .. } => write_into::numbers(dest, &[*count]),
            Frame::DataBlocked { offset } => write_into::numbers(dest, &[*offset]),
            Frame::StreamDataBlocked { id, offset } => {
                write_into::numbers(dest, &[u64::from(*id), *offset])
            }
            Frame::StreamsBlocked { limit, .. } => write_into::numbers(dest, &[*limit]),
            Frame::NewConnectionId(new) => new_id_body(new, dest),
            Frame::RetireConnectionId { sequence } => write_into::numbers(dest, &[*sequence]),
            Frame::PathChallenge(n) => path_body(*n, dest),
            Frame::PathResponse(n) => path_body(*n, dest),
            Frame::Close(close) => close_body(close, dest),
            Frame::Datagram(datagram) => datagram_body(datagram, last, dest),
            Frame::AckFrequency(frequency) => {
                write_into::numbers(dest, &frequency.numbers()[1..])
            }
            Frame::Padding => Ok(0),
            Frame::Ping => Ok(0),
            Frame::ImmediateAck => Ok(0),
            Frame::HandshakeDone => Ok(0),
        }
    }
}

// A STREAM's fields, the last frame of its payload or not.
fn stream_body(stream: &Stream<'_>, last: bool, dest: &mut [u8]) -> Result<usize, usize>
    requires { CanStand last (frames.Stream stream.now) }
    ensures { Puts result (shortest_body last (meaning_of (frames.Stream stream.now))) dest.old dest.new }
{
    let (id, offset) = (u64::from(stream.id), stream.offset);
    let length = stream.bytes.len() as u64;
    if offset == 0 {
        if last {
            return write_into::numbers_and_bytes(dest, &[id], stream.bytes);
        }
        return write_into::numbers_and_bytes(dest, &[id, length], stream.bytes);
    }
    if last {
        return write_into::numbers_and_bytes(dest, &[id, offset], stream.bytes);
    }
    write_into::numbers_and_bytes(dest, &[id, offset, length], stream.bytes)
}

// A DATAGRAM's fields, the last frame of its payload or not.
#[tactic(auto, using(crate::proofs::BodyParts::open_body, crate::proofs::BodyParts::counted_body))]
fn datagram_body(datagram: &Datagram<'_>, last: bool, dest: &mut [u8]) -> Result<usize, usize>
    requires { CanStand last (frames.Datagram datagram.now) }
    ensures { Puts result (shortest_body last (meaning_of (frames.Datagram datagram.now))) dest.old dest.new }
{
    if last {
        write_into::numbers_and_bytes(dest, &[], datagram.bytes)
    } else {
        write_into::numbers_and_bytes(dest, &[datagram.bytes.len() as u64], datagram.bytes)
    }
}

// A close's fields, with its whole reason.
fn close_body(close: &Close<'_>, dest: &mut [u8]) -> Result<usize, usize>
    requires { length (close_reason close.now) < 2 ^ 62 }
    ensures { (last : Bool) → Puts result (shortest_body last (close_meaning close.now)) dest.old dest.new }
{
    match close {
        Close::Connection(c) => {
            write_into::numbers_and_bytes(dest, &c.numbers(c.reason)[1..], c.reason)
        }
        Close::Application(c) => {
            write_into::numbers_and_bytes(dest, &c.numbers(c.reason)[1..], c.reason)
        }
    }
}

// The fields of a NEW_CONNECTION_ID. The length of its id is below 64, so its byte is that number's shortest encoding.
fn new_id_body(new: &NewConnectionId, dest: &mut [u8]) -> Result<usize, usize>
    requires { InRange (frames.NewConnectionId new.now) }
    ensures { (last : Bool) → Puts result (shortest_body last (new_id_meaning new.now)) dest.old dest.new }
{
    let (id, token) = (new.id.as_slice(), new.reset_token.as_slice());
    let numbers = [new.sequence, new.retire_prior_to, id.len() as u64];
    write_into::numbers_and_two(dest, &numbers, id, token)
}

// The eight bytes of a PATH_CHALLENGE or PATH_RESPONSE.
fn path_body(n: u64, dest: &mut [u8]) -> Result<usize, usize>
    ensures { Puts result (bytes_of 8 n) dest.old dest.new }
{
    write_into::numbers_and_bytes(dest, &[], &n.to_be_bytes())
}
