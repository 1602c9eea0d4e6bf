//! Frames, written at the front of a slice in their shortest form (RFC 9000, section 19).
ghost use Rattle.std.specs.Prelude.{◌≡◌, ◌≢◌, ◌<◌, ◌^◌, ◌++◌, Bool, length, drop, IfSome, IsNone};
ghost use Rattle.quic_base.specs.Number.{bytes_of};
ghost use Rattle.quic_base.specs.Varint.{shortest_varint};
ghost use Rattle.quic_frame_fields.specs.Parts.{close_meaning, new_id_meaning};
ghost use Rattle.quic_frame_fields.specs.Putting.{Puts};
ghost use Rattle.quic_frame_fields.specs.Shortest.{shortest_frame, close_reason};
ghost use Rattle.quic_frames.specs.InRange.{CanStand, IsWrittenAsNumbers, InRange};
ghost use Rattle.quic_frames.specs.Meaning.{meaning_of};
ghost use Rattle.quic_frames.specs.declared.frame.Frame.TheVariants as frames;

use super::numbers::bit_of;
use super::{Close, Datagram, Frame, NewConnectionId, Stream};
use quic_frame_fields::frame::write_into;

impl Frame<'_> {
    /// Stores the shortest encoding of the frame at the front of the slice, and returns how many bytes it has. `last`
    /// says whether the frame is the last of its payload. These are the bytes that `encode` appends; the bytes after
    /// them don't change. It is an error exactly when the slice is shorter: nothing changes then, and the error is how
    /// many bytes are needed. The caller must ensure that the frame is in range, and that data has fewer than 2^62
    /// bytes if its length is written. It doesn't allocate.
    #[tactic(auto, unfolding(quic_frame_fields::specs::Shortest::shortest_frame))]
    pub fn encode_into(&self, last: bool, dest: &mut [u8]) -> Result<usize, usize>
        requires { CanStand last self.now }
        ensures { Puts result (shortest_frame last (meaning_of self.now)) dest.old dest.new }
    {
        match self {
            Frame::Padding => write_into::numbers(dest, &[0x00]),
            Frame::Ping => write_into::numbers(dest, &[0x01]),
            Frame::Ack(ack) => write_into::ack(dest, ack),
            Frame::ResetStream(reset) => write_into::numbers(dest, &reset.numbers()),
            Frame::StopSending(stop) => write_into::numbers(dest, &stop.numbers()),
            Frame::Crypto(c) => {
                let numbers = [0x06, c.offset, c.bytes.len() as u64];
                write_into::numbers_and_bytes(dest, &numbers, c.bytes)
            }
            Frame::NewToken(t) => {
                write_into::numbers_and_bytes(dest, &[0x07, t.token.len() as u64], t.token)
            }
            Frame::Stream(stream) => put_stream(stream, last, dest),
            Frame::MaxData(limit) => write_into::numbers(dest, &[0x10, limit.into_inner()]),
            Frame::MaxStreamData { id, offset } => {
                write_into::numbers(dest, &[0x11, u64::from(*id), *offset])
            }
            Frame::MaxStreams { dir, count } => {
                write_into::numbers(dest, &[0x12 + bit_of(*dir), *count])
            }
            Frame::DataBlocked { offset } => write_into::numbers(dest, &[0x14, *offset]),
            Frame::StreamDataBlocked { id, offset } => {
                write_into::numbers(dest, &[0x15, u64::from(*id), *offset])
            }
            Frame::StreamsBlocked { dir, limit } => {
                write_into::numbers(dest, &[0x16 + bit_of(*dir), *limit])
            }
            Frame::NewConnectionId(new) => put_new_id(new, dest),
            Frame::RetireConnectionId { sequence } => write_into::numbers(dest, &[0x19, *sequence]),
            Frame::PathChallenge(n) => put_path(0x1a, *n, dest),
            Frame::PathResponse(n) => put_path(0x1b, *n, dest),
            Frame::Close(close) => put_close(close, dest),
            Frame::Datagram(datagram) => put_datagram(datagram, last, dest),
            Frame::ImmediateAck => write_into::numbers(dest, &[0x1f]),
            Frame::HandshakeDone => write_into::numbers(dest, &[0x1e]),
            _ => put_numbers(self, dest),
        }
    }
}

// A frame that has only numbers.
#[inline(always)]
fn put_numbers(frame: &Frame<'_>, dest: &mut [u8]) -> Result<usize, usize>
    requires kind { IsWrittenAsNumbers frame.now }
    requires in_range { InRange frame.now }
    ensures { (last : Bool) → Puts result (shortest_frame last (meaning_of frame.now)) dest.old dest.new }
{
    let (numbers, count) = frame.numbers();
    write_into::numbers(dest, &numbers[..count])
}

// A STREAM, the last frame of its payload or not.
fn put_stream(stream: &Stream<'_>, last: bool, dest: &mut [u8]) -> Result<usize, usize>
    requires { CanStand last (frames.Stream stream.now) }
    ensures { Puts result (shortest_frame last (meaning_of (frames.Stream stream.now))) dest.old dest.new }
{
    let counted = (!last).then_some(stream.bytes.len() as u64);
    write_into::stream(dest, stream, counted)
}

// A DATAGRAM, the last frame of its payload or not.
#[tactic(auto, using(crate::proofs::Encoding::datagram_counted, crate::proofs::Encoding::datagram_open))]
fn put_datagram(datagram: &Datagram<'_>, last: bool, dest: &mut [u8]) -> Result<usize, usize>
    requires { CanStand last (frames.Datagram datagram.now) }
    ensures { Puts result (shortest_frame last (meaning_of (frames.Datagram datagram.now))) dest.old dest.new }
{
    if last {
        write_into::numbers_and_bytes(dest, &[0x30], datagram.bytes)
    } else {
        let numbers = [0x31, datagram.bytes.len() as u64];
        write_into::numbers_and_bytes(dest, &numbers, datagram.bytes)
    }
}

// A close with its whole reason.
#[tactic(auto, using(crate::proofs::Encoding::connection_close_parts, crate::proofs::Encoding::application_close_parts))]
fn put_close(close: &Close<'_>, dest: &mut [u8]) -> Result<usize, usize>
    requires { length (close_reason close.now) < 2 ^ 62 }
    ensures { (last : Bool) → Puts result (shortest_frame last (close_meaning close.now)) dest.old dest.new }
{
    match close {
        Close::Connection(c) => {
            write_into::numbers_and_bytes(dest, &c.numbers(c.reason), c.reason)
        }
        Close::Application(c) => {
            write_into::numbers_and_bytes(dest, &c.numbers(c.reason), c.reason)
        }
    }
}

// A NEW_CONNECTION_ID. The length of its id is below 64, so its byte is that number's shortest encoding.
fn put_new_id(new: &NewConnectionId, dest: &mut [u8]) -> Result<usize, usize>
    requires { InRange (frames.NewConnectionId new.now) }
    ensures { (last : Bool) → Puts result (shortest_frame last (new_id_meaning new.now)) dest.old dest.new }
{
    let (id, token) = (new.id.as_slice(), new.reset_token.as_slice());
    let numbers = [0x18, new.sequence, new.retire_prior_to, id.len() as u64];
    write_into::numbers_and_two(dest, &numbers, id, token)
}

// A frame of a type and eight bytes.
fn put_path(ty: u64, n: u64, dest: &mut [u8]) -> Result<usize, usize>
    requires { ty < 2 ^ 62 }
    ensures { Puts result (shortest_varint ty ++ bytes_of 8 n) dest.old dest.new }
{
    write_into::numbers_and_bytes(dest, &[ty], &n.to_be_bytes())
}
