//! Frames of every kind, written in their shortest form, as the last of a payload or not (RFC 9000, section 19).
ghost use Rattle.std.specs.Prelude.{◌≡◌, ◌<◌, ◌≤◌, ◌+◌, ◌^◌, ◌++◌, ℕ, Bool, List, length, false, if◌then◌else◌};
ghost use Rattle.quic_base.specs.Number.{bytes_of};
ghost use Rattle.quic_base.specs.Varint.{shortest_varint, size};
ghost use Rattle.quic_frames.specs.InRange.{CanStand, IsWrittenAsNumbers, InRange};
ghost use Rattle.quic_frame_fields.specs.Parts.{close_meaning};
ghost use Rattle.quic_frames.specs.Meaning.{meaning_of};
ghost use Rattle.quic_frame_fields.specs.Shortest.{shortest_frame, close_reason};
ghost use Rattle.quic_base.specs.Writing.{WritesTo};
ghost use Rattle.quic_frames.specs.declared.frame.Frame.TheVariants as frames;

use super::numbers::bit_of;
use super::{
    ApplicationClose, Close, ConnectionClose, Crypto, Datagram, Frame, NewConnectionId, Stream,
};
use bytes::BufMut;
use quic_base::coding::NoRoom;
use quic_base::varint::var_size;
use quic_frame_fields::frame::ack_encode::{ack_len, encode_ack};
use quic_frame_fields::frame::encode::type_or_zero;
use quic_frame_fields::frame::stream_meta::encode_header;
use quic_frame_fields::frame::write;

impl Frame<'_> {
    /// Appends the shortest encoding of the frame. `last` says whether the frame is the last of its payload. An offset
    /// 0 of a STREAM isn't written, nor the length of a STREAM or DATAGRAM that is the last. Returns `NoRoom` only if
    /// the encoding is longer than the buffer's spare room. The buffer then has its old contents, and possibly a prefix
    /// of the encoding after them. The caller must ensure that the frame is in range, and that data has fewer than 2^62
    /// bytes if its length is written. It doesn't allocate.
    #[tactic(auto, unfolding(quic_frame_fields::specs::Shortest::shortest_frame))]
    pub fn encode<B: BufMut>(&self, last: bool, out: &mut B) -> Result<(), NoRoom>
        requires { CanStand last self.now }
        ensures { WritesTo B.written B.spare (shortest_frame last (meaning_of self.now)) out.old out.new result }
    {
        match self {
            Frame::Padding => write::numbers(out, &[0x00]),
            Frame::Ping => write::numbers(out, &[0x01]),
            Frame::Ack(ack) => encode_ack(ack, out),
            Frame::ResetStream(reset) => reset.encode(out),
            Frame::StopSending(stop) => stop.encode(out),
            Frame::Crypto(crypto) => crypto.encode(out),
            Frame::NewToken(token) => token.encode(out),
            Frame::Stream(stream) => encode_stream(stream, last, out),
            Frame::MaxData(limit) => write::numbers(out, &[0x10, limit.into_inner()]),
            Frame::MaxStreamData { id, offset } => {
                write::numbers(out, &[0x11, u64::from(*id), *offset])
            }
            Frame::MaxStreams { dir, count } => {
                write::numbers(out, &[0x12 + bit_of(*dir), *count])
            }
            Frame::DataBlocked { offset } => write::numbers(out, &[0x14, *offset]),
            Frame::StreamDataBlocked { id, offset } => {
                write::numbers(out, &[0x15, u64::from(*id), *offset])
            }
            Frame::StreamsBlocked { dir, limit } => {
                write::numbers(out, &[0x16 + bit_of(*dir), *limit])
            }
            Frame::NewConnectionId(new) => new.encode(out),
            Frame::RetireConnectionId { sequence } => write::numbers(out, &[0x19, *sequence]),
            Frame::PathChallenge(n) => encode_path(0x1a, *n, out),
            Frame::PathResponse(n) => encode_path(0x1b, *n, out),
            Frame::Close(close) => encode_close(close, out),
            Frame::Datagram(datagram) => encode_datagram(datagram, last, out),
            Frame::ImmediateAck => write::numbers(out, &[0x1f]),
            Frame::HandshakeDone => write::numbers(out, &[0x1e]),
            _ => encode_numbers(self, out),
        }
    }

    /// How many bytes `encode` appends, under the same conditions. It doesn't allocate.
    #[inline(always)]
    #[tactic(auto, unfolding(quic_frame_fields::specs::Shortest::shortest_frame), using(crate::proofs::Encoding::crypto_parts))]
    pub fn encoded_len(&self, last: bool) -> u128
        requires { CanStand last self.now }
        ensures { result ≡ length (shortest_frame last (meaning_of self.now)) }
    {
        match self {
            Frame::Padding => write::numbers_len(&[0x00]),
            Frame::Ping => write::numbers_len(&[0x01]),
            Frame::Ack(ack) => ack_len(ack),
            Frame::ResetStream(reset) => write::numbers_len(&reset.numbers()),
            Frame::StopSending(stop) => write::numbers_len(&stop.numbers()),
            Frame::Crypto(Crypto { offset, bytes }) => {
                write::numbers_and_bytes_len(&[0x06, *offset, bytes.len() as u64], bytes)
            }
            Frame::NewToken(token) => token.size() as u128,
            Frame::Stream(stream) => stream_len(stream, last),
            Frame::MaxData(limit) => write::numbers_len(&[0x10, limit.into_inner()]),
            Frame::MaxStreamData { id, offset } => {
                write::numbers_len(&[0x11, u64::from(*id), *offset])
            }
            Frame::MaxStreams { dir, count } => write::numbers_len(&[0x12 + bit_of(*dir), *count]),
            Frame::DataBlocked { offset } => write::numbers_len(&[0x14, *offset]),
            Frame::StreamDataBlocked { id, offset } => {
                write::numbers_len(&[0x15, u64::from(*id), *offset])
            }
            Frame::StreamsBlocked { dir, limit } => {
                write::numbers_len(&[0x16 + bit_of(*dir), *limit])
            }
            Frame::NewConnectionId(new) => new_id_len(new),
            Frame::RetireConnectionId { sequence } => write::numbers_len(&[0x19, *sequence]),
            Frame::PathChallenge(_) => 1 + 8,
            Frame::PathResponse(_) => 1 + 8,
            Frame::Close(close) => close_len(close),
            Frame::Datagram(datagram) => datagram_len(datagram, last),
            Frame::ImmediateAck => write::numbers_len(&[0x1f]),
            Frame::HandshakeDone => write::numbers_len(&[0x1e]),
            _ => numbers_len(self),
        }
    }
}

// A frame that has only numbers.
#[inline(always)]
fn encode_numbers<B: BufMut>(frame: &Frame<'_>, out: &mut B) -> Result<(), NoRoom>
    requires kind { IsWrittenAsNumbers frame.now }
    requires in_range { InRange frame.now }
    ensures { (last : Bool) → WritesTo B.written B.spare (shortest_frame last (meaning_of frame.now))
        out.old out.new result }
{
    let (numbers, count) = frame.numbers();
    write::numbers(out, &numbers[..count])
}

// How many bytes `encode_numbers` appends.
#[inline(always)]
fn numbers_len(frame: &Frame<'_>) -> u128
    requires kind { IsWrittenAsNumbers frame.now }
    requires in_range { InRange frame.now }
    ensures { (last : Bool) → result ≡ length (shortest_frame last (meaning_of frame.now)) }
{
    let (numbers, count) = frame.numbers();
    write::numbers_len(&numbers[..count])
}

// A STREAM, the last frame of its payload or not.
fn encode_stream<B: BufMut>(stream: &Stream<'_>, last: bool, out: &mut B) -> Result<(), NoRoom>
    requires { CanStand last (frames.Stream stream.now) }
    ensures { WritesTo B.written B.spare (shortest_frame last (meaning_of (frames.Stream stream.now)))
        out.old out.new result }
{
    let counted = (!last).then_some(stream.bytes.len() as u64);
    encode_header(out, stream.id, stream.offset, stream.fin, counted)?;
    write::bytes(out, stream.bytes)
}

// A DATAGRAM, the last frame of its payload or not.
#[tactic(auto, using(crate::proofs::Encoding::datagram_counted, crate::proofs::Encoding::datagram_open))]
fn encode_datagram<B: BufMut>(
    datagram: &Datagram<'_>,
    last: bool,
    out: &mut B,
) -> Result<(), NoRoom>
    requires { CanStand last (frames.Datagram datagram.now) }
    ensures { WritesTo B.written B.spare (shortest_frame last (meaning_of (frames.Datagram datagram.now)))
        out.old out.new result }
{
    if last {
        write::numbers_and_bytes(out, &[0x30], datagram.bytes)
    } else {
        let numbers = [0x31, datagram.bytes.len() as u64];
        write::numbers_and_bytes(out, &numbers, datagram.bytes)
    }
}

// A close with its whole reason.
fn encode_close<B: BufMut>(close: &Close<'_>, out: &mut B) -> Result<(), NoRoom>
    requires { length (close_reason close.now) < 2 ^ 62 }
    ensures { (last : Bool) → WritesTo B.written B.spare (shortest_frame last (close_meaning close.now))
        out.old out.new result }
{
    match close {
        Close::Connection(close) => close.encode_with(out, close.reason),
        Close::Application(close) => close.encode_with(out, close.reason),
    }
}

// A frame of a type and eight bytes.
fn encode_path<B: BufMut>(ty: u64, n: u64, out: &mut B) -> Result<(), NoRoom>
    requires { ty < 2 ^ 62 }
    ensures { WritesTo B.written B.spare (shortest_varint ty ++ bytes_of 8 n) out.old out.new result }
{
    write::numbers_and_bytes(out, &[ty], &n.to_be_bytes())
}

// How many bytes `encode_stream` appends.
#[tactic(auto, using(crate::proofs::Encoding::stream_length))]
fn stream_len(stream: &Stream<'_>, last: bool) -> u128
    requires { CanStand last (frames.Stream stream.now) }
    ensures { result ≡ length (shortest_frame last (meaning_of (frames.Stream stream.now))) }
{
    let length = stream.bytes.len();
    let offset_len = size_unless(stream.offset == 0, stream.offset);
    let length_len = size_unless(last, length as u64);
    let header_len = 1 + var_size(stream.id.into()) + offset_len + length_len;
    header_len as u128 + length as u128
}

// The size of a number, 0 if it is left out.
fn size_unless(is_left_out: bool, n: u64) -> usize
    requires { is_left_out ≡ false → n < 2 ^ 62 }
    ensures value { result ≡ (if is_left_out then 0 else size n) }
    ensures small { result ≤ 8 }
{
    if is_left_out { 0 } else { var_size(n) }
}

// How many bytes `encode_datagram` appends.
#[tactic(auto, using(crate::proofs::Encoding::datagram_counted, crate::proofs::Encoding::datagram_open))]
fn datagram_len(datagram: &Datagram<'_>, last: bool) -> u128
    requires { CanStand last (frames.Datagram datagram.now) }
    ensures { result ≡ length (shortest_frame last (meaning_of (frames.Datagram datagram.now))) }
{
    if last {
        write::numbers_and_bytes_len(&[0x30], datagram.bytes)
    } else {
        let numbers = [0x31, datagram.bytes.len() as u64];
        write::numbers_and_bytes_len(&numbers, datagram.bytes)
    }
}

// How many bytes `encode_close` appends.
#[tactic(auto, using(crate::proofs::Encoding::connection_close_parts, crate::proofs::Encoding::application_close_parts))]
fn close_len(close: &Close<'_>) -> u128
    requires { length (close_reason close.now) < 2 ^ 62 }
    ensures { (last : Bool) → result ≡ length (shortest_frame last (close_meaning close.now)) }
{
    match close {
        Close::Connection(c) => write::numbers_and_bytes_len(&c.numbers(c.reason), c.reason),
        Close::Application(c) => write::numbers_and_bytes_len(&c.numbers(c.reason), c.reason),
    }
}

// How many bytes a NEW_CONNECTION_ID has.
fn new_id_len(new: &NewConnectionId) -> u128
    requires { InRange (frames.NewConnectionId new.now) }
    ensures { (last : Bool) → result ≡ length (shortest_frame last (meaning_of (frames.NewConnectionId new.now))) }
{
    let front = write::numbers_len(&[0x18, new.sequence, new.retire_prior_to]);
    let (id, token) = (new.id.as_slice(), new.reset_token.as_slice());
    front + 1 + id.len() as u128 + token.len() as u128
}
