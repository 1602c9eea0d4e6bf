//! What encoders of frames leave.
ghost use Rattle.std.specs.Prelude.{◌<◌, ◌≤◌, ◌^◌, length, IsTrue};
ghost use Rattle.quic_frames.specs.InRange.{open_data};
ghost use Rattle.quic_frames.specs.Shortest.{close_reason, least_room};

use quic_base::coding::NoRoom;
use quic_base::ids::{ConnectionId, ResetToken, StreamId};
use quic_base::varint::VarInt;
use quic_checks::Checks;
use quic_frames::frame::{
    Ack, AckFrequency, ApplicationClose, ConnectionClose, Crypto, Datagram, EcnCounts, Frame, Iter,
    NewConnectionId, NewToken, ResetStream, StopSending, StreamMeta,
};
use quic_frames::transport_error::Code;
use quic_ranges::range_set::ArrayRangeSet;
use std::alloc::Global;
use std::test::Fail;

// Whether a length of the data can be written.
pub fn is_counted(frame: &Frame<'_>) -> bool
    ensures { IsTrue result → length (open_data frame.now) < 2 ^ 62 }
{
    match frame {
        Frame::Stream(stream) => (stream.bytes.len() as u64) < 1 << 62,
        Frame::Datagram(datagram) => (datagram.bytes.len() as u64) < 1 << 62,
        _ => true,
    }
}

// A call that writes. If a call can't be made, it returns `NoRoom` although there is room, so that its test fails.
#[derive(Clone, Copy)]
enum Call<'a> {
    Reset,
    Stop,
    Crypto,
    Token,
    Counts,
    NewId,
    Frequency,
    CloseOfTransport(usize),
    CloseOfApplication(usize),
    HeaderAt(bool),
    FirstFrame(&'a [u8], bool),
    Ack(&'a ArrayRangeSet),
}

// Makes the call.
fn made(out: &mut Vec<u8>, call: &Call<'_>) -> Result<(), NoRoom> {
    match call {
        Call::Reset => write_reset(out),
        Call::Stop => write_stop(out),
        Call::Crypto => write_crypto(out),
        Call::Token => write_token(out),
        Call::Counts => write_counts(out),
        Call::NewId => write_new_id(out),
        Call::Frequency => write_frequency(out),
        Call::CloseOfTransport(room) => write_close_of_transport(out, *room),
        Call::CloseOfApplication(room) => write_close_of_application(out, *room),
        Call::HeaderAt(with_length) => write_header(out, *with_length),
        Call::FirstFrame(payload, last) => write_first_frame(out, payload, *last),
        Call::Ack(set) => write_ack(out, set),
    }
}

// Whether all bytes are written, or a beginning of them after `NoRoom`.
fn is_begun(answer: Result<(), NoRoom>, out: &[u8], whole: &[u8]) -> bool {
    match answer {
        Ok(()) => out == whole,
        Err(NoRoom) => out.len() < whole.len() && whole.starts_with(out),
    }
}

// The same for a call on a vector that grows.
fn begins(out: &mut Vec<u8>, call: &Call<'_>, whole: &[u8]) -> bool {
    let answer = made(out, call);
    is_begun(answer, out.as_slice(), whole)
}

fn is_made(out: &mut Vec<u8>, call: &Call<'_>, whole: &[u8]) -> bool {
    made(out, call) == Ok(()) && out.as_slice() == whole
}

// Whether all bytes are written to a vector with room, for which no allocation is needed.
fn fits(alloc: Global, call: &Call<'_>, whole: &[u8]) -> bool {
    match Vec::with_capacity(alloc, 64) {
        Ok(mut out) => is_made(&mut out, call, whole),
        Err(_) => true,
    }
}

fn writes(alloc: Global, call: &Call<'_>, whole: &[u8]) -> bool {
    begins(&mut Vec::new(alloc), call, whole) && fits(alloc, call, whole)
}

fn stream_id() -> StreamId {
    StreamId::from(VarInt::from_u32(4))
}

fn write_reset(out: &mut Vec<u8>) -> Result<(), NoRoom> {
    let reset = ResetStream {
        id: stream_id(),
        error_code: VarInt::from_u32(64),
        final_offset: VarInt::from_u32(16384),
    };
    reset.encode(out)
}

fn write_stop(out: &mut Vec<u8>) -> Result<(), NoRoom> {
    let stop = StopSending {
        id: stream_id(),
        error_code: VarInt::from_u32(64),
    };
    stop.encode(out)
}

#[test]
fn a_reset_and_a_stop(rt: HostRuntime) -> Result<(), Fail> {
    let mut checks = Checks::new(rt.alloc());
    let whole = b"\x04\x04\x40\x40\x80\x00\x40\x00";
    checks.holds(writes(rt.alloc(), &Call::Reset, whole));
    checks.holds(writes(rt.alloc(), &Call::Stop, b"\x05\x04\x40\x40"));
    checks.verdict()
}

fn write_crypto(out: &mut Vec<u8>) -> Result<(), NoRoom> {
    let crypto = Crypto {
        offset: 64,
        bytes: b"0123456789abcdef",
    };
    crypto.encode(out)
}

#[test]
fn bytes_of_the_handshake(rt: HostRuntime) -> Result<(), Fail> {
    let mut checks = Checks::new(rt.alloc());
    let whole = b"\x06\x40\x40\x100123456789abcdef";
    checks.holds(writes(rt.alloc(), &Call::Crypto, whole));
    checks.verdict()
}

fn write_token(out: &mut Vec<u8>) -> Result<(), NoRoom> {
    let token = NewToken {
        token: b"0123456789abcdef",
    };
    token.encode(out)
}

#[test]
fn a_token(rt: HostRuntime) -> Result<(), Fail> {
    let mut checks = Checks::new(rt.alloc());
    let whole = b"\x07\x100123456789abcdef";
    checks.holds(writes(rt.alloc(), &Call::Token, whole));
    checks.verdict()
}

fn write_counts(out: &mut Vec<u8>) -> Result<(), NoRoom> {
    let counts = EcnCounts {
        ect0: 64,
        ect1: 16384,
        ce: 1 << 30,
    };
    counts.encode(out)
}

#[test]
fn counts_of_marks(rt: HostRuntime) -> Result<(), Fail> {
    let mut checks = Checks::new(rt.alloc());
    let whole = b"\x40\x40\x80\x00\x40\x00\xc0\x00\x00\x00\x40\x00\x00\x00";
    checks.holds(writes(rt.alloc(), &Call::Counts, whole));
    checks.verdict()
}

fn write_new_id(out: &mut Vec<u8>) -> Result<(), NoRoom> {
    let new = NewConnectionId {
        sequence: 64,
        retire_prior_to: 2,
        id: ConnectionId::new(b"\xaa\xbb"),
        reset_token: ResetToken::from(*b"0123456789abcdef"),
    };
    new.encode(out)
}

#[test]
fn a_new_id(rt: HostRuntime) -> Result<(), Fail> {
    let mut checks = Checks::new(rt.alloc());
    let whole = b"\x18\x40\x40\x02\x02\xaa\xbb0123456789abcdef";
    checks.holds(writes(rt.alloc(), &Call::NewId, whole));
    checks.verdict()
}

fn write_frequency(out: &mut Vec<u8>) -> Result<(), NoRoom> {
    let frequency = AckFrequency {
        sequence: VarInt::from_u32(42),
        ack_eliciting_threshold: VarInt::from_u32(20),
        request_max_ack_delay: VarInt::from_u32(50000),
        reordering_threshold: VarInt::from_u32(1),
    };
    frequency.encode(out)
}

#[test]
fn how_often_is_acknowledged(rt: HostRuntime) -> Result<(), Fail> {
    let mut checks = Checks::new(rt.alloc());
    let whole = b"\x40\xaf\x2a\x14\x80\x00\xc3\x50\x01";
    checks.holds(writes(rt.alloc(), &Call::Frequency, whole));
    checks.verdict()
}

fn write_close_of_transport(out: &mut Vec<u8>, room: usize) -> Result<(), NoRoom> {
    let close = ConnectionClose {
        error_code: Code::crypto(42),
        frame_type: None,
        reason: b"0123456789abcdef",
    };
    if close.min_len() > room {
        return Err(NoRoom);
    }
    close.encode(out, room)
}

#[test]
fn a_close_of_the_transport(rt: HostRuntime) -> Result<(), Fail> {
    let mut checks = Checks::new(rt.alloc());
    let whole = b"\x1c\x41\x2a\x00\x100123456789abcdef";
    checks.holds(writes(rt.alloc(), &Call::CloseOfTransport(64), whole));
    // With as much of the reason as there is room for.
    let whole = b"\x1c\x41\x2a\x00\x040123";
    checks.holds(writes(rt.alloc(), &Call::CloseOfTransport(9), whole));
    checks.verdict()
}

fn write_close_of_application(out: &mut Vec<u8>, room: usize) -> Result<(), NoRoom> {
    let close = ApplicationClose {
        error_code: VarInt::from_u32(16384),
        reason: b"0123456789abcdef",
    };
    if close.min_len() > room {
        return Err(NoRoom);
    }
    close.encode(out, room)
}

#[test]
fn a_close_of_the_application(rt: HostRuntime) -> Result<(), Fail> {
    let mut checks = Checks::new(rt.alloc());
    let whole = b"\x1d\x80\x00\x40\x00\x100123456789abcdef";
    checks.holds(writes(rt.alloc(), &Call::CloseOfApplication(64), whole));
    let whole = b"\x1d\x80\x00\x40\x00\x040123";
    checks.holds(writes(rt.alloc(), &Call::CloseOfApplication(10), whole));
    checks.verdict()
}

fn write_header(out: &mut Vec<u8>, with_length: bool) -> Result<(), NoRoom> {
    let meta = StreamMeta {
        id: stream_id(),
        offsets: 16384..16448,
        fin: true,
    };
    meta.encode(with_length, out)
}

#[test]
fn the_header_of_a_stream(rt: HostRuntime) -> Result<(), Fail> {
    let mut checks = Checks::new(rt.alloc());
    let whole = b"\x0f\x04\x80\x00\x40\x00\x40\x40";
    checks.holds(writes(rt.alloc(), &Call::HeaderAt(true), whole));
    let whole = b"\x0d\x04\x80\x00\x40\x00";
    checks.holds(writes(rt.alloc(), &Call::HeaderAt(false), whole));
    checks.verdict()
}

fn write_datagram(out: &mut Vec<u8>, with_length: bool) -> Result<(), NoRoom> {
    let datagram = Datagram {
        bytes: b"0123456789abcdef",
    };
    datagram.encode(with_length, out)
}

// Whether it is written as a whole or not at all, after the one byte that is there.
fn is_whole_or_none(out: &mut Vec<u8>, with_length: bool, whole: &[u8]) -> bool {
    match write_datagram(out, with_length) {
        Ok(()) => out.as_slice() == whole,
        Err(NoRoom) => out.as_slice() == b"\x01".as_slice(),
    }
}

fn stands_behind(out: &mut Vec<u8>, with_length: bool, whole: &[u8]) -> bool {
    out.push(0x01).is_err() || is_whole_or_none(out, with_length, whole)
}

fn is_written(out: &mut Vec<u8>, with_length: bool, whole: &[u8]) -> bool {
    write_datagram(out, with_length) == Ok(()) && out.as_slice() == whole
}

fn stands_alone(alloc: Global, with_length: bool, whole: &[u8]) -> bool {
    match Vec::with_capacity(alloc, 64) {
        Ok(mut out) => is_written(&mut out, with_length, whole),
        Err(_) => true,
    }
}

// Whether it is appended to the buffer's contents, and written by itself to a buffer with room.
fn writes_datagram(alloc: Global, with_length: bool, whole: &[u8]) -> bool {
    let Some((_, datagram)) = whole.split_first() else {
        return false;
    };
    stands_behind(&mut Vec::new(alloc), with_length, whole)
        && stands_alone(alloc, with_length, datagram)
}

#[test]
fn a_datagram(rt: HostRuntime) -> Result<(), Fail> {
    let mut checks = Checks::new(rt.alloc());
    let whole = b"\x01\x31\x100123456789abcdef";
    checks.holds(writes_datagram(rt.alloc(), true, whole));
    let whole = b"\x01\x300123456789abcdef";
    checks.holds(writes_datagram(rt.alloc(), false, whole));
    checks.verdict()
}

fn write_first_frame(out: &mut Vec<u8>, payload: &[u8], last: bool) -> Result<(), NoRoom> {
    let Some(mut iter) = Iter::new(payload).ok() else {
        return Err(NoRoom);
    };
    let Some(Ok(frame)) = iter.next() else {
        return Err(NoRoom);
    };
    if !frame.in_range() || !is_counted(&frame) {
        return Err(NoRoom);
    }
    frame.encode(last, out)
}

#[test]
fn a_frame_of_a_stream(rt: HostRuntime) -> Result<(), Fail> {
    let mut checks = Checks::new(rt.alloc());
    let payload = b"\x0d\x04\x40\x400123456789abcdef";
    let whole = b"\x0f\x04\x40\x40\x100123456789abcdef";
    checks.holds(writes(rt.alloc(), &Call::FirstFrame(payload, false), whole));
    checks.holds(writes(rt.alloc(), &Call::FirstFrame(payload, true), payload));
    checks.verdict()
}

#[test]
fn an_acknowledgement(rt: HostRuntime) -> Result<(), Fail> {
    let mut checks = Checks::new(rt.alloc());
    let payload = b"\x03\x0e\x40\x40\x03\x40\x00\x01\x40\x01\x03\x00\x00\x02\x40\x40\x18\x0c";
    let whole = b"\x03\x0e\x40\x40\x03\x00\x01\x01\x03\x00\x00\x02\x40\x40\x18\x0c";
    checks.holds(writes(rt.alloc(), &Call::FirstFrame(payload, true), whole));
    checks.verdict()
}

fn write_ack(out: &mut Vec<u8>, set: &ArrayRangeSet) -> Result<(), NoRoom> {
    let Some(greatest) = set.max() else {
        return Err(NoRoom);
    };
    if greatest >= 1 << 62 {
        return Err(NoRoom);
    }
    Ack::encode(64, set, None, out)
}

fn has_two_runs(set: &mut ArrayRangeSet) -> bool {
    set.insert(1..4).is_ok() && set.insert(100..101).is_ok()
}

// The acknowledgement of a set whose two runs need no allocation.
#[test]
fn an_acknowledgement_of_a_set(rt: HostRuntime) -> Result<(), Fail> {
    let mut checks = Checks::new(rt.alloc());
    let set = &mut ArrayRangeSet::new(rt.alloc());
    checks.holds(has_two_runs(set));
    let whole = b"\x02\x40\x64\x40\x40\x01\x00\x40\x5f\x02";
    checks.holds(writes(rt.alloc(), &Call::Ack(set), whole));
    checks.verdict()
}

#[test]
fn a_frame_of_a_close(rt: HostRuntime) -> Result<(), Fail> {
    let mut checks = Checks::new(rt.alloc());
    let payload = b"\x1d\x80\x00\x40\x00\x100123456789abcdef";
    checks.holds(writes(rt.alloc(), &Call::FirstFrame(payload, true), payload));
    checks.verdict()
}
