//! Frames as words.
ghost use Rattle.std.specs.Prelude.{◌≡◌, ◌+◌, ◌-◌, ◌<◌, ◌^◌, ℕ, List, [], ◌∷◌, length, if◌then◌else◌};
ghost use Rattle.quic_frame_fields.specs.Acks.{ranges_acked};
ghost use Rattle.quic_frame_fields.specs.Field.{AreBelow};
ghost use Rattle.quic_frames.specs.declared.frame.Frame.TheVariants as frames;
ghost use Rattle.quic_c_words.specs.Shown.{frame_kind_of, flags_of, first_length, frame_numbers_of, data_of, data_len_of, back_of, frame_words, counts_flag, counts_numbers};

use crate::words::CFrame;
use quic_base::coding::are_bytes;
use quic_base::ids::Dir;
use quic_base::varint::split_var;
use quic_frames::frame::{Ack, AckFrequency, Close, Frame, NewConnectionId};

/// The words that depend on the frame alone.
#[derive(Clone, Copy)]
pub struct Parts {
    /// The kind: the type, 8 for every STREAM, 2 for every ACK and 0x30 for every DATAGRAM.
    pub kind: u16,
    /// 1: a STREAM ends its stream (FIN). 2: an ACK has counts.
    pub flags: u32,
    /// How far the data end before the frame; of an ACK, which has no place of data, as far as can be.
    pub tail: usize,
    /// How many bytes of data it has; of an ACK its first range, less one.
    pub data_len: usize,
    /// Its numbers, with 0 for those that it lacks.
    pub numbers: [u64; 5],
}

#[inline(always)]
fn without_data(kind: u16, numbers: [u64; 5]) -> Parts
    ensures { result ≡ record { kind = kind; flags = 0; tail = 0; data_len = 0; numbers = numbers } }
{
    Parts {
        kind,
        flags: 0,
        tail: 0,
        data_len: 0,
        numbers,
    }
}

// A kind that has the first two numbers alone.
#[inline(always)]
fn both(kind: u16, a: u64, b: u64) -> Parts
    ensures { result ≡ record { kind = kind; flags = 0; tail = 0; data_len = 0; numbers = a ∷ b ∷ 0 ∷ 0 ∷ 0 ∷ [] } }
{
    without_data(kind, [a, b, 0, 0, 0])
}

#[inline(always)]
fn with_data(kind: u16, flags: u32, numbers: [u64; 5], bytes: &[u8]) -> Parts
    ensures { result ≡ record { kind = kind; flags = flags; tail = 0; data_len = length bytes.now; numbers = numbers } }
{
    Parts {
        kind,
        flags,
        tail: 0,
        data_len: bytes.len(),
        numbers,
    }
}

/// The first range of an ACK, less one, and what follows that: the ranges below, as gap and length.
#[inline(always)]
pub fn split_blocks<'a>(ack: &Ack<'a>) -> (u64, &'a [u8])
    ensures first { result.0 ≡ first_length (ranges_acked ack.now) }
    ensures below { (least : ℕ) × (ranges : List (ℕ × ℕ)) × (ranges_acked ack.now ≡ (least, ack.now.largest) ∷ ranges)
        × AreBelow least ranges result.1.now }
{
    let blocks = ack.additional();
    are_bytes(blocks);
    let Ok((first, below)) = split_var(blocks) else {
        unreachable!()
    };
    (first, below)
}

/// The words of an ACK with this first range, less one.
#[inline(always)]
pub fn with_first(ack: &Ack<'_>, first: u64) -> Parts
    ensures { result ≡ record {
      kind = 0x02;
      flags = counts_flag ack.now.ecn;
      tail = 2 ^ 64 - 1;
      data_len = first;
      numbers = ack.now.largest ∷ ack.now.delay ∷ counts_numbers ack.now.ecn;
    } }
{
    let data_len = first as usize;
    match ack.ecn() {
        Some(e) => Parts {
            kind: 0x02,
            flags: 2,
            tail: usize::MAX,
            data_len,
            numbers: [ack.largest(), ack.delay(), e.ect0, e.ect1, e.ce],
        },
        None => Parts {
            kind: 0x02,
            flags: 0,
            tail: usize::MAX,
            data_len,
            numbers: [ack.largest(), ack.delay(), 0, 0, 0],
        },
    }
}

#[inline(always)]
fn of_ack(ack: &Ack<'_>) -> Parts
    ensures { result ≡ record {
      kind = 0x02;
      flags = counts_flag ack.now.ecn;
      tail = 2 ^ 64 - 1;
      data_len = first_length (ranges_acked ack.now);
      numbers = ack.now.largest ∷ ack.now.delay ∷ counts_numbers ack.now.ecn;
    } }
{
    let (first, _) = split_blocks(ack);
    with_first(ack, first)
}

#[inline(always)]
fn of_new_connection_id(n: &NewConnectionId) -> Parts
    ensures { result ≡ record {
      kind = 0x18;
      flags = 0;
      tail = 16;
      data_len = length n.now.id;
      numbers = n.now.sequence ∷ n.now.retire_prior_to ∷ 0 ∷ 0 ∷ 0 ∷ [];
    } }
{
    Parts {
        kind: 0x18,
        flags: 0,
        tail: 16,
        data_len: n.id.as_slice().len(),
        numbers: [n.sequence, n.retire_prior_to, 0, 0, 0],
    }
}

#[inline(always)]
fn of_close(close: &Close<'_>) -> Parts
    ensures { result ≡ record {
      kind = frame_kind_of (frames.Close close.now);
      flags = 0;
      tail = 0;
      data_len = length (data_of (frames.Close close.now));
      numbers = frame_numbers_of (frames.Close close.now);
    } }
{
    match close {
        Close::Connection(c) => {
            let ty = match c.frame_type {
                Some(ty) => ty.into_inner(),
                None => 0,
            };
            with_data(0x1c, 0, [c.error_code.into(), ty, 0, 0, 0], c.reason)
        }
        Close::Application(c) => with_data(
            0x1d,
            0,
            [c.error_code.into_inner(), 0, 0, 0, 0],
            c.reason,
        ),
    }
}

#[inline(always)]
fn of_ack_frequency(f: &AckFrequency) -> Parts
    ensures { result ≡ record {
      kind = 0xaf;
      flags = 0;
      tail = 0;
      data_len = 0;
      numbers = frame_numbers_of (frames.AckFrequency f.now);
    } }
{
    let (sequence, threshold) = (
        f.sequence.into_inner(),
        f.ack_eliciting_threshold.into_inner(),
    );
    let (delay, reordering) = (
        f.request_max_ack_delay.into_inner(),
        f.reordering_threshold.into_inner(),
    );
    without_data(0xaf, [sequence, threshold, delay, reordering, 0])
}

/// The words of a frame that depend on it alone. One match finds them all: one for each of them costs more instructions
/// in the calls that read frames.
#[inline(always)]
pub fn parts_of(frame: &Frame<'_>) -> Parts
    ensures { result ≡ record {
      kind = frame_kind_of frame.now;
      flags = flags_of frame.now;
      tail = back_of frame.now;
      data_len = data_len_of frame.now;
      numbers = frame_numbers_of frame.now;
    } }
{
    match frame {
        Frame::Padding => without_data(0x00, [0; 5]),
        Frame::Ping => without_data(0x01, [0; 5]),
        Frame::Ack(a) => of_ack(a),
        Frame::ResetStream(r) => {
            let (code, size) = (r.error_code.into_inner(), r.final_offset.into_inner());
            without_data(0x04, [u64::from(r.id), code, size, 0, 0])
        }
        Frame::StopSending(s) => both(0x05, u64::from(s.id), s.error_code.into_inner()),
        Frame::Crypto(c) => with_data(0x06, 0, [0, c.offset, 0, 0, 0], c.bytes),
        Frame::NewToken(t) => with_data(0x07, 0, [0; 5], t.token),
        Frame::Stream(s) => {
            let fin = if s.fin { 1 } else { 0 };
            with_data(0x08, fin, [u64::from(s.id), s.offset, 0, 0, 0], s.bytes)
        }
        Frame::MaxData(n) => without_data(0x10, [0, n.into_inner(), 0, 0, 0]),
        Frame::MaxStreamData { id, offset } => both(0x11, u64::from(*id), *offset),
        Frame::MaxStreams {
            dir: Dir::Bi,
            count,
        } => without_data(0x12, [0, *count, 0, 0, 0]),
        Frame::MaxStreams {
            dir: Dir::Uni,
            count,
        } => without_data(0x13, [0, *count, 0, 0, 0]),
        Frame::DataBlocked { offset } => without_data(0x14, [0, *offset, 0, 0, 0]),
        Frame::StreamDataBlocked { id, offset } => both(0x15, u64::from(*id), *offset),
        Frame::StreamsBlocked {
            dir: Dir::Bi,
            limit,
        } => without_data(0x16, [0, *limit, 0, 0, 0]),
        Frame::StreamsBlocked {
            dir: Dir::Uni,
            limit,
        } => without_data(0x17, [0, *limit, 0, 0, 0]),
        Frame::NewConnectionId(n) => of_new_connection_id(n),
        Frame::RetireConnectionId { sequence } => without_data(0x19, [*sequence, 0, 0, 0, 0]),
        Frame::PathChallenge(n) => without_data(0x1a, [*n, 0, 0, 0, 0]),
        Frame::PathResponse(n) => without_data(0x1b, [*n, 0, 0, 0, 0]),
        Frame::Close(close) => of_close(close),
        Frame::Datagram(d) => with_data(0x30, 0, [0; 5], d.bytes),
        Frame::AckFrequency(f) => of_ack_frequency(f),
        Frame::ImmediateAck => without_data(0x1f, [0; 5]),
        Frame::HandshakeDone => without_data(0x1e, [0; 5]),
    }
}

/// The words of a frame that begins and ends there and has this type, with those that depend on the frame alone.
#[inline(always)]
pub fn show_parts(begin: usize, end: usize, ty: u16, of_frame: Parts) -> CFrame
    ensures { result ≡ record {
      kind = of_frame.kind;
      ty = ty;
      flags = of_frame.flags;
      begin = begin;
      end = end;
      data_offset = end - of_frame.tail - of_frame.data_len;
      data_len = of_frame.data_len;
      numbers = of_frame.numbers;
    } }
{
    let numbers = of_frame.numbers;
    CFrame {
        kind: of_frame.kind,
        ty,
        flags: of_frame.flags,
        begin,
        end,
        data_offset: end
            .saturating_sub(of_frame.tail)
            .saturating_sub(of_frame.data_len),
        data_len: of_frame.data_len,
        numbers,
    }
}

/// The words of a frame of this type, which in a payload goes from `begin` to `end`.
#[inline(always)]
pub fn show(begin: usize, end: usize, ty: u16, frame: &Frame<'_>) -> CFrame
    ensures { result ≡ frame_words begin end ty frame.now }
{
    show_parts(begin, end, ty, parts_of(frame))
}
