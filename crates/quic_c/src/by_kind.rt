//! Calls that read a frame by the reader for its kind, which the first byte says. What that doesn't take, as an error,
//! is read by the call for all frames. No call here keeps anything over another, so that each ends by a jump.
ghost use Rattle.std.specs.Prelude.{◌≡◌, ◌<◌, ◌≤◌, ℕ, List, ◌∷◌, IfSome, length, drop, IsNone};
ghost use Rattle.quic_c_words.specs.Shown.{rules_in};
ghost use Rattle.quic_c.specs.Answers.{AnswersNext};
ghost use Rattle.quic_c.specs.Front.{AnswersRead};
ghost use Rattle.quic_c.specs.Kinds.{AnswersKind, BeginsBy};

use crate::fast::{
    ApplicationClose, Crypto, DataLimit, Datagram, Kind, NewId, NoFields, Path, Reset, RetireId,
    Stream, StreamLimit, Token, TransportClose, TwoNumbers, put, split_type,
};
use crate::fast_acks::{next_ack, read_ack};
use crate::frames::next_any;
use crate::front::read_any;
use quic_c_words::words::{CFrame, CFrameIter, CGap};

// The first byte from an offset on.
#[inline(always)]
pub(crate) fn first_at(bytes: &[u8], begin: usize) -> Option<u8>
    ensures none { IsNone result → length bytes.now ≤ begin }
    ensures some { IfSome result (λ t. (begin < length bytes.now) × BeginsBy (λ u. u ≡ t) (drop begin bytes.now)) }
{
    if begin > bytes.len() {
        return None;
    }
    let (_, left) = bytes.split_at(begin);
    match left.split_first() {
        Some((first, _)) => Some(*first),
        None => None,
    }
}

// The frame at an offset, near the end of the payload.
#[inline(never)]
fn take_near_end<K: Kind>(payload: &[u8], begin: usize, out: &mut CFrame) -> Option<usize>
    requires within { begin ≤ length payload.now }
    requires begins { BeginsBy K.is_type (drop begin payload.now) }
    ensures { AnswersKind payload.now begin out.old result out.new }
{
    K::read(false, payload, begin, out)
}

// The frame at an offset, with no call for most.
#[inline(always)]
fn take_here<K: Kind>(payload: &[u8], begin: usize, out: &mut CFrame) -> Option<usize>
    requires within { begin ≤ length payload.now }
    requires begins { BeginsBy K.is_type (drop begin payload.now) }
    ensures { AnswersKind payload.now begin out.old result out.new }
{
    match K::read(true, payload, begin, out) {
        Some(end) => Some(end),
        None => take_near_end::<K>(payload, begin, out),
    }
}

// The frame at an offset.
#[inline(never)]
fn take_kind<K: Kind>(payload: &[u8], begin: usize, out: &mut CFrame) -> Option<usize>
    requires within { begin ≤ length payload.now }
    requires begins { BeginsBy K.is_type (drop begin payload.now) }
    ensures { AnswersKind payload.now begin out.old result out.new }
{
    take_here::<K>(payload, begin, out)
}

// The frame at an offset, by its first byte: where it ends, with its words, or None, where the calls for all frames
// have to read it. STREAM and CRYPTO, which most packets have, are read with no call.
#[inline(always)]
pub(crate) fn take_by_kind(
    first: u8,
    payload: &[u8],
    begin: usize,
    out: &mut CFrame,
) -> Option<usize>
    requires within { begin ≤ length payload.now }
    requires begins { BeginsBy (λ u. u ≡ first) (drop begin payload.now) }
    ensures { AnswersKind payload.now begin out.old result out.new }
{
    match first {
        0x01 | 0x1e => take_kind::<NoFields>(payload, begin, out),
        0x04 => take_kind::<Reset>(payload, begin, out),
        0x05 | 0x11 | 0x15 => take_kind::<TwoNumbers>(payload, begin, out),
        0x06 => take_here::<Crypto>(payload, begin, out),
        0x07 => take_kind::<Token>(payload, begin, out),
        0x08..=0x0f => take_here::<Stream>(payload, begin, out),
        0x10 | 0x14 => take_kind::<DataLimit>(payload, begin, out),
        0x12 | 0x13 | 0x16 | 0x17 => take_kind::<StreamLimit>(payload, begin, out),
        0x18 => take_kind::<NewId>(payload, begin, out),
        0x19 => take_kind::<RetireId>(payload, begin, out),
        0x1a | 0x1b => take_kind::<Path>(payload, begin, out),
        0x1c => take_kind::<TransportClose>(payload, begin, out),
        0x1d => take_kind::<ApplicationClose>(payload, begin, out),
        0x30 | 0x31 => take_kind::<Datagram>(payload, begin, out),
        _ => None,
    }
}

// The frame at the front, near the end of the payload.
#[inline(never)]
fn read_near_end<K: Kind>(payload: &[u8], flags: u32, out: &mut CFrame, gaps: &mut [CGap]) -> i64
    requires { BeginsBy K.is_type payload.now }
    ensures { AnswersRead (rules_in flags) payload.now out.old gaps.old result out.new gaps.new }
{
    match K::read(false, payload, 0, out) {
        Some(end) => end as i64,
        None => read_any(payload, flags, out, gaps),
    }
}

// The frame at the front.
#[inline(never)]
fn read_kind<K: Kind>(payload: &[u8], flags: u32, out: &mut CFrame, gaps: &mut [CGap]) -> i64
    requires { BeginsBy K.is_type payload.now }
    ensures { AnswersRead (rules_in flags) payload.now out.old gaps.old result out.new gaps.new }
{
    match K::read(true, payload, 0, out) {
        Some(end) => end as i64,
        None => read_near_end::<K>(payload, flags, out, gaps),
    }
}

// The frame at the front, by its first byte.
#[inline(always)]
pub(crate) fn read_by_kind(payload: &[u8], flags: u32, out: &mut CFrame, gaps: &mut [CGap]) -> i64
    ensures { AnswersRead (rules_in flags) payload.now out.old gaps.old result out.new gaps.new }
{
    let Some((first, _)) = payload.split_first() else {
        return read_any(payload, flags, out, gaps);
    };
    match *first {
        0x01 | 0x1e => read_kind::<NoFields>(payload, flags, out, gaps),
        0x02 => read_ack::<false>(payload, flags, out, gaps),
        0x03 => read_ack::<true>(payload, flags, out, gaps),
        0x04 => read_kind::<Reset>(payload, flags, out, gaps),
        0x05 | 0x11 | 0x15 => read_kind::<TwoNumbers>(payload, flags, out, gaps),
        0x06 => read_kind::<Crypto>(payload, flags, out, gaps),
        0x07 => read_kind::<Token>(payload, flags, out, gaps),
        0x08..=0x0f => read_kind::<Stream>(payload, flags, out, gaps),
        0x10 | 0x14 => read_kind::<DataLimit>(payload, flags, out, gaps),
        0x12 | 0x13 | 0x16 | 0x17 => read_kind::<StreamLimit>(payload, flags, out, gaps),
        0x18 => read_kind::<NewId>(payload, flags, out, gaps),
        0x19 => read_kind::<RetireId>(payload, flags, out, gaps),
        0x1a | 0x1b => read_kind::<Path>(payload, flags, out, gaps),
        0x1c => read_kind::<TransportClose>(payload, flags, out, gaps),
        0x1d => read_kind::<ApplicationClose>(payload, flags, out, gaps),
        0x30 | 0x31 => read_kind::<Datagram>(payload, flags, out, gaps),
        _ => read_any(payload, flags, out, gaps),
    }
}

// The next frame, near the end of the payload.
#[inline(never)]
fn next_near_end<K: Kind>(frames: &mut CFrameIter, payload: &[u8], out: &mut CFrame) -> i32
    requires within { frames.old.offset ≤ length payload.now }
    requires begins { BeginsBy K.is_type (drop frames.old.offset payload.now) }
    requires going { frames.old.ended ≡ 0 }
    ensures { AnswersNext (rules_in frames.old.flags) frames.old payload.now out.old result frames.new out.new }
{
    match K::read(false, payload, frames.offset, out) {
        Some(end) => {
            frames.offset = end;
            frames.last_type = u64::from(out.ty);
            1
        }
        None => next_any(frames, payload, out),
    }
}

// The next frame.
#[inline(never)]
fn next_kind<K: Kind>(frames: &mut CFrameIter, payload: &[u8], out: &mut CFrame) -> i32
    requires within { frames.old.offset ≤ length payload.now }
    requires begins { BeginsBy K.is_type (drop frames.old.offset payload.now) }
    requires going { frames.old.ended ≡ 0 }
    ensures { AnswersNext (rules_in frames.old.flags) frames.old payload.now out.old result frames.new out.new }
{
    match K::read(true, payload, frames.offset, out) {
        Some(end) => {
            frames.offset = end;
            frames.last_type = u64::from(out.ty);
            1
        }
        None => next_near_end::<K>(frames, payload, out),
    }
}

// The next frame, of PADDING in a byte.
#[inline(always)]
pub(crate) fn next_padding(frames: &mut CFrameIter, payload: &[u8], out: &mut CFrame) -> i32
    requires within { frames.old.offset < length payload.now }
    requires begins { BeginsBy (λ u. u ≡ 0) (drop frames.old.offset payload.now) }
    requires going { frames.old.ended ≡ 0 }
    ensures { AnswersNext (rules_in frames.old.flags) frames.old payload.now out.old result frames.new out.new }
{
    let begin = frames.offset;
    let Some((_, rest)) = split_type(payload, begin) else {
        return next_any(frames, payload, out);
    };
    let end = payload.len() - rest.len();
    put(out, 0x00, begin, end, [0; 5]);
    frames.offset = end;
    frames.last_type = 0x00;
    1
}

// The next frame, by its first byte.
#[inline(always)]
#[tactic(auto, using(crate::proofs::FastCalls::spent_next))]
pub(crate) fn next_by_kind(frames: &mut CFrameIter, payload: &[u8], out: &mut CFrame) -> i32
    ensures { AnswersNext (rules_in frames.old.flags) frames.old payload.now out.old result frames.new out.new }
{
    if frames.ended != 0 {
        return next_any(frames, payload, out);
    }
    if frames.offset == payload.len() {
        return 0;
    }
    let Some(first) = first_at(payload, frames.offset) else {
        return next_any(frames, payload, out);
    };
    match first {
        0x00 => next_padding(frames, payload, out),
        0x01 | 0x1e => next_kind::<NoFields>(frames, payload, out),
        0x02 => next_ack::<false>(frames, payload, out),
        0x03 => next_ack::<true>(frames, payload, out),
        0x04 => next_kind::<Reset>(frames, payload, out),
        0x05 | 0x11 | 0x15 => next_kind::<TwoNumbers>(frames, payload, out),
        0x06 => next_kind::<Crypto>(frames, payload, out),
        0x07 => next_kind::<Token>(frames, payload, out),
        0x08..=0x0f => next_kind::<Stream>(frames, payload, out),
        0x10 | 0x14 => next_kind::<DataLimit>(frames, payload, out),
        0x12 | 0x13 | 0x16 | 0x17 => next_kind::<StreamLimit>(frames, payload, out),
        0x18 => next_kind::<NewId>(frames, payload, out),
        0x19 => next_kind::<RetireId>(frames, payload, out),
        0x1a | 0x1b => next_kind::<Path>(frames, payload, out),
        0x1c => next_kind::<TransportClose>(frames, payload, out),
        0x1d => next_kind::<ApplicationClose>(frames, payload, out),
        0x30 | 0x31 => next_kind::<Datagram>(frames, payload, out),
        _ => next_any(frames, payload, out),
    }
}
