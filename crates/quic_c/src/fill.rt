//! Reads the frames of a payload, as many with one call as the caller has room for.
ghost use Rattle.std.specs.Prelude.{◌≡◌, ◌<◌, ◌≤◌, ℕ, length, drop};
ghost use Rattle.quic_frames.specs.Padding.{PassesPadding};
ghost use Rattle.quic_c_words.specs.Shown.{rules_in, state_of};
ghost use Rattle.quic_frames.specs.declared.frame.rules.Rules.{Rules};
ghost use Rattle.quic_c.specs.Answers.{AnswersNext, GivesFrameWords};
ghost use Rattle.quic_c_words.specs.declared.words.CFrameIter.{CFrameIter};
ghost use Rattle.quic_c.specs.Filling.{AnswersEntry, AnswersFill, AnswersFirst, GivesEntry};
ghost use Rattle.quic_c.specs.Kinds.{BeginsBy};

use crate::by_kind::{first_at, next_padding, take_by_kind};
use crate::fast_acks::next_ack;
use crate::frames::{next_any, type_in, type_word};
use quic_c_words::flags::is_last;
use quic_c_words::words::{CFrame, CFrameIter};
use quic_frames::frame::Iter;
use quic_results::results::Failure;

// Passes over the PADDING that follows a frame of PADDING, which the entry then includes.
#[inline(never)]
fn pass_run(frames: &mut CFrameIter, payload: &[u8], out: &mut CFrame)
    requires within { frames.old.offset ≤ length payload.now }
    requires going { frames.old.ended ≡ 0 }
    ensures run { (more : ℕ) × PassesPadding (state_of frames.old payload.now) more (state_of frames.new payload.now) }
    ensures going { frames.new.ended ≡ 0 }
    ensures flags { frames.new.flags ≡ frames.old.flags }
    ensures words { out.new ≡ record out.old { end = frames.new.offset; data_offset = frames.new.offset } }
{
    let (begin, last) = (frames.offset, type_in(frames.last_type));
    let Some(mut iter) = Iter::resume(payload, begin, last, is_last(frames.flags)) else {
        unreachable!()
    };
    iter.pass_padding();
    let end = iter.offset();
    frames.offset = end;
    frames.last_type = type_word(iter.last_type());
    out.end = end;
    out.data_offset = end;
}

// The next frame, which no reader for its kind took.
#[inline(always)]
fn next_other(first: u8, frames: &mut CFrameIter, payload: &[u8], out: &mut CFrame) -> i32
    requires within { frames.old.offset < length payload.now }
    requires begins { BeginsBy (λ u. u ≡ first) (drop frames.old.offset payload.now) }
    requires going { frames.old.ended ≡ 0 }
    ensures { AnswersNext (rules_in frames.old.flags) frames.old payload.now out.old result frames.new out.new }
{
    match first {
        0x00 => next_padding(frames, payload, out),
        0x02 => next_ack::<false>(frames, payload, out),
        0x03 => next_ack::<true>(frames, payload, out),
        _ => next_any(frames, payload, out),
    }
}

// Passes over the PADDING behind a frame, if that is PADDING.
#[inline(always)]
fn end_entry(frames: &mut CFrameIter, payload: &[u8], out: &mut CFrame)
    requires within { frames.old.offset ≤ length payload.now }
    requires going { frames.old.ended ≡ 0 }
    ensures gives { (rules : Rules) (old : CFrameIter) → GivesFrameWords rules old payload.now frames.old out.old
        → GivesEntry rules (state_of old payload.now) out.new (state_of frames.new payload.now) }
    ensures within { frames.new.offset ≤ length payload.now }
    ensures going { frames.new.ended ≡ 0 }
    ensures flags { frames.new.flags ≡ frames.old.flags }
{
    if out.kind == 0 {
        pass_run(frames, payload, out);
    }
}

// The next frame as an entry, if no reader for its kind took it. Only for the first entry it reports why a frame isn't
// given.
#[inline(always)]
fn fill_other(
    first: u8,
    is_first: bool,
    frames: &mut CFrameIter,
    payload: &[u8],
    out: &mut CFrame,
) -> i32
    requires within { frames.old.offset < length payload.now }
    requires begins { BeginsBy (λ u. u ≡ first) (drop frames.old.offset payload.now) }
    requires going { frames.old.ended ≡ 0 }
    ensures { AnswersEntry (rules_in frames.old.flags) is_first frames.old payload.now out.old result frames.new out.new }
{
    let before = *out;
    let answer = next_other(first, frames, payload, out);
    if answer == 1 {
        end_entry(frames, payload, out);
        return 1;
    }
    if is_first {
        return answer;
    }
    *out = before;
    frames.ended = 0;
    answer
}

// Fills an entry with the next frame.
#[inline(always)]
fn fill_one(
    first: u8,
    is_first: bool,
    frames: &mut CFrameIter,
    payload: &[u8],
    out: &mut CFrame,
) -> i32
    requires within { frames.old.offset < length payload.now }
    requires begins { BeginsBy (λ u. u ≡ first) (drop frames.old.offset payload.now) }
    requires going { frames.old.ended ≡ 0 }
    ensures { AnswersEntry (rules_in frames.old.flags) is_first frames.old payload.now out.old result frames.new out.new }
{
    match take_by_kind(first, payload, frames.offset, out) {
        Some(end) => {
            frames.offset = end;
            frames.last_type = u64::from(out.ty);
            1
        }
        None => fill_other(first, is_first, frames, payload, out),
    }
}

// Fills entries with the next frames.
#[inline(never)]
fn fill(frames: &mut CFrameIter, payload: &[u8], out: &mut [CFrame], count: &mut usize) -> i32
    requires within { frames.old.offset ≤ length payload.now }
    requires going { frames.old.ended ≡ 0 }
    requires room { 0 < length out.old }
    ensures { AnswersFill (rules_in frames.old.flags) frames.old payload.now out.old count.old result frames.new out.new
        count.new }
{
    let mut filled = 0;
    while filled < out.len() {
        let Some(first) = first_at(payload, frames.offset) else {
            if filled == 0 {
                return 0;
            }
            *count = filled;
            return 1;
        };
        let answer = fill_one(first, filled == 0, frames, payload, &mut out[filled]);
        if answer != 1 {
            if filled == 0 {
                return answer;
            }
            *count = filled;
            return 1;
        }
        filled += 1;
    }
    *count = filled;
    1
}

/// The next frames (RFC 9000, section 19), as many as `out` has room for, by the rules of the iterator's flags; a run
/// of PADDING, each byte of which is a frame, is one entry. It returns 1 with how many entries were filled, at least
/// one; 0 if no frame is left; the reason, once, with the type in the first entry, if the next bytes aren't a valid
/// frame or are one that breaks a rule; `NoRoom` exactly if `out` has no entry and the place is in the payload; `Place`
/// exactly if the place is outside of it. `count` changes only with 1, and nothing changes with 0, `NoRoom` and
/// `Place`.
#[unsafe(no_mangle)]
pub extern "C" fn quic_wire_frames_fill_(
    frames: &mut CFrameIter,
    payload: &[u8],
    out: &mut [CFrame],
    count: &mut usize,
) -> i32
    ensures answers { AnswersFill (rules_in frames.old.flags) frames.old payload.now out.old count.old result frames.new
        out.new count.new }
{
    if frames.offset > payload.len() {
        return Failure::Place.number();
    }
    if out.is_empty() {
        return Failure::NoRoom.number();
    }
    if frames.ended != 0 {
        return 0;
    }
    fill(frames, payload, out, count)
}

/// Begins at the front of a payload and reads its first frames (RFC 9000, section 19), as `quic_wire_frames_init_` and
/// then `quic_wire_frames_fill_` do. It returns 1 with how many entries were filled, at least one; `PayloadEmpty`
/// exactly if the payload is empty, which is a PROTOCOL_VIOLATION (section 12.4); the reason, with the type in the
/// first entry, if the payload doesn't begin with a valid frame or begins with one that breaks a rule; `NoRoom` exactly
/// if the payload isn't empty and `out` has no entry. `count` changes only with 1, and nothing changes with
/// `PayloadEmpty` and `NoRoom`.
#[unsafe(no_mangle)]
pub extern "C" fn quic_wire_frames_first_(
    frames: &mut CFrameIter,
    payload: &[u8],
    flags: u32,
    out: &mut [CFrame],
    count: &mut usize,
) -> i32
    ensures answers { AnswersFirst flags payload.now frames.old out.old count.old result frames.new out.new count.new }
{
    if payload.is_empty() {
        return Failure::PayloadEmpty.number();
    }
    if out.is_empty() {
        return Failure::NoRoom.number();
    }
    *frames = CFrameIter {
        offset: 0,
        last_type: u64::MAX,
        ended: 0,
        flags,
    };
    fill(frames, payload, out, count)
}
