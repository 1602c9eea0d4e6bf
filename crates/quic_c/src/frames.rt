//! Reads the frames of a payload, one with each call.
ghost use Rattle.std.specs.Prelude.{◌≡◌, ◌<◌, ◌≤◌, ◌^◌, ◌↔◌, ◌⊎◌, [], false, pos, length};
ghost use Rattle.quic_frames.specs.declared.frame.Frame.{Frame};
ghost use Rattle.quic_frames.specs.IterState.{IterState};
ghost use Rattle.quic_frames.specs.Rules.{no_rules};
ghost use Rattle.quic_frames.specs.Walk.{first_of, Finds};
ghost use Rattle.quic_c_words.specs.Shown.{state_of, at_front, has_flag, rules_in, type_in, type_word, invalid_words};
ghost use Rattle.quic_c.specs.Answers.{AnswersNext};
ghost use Rattle.quic_results.specs.Results.{failed, frame_failure};

use crate::by_kind::next_by_kind;
use quic_c_words::flags::{breach_by, broken, is_broken, no_rules, reported_by};
use quic_c_words::show::show;
use quic_c_words::words::{CFrame, CFrameIter};
use quic_frames::frame::{FrameType, InvalidFrame, Iter, Rules};
use quic_results::results::{Failure, frame_failure};

// The type in a word, if there is one.
pub(crate) fn type_in(word: u64) -> Option<FrameType>
    ensures { result ≡ type_in word }
{
    if word >= 1 << 62 {
        return None;
    }
    Some(FrameType::or_none(word).unwrap_or(FrameType::PADDING))
}

// The word for a type.
pub(crate) fn type_word(ty: Option<FrameType>) -> u64
    ensures value { result ≡ type_word ty }
    ensures back { type_in result ≡ ty }
{
    match ty {
        Some(ty) => ty.into_inner(),
        None => u64::MAX,
    }
}

// The type of the frame that was read last, as encoded in the payload: each known type has fewer than 16 bits.
#[inline(always)]
pub(crate) fn type_read(iter: &Iter<'_>) -> u64
    requires { (old : IterState) × (frame : Frame) × Finds old frame iter.now }
    ensures value { (old : IterState) (frame : Frame) (finds : Finds old frame iter.now) → result ≡ finds.found.type }
    ensures fits { result < 2 ^ 16 }
{
    let Some(ty) = iter.last_type() else {
        unreachable!()
    };
    ty.into_inner()
}

/// Begins at the front of a payload, to read it by the rules of these flags. It returns 0, or `PayloadEmpty` exactly if
/// the payload is empty, which is a PROTOCOL_VIOLATION (RFC 9000, section 12.4); then nothing changes.
#[unsafe(no_mangle)]
pub extern "C" fn quic_wire_frames_init_(frames: &mut CFrameIter, payload: &[u8], flags: u32) -> i32
    ensures returns { (result ≡ pos 0) ⊎ (result ≡ failed Failure.PayloadEmpty) }
    ensures empty { (result ≡ failed Failure.PayloadEmpty) ↔ (payload.now ≡ []) }
    ensures front { result ≡ pos 0 → frames.new ≡ at_front flags }
    ensures first { result ≡ pos 0
        → state_of frames.new payload.now ≡ first_of (rules_in flags).short_types payload.now }
    ensures refused { result ≡ failed Failure.PayloadEmpty → frames.new ≡ frames.old }
{
    if payload.is_empty() {
        return Failure::PayloadEmpty.number();
    }
    *frames = CFrameIter {
        offset: 0,
        last_type: u64::MAX,
        ended: 0,
        flags,
    };
    0
}

// An error as words.
pub(crate) fn show_invalid(begin: usize, invalid: &InvalidFrame) -> CFrame
    ensures { result ≡ invalid_words begin (type_word invalid.now.ty) }
{
    CFrame {
        kind: u16::MAX,
        ty: 0,
        flags: 0,
        begin,
        end: begin,
        data_offset: begin,
        data_len: 0,
        numbers: [type_word(invalid.ty), 0, 0, 0, 0],
    }
}

// Reports, once, why the frame at a place isn't given.
#[inline(always)]
fn refuse(begin: usize, invalid: &InvalidFrame, frames: &mut CFrameIter, out: &mut CFrame) -> i32
    ensures reason { result ≡ failed (frame_failure invalid.now.reason.now) }
    ensures over { frames.new ≡ record frames.old { ended = 1 } }
    ensures words { out.new ≡ invalid_words begin (type_word invalid.now.ty) }
{
    frames.ended = 1;
    *out = show_invalid(begin, invalid);
    frame_failure(invalid.reason).number()
}

// The next frame of an iterator at the place in the words. There is a copy for a first byte 0, PADDING, so that the
// words of a run are stored by themselves; and each caller has its own copy, inlined into it.
#[inline(always)]
fn give_next<const COPY: usize, const CHECKED: bool>(
    iter: &mut Iter<'_>,
    rules: Rules,
    frames: &mut CFrameIter,
    out: &mut CFrame,
) -> i32
    requires state { state_of frames.old iter.old.payload ≡ iter.old }
    requires within { frames.old.offset ≤ length iter.old.payload }
    requires checked { CHECKED ≡ false → rules ≡ no_rules }
    ensures { AnswersNext rules frames.old iter.old.payload out.old result frames.new out.new }
{
    let begin = frames.offset;
    match iter.next() {
        None => 0,
        Some(Ok(frame)) => {
            let breach = breach_by::<CHECKED>(rules, &frame);
            if is_broken(breach) {
                return refuse(begin, &broken(iter.last_type(), breach), frames, out);
            }
            let (end, ty) = (iter.offset(), type_read(iter));
            *out = show(begin, end, ty as u16, &frame);
            frames.offset = end;
            frames.last_type = ty;
            1
        }
        Some(Err(plain)) => {
            let invalid = reported_by::<CHECKED>(rules, &plain);
            refuse(begin, &invalid, frames, out)
        }
    }
}

// The next frame at the place in the words, by one copy for PADDING and one for other frames.
#[inline(always)]
fn next_on<const PADDING: usize, const OTHER: usize, const CHECKED: bool>(
    frames: &mut CFrameIter,
    payload: &[u8],
    rules: Rules,
    out: &mut CFrame,
) -> i32
    requires types { rules.short_types ≡ has_flag 0x001 frames.old.flags }
    requires checked { CHECKED ≡ false → rules ≡ no_rules }
    ensures { AnswersNext rules frames.old payload.now out.old result frames.new out.new }
{
    let begin = frames.offset;
    let last = type_in(frames.last_type);
    let Some(mut iter) = Iter::resume(payload, begin, last, rules.short_types) else {
        return Failure::Place.number();
    };
    if frames.ended != 0 {
        return 0;
    }
    match payload[begin..].first() {
        Some(0) => give_next::<PADDING, CHECKED>(&mut iter, rules, frames, out),
        _ => give_next::<OTHER, CHECKED>(&mut iter, rules, frames, out),
    }
}

// The next frame where frames are checked.
#[inline(never)]
fn next_checked(frames: &mut CFrameIter, payload: &[u8], out: &mut CFrame) -> i32
    ensures { AnswersNext (rules_in frames.old.flags) frames.old payload.now out.old result frames.new out.new }
{
    next_on::<2, 3, true>(frames, payload, Rules::of_flags(frames.flags), out)
}

// Any next frame, also one that breaks a rule, or the reason why there is none.
#[inline(never)]
pub(crate) fn next_any(frames: &mut CFrameIter, payload: &[u8], out: &mut CFrame) -> i32
    ensures { AnswersNext (rules_in frames.old.flags) frames.old payload.now out.old result frames.new out.new }
{
    let Some(rules) = no_rules(frames.flags) else {
        return next_checked(frames, payload, out);
    };
    next_on::<0, 1, false>(frames, payload, rules, out)
}

/// The next frame (RFC 9000, section 19), by the rules of the iterator's flags. It returns 1 with the frame; 0 if none
/// is left, and nothing changes; the reason, once, with the type, if the next bytes aren't a valid frame or are one
/// that breaks a rule; `Place` exactly if the place is outside of the payload, and nothing changes.
#[unsafe(no_mangle)]
pub extern "C" fn quic_wire_frames_next_(
    frames: &mut CFrameIter,
    payload: &[u8],
    out: &mut CFrame,
) -> i32
    ensures returns { AnswersNext (rules_in frames.old.flags) frames.old payload.now out.old result frames.new out.new }
{
    next_by_kind(frames, payload, out)
}
