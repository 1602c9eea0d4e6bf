//! Reads the frame at the front of the rest of a payload, and the first ranges of an ACK as gap and length.
ghost use Rattle.std.specs.Prelude.{◌≡◌, ◌↔◌, ◌⊎◌, ◌<◌, ◌≤◌, ℕ, List, [], ◌∷◌, Bool, Option, drop, map, IsTrue, length, true, false, if◌then◌else◌};
ghost use Rattle.quic_frame_fields.specs.Acks.{ranges_acked};
ghost use Rattle.quic_frame_fields.specs.Field.{AreBelow};
ghost use Rattle.quic_frames.specs.Padding.{PassesPadding};
ghost use Rattle.quic_frames.specs.Rules.{no_rules};
ghost use Rattle.quic_frames.specs.Walk.{left, first_of, resumed};
ghost use Rattle.quic_c_words.specs.Shown.{first_length, frame_kind_of, frame_words, invalid_words, rules_in, type_word};
ghost use Rattle.quic_c.specs.Front.{AnswersRead, FillsGaps, ShowsAck, ShowsFront, moved_by, reported_behind};
ghost use Rattle.quic_results.specs.Results.{failed, frame_failure};

use crate::by_kind::read_by_kind;
use crate::fast_acks::two_short;
use crate::frames::{show_invalid, type_read};
use quic_base::varint::split_var;
use quic_c_words::flags::{breach_by, broken, is_broken, no_rules, reported_by};
use quic_c_words::show::{parts_of, show, split_blocks, with_first};
use quic_c_words::words::{CFrame, CGap};
use quic_frames::frame::{Ack, Frame, InvalidFrame, Iter, Rules};
use quic_results::results::{Failure, frame_failure};

// Fills entries with the ranges below another one, as gap and length: how many, and whether none is left.
#[inline(always)]
fn fill_gaps(blocks: &[u8], gaps: &mut [CGap]) -> (usize, bool)
    requires { (least : ℕ) × (ranges : List (ℕ × ℕ)) × AreBelow least ranges blocks.now }
    ensures fills { (least : ℕ) (ranges : List (ℕ × ℕ)) → AreBelow least ranges blocks.now
        → FillsGaps least ranges gaps.old gaps.new result.0 }
    ensures whole { (least : ℕ) (ranges : List (ℕ × ℕ)) → AreBelow least ranges blocks.now
        → IsTrue result.1 ↔ (result.0 ≡ length ranges) }
{
    if blocks.is_empty() {
        return (0, true);
    }
    let mut left = blocks;
    let mut count = 0;
    // In most ACKs each gap and length has one byte.
    while count < gaps.len() {
        let Some((between, len, rest)) = two_short(left) else {
            break;
        };
        gaps[count] = CGap { gap: between, len };
        left = rest;
        count += 1;
    }
    while count < gaps.len() && !left.is_empty() {
        let Ok((gap, behind)) = split_var(left) else {
            unreachable!()
        };
        let Ok((len, rest)) = split_var(behind) else {
            unreachable!()
        };
        gaps[count] = CGap { gap, len };
        left = rest;
        count += 1;
    }
    (count, left.is_empty())
}

// The flag of an ACK whose ranges were not all filled.
#[inline(always)]
fn more_flag(is_whole: bool) -> u32
    ensures value { result ≡ (if is_whole then 0 else 4) }
    ensures small { result ≤ 4 }
{
    if is_whole { 0 } else { 4 }
}

// The words of an ACK at the front with this first range, less one, and as many of the ranges below that, whose bytes
// these are, as there are entries.
#[inline(always)]
pub(crate) fn show_ack_of(
    end: usize,
    ty: u16,
    ack: &Ack<'_>,
    first: u64,
    below: &[u8],
    gaps: &mut [CGap],
) -> CFrame
    requires first { first ≡ first_length (ranges_acked ack.now) }
    requires below { (least : ℕ) × (ranges : List (ℕ × ℕ)) × (ranges_acked ack.now ≡ (least, ack.now.largest) ∷ ranges)
        × AreBelow least ranges below.now }
    ensures { ShowsAck end ty ack.now gaps.old result gaps.new }
{
    let parts = with_first(ack, first);
    let numbers = parts.numbers;
    let (count, is_whole) = fill_gaps(below, gaps);
    CFrame {
        kind: parts.kind,
        ty,
        flags: parts.flags + more_flag(is_whole),
        begin: 0,
        end,
        data_offset: count,
        data_len: parts.data_len,
        numbers,
    }
}

// The words of an ACK at the front, and as many of the ranges below its first as there are entries.
#[inline(always)]
fn show_ack(end: usize, ty: u16, ack: &Ack<'_>, gaps: &mut [CGap]) -> CFrame
    ensures { ShowsAck end ty ack.now gaps.old result gaps.new }
{
    let (first, below) = split_blocks(ack);
    show_ack_of(end, ty, ack, first, below, gaps)
}

// The words of a frame of this type at the front.
#[inline(always)]
pub(crate) fn show_front(end: usize, ty: u16, frame: &Frame<'_>, gaps: &mut [CGap]) -> CFrame
    ensures { ShowsFront end ty frame.now gaps.old result gaps.new }
{
    match frame {
        Frame::Ack(ack) => show_ack(end, ty, ack, gaps),
        _ => show(0, end, ty, frame),
    }
}

// Passes over the PADDING that follows a frame of PADDING, and answers where it ends; for another frame, where that
// ends.
#[inline(always)]
#[tactic(auto, using(crate::proofs::Filling::passed_payload))]
fn pass_run(iter: &mut Iter<'_>, frame: &Frame<'_>) -> usize
    ensures run { frame_kind_of frame.now ≡ 0 → (more : ℕ) × PassesPadding iter.old more iter.new }
    ensures one { 0 < frame_kind_of frame.now → iter.new ≡ iter.old }
    ensures end { result ≡ iter.new.offset }
    ensures within { result ≤ length iter.old.payload }
{
    if parts_of(frame).kind == 0 {
        iter.pass_padding();
    }
    iter.offset()
}

// Reports why the frame at the front isn't given.
pub(crate) fn refuse(invalid: &InvalidFrame, out: &mut CFrame) -> i64
    ensures reason { result ≡ failed (frame_failure invalid.now.reason.now) }
    ensures words { out.new ≡ invalid_words 0 (type_word invalid.now.ty) }
{
    *out = show_invalid(0, invalid);
    i64::from(frame_failure(invalid.reason).number())
}

// What is returned if there is no byte.
#[inline(always)]
fn none_left() -> i64
    ensures { result ≡ failed Failure.PayloadEmpty }
{
    i64::from(Failure::PayloadEmpty.number())
}

// Reads the frame at the front. There is a copy for each kind of first byte, without tests for other kinds.
#[inline(always)]
fn read_front<const COPY: usize, const CHECKED: bool>(
    payload: &[u8],
    rules: Rules,
    out: &mut CFrame,
    gaps: &mut [CGap],
) -> i64
    requires { CHECKED ≡ false → rules ≡ no_rules }
    ensures { AnswersRead rules payload.now out.old gaps.old result out.new gaps.new }
{
    if payload.is_empty() {
        return none_left();
    }
    let Some(mut iter) = Iter::resume(payload, 0, None, rules.short_types) else {
        return none_left();
    };
    match iter.next() {
        None => none_left(),
        Some(Ok(frame)) => {
            let breach = breach_by::<CHECKED>(rules, &frame);
            if is_broken(breach) {
                return refuse(&broken(iter.last_type(), breach), out);
            }
            let ty = type_read(&iter);
            let end = pass_run(&mut iter, &frame);
            *out = show_front(end, ty as u16, &frame, gaps);
            end as i64
        }
        Some(Err(plain)) => refuse(&reported_by::<CHECKED>(rules, &plain), out),
    }
}

// A frame where frames are checked, by a copy for ACK, which can break only the rule of short types, and one for the
// others.
#[inline(never)]
fn read_checked(payload: &[u8], flags: u32, out: &mut CFrame, gaps: &mut [CGap]) -> i64
    ensures { AnswersRead (rules_in flags) payload.now out.old gaps.old result out.new gaps.new }
{
    let rules = Rules::of_flags(flags);
    match payload.first() {
        Some(0x02 | 0x03) => read_front::<2, true>(payload, rules, out, gaps),
        _ => read_front::<3, true>(payload, rules, out, gaps),
    }
}

// The same where they aren't.
#[inline(never)]
fn read_unchecked(payload: &[u8], out: &mut CFrame, gaps: &mut [CGap]) -> i64
    ensures { AnswersRead no_rules payload.now out.old gaps.old result out.new gaps.new }
{
    let rules = Rules::default();
    match payload.first() {
        Some(0x02 | 0x03) => read_front::<0, false>(payload, rules, out, gaps),
        _ => read_front::<1, false>(payload, rules, out, gaps),
    }
}

// Any frame at the front, also one that breaks a rule, or the reason why there is none.
#[inline(never)]
pub(crate) fn read_any(payload: &[u8], flags: u32, out: &mut CFrame, gaps: &mut [CGap]) -> i64
    ensures { AnswersRead (rules_in flags) payload.now out.old gaps.old result out.new gaps.new }
{
    match no_rules(flags) {
        Some(_) => read_unchecked(payload, out, gaps),
        None => read_checked(payload, flags, out, gaps),
    }
}

/// Reads the frame at the front of the rest of a payload (RFC 9000, section 19), by the rules of these flags. It
/// returns where the frame ends, with its words, whose places count from this front; a run of PADDING, each byte of
/// which is a frame, is one. The ranges of an ACK below the first are filled into `gaps` as gap and length, as many as
/// there is room for; the offset of data is how many were filled, and `flags` has 4 if there are more. It returns
/// `PayloadEmpty` exactly if nothing is left; the reason, with the type in `out`, if the bytes don't begin with a valid
/// frame or begin with one that breaks a rule. `out` doesn't change with `PayloadEmpty`, and `gaps` changes only for an
/// ACK.
#[unsafe(no_mangle)]
pub extern "C" fn quic_wire_frame_read_(
    payload: &[u8],
    flags: u32,
    out: &mut CFrame,
    gaps: &mut [CGap],
) -> i64
    ensures answers { AnswersRead (rules_in flags) payload.now out.old gaps.old result out.new gaps.new }
{
    read_by_kind(payload, flags, out, gaps)
}

/// A payload can be read frame by frame, each at the front of what is left: what an iterator gives from a place on is
/// what it gives for the bytes from there on alone, with places that count from the payload's front. If the bytes end
/// within a type, so that no type can be read, the iterator reports the type before.
pub fn read_on()
    ensures { (strict : Bool) (offset : ℕ) (before : Option ℕ) (payload : List ℕ)
        → left (resumed payload offset before strict)
        ≡ reported_behind before (map (moved_by offset) (left (first_of strict (drop offset payload)))) }
{}
