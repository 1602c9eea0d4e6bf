//! What is proved of loops over the calls: callers of exported functions, whose clauses are laws.
ghost use Rattle.std.specs.Prelude.{◌≡◌, ◌≢◌, ◌↔◌, ◌<◌, [], length};
ghost use Rattle.quic_base.specs.One.{ReturnsOne};
ghost use Rattle.quic_c_words.specs.Shown.{rules_in};
ghost use Rattle.quic_c.specs.Answers.{GivesFrameWords};
ghost use Rattle.quic_c.specs.Walks.{ShowsFrame, ShowsRun, StoresFrames, StoresRanges};
ghost use Rattle.quic_c_words.specs.declared.words.CFrameIter.{CFrameIter};
ghost use Rattle.quic_frame_fields.specs.Acks.{ranges_acked};
ghost use Rattle.quic_frame_fields.specs.declared.frame.ack.Ack.{Ack};
ghost use Rattle.quic_frames.specs.Rules.{IsCheckedOf};
ghost use Rattle.quic_frames.specs.declared.frame.Frame.TheVariants as frames;
ghost use Rattle.quic_frames.specs.declared.frame.rules.Rules.{Rules};
ghost use Rattle.quic_results.specs.Results.{failed};

use crate::acks::{quic_wire_ack_ranges_init_, quic_wire_ack_ranges_next_};
use crate::fill::{quic_wire_frames_fill_, quic_wire_frames_first_};
use crate::fill_ranges::quic_wire_ack_ranges_fill_;
use crate::frames::{quic_wire_frames_init_, quic_wire_frames_next_};
use quic_base::coding::are_bytes;
use quic_c_words::words::{CFrame, CFrameIter, CRange, CRangeIter};
use quic_frames::laws::{checked_readings, lasting, one_reading};
use quic_results::results::Failure;

/// What a walk stored.
#[derive(Clone, Copy)]
pub struct Walked {
    /// How many entries it filled.
    pub count: usize,
    /// What the last call returned: 1 if there was no more room.
    pub last: i32,
}

// An iterator that wasn't begun.
const UNSET: CFrameIter = CFrameIter {
    offset: 0,
    last_type: 0,
    ended: 0,
    flags: 0,
};

/// Stores the frames of a payload, read by the rules of these flags, until a call doesn't return 1 or there is no more
/// room. Then these are exactly the frames that the payload has by these rules, from its front on, with their offsets,
/// and the last result is its error, or 0 exactly if it has none.
pub fn walk_next(payload: &[u8], flags: u32, out: &mut [CFrame]) -> Walked
    ensures empty { (result.last ≡ failed Failure.PayloadEmpty) ↔ (payload.now ≡ []) }
    ensures same { result.last ≡ failed Failure.PayloadEmpty → out.new ≡ out.old }
    ensures one { payload.now ≢ [] → ReturnsOne (IsCheckedOf (rules_in flags) payload.now)
        (StoresFrames (ShowsFrame (rules_in flags).short_types payload.now) out.old result.count result.last out.new) }
{
    one_reading();
    lasting();
    checked_readings();
    are_bytes(payload);
    let mut frames = UNSET;
    let begun = quic_wire_frames_init_(&mut frames, payload, flags);
    if begun != 0 {
        return Walked {
            count: 0,
            last: begun,
        };
    }
    let mut count = 0;
    while count < out.len() {
        let last = quic_wire_frames_next_(&mut frames, payload, &mut out[count]);
        if last != 1 {
            return Walked { count, last };
        }
        count += 1;
    }
    Walked { count, last: 1 }
}

/// The same with as many frames for each call as there is room for; one entry for a run of PADDING.
pub fn walk_fill(payload: &[u8], flags: u32, out: &mut [CFrame]) -> Walked
    ensures empty { (result.last ≡ failed Failure.PayloadEmpty) ↔ (payload.now ≡ []) }
    ensures room { (result.last ≡ failed Failure.NoRoom) ↔ ((0 < length payload.now) × (out.old ≡ [])) }
    ensures same { result.last ≡ failed Failure.PayloadEmpty → out.new ≡ out.old }
    ensures one { payload.now ≢ [] → out.old ≢ [] → ReturnsOne (IsCheckedOf (rules_in flags) payload.now)
        (StoresFrames (ShowsRun (rules_in flags).short_types payload.now) out.old result.count result.last out.new) }
{
    one_reading();
    lasting();
    checked_readings();
    are_bytes(payload);
    let mut frames = UNSET;
    let mut count = 0;
    let first = quic_wire_frames_first_(&mut frames, payload, flags, out, &mut count);
    if first != 1 {
        return Walked { count, last: first };
    }
    while count < out.len() {
        let mut more = 0;
        let last = quic_wire_frames_fill_(&mut frames, payload, &mut out[count..], &mut more);
        if last != 1 {
            return Walked { count, last };
        }
        count += more;
    }
    Walked { count, last: 1 }
}

// Ranges that weren't begun.
const NO_RANGES: CRangeIter = CRangeIter {
    offset: 0,
    left: 0,
    largest: 0,
};

/// Stores the ranges of an ACK that `quic_wire_frames_next_` returned, from the words that it stored, until a call
/// doesn't return 1 or there is no more room. They are exactly the ranges that the ACK acknowledges, in order, and then
/// 0 is returned.
pub fn walk_ranges(payload: &[u8], frame: &CFrame, out: &mut [CRange]) -> Walked
    ensures { (rules : Rules) (old new : CFrameIter) (ack : Ack)
        → (given : GivesFrameWords rules old payload.now new frame.now) → given.frame ≡ frames.Ack ack
        → StoresRanges (ranges_acked ack) out.old result.count result.last out.new }
{
    let mut ranges = NO_RANGES;
    let begun = quic_wire_ack_ranges_init_(&mut ranges, payload, frame);
    if begun != 0 {
        return Walked {
            count: 0,
            last: begun,
        };
    }
    let mut count = 0;
    while count < out.len() {
        let last = quic_wire_ack_ranges_next_(&mut ranges, payload, &mut out[count]);
        if last != 1 {
            return Walked { count, last };
        }
        count += 1;
    }
    Walked { count, last: 1 }
}

/// The same with as many ranges for each call as there is room for.
pub fn walk_ranges_fill(payload: &[u8], frame: &CFrame, out: &mut [CRange]) -> Walked
    ensures { (rules : Rules) (old new : CFrameIter) (ack : Ack)
        → (given : GivesFrameWords rules old payload.now new frame.now) → given.frame ≡ frames.Ack ack
        → StoresRanges (ranges_acked ack) out.old result.count result.last out.new }
{
    let mut ranges = NO_RANGES;
    let begun = quic_wire_ack_ranges_init_(&mut ranges, payload, frame);
    if begun != 0 {
        return Walked {
            count: 0,
            last: begun,
        };
    }
    let mut count = 0;
    while count < out.len() {
        let mut more = 0;
        let last = quic_wire_ack_ranges_fill_(&mut ranges, payload, &mut out[count..], &mut more);
        if last != 1 {
            return Walked { count, last };
        }
        count += more;
    }
    Walked { count, last: 1 }
}
