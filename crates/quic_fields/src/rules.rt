//! Where each field of a frame is that is read by rules, and the field of a frame that breaks one.
ghost use Rattle.std.specs.Prelude.{◌≡◌, ◌<◌, ◌≤◌, ◌+◌, ◌-◌, ◌^◌, None, IfSome, length, map, take};
ghost use Rattle.quic_frame_fields.specs.Reading.{varint_at};
ghost use Rattle.quic_fields.specs.Kinds.{field_of};
ghost use Rattle.quic_fields.specs.Rules.{broken_at, broken_walk, refusal_text, type_fault_at, FrontBreaks, FrontKeeps, HasSpansBy, LacksSpansBy, StopsBy};
ghost use Rattle.quic_fields.specs.Walk.{stored, last_end};

use crate::field::{Reach, Seen, Span, Walked, number, put, walk};
use crate::frame::frame_spans;
use crate::laws::where_reading_stops;
use crate::row::{Kind, row};
use quic_base::varint::var_size;
use quic_frame_fields::frame::fault::Fault;
use quic_frames::frame::{Breach, Iter, Rules};

/// Why a frame is rejected.
#[derive(Clone, Copy, Debug, PartialEq, Eq)]
pub enum Refusal {
    /// No frame that the rules know begins the bytes.
    NoFrame(Fault),
    /// One does, and breaks a rule.
    Broken(Breach),
}

impl Refusal {
    /// The text of the reason.
    pub fn reason(self) -> &'static str
        ensures { result.now ≡ refusal_text self }
    {
        match self {
            Refusal::NoFrame(fault) => fault.reason(),
            Refusal::Broken(breach) => breach.reason(),
        }
    }
}

// Why a type is rejected that can be read, whatever follows it: it isn't in its shortest encoding, or its extension
// wasn't negotiated.
fn type_fault(rules: Rules, payload: &[u8]) -> Option<Fault>
    ensures { result ≡ type_fault_at rules (length payload.now) (varint_at payload.now) }
{
    let Ok((ty, rest)) = number(payload) else {
        return None;
    };
    if rules.short_types && payload.len().saturating_sub(rest.len()) != var_size(ty) {
        return Some(Fault::LongType);
    }
    if rules.no_ack_frequency && (ty == 0x1f || ty == 0xaf) {
        return Some(Fault::InvalidFrameId);
    }
    None
}

// The rule that the frame at the front breaks, however its type is encoded.
fn breach_at(rules: Rules, payload: &[u8]) -> Option<Breach>
    ensures breaks { IfSome result (λ breach. FrontBreaks rules payload.now breach) }
    ensures keeps { result ≡ None → FrontKeeps rules payload.now }
{
    let Some(mut iter) = Iter::resume(payload, 0, None, false) else {
        return None;
    };
    match iter.next() {
        Some(Ok(frame)) => rules.breach(&frame),
        Some(Err(_)) => None,
        None => None,
    }
}

// The index of the last field in a row that has a number.
fn number_index(kinds: &[Kind]) -> usize
    requires few { length kinds.now < 2 ^ 32 }
    ensures index { result ≡ broken_at (map field_of kinds.now) }
    ensures some { 1 ≤ result }
    ensures within { result ≤ 1 + length kinds.now }
{
    let Some((_, others)) = kinds.split_first() else {
        return 1;
    };
    match others.split_first() {
        None => 1,
        Some((Kind::Rest, _)) => 1,
        Some(_) => 1 + number_index(others),
    }
}

// The kinds before the last field that has a number.
fn before_number(kinds: &[Kind]) -> &[Kind]
    requires few { length kinds.now < 2 ^ 32 }
    ensures fields { map field_of result.now
        ≡ take (broken_at (map field_of kinds.now) - 1) (map field_of kinds.now) }
    ensures fewer { length result.now ≤ length kinds.now }
{
    &kinds[..number_index(kinds) - 1]
}

// Stores the fields of a frame before the last one that has a number.
fn walk_broken(payload: &[u8], room: &mut [Span]) -> Reach
    ensures spans { room.new ≡ stored 0 (broken_walk payload.now) room.old }
    ensures count { result.count ≡ length (broken_walk payload.now) }
    ensures end { result.end ≡ last_end 0 (broken_walk payload.now) }
    ensures inside { result.inside ≡ 0 }
    ensures numbers { result.numbers ≡ 0 }
{
    let none = Reach {
        count: 0,
        end: 0,
        inside: 0,
        numbers: 0,
    };
    let (ty, rest) = match number(payload) {
        Ok(read) => read,
        Err(_) => return none,
    };
    let Some(kinds) = row(ty) else {
        return none;
    };
    let end = payload.len().saturating_sub(rest.len());
    put(
        room,
        0,
        Span {
            field: 0,
            start: 0,
            end,
            number: ty,
        },
    );
    let walked = walk(before_number(kinds), 1, end, Seen::Nothing, rest, room);
    Reach {
        count: walked.count,
        end: walked.end,
        inside: 0,
        numbers: 0,
    }
}

/// How far fields were read, without the reason why not further.
pub fn reach_of(walked: Walked) -> Reach
    ensures count { result.count ≡ walked.count }
    ensures end { result.end ≡ walked.end }
    ensures inside { result.inside ≡ walked.inside }
    ensures numbers { result.numbers ≡ walked.numbers }
{
    Reach {
        count: walked.count,
        end: walked.end,
        inside: walked.inside,
        numbers: walked.numbers,
    }
}

/// As `frame_spans`, and by rules: a frame that breaks one is rejected, and the field of that rule is at fault. That is
/// the type, if it isn't in its shortest encoding or its extension wasn't negotiated (RFC 9000, section 12.4); the
/// token's length, if the token is empty (section 19.7); the number of streams, if there are too many (sections 19.11
/// and 19.14); and the length of data that end too far, or their offset if they have no length (sections 19.6 and
/// 19.8). It doesn't allocate.
pub fn frame_spans_by(rules: Rules, payload: &[u8], room: &mut [Span]) -> (Option<Refusal>, Reach)
    ensures ok { result.0 ≡ None
        → HasSpansBy rules payload.now room.old room.new result.1.count result.1.end }
    ensures err { IfSome result.0
        (λ reason. LacksSpansBy rules payload.now room.old room.new result.1.count result.1.end reason) }
    ensures inside { StopsBy result.0 payload.now result.1.count result.1.end (result.1.inside, result.1.numbers) }
{
    where_reading_stops();
    if let Some(fault) = type_fault(rules, payload) {
        let none = Reach {
            count: 0,
            end: 0,
            inside: 0,
            numbers: 0,
        };
        return (Some(Refusal::NoFrame(fault)), none);
    }
    if let Some(breach) = breach_at(rules, payload) {
        return (Some(Refusal::Broken(breach)), walk_broken(payload, room));
    }
    let walked = frame_spans(payload, room);
    match walked.fault {
        Some(fault) => (Some(Refusal::NoFrame(fault)), reach_of(walked)),
        None => (None, reach_of(walked)),
    }
}
