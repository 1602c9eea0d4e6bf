//! The frames of a payload, read with rules.
ghost use Rattle.std.specs.Prelude.{◌≡◌, ◌<◌, ◌≤◌, ◌↔◌, [], IfErr, IfOk, IfSome, IsErr, IsNone, codes, length};
ghost use Rattle.quic_base.specs.One.{ExactlyOne, ReturnsOne};
ghost use Rattle.quic_errors.specs.Codes.{IsError, protocol_violation};
ghost use Rattle.quic_frame_fields.specs.Payload.{Reading, IsReadingOf};
ghost use Rattle.quic_frames.specs.Checking.{checked_at, checked_first, IsCheckedLeft};
ghost use Rattle.quic_frames.specs.Rules.{Checked as CheckedReading, IsCheckedOf, checked_count, no_rules, unchecked};
ghost use Rattle.quic_frames.specs.Walk.{reported_of};

use super::rules::Rules;
use super::{Frame, FrameType, InvalidFrame, Iter};
use crate::laws::{checked_readings, lasting, one_reading};
use crate::transport_error::Error;
use quic_base::coding::are_bytes;
use std::marker::Model;

/// Reads a payload frame by frame, and checks each frame against rules. Contracts see the rules and the iterator's
/// state.
#[derive(Drop)]
pub struct Checked<'a> {
    rules: Rules,
    iter: Iter<'a>,
}

impl<'a> Model for Checked<'a> {
    ghost use Rattle.quic_frames.specs.Checking.{CheckedState};

    ghost Value = { CheckedState };

    ghost view = { λ c. record { rules = c.rules; place = c.iter } };
}

impl<'a> Iter<'a> {
    /// The frames of a payload, each checked against `rules`. The first that breaks a rule is an error, with its type
    /// and `limit exceeded`, `malformed` or `invalid frame ID`; nothing follows it. An empty payload is the error
    /// `PROTOCOL_VIOLATION` (RFC 9000, section 12.4). It doesn't allocate.
    pub fn with_rules(payload: &'a [u8], rules: Rules) -> Result<Checked<'a>, Error>
        ensures empty { IsErr result ↔ (payload.now ≡ []) }
        ensures refusal { IfErr result (λ e. IsError e protocol_violation (codes "packet payload is empty")) }
        ensures first { IfOk result (λ it. it ≡ checked_first rules payload.now) }

        // Each payload has one reading under given rules: the one without rules, up to the first frame that breaks one.
        ensures one { ExactlyOne (IsCheckedOf rules payload.now) }

        // That is what the iterator returns,
        ensures gives { IfOk result (λ it. (reading : CheckedReading) → IsCheckedOf rules payload.now reading
            → IsCheckedLeft it reading) }

        // and it has at most as many items as the payload has bytes.
        ensures few { (reading : CheckedReading) → IsCheckedOf rules payload.now reading
            → checked_count reading ≤ length payload.now }
    {
        let iter = Iter::begin(payload, rules.short_types)?;
        Ok(Checked { rules, iter })
    }
}

impl<'a> Checked<'a> {
    /// An iterator like that of `Iter::with_rules`, from a later offset on, as `Iter::resume` has it: `offset` is the
    /// end of a whole frame, in bytes, and `last` its type. `None` exactly when the offset is past the payload's end.
    /// Bytes before it aren't read. It doesn't allocate.
    pub fn resume(
        payload: &'a [u8],
        offset: usize,
        last: Option<FrameType>,
        rules: Rules,
    ) -> Option<Self>
        ensures past { IsNone result ↔ (length payload.now < offset) }
        ensures state { IfSome result (λ it. it ≡ checked_at rules payload.now offset last) }
    {
        let iter = Iter::resume(payload, offset, last, rules.short_types)?;
        Some(Checked { rules, iter })
    }

    /// The end of the last whole frame in the payload that broke no rule, in bytes.
    pub fn offset(&self) -> usize
        ensures value { result ≡ self.now.place.offset }
        ensures within { result ≤ length self.now.place.payload }
    {
        self.iter.offset()
    }
}

/// Returns each frame, then one `InvalidFrame` if the rest isn't a valid frame or the next one breaks a rule, then
/// nothing. It doesn't allocate. Frames borrow as those of `Iter` do.
impl<'a> Iterator for Checked<'a> {
    ghost use Rattle.std.specs.Iterator.{at_most};
    ghost use Rattle.quic_frames.specs.Checking.{AdvancesBy};
    ghost use Rattle.quic_frames.specs.Walk.{bytes_left};

    type Item = Result<Frame<'a>, InvalidFrame>;

    ghost next_gives = { AdvancesBy };

    ghost remaining = { λ c. at_most (bytes_left c.place) };

    fn next(&mut self) -> Option<Result<Frame<'a>, InvalidFrame>> {
        let (offset, last) = (self.iter.offset(), self.iter.last_type());
        match self.iter.next() {
            None => None,
            Some(Err(invalid)) => Some(Err(self.rules.reported(&invalid))),
            Some(Ok(frame)) => match self.rules.breach(&frame) {
                None => Some(Ok(frame)),
                Some(breach) => {
                    let ty = self.iter.last_type();
                    self.iter.end_at(offset, last);
                    Some(Err(InvalidFrame {
                        ty,
                        reason: breach.reason(),
                    }))
                }
            },
        }
    }
}

/// Reads a whole payload by rules, and returns the error of its reading, if it has one. The empty payload has none,
/// though `Iter::with_rules` rejects it. It doesn't allocate.
pub fn first_error(payload: &[u8], rules: Rules) -> Option<InvalidFrame>
    ensures { ReturnsOne (IsCheckedOf rules payload.now) (λ checked. reported_of result ≡ checked.error) }
{
    checked_readings();
    lasting();
    one_reading();
    are_bytes(payload);
    let Some(items) = Checked::resume(payload, 0, None, rules) else {
        unreachable!()
    };
    for item in items {
        match item {
            Ok(_frame) => {}
            Err(invalid) => return Some(invalid),
        }
    }
    None
}
