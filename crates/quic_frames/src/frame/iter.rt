//! The frames of a payload, one after the other.
ghost use Rattle.std.specs.Prelude.{◌≡◌, ◌<◌, ◌≤◌, ◌↔◌, ℕ, [], ◌∷◌, None, IfErr, IfOk, IfSome, IsErr, IsNone, IsTrue, codes, true, false, drop, length, slice_index};
ghost use Rattle.quic_base.specs.Number.{AreBytes};
ghost use Rattle.quic_base.specs.One.{ExactlyOne};
ghost use Rattle.quic_errors.specs.Codes.{IsError, protocol_violation};
ghost use Rattle.quic_frame_fields.specs.Payload.{Reading, IsReadingOf, item_count};
ghost use Rattle.quic_frames.specs.Padding.{PassesPadding};
ghost use Rattle.quic_frames.specs.Walk.{first_of, resumed, IsLeft, BeginsWalk};

use super::found::read_typed_frame;
use super::{Frame, FrameType, InvalidFrame};
use crate::transport_error::Error;
use std::marker::Model;

/// Reads a payload frame by frame. Contracts see whether types must be in their shortest encodings, the payload, the
/// end of the last whole frame, the last type that was read, and whether an invalid frame was met.
#[derive(Drop)]
pub struct Iter<'a> {
    strict: bool,
    payload: &'a [u8],
    offset: usize,
    last: Option<FrameType>,
    is_broken: bool,
}

impl<'a> Model for Iter<'a> {
    ghost use Rattle.std.specs.Prelude.{◌≤◌, length};
    ghost use Rattle.quic_frames.specs.IterState.{IterState};

    ghost Value = { IterState };

    ghost view = { λ it. record
        { strict = it.strict; payload = it.payload.now; offset = it.offset; last = it.last; is_broken = it.is_broken } };

    ghost invariant = { λ it. it.offset ≤ length it.payload.now };
}

impl<'a> Iter<'a> {
    /// The frames of a payload. An empty one is the error `PROTOCOL_VIOLATION` (RFC 9000, section 12.4). It doesn't
    /// allocate.
    pub fn new(payload: &'a [u8]) -> Result<Self, Error>
        ensures empty { IsErr result ↔ (payload.now ≡ []) }
        ensures refusal { IfErr result (λ e. IsError e protocol_violation (codes "packet payload is empty")) }
        ensures first { IfOk result (λ it. it ≡ first_of false payload.now) }

        // Each payload has one reading: frames to its end, or frames up to an error, with its type and reason.
        ensures one { ExactlyOne (IsReadingOf false payload.now) }

        // That is what the iterator returns,
        ensures gives { IfOk result (λ it. (reading : Reading) → IsReadingOf false payload.now reading
            → IsLeft it reading) }

        // and it has at most as many items as the payload has bytes.
        ensures few { (reading : Reading) → IsReadingOf false payload.now reading
            → item_count reading ≤ length payload.now }
    {
        Iter::begin(payload, false)
    }

    /// The same, but a frame type that is not in its shortest encoding is an error (RFC 9000, section 12.4), which is
    /// reported as soon as the type is read. Other fields may have any width.
    pub fn strict(payload: &'a [u8]) -> Result<Self, Error>
        ensures empty { IsErr result ↔ (payload.now ≡ []) }
        ensures refusal { IfErr result (λ e. IsError e protocol_violation (codes "packet payload is empty")) }
        ensures first { IfOk result (λ it. it ≡ first_of true payload.now) }
        ensures one { ExactlyOne (IsReadingOf true payload.now) }
        ensures gives { IfOk result (λ it. (reading : Reading) → IsReadingOf true payload.now reading
            → IsLeft it reading) }
        ensures few { (reading : Reading) → IsReadingOf true payload.now reading
            → item_count reading ≤ length payload.now }
    {
        Iter::begin(payload, true)
    }

    // `new`, or `strict` if the flag is set.
    pub(super) fn begin(payload: &'a [u8], strict: bool) -> Result<Self, Error>
        ensures { BeginsWalk strict payload.now result }
    {
        if payload.is_empty() {
            return Err(Error::PROTOCOL_VIOLATION("packet payload is empty"));
        }
        Ok(Iter {
            strict,
            payload,
            offset: 0,
            last: None,
            is_broken: false,
        })
    }

    /// An iterator like that of `new` or, if `strict` is true, of `strict`, from a later offset on: the end of a whole
    /// frame, in bytes. `last` is the type of that frame, which is reported if the next type is cut off. `None` exactly
    /// when the offset is past the payload's end. Bytes before it aren't read. It doesn't allocate.
    pub fn resume(
        payload: &'a [u8],
        offset: usize,
        last: Option<FrameType>,
        strict: bool,
    ) -> Option<Self>
        ensures past { IsNone result ↔ (length payload.now < offset) }
        ensures state { IfSome result (λ it. it ≡ resumed payload.now offset last strict) }
    {
        if offset > payload.len() {
            return None;
        }
        Some(Iter {
            strict,
            payload,
            offset,
            last,
            is_broken: false,
        })
    }

    /// The type of the last frame that was returned, as it is in the payload.
    pub fn last_type(&self) -> Option<FrameType>
        ensures { result ≡ self.now.last }
    {
        self.last
    }

    /// Skips the PADDING frames that come next, each a byte of 0, and returns how many they are (RFC 9000, section
    /// 19.1). After an invalid frame it returns 0. It doesn't allocate.
    #[inline(always)]
    pub fn pass_padding(&mut self) -> usize
        ensures { PassesPadding self.old result self.new }
    {
        if self.is_broken {
            return 0;
        }
        let count = zeros(&self.payload[self.offset..]);
        if count > 0 {
            self.offset += count;
            self.last = Some(FrameType::PADDING);
        }
        count
    }

    // Goes back to an offset after a frame of this type, and returns nothing from there on.
    pub(super) fn end_at(&mut self, offset: usize, last: Option<FrameType>)
        requires { offset ≤ length self.old.payload }
        ensures { self.new ≡ record self.old { offset = offset; last = last; is_broken = true } }
    {
        self.offset = offset;
        self.last = last;
        self.is_broken = true;
    }

    /// The end of the last whole frame in the payload, in bytes.
    pub fn offset(&self) -> usize
        ensures value { result ≡ self.now.offset }
        ensures within { result ≤ length self.now.payload }
    {
        self.offset
    }
}

// Whether the bytes begin with a byte of PADDING.
#[inline(always)]
fn is_padding(bytes: &[u8]) -> bool
    ensures front { IsTrue result ↔ (bytes.now ≡ 0 ∷ drop 1 bytes.now) }
    ensures bytes { AreBytes bytes.now }
{
    match bytes.first() {
        Some(first) => *first == 0,
        None => false,
    }
}

// How many bytes of 0 the bytes begin with: eight at a time, and then one by one.
#[inline(always)]
fn zeros(bytes: &[u8]) -> usize
    ensures within { result ≤ length bytes.now }
    ensures each { (k : ℕ) → k < result → slice_index bytes.now k ≡ 0 }
    ensures over { result < length bytes.now → 0 < slice_index bytes.now result }
    ensures bytes { AreBytes bytes.now }
{
    let mut count = 0;
    while let Some(word) = bytes[count..].first_chunk::<8>() {
        if u64::from_le_bytes(*word) != 0 {
            break;
        }
        count += 8;
    }
    while count < bytes.len() && bytes[count] == 0 {
        count += 1;
    }
    count
}

/// Returns each frame, then one `InvalidFrame` if the rest isn't a valid frame, then nothing. It doesn't allocate. The
/// bytes in a frame are a slice of the payload that ends at `offset`; those of an ACK's blocks come after its type, its
/// greatest number, its delay and the count of its ranges (RFC 9000, section 19.3).
impl<'a> Iterator for Iter<'a> {
    ghost use Rattle.std.specs.Iterator.{at_most};
    ghost use Rattle.quic_frames.specs.Walk.{bytes_left, Advances};

    type Item = Result<Frame<'a>, InvalidFrame>;

    ghost next_gives = { Advances };

    ghost remaining = { λ it. at_most (bytes_left it) };

    #[inline(always)]
    fn next(&mut self) -> Option<Result<Frame<'a>, InvalidFrame>> {
        let rest = &self.payload[self.offset..];
        if self.is_broken || rest.is_empty() {
            return None;
        }
        // PADDING often comes in runs, a frame for each byte, so it is checked for first. The offset moves on by one.
        if is_padding(rest) {
            self.last = Some(FrameType::PADDING);
            self.offset += 1;
            return Some(Ok(Frame::Padding));
        }
        match read_typed_frame(self.strict, self.last, rest) {
            Ok(first) => {
                self.last = Some(first.ty);
                self.offset = self.payload.len() - first.rest.len();
                Some(Ok(first.frame))
            }
            Err(invalid) => {
                self.is_broken = true;
                Some(Err(invalid))
            }
        }
    }
}
