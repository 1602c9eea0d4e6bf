//! The shortest payload of those that mean the same.
ghost use Rattle.std.specs.Prelude.{◌≡◌, ◌≢◌, ◌+◌, ◌-◌, ◌<◌, ◌≤◌, ◌==◌, ◌++◌, ℕ, List, [], length, map, OnOk, OnErr, IfOk, IfErr, IsOk, vec_len, vec_capacity, false};
ghost use Rattle.quic_frames.specs.InRange.{CanStand};
ghost use Rattle.quic_frames.specs.Least.{frame_in, shortest_frames};
ghost use Rattle.quic_frames.specs.Meaning.{meaning_of};
ghost use Rattle.quic_frame_fields.specs.Payload.{TypedFrame, AreFrames};
ghost use Rattle.quic_frame_fields.specs.Shortest.{shortest_frame};
ghost use Rattle.quic_canon.specs.Bytes.{GivesLeast};
ghost use Rattle.quic_canon.specs.Front.{IsFront};
ghost use Rattle.quic_canon.specs.Least.{IsLeast};
ghost use Rattle.quic_canon.specs.Refusal.{IsAccepted, IsRefused, IsRefusedBy, IsWrong, AppendsLeast};

use crate::laws::one_least;
use quic_base::coding::are_bytes;
use quic_frames::frame::{Frame, InvalidFrame, Iter, Rules, first_error};
use quic_frames::laws::{least_encoding, one_reading, read_back};
use std::alloc::{AllocError, Global};
use thiserror::Error;

/// Why there is no canonical payload.
#[derive(Clone, Copy, Debug, PartialEq, Eq, Error)]
pub enum CanonError {
    /// The payload has no frame.
    #[error("packet payload is empty")]
    Empty,
    /// The payload has an invalid frame.
    #[error("{0}")]
    Invalid(InvalidFrame),
    /// The vector couldn't grow.
    #[error("out of memory")]
    OutOfMemory,
}

// Reads a whole payload, and returns how many bytes at its front are frames in their shortest encodings.
fn shortest_front(payload: &[u8]) -> Result<usize, CanonError>
    ensures ok { IfOk result (λ n. IsFront payload.now n) }
    ensures err { IfErr result (λ e. IsWrong payload.now e) }
{
    one_reading();
    least_encoding();
    read_back();
    let Ok(mut iter) = Iter::new(payload) else {
        return Err(CanonError::Empty);
    };
    let mut front = 0;
    let mut start = 0;
    while let Some(item) = iter.next() {
        let frame = match item {
            Ok(frame) => frame,
            Err(invalid) => return Err(CanonError::Invalid(invalid)),
        };
        let stop = iter.offset();
        let is_last = stop == payload.len();
        if front == start && is_shortest(&frame, is_last, stop - start) {
            front = stop;
        }
        // After a frame of one byte, such as PADDING, all PADDING that follows is skipped at once.
        if stop - start == 1 {
            iter.pass_padding();
            start = iter.offset();
            if front == stop {
                front = start;
            }
        } else {
            start = stop;
        }
    }
    Ok(front)
}

// Whether the frame's shortest encoding has `len` bytes; it never has more. A frame of one byte, like PADDING, is
// always the shortest.
#[inline(always)]
#[tactic(auto, using(crate::proofs::Spans::one_byte))]
fn is_shortest(frame: &Frame<'_>, last: bool, len: usize) -> bool
    requires stands { CanStand last frame.now }
    requires small { length (shortest_frame last (meaning_of frame.now)) ≤ len }
    ensures { result ≡ (length (shortest_frame last (meaning_of frame.now)) == len) }
{
    len == 1 || frame.encoded_len(last) == len as u128
}

// Appends bytes for which there is room.
fn copy(bytes: &[u8], out: &mut Vec<u8>)
    requires { vec_len out.old + length bytes.now ≤ vec_capacity out.old }
    ensures items { out.new.items ≡ out.old.items ++ bytes.now }
    ensures capacity { vec_capacity out.old ≤ vec_capacity out.new }
{
    let Ok(()) = out.extend_from_slice(bytes) else {
        unreachable!()
    };
}

// Appends the shortest encoding of a frame, for which there is room.
fn write(frame: &Frame<'_>, last: bool, out: &mut Vec<u8>)
    requires stands { CanStand last frame.now }
    requires room { vec_len out.old + length (shortest_frame last (meaning_of frame.now)) ≤ vec_capacity out.old }
    ensures items { out.new.items ≡ out.old.items ++ shortest_frame last (meaning_of frame.now) }
    ensures capacity { vec_capacity out.old ≤ vec_capacity out.new }
{
    let Ok(()) = frame.encode(last, out) else {
        unreachable!()
    };
}

// Appends the frames of a payload in their shortest encodings, for which there is room. Consecutive frames that are
// already in their shortest encodings are copied together.
fn rewrite(payload: &[u8], out: &mut Vec<u8>)
    requires some { payload.now ≢ [] }
    requires whole { (found : List TypedFrame) × AreFrames false found payload.now }
    requires room { vec_len out.old + length payload.now ≤ vec_capacity out.old }
    ensures { (found : List TypedFrame) → AreFrames false found payload.now
        → out.new.items ≡ out.old.items ++ shortest_frames (map frame_in found) }
{
    one_reading();
    least_encoding();
    read_back();
    let Ok(mut iter) = Iter::new(payload) else {
        unreachable!()
    };
    let mut from = 0;
    let mut start = 0;
    while let Some(item) = iter.next() {
        let Ok(frame) = item else { unreachable!() };
        let stop = iter.offset();
        let is_last = stop == payload.len();
        if !is_shortest(&frame, is_last, stop - start) {
            copy(&payload[from..start], out);
            write(&frame, is_last, out);
            from = stop;
        }
        // After a frame of one byte, such as PADDING, all PADDING that follows is skipped at once.
        if stop - start == 1 {
            iter.pass_padding();
        }
        start = iter.offset();
    }
    copy(&payload[from..], out);
}

// Appends the shortest payload, for which there is room. The caller passes how many of the first bytes are copied.
fn write_least(payload: &[u8], front: usize, out: &mut Vec<u8>)
    requires front { IsFront payload.now front }
    requires room { vec_len out.old + length payload.now ≤ vec_capacity out.old }
    ensures { AppendsLeast out.old.items out.new.items payload.now }
{
    one_least();
    let (same, rest) = payload.split_at(front);
    copy(same, out);
    if !rest.is_empty() {
        rewrite(rest, out);
    }
}

/// Appends the shortest payload with the same meaning. The payload is read first; then room for that many bytes is
/// reserved at once. If that fails, or if the payload is empty or invalid, `out` doesn't change. It doesn't allocate
/// for an invalid payload.
pub fn canonical(payload: &[u8], out: &mut Vec<u8>) -> Result<(), CanonError>
    ensures ok { OnOk result (AppendsLeast out.old.items out.new.items payload.now) }
    ensures err { IfErr result (λ e. IsRefused payload.now e) }
    ensures kept { OnErr result (out.new.items ≡ out.old.items) }
    ensures capacity { OnErr result (vec_capacity out.new ≡ vec_capacity out.old) }
    ensures unread { IfErr result (λ e. (e ≢ CanonError.OutOfMemory) → out.new ≡ out.old) }
    ensures room { vec_len out.old + length payload.now ≤ vec_capacity out.old
        → IfErr result (λ e. IsWrong payload.now e) }
{
    let stays = match shortest_front(payload) {
        Ok(stays) => stays,
        Err(e) => return Err(e),
    };
    if out.reserve(payload.len()).is_err() {
        return Err(CanonError::OutOfMemory);
    }
    write_least(payload, stays, out);
    Ok(())
}

/// Appends what `canonical` does, if the payload has no error under the rules (`Iter::with_rules`); what is appended
/// then has none either (`laws::least_by_rules`). The payload is read twice. An error is reported as that iterator
/// does, and `out` doesn't change.
pub fn canonical_with(payload: &[u8], rules: Rules, out: &mut Vec<u8>) -> Result<(), CanonError>
    ensures ok { OnOk result (AppendsLeast out.old.items out.new.items payload.now) }
    ensures accepted { OnOk result (IsAccepted rules payload.now) }
    ensures err { IfErr result (λ e. IsRefusedBy rules payload.now e) }
    ensures kept { OnErr result (out.new.items ≡ out.old.items) }
    ensures capacity { OnErr result (vec_capacity out.new ≡ vec_capacity out.old) }
    ensures unread { IfErr result (λ e. (e ≢ CanonError.OutOfMemory) → out.new ≡ out.old) }
    ensures room { vec_len out.old + length payload.now ≤ vec_capacity out.old
        → IfErr result (λ e. e ≢ CanonError.OutOfMemory) }
{
    one_reading();
    are_bytes(payload);
    if payload.is_empty() {
        return Err(CanonError::Empty);
    }
    match first_error(payload, rules) {
        Some(invalid) => Err(CanonError::Invalid(invalid)),
        None => canonical(payload, out),
    }
}

/// The shortest payload with the same meaning as a payload.
#[derive(Debug, Drop)]
pub enum CanonBytes<'a> {
    /// The payload itself.
    Same(&'a [u8]),
    /// A shorter one.
    Rewritten(Vec<u8>),
}

impl CanonBytes<'_> {
    ghost use Rattle.quic_canon.specs.Bytes.{canon_bytes};

    /// The bytes.
    pub fn bytes(&self) -> &[u8]
        ensures { result.now ≡ canon_bytes self.now }
    {
        match self {
            CanonBytes::Same(payload) => payload,
            CanonBytes::Rewritten(bytes) => bytes,
        }
    }
}

// The shortest payload in a new vector, in which room for the payload's length is reserved at once. The caller passes
// how many of the first bytes are copied. It isn't inlined, since a payload that is canonical doesn't need it.
#[inline(never)]
fn rewritten(alloc: Global, payload: &[u8], front: usize) -> Result<Vec<u8>, AllocError>
    requires { IsFront payload.now front }
    ensures { IfOk result (λ out. IsLeast out.items payload.now) }
{
    let mut out = Vec::new(alloc);
    out.reserve(payload.len())?;
    write_least(payload, front, &mut out);
    Ok(out)
}

/// Returns what `canonical` appends, without a copy and without an allocation if that is the payload itself. Otherwise
/// it reserves room for the payload's length at once. The errors are those of `canonical`.
pub fn canonical_of<'a>(alloc: Global, payload: &'a [u8]) -> Result<CanonBytes<'a>, CanonError>
    ensures ok { IfOk result (λ bytes. GivesLeast payload.now bytes) }
    ensures err { IfErr result (λ e. IsRefused payload.now e) }
    ensures same { IsLeast payload.now payload.now → IsOk result }
{
    one_least();
    let front = match shortest_front(payload) {
        Ok(front) => front,
        Err(e) => return Err(e),
    };
    if front == payload.len() {
        return Ok(CanonBytes::Same(payload));
    }
    let Ok(out) = rewritten(alloc, payload, front) else {
        return Err(CanonError::OutOfMemory);
    };
    Ok(CanonBytes::Rewritten(out))
}
