//! The shortest payload of each meaning, written into the caller's bytes.
ghost use Rattle.std.specs.Prelude.{◌≡◌, ◌≢◌, ◌+◌, ◌<◌, ◌≤◌, ◌⊎◌, ◌↔◌, ◌++◌, [], List, pos, length, map, take, drop, replicate, IfOk, IfErr, IsErr, None, false};
ghost use Rattle.quic_frame_fields.specs.Payload.{TypedFrame, AreFrames};
ghost use Rattle.quic_frame_fields.specs.Shortest.{shortest_frame};
ghost use Rattle.quic_canon.specs.Refusal.{IsAccepted};
ghost use Rattle.quic_frames.specs.Flags.{rules_in};
ghost use Rattle.quic_frames.specs.InRange.{CanStand};
ghost use Rattle.quic_frames.specs.Least.{frame_in, shortest_frames};
ghost use Rattle.quic_frames.specs.Meaning.{meaning_of};
ghost use Rattle.quic_frames.specs.Walk.{invalid_of, first_of};
ghost use Rattle.quic_c_canon.specs.Answers.{type_word, GivesLeastLen, LeastNeedsMore, IsReportedOf, ReportsInvalidBy, ReportsInvalidPayload, HasLength};
ghost use Rattle.quic_results.specs.Results.{failed};

use crate::words::CCanon;
use quic_base::coding::are_bytes;
use quic_canon::laws::one_least;
use quic_frames::frame::{Frame, FrameType, InvalidFrame, Iter, Rules, first_error};
use quic_frames::laws::{least_encoding, one_reading, read_back};
use quic_results::results::{Failure, frame_failure};

// The number for a type, `u64::MAX` for none.
fn type_word(ty: Option<FrameType>) -> u64
    ensures { result ≡ type_word ty }
{
    match ty {
        Some(ty) => ty.into_inner(),
        None => u64::MAX,
    }
}

// How many bytes a frame has in its shortest encoding: at most as many as it has now.
#[inline(always)]
fn frame_len(frame: &Frame<'_>, last: bool, len: usize) -> usize
    requires stands { CanStand last frame.now }
    requires small { length (shortest_frame last (meaning_of frame.now)) ≤ len }
    ensures { result ≡ length (shortest_frame last (meaning_of frame.now)) }
{
    frame.encoded_len(last) as usize
}

// The frames of a payload, as `Iter::new` returns them. The error of `Iter::new` owns a text: code that may drop one
// calls the allocator, and WebAssembly has none.
fn begin(payload: &[u8]) -> Result<Iter<'_>, ()>
    ensures empty { IsErr result ↔ (payload.now ≡ []) }
    ensures first { IfOk result (λ it. it ≡ first_of false payload.now) }
{
    if payload.is_empty() {
        return Err(());
    }
    let Some(iter) = Iter::resume(payload, 0, None, false) else {
        unreachable!()
    };
    Ok(iter)
}

// Reads all of a payload, and counts how many bytes its frames have in their shortest encodings.
fn shortest_len(payload: &[u8]) -> Result<usize, InvalidFrame>
    requires { payload.now ≢ [] }
    ensures ok { IfOk result (λ n. HasLength payload.now n) }
    ensures err { IfErr result (λ i. IsReportedOf payload.now (invalid_of i)) }
{
    one_reading();
    least_encoding();
    read_back();
    let Ok(mut iter) = begin(payload) else {
        unreachable!()
    };
    let mut total = 0;
    let mut start = 0;
    while let Some(item) = iter.next() {
        let frame = match item {
            Ok(frame) => frame,
            Err(invalid) => return Err(invalid),
        };
        let stop = iter.offset();
        let is_last = stop == payload.len();
        let len = frame_len(&frame, is_last, stop - start);
        total += len;
        // After a frame of one byte, such as PADDING, all PADDING that follows is skipped at once.
        if stop - start == 1 {
            let count = iter.pass_padding();
            total += count;
        }
        start = iter.offset();
    }
    Ok(total)
}

// Stores a frame in its shortest encoding from `at` on, and returns the offset at which it ends.
#[inline(always)]
fn put(frame: &Frame<'_>, last: bool, dest: &mut [u8], at: usize) -> usize
    requires stands { CanStand last frame.now }
    requires room { at + length (shortest_frame last (meaning_of frame.now)) ≤ length dest.old }
    ensures end { result ≡ at + length (shortest_frame last (meaning_of frame.now)) }
    ensures bytes { dest.new ≡ take at dest.old
        ++ (shortest_frame last (meaning_of frame.now) ++ drop result dest.old) }
{
    match frame.encode_into(last, &mut dest[at..]) {
        Ok(n) => at + n,
        Err(_) => unreachable!(),
    }
}

// Stores `count` bytes of 0 from `at` on, and returns the offset at which they end.
fn pad(count: usize, dest: &mut [u8], at: usize) -> usize
    requires { at + count ≤ length dest.old }
    ensures end { result ≡ at + count }
    ensures bytes { dest.new ≡ take at dest.old ++ (replicate count 0 ++ drop result dest.old) }
{
    let end = at + count;
    dest[at..end].fill(0);
    end
}

// Stores the frames of a payload in their shortest encodings, for which there is room, at the front.
fn store(payload: &[u8], dest: &mut [u8])
    requires some { payload.now ≢ [] }
    requires whole { (found : List TypedFrame) × AreFrames false found payload.now }
    requires room { (found : List TypedFrame) → AreFrames false found payload.now
        → length (shortest_frames (map frame_in found)) ≤ length dest.old }
    ensures { (found : List TypedFrame) → AreFrames false found payload.now
        → dest.new ≡ shortest_frames (map frame_in found)
        ++ drop (length (shortest_frames (map frame_in found))) dest.old }
{
    one_reading();
    read_back();
    let Ok(mut iter) = begin(payload) else {
        unreachable!()
    };
    let mut at = 0;
    while let Some(item) = iter.next() {
        let Ok(frame) = item else { unreachable!() };
        let stop = iter.offset();
        let is_last = stop == payload.len();
        at = put(&frame, is_last, dest, at);
        // After PADDING, all PADDING that follows is skipped at once.
        if let Frame::Padding = frame {
            at = pad(iter.pass_padding(), dest, at);
        }
    }
}

// Writes the shortest form of a payload, which has `len` bytes, for which there is room, at the front. A payload of
// that length is its own shortest form, and is copied at once.
fn write(payload: &[u8], len: usize, dest: &mut [u8])
    requires known { HasLength payload.now len }
    requires room { len ≤ length dest.old }
    ensures { (found : List TypedFrame) → AreFrames false found payload.now
        → dest.new ≡ shortest_frames (map frame_in found)
        ++ drop (length (shortest_frames (map frame_in found))) dest.old }
{
    one_reading();
    least_encoding();
    if len == payload.len() {
        dest[..len].copy_from_slice(payload);
    } else {
        store(payload, dest);
    }
}

// What both calls do.
fn canonical(payload: &[u8], dest: &mut [u8], out: &mut CCanon) -> i32
    ensures { (result ≡ pos 0) × GivesLeastLen payload.now dest.old dest.new out.old out.new
        ⊎ (dest.new ≡ dest.old) × ((result ≡ failed Failure.NoRoom) × LeastNeedsMore payload.now dest.old out.old out.new
        ⊎ (result ≡ failed Failure.PayloadEmpty) × (payload.now ≡ []) × (out.new ≡ out.old)
        ⊎ ReportsInvalidPayload payload.now out.old result out.new) }
{
    one_least();
    if payload.is_empty() {
        return Failure::PayloadEmpty.number();
    }
    let len = match shortest_len(payload) {
        Ok(len) => len,
        Err(invalid) => {
            out.last_type = type_word(invalid.ty);
            return frame_failure(invalid.reason).number();
        }
    };
    out.len = len;
    if dest.len() < len {
        return Failure::NoRoom.number();
    }
    write(payload, len, dest);
    0
}

/// Writes the shortest payload with the same meaning at the front of `dest`: equal frames in the same order, each in
/// its shortest form; the last frame needs no length (RFC 9000, sections 12.4 and 19). It returns 0 and its length, and
/// the bytes after it don't change; `NoRoom` and the length if `dest` has less room; `PayloadEmpty` exactly when the
/// payload is empty; `FrameEnd`, `FrameType` or `FrameMalformed` if it has an invalid frame, and the last type that was
/// read. `dest` changes only with 0, and `out` only in the fields that are named here. It doesn't allocate.
#[unsafe(no_mangle)]
pub extern "C" fn quic_wire_canonical_(payload: &[u8], dest: &mut [u8], out: &mut CCanon) -> i32
    ensures { (result ≡ pos 0) × GivesLeastLen payload.now dest.old dest.new out.old out.new
        ⊎ (dest.new ≡ dest.old) × ((result ≡ failed Failure.NoRoom) × LeastNeedsMore payload.now dest.old out.old out.new
        ⊎ (result ≡ failed Failure.PayloadEmpty) × (payload.now ≡ []) × (out.new ≡ out.old)
        ⊎ ReportsInvalidPayload payload.now out.old result out.new) }
{
    canonical(payload, dest, out)
}

/// Does what `quic_wire_canonical_` does, if the payload has no error under the rules of these flags
/// (`Rules::of_flags`); what is written has none either (`laws::least_by_rules` of `quic_canon`). It returns
/// `PayloadEmpty` exactly when the payload is empty, and the reason, with the type, exactly when it has an error under
/// the rules: also `FrameLongType` and `FrameLimit`. The payload is read twice. It doesn't allocate.
#[unsafe(no_mangle)]
pub extern "C" fn quic_wire_canonical_with_(
    payload: &[u8],
    flags: u32,
    dest: &mut [u8],
    out: &mut CCanon,
) -> i32
    ensures { IsAccepted (rules_in flags) payload.now
        × ((result ≡ pos 0) × GivesLeastLen payload.now dest.old dest.new out.old out.new
        ⊎ (dest.new ≡ dest.old) × (result ≡ failed Failure.NoRoom)
        × LeastNeedsMore payload.now dest.old out.old out.new)
        ⊎ (dest.new ≡ dest.old) × ((result ≡ failed Failure.PayloadEmpty) × (payload.now ≡ []) × (out.new ≡ out.old)
        ⊎ (payload.now ≢ []) × ReportsInvalidBy (rules_in flags) payload.now out.old result out.new) }
{
    one_reading();
    are_bytes(payload);
    if payload.is_empty() {
        return Failure::PayloadEmpty.number();
    }
    match first_error(payload, Rules::of_flags(flags)) {
        Some(invalid) => {
            out.last_type = type_word(invalid.ty);
            return frame_failure(invalid.reason).number();
        }
        None => {}
    }
    canonical(payload, dest, out)
}
