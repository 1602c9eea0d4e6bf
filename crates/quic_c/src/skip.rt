//! Goes on after a frame that the library doesn't know, and that its caller read.
ghost use Rattle.std.specs.Prelude.{◌≡◌, ◌<◌, ◌≤◌, ◌≢◌, ◌^◌, ◌⊎◌, ◌↔◌, Some, pos, length};
ghost use Rattle.quic_frames.specs.Walk.{resumed};
ghost use Rattle.quic_c_words.specs.Shown.{has_flag, state_of};
ghost use Rattle.quic_results.specs.Results.{failed};

use quic_c_words::words::CFrameIter;
use quic_results::results::Failure;

/// Passes over a frame that the caller read, of a type that the library doesn't know: reading goes on at `end`, an
/// offset in the payload, as it does behind a frame of type `ty`, also after an error. It returns 1; or, and then
/// nothing changes, `Place` exactly if `end` isn't behind the last frame that was read, or is outside the payload; else
/// `Number` exactly if `ty` is 2^62 or more.
#[unsafe(no_mangle)]
pub extern "C" fn quic_wire_frames_skip_(
    frames: &mut CFrameIter,
    payload: &[u8],
    end: usize,
    ty: u64,
) -> i32
    ensures passed { result ≡ pos 1
        → (state_of frames.new payload.now ≡ resumed payload.now end (Some ty) (has_flag 0x001 frames.old.flags))
        × (frames.new.flags ≡ frames.old.flags) }
    ensures place { (result ≡ failed Failure.Place) ↔ ((end ≤ frames.old.offset) ⊎ (length payload.now < end)) }
    ensures number { (result ≡ failed Failure.Number)
        ↔ (frames.old.offset < end) × (end ≤ length payload.now) × (2 ^ 62 ≤ ty) }
    ensures only { (result ≡ pos 1) ⊎ (result ≡ failed Failure.Place) ⊎ (result ≡ failed Failure.Number) }
    ensures same { (result ≡ pos 1) ⊎ (frames.new ≡ frames.old) }
{
    if end <= frames.offset || end > payload.len() {
        return Failure::Place.number();
    }
    if ty >= 1 << 62 {
        return Failure::Number.number();
    }
    frames.offset = end;
    frames.last_type = ty;
    frames.ended = 0;
    1
}
