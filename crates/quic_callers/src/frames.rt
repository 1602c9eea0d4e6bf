//! Frames that are written and read again: what callers learn from the contracts of both.
ghost use Rattle.std.specs.Prelude.{◌≡◌, ◌<◌, ◌^◌, true, ℕ, List, IfErr, IfOk, [], length};
ghost use Rattle.quic_frame_fields.specs.Acks.{fault_of, ranges_left};
ghost use Rattle.quic_frame_fields.specs.Bodies.{shortest_body};
ghost use Rattle.quic_frame_fields.specs.Field.{AreApart, AreBlocks};
ghost use Rattle.quic_frame_fields.specs.Refusal.{AreNoBlocks};
ghost use Rattle.quic_frames.specs.InRange.{CanStand};
ghost use Rattle.quic_frames.specs.Meaning.{meaning_of};

use quic_base::coding::NoRoom;
use quic_base::varint::var_size;
use quic_frames::frame::{Ack, AckError, AckIter, Frame, Iter};
use quic_frames::laws;

/// Writes a frame as a payload of its own and returns the frame that is read from it, which has the same meaning.
/// The caller must ensure that the frame can be written, and that the buffer is empty.
pub fn written_and_read<'a>(frame: &Frame<'_>, out: &'a mut Vec<u8>) -> Result<Frame<'a>, NoRoom>
    requires stands { CanStand true frame.now }
    requires empty { out.old.items ≡ [] }
    ensures { IfOk result (λ read. meaning_of read ≡ meaning_of frame.now) }
{
    frame.type_bounds();
    laws::read_back();
    frame.encode(true, out)?;
    let Ok(mut frames) = Iter::new(out) else {
        unreachable!()
    };
    match frames.next() {
        Some(Ok(read)) => Ok(read),
        Some(Err(_)) => unreachable!(),
        None => unreachable!(),
    }
}

/// How many bytes the body of a frame has, which `Frame::encode_body_into` stores, `last` or not. The caller must
/// ensure that the frame can be written.
pub fn body_len(frame: &Frame<'_>, last: bool) -> u128
    requires { CanStand last frame.now }
    ensures { result ≡ length (shortest_body last (meaning_of frame.now)) }
{
    laws::body_behind_its_type();
    let ty = frame.written_type(last).into_inner();
    frame.encoded_len(last) - var_size(ty) as u128
}

/// The ranges of an ACK's blocks below its largest number, in the blocks' order: they are those that the blocks encode,
/// and no two of them touch; or the reason why the bytes are no blocks. The largest number must be below 2^62.
pub fn ranges_of_blocks(largest: u64, blocks: &[u8]) -> Result<AckIter<'_>, AckError>
    requires { largest < 2 ^ 62 }
    ensures encoded { IfOk result (λ iter. (ranges : List (ℕ × ℕ)) → AreBlocks largest ranges blocks.now
        → ranges_left iter ≡ ranges) }
    ensures apart { IfOk result (λ iter. AreApart (ranges_left iter)) }
    ensures refused { IfErr result (λ e. AreNoBlocks largest blocks.now (fault_of e)) }
{
    laws::one_list_of_ranges();
    let ack = Ack::from_parts(largest, 0, blocks, None)?;
    Ok(ack.iter())
}
