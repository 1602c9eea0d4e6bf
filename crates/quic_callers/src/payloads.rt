//! Payloads: what a capture reader and a connection do with their frames.
ghost use Rattle.std.specs.Prelude.{◌≡◌, ◌≢◌, ◌↔◌, ◌<◌, ◌^◌, ◌-◌, ◌++◌, ◌⊎◌, List, [], None, false, length, min, IfErr, IfOk, IfSome, IsTrue, MatchBool, MatchOption, OnOk};
ghost use Rattle.quic_callers.specs.Data.{streams_len};
ghost use Rattle.quic_callers.specs.Reported.{IsReported};
ghost use Rattle.quic_errors.specs.Codes.{long_type_reason};
ghost use Rattle.quic_frame_fields.specs.Payload.{TypedFrame, AreFrames};
ghost use Rattle.quic_frame_fields.specs.Reading.{Invalid, reason_text};
ghost use Rattle.quic_frame_fields.specs.Shortest.{shortest_frame};
ghost use Rattle.quic_frame_fields.specs.declared.frame.fault.Fault.{Fault};
ghost use Rattle.quic_frame_fields.specs.declared.frame.fault.Fault.TheVariants.{LongType};
ghost use Rattle.quic_frames.specs.Checking.{FindsKept, IsRefusedFrame};
ghost use Rattle.quic_frames.specs.IterState.{IterState};
ghost use Rattle.quic_frames.specs.Meaning.{meaning_of};
ghost use Rattle.quic_frames.specs.Walk.{first_of};
ghost use Rattle.quic_frames.specs.declared.frame.Frame.TheVariants as frames;

use quic_base::coding::NoRoom;
use quic_frames::frame::{Frame, FrameType, InvalidFrame, Iter, Rules, Stream, StreamMeta};
use quic_frames::laws::{reasons, stream_header_and_data};
use quic_frames::transport_error::Error;

/// How many bytes of stream data a payload has, up to its error, and the type that the error names.
pub fn stream_data(payload: &[u8]) -> (usize, Option<FrameType>) {
    let mut count: usize = 0;
    let Ok(frames) = Iter::new(payload) else {
        return (0, None);
    };
    for item in frames {
        match item {
            Ok(Frame::Stream(stream)) => count = count.saturating_add(stream.bytes.len()),
            Ok(_) => {}
            Err(error) => return (count, error.ty),
        }
    }
    (count, None)
}

/// The first frame of a payload, if it breaks none of these rules. `None` if it breaks one, and if the payload is empty
/// or doesn't begin with a frame.
pub fn first_by_rules(payload: &[u8], rules: Rules) -> Option<Frame<'_>>
    ensures { MatchOption result
        ((payload.now ≡ [])
        ⊎ ((reported : Invalid) × IsRefusedFrame rules (first_of rules.short_types payload.now) reported))
        (λ frame. (rest : IterState) × FindsKept rules (first_of rules.short_types payload.now) frame rest) }
{
    let Ok(mut frames) = Iter::with_rules(payload, rules) else {
        return None;
    };
    match frames.next() {
        Some(Ok(frame)) => Some(frame),
        Some(Err(_)) => None,
        None => None,
    }
}

/// How many bytes of stream data a valid payload has, or 2^64 - 1 if that is less; else the error to close the
/// connection with, which is the one that the grammar has.
pub fn all_stream_data(payload: &[u8]) -> Result<usize, Error>
    ensures ok { IfOk result (λ count. (found : List TypedFrame) × AreFrames false found payload.now
        × (count ≡ min (streams_len found) (2 ^ 64 - 1))) }
    ensures err { IfErr result (λ e. IsReported payload.now e) }
{
    let mut count: usize = 0;
    for item in Iter::new(payload)? {
        match item {
            Ok(frame) => {
                if let Frame::Stream(stream) = frame {
                    count = count.saturating_add(stream.bytes.len());
                }
            }
            Err(invalid) => return Err(invalid.to_error()),
        }
    }
    Ok(count)
}

/// Appends a STREAM as a sender of data does: its header, and then the data. That is its shortest encoding, as the last
/// frame of its payload or as one that others follow. The caller must ensure that its offset is below 2^62, and also
/// the length of its data if that is written.
pub fn write_stream(stream: &Stream<'_>, last: bool, out: &mut Vec<u8>) -> Result<(), NoRoom>
    requires offset { stream.now.offset < 2 ^ 62 }
    requires counted { last ≡ false → length stream.now.bytes.now < 2 ^ 62 }
    ensures { OnOk result (out.new.items ≡ out.old.items
        ++ shortest_frame last (meaning_of (frames.Stream stream.now))) }
{
    stream_header_and_data();
    let end = stream.offset + stream.bytes.len() as u64;
    let meta = StreamMeta {
        id: stream.id,
        offsets: stream.offset..end,
        fin: stream.fin,
    };
    meta.encode(!last, out)?;
    out.extend_from_slice(stream.bytes)?;
    Ok(())
}

/// Whether an error of reading a payload is that of a frame type that isn't in its shortest encoding, for which an
/// endpoint closes with PROTOCOL_VIOLATION (RFC 9000, section 12.4).
pub fn has_long_type(invalid: &InvalidFrame) -> bool
    ensures { (reason : Fault) → invalid.now.reason.now ≡ reason_text reason → IsTrue result ↔ (reason ≡ LongType) }
{
    reasons();
    is_long_type(invalid.reason)
}

// Whether a reason is that of a type in a longer encoding.
fn is_long_type(reason: &str) -> bool
    ensures { MatchBool result (reason.now ≡ long_type_reason) (reason.now ≢ long_type_reason) }
{
    reason == "frame type not in shortest form"
}
