//! What is printed of a payload's frames.
ghost use Rattle.std.specs.Prelude.{◌≡◌, ◌++◌, ◌↔◌, [], IfErr, IfOk, IsErr, OnOk, codes, false};
ghost use Rattle.std.specs.String.{string_bytes};
ghost use Rattle.quic_frames.specs.Reading.{Broken};
ghost use Rattle.quic_errors.specs.Codes.{IsError, protocol_violation};
ghost use Rattle.quic_frames.specs.Walk.{first_of, invalid_of};
ghost use Rattle.quic_text.specs.Printed.{line_bytes};
ghost use Rattle.quic_text.specs.FrameText.{frame_line, item_line, frame_lines};
ghost use Rattle.quic_text.specs.Whole.{PrintsLines};

use crate::engine::RunError;
use crate::output::pass_on_pieces;
use crate::transfer::Sink;
use quic_frames::frame::{FrameType, InvalidFrame, Iter};
use quic_frames::transport_error::Error;
use std::alloc::AllocError;

// Prints a line for each frame, and an `error` line if the payload is invalid. With `strict`, a type that is not in
// its shortest encoding is an error.
pub(super) fn print_frames<W: Sink>(
    strict: bool,
    payload: &[u8],
    text: &mut String,
    sink: &mut W,
) -> Result<bool, RunError>
    ensures { PrintsLines W.taken W.has_failed (frame_lines strict payload.now) sink.old sink.new
        text.old text.new result }
{
    let mut frames = match frames_of(strict, payload) {
        Ok(frames) => frames,
        Err(error) => {
            let reason = error.reason.as_str();
            writeln!(text, "error {reason}")?;
            return Ok(false);
        }
    };
    let mut start = 0;
    while let Some(item) = frames.next() {
        let frame = match item {
            Ok(frame) => frame,
            Err(invalid) => {
                print_invalid(&invalid, text)?;
                return Ok(false);
            }
        };
        let end = frames.offset();
        print_frame(start, end, frame.ty(), text)?;
        pass_on_pieces(text, sink)?;
        start = end;
    }
    Ok(true)
}

// The frames of a payload.
fn frames_of(strict: bool, payload: &[u8]) -> Result<Iter<'_>, Error>
    ensures empty { IsErr result ↔ (payload.now ≡ []) }
    ensures refusal { IfErr result (λ e. IsError e protocol_violation (codes "packet payload is empty")) }
    ensures first { IfOk result (λ it. it ≡ first_of strict payload.now) }
{
    if strict {
        Iter::strict(payload)
    } else {
        Iter::new(payload)
    }
}

// The line of a frame.
fn print_frame(start: usize, end: usize, ty: FrameType, text: &mut String) -> Result<(), AllocError>
    ensures { OnOk result (string_bytes text.new ≡ string_bytes text.old ++ line_bytes (frame_line start end ty)) }
{
    writeln!(text, "{start}..{end} {ty}")?;
    Ok(())
}

// The `error` line of an invalid frame.
pub(super) fn print_invalid(invalid: &InvalidFrame, text: &mut String) -> Result<(), AllocError>
    ensures { OnOk result (string_bytes text.new ≡ string_bytes text.old
        ++ line_bytes (item_line (Broken (invalid_of invalid.now)))) }
{
    writeln!(text, "error {invalid}")
}
