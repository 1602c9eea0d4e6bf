//! What is printed of one line.
ghost use Rattle.std.specs.Prelude.{◌≡◌, IfOk, IfSome, IsErr, None, Ok};
ghost use Rattle.hex.specs.Hex.{decode_of};
ghost use Rattle.quic_text.specs.Text.{line_lines, payload_lines};
ghost use Rattle.quic_text.specs.Whole.{PrintsLines};

mod canon;
mod datagram;
mod frames;
mod params;

use super::engine::RunError;
use super::lines::trim_return;
use super::mode::Mode;
use super::transfer::Sink;
use canon::print_canon;
use datagram::print_datagram;
use frames::print_frames;
use params::print_params;
use std::alloc::{AllocError, Global};

// Appends the text of a line of the input to the buffered text, of which pieces may be passed on. Answers whether it
// has no `error` line. The line's bytes are decoded into `bytes`, whose contents are overwritten.
pub(crate) fn print_line<W: Sink>(
    alloc: Global,
    mode: Mode,
    line: &[u8],
    bytes: &mut Vec<u8>,
    text: &mut String,
    sink: &mut W,
) -> Result<bool, RunError>
    ensures { PrintsLines W.taken W.has_failed (line_lines mode line.now) sink.old sink.new text.old text.new result }
{
    match decoded(trim_return(line), bytes)? {
        Some(payload) => print_payload(alloc, mode, payload, text, sink),
        None => {
            text.push_str("error not hexadecimal\n")?;
            Ok(false)
        }
    }
}

// The bytes that a line encodes, if it is hexadecimal. They replace the vector's contents.
fn decoded<'a>(line: &[u8], bytes: &'a mut Vec<u8>) -> Result<Option<&'a [u8]>, AllocError>
    ensures some { IfOk result (λ payload. IfSome payload (λ bytes. decode_of line.now ≡ Ok bytes.now)) }
    ensures none { IfOk result (λ payload. payload ≡ None → IsErr (decode_of line.now)) }
{
    bytes.resize(line.len() / 2, 0)?;
    match hex::decode_to_slice(line, bytes.as_mut_slice()) {
        Ok(()) => Ok(Some(bytes.as_slice())),
        Err(_) => Ok(None),
    }
}

fn print_payload<W: Sink>(
    alloc: Global,
    mode: Mode,
    payload: &[u8],
    text: &mut String,
    sink: &mut W,
) -> Result<bool, RunError>
    ensures { PrintsLines W.taken W.has_failed (payload_lines mode payload.now) sink.old sink.new
        text.old text.new result }
{
    match mode {
        Mode::Frames => print_frames(false, payload, text, sink),
        Mode::Strict => print_frames(true, payload, text, sink),
        Mode::Canon => print_canon(alloc, payload, text, sink),
        Mode::Datagram(id_len) => print_datagram(alloc, id_len, payload, text, sink),
        Mode::Params(side) => Ok(print_params(alloc, side, payload, text)?),
    }
}
