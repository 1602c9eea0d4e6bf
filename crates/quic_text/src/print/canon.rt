//! What is printed of a payload in its shortest form.
ghost use Rattle.hex.specs.Hex.{encode_lower};
ghost use Rattle.quic_text.specs.Printed.{Plain, line_bytes};
ghost use Rattle.quic_text.specs.CanonText.{canon_lines};
ghost use Rattle.quic_text.specs.Whole.{PrintsBytes, PrintsLines};

use super::frames::print_invalid;
use crate::engine::RunError;
use crate::output::{PIECE, pass_on_pieces};
use crate::transfer::Sink;
use quic_canon::canonical::{CanonError, canonical_of};
use quic_canon::laws;
use std::alloc::Global;

// The digits of the shortest payload of the same frames, or the error of the payload.
pub(super) fn print_canon<W: Sink>(
    alloc: Global,
    payload: &[u8],
    text: &mut String,
    sink: &mut W,
) -> Result<bool, RunError>
    ensures { PrintsLines W.taken W.has_failed (canon_lines payload.now) sink.old sink.new text.old text.new result }
{
    laws::one_least();
    match canonical_of(alloc, payload) {
        Ok(canonical) => {
            print_digits(alloc, canonical.bytes(), text, sink)?;
            Ok(true)
        }
        Err(CanonError::Empty) => {
            text.push_str("error packet payload is empty\n")?;
            Ok(false)
        }
        Err(CanonError::Invalid(invalid)) => {
            print_invalid(&invalid, text)?;
            Ok(false)
        }
        Err(CanonError::OutOfMemory) => Err(RunError::OutOfMemory),
    }
}

// The line of bytes in hexadecimal digits.
fn print_digits<W: Sink>(
    alloc: Global,
    bytes: &[u8],
    text: &mut String,
    sink: &mut W,
) -> Result<(), RunError>
    ensures { PrintsBytes W.taken W.has_failed (line_bytes (Plain (encode_lower bytes.now))) sink.old sink.new
        text.old text.new result }
{
    let mut rest = bytes;
    while PIECE < rest.len() {
        let (piece, after) = rest.split_at(PIECE);
        text.push_str(hex::encode(alloc, piece)?.as_str())?;
        pass_on_pieces(text, sink)?;
        rest = after;
    }
    let digits = hex::encode(alloc, rest)?;
    writeln!(text, "{digits}")?;
    Ok(())
}
