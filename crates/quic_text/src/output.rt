//! Text that is buffered, and passed to a sink in pieces of 16 KiB.
ghost use Rattle.std.specs.Prelude.{◌≡◌, ◌++◌, ◌||◌, [], OnOk, OnErr, is_err};
ghost use Rattle.std.specs.String.{string_bytes};
ghost use Rattle.quic_text.specs.Whole.{AppendsAllBut, AppendsBeginning};

use crate::transfer::{Failed, Sink};

// The most bytes of one read, and the least bytes of text that are passed on.
pub(crate) const PIECE: usize = 16384;

// Passes on the buffered text, if it is as long as a piece.
pub(crate) fn pass_on_pieces<W: Sink>(text: &mut String, sink: &mut W) -> Result<(), Failed>
    ensures ok { OnOk result (AppendsAllBut (W.taken sink.old) (W.taken sink.new) (string_bytes text.new)
        (string_bytes text.old)) }
    ensures err { OnErr result (AppendsBeginning (W.taken sink.old) (W.taken sink.new) (string_bytes text.old)) }
    ensures failed { W.has_failed sink.new ≡ (W.has_failed sink.old || is_err result) }
{
    if text.len() < PIECE {
        return Ok(());
    }
    write_all(sink, text.as_bytes())?;
    text.clear();
    Ok(())
}

// Writes all the bytes, in as many calls as the sink needs.
pub(crate) fn write_all<W: Sink>(sink: &mut W, bytes: &[u8]) -> Result<(), Failed>
    ensures ok { OnOk result (W.taken sink.new ≡ W.taken sink.old ++ bytes.now) }
    ensures err { OnErr result (AppendsBeginning (W.taken sink.old) (W.taken sink.new) bytes.now) }
    ensures failed { W.has_failed sink.new ≡ (W.has_failed sink.old || is_err result) }
{
    let mut done = 0;
    while done < bytes.len() {
        done += sink.write(&bytes[done..])?;
    }
    Ok(())
}
