//! Reads all that a source has, and writes its text to a sink.
ghost use Rattle.std.specs.Prelude.{◌≡◌, ◌++◌, ◌↔◌, ℕ, List, ◌||◌, true, false, IsTrue, IfOk, OnOk, OnErr, IsErrOf, is_err, MatchResult};
ghost use Rattle.quic_text.specs.Text.{text_of, is_clean};
ghost use Rattle.quic_text.specs.Whole.{AppendsBeginning, WritesText, WritesBeginning};
ghost use Rattle.quic_text.specs.declared.engine.RunError.TheVariants.{OutOfMemory, Write};

use super::lines::first_line;
use super::mode::Mode;
use super::output::{PIECE, pass_on_pieces, write_all};
use super::print::print_line;
use super::transfer::{Failed, Sink, Source};
use std::alloc::{AllocError, Global};
use thiserror::Error;

/// Why a run ended early.
#[derive(Clone, Copy, Debug, PartialEq, Eq, Error)]
pub enum RunError {
    /// A read failed. Nothing was written.
    #[error("read failed")]
    Read,
    /// A write failed, or the last flush. A prefix of the text was written.
    #[error("write failed")]
    Write,
    /// Memory ran out. A prefix of the text was written.
    #[error("out of memory")]
    OutOfMemory,
}

impl From<AllocError> for RunError {
    ghost from_gives = { λ _ e. e ≡ OutOfMemory };

    fn from(_e: AllocError) -> RunError {
        RunError::OutOfMemory
    }
}

impl From<Failed> for RunError {
    ghost from_gives = { λ _ e. e ≡ Write };

    fn from(_e: Failed) -> RunError {
        RunError::Write
    }
}

/// Writes the text of all that the source has, and returns whether it has no `error` line.
pub fn run<R: Source, W: Sink>(
    alloc: Global,
    mode: Mode,
    source: &mut R,
    sink: &mut W,
) -> Result<bool, RunError>
    ensures ended { OnOk result (IsTrue (R.has_ended source.new)) }
    ensures text { IfOk result
        (WritesText mode (R.given source.old) (R.given source.new) (W.taken sink.old) (W.taken sink.new)) }
    ensures beginning { OnErr result
        (WritesBeginning mode (R.given source.old) (R.given source.new) (W.taken sink.old) (W.taken sink.new)) }
    ensures read { R.has_failed source.old ≡ false → (IsErrOf result RunError.Read ↔ IsTrue (R.has_failed source.new)) }
    ensures read_first { IsErrOf result RunError.Read → W.taken sink.new ≡ W.taken sink.old }
    ensures write { W.has_failed sink.old ≡ false → (IsErrOf result RunError.Write ↔ IsTrue (W.has_failed sink.new)) }
{
    let input = read_all(alloc, source)?;
    print_all(alloc, mode, input.as_slice(), sink)
}

// All that the source has, until it ends.
fn read_all<R: Source>(alloc: Global, source: &mut R) -> Result<Vec<u8>, RunError>
    ensures ok { IfOk result (λ input. IsTrue (R.has_ended source.new)
        × (R.given source.new ≡ R.given source.old ++ input.items)) }
    ensures err { OnErr result ((input : List ℕ) × (R.given source.new ≡ R.given source.old ++ input)) }
    ensures read { R.has_failed source.old ≡ false → IsErrOf result RunError.Read ↔ IsTrue (R.has_failed source.new) }
    ensures write { IsErrOf result RunError.Write → ⊥ }
{
    let mut input = Vec::new(alloc);
    let mut piece = [0; PIECE];
    loop {
        match source.read(&mut piece) {
            Ok(0) => return Ok(input),
            Ok(count) => input.extend_from_slice(&piece[..count])?,
            Err(Failed) => return Err(RunError::Read),
        }
    }
}

// Writes the text of an input, a piece at a time.
fn print_all<W: Sink>(
    alloc: Global,
    mode: Mode,
    input: &[u8],
    sink: &mut W,
) -> Result<bool, RunError>
    ensures ok { OnOk result (W.taken sink.new ≡ W.taken sink.old ++ text_of mode input.now) }
    ensures answer { IfOk result (λ clean. clean ≡ is_clean mode input.now) }
    ensures err { OnErr result (AppendsBeginning (W.taken sink.old) (W.taken sink.new) (text_of mode input.now)) }
    ensures read { IsErrOf result RunError.Read → ⊥ }
    ensures write { W.has_failed sink.old ≡ false → IsErrOf result RunError.Write ↔ IsTrue (W.has_failed sink.new) }
{
    let mut bytes = Vec::new(alloc);
    let mut text = String::new(alloc);
    let mut clean = true;
    let mut rest = input;
    while !rest.is_empty() {
        let (line, after) = first_line(rest);
        let line_clean = print_line(alloc, mode, line, &mut bytes, &mut text, sink)?;
        pass_on_pieces(&mut text, sink)?;
        clean = clean && line_clean;
        rest = after;
    }
    write_all(sink, text.as_bytes())?;
    sink.flush()?;
    Ok(clean)
}
