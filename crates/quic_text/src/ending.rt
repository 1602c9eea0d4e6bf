//! How a call of the program ends: its exit status, and its line on standard error.
ghost use Rattle.std.specs.Prelude.{◌≡◌, codes};
ghost use Rattle.quic_text.specs.Status.{status_of, message_of};

use crate::engine::RunError;

/// The exit status of a run.
pub fn status(outcome: &Result<bool, RunError>) -> u8
    ensures { result ≡ status_of outcome.now }
{
    match outcome {
        Ok(true) => 0,
        Ok(false) => 1,
        Err(_) => 3,
    }
}

/// The message for a run that failed.
pub fn message(error: RunError) -> &'static str
    ensures { result.now ≡ message_of error }
{
    match error {
        RunError::Read => "quic-show: read failed",
        RunError::Write => "quic-show: write failed",
        RunError::OutOfMemory => "quic-show: out of memory",
    }
}

/// The exit status of a call with wrong arguments.
pub fn wrong_arguments() -> u8
    ensures { result ≡ 2 }
{
    2
}

/// The usage line.
pub fn usage() -> &'static str
    ensures { result.now ≡ codes "usage: quic-show frames|strict|canon|datagram LEN|params client|server" }
{
    "usage: quic-show frames|strict|canon|datagram LEN|params client|server"
}
