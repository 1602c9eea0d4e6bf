//! The error code that a result leads to.
ghost use Rattle.std.specs.Prelude.{◌≡◌, ℕ, pos};
ghost use Rattle.quic_results.specs.Results.{code_of, failed};

use quic_results::results::{Failure, close_code};

/// The code with which an endpoint closes the connection because of what a call returned (RFC 9000, section 20.1):
/// `FRAME_ENCODING_ERROR`, `PROTOCOL_VIOLATION`, `STREAM_STATE_ERROR` or `TRANSPORT_PARAMETER_ERROR` if its peer broke
/// a rule, `INTERNAL_ERROR` if the caller passed impossible arguments, and `NO_ERROR`, 0, if nothing is closed: for a
/// count, and for a packet that can't be read, which is dropped.
#[unsafe(no_mangle)]
pub extern "C" fn quic_wire_close_code_(number: i32) -> u32
    ensures failure { (f : Failure) → number ≡ failed f → result ≡ code_of f }
    ensures success { (count : ℕ) → number ≡ pos count → result ≡ 0x00 }
{
    close_code(number)
}
