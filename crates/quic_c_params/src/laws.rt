//! What QUIC_WIRE_READ_RFC means for lists of transport parameters, and what it reads of what is written.
ghost use Rattle.std.specs.Prelude.{◌≡◌, ◌≢◌, ◌⊎◌, ◌↔◌, ◌<◌, ℕ, pos};
ghost use Rattle.quic_c_params.specs.Answers.{options_of};
ghost use Rattle.quic_c_params.specs.Written.{DescribesNoParams, ParamsNeedMore, WroteParams};
ghost use Rattle.quic_results.specs.Results.{failed};

use crate::read::quic_wire_params_read_;
use crate::words::{CParams, CRefusal};
use crate::write::quic_wire_params_write_;
use quic_params::laws::{one_answer, read_back};
use quic_params::transport_parameters::ReadOptions;
use quic_results::results::Failure;

// QUIC_WIRE_READ_RFC.
const READ_RFC: u32 = 0x3ef;

/// The flags are RFC 9000's way of reading.
pub fn rfc_flags()
    ensures { options_of 0x3ef ≡ ReadOptions.RFC }
{}

/// Writes the list of a struct, and reads it with `QUIC_WIRE_READ_RFC`. What was written is always read, as the same
/// struct: the result is 0 then, and else that of `quic_wire_params_write_`.
pub fn read_as_written(
    side: u32,
    words: &CParams,
    buffer: &mut [u8],
    out: &mut CParams,
    refusal: &mut CRefusal,
) -> i32
    ensures returns { (result ≡ pos 0) ⊎ (result ≡ failed Failure.NoRoom) ⊎ (result ≡ failed Failure.Kind)
        ⊎ (result ≡ failed Failure.Parameter) }
    ensures wrote { result ≡ pos 0 → (size : ℕ) × WroteParams side words.now buffer.old buffer.new size }
    ensures room { result ≡ failed Failure.NoRoom
        → (needed : ℕ) × ParamsNeedMore side words.now buffer.old needed }
    ensures side { (result ≡ failed Failure.Kind) ↔ (1 < side) }
    ensures refused { result ≡ failed Failure.Parameter → DescribesNoParams side words.now }
    ensures unwritten { (result ≡ pos 0) ⊎ (buffer.new ≡ buffer.old) }
    ensures same { result ≡ pos 0 → out.new ≡ words.now }
    ensures unread { result ≢ pos 0 → out.new ≡ out.old }
    ensures kept { refusal.new ≡ refusal.old }
{
    read_back();
    one_answer();
    let mut size = 0;
    let wrote = quic_wire_params_write_(side, words, buffer, &mut size);
    if wrote != 0 {
        return wrote;
    }
    quic_wire_params_read_(side, READ_RFC, &buffer[..size], out, refusal)
}
