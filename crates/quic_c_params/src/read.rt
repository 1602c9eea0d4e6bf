//! Reads a list of transport parameters into a struct for C.
ghost use Rattle.std.specs.Prelude.{◌≡◌, ◌⊎◌, ◌<◌, ℕ, Option, pos, MatchOption};
ghost use Rattle.quic_c_params.specs.Answers.{IsSide, failure_of, number_word_of, options_of, refusal_words, GivesParams, RefusesList};
ghost use Rattle.quic_params.specs.declared.error.Refusal.{Refusal};
ghost use Rattle.quic_results.specs.Results.{failed};

use crate::show::show;
use crate::words::{CParams, CRefusal};
use quic_base::ids::Side;
use quic_params::transport_parameters::{Error, ReadOptions, Refusal, TransportParameters};
use quic_results::results::Failure;

// The side of a number.
pub(crate) fn side_of(word: u32) -> Option<Side>
    ensures { MatchOption result (1 < word) (IsSide word) }
{
    match word {
        0 => Some(Side::Client),
        1 => Some(Side::Server),
        _ => None,
    }
}

// What is returned for an error.
pub(crate) fn failure_of(error: Error) -> Failure
    ensures { result ≡ failure_of error }
{
    match error {
        Error::Malformed => Failure::ParametersMalformed,
        Error::IllegalValue => Failure::ParametersIllegal,
    }
}

// How a list is read, from the bits 0x080 and 0x100 of the flags.
fn options_of(flags: u32) -> ReadOptions
    ensures { result ≡ options_of flags }
{
    ReadOptions {
        any_width: flags / 0x080 % 2 == 1,
        no_repeats: flags / 0x100 % 2 == 1,
    }
}

// The number of a parameter, 2^64 - 1 for none.
fn number_word_of(number: Option<u64>) -> u64
    ensures { result ≡ number_word_of number }
{
    match number {
        Some(number) => number,
        None => u64::MAX,
    }
}

// A refusal as a struct for C.
fn refusal_words(refusal: &Refusal) -> CRefusal
    ensures { result ≡ refusal_words refusal.now }
{
    CRefusal {
        id: number_word_of(refusal.id),
        offset: refusal.offset,
    }
}

/// Reads a list of transport parameters that a side got from its peer, to the list's end (RFC 9000, sections 7.4 and
/// 18): `side` is 0 if a client reads the list of a server, 1 if a server reads that of a client. It returns 0 with the
/// fields of the record: numbers that are not in the list have their defaults, and other values that are absent are 0
/// in all of their fields and bytes, without a bit. It returns `ParametersMalformed` if the first entry that the side
/// rejects is cut off, has an invalid value, or is a repeat, and `ParametersIllegal` if it rejects a value, both with
/// the refusal: the number of the parameter, or 2^64 - 1 if the list ends within that, and the offset of its entry;
/// `Kind` exactly if `side` is above 1. Nothing else changes.
///
/// With 0 in `flags` an integer that has a default and isn't in its shortest encoding is an invalid value, as in
/// quinn-proto, and `grease_quic_bit` and `min_ack_delay` may be repeated. With the bit 0x080 an integer may be in any
/// encoding (RFC 9000, section 16); with 0x100 no known parameter may be repeated (section 7.4). Other bits are
/// ignored. `max_datagram_frame_size` and `min_ack_delay` may be in any encoding.
#[unsafe(no_mangle)]
pub extern "C" fn quic_wire_params_read_(
    side: u32,
    flags: u32,
    bytes: &[u8],
    out: &mut CParams,
    refusal: &mut CRefusal,
) -> i32
    ensures { (result ≡ pos 0) × GivesParams side flags bytes.now out.new × (refusal.new ≡ refusal.old)
        ⊎ (result ≡ failed Failure.Kind) × (1 < side) × (out.new ≡ out.old) × (refusal.new ≡ refusal.old)
        ⊎ ((refused : Refusal) × (result ≡ failed (failure_of refused.error)) × RefusesList side flags bytes.now refused
        × (out.new ≡ out.old) × (refusal.new ≡ refusal_words refused)) }
{
    let Some(reader) = side_of(side) else {
        return Failure::Kind.number();
    };
    match TransportParameters::read_list(reader, options_of(flags), bytes) {
        Ok(params) => {
            *out = show(&params);
            0
        }
        Err(refused) => {
            *refusal = refusal_words(&refused);
            failure_of(refused.error).number()
        }
    }
}
