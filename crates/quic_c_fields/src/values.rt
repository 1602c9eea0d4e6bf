//! Where each field of a transport parameter's value is.
ghost use Rattle.std.specs.Prelude.{◌≡◌, ◌⊎◌, pos, Option, Some, None};
ghost use Rattle.quic_params.specs.declared.parameter.TransportParameterId.{TransportParameterId};
ghost use Rattle.quic_param_fields.specs.Fields.{error_of};
ghost use Rattle.quic_param_fields.specs.Values.{Finds, HasValue, LacksValue};
ghost use Rattle.quic_param_fields.specs.declared.field.Reason.{Reason};
ghost use Rattle.quic_results.specs.Results.{failed};
ghost use Rattle.quic_results.specs.declared.results.Failure.TheVariants as failure;
ghost use Rattle.quic_c_fields.specs.Values.{any_width, walked_as, failure_of};

use quic_fields::field::{Reach, Span};
use quic_param_fields::value::value_spans;
use quic_params::transport_parameters::Error;
use quic_results::results::Failure;

// What is returned for an error.
fn failure_of(error: Error) -> Failure
    ensures { result ≡ failure_of error }
{
    match error {
        Error::Malformed => Failure::ParametersMalformed,
        Error::IllegalValue => Failure::ParametersIllegal,
    }
}

/// Stores where the fields of the value of the parameter with this number are, as far as `fields` reaches, and returns
/// 1 (RFC 9000, section 18.2). If these bytes are no value of the parameter, it stores the fields that can be read and
/// returns why: `ParametersIllegal` if a number is out of the parameter's range, or a preferred address has no address
/// or an empty id; else `ParametersMalformed`. With the bit 0x080 in `flags` an integer may be in any width (section
/// 16); other bits are ignored.
#[unsafe(no_mangle)]
pub extern "C" fn quic_wire_param_value_fields_(
    id: u64,
    value: &[u8],
    flags: u32,
    fields: &mut [Span],
    out: &mut Reach,
) -> i32
    ensures ok { result ≡ pos 1 → (found : Option TransportParameterId) × Finds id found
        × HasValue (any_width flags) found value.now fields.old fields.new (walked_as out.new None) }
    ensures err { (result ≡ pos 1) ⊎ ((found : Option TransportParameterId) × (reason : Reason) × Finds id found
        × (result ≡ failed (failure_of (error_of reason)))
        × LacksValue (any_width flags) found value.now fields.old fields.new (walked_as out.new (Some reason)) reason) }
{
    let walked = value_spans(id, value, flags / 0x080 % 2 == 1, fields);
    *out = Reach {
        count: walked.count,
        end: walked.end,
        inside: walked.inside,
        numbers: walked.numbers,
    };
    match walked.fault {
        None => 1,
        Some(reason) => failure_of(reason.error()).number(),
    }
}
