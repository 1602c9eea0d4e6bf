//! Where the fields of a value are: what callers learn from the laws on spans.
ghost use Rattle.std.specs.Prelude.{◌≡◌, ◌⊎◌, ℕ, List, Option, IfSome, MatchOption, length, ⊤, false};
ghost use Rattle.quic_fields.specs.declared.field.Span.{Span};
ghost use Rattle.quic_fields.specs.Spans.{AreInRow, AreNumbered};
ghost use Rattle.quic_fields.specs.Walk.{stored};
ghost use Rattle.quic_param_fields.specs.Values.{Finds, IsAccepted};
ghost use Rattle.quic_params.specs.Options.{kind_in};
ghost use Rattle.quic_params.specs.Table.{row_of};
ghost use Rattle.quic_params.specs.Value.{IsEncoded, IsNoValue};
ghost use Rattle.quic_params.specs.declared.error.Error.TheVariants.{IllegalValue};
ghost use Rattle.quic_params.specs.declared.parameter.TransportParameterId.{TransportParameterId};
ghost use Rattle.quic_params.specs.declared.value.Value.{Value};

use quic_fields::field::Span;
use quic_param_fields::laws as of_values;
use quic_param_fields::value::value_spans;
use quic_params::transport_parameters::Error;

/// How many fields the value of a parameter has: they are all of its bytes, one after another. `None` if the bytes are
/// no value of the parameter.
pub fn value_in_fields(id: u64, value: &[u8], room: &mut [Span]) -> Option<usize>
    ensures { IfSome result (λ n. (spans : List Span) × (room.new ≡ stored 0 spans room.old) × (n ≡ length spans)
        × AreInRow 0 spans (length value.now) × AreNumbered 0 spans) }
{
    of_values::one_list_of_spans_in_a_value();
    let walked = value_spans(id, value, false, room);
    match walked.fault {
        Some(_) => None,
        None => Some(walked.count),
    }
}

/// The error of a list with this value of a parameter, whose number has its shortest encoding: the bytes aren't encoded
/// so, or a client doesn't accept what they say. `None` if they are a value of the parameter.
pub fn error_of_value(id: u64, value: &[u8]) -> Option<Error>
    ensures { IfSome result (λ e. (found : Option TransportParameterId) × Finds id found × MatchOption found ⊤
        (λ known. IsNoValue (kind_in false (row_of known).kind) value.now e
        ⊎ ((v : Value) × IsEncoded (kind_in false (row_of known).kind) v value.now × ¬ (IsAccepted known v)
        × (e ≡ IllegalValue)))) }
{
    of_values::one_field_at_fault_in_a_value();
    match value_spans(id, value, false, &mut []).fault {
        Some(reason) => Some(reason.error()),
        None => None,
    }
}
