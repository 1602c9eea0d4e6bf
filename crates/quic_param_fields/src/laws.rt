//! Laws of the spans of values, which no single call states. The functions do nothing at run time.
ghost use Rattle.std.specs.Prelude.{◌≡◌, ◌≢◌, ◌⊎◌, ℕ, List, Option, Some, Bool, length};
ghost use Rattle.quic_fields.specs.declared.field.Span.{Span};
ghost use Rattle.quic_fields.specs.Spans.{AreInRow, AreNumbered};
ghost use Rattle.quic_params.specs.declared.error.Error.TheVariants.{IllegalValue};
ghost use Rattle.quic_params.specs.declared.parameter.TransportParameterId.{TransportParameterId};
ghost use Rattle.quic_params.specs.declared.value.Value.{Value};
ghost use Rattle.quic_params.specs.Options.{kind_in};
ghost use Rattle.quic_params.specs.Table.{row_of};
ghost use Rattle.quic_params.specs.Value.{IsEncoded, IsNoValue};
ghost use Rattle.quic_param_fields.specs.declared.field.Stop.{Stop};
ghost use Rattle.quic_param_fields.specs.declared.row.Sort.TheVariants as S;
ghost use Rattle.quic_param_fields.specs.Fields.{error_of};
ghost use Rattle.quic_param_fields.specs.Rows.{sort_of};
ghost use Rattle.quic_param_fields.specs.Values.{IsAccepted, IsValueAt, IsNoValueAt};

/// A value of a parameter has exactly one list of spans, and only values have one: bytes that the parameter's
/// definition encodes, with a value that a client accepts (RFC 9000, section 18.2). Together the spans are all of the
/// bytes, one after another, and their indices count from 0.
pub fn one_list_of_spans_in_a_value()
    ensures exists { (any_width : Bool) (id : TransportParameterId) (value : Value) (bytes : List ℕ)
        → IsEncoded (kind_in any_width (row_of id).kind) value bytes → IsAccepted id value
        → (spans : List Span) × IsValueAt any_width (Some id) spans bytes }
    ensures values { (any_width : Bool) (id : TransportParameterId) (spans : List Span) (bytes : List ℕ)
        → sort_of id ≢ S.Any → IsValueAt any_width (Some id) spans bytes
        → (value : Value) × IsEncoded (kind_in any_width (row_of id).kind) value bytes × IsAccepted id value }
    ensures one { (any_width : Bool) (found : Option TransportParameterId) (spans others : List Span) (bytes : List ℕ)
        → IsValueAt any_width found spans bytes → IsValueAt any_width found others bytes → spans ≡ others }
    ensures row { (any_width : Bool) (found : Option TransportParameterId) (spans : List Span) (bytes : List ℕ)
        → IsValueAt any_width found spans bytes → AreInRow 0 spans (length bytes) × AreNumbered 0 spans }
{}

/// Bytes have at most one field at fault, and a value of the parameter has none: `value_spans` finds it in all bytes
/// that are no value. The error is that of the parameter's definition; or the bytes encode a value that a client
/// doesn't accept, which is `IllegalValue`.
pub fn one_field_at_fault_in_a_value()
    ensures none { (any_width : Bool) (found : Option TransportParameterId) (spans others : List Span) (bytes : List ℕ)
        (at start : ℕ) (s : Stop) → IsValueAt any_width found spans bytes
        → IsNoValueAt any_width found others bytes at start s → ⊥ }
    ensures one { (any_width : Bool) (found : Option TransportParameterId) (spans others : List Span) (bytes : List ℕ)
        (at other start begin : ℕ) (s stop : Stop) → IsNoValueAt any_width found spans bytes at start s
        → IsNoValueAt any_width found others bytes other begin stop
        → (spans ≡ others) × (at ≡ other) × (start ≡ begin) × (s ≡ stop) }
    ensures reported { (any_width : Bool) (id : TransportParameterId) (spans : List Span) (bytes : List ℕ) (at start : ℕ)
        (s : Stop) → IsNoValueAt any_width (Some id) spans bytes at start s
        → IsNoValue (kind_in any_width (row_of id).kind) bytes (error_of s.reason)
        ⊎ ((value : Value) × IsEncoded (kind_in any_width (row_of id).kind) value bytes × ¬ (IsAccepted id value)
        × (error_of s.reason ≡ IllegalValue)) }
{}
