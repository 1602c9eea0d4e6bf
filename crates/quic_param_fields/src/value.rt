//! Where each field of a parameter's value is.
ghost use Rattle.std.specs.Prelude.{◌≡◌, ◌↔◌, ◌+◌, ℕ, List, [], IsTrue, None, IfSome, Option, length};
ghost use Rattle.quic_base.specs.Varint.{Encodes};
ghost use Rattle.quic_fields.specs.declared.field.Span.{Span};
ghost use Rattle.quic_params.specs.declared.parameter.TransportParameterId.{TransportParameterId};
ghost use Rattle.quic_params.specs.declared.value.Value.TheVariants.{Number};
ghost use Rattle.quic_params.specs.Options.{kind_in};
ghost use Rattle.quic_params.specs.Table.{row_of};
ghost use Rattle.quic_params.specs.Value.{IsEncoded};
ghost use Rattle.quic_param_fields.specs.Rows.{sort_of, fields_of};
ghost use Rattle.quic_param_fields.specs.Fields.{fault_at, stop, AreFieldsAt};
ghost use Rattle.quic_param_fields.specs.Values.{IsAccepted, IsNowhere, HasEmptyId, WholeRule, Rule, Finds, HasValue, LacksValue};

use crate::field::walk;
pub use crate::field::{Reason, Walked};
use crate::row::{Sort, row, sort_of};
use quic_base::varint::VarInt;
use quic_fields::field::Span;
use quic_params::transport_parameters::{TransportParameterId, known, value_number};

// A fault in the field with this index, which begins at this offset.
fn at(field: usize, start: usize, reason: Reason) -> Walked
    ensures { result ≡ fault_at field start (stop 0 0 reason) }
{
    Walked {
        count: field,
        end: start,
        fault: Some(reason),
        inside: 0,
        numbers: 0,
    }
}

// Whether a client accepts a record with this number of a parameter.
fn is_accepted(id: TransportParameterId, n: u64) -> bool
    requires { sort_of id ≡ Sort.Number }
    ensures { IsTrue result ↔ IsAccepted id (Number n) }
{
    use TransportParameterId::*;
    match id {
        MaxUdpPayloadSize => n >= 1200,
        InitialMaxStreamsBidi | InitialMaxStreamsUni => n <= 1 << 60,
        AckDelayExponent => n <= 20,
        MaxAckDelay => n < 1 << 14,
        ActiveConnectionIdLimit => n >= 2,
        _ => true,
    }
}

// Whether the addresses and ports at the front of an address are all zeros.
fn is_nowhere(value: &[u8]) -> bool
    ensures { IsTrue result ↔ IsNowhere value.now }
{
    value.starts_with(&[0; 24])
}

// Whether the id after them is empty.
fn has_empty_id(value: &[u8]) -> bool
    ensures { IsTrue result ↔ HasEmptyId value.now }
{
    value.len() > 24 && value[24] == 0
}

// Whether a number may be in the width of these bytes.
fn is_short(id: TransportParameterId, n: VarInt, any_width: bool, value: &[u8]) -> bool
    requires kind { sort_of id ≡ Sort.Number }
    requires number { Encodes n value.now }
    ensures { IsTrue result ↔ IsEncoded (kind_in any_width (row_of id).kind) (Number n) value.now }
{
    use TransportParameterId::*;
    match id {
        MaxDatagramFrameSize | MinAckDelayDraft07 => true,
        _ => any_width || n.size() == value.len(),
    }
}

// What is at fault in a number that fills its value.
fn number_rule(id: TransportParameterId, value: &[u8], any_width: bool, read: Walked) -> Walked
    requires kind { sort_of id ≡ Sort.Number }
    requires number { (n : ℕ) × Encodes n value.now }
    ensures { WholeRule any_width id Sort.Number value.now read result }
{
    let Some(n) = value_number(value) else {
        unreachable!();
    };
    if !is_short(id, n, any_width, value) {
        return at(0, 0, Reason::LongNumber);
    }
    if !is_accepted(id, n.into_inner()) {
        return at(0, 0, Reason::OutOfRange);
    }
    read
}

// What is at fault in a value whose fields are all of its bytes.
fn whole_rule(id: TransportParameterId, value: &[u8], any_width: bool, read: Walked) -> Walked
    requires { sort_of id ≡ Sort.Number → (n : ℕ) × Encodes n value.now }
    ensures { WholeRule any_width id (sort_of id) value.now read result }
{
    match sort_of(id) {
        Sort::Number => number_rule(id, value, any_width, read),
        Sort::Address => {
            if has_empty_id(value) {
                at(4, 24, Reason::EmptyId)
            } else {
                read
            }
        }
        _ => read,
    }
}

// What is at fault in a value whose fields all can be read.
fn rule(id: TransportParameterId, value: &[u8], any_width: bool, read: Walked) -> Walked
    requires read { (spans : List Span) × (rest : List ℕ)
        × AreFieldsAt 0 0 (fields_of (sort_of id)) spans value.now rest × (read.end + length rest ≡ length value.now) }
    ensures { (rest : List ℕ) → read.end + length rest ≡ length value.now
        → Rule any_width id (sort_of id) value.now rest read result }
{
    if sort_of(id) == Sort::Address && is_nowhere(value) {
        return at(2, 6, Reason::NoAddress);
    }
    if read.end < value.len() {
        return at(read.count, read.end, Reason::BytesLeft);
    }
    whole_rule(id, value, any_width, read)
}

/// Stores where the fields of the value of a parameter are, as far as `room` reaches (RFC 9000, section 18.2): one
/// field of all bytes if the value is a number, an id or a token; none if it has no bytes; those of a preferred
/// address in their order, which are IPv4 Address, IPv4 Port, IPv6 Address, IPv6 Port, the Connection ID with its
/// length, and Stateless Reset Token; and one field of all bytes if the parameter is unknown or reserved. The number
/// of a span is the value of a number or a port; else how many bytes the field has, without a length.
///
/// If these bytes are no value of the parameter, the result says which field is at fault, where it begins, and why. A
/// list with them is then rejected, with the error of the reason. The spans of all fields that can be read are stored,
/// of the field at fault too if it can be read. Bounds that are values of other parameters aren't tested:
/// `min_ack_delay` may be any number; nor are repeats and which side sends the value.
///
/// With `any_width` an integer that has a default may be in any width, as in `ReadOptions`. It doesn't allocate.
pub fn value_spans(id: u64, value: &[u8], any_width: bool, room: &mut [Span]) -> Walked
    ensures ok { result.fault ≡ None → (found : Option TransportParameterId) × Finds id found
        × HasValue any_width found value.now room.old room.new result }
    ensures err { IfSome result.fault (λ reason. (found : Option TransportParameterId) × Finds id found
        × LacksValue any_width found value.now room.old room.new result reason) }
{
    let Some(id) = known(id) else {
        return walk(row(Sort::Any), 0, 0, value, room);
    };
    let read = walk(row(sort_of(id)), 0, 0, value, room);
    match read.fault {
        None => rule(id, value, any_width, read),
        Some(_) => read,
    }
}
