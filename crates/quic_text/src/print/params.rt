//! What is printed of a list of transport parameters.
ghost use Rattle.std.specs.Prelude.{◌≡◌, ◌++◌, IfOk, OnOk, codes};
ghost use Rattle.std.specs.String.{string_bytes};
ghost use Rattle.std.specs.List.{flat_map, list_all};
ghost use Rattle.quic_base.specs.Number.{AreBytes};
ghost use Rattle.quic_params.specs.Answer.{answer_at};
ghost use Rattle.quic_params.specs.Options.{as_quinn};
ghost use Rattle.quic_params.specs.Writing.{encoding, value_written};
ghost use Rattle.quic_params.specs.declared.value.Value.TheVariants as values;
ghost use Rattle.quic_text.specs.Printed.{line_bytes, is_plain};
ghost use Rattle.quic_text.specs.ParameterText.{digits_of, parameter_name_of, value_text, value_lines, record_lines, parameter_lines};

use quic_base::ids::Side;
use quic_params::laws;
use quic_params::transport_parameters::{
    Error, PreferredAddress, TransportParameterId, TransportParameters, Value,
};
use std::alloc::{AllocError, Global};

// Prints a line for each parameter that differs from its default, and then `ok`; or the error of the list.
pub(super) fn print_params(
    alloc: Global,
    side: Side,
    list: &[u8],
    text: &mut String,
) -> Result<bool, AllocError>
    ensures bytes { OnOk result
        (string_bytes text.new ≡ string_bytes text.old ++ flat_map line_bytes (parameter_lines side list.now)) }
    ensures clean { IfOk result (λ clean. clean ≡ list_all is_plain (parameter_lines side list.now)) }
{
    match answer(side, list) {
        Ok(params) => {
            print_record(alloc, &params, text)?;
            text.push_str("ok\n")?;
            Ok(true)
        }
        Err(Error::IllegalValue) => {
            text.push_str("error illegal value\n")?;
            Ok(false)
        }
        Err(Error::Malformed) => {
            text.push_str("error malformed\n")?;
            Ok(false)
        }
    }
}

// The record of a list, or its error.
fn answer(side: Side, list: &[u8]) -> Result<TransportParameters, Error>
    ensures { result ≡ answer_at as_quinn side list.now }
{
    laws::answer_as_a_function();
    are_bytes(list);
    let mut rest = list;
    TransportParameters::read(side, &mut rest)
}

// Each element is a byte.
fn are_bytes(bytes: &[u8])
    ensures { AreBytes bytes.now }
{}

// A line for each parameter that differs from its default.
fn print_record(
    alloc: Global,
    params: &TransportParameters,
    text: &mut String,
) -> Result<(), AllocError>
    ensures { OnOk result
        (string_bytes text.new ≡ string_bytes text.old ++ flat_map line_bytes (record_lines params.now)) }
{
    for id in TransportParameterId::SUPPORTED {
        print_parameter(alloc, id, params, text)?;
    }
    Ok(())
}

// The line of a parameter, if it has one.
fn print_parameter(
    alloc: Global,
    id: TransportParameterId,
    params: &TransportParameters,
    text: &mut String,
) -> Result<(), AllocError>
    ensures { OnOk result (string_bytes text.new ≡ string_bytes text.old
        ++ flat_map line_bytes (value_lines id (value_written params.now id))) }
{
    let Some(value) = params.written_value(id) else {
        return Ok(());
    };
    print_name(id, text)?;
    print_value(alloc, &value, text)
}

// The name of a parameter and a space.
fn print_name(id: TransportParameterId, text: &mut String) -> Result<(), AllocError>
    ensures { OnOk result (string_bytes text.new ≡ string_bytes text.old ++ (parameter_name_of id ++ codes " ")) }
{
    let name = parameter_name_of(id);
    write!(text, "{name} ")?;
    Ok(())
}

// A value, and the end of its line.
fn print_value(alloc: Global, value: &Value, text: &mut String) -> Result<(), AllocError>
    ensures { OnOk result (string_bytes text.new ≡ string_bytes text.old ++ (value_text value.now ++ codes "\n")) }
{
    match value {
        Value::Number(n) => writeln!(text, "{n}")?,
        Value::Flag => text.push_str("true\n")?,
        Value::Token(token) => print_digits(alloc, token.as_slice(), text)?,
        Value::Id(cid) => print_digits(alloc, cid.as_slice(), text)?,
        Value::Address(address) => print_address(alloc, address, text)?,
    }
    Ok(())
}

// Bytes in hexadecimal digits, `-` for none, and the end of the line.
fn print_digits(alloc: Global, bytes: &[u8], text: &mut String) -> Result<(), AllocError>
    ensures { OnOk result (string_bytes text.new ≡ string_bytes text.old ++ (digits_of bytes.now ++ codes "\n")) }
{
    if bytes.is_empty() {
        text.push_str("-\n")?;
        return Ok(());
    }
    let digits = hex::encode(alloc, bytes)?;
    writeln!(text, "{digits}")?;
    Ok(())
}

// The digits of a preferred address as it is encoded in a list, and the end of the line.
fn print_address(
    alloc: Global,
    address: &PreferredAddress,
    text: &mut String,
) -> Result<(), AllocError>
    ensures { OnOk result (string_bytes text.new ≡ string_bytes text.old
        ++ (digits_of (encoding (values.Address address.now)) ++ codes "\n")) }
{
    let mut bytes = Vec::new(alloc);
    if address.encode(&mut bytes).is_err() {
        return Err(AllocError);
    }
    print_digits(alloc, bytes.as_slice(), text)
}

// The name that a parameter is printed by.
fn parameter_name_of(id: TransportParameterId) -> &'static str
    ensures { result.now ≡ parameter_name_of id }
{
    match id {
        TransportParameterId::MaxIdleTimeout => "max_idle_timeout",
        TransportParameterId::MaxUdpPayloadSize => "max_udp_payload_size",
        TransportParameterId::InitialMaxData => "initial_max_data",
        TransportParameterId::InitialMaxStreamDataBidiLocal => "initial_max_stream_data_bidi_local",
        TransportParameterId::InitialMaxStreamDataBidiRemote => {
            "initial_max_stream_data_bidi_remote"
        }
        TransportParameterId::InitialMaxStreamDataUni => "initial_max_stream_data_uni",
        TransportParameterId::InitialMaxStreamsBidi => "initial_max_streams_bidi",
        TransportParameterId::InitialMaxStreamsUni => "initial_max_streams_uni",
        TransportParameterId::AckDelayExponent => "ack_delay_exponent",
        TransportParameterId::MaxAckDelay => "max_ack_delay",
        TransportParameterId::ActiveConnectionIdLimit => "active_connection_id_limit",
        TransportParameterId::ReservedTransportParameter => "grease_transport_parameter",
        TransportParameterId::StatelessResetToken => "stateless_reset_token",
        TransportParameterId::DisableActiveMigration => "disable_active_migration",
        TransportParameterId::MaxDatagramFrameSize => "max_datagram_frame_size",
        TransportParameterId::PreferredAddress => "preferred_address",
        TransportParameterId::OriginalDestinationConnectionId => "original_dst_cid",
        TransportParameterId::InitialSourceConnectionId => "initial_src_cid",
        TransportParameterId::RetrySourceConnectionId => "retry_src_cid",
        TransportParameterId::GreaseQuicBit => "grease_quic_bit",
        TransportParameterId::MinAckDelayDraft07 => "min_ack_delay",
    }
}
