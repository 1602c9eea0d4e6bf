//! Which transport parameter the peer would reject.
ghost use Rattle.std.specs.Prelude.{◌≡◌, ◌⊎◌, ◌↔◌, ◌<◌, Option, Some, pos};
ghost use Rattle.quic_base.specs.declared.ids.Side.{Side};
ghost use Rattle.quic_params.specs.Range.{IsRecordInRange};
ghost use Rattle.quic_params.specs.declared.record.TransportParameters.{TransportParameters};
ghost use Rattle.quic_c_params.specs.Answers.{IsSide};
ghost use Rattle.quic_c_params.specs.Faults.{first_large, id_or, integers, number_of, reason_of, DescribesPlain, IsRecordFault, IsWriteFault};
ghost use Rattle.quic_c_params.specs.Written.{CanWriteParams, DescribesNoParams, DescribesParams};
ghost use Rattle.quic_results.specs.Results.{failed};

use crate::read::side_of;
use crate::show::show;
use crate::words::CParams;
use crate::write::{described, record_in, same_words};
use quic_base::ids::Side;
use quic_params::transport_parameters::{TransportParameterId, TransportParameters};
use quic_results::results::Failure;

/// Why the peer rejects a parameter's value (RFC 9000, section 18.2).
#[derive(Clone, Copy)]
pub enum Reason {
    /// The number is below the parameter's least value.
    BelowLeast,
    /// The number is above the parameter's greatest value.
    AboveGreatest,
    /// `min_ack_delay` is above `max_ack_delay`.
    AboveMaxAckDelay,
    /// A client must not send it.
    OnlyFromServers,
    /// The preferred address has an empty id.
    EmptyId,
    /// The preferred address has no address, or one of zeros with port 0, which means that there is none.
    NoAddress,
}

/// What is found.
#[derive(Clone, Copy)]
pub enum Found {
    /// The peer accepts all values.
    Nothing,
    /// It rejects that of a parameter.
    Parameter(TransportParameterId, Reason),
    /// The struct has something else than values of parameters.
    NoRecord,
}

// The parameter of the first integer of 2^62 or more.
fn first_large(integers: &[(TransportParameterId, u64)]) -> Option<TransportParameterId>
    ensures { result ≡ first_large integers.now }
{
    let ((id, n), others) = integers.split_first()?;
    if *n < 1 << 62 {
        first_large(others)
    } else {
        Some(*id)
    }
}

fn large_in(words: &CParams) -> Option<TransportParameterId>
    ensures { result ≡ first_large (integers words.now) }
{
    use TransportParameterId::*;
    first_large(&[
        (MaxIdleTimeout, words.max_idle_timeout),
        (MaxUdpPayloadSize, words.max_udp_payload_size),
        (InitialMaxData, words.initial_max_data),
        (
            InitialMaxStreamDataBidiLocal,
            words.initial_max_stream_data_bidi_local,
        ),
        (
            InitialMaxStreamDataBidiRemote,
            words.initial_max_stream_data_bidi_remote,
        ),
        (InitialMaxStreamDataUni, words.initial_max_stream_data_uni),
        (InitialMaxStreamsBidi, words.initial_max_streams_bidi),
        (InitialMaxStreamsUni, words.initial_max_streams_uni),
        (AckDelayExponent, words.ack_delay_exponent),
        (MaxAckDelay, words.max_ack_delay),
        (ActiveConnectionIdLimit, words.active_connection_id_limit),
        (MaxDatagramFrameSize, words.max_datagram_frame_size),
        (MinAckDelayDraft07, words.min_ack_delay),
    ])
}

// Why a side doesn't accept the value of a parameter.
fn reason_of(id: TransportParameterId, params: &TransportParameters) -> Reason
    ensures { result ≡ reason_of id params.now }
{
    match id {
        TransportParameterId::ActiveConnectionIdLimit => Reason::BelowLeast,
        TransportParameterId::MaxUdpPayloadSize => Reason::BelowLeast,
        TransportParameterId::MinAckDelayDraft07 => Reason::AboveMaxAckDelay,
        TransportParameterId::PreferredAddress => match &params.preferred_address {
            Some(address) => {
                if address.connection_id.as_slice().is_empty() {
                    Reason::EmptyId
                } else {
                    Reason::OnlyFromServers
                }
            }
            None => Reason::OnlyFromServers,
        },
        TransportParameterId::OriginalDestinationConnectionId => Reason::OnlyFromServers,
        TransportParameterId::RetrySourceConnectionId => Reason::OnlyFromServers,
        TransportParameterId::StatelessResetToken => Reason::OnlyFromServers,
        _ => Reason::AboveGreatest,
    }
}

// What is found of a record.
fn found_in(side: Side, params: &TransportParameters) -> Found
    ensures { IsRecordFault side params.now result }
{
    if let Some(id) = params.broken(side) {
        return Found::Parameter(id, reason_of(id, params));
    }
    if params.in_range(side) {
        return Found::Nothing;
    }
    Found::Parameter(TransportParameterId::PreferredAddress, Reason::NoAddress)
}

// What is found of a struct.
fn found_of(side: Side, words: &CParams) -> Found
    ensures found { IsWriteFault side words.now result }
    ensures nothing { (params : TransportParameters) → DescribesParams words.now params → IsRecordInRange side params
        → result ≡ Found.Nothing }
{
    if let Some(id) = large_in(words) {
        return Found::Parameter(id, Reason::AboveGreatest);
    }
    let params = record_in(words);
    params.type_bounds();
    if !same_words(words, &show(&params)) {
        return Found::NoRecord;
    }
    found_in(side, &params)
}

fn number_of(found: Found) -> i32
    ensures { result ≡ pos (number_of found) }
{
    match found {
        Found::Nothing => 0,
        Found::Parameter(_, Reason::BelowLeast) => 1,
        Found::Parameter(_, Reason::AboveGreatest) => 2,
        Found::Parameter(_, Reason::AboveMaxAckDelay) => 3,
        Found::Parameter(_, Reason::OnlyFromServers) => 4,
        Found::Parameter(_, Reason::EmptyId) => 5,
        Found::Parameter(_, Reason::NoAddress) => 6,
        Found::NoRecord => 7,
    }
}

// Stores the number of the parameter that is found, if one is.
fn store_id(found: Found, id: &mut u64)
    ensures { id.new ≡ id_or id.old found }
{
    if let Found::Parameter(parameter, _) = found {
        *id = parameter.number();
    }
}

/// Why `quic_wire_params_write_` returns `Parameter` for these arguments, as a number, and in `id` the first parameter
/// whose value the side would reject, in the order in which a reader finds it: 1 if it is below the parameter's least
/// value; 2 if it is above its greatest, or 2^62 or more; 3 if a `min_ack_delay` is above `max_ack_delay`; 4 if a
/// client must not send it; 5 if a preferred address has an empty id; 6 if it has no address, or one of zeros with port
/// 0. 7 means that it is no parameter's value: a bit or a byte of an absent value is not 0, or an id is longer than 20
/// bytes. It returns 0 exactly if the list can be written, and `Kind` exactly if `side` is above 1. `id` changes only
/// with 1 to 6.
#[unsafe(no_mangle)]
pub extern "C" fn quic_wire_params_write_fault_(side: u32, words: &CParams, id: &mut u64) -> i32
    ensures kind { (result ≡ failed Failure.Kind) ↔ (1 < side) }
    ensures found { (reader : Side) → IsSide side reader
        → (what : Found) × IsWriteFault reader words.now what × (result ≡ pos (number_of what))
        × (id.new ≡ id_or id.old what) }
    ensures possible { result ≡ pos 0
        → (params : TransportParameters) × CanWriteParams side words.now params }
    ensures refused { (result ≡ pos 0) ⊎ DescribesNoParams side words.now }
    ensures same { result ≡ failed Failure.Kind → id.new ≡ id.old }
{
    let Some(reader) = side_of(side) else {
        return Failure::Kind.number();
    };
    let found = found_of(reader, words);
    store_id(found, id);
    described(reader, words);
    number_of(found)
}
