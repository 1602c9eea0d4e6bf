//! Transport parameters as the fields of a struct for C.
ghost use Rattle.std.specs.Prelude.{◌≡◌, ◌+◌, ◌*◌, ◌<◌, ◌≤◌, ◌^◌};
ghost use Rattle.quic_c_params.specs.Shown.{flag_bit, number_word, reset_token_of, id_of, len_of, octets_of_v4, port_of_v4, octets_of_v6, port_of_v6, v4_in, v6_in, id_in, token_in, bits, present_in, params_words};

use crate::words::CParams;
use quic_base::ids::{ConnectionId, ResetToken};
use quic_base::varint::VarInt;
use quic_params::transport_parameters::{PreferredAddress, TransportParameters};
use std::net::{SocketAddrV4, SocketAddrV6};

// A bit with others above it.
fn bit(set: bool, above: u32) -> u32
    requires { above < 2 ^ 30 }
    ensures value { result ≡ flag_bit set above }
    ensures bound { result ≤ 1 + 2 * above }
{
    if set { 1 + 2 * above } else { 2 * above }
}

fn number(n: &Option<VarInt>) -> u64
    ensures { result ≡ number_word n.now }
{
    match n {
        Some(n) => n.into_inner(),
        None => 0,
    }
}

fn token(token: &Option<ResetToken>) -> [u8; 16]
    ensures { result ≡ reset_token_of token.now }
{
    match token {
        Some(token) => <[u8; 16]>::from(*token),
        None => [0; 16],
    }
}

fn id(id: &Option<ConnectionId>) -> [u8; 20]
    ensures { result ≡ id_of id.now }
{
    match id {
        Some(id) => *id.padded(),
        None => [0; 20],
    }
}

fn id_len(id: &Option<ConnectionId>) -> u32
    ensures { result ≡ len_of id.now }
{
    match id {
        Some(id) => id.as_slice().len() as u32,
        None => 0,
    }
}

fn v4_octets(address: &Option<SocketAddrV4>) -> [u8; 4]
    ensures { result ≡ octets_of_v4 address.now }
{
    match address {
        Some(address) => address.ip().octets(),
        None => [0; 4],
    }
}

fn v4_port(address: &Option<SocketAddrV4>) -> u16
    ensures { result ≡ port_of_v4 address.now }
{
    match address {
        Some(address) => address.port(),
        None => 0,
    }
}

fn v6_octets(address: &Option<SocketAddrV6>) -> [u8; 16]
    ensures { result ≡ octets_of_v6 address.now }
{
    match address {
        Some(address) => address.ip().octets(),
        None => [0; 16],
    }
}

fn v6_port(address: &Option<SocketAddrV6>) -> u16
    ensures { result ≡ port_of_v6 address.now }
{
    match address {
        Some(address) => address.port(),
        None => 0,
    }
}

// The parts of a preferred address, if there is one.
fn v4_in(address: &Option<PreferredAddress>) -> Option<SocketAddrV4>
    ensures { result ≡ v4_in address.now }
{
    match address {
        Some(address) => address.address_v4,
        None => None,
    }
}

fn v6_in(address: &Option<PreferredAddress>) -> Option<SocketAddrV6>
    ensures { result ≡ v6_in address.now }
{
    match address {
        Some(address) => address.address_v6,
        None => None,
    }
}

fn id_in(address: &Option<PreferredAddress>) -> Option<ConnectionId>
    ensures { result ≡ id_in address.now }
{
    match address {
        Some(address) => Some(address.connection_id),
        None => None,
    }
}

fn token_in(address: &Option<PreferredAddress>) -> Option<ResetToken>
    ensures { result ≡ token_in address.now }
{
    match address {
        Some(address) => Some(address.stateless_reset_token),
        None => None,
    }
}

// Which of the values that may be absent are present.
fn present(p: &TransportParameters) -> u32
    ensures { result ≡ bits (present_in p.now) }
{
    let above = bit(p.min_ack_delay.is_some(), 0);
    let above = bit(p.grease_quic_bit, above);
    let above = bit(p.retry_src_cid.is_some(), above);
    let above = bit(p.initial_src_cid.is_some(), above);
    let above = bit(p.original_dst_cid.is_some(), above);
    let above = bit(v6_in(&p.preferred_address).is_some(), above);
    let above = bit(v4_in(&p.preferred_address).is_some(), above);
    let above = bit(p.preferred_address.is_some(), above);
    let above = bit(p.max_datagram_frame_size.is_some(), above);
    let above = bit(p.disable_active_migration, above);
    bit(p.stateless_reset_token.is_some(), above)
}

// The struct of a record.
pub(crate) fn show(p: &TransportParameters) -> CParams
    ensures { result ≡ params_words p.now }
{
    let address = &p.preferred_address;
    let (v4, v6) = (v4_in(address), v6_in(address));
    let preferred_id = id_in(address);
    CParams {
        present: present(p),
        reserved: 0,
        max_idle_timeout: p.max_idle_timeout.into_inner(),
        max_udp_payload_size: p.max_udp_payload_size.into_inner(),
        initial_max_data: p.initial_max_data.into_inner(),
        initial_max_stream_data_bidi_local: p.initial_max_stream_data_bidi_local.into_inner(),
        initial_max_stream_data_bidi_remote: p.initial_max_stream_data_bidi_remote.into_inner(),
        initial_max_stream_data_uni: p.initial_max_stream_data_uni.into_inner(),
        initial_max_streams_bidi: p.initial_max_streams_bidi.into_inner(),
        initial_max_streams_uni: p.initial_max_streams_uni.into_inner(),
        ack_delay_exponent: p.ack_delay_exponent.into_inner(),
        max_ack_delay: p.max_ack_delay.into_inner(),
        active_connection_id_limit: p.active_connection_id_limit.into_inner(),
        max_datagram_frame_size: number(&p.max_datagram_frame_size),
        min_ack_delay: number(&p.min_ack_delay),
        original_dst_cid_len: id_len(&p.original_dst_cid),
        initial_src_cid_len: id_len(&p.initial_src_cid),
        retry_src_cid_len: id_len(&p.retry_src_cid),
        preferred_id_len: id_len(&preferred_id),
        preferred_v4_port: v4_port(&v4),
        preferred_v6_port: v6_port(&v6),
        original_dst_cid: id(&p.original_dst_cid),
        initial_src_cid: id(&p.initial_src_cid),
        retry_src_cid: id(&p.retry_src_cid),
        preferred_id: id(&preferred_id),
        stateless_reset_token: token(&p.stateless_reset_token),
        preferred_token: token(&token_in(address)),
        preferred_v6: v6_octets(&v6),
        preferred_v4: v4_octets(&v4),
    }
}
