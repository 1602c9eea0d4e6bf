//! Writes a struct of C as a list of transport parameters.
ghost use Rattle.std.specs.Prelude.{◌≡◌, ◌⊎◌, ◌<◌, ◌≤◌, ◌^◌, ℕ, List, Bool, Option, pos, length, IsTrue, ◌↔◌, IfSome, IsNone, is_some, None, Ok};
ghost use Rattle.std.specs.declared.net.socket_addr.SocketAddrV4.{SocketAddrV4};
ghost use Rattle.std.specs.declared.net.socket_addr.SocketAddrV6.{SocketAddrV6};
ghost use Rattle.quic_base.specs.declared.ids.Side.{Side};
ghost use Rattle.quic_params.specs.Range.{IsTypedAddress, IsRecordInRange};
ghost use Rattle.quic_params.specs.Meaning.{IsReadAnswer};
ghost use Rattle.quic_params.specs.Options.{as_quinn};
ghost use Rattle.quic_params.specs.Writing.{written};
ghost use Rattle.quic_params.specs.declared.record.TransportParameters.{TransportParameters};
ghost use Rattle.quic_c_params.specs.Shown.{flag_bit, bits, present_in, number_word, reset_token_of, padded, id_of, len_of, octets_of_v4, port_of_v4, octets_of_v6, port_of_v6, params_words};
ghost use Rattle.quic_c_params.specs.Faults.{DescribesPlain, HasNoFlow, IsPlainAddress};
ghost use Rattle.quic_c_params.specs.Written.{DescribesParams, CanWriteParams, WroteParams, ParamsNeedMore, DescribesNoParams, HasFlags};
ghost use Rattle.quic_results.specs.Results.{failed};

use crate::read::side_of;
use crate::show::show;
use crate::words::CParams;
use quic_base::ids::{ConnectionId, ResetToken, Side};
use quic_base::varint::VarInt;
use quic_params::laws;
use quic_params::transport_parameters::{PreferredAddress, TransportParameters};
use quic_results::results::Failure;
use std::net::{Ipv4Addr, Ipv6Addr, SocketAddrV4, SocketAddrV6};

// The lowest bit, and the others.
fn split(word: u32) -> (bool, u32)
    ensures { (b : Bool) (above : ℕ) → word ≡ flag_bit b above → (result.0 ≡ b) × (result.1 ≡ above) }
{
    (word % 2 == 1, word / 2)
}

// What is present, by the bits of a field.
#[derive(Clone, Copy)]
pub(crate) struct Flags {
    token: bool,
    stays: bool,
    datagram: bool,
    pub address: bool,
    v4: bool,
    v6: bool,
    original: bool,
    initial: bool,
    retry: bool,
    grease: bool,
    delay: bool,
}

pub(crate) fn flags_in(word: u32) -> Flags
    ensures { (p : TransportParameters) → word ≡ bits (present_in p) → HasFlags result p }
{
    let (token, above) = split(word);
    let (stays, above) = split(above);
    let (datagram, above) = split(above);
    let (address, above) = split(above);
    let (v4, above) = split(above);
    let (v6, above) = split(above);
    let (original, above) = split(above);
    let (initial, above) = split(above);
    let (retry, above) = split(above);
    let (grease, above) = split(above);
    let (delay, _) = split(above);
    Flags {
        token,
        stays,
        datagram,
        address,
        v4,
        v6,
        original,
        initial,
        retry,
        grease,
        delay,
    }
}

// Each of these returns the value that the fields describe, if they describe one.
fn varint(n: u64) -> VarInt
    ensures { (m : ℕ) → m < 2 ^ 62 → n ≡ m → result ≡ m }
{
    if n < 1 << 62 {
        VarInt::from_u64_unchecked(n)
    } else {
        VarInt::from_u32(0)
    }
}

fn number_in(there: bool, n: u64) -> Option<VarInt>
    ensures { (o : Option ℕ) → IfSome o (λ m. m < 2 ^ 62) → there ≡ is_some o → n ≡ number_word o → result ≡ o }
{
    if there { Some(varint(n)) } else { None }
}

fn token_in(there: bool, token: [u8; 16]) -> Option<ResetToken>
    ensures { (o : Option (List ℕ)) → there ≡ is_some o → token ≡ reset_token_of o → result ≡ o }
{
    if there {
        Some(ResetToken::from(token))
    } else {
        None
    }
}

fn id_in(len: u32, bytes: &[u8; 20]) -> ConnectionId
    ensures { (id : List ℕ) → length id ≤ 20 → len ≡ length id → bytes.now ≡ padded id → result ≡ id }
{
    if len > 20 {
        return ConnectionId::new(&[]);
    }
    ConnectionId::new(&bytes[..len as usize])
}

fn v4_in(there: bool, octets: [u8; 4], port: u16) -> Option<SocketAddrV4>
    ensures { (o : Option SocketAddrV4) → there ≡ is_some o → octets ≡ octets_of_v4 o → port ≡ port_of_v4 o
        → result ≡ o }
{
    if there {
        Some(SocketAddrV4::new(Ipv4Addr::from_octets(octets), port))
    } else {
        None
    }
}

fn v6_in(there: bool, octets: [u8; 16], port: u16) -> Option<SocketAddrV6>
    ensures described { (o : Option SocketAddrV6) → IfSome o HasNoFlow → there ≡ is_some o → octets ≡ octets_of_v6 o
        → port ≡ port_of_v6 o → result ≡ o }
    ensures plain { IfSome result HasNoFlow }
{
    if there {
        Some(SocketAddrV6::new(Ipv6Addr::from_octets(octets), port, 0, 0))
    } else {
        None
    }
}

fn maybe_id(there: bool, len: u32, bytes: &[u8; 20]) -> Option<ConnectionId>
    ensures { (o : Option (List ℕ)) → IfSome o (λ id. length id ≤ 20) → there ≡ is_some o → len ≡ len_of o
        → bytes.now ≡ id_of o → result ≡ o }
{
    if there { Some(id_in(len, bytes)) } else { None }
}

fn address_in(words: &CParams, flags: Flags) -> Option<PreferredAddress>
    ensures described { (p : TransportParameters) → words.now ≡ params_words p → HasFlags flags p
        → IfSome p.preferred_address IsTypedAddress → IfSome p.preferred_address IsPlainAddress
        → result ≡ p.preferred_address }
    ensures plain { IfSome result IsPlainAddress }
{
    if !flags.address {
        return None;
    }
    let (v4, v6) = (words.preferred_v4, words.preferred_v6);
    let token = words.preferred_token;
    Some(PreferredAddress {
        address_v4: v4_in(flags.v4, v4, words.preferred_v4_port),
        address_v6: v6_in(flags.v6, v6, words.preferred_v6_port),
        connection_id: id_in(words.preferred_id_len, &words.preferred_id),
        stateless_reset_token: ResetToken::from(token),
    })
}

// The record that the struct describes, if it describes one.
pub(crate) fn record_in(words: &CParams) -> TransportParameters
    ensures described { (p : TransportParameters) → DescribesPlain words.now p → result ≡ p }
    ensures plain { IfSome result.preferred_address IsPlainAddress }
    ensures no_grease { result.grease_transport_parameter ≡ None }
    ensures no_order { result.write_order ≡ None }
{
    let flags = flags_in(words.present);
    let token = words.stateless_reset_token;
    TransportParameters {
        max_idle_timeout: varint(words.max_idle_timeout),
        max_udp_payload_size: varint(words.max_udp_payload_size),
        initial_max_data: varint(words.initial_max_data),
        initial_max_stream_data_bidi_local: varint(words.initial_max_stream_data_bidi_local),
        initial_max_stream_data_bidi_remote: varint(words.initial_max_stream_data_bidi_remote),
        initial_max_stream_data_uni: varint(words.initial_max_stream_data_uni),
        initial_max_streams_bidi: varint(words.initial_max_streams_bidi),
        initial_max_streams_uni: varint(words.initial_max_streams_uni),
        ack_delay_exponent: varint(words.ack_delay_exponent),
        max_ack_delay: varint(words.max_ack_delay),
        active_connection_id_limit: varint(words.active_connection_id_limit),
        grease_transport_parameter: None,
        stateless_reset_token: token_in(flags.token, token),
        disable_active_migration: flags.stays,
        max_datagram_frame_size: number_in(flags.datagram, words.max_datagram_frame_size),
        preferred_address: address_in(words, flags),
        original_dst_cid: maybe_id(
            flags.original,
            words.original_dst_cid_len,
            &words.original_dst_cid,
        ),
        initial_src_cid: maybe_id(
            flags.initial,
            words.initial_src_cid_len,
            &words.initial_src_cid,
        ),
        retry_src_cid: maybe_id(flags.retry, words.retry_src_cid_len, &words.retry_src_cid),
        grease_quic_bit: flags.grease,
        min_ack_delay: number_in(flags.delay, words.min_ack_delay),
        write_order: None,
    }
}

pub(crate) fn same_words(a: &CParams, b: &CParams) -> bool
    ensures { IsTrue result ↔ (a.now ≡ b.now) }
{
    a == b
}

// The record that the struct describes, if the side reads it back.
pub(crate) fn described(side: Side, words: &CParams) -> Option<TransportParameters>
    ensures some { IfSome result
        (λ p. DescribesParams words.now p × IsRecordInRange side p × IsReadAnswer as_quinn side (written p) (Ok p)) }
    ensures none { IsNone result → (p : TransportParameters) → DescribesParams words.now p → IsRecordInRange side p
        → ⊥ }
{
    let params = record_in(words);
    params.type_bounds();
    laws::read_back();
    if !same_words(words, &show(&params)) || !params.in_range(side) {
        return None;
    }
    Some(params)
}

/// Writes the list of the parameters in a struct at the front of `dest`, those that differ from their defaults and
/// those that are present, each in its least widths (RFC 9000, section 18): `side` is 0 if a client is to read it, 1 if
/// a server is. It returns 0 with how many bytes were written, and the bytes after them don't change: reading them for
/// this side gives the same struct. It returns `NoRoom` with how many bytes are needed if `dest` has fewer; `Kind`
/// exactly if `side` is above 1; `Parameter` if the side wouldn't read the struct back: a number is out of range, a bit
/// or a byte of an absent value is not 0, an id is longer than 20 bytes, a value is there that only servers send, an
/// address is unspecified with port 0, or a preferred address has no address or no id. `dest` changes only with 0, and
/// `written` only with 0 and `NoRoom`.
#[unsafe(no_mangle)]
pub extern "C" fn quic_wire_params_write_(
    side: u32,
    words: &CParams,
    dest: &mut [u8],
    written: &mut usize,
) -> i32
    ensures returns { (result ≡ pos 0) ⊎ (result ≡ failed Failure.NoRoom) ⊎ (result ≡ failed Failure.Kind)
        ⊎ (result ≡ failed Failure.Parameter) }
    ensures wrote { result ≡ pos 0 → WroteParams side words.now dest.old dest.new written.new }
    ensures room { result ≡ failed Failure.NoRoom → ParamsNeedMore side words.now dest.old written.new }
    ensures side { (result ≡ failed Failure.Kind) ↔ (1 < side) }
    ensures refused { result ≡ failed Failure.Parameter → DescribesNoParams side words.now }
    ensures kept { (result ≡ failed Failure.Kind) ⊎ (result ≡ failed Failure.Parameter)
        → written.new ≡ written.old }
    ensures same { (result ≡ pos 0) ⊎ (dest.new ≡ dest.old) }
{
    let Some(reader) = side_of(side) else {
        return Failure::Kind.number();
    };
    let Some(params) = described(reader, words) else {
        return Failure::Parameter.number();
    };
    match params.write_into(dest) {
        Ok(n) => {
            *written = n;
            0
        }
        Err(n) => {
            *written = n;
            Failure::NoRoom.number()
        }
    }
}
