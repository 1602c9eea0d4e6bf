//! What writing transport parameters leaves.
use quic_base::coding::NoRoom;
use quic_base::ids::{ConnectionId, ResetToken};
use quic_base::varint::VarInt;
use quic_checks::Checks;
use quic_params::transport_parameters::{
    PreferredAddress, ReservedTransportParameter, TransportParameters, WriteOrder,
};
use std::net::{Ipv4Addr, Ipv6Addr, SocketAddrV4, SocketAddrV6};
use std::test::Fail;

// A record with most kinds of values, and its bytes.
const WHOLE: &str =
    "030244b00801100901100a01020d2a7f000001002a0000000000000000000000000000000100180142abababababababababababababababab00000f006ab200c0000000ff04de1b0247d0";

fn preferred() -> PreferredAddress {
    PreferredAddress {
        address_v4: Some(SocketAddrV4::new(Ipv4Addr::LOCALHOST, 42)),
        address_v6: Some(SocketAddrV6::new(Ipv6Addr::LOCALHOST, 24, 0, 0)),
        connection_id: ConnectionId::new(&[0x42]),
        stateless_reset_token: ResetToken::from([0xab; 16]),
    }
}

fn whole() -> TransportParameters {
    let mut params = TransportParameters::default();
    params.initial_src_cid = Some(ConnectionId::new(&[]));
    params.original_dst_cid = Some(ConnectionId::new(&[]));
    params.initial_max_streams_bidi = VarInt::from_u32(16);
    params.initial_max_streams_uni = VarInt::from_u32(16);
    params.ack_delay_exponent = VarInt::from_u32(2);
    params.max_udp_payload_size = VarInt::from_u32(1200);
    params.preferred_address = Some(preferred());
    params.grease_quic_bit = true;
    params.min_ack_delay = Some(VarInt::from_u32(2000));
    params
}

// The order of the table, backwards.
const DOWNWARD: [u8; 21] = [
    20, 19, 18, 17, 16, 15, 14, 13, 12, 11, 10, 9, 8, 7, 6, 5, 4, 3, 2, 1, 0,
];

// Whether the whole is there, or a part of it if there was no room.
fn is_begun(answer: Result<(), NoRoom>, out: &[u8], whole: &[u8]) -> bool {
    match answer {
        Ok(()) => out == whole,
        Err(NoRoom) => out.len() < whole.len() && whole.starts_with(out),
    }
}

#[test]
fn a_record_of_most_kinds(rt: HostRuntime) -> Result<(), Fail> {
    let mut checks = Checks::new(rt.alloc());
    let Ok(bytes) = hex::decode(rt.alloc(), WHOLE) else {
        return Ok(());
    };
    let params = whole();
    let mut out = Vec::new(rt.alloc());
    let answer = params.write(&mut out);
    checks.holds(is_begun(answer, out.as_slice(), bytes.as_slice()));
    if let Ok(mut out) = Vec::with_capacity(rt.alloc(), 128) {
        checks.same(params.write(&mut out), Ok(()));
        checks.same(out.as_slice(), bytes.as_slice());
    }
    checks.verdict()
}

#[test]
fn grease_behind_what_stood_there(rt: HostRuntime) -> Result<(), Fail> {
    let mut checks = Checks::new(rt.alloc());
    let mut params = TransportParameters::default();
    params.disable_active_migration = true;
    params.grease_transport_parameter = Some(ReservedTransportParameter::new(2, b"0123456789"));
    params.write_order = WriteOrder::new(DOWNWARD);
    let mut out = Vec::new(rt.alloc());
    if out.extend_from_slice(b"before").is_err() {
        return Ok(());
    }
    let answer = params.write(&mut out);
    checks.holds(out.starts_with(b"before"));
    checks.holds(is_begun(
        answer,
        out.as_slice(),
        b"before\x0c\x00\x40\x59\x0a0123456789",
    ));
    checks.verdict()
}

#[test]
fn a_preferred_address(rt: HostRuntime) -> Result<(), Fail> {
    let mut checks = Checks::new(rt.alloc());
    let Ok(bytes) = hex::decode(rt.alloc(), &WHOLE[30..114]) else {
        return Ok(());
    };
    let mut out = Vec::new(rt.alloc());
    let answer = preferred().encode(&mut out);
    checks.holds(is_begun(answer, out.as_slice(), bytes.as_slice()));
    checks.verdict()
}
