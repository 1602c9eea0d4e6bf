//! Packets that are sealed and opened.
use crate::counting::{CountingKey, all_counting, opened_by};
use crate::worked::{ALL_ZERO, all_toy, handshake, short, toy};
use bytes::BytesMut;
use quic_bench::parsers::NoIds;
use quic_checks::Checks;
use quic_frames::frame::Frame;
use quic_packets::crypto::toy::ToyHeaderKey;
use quic_packets::packet::{
    FixedLengthConnectionIdParser, OpenError, Opened, SealError, SpaceKeys, open_datagram,
    open_packet, seal_packet,
};
use std::test::Fail;

// A Handshake packet of 30 bytes with the frames PING, PADDING, PADDING, and a 1-RTT packet with the same.
const WHOLE: [u8; 52] =
    *b"\xe0\0\0\0\x01\x01\xaa\0\x40\x14\0\x01\0\0\0\0\0\0\0\0\0\0\0\0\0\0\0\0\0\0\x40\xaa\x05\x01\0\0\0\0\0\0\0\0\0\x05\0\0\0\0\0\0\0\0";

fn seal_handshake(out: &mut Vec<u8>) -> Result<usize, SealError> {
    let header = handshake(1);
    let frames = [Frame::Ping, Frame::Padding, Frame::Padding];
    seal_packet(&header, 0, &frames, &toy(), out)
}

fn seal_short(out: &mut Vec<u8>) -> Result<usize, SealError> {
    let header = short(b"\xaa", 5);
    let frames = [Frame::Ping, Frame::Padding, Frame::Padding];
    seal_packet(&header, 5, &frames, &toy(), out)
}

fn is_first_packet(bytes: &[u8]) -> bool {
    let Some((first, _)) = WHOLE.split_at_checked(30) else {
        return false;
    };
    bytes == first
}

fn is_sealed_or_refused(out: &mut Vec<u8>) -> bool {
    match seal_handshake(out) {
        Ok(len) => len == 30 && is_first_packet(out.as_slice()),
        Err(e) => e == SealError::NoRoom && out.is_empty(),
    }
}

// A packet is sealed whole or not at all.
#[test]
fn sealing_takes_one_growth(rt: HostRuntime) -> Result<(), Fail> {
    let mut checks = Checks::new(rt.alloc());
    checks.holds(is_sealed_or_refused(&mut Vec::new(rt.alloc())));
    checks.verdict()
}

fn are_both_sealed(out: &mut Vec<u8>) -> bool {
    seal_handshake(out) == Ok(30) && seal_short(out) == Ok(22) && out.as_slice() == WHOLE.as_slice()
}

// If there is room, sealing doesn't allocate.
#[test]
fn sealing_where_there_is_room(rt: HostRuntime) -> Result<(), Fail> {
    let mut out = Vec::new(rt.alloc());
    if out.reserve(52).is_err() {
        return Ok(());
    }
    let mut checks = Checks::new(rt.alloc());
    checks.holds(are_both_sealed(&mut out));
    checks.verdict()
}

fn has_number(packet: &Opened, number: u64) -> bool {
    packet.number == Some(number) && packet.payload.as_slice() == b"\x01\0\0".as_slice()
}

fn is_opened_or_refused(bytes: BytesMut) -> bool {
    match open_packet(bytes, &NoIds, &[1], false, &all_toy(), &ALL_ZERO) {
        Ok((opened, rest)) => has_number(&opened, 0) && rest.is_some(),
        Err(e) => e == OpenError::OutOfMemory,
    }
}

// A packet is opened, or an allocation failed.
#[test]
fn opening_takes_memory(rt: HostRuntime) -> Result<(), Fail> {
    let Ok(bytes) = BytesMut::copy_from_slice(rt.alloc(), &WHOLE) else {
        return Ok(());
    };
    let mut checks = Checks::new(rt.alloc());
    checks.holds(is_opened_or_refused(bytes));
    checks.verdict()
}

fn are_opened_or_refused(opened: &mut Vec<Opened>, bytes: BytesMut) -> bool {
    let done = open_datagram(
        bytes,
        &FixedLengthConnectionIdParser::new(1),
        &[1],
        false,
        &all_toy(),
        &ALL_ZERO,
        opened,
    );
    match done {
        Ok(()) => opened.len() == 2,
        Err(e) => e == OpenError::OutOfMemory && opened.len() < 2,
    }
}

// Whether the packets are the first ones.
fn are_first(opened: &[Opened]) -> bool {
    for (packet, &number) in opened.iter().zip(&[0, 5]) {
        if !has_number(packet, number) {
            return false;
        }
    }
    true
}

// After an allocation failed for a packet, the packets before it are there.
#[test]
fn first_packets_stand(rt: HostRuntime) -> Result<(), Fail> {
    let Ok(bytes) = BytesMut::copy_from_slice(rt.alloc(), &WHOLE) else {
        return Ok(());
    };
    let mut checks = Checks::new(rt.alloc());
    let opened = &mut Vec::new(rt.alloc());
    checks.holds(are_opened_or_refused(opened, bytes));
    checks.holds(are_first(opened.as_slice()));
    checks.verdict()
}

// Whether there are as many packets as the keys have opened payloads, and both if no allocation failed.
fn are_all_that_were_opened(
    opened: &mut Vec<Opened>,
    keys: &SpaceKeys<ToyHeaderKey, CountingKey>,
    bytes: BytesMut,
) -> bool {
    let done = open_datagram(
        bytes,
        &FixedLengthConnectionIdParser::new(1),
        &[1],
        false,
        keys,
        &ALL_ZERO,
        opened,
    );
    opened.len() == opened_by(keys) && done.is_ok() == (opened.len() == 2)
}

// Every packet that the keys opened is there afterwards: a key with a limit on its use isn't used in vain.
#[test]
fn what_is_opened_stands(rt: HostRuntime) -> Result<(), Fail> {
    let Ok(bytes) = BytesMut::copy_from_slice(rt.alloc(), &WHOLE) else {
        return Ok(());
    };
    let mut checks = Checks::new(rt.alloc());
    let opened = &mut Vec::new(rt.alloc());
    checks.holds(are_all_that_were_opened(opened, &all_counting(), bytes));
    checks.verdict()
}
