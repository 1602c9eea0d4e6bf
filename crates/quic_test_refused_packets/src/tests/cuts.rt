//! Headers that are read, and datagrams that are cut.
use bytes::BytesMut;
use quic_base::coding::Cursor;
use quic_bench::FailAt;
use quic_bench::parsers::NoIds;
use quic_checks::Checks;
use quic_packets::packet::{PacketDecodeError, PartialDecode, ProtectedHeader};
use quic_text::{RunError, mode_of, run};
use std::test::Fail;

// A Handshake packet of ten bytes, and one byte after it.
const DATAGRAM: &[u8] = b"\xe0\x00\x00\x00\x01\x00\x00\x02\xaa\xbb\x41";

// Reading a header doesn't allocate.
#[test]
fn a_header_takes_no_memory(rt: HostRuntime) -> Result<(), Fail> {
    let mut checks = Checks::new(rt.alloc());
    let Ok(bytes) = BytesMut::copy_from_slice(rt.alloc(), DATAGRAM) else {
        return Ok(());
    };
    let mut cursor = Cursor::new(bytes);
    checks.holds(ProtectedHeader::decode(&mut cursor, &NoIds, &[1], false).is_ok());
    checks.same(cursor.position(), 8);
    checks.verdict()
}

// Nor does cutting a packet with nothing after it,
#[test]
fn one_packet_takes_no_memory(rt: HostRuntime) -> Result<(), Fail> {
    let mut checks = Checks::new(rt.alloc());
    let Ok(bytes) = BytesMut::copy_from_slice(rt.alloc(), &DATAGRAM[..10]) else {
        return Ok(());
    };
    match PartialDecode::new(bytes, &NoIds, &[1], false) {
        Ok((packet, rest)) => {
            checks.same(packet.len(), 10);
            checks.holds(rest.is_none());
        }
        Err(_error) => checks.holds(false),
    }
    checks.verdict()
}

// nor does an error.
#[test]
fn a_refusal_takes_no_memory(rt: HostRuntime) -> Result<(), Fail> {
    let mut checks = Checks::new(rt.alloc());
    let Ok(bytes) = BytesMut::copy_from_slice(rt.alloc(), &DATAGRAM[..9]) else {
        return Ok(());
    };
    match PartialDecode::new(bytes, &NoIds, &[1], false) {
        Ok((_packet, _rest)) => checks.holds(false),
        Err(error) => checks.holds(matches!(&error, PacketDecodeError::InvalidHeader(_))),
    }
    checks.verdict()
}

// What follows is split off, or an allocation failed.
#[test]
fn what_follows_may_take_memory(rt: HostRuntime) -> Result<(), Fail> {
    let mut checks = Checks::new(rt.alloc());
    let Ok(bytes) = BytesMut::copy_from_slice(rt.alloc(), DATAGRAM) else {
        return Ok(());
    };
    match PartialDecode::new(bytes, &NoIds, &[1], false) {
        Ok((packet, rest)) => {
            checks.same(packet.len(), 10);
            checks.holds(rest.is_some());
        }
        Err(error) => checks.holds(matches!(&error, PacketDecodeError::OutOfMemory)),
    }
    checks.verdict()
}

// The program says so.
#[test]
fn a_run_ends_for_want_of_memory(rt: HostRuntime) -> Result<(), Fail> {
    let mut checks = Checks::new(rt.alloc());
    let text = b"0..10 handshake dst - src - version 00000001\n10..11 short dst -\n";
    let mode = mode_of(&["datagram", "0"]).ok_or("a mode")?;
    let input = b"e000000001000002aabb41\n";
    let mut source = FailAt::new(rt.alloc(), input, usize::MAX, u64::MAX);
    let mut sink = FailAt::new(rt.alloc(), b"", usize::MAX, u64::MAX);
    match run(rt.alloc(), mode, &mut source, &mut sink) {
        Ok(clean) => {
            checks.holds(clean);
            checks.same(sink.output(), text.as_slice());
        }
        // A sink in memory allocates too.
        Err(e) => checks.holds(matches!(e, RunError::OutOfMemory | RunError::Write)),
    }
    checks.verdict()
}
