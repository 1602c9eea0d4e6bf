//! Headers and packet numbers that are written.
ghost use Rattle.quic_crypto.specs.PacketNumbers.{IsInRange};
ghost use Rattle.quic_header_encode.specs.Writing.{IsWritable};

use crate::worked::{handshake, initial, short};
use quic_base::coding::NoRoom;
use quic_base::ids::ConnectionId;
use quic_checks::Checks;
use quic_packets::packet::{Header, PacketNumber};
use std::alloc::Global;
use std::test::Fail;

// The bytes before the header or number that is written.
const BEFORE: &[u8] = b"before";

// Whether these bytes follow `BEFORE`.
fn are_behind(out: &[u8], bytes: &[u8]) -> bool {
    let Some((before, behind)) = out.split_at_checked(BEFORE.len()) else {
        return false;
    };
    before == BEFORE && behind == bytes
}

// Whether the header is written after the bytes that are there and the call says so; otherwise nothing is written.
fn is_written_or_refused(out: &mut Vec<u8>, head: &Header, bytes: &[u8]) -> bool
    requires { IsWritable head.now }
{
    match head.encode(out) {
        Ok(place) => {
            place.start == BEFORE.len()
                && place.header_len == bytes.len()
                && are_behind(out.as_slice(), bytes)
        }
        Err(NoRoom) => out.as_slice() == BEFORE,
    }
}

// Whether the header is written if there is room.
fn is_written_with_room(out: &mut Vec<u8>, head: &Header, bytes: &[u8]) -> bool
    requires { IsWritable head.now }
{
    out.clear();
    if out.reserve(BEFORE.len() + bytes.len()).is_err() || out.extend_from_slice(BEFORE).is_err() {
        return true;
    }
    head.encode(out).is_ok() && are_behind(out.as_slice(), bytes)
}

fn is_whole_or_not(out: &mut Vec<u8>, head: &Header, bytes: &[u8]) -> bool
    requires { IsWritable head.now }
{
    if out.extend_from_slice(BEFORE).is_err() {
        return true;
    }
    is_written_or_refused(out, head, bytes) && is_written_with_room(out, head, bytes)
}

fn check(checks: &mut Checks, alloc: Global, head: &Header, bytes: &[u8])
    requires { IsWritable head.now }
{
    let out = &mut Vec::new(alloc);
    checks.holds_at(format_args!("{bytes:?}"), is_whole_or_not(out, head, bytes));
}

fn retry() -> Header
    ensures { IsWritable result }
{
    Header::Retry {
        dst_cid: ConnectionId::new(b"\xaa"),
        src_cid: ConnectionId::new(b""),
        version: 1,
    }
}

fn negotiation() -> Header
    ensures { IsWritable result }
{
    Header::VersionNegotiate {
        random: 0x40,
        src_cid: ConnectionId::new(b"\xbb"),
        dst_cid: ConnectionId::new(b"\xaa"),
    }
}

// A header is written whole or not at all.
#[test]
fn headers(rt: HostRuntime) -> Result<(), Fail> {
    let mut checks = Checks::new(rt.alloc());
    let alloc = rt.alloc();
    check(&mut checks, alloc, &short(b"\xaa", 5), b"\x40\xaa\x05");
    let bytes = b"\xe0\0\0\0\x01\x01\xaa\0\0\0\0";
    check(&mut checks, alloc, &handshake(1), bytes);
    let bytes = b"\xc2\0\0\0\x01\x03\x01\x02\x03\x01\x04\x05five.\0\0\x12\x34\x56";
    check(&mut checks, alloc, &initial(b"five."), bytes);
    let bytes = b"\xc2\0\0\0\x01\x03\x01\x02\x03\x01\x04\x14twenty bytes of text\0\0\x12\x34\x56";
    check(&mut checks, alloc, &initial(b"twenty bytes of text"), bytes);
    check(&mut checks, alloc, &retry(), b"\xf0\0\0\0\x01\x01\xaa\0");
    let bytes = b"\xc0\0\0\0\0\x01\xaa\x01\xbb";
    check(&mut checks, alloc, &negotiation(), bytes);
    checks.verdict()
}

// Whether the number is written after the bytes that are there, or nothing is.
fn is_number_written_or_refused(out: &mut Vec<u8>, number: PacketNumber, bytes: &[u8]) -> bool
    requires { IsInRange number }
{
    if out.extend_from_slice(BEFORE).is_err() {
        return true;
    }
    match number.encode(out) {
        Ok(()) => are_behind(out.as_slice(), bytes),
        Err(NoRoom) => out.as_slice() == BEFORE,
    }
}

fn check_number(checks: &mut Checks, alloc: Global, number: PacketNumber, bytes: &[u8])
    requires { IsInRange number }
{
    let out = &mut Vec::new(alloc);
    let is_whole_or_not = is_number_written_or_refused(out, number, bytes);
    checks.holds_at(format_args!("{bytes:?}"), is_whole_or_not);
}

// So is a number.
#[test]
fn numbers(rt: HostRuntime) -> Result<(), Fail> {
    let mut checks = Checks::new(rt.alloc());
    let three = PacketNumber::U24(0x12_3456);
    check_number(&mut checks, rt.alloc(), three, b"\x12\x34\x56");
    let four = PacketNumber::U32(0x1234_5678);
    check_number(&mut checks, rt.alloc(), four, b"\x12\x34\x56\x78");
    checks.verdict()
}
