//! Packet numbers that are truncated, expanded and read.
ghost use Rattle.std.specs.Prelude.{IfOk};
ghost use Rattle.quic_crypto.specs.PacketNumbers.{IsInRange};

use crate::words::{bytes_of, number};
use quic_packets::packet::{PacketDecodeError, PacketNumber};
use std::test::Fail;

// The truncated packet number for each line's number and acknowledged number, and its bytes.
pub(crate) fn replay_new(rt: &HostRuntime, lines: &str) -> Result<(), Fail> {
    for line in lines.lines() {
        print_made(rt, made(line)?)?;
    }
    Ok(())
}

fn print_made(rt: &HostRuntime, number: PacketNumber) -> Result<(), Fail>
    requires { IsInRange number }
{
    let mut out = Vec::new(rt.alloc());
    number.encode(&mut out)?;
    print_bytes(rt, number, out.as_slice())
}

fn print_bytes(rt: &HostRuntime, number: PacketNumber, bytes: &[u8]) -> Result<(), Fail> {
    let digits = hex::encode(rt.alloc(), bytes)?;
    println!(rt; "{number:?} len {} bytes {digits}", number.len())?;
    Ok(())
}

// A number, and the one that is acknowledged.
fn made(line: &str) -> Result<PacketNumber, Fail>
    ensures { IfOk result IsInRange }
{
    let Some((n, acked)) = line.split_once(" ") else {
        return Err("two numbers".into());
    };
    made_near(n.parse()?, acked.parse()?)
}

fn made_near(n: u64, acked: u64) -> Result<PacketNumber, Fail>
    ensures { IfOk result IsInRange }
{
    if n < acked || n - acked >= 1 << 31 {
        return Err("a nearer number".into());
    }
    Ok(PacketNumber::new(n, acked))
}

// The whole number for each line's truncated packet number and expected number.
pub(crate) fn replay_expand(rt: &HostRuntime, lines: &str) -> Result<(), Fail> {
    for line in lines.lines() {
        print_whole(rt, expanded(line)?)?;
    }
    Ok(())
}

fn print_whole(rt: &HostRuntime, whole: u64) -> Result<(), Fail> {
    println!(rt; "{whole}")?;
    Ok(())
}

// The kind of a packet number, its value, and the number that is expected.
fn expanded(line: &str) -> Result<u64, Fail> {
    let Some((kind, rest)) = line.split_once(" ") else {
        return Err("three words".into());
    };
    let Some((low, expected)) = rest.split_once(" ") else {
        return Err("three words".into());
    };
    expanded_by(number(kind, low)?, expected.parse()?)
}

fn expanded_by(number: PacketNumber, expected: u64) -> Result<u64, Fail>
    requires { IsInRange number }
{
    if expected >= 1 << 62 {
        return Err("a smaller number".into());
    }
    Ok(number.expand(expected))
}

// The packet number, of that many bytes, at the front of each line's bytes, or the error.
pub(crate) fn replay_decode(rt: &HostRuntime, lines: &str) -> Result<(), Fail> {
    for line in lines.lines() {
        replay_line(rt, line)?;
    }
    Ok(())
}

fn replay_line(rt: &HostRuntime, line: &str) -> Result<(), Fail> {
    let Some((len, bytes)) = line.split_once(" ") else {
        return Err("a length and bytes".into());
    };
    let len = len.parse()?;
    let bytes = bytes_of(rt.alloc(), bytes)?;
    decode(rt, len, bytes.as_slice())
}

fn decode(rt: &HostRuntime, len: usize, bytes: &[u8]) -> Result<(), Fail> {
    if len < 1 || len > 4 {
        return Err("one to four bytes".into());
    }
    let mut left = bytes;
    match PacketNumber::decode(len, &mut left) {
        Ok(number) => print_decoded(rt, number, bytes.len().wrapping_sub(left.len())),
        Err(e) => print_refusal(rt, &PacketDecodeError::from(e)),
    }
}

fn print_decoded(rt: &HostRuntime, number: PacketNumber, used: usize) -> Result<(), Fail> {
    println!(rt; "{number:?} consumed {used}")?;
    Ok(())
}

fn print_refusal(rt: &HostRuntime, e: &PacketDecodeError) -> Result<(), Fail> {
    let PacketDecodeError::InvalidHeader(text) = e else {
        return Err("another refusal".into());
    };
    println!(rt; "error {text}")?;
    Ok(())
}
