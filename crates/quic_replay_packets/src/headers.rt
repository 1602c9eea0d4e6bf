//! Headers that are written, and packets that are finished with keys that protect nothing.
ghost use Rattle.std.specs.Prelude.{IfOk};
ghost use Rattle.quic_header_encode.specs.Writing.{IsWritable};

use crate::words::{bytes_of, id, number};
use bytes::Bytes;
use quic_packets::crypto::toy::{TAG_LEN, ToyHeaderKey, ToyPacketKey};
use quic_packets::packet::{Header, InitialHeader, LongType, PartialEncode};
use std::alloc::Global;
use std::test::Fail;

// Most functions here borrow the bytes that they fill, so that an early return has nothing to drop.

// Writes each line's packet: only its header if it has no number, otherwise with its payload, sealed.
pub(crate) fn replay(rt: &HostRuntime, lines: &str) -> Result<(), Fail> {
    for line in lines.lines() {
        replay_line(rt, line)?;
    }
    Ok(())
}

fn replay_line(rt: &HostRuntime, line: &str) -> Result<(), Fail> {
    let words: Vec<&str> = line.split(" ").collect(rt.alloc())?;
    replay_words(rt, words.as_slice())
}

fn replay_words(rt: &HostRuntime, words: &[&str]) -> Result<(), Fail> {
    let [.., whole, payload] = words else {
        return Err("a payload".into());
    };
    let header = header_of(rt.alloc(), words)?;
    replay_packet(rt, &header, whole, payload)
}

fn replay_packet(rt: &HostRuntime, header: &Header, whole: &str, payload: &str) -> Result<(), Fail>
    requires { IsWritable header.now }
{
    let mut out = Vec::new(rt.alloc());
    let partial = write_packet(&mut out, rt.alloc(), header, whole, payload)?;
    print_packet(rt, out.as_slice(), partial)
}

fn print_packet(rt: &HostRuntime, bytes: &[u8], partial: PartialEncode) -> Result<(), Fail> {
    let digits = hex::encode(rt.alloc(), bytes)?;
    println!(rt;
        "{digits} start {} header_len {}",
        partial.start, partial.header_len
    )?;
    Ok(())
}

fn write_packet(
    out: &mut Vec<u8>,
    alloc: Global,
    header: &Header,
    whole: &str,
    payload: &str,
) -> Result<PartialEncode, Fail>
    requires { IsWritable header.now }
{
    let partial = header.encode(out)?;
    let payload = bytes_of(alloc, payload)?;
    write_payload(
        out,
        partial,
        header.is_protected(),
        whole,
        payload.as_slice(),
    )?;
    Ok(partial)
}

fn write_payload(
    out: &mut Vec<u8>,
    partial: PartialEncode,
    is_protected: bool,
    whole: &str,
    payload: &[u8],
) -> Result<(), Fail> {
    if !is_protected {
        return Ok(out.extend_from_slice(payload)?);
    }
    if whole == "-" {
        return Ok(());
    }
    seal(out, partial, whole.parse()?, payload)
}

fn seal(out: &mut Vec<u8>, partial: PartialEncode, whole: u64, payload: &[u8]) -> Result<(), Fail> {
    out.extend_from_slice(payload)?;
    out.extend_from_slice(&[0; TAG_LEN])?;
    finish(partial, whole, out.as_mut_slice())
}

// Finishes a packet that begins its buffer, if it has room for the sample and the length.
fn finish(partial: PartialEncode, whole: u64, packet: &mut [u8]) -> Result<(), Fail> {
    let Some((number_len, has_len)) = partial.pn else {
        return Err("a number".into());
    };
    let size = packet.len();
    let head = partial.header_len;
    if size > 1 << 16 || head > size || number_len > 4 || head < number_len + 1 {
        return Err("a packet behind its head".into());
    }
    if size < head + TAG_LEN || size + number_len < head + 4 + TAG_LEN {
        return Err("a longer payload".into());
    }
    if has_len && (head < number_len + 2 || size + number_len >= head + (1 << 14)) {
        return Err("a shorter payload".into());
    }
    partial.finish(packet, &ToyHeaderKey, Some((whole, &ToyPacketKey)));
    Ok(())
}

// The header that the words describe. Each kind has its own function, which reads the words after its name.
fn header_of(alloc: Global, words: &[&str]) -> Result<Header, Fail>
    ensures { IfOk result IsWritable }
{
    let [name, fields @ ..] = words else {
        return Err("a head".into());
    };
    named(alloc, name, fields)
}

fn named(alloc: Global, name: &str, fields: &[&str]) -> Result<Header, Fail>
    ensures { IfOk result IsWritable }
{
    match name {
        "initial" => initial(alloc, fields),
        "handshake" => long(alloc, LongType::Handshake, fields),
        "0rtt" => long(alloc, LongType::ZeroRtt, fields),
        "short" => short(alloc, fields),
        "retry" => retry(alloc, fields),
        "version-negotiation" => negotiation(alloc, fields),
        _ => Err("a head".into()),
    }
}

fn initial(alloc: Global, fields: &[&str]) -> Result<Header, Fail>
    ensures { IfOk result IsWritable }
{
    let [kind, low, dst, src, token, version, _, _] = fields else {
        return Err("eight fields".into());
    };
    let dst_cid = id(alloc, dst)?;
    let src_cid = id(alloc, src)?;
    let number = number(kind, low)?;
    let version = version_of(version)?;
    let token = bytes_of(alloc, token)?;
    if token.len() as u64 >= 1 << 62 {
        return Err("a shorter token".into());
    }
    Ok(Header::Initial(InitialHeader {
        dst_cid,
        src_cid,
        token: Bytes::copy_from_slice(alloc, token.as_slice())?,
        number,
        version,
    }))
}

fn long(alloc: Global, ty: LongType, fields: &[&str]) -> Result<Header, Fail>
    ensures { IfOk result IsWritable }
{
    let [kind, low, dst, src, version, _, _] = fields else {
        return Err("seven fields".into());
    };
    Ok(Header::Long {
        ty,
        dst_cid: id(alloc, dst)?,
        src_cid: id(alloc, src)?,
        number: number(kind, low)?,
        version: version_of(version)?,
    })
}

fn short(alloc: Global, fields: &[&str]) -> Result<Header, Fail>
    ensures { IfOk result IsWritable }
{
    let [spin, key_phase, kind, low, dst, _, _] = fields else {
        return Err("seven fields".into());
    };
    Ok(Header::Short {
        spin: is_true(spin),
        key_phase: is_true(key_phase),
        dst_cid: id(alloc, dst)?,
        number: number(kind, low)?,
    })
}

fn is_true(word: &str) -> bool {
    word == "true"
}

fn retry(alloc: Global, fields: &[&str]) -> Result<Header, Fail>
    ensures { IfOk result IsWritable }
{
    let [dst, src, version, _] = fields else {
        return Err("four fields".into());
    };
    Ok(Header::Retry {
        dst_cid: id(alloc, dst)?,
        src_cid: id(alloc, src)?,
        version: version_of(version)?,
    })
}

fn negotiation(alloc: Global, fields: &[&str]) -> Result<Header, Fail>
    ensures { IfOk result IsWritable }
{
    let [random, dst, src, _] = fields else {
        return Err("four fields".into());
    };
    Ok(Header::VersionNegotiate {
        random: random.parse()?,
        src_cid: id(alloc, src)?,
        dst_cid: id(alloc, dst)?,
    })
}

// A version, in eight hexadecimal digits.
fn version_of(word: &str) -> Result<u32, Fail> {
    u32::from_str_radix(word, 16).map_err(|_| "a version".into())
}
