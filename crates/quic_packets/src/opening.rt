//! Opens packets (RFC 9001, sections 5.3 and 5.4).
ghost use Rattle.std.specs.Prelude.{◌≡◌, ◌<◌, ◌^◌, length, IfOk, IfErr, IfSome, IsSome, IsTrue, None, Some};
ghost use Rattle.quic_header_decode.specs.Headers.{is_protected, space_of};
ghost use Rattle.quic_packets.specs.Opening.{DatagramAnswer, PacketAnswer, NextAnswer, AreExpected, IsDecode, OpensPacket, OpensPlain, OpensWithKey, RefusesPacket, RefusesWithKey, left_size, packet_of};
ghost use Rattle.quic_packets.specs.Pairs.{expected_in};

use crate::keys::{Expected, Keys, SpaceKeys};
use crate::pairs::{OpeningKeys, PairOfKeys, PairsOfKeys};
use bytes::{Bytes, BytesMut};
use quic_base::coding::are_bytes;
use quic_crypto::crypto::{HeaderKey, PacketKey};
use quic_header_decode::cut::PartialDecode;
use quic_header_decode::decode_error::PacketDecodeError;
use quic_header_decode::packet::Packet;
use quic_header_decode::parser::{ConnectionIdParser, DecodeOptions};
use quic_header_encode::header::Header;
use thiserror::Error;

/// Why a packet isn't opened. After an error, `Packets` still has the bytes after a packet that was cut, since an
/// endpoint has to process them (RFC 9000, section 12.2); `open_packet` and `open_datagram` drop them.
#[derive(Clone, Copy, Debug, PartialEq, Eq, Drop, Error)]
pub enum OpenError {
    /// No packet can be cut from the datagram, or the packet is too short for a sample. It never holds
    /// `PacketDecodeError::OutOfMemory`.
    #[error("{0}")]
    Decode(PacketDecodeError),
    /// The packet wasn't sealed with the keys of its space, or not with the packet number that follows from the
    /// expected one.
    #[error("packet not sealed by these keys")]
    Unsealed,
    /// An allocation failed.
    #[error("out of memory")]
    OutOfMemory,
}

/// A packet that was opened, or one that has no protection.
#[derive(Debug, Drop)]
pub struct Opened {
    /// The header.
    pub header: Header,
    /// The header's bytes, unprotected and with the length filled in. They include the packet number.
    pub header_data: Bytes,
    /// The whole packet number. `None` for Retry and version negotiation.
    pub number: Option<u64>,
    /// The payload. For Retry and version negotiation, what follows the header.
    pub payload: BytesMut,
}

// The error for a header that can't be read.
fn decode_error(e: &PacketDecodeError) -> OpenError
    ensures { IsDecode e.now result }
{
    match *e {
        PacketDecodeError::OutOfMemory => OpenError::OutOfMemory,
        PacketDecodeError::InvalidHeader(text) => OpenError::Decode(
            PacketDecodeError::InvalidHeader(text),
        ),
        PacketDecodeError::UnsupportedVersion {
            src_cid,
            dst_cid,
            version,
        } => OpenError::Decode(PacketDecodeError::UnsupportedVersion {
            src_cid,
            dst_cid,
            version,
        }),
    }
}

// Opens a packet that is protected.
fn open_protected<H: HeaderKey, P: PacketKey>(
    partial: PartialDecode,
    keys: &Keys<H, P>,
    expected: u64,
) -> Result<Opened, OpenError>
    requires protected { IsTrue (is_protected partial.head) }
    requires small { expected < 2 ^ 62 }
    ensures opened { IfOk result (λ x. OpensWithKey (⟦<Keys<H, P> as PairOfKeys>⟧.pair keys.now) expected partial
        (packet_of x)) }
    ensures refused { IfErr result (RefusesWithKey (⟦<Keys<H, P> as PairOfKeys>⟧.pair keys.now) expected partial) }
{
    let Packet {
        header,
        header_data,
        mut payload,
    } = match partial.finish_protected(&keys.header) {
        Ok(packet) => packet,
        Err(e) => return Err(decode_error(&e)),
    };
    let number = header.number().unwrap().expand(expected);
    match keys
        .packet
        .decrypt(number, header_data.as_slice(), &mut payload)
    {
        Ok(()) => Ok(Opened {
            header,
            header_data,
            number: Some(number),
            payload,
        }),
        Err(_) => Err(OpenError::Unsealed),
    }
}

// Returns a packet that has no protection, unchanged.
fn open_plain(partial: PartialDecode) -> Result<Opened, OpenError>
    requires { space_of partial.head ≡ None }
    ensures opened { IfOk result (λ x. OpensPlain partial (packet_of x)) }
    ensures refused { IfErr result (λ e. e ≡ OpenError.OutOfMemory) }
{
    let Ok(packet) = partial.finish_plain() else {
        return Err(OpenError::OutOfMemory);
    };
    Ok(Opened {
        header: packet.header,
        header_data: packet.header_data,
        number: None,
        payload: packet.payload,
    })
}

// Opens a packet with the keys of its space, or returns it unchanged if it has no protection.
fn open_part<H: HeaderKey, P: PacketKey>(
    partial: PartialDecode,
    keys: &SpaceKeys<H, P>,
    expected: &Expected,
) -> Result<Opened, OpenError>
    requires { AreExpected expected.now }
    ensures opened { IfOk result (λ x. OpensPacket (⟦<SpaceKeys<H, P> as PairsOfKeys>⟧.pairs keys.now)
        (expected_in expected.now) partial (packet_of x)) }
    ensures refused { IfErr result (RefusesPacket (⟦<SpaceKeys<H, P> as PairsOfKeys>⟧.pairs keys.now)
        (expected_in expected.now) partial) }
{
    match partial.space() {
        Some(space) => open_protected(partial, keys.of(space), expected.of(space)),
        None => open_plain(partial),
    }
}

// Cuts a datagram's first packet and opens it, and returns the outcome with what is left. Without `room` for the opened
// packet, none is opened.
fn open_first<C: ConnectionIdParser, H: HeaderKey, P: PacketKey>(
    bytes: BytesMut,
    options: &DecodeOptions<'_, C>,
    keys: &SpaceKeys<H, P>,
    expected: &Expected,
    room: bool,
) -> (Result<Opened, OpenError>, Option<BytesMut>)
    requires { AreExpected expected.now }
    ensures next { NextAnswer (⟦<SpaceKeys<H, P> as OpeningKeys<C>>⟧.opening keys.now options.now.parser.now
        options.now.versions.now options.now.grease expected.now) (Some bytes) (Some result.0) result.1 }
    ensures shorter { IfSome result.1 (λ rest. length rest.items < length bytes.items) }
    ensures roomy { IfOk result.0 (λ _. IsTrue room) }
{
    are_bytes(bytes.as_slice());
    let cut = PartialDecode::new(bytes, options.parser, options.versions, options.grease);
    let (partial, rest) = match cut {
        Ok(parts) => parts,
        Err(e) => return (Err(decode_error(&e)), None),
    };
    if !room {
        return (Err(OpenError::OutOfMemory), rest);
    }
    (open_part(partial, keys, expected), rest)
}

/// Opens a datagram's first packet with the keys and the expected number of its space, and returns it with what follows
/// it. `parser` reads the ids of short headers. Headers of versions other than `versions` are rejected. With `grease`
/// the fixed bit may be clear (RFC 9287). A Retry or version negotiation is returned unchanged, without a number.
///
/// An error drops what follows the packet. An endpoint has to process that (RFC 9000, section 12.2), so it calls
/// `Packets::open_next`.
///
/// Errors: `Decode` only if `PartialDecode::new` or `PartialDecode::finish` rejects the packet; `Unsealed` only if the
/// packet key returns `CryptoError`. Once a packet was cut, any call may return `OutOfMemory` instead; before that,
/// only if the parser allocates. A packet that was sealed with these keys, and whose packet number follows from the
/// expected one, is opened to the same header, number and payload, unless an allocation fails. The caller must ensure
/// that expected numbers are below 2^62.
pub fn open_packet<C: ConnectionIdParser, H: HeaderKey, P: PacketKey>(
    bytes: BytesMut,
    parser: &C,
    versions: &[u32],
    grease: bool,
    keys: &SpaceKeys<H, P>,
    expected: &Expected,
) -> Result<(Opened, Option<BytesMut>), OpenError>
    requires { AreExpected expected.now }
    ensures { PacketAnswer (⟦<SpaceKeys<H, P> as OpeningKeys<C>>⟧.opening keys.now parser.now versions.now grease
        expected.now) bytes.items result }
{
    let options = DecodeOptions {
        parser,
        versions,
        grease,
    };
    let (opened, rest) = open_first(bytes, &options, keys, expected, true);
    match opened {
        Ok(opened) => Ok((opened, rest)),
        Err(e) => Err(e),
    }
}

/// The rest of a datagram whose packets are opened one after another.
#[derive(Debug, Drop)]
pub struct Packets {
    /// The bytes from the next packet on. `None` once nothing follows a packet, and if no packet can be cut from them.
    pub rest: Option<BytesMut>,
}

impl Packets {
    /// The packets of a datagram.
    pub fn new(datagram: BytesMut) -> Packets
        ensures { result.rest ≡ Some datagram }
    {
        Packets {
            rest: Some(datagram),
        }
    }

    /// Opens the next packet as `open_packet` does, and moves past it. Returns `None` once nothing is left. Each call
    /// may have other keys and other expected numbers. A packet that was cut but not opened is skipped, and the next
    /// call goes on after it (RFC 9000, section 12.2). If none can be cut, the rest is dropped. The caller must ensure
    /// that expected numbers are below 2^62.
    pub fn open_next<C: ConnectionIdParser, H: HeaderKey, P: PacketKey>(
        &mut self,
        options: &DecodeOptions<'_, C>,
        keys: &SpaceKeys<H, P>,
        expected: &Expected,
    ) -> Option<Result<Opened, OpenError>>
        requires { AreExpected expected.now }
        ensures next { NextAnswer (⟦<SpaceKeys<H, P> as OpeningKeys<C>>⟧.opening keys.now options.now.parser.now
            options.now.versions.now options.now.grease expected.now) self.old.rest result self.new.rest }
        ensures shorter { IsSome result → left_size self.new.rest < left_size self.old.rest }
    {
        let bytes = self.rest.take()?;
        let (opened, rest) = open_first(bytes, options, keys, expected, true);
        self.rest = rest;
        Some(opened)
    }
}

/// Opens a datagram's packets one after another, with the same expected numbers for all of them, and appends them to
/// `out`. There is room in `out` for a packet before it is opened, so after an error `out` has every packet opened so
/// far. If all packets were sealed with these keys, all are opened, in order; or only the first ones, if an allocation
/// fails. The caller must ensure that expected numbers are below 2^62.
///
/// The first error drops what is left. An endpoint has to process it (RFC 9000, section 12.2), so it calls
/// `Packets::open_next`.
pub fn open_datagram<C: ConnectionIdParser, H: HeaderKey, P: PacketKey>(
    bytes: BytesMut,
    parser: &C,
    versions: &[u32],
    grease: bool,
    keys: &SpaceKeys<H, P>,
    expected: &Expected,
    out: &mut Vec<Opened>,
) -> Result<(), OpenError>
    requires { AreExpected expected.now }
    ensures { DatagramAnswer (⟦<SpaceKeys<H, P> as OpeningKeys<C>>⟧.opening keys.now parser.now versions.now grease
        expected.now) bytes.items result out.old.items out.new.items }
{
    let options = DecodeOptions {
        parser,
        versions,
        grease,
    };
    let mut left = Some(bytes);
    while let Some(bytes) = left.take() {
        let room = out.reserve(1).is_ok();
        let (opened, rest) = open_first(bytes, &options, keys, expected, room);
        let opened = match opened {
            Ok(opened) => opened,
            Err(e) => return Err(e),
        };
        if out.push(opened).is_err() {
            unreachable!();
        }
        left = rest;
    }
    Ok(())
}
