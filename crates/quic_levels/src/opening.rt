//! Opens packets with the keys of their levels (RFC 9001, sections 5 and 6).
ghost use Rattle.std.specs.Prelude.{◌≡◌, ◌<◌, ◌^◌, length, IfErr, IfOk, IfSome, IsSome, IsTrue, None, Some};
ghost use Rattle.quic_header_decode.specs.Headers.{is_protected, sample_refusal};
ghost use Rattle.quic_header_decode.specs.Refusal.{refusal_of};
ghost use Rattle.quic_levels.specs.Levels.{level_of};
ghost use Rattle.quic_levels.specs.Opening.{IsDecode, IsUnlockRefused, NextAnswer, OpensAt, OpensPacket, RefusesAt, RefusesPacket, Unlocks, unlocked_of};
ghost use Rattle.quic_packets.specs.Opening.{AreExpected, OpensPlain, left_size, packet_of};

use crate::keys::LevelKeys;
use crate::levels::Level;
use crate::protection::{OpensLevels, ProtectsLevels};
use bytes::BytesMut;
use quic_base::coding::are_bytes;
use quic_crypto::crypto::{HeaderKey, PacketKey};
use quic_header_decode::cut::PartialDecode;
use quic_header_decode::decode_error::PacketDecodeError;
use quic_header_decode::packet::Packet;
use quic_header_decode::parser::{ConnectionIdParser, DecodeOptions};
use quic_packets::keys::Expected;
use quic_packets::opening::{Opened, Packets};
use thiserror::Error;

/// Why a packet isn't opened. If it was cut, the bytes after it are left (RFC 9000, section 12.2).
#[derive(Clone, Copy, Debug, PartialEq, Eq, Drop, Error)]
pub enum LevelError {
    /// No packet can be cut, or the packet is too short for a sample. It never holds `PacketDecodeError::OutOfMemory`.
    #[error("{0}")]
    Decode(PacketDecodeError),
    /// There are no keys for the packet's level, or none for its key phase: they aren't there yet or are discarded.
    #[error("no keys for the packet's level or key phase")]
    NoKeys,
    /// The packet wasn't sealed with the keys of its level and key phase, or not with the packet number that follows
    /// from the expected one.
    #[error("packet not sealed by these keys")]
    Unsealed,
    /// An allocation failed.
    #[error("out of memory")]
    OutOfMemory,
}

// The error for a header that can't be read.
fn decode_error(e: &PacketDecodeError) -> LevelError
    ensures { IsDecode e.now result }
{
    match *e {
        PacketDecodeError::OutOfMemory => LevelError::OutOfMemory,
        PacketDecodeError::InvalidHeader(text) => LevelError::Decode(
            PacketDecodeError::InvalidHeader(text),
        ),
        PacketDecodeError::UnsupportedVersion {
            src_cid,
            dst_cid,
            version,
        } => LevelError::Decode(PacketDecodeError::UnsupportedVersion {
            src_cid,
            dst_cid,
            version,
        }),
    }
}

// Removes the protection of a packet's header, and derives the packet's whole number.
fn unlock<H: HeaderKey>(
    partial: PartialDecode,
    key: &H,
    expected: u64,
) -> Result<(Packet, u64), LevelError>
    requires protected { IsTrue (is_protected partial.head) }
    requires small { expected < 2 ^ 62 }
    ensures unlocked { IfOk result (λ x. Unlocks (record {
      sample_len = H.sample_len key.now;
      protected = H.protected key.now;
      unprotected = H.unprotected key.now;
    }) expected partial (unlocked_of x.0 x.1)) }
    ensures refused { IfErr result (IsUnlockRefused (H.sample_len key.now) partial) }
{
    let packet = match partial.finish_protected(key) {
        Ok(packet) => packet,
        Err(e) => return Err(decode_error(&e)),
    };
    let number = packet.header.number().unwrap().expand(expected);
    Ok((packet, number))
}

// Opens the payload of a packet whose header protection was removed.
fn unseal<P: PacketKey>(packet: Packet, number: u64, key: &P) -> Result<Opened, LevelError>
    ensures header { IfOk result (λ x. x.header ≡ packet.header) }
    ensures header_data { IfOk result (λ x. x.header_data ≡ packet.header_data) }
    ensures number { IfOk result (λ x. x.number ≡ Some number) }
    ensures payload { IfOk result
        (λ x. P.opened key.now number packet.header_data packet.payload.items ≡ Some x.payload.items) }
    ensures refused { IfErr result (λ e. e ≡ LevelError.Unsealed) }
    ensures unsealed { IfErr result (λ _. P.opened key.now number packet.header_data packet.payload.items ≡ None) }
{
    let Packet {
        header,
        header_data,
        mut payload,
    } = packet;
    match key.decrypt(number, header_data.as_slice(), &mut payload) {
        Ok(()) => Ok(Opened {
            header,
            header_data,
            number: Some(number),
            payload,
        }),
        Err(_) => Err(LevelError::Unsealed),
    }
}

// Opens a packet with the keys of its level.
fn open_at<H: HeaderKey, P: PacketKey>(
    partial: PartialDecode,
    level: Level,
    keys: &LevelKeys<H, P>,
    expected: u64,
) -> Result<Opened, LevelError>
    requires protected { IsTrue (is_protected partial.head) }
    requires small { expected < 2 ^ 62 }
    ensures opened { IfOk result (λ x. OpensAt (⟦<LevelKeys<H, P> as ProtectsLevels>⟧.protection keys.now) expected
        level partial (packet_of x)) }
    ensures refused { IfErr result (RefusesAt (⟦<LevelKeys<H, P> as ProtectsLevels>⟧.protection keys.now) expected
        level partial) }
{
    let Some(header_key) = keys.header(level) else {
        return Err(LevelError::NoKeys);
    };
    let (packet, number) = match unlock(partial, header_key, expected) {
        Ok(unlocked) => unlocked,
        Err(e) => return Err(e),
    };
    match keys.packet(level, packet.header.key_phase(), number) {
        Some(packet_key) => unseal(packet, number, packet_key),
        None => Err(LevelError::NoKeys),
    }
}

// Returns a packet that has no protection, unchanged.
fn open_plain(partial: PartialDecode) -> Result<Opened, LevelError>
    requires { level_of partial.head ≡ None }
    ensures opened { IfOk result (λ x. OpensPlain partial (packet_of x)) }
    ensures refused { IfErr result (λ e. e ≡ LevelError.OutOfMemory) }
{
    let Ok(packet) = partial.finish_plain() else {
        return Err(LevelError::OutOfMemory);
    };
    Ok(Opened {
        header: packet.header,
        header_data: packet.header_data,
        number: None,
        payload: packet.payload,
    })
}

// Opens a packet with the keys of its level, or returns it unchanged if it has no protection.
fn open_part<H: HeaderKey, P: PacketKey>(
    partial: PartialDecode,
    keys: &LevelKeys<H, P>,
    expected: &Expected,
) -> Result<Opened, LevelError>
    requires { AreExpected expected.now }
    ensures opened { IfOk result (λ x. OpensPacket (⟦<LevelKeys<H, P> as ProtectsLevels>⟧.protection keys.now)
        expected.now partial (packet_of x)) }
    ensures refused { IfErr result (RefusesPacket (⟦<LevelKeys<H, P> as ProtectsLevels>⟧.protection keys.now)
        expected.now partial) }
{
    match Level::of(partial.header()) {
        Some(level) => open_at(partial, level, keys, expected.of(level.space())),
        None => open_plain(partial),
    }
}

// Cuts a datagram's first packet and opens it, and returns the outcome with what is left.
fn open_first<C: ConnectionIdParser, H: HeaderKey, P: PacketKey>(
    bytes: BytesMut,
    options: &DecodeOptions<'_, C>,
    keys: &LevelKeys<H, P>,
    expected: &Expected,
) -> (Result<Opened, LevelError>, Option<BytesMut>)
    requires { AreExpected expected.now }
    ensures next { NextAnswer (⟦<LevelKeys<H, P> as OpensLevels<C>>⟧.opening keys.now options.now.parser.now
        options.now.versions.now options.now.grease) expected.now (Some bytes) (Some result.0) result.1 }
    ensures shorter { IfSome result.1 (λ rest. length rest.items < length bytes.items) }
{
    are_bytes(bytes.as_slice());
    match PartialDecode::new(bytes, options.parser, options.versions, options.grease) {
        Ok((partial, rest)) => (open_part(partial, keys, expected), rest),
        Err(e) => (Err(decode_error(&e)), None),
    }
}

/// Opens the next packet of a datagram with the keys of its level, and of its key phase if it has a short header, and
/// moves past it. `expected` is the number that is expected next in each space. Returns `None` once nothing is left.
/// A packet that was cut but not opened is skipped, and the next call goes on after it (RFC 9000, section 12.2). If
/// none can be cut, the rest is dropped. A Retry or version negotiation is returned unchanged, without a number.
///
/// Errors: `Decode` only if `PartialDecode::new` or `PartialDecode::finish` rejects the packet; `NoKeys` only if there
/// is no header key for the packet's level, or no packet key for its level, key phase and number; `Unsealed` only if
/// that packet key returns `CryptoError`. Once a packet was cut, any call may return `OutOfMemory` instead; before
/// that, only if the parser allocates. A packet that was sealed with these keys, and whose packet number follows from
/// the expected one, is opened to the same header, number and payload, unless an allocation fails. The caller must
/// ensure that expected numbers are below 2^62.
pub fn open_next<C: ConnectionIdParser, H: HeaderKey, P: PacketKey>(
    packets: &mut Packets,
    options: &DecodeOptions<'_, C>,
    keys: &LevelKeys<H, P>,
    expected: &Expected,
) -> Option<Result<Opened, LevelError>>
    requires { AreExpected expected.now }
    ensures next { NextAnswer (⟦<LevelKeys<H, P> as OpensLevels<C>>⟧.opening keys.now options.now.parser.now
        options.now.versions.now options.now.grease) expected.now packets.old.rest result packets.new.rest }
    ensures shorter { IsSome result → left_size packets.new.rest < left_size packets.old.rest }
{
    let bytes = packets.rest.take()?;
    let (opened, rest) = open_first(bytes, options, keys, expected);
    packets.rest = rest;
    Some(opened)
}
