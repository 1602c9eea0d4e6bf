//! Two packets in one datagram that are sealed and opened again: what callers learn from the contracts of both, for
//! every lawful pair of keys and every lawful parser of ids.
ghost use Rattle.std.specs.Prelude.{◌⊎◌, false, List, [], ℕ, IfErr, IfOk};
ghost use Rattle.quic_header_encode.specs.Kinds.{space_in};
ghost use Rattle.quic_packets.specs.Opening.{AreExpected};
ghost use Rattle.quic_packets.specs.Sealing.{IsAppended, SealedFrames};
ghost use Rattle.quic_bench.specs.Outgoing.{AreSealed, CanBeSealed, Carries, IsFailure, IsFoundAgain, IsRefusedPacket};

use bytes::BytesMut;
use quic_frames::frame::Frame;
use quic_packets::crypto::{HeaderKey, PacketKey};
use quic_packets::laws;
use quic_packets::packet::{
    ConnectionIdParser, Expected, Header, OpenError, Opened, SealError, SpaceKeys, open_packet,
    seal_packet,
};
use quic_packets::pairs::{OpeningKeys, PairsOfKeys};
use std::alloc::Global;

/// A packet that is to be sealed.
#[derive(Clone, Copy, Debug)]
pub struct Outgoing<'a, 'f> {
    /// The header.
    pub header: &'a Header,
    /// The whole packet number.
    pub number: u64,
    /// The frames of the payload.
    pub frames: &'a [Frame<'f>],
}

/// Why two packets are not sealed and opened.
#[derive(Clone, Copy, Debug, PartialEq, Eq, Drop)]
pub enum Failure {
    /// One of them can't be sealed.
    Seal(SealError),
    /// One of them can't be opened.
    Open(OpenError),
}

// Appends a packet, sealed by the keys of its space.
pub(crate) fn seal<H: HeaderKey, P: PacketKey>(
    packet: &Outgoing<'_, '_>,
    keys: &SpaceKeys<H, P>,
    out: &mut Vec<u8>,
) -> Result<(), SealError>
    requires { CanBeSealed packet.now }
    ensures sealed { IfOk result
        (λ _. IsAppended (SealedFrames
        (⟦<SpaceKeys<H, P> as PairsOfKeys>⟧.pairs keys.now (space_in packet.now.header.now))
        packet.now.header.now packet.now.number packet.now.frames.now) out.old.items out.new.items) }
    ensures refused { IfErr result
        (λ e. IsRefusedPacket (⟦<SpaceKeys<H, P> as PairsOfKeys>⟧.pairs keys.now) packet.now e) }
{
    let keys = keys.of(packet.header.space());
    let _ = seal_packet(packet.header, packet.number, packet.frames, keys, out)?;
    Ok(())
}

// The datagram of both packets.
fn seal_both<H: HeaderKey, P: PacketKey>(
    alloc: Global,
    first: &Outgoing<'_, '_>,
    second: &Outgoing<'_, '_>,
    keys: &SpaceKeys<H, P>,
) -> Result<Vec<u8>, SealError>
    requires first { CanBeSealed first.now }
    requires second { CanBeSealed second.now }
    ensures sealed { IfOk result
        (λ out. AreSealed (⟦<SpaceKeys<H, P> as PairsOfKeys>⟧.pairs keys.now) first.now second.now out.items) }
    ensures refused { IfErr result (λ e. IsRefusedPacket (⟦<SpaceKeys<H, P> as PairsOfKeys>⟧.pairs keys.now) first.now e
        ⊎ IsRefusedPacket (⟦<SpaceKeys<H, P> as PairsOfKeys>⟧.pairs keys.now) second.now e) }
{
    let mut out = Vec::new(alloc);
    seal(first, keys, &mut out)?;
    seal(second, keys, &mut out)?;
    Ok(out)
}

/// Seals two packets in one datagram, each by the keys of its space, and opens both again. The result has their
/// headers and numbers, and payloads that mean their frames. The error is `Seal` if one of them can't be sealed, or
/// `Open(OpenError::OutOfMemory)`: no other error of opening is possible.
///
/// The caller must give packets that `seal_packet` accepts, and expected numbers below 2^62 from which theirs are
/// expanded. The first header must be read back whatever follows its packet, so it must be a long one; the second must
/// be read back if nothing follows.
pub fn sealed_and_opened<C: ConnectionIdParser, H: HeaderKey, P: PacketKey>(
    alloc: Global,
    first: &Outgoing<'_, '_>,
    second: &Outgoing<'_, '_>,
    parser: &C,
    versions: &[u32],
    keys: &SpaceKeys<H, P>,
    expected: &Expected,
) -> Result<(Opened, Opened), Failure>
    requires first { CanBeSealed first.now }
    requires second { CanBeSealed second.now }
    requires expected { AreExpected expected.now }
    requires front { (rest : List ℕ) → IsFoundAgain
        (⟦<SpaceKeys<H, P> as OpeningKeys<C>>⟧.opening keys.now parser.now versions.now false expected.now)
        first.now rest }
    requires back { IsFoundAgain
        (⟦<SpaceKeys<H, P> as OpeningKeys<C>>⟧.opening keys.now parser.now versions.now false expected.now)
        second.now [] }
    ensures opened { IfOk result (λ x. Carries x.0 first.now × Carries x.1 second.now) }
    ensures refused { IfErr result
        (λ e. IsFailure (⟦<SpaceKeys<H, P> as PairsOfKeys>⟧.pairs keys.now) first.now second.now e) }
{
    laws::sealed_opens();
    laws::ends();
    let datagram = match seal_both(alloc, first, second, keys) {
        Ok(out) => BytesMut::from_vec(out),
        Err(e) => return Err(Failure::Seal(e)),
    };
    let (one, rest) = match open_packet(datagram, parser, versions, false, keys, expected) {
        Ok(opened) => opened,
        Err(e) => return Err(Failure::Open(e)),
    };
    let Some(rest) = rest else { unreachable!() };
    match open_packet(rest, parser, versions, false, keys, expected) {
        Ok((other, _rest)) => Ok((one, other)),
        Err(e) => Err(Failure::Open(e)),
    }
}
