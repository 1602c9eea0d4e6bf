//! Packets that are sealed and opened, and their payloads: what callers learn of them from the laws, for every lawful
//! pair of keys and every lawful parser of ids.
ghost use Rattle.std.specs.Prelude.{◌≡◌, ◌++◌, ◌<◌, ◌∷◌, false, true, [], IfErr, IfOk, Ok, OnOk, length};
ghost use Rattle.quic_frames.specs.Written.{IsPayload};
ghost use Rattle.quic_packets.specs.Opening.{AreExpected};
ghost use Rattle.quic_bench.specs.Outgoing.{CanBeSealed, Carries, IsFailure, IsFoundAgain, IsRefusedPacket};

use crate::two_packets::{Failure, Outgoing, seal};
use bytes::BytesMut;
use quic_canon::canonical::{CanonError, canonical_of};
use quic_canon::laws::{one_least, written_is_least};
use quic_frames::frame::Frame;
use quic_packets::crypto::{HeaderKey, PacketKey};
use quic_packets::laws::one_packet;
use quic_packets::packet::{
    ConnectionIdParser, Expected, Opened, SealError, SpaceKeys, open_datagram,
};
use quic_packets::pairs::{OpeningKeys, PairsOfKeys};
use std::alloc::Global;

/// Seals a packet twice, and returns whether both times make the same bytes: they do.
pub fn sealed_alike<H: HeaderKey, P: PacketKey>(
    alloc: Global,
    packet: &Outgoing<'_, '_>,
    keys: &SpaceKeys<H, P>,
) -> Result<bool, SealError>
    requires { CanBeSealed packet.now }
    ensures alike { IfOk result (λ same. same ≡ true) }
    ensures refused { IfErr result
        (λ e. IsRefusedPacket (⟦<SpaceKeys<H, P> as PairsOfKeys>⟧.pairs keys.now) packet.now e) }
{
    one_packet();
    let mut one = Vec::new(alloc);
    seal(packet, keys, &mut one)?;
    let mut other = Vec::new(alloc);
    seal(packet, keys, &mut other)?;
    Ok(one.as_slice() == other.as_slice())
}

/// Seals a packet, and opens the datagram that has only this one: exactly that packet is appended. Errors are those of
/// `sealed_and_opened`.
pub fn datagram_opened<C: ConnectionIdParser, H: HeaderKey, P: PacketKey>(
    alloc: Global,
    packet: &Outgoing<'_, '_>,
    parser: &C,
    versions: &[u32],
    keys: &SpaceKeys<H, P>,
    expected: &Expected,
    out: &mut Vec<Opened>,
) -> Result<(), Failure>
    requires packet { CanBeSealed packet.now }
    requires expected { AreExpected expected.now }
    requires found { IsFoundAgain
        (⟦<SpaceKeys<H, P> as OpeningKeys<C>>⟧.opening keys.now parser.now versions.now false expected.now)
        packet.now [] }
    ensures opened { OnOk result ((opened : Opened)
        × (out.new.items ≡ out.old.items ++ (opened ∷ [])) × Carries opened packet.now) }
    ensures refused { IfErr result (λ e. IsFailure (⟦<SpaceKeys<H, P> as PairsOfKeys>⟧.pairs keys.now)
        packet.now packet.now e) }
{
    let mut sealed = Vec::new(alloc);
    match seal(packet, keys, &mut sealed) {
        Ok(()) => {}
        Err(e) => return Err(Failure::Seal(e)),
    }
    let datagram = BytesMut::from_vec(sealed);
    match open_datagram(datagram, parser, versions, false, keys, expected, out) {
        Ok(()) => Ok(()),
        Err(e) => Err(Failure::Open(e)),
    }
}

/// Whether a packet's payload is its own canonical payload: it is, if the packet was sealed from frames.
pub fn is_canonical(alloc: Global, payload: &[u8], frames: &[Frame<'_>]) -> Result<bool, CanonError>
    requires some { 0 < length frames.now }
    requires written { IsPayload frames.now payload.now }
    ensures { result ≡ Ok true }
{
    written_is_least();
    one_least();
    match canonical_of(alloc, payload) {
        Ok(canonical) => Ok(canonical.bytes() == payload),
        Err(e) => Err(e),
    }
}
