//! A packet that is received after another: what callers learn from the law of runs, for all lawful keys.
ghost use Rattle.std.specs.Prelude.{◌<◌, ◌^◌, IfErr, IfOk, IfSome, length};
ghost use Rattle.quic_frames.specs.InRange.{CanFollow};
ghost use Rattle.quic_header_encode.specs.Writing.{IsWritable};
ghost use Rattle.quic_packets.specs.Sealing.{IsLowPart};
ghost use Rattle.quic_level_callers.specs.Receive.{Carries, IsFailure, IsFoundFirst};

use bytes::BytesMut;
use quic_crypto::crypto::{HeaderKey, PacketKey};
use quic_frames::frame::Frame;
use quic_levels::keys::LevelKeys;
use quic_levels::opening::LevelError;
use quic_levels::protection::OpensLevels;
use quic_levels::receiving::Receiver;
use quic_packets::keys::Keys;
use quic_packets::opening::{Opened, Packets};
use quic_packets::packet::{ConnectionIdParser, DecodeOptions, Header, SealError, seal_packet};
use quic_packets::pairs::PairOfKeys;
use quic_wire::laws::packets_received;
use std::alloc::Global;

/// Why a packet is not sealed and received.
#[derive(Clone, Copy, Debug, PartialEq, Eq, Drop)]
pub enum Failure {
    /// It can't be sealed.
    Seal(SealError),
    /// It isn't opened.
    Receive(LevelError),
}

/// Receives a packet that comes from anyone, and then one that is sealed here. If the first isn't opened, the second
/// is: the result has its header and number, and a payload that means its frames. `None` if the first is opened.
pub fn received_after<C: ConnectionIdParser, H: HeaderKey, P: PacketKey>(
    alloc: Global,
    first: BytesMut,
    header: &Header,
    number: u64,
    frames: &[Frame<'_>],
    sealer: &Keys<H, P>,
    options: &DecodeOptions<'_, C>,
    keys: &LevelKeys<H, P>,
) -> Result<Option<Opened>, Failure>
    requires writable { IsWritable header.now }
    requires low { IsLowPart header.now number }
    requires small { number < 2 ^ 62 }
    requires some { 0 < length frames.now }
    requires follow { CanFollow frames.now }
    requires found { IsFoundFirst (⟦<LevelKeys<H, P> as OpensLevels<C>>⟧.opening keys.now options.now.parser.now
        options.now.versions.now options.now.grease) (⟦<Keys<H, P> as PairOfKeys>⟧.pair sealer.now) header.now number }
    ensures carried { IfOk result
        (λ received. IfSome received (λ opened. Carries opened header.now number frames.now)) }
    ensures refused { IfErr result (IsFailure (⟦<Keys<H, P> as PairOfKeys>⟧.pair sealer.now) header.now frames.now) }
{
    packets_received();
    let mut receiver = Receiver::new();
    let mut before = Packets::new(first);
    let Some(Err(_)) = receiver.receive_next(&mut before, options, keys) else {
        return Ok(None);
    };
    let mut out = Vec::new(alloc);
    if let Err(e) = seal_packet(header, number, frames, sealer, &mut out) {
        return Err(Failure::Seal(e));
    }
    let mut packets = Packets::new(BytesMut::from_vec(out));
    match receiver.receive_next(&mut packets, options, keys) {
        Some(Ok(opened)) => Ok(Some(opened)),
        Some(Err(e)) => Err(Failure::Receive(e)),
        None => unreachable!(),
    }
}
