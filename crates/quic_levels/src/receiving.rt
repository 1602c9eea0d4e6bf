//! Receives packets: numbers that are expected move only with packets that are opened (RFC 9000, section 17.1).
ghost use Rattle.std.specs.Prelude.{◌≡◌, ◌<◌, ◌^◌, IsSome};
ghost use Rattle.quic_levels.specs.Opening.{NextAnswer};
ghost use Rattle.quic_levels.specs.Receiving.{expected_after, expected_next, fresh, one_more, raised};
ghost use Rattle.quic_packets.specs.Opening.{AreExpected, left_size};

use crate::keys::LevelKeys;
use crate::opening::{LevelError, open_next};
use crate::protection::OpensLevels;
use quic_base::ids::SpaceId;
use quic_crypto::crypto::{HeaderKey, PacketKey};
use quic_header_decode::parser::{ConnectionIdParser, DecodeOptions};
use quic_packets::keys::Expected;
use quic_packets::opening::{Opened, Packets};
use std::marker::Model;

/// The greatest packet number (RFC 9000, section 12.3).
pub const MAX_NUMBER: u64 = (1 << 62) - 1;

const _: () = prove!(MAX_NUMBER == 4_611_686_018_427_387_903);

/// Receives packets, and keeps which number is expected next in each space: one more than the greatest that was opened
/// there, at most 2^62 - 1, or 0 if none was.
#[derive(Debug, Drop)]
pub struct Receiver {
    expected: Expected,
}

impl Model for Receiver {
    ghost use Rattle.quic_packets.specs.declared.keys.Expected.{Expected};
    ghost use Rattle.quic_packets.specs.Opening.{AreExpected};

    ghost Value = { Expected };

    ghost view = { λ r. r.expected };

    ghost invariant = { λ r. AreExpected r.expected };
}

impl Receiver {
    /// A receiver that expects number 0 in each space.
    pub fn new() -> Receiver
        ensures { result ≡ fresh }
    {
        Receiver {
            expected: Expected {
                initial: 0,
                handshake: 0,
                app: 0,
            },
        }
    }

    /// The number that is expected next in each space.
    pub fn expected(&self) -> &Expected
        ensures next { result.now ≡ self.now }
        ensures small { AreExpected result.now }
    {
        &self.expected
    }

    /// Opens the next packet of a datagram as `open_next` does, with the numbers that are expected. After an opened
    /// packet, a number above its own is expected in its space. After an error, or without a number, the same numbers
    /// are expected as before.
    pub fn receive_next<C: ConnectionIdParser, H: HeaderKey, P: PacketKey>(
        &mut self,
        packets: &mut Packets,
        options: &DecodeOptions<'_, C>,
        keys: &LevelKeys<H, P>,
    ) -> Option<Result<Opened, LevelError>>
        ensures next { NextAnswer (⟦<LevelKeys<H, P> as OpensLevels<C>>⟧.opening keys.now options.now.parser.now
            options.now.versions.now options.now.grease) self.old packets.old.rest result packets.new.rest }
        ensures expected { self.new ≡ expected_next self.old result }
        ensures shorter { IsSome result → left_size packets.new.rest < left_size packets.old.rest }
    {
        let answer = open_next(packets, options, keys, &self.expected)?;
        self.expected = moved(&self.expected, &answer);
        Some(answer)
    }
}

// The numbers that are expected after a call.
fn moved(expected: &Expected, answer: &Result<Opened, LevelError>) -> Expected
    requires { AreExpected expected.now }
    ensures next { result ≡ expected_after expected.now answer.now }
    ensures small { AreExpected result }
{
    match answer {
        Ok(opened) => match opened.number {
            Some(number) => raise(expected, opened.header.space(), one_more(number)),
            None => *expected,
        },
        Err(_) => *expected,
    }
}

// The number after this one.
fn one_more(number: u64) -> u64
    ensures next { result ≡ one_more number }
    ensures small { result < 2 ^ 62 }
{
    number.saturating_add(1).min(MAX_NUMBER)
}

// At least this number is expected in the space.
fn raise(expected: &Expected, space: SpaceId, number: u64) -> Expected
    requires small { number < 2 ^ 62 }
    requires expected { AreExpected expected.now }
    ensures next { result ≡ raised expected.now space number }
    ensures small { AreExpected result }
{
    let mut raised = *expected;
    match space {
        SpaceId::Initial => raised.initial = raised.initial.max(number),
        SpaceId::Handshake => raised.handshake = raised.handshake.max(number),
        SpaceId::Data => raised.app = raised.app.max(number),
    }
    raised
}
