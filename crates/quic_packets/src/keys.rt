//! Keys and expected numbers by the space of a packet's number (RFC 9000, section 12.3; RFC 9001, section 5).
ghost use Rattle.std.specs.Prelude.{◌≡◌};
ghost use Rattle.quic_packets.specs.Pairs.{keys_in, expected_in};

use quic_base::ids::SpaceId;

/// The keys of one space.
#[derive(Drop)]
pub struct Keys<H, P> {
    /// The key that protects headers.
    pub header: H,
    /// The key that seals payloads.
    pub packet: P,
}

/// The keys of each space. 0-RTT packets use those of `app`.
#[derive(Drop)]
pub struct SpaceKeys<H, P> {
    /// For Initial packets.
    pub initial: Keys<H, P>,
    /// For Handshake packets.
    pub handshake: Keys<H, P>,
    /// For 0-RTT and 1-RTT packets.
    pub app: Keys<H, P>,
}

impl<H, P> SpaceKeys<H, P> {
    /// The keys of a space. 0-RTT packets are in the space `Data`, like 1-RTT packets, so both use the keys `app`.
    pub fn of(&self, space: SpaceId) -> &Keys<H, P>
        ensures { result.now ≡ keys_in self.now space }
    {
        match space {
            SpaceId::Initial => &self.initial,
            SpaceId::Handshake => &self.handshake,
            SpaceId::Data => &self.app,
        }
    }
}

/// The packet number that is expected next in each space, below 2^62. 0-RTT packets use that of `app`.
#[derive(Clone, Copy, Debug, PartialEq, Eq)]
pub struct Expected {
    /// For Initial packets.
    pub initial: u64,
    /// For Handshake packets.
    pub handshake: u64,
    /// For 0-RTT and 1-RTT packets.
    pub app: u64,
}

impl Expected {
    /// The packet number that is expected next in a space.
    pub fn of(&self, space: SpaceId) -> u64
        ensures { result ≡ expected_in self.now space }
    {
        match space {
            SpaceId::Initial => self.initial,
            SpaceId::Handshake => self.handshake,
            SpaceId::Data => self.app,
        }
    }
}
