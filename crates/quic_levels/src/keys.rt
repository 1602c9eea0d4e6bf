//! Keys by level, and of 1-RTT packets also by key phase (RFC 9001, sections 4 to 6).
ghost use Rattle.std.specs.Prelude.{◌≡◌, ◌≢◌, ◌<◌, ◌≤◌, Some};
ghost use Rattle.std.specs.Option.{option_copied, option_map};
ghost use Rattle.quic_levels.specs.Protection.{header_key, packet_key, phase_key};

use crate::levels::Level;
use quic_packets::keys::Keys;

/// The keys of 1-RTT packets.
#[derive(Drop)]
pub struct OneRttKeys<H, P> {
    /// The key that protects headers. A key update leaves it (RFC 9001, section 6.1).
    pub header: H,
    /// The Key Phase bit of the current phase.
    pub phase: bool,
    /// The least packet number that was opened in the current phase. Until one was, 2^64 - 1 keeps all packets of the
    /// other phase for `former`, and 0 for `next`.
    pub from: u64,
    /// The packet key of the current phase.
    pub current: P,
    /// The packet key of the next phase (RFC 9001, section 6.3). `None` if that phase isn't opened yet.
    pub next: Option<P>,
    /// The packet key of the phase before (RFC 9001, section 6.5). `None` if there was none, and once it is discarded.
    pub former: Option<P>,
}

impl<H, P> OneRttKeys<H, P> {
    /// The packet key for a Key Phase bit and a whole packet number: in the current phase `current`, else `former` for
    /// numbers below `from` and `next` for others (RFC 9001, section 6.5). `None` if there is no such key.
    pub fn packet(&self, phase: bool, number: u64) -> Option<&P>
        ensures current { phase ≡ self.now.phase → option_copied result ≡ Some self.now.current }
        ensures former { phase ≢ self.now.phase → number < self.now.from → option_copied result ≡ self.now.former }
        ensures next { phase ≢ self.now.phase → self.now.from ≤ number → option_copied result ≡ self.now.next }
        ensures key { option_copied result ≡ phase_key self.now phase number }
    {
        if phase == self.phase {
            Some(&self.current)
        } else if number < self.from {
            self.former.as_ref()
        } else {
            self.next.as_ref()
        }
    }
}

/// The keys that open packets, by level. Those of a level are `None` before they are there, and once they are discarded
/// (RFC 9001, section 4.9).
#[derive(Drop)]
pub struct LevelKeys<H, P> {
    /// For Initial packets.
    pub initial: Option<Keys<H, P>>,
    /// For 0-RTT packets.
    pub zero_rtt: Option<Keys<H, P>>,
    /// For Handshake packets.
    pub handshake: Option<Keys<H, P>>,
    /// For 1-RTT packets.
    pub one_rtt: Option<OneRttKeys<H, P>>,
}

impl<H, P> LevelKeys<H, P> {
    /// The header key of a level. `None` if the level has no keys.
    pub fn header(&self, level: Level) -> Option<&H>
        ensures { option_copied result ≡ header_key self.now level }
    {
        match level {
            Level::Initial => header_of(&self.initial),
            Level::ZeroRtt => header_of(&self.zero_rtt),
            Level::Handshake => header_of(&self.handshake),
            Level::OneRtt => match &self.one_rtt {
                Some(keys) => Some(&keys.header),
                None => None,
            },
        }
    }

    /// The packet key of a level, for a packet with this whole number, and with this Key Phase bit if its header is
    /// short. `None` if there is no such key.
    pub fn packet(&self, level: Level, phase: bool, number: u64) -> Option<&P>
        ensures { option_copied result ≡ packet_key self.now level phase number }
    {
        match level {
            Level::Initial => packet_of(&self.initial),
            Level::ZeroRtt => packet_of(&self.zero_rtt),
            Level::Handshake => packet_of(&self.handshake),
            Level::OneRtt => match &self.one_rtt {
                Some(keys) => keys.packet(phase, number),
                None => None,
            },
        }
    }
}

// The header key of a level's keys.
fn header_of<H, P>(keys: &Option<Keys<H, P>>) -> Option<&H>
    ensures { option_copied result ≡ option_map (λ k. k.header) keys.now }
{
    match keys {
        Some(keys) => Some(&keys.header),
        None => None,
    }
}

// The packet key of a level's keys.
fn packet_of<H, P>(keys: &Option<Keys<H, P>>) -> Option<&P>
    ensures { option_copied result ≡ option_map (λ k. k.packet) keys.now }
{
    match keys {
        Some(keys) => Some(&keys.packet),
        None => None,
    }
}
