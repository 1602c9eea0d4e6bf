//! A header key and a packet key as one value, for contracts.
ghost use Rattle.std.specs.Prelude.{ℕ, Bool, List};
ghost use Rattle.quic_base.specs.declared.ids.SpaceId.{SpaceId};
ghost use Rattle.quic_header_decode.specs.Reading.{read_by};
ghost use Rattle.quic_packets.specs.declared.keys.Expected.{Expected};
ghost use Rattle.quic_packets.specs.Opening.{Opening};
ghost use Rattle.quic_packets.specs.Pairs.{KeyPair, expected_in, keys_in};

use crate::keys::{Keys, SpaceKeys};
use quic_base::ids::SpaceId;
use quic_crypto::crypto::{HeaderKey, PacketKey};
use quic_header_decode::parser::ConnectionIdParser;

/// A type that has a pair of keys.
pub trait PairOfKeys {
    // What the keys do.
    ghost pair: { Self → KeyPair };
}

/// A type that has a pair of keys for each space.
pub trait PairsOfKeys {
    // What the keys of a space do.
    ghost pairs: { Self → SpaceId → KeyPair };
}

/// A type whose keys open packets, together with a parser of ids.
pub trait OpeningKeys<C> {
    // What packets are opened with: this parser, these known versions, whether the fixed bit may be clear, and these
    // expected numbers.
    ghost opening: { Self → C → List ℕ → Bool → Expected → Opening };
}

impl<H: HeaderKey, P: PacketKey> PairOfKeys for Keys<H, P> {
    ghost pair = { λ keys. record {
      sample_len = H.sample_len keys.header;
      tag_size = P.tag_size keys.packet;
      protected = H.protected keys.header;
      unprotected = H.unprotected keys.header;
      sealed = P.sealed keys.packet;
      opened = P.opened keys.packet;
    } };
}

impl<H: HeaderKey, P: PacketKey> PairsOfKeys for SpaceKeys<H, P> {
    ghost pairs = { λ keys space. ⟦<Keys<H, P> as PairOfKeys>⟧.pair (keys_in keys space) };
}

impl<C: ConnectionIdParser, H: HeaderKey, P: PacketKey> OpeningKeys<C> for SpaceKeys<H, P> {
    ghost opening = { λ keys parser versions grease expected. record {
      keys = ⟦<SpaceKeys<H, P> as PairsOfKeys>⟧.pairs keys;
      options = read_by (C.parsed parser) versions grease;
      takes_memory = C.takes_memory parser;
      expected = expected_in expected;
    } };
}
