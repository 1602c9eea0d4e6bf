//! What the keys of all levels do, as one value for contracts.
ghost use Rattle.std.specs.Prelude.{ℕ, Bool, List};
ghost use Rattle.std.specs.Option.{option_map};
ghost use Rattle.quic_header_decode.specs.Reading.{read_by};
ghost use Rattle.quic_levels.specs.Opening.{LevelOpening};
ghost use Rattle.quic_levels.specs.Protection.{LevelProtection, header_key, packet_key};

use crate::keys::LevelKeys;
use quic_crypto::crypto::{HeaderKey, PacketKey};
use quic_header_decode::parser::ConnectionIdParser;

/// A type that has keys for levels.
pub trait ProtectsLevels {
    // What the keys of each level do.
    ghost protection: { Self → LevelProtection };
}

/// A type whose keys open packets by their levels, together with a parser of ids.
pub trait OpensLevels<C> {
    // What packets are opened with: this parser, these known versions, and whether the fixed bit may be clear.
    ghost opening: { Self → C → List ℕ → Bool → LevelOpening };
}

impl<H: HeaderKey, P: PacketKey> ProtectsLevels for LevelKeys<H, P> {
    ghost protection = { λ keys. record {
      header = λ level. option_map (λ key. record {
        sample_len = H.sample_len key;
        protected = H.protected key;
        unprotected = H.unprotected key;
      }) (header_key keys level);
      packet = λ level phase n. option_map (λ key. record {
        tag_size = P.tag_size key;
        sealed = P.sealed key;
        opened = P.opened key;
      }) (packet_key keys level phase n);
    } };
}

impl<C: ConnectionIdParser, H: HeaderKey, P: PacketKey> OpensLevels<C> for LevelKeys<H, P> {
    ghost opening = { λ keys parser versions grease. record {
      keys = ⟦<LevelKeys<H, P> as ProtectsLevels>⟧.protection keys;
      options = read_by (C.parsed parser) versions grease;
      takes_memory = C.takes_memory parser;
    } };
}
