//! Packet keys that keep the laws, of which no two open the same payloads.
ghost use Rattle.std.specs.Prelude.{◌+◌, ◌%◌, ◌^◌};
ghost use Rattle.quic_crypto.specs.Toy.{toy_open, toy_seal};
ghost use Rattle.quic_crypto.specs.ToyLaws.{toy_opens, toy_sealed_len};

use bytes::BytesMut;
use quic_packets::crypto::toy::{ToyHeaderKey, ToyPacketKey};
use quic_packets::crypto::{CryptoError, PacketKey};
use quic_packets::keys::Keys;

/// A packet key as `ToyPacketKey`, whose tag is the packet number and this number together, modulo 2^64.
#[derive(Clone, Copy, Debug)]
pub struct ShiftedKey(pub u64);

impl PacketKey for ShiftedKey {
    ghost tag_size = { λ _. 16 };

    ghost sealed = { λ key number _ payload. toy_seal ((number + key.0) % 2 ^ 64) payload };

    ghost opened = { λ key number _ sealed. toy_open ((number + key.0) % 2 ^ 64) sealed };

    ghost sealed_len = { λ key number _ payload _ _ _. toy_sealed_len ((number + key.0) % 2 ^ 64) payload };

    ghost opens = { λ key number _ payload _ _ _. toy_opens ((number + key.0) % 2 ^ 64) payload };

    fn tag_len(&self) -> usize {
        ToyPacketKey.tag_len()
    }

    fn encrypt(&self, number: u64, packet: &mut [u8], header_len: usize) {
        ToyPacketKey.encrypt(number.wrapping_add(self.0), packet, header_len)
    }

    fn decrypt(
        &self,
        number: u64,
        header: &[u8],
        payload: &mut BytesMut,
    ) -> Result<(), CryptoError> {
        ToyPacketKey.decrypt(number.wrapping_add(self.0), header, payload)
    }
}

/// A header key that changes nothing, with such a packet key.
pub fn shifted(by: u64) -> Keys<ToyHeaderKey, ShiftedKey> {
    Keys {
        header: ToyHeaderKey,
        packet: ShiftedKey(by),
    }
}
