//! A packet key that fulfils the laws and counts what it opens.
ghost use Rattle.quic_crypto.specs.Toy.{toy_seal, toy_open};
ghost use Rattle.quic_crypto.specs.ToyLaws.{toy_sealed_len, toy_opens};

use bytes::BytesMut;
use quic_packets::crypto::toy::{ToyHeaderKey, ToyPacketKey};
use quic_packets::crypto::{CryptoError, PacketKey};
use quic_packets::packet::{Keys, SpaceKeys};
use std::cell::Cell;

/// A packet key as `ToyPacketKey`, which counts the payloads that it has opened.
#[derive(Drop)]
pub struct CountingKey {
    count: Cell<usize>,
}

impl PacketKey for CountingKey {
    ghost tag_size = { λ _. 16 };

    ghost sealed = { λ _ number _ payload. toy_seal number payload };

    ghost opened = { λ _ number _ sealed. toy_open number sealed };

    ghost sealed_len = { λ _ number _ payload _ _ _. toy_sealed_len number payload };

    ghost opens = { λ _ number _ payload _ _ _. toy_opens number payload };

    fn tag_len(&self) -> usize {
        ToyPacketKey.tag_len()
    }

    fn encrypt(&self, number: u64, packet: &mut [u8], header_len: usize) {
        ToyPacketKey.encrypt(number, packet, header_len)
    }

    fn decrypt(
        &self,
        number: u64,
        header: &[u8],
        payload: &mut BytesMut,
    ) -> Result<(), CryptoError> {
        let opened = ToyPacketKey.decrypt(number, header, payload);
        if opened.is_ok() {
            self.count.set(self.count.get().wrapping_add(1));
        }
        opened
    }
}

fn counting() -> Keys<ToyHeaderKey, CountingKey> {
    Keys {
        header: ToyHeaderKey,
        packet: CountingKey {
            count: Cell::new(0),
        },
    }
}

/// Such keys, which have opened nothing so far.
pub fn all_counting() -> SpaceKeys<ToyHeaderKey, CountingKey> {
    SpaceKeys {
        initial: counting(),
        handshake: counting(),
        app: counting(),
    }
}

/// How many payloads these keys have opened. No clause mentions it: only tests use it.
pub fn opened_by(keys: &SpaceKeys<ToyHeaderKey, CountingKey>) -> usize {
    let initial = keys.initial.packet.count.get();
    let handshake = keys.handshake.packet.count.get();
    let app = keys.app.packet.count.get();
    initial.wrapping_add(handshake).wrapping_add(app)
}
