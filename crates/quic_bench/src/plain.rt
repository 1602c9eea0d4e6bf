//! A key of both kinds that keeps the laws, with no sample and no tag.
ghost use Rattle.std.specs.Prelude.{◌≡◌, Some, refl};
ghost use Rattle.quic_bench.specs.Plain.{plain_sealed_len};
ghost use Rattle.quic_crypto.specs.ToyLaws.{toy_protects, toy_unprotects};

use bytes::BytesMut;
use quic_packets::crypto::{CryptoError, HeaderKey, PacketKey};

/// A key that changes nothing, samples nothing and adds no tag.
#[derive(Clone, Copy, Debug)]
pub struct PlainKey;

impl HeaderKey for PlainKey {
    ghost sample_len = { λ _. 0 };

    ghost protected = { λ _ _ packet. packet };

    ghost unprotected = { λ _ _ packet. packet };

    ghost protects = { λ _ at packet bytes _. toy_protects at packet bytes };

    ghost unprotects = { λ _ at packet bytes _. toy_unprotects at packet bytes };

    ghost restores = { λ _ _ _ _ _. refl };

    fn sample_size(&self) -> usize {
        0
    }

    fn encrypt(&self, _pn_offset: usize, _packet: &mut [u8]) {}

    fn decrypt(&self, _pn_offset: usize, _packet: &mut [u8]) {}
}

impl PacketKey for PlainKey {
    ghost tag_size = { λ _. 0 };

    ghost sealed = { λ _ _ _ payload. payload };

    ghost opened = { λ _ _ _ sealed. Some sealed };

    ghost sealed_len = { λ _ _ _ payload _ _ _. plain_sealed_len payload };

    ghost opens = { λ _ _ _ _ _ _ _. refl };

    fn tag_len(&self) -> usize {
        0
    }

    fn encrypt(&self, _number: u64, _packet: &mut [u8], _header_len: usize) {}

    fn decrypt(
        &self,
        _number: u64,
        _header: &[u8],
        _payload: &mut BytesMut,
    ) -> Result<(), CryptoError> {
        Ok(())
    }
}
