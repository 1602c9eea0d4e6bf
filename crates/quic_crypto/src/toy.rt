//! A pair of keys that fulfils the laws and protects nothing: for tests, and to read packets by eye.
ghost use Rattle.std.specs.Prelude.{◌≡◌, refl};
ghost use Rattle.quic_crypto.specs.Toy.{toy_tag, toy_seal, toy_open};
ghost use Rattle.quic_crypto.specs.ToyLaws.{toy_protects, toy_unprotects, toy_sealed_len, toy_opens};

use crate::crypto::{CryptoError, HeaderKey, PacketKey};
use bytes::BytesMut;

/// How many bytes the sample and the tag have.
pub const TAG_LEN: usize = 16;

/// A header key that changes nothing. Its sample has 16 bytes.
#[derive(Clone, Copy, Debug)]
pub struct ToyHeaderKey;

impl HeaderKey for ToyHeaderKey {
    ghost sample_len = { λ _. 16 };

    ghost protected = { λ _ _ packet. packet };

    ghost unprotected = { λ _ _ packet. packet };

    ghost protects = { λ _ at packet bytes _. toy_protects at packet bytes };

    ghost unprotects = { λ _ at packet bytes _. toy_unprotects at packet bytes };

    ghost restores = { λ _ _ _ _ _. refl };

    fn sample_size(&self) -> usize {
        TAG_LEN
    }

    fn encrypt(&self, _pn_offset: usize, _packet: &mut [u8]) {}

    fn decrypt(&self, _pn_offset: usize, _packet: &mut [u8]) {}
}

/// A packet key that doesn't change the payload. Its tag is the packet number in eight bytes, the highest first,
/// followed by eight zeros. It opens a payload that ends with the number's tag.
#[derive(Clone, Copy, Debug)]
pub struct ToyPacketKey;

// The tag of a number.
#[tactic(auto, unfolding(quic_base::specs::Number::bytes_of))]
fn tag_of(number: u64) -> [u8; 16]
    ensures { result ≡ toy_tag number }
{
    let [a, b, c, d, e, f, g, h] = number.to_be_bytes();
    [a, b, c, d, e, f, g, h, 0, 0, 0, 0, 0, 0, 0, 0]
}

impl PacketKey for ToyPacketKey {
    ghost tag_size = { λ _. 16 };

    ghost sealed = { λ _ number _ payload. toy_seal number payload };

    ghost opened = { λ _ number _ sealed. toy_open number sealed };

    ghost sealed_len = { λ _ number _ payload _ _ _. toy_sealed_len number payload };

    ghost opens = { λ _ number _ payload _ _ _. toy_opens number payload };

    fn tag_len(&self) -> usize {
        TAG_LEN
    }

    fn encrypt(&self, number: u64, packet: &mut [u8], _header_len: usize) {
        let at = packet.len() - TAG_LEN;
        packet[at..].copy_from_slice(&tag_of(number));
    }

    fn decrypt(
        &self,
        number: u64,
        _header: &[u8],
        payload: &mut BytesMut,
    ) -> Result<(), CryptoError> {
        let len = payload.len();
        if len < TAG_LEN {
            return Err(CryptoError);
        }
        let at = len - TAG_LEN;
        let (_, tag) = payload.as_slice().split_at(at);
        if tag != tag_of(number).as_slice() {
            return Err(CryptoError);
        }
        payload.truncate(at);
        Ok(())
    }
}
