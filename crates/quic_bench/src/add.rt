//! A packet key that keeps the laws and changes the payload: it adds the number's lowest byte to each byte.
ghost use Rattle.std.specs.Prelude.{◌≡◌, ℕ, ◌+◌, ◌%◌, ◌<◌, ◌^◌, map};
ghost use Rattle.quic_bench.specs.Add.{add_byte, take_byte, add_sealed, add_opened};
ghost use Rattle.quic_bench.specs.AddLaws.{add_sealed_len, add_opens};

use bytes::BytesMut;
use quic_packets::crypto::{CryptoError, PacketKey};

/// How many bytes the tag has.
pub const TAG_LEN: usize = 2;

/// A packet key that adds the packet number's lowest byte to each byte of the payload, modulo 256. The tag is the
/// count of the header's bytes and that of the payload's, each modulo 256.
#[derive(Clone, Copy, Debug)]
pub struct AddKey;

// Adds a byte to each byte, modulo 256.
fn add_all(bytes: &mut [u8], low: u8)
    ensures { bytes.new ≡ map (add_byte low) bytes.old }
{
    for x in bytes.iter_mut() {
        *x = x.wrapping_add(low);
    }
}

// Takes a byte from each byte, modulo 256.
fn take_all(bytes: &mut [u8], low: u8)
    ensures { bytes.new ≡ map (take_byte low) bytes.old }
{
    for x in bytes.iter_mut() {
        *x = x.wrapping_sub(low);
    }
}

impl PacketKey for AddKey {
    ghost tag_size = { λ _. 2 };

    ghost sealed = { λ _ number header payload. add_sealed number header payload };

    ghost opened = { λ _ number header sealed. add_opened number header sealed };

    ghost sealed_len = { λ _ number header payload _ _ _. add_sealed_len number header payload };

    ghost opens = { λ _ number header payload _ _ bytes. add_opens number header payload bytes };

    fn tag_len(&self) -> usize {
        TAG_LEN
    }

    fn encrypt(&self, number: u64, packet: &mut [u8], header_len: usize) {
        let at = packet.len() - TAG_LEN;
        let low = (number % 256) as u8;
        add_all(&mut packet[header_len..at], low);
        let tag = [(header_len % 256) as u8, ((at - header_len) % 256) as u8];
        packet[at..].copy_from_slice(&tag);
    }

    fn decrypt(
        &self,
        number: u64,
        header: &[u8],
        payload: &mut BytesMut,
    ) -> Result<(), CryptoError> {
        let len = payload.len();
        if len < TAG_LEN {
            return Err(CryptoError);
        }
        let at = len - TAG_LEN;
        let (_, tag) = payload.as_slice().split_at(at);
        if usize::from(tag[0]) != header.len() % 256 || usize::from(tag[1]) != at % 256 {
            return Err(CryptoError);
        }
        payload.truncate(at);
        take_all(payload.as_mut_slice(), (number % 256) as u8);
        Ok(())
    }
}
