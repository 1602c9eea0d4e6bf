//! Traits of keys, with laws (RFC 9001, sections 5.3 and 5.4). The caller chooses the ciphers: contracts about packets
//! hold for every pair of keys with these laws.
ghost use Rattle.std.specs.Prelude.{◌≡◌, ℕ, ◌+◌, ◌-◌, ◌^◌, ◌<◌, ◌≤◌, List, ◌++◌, length, take, Option, Some, None, MatchResult};
ghost use Rattle.quic_base.specs.Number.{AreBytes};
ghost use Rattle.quic_crypto.specs.Keys.{HasSample, Protects, Unprotects, payload_in};

use bytes::BytesMut;
use thiserror::Error;

/// A payload's tag doesn't match the packet number, the header and the key.
#[derive(Clone, Copy, Debug, PartialEq, Eq, Error)]
#[error("payload does not belong to the packet's number, header and key")]
pub struct CryptoError;

/// A key that hides the low bits of a header's first byte, and the packet number (RFC 9001, section 5.4). What its
/// calls do is a function of the key, the number's offset and the packet.
pub trait HeaderKey {
    // How many bytes are sampled.
    ghost sample_len: { Self → ℕ };

    // The packet with its header protected, whose number begins at an offset.
    ghost protected: { Self → ℕ → List ℕ → List ℕ };

    // The packet with its header protection removed.
    ghost unprotected: { Self → ℕ → List ℕ → List ℕ };

    /// How many bytes are sampled. They begin four bytes after the start of the packet number, whatever its length (RFC
    /// 9001, section 5.4.2).
    fn sample_size(&self) -> usize
        ensures { result ≡ sample_len self.now };

    /// Protects the header of a packet whose number begins at `pn_offset`. The caller must ensure that this is after
    /// the first byte, and that the packet has four bytes and the sample from there on.
    fn encrypt(&self, pn_offset: usize, packet: &mut [u8])
        requires { HasSample (sample_len self.now) pn_offset packet.old }
        ensures { packet.new ≡ protected self.now pn_offset packet.old };

    /// Removes the header protection of a packet whose number begins at `pn_offset`, under the conditions of `encrypt`.
    fn decrypt(&self, pn_offset: usize, packet: &mut [u8])
        requires { HasSample (sample_len self.now) pn_offset packet.old }
        ensures { packet.new ≡ unprotected self.now pn_offset packet.old };

    // Protecting changes only the low bits of the first byte and the number's bytes.
    ghost protects: { (k : Self) (at : ℕ) (packet : List ℕ) → AreBytes packet → HasSample (sample_len k) at packet
        → Protects at packet (protected k at packet) };

    // Removing protection changes only the low bits of the first byte and four bytes.
    ghost unprotects: { (k : Self) (at : ℕ) (packet : List ℕ) → AreBytes packet → HasSample (sample_len k) at packet
        → Unprotects at packet (unprotected k at packet) };

    // Removing the protection of a protected packet restores it.
    ghost restores: { (k : Self) (at : ℕ) (packet : List ℕ) → AreBytes packet → HasSample (sample_len k) at packet
        → unprotected k at (protected k at packet) ≡ packet };
}

/// A key that seals the payloads of packets (RFC 9001, section 5.3). What its calls do is a function of the key,
/// the packet's number, its header and the payload.
pub trait PacketKey {
    // How many bytes longer a sealed payload is.
    ghost tag_size: { Self → ℕ };

    // The sealed payload for a packet number, a header and a payload.
    ghost sealed: { Self → ℕ → List ℕ → List ℕ → List ℕ };

    // The plaintext for a packet number, a header and a sealed payload, or none if the tag doesn't match.
    ghost opened: { Self → ℕ → List ℕ → List ℕ → Option (List ℕ) };

    /// How many bytes longer a sealed payload is.
    fn tag_len(&self) -> usize
        ensures { result ≡ tag_size self.now };

    /// Seals the payload of a packet, which is what follows the header's `header_len` bytes, without the last
    /// `tag_len` bytes, which are room for the tag. The caller must ensure that the packet is at least as long as
    /// the header and the tag together. The header doesn't change.
    fn encrypt(&self, number: u64, packet: &mut [u8], header_len: usize)
        requires { header_len + tag_size self.now ≤ length packet.old }
        ensures { packet.new ≡ take header_len packet.old
            ++ sealed self.now number (take header_len packet.old)
            (payload_in header_len (tag_size self.now) packet.old) };

    /// Opens a sealed payload in place. Returns `CryptoError` exactly when the tag doesn't match this number, header
    /// and key; the contents of `payload` are then unspecified.
    fn decrypt(&self, number: u64, header: &[u8], payload: &mut BytesMut) -> Result<(), CryptoError>
        ensures { MatchResult result
            (λ _. opened self.now number header.now payload.old.items ≡ Some payload.new.items)
            (λ _. opened self.now number header.now payload.old.items ≡ None) };

    // A sealed payload is longer by the tag.
    ghost sealed_len: { (k : Self) (number : ℕ) (header payload : List ℕ) → number < 2 ^ 64 → AreBytes header
        → AreBytes payload
        → length (sealed k number header payload) ≡ length payload + tag_size k };

    // What was sealed with a number and a header opens with them.
    ghost opens: { (k : Self) (number : ℕ) (header payload : List ℕ) → number < 2 ^ 64 → AreBytes header
        → AreBytes payload
        → opened k number header (sealed k number header payload) ≡ Some payload };
}
