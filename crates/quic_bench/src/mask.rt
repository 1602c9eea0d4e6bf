//! A header key that keeps the laws: it combines one byte of the packet, the sample, with others by exclusive or.
ghost use Rattle.std.specs.Prelude.{◌≡◌, ℕ, ◌+◌, ◌≤◌, length, slice_index};
ghost use Rattle.quic_bench.specs.Mask.{mask_at, first_masked, mask_protect, mask_unprotect};
ghost use Rattle.quic_bench.specs.MaskLaws.{mask_protects, mask_unprotects, mask_restores};

use quic_packets::crypto::HeaderKey;

/// A header key whose sample is one byte, four bytes after the offset of the number. Each byte of the number is
/// combined with it by exclusive or, and the first byte with its low bits: four in long headers, five in short ones.
#[derive(Clone, Copy, Debug)]
pub struct MaskKey;

// Combines each of some bytes with a byte by exclusive or.
fn mask(packet: &mut [u8], at: usize, count: usize, sample: u8)
    requires { at + count ≤ length packet.old }
    ensures { packet.new ≡ mask_at at count sample packet.old }
{
    for i in at..at + count {
        packet[i] ^= sample;
    }
}

// Combines the first byte with the low bits of a byte by exclusive or.
fn mask_first(packet: &mut [u8], sample: u8)
    requires { 1 ≤ length packet.old }
    ensures { packet.new ≡ first_masked sample packet.old }
{
    let free = if packet[0] < 0x80 { 0x1f } else { 0x0f };
    packet[0] ^= sample & free;
}

impl HeaderKey for MaskKey {
    ghost sample_len = { λ _. 1 };

    ghost protected = { λ _ at packet. mask_protect at packet };

    ghost unprotected = { λ _ at packet. mask_unprotect at packet };

    ghost protects = { λ _ at packet bytes room. mask_protects at packet bytes room };

    ghost unprotects = { λ _ at packet bytes room. mask_unprotects at packet bytes room };

    ghost restores = { λ _ at packet _ room. mask_restores at packet room };

    fn sample_size(&self) -> usize {
        1
    }

    fn encrypt(&self, pn_offset: usize, packet: &mut [u8]) {
        let sample = packet[pn_offset + 4];
        let count = usize::from(packet[0] % 4) + 1;
        mask(packet, pn_offset, count, sample);
        mask_first(packet, sample);
    }

    fn decrypt(&self, pn_offset: usize, packet: &mut [u8]) {
        let sample = packet[pn_offset + 4];
        mask_first(packet, sample);
        let count = usize::from(packet[0] % 4) + 1;
        mask(packet, pn_offset, count, sample);
    }
}
