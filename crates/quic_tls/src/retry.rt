//! What a Retry's tag protects.
ghost use Rattle.std.specs.Prelude.{◌≡◌, ◌+◌, ◌-◌, ◌<◌, ◌≤◌, ◌⊎◌, ◌++◌, IfSome, IsNone, length, take, drop};
ghost use Rattle.quic_tls.specs.Retry.{pseudo_packet};

use quic_base::coding::{store_array, store_bytes};

/// How many bytes the tag has, with which a Retry ends.
pub const TAG_LEN: usize = 16;

/// Stores the pseudo-packet of a Retry at the front of `dest`: what its tag protects. `original` is the id to which the
/// client sent its first Initial packet; `retry` is the packet, whole and with its tag. Returns how many bytes the
/// pseudo-packet has. `None` exactly if `original` has more than 20 bytes, `retry` has fewer than 16, or `dest` has
/// less room than is needed; `dest` doesn't change then (RFC 9001, section 5.8).
pub fn store_pseudo_packet(original: &[u8], retry: &[u8], dest: &mut [u8]) -> Option<usize>
    ensures len { IfSome result (λ n. n ≡ length (pseudo_packet original.now retry.now)) }
    ensures front { IfSome result (λ n. take n dest.new ≡ pseudo_packet original.now retry.now) }
    ensures back { IfSome result (λ n. drop n dest.new ≡ drop n dest.old) }
    ensures fits { IfSome result (λ n. (length original.now ≤ 20) × (16 ≤ length retry.now) × (n ≤ length dest.old)) }
    ensures none { IsNone result → (20 < length original.now) ⊎ (length retry.now < 16)
        ⊎ (length dest.old < length (pseudo_packet original.now retry.now)) }
    ensures same { IsNone result → dest.new ≡ dest.old }
{
    if original.len() > 20 || retry.len() < TAG_LEN {
        return None;
    }
    let kept = retry.len() - TAG_LEN;
    if 1 + original.len() + kept > dest.len() {
        return None;
    }
    let at = store_array(dest, 0, [original.len() as u8]);
    let at = store_bytes(dest, at, original);
    Some(store_bytes(dest, at, &retry[..kept]))
}
