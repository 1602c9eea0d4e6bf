//! Writes the answer.
ghost use Rattle.std.specs.Prelude.{◌≡◌, ◌≢◌, ◌+◌, ◌*◌, ◌%◌, ◌<◌, ◌≤◌, ◌⊎◌, ◌∷◌, ◌++◌, ℕ, List, [], Contains, IfSome, IsNone, length, take, drop};
ghost use Rattle.quic_base.specs.ConnectionId.{long_id};
ghost use Rattle.quic_header_decode.specs.Places.{AnyVersion};
ghost use Rattle.quic_negotiation.specs.Answers.{IsAnswer};
ghost use Rattle.quic_versions.specs.Versions.{version_bytes};

use crate::ids::{ids_of, store_id};
use quic_base::coding::store_array;
use quic_versions::store::{has_zero, store_versions};

// Stores the packet at the front, and returns how many bytes it has.
#[inline(always)]
fn store_packet(first: u8, dst: &[u8], src: &[u8], versions: &[u32], dest: &mut [u8]) -> usize
    requires dst_few { length dst.now ≤ 255 }
    requires src_few { length src.now ≤ 255 }
    requires room { 7 + length dst.now + length src.now + 4 * length versions.now ≤ length dest.old }
    ensures end { result ≡ 7 + length dst.now + length src.now + 4 * length versions.now }
    ensures front { take result dest.new ≡ (0x80 + first % 0x80)
        ∷ 0 ∷ 0 ∷ 0 ∷ 0 ∷ (long_id dst.now ++ (long_id src.now ++ version_bytes versions.now)) }
    ensures back { drop result dest.new ≡ drop result dest.old }
{
    let at = store_array(dest, 0, [0x80 + first % 0x80, 0, 0, 0, 0]);
    let at = store_id(dest, at, dst);
    let at = store_id(dest, at, src);
    store_versions(versions, dest, at)
}

/// Stores the answer to `received` at the front of `dest`, and returns how many bytes it has: a Version Negotiation
/// packet to the sender of `received`, whose ids it has exchanged, with these versions. `received` begins with the
/// packet that is answered; its ids may have up to 255 bytes. The seven low bits of `first` become those of the first
/// byte, of which RFC 9000 has 0x40 set and the others made at random (section 17.2.1).
///
/// `None` exactly if `received` doesn't begin with a long header, whole up to its ids, of a version other than 0, so
/// that no Version Negotiation packet is answered; if `versions` has none, since such a packet is ignored, or has 0; or
/// if `dest` has too little room. `dest` doesn't change then (RFC 8999, section 6; RFC 9000, section 6.1).
pub fn answer(first: u8, received: &[u8], versions: &[u32], dest: &mut [u8]) -> Option<usize>
    ensures answers { IfSome result (λ n. IsAnswer first versions.now received.now (take n dest.new)) }
    ensures some { IfSome result (λ n. 0 < n) }
    ensures back { IfSome result (λ n. drop n dest.new ≡ drop n dest.old) }
    ensures fits { IfSome result (λ n. n ≤ length dest.old) }
    ensures none { IsNone result → (version : ℕ) (dst src rest : List ℕ)
        → AnyVersion received.now version dst src rest → version ≢ 0
        → (versions.now ≡ []) ⊎ Contains versions.now 0
        ⊎ (length dest.old < 7 + length dst + length src + 4 * length versions.now) }
    ensures same { IsNone result → dest.new ≡ dest.old }
{
    let (version, dst, src) = ids_of(received)?;
    let needed = 7 + dst.len() + src.len() + 4 * versions.len();
    if version == 0 || versions.is_empty() || has_zero(versions) || dest.len() < needed {
        return None;
    }
    Some(store_packet(first, src, dst, versions, dest))
}
