//! The ids of a packet of any version, each behind its length, which may be up to 255 bytes (RFC 8999, section 5.1).
ghost use Rattle.std.specs.Prelude.{◌≡◌, ◌+◌, ◌<◌, ◌≤◌, ◌++◌, ℕ, List, length, take, drop, IfSome, MatchOption};
ghost use Rattle.quic_base.specs.ConnectionId.{long_id};
ghost use Rattle.quic_header_decode.specs.Places.{AnyVersion};

use quic_base::coding::{are_bytes, store_array, store_bytes};

/// The id at the front of the bytes, after its length, and what follows it. `None` if the bytes end within it.
#[inline(always)]
pub fn split_id(bytes: &[u8]) -> Option<(&[u8], &[u8])>
    ensures read { MatchOption result ((id rest : List ℕ) → bytes.now ≡ long_id id ++ rest → ⊥)
        (λ parts. bytes.now ≡ long_id parts.0.now ++ parts.1.now) }
    ensures few { IfSome result (λ parts. length parts.0.now ≤ 255) }
{
    let (len, rest) = bytes.split_first()?;
    rest.split_at_checked(usize::from(*len))
}

/// The version, the receiver's id and the sender's of the long header of any version at the front of the bytes. `None`
/// exactly if there is no such header: the highest bit of the first byte is clear, or the bytes end within the ids.
#[inline(always)]
pub fn ids_of(packet: &[u8]) -> Option<(u32, &[u8], &[u8])>
    ensures read { MatchOption result
        ((version : ℕ) (dst src rest : List ℕ) → AnyVersion packet.now version dst src rest → ⊥)
        (λ ids. (rest : List ℕ) × AnyVersion packet.now ids.0 ids.1.now ids.2.now rest) }
    ensures dst_few { IfSome result (λ ids. length ids.1.now ≤ 255) }
    ensures src_few { IfSome result (λ ids. length ids.2.now ≤ 255) }
{
    let (first, behind) = packet.split_first()?;
    let (version, behind) = behind.split_first_chunk::<4>()?;
    are_bytes(version);
    if *first < 0x80 {
        return None;
    }
    let (dst, behind) = split_id(behind)?;
    let (src, _rest) = split_id(behind)?;
    Some((u32::from_be_bytes(*version), dst, src))
}

/// Stores an id after its length over the bytes from `at` on, and returns the offset at which it ends. The caller must
/// ensure that it has at most 255 bytes, and that `dest` has room for it there. Other bytes don't change.
#[inline(always)]
pub fn store_id(dest: &mut [u8], at: usize, id: &[u8]) -> usize
    requires few { length id.now ≤ 255 }
    requires room { at + (1 + length id.now) ≤ length dest.old }
    ensures end { result ≡ at + (1 + length id.now) }
    ensures front { take result dest.new ≡ take at dest.old ++ long_id id.now }
    ensures back { drop result dest.new ≡ drop result dest.old }
    ensures len { length dest.new ≡ length dest.old }
{
    let at = store_array(dest, at, [id.len() as u8]);
    store_bytes(dest, at, id)
}
