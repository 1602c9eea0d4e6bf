//! Makes stateless resets, and recognises them.
ghost use Rattle.std.specs.Prelude.{◌≡◌, ◌+◌, ◌-◌, ◌<◌, ◌≤◌, ◌⊎◌, ◌↔◌, ◌++◌, IfSome, IsNone, IsTrue, length, take, drop};
ghost use Rattle.quic_resets.specs.Resets.{reset_bytes, IsReset, IsShortHeader};

use quic_base::coding::{store_array, store_bytes};
use quic_base::ids::{RESET_TOKEN_SIZE, ResetToken};

/// How many bytes a stateless reset has at least.
pub const MIN_LEN: usize = 21;

/// Stores a stateless reset at the front of `dest`, and returns how many bytes it has: as many as `unpredictable`, and
/// the token's 16. The two highest bits of the first byte are 0 and 1, as in a packet with a short header; all other
/// bits before the token are those of `unpredictable`, which the caller makes so that no observer can tell them from a
/// packet's. `None` exactly if that are fewer than 21 bytes, or `dest` has less room; `dest` doesn't change then (RFC
/// 9000, section 10.3).
///
/// The caller keeps it shorter than what it answers, so that two endpoints don't answer each other's resets for ever
/// (section 10.3.3).
pub fn store(unpredictable: &[u8], token: &ResetToken, dest: &mut [u8]) -> Option<usize>
    ensures len { IfSome result (λ n. n ≡ length unpredictable.now + 16) }
    ensures front { IfSome result (λ n. take n dest.new ≡ reset_bytes unpredictable.now token.now) }
    ensures reset { IfSome result (λ n. IsReset token.now (take n dest.new)) }
    ensures short { IfSome result (λ n. IsShortHeader (take n dest.new)) }
    ensures back { IfSome result (λ n. drop n dest.new ≡ drop n dest.old) }
    ensures fits { IfSome result (λ n. n ≤ length dest.old) }
    ensures none { IsNone result → (length unpredictable.now + 16 < 21)
        ⊎ (length dest.old < length unpredictable.now + 16) }
    ensures same { IsNone result → dest.new ≡ dest.old }
{
    let (first, rest) = unpredictable.split_first()?;
    let len = unpredictable.len() + RESET_TOKEN_SIZE;
    if len < MIN_LEN || dest.len() < len {
        return None;
    }
    let at = store_array(dest, 0, [0x40 + first % 0x40]);
    let at = store_bytes(dest, at, rest);
    Some(store_bytes(dest, at, token.as_slice()))
}

/// Whether a datagram is a stateless reset with this token: it has at least 21 bytes, and ends in the token. Its first
/// bits don't count, since another version may send resets with a long header (RFC 9000, section 10.3). The comparison
/// runs the same instructions for all bytes of datagrams of one length, and for all tokens (section 10.3.1), which is
/// tested and not proved.
pub fn is_reset(datagram: &[u8], token: &ResetToken) -> bool
    ensures { IsTrue result ↔ IsReset token.now datagram.now }
{
    let Some(last) = datagram.last_chunk::<RESET_TOKEN_SIZE>() else {
        return false;
    };
    datagram.len() >= MIN_LEN && ResetToken::from(*last) == *token
}
