//! Stateless resets (RFC 9000, section 10.3).
ghost use Rattle.std.specs.Prelude.{◌≡◌, ◌+◌, ◌<◌, ◌≤◌, ◌⊎◌, ◌↔◌, ◌≢◌, length, take, drop};
ghost use Rattle.quic_resets.specs.Resets.{reset_bytes, IsReset, IsShortHeader};

use quic_base::ids::{RESET_TOKEN_SIZE, ResetToken};
use quic_resets::reset::{is_reset, store};

/// Writes a stateless reset at the front of `dest`: as many bytes as are unpredictable, of which the first one's two
/// highest bits become 0 and 1, and the token of 16 bytes. It returns how many bytes it has; the bytes after those
/// don't change. It returns 0 exactly when the token hasn't 16 bytes, the reset has fewer than 21, or `dest` has less
/// room; nothing changes then.
#[unsafe(no_mangle)]
pub extern "C" fn quic_wire_reset_write_(
    unpredictable: &[u8],
    token: &[u8],
    dest: &mut [u8],
) -> usize
    ensures wrote { 0 < result → (take result dest.new ≡ reset_bytes unpredictable.now token.now)
        × (drop result dest.new ≡ drop result dest.old) × (result ≤ length dest.old) }
    ensures reset { 0 < result → IsReset token.now (take result dest.new) × IsShortHeader (take result dest.new) }
    ensures none { result ≡ 0 → (length token.now ≢ 16) ⊎ (length unpredictable.now + 16 < 21)
        ⊎ (length dest.old < length unpredictable.now + 16) }
    ensures same { result ≡ 0 → dest.new ≡ dest.old }
{
    let Ok(token) = <[u8; RESET_TOKEN_SIZE]>::try_from(token) else {
        return 0;
    };
    match store(unpredictable, &ResetToken::from(token), dest) {
        Some(len) => len,
        None => 0,
    }
}

/// Whether a datagram is a stateless reset with this token: 1 exactly if the token has 16 bytes, the datagram has 21 or
/// more, and it ends in the token; else 0. The comparison runs the same instructions for all bytes of datagrams of one
/// length, and for all tokens (section 10.3.1), which is tested and not proved.
#[unsafe(no_mangle)]
pub extern "C" fn quic_wire_is_reset_(datagram: &[u8], token: &[u8]) -> u32
    ensures either { (result ≡ 0) ⊎ (result ≡ 1) }
    ensures reset { (result ≡ 1) ↔ ((length token.now ≡ 16) × IsReset token.now datagram.now) }
{
    let Ok(token) = <[u8; RESET_TOKEN_SIZE]>::try_from(token) else {
        return 0;
    };
    if is_reset(datagram, &ResetToken::from(token)) {
        1
    } else {
        0
    }
}
