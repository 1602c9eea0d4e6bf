//! What RFC 9001 says of bytes up to the cipher.
ghost use Rattle.std.specs.Prelude.{◌≡◌, ◌<◌, ◌≤◌, ◌⊎◌, ◌↔◌, ◌≢◌, Some, None, length, take, drop, Option, IfSome, IsNone, ℕ, List};
ghost use Rattle.quic_tls.specs.Nonce.{nonce_of};
ghost use Rattle.quic_tls.specs.Retry.{pseudo_packet};
ghost use Rattle.quic_c_layer.specs.Constants.{constant_in};

use quic_tls::constants::Constants;
use quic_tls::nonce::nonce;
use quic_tls::retry::store_pseudo_packet;

/// The nonce of a packet, by the iv of its keys and its number, whole (RFC 9001, section 5.3). It returns 1; 0 exactly
/// when `iv` or `dest` doesn't have 12 bytes, and `dest` doesn't change then.
#[unsafe(no_mangle)]
pub extern "C" fn quic_wire_nonce_(iv: &[u8], number: u64, dest: &mut [u8]) -> u32
    ensures either { (result ≡ 0) ⊎ (result ≡ 1) }
    ensures made { result ≡ 1 → dest.new ≡ nonce_of iv.now number }
    ensures none { (result ≡ 0) ↔ ((length iv.now ≢ 12) ⊎ (length dest.old ≢ 12)) }
    ensures same { result ≡ 0 → dest.new ≡ dest.old }
{
    let Ok(iv) = <[u8; 12]>::try_from(iv) else {
        return 0;
    };
    if dest.len() != 12 {
        return 0;
    }
    dest.copy_from_slice(&nonce(iv, number));
    1
}

/// Writes at the front of `dest` what a Retry's tag protects (RFC 9001, section 5.8): the id to which the client sent
/// its first Initial packet, after its length, and the Retry, given whole, without its tag. It returns how many bytes
/// that is; the bytes after those don't change. It returns 0 exactly when `original` has more than 20 bytes, `retry`
/// fewer than 16, or `dest` less room; nothing changes then.
#[unsafe(no_mangle)]
pub extern "C" fn quic_wire_retry_pseudo_write_(
    original: &[u8],
    retry: &[u8],
    dest: &mut [u8],
) -> usize
    ensures wrote { 0 < result → (take result dest.new ≡ pseudo_packet original.now retry.now)
        × (drop result dest.new ≡ drop result dest.old) × (result ≤ length dest.old) }
    ensures some { 0 < result → (length original.now ≤ 20) × (16 ≤ length retry.now) }
    ensures none { result ≡ 0 → (20 < length original.now) ⊎ (length retry.now < 16)
        ⊎ (length dest.old < length (pseudo_packet original.now retry.now)) }
    ensures same { result ≡ 0 → dest.new ≡ dest.old }
{
    match store_pseudo_packet(original, retry, dest) {
        Some(len) => len,
        None => 0,
    }
}

// One of the constants of a version.
fn constant_of(version: u32, which: u32) -> Option<&'static [u8]>
    ensures some { IfSome result (λ bytes. constant_in version which ≡ Some bytes.now) }
    ensures long { IfSome result (λ bytes. 0 < length bytes.now) }
    ensures none { IsNone result → constant_in version which ≡ None }
{
    let constants = Constants::of(version)?;
    match which {
        0 => Some(&constants.initial_salt),
        1 => Some(&constants.retry_key),
        2 => Some(&constants.retry_nonce),
        3 => Some(constants.key_label.as_bytes()),
        4 => Some(constants.iv_label.as_bytes()),
        5 => Some(constants.hp_label.as_bytes()),
        6 => Some(constants.ku_label.as_bytes()),
        _ => None,
    }
}

/// Copies one of the constants of a version to the front of `dest`, and returns how many bytes it has; the bytes after
/// those don't change. `which` is 0 for the salt of Initial packets, 1 and 2 for the key and the nonce of a Retry's
/// tag, 3 to 6 for the labels of a packet's key, its iv, the key of header protection and the next secret. It returns 0
/// exactly when `version` isn't 1 or 2, there is no such constant, or `dest` has less room; nothing changes then (RFC
/// 9001, sections 5.1, 5.2, 5.8 and 6.1; RFC 9369, section 3.3).
#[unsafe(no_mangle)]
pub extern "C" fn quic_wire_constant_(version: u32, which: u32, dest: &mut [u8]) -> usize
    ensures copied { 0 < result → (constant_in version which ≡ Some (take result dest.new))
        × (drop result dest.new ≡ drop result dest.old) × (result ≤ length dest.old) }
    ensures none { result ≡ 0 → (bytes : List ℕ) → constant_in version which ≡ Some bytes
        → length dest.old < length bytes }
    ensures same { result ≡ 0 → dest.new ≡ dest.old }
{
    let Some(bytes) = constant_of(version, which) else {
        return 0;
    };
    let len = bytes.len();
    if dest.len() < len {
        return 0;
    }
    dest[..len].copy_from_slice(bytes);
    len
}
