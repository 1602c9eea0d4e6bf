//! The answer to a packet of an unknown version (RFC 8999, section 6; RFC 9000, section 6.1).
ghost use Rattle.std.specs.Prelude.{◌≡◌, ◌≢◌, ◌+◌, ◌*◌, ◌<◌, ◌≤◌, ◌⊎◌, ℕ, List, [], Contains, length, take, drop};
ghost use Rattle.quic_header_decode.specs.Places.{AnyVersion};
ghost use Rattle.quic_negotiation.specs.Answers.{IsAnswer};

use quic_negotiation::answer::answer;

/// Writes the answer to the packet at the front of `received` at the front of `dest`: a Version Negotiation packet with
/// its ids exchanged and these versions, and in the first byte the seven low bits of `first`. It returns how many bytes
/// it has; the bytes after those don't change. It returns 0 exactly when `received` doesn't begin with a long header,
/// whole up to its ids, of a version other than 0; when `versions` has none, or has 0; or when `dest` has less room.
/// Nothing changes then.
#[unsafe(no_mangle)]
pub extern "C" fn quic_wire_negotiation_answer_(
    first: u8,
    received: &[u8],
    versions: &[u32],
    dest: &mut [u8],
) -> usize
    ensures wrote { 0 < result → IsAnswer first versions.now received.now (take result dest.new)
        × (drop result dest.new ≡ drop result dest.old) × (result ≤ length dest.old) }
    ensures none { result ≡ 0 → (version : ℕ) (dst src rest : List ℕ)
        → AnyVersion received.now version dst src rest → version ≢ 0
        → (versions.now ≡ []) ⊎ Contains versions.now 0
        ⊎ (length dest.old < 7 + length dst + length src + 4 * length versions.now) }
    ensures same { result ≡ 0 → dest.new ≡ dest.old }
{
    match answer(first, received, versions, dest) {
        Some(len) => len,
        None => 0,
    }
}
