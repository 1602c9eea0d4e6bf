//! The transport parameter version_information (RFC 9368).
ghost use Rattle.std.specs.Prelude.{◌≡◌, ◌+◌, ◌*◌, ◌<◌, ◌≤◌, ◌⊎◌, ◌∷◌, ◌++◌, ℕ, List, [], Contains, length, take, drop};
ghost use Rattle.quic_versions.specs.Versions.{AreVersions, IsInformation};

use quic_versions::information::{read, split};
use quic_versions::store::store;

/// Writes the parameter's value at the front of `dest`, and returns how many bytes it has; the bytes after those don't
/// change. It returns 0 exactly when a version is 0 or `dest` has less room; nothing changes then (RFC 9368, section
/// 3).
#[unsafe(no_mangle)]
pub extern "C" fn quic_wire_version_information_write_(
    chosen: u32,
    available: &[u32],
    dest: &mut [u8],
) -> usize
    ensures wrote { 0 < result → IsInformation chosen available.now (take result dest.new)
        × (drop result dest.new ≡ drop result dest.old) × (result ≤ length dest.old) }
    ensures none { result ≡ 0 → Contains (chosen ∷ available.now) 0
        ⊎ (length dest.old < 4 + 4 * length available.now) }
    ensures same { result ≡ 0 → dest.new ≡ dest.old }
{
    match store(chosen, available, dest) {
        Some(len) => len,
        None => 0,
    }
}

/// Reads the parameter's value, and returns the chosen version. Those that are available are in the bytes after the
/// first four, where `quic_wire_version_split_` reads them. It returns 0 exactly when this isn't the parameter's value:
/// it has no version, or its length isn't a multiple of four, or a version is 0 (RFC 9368, section 4).
#[unsafe(no_mangle)]
pub extern "C" fn quic_wire_version_information_read_(value: &[u8]) -> u32
    ensures read { 0 < result → (available : List ℕ) × IsInformation result available value.now
        × AreVersions available (drop 4 value.now) }
    ensures none { result ≡ 0 → (chosen : ℕ) (available : List ℕ) → IsInformation chosen available value.now → ⊥ }
{
    match read(value) {
        Some((chosen, _available)) => chosen,
        None => 0,
    }
}

/// The first of these versions; the others are in the bytes after the first four. It returns 0 exactly if there is
/// none, and always for fewer than four bytes.
#[unsafe(no_mangle)]
pub extern "C" fn quic_wire_version_split_(versions: &[u8]) -> u32
    ensures some { (list : List ℕ) → AreVersions list versions.now → 0 < result
        → (others : List ℕ) × (list ≡ result ∷ others) × AreVersions others (drop 4 versions.now) }
    ensures none { (list : List ℕ) → AreVersions list versions.now → result ≡ 0 → list ≡ [] }
    ensures whole { 0 < result → 4 ≤ length versions.now }
{
    match split(versions) {
        Some((version, _others)) => version,
        None => 0,
    }
}
