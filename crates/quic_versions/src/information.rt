//! Reads and writes the parameter's value.
ghost use Rattle.std.specs.Prelude.{◌≡◌, ◌<◌, ◌++◌, ◌⊎◌, ◌↔◌, ◌^◌, ◌+◌, ◌*◌, ◌∷◌, ◌≤◌, ℕ, List, [], Contains, IfSome, IsNone, IsTrue, MatchOption, length, take, drop};
ghost use Rattle.quic_base.specs.Number.{num};
ghost use Rattle.quic_versions.specs.Versions.{AreVersions, IsInformation};

use quic_base::coding::are_bytes;

// The number in the first four bytes, and what follows them.
fn word(bytes: &[u8]) -> Option<(u32, &[u8])>
    ensures some { IfSome result (λ x. (4 ≤ length bytes.now) × (x.0 ≡ num (take 4 bytes.now))
        × (x.1.now ≡ drop 4 bytes.now)) }
    ensures none { IsNone result → length bytes.now < 4 }
{
    let (front, rest) = bytes.split_first_chunk::<4>()?;
    are_bytes(front);
    Some((u32::from_be_bytes(*front), rest))
}

// Whether the bytes are versions.
fn are_versions(bytes: &[u8]) -> bool
    ensures { IsTrue result ↔ ((versions : List ℕ) × AreVersions versions bytes.now) }
{
    let mut left = bytes;
    while let Some((version, rest)) = word(left) {
        are_bytes(left);
        if version == 0 {
            return false;
        }
        left = rest;
    }
    left.is_empty()
}

/// The first of these versions, and the others: the bytes after the first four. `None` exactly if there is none; of
/// bytes that are no versions, if there are fewer than four. They are what `read` returned, or what this function did.
pub fn split(versions: &[u8]) -> Option<(u32, &[u8])>
    ensures some { (list : List ℕ) → AreVersions list versions.now
        → IfSome result (λ x. (others : List ℕ) × (list ≡ x.0 ∷ others) × AreVersions others x.1.now) }
    ensures none { (list : List ℕ) → AreVersions list versions.now → IsNone result → list ≡ [] }
    ensures whole { IfSome result (λ x. (4 ≤ length versions.now) × (x.1.now ≡ drop 4 versions.now)) }
    ensures short { IsNone result → length versions.now < 4 }
{
    word(versions)
}

/// The chosen version, and the bytes of those that are available, which `split` reads one by one. `None` exactly if
/// this isn't the parameter's value: it has no version, or its length isn't a multiple of four, or a version is 0. The
/// peer then breaks RFC 9368, section 4, and the connection is closed with TRANSPORT_PARAMETER_ERROR.
pub fn read(value: &[u8]) -> Option<(u32, &[u8])>
    ensures some { IfSome result (λ x. (available : List ℕ) × IsInformation x.0 available value.now
        × AreVersions available x.1.now) }
    ensures none { IsNone result → (chosen : ℕ) (available : List ℕ) → IsInformation chosen available value.now → ⊥ }
{
    if are_versions(value) {
        word(value)
    } else {
        None
    }
}
