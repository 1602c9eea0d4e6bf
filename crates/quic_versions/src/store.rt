//! Writes the parameter's value.
ghost use Rattle.std.specs.Prelude.{◌≡◌, ◌<◌, ◌≤◌, ◌+◌, ◌*◌, ◌++◌, ◌∷◌, ◌⊎◌, ◌↔◌, ℕ, List, Contains, IfSome, IsNone, IsTrue, length, take, drop};
ghost use Rattle.quic_versions.specs.Versions.{IsInformation, version_bytes};

use quic_base::coding::store_array;

/// Whether 0 is among the versions. No version has that number (RFC 8999, section 5.1).
pub fn has_zero(versions: &[u32]) -> bool
    ensures { IsTrue result ↔ Contains versions.now 0 }
{
    versions.contains(&0)
}

/// Stores versions over the bytes from `at` on, four bytes each, and returns the offset at which they end. The caller
/// must ensure that `dest` has that many bytes there. Other bytes don't change.
#[tactic(auto, unfolding(quic_base::specs::Number::bytes_of))]
pub fn store_versions(versions: &[u32], dest: &mut [u8], at: usize) -> usize
    requires { at + 4 * length versions.now ≤ length dest.old }
    ensures end { result ≡ at + 4 * length versions.now }
    ensures front { take result dest.new ≡ take at dest.old ++ version_bytes versions.now }
    ensures back { drop result dest.new ≡ drop result dest.old }
    ensures len { length dest.new ≡ length dest.old }
{
    let mut at = at;
    for version in versions {
        at = store_array(dest, at, version.to_be_bytes());
    }
    at
}

/// Stores the parameter's value at the front of `dest`: the chosen version, and then those that are available, which
/// the caller lists with the preferred ones first. Returns how many bytes it has. `None` exactly if a version is 0 or
/// `dest` has less room; `dest` doesn't change then (RFC 9368, section 3).
pub fn store(chosen: u32, available: &[u32], dest: &mut [u8]) -> Option<usize>
    ensures len { IfSome result (λ n. n ≡ 4 + 4 * length available.now) }
    ensures stored { IfSome result (λ n. IsInformation chosen available.now (take n dest.new)) }
    ensures back { IfSome result (λ n. drop n dest.new ≡ drop n dest.old) }
    ensures fits { IfSome result (λ n. n ≤ length dest.old) }
    ensures none { IsNone result → Contains (chosen ∷ available.now) 0
        ⊎ (length dest.old < 4 + 4 * length available.now) }
    ensures same { IsNone result → dest.new ≡ dest.old }
{
    if chosen == 0 || has_zero(available) || dest.len() < 4 + 4 * available.len() {
        return None;
    }
    let at = store_array(dest, 0, chosen.to_be_bytes());
    Some(store_versions(available, dest, at))
}
