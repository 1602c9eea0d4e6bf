//! Laws of the parameter's value, which no single call states. The function does nothing at run time.
ghost use Rattle.std.specs.Prelude.{◌≡◌, ℕ, List};
ghost use Rattle.quic_versions.specs.Versions.{AreVersions};

/// Bytes are the versions of one list, and these versions have one form as bytes. So what `store` stores, `read` and
/// `split` read back.
pub fn versions()
    ensures read { (list other bytes : List ℕ) → AreVersions list bytes → AreVersions other bytes → list ≡ other }
    ensures stored { (list bytes others : List ℕ) → AreVersions list bytes → AreVersions list others
        → bytes ≡ others }
{}
