//! The modes of the program.
ghost use Rattle.std.specs.Prelude.{◌≡◌, ◌≢◌, ◌↔◌, ℕ, List, [], ◌∷◌, Some, codes, map};
ghost use Rattle.quic_text.specs.IdLens.{IsIdLen};
ghost use Rattle.quic_text.specs.Modes.{asked_len};

use crate::id_len::IdLen;
use quic_base::ids::Side;

/// What is printed of each line.
#[derive(Clone, Copy, Debug, PartialEq, Eq)]
pub enum Mode {
    /// The frames of a payload.
    Frames,
    /// The same, but a type that is not in its shortest encoding is an error.
    Strict,
    /// The shortest payload of the same frames.
    Canon,
    /// The packets of a datagram, whose short headers have ids of this length.
    Datagram(IdLen),
    /// The transport parameters that an endpoint of this side receives.
    Params(Side),
}

/// The mode that the arguments after the program's name ask for. `None` for wrong arguments.
pub fn mode_of(words: &[&str]) -> Option<Mode>
    ensures frames { (result ≡ Some Mode.Frames) ↔ (map (λ word. word.now) words.now ≡ codes "frames" ∷ []) }
    ensures strict { (result ≡ Some Mode.Strict) ↔ (map (λ word. word.now) words.now ≡ codes "strict" ∷ []) }
    ensures canon { (result ≡ Some Mode.Canon) ↔ (map (λ word. word.now) words.now ≡ codes "canon" ∷ []) }
    ensures datagram { (len : ℕ)
        → (asked_len result ≡ Some len)
        ↔ ((word : List ℕ) × (map (λ word. word.now) words.now ≡ codes "datagram" ∷ word ∷ []) × IsIdLen len word) }
    ensures client { (result ≡ Some (Mode.Params Side.Client))
        ↔ (map (λ word. word.now) words.now ≡ codes "params" ∷ codes "client" ∷ []) }
    ensures server { (result ≡ Some (Mode.Params Side.Server))
        ↔ (map (λ word. word.now) words.now ≡ codes "params" ∷ codes "server" ∷ []) }
{
    match words {
        ["frames"] => Some(Mode::Frames),
        ["strict"] => Some(Mode::Strict),
        ["canon"] => Some(Mode::Canon),
        ["datagram", word] => datagram_mode(word),
        ["params", "client"] => Some(Mode::Params(Side::Client)),
        ["params", "server"] => Some(Mode::Params(Side::Server)),
        _ => None,
    }
}

// The mode `datagram` with the length in its argument.
fn datagram_mode(word: &str) -> Option<Mode>
    ensures frames { result ≢ Some Mode.Frames }
    ensures strict { result ≢ Some Mode.Strict }
    ensures canon { result ≢ Some Mode.Canon }
    ensures others { (side : Side) → result ≢ Some (Mode.Params side) }
    ensures len { (len : ℕ) → (asked_len result ≡ Some len) ↔ IsIdLen len word.now }
{
    match IdLen::of_word(word) {
        Some(len) => Some(Mode::Datagram(len)),
        None => None,
    }
}
