//! What is written is read. The functions do nothing at run time.
ghost use Rattle.std.specs.Prelude.{◌≡◌, ℕ, List, [], ◌∷◌, Bool, None, take};
ghost use Rattle.quic_c_words.specs.Shown.{is_last, rules_in};
ghost use Rattle.quic_c_words.specs.declared.words.CFrame.{CFrame};
ghost use Rattle.quic_c_write.specs.Written.{WroteFrame};
ghost use Rattle.quic_frames.specs.Least.{as_written};
ghost use Rattle.quic_frames.specs.Meaning.{meaning_of};
ghost use Rattle.quic_frames.specs.Rules.{IsCheckedOf};

use quic_frames::laws::read_back;

/// What `quic_wire_frame_write_` writes with flags of rules is read by the same rules as the frame that the words
/// describe, and nothing else, whether types must be in their shortest encoding or not.
pub fn written_is_read()
    ensures { (words : CFrame) (bytes old new : List ℕ) (flags written : ℕ) (short : Bool)
        → (w : WroteFrame words bytes flags old new written)
        → IsCheckedOf (record (rules_in flags) { short_types = short }) (take written new)
        (record { frames = as_written (is_last flags) (meaning_of w.frame) ∷ []; error = None }) }
{
    read_back();
}
