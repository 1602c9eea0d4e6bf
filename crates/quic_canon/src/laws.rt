//! Laws of canonical payloads, which no single call states. The functions do nothing at run time.
ghost use Rattle.std.specs.Prelude.{◌≡◌, ◌≢◌, ◌<◌, ◌↔◌, ℕ, List, [], length, map, Option, None, true, false};
ghost use Rattle.quic_base.specs.Number.{AreBytes};
ghost use Rattle.quic_frame_fields.specs.Field.{AreApart};
ghost use Rattle.quic_frames.specs.Least.{frame_in, shortest_frames};
ghost use Rattle.quic_frames.specs.Rules.{IsCheckedOf};
ghost use Rattle.quic_frames.specs.Written.{IsShortestOf};
ghost use Rattle.quic_frames.specs.declared.frame.rules.Rules.{Rules};
ghost use Rattle.quic_frame_fields.specs.Payload.{Meaning, TypedFrame, AreFrames, IsBroken};
ghost use Rattle.quic_frame_fields.specs.Sets.{is_in};
ghost use Rattle.quic_frame_fields.specs.declared.frame.fault.Fault.{Fault};
ghost use Rattle.std.specs.List.{AllZip};
ghost use Rattle.quic_canon.specs.Same.{IsSameFrame, IsSame};
ghost use Rattle.quic_canon.specs.Least.{IsLeast};

use quic_frames::laws::{least_encoding, one_reading};

/// Each valid payload has one shortest payload with the same meaning, and no other payload has one.
pub fn one_least()
    ensures exists { (found : List TypedFrame) (payload : List ℕ) → payload ≢ [] → AreFrames false found payload
        → IsLeast (shortest_frames (map frame_in found)) payload }
    ensures none { (found : List TypedFrame) (least payload : List ℕ) (type : Option ℕ) (reason : Fault)
        → AreBytes payload → IsBroken false None found payload type reason → IsLeast least payload → ⊥ }
    ensures unique { (one other payload : List ℕ) → IsLeast one payload → IsLeast other payload → one ≡ other }
    // Two payloads mean the same exactly when their shortest payloads are equal,
    ensures same { (payload other least least' : List ℕ) → IsLeast least payload → IsLeast least' other
        → (IsSame payload other ↔ (least ≡ least')) }
    // the shortest payload of a shortest payload is itself,
    ensures again { (payload least : List ℕ) → IsLeast least payload → IsLeast least least }
    // and each other payload with that meaning is longer.
    ensures longer { (payload other least : List ℕ) → IsLeast least payload → IsSame other payload → other ≢ least
        → length least < length other }
    // Its types are in their shortest encodings, so the strict reading is the same.
    ensures strict { (payload least : List ℕ) → IsLeast least payload
        → (found : List TypedFrame) × AreFrames true found least × AreFrames false found least }
    // An ACK has one list of ranges: lists of ranges that never touch are equal if they have the same numbers.
    ensures ranges { (some others : List (ℕ × ℕ)) → AreApart some → AreApart others
        → ((n : ℕ) → is_in some n ≡ is_in others n) → some ≡ others }
    // So payloads mean the same exactly when their frames have the same values.
    ensures values { (found others : List TypedFrame) (payload other : List ℕ) → AreFrames false found payload
        → AreFrames false others other → AllZip IsSameFrame (map frame_in found) (map frame_in others)
        → map frame_in found ≡ map frame_in others }
{
    one_reading();
    least_encoding();
}

/// A payload that is written from frames is canonical: `canonical` appends exactly its bytes, and `canonical_of`
/// returns it without a copy. A sealed packet has such a payload.
pub fn written_is_least()
    ensures { (frames : List Meaning) (payload : List ℕ) → frames ≢ [] → IsShortestOf frames payload
        → IsLeast payload payload }
{
    one_least();
    least_encoding();
}

/// The shortest payload with the meaning of one that has no error under some rules has none either, and the same
/// frames.
pub fn least_by_rules()
    ensures { (rules : Rules) (frames : List TypedFrame) (payload least : List ℕ)
        → IsCheckedOf rules payload (record { frames = frames; error = None }) → IsLeast least payload
        → (found : List TypedFrame) × IsCheckedOf rules least (record { frames = found; error = None })
        × (map frame_in found ≡ map frame_in frames) }
{
    one_reading();
    one_least();
}
