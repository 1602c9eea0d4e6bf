//! Laws of payloads, which no single call states. The functions do nothing at run time.
ghost use Rattle.std.specs.Prelude.{◌≡◌, ◌≢◌, ◌<◌, ◌≤◌, ◌^◌, ◌+◌, ◌++◌, ℕ, List, [], ◌∷◌, All, None, Some, Option, Bool, Err, true, false, if◌then◌else◌, map, length};
ghost use Rattle.std.specs.declared.ops.Range.{Range};
ghost use Rattle.quic_base.specs.Number.{AreBytes};
ghost use Rattle.quic_base.specs.One.{ExactlyOne};
ghost use Rattle.quic_ranges.specs.Runs.{IsMaximalRuns, IsGreatest, member};
ghost use Rattle.quic_frame_fields.specs.Acks.{parts_of, ranges_acked};
ghost use Rattle.quic_frame_fields.specs.Field.{AreApart, AreBlocks};
ghost use Rattle.quic_frame_fields.specs.Bodies.{shortest_body, type_written};
ghost use Rattle.quic_frames.specs.Body.{with_type};
ghost use Rattle.quic_frames.specs.Found.{found_as};
ghost use Rattle.quic_frame_fields.specs.Sets.{AreCounts, ranges_in, greatest_in, is_in, ack_of};
ghost use Rattle.quic_frames.specs.InRange.{IsTypedFrame, AreTyped, HasNoTypeZero, CanStand, CanFollow};
ghost use Rattle.quic_frames.specs.Least.{AreOrExceed, shortest_frames, frame_in, as_written, all_written};
ghost use Rattle.quic_frames.specs.Meaning.{meaning_of};
ghost use Rattle.quic_frame_fields.specs.Payload.{Meaning, TypedFrame, IsFrame, AreFrames, AreClosed, IsBroken, Reading, Complete, IsReadingAfter, IsReadingOf, followed_by, last_type};
ghost use Rattle.quic_frame_fields.specs.Reading.{Broken, invalid, items_of, reason_text};
ghost use Rattle.quic_errors.specs.Codes.{long_type_reason};
ghost use Rattle.quic_frames.specs.Rules.{IsCheckedAfter, breach_of, only_types, unchecked};
ghost use Rattle.quic_frames.specs.declared.frame.rules.Rules.{Rules};
ghost use Rattle.quic_frames.specs.Placed.{Placed, ArePlaced, IsPlacedBroken, found_in, whole};
ghost use Rattle.quic_frame_fields.specs.Shortest.{shortest_frame, stream_header};
ghost use Rattle.quic_frame_fields.specs.declared.frame.Stream.{Stream};
ghost use Rattle.quic_frame_fields.specs.Table.{is_open};
ghost use Rattle.quic_frames.specs.declared.frame.Frame.{Frame};
ghost use Rattle.quic_frames.specs.declared.frame.Frame.TheVariants as frames;
ghost use Rattle.quic_frame_fields.specs.declared.frame.ack.Ack.{Ack};
ghost use Rattle.quic_frame_fields.specs.declared.frame.ack.EcnCounts.{EcnCounts};
ghost use Rattle.quic_frame_fields.specs.declared.frame.fault.Fault.{Fault};
ghost use Rattle.quic_frame_fields.specs.declared.frame.fault.Fault.TheVariants.{UnexpectedEnd, LongType};

use crate::frame::RETIRE_CONNECTION_ID_SIZE_BOUND;

/// A payload has one reading: frames to its end, or frames up to an error, with that error's type and reason. So has
/// what follows a frame. That holds if types may be in any encoding, and if they must be in their shortest.
pub fn one_reading()
    ensures one { (strict : Bool) (before : Option ℕ) (bytes : List ℕ) → AreBytes bytes
        → ExactlyOne (IsReadingAfter strict before bytes) }
    // The list of frames is unique even if the elements aren't known to be bytes.
    ensures frames { (strict : Bool) (some others : List TypedFrame) (bytes : List ℕ)
        → AreFrames strict some bytes → AreFrames strict others bytes → some ≡ others }
    // No frame that isn't open begins another one.
    ensures begins_none { (strict : Bool) (one other : TypedFrame) (bytes longer rest : List ℕ)
        → is_open one.type ≡ false
        → IsFrame strict one bytes → IsFrame strict other longer → longer ≡ bytes ++ rest → bytes ≡ longer }
    // What is read if types must be in their shortest encodings is read the same if they may be in any.
    ensures relaxed { (strict : Bool) (found : List TypedFrame) (bytes : List ℕ)
        → AreFrames strict found bytes → AreFrames false found bytes }
{}

/// Appending bytes changes no result: frames that aren't open are read again, and then what follows them; an error
/// other than `unexpected end` is reported again, after the same frames, with the same type and reason.
pub fn lasting()
    ensures frames { (strict : Bool) (found : List TypedFrame) (bytes more : List ℕ) (rest : Reading)
        → IsReadingOf strict bytes (Complete found) → AreClosed found
        → IsReadingAfter strict (last_type None found) more rest
        → IsReadingOf strict (bytes ++ more) (followed_by found rest) }
    // Their offsets don't change.
    ensures places { (strict : Bool) (start : ℕ) (frames others : List Placed) (bytes more : List ℕ)
        → ArePlaced strict start frames bytes → AreClosed (map found_in frames)
        → ArePlaced strict (start + length bytes) others more
        → ArePlaced strict start (frames ++ others) (bytes ++ more) }
    ensures error { (strict : Bool) (found : List TypedFrame) (bytes more : List ℕ) (type : Option ℕ) (reason : Fault)
        → AreBytes (bytes ++ more) → reason ≢ UnexpectedEnd
        → IsBroken strict None found bytes type reason → IsBroken strict None found (bytes ++ more) type reason }
    // So no front of a payload without an error is `malformed`, has an `invalid frame ID`, or a long type.
    ensures front { (strict : Bool) (found others : List TypedFrame) (bytes more : List ℕ) (type : Option ℕ)
        (reason : Fault)
        → AreBytes (bytes ++ more) → AreFrames strict found (bytes ++ more)
        → IsBroken strict None others bytes type reason → reason ≡ UnexpectedEnd }
{}

/// The error for a type that is not in its shortest encoding is reported for nothing else.
pub fn reasons()
    ensures long { reason_text LongType ≡ long_type_reason }
    ensures others { (reason : Fault) → reason ≢ LongType → reason_text reason ≢ long_type_reason }
{}

/// If the bytes are these frames, or these and then an error, exactly these are the items that the iterator returns,
/// with these offsets.
pub fn items_in_place()
    ensures frames { (strict : Bool) (frames : List Placed) (bytes : List ℕ) → ArePlaced strict 0 frames bytes
        → items_of strict 0 None bytes ≡ map whole frames }
    ensures broken { (strict : Bool) (frames : List Placed) (bytes : List ℕ) (type : Option ℕ) (reason : Fault)
        → AreBytes bytes → IsPlacedBroken strict frames bytes type reason
        → items_of strict 0 None bytes ≡ map whole frames ++ Broken (invalid type reason) ∷ [] }
{}

/// Bytes encode at most one list of ranges as the blocks of an ACK, and no two of its ranges touch.
pub fn one_list_of_ranges()
    ensures one { (greatest : ℕ) (some others : List (ℕ × ℕ)) (bytes : List ℕ)
        → AreBlocks greatest some bytes → AreBlocks greatest others bytes → some ≡ others }
    ensures apart { (greatest : ℕ) (ranges : List (ℕ × ℕ)) (bytes : List ℕ)
        → AreBlocks greatest ranges bytes → AreApart ranges }
{}

/// An ACK of a set acknowledges the numbers of that set and no others. Its ranges never touch, and the
/// first ends at the greatest number.
pub fn set_acknowledged()
    ensures members { (runs : List (Range ℕ)) (n : ℕ) → IsMaximalRuns runs → is_in (ranges_in runs) n ≡ member runs n }
    ensures apart { (runs : List (Range ℕ)) → IsMaximalRuns runs → AreApart (ranges_in runs) }
    ensures greatest { (runs : List (Range ℕ)) → runs ≢ [] → IsMaximalRuns runs
        → IsGreatest runs (greatest_in (ranges_in runs)) }
    // What is written for it is such an ACK,
    ensures encoded { (strict last : Bool) (delay : ℕ) (runs : List (Range ℕ)) (counts : Option EcnCounts)
        → IsMaximalRuns runs → runs ≢ [] → ((n : ℕ) → member runs n ≡ true → n < 2 ^ 62)
        → delay < 2 ^ 62 → AreCounts counts
        → IsFrame strict (as_written last (ack_of delay runs counts)) (shortest_frame last (ack_of delay runs counts)) }
    // and what is read from that: its ranges, its delay and its counts.
    ensures read { (ack : Ack) (delay : ℕ) (runs : List (Range ℕ)) (counts : Option EcnCounts)
        → meaning_of (frames.Ack ack) ≡ ack_of delay runs counts
        → (ranges_acked ack ≡ ranges_in runs) × ((parts_of ack).delay ≡ delay) × ((parts_of ack).ecn ≡ counts) }
{}

/// Of all encodings of a frame, as the last of its payload or not, and of all payloads of the same frames, one is the
/// shortest, and all others are longer. Its types are in their shortest encodings, and only its last frame is open.
pub fn least_encoding()
    ensures least { (last : Bool) (found : TypedFrame) (bytes : List ℕ) → IsFrame false found bytes
        → (is_open found.type ≡ true → last ≡ true) → AreOrExceed bytes (shortest_frame last found.frame) }
    ensures encoded { (strict last : Bool) (found : TypedFrame) (bytes : List ℕ) → IsFrame false found bytes
        → (is_open found.type ≡ true → last ≡ true)
        → IsFrame strict (as_written last found.frame) (shortest_frame last found.frame)
        × (is_open (as_written last found.frame).type ≡ true → last ≡ true) }
    ensures all_least { (found : List TypedFrame) (bytes : List ℕ) → AreFrames false found bytes
        → AreOrExceed bytes (shortest_frames (map frame_in found)) }
    ensures all_encoded { (strict : Bool) (found : List TypedFrame) (bytes : List ℕ) → AreFrames false found bytes
        → AreFrames strict (all_written (map frame_in found)) (shortest_frames (map frame_in found)) }
    ensures same { (frames : List Meaning) → map frame_in (all_written frames) ≡ frames }
{}

/// Frames that can be written are read back as the same frames from what is written for them, and, by `one_reading`, as
/// nothing else. The bounds of their fields come from `Frame::type_bounds`.
pub fn read_back()
    ensures one { (strict last : Bool) (frame : Frame) → IsTypedFrame frame → CanStand last frame
        → IsFrame strict (as_written last (meaning_of frame)) (shortest_frame last (meaning_of frame))
        × (is_open (as_written last (meaning_of frame)).type ≡ true → last ≡ true) }
    ensures all { (strict : Bool) (fs : List Frame) → AreTyped fs → CanFollow fs
        → AreFrames strict (all_written (map meaning_of fs)) (shortest_frames (map meaning_of fs))
        × (map frame_in (all_written (map meaning_of fs)) ≡ map meaning_of fs) }
    // What is required of a frame to be written holds for each frame that is encoded.
    ensures exact { (last : Bool) (t : ℕ) (frame : Frame) (bytes : List ℕ) → HasNoTypeZero frame
        → IsFrame false (found_as t frame) bytes → (is_open t ≡ true → last ≡ true) → CanStand last frame }
{}

/// The body that `Frame::encode_body_into` stores, behind the type that `Frame::written_type` returns, is the shortest
/// encoding of the frame, as the last of its payload or not.
pub fn body_behind_its_type()
    ensures { (last : Bool) (frame : Meaning)
        → with_type (type_written last frame) (shortest_body last frame) ≡ shortest_frame last frame }
{}

/// The header that `StreamMeta::encode` appends, followed by the data, is the shortest encoding of the STREAM: as the
/// last frame of its payload if the length of the data isn't written, else as a frame that others follow.
pub fn stream_header_and_data()
    ensures { (last : Bool) (s : Stream)
        → stream_header s.id s.offset s.fin (if last then None else Some (length s.bytes.now)) ++ s.bytes.now
        ≡ shortest_frame last (meaning_of (frames.Stream s)) }
{}

/// A RETIRE_CONNECTION_ID has at most as many bytes as its bound.
#[tactic(auto, using(crate::proofs::SizeBounds::retire_bound))]
pub fn retire_connection_id_is_bounded()
    ensures value { RETIRE_CONNECTION_ID_SIZE_BOUND ≡ 9 }
    ensures bounds { (last : Bool) (sequence : ℕ)
        → length (shortest_frame last
        (meaning_of (frames.RetireConnectionId sequence))) ≤ RETIRE_CONNECTION_ID_SIZE_BOUND }
{}

/// Under rules, too, a payload has one reading. If no frame is checked, as with `Rules::default()`, it is that of the
/// iterator without rules.
pub fn checked_readings()
    ensures one { (rules : Rules) (before : Option ℕ) (bytes : List ℕ) → AreBytes bytes
        → ExactlyOne (IsCheckedAfter rules before bytes) }
    ensures plain { (short_types : Bool) (before : Option ℕ) (bytes : List ℕ) (reading : Reading)
        → IsReadingAfter short_types before bytes reading
        → IsCheckedAfter (only_types short_types) before bytes (unchecked reading) }
    // What is written for frames that break no rule is read by the same rules as these frames, without an error.
    ensures written { (rules : Rules) (before : Option ℕ) (fs : List Frame) → AreTyped fs → CanFollow fs
        → All (λ f. breach_of rules (meaning_of f) ≡ None) fs
        → IsCheckedAfter rules before (shortest_frames (map meaning_of fs))
        (record { frames = all_written (map meaning_of fs); error = None }) }
{
    read_back();
}
