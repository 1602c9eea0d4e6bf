//! Laws of spans, which no single call states. The functions do nothing at run time.
ghost use Rattle.std.specs.Prelude.{◌≡◌, ◌≢◌, ◌⊎◌, ◌++◌, ℕ, List, [], Option, Bool, false, true, length};
ghost use Rattle.quic_base.specs.Codec.{Follows};
ghost use Rattle.quic_base.specs.Varint.{Encodes};
ghost use Rattle.quic_base.specs.Number.{AreBytes};
ghost use Rattle.quic_frame_fields.specs.declared.frame.fault.Fault.{Fault};
ghost use Rattle.quic_frame_fields.specs.Payload.{TypedFrame, IsFrame, IsNoFrame};
ghost use Rattle.quic_fields.specs.declared.field.Span.{Span};
ghost use Rattle.quic_fields.specs.Entry.{IsEntryAt};
ghost use Rattle.quic_frame_fields.specs.Field.{Value, Field, Stops};
ghost use Rattle.quic_frames.specs.declared.frame.rules.Rules.{Rules};
ghost use Rattle.quic_fields.specs.Inside.{inside, stop_in_frame};
ghost use Rattle.quic_frame_fields.specs.Table.{is_open};
ghost use Rattle.quic_fields.specs.declared.rules.Refusal.{Refusal};
ghost use Rattle.quic_fields.specs.Rules.{IsAllowedAt, IsRefusedAt};
ghost use Rattle.quic_fields.specs.Stopping.{StopsAtField, StopsInside};
ghost use Rattle.quic_fields.specs.Spans.{IsFrameAt, IsNoFrameAt, AreInRow, AreNumbered};

/// A frame has exactly one list of spans: it has one, only frames have one, and a frame's bytes have no second one.
/// Together the spans are all bytes of the frame, one after another, and their indices count from 0.
pub fn one_list_of_spans()
    ensures exists { (strict : Bool) (found : TypedFrame) (bytes : List ℕ) → IsFrame strict found bytes
        → (spans : List Span) × IsFrameAt strict found spans bytes }
    ensures frames { (strict : Bool) (found : TypedFrame) (spans : List Span) (bytes : List ℕ)
        → IsFrameAt strict found spans bytes → IsFrame strict found bytes }
    ensures one { (strict other : Bool) (found second : TypedFrame) (spans others : List Span) (bytes : List ℕ)
        → IsFrameAt strict found spans bytes → IsFrameAt other second others bytes → spans ≡ others }
    ensures row { (strict : Bool) (found : TypedFrame) (spans : List Span) (bytes : List ℕ)
        → IsFrameAt strict found spans bytes → AreInRow 0 spans (length bytes) × AreNumbered 0 spans }
{}

/// Bytes that start with no frame have exactly one field at fault: there is one, with the reason that the payload's
/// reading reports, and there is no second one.
pub fn one_field_at_fault()
    ensures exists { (before : Option ℕ) (bytes : List ℕ) (type : Option ℕ) (reason : Fault)
        → IsNoFrame false before bytes type reason
        → (spans : List Span) × (at : ℕ) × IsNoFrameAt bytes spans at reason }
    ensures reported { (before : Option ℕ) (bytes : List ℕ) (spans : List Span) (at : ℕ) (reason : Fault) → bytes ≢ []
        → IsNoFrameAt bytes spans at reason → (type : Option ℕ) × IsNoFrame false before bytes type reason }
    ensures one { (bytes : List ℕ) (spans others : List Span) (at other : ℕ) (reason fault : Fault) → AreBytes bytes
        → IsNoFrameAt bytes spans at reason → IsNoFrameAt bytes others other fault
        → (spans ≡ others) × (at ≡ other) × (reason ≡ fault) }
{}

/// An entry of a list of transport parameters has exactly one list of spans, and only entries have one. What the
/// entry's fields encode is its number, its value's length and its value (RFC 9000, section 18).
pub fn one_list_of_spans_in_an_entry()
    ensures exists { (number : ℕ) (value bytes : List ℕ)
        → Follows (Encodes number) (Follows (Encodes (length value)) (λ x. x ≡ value)) bytes
        → (spans : List Span) × IsEntryAt number value spans bytes }
    ensures entries { (number : ℕ) (value : List ℕ) (spans : List Span) (bytes : List ℕ)
        → IsEntryAt number value spans bytes
        → Follows (Encodes number) (Follows (Encodes (length value)) (λ x. x ≡ value)) bytes }
    ensures one { (number other : ℕ) (value second : List ℕ) (spans others : List Span) (bytes : List ℕ)
        → IsEntryAt number value spans bytes → IsEntryAt other second others bytes → spans ≡ others }
{}

/// Where reading stops inside a field that can't be read is where the grammar says: at a length or at the bytes after
/// it, or at a count, a first range, a gap or a length of an ACK's ranges (RFC 9000, section 19.3.1). At the front of
/// bytes that begin with no frame that field is the one at fault; in a frame reading stops nowhere.
pub fn where_reading_stops()
    ensures field { (field : Field) (before : List Value) (bytes : List ℕ) (reason : Fault) → AreBytes bytes
        → Stops field before bytes reason → StopsInside field before bytes reason (inside field before bytes) }
    ensures front { (bytes : List ℕ) (spans : List Span) (at end : ℕ) (reason : Fault) → AreBytes bytes
        → IsNoFrameAt bytes spans at reason → AreInRow 0 spans end
        → StopsAtField bytes at end reason (stop_in_frame bytes) }
    ensures frame { (strict : Bool) (found : TypedFrame) (spans : List Span) (front back : List ℕ)
        → IsFrameAt strict found spans front → (is_open found.type ≡ true → back ≡ [])
        → stop_in_frame (front ++ back) ≡ (0, 0) }
{}

/// Under rules, too, bytes begin with a frame that has exactly one list of spans, or exactly one field is at fault.
pub fn one_answer_by_rules()
    ensures some { (rules : Rules) (bytes : List ℕ) → AreBytes bytes
        → ((spans : List Span) × IsAllowedAt rules bytes spans)
        ⊎ ((spans : List Span) × (at : ℕ) × (reason : Refusal) × IsRefusedAt rules bytes spans at reason) }
    ensures not_both { (rules : Rules) (bytes : List ℕ) (spans others : List Span) (at : ℕ) (reason : Refusal)
        → AreBytes bytes → IsAllowedAt rules bytes spans → IsRefusedAt rules bytes others at reason → ⊥ }
    ensures one_list { (rules : Rules) (bytes : List ℕ) (spans others : List Span) → IsAllowedAt rules bytes spans
        → IsAllowedAt rules bytes others → spans ≡ others }
    ensures one_fault { (rules : Rules) (bytes : List ℕ) (spans others : List Span) (at other : ℕ)
        (reason second : Refusal) → AreBytes bytes → IsRefusedAt rules bytes spans at reason
        → IsRefusedAt rules bytes others other second → (spans ≡ others) × (at ≡ other) × (reason ≡ second) }
{}
