//! Laws of headers' spans, which no single call states. The functions do nothing at run time.
ghost use Rattle.std.specs.Prelude.{◌≡◌, ◌≢◌, ◌⊎◌, ◌++◌, ◌+◌, ◌-◌, ℕ, List, [], length, slice_index, Bool, Ok, Err};
ghost use Rattle.quic_base.specs.Number.{AreBytes};
ghost use Rattle.quic_fields.specs.declared.field.Span.{Span};
ghost use Rattle.quic_fields.specs.Spans.{AreInRow, AreNumbered};
ghost use Rattle.quic_header_decode.specs.declared.protected.ProtectedHeader.{ProtectedHeader};
ghost use Rattle.quic_header_decode.specs.Grammar.{HeaderAt, HeaderField, HeaderValue, Refused};
ghost use Rattle.quic_header_decode.specs.Places.{any_fixed, IsUnknownVersion, ReadAnswer};
ghost use Rattle.quic_header_decode.specs.Reading.{DecodeOptions};
ghost use Rattle.quic_header_decode.specs.Refusal.{Refusal, Unsupported};
ghost use Rattle.quic_header_fields.specs.After.{AreAfter};
ghost use Rattle.quic_header_fields.specs.Headers.{spans_in, long_spans};
ghost use Rattle.quic_header_fields.specs.Inside.{inside, stop_in_header, StopsInside};
ghost use Rattle.quic_header_fields.specs.Spans.{IsHeaderAt, IsNoHeaderAt, StopsAt};

/// A header has exactly one list of spans: it has one, only headers have one, and no bytes have a second one. Together
/// the spans are all bytes of the header, one after another, and their indices count from 0.
pub fn one_list_of_spans()
    ensures exists { (id_len : ℕ) (versions : List ℕ) (whole : ℕ) (bytes : List ℕ) (h : ProtectedHeader) (rest : List ℕ)
        → HeaderAt (any_fixed id_len versions) whole bytes h rest
        → (spans : List Span) × IsHeaderAt (any_fixed id_len versions) whole bytes h spans rest }
    ensures headers { (id_len : ℕ) (versions : List ℕ) (whole : ℕ) (bytes : List ℕ) (h : ProtectedHeader)
        (spans : List Span) (rest : List ℕ)
        → IsHeaderAt (any_fixed id_len versions) whole bytes h spans rest
        → HeaderAt (any_fixed id_len versions) whole bytes h rest }
    ensures one { (id_len : ℕ) (versions : List ℕ) (whole : ℕ) (bytes : List ℕ) (h other : ProtectedHeader)
        (spans others : List Span) (rest left : List ℕ)
        → IsHeaderAt (any_fixed id_len versions) whole bytes h spans rest
        → IsHeaderAt (any_fixed id_len versions) whole bytes other others left
        → (spans ≡ others) × (h ≡ other) × (rest ≡ left) }
    ensures row { (id_len : ℕ) (versions : List ℕ) (whole : ℕ) (bytes : List ℕ) (h : ProtectedHeader)
        (spans : List Span) (rest : List ℕ)
        → IsHeaderAt (any_fixed id_len versions) whole bytes h spans rest
        → (front : List ℕ) × (bytes ≡ front ++ rest) × AreInRow 0 spans (length front) × AreNumbered 0 spans }
{}

/// Bytes that begin with no header have exactly one field at fault: there is one, and there is no second one. Bytes
/// that begin with a header have none.
pub fn one_field_at_fault()
    ensures exists { (id_len : ℕ) (versions bytes : List ℕ) → AreBytes bytes
        → ((h : ProtectedHeader) (rest : List ℕ) → HeaderAt (any_fixed id_len versions) (length bytes) bytes h rest → ⊥)
        → (spans : List Span) × (at : ℕ) × (e : Refusal) × IsNoHeaderAt (any_fixed id_len versions) bytes spans at e }
    ensures none { (id_len : ℕ) (versions bytes : List ℕ) (whole : ℕ) (h : ProtectedHeader) (rest : List ℕ)
        (spans : List Span) (at : ℕ) (e : Refusal) → AreBytes bytes
        → HeaderAt (any_fixed id_len versions) whole bytes h rest
        → IsNoHeaderAt (any_fixed id_len versions) bytes spans at e → ⊥ }
    ensures one { (id_len : ℕ) (versions bytes : List ℕ) (spans others : List Span) (at other : ℕ) (e d : Refusal)
        → AreBytes bytes → IsNoHeaderAt (any_fixed id_len versions) bytes spans at e
        → IsNoHeaderAt (any_fixed id_len versions) bytes others other d
        → (spans ≡ others) × (at ≡ other) × (e ≡ d) }
{}

/// The error of the field at fault is the one that reading reports, and the grammar's. Only in a version that isn't
/// known may the grammar's be another one, since it limits ids to 20 bytes there too: reading reports the version, if
/// both ids are there.
pub fn one_error()
    ensures read { (id_len : ℕ) (versions bytes : List ℕ) (e : Refusal) → AreBytes bytes
        → ReadAnswer (any_fixed id_len versions) bytes (Err e)
        → (spans : List Span) × (at : ℕ) × IsNoHeaderAt (any_fixed id_len versions) bytes spans at e }
    ensures reported { (id_len : ℕ) (versions bytes : List ℕ) (spans : List Span) (at : ℕ) (e : Refusal)
        → AreBytes bytes → IsNoHeaderAt (any_fixed id_len versions) bytes spans at e
        → ReadAnswer (any_fixed id_len versions) bytes (Err e) }
    ensures refused { (id_len : ℕ) (versions bytes : List ℕ) (e : Refusal) → AreBytes bytes
        → Refused (any_fixed id_len versions) bytes e
        → (spans : List Span) × (at : ℕ) × (d : Refusal) × IsNoHeaderAt (any_fixed id_len versions) bytes spans at d
        × ((d ≡ e) ⊎ ((version : ℕ) × (dst src : List ℕ) × (d ≡ Unsupported src dst version)
        × IsUnknownVersion (any_fixed id_len versions) bytes version dst src)) }
{}

/// What follows a header without a number has exactly one list of spans, which are all bytes that follow or none, one
/// after another, with indices that count on.
pub fn one_list_after_a_header()
    ensures exists { (h : ProtectedHeader) (index start : ℕ) (rest : List ℕ)
        → (spans : List Span) × AreAfter h index start rest spans }
    ensures one { (h : ProtectedHeader) (index start : ℕ) (rest : List ℕ) (spans others : List Span)
        → AreAfter h index start rest spans → AreAfter h index start rest others → spans ≡ others }
    ensures row { (h : ProtectedHeader) (index start : ℕ) (rest : List ℕ) (spans : List Span)
        → AreAfter h index start rest spans
        → (spans ≡ []) ⊎ (AreInRow start spans (start + length rest) × AreNumbered index spans) }
{}

/// The spans of each kind of header, in numbers; and of a version that isn't known, where the field at fault is the one
/// that stands for it.
pub fn spans_of_each_kind()
    ensures headers { (id_len : ℕ) (versions bytes : List ℕ) (h : ProtectedHeader) (rest : List ℕ)
        → HeaderAt (any_fixed id_len versions) (length bytes) bytes h rest
        → IsHeaderAt (any_fixed id_len versions) (length bytes) bytes h
        (spans_in (slice_index bytes 0) (length bytes - length rest) h) rest }
    ensures unknown { (id_len : ℕ) (versions bytes : List ℕ) (version : ℕ) (dst src : List ℕ)
        → IsUnknownVersion (any_fixed id_len versions) bytes version dst src
        → IsNoHeaderAt (any_fixed id_len versions) bytes (long_spans (slice_index bytes 0) version dst src []) 4
        (Unsupported src dst version) }
{}

/// Where reading stops inside a field that can't be read is where the grammar says: in an id at its length or at the
/// bytes after it, in another field at its beginning. In a header that is there it stops nowhere.
pub fn where_reading_stops()
    ensures fault { (known : Bool) (options : DecodeOptions) (field : HeaderField) (before : List HeaderValue)
        (bytes : List ℕ) (e : Refusal) → StopsAt known options field before bytes e
        → StopsInside known field bytes (inside known field bytes) }
    ensures whole { (id_len : ℕ) (versions : List ℕ) (whole : ℕ) (bytes : List ℕ) (h : ProtectedHeader)
        (spans : List Span) (rest : List ℕ)
        → IsHeaderAt (any_fixed id_len versions) whole bytes h spans rest
        → stop_in_header (any_fixed id_len versions) bytes ≡ (0, 0) }
{}
