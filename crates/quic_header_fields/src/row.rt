//! The fields of each kind of header.
ghost use Rattle.std.specs.Prelude.{◌≡◌, ◌≤◌, ◌<◌, length, map};
ghost use Rattle.quic_header_decode.specs.Grammar.{header_row_of};
ghost use Rattle.quic_header_fields.specs.Kinds.{field_of};

use quic_header_encode::long_type::LongHeaderType;

/// A kind of field (RFC 9000, sections 17.2 and 17.3).
#[derive(Clone, Copy, Debug, PartialEq, Eq)]
pub enum Kind {
    /// Four bytes.
    Version,
    /// A byte, and that many bytes: the receiver's id.
    DestinationId,
    /// A byte, and that many bytes: the sender's id.
    SourceId,
    /// No bytes: the version is known.
    Supported,
    /// A number of any width.
    TokenLength,
    /// That many bytes.
    Token,
    /// A number of any width.
    Length,
    /// A short header's id, whose length isn't written.
    ShortId,
}

static INITIAL: [Kind; 7] = [
    Kind::Version,
    Kind::DestinationId,
    Kind::SourceId,
    Kind::Supported,
    Kind::TokenLength,
    Kind::Token,
    Kind::Length,
];

static STANDARD: [Kind; 5] = [
    Kind::Version,
    Kind::DestinationId,
    Kind::SourceId,
    Kind::Supported,
    Kind::Length,
];

static RETRY: [Kind; 4] = [
    Kind::Version,
    Kind::DestinationId,
    Kind::SourceId,
    Kind::Supported,
];

static NEGOTIATION: [Kind; 3] = [Kind::Version, Kind::DestinationId, Kind::SourceId];

static SHORT: [Kind; 1] = [Kind::ShortId];

/// The fields after a first byte in a version (RFC 9000, sections 17.2 and 17.3).
pub fn row(first: u8, version: u32) -> &'static [Kind]
    ensures fields { map (field_of version) result.now ≡ header_row_of first version }
    ensures few { length result.now ≤ 7 }
{
    if first < 0x80 {
        return &SHORT;
    }
    if version == 0 {
        return &NEGOTIATION;
    }
    match LongHeaderType::from_byte(first, version) {
        LongHeaderType::Initial => &INITIAL,
        LongHeaderType::Standard(_) => &STANDARD,
        LongHeaderType::Retry => &RETRY,
    }
}
