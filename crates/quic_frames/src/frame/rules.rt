//! What RFC 9000 requires a receiver to check in frames besides their encoding.
ghost use Rattle.std.specs.Prelude.{◌≡◌, ◌↔◌, ℕ, Option, None, IsTrue, length};
ghost use Rattle.quic_frame_fields.specs.Reading.{invalid};
ghost use Rattle.quic_frame_fields.specs.declared.frame.fault.Fault.{Fault as Reason};
ghost use Rattle.quic_frames.specs.Flags.{rules_in};
ghost use Rattle.quic_frames.specs.InRange.{InRange};
ghost use Rattle.quic_frames.specs.Meaning.{meaning_of};
ghost use Rattle.quic_frames.specs.Rules.{breach_of, breach_text, broken_if, ends_past, fault_by, is_past_streams, is_unknown_by, no_rules};
ghost use Rattle.quic_frames.specs.Walk.{invalid_of};

use super::{Frame, FrameType, InvalidFrame};
use quic_frame_fields::frame::fault::Fault;

/// What is checked in a payload's frames besides their encoding. `Rules::default()` checks nothing more, as quinn-proto
/// does. `Rules::RFC` checks all that RFC 9000 requires of a receiver.
#[derive(Clone, Copy, Debug, PartialEq, Eq)]
pub struct Rules {
    /// A type must be in its shortest encoding (RFC 9000, section 12.4).
    pub short_types: bool,
    /// Data of CRYPTO and STREAM may not end past 2^62 - 1 (RFC 9000, sections 19.6 and 19.8).
    pub data_limit: bool,
    /// MAX_STREAMS and STREAMS_BLOCKED may not name more than 2^60 streams (RFC 9000, sections 19.11 and 19.14).
    pub stream_limit: bool,
    /// The token of NEW_TOKEN may not be empty (RFC 9000, section 19.7).
    pub tokens: bool,
    /// The types of ACK_FREQUENCY and IMMEDIATE_ACK are unknown, because their extension wasn't negotiated (RFC 9000,
    /// section 12.4).
    pub no_ack_frequency: bool,
}

/// The rule that a frame breaks.
#[derive(Clone, Copy, Debug, PartialEq, Eq)]
pub enum Breach {
    /// Its data end too far, or it names too many streams.
    Limit,
    /// Its token is empty.
    Token,
    /// It belongs to an extension that wasn't negotiated.
    Extension,
}

impl Breach {
    /// The reason that is reported.
    pub fn reason(self) -> &'static str
        ensures { result.now ≡ breach_text self }
    {
        match self {
            Breach::Limit => "limit exceeded",
            Breach::Token => "malformed",
            Breach::Extension => "invalid frame ID",
        }
    }
}

/// No rules, as quinn-proto reads.
impl Default for Rules {
    ghost is_default = { λ rules. rules ≡ no_rules };

    fn default() -> Rules {
        Rules {
            short_types: false,
            data_limit: false,
            stream_limit: false,
            tokens: false,
            no_ack_frequency: false,
        }
    }
}

impl Rules {
    /// All that RFC 9000 requires of a receiver that hasn't negotiated the ACK frequency extension.
    pub const RFC: Rules = Rules {
        short_types: true,
        data_limit: true,
        stream_limit: true,
        tokens: true,
        no_ack_frequency: true,
    };

    /// The rules that the flags of the libraries for C name: 0x001 for `short_types`, 0x002 for `data_limit`, 0x004 for
    /// `stream_limit`, 0x008 for `no_ack_frequency`, 0x200 for `tokens`. Other bits mean nothing.
    #[inline(always)]
    pub fn of_flags(flags: u32) -> Rules
        ensures { result ≡ rules_in flags }
    {
        Rules {
            short_types: flags & 0x001 != 0,
            data_limit: flags & 0x002 != 0,
            stream_limit: flags & 0x004 != 0,
            no_ack_frequency: flags & 0x008 != 0,
            tokens: flags & 0x200 != 0,
        }
    }

    /// The rule that a frame breaks, if it breaks one. It ignores `short_types`, since a frame doesn't record how its
    /// type was encoded.
    #[inline(always)]
    pub fn breach(self, frame: &Frame<'_>) -> Option<Breach>
        ensures { result ≡ breach_of self (meaning_of frame.now) }
    {
        match frame {
            Frame::Crypto(c) => {
                broken_if(
                    self.data_limit && ends_past(c.offset, c.bytes),
                    Breach::Limit,
                )
            }
            Frame::Stream(s) => {
                broken_if(
                    self.data_limit && ends_past(s.offset, s.bytes),
                    Breach::Limit,
                )
            }
            Frame::MaxStreams { count, .. } => {
                broken_if(self.stream_limit && *count > MAX_STREAMS, Breach::Limit)
            }
            Frame::StreamsBlocked { limit, .. } => {
                broken_if(self.stream_limit && *limit > MAX_STREAMS, Breach::Limit)
            }
            Frame::NewToken(t) => broken_if(self.tokens && t.token.is_empty(), Breach::Token),
            Frame::AckFrequency(_) => broken_if(self.no_ack_frequency, Breach::Extension),
            Frame::ImmediateAck => broken_if(self.no_ack_frequency, Breach::Extension),
            _ => None,
        }
    }

    // Whether a type is unknown because its extension wasn't negotiated.
    fn is_unknown(self, ty: Option<FrameType>) -> bool
        ensures { result ≡ is_unknown_by self ty }
    {
        let Some(ty) = ty else {
            return false;
        };
        let is_of_extension = ty == FrameType::IMMEDIATE_ACK || ty == FrameType::ACK_FREQUENCY;
        self.no_ack_frequency && is_of_extension
    }

    /// What is reported for bytes that aren't a frame. `plain` is what `Iter` reports for them. A type whose extension
    /// wasn't negotiated is an `invalid frame ID`, whatever its fields are (RFC 9000, section 12.4).
    pub fn reported(self, plain: &InvalidFrame) -> InvalidFrame
        ensures { (type : Option ℕ) (reason : Reason) → invalid_of plain.now ≡ invalid type reason
            → invalid_of result ≡ invalid type (fault_by self type reason) }
    {
        let is_unknown = self.is_unknown(plain.ty) && plain.reason != Fault::LongType.reason();
        InvalidFrame {
            ty: plain.ty,
            reason: if is_unknown {
                Fault::InvalidFrameId.reason()
            } else {
                plain.reason
            },
        }
    }
}

impl Frame<'_> {
    /// Whether the frame is in range and breaks none of the rules: what is written for it is then read by the same
    /// rules as the same frame (`laws::checked_readings`). It doesn't allocate.
    pub fn in_range_by(&self, rules: Rules) -> bool
        ensures { IsTrue result ↔ (InRange self.now × (breach_of rules (meaning_of self.now) ≡ None)) }
    {
        self.in_range() && rules.breach(self).is_none()
    }
}

// The most streams of either direction.
const MAX_STREAMS: u64 = 1 << 60;

// The greatest offset of data.
const MAX_OFFSET: u64 = (1 << 62) - 1;

// Whether data at an offset end past the greatest one.
#[inline(always)]
fn ends_past(offset: u64, bytes: &[u8]) -> bool
    ensures { result ≡ ends_past offset (length bytes.now) }
{
    let count = bytes.len() as u64;
    count > MAX_OFFSET || offset > MAX_OFFSET - count
}

// A breach, if there is one.
#[inline(always)]
fn broken_if(is_broken: bool, breach: Breach) -> Option<Breach>
    ensures { result ≡ broken_if is_broken breach }
{
    if is_broken { Some(breach) } else { None }
}
