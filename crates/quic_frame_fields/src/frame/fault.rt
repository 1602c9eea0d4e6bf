//! Why a frame can't be read.
ghost use Rattle.std.specs.Prelude.{◌≡◌};
ghost use Rattle.quic_frame_fields.specs.declared.frame.fault.Fault.TheVariants as faults;

use quic_base::coding::UnexpectedEnd;

/// Why a frame can't be read.
#[derive(Clone, Copy, Debug, PartialEq, Eq)]
pub enum Fault {
    /// A field, or the type, goes beyond the end of the payload.
    UnexpectedEnd,
    /// No frame has this type.
    InvalidFrameId,
    /// A field has a forbidden value.
    Malformed,
    /// The type isn't in its shortest encoding although it must be.
    LongType,
}

/// Bytes that end within a number.
impl From<UnexpectedEnd> for Fault {
    ghost from_gives = { λ _ fault. fault ≡ faults.UnexpectedEnd };

    fn from(_end: UnexpectedEnd) -> Fault {
        Fault::UnexpectedEnd
    }
}

impl Fault {
    ghost use Rattle.quic_frame_fields.specs.Reading.{reason_text};

    /// The text of the reason.
    pub fn reason(self) -> &'static str
        ensures { result.now ≡ reason_text self }
    {
        match self {
            Fault::UnexpectedEnd => "unexpected end",
            Fault::InvalidFrameId => "invalid frame ID",
            Fault::Malformed => "malformed",
            Fault::LongType => "frame type not in shortest form",
        }
    }
}
