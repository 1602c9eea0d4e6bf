//! The results of functions exported to C.
ghost use Rattle.std.specs.Prelude.{◌≡◌, ℕ, pos};
ghost use Rattle.quic_results.specs.Results.{code_of, failed, frame_failure, returned};

/// Why a function exported to C fails. Each reason has a number, which never changes.
#[derive(Clone, Copy, Debug, PartialEq, Eq)]
pub enum Failure {
    /// The arguments describe nothing that the function can write.
    Argument,
    /// An offset is outside the bytes, or the function can't read what is there.
    Place,
    /// There is no such kind, or this function doesn't accept it.
    Kind,
    /// A number is too large for its field, or is 0 although it mustn't be.
    Number,
    /// A length or width is impossible for its field.
    Length,
    /// There are no ranges, or they aren't sorted with a number between any two.
    Ranges,
    /// A transport parameter is one that the peer would reject.
    Parameter,
    /// The buffer has less room than is needed.
    NoRoom,
    /// A payload has no frame (RFC 9000, section 12.4).
    PayloadEmpty,
    /// The bytes end within a frame.
    FrameEnd,
    /// The type of a frame is unknown.
    FrameType,
    /// A field of a frame has an invalid value.
    FrameMalformed,
    /// The type of a frame isn't in its shortest encoding (RFC 9000, section 12.4).
    FrameLongType,
    /// Data ends past 2^62 - 1, or there are more than 2^60 streams (RFC 9000, sections 19.6, 19.8, 19.11 and 19.14).
    FrameLimit,
    /// Packets of this type may not carry the frame (RFC 9000, section 12.4).
    FramePacket,
    /// This side may not send the frame (RFC 9000, sections 19.7 and 19.20).
    FrameSender,
    /// This side may not send the frame on its stream (RFC 9000, sections 19.4, 19.5, 19.8, 19.10 and 19.13).
    FrameStream,
    /// The bytes end within a packet's header.
    PacketEnd,
    /// The fixed bit of a packet is clear (RFC 9000, section 17.2).
    PacketFixedBit,
    /// The packet is too short for its id, or for its number and a sample.
    PacketSmall,
    /// A connection id isn't complete, or is too long.
    PacketId,
    /// The bytes end within a packet's token.
    PacketToken,
    /// The packet's version isn't among those that were given.
    PacketVersion,
    /// The bytes end within the packet, after its header.
    PacketCut,
    /// A Retry has no token, or no room for its tag (RFC 9000, section 17.2.5).
    PacketRetry,
    /// A transport parameter is cut off, has an invalid value, or occurs twice.
    ParametersMalformed,
    /// A transport parameter has a value out of range, or that side may not send it.
    ParametersIllegal,
}

impl Failure {
    /// The number that C sees, below 0.
    #[inline(always)]
    pub fn number(self) -> i32
        ensures { result ≡ failed self }
    {
        match self {
            Failure::Argument => -1,
            Failure::Place => -2,
            Failure::Kind => -3,
            Failure::Number => -5,
            Failure::Length => -6,
            Failure::Ranges => -7,
            Failure::Parameter => -8,
            Failure::NoRoom => -9,
            Failure::PayloadEmpty => -20,
            Failure::FrameEnd => -21,
            Failure::FrameType => -22,
            Failure::FrameMalformed => -23,
            Failure::FrameLongType => -24,
            Failure::FrameLimit => -25,
            Failure::FramePacket => -26,
            Failure::FrameSender => -27,
            Failure::FrameStream => -28,
            Failure::PacketEnd => -40,
            Failure::PacketFixedBit => -41,
            Failure::PacketSmall => -42,
            Failure::PacketId => -43,
            Failure::PacketToken => -44,
            Failure::PacketVersion => -45,
            Failure::PacketCut => -46,
            Failure::PacketRetry => -47,
            Failure::ParametersMalformed => -60,
            Failure::ParametersIllegal => -61,
        }
    }
}

/// The code with which an endpoint closes the connection after the failure with this number (RFC 9000, section 20.1):
/// `FRAME_ENCODING_ERROR`, `PROTOCOL_VIOLATION`, `STREAM_STATE_ERROR` or `TRANSPORT_PARAMETER_ERROR` if its peer broke
/// a rule; `INTERNAL_ERROR` if the caller passed impossible arguments; and `NO_ERROR`, 0, if nothing is closed, because
/// a packet that can't be read is dropped, and other numbers aren't failures.
pub fn close_code(number: i32) -> u32
    ensures failure { (f : Failure) → number ≡ failed f → result ≡ code_of f }
    ensures success { (count : ℕ) → number ≡ pos count → result ≡ 0x00 }
{
    match number {
        -1 | -2 | -3 | -5 | -6 | -7 | -8 | -9 => 0x01,
        -21 | -22 | -23 | -25 => 0x07,
        -20 | -24 | -26 | -27 => 0x0a,
        -28 => 0x05,
        -60 | -61 => 0x08,
        _ => 0x00,
    }
}

/// A result as C sees it: the count, or the number of the failure.
#[inline(always)]
pub fn returned(outcome: Result<u32, Failure>) -> i64
    ensures { result ≡ returned outcome }
{
    match outcome {
        Ok(count) => i64::from(count),
        Err(failure) => i64::from(failure.number()),
    }
}

/// The failure for the reason why a frame is invalid.
pub fn frame_failure(reason: &str) -> Failure
    ensures { result ≡ frame_failure reason.now }
{
    match reason {
        "unexpected end" => Failure::FrameEnd,
        "invalid frame ID" => Failure::FrameType,
        "frame type not in shortest form" => Failure::FrameLongType,
        "limit exceeded" => Failure::FrameLimit,
        _ => Failure::FrameMalformed,
    }
}
