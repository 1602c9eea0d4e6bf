//! The error for a payload that holds an invalid frame.
ghost use Rattle.quic_errors.specs.Codes.{IsErrorOf};

use crate::frame_type::FrameType;
use crate::transport_error::{Code, Error, Reason};
use std::fmt;

/// Why a payload can't be read: its first invalid frame (RFC 9000, section 12.4).
#[derive(Clone, Copy, Debug, PartialEq, Eq)]
pub struct InvalidFrame {
    /// The last type that was read, which may be that of the invalid frame itself. `None` if none was.
    pub ty: Option<FrameType>,
    /// `unexpected end`, `invalid frame ID` or `malformed`. By rules that are asked for, also `frame type not in
    /// shortest form` and `limit exceeded`.
    pub reason: &'static str,
}

impl InvalidFrame {
    /// The error to close the connection with, as `Error::from` returns it. It takes a reference, so that a caller
    /// whose proof is generated can still use `self`.
    pub fn to_error(&self) -> Error
        ensures { IsErrorOf self.now.ty self.now.reason.now result }
    {
        error_of(self.ty, self.reason)
    }
}

/// `REASON in TYPE`, or only the reason if no type was read.
impl fmt::Display for InvalidFrame {
    ghost use Rattle.std.specs.Prelude.{Some, ◌++◌};
    ghost use Rattle.quic_errors.specs.Names.{in_type};

    ghost output = { λ invalid. Some (invalid.reason.now ++ in_type invalid.ty) };

    fn fmt<W: fmt::Write>(&self, f: &mut fmt::Formatter<W>) -> fmt::Result {
        let reason = self.reason;
        match self.ty {
            Some(ty) => write!(f, "{reason} in {ty}"),
            None => f.write_str(reason),
        }
    }
}

impl std::error::Error for InvalidFrame {}

/// The error to close the connection with, with the type and the reason: PROTOCOL_VIOLATION if a type is not in its
/// shortest form, and FRAME_ENCODING_ERROR for the other reasons (RFC 9000, section 12.4).
impl From<InvalidFrame> for Error {
    ghost from_gives = { λ e error. IsErrorOf e.ty e.reason.now error };

    fn from(e: InvalidFrame) -> Error {
        error_of(e.ty, e.reason)
    }
}

// The error for a frame of this type that can't be read for this reason.
fn error_of(ty: Option<FrameType>, reason: &'static str) -> Error
    ensures { IsErrorOf ty reason.now result }
{
    let code = if reason == "frame type not in shortest form" {
        Code::PROTOCOL_VIOLATION
    } else {
        Code::FRAME_ENCODING_ERROR
    };
    Error {
        code,
        frame: ty,
        reason: Reason::Static(reason),
    }
}
