//! Why a connection is closed (RFC 9000, section 19.19).
ghost use Rattle.std.specs.Prelude.{◌≡◌, ◌↔◌, IsTrue, Some};
ghost use Rattle.quic_frame_fields.specs.Closes.{IsCloseOf, connection_close_text, application_close_text};

use super::FrameType;
use bstr::BStr;
use quic_base::varint::VarInt;
use quic_errors::transport_error::{Code, Error};
use std::fmt;

/// A close of either kind.
#[derive(Clone, Copy, Debug)]
pub enum Close<'a> {
    /// By the transport.
    Connection(ConnectionClose<'a>),
    /// By the application.
    Application(ApplicationClose<'a>),
}

impl Close<'_> {
    ghost use Rattle.quic_frame_fields.specs.Closes.{is_connection};

    /// Whether the transport closes the connection, not the application.
    pub fn is_transport_layer(&self) -> bool
        ensures { result ≡ is_connection self.now }
    {
        matches!(self, Close::Connection(_))
    }
}

/// The transport closes the connection (RFC 9000, section 19.19).
#[derive(Clone, Copy, Debug, PartialEq, Eq)]
pub struct ConnectionClose<'a> {
    /// The kind of error.
    pub error_code: Code,
    /// The type of the frame that caused it, if it is known.
    pub frame_type: Option<FrameType>,
    /// The reason phrase, which should be text.
    pub reason: &'a [u8],
}

/// The application closes the connection (RFC 9000, section 19.19).
#[derive(Clone, Copy, Debug, PartialEq, Eq)]
pub struct ApplicationClose<'a> {
    /// The application's error code.
    pub error_code: VarInt,
    /// The reason phrase, which should be text.
    pub reason: &'a [u8],
}

impl<'a> From<ConnectionClose<'a>> for Close<'a> {
    ghost use Rattle.quic_frame_fields.specs.declared.frame.close.Close.TheVariants.{Connection};

    ghost from_gives = { λ c close. close ≡ Connection c };

    fn from(close: ConnectionClose<'a>) -> Close<'a> {
        let ConnectionClose {
            error_code,
            frame_type,
            reason,
        } = close;
        Close::Connection(ConnectionClose {
            error_code,
            frame_type,
            reason,
        })
    }
}

impl<'a> From<ApplicationClose<'a>> for Close<'a> {
    ghost use Rattle.quic_frame_fields.specs.declared.frame.close.Close.TheVariants.{Application};

    ghost from_gives = { λ c close. close ≡ Application c };

    fn from(close: ApplicationClose<'a>) -> Close<'a> {
        let ApplicationClose { error_code, reason } = close;
        Close::Application(ApplicationClose { error_code, reason })
    }
}

/// The close for an error. It borrows the error's reason.
impl<'a> From<&'a Error> for ConnectionClose<'a> {
    ghost from_gives = { λ e close. IsCloseOf e.now close };

    fn from(error: &'a Error) -> ConnectionClose<'a> {
        ConnectionClose {
            error_code: error.code,
            frame_type: error.frame,
            reason: error.reason.as_str().as_bytes(),
        }
    }
}

/// The close for an error. It borrows the error's reason.
impl<'a> From<&'a Error> for Close<'a> {
    ghost use Rattle.quic_frame_fields.specs.Closes.{IsConnectionCloseOf};

    ghost from_gives = { λ e close. IsConnectionCloseOf e.now close };

    fn from(error: &'a Error) -> Close<'a> {
        Close::Connection(ConnectionClose::from(error))
    }
}

/// The text of the code, and the reason if there is one. Bytes that aren't UTF-8 are printed as U+FFFD.
impl fmt::Display for ConnectionClose<'_> {
    ghost output = { λ c. Some (connection_close_text c) };

    fn fmt<W: fmt::Write>(&self, f: &mut fmt::Formatter<W>) -> fmt::Result {
        let code = self.error_code;
        if self.reason.is_empty() {
            return write!(f, "{code}");
        }
        let reason = BStr::new(self.reason);
        write!(f, "{code}: {reason}")
    }
}

/// The reason and the code, or only the code if there is no reason. Bytes that aren't UTF-8 are printed as U+FFFD.
impl fmt::Display for ApplicationClose<'_> {
    ghost output = { λ c. Some (application_close_text c) };

    fn fmt<W: fmt::Write>(&self, f: &mut fmt::Formatter<W>) -> fmt::Result {
        let code = self.error_code;
        if self.reason.is_empty() {
            return write!(f, "{code}");
        }
        let reason = BStr::new(self.reason);
        write!(f, "{reason} (code {code})")
    }
}
