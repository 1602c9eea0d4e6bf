//! Transport errors, with which a connection is closed (RFC 9000, section 20.1).
ghost use Rattle.std.specs.Prelude.{◌≡◌, ◌+◌, ◌<◌, ◌^◌, ℕ, [], None, Some, IfOk, IsOk, MatchOption, drop, true, nat_eq};
ghost use Rattle.std.specs.Cmp.Lexicographic.{pointwise};
ghost use Rattle.std.specs.Ordering.{on};
ghost use Rattle.std.proofs.Common.{rules};
ghost use Rattle.std.specs.Cmp.Rules.{comparing};
ghost use Rattle.quic_base.specs.Varint.{Encodes, shortest_varint};

use crate::frame_type::FrameType;
use bytes::{Buf, BufMut};
use quic_base::coding::{self, Codec, NoRoom};
use quic_base::varint::VarInt;
use std::alloc::Global;
use std::fmt;
use std::marker::Model;

/// A transport error code, below 2^62 (RFC 9000, section 20.1). Contracts see it as that number.
#[derive(Clone, Copy, PartialEq, Eq)]
pub struct Code(u64);

impl Model for Code {
    ghost Value = { ℕ };

    ghost view = { λ c. c.0 };

    ghost invariant = { λ c. c.0 < 2 ^ 62 };

    ghost inverse = { λ n. record { 0 = n } };
}

impl Code {
    ghost use Rattle.quic_errors.specs.Codes.{own_text};

    /// There is no error: the connection ends.
    pub const NO_ERROR: Code = Code(0x0);

    /// The endpoint has an internal error and can't continue.
    pub const INTERNAL_ERROR: Code = Code(0x1);

    /// The server refused the connection.
    pub const CONNECTION_REFUSED: Code = Code(0x2);

    /// More data was received than was permitted.
    pub const FLOW_CONTROL_ERROR: Code = Code(0x3);

    /// A frame was received for a stream above the limit of its type.
    pub const STREAM_LIMIT_ERROR: Code = Code(0x4);

    /// A frame was received that the stream's state doesn't permit.
    pub const STREAM_STATE_ERROR: Code = Code(0x5);

    /// A stream's final size changed, or was exceeded.
    pub const FINAL_SIZE_ERROR: Code = Code(0x6);

    /// A frame was badly formatted.
    pub const FRAME_ENCODING_ERROR: Code = Code(0x7);

    /// The transport parameters were in error.
    pub const TRANSPORT_PARAMETER_ERROR: Code = Code(0x8);

    /// The peer issued more connection ids than were permitted.
    pub const CONNECTION_ID_LIMIT_ERROR: Code = Code(0x9);

    /// The peer broke the protocol in a way that has no other code.
    pub const PROTOCOL_VIOLATION: Code = Code(0xa);

    /// The token of a client's Initial was not valid.
    pub const INVALID_TOKEN: Code = Code(0xb);

    /// The application closed the connection during the handshake.
    pub const APPLICATION_ERROR: Code = Code(0xc);

    /// More CRYPTO data was received than can be buffered.
    pub const CRYPTO_BUFFER_EXCEEDED: Code = Code(0xd);

    /// An error in a key update.
    pub const KEY_UPDATE_ERROR: Code = Code(0xe);

    /// The limit on the use of the AEAD was reached.
    pub const AEAD_LIMIT_REACHED: Code = Code(0xf);

    /// No network path works.
    pub const NO_VIABLE_PATH: Code = Code(0x10);

    /// The code of a TLS alert: 0x100 plus the alert (RFC 9001, section 4.8).
    pub fn crypto(alert: u8) -> Code
        ensures { result ≡ 0x100 + alert }
    {
        Code(0x100 + u64::from(alert))
    }

    /// The code with this number. The caller must ensure that it is below 2^62.
    pub fn of(number: u64) -> Code
        requires { number < 2 ^ 62 }
        ensures { result ≡ number }
    {
        Code(number)
    }

    // The text of the code, if it has its own.
    fn own_text(self) -> Option<&'static str>
        ensures { MatchOption result (own_text self ≡ None) (λ text. own_text self ≡ Some text.now) }
    {
        Some(match self.0 {
            0x0 => "the connection is being closed abruptly in the absence of any error",
            0x1 =>
                "the endpoint encountered an internal error and cannot continue with the connection",
            0x2 => "the server refused to accept a new connection",
            0x3 => "received more data than permitted in advertised data limits",
            0x4 =>
                "received a frame for a stream identifier that exceeded advertised the stream limit for the corresponding stream type",
            0x5 =>
                "received a frame for a stream that was not in a state that permitted that frame",
            0x6 =>
                "received a STREAM frame or a RESET_STREAM frame containing a different final size to the one already established",
            0x7 => "received a frame that was badly formatted",
            0x8 =>
                "received transport parameters that were badly formatted, included an invalid value, was absent even though it is mandatory, was present though it is forbidden, or is otherwise in error",
            0x9 =>
                "the number of connection IDs provided by the peer exceeds the advertised active_connection_id_limit",
            0xa =>
                "detected an error with protocol compliance that was not covered by more specific error codes",
            0xb => "received an invalid Retry Token in a client Initial",
            0xc =>
                "the application or application protocol caused the connection to be closed during the handshake",
            0xd => "received more data in CRYPTO frames than can be buffered",
            0xe => "key update error",
            0xf =>
                "the endpoint has reached the confidentiality or integrity limit for the AEAD algorithm",
            0x10 => "no viable network path exists",
            _ => return None,
        })
    }

    // The name of the constant, if there is one.
    fn own_name(self) -> Option<&'static str> {
        Some(match self.0 {
            0x0 => "NO_ERROR",
            0x1 => "INTERNAL_ERROR",
            0x2 => "CONNECTION_REFUSED",
            0x3 => "FLOW_CONTROL_ERROR",
            0x4 => "STREAM_LIMIT_ERROR",
            0x5 => "STREAM_STATE_ERROR",
            0x6 => "FINAL_SIZE_ERROR",
            0x7 => "FRAME_ENCODING_ERROR",
            0x8 => "TRANSPORT_PARAMETER_ERROR",
            0x9 => "CONNECTION_ID_LIMIT_ERROR",
            0xa => "PROTOCOL_VIOLATION",
            0xb => "INVALID_TOKEN",
            0xc => "APPLICATION_ERROR",
            0xd => "CRYPTO_BUFFER_EXCEEDED",
            0xe => "KEY_UPDATE_ERROR",
            0xf => "AEAD_LIMIT_REACHED",
            0x10 => "NO_VIABLE_PATH",
            _ => return None,
        })
    }
}

impl From<Code> for u64 {
    ghost from_gives = { λ c x. (x ≡ c) × (c < 2 ^ 62) };

    fn from(code: Code) -> u64 {
        code.0
    }
}

/// A code is encoded as the varint of its number.
impl Codec for Code {
    ghost encoded = { Encodes };

    ghost encoding = { shortest_varint };

    ghost after_cut = { drop 1 };

    fn decode<B: Buf>(buf: &mut B) -> coding::Result<Code> {
        Ok(Code(VarInt::decode(buf)?.into_inner()))
    }

    fn encode<B: BufMut>(&self, buf: &mut B) -> Result<(), NoRoom> {
        VarInt::from_u64_unchecked(self.0).encode(buf)
    }
}

impl fmt::Display for Code {
    ghost use Rattle.std.specs.Prelude.{Some};
    ghost use Rattle.quic_errors.specs.Codes.{code_text};

    ghost output = { λ c. Some (code_text c) };

    fn fmt<W: fmt::Write>(&self, f: &mut fmt::Formatter<W>) -> fmt::Result {
        if let Some(text) = self.own_text() {
            return f.write_str(text);
        }
        match self.0 {
            0x100..=0x1ff => {
                let alert = self.0 % 256;
                write!(f, "the cryptographic handshake failed: error {alert}")
            }
            _ => f.write_str("unknown error"),
        }
    }
}

/// The name of the constant, or else `Code::crypto(XX)` or `Code(X)`, in hexadecimal.
impl fmt::Debug for Code {
    fn fmt<W: fmt::Write>(&self, f: &mut fmt::Formatter<W>) -> fmt::Result {
        if let Some(name) = self.own_name() {
            return f.write_str(name);
        }
        let code = self.0;
        match code {
            0x100..=0x1ff => {
                let alert = code % 256;
                write!(f, "Code::crypto({alert:02x})")
            }
            _ => write!(f, "Code({code:x})"),
        }
    }
}

/// The text of an error. Two are equal if their texts are.
#[derive(Debug, Drop)]
pub enum Reason {
    /// A static text.
    Static(&'static str),
    /// An allocated text.
    Owned(String),
}

impl Reason {
    ghost use Rattle.quic_errors.specs.Codes.{reason_bytes, is_static};

    /// The text.
    pub fn as_str(&self) -> &str
        ensures { result.now ≡ reason_bytes self.now }
    {
        match self {
            Reason::Static(text) => text,
            Reason::Owned(text) => text.as_str(),
        }
    }

    /// An equal reason. It allocates only for an `Owned` one, and returns `NoRoom` if that fails.
    pub fn try_clone(&self) -> Result<Reason, NoRoom>
        ensures same { IfOk result (λ r. reason_bytes r ≡ reason_bytes self.now) }
        ensures free { is_static self.now ≡ true → IsOk result }
    {
        match self {
            Reason::Static(text) => Ok(Reason::Static(text)),
            Reason::Owned(text) => match text.clone() {
                Ok(text) => Ok(Reason::Owned(text)),
                Err(_) => Err(NoRoom),
            },
        }
    }
}

impl PartialEq for Reason {
    ghost use Rattle.std.specs.Prelude.{nat_eq};
    ghost use Rattle.std.specs.Cmp.Lexicographic.{pointwise};
    ghost use Rattle.std.specs.Ordering.{on};
    ghost use Rattle.std.proofs.Common.{rules};
    ghost use Rattle.std.specs.Cmp.Rules.{comparing};
    ghost use Rattle.quic_errors.specs.Codes.{reason_bytes};

    ghost eq = { on reason_bytes (pointwise nat_eq) };

    ghost laws = { Prim.search (comparing, rules) };

    fn eq(&self, other: &Reason) -> bool {
        self.as_str() == other.as_str()
    }
}

impl Eq for Reason {
    ghost use Rattle.std.proofs.Common.{rules};
    ghost use Rattle.std.specs.Cmp.Rules.{comparing};

    ghost laws = { Prim.search (comparing, rules) };
}

/// Why a connection is closed.
#[derive(Debug, PartialEq, Eq, Drop)]
pub struct Error {
    /// What kind of error it is.
    pub code: Code,
    /// The type of the frame that caused it, if one is known.
    pub frame: Option<FrameType>,
    /// The reason phrase.
    pub reason: Reason,
}

impl Error {
    ghost use Rattle.quic_errors.specs.Codes.{IsError, IsSameCode, is_static};

    /// An error with a copy of this text, and without a frame type. Returns `NoRoom` if the allocation fails.
    pub fn with_text(alloc: Global, code: Code, text: &str) -> Result<Error, NoRoom>
        ensures { IfOk result (λ e. IsError e code text.now) }
    {
        match String::from_str(alloc, text) {
            Ok(text) => Ok(Error::of(code, Reason::Owned(text))),
            Err(_) => Err(NoRoom),
        }
    }

    /// An equal error. It allocates only for an `Owned` reason, and returns `NoRoom` if that fails.
    pub fn try_clone(&self) -> Result<Error, NoRoom>
        ensures same { IfOk result (IsSameCode self.now) }
        ensures free { is_static self.now.reason ≡ true → IsOk result }
    {
        let reason = self.reason.try_clone()?;
        Ok(Error {
            code: self.code,
            frame: self.frame,
            reason,
        })
    }

    fn of(code: Code, reason: Reason) -> Error
        ensures code { result.code ≡ code }
        ensures frame { result.frame ≡ None }
        ensures reason { result.reason ≡ reason }
    {
        Error {
            code,
            frame: None,
            reason,
        }
    }
}

/// One constructor for each code, named like the code. It sets no frame type.
impl Error {
    ghost use Rattle.quic_errors.specs.Codes.{IsError};
    ghost use Rattle.quic_errors.specs.Codes as codes;

    /// An error of the code `NO_ERROR` with this reason phrase.
    pub fn NO_ERROR(reason: &'static str) -> Error
        ensures { IsError result codes.no_error reason.now }
    {
        Error::of(Code::NO_ERROR, Reason::Static(reason))
    }

    /// An error of the code `INTERNAL_ERROR` with this reason phrase.
    pub fn INTERNAL_ERROR(reason: &'static str) -> Error
        ensures { IsError result codes.internal_error reason.now }
    {
        Error::of(Code::INTERNAL_ERROR, Reason::Static(reason))
    }

    /// An error of the code `CONNECTION_REFUSED` with this reason phrase.
    pub fn CONNECTION_REFUSED(reason: &'static str) -> Error
        ensures { IsError result codes.connection_refused reason.now }
    {
        Error::of(Code::CONNECTION_REFUSED, Reason::Static(reason))
    }

    /// An error of the code `FLOW_CONTROL_ERROR` with this reason phrase.
    pub fn FLOW_CONTROL_ERROR(reason: &'static str) -> Error
        ensures { IsError result codes.flow_control_error reason.now }
    {
        Error::of(Code::FLOW_CONTROL_ERROR, Reason::Static(reason))
    }

    /// An error of the code `STREAM_LIMIT_ERROR` with this reason phrase.
    pub fn STREAM_LIMIT_ERROR(reason: &'static str) -> Error
        ensures { IsError result codes.stream_limit_error reason.now }
    {
        Error::of(Code::STREAM_LIMIT_ERROR, Reason::Static(reason))
    }

    /// An error of the code `STREAM_STATE_ERROR` with this reason phrase.
    pub fn STREAM_STATE_ERROR(reason: &'static str) -> Error
        ensures { IsError result codes.stream_state_error reason.now }
    {
        Error::of(Code::STREAM_STATE_ERROR, Reason::Static(reason))
    }

    /// An error of the code `FINAL_SIZE_ERROR` with this reason phrase.
    pub fn FINAL_SIZE_ERROR(reason: &'static str) -> Error
        ensures { IsError result codes.final_size_error reason.now }
    {
        Error::of(Code::FINAL_SIZE_ERROR, Reason::Static(reason))
    }

    /// An error of the code `FRAME_ENCODING_ERROR` with this reason phrase.
    pub fn FRAME_ENCODING_ERROR(reason: &'static str) -> Error
        ensures { IsError result codes.frame_encoding_error reason.now }
    {
        Error::of(Code::FRAME_ENCODING_ERROR, Reason::Static(reason))
    }

    /// An error of the code `TRANSPORT_PARAMETER_ERROR` with this reason phrase.
    pub fn TRANSPORT_PARAMETER_ERROR(reason: &'static str) -> Error
        ensures { IsError result codes.transport_parameter_error reason.now }
    {
        Error::of(Code::TRANSPORT_PARAMETER_ERROR, Reason::Static(reason))
    }

    /// An error of the code `CONNECTION_ID_LIMIT_ERROR` with this reason phrase.
    pub fn CONNECTION_ID_LIMIT_ERROR(reason: &'static str) -> Error
        ensures { IsError result codes.connection_id_limit_error reason.now }
    {
        Error::of(Code::CONNECTION_ID_LIMIT_ERROR, Reason::Static(reason))
    }

    /// An error of the code `PROTOCOL_VIOLATION` with this reason phrase.
    pub fn PROTOCOL_VIOLATION(reason: &'static str) -> Error
        ensures { IsError result codes.protocol_violation reason.now }
    {
        Error::of(Code::PROTOCOL_VIOLATION, Reason::Static(reason))
    }

    /// An error of the code `INVALID_TOKEN` with this reason phrase.
    pub fn INVALID_TOKEN(reason: &'static str) -> Error
        ensures { IsError result codes.invalid_token reason.now }
    {
        Error::of(Code::INVALID_TOKEN, Reason::Static(reason))
    }

    /// An error of the code `APPLICATION_ERROR` with this reason phrase.
    pub fn APPLICATION_ERROR(reason: &'static str) -> Error
        ensures { IsError result codes.application_error reason.now }
    {
        Error::of(Code::APPLICATION_ERROR, Reason::Static(reason))
    }

    /// An error of the code `CRYPTO_BUFFER_EXCEEDED` with this reason phrase.
    pub fn CRYPTO_BUFFER_EXCEEDED(reason: &'static str) -> Error
        ensures { IsError result codes.crypto_buffer_exceeded reason.now }
    {
        Error::of(Code::CRYPTO_BUFFER_EXCEEDED, Reason::Static(reason))
    }

    /// An error of the code `KEY_UPDATE_ERROR` with this reason phrase.
    pub fn KEY_UPDATE_ERROR(reason: &'static str) -> Error
        ensures { IsError result codes.key_update_error reason.now }
    {
        Error::of(Code::KEY_UPDATE_ERROR, Reason::Static(reason))
    }

    /// An error of the code `AEAD_LIMIT_REACHED` with this reason phrase.
    pub fn AEAD_LIMIT_REACHED(reason: &'static str) -> Error
        ensures { IsError result codes.aead_limit_reached reason.now }
    {
        Error::of(Code::AEAD_LIMIT_REACHED, Reason::Static(reason))
    }

    /// An error of the code `NO_VIABLE_PATH` with this reason phrase.
    pub fn NO_VIABLE_PATH(reason: &'static str) -> Error
        ensures { IsError result codes.no_viable_path reason.now }
    {
        Error::of(Code::NO_VIABLE_PATH, Reason::Static(reason))
    }
}

/// The error with this code, an empty reason and no frame type.
impl From<Code> for Error {
    ghost use Rattle.std.specs.Prelude.{[]};
    ghost use Rattle.quic_errors.specs.Codes.{IsError};

    ghost from_gives = { λ code e. IsError e code [] };

    fn from(code: Code) -> Error {
        Error::of(code, Reason::Static(""))
    }
}

impl fmt::Display for Error {
    ghost use Rattle.std.specs.Prelude.{Some};
    ghost use Rattle.quic_errors.specs.Codes.{error_text};

    ghost output = { λ e. Some (error_text e) };

    fn fmt<W: fmt::Write>(&self, f: &mut fmt::Formatter<W>) -> fmt::Result {
        let code = self.code;
        let reason = self.reason.as_str();
        match (self.frame, reason.is_empty()) {
            (None, true) => write!(f, "{code}"),
            (None, false) => write!(f, "{code}: {reason}"),
            (Some(frame), true) => write!(f, "{code} in {frame}"),
            (Some(frame), false) => write!(f, "{code} in {frame}: {reason}"),
        }
    }
}

impl std::error::Error for Error {}
