//! Parsers of the connection ids of short headers, which don't hold the id's length.
ghost use Rattle.std.specs.Prelude.{◌≡◌, ℕ, ◌-◌, ◌≤◌, List, length, drop, Bool, IsTrue, false, Result, IfOk, IsErrOf, MatchResult, ◌≢◌};
ghost use Rattle.quic_header_decode.specs.Refusal.{Refusal, NoMemory, GivesRead};

use crate::decode_error::PacketDecodeError;
use quic_base::coding::Cursor;
use quic_base::ids::ConnectionId;

/// Reads the connection id of a short header, which doesn't hold the id's length. An endpoint knows its own ids, so it
/// provides the parser.
pub trait ConnectionIdParser {
    ghost use Rattle.quic_base.specs.Cursor.{unread};

    // What the remaining bytes begin with: an id and how many bytes it has, or an error.
    ghost parsed: { Self → List ℕ → Result (List ℕ × ℕ) Refusal };

    // It allocates, so an allocation may fail.
    ghost takes_memory: { Self → Bool };

    /// Reads the id at the cursor's position and moves past it. The cursor's bytes don't change; after an error its
    /// position is unspecified. If the parser allocates, any call may return `OutOfMemory`.
    fn parse(&self, buf: &mut Cursor) -> Result<ConnectionId, PacketDecodeError>
        ensures bytes { buf.new.bytes ≡ buf.old.bytes }
        ensures parsed { GivesRead (λ id. (id, length (unread buf.old) - length (unread buf.new))) result
            (parsed self.now (unread buf.old)) }
        ensures within { IfOk result
            (λ id. unread buf.new ≡ drop (length (unread buf.old) - length (unread buf.new)) (unread buf.old)) }
        ensures forward { IfOk result (λ _. buf.old.position ≤ buf.new.position) }
        ensures memory { IsErrOf result PacketDecodeError.OutOfMemory → IsTrue (takes_memory self.now) };

    // An id has no more bytes than there are, and `OutOfMemory` never depends on the bytes.
    ghost lawful: { (p : Self) (bytes : List ℕ)
        → MatchResult (parsed p bytes) (λ x. x.1 ≤ length bytes) (λ e. e ≢ NoMemory) };
}

/// How headers are read.
#[derive(Debug, Drop)]
pub struct DecodeOptions<'a, P> {
    /// Reads the ids of short headers.
    pub parser: &'a P,
    /// The supported versions. Only the ids are read from headers of others.
    pub versions: &'a [u32],
    /// Whether the fixed bit may be clear (RFC 9287).
    pub grease: bool,
}

/// A parser of ids that all have one length, of at most 20 bytes. If fewer bytes remain it returns
/// `InvalidHeader("packet too small")`. It doesn't allocate.
#[derive(Clone, Copy, Debug)]
pub struct FixedLengthConnectionIdParser {
    expected_len: usize,
    ghost in_range: { expected_len ≤ 20 },
}

impl FixedLengthConnectionIdParser {
    ghost use Rattle.quic_header_decode.specs.Parsers.{id_len};

    /// A parser of ids of `expected_len` bytes. The caller must ensure that this is at most 20.
    pub fn new(expected_len: usize) -> Self
        requires { expected_len ≤ 20 }
        ensures { id_len result ≡ expected_len }
    {
        FixedLengthConnectionIdParser { expected_len }
    }

    // How many bytes each id has.
    #[inline]
    pub(crate) fn expected_len(self) -> usize
        ensures value { result ≡ id_len self }
        ensures small { result ≤ 20 }
    {
        self.expected_len
    }
}

impl ConnectionIdParser for FixedLengthConnectionIdParser {
    ghost use Rattle.quic_header_decode.specs.Parsers.{id_len};
    ghost use Rattle.quic_header_decode.specs.Parsers.{fixed_parsed, fixed_lawful};

    ghost parsed = { λ p bytes. fixed_parsed (id_len p) bytes };

    ghost takes_memory = { λ _. false };

    ghost lawful = { λ p bytes. fixed_lawful (id_len p) bytes };

    /// Reads the id at the cursor's position and moves past it. The cursor's bytes don't change; after an error its
    /// position is unspecified. If the parser allocates, any call may return `OutOfMemory`.
    #[inline]
    fn parse(&self, buf: &mut Cursor) -> Result<ConnectionId, PacketDecodeError> {
        let len = self.expected_len;
        if buf.remaining() < len {
            return Err(PacketDecodeError::InvalidHeader("packet too small"));
        }
        let id = ConnectionId::new(&buf.rest()[..len]);
        buf.advance(len);
        Ok(id)
    }
}
