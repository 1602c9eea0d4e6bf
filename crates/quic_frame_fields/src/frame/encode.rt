//! Writes frames in their shortest form (RFC 9000, section 19).
ghost use Rattle.std.specs.Prelude.{◌≡◌, ◌<◌, ◌≤◌, ◌^◌, ◌++◌, max, ◌∷◌, [], ℕ, List, length, take, Bool};
ghost use Rattle.quic_base.specs.Varint.{size};
ghost use Rattle.quic_frame_fields.specs.Parts.{application_close, connection_close, crypto_meaning, frequency_meaning, new_id_meaning, reset_meaning, stop_meaning, token_meaning};
ghost use Rattle.quic_frame_fields.specs.Shortest.{shortest_frame, least_room, close_reason, close_in};
ghost use Rattle.quic_frame_fields.specs.declared.frame.close.Close.TheVariants as closes;
ghost use Rattle.quic_errors.specs.Types.{type_or_zero};
ghost use Rattle.quic_base.specs.Writing.{Writes, WritesTo};
ghost use Rattle.quic_frame_fields.specs.Numbers.{AreNumeric, shortest_varints};

use super::{
    AckFrequency, ApplicationClose, Close, ConnectionClose, Crypto, Datagram, EcnCounts, FrameType,
    NewConnectionId, NewToken, ResetStream, StopSending, write,
};
use bytes::BufMut;
use quic_base::coding::NoRoom;
use quic_base::varint::{VarInt, var_size};

impl ResetStream {
    /// Appends the frame. Returns `NoRoom` only if the frame is longer than the buffer's spare room. The buffer then
    /// has its old contents, and possibly a prefix of the frame after them.
    #[tactic(auto, unfolding(crate::specs::Shortest::shortest_frame))]
    pub fn encode<B: BufMut>(&self, out: &mut B) -> Result<(), NoRoom>
        ensures { (last : Bool) → WritesTo B.written B.spare (shortest_frame last (reset_meaning self.now))
            out.old out.new result }
    {
        write::numbers(out, &self.numbers())
    }

    /// The numbers that make up the frame, its type first.
    pub fn numbers(&self) -> [u64; 4]
        ensures numbers { result ≡ 0x04 ∷ self.now.id ∷ self.now.error_code ∷ self.now.final_offset ∷ [] }
        ensures numeric { AreNumeric result }
    {
        let (id, code) = (u64::from(self.id), self.error_code.into_inner());
        [0x04, id, code, self.final_offset.into_inner()]
    }
}

impl StopSending {
    /// Appends the frame, as `ResetStream::encode` does.
    #[tactic(auto, unfolding(crate::specs::Shortest::shortest_frame))]
    pub fn encode<B: BufMut>(&self, out: &mut B) -> Result<(), NoRoom>
        ensures { (last : Bool) → WritesTo B.written B.spare (shortest_frame last (stop_meaning self.now))
            out.old out.new result }
    {
        write::numbers(out, &self.numbers())
    }

    /// The numbers that make up the frame, its type first.
    pub fn numbers(&self) -> [u64; 3]
        ensures numbers { result ≡ 0x05 ∷ self.now.id ∷ self.now.error_code ∷ [] }
        ensures numeric { AreNumeric result }
    {
        [0x05, u64::from(self.id), self.error_code.into_inner()]
    }
}

impl AckFrequency {
    /// Appends the frame, as `ResetStream::encode` does.
    #[tactic(auto, unfolding(crate::specs::Shortest::shortest_frame))]
    pub fn encode<B: BufMut>(&self, out: &mut B) -> Result<(), NoRoom>
        ensures { (last : Bool) → WritesTo B.written B.spare (shortest_frame last (frequency_meaning self.now))
            out.old out.new result }
    {
        write::numbers(out, &self.numbers())
    }

    /// The numbers that make up the frame, its type first.
    pub fn numbers(&self) -> [u64; 5]
        ensures numbers { result ≡ 0xaf ∷ self.now.sequence ∷ self.now.ack_eliciting_threshold
            ∷ self.now.request_max_ack_delay ∷ self.now.reordering_threshold ∷ [] }
        ensures numeric { AreNumeric result }
    {
        [
            0xaf,
            self.sequence.into_inner(),
            self.ack_eliciting_threshold.into_inner(),
            self.request_max_ack_delay.into_inner(),
            self.reordering_threshold.into_inner(),
        ]
    }
}

impl Crypto<'_> {
    /// Appends the frame, as `ResetStream::encode` does. The caller must ensure that the offset and the length
    /// are below 2^62.
    pub fn encode<B: BufMut>(&self, out: &mut B) -> Result<(), NoRoom>
        requires offset { self.now.offset < 2 ^ 62 }
        requires length { length self.now.bytes.now < 2 ^ 62 }
        ensures { (last : Bool) → WritesTo B.written B.spare (shortest_frame last (crypto_meaning self.now))
            out.old out.new result }
    {
        let length = self.bytes.len() as u64;
        write::numbers_and_bytes(out, &[0x06, self.offset, length], self.bytes)
    }
}

impl NewToken<'_> {
    /// Appends the frame, as `ResetStream::encode` does. The caller must ensure that the length is below 2^62.
    #[tactic(auto, using(crate::proofs::Encoding::token_parts))]
    pub fn encode<B: BufMut>(&self, out: &mut B) -> Result<(), NoRoom>
        requires { length self.now.token.now < 2 ^ 62 }
        ensures { (last : Bool) → WritesTo B.written B.spare (shortest_frame last (token_meaning self.now))
            out.old out.new result }
    {
        let length = self.token.len() as u64;
        write::numbers_and_bytes(out, &[0x07, length], self.token)
    }

    /// How many bytes `encode` appends. The caller must ensure that the length is below 2^62.
    #[tactic(auto, using(crate::proofs::Encoding::token_length))]
    pub fn size(&self) -> usize
        requires { length self.now.token.now < 2 ^ 62 }
        ensures { (last : Bool) → result ≡ length (shortest_frame last (token_meaning self.now)) }
    {
        1 + var_size(self.token.len() as u64) + self.token.len()
    }
}

impl EcnCounts {
    /// Appends the three ECN counts, as `ResetStream::encode` does. The caller must ensure that they are below 2^62.
    pub fn encode<B: BufMut>(&self, out: &mut B) -> Result<(), NoRoom>
        requires ect0 { self.now.ect0 < 2 ^ 62 }
        requires ect1 { self.now.ect1 < 2 ^ 62 }
        requires ce { self.now.ce < 2 ^ 62 }
        ensures { WritesTo B.written B.spare (shortest_varints (self.now.ect0 ∷ self.now.ect1 ∷ self.now.ce ∷ []))
            out.old out.new result }
    {
        write::numbers(out, &[self.ect0, self.ect1, self.ce])
    }
}

impl NewConnectionId {
    /// Appends the frame, as `ResetStream::encode` does. The caller must ensure that both sequence numbers are
    /// below 2^62.
    pub fn encode<B: BufMut>(&self, out: &mut B) -> Result<(), NoRoom>
        requires sequence { self.now.sequence < 2 ^ 62 }
        requires retire { self.now.retire_prior_to < 2 ^ 62 }
        ensures { (last : Bool) → WritesTo B.written B.spare (shortest_frame last (new_id_meaning self.now))
            out.old out.new result }
    {
        write::numbers(out, &[0x18, self.sequence, self.retire_prior_to])?;
        write::id_and_bytes(out, &self.id, self.reset_token.as_slice())
    }
}

// The size of the code, but at least two bytes.
#[tactic(auto, using(quic_base::proofs::PublicLaws::size_small))]
fn code_room(code: VarInt) -> usize
    ensures value { result ≡ max 2 (size code) }
    ensures small { result ≤ 8 }
{
    code.size().max(2)
}

/// The number of a frame's type, 0 if there is none.
pub fn type_or_zero(ty: Option<FrameType>) -> u64
    ensures value { result ≡ type_or_zero ty }
    ensures bound { result < 2 ^ 62 }
{
    match ty {
        Some(ty) => ty.into_inner(),
        None => 0,
    }
}

// The first bytes of a reason, at most `room`.
#[tactic(auto, using(crate::proofs::Encoding::cut_is, crate::proofs::Encoding::cut_short))]
fn cut(reason: &[u8], room: usize) -> &[u8]
    ensures value { result.now ≡ take room reason.now }
    ensures short { length result.now ≤ length reason.now }
{
    &reason[..reason.len().min(room)]
}

impl ConnectionClose<'_> {
    /// The least `max_len` that `encode` accepts, in bytes. The caller must ensure that the reason's length is below
    /// 2^62.
    pub fn min_len(&self) -> usize
        requires { length self.now.reason.now < 2 ^ 62 }
        ensures { result ≡ least_room (closes.Connection self.now) }
    {
        let code = code_room(VarInt::from_u64_unchecked(self.error_code.into()));
        let ty = var_size(type_or_zero(self.frame_type));
        1 + code + ty + var_size(self.reason.len() as u64)
    }

    /// Appends the frame, as `ResetStream::encode` does, and cuts the reason so that the frame has at most `max_len`
    /// bytes. The caller must ensure that `max_len` is at least `min_len`, and that the reason's length is below 2^62.
    #[tactic(auto, using(crate::proofs::Encoding::connection_close_fits))]
    pub fn encode<B: BufMut>(&self, out: &mut B, max_len: usize) -> Result<(), NoRoom>
        requires reason { length self.now.reason.now < 2 ^ 62 }
        requires room { least_room (closes.Connection self.now) ≤ max_len }
        ensures writes { (last : Bool)
            → WritesTo B.written B.spare (shortest_frame last (close_in max_len (closes.Connection self.now)))
            out.old out.new result }
        ensures fits { (last : Bool)
            → length (shortest_frame last (close_in max_len (closes.Connection self.now))) ≤ max_len }
    {
        self.encode_with(out, cut(self.reason, max_len - self.min_len()))
    }

    /// Appends the frame with another reason, as `ResetStream::encode` does. The caller must ensure that its length is
    /// below 2^62.
    #[tactic(auto, using(crate::proofs::Encoding::connection_close_parts))]
    pub fn encode_with<B: BufMut>(&self, out: &mut B, reason: &[u8]) -> Result<(), NoRoom>
        requires { length reason.now < 2 ^ 62 }
        ensures { (last : Bool)
            → WritesTo B.written B.spare
            (shortest_frame last (connection_close self.now.error_code self.now.frame_type reason.now))
            out.old out.new result }
    {
        write::numbers_and_bytes(out, &self.numbers(reason), reason)
    }

    /// The numbers in front of this reason phrase.
    #[inline]
    pub fn numbers(&self, reason: &[u8]) -> [u64; 4]
        ensures numbers { result ≡ 0x1c ∷ self.now.error_code ∷ type_or_zero self.now.frame_type
            ∷ length reason.now ∷ [] }
        ensures numeric { length reason.now < 2 ^ 62 → AreNumeric result }
    {
        let ty = type_or_zero(self.frame_type);
        [0x1c, self.error_code.into(), ty, reason.len() as u64]
    }
}

impl ApplicationClose<'_> {
    /// The least `max_len` that `encode` accepts, in bytes. The caller must ensure that the reason's length is below
    /// 2^62.
    pub fn min_len(&self) -> usize
        requires { length self.now.reason.now < 2 ^ 62 }
        ensures { result ≡ least_room (closes.Application self.now) }
    {
        1 + code_room(self.error_code) + var_size(self.reason.len() as u64)
    }

    /// Appends the frame, as `ConnectionClose::encode` does.
    #[tactic(auto, using(crate::proofs::Encoding::application_close_fits))]
    pub fn encode<B: BufMut>(&self, out: &mut B, max_len: usize) -> Result<(), NoRoom>
        requires reason { length self.now.reason.now < 2 ^ 62 }
        requires room { least_room (closes.Application self.now) ≤ max_len }
        ensures writes { (last : Bool)
            → WritesTo B.written B.spare (shortest_frame last (close_in max_len (closes.Application self.now)))
            out.old out.new result }
        ensures fits { (last : Bool)
            → length (shortest_frame last (close_in max_len (closes.Application self.now))) ≤ max_len }
    {
        self.encode_with(out, cut(self.reason, max_len - self.min_len()))
    }

    /// Appends the frame with another reason, as `ResetStream::encode` does. The caller must ensure that its length is
    /// below 2^62.
    #[tactic(auto, using(crate::proofs::Encoding::application_close_parts))]
    pub fn encode_with<B: BufMut>(&self, out: &mut B, reason: &[u8]) -> Result<(), NoRoom>
        requires { length reason.now < 2 ^ 62 }
        ensures { (last : Bool) → WritesTo B.written B.spare
            (shortest_frame last (application_close self.now.error_code reason.now)) out.old out.new result }
    {
        write::numbers_and_bytes(out, &self.numbers(reason), reason)
    }

    /// The numbers in front of this reason phrase.
    #[inline]
    pub fn numbers(&self, reason: &[u8]) -> [u64; 3]
        ensures numbers { result ≡ 0x1d ∷ self.now.error_code ∷ length reason.now ∷ [] }
        ensures numeric { length reason.now < 2 ^ 62 → AreNumeric result }
    {
        [0x1d, self.error_code.into_inner(), reason.len() as u64]
    }
}

impl Close<'_> {
    /// The least `max_len` that `encode` accepts, in bytes. The caller must ensure that the reason's length is below
    /// 2^62.
    pub fn min_len(&self) -> usize
        requires { length (close_reason self.now) < 2 ^ 62 }
        ensures { result ≡ least_room self.now }
    {
        match self {
            Close::Connection(close) => close.min_len(),
            Close::Application(close) => close.min_len(),
        }
    }

    /// Appends the frame, as `ConnectionClose::encode` does.
    #[tactic(auto, using(crate::proofs::Encoding::close_fits))]
    pub fn encode<B: BufMut>(&self, out: &mut B, max_len: usize) -> Result<(), NoRoom>
        requires reason { length (close_reason self.now) < 2 ^ 62 }
        requires room { least_room self.now ≤ max_len }
        ensures writes { (last : Bool) → WritesTo B.written B.spare (shortest_frame last (close_in max_len self.now))
            out.old out.new result }
        ensures fits { (last : Bool) → length (shortest_frame last (close_in max_len self.now)) ≤ max_len }
    {
        match self {
            Close::Connection(close) => close.encode(out, max_len),
            Close::Application(close) => close.encode(out, max_len),
        }
    }
}
