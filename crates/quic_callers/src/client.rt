//! A message of three fields, read from any buffer and written to any: what callers that are generic
//! over `Buf` and `BufMut` learn from the codecs.
ghost use Rattle.std.specs.Prelude.{◌≡◌, ◌<◌, ◌^◌, ◌++◌, List, ℕ, Ok, length, IfOk, OnErr, OnOk};
ghost use Rattle.quic_base.specs.Codec.{Takes, NoFront, Follows, IsBegun, KeepsRoom};
ghost use Rattle.quic_base.specs.Varint.{Encodes, shortest_varint};
ghost use Rattle.quic_callers.specs.Reset.{EncodesReset, reset_bytes};

use bytes::{Buf, BufMut};
use quic_base::coding::{BufExt, BufMutExt, Codec, NoRoom, Result};
use quic_base::ids::StreamId;
use quic_base::varint::VarInt;

/// A stream that is given up: which one, why, and how many bytes were sent on it.
#[derive(Clone, Copy, Debug, PartialEq, Eq)]
pub struct Reset {
    /// The stream.
    pub id: StreamId,
    /// Why.
    pub code: VarInt,
    /// How many bytes were sent.
    pub final_offset: u64,
}

/// Takes a message from the front of any buffer. Answers `UnexpectedEnd` exactly if no prefix of
/// the remaining bytes encodes one.
#[tactic(auto, using(quic_base::proofs::PublicLaws::in_turn))]
pub fn read_reset<B: Buf>(buf: &mut B) -> Result<Reset>
    ensures ok { IfOk result (λ r. Takes (EncodesReset r.id r.code r.final_offset)
        (B.unread buf.old) (B.unread buf.new)) }
    ensures cut { OnErr result ((id code offset : ℕ) →
        NoFront (EncodesReset id code offset) (B.unread buf.old)) }
    ensures kept { B.kept buf.new ≡ B.kept buf.old }
{
    let id = buf.get()?;
    let code = buf.get()?;
    let final_offset = buf.get()?;
    Ok(Reset {
        id,
        code,
        final_offset,
    })
}

/// Appends a message to any buffer. Answers `NoRoom` only if the spare room is less than that: the
/// buffer then keeps its contents, and may have a prefix of the message after them.
#[tactic(auto, using(quic_base::proofs::PublicLaws::in_turn))]
pub fn write_reset<B: BufMut>(reset: &Reset, buf: &mut B) -> std::result::Result<(), NoRoom>
    ensures ok { OnOk result (B.written buf.new ≡ B.written buf.old
        ++ reset_bytes reset.now.id reset.now.code reset.now.final_offset) }
    ensures err { OnErr result (IsBegun (B.written buf.old)
        (reset_bytes reset.now.id reset.now.code reset.now.final_offset) (B.written buf.new)) }
    ensures full { OnErr result (B.spare buf.old
        < length (reset_bytes reset.now.id reset.now.code reset.now.final_offset)) }
    ensures room { KeepsRoom (B.written buf.old) (B.spare buf.old)
        (B.written buf.new) (B.spare buf.new) }
{
    buf.write(reset.id)?;
    buf.write(reset.code)?;
    buf.write(reset.final_offset)
}

/// The number of the varint at the front of a slice, and what follows it.
pub fn first_number(bytes: &[u8]) -> Result<(u64, &[u8])>
    ensures { IfOk result (λ r. Takes (Encodes r.0) bytes.now r.1.now) }
{
    let mut rest = bytes;
    let n = rest.get_var()?;
    Ok((n, rest))
}

/// Two values of any type that has a codec, proved only from its bound.
#[tactic(auto, using(quic_base::proofs::PublicLaws::in_turn))]
pub fn read_two<T: Codec + Drop, B: Buf>(buf: &mut B) -> Result<(T, T)>
    ensures ok { IfOk result (λ r. Takes (Follows (T.encoded r.0) (T.encoded r.1))
        (B.unread buf.old) (B.unread buf.new)) }
    ensures kept { B.kept buf.new ≡ B.kept buf.old }
{
    let first = T::decode(buf)?;
    let second = buf.get::<T>()?;
    Ok((first, second))
}

/// A number that was written as a varint is read back, whatever follows it. The caller must ensure that it
/// is below 2^62, and that the bytes begin with its shortest encoding.
pub fn read_back(bytes: &[u8], n: u64, rest: &[u8]) -> Result<u64>
    requires small { n < 2 ^ 62 }
    requires stands { bytes.now ≡ shortest_varint n ++ rest.now }
    ensures { result ≡ Ok n }
{
    let mut left = bytes;
    left.get_var()
}
