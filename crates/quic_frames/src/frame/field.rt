//! Fields of frames, other than ACK blocks, read from the front of a slice.
ghost use Rattle.std.specs.Prelude.{◌≡◌, ◌<◌, ◌≤◌, ◌^◌, List, [], ◌∷◌, length, IfOk};
ghost use Rattle.quic_frame_fields.specs.Reading.{Gives, varint_at, bytes_at, counted_at, id_at, eight_at, field_at};
ghost use Rattle.quic_frame_fields.specs.Field.{Value, Number, Bytes};
ghost use Rattle.quic_frame_fields.specs.Table.{offset_field, data_field};

use quic_base::coding::Codec;
use quic_base::ids::{MAX_CID_SIZE, RESET_TOKEN_SIZE};
use quic_base::varint::split_var_by_word;
use quic_frame_fields::frame::fault::Fault;

// The first `n` bytes, and what follows them.
#[inline]
#[tactic(auto, unfolding(quic_frame_fields::specs::Reading::bytes_at))]
fn bytes_of(n: u64, bytes: &[u8]) -> Result<(&[u8], &[u8]), Fault>
    ensures gives { Gives (λ x. (x.0.now, x.1.now)) result (bytes_at n bytes.now) }
    ensures len { IfOk result (λ x. length x.0.now ≡ n) }
{
    if n > bytes.len() as u64 {
        return Err(Fault::UnexpectedEnd);
    }
    Ok(bytes.split_at(n as usize))
}

/// A number of any width. It is read by a call, so that reading a frame stays small enough to be inlined into its
/// callers.
#[inline]
#[tactic(auto, unfolding(quic_frame_fields::specs::Reading::varint_at))]
pub(super) fn number(bytes: &[u8]) -> Result<(u64, &[u8]), Fault>
    ensures gives { Gives (λ x. (x.0, x.1.now)) result (varint_at bytes.now) }
    ensures bound { IfOk result (λ x. x.0 < 2 ^ 62) }
{
    Ok(split_var_by_word(bytes)?)
}

/// A number and that many bytes, and what follows them.
#[inline]
#[tactic(auto, unfolding(quic_frame_fields::specs::Reading::counted_at))]
pub(super) fn counted(bytes: &[u8]) -> Result<(&[u8], &[u8]), Fault>
    ensures { Gives (λ x. (x.0.now, x.1.now)) result (counted_at bytes.now) }
{
    let (n, rest) = number(bytes)?;
    bytes_of(n, rest)
}

// The same, inlined into the caller.
#[inline(always)]
#[tactic(auto, unfolding(quic_frame_fields::specs::Reading::counted_at, quic_frame_fields::specs::Reading::varint_at))]
fn near_counted(bytes: &[u8]) -> Result<(&[u8], &[u8]), Fault>
    ensures { Gives (λ x. (x.0.now, x.1.now)) result (counted_at bytes.now) }
{
    let (n, rest) = split_var_by_word(bytes)?;
    bytes_of(n, rest)
}

/// The offset of a STREAM, 0 if it is left out, and what follows it.
#[inline(always)]
#[tactic(auto, unfolding(quic_frame_fields::specs::Reading::varint_at))]
pub(super) fn offset(is_written: bool, bytes: &[u8]) -> Result<(u64, &[u8]), Fault>
    ensures { (before : List Value)
        → Gives (λ x. (Number x.0 ∷ [], x.1.now)) result (field_at (offset_field is_written) before bytes.now) }
{
    if is_written {
        Ok(split_var_by_word(bytes)?)
    } else {
        Ok((0, bytes))
    }
}

/// The data of a STREAM or a DATAGRAM, and what follows it. If its length is left out, it is all remaining bytes.
#[inline(always)]
pub(super) fn data(is_counted: bool, bytes: &[u8]) -> Result<(&[u8], &[u8]), Fault>
    ensures { (before : List Value)
        → Gives (λ x. (Bytes x.0.now ∷ [], x.1.now)) result (field_at (data_field is_counted) before bytes.now) }
{
    if is_counted {
        counted(bytes)
    } else {
        Ok(bytes.split_at(bytes.len()))
    }
}

/// The data of a STREAM. Reading its length is inlined into the caller.
#[inline(always)]
pub(super) fn near_data(is_counted: bool, bytes: &[u8]) -> Result<(&[u8], &[u8]), Fault>
    ensures { (before : List Value)
        → Gives (λ x. (Bytes x.0.now ∷ [], x.1.now)) result (field_at (data_field is_counted) before bytes.now) }
{
    if is_counted {
        near_counted(bytes)
    } else {
        Ok(bytes.split_at(bytes.len()))
    }
}

/// The bytes of a connection id, after its length, which is from 1 to 20, and what follows them.
#[tactic(auto, unfolding(quic_frame_fields::specs::Reading::id_at))]
pub(super) fn connection_id(bytes: &[u8]) -> Result<(&[u8], &[u8]), Fault>
    ensures gives { Gives (λ x. (x.0.now, x.1.now)) result (id_at bytes.now) }
    ensures short { IfOk result (λ x. length x.0.now ≤ 20) }
{
    let Some((n, rest)) = bytes.split_first() else {
        return Err(Fault::UnexpectedEnd);
    };
    if *n == 0 || usize::from(*n) > MAX_CID_SIZE {
        return Err(Fault::Malformed);
    }
    bytes_of(u64::from(*n), rest)
}

/// The sixteen bytes of a reset token, and what follows them.
pub(super) fn reset_token(bytes: &[u8]) -> Result<([u8; RESET_TOKEN_SIZE], &[u8]), Fault>
    ensures { Gives (λ x. (x.0, x.1.now)) result (bytes_at 16 bytes.now) }
{
    let (token, rest) = bytes_of(RESET_TOKEN_SIZE as u64, bytes)?;
    let mut array = [0; RESET_TOKEN_SIZE];
    array.copy_from_slice(token);
    Ok((array, rest))
}

/// A number of eight bytes, the highest one first, and what follows it. It is read by a call, since few frames have
/// one.
#[inline(never)]
#[tactic(auto, using(quic_frame_fields::proofs::Eights::eights))]
pub(super) fn eight(bytes: &[u8]) -> Result<(u64, &[u8]), Fault>
    ensures { Gives (λ x. (x.0, x.1.now)) result (eight_at bytes.now) }
{
    let mut rest = bytes;
    let n = u64::decode(&mut rest)?;
    Ok((n, rest))
}
