//! Readers of frames that break no rule, one for each kind. They store a frame's words as they read it, and test no
//! flag: what such a reader doesn't take, as an error, is read by the readers of all frames.
ghost use Rattle.std.specs.Prelude.{◌≡◌, ◌<◌, ◌≤◌, ◌^◌, ◌+◌, ◌-◌, ℕ, List, [], ◌∷◌, IfSome, Ok, length, drop};
ghost use Rattle.quic_frame_fields.specs.Field.{Value, Number, Bytes};
ghost use Rattle.quic_frame_fields.specs.Reading.{varint_at, bytes_at, counted_at, id_at, eight_at, field_at};
ghost use Rattle.quic_frame_fields.specs.Table.{offset_field, data_field};
ghost use Rattle.quic_c.specs.Kinds.{AnswersKind, BeginsBy, HasType, HasNoFields, HasTwoNumbers, IsApplicationClose, IsCrypto, IsDataLimit, IsDatagram, IsNewId, IsPath, IsReset, IsRetireId, IsStream, IsStreamLimit, IsToken, IsTransportClose};

use quic_base::coding::{Codec, are_bytes};
use quic_base::varint::{split_var, split_var_by_word};
use quic_c_words::words::CFrame;

// Some kinds of frames that are read alike.
pub(crate) trait Kind {
    // The types of these frames, each in one byte.
    ghost is_type: { ℕ → Type 0 };

    // Reads the frame at an offset into its words, and returns where it ends. If `by_word`, each number is read by one
    // load, so that near the end of the payload nothing is returned.
    fn read(by_word: bool, payload: &[u8], begin: usize, out: &mut CFrame) -> Option<usize>
        requires within { begin ≤ length payload.now }
        requires begins { BeginsBy is_type (drop begin payload.now) }
        ensures answers { AnswersKind payload.now begin out.old result out.new }
        ensures fits { IfSome result (λ end. end ≤ length payload.now) };
}

// The type at an offset, and what follows it.
#[inline(always)]
pub(crate) fn split_type(payload: &[u8], begin: usize) -> Option<(u8, &[u8])>
    requires { begin ≤ length payload.now }
    ensures parts { IfSome result (λ x. HasType payload.now begin x.0 x.1.now) }
    ensures fewer { IfSome result (λ x. length x.1.now < length payload.now) }
{
    let (_, bytes) = payload.split_at(begin);
    are_bytes(bytes);
    let Some((first, fields)) = bytes.split_first() else {
        return None;
    };
    Some((*first, fields))
}

// A number, and what follows it.
#[inline(always)]
#[tactic(auto, unfolding(quic_frame_fields::specs::Reading::varint_at))]
pub(crate) fn number(by_word: bool, bytes: &[u8]) -> Option<(u64, &[u8])>
    ensures read { IfSome result (λ x. varint_at bytes.now ≡ Ok (x.0, x.1.now)) }
    ensures bound { IfSome result (λ x. x.0 < 2 ^ 62) }
    ensures fewer { IfSome result (λ x. length x.1.now ≤ length bytes.now) }
{
    if by_word {
        if bytes.len() < 8 {
            return None;
        }
        return match split_var_by_word(bytes) {
            Ok((n, rest)) => Some((n, rest)),
            Err(_) => None,
        };
    }
    match split_var(bytes) {
        Ok((n, rest)) => Some((n, rest)),
        Err(_) => None,
    }
}

// A number that mostly has one byte, and what follows it.
#[inline(always)]
#[tactic(auto, using(quic_frame_fields::proofs::Varints::one_at))]
pub(crate) fn short_number(by_word: bool, bytes: &[u8]) -> Option<(u64, &[u8])>
    ensures read { IfSome result (λ x. varint_at bytes.now ≡ Ok (x.0, x.1.now)) }
    ensures bound { IfSome result (λ x. x.0 < 2 ^ 62) }
    ensures fewer { IfSome result (λ x. length x.1.now ≤ length bytes.now) }
{
    if let Some((first, rest)) = bytes.split_first() {
        if *first < 64 {
            return Some((u64::from(*first), rest));
        }
    }
    number(by_word, bytes)
}

// A number and that many bytes, and what follows them.
#[inline(always)]
#[tactic(auto, unfolding(quic_frame_fields::specs::Reading::counted_at, quic_frame_fields::specs::Reading::bytes_at))]
fn counted(by_word: bool, bytes: &[u8]) -> Option<(&[u8], &[u8])>
    ensures read { IfSome result (λ x. counted_at bytes.now ≡ Ok (x.0.now, x.1.now)) }
    ensures fewer { IfSome result (λ x. length x.0.now + length x.1.now ≤ length bytes.now) }
{
    let Some((n, content)) = number(by_word, bytes) else {
        return None;
    };
    if n > content.len() as u64 {
        return None;
    }
    Some(content.split_at(n as usize))
}

// The offset of a STREAM, 0 if it is left out, and what follows it.
#[inline(always)]
#[tactic(auto, unfolding(quic_frame_fields::specs::Reading::varint_at))]
fn offset(by_word: bool, is_written: bool, bytes: &[u8]) -> Option<(u64, &[u8])>
    ensures read { (before : List Value) → IfSome result (λ x.
        field_at (offset_field is_written) before bytes.now ≡ Ok (Number x.0 ∷ [], x.1.now)) }
    ensures bound { IfSome result (λ x. x.0 < 2 ^ 62) }
    ensures fewer { IfSome result (λ x. length x.1.now ≤ length bytes.now) }
{
    if is_written {
        number(by_word, bytes)
    } else {
        Some((0, bytes))
    }
}

// The data of a STREAM or a DATAGRAM, all bytes if their length is left out, and what follows them.
#[inline(always)]
fn content(by_word: bool, is_counted: bool, bytes: &[u8]) -> Option<(&[u8], &[u8])>
    ensures read { (before : List Value) → IfSome result (λ x.
        field_at (data_field is_counted) before bytes.now ≡ Ok (Bytes x.0.now ∷ [], x.1.now)) }
    ensures fewer { IfSome result (λ x. length x.0.now + length x.1.now ≤ length bytes.now) }
{
    if is_counted {
        counted(by_word, bytes)
    } else {
        Some(bytes.split_at(bytes.len()))
    }
}

// The greatest offset at which data may end.
const MOST: u64 = (1 << 62) - 1;

// A number of eight bytes, and what follows it.
#[inline(always)]
#[tactic(auto, using(quic_frame_fields::proofs::Eights::eights))]
fn eight(bytes: &[u8]) -> Option<(u64, &[u8])>
    ensures read { IfSome result (λ x. eight_at bytes.now ≡ Ok (x.0, x.1.now)) }
    ensures fewer { IfSome result (λ x. length x.1.now ≤ length bytes.now) }
{
    let mut rest = bytes;
    match u64::decode(&mut rest) {
        Ok(n) => Some((n, rest)),
        Err(_) => None,
    }
}

// The bytes of a connection id, after its length, which is from 1 to 20, and what follows them.
#[inline(always)]
#[tactic(auto, unfolding(quic_frame_fields::specs::Reading::id_at, quic_frame_fields::specs::Reading::bytes_at))]
fn connection_id(bytes: &[u8]) -> Option<(&[u8], &[u8])>
    ensures read { IfSome result (λ x. id_at bytes.now ≡ Ok (x.0.now, x.1.now)) }
    ensures fewer { IfSome result (λ x. length x.0.now + length x.1.now ≤ length bytes.now) }
{
    let Some((n, left)) = bytes.split_first() else {
        return None;
    };
    let len = usize::from(*n);
    if len == 0 || len > 20 || len > left.len() {
        return None;
    }
    Some(left.split_at(len))
}

// The sixteen bytes of a reset token, and what follows them.
#[inline(always)]
#[tactic(auto, unfolding(quic_frame_fields::specs::Reading::bytes_at))]
fn reset_token(bytes: &[u8]) -> Option<(&[u8], &[u8])>
    ensures read { IfSome result (λ x. bytes_at 16 bytes.now ≡ Ok (x.0.now, x.1.now)) }
    ensures fewer { IfSome result (λ x. 16 + length x.1.now ≤ length bytes.now) }
{
    if bytes.len() < 16 {
        return None;
    }
    Some(bytes.split_at(16))
}

// Stores the words of a frame without data.
#[inline(always)]
pub(crate) fn put(out: &mut CFrame, ty: u8, begin: usize, end: usize, numbers: [u64; 5])
    ensures { out.new ≡ record {
      kind = ty;
      ty = ty;
      flags = 0;
      begin = begin;
      end = end;
      data_offset = end;
      data_len = 0;
      numbers = numbers;
    } }
{
    *out = CFrame {
        kind: u16::from(ty),
        ty: u16::from(ty),
        flags: 0,
        begin,
        end,
        data_offset: end,
        data_len: 0,
        numbers,
    };
}

// Stores the words of a frame that ends with so many bytes of data.
#[inline(always)]
fn put_data(out: &mut CFrame, ty: u8, begin: usize, end: usize, len: usize, numbers: [u64; 5])
    requires { len ≤ end }
    ensures { out.new ≡ record {
      kind = ty;
      ty = ty;
      flags = 0;
      begin = begin;
      end = end;
      data_offset = end - len;
      data_len = len;
      numbers = numbers;
    } }
{
    *out = CFrame {
        kind: u16::from(ty),
        ty: u16::from(ty),
        flags: 0,
        begin,
        end,
        data_offset: end - len,
        data_len: len,
        numbers,
    };
}

// PING, HANDSHAKE_DONE
pub(crate) struct NoFields;

impl Kind for NoFields {
    ghost is_type = { HasNoFields };

    #[inline(always)]
    fn read(_by_word: bool, payload: &[u8], begin: usize, out: &mut CFrame) -> Option<usize> {
        let (ty, rest) = split_type(payload, begin)?;
        let end = payload.len() - rest.len();
        put(out, ty, begin, end, [0; 5]);
        Some(end)
    }
}

// MAX_DATA, DATA_BLOCKED
pub(crate) struct DataLimit;

impl Kind for DataLimit {
    ghost is_type = { IsDataLimit };

    #[inline(always)]
    fn read(by_word: bool, payload: &[u8], begin: usize, out: &mut CFrame) -> Option<usize> {
        let (ty, fields) = split_type(payload, begin)?;
        let (limit, rest) = number(by_word, fields)?;
        let end = payload.len() - rest.len();
        put(out, ty, begin, end, [0, limit, 0, 0, 0]);
        Some(end)
    }
}

// MAX_STREAMS, STREAMS_BLOCKED
pub(crate) struct StreamLimit;

impl Kind for StreamLimit {
    ghost is_type = { IsStreamLimit };

    #[inline(always)]
    fn read(by_word: bool, payload: &[u8], begin: usize, out: &mut CFrame) -> Option<usize> {
        let (ty, fields) = split_type(payload, begin)?;
        let (count, rest) = number(by_word, fields)?;
        if count > 1 << 60 {
            return None;
        }
        let end = payload.len() - rest.len();
        put(out, ty, begin, end, [0, count, 0, 0, 0]);
        Some(end)
    }
}

// RETIRE_CONNECTION_ID
pub(crate) struct RetireId;

impl Kind for RetireId {
    ghost is_type = { IsRetireId };

    #[inline(always)]
    fn read(by_word: bool, payload: &[u8], begin: usize, out: &mut CFrame) -> Option<usize> {
        let (ty, fields) = split_type(payload, begin)?;
        let (sequence, rest) = short_number(by_word, fields)?;
        let end = payload.len() - rest.len();
        put(out, ty, begin, end, [sequence, 0, 0, 0, 0]);
        Some(end)
    }
}

// STOP_SENDING, MAX_STREAM_DATA, STREAM_DATA_BLOCKED
pub(crate) struct TwoNumbers;

impl Kind for TwoNumbers {
    ghost is_type = { HasTwoNumbers };

    #[inline(always)]
    fn read(by_word: bool, payload: &[u8], begin: usize, out: &mut CFrame) -> Option<usize> {
        let (ty, fields) = split_type(payload, begin)?;
        let (a, behind) = number(by_word, fields)?;
        let (b, rest) = number(by_word, behind)?;
        let end = payload.len() - rest.len();
        put(out, ty, begin, end, [a, b, 0, 0, 0]);
        Some(end)
    }
}

// RESET_STREAM
pub(crate) struct Reset;

impl Kind for Reset {
    ghost is_type = { IsReset };

    #[inline(always)]
    fn read(by_word: bool, payload: &[u8], begin: usize, out: &mut CFrame) -> Option<usize> {
        let (ty, fields) = split_type(payload, begin)?;
        let (id, behind_id) = number(by_word, fields)?;
        let (code, behind_code) = number(by_word, behind_id)?;
        let (size, rest) = number(by_word, behind_code)?;
        let end = payload.len() - rest.len();
        put(out, ty, begin, end, [id, code, size, 0, 0]);
        Some(end)
    }
}

// CRYPTO
pub(crate) struct Crypto;

impl Kind for Crypto {
    ghost is_type = { IsCrypto };

    #[inline(always)]
    fn read(by_word: bool, payload: &[u8], begin: usize, out: &mut CFrame) -> Option<usize> {
        let (ty, fields) = split_type(payload, begin)?;
        let (offset, behind) = short_number(by_word, fields)?;
        let (sent, rest) = counted(by_word, behind)?;
        let len = sent.len();
        if offset + len as u64 > MOST {
            return None;
        }
        let end = payload.len() - rest.len();
        put_data(out, ty, begin, end, len, [0, offset, 0, 0, 0]);
        Some(end)
    }
}

// NEW_TOKEN
pub(crate) struct Token;

impl Kind for Token {
    ghost is_type = { IsToken };

    #[inline(always)]
    fn read(by_word: bool, payload: &[u8], begin: usize, out: &mut CFrame) -> Option<usize> {
        let (ty, fields) = split_type(payload, begin)?;
        let (sent, rest) = counted(by_word, fields)?;
        let len = sent.len();
        if len == 0 {
            return None;
        }
        let end = payload.len() - rest.len();
        put_data(out, ty, begin, end, len, [0; 5]);
        Some(end)
    }
}

// STREAM
pub(crate) struct Stream;

impl Kind for Stream {
    ghost is_type = { IsStream };

    #[inline(always)]
    fn read(by_word: bool, payload: &[u8], begin: usize, out: &mut CFrame) -> Option<usize> {
        let (ty, fields) = split_type(payload, begin)?;
        let (id, behind) = short_number(by_word, fields)?;
        let (offset, behind_offset) = offset(by_word, ty & 4 != 0, behind)?;
        let (sent, rest) = content(by_word, ty & 2 != 0, behind_offset)?;
        let len = sent.len();
        if offset + len as u64 > MOST {
            return None;
        }
        let end = payload.len() - rest.len();
        let fin = u32::from(ty & 1 != 0);
        put_data(out, ty, begin, end, len, [id, offset, 0, 0, 0]);
        out.kind = 0x08;
        out.flags = fin;
        Some(end)
    }
}

// DATAGRAM
pub(crate) struct Datagram;

impl Kind for Datagram {
    ghost is_type = { IsDatagram };

    #[inline(always)]
    fn read(by_word: bool, payload: &[u8], begin: usize, out: &mut CFrame) -> Option<usize> {
        let (ty, fields) = split_type(payload, begin)?;
        let (sent, rest) = content(by_word, ty & 1 != 0, fields)?;
        let end = payload.len() - rest.len();
        put_data(out, ty, begin, end, sent.len(), [0; 5]);
        out.kind = 0x30;
        Some(end)
    }
}

// PATH_CHALLENGE, PATH_RESPONSE
pub(crate) struct Path;

impl Kind for Path {
    ghost is_type = { IsPath };

    #[inline(always)]
    fn read(_by_word: bool, payload: &[u8], begin: usize, out: &mut CFrame) -> Option<usize> {
        let (ty, fields) = split_type(payload, begin)?;
        let (token, rest) = eight(fields)?;
        let end = payload.len() - rest.len();
        put(out, ty, begin, end, [token, 0, 0, 0, 0]);
        Some(end)
    }
}

// NEW_CONNECTION_ID
pub(crate) struct NewId;

impl Kind for NewId {
    ghost is_type = { IsNewId };

    #[inline(always)]
    fn read(by_word: bool, payload: &[u8], begin: usize, out: &mut CFrame) -> Option<usize> {
        let (ty, fields) = split_type(payload, begin)?;
        let (sequence, behind_sequence) = short_number(by_word, fields)?;
        let (retire, behind) = short_number(by_word, behind_sequence)?;
        if retire > sequence {
            return None;
        }
        let (id, behind_id) = connection_id(behind)?;
        let (_, rest) = reset_token(behind_id)?;
        let end = payload.len() - rest.len();
        put_data(out, ty, begin, end, id.len(), [sequence, retire, 0, 0, 0]);
        out.data_offset = end - 16 - id.len();
        Some(end)
    }
}

// CONNECTION_CLOSE by the transport
pub(crate) struct TransportClose;

impl Kind for TransportClose {
    ghost is_type = { IsTransportClose };

    #[inline(always)]
    fn read(by_word: bool, payload: &[u8], begin: usize, out: &mut CFrame) -> Option<usize> {
        let (ty, fields) = split_type(payload, begin)?;
        let (code, behind_code) = number(by_word, fields)?;
        let (frame_type, behind) = number(by_word, behind_code)?;
        let (reason, rest) = counted(by_word, behind)?;
        let end = payload.len() - rest.len();
        put_data(
            out,
            ty,
            begin,
            end,
            reason.len(),
            [code, frame_type, 0, 0, 0],
        );
        Some(end)
    }
}

// CONNECTION_CLOSE by the application
pub(crate) struct ApplicationClose;

impl Kind for ApplicationClose {
    ghost is_type = { IsApplicationClose };

    #[inline(always)]
    fn read(by_word: bool, payload: &[u8], begin: usize, out: &mut CFrame) -> Option<usize> {
        let (ty, fields) = split_type(payload, begin)?;
        let (code, behind) = number(by_word, fields)?;
        let (reason, rest) = counted(by_word, behind)?;
        let end = payload.len() - rest.len();
        put_data(out, ty, begin, end, reason.len(), [code, 0, 0, 0, 0]);
        Some(end)
    }
}
