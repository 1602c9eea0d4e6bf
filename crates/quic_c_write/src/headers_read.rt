//! The headers of STREAM, CRYPTO and DATAGRAM frames, read without the data behind them.
ghost use Rattle.std.specs.Prelude.{◌≡◌, ◌<◌, ◌^◌, ◌==◌, ◌&&◌, ℕ, ℤ, List, Bool, ◌++◌, length, not, IfOk, IfSome, IsNone, MatchResult, pos, false, if◌then◌else◌};
ghost use Rattle.quic_base.specs.Codec.{NoFront, Takes};
ghost use Rattle.quic_frame_fields.specs.Numbers.{AreEncoded};
ghost use Rattle.quic_frame_fields.specs.Payload.{BeginsWithType};
ghost use Rattle.quic_frames.specs.Rules.{ends_past};
ghost use Rattle.quic_frames.specs.declared.frame.rules.Rules.{Rules};
ghost use Rattle.quic_c_write.specs.Headers.{AnswersHeader, BeginsWithHeader, GivesHeader, HasHeader, Header, IsHeaded, IsReadBack, RefusesHeader, RefusesType, StaysWithin, breaks_limit, data_header_bytes, has_fin, has_length, has_offset, header_kind, header_numbers, header_words, is_stream, number_if};
ghost use Rattle.quic_c_words.specs.Shown.{rules_in};
ghost use Rattle.quic_c_words.specs.declared.words.CFrame.{CFrame};

use quic_base::varint::{split_var, var_size};
use quic_c_words::words::CFrame;
use quic_frames::frame::{Rules, is_known_type};
use quic_results::results::Failure;

// The greatest offset of data.
const MAX_OFFSET: u64 = (1 << 62) - 1;

// Whether a type is that of a STREAM.
#[inline(always)]
fn is_stream(ty: u64) -> bool
    ensures { result ≡ is_stream ty }
{
    0x07 < ty && ty < 0x10
}

// Whether an offset is written.
#[inline(always)]
fn has_offset(ty: u64) -> bool
    ensures { result ≡ has_offset ty }
{
    ty == 0x06 || is_stream(ty) && ty & 0x04 != 0
}

// Whether the length of the data is written.
#[inline(always)]
fn has_length(ty: u64) -> bool
    ensures { result ≡ has_length ty }
{
    ty == 0x06 || ty == 0x31 || is_stream(ty) && ty & 0x02 != 0
}

// Whether the stream ends with the data.
#[inline(always)]
fn has_fin(ty: u64) -> bool
    ensures { result ≡ has_fin ty }
{
    is_stream(ty) && ty & 0x01 != 0
}

// The kind of a type, or why it has no header.
#[inline(always)]
fn kind_of(ty: u64) -> Result<u16, Failure>
    ensures kind { MatchResult result (λ kind. (kind ≡ header_kind ty) × IsHeaded kind) (RefusesType ty) }
    ensures small { IfOk result (λ kind. ty < 2 ^ 16) }
{
    match ty {
        0x06 => Ok(0x06),
        0x08..=0x0f => Ok(0x08),
        0x30 | 0x31 => Ok(0x30),
        _ => Err(if is_known_type(ty) {
            Failure::Kind
        } else {
            Failure::FrameType
        }),
    }
}

// The type at the front, and what follows it.
#[inline(always)]
fn split_type(rules: Rules, bytes: &[u8]) -> Result<(u64, &[u8]), Failure>
    ensures { MatchResult result
        (λ x. BeginsWithType rules.short_types bytes.now x.0 (λ back. back ≡ x.1.now))
        (RefusesHeader rules bytes.now) }
{
    if bytes.is_empty() {
        return Err(Failure::PayloadEmpty);
    }
    let Ok((ty, rest)) = split_var(bytes) else {
        return Err(Failure::FrameEnd);
    };
    if rules.short_types && bytes.len() - rest.len() != var_size(ty) {
        return Err(Failure::FrameLongType);
    }
    Ok((ty, rest))
}

// The number at the front, or 0 if none is written, and what follows.
#[inline(always)]
fn split_if(is_written: bool, bytes: &[u8]) -> Option<(u64, &[u8])>
    ensures found { IfSome result (λ x. Takes (AreEncoded (number_if is_written x.0)) bytes.now x.1.now) }
    ensures cut { IsNone result → (n : ℕ) → NoFront (AreEncoded (number_if is_written n)) bytes.now }
    ensures none { IfSome result (λ x. is_written ≡ false → x.0 ≡ 0) }
    ensures bound { IfSome result (λ x. x.0 < 2 ^ 62) }
{
    if !is_written {
        return Some((0, bytes));
    }
    match split_var(bytes) {
        Ok((n, rest)) => Some((n, rest)),
        Err(_) => None,
    }
}

// The id, the offset and the length behind a type, and what follows them.
#[inline(always)]
fn split_numbers(ty: u64, bytes: &[u8]) -> Option<(u64, u64, u64, &[u8])>
    ensures found { IfSome result (λ x. Takes (AreEncoded (header_numbers ty x.0 x.1 x.2)) bytes.now x.3.now) }
    ensures cut { IsNone result
        → (id offset len : ℕ) → NoFront (AreEncoded (header_numbers ty id offset len)) bytes.now }
    ensures id { IfSome result (λ x. is_stream ty ≡ false → x.0 ≡ 0) }
    ensures offset { IfSome result (λ x. has_offset ty ≡ false → x.1 ≡ 0) }
    ensures far { IfSome result (λ x. x.1 < 2 ^ 62) }
    ensures long { IfSome result (λ x. x.2 < 2 ^ 62) }
{
    let (id, behind_id) = split_if(is_stream(ty), bytes)?;
    let (offset, behind_offset) = split_if(has_offset(ty), behind_id)?;
    let (len, rest) = split_if(has_length(ty), behind_offset)?;
    Some((id, offset, len, rest))
}

// How many bytes of data there are: as many as was written, or all that follow.
#[inline(always)]
fn data_len(ty: u64, written: u64, rest: &[u8]) -> usize
    requires { written < 2 ^ 62 }
    ensures value { result ≡ (if has_length ty then written else length rest.now) }
    ensures bound { result < 2 ^ 63 }
{
    if has_length(ty) {
        written as usize
    } else {
        rest.len()
    }
}

// Whether the data of a CRYPTO or STREAM end too far, and the rules forbid that.
#[inline(always)]
fn is_too_far(rules: Rules, kind: u16, offset: u64, len: usize) -> bool
    requires far { offset < 2 ^ 62 }
    requires long { len < 2 ^ 63 }
    ensures { result ≡ (rules.data_limit && (not (kind == 0x30) && ends_past offset len)) }
{
    rules.data_limit && kind != 0x30 && offset + len as u64 > MAX_OFFSET
}

// The words of the header at the front.
#[inline(always)]
fn split_header(rules: Rules, bytes: &[u8]) -> Result<CFrame, Failure>
    ensures { MatchResult result
        (λ words. GivesHeader rules bytes.now (pos words.data_offset) words)
        (RefusesHeader rules bytes.now) }
{
    let (ty, behind) = split_type(rules, bytes)?;
    let kind = kind_of(ty)?;
    let Some((id, offset, written, rest)) = split_numbers(ty, behind) else {
        return Err(Failure::FrameEnd);
    };
    let count = bytes.len() - rest.len();
    let len = data_len(ty, written, rest);
    if is_too_far(rules, kind, offset, len) {
        return Err(Failure::FrameLimit);
    }
    Ok(CFrame {
        kind,
        ty: ty as u16,
        flags: u32::from(has_fin(ty)),
        begin: 0,
        end: count + len,
        data_offset: count,
        data_len: len,
        numbers: [id, offset, 0, 0, 0],
    })
}

/// Reads the header of a STREAM, CRYPTO or DATAGRAM at the front, after which the data needn't be there (RFC 9000,
/// sections 19.6 and 19.8; RFC 9221, section 4), by the rules of these flags. It returns the header's length, at which
/// the data begin, with the words of the whole frame; if the data's length isn't written, all that follows is data. It
/// returns `PayloadEmpty` exactly if there is no byte; `FrameEnd` if the bytes end within the header; `Kind` for
/// another kind of frame, `FrameType` for an unknown type; `FrameLongType` or `FrameLimit` if a rule is broken. `out`
/// changes only if a header is returned.
#[unsafe(no_mangle)]
pub extern "C" fn quic_wire_frame_header_read_(bytes: &[u8], flags: u32, out: &mut CFrame) -> i64
    ensures answers { AnswersHeader (rules_in flags) bytes.now out.old result out.new }
{
    match split_header(Rules::of_flags(flags), bytes) {
        Ok(words) => {
            *out = words;
            words.data_offset as i64
        }
        Err(failure) => i64::from(failure.number()),
    }
}

/// A header that breaks no rule is read wherever bytes begin with one, and they begin with only one: so a call that
/// returns another result says that there is none.
pub fn one_header()
    ensures { (rules : Rules) (bytes : List ℕ) (header : Header) (count : ℕ) (before after : CFrame) (result : ℤ)
        → BeginsWithHeader rules.short_types bytes header count
        → breaks_limit rules header ≡ false
        → AnswersHeader rules bytes before result after
        → (result ≡ pos count) × (after ≡ header_words header count) }
{}

/// A header that was written is read back, whatever follows it, if its data don't break a limit that is asked for.
pub fn header_read_back()
    ensures { (rules : Rules) (words : CFrame) (last : Bool) (behind : List ℕ) (before after : CFrame) (result : ℤ)
        → HasHeader words last
        → StaysWithin rules words last behind
        → AnswersHeader rules (data_header_bytes words last ++ behind) before result after
        → IsReadBack words last behind result after }
{}
