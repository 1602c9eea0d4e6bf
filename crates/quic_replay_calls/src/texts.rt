//! Texts of codes, types, ids, closes and errors: what is printed, and its fields.
use crate::words::{bytes_of, numbered, type_of, varint};
use quic_base::coding::BufMutExt;
use quic_base::ids::{ConnectionId, EcnCodepoint, MAX_CID_SIZE, StreamId};
use quic_frames::frame::{ApplicationClose, ConnectionClose, FrameType};
use quic_frames::transport_error::{Code, Error};
use std::alloc::Global;
use std::test::Fail;

// Most functions here borrow the text that they fill, so that an early return has nothing to drop.

// Writes the text of a line's value, and for some values its encoded bytes.
pub(crate) fn replay(rt: &HostRuntime, line: &str) -> Result<(), Fail> {
    let mut text = String::new(rt.alloc());
    show_line(&mut text, rt.alloc(), line)?;
    println!(rt; "{text}")?;
    Ok(())
}

fn show_digits(text: &mut String, alloc: Global, bytes: &[u8]) -> Result<(), Fail> {
    let digits = hex::encode(alloc, bytes)?;
    text.push_str(digits.as_str())?;
    Ok(())
}

fn show_digits_or_none(text: &mut String, alloc: Global, bytes: &[u8]) -> Result<(), Fail> {
    if bytes.is_empty() {
        text.push_str("-")?;
        return Ok(());
    }
    show_digits(text, alloc, bytes)
}

fn show_code(text: &mut String, alloc: Global, number: &str) -> Result<(), Fail> {
    let code: Code = numbered(alloc, number)?;
    write!(text, "{code:?}: {code}")?;
    Ok(())
}

fn show_crypto(text: &mut String, alloc: Global, alert: &str) -> Result<(), Fail> {
    let code = Code::crypto(alert.parse()?);
    write!(text, "{code:?}: {code} bytes ")?;
    let mut out = Vec::new(alloc);
    out.write(code)?;
    show_digits(text, alloc, out.as_slice())
}

fn show_type(text: &mut String, alloc: Global, number: &str) -> Result<(), Fail> {
    let ty: FrameType = numbered(alloc, number)?;
    write!(text, "{ty:?}: {ty}")?;
    Ok(())
}

fn show_stream(text: &mut String, alloc: Global, number: &str) -> Result<(), Fail> {
    let id = StreamId::from(varint(number)?);
    write!(text, "{id} bytes ")?;
    let mut out = Vec::new(alloc);
    out.write(id)?;
    show_digits(text, alloc, out.as_slice())
}

fn id_of(alloc: Global, digits: &str) -> Result<ConnectionId, Fail> {
    let bytes = bytes_of(alloc, digits)?;
    if bytes.len() > MAX_CID_SIZE {
        return Err("a shorter id".into());
    }
    Ok(ConnectionId::new(bytes.as_slice()))
}

fn show_id(text: &mut String, alloc: Global, digits: &str) -> Result<(), Fail> {
    let id = id_of(alloc, digits)?;
    write!(text, "{id} {id:?}")?;
    Ok(())
}

// An id after its length, and what remains.
fn show_long_id(text: &mut String, alloc: Global, bytes: &[u8]) -> Result<(), Fail> {
    let mut left = bytes;
    match ConnectionId::decode_long(&mut left) {
        Some(id) => write!(text, "{id} left ")?,
        None => text.push_str("None left ")?,
    }
    show_digits_or_none(text, alloc, left)
}

fn show_long_id_of(text: &mut String, alloc: Global, digits: &str) -> Result<(), Fail> {
    let bytes = bytes_of(alloc, digits)?;
    show_long_id(text, alloc, bytes.as_slice())
}

fn show_order(text: &mut String, alloc: Global, one: &str, other: &str) -> Result<(), Fail> {
    let order = id_of(alloc, one)?.cmp(&id_of(alloc, other)?);
    write!(text, "{order:?}")?;
    Ok(())
}

fn show_codepoint(text: &mut String, bits: &str) -> Result<(), Fail> {
    let codepoint = EcnCodepoint::from_bits(bits.parse()?);
    write!(text, "{codepoint:?}")?;
    Ok(())
}

fn write_close(out: &mut Vec<u8>, close: &ConnectionClose<'_>) -> Result<(), Fail> {
    if close.reason.len() > 1000 {
        return Err("a shorter reason phrase".into());
    }
    if close.min_len() > 1200 {
        return Err("more room".into());
    }
    close.encode(out, 1200)?;
    Ok(())
}

// An error, and the bytes of the close that reports it.
fn show_error(text: &mut String, alloc: Global, error: &Error) -> Result<(), Fail> {
    write!(text, "{error} | close ")?;
    let mut out = Vec::new(alloc);
    write_close(&mut out, &ConnectionClose::from(error))?;
    show_digits(text, alloc, out.as_slice())
}

fn show_error_of(
    text: &mut String,
    alloc: Global,
    code: &str,
    ty: &str,
    line: &str,
) -> Result<(), Fail> {
    let code = numbered(alloc, code)?;
    let ty = type_of(alloc, ty)?;
    let mut error = Error::with_text(alloc, code, reason_of(line)?)?;
    error.frame = ty;
    show_error(text, alloc, &error)
}

// The rest of a line after its third word.
fn reason_of(line: &str) -> Result<&str, Fail> {
    let mut left = line;
    for _ in 0..3 {
        let Some((_, rest)) = left.split_once(" ") else {
            return Err("a reason phrase".into());
        };
        left = rest;
    }
    Ok(left)
}

fn show_connection(
    text: &mut String,
    alloc: Global,
    code: &str,
    ty: &str,
    reason: &str,
) -> Result<(), Fail> {
    let error_code = numbered(alloc, code)?;
    let frame_type = type_of(alloc, ty)?;
    let reason = bytes_of(alloc, reason)?;
    let close = ConnectionClose {
        error_code,
        frame_type,
        reason: reason.as_slice(),
    };
    write!(text, "{close}")?;
    Ok(())
}

fn show_application(
    text: &mut String,
    alloc: Global,
    code: &str,
    reason: &str,
) -> Result<(), Fail> {
    let error_code = varint(code)?;
    let reason = bytes_of(alloc, reason)?;
    let close = ApplicationClose {
        error_code,
        reason: reason.as_slice(),
    };
    write!(text, "{close}")?;
    Ok(())
}

fn show_close(text: &mut String, alloc: Global, fields: &[&str]) -> Result<(), Fail> {
    match fields {
        ["connection", code, ty, reason] => show_connection(text, alloc, code, ty, reason),
        ["application", code, reason] => show_application(text, alloc, code, reason),
        _ => Err("a close".into()),
    }
}

// The texts of a value that a line has in one field.
fn show_field(text: &mut String, alloc: Global, kind: &str, field: &str) -> Result<(), Fail> {
    match kind {
        "code" => show_code(text, alloc, field),
        "crypto" => show_crypto(text, alloc, field),
        "frametype" => show_type(text, alloc, field),
        "stream" => show_stream(text, alloc, field),
        "cid" => show_id(text, alloc, field),
        "decode_long" => show_long_id_of(text, alloc, field),
        "ecn" => show_codepoint(text, field),
        _ => Err("a value".into()),
    }
}

fn show_line(text: &mut String, alloc: Global, line: &str) -> Result<(), Fail> {
    let words: Vec<&str> = line.split(" ").collect(alloc)?;
    show_words(text, alloc, words.as_slice(), line)
}

fn show_words(text: &mut String, alloc: Global, words: &[&str], line: &str) -> Result<(), Fail> {
    match words {
        ["error", code, ty, ..] => show_error_of(text, alloc, code, ty, line),
        ["close", fields @ ..] => show_close(text, alloc, fields),
        ["order", one, other] => show_order(text, alloc, one, other),
        [kind, field] => show_field(text, alloc, kind, field),
        _ => Err("a value".into()),
    }
}
