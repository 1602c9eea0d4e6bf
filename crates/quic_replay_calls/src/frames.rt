//! Frames that are written by their own encoders: the frame's name and its fields.
use crate::words::{bytes_of, flag, numbered, print_digits, print_sized, varint};
use quic_base::coding::BufMutExt;
use quic_base::ids::{ConnectionId, MAX_CID_SIZE, ResetToken, StreamId};
use quic_frames::frame::{
    AckFrequency, Crypto, Datagram, FrameType, NewConnectionId, NewToken, ResetStream, StopSending,
    StreamMeta,
};
use std::alloc::Global;
use std::ops::Range;
use std::test::Fail;

// Most functions here borrow the bytes that they fill, so that they have nothing to drop when they return. They return
// the size that the frame's `size` predicted, if it has that method.

// Writes the bytes of a line's frame, and its size if the frame has `size`.
pub(crate) fn replay(rt: &HostRuntime, line: &str) -> Result<(), Fail> {
    let mut out = Vec::new(rt.alloc());
    let size = write_line(&mut out, rt.alloc(), line)?;
    print_frame(rt, out.as_slice(), size)
}

fn print_frame(rt: &HostRuntime, bytes: &[u8], size: Option<usize>) -> Result<(), Fail> {
    match size {
        Some(size) => print_sized(rt, bytes, size),
        None => print_digits(rt, bytes),
    }
}

fn reset_stream(out: &mut Vec<u8>, fields: &[&str]) -> Result<Option<usize>, Fail> {
    let [id, code, offset] = fields else {
        return Err("three fields".into());
    };
    let frame = ResetStream {
        id: StreamId::from(varint(id)?),
        error_code: varint(code)?,
        final_offset: varint(offset)?,
    };
    frame.encode(out)?;
    Ok(None)
}

fn stop_sending(out: &mut Vec<u8>, fields: &[&str]) -> Result<Option<usize>, Fail> {
    let [id, code] = fields else {
        return Err("two fields".into());
    };
    let frame = StopSending {
        id: StreamId::from(varint(id)?),
        error_code: varint(code)?,
    };
    frame.encode(out)?;
    Ok(None)
}

fn crypto(out: &mut Vec<u8>, offset: u64, bytes: &[u8]) -> Result<Option<usize>, Fail> {
    if offset >= 1 << 62 || bytes.len() as u64 >= 1 << 62 {
        return Err("a smaller number".into());
    }
    Crypto { offset, bytes }.encode(out)?;
    Ok(None)
}

fn new_token(out: &mut Vec<u8>, token: &[u8]) -> Result<Option<usize>, Fail> {
    if token.len() as u64 >= 1 << 62 {
        return Err("a shorter token".into());
    }
    let frame = NewToken { token };
    frame.encode(out)?;
    Ok(Some(frame.size()))
}

fn datagram(out: &mut Vec<u8>, with_length: bool, bytes: &[u8]) -> Result<Option<usize>, Fail> {
    if bytes.len() as u64 >= 1 << 62 {
        return Err("fewer bytes".into());
    }
    let frame = Datagram { bytes };
    frame.encode(with_length, out)?;
    Ok(Some(frame.size(with_length)))
}

fn new_connection_id(
    out: &mut Vec<u8>,
    sequence: u64,
    retire_prior_to: u64,
    id: &[u8],
    token: &[u8],
) -> Result<Option<usize>, Fail> {
    if sequence >= 1 << 62 || retire_prior_to >= 1 << 62 || id.len() > MAX_CID_SIZE {
        return Err("a smaller number".into());
    }
    let Some(token) = token.first_chunk::<16>() else {
        return Err("a longer token".into());
    };
    let frame = NewConnectionId {
        sequence,
        retire_prior_to,
        id: ConnectionId::new(id),
        reset_token: ResetToken::from(*token),
    };
    frame.encode(out)?;
    Ok(None)
}

fn ack_frequency(out: &mut Vec<u8>, fields: &[&str]) -> Result<Option<usize>, Fail> {
    let [sequence, threshold, delay, reordering] = fields else {
        return Err("four fields".into());
    };
    let frame = AckFrequency {
        sequence: varint(sequence)?,
        ack_eliciting_threshold: varint(threshold)?,
        request_max_ack_delay: varint(delay)?,
        reordering_threshold: varint(reordering)?,
    };
    frame.encode(out)?;
    Ok(None)
}

fn stream_meta(
    out: &mut Vec<u8>,
    id: StreamId,
    offsets: Range<u64>,
    fin: bool,
    with_length: bool,
) -> Result<Option<usize>, Fail> {
    let Range { start, end } = offsets;
    if start > end || end >= 1 << 62 {
        return Err("offsets in range".into());
    }
    let meta = StreamMeta {
        id,
        offsets: start..end,
        fin,
    };
    meta.encode(with_length, out)?;
    Ok(None)
}

fn frame_type(out: &mut Vec<u8>, alloc: Global, fields: &[&str]) -> Result<Option<usize>, Fail> {
    let [number] = fields else {
        return Err("a number".into());
    };
    let ty: FrameType = numbered(alloc, number)?;
    out.write(ty)?;
    Ok(None)
}

// The same for the words after the frame's name. These functions create owners of bytes last.
fn crypto_of(out: &mut Vec<u8>, alloc: Global, fields: &[&str]) -> Result<Option<usize>, Fail> {
    let [offset, bytes] = fields else {
        return Err("two fields".into());
    };
    let offset = offset.parse()?;
    let bytes = bytes_of(alloc, bytes)?;
    crypto(out, offset, bytes.as_slice())
}

fn new_token_of(out: &mut Vec<u8>, alloc: Global, fields: &[&str]) -> Result<Option<usize>, Fail> {
    let [token] = fields else {
        return Err("a token".into());
    };
    let token = bytes_of(alloc, token)?;
    new_token(out, token.as_slice())
}

fn datagram_of(out: &mut Vec<u8>, alloc: Global, fields: &[&str]) -> Result<Option<usize>, Fail> {
    let [length, bytes] = fields else {
        return Err("two fields".into());
    };
    let bytes = bytes_of(alloc, bytes)?;
    datagram(out, flag(length), bytes.as_slice())
}

fn new_connection_id_of(
    out: &mut Vec<u8>,
    alloc: Global,
    fields: &[&str],
) -> Result<Option<usize>, Fail> {
    let [sequence, retire, id, token] = fields else {
        return Err("four fields".into());
    };
    let sequence = sequence.parse()?;
    let retire = retire.parse()?;
    let id = bytes_of(alloc, id)?;
    let token = bytes_of(alloc, token)?;
    new_connection_id(out, sequence, retire, id.as_slice(), token.as_slice())
}

fn stream_meta_of(out: &mut Vec<u8>, fields: &[&str]) -> Result<Option<usize>, Fail> {
    let [id, start, end, fin, length] = fields else {
        return Err("five fields".into());
    };
    let id = StreamId::from(varint(id)?);
    let offsets = start.parse()?..end.parse()?;
    stream_meta(out, id, offsets, flag(fin), flag(length))
}

fn write_kind(
    out: &mut Vec<u8>,
    alloc: Global,
    kind: &str,
    fields: &[&str],
) -> Result<Option<usize>, Fail> {
    match kind {
        "reset_stream" => reset_stream(out, fields),
        "stop_sending" => stop_sending(out, fields),
        "crypto" => crypto_of(out, alloc, fields),
        "new_token" => new_token_of(out, alloc, fields),
        "datagram" => datagram_of(out, alloc, fields),
        "new_connection_id" => new_connection_id_of(out, alloc, fields),
        "ack_frequency" => ack_frequency(out, fields),
        "stream_meta" => stream_meta_of(out, fields),
        "type" => frame_type(out, alloc, fields),
        _ => Err("a frame".into()),
    }
}

fn write_line(out: &mut Vec<u8>, alloc: Global, line: &str) -> Result<Option<usize>, Fail> {
    let words: Vec<&str> = line.split(" ").collect(alloc)?;
    let [kind, fields @ ..] = words.as_slice() else {
        return Err("a frame".into());
    };
    write_kind(out, alloc, kind, fields)
}
