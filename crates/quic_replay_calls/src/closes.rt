//! Closes that are written: `connection CODE TYPE REASON ROOM` and `application CODE REASON ROOM`.
use crate::words::{bytes_of, numbered, print_digits, type_of, varint};
use quic_base::varint::VarInt;
use quic_frames::frame::{ApplicationClose, ConnectionClose, FrameType};
use quic_frames::transport_error::Code;
use std::alloc::Global;
use std::test::Fail;

// Most functions here borrow the bytes that they fill, so that an early return has nothing to drop.

// Writes the bytes of a line's close.
pub(crate) fn replay(rt: &HostRuntime, line: &str) -> Result<(), Fail> {
    let mut out = Vec::new(rt.alloc());
    write_line(&mut out, rt.alloc(), line)?;
    print_digits(rt, out.as_slice())
}

// A close by the transport in that much room, which is enough.
fn write_connection(
    out: &mut Vec<u8>,
    error_code: Code,
    frame_type: Option<FrameType>,
    reason: &[u8],
    room: usize,
) -> Result<(), Fail> {
    if reason.len() as u64 >= 1 << 62 {
        return Err("a shorter reason phrase".into());
    }
    let close = ConnectionClose {
        error_code,
        frame_type,
        reason,
    };
    if close.min_len() > room {
        return Err("more room".into());
    }
    close.encode(out, room)?;
    Ok(())
}

// A close by the application.
fn write_application(
    out: &mut Vec<u8>,
    error_code: VarInt,
    reason: &[u8],
    room: usize,
) -> Result<(), Fail> {
    if reason.len() as u64 >= 1 << 62 {
        return Err("a shorter reason phrase".into());
    }
    let close = ApplicationClose { error_code, reason };
    if close.min_len() > room {
        return Err("more room".into());
    }
    close.encode(out, room)?;
    Ok(())
}

// The same for the words of a line. The reason phrase is read last, since an early return would have to drop it.
fn connection_of(
    out: &mut Vec<u8>,
    alloc: Global,
    code: &str,
    ty: &str,
    reason: &str,
    room: &str,
) -> Result<(), Fail> {
    let code = numbered(alloc, code)?;
    let ty = type_of(alloc, ty)?;
    let room = room.parse()?;
    let reason = bytes_of(alloc, reason)?;
    write_connection(out, code, ty, reason.as_slice(), room)
}

fn application_of(
    out: &mut Vec<u8>,
    alloc: Global,
    code: &str,
    reason: &str,
    room: &str,
) -> Result<(), Fail> {
    let code = varint(code)?;
    let room = room.parse()?;
    let reason = bytes_of(alloc, reason)?;
    write_application(out, code, reason.as_slice(), room)
}

fn write_words(out: &mut Vec<u8>, alloc: Global, words: &[&str]) -> Result<(), Fail> {
    match words {
        ["connection", code, ty, reason, room] => {
            connection_of(out, alloc, code, ty, reason, room)
        }
        ["application", code, reason, room] => application_of(out, alloc, code, reason, room),
        _ => Err("a close".into()),
    }
}

fn write_line(out: &mut Vec<u8>, alloc: Global, line: &str) -> Result<(), Fail> {
    let words: Vec<&str> = line.split(" ").collect(alloc)?;
    write_words(out, alloc, words.as_slice())
}
