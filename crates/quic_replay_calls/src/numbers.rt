//! Numbers that are read and written.
use crate::words::{bytes_of, print_sized};
use quic_base::coding::{BufMutExt, Codec};
use quic_base::varint::VarInt;
use std::fmt::Display;
use std::test::Fail;

// Reads a line's bytes as a varint, and as numbers of one, two, four and eight bytes.
pub(crate) fn replay_reading(rt: &HostRuntime, line: &str) -> Result<(), Fail> {
    let bytes = bytes_of(rt.alloc(), line)?;
    read_all(rt, bytes.as_slice())
}

fn read_all(rt: &HostRuntime, bytes: &[u8]) -> Result<(), Fail> {
    read_varint(rt, bytes)?;
    read_fixed::<u8>(rt, "u8", bytes)?;
    read_fixed::<u16>(rt, "u16", bytes)?;
    read_fixed::<u32>(rt, "u32", bytes)?;
    read_fixed::<u64>(rt, "u64", bytes)
}

// How many bytes are no longer left.
fn used(bytes: &[u8], left: &[u8]) -> usize {
    bytes.len().wrapping_sub(left.len())
}

fn read_varint(rt: &HostRuntime, bytes: &[u8]) -> Result<(), Fail> {
    let mut left = bytes;
    match VarInt::decode(&mut left) {
        Ok(x) => println!(rt; "{} consumed {}", x.into_inner(), used(bytes, left))?,
        Err(_) => println!(rt; "UnexpectedEnd consumed {}", used(bytes, left))?,
    }
    Ok(())
}

fn read_fixed<T: Codec + Display + Drop>(
    rt: &HostRuntime,
    name: &str,
    bytes: &[u8],
) -> Result<(), Fail> {
    let mut left = bytes;
    match T::decode(&mut left) {
        Ok(x) => println!(rt; " {name} {x} consumed {}", used(bytes, left))?,
        Err(_) => println!(rt; " {name} UnexpectedEnd consumed {}", used(bytes, left))?,
    }
    Ok(())
}

// Writes a line's number as a varint, and its size; or that it is too large.
pub(crate) fn replay_writing(rt: &HostRuntime, line: &str) -> Result<(), Fail> {
    match VarInt::from_u64(line.parse()?) {
        Ok(number) => write_number(rt, number)?,
        Err(e) => println!(rt; "{e:?} ({e})")?,
    }
    Ok(())
}

fn write_number(rt: &HostRuntime, number: VarInt) -> Result<(), Fail> {
    let mut out = Vec::new(rt.alloc());
    out.write(number)?;
    print_sized(rt, out.as_slice(), number.size())
}
