//! The words of a line, and bytes that are printed.

use quic_base::coding::{BufMutExt, Codec};
use quic_base::varint::VarInt;
use quic_frames::frame::FrameType;
use std::alloc::Global;
use std::test::Fail;

// A number below 2^62.
pub(crate) fn varint(word: &str) -> Result<VarInt, Fail> {
    Ok(VarInt::from_u64(word.parse()?)?)
}

// Bytes in hexadecimal; `-` for none.
pub(crate) fn bytes_of(alloc: Global, word: &str) -> Result<Vec<u8>, Fail> {
    let digits = if word == "-" { "" } else { word };
    Ok(hex::decode(alloc, digits.as_bytes())?)
}

// Whether the word is `true`.
pub(crate) fn flag(word: &str) -> bool {
    word == "true"
}

fn read<T: Codec + Drop>(bytes: &[u8]) -> Result<T, Fail> {
    let mut left = bytes;
    Ok(T::decode(&mut left)?)
}

// A value that is read from the shortest encoding of a number, such as a code or a frame type.
pub(crate) fn numbered<T: Codec + Drop>(alloc: Global, word: &str) -> Result<T, Fail> {
    let number = varint(word)?;
    let mut bytes = Vec::new(alloc);
    bytes.write(number)?;
    read(bytes.as_slice())
}

// A type of frames; `-` for none.
pub(crate) fn type_of(alloc: Global, word: &str) -> Result<Option<FrameType>, Fail> {
    if word == "-" {
        return Ok(None);
    }
    Ok(Some(numbered(alloc, word)?))
}

// Prints bytes in hexadecimal, on their own line.
pub(crate) fn print_digits(rt: &HostRuntime, bytes: &[u8]) -> Result<(), Fail> {
    let digits = hex::encode(rt.alloc(), bytes)?;
    println!(rt; "{digits}")?;
    Ok(())
}

// The same with a size after them.
pub(crate) fn print_sized(rt: &HostRuntime, bytes: &[u8], size: usize) -> Result<(), Fail> {
    let digits = hex::encode(rt.alloc(), bytes)?;
    println!(rt; "{digits} size {size}")?;
    Ok(())
}
