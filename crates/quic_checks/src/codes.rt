//! Codes and types of frames, read from the bytes of their numbers.

use quic_base::coding::{BufMutExt, Codec};
use quic_base::varint::VarInt;
use quic_errors::frame_type::FrameType;
use quic_errors::transport_error::Code;
use std::alloc::Global;
use std::test::Fail;

// The shortest bytes of a number.
fn encoded(alloc: Global, number: u64) -> Result<Vec<u8>, Fail> {
    let mut bytes = Vec::new(alloc);
    bytes.write(VarInt::from_u64(number)?)?;
    Ok(bytes)
}

/// The code with this number, below 2^62.
pub fn code_of(alloc: Global, number: u64) -> Result<Code, Fail> {
    let bytes = encoded(alloc, number)?;
    let mut left = bytes.as_slice();
    Ok(Code::decode(&mut left)?)
}

/// The type of frames with this number, below 2^62.
pub fn type_of(alloc: Global, number: u64) -> Result<FrameType, Fail> {
    let bytes = encoded(alloc, number)?;
    let mut left = bytes.as_slice();
    Ok(FrameType::decode(&mut left)?)
}
