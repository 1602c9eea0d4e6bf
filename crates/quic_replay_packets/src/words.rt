//! The words of a line.
ghost use Rattle.std.specs.Prelude.{IfOk};
ghost use Rattle.quic_crypto.specs.PacketNumbers.{IsInRange};

use quic_base::ids::{ConnectionId, MAX_CID_SIZE};
use quic_packets::packet::PacketNumber;
use std::alloc::Global;
use std::test::Fail;

// Bytes in hexadecimal; `-` is none.
pub(crate) fn bytes_of(alloc: Global, word: &str) -> Result<Vec<u8>, Fail> {
    let digits = if word == "-" { "" } else { word };
    Ok(hex::decode(alloc, digits.as_bytes())?)
}

// A connection id in hexadecimal.
pub(crate) fn id(alloc: Global, word: &str) -> Result<ConnectionId, Fail> {
    let bytes = bytes_of(alloc, word)?;
    if bytes.len() > MAX_CID_SIZE {
        return Err("a shorter id".into());
    }
    Ok(ConnectionId::new(bytes.as_slice()))
}

// A truncated packet number: its kind and its value.
pub(crate) fn number(kind: &str, low: &str) -> Result<PacketNumber, Fail>
    ensures { IfOk result IsInRange }
{
    match kind {
        "U8" => Ok(PacketNumber::U8(low.parse()?)),
        "U16" => Ok(PacketNumber::U16(low.parse()?)),
        "U24" => {
            let low: u32 = low.parse()?;
            if low >= 1 << 24 {
                return Err("three bytes".into());
            }
            Ok(PacketNumber::U24(low))
        }
        "U32" => Ok(PacketNumber::U32(low.parse()?)),
        _ => Err("a packet number".into()),
    }
}
