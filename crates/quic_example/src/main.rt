//! Prints the types of a payload's frames, and its error. Of the repository's crates it names `quic_wire` alone.
#![tactic(auto)]

ghost use Rattle.quic_wire.specs.One.{ReturnsOne};
ghost use Rattle.quic_wire.specs.Payload.{IsReadingOf};
ghost use Rattle.quic_wire.specs.Reading.{IsReturnedAs};
ghost use Rattle.std.specs.Prelude.{IfOk, false};

use quic_wire::calls::{PayloadError, read_payload};
use quic_wire::frame::{Frame, InvalidFrame};
use std::alloc::Global;
use std::io;

/// The frames of a payload, and the error after them if there is one: its one reading.
fn frames_of<'a>(
    alloc: Global,
    payload: &'a [u8],
) -> Result<(Vec<Frame<'a>>, Option<InvalidFrame>), PayloadError>
    ensures { IfOk result (λ x. ReturnsOne (IsReadingOf false payload.now) (IsReturnedAs x.0.items x.1)) }
{
    read_payload(alloc, payload)
}

fn main(rt: HostRuntime) -> io::Result<()> {
    if let Ok((frames, error)) = frames_of(rt.alloc(), &[0x01, 0x1e, 0x21]) {
        for frame in &frames {
            println!(rt; "{}", frame.ty())?;
        }
        if let Some(error) = error {
            println!(rt; "{}", error.reason)?;
        }
    }
    Ok(())
}
