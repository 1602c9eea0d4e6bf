//! The frame at the front of some bytes.
ghost use Rattle.std.specs.Prelude.{◌≡◌};
ghost use Rattle.quic_base.specs.Number.{AreBytes};
ghost use Rattle.quic_frame_fields.specs.Reading.{found_at, is_long_type};
ghost use Rattle.quic_frames.specs.Found.{GivesFound};

use super::reading::read_frame;
use super::{Frame, FrameType, InvalidFrame};
use quic_base::varint::{split_var_mostly_one_byte, var_size};
use quic_frame_fields::frame::fault::Fault;

/// The frame at the front of some bytes.
#[derive(Drop)]
pub(super) struct FirstFrame<'a> {
    /// The type that it has there.
    pub ty: FrameType,
    /// The frame itself.
    pub frame: Frame<'a>,
    /// What follows it.
    pub rest: &'a [u8],
}

/// Reads the frame at the front of `bytes`. With `strict`, a type that is not in its shortest encoding is an error;
/// `last_type`, the type of the frame before, is reported if no type can be read.
#[inline(always)]
pub(super) fn read_typed_frame(
    strict: bool,
    last_type: Option<FrameType>,
    bytes: &[u8],
) -> Result<FirstFrame<'_>, InvalidFrame>
    ensures gives { GivesFound bytes.now result (found_at strict last_type bytes.now) }
    ensures bytes { AreBytes bytes.now }
{
    let Ok((number, rest)) = split_var_mostly_one_byte(bytes) else {
        return Err(InvalidFrame {
            ty: last_type,
            reason: Fault::UnexpectedEnd.reason(),
        });
    };
    let ty = FrameType::of(number);
    if is_long(strict, ty, bytes.len() - rest.len()) {
        let long = Some(ty);
        return Err(InvalidFrame {
            ty: long,
            reason: Fault::LongType.reason(),
        });
    }
    match read_frame(ty.into_inner(), rest) {
        Ok((frame, rest)) => Ok(FirstFrame { ty, frame, rest }),
        Err(fault) => Err(InvalidFrame {
            ty: Some(ty),
            reason: fault.reason(),
        }),
    }
}

// Whether a type that was read from `width` bytes is an error: with `strict`, if that isn't its shortest encoding.
fn is_long(strict: bool, ty: FrameType, width: usize) -> bool
    ensures { result ≡ is_long_type strict ty width }
{
    strict && width != var_size(ty.into_inner())
}
