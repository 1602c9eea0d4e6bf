//! Reads the first range of an acknowledgement from any bytes (RFC 9000, section 19.3.1).
ghost use Rattle.std.specs.Prelude.{◌≡◌, ◌⊎◌, ◌-◌, ◌<◌, IfErr, IfOk, length, drop};
ghost use Rattle.quic_frame_fields.specs.Acks.{fault_of};
ghost use Rattle.quic_frame_fields.specs.FirstRange.{BeginsWithRange, RangeStops, SplitsRanges};
ghost use Rattle.quic_frame_fields.specs.Refusal.{AreNoBlocks};

use super::ack::AckError;
use super::fault::Fault;
use super::field;

/// One step of `AckIter` on any bytes (RFC 9000, section 19.3.1). Returns the least number of the range that ends with
/// `greatest`, the greatest number of the next range, and the blocks of that range and of those below it. If no byte
/// remains, there is no next range, and its number is 0. It is an error exactly when the bytes don't begin with a
/// block, or when more bytes follow it and don't begin with a gap. What follows the gap isn't read. It doesn't
/// allocate.
#[inline(always)]
pub fn split_first_range(greatest: u64, blocks: &[u8]) -> Result<(u64, u64, &[u8]), AckError>
    ensures begins { IfOk result (λ x. BeginsWithRange greatest blocks.now x.0 x.1 x.2.now) }
    ensures stops { IfErr result (λ e. RangeStops greatest blocks.now (fault_of e)) }

    // The remaining bytes are the end of the given ones, and shorter.
    ensures shorter { IfOk result (λ x. length x.2.now < length blocks.now) }
    ensures left { IfOk result (λ x. drop (length blocks.now - length x.2.now) blocks.now ≡ x.2.now) }

    // The ranges of an ACK's blocks are the first one and those of the remaining bytes; bytes that are rejected aren't
    // blocks.
    ensures ranges { IfOk result (λ x. SplitsRanges greatest blocks.now x.0 x.1 x.2.now) }
    ensures refused { IfErr result (λ e. AreNoBlocks greatest blocks.now (fault_of e)) }
{
    match field::checked_range(greatest, blocks) {
        Ok((least, next, rest)) => Ok((least, next, rest)),
        Err(fault) => Err(reported(fault)),
    }
}

// The error for a number that is cut off or too large.
fn reported(fault: Fault) -> AckError
    requires { (fault ≡ Fault.UnexpectedEnd) ⊎ (fault ≡ Fault.Malformed) }
    ensures { fault_of result ≡ fault }
{
    match fault {
        Fault::Malformed => AckError::Malformed,
        _ => AckError::UnexpectedEnd,
    }
}
