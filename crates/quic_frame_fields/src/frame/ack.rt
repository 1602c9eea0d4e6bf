//! Acknowledgements: which packet numbers arrived (RFC 9000, section 19.3).
ghost use Rattle.std.specs.Prelude.{◌≡◌, ◌+◌, ◌<◌, ◌^◌, ℕ, List, [], Ok, Some, IfErr, IfOk};
ghost use Rattle.quic_frame_fields.specs.Field.{AreBlocks};
ghost use Rattle.quic_frame_fields.specs.Reading.{IsBlocks, blocks_left};
ghost use Rattle.quic_frame_fields.specs.Refusal.{AreNoBlocks};

use super::fault::Fault;
use super::field;
use quic_base::coding::are_bytes;
use quic_base::ids::EcnCodepoint;
use std::ops::{AddAssign, RangeInclusive};
use thiserror::Error;

/// An acknowledgement. Its blocks are a slice of the payload, and encode ranges below the greatest number.
#[derive(Clone, Copy, Debug, PartialEq, Eq)]
pub struct Ack<'a> {
    largest: u64,
    delay: u64,
    additional: &'a [u8],
    ecn: Option<EcnCounts>,
    ghost valid: { IsBlocks largest additional.now },
}

/// Why bytes are not the blocks of an acknowledgement: the first reason that a reader meets (RFC 9000, section 19.3.1).
#[derive(Clone, Copy, Debug, PartialEq, Eq, Error)]
pub enum AckError {
    /// A number is missing or cut off.
    #[error("unexpected end")]
    UnexpectedEnd,
    /// A block or a gap would go below 0.
    #[error("malformed")]
    Malformed,
}

impl<'a> Ack<'a> {
    ghost use Rattle.quic_frame_fields.specs.Acks.{parts_of, ranges_acked, ranges_left, fault_of};

    /// An acknowledgement with these fields. `blocks` must be a first block, any number of pairs of gap and block, and
    /// nothing else; the error says why it isn't. The caller must ensure that the numbers are below 2^62. It doesn't
    /// allocate.
    #[tactic(auto, using(crate::proofs::Blocks::acked))]
    pub fn from_parts(
        largest: u64,
        delay: u64,
        blocks: &'a [u8],
        ecn: Option<EcnCounts>,
    ) -> Result<Self, AckError>
        requires largest { largest < 2 ^ 62 }
        requires delay { delay < 2 ^ 62 }
        ensures parts { IfOk result
            (λ a. parts_of a ≡ record { largest = largest; delay = delay; additional = blocks.now; ecn = ecn }) }
        ensures ranges { IfOk result (λ a. AreBlocks largest (ranges_acked a) blocks.now) }
        ensures refused { IfErr result (λ e. AreNoBlocks largest blocks.now (fault_of e)) }
    {
        are_bytes(blocks);
        match field::all_blocks(largest, blocks) {
            Ok(()) => Ok(Ack {
                largest,
                delay,
                additional: blocks,
                ecn,
            }),
            Err(Fault::Malformed) => Err(AckError::Malformed),
            Err(_) => Err(AckError::UnexpectedEnd),
        }
    }

    /// The same without a check. The caller must ensure that the blocks encode ranges whose greatest number is
    /// `largest`.
    #[tactic(auto, using(crate::proofs::Blocks::read_again))]
    pub fn of_blocks(largest: u64, delay: u64, blocks: &'a [u8], ecn: Option<EcnCounts>) -> Self
        requires { (ranges : List (ℕ × ℕ)) × AreBlocks largest ranges blocks.now }
        ensures { parts_of result ≡ record { largest = largest; delay = delay; additional = blocks.now; ecn = ecn } }
    {
        Ack {
            largest,
            delay,
            additional: blocks,
            ecn,
        }
    }

    /// The greatest packet number that is acknowledged.
    pub fn largest(&self) -> u64
        ensures { result ≡ (parts_of self.now).largest }
    {
        self.largest
    }

    /// The ACK Delay field, in units of 2^`ack_delay_exponent` microseconds (RFC 9000, section 19.3).
    pub fn delay(&self) -> u64
        ensures { result ≡ (parts_of self.now).delay }
    {
        self.delay
    }

    /// The bytes of the first block and of the pairs of gap and block.
    pub fn additional(&self) -> &'a [u8]
        ensures { result.now ≡ (parts_of self.now).additional }
    {
        self.additional
    }

    /// The ECN counts, if the frame has them.
    pub fn ecn(&self) -> Option<EcnCounts>
        ensures { result ≡ (parts_of self.now).ecn }
    {
        self.ecn
    }

    /// The ranges of acknowledged numbers, the greatest first: those that the blocks encode below the greatest number
    /// (RFC 9000, section 19.3.1). It doesn't allocate.
    #[tactic(auto, using(crate::proofs::Blocks::acked))]
    pub fn iter(&self) -> AckIter<'a>
        ensures ranges { ranges_left result ≡ ranges_acked self.now }
        ensures encoded { AreBlocks (parts_of self.now).largest (ranges_left result) (parts_of self.now).additional }
    {
        are_bytes(self.additional);
        AckIter {
            largest: self.largest,
            blocks: self.additional,
        }
    }
}

/// ECN counts: how many packets were received with each codepoint (RFC 9000, section 19.3.2).
#[derive(Clone, Copy, Debug, PartialEq, Eq)]
pub struct EcnCounts {
    /// Packets marked ECT(0).
    pub ect0: u64,
    /// Packets marked ECT(1).
    pub ect1: u64,
    /// Packets marked CE.
    pub ce: u64,
}

impl EcnCounts {
    /// No packet was marked.
    pub const ZERO: EcnCounts = EcnCounts {
        ect0: 0,
        ect1: 0,
        ce: 0,
    };
}

const _: () = prove!(
    EcnCounts::ZERO.ect0 == 0 && EcnCounts::ZERO.ect1 == 0 && EcnCounts::ZERO.ce == 0
);

/// Counts one more packet with a codepoint. The caller must ensure that its count is below 2^64 - 1.
impl AddAssign<EcnCodepoint> for EcnCounts {
    ghost use Rattle.quic_frame_fields.specs.Acks.{count_of, CountsOne};
    ghost use Rattle.std.specs.Prelude.{◌<◌, ◌^◌, ◌+◌};

    ghost can_add_assign = { λ counts codepoint. count_of codepoint counts + 1 < 2 ^ 64 };

    ghost add_assign_gives = { CountsOne };

    fn add_assign(&mut self, codepoint: EcnCodepoint) {
        match codepoint {
            EcnCodepoint::Ect0 => self.ect0 += 1,
            EcnCodepoint::Ect1 => self.ect1 += 1,
            EcnCodepoint::Ce => self.ce += 1,
        }
    }
}

/// The ranges of an acknowledgement, the greatest first.
#[derive(Clone, Copy, Debug)]
pub struct AckIter<'a> {
    largest: u64,
    blocks: &'a [u8],
    ghost valid: { blocks_left largest blocks.now ≡ Ok [] },
}

impl Iterator for AckIter<'_> {
    ghost use Rattle.std.specs.Iterator.{YieldsFirstBy, item_count};
    ghost use Rattle.std.specs.Prelude.{false, IfSome};
    ghost use Rattle.std.specs.Range.{range_inclusive_exhausted};
    ghost use Rattle.quic_frame_fields.specs.Acks.{bounds_of, ranges_left};

    type Item = RangeInclusive<u64>;

    ghost next_gives = { λ old item new. YieldsFirstBy bounds_of ranges_left old item new
        × IfSome item (λ range. range_inclusive_exhausted range ≡ false) };

    ghost remaining = { item_count ranges_left };

    fn next(&mut self) -> Option<RangeInclusive<u64>> {
        if self.blocks.is_empty() {
            return None;
        }
        let greatest = self.largest;
        let (least, next, rest) = field::first_range(greatest, self.blocks);
        self.largest = next;
        self.blocks = rest;
        Some(least..=greatest)
    }
}

impl<'a> IntoIterator for &Ack<'a> {
    ghost use Rattle.quic_frame_fields.specs.Acks.{ranges_acked, ranges_left};

    ghost into_iter_gives = { λ ack it. ranges_left it ≡ ranges_acked ack.now };

    type Item = RangeInclusive<u64>;

    type IntoIter = AckIter<'a>;

    fn into_iter(self) -> AckIter<'a> {
        self.iter()
    }
}
