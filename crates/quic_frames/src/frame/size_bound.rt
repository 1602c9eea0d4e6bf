//! The greatest length of frames, without their data.
ghost use Rattle.std.specs.Prelude.{◌≡◌, ◌≤◌, ◌+◌, ℕ, [], List, length, false};
ghost use Rattle.quic_frames.specs.Meaning.{meaning_of};
ghost use Rattle.quic_frame_fields.specs.Payload.{Meaning};
ghost use Rattle.quic_frame_fields.specs.Shortest.{shortest_frame};
ghost use Rattle.quic_frames.specs.declared.frame.Frame.TheVariants as frames;
ghost use Rattle.quic_frame_fields.specs.declared.frame.close.Close.TheVariants as closes;

use super::{
    ApplicationClose, ConnectionClose, Crypto, Datagram, NewConnectionId, ResetStream, StopSending,
    Stream,
};
use quic_base::ids::{ConnectionId, MAX_CID_SIZE, RESET_TOKEN_SIZE, ResetToken};

/// A frame whose encoded size, without its data or reason phrase, has a bound.
pub trait FrameStruct {
    /// The greatest size of the frame's shortest encoding in bytes, without its data or reason phrase, but with the
    /// length of the data.
    const SIZE_BOUND: usize;

    ghost most: { ℕ };

    ghost says: { Self → Meaning };

    ghost content: { Self → List ℕ };

    /// The bound, which holds for this frame.
    fn bound(&self) -> usize
        ensures value { result ≡ most }
        ensures bounds { length (shortest_frame false (says self.now)) ≤ most + length (content self.now) };
}

impl FrameStruct for ConnectionClose<'_> {
    const SIZE_BOUND: usize = 1 + 8 + 8 + 8; // type, code, type of the frame, length

    ghost most = { 25 };

    ghost says = { λ c. meaning_of (frames.Close (closes.Connection c)) };

    ghost content = { λ c. c.reason.now };

    #[tactic(auto, using(crate::proofs::SizeBounds::connection_close_bound))]
    fn bound(&self) -> usize {
        Self::SIZE_BOUND
    }
}

impl FrameStruct for ApplicationClose<'_> {
    const SIZE_BOUND: usize = 1 + 8 + 8; // type, code, length

    ghost most = { 17 };

    ghost says = { λ c. meaning_of (frames.Close (closes.Application c)) };

    ghost content = { λ c. c.reason.now };

    #[tactic(auto, using(crate::proofs::SizeBounds::application_close_bound))]
    fn bound(&self) -> usize {
        Self::SIZE_BOUND
    }
}

impl FrameStruct for Stream<'_> {
    const SIZE_BOUND: usize = 1 + 8 + 8 + 8; // type, stream, offset, length

    ghost most = { 25 };

    ghost says = { λ s. meaning_of (frames.Stream s) };

    ghost content = { λ s. s.bytes.now };

    #[tactic(auto, using(crate::proofs::SizeBounds::stream_bound))]
    fn bound(&self) -> usize {
        Self::SIZE_BOUND
    }
}

impl FrameStruct for ResetStream {
    const SIZE_BOUND: usize = 1 + 8 + 8 + 8; // type, stream, code, final size

    ghost most = { 25 };

    ghost says = { λ r. meaning_of (frames.ResetStream r) };

    ghost content = { λ r. [] };

    #[tactic(auto, using(crate::proofs::SizeBounds::reset_bound))]
    fn bound(&self) -> usize {
        Self::SIZE_BOUND
    }
}

impl FrameStruct for StopSending {
    const SIZE_BOUND: usize = 1 + 8 + 8; // type, stream, code

    ghost most = { 17 };

    ghost says = { λ s. meaning_of (frames.StopSending s) };

    ghost content = { λ s. [] };

    #[tactic(auto, using(crate::proofs::SizeBounds::stop_bound))]
    fn bound(&self) -> usize {
        Self::SIZE_BOUND
    }
}

impl FrameStruct for NewConnectionId {
    const SIZE_BOUND: usize = 1 + 8 + 8 + 1 + MAX_CID_SIZE + RESET_TOKEN_SIZE;

    ghost most = { 54 };

    ghost says = { λ n. meaning_of (frames.NewConnectionId n) };

    ghost content = { λ n. [] };

    #[tactic(auto, using(crate::proofs::SizeBounds::new_id_bound))]
    fn bound(&self) -> usize {
        has_bounds(self.id, self.reset_token);
        Self::SIZE_BOUND
    }
}

// Proves the bounds of an id's and a token's length. It does nothing at run time.
fn has_bounds(id: ConnectionId, token: ResetToken)
    ensures id { length id ≤ 20 }
    ensures token { length token ≡ 16 }
{}

impl FrameStruct for Datagram<'_> {
    const SIZE_BOUND: usize = 1 + 8;

    ghost most = { 9 };

    ghost says = { λ d. meaning_of (frames.Datagram d) };

    ghost content = { λ d. d.bytes.now };

    #[tactic(auto, using(crate::proofs::SizeBounds::datagram_bound))]
    fn bound(&self) -> usize {
        Self::SIZE_BOUND
    }
}

impl FrameStruct for Crypto<'_> {
    const SIZE_BOUND: usize = Crypto::SIZE_BOUND;

    ghost most = { 17 };

    ghost says = { λ c. meaning_of (frames.Crypto c) };

    ghost content = { λ c. c.bytes.now };

    #[tactic(auto, using(crate::proofs::SizeBounds::crypto_bound))]
    fn bound(&self) -> usize {
        <Self as FrameStruct>::SIZE_BOUND
    }
}

/// The greatest size of a RETIRE_CONNECTION_ID in bytes.
pub const RETIRE_CONNECTION_ID_SIZE_BOUND: usize = 1 + 8;
