//! Seals packets (RFC 9001, sections 5.3 and 5.4).
ghost use Rattle.std.specs.Prelude.{◌⊎◌, IfNone, MatchOption, ◌≡◌, ◌≢◌, ℕ, ◌+◌, ◌-◌, ◌≤◌, ◌<◌, ◌^◌, ◌++◌, length, min, vec_len, vec_capacity, IfOk, IfErr, OnErr, IsTrue, IfSome, Some, take, drop, replicate};
ghost use Rattle.quic_base.specs.Number.{AreBytes};
ghost use Rattle.quic_frames.specs.InRange.{CanFollow};
ghost use Rattle.quic_header_encode.specs.Writing.{header_size, header_bytes, place_in, IsWritable, finished, HasRoom};
ghost use Rattle.quic_packets.specs.Sealing.{SealedFrames, IsAppended, SealRefused, IsLowPart, payload_of};

use crate::keys::Keys;
use crate::pairs::PairOfKeys;
use crate::payload::{is_payload, payload_len, put_frames};
use quic_crypto::crypto::{HeaderKey, PacketKey};
use quic_frames::frame::Frame;
use quic_header_encode::encode::PartialEncode;
use quic_header_encode::header::Header;
use thiserror::Error;

/// Why a packet isn't sealed. If several of these hold, the first is reported.
#[derive(Clone, Copy, Debug, PartialEq, Eq, Error)]
pub enum SealError {
    /// The number, the payload and the tag together have fewer than four bytes and the sample. Add PADDING (RFC 9001,
    /// section 5.4.2).
    #[error("packet too short for header protection sample")]
    TooShort,
    /// The header has a length, and the number, the payload and the tag together have 2^14 bytes or more.
    #[error("packet too long for its length field")]
    TooLong,
    /// The buffer's spare room is less than the packet needs, and an allocation for more failed.
    #[error("no room in buffer")]
    NoRoom,
}

// Why a packet of these lengths isn't sealed. `payload` is its length, or 2^128 - 1 if that is greater.
fn refused(
    number: usize,
    has_len: bool,
    payload: u128,
    tag: usize,
    sample: usize,
) -> Option<SealError>
    requires { number ≤ 4 }
    ensures too_short { IfSome result (λ e. e ≡ SealError.TooShort → (len : ℕ) → payload ≡ min len (2 ^ 128 - 1)
        → number + len + tag < 4 + sample) }
    ensures too_long { IfSome result (λ e. e ≡ SealError.TooLong → (len : ℕ) → payload ≡ min len (2 ^ 128 - 1)
        → (4 + sample ≤ number + len + tag) × IsTrue has_len × (2 ^ 14 ≤ number + len + tag)) }
    ensures one { IfSome result (λ e. (e ≡ SealError.TooShort) ⊎ (e ≡ SealError.TooLong)) }
    ensures none { IfNone result ((len : ℕ) → payload ≡ min len (2 ^ 128 - 1)
        → (4 + sample ≤ number + len + tag) × (IsTrue has_len → number + len + tag < 2 ^ 14)) }
{
    let protected = payload.saturating_add(number as u128 + tag as u128);
    if protected < 4 + sample as u128 {
        return Some(SealError::TooShort);
    }
    if has_len && protected >= 1 << 14 {
        return Some(SealError::TooLong);
    }
    None
}

// Appends a header, frames and zeros for the tag.
fn write_packet(
    header: &Header,
    frames: &[Frame<'_>],
    tag: usize,
    out: &mut Vec<u8>,
) -> PartialEncode
    requires writable { IsWritable header.now }
    requires follow { CanFollow frames.now }
    requires room { vec_len out.old +
        (header_size header.now + length (payload_of frames.now) + tag) ≤ vec_capacity out.old }
    ensures items { out.new.items ≡ out.old.items
        ++ (header_bytes header.now ++ (payload_of frames.now ++ replicate tag 0)) }
    ensures len { vec_len out.new ≡ vec_len out.old + (header_size header.now + length (payload_of frames.now) + tag) }
    ensures start { result.start ≡ vec_len out.old }
    ensures header_len { result.header_len ≡ header_size header.now }
    ensures place { result.pn ≡ place_in header.now }
    ensures bytes { AreBytes (payload_of frames.now) }
{
    let Ok(partial) = header.encode(out) else {
        unreachable!()
    };
    put_frames(frames, out);
    let end = out.len() + tag;
    match out.resize(end, 0) {
        Ok(()) => partial,
        Err(_) => unreachable!(),
    }
}

// Finishes the packet at the end of a buffer.
fn finish_last<H: HeaderKey, P: PacketKey>(
    partial: PartialEncode,
    number: u64,
    keys: &Keys<H, P>,
    out: &mut Vec<u8>,
)
    requires within { partial.start ≤ vec_len out.old }
    requires room { IfSome partial.pn
        (λ pn. HasRoom pn.0 pn.1 partial.header_len (H.sample_len keys.now.header) (vec_len out.old - partial.start)) }
    requires tag { partial.header_len + P.tag_size keys.now.packet ≤ vec_len out.old - partial.start }
    ensures sealed { IfSome partial.pn
        (λ pn. out.new.items ≡ take partial.start out.old.items
        ++ H.protected keys.now.header (partial.header_len - pn.0)
        (finished pn partial.header_len (Some (P.tag_size keys.now.packet, P.sealed keys.now.packet number))
        (drop partial.start out.old.items))) }
    ensures plain_bytes { IfSome partial.pn (λ pn. AreBytes
        (finished pn partial.header_len (Some (P.tag_size keys.now.packet, P.sealed keys.now.packet number))
        (drop partial.start out.old.items))) }
{
    partial.finish(
        &mut out.as_mut_slice()[partial.start..],
        &keys.header,
        Some((number, &keys.packet)),
    );
}

// The sum, if it fits a `usize`.
fn sum(a: usize, payload: u128, c: usize) -> Option<usize>
    ensures { MatchOption result (usize.MAX < a + payload + c) (λ s. s ≡ a + payload + c) }
{
    let payload = usize::try_from(payload).ok()?;
    a.checked_add(payload)?.checked_add(c)
}

/// Appends a packet with this header, number and frames, sealed with the keys, and returns how many bytes it has (RFC
/// 9001, sections 5.3 and 5.4). The frames are written by `Frame::encode` in their shortest form, the last one as the
/// last of its payload. `out` grows at most once, after the lengths are known.
///
/// The first error that holds is reported, and `out` doesn't change then. `NoRoom` comes only if the spare room is less
/// than what would be written. The caller must ensure that `Header::encode` can write the header, that its number is
/// the low part of `number`, that `number` is below 2^62, and that there are one or more frames, which `Frame::encode`
/// can write.
pub fn seal_packet<H: HeaderKey, P: PacketKey>(
    header: &Header,
    number: u64,
    frames: &[Frame<'_>],
    keys: &Keys<H, P>,
    out: &mut Vec<u8>,
) -> Result<usize, SealError>
    requires writable { IsWritable header.now }
    requires low { IsLowPart header.now number }
    requires small { number < 2 ^ 62 }
    requires some { 0 < length frames.now }
    requires follow { CanFollow frames.now }
    ensures sealed { IfOk result (λ _. IsAppended (SealedFrames (⟦<Keys<H, P> as PairOfKeys>⟧.pair keys.now)
        header.now number frames.now) out.old.items out.new.items) }
    ensures len { IfOk result
        (λ len. len ≡ header_size header.now + length (payload_of frames.now) + P.tag_size keys.now.packet) }
    ensures unchanged { OnErr result (out.new.items ≡ out.old.items) }
    // If the lengths are rejected, `out` doesn't grow; if growing fails, its capacity stays.
    ensures untouched { IfErr result (λ e. e ≢ SealError.NoRoom → out.new ≡ out.old) }
    ensures capacity { OnErr result (vec_capacity out.new ≡ vec_capacity out.old) }
    ensures refused { IfErr result (SealRefused (⟦<Keys<H, P> as PairOfKeys>⟧.pair keys.now)
        header.now (payload_of frames.now) (vec_capacity out.old - vec_len out.old)) }
{
    let tag = keys.packet.tag_len();
    let payload = payload_len(frames);
    if let Some(e) = refused(
        header.number_size(),
        header.has_len(),
        payload,
        tag,
        keys.header.sample_size(),
    ) {
        return Err(e);
    }
    let Some(len) = sum(header.encoded_len(), payload, tag) else {
        return Err(SealError::NoRoom);
    };
    if out.reserve(len).is_err() {
        return Err(SealError::NoRoom);
    }
    is_payload(frames);
    let _before = out.as_slice().len();
    let partial = write_packet(header, frames, tag, out);
    finish_last(partial, number, keys, out);
    Ok(len)
}
