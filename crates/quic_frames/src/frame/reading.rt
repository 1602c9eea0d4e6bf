//! The fields of each type of frame.
ghost use Rattle.std.specs.Prelude.{◌≡◌, ◌≢◌, ◌≤◌, ◌↔◌, Bool, None, IfOk, IsTrue, length, if◌then◌else◌};
ghost use Rattle.quic_frame_fields.specs.Table as table;
ghost use Rattle.quic_frames.specs.Found.{GivesFrame};
ghost use Rattle.quic_frames.specs.InRange.{HasNoTypeZero};
ghost use Rattle.quic_frames.specs.Meaning.{meaning_of};
ghost use Rattle.quic_frames.specs.declared.frame.Frame.TheVariants as frames;
ghost use Rattle.quic_frame_fields.specs.Reading.{Gives, row_at, frame_at};

use super::{
    Ack, AckFrequency, ApplicationClose, Close, ConnectionClose, Crypto, Datagram, EcnCounts,
    Frame, FrameType, NewConnectionId, NewToken, ResetStream, StopSending, Stream, field,
};
use crate::transport_error::Code;
use quic_base::ids::{ConnectionId, Dir, ResetToken, StreamId};
use quic_base::varint::{VarInt, split_var_by_word, split_var_mostly_one_byte};
use quic_frame_fields::frame::fault::Fault;
use quic_frame_fields::frame::field::blocks;

// An ACK, with counts or without. Both are read by one body, so that reading a frame stays small enough to be inlined
// into its callers.
#[tactic(auto, unfolding(quic_frame_fields::specs::Reading::row_at, quic_frame_fields::specs::Reading::varint_at))]
#[inline(always)]
fn read_ack(has_counts: bool, bytes: &[u8]) -> Result<(Frame<'_>, &[u8]), Fault>
    ensures { GivesFrame (λ rest. rest.now) bytes.now result
        (row_at (if has_counts then table.ack_ecn_row else table.ack_row) bytes.now) }
{
    let (largest, rest) = split_var_by_word(bytes)?;
    let (delay, rest) = split_var_by_word(rest)?;
    let (blocks, rest) = blocks(largest, rest)?;
    if !has_counts {
        let ack = Ack::of_blocks(largest, delay, blocks, None);
        return Ok((Frame::Ack(ack), rest));
    }
    let (ect0, rest) = split_var_mostly_one_byte(rest)?;
    let (ect1, rest) = split_var_mostly_one_byte(rest)?;
    let (ce, rest) = split_var_mostly_one_byte(rest)?;
    let ecn = EcnCounts { ect0, ect1, ce };
    let ack = Ack::of_blocks(largest, delay, blocks, Some(ecn));
    Ok((Frame::Ack(ack), rest))
}

// The end of a stream by its sender. It is read by a call that doesn't return a whole frame. So reading a frame stays
// small enough to be inlined into its callers, and no frame is prepared for the call to fill.
#[tactic(auto, unfolding(quic_frame_fields::specs::Reading::row_at, quic_frame_fields::specs::Reading::varint_at))]
#[inline(never)]
fn reset_stream(bytes: &[u8]) -> Result<(ResetStream, &[u8]), Fault>
    ensures { Gives (λ x. (meaning_of (frames.ResetStream x.0), x.1.now)) result
        (row_at table.reset_stream_row bytes.now) }
{
    let (id, rest) = split_var_by_word(bytes)?;
    let (error_code, rest) = split_var_by_word(rest)?;
    let (final_offset, rest) = split_var_by_word(rest)?;
    let reset = ResetStream {
        id: StreamId::from(VarInt::from_u64_unchecked(id)),
        error_code: VarInt::from_u64_unchecked(error_code),
        final_offset: VarInt::from_u64_unchecked(final_offset),
    };
    Ok((reset, rest))
}

#[inline(always)]
fn read_reset_stream(bytes: &[u8]) -> Result<(Frame<'_>, &[u8]), Fault>
    ensures { GivesFrame (λ rest. rest.now) bytes.now result (row_at table.reset_stream_row bytes.now) }
{
    match reset_stream(bytes) {
        Ok((reset, rest)) => Ok((Frame::ResetStream(reset), rest)),
        Err(fault) => Err(fault),
    }
}

// The end of a stream by its receiver, read by a call for the same reasons.
#[tactic(auto, unfolding(quic_frame_fields::specs::Reading::row_at, quic_frame_fields::specs::Reading::varint_at))]
#[inline(never)]
fn stop_sending(bytes: &[u8]) -> Result<(StopSending, &[u8]), Fault>
    ensures { Gives (λ x. (meaning_of (frames.StopSending x.0), x.1.now)) result
        (row_at table.stop_sending_row bytes.now) }
{
    let (id, rest) = split_var_by_word(bytes)?;
    let (error_code, rest) = split_var_by_word(rest)?;
    let stop = StopSending {
        id: StreamId::from(VarInt::from_u64_unchecked(id)),
        error_code: VarInt::from_u64_unchecked(error_code),
    };
    Ok((stop, rest))
}

#[inline(always)]
fn read_stop_sending(bytes: &[u8]) -> Result<(Frame<'_>, &[u8]), Fault>
    ensures { GivesFrame (λ rest. rest.now) bytes.now result (row_at table.stop_sending_row bytes.now) }
{
    match stop_sending(bytes) {
        Ok((stop, rest)) => Ok((Frame::StopSending(stop), rest)),
        Err(fault) => Err(fault),
    }
}

#[tactic(auto, unfolding(quic_frame_fields::specs::Reading::row_at))]
#[inline(always)]
fn read_crypto(bytes: &[u8]) -> Result<(Frame<'_>, &[u8]), Fault>
    ensures { GivesFrame (λ rest. rest.now) bytes.now result (row_at table.crypto_row bytes.now) }
{
    let (offset, rest) = field::number(bytes)?;
    let (bytes, rest) = field::counted(rest)?;
    Ok((Frame::Crypto(Crypto { offset, bytes }), rest))
}

#[tactic(auto, unfolding(quic_frame_fields::specs::Reading::row_at, quic_frame_fields::specs::Reading::varint_at))]
#[inline(always)]
fn read_new_token(bytes: &[u8]) -> Result<(Frame<'_>, &[u8]), Fault>
    ensures { GivesFrame (λ rest. rest.now) bytes.now result (row_at table.new_token_row bytes.now) }
{
    let (token, rest) = field::counted(bytes)?;
    Ok((Frame::NewToken(NewToken { token }), rest))
}

#[tactic(auto, unfolding(quic_frame_fields::specs::Reading::row_at, quic_frame_fields::specs::Reading::varint_at))]
#[inline(always)]
fn read_stream(
    has_offset: bool,
    has_length: bool,
    fin: bool,
    bytes: &[u8],
) -> Result<(Frame<'_>, &[u8]), Fault>
    ensures { GivesFrame (λ rest. rest.now) bytes.now result
        (row_at (table.stream_row has_offset has_length fin) bytes.now) }
{
    let (id, rest) = split_var_by_word(bytes)?;
    let (offset, rest) = field::offset(has_offset, rest)?;
    let (bytes, rest) = field::near_data(has_length, rest)?;
    let stream = Stream {
        id: StreamId::from(VarInt::from_u64_unchecked(id)),
        offset,
        fin,
        bytes,
    };
    Ok((Frame::Stream(stream), rest))
}

// The frames that set a limit, and those that say that one was reached. All begin with a number. They are read by one
// body and by a call, so that reading a frame stays small enough to be inlined into its callers.
#[tactic(auto, unfolding(quic_frame_fields::specs::Reading::frame_at, quic_frame_fields::specs::Reading::row_at))]
#[inline(always)]
fn read_limit(ty: u64, bytes: &[u8]) -> Result<(Frame<'_>, &[u8]), Fault>
    requires limit { (0x10 ≤ ty) × (ty ≤ 0x17) }
    ensures { GivesFrame (λ rest. rest.now) bytes.now result (frame_at ty bytes.now) }
{
    let (first, rest) = field::number(bytes)?;
    let number = VarInt::from_u64_unchecked(first);
    if ty == 0x11 || ty == 0x15 {
        let (offset, rest) = field::number(rest)?;
        let id = StreamId::from(number);
        if ty == 0x11 {
            return Ok((Frame::MaxStreamData { id, offset }, rest));
        }
        return Ok((Frame::StreamDataBlocked { id, offset }, rest));
    }
    let dir = if ty & 1 == 0 { Dir::Bi } else { Dir::Uni };
    let frame = match ty {
        0x10 => Frame::MaxData(number),
        0x12 | 0x13 => Frame::MaxStreams { dir, count: first },
        0x14 => Frame::DataBlocked { offset: first },
        _ => Frame::StreamsBlocked { dir, limit: first },
    };
    Ok((frame, rest))
}

// A connection id of these bytes. It is copied by a call, so that reading a frame stays small enough to be inlined into
// its callers.
#[inline(never)]
fn id_of(bytes: &[u8]) -> ConnectionId
    requires { length bytes.now ≤ 20 }
    ensures { result ≡ bytes.now }
{
    ConnectionId::new(bytes)
}

// Another id, read by a call for the same reasons.
#[tactic(auto, unfolding(quic_frame_fields::specs::Reading::row_at, quic_frame_fields::specs::Reading::varint_at))]
#[inline(never)]
fn new_connection_id(bytes: &[u8]) -> Result<(NewConnectionId, &[u8]), Fault>
    ensures { Gives (λ x. (meaning_of (frames.NewConnectionId x.0), x.1.now)) result
        (row_at table.new_connection_id_row bytes.now) }
{
    let (sequence, rest) = split_var_mostly_one_byte(bytes)?;
    let (retire_prior_to, rest) = split_var_mostly_one_byte(rest)?;
    if retire_prior_to > sequence {
        return Err(Fault::Malformed);
    }
    let (id, rest) = field::connection_id(rest)?;
    let (reset_token, rest) = field::reset_token(rest)?;
    let issued = NewConnectionId {
        sequence,
        retire_prior_to,
        id: id_of(id),
        reset_token: ResetToken::from(reset_token),
    };
    Ok((issued, rest))
}

#[inline(always)]
fn read_new_connection_id(bytes: &[u8]) -> Result<(Frame<'_>, &[u8]), Fault>
    ensures { GivesFrame (λ rest. rest.now) bytes.now result (row_at table.new_connection_id_row bytes.now) }
{
    match new_connection_id(bytes) {
        Ok((issued, rest)) => Ok((Frame::NewConnectionId(issued), rest)),
        Err(fault) => Err(fault),
    }
}

#[tactic(auto, unfolding(quic_frame_fields::specs::Reading::row_at))]
#[inline(always)]
fn read_retire_connection_id(bytes: &[u8]) -> Result<(Frame<'_>, &[u8]), Fault>
    ensures { GivesFrame (λ rest. rest.now) bytes.now result
        (row_at table.retire_connection_id_row bytes.now) }
{
    let (sequence, rest) = field::number(bytes)?;
    Ok((Frame::RetireConnectionId { sequence }, rest))
}

// The eight bytes of PATH_CHALLENGE or PATH_RESPONSE.
#[tactic(auto, unfolding(quic_frame_fields::specs::Reading::frame_at, quic_frame_fields::specs::Reading::row_at, quic_frame_fields::specs::Reading::varint_at))]
#[inline(always)]
fn read_path(ty: u64, bytes: &[u8]) -> Result<(Frame<'_>, &[u8]), Fault>
    requires either { (0x1a ≤ ty) × (ty ≤ 0x1b) }
    ensures { GivesFrame (λ rest. rest.now) bytes.now result (frame_at ty bytes.now) }
{
    let (token, rest) = field::eight(bytes)?;
    if ty == 0x1a {
        return Ok((Frame::PathChallenge(token), rest));
    }
    Ok((Frame::PathResponse(token), rest))
}

// A close by the transport or by the application: both begin with an error code and end with a reason phrase. It is
// read by a call, so that reading a frame stays small enough to be inlined into its callers.
#[tactic(auto, unfolding(quic_frame_fields::specs::Reading::frame_at, quic_frame_fields::specs::Reading::row_at, quic_frame_fields::specs::Reading::varint_at))]
#[inline(never)]
fn close(ty: u64, bytes: &[u8]) -> Result<(Close<'_>, &[u8]), Fault>
    requires either { (0x1c ≤ ty) × (ty ≤ 0x1d) }
    ensures gives { Gives (λ x. (meaning_of (frames.Close x.0), x.1.now)) result (frame_at ty bytes.now) }
    ensures apart { IfOk result (λ x. HasNoTypeZero (frames.Close x.0)) }
{
    let (error_code, rest) = split_var_by_word(bytes)?;
    if ty == 0x1d {
        let (reason, rest) = field::counted(rest)?;
        let close = ApplicationClose {
            error_code: VarInt::from_u64_unchecked(error_code),
            reason,
        };
        return Ok((Close::Application(close), rest));
    }
    let (ty, rest) = split_var_by_word(rest)?;
    let (reason, rest) = field::counted(rest)?;
    let close = ConnectionClose {
        error_code: Code::of(error_code),
        frame_type: FrameType::or_none(ty),
        reason,
    };
    Ok((Close::Connection(close), rest))
}

#[inline(always)]
fn read_close(ty: u64, bytes: &[u8]) -> Result<(Frame<'_>, &[u8]), Fault>
    requires either { (0x1c ≤ ty) × (ty ≤ 0x1d) }
    ensures { GivesFrame (λ rest. rest.now) bytes.now result (frame_at ty bytes.now) }
{
    match close(ty, bytes) {
        Ok((close, rest)) => Ok((Frame::Close(close), rest)),
        Err(fault) => Err(fault),
    }
}

#[tactic(auto, unfolding(quic_frame_fields::specs::Reading::row_at, quic_frame_fields::specs::Reading::varint_at))]
#[inline(always)]
fn read_datagram(has_length: bool, bytes: &[u8]) -> Result<(Frame<'_>, &[u8]), Fault>
    ensures { GivesFrame (λ rest. rest.now) bytes.now result (row_at (table.datagram_row has_length) bytes.now) }
{
    let (bytes, rest) = field::data(has_length, bytes)?;
    Ok((Frame::Datagram(Datagram { bytes }), rest))
}

// ACK_FREQUENCY, read by a call for the same reason.
#[tactic(auto, unfolding(quic_frame_fields::specs::Reading::row_at))]
#[inline(never)]
fn ack_frequency(bytes: &[u8]) -> Result<(AckFrequency, &[u8]), Fault>
    ensures { Gives (λ x. (meaning_of (frames.AckFrequency x.0), x.1.now)) result
        (row_at table.ack_frequency_row bytes.now) }
{
    let (sequence, rest) = field::number(bytes)?;
    let (threshold, rest) = field::number(rest)?;
    let (delay, rest) = field::number(rest)?;
    let (reordering, rest) = field::number(rest)?;
    let frequency = AckFrequency {
        sequence: VarInt::from_u64_unchecked(sequence),
        ack_eliciting_threshold: VarInt::from_u64_unchecked(threshold),
        request_max_ack_delay: VarInt::from_u64_unchecked(delay),
        reordering_threshold: VarInt::from_u64_unchecked(reordering),
    };
    Ok((frequency, rest))
}

#[inline(always)]
fn read_ack_frequency(bytes: &[u8]) -> Result<(Frame<'_>, &[u8]), Fault>
    ensures { GivesFrame (λ rest. rest.now) bytes.now result (row_at table.ack_frequency_row bytes.now) }
{
    match ack_frequency(bytes) {
        Ok((frequency, rest)) => Ok((Frame::AckFrequency(frequency), rest)),
        Err(fault) => Err(fault),
    }
}

/// The frame of this type whose fields begin here, and what follows it.
#[tactic(auto, unfolding(quic_frame_fields::specs::Reading::frame_at, quic_frame_fields::specs::Reading::row_at, quic_frame_fields::specs::Reading::varint_at))]
#[inline(always)]
pub(super) fn read_frame(ty: u64, bytes: &[u8]) -> Result<(Frame<'_>, &[u8]), Fault>
    ensures { GivesFrame (λ rest. rest.now) bytes.now result (frame_at ty bytes.now) }
{
    // The two ranges are compared first, since a `match` compares ranges only after single types.
    match ty {
        0x08..=0x0f => return read_stream(ty & 4 != 0, ty & 2 != 0, ty & 1 != 0, bytes),
        0x10..=0x17 => return read_limit(ty, bytes),
        _ => {}
    }
    match ty {
        0x00 => Ok((Frame::Padding, bytes)),
        0x01 => Ok((Frame::Ping, bytes)),
        0x02 | 0x03 => read_ack(ty & 1 != 0, bytes),
        0x04 => read_reset_stream(bytes),
        0x05 => read_stop_sending(bytes),
        0x06 => read_crypto(bytes),
        0x07 => read_new_token(bytes),
        0x18 => read_new_connection_id(bytes),
        0x19 => read_retire_connection_id(bytes),
        0x1a | 0x1b => read_path(ty, bytes),
        0x1c | 0x1d => read_close(ty, bytes),
        0x1e => Ok((Frame::HandshakeDone, bytes)),
        0x1f => Ok((Frame::ImmediateAck, bytes)),
        0x30 | 0x31 => read_datagram(ty & 1 != 0, bytes),
        0xaf => read_ack_frequency(bytes),
        _ => Err(Fault::InvalidFrameId),
    }
}

/// Whether a type is one of RFC 9000 (section 19), of DATAGRAM (RFC 9221) or of the ACK frequency extension.
pub fn is_known_type(ty: u64) -> bool
    ensures { IsTrue result ↔ (table.row_of ty ≢ None) }
{
    matches!(ty, 0x00..=0x1f | 0x30 | 0x31 | 0xaf)
}
