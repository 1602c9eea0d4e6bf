//! Writes frames from words into the caller's bytes.
ghost use Rattle.std.specs.Prelude.{◌≡◌, ◌<◌, ◌≤◌, ◌^◌, ◌⊎◌, ◌↔◌, ℕ, Bool, List, [], ◌∷◌, pos, length, false, IsTrue, IfSome, IsNone, None, Some};
ghost use Rattle.quic_frame_fields.specs.Numbers.{AreNumeric};
ghost use Rattle.quic_frames.specs.declared.frame.Frame.{Frame};
ghost use Rattle.quic_frames.specs.declared.frame.Frame.TheVariants as frames;
ghost use Rattle.quic_frames.specs.InRange.{IsNoAck};
ghost use Rattle.quic_frames.specs.Meaning.{meaning_of};
ghost use Rattle.quic_frame_fields.specs.declared.frame.close.Close.TheVariants as closes;
ghost use Rattle.quic_c_write.specs.Shapes.{IsSound, FillsShape, AreDataAndToken, IsShown, LacksData, LacksDataOrToken, shape_of, token_room};
ghost use Rattle.quic_c_write.specs.Written.{BreaksRule, CanWriteFrame, DescribesNoFrame, WroteFrame, FrameNeedsMore, IsAnswer};
ghost use Rattle.quic_c_words.specs.declared.words.CFrame.{CFrame};
ghost use Rattle.quic_c_words.specs.Shown.{rules_in, is_last};
ghost use Rattle.quic_frames.specs.Rules.{breach_of, breach_text};
ghost use Rattle.quic_frames.specs.declared.frame.rules.Breach.{Breach};
ghost use Rattle.quic_results.specs.Results.{failed, frame_failure};

use crate::write_numbers::write_numbers;
use quic_base::ids::{ConnectionId, Dir, ResetToken, StreamId};
use quic_base::varint::VarInt;
use quic_c_words::flags::{breach_of_flags, is_last};
use quic_c_words::show::parts_of;
use quic_c_words::words::CFrame;
use quic_frames::frame::{
    AckFrequency, ApplicationClose, Close, ConnectionClose, Crypto, Datagram, Frame, FrameType,
    NewConnectionId, NewToken, ResetStream, StopSending, Stream,
};
use quic_frames::transport_error::Code;
use quic_results::results::{Failure, frame_failure};

fn are_varints(numbers: [u64; 5]) -> bool
    ensures { IsTrue result ↔ AreNumeric numbers }
{
    let [a, b, c, d, e] = numbers;
    let max = (1 << 62) - 1;
    a <= max && b <= max && c <= max && d <= max && e <= max
}

// Whether a frame of the kind can have these numbers and this length.
#[inline(always)]
pub(crate) fn is_sound(kind: u16, numbers: [u64; 5], len: usize) -> bool
    ensures { IsTrue result ↔ IsSound kind numbers len }
{
    let is_path = kind == 0x1a || kind == 0x1b;
    let is_open = kind == 0x08 || kind == 0x30;
    if !is_path && !are_varints(numbers) || !is_open && len >= 1 << 62 {
        return false;
    }
    let [sequence, retire, ..] = numbers;
    kind != 0x18 || retire <= sequence && 0 < len && len <= 20
}

// A number that was found to be a varint.
#[inline(always)]
fn varint(n: u64) -> VarInt
    requires { n < 2 ^ 62 }
    ensures { result ≡ n }
{
    VarInt::from_u64_unchecked(n)
}

#[inline(always)]
fn stream_id(n: u64) -> StreamId
    requires { n < 2 ^ 62 }
    ensures { result ≡ n }
{
    StreamId::from(VarInt::from_u64_unchecked(n))
}

#[inline(always)]
fn reset_stream<'a>(id: u64, code: u64, size: u64) -> Frame<'a>
    requires id { id < 2 ^ 62 }
    requires code { code < 2 ^ 62 }
    requires size { size < 2 ^ 62 }
    ensures { result ≡ frames.ResetStream (record { id = id; error_code = code; final_offset = size }) }
{
    Frame::ResetStream(ResetStream {
        id: stream_id(id),
        error_code: varint(code),
        final_offset: varint(size),
    })
}

#[inline(always)]
fn stop_sending<'a>(id: u64, code: u64) -> Frame<'a>
    requires id { id < 2 ^ 62 }
    requires code { code < 2 ^ 62 }
    ensures { result ≡ frames.StopSending (record { id = id; error_code = code }) }
{
    Frame::StopSending(StopSending {
        id: stream_id(id),
        error_code: varint(code),
    })
}

#[inline(always)]
fn ack_frequency<'a>(sequence: u64, threshold: u64, delay: u64, reordering: u64) -> Frame<'a>
    requires { AreNumeric (sequence ∷ threshold ∷ delay ∷ reordering ∷ []) }
    ensures { result ≡ frames.AckFrequency (record {
      sequence = sequence;
      ack_eliciting_threshold = threshold;
      request_max_ack_delay = delay;
      reordering_threshold = reordering;
    }) }
{
    Frame::AckFrequency(AckFrequency {
        sequence: varint(sequence),
        ack_eliciting_threshold: varint(threshold),
        request_max_ack_delay: varint(delay),
        reordering_threshold: varint(reordering),
    })
}

#[inline(always)]
fn connection_close<'a>(code: u64, ty: u64, reason: &'a [u8]) -> Frame<'a>
    requires code { code < 2 ^ 62 }
    requires ty { ty < 2 ^ 62 }
    requires reason { length reason.now < 2 ^ 62 }
    ensures { FillsShape 0x1c false (code ∷ ty ∷ 0 ∷ 0 ∷ 0 ∷ []) reason.now [] result }
{
    Frame::Close(Close::Connection(ConnectionClose {
        error_code: Code::of(code),
        frame_type: FrameType::or_none(ty),
        reason,
    }))
}

#[inline(always)]
fn application_close<'a>(code: u64, reason: &'a [u8]) -> Frame<'a>
    requires code { code < 2 ^ 62 }
    ensures { result ≡ frames.Close (closes.Application (record { error_code = code; reason = reason.entry })) }
{
    Frame::Close(Close::Application(ApplicationClose {
        error_code: varint(code),
        reason,
    }))
}

#[inline(always)]
fn stream<'a>(id: u64, offset: u64, fin: bool, bytes: &'a [u8]) -> Frame<'a>
    requires { id < 2 ^ 62 }
    ensures { result ≡ frames.Stream (record { id = id; offset = offset; fin = fin; bytes = bytes.entry }) }
{
    Frame::Stream(Stream {
        id: stream_id(id),
        offset,
        fin,
        bytes,
    })
}

#[inline(always)]
fn crypto<'a>(offset: u64, bytes: &'a [u8]) -> Frame<'a>
    ensures { result ≡ frames.Crypto (record { offset = offset; bytes = bytes.entry }) }
{
    Frame::Crypto(Crypto { offset, bytes })
}

#[inline(always)]
fn max_stream_data<'a>(id: u64, offset: u64) -> Frame<'a>
    requires { id < 2 ^ 62 }
    ensures { result ≡ frames.MaxStreamData id offset }
{
    let id = stream_id(id);
    Frame::MaxStreamData { id, offset }
}

#[inline(always)]
fn stream_data_blocked<'a>(id: u64, offset: u64) -> Frame<'a>
    requires { id < 2 ^ 62 }
    ensures { result ≡ frames.StreamDataBlocked id offset }
{
    let id = stream_id(id);
    Frame::StreamDataBlocked { id, offset }
}

#[inline(always)]
fn max_streams<'a>(dir: Dir, count: u64) -> Frame<'a>
    ensures { result ≡ frames.MaxStreams dir count }
{
    Frame::MaxStreams { dir, count }
}

#[inline(always)]
fn streams_blocked<'a>(dir: Dir, limit: u64) -> Frame<'a>
    ensures { result ≡ frames.StreamsBlocked dir limit }
{
    Frame::StreamsBlocked { dir, limit }
}

#[inline(always)]
fn new_connection_id<'a>(sequence: u64, retire: u64, id: &[u8], token: &[u8]) -> Frame<'a>
    requires few { length id.now ≤ 20 }
    requires token { length token.now ≡ 16 }
    ensures { result ≡ frames.NewConnectionId (record {
      sequence = sequence;
      retire_prior_to = retire;
      id = id.now;
      reset_token = token.now;
    }) }
{
    let mut reset_token = [0; 16];
    reset_token.copy_from_slice(token);
    Frame::NewConnectionId(NewConnectionId {
        sequence,
        retire_prior_to: retire,
        id: ConnectionId::new(id),
        reset_token: ResetToken::from(reset_token),
    })
}

// The frame of a kind with these words, of which it takes those that the kind has; `None` for an unknown kind and for
// ACK.
#[inline(always)]
pub(crate) fn frame_of<'a>(
    kind: u16,
    is_fin: bool,
    numbers: [u64; 5],
    data: &'a [u8],
    token: &[u8],
) -> Option<Frame<'a>>
    requires sound { IsSound kind numbers (length data.now) }
    requires token { length token.now ≡ token_room kind }
    ensures some { IfSome result (λ frame. FillsShape kind is_fin numbers data.now token.now frame) }
    ensures none { IsNone result → shape_of kind ≡ None }
{
    let [a, b, c, d, _] = numbers;
    match kind {
        0x00 => Some(Frame::Padding),
        0x01 => Some(Frame::Ping),
        0x04 => Some(reset_stream(a, b, c)),
        0x05 => Some(stop_sending(a, b)),
        0x06 => Some(crypto(b, data)),
        0x07 => Some(Frame::NewToken(NewToken { token: data })),
        0x08 => Some(stream(a, b, is_fin, data)),
        0x10 => Some(Frame::MaxData(varint(b))),
        0x11 => Some(max_stream_data(a, b)),
        0x12 => Some(max_streams(Dir::Bi, b)),
        0x13 => Some(max_streams(Dir::Uni, b)),
        0x14 => Some(Frame::DataBlocked { offset: b }),
        0x15 => Some(stream_data_blocked(a, b)),
        0x16 => Some(streams_blocked(Dir::Bi, b)),
        0x17 => Some(streams_blocked(Dir::Uni, b)),
        0x18 => Some(new_connection_id(a, b, data, token)),
        0x19 => Some(Frame::RetireConnectionId { sequence: a }),
        0x1a => Some(Frame::PathChallenge(a)),
        0x1b => Some(Frame::PathResponse(a)),
        0x1c => Some(connection_close(a, b, data)),
        0x1d => Some(application_close(a, data)),
        0x1e => Some(Frame::HandshakeDone),
        0x1f => Some(Frame::ImmediateAck),
        0x30 => Some(Frame::Datagram(Datagram { bytes: data })),
        0xaf => Some(ack_frequency(a, b, c, d)),
        _ => None,
    }
}

// How many bytes of a token follow the data.
#[inline(always)]
fn token_room(kind: u16) -> usize
    ensures { result ≡ token_room kind }
{
    if kind == 0x18 { 16 } else { 0 }
}

// The data at the place in the words, and the reset token after them, which only a NEW_CONNECTION_ID has. If there are
// neither, `data` isn't read.
#[inline(always)]
pub(crate) fn data_and_token<'a>(words: &CFrame, data: &'a [u8]) -> Option<(&'a [u8], &'a [u8])>
    ensures some { IfSome result (λ p. AreDataAndToken words.now data.now p.0.now p.1.now) }
    ensures none { IsNone result → LacksDataOrToken words.now data.now }
{
    let (offset, len) = (words.data_offset, words.data_len);
    let room = token_room(words.kind);
    if len == 0 && room == 0 {
        return Some((&data[..0], &data[..0]));
    }
    if offset > data.len() || len > data.len() - offset {
        return None;
    }
    let (front, back) = data[offset..].split_at(len);
    if back.len() < room {
        return None;
    }
    Some((front, &back[..room]))
}

// Whether the frame has the flags, the numbers and the length in the words.
#[inline(always)]
#[tactic(auto, using(crate::proofs::Shapes::len_is))]
pub(crate) fn is_shown(frame: &Frame<'_>, words: &CFrame) -> bool
    requires { IsNoAck frame.now }
    ensures { IsTrue result ↔ IsShown words.now frame.now }
{
    let parts = parts_of(frame);
    let numbers = parts.numbers;
    let wanted = words.numbers;
    parts.flags == words.flags && parts.data_len == words.data_len && numbers == wanted
}

// The frame that the words describe, if it can be written.
fn described<'a>(words: &CFrame, data: &'a [u8], last: bool) -> Option<Frame<'a>>
    ensures some { IfSome result (CanWriteFrame words.now data.now last) }
    ensures none { IsNone result → DescribesNoFrame words.now data.now last }
{
    let (kind, len) = (words.kind, words.data_len);
    let numbers = words.numbers;
    if !is_sound(kind, numbers, len) || !last && len >= 1 << 62 {
        return None;
    }
    let Some((bytes, token)) = data_and_token(words, data) else {
        return None;
    };
    let Some(frame) = frame_of(kind, words.flags == 1, numbers, bytes, token) else {
        return None;
    };
    if !is_shown(&frame, words) {
        return None;
    }
    frame.type_bounds();
    Some(frame)
}

// Writes a frame of any kind. It is a separate function, so that no registers are saved for one that is written
// quickly.
#[inline(never)]
fn write_any(frame: &CFrame, data: &[u8], flags: u32, out: &mut [u8], written: &mut usize) -> i32
    ensures returns { (result ≡ pos 0) ⊎ (result ≡ failed Failure.NoRoom) ⊎ (result ≡ failed Failure.Argument)
        ⊎ BreaksRule frame.now data.now flags result }
    ensures wrote { result ≡ pos 0 → WroteFrame frame.now data.now flags out.old out.new written.new }
    ensures room { result ≡ failed Failure.NoRoom → FrameNeedsMore frame.now data.now flags out.old written.new }
    ensures refused { result ≡ failed Failure.Argument → DescribesNoFrame frame.now data.now (is_last flags) }
    ensures broken { (f : Frame) (b : Breach) → CanWriteFrame frame.now data.now (is_last flags) f
        → breach_of (rules_in flags) (meaning_of f) ≡ Some b → result ≡ failed (frame_failure (breach_text b)) }
    ensures same { (result ≡ pos 0) ⊎ (out.new ≡ out.old) }
    ensures kept { (result ≡ pos 0) ⊎ (result ≡ failed Failure.NoRoom) ⊎ (written.new ≡ written.old) }
    ensures any_data { LacksData frame.now → (others : List ℕ)
        → IsAnswer frame.now others flags result out.old out.new written.new }
{
    let last = is_last(flags);
    let Some(frame) = described(frame, data, last) else {
        return Failure::Argument.number();
    };
    if let Some(breach) = breach_of_flags(flags, &frame) {
        return frame_failure(breach.reason()).number();
    }
    match frame.encode_into(last, out) {
        Ok(n) => {
            *written = n;
            0
        }
        Err(n) => {
            *written = n;
            Failure::NoRoom.number()
        }
    }
}

/// Writes the shortest encoding of the frame that the words describe at the front of `out` (RFC 9000, section 19). If
/// `flags` has 1, it is the last frame of its payload; the other flags are rules, as for the calls that read. Its data
/// are read from `data` at the place in the words; for a NEW_CONNECTION_ID they are the id, and the sixteen bytes of
/// its token follow it. If the words describe no data, or a kind that has none, neither `data` nor that place is read;
/// the words for where the frame begins and ends never are. It returns 0 with how many bytes were written, and bytes
/// after those don't change; `NoRoom` with how many are needed, if `out` has fewer; `Argument` if the words describe no
/// frame that can be written, or an ACK: ACKs are written from sets; and what a reader with the same rules reports,
/// exactly if the frame breaks one of them. `out` changes only with 0, and `written` only with 0 and `NoRoom`.
#[unsafe(no_mangle)]
pub extern "C" fn quic_wire_frame_write_(
    frame: &CFrame,
    data: &[u8],
    flags: u32,
    out: &mut [u8],
    written: &mut usize,
) -> i32
    ensures returns { (result ≡ pos 0) ⊎ (result ≡ failed Failure.NoRoom) ⊎ (result ≡ failed Failure.Argument)
        ⊎ BreaksRule frame.now data.now flags result }
    ensures wrote { result ≡ pos 0 → WroteFrame frame.now data.now flags out.old out.new written.new }
    ensures room { result ≡ failed Failure.NoRoom → FrameNeedsMore frame.now data.now flags out.old written.new }
    ensures refused { result ≡ failed Failure.Argument → DescribesNoFrame frame.now data.now (is_last flags) }
    ensures broken { (f : Frame) (b : Breach) → CanWriteFrame frame.now data.now (is_last flags) f
        → breach_of (rules_in flags) (meaning_of f) ≡ Some b → result ≡ failed (frame_failure (breach_text b)) }
    ensures same { (result ≡ pos 0) ⊎ (out.new ≡ out.old) }
    ensures kept { (result ≡ pos 0) ⊎ (result ≡ failed Failure.NoRoom) ⊎ (written.new ≡ written.old) }
    ensures any_data { LacksData frame.now → (others : List ℕ)
        → IsAnswer frame.now others flags result out.old out.new written.new }
{
    if out.len() >= 40 {
        if let Some(n) = write_numbers(frame, out) {
            *written = n;
            return 0;
        }
    }
    write_any(frame, data, flags, out, written)
}

/// Words describe one frame at most: all frames that the same words and bytes describe have the same meaning, and so
/// the same encoding. So only one answer is right for given words and bytes.
pub fn one_frame()
    ensures { (words : CFrame) (bytes : List ℕ) (last : Bool) (one other : Frame) → CanWriteFrame words bytes last one
        → CanWriteFrame words bytes last other → meaning_of one ≡ meaning_of other }
{}
