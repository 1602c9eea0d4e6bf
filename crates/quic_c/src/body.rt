//! Reads the body of a frame, whose type its caller has read.
ghost use Rattle.std.specs.Prelude.{◌≡◌, ◌<◌, ◌^◌};
ghost use Rattle.quic_c.specs.Body.{AnswersBody};
ghost use Rattle.quic_c_words.specs.Shown.{rules_in};

use crate::front::{refuse, show_front};
use quic_c_words::flags::{broken, is_broken};
use quic_c_words::words::{CFrame, CGap};
use quic_frames::frame::{Frame, FrameType, Rules};
use quic_results::results::Failure;

// Reads the body of a frame of this type by rules.
fn read_by(body: &[u8], ty: FrameType, rules: Rules, out: &mut CFrame, gaps: &mut [CGap]) -> i64
    requires { ty < 2 ^ 62 }
    ensures { AnswersBody rules ty body.now out.old gaps.old result out.new gaps.new }
{
    match Frame::read_body(ty, body) {
        Ok((frame, rest)) => {
            let breach = rules.breach(&frame);
            if is_broken(breach) {
                return refuse(&broken(Some(ty), breach), out);
            }
            let end = body.len() - rest.len();
            *out = show_front(end, ty.into_inner() as u16, &frame, gaps);
            end as i64
        }
        Err(plain) => refuse(&rules.reported(&plain), out),
    }
}

/// Reads the body of a frame of type `ty`, whose caller has read the type, as an extension's frame has an ACK's body
/// behind fields of its own (RFC 9000, sections 12.4 and 19). It reads by the rules of these flags what
/// `quic_wire_frame_read_` reads from the type and these bytes, except that it reads one frame of PADDING, whose body
/// is empty. It returns where the body ends, with the frame's words, whose places count from the body's front. The
/// ranges of an ACK below the first are filled into `gaps` as that call fills them. It returns `Number` exactly if `ty`
/// is 2^62 or more, and `out` doesn't change then; the reason, with the type in `out`, if the bytes don't begin with a
/// valid body of this type, the type is unknown, or the frame breaks a rule. `gaps` changes only for an ACK.
#[unsafe(no_mangle)]
pub extern "C" fn quic_wire_frame_body_read_(
    body: &[u8],
    ty: u64,
    flags: u32,
    out: &mut CFrame,
    gaps: &mut [CGap],
) -> i64
    ensures answers { AnswersBody (rules_in flags) ty body.now out.old gaps.old result out.new gaps.new }
{
    if ty >= 1 << 62 {
        return i64::from(Failure::Number.number());
    }
    read_by(body, FrameType::of(ty), Rules::of_flags(flags), out, gaps)
}
