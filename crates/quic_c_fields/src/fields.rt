//! Where each field of a frame is.
ghost use Rattle.std.specs.Prelude.{◌≡◌, ◌⊎◌, [], None, Some, pos};
ghost use Rattle.quic_frame_fields.specs.declared.frame.fault.Fault.{Fault};
ghost use Rattle.quic_frames.specs.Flags.{rules_in};
ghost use Rattle.quic_results.specs.Results.{failed, frame_failure};
ghost use Rattle.quic_results.specs.declared.results.Failure.TheVariants as failure;
ghost use Rattle.quic_fields.specs.declared.rules.Refusal.{Refusal};
ghost use Rattle.quic_fields.specs.Entry.{HasEntry, LacksEntry, stop_in_entry};
ghost use Rattle.quic_fields.specs.Rules.{refusal_text, HasSpansBy, LacksSpansBy, StopsBy};

use quic_fields::entry::entry_spans;
use quic_fields::field::{Reach, Span};
use quic_fields::rules::{frame_spans_by, reach_of};
use quic_frames::frame::Rules;
use quic_results::results::{Failure, frame_failure};

// The sizes that they must have in C.
const _: () = prove!(std::mem::size_of::<Reach>() == 32);

const _: () = prove!(std::mem::size_of::<Span>() == 32);

/// Stores where the fields of the frame at the front are, as far as `fields` reaches, and returns 1; how many they are
/// and where the frame ends, in `out`. The frame is read by the rules of these flags (`Rules::of_flags`). If none is
/// there, or it breaks a rule, it stores the fields before the one at fault, says in `out` where that is, and returns
/// why: what `quic_wire_frames_next_` returns. For an empty payload that is `PayloadEmpty`, with zeros in `out`.
#[unsafe(no_mangle)]
pub extern "C" fn quic_wire_frame_fields_(
    payload: &[u8],
    flags: u32,
    fields: &mut [Span],
    out: &mut Reach,
) -> i32
    ensures ok { result ≡ pos 1
        → HasSpansBy (rules_in flags) payload.now fields.old fields.new out.new.count out.new.end
        × StopsBy None payload.now out.new.count out.new.end (out.new.inside, out.new.numbers) }
    ensures err { (result ≡ pos 1) ⊎ (payload.now ≡ [])
        ⊎ ((reason : Refusal) × (result ≡ failed (frame_failure (refusal_text reason)))
        × LacksSpansBy (rules_in flags) payload.now fields.old fields.new out.new.count out.new.end reason
        × StopsBy (Some reason) payload.now out.new.count out.new.end (out.new.inside, out.new.numbers)) }
    ensures empty { payload.now ≡ [] → (result ≡ failed failure.PayloadEmpty) × (fields.new ≡ fields.old)
        × (out.new ≡ record { count = 0; end = 0; inside = 0; numbers = 0 }) }
{
    if payload.is_empty() {
        *out = Reach {
            count: 0,
            end: 0,
            inside: 0,
            numbers: 0,
        };
        return Failure::PayloadEmpty.number();
    }
    let (refusal, reach) = frame_spans_by(Rules::of_flags(flags), payload, fields);
    *out = reach;
    match refusal {
        None => 1,
        Some(refusal) => frame_failure(refusal.reason()).number(),
    }
}

/// The same of the entry at the front of a list of transport parameters (RFC 9000, section 18).
#[unsafe(no_mangle)]
pub extern "C" fn quic_wire_param_fields_(list: &[u8], fields: &mut [Span], out: &mut Reach) -> i32
    ensures ok { result ≡ pos 1 → HasEntry list.now fields.old fields.new out.new.count out.new.end }
    ensures err { (result ≡ pos 1) ⊎ ((reason : Fault) × (result ≡ failed failure.ParametersMalformed)
        × LacksEntry list.now fields.old fields.new out.new.count out.new.end reason) }
    ensures inside { (out.new.inside, out.new.numbers) ≡ stop_in_entry list.now }
{
    let walked = entry_spans(list, fields);
    *out = reach_of(walked);
    match walked.fault {
        None => 1,
        Some(_) => Failure::ParametersMalformed.number(),
    }
}
