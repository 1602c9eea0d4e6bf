//! The rules that flags name, and what is reported of a frame that breaks one.
ghost use Rattle.std.specs.Prelude.{◌≡◌, ℕ, IfSome, Option, None, Some, false, true};
ghost use Rattle.quic_frame_fields.specs.Reading.{invalid};
ghost use Rattle.quic_frame_fields.specs.declared.frame.fault.Fault.{Fault};
ghost use Rattle.quic_frames.specs.Meaning.{meaning_of};
ghost use Rattle.quic_frames.specs.Rules.{breach_of, breach_text, fault_by, no_rules};
ghost use Rattle.quic_frames.specs.declared.frame.rules.Breach.{Breach};
ghost use Rattle.quic_frames.specs.Walk.{invalid_of};
ghost use Rattle.quic_c_words.specs.Shown.{is_last, rules_in};

use quic_frames::frame::{Breach, Frame, FrameType, InvalidFrame, Rules};

// All flags of rules.
const RULES: u32 = 0x20f;

/// No rules, if the flags name none. Callers read by a copy of their own then, which the compiler frees of tests.
#[inline(always)]
pub fn no_rules(flags: u32) -> Option<Rules>
    ensures { IfSome result (λ rules. (rules ≡ rules_in flags) × (rules ≡ no_rules)) }
{
    if flags & RULES != 0 {
        return None;
    }
    Some(Rules::default())
}

/// The rule that a frame breaks. Where frames aren't checked, the copy for that has no test at all.
#[inline(always)]
pub fn breach_by<const CHECKED: bool>(rules: Rules, frame: &Frame<'_>) -> Option<Breach>
    requires { CHECKED ≡ false → rules ≡ no_rules }
    ensures { result ≡ breach_of rules (meaning_of frame.now) }
{
    if CHECKED { rules.breach(frame) } else { None }
}

/// Whether a frame breaks a rule.
#[inline(always)]
pub fn is_broken(breach: Option<Breach>) -> bool
    ensures kept { result ≡ false → breach ≡ None }
    ensures broken { result ≡ true → (b : Breach) × (breach ≡ Some b) }
{
    match breach {
        Some(_) => true,
        None => false,
    }
}

/// What is reported for bytes that aren't a frame. Where frames aren't checked, that is what was found.
#[inline(always)]
pub fn reported_by<const CHECKED: bool>(rules: Rules, plain: &InvalidFrame) -> InvalidFrame
    requires { CHECKED ≡ false → rules ≡ no_rules }
    ensures { (type : Option ℕ) (reason : Fault) → invalid_of plain.now ≡ invalid type reason
        → invalid_of result ≡ invalid type (fault_by rules type reason) }
{
    if CHECKED {
        rules.reported(plain)
    } else {
        InvalidFrame {
            ty: plain.ty,
            reason: plain.reason,
        }
    }
}

/// What is reported of a frame of this type that breaks a rule.
#[inline(never)]
pub fn broken(ty: Option<FrameType>, breach: Option<Breach>) -> InvalidFrame
    ensures { (b : Breach) → breach ≡ Some b → invalid_of result ≡ record { type = ty; reason = breach_text b } }
{
    let reason = match breach {
        Some(breach) => breach.reason(),
        None => "malformed",
    };
    InvalidFrame { ty, reason }
}

// All flags of rules by which frames are written.
const WRITE_RULES: u32 = 0x20e;

/// Whether a frame is written as the last of its payload.
#[inline(always)]
pub fn is_last(flags: u32) -> bool
    ensures { result ≡ is_last flags }
{
    flags & 0x001 != 0
}

// The rule of flags that a frame breaks, where flags name rules.
#[inline(never)]
fn breach_in(flags: u32, frame: &Frame<'_>) -> Option<Breach>
    ensures { result ≡ breach_of (rules_in flags) (meaning_of frame.now) }
{
    Rules::of_flags(flags).breach(frame)
}

/// The rule of flags that a frame to be written breaks.
#[inline(always)]
pub fn breach_of_flags(flags: u32, frame: &Frame<'_>) -> Option<Breach>
    ensures { result ≡ breach_of (rules_in flags) (meaning_of frame.now) }
{
    if flags & WRITE_RULES == 0 {
        return None;
    }
    breach_in(flags, frame)
}
