//! Payloads that are shortened.
use quic_canon::canonical::{CanonBytes, CanonError, canonical, canonical_of};
use quic_checks::Checks;
use quic_frames::frame::{FrameType, InvalidFrame};
use std::test::Fail;

// A payload, and its shortest form.
pub const ROWS: &[(&[u8], &[u8])] = &[
    (b"\x00\x08\x00a", b"\x00\x08\x00a"),
    (b"\x0a\x00\x01a\x01", b"\x0a\x00\x01a\x01"),
    (b"\x08\x00\x08", b"\x08\x00\x08"),
    (b"\x0a\x00\x01a", b"\x08\x00a"),
    (b"\x40\x00\x0a\x00\x01a", b"\x00\x08\x00a"),
    (b"\x01\x0c\x04\x00hi", b"\x01\x08\x04hi"),
];

// Whether it is the payload itself.
pub fn is_same(bytes: &CanonBytes<'_>) -> bool {
    match bytes {
        CanonBytes::Same(_) => true,
        CanonBytes::Rewritten(_) => false,
    }
}

// Whether the payload was rejected with this error.
pub fn is_refused(answer: &Result<CanonBytes<'_>, CanonError>, error: &CanonError) -> bool {
    match answer {
        Ok(_) => false,
        Err(e) => e == error,
    }
}

// The same for a payload that was to be appended.
pub fn is_not_appended(answer: &Result<(), CanonError>, error: &CanonError) -> bool {
    match answer {
        Ok(()) => false,
        Err(e) => e == error,
    }
}

// Whether these bytes were returned, as the payload itself or not.
fn is_given(answer: &Result<CanonBytes<'_>, CanonError>, least: &[u8], same: bool) -> bool {
    match answer {
        Ok(bytes) => is_same(bytes) == same && bytes.bytes() == least,
        Err(_) => false,
    }
}

#[test]
fn what_is_canonical_takes_no_memory(rt: HostRuntime) -> Result<(), Fail> {
    let mut checks = Checks::new(rt.alloc());
    for &(payload, least) in ROWS {
        if payload == least {
            checks.holds(is_given(&canonical_of(rt.alloc(), payload), least, true));
        }
    }
    checks.verdict()
}

#[test]
fn what_changes_is_written_or_wants_memory(rt: HostRuntime) -> Result<(), Fail> {
    let mut checks = Checks::new(rt.alloc());
    for &(payload, least) in ROWS {
        if payload != least {
            let answer = canonical_of(rt.alloc(), payload);
            checks.holds(
                is_given(&answer, least, false) || is_refused(&answer, &CanonError::OutOfMemory),
            );
        }
    }
    checks.verdict()
}

#[test]
fn a_refused_growth_leaves_the_vector(rt: HostRuntime) -> Result<(), Fail> {
    let mut checks = Checks::new(rt.alloc());
    for &(payload, least) in ROWS {
        let mut out = Vec::new(rt.alloc());
        let answer = canonical(payload, &mut out);
        if answer.is_ok() {
            checks.holds(out.as_slice() == least);
        } else {
            checks.holds(is_not_appended(&answer, &CanonError::OutOfMemory));
            checks.holds(out.is_empty());
        }
        // With enough room, no allocation can fail.
        if let Ok(mut out) = Vec::with_capacity(rt.alloc(), 64) {
            checks.holds(canonical(payload, &mut out).is_ok());
            checks.holds(out.as_slice() == least);
        }
    }
    checks.verdict()
}

#[test]
fn an_error_takes_no_memory(rt: HostRuntime) -> Result<(), Fail> {
    let mut checks = Checks::new(rt.alloc());
    let cut = CanonError::Invalid(InvalidFrame {
        ty: Some(FrameType::CRYPTO),
        reason: "unexpected end",
    });
    let mut out = Vec::new(rt.alloc());
    let payload = b"\x40\x01\x06\x00\x03hi";
    checks.holds(is_not_appended(&canonical(payload, &mut out), &cut));
    checks.holds(is_refused(&canonical_of(rt.alloc(), payload), &cut));
    checks.holds(is_refused(&canonical_of(rt.alloc(), b""), &CanonError::Empty));
    checks.verdict()
}
