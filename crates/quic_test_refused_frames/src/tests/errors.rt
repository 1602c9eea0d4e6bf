//! Copies of errors.
use quic_base::coding::NoRoom;
use quic_checks::Checks;
use quic_frames::transport_error::{Code, Error};
use std::alloc::Global;
use std::test::Fail;

// Whether the error has this code and this text.
fn is(error: &Error, code: Code, reason: &str) -> bool {
    error.code == code && error.reason.as_str() == reason
}

// Whether the copy is equal, or failed.
fn is_same_or_none(copied: &Result<Error, NoRoom>, error: &Error) -> bool {
    match copied {
        Ok(copy) => copy == error,
        Err(NoRoom) => true,
    }
}

// Whether the copied value doesn't change.
fn is_left(error: &Error) -> bool {
    let copied: Result<Error, NoRoom> = error.try_clone();
    is(error, Code::NO_VIABLE_PATH, "a text of its own") && is_same_or_none(&copied, error)
}

// The same for an error that is made first, if it can be allocated.
fn is_left_where_made(alloc: Global) -> bool {
    match Error::with_text(alloc, Code::NO_VIABLE_PATH, "a text of its own") {
        Ok(error) => is_left(&error),
        Err(NoRoom) => true,
    }
}

// Whether the copy is there, and equal.
fn is_copied(error: &Error) -> bool {
    let copied: Result<Error, NoRoom> = error.try_clone();
    matches!(&copied, Ok(copy) if copy == error)
}

#[test]
fn a_refused_copy_leaves_the_error(rt: HostRuntime) -> Result<(), Fail> {
    let mut checks = Checks::new(rt.alloc());
    checks.holds(is_left_where_made(rt.alloc()));
    // A static text is copied without an allocation.
    checks.holds(is_copied(&Error::NO_VIABLE_PATH("static")));
    checks.verdict()
}
