//! Runs, numbers and flags of a result, each appended to the text.
use std::alloc::AllocError;
use std::ops::Range;

// A separator, if something comes before it.
fn separate(text: &mut String, separator: &str) -> Result<(), AllocError> {
    if text.is_empty() {
        return Ok(());
    }
    text.push_str(separator)
}

// One more run, after those that are there.
pub(super) fn push_run(
    text: &mut String,
    separator: &str,
    run: Range<u64>,
) -> Result<(), AllocError> {
    separate(text, separator)?;
    let Range { start, end } = run;
    write!(text, "{start}..{end}")
}

pub(super) fn push_option_run(
    text: &mut String,
    run: Option<Range<u64>>,
) -> Result<(), AllocError> {
    match run {
        Some(run) => push_run(text, " ", run),
        None => push_no_part(text),
    }
}

pub(super) fn push_number(text: &mut String, number: Option<u64>) -> Result<(), AllocError> {
    let Some(number) = number else {
        return push_no_part(text);
    };
    separate(text, " ")?;
    write!(text, "{number}")
}

fn push_no_part(text: &mut String) -> Result<(), AllocError> {
    separate(text, " ")?;
    text.push_str("None")
}

pub(super) fn or_none(text: &mut String) -> Result<(), AllocError> {
    if !text.is_empty() {
        return Ok(());
    }
    text.push_str("none")
}

pub(super) fn push_flag(text: &mut String, flag: bool) -> Result<(), AllocError> {
    write!(text, "{flag}")
}

pub(super) fn push_size(text: &mut String, size: usize) -> Result<(), AllocError> {
    write!(text, "{size}")
}
