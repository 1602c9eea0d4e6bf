//! Replays stored lists of packet numbers and headers, and writes what the library returns. The lists are in `data/`, a
//! call on each line. `stdout` is the expected output: what quinn-proto 0.11.19 returned for the same calls, except for
//! the first bytes of version 2's headers, which it doesn't know and which come from a plain model. The gate compares
//! it. The calls are seeded random ones, at every width and at the bounds of numbers.
#![tactic(auto)]

mod headers;
mod numbers;
mod words;

use std::fs;
use std::test::Fail;

fn main(rt: HostRuntime) -> Result<(), Fail> {
    replay_all(&rt)
}

fn replay_all(rt: &HostRuntime) -> Result<(), Fail> {
    numbers::replay_new(rt, fs::read_to_string(rt, "pn-new.in")?.as_str())?;
    numbers::replay_expand(rt, fs::read_to_string(rt, "pn-expand.in")?.as_str())?;
    numbers::replay_decode(rt, fs::read_to_string(rt, "pn-decode.in")?.as_str())?;
    headers::replay(rt, fs::read_to_string(rt, "header-encode.in")?.as_str())
}
