//! Replays stored lists of lines, each in its mode, and writes what `quic-show` prints for them. The lists are in
//! `data/`. `stdout` is the expected output, one list after another, each under a heading; the gate compares it.
//!
//! The lists have what `vectors/` leaves open: the texts of errors, and the cases in which quinn-proto and this library
//! depart from an RFC (docs/DIFFERENCES.md). By line numbers:
//!
//! - `payloads.in`: 1 to 5 rejected ones, and the type that is named; 6 a type not in its shortest encoding; 7 to 10
//!   frames that some packets or sides may not have, an empty token; 11 to 13 data that ends past 2^62 - 1; 14 to 17
//!   limits above 2^60; 18 to 26 closes, and names in errors; 27 to 30 ACKs and long payloads; 31 an ACK that goes
//!   below 0 and is cut off
//! - `datagrams.in`: 1 to 10 rejected ones, 2 to 4 without the fixed bit, 7 and 8 with ids above 20 bytes; 11 a small
//!   one of an unknown version; 12 and 13 Initials; 14 to 17 Retries followed by anything; 18 to 20 version
//!   negotiations, the first with no version, the second with one cut off; 21 to 24 version 2; 25 and 26 several
//!   packets; 27 to 30 two reasons to reject
//! - `params.in`: 1 to 3 lists without ids; 4 to 8 integers that aren't in their shortest encoding; 9 to 16 repeats; 17
//!   to 21 preferred addresses, 18 with an empty id; 22 to 24 values out of range; 25 a parameter that only servers
//!   send; 26 many; 27 to 29 preferred addresses of wrong lengths
//!
//! The expected output comes from elsewhere. For `datagrams.in`, with ids of 0, 8 and 20 bytes in short headers, it
//! comes from a plain model that supports versions 1 and 2. Without version 2, which quinn-proto 0.11.19 doesn't
//! support, the model agrees with quinn-proto on every line. For `params.in`, as a client and as a server receives
//! them, it comes from quinn-proto. For `payloads.in`, in their shortest form and with types that must be in their
//! shortest form, it comes from a plain model, which agrees with quinn-proto on all that quinn-proto reads.
#![tactic(auto)]

use quic_text::{FromRead, Mode, ToWrite, mode_of, run};
use std::fs::File;
use std::io::Write;
use std::process::ExitCode;

// The heading of a list, the arguments for its mode, and the file with its lines.
const LISTS: [(&str, &[&str], &str); 7] = [
    (
        "== datagrams.in datagram 0\n",
        &["datagram", "0"],
        "datagrams.in",
    ),
    (
        "== datagrams.in datagram 8\n",
        &["datagram", "8"],
        "datagrams.in",
    ),
    (
        "== datagrams.in datagram 20\n",
        &["datagram", "20"],
        "datagrams.in",
    ),
    (
        "== params.in params client\n",
        &["params", "client"],
        "params.in",
    ),
    (
        "== params.in params server\n",
        &["params", "server"],
        "params.in",
    ),
    ("== payloads.in canon\n", &["canon"], "payloads.in"),
    ("== payloads.in strict\n", &["strict"], "payloads.in"),
];

fn main(rt: HostRuntime) -> ExitCode {
    for (heading, words, file) in LISTS {
        let Some(mode) = mode_of(words) else {
            return ExitCode::from(2);
        };
        if rt.stdout().write_all(heading.as_bytes()).is_err() || !replayed(&rt, mode, file) {
            return ExitCode::from(3);
        }
    }
    ExitCode::from(0)
}

// Writes what a mode prints for a file's lines. Returns whether all was read and written.
fn replayed(rt: &HostRuntime, mode: Mode, file: &str) -> bool {
    let Ok(lines) = File::open(rt, file) else {
        return false;
    };
    let mut source = FromRead::new(lines);
    let mut sink = ToWrite::new(rt.stdout());
    run(rt.alloc(), mode, &mut source, &mut sink).is_ok()
}
