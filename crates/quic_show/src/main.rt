//! The program `quic-show`: prints what the lines of standard input encode in hexadecimal.
#![tactic(auto)]

ghost use Rattle.std.specs.Prelude.{◌≡◌};
ghost use Rattle.quic_text.specs.Status.{status_of};

use quic_text::{
    FromRead, Mode, RunError, ToWrite, message, mode_of, run, status, usage, wrong_arguments,
};
use std::alloc::AllocError;
use std::env;
use std::io::ErrorKind;
use std::process::ExitCode;

fn main(rt: HostRuntime) -> ExitCode {
    ExitCode::from(match asked_mode(&rt) {
        Ok(Some(mode)) => show(&rt, mode),
        Ok(None) => {
            let _ = rt.eprintln(usage());
            wrong_arguments()
        }
        Err(AllocError) => report(&rt, Err(RunError::OutOfMemory)),
    })
}

// The mode that the arguments select. An argument that isn't UTF-8 is wrong.
fn asked_mode(rt: &HostRuntime) -> Result<Option<Mode>, AllocError> {
    let args = match env::args(rt) {
        Ok(args) => args,
        Err(e) if e.kind() == ErrorKind::OutOfMemory => return Err(AllocError),
        Err(_) => return Ok(None),
    };
    let args: Vec<String> = args.collect(rt.alloc())?;
    let mut words = Vec::new(rt.alloc());
    for arg in args.iter().skip(1) {
        words.push(arg.as_str())?;
    }
    Ok(mode_of(words.as_slice()))
}

// Runs a mode on the standard streams.
fn show(rt: &HostRuntime, mode: Mode) -> u8 {
    let mut source = FromRead::new(rt.stdin());
    let mut sink = ToWrite::new(rt.stdout());
    report(rt, run(rt.alloc(), mode, &mut source, &mut sink))
}

// Prints why a run failed, and returns its exit status.
fn report(rt: &HostRuntime, outcome: Result<bool, RunError>) -> u8
    ensures { result ≡ status_of outcome }
{
    if let Err(e) = outcome {
        let _ = rt.eprintln(message(e));
    }
    status(&outcome)
}
