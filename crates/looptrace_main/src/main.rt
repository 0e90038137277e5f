//! The program `looptrace`: a run over standard input, to standard output and standard error.
#![tactic(auto)]

use looptrace::streams::Streams;
use looptrace::trace::trace;
use std::io::BufReader;
use std::process::ExitCode;

fn main(rt: HostRuntime) -> ExitCode {
    let Ok(input) = BufReader::new(rt.alloc(), rt.reader()) else {
        return ExitCode::FAILURE;
    };
    let mut streams = Streams::new(input, rt.stdout(), rt.stderr());
    match trace(&rt, rt.alloc(), &mut streams) {
        Ok(status) => ExitCode::from(status),
        Err(_) => ExitCode::FAILURE,
    }
}
