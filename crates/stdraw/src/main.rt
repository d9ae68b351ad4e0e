//! The program: its words, the three streams of the system, and the status of the run.
#![tactic(auto)]

use st_port::{StdSink, StdSource};
use std::env;
use std::io::ErrorKind;
use std::process::ExitCode;
use stdraw_core::{Status, run};

fn main(rt: HostRuntime) -> ExitCode {
    let alloc = rt.alloc();
    let args = match env::args(&rt) {
        Ok(args) => args,
        // No line is written where the words can't be had: memory ran out, or the system's words are no text.
        Err(e) => {
            let status = if e.kind() == ErrorKind::OutOfMemory {
                Status::NoMemory
            } else {
                Status::Words
            };
            return ExitCode::from(status.code());
        }
    };
    let mut words = Vec::new(alloc);
    for word in args.skip(1) {
        if words.push(word).is_err() {
            return ExitCode::from(Status::NoMemory.code());
        }
    }
    let mut src = StdSource::new(rt.stdin());
    let mut out = StdSink::new(rt.stdout());
    let mut diag = StdSink::new(rt.stderr());
    let status = run(alloc, words.as_slice(), &mut src, &mut out, &mut diag);
    ExitCode::from(status.code())
}
