//! The program `fku`: it makes the words, the source over standard input, the sink over standard output and a pool of
//! workers, and runs.
#![tactic(auto)]

use pair_pool::{NoGate, Pool};
use std::alloc::Global;
use std::env;
use std::io::{self, ErrorKind};
use std::process::ExitCode;
use std::rt::Env;
use surface_cli::{Status, run_with};
use text_io::{StdSink, StdSource};

/// The status if the system does not give the words, with which no run ends.
const NO_WORDS: u8 = 6;

/// The words after the program's name, or the status to end with.
fn words<R: Env + AllocGlobal>(rt: &R) -> Result<Vec<String>, u8> {
    match env::args(rt) {
        Ok(args) => {
            let alloc: Global = rt.alloc();
            args.skip(1)
                .collect(alloc)
                .map_err(|_| Status::NoMemory.code())
        }
        Err(error) => {
            if error.kind() == ErrorKind::OutOfMemory {
                Err(Status::NoMemory.code())
            } else {
                Err(NO_WORDS)
            }
        }
    }
}

fn main(rt: HostRuntime) -> ExitCode {
    let words = match words(&rt) {
        Ok(words) => words,
        Err(status) => return ExitCode::from(status),
    };
    let mut input = StdSource::new(rt.reader());
    let mut output = StdSink::new(io::writer(&rt));
    let mut solver = Pool::new(&rt, 1, NoGate);
    let status = run_with(rt.alloc(), &words, &mut input, &mut output, &mut solver);
    ExitCode::from(status.code())
}
