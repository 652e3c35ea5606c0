//! The program `cov`: the host's words, files and streams, one call, and its status.
#![tactic(auto)]

use cov_base::{HostSink, HostStore, Memory};
use cov_tool::{Status, cov, say_out_of_memory};
use std::alloc::AllocError;
use std::env;
use std::io::ErrorKind;
use std::process::ExitCode;

/// The words after the program's name; none where they aren't all text, which is a faulty command
/// line. Want of memory is the only error.
fn words(rt: &HostRuntime) -> Result<Vec<String>, Memory> {
    let mut words = Vec::new(rt.alloc());
    match env::args(rt) {
        Ok(args) => {
            for word in args.skip(1) {
                words.push(word)?;
            }
        }
        Err(error) if error.kind() == ErrorKind::OutOfMemory => return Err(AllocError),
        Err(_) => {}
    }
    Ok(words)
}

fn run(rt: HostRuntime) -> Status {
    let alloc = rt.alloc();
    let mut out = HostSink::new(rt.stdout());
    let mut err = HostSink::new(rt.stderr());
    let Ok(words) = words(&rt) else {
        return say_out_of_memory(&mut err);
    };
    let mut store = HostStore::new(rt);
    cov(alloc, words.as_slice(), &mut store, &mut out, &mut err)
}

fn main(rt: HostRuntime) -> ExitCode {
    ExitCode::from(run(rt).code())
}
