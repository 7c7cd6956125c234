//! The program: its arguments are the words of a command.
#![tactic(auto)]

use ca_cmd::{command_alone, out_of_memory};
use ca_io::{HostFiles, HostSink};
use std::alloc::Global;
use std::env::Env;
use std::io::{self, ErrorKind};
use std::process::ExitCode;
use std::{env, rt};

// The arguments after the program's name.
fn arguments<R: Env + AllocGlobal>(rt: &R) -> io::Result<Vec<String>> {
    let words = env::args(rt)?.skip(1).collect(rt.alloc())?;
    Ok(words)
}

fn main(rt: HostRuntime) -> ExitCode {
    let alloc: Global = rt.alloc();
    let mut files = HostFiles::new(&rt, alloc);
    let mut out = HostSink::new(rt.stdout());
    let mut err = HostSink::new(rt.stderr());
    let status = match arguments(&rt) {
        Ok(words) => command_alone(alloc, &words, &mut files, &mut out, &mut err),
        Err(error) => {
            if error.kind() == ErrorKind::OutOfMemory {
                out_of_memory(&mut err)
            } else {
                // Arguments that are not text are words that are not understood.
                command_alone(alloc, &[], &mut files, &mut out, &mut err)
            }
        }
    };
    ExitCode::from(status)
}
