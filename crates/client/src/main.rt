//! The client: requests of its command line or of standard input, sent to a server, and the replies printed.
#![tactic(auto)]

mod command;
mod exchange;
mod failure;
mod lines;
mod options;
mod printing;
mod request;
mod talking;

use crate::command::{command, tell};
use crate::failure::Failure;
use crate::options::not_text;
use descriptors::hold_closed;
use std::alloc::Global;
use std::env;
use std::io::{BufReader, ErrorKind};
use std::process::ExitCode;
use std::rt::Env;

fn main(rt: HostRuntime) -> ExitCode {
    let _held = match hold_closed(&rt) {
        Ok(held) => held,
        Err(error) => {
            let _ = rt.eprintln(error);
            return ExitCode::FAILURE;
        }
    };
    let status = match (words(&rt), BufReader::new(rt.alloc(), rt.stdin())) {
        (Ok(words), Ok(mut reader)) => command(
            &rt,
            rt.alloc(),
            &words,
            &mut reader,
            &mut rt.stdout(),
            &mut rt.stderr(),
        ),
        (Err(failure), _) => tell(&failure, &mut rt.stderr()),
        (_, Err(_)) => tell(&Failure::Memory, &mut rt.stderr()),
    };
    ExitCode::from(status)
}

/// The words of the command line, the first of which is the program's name.
fn words<R: Env + Alloc<A = Global>>(rt: &R) -> Result<Vec<String>, Failure> {
    match env::args(rt) {
        Ok(words) => Ok(words.collect(rt.alloc())?),
        Err(error) if error.kind() == ErrorKind::OutOfMemory => Err(Failure::Memory),
        Err(_) => Err(Failure::from(not_text(rt.alloc()))),
    }
}
