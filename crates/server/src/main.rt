//! The key-value server: a connection over standard input and output, and the subcommands over images.
#![tactic(auto)]

mod answering;
mod bound;
mod client;
mod command;
mod conversation;
mod follower;
mod grammar;
mod link_listener;
mod listening;
mod nodes;
mod options;
mod pair;
mod serve;
mod serving_clients;
mod simulated;
mod standing_by;
mod tasks;

use crate::command::command;
use crate::options::not_text;
use descriptors::hold_closed;
use images::{Failure, Files, tell};
use kv_types::Refusal;
use std::alloc::Global;
use std::env;
use std::io::{ErrorKind, IsTerminal};
use std::process::ExitCode;
use std::rt::Env;

fn main(rt: HostRuntime) -> ExitCode {
    let _held = match hold_closed(&rt) {
        Ok(held) => held,
        Err(error) => {
            let _ = rt.eprintln(error);
            return ExitCode::FAILURE;
        }
    };
    let status = match words(&rt) {
        Ok(words) => command(
            &rt,
            rt.alloc(),
            &words,
            &Files::of(&rt),
            rt.stdin().is_terminal(),
            &mut rt.stdin(),
            &mut rt.stdout(),
            rt.stderr(),
        ),
        Err(failure) => tell(rt.alloc(), &failure, &mut rt.stderr()),
    };
    ExitCode::from(status)
}

/// The words of the command line, the first of which is the program's name.
fn words<R: Env + Alloc<A = Global>>(rt: &R) -> Result<Vec<String>, Failure> {
    match env::args(rt) {
        Ok(words) => Ok(words.collect(rt.alloc())?),
        Err(error) if error.kind() == ErrorKind::OutOfMemory => Err(Failure::from(Refusal::Memory)),
        Err(_) => Err(Failure::from(not_text(rt.alloc()))),
    }
}
