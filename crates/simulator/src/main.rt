//! Plays a list of events over a pair of simulated nodes, and prints each as it happens and the outcome at the end.
#![tactic(auto)]

mod acts;
mod breach;
mod case;
mod cause;
mod crash_words;
mod dice;
mod drawing;
mod drawn_requests;
mod error;
mod event_text;
mod explore;
mod found;
mod image;
mod line_words;
mod lookout;
mod node;
mod node_report;
mod number;
mod options;
mod play;
mod quoted;
mod replies;
mod report;
mod restored;
mod restoring;
mod schedule;
mod script;
mod shown;
mod sight;
mod spelling;
mod tally;
mod teller;
mod wire_report;
mod witness;

use crate::error::SimulatorError;
use crate::explore::{explore, look};
use crate::options::read_options;
use crate::play::play;
use crate::report::report;
use crate::script::read_script;
use descriptors::hold_closed;
use std::hash::RandomState;
use std::io::{BufWriter, Read, Write};
use std::process::ExitCode;
use version::VERSION;

/// The program's name in its own texts.
const PROGRAM: &str = "wbl-sim";

fn main(rt: HostRuntime) -> ExitCode {
    let _held = match hold_closed(&rt) {
        Ok(held) => held,
        Err(error) => {
            let _ = rt.eprintln(error);
            return ExitCode::FAILURE;
        }
    };
    match run(&rt) {
        Ok(()) => ExitCode::SUCCESS,
        Err(error) => {
            let status = error.status();
            let _ = rt.eprintln(error);
            ExitCode::from(status)
        }
    }
}

fn run(rt: &HostRuntime) -> Result<(), SimulatorError> {
    let alloc = rt.alloc();
    let options = read_options(rt)?;
    if options.version {
        return print_version(&mut rt.stdout());
    }
    let hash_builder = RandomState::new(rt).map_err(SimulatorError::Random)?;
    let mut out = BufWriter::new(alloc, rt.stdout())?;
    if let Some(exploration) = options.explore {
        let explored = explore(alloc, &mut out, &options, exploration, hash_builder);
        out.flush()?;
        return explored;
    }
    let mut text = Vec::new(alloc);
    rt.stdin()
        .read_to_end(&mut text)
        .map_err(SimulatorError::Read)?;
    let script = read_script(alloc, &text)?;
    if options.trace {
        let looked = look(alloc, &mut out, &options, &script, hash_builder);
        out.flush()?;
        return looked;
    }
    let played = play(alloc, &mut out, &options, &script, hash_builder)?;
    let reported = report(alloc, &mut out, &options, script.schedule.lines(), &played);
    drop(played);
    reported?;
    out.flush()?;
    Ok(())
}

/// Prints which program this is.
fn print_version<W: Write>(out: &mut W) -> Result<(), SimulatorError> {
    writeln!(out, "{PROGRAM} {VERSION}")?;
    Ok(())
}
