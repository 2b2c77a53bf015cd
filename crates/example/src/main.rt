//! The smallest program over the crates that serve: a client's SET on a pair of simulated nodes, and what the client has read.
#![tactic(auto)]

ghost use Rattle.std.specs.Prelude.{IfOk};
ghost use Rattle.example.specs.Promise.{KeepsPromise};

use bytes::Bytes;
use machine::{Event, Mark};
use pmem::SimPmem;
use std::alloc::{AllocError, Global};
use std::hash::RandomState;
use std::io::{self, Write};
use std::process::ExitCode;
use world::{Trace, run};

/// Lines of each simulated device, 64 bytes each: the fewest that an image may have.
const LINES: u64 = 4_096;

/// What a client sends that wants `SET a 1`, as RESP2 spells it.
const SET: &[u8] = b"*3\r\n$3\r\nSET\r\n$1\r\na\r\n$1\r\n1\r\n";

fn main(rt: HostRuntime) -> ExitCode {
    match tell(&rt) {
        Ok(()) => ExitCode::SUCCESS,
        Err(error) => {
            let _ = rt.eprintln(error);
            ExitCode::FAILURE
        }
    }
}

/// Plays the SET, and prints what was released to its client.
fn tell(rt: &HostRuntime) -> io::Result<()> {
    let events = events(rt.alloc())?;
    let hash_builder = RandomState::new(rt)?;
    let trace = play(rt.alloc(), &events, hash_builder)?;
    rt.stdout().write_all(trace.history.released(0))
}

/// Lets these events happen to a primary and a standby over two new devices.
///
/// # Errors
///
/// Only `AllocError`, where memory for the devices is refused.
fn play(
    alloc: Global,
    events: &[Event],
    hash_builder: RandomState,
) -> Result<Trace<SimPmem>, AllocError>
    ensures { IfOk result (λ trace. KeepsPromise events.now trace) }
{
    let primary = SimPmem::new(alloc, LINES)?;
    let standby = SimPmem::new(alloc, LINES)?;
    let devices = vec![in alloc; primary, standby]?;
    Ok(run(alloc, devices, events, hash_builder))
}

/// A client's SET, from its first byte to the reply's last: it is called, durable on the primary, then on the standby, and then released.
fn events(alloc: Global) -> Result<Vec<Event>, AllocError> {
    Ok(vec![in alloc;
        Event::Enter,
        Event::Feed(0, Bytes::from_static(SET)),
        Event::Offer(0),
        Event::Turn(0),
        Event::Hold(0),
        Event::CloseGroup,
        Event::Commit,
        Event::RaiseLocal,
        Event::Hand,
        Event::Send,
        Event::Deliver(0, 0),
        Event::Apply,
        Event::AckDelivered(0),
        Event::RaiseRemote,
        Event::Read(0, Mark::Local),
        Event::Read(0, Mark::Remote),
        Event::Release(0),
        Event::Write(0, 5),
    ]?)
}
