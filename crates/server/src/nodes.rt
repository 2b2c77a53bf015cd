//! The subcommands that run a node: all that it tells goes by way of a thread of its own.
ghost use Rattle.images.specs.Told.{IsStatus};

use crate::serving_clients::serve_clients;
use crate::standing_by::stand_by;
use crate::tasks::Node;
use images::{DONE, Failure, Images, tell};
use pmem::Pmem;
use std::alloc::Global;
use std::io::Write;
use std::net::{Net, TcpListener, TcpStream};
use std::random::RandomSource;
use std::sync::Wait;
use std::thread::Threads;
use std::time::Clock;
use telling::Lines;

/// Runs a node until it stops, tells why, and returns the exit status. Its lines are written to `errors`, each with its time; one for which there is no room
/// holds nobody up.
pub fn run_node<
    N: RandomSource
        + Threads
        + Wait
        + Clock
        + Net<Listener = TcpListener, Stream = TcpStream>
        + Copy
        + Send
        + 'static,
    D: Pmem + Drop + Send + 'static,
    I: Images<Device = D>,
    E: Write + Copy + Send + Drop + 'static,
>(rt: &N, alloc: Global, images: &I, node: Node<'_>, errors: E) -> u8
    ensures status { IsStatus result }
{
    let mut errors = errors;
    let lines = match Lines::start(*rt, alloc, errors) {
        Ok(lines) => lines,
        Err(error) => return tell(alloc, &Failure::from(error), &mut errors),
    };
    let done = start(rt, alloc, images, node, &lines);
    let mut lines = lines;
    let status = match done {
        Ok(()) => DONE,
        Err(failure) => tell(alloc, &failure, &mut lines),
    };
    lines.finish();
    status
}

/// Runs a node until it stops, and says why.
fn start<
    N: RandomSource
        + Threads
        + Wait
        + Clock
        + Net<Listener = TcpListener, Stream = TcpStream>
        + Copy
        + Send
        + 'static,
    D: Pmem + Drop + Send + 'static,
    I: Images<Device = D>,
>(rt: &N, alloc: Global, images: &I, node: Node<'_>, lines: &Lines<N>) -> Result<(), Failure> {
    match node {
        Node::Standby {
            image,
            listen,
            from,
            report,
        } => stand_by(rt, alloc, images, image, listen, from, report, lines),
        Node::Primary {
            image,
            listen,
            link,
            report,
            idle,
        } => serve_clients(rt, alloc, images, image, listen, link, report, idle, lines),
    }
}
