//! Both ends of the link that a primary's threads start.
ghost use Rattle.links.specs.Ends.{AreOfOneEpoch};

use links::{AckReceiver, LinkSender};
use node_log::Log;
use std::alloc::Global;
use std::io::Write;
use std::net::{Net, TcpStream};
use std::sync::Wait;
use std::thread::Threads;
use std::time::Clock;

/// What sends on a link, and what takes the acknowledgements that come there.
#[derive(Drop)]
pub(crate) struct LinkEnds {
    pub(crate) sender: LinkSender,
    pub(crate) receiver: AckReceiver,
    // the acknowledgements that count are of the epoch of the frames that are sent
    pub(crate) ghost same: { AreOfOneEpoch sender receiver },
}

impl LinkEnds {
    /// Keeps the link open for good.
    pub(crate) fn run<
        R: Threads + Wait + Clock + Net<Stream = TcpStream> + Copy + Send + 'static,
        W: Write + Drop,
    >(self, rt: R, alloc: Global, log: Log<W>) {
        let LinkEnds { sender, receiver } = self;
        sender.run(rt, alloc, receiver, log);
    }
}
