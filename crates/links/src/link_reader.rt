//! A standby's link, which ends where nothing comes of it and another connection waits.
ghost use Rattle.std.specs.Prelude.{◌≡◌};

use crate::copy_teller::CopyTeller;
use crate::link_acceptor::LinkAcceptor;
use crate::stage::Stage;
use greeting::GREETING_BYTES;
use node_log::Progress;
use std::cell::Cell;
use std::io::{self, ErrorKind, Read, Write};
use std::net::TcpStream;
use std::sync::Arc;
use std::time::{Clock, Duration, Instant};
use stream_codec::ACK_BYTES;

/// In how many seconds something has to come of what comes on a link, or the node looks for a newer connection.
const PATIENCE_SECONDS: u64 = 5;

/// How many bytes in that time are enough where no frame has ended.
const LEAST_BYTES: u64 = 65_536;

/// How many bytes a node has written once it acknowledged a frame: its greeting, where it is, and that acknowledgement.
const FIRST_FRAME_BYTES: u64 = (GREETING_BYTES + ACK_BYTES + ACK_BYTES) as u64;

/// What comes on a link. A read answers `WouldBlock` where nothing has come for a second, but waits on for a greeting. It fails with `TimedOut` where another
/// connection waits and nothing has come for a second, or no frame was acknowledged and few bytes came for some: a host that vanished tells nobody that its
/// link is over, and one who says nothing, or next to nothing, keeps no other out. It fails with `ConnectionAborted`, with nothing read, once a frame was
/// acknowledged on a link that is left then. What is left to read is what the stream has left.
#[derive(Drop)]
pub(crate) struct LinkReader<'a, 'b, S, C, W> {
    stream: S,
    acceptor: &'a mut LinkAcceptor<'b, C, W>,
    newer: Option<TcpStream>,
    /// How many bytes were written.
    written: &'a Cell<u64>,
    /// How far the link is.
    stage: &'a Cell<Stage>,
    /// Where the node shows whether it takes what came.
    progress: &'a Option<Arc<Progress>>,
    /// What tells of the copy that the node gets here, if it does.
    teller: &'a CopyTeller,
    /// When the link began to be looked at, what was written then, and how many bytes came since.
    since: Option<Instant>,
    written_then: u64,
    bytes: u64,
    /// Whether nothing has come at all.
    is_silent: bool,
}

impl<'a, 'b, S, C: Clock, W: Write> LinkReader<'a, 'b, S, C, W> {
    /// What comes on this link, with what accepts the others, and where it is shown that something came and is being taken, and what tells
    /// of a copy.
    pub(crate) fn new(
        stream: S,
        acceptor: &'a mut LinkAcceptor<'b, C, W>,
        written: &'a Cell<u64>,
        stage: &'a Cell<Stage>,
        progress: &'a Option<Arc<Progress>>,
        teller: &'a CopyTeller,
    ) -> LinkReader<'a, 'b, S, C, W>
        ensures { result.stream ≡ stream }
    {
        LinkReader {
            stream,
            acceptor,
            newer: None,
            written,
            stage,
            progress,
            teller,
            since: None,
            written_then: 0,
            bytes: 0,
            is_silent: true,
        }
    }

    /// Whether nothing has come at all.
    pub(crate) fn is_silent(&self) -> bool {
        self.is_silent
    }

    /// Tells how far the node has come with its copy, if it gets one.
    fn look_at_copy(&mut self)
        ensures { self.new.stream ≡ self.old.stream }
    {
        self.teller.look(self.acceptor);
    }

    /// The connection for which the link was left, if it was.
    pub(crate) fn into_newer(self) -> Option<TcpStream>
    where
        S: Drop,
    {
        self.newer
    }

    /// Whether the link lasted only until a frame was acknowledged, and one was.
    fn is_done(&self) -> bool {
        self.stage.get() == Stage::UntilFrame && self.written.get() >= FIRST_FRAME_BYTES
    }

    /// Whether a read that waited in vain is made again: it was for a greeting.
    fn waits_on(&self, error: &io::Error) -> bool {
        error.kind() == ErrorKind::WouldBlock && self.stage.get() == Stage::Unmet
    }

    /// Whether another connection waits that may be a link, and is kept then.
    fn finds_newer(&mut self) -> bool
        ensures { self.new.stream ≡ self.old.stream }
    {
        if let Some(newer) = self.acceptor.waiting() {
            if self.acceptor.admits(&newer) {
                self.newer = Some(newer);
                return true;
            }
        }
        false
    }

    /// Whether nothing has come of the link for some seconds. It is looked at anew after something has.
    fn makes_no_way(&mut self) -> bool
        ensures { self.new.stream ≡ self.old.stream }
    {
        let Ok(now) = Instant::now(self.acceptor.clock()) else {
            return false;
        };
        let Some(since) = self.since else {
            self.look_anew(now);
            return false;
        };
        if now.duration_since(since) < Duration::from_secs(PATIENCE_SECONDS) {
            return false;
        }
        if self.bytes < LEAST_BYTES && self.written.get() == self.written_then {
            return true;
        }
        self.look_anew(now);
        false
    }

    /// Begins to look at the link.
    fn look_anew(&mut self, now: Instant)
        ensures { self.new.stream ≡ self.old.stream }
    {
        self.since = Some(now);
        self.written_then = self.written.get();
        self.bytes = 0;
    }
}

impl<S: Read, C: Clock, W: Write> Read for LinkReader<'_, '_, S, C, W> {
    ghost remaining = { λ reader. S.remaining reader.stream };

    fn read(&mut self, buf: &mut [u8]) -> io::Result<usize> {
        end_turn(self.progress);
        self.look_at_copy();
        if self.is_done() {
            return Err(io::Error::from(ErrorKind::ConnectionAborted));
        }
        if self.makes_no_way() && self.finds_newer() {
            return Err(io::Error::from(ErrorKind::TimedOut));
        }
        for _ in 0..u64::MAX {
            match self.stream.read(buf) {
                Err(error) if error.kind() == ErrorKind::WouldBlock && self.finds_newer() => {
                    return Err(io::Error::from(ErrorKind::TimedOut));
                }
                Err(error) if error.kind() == ErrorKind::Interrupted || self.waits_on(&error) => {}
                Ok(count) => {
                    self.bytes = self.bytes.saturating_add(count as u64);
                    self.is_silent &= count == 0;
                    if let Some(progress) = self.progress {
                        progress.begin_turn();
                    }
                    return Ok(count);
                }
                other => return other,
            }
        }
        Err(io::Error::from(ErrorKind::TimedOut))
    }
}

/// Where a node shows how far it is, it shows that it has taken what came, or left its link.
pub(crate) fn end_turn(progress: &Option<Arc<Progress>>) {
    if let Some(progress) = progress {
        progress.end_turn();
    }
}
