//! The connections that a standby takes as links: from which host, and what it tells of those that ended.
ghost use Rattle.std.specs.Prelude.{◌≡◌, ◌↔◌, IsTrue, IfSome};

use crate::greetings::Unmet;
use crate::listening::is_lasting;
use crate::meeting::Met;
use node_log::{LinkError, Log, News, Throttle};
use std::io::{self, ErrorKind, Write};
use std::net::{IpAddr, TcpListener, TcpStream};
use std::thread;
use std::time::{Clock, Duration};

/// How many seconds nothing comes on a link before the node looks for a newer connection.
const SILENCE_SECONDS: u64 = 1;

/// How long it rests where a connection was refused it, in milliseconds.
const PAUSE_MILLISECONDS: u64 = 100;

/// Where links come in, whose a standby takes, and whom it tells of the others and of how links end.
#[derive(Drop)]
pub(crate) struct LinkAcceptor<'a, C, W> {
    listener: &'a TcpListener,
    /// The one host whose links are taken, or `None` for any.
    host: Option<IpAddr>,
    clock: &'a C,
    log: &'a mut Log<W>,
    /// How the last link ended that was not closed by the primary, as it was told; and whether it was left for another connection.
    told: Option<(LinkError, bool)>,
    ends: Throttle,
    strangers: Throttle,
    /// How often it is told that somebody said nothing.
    silent: Throttle,
}

impl<'a, C: Clock, W: Write> LinkAcceptor<'a, C, W> {
    /// Takes links at this listener, from this host alone or from any, and tells there what it does.
    pub(crate) fn new(
        listener: &'a TcpListener,
        host: Option<IpAddr>,
        clock: &'a C,
        log: &'a mut Log<W>,
    ) -> LinkAcceptor<'a, C, W> {
        LinkAcceptor {
            listener,
            host,
            clock,
            log,
            told: None,
            ends: Throttle::new(),
            strangers: Throttle::new(),
            silent: Throttle::new(),
        }
    }

    /// The clock by which it tells the same thing ever more seldom.
    pub(crate) fn clock(&self) -> &'a C {
        self.clock
    }

    /// Tells this.
    pub(crate) fn say(&mut self, news: News<'_>) {
        self.log.say(news);
    }

    /// Waits for a connection. One that ended before it was taken, or for which descriptors or memory are refused, is passed over after a rest.
    ///
    /// # Errors
    ///
    /// That of the listener, which takes no further connection.
    pub(crate) fn accept(&self) -> io::Result<TcpStream> {
        for _ in 0..u64::MAX {
            match accept_next(self.listener) {
                Err(error) if !is_lasting(&error) => {
                    thread::sleep(self.clock, Duration::from_millis(PAUSE_MILLISECONDS));
                }
                taken => return taken,
            }
        }
        Err(io::Error::from(ErrorKind::TimedOut))
    }

    /// The connection that waits, if one does and is not over yet.
    pub(crate) fn waiting(&self) -> Option<TcpStream> {
        if self.listener.set_nonblocking(true).is_err() {
            return None;
        }
        let found = accept_next(self.listener);
        let blocks = self.listener.set_nonblocking(false);
        match found {
            Ok(stream) if blocks.is_ok() && is_open(&stream) => Some(stream),
            _ => None,
        }
    }

    /// Whether a link is taken from whoever connected there. It tells of one from which none is.
    pub(crate) fn admits(&mut self, stream: &TcpStream) -> bool {
        let Ok(address) = stream.peer_addr() else {
            return false;
        };
        let host = address.ip().to_canonical();
        let is_admitted = is_admitted(self.host, host);
        if !is_admitted && self.strangers.is_due(self.clock) {
            self.log.say(News::Stranger { host });
        }
        is_admitted
    }

    /// Tells how a link ended whose sides had greeted, unless the primary closed it, or it was left to take over the primary's number.
    pub(crate) fn tell_met(&mut self, met: &Met, is_left: bool) {
        if let Err(end) = met.served {
            if met.number.is_none() {
                self.tell_end(end, is_left);
            }
        }
    }

    /// Tells why the sides of a link did not greet. Where nothing at all came, it tells that at once, and then ever more seldom.
    pub(crate) fn tell_unmet(&mut self, why: Unmet, is_silent: bool, is_left: bool) {
        if is_left || !is_silent || why != Unmet::Silent {
            self.tell_end(why.end(), is_left);
        } else if self.silent.is_due(self.clock) {
            self.log.say(News::NotGreeted);
        }
    }

    /// Tells why a link ended that the primary did not close, or that it was left for another connection: at once where the link before ended otherwise, and
    /// else ever more seldom.
    pub(crate) fn tell_end(&mut self, why: LinkError, is_left: bool) {
        if self.told != Some((why, is_left)) {
            self.told = Some((why, is_left));
            self.ends = Throttle::new();
        }
        if self.ends.is_due(self.clock) {
            self.log.say(if is_left {
                News::LinkLeft
            } else {
                News::LinkEnded { why }
            });
        }
    }
}

/// Whether a link is taken from this host, where just the first is admitted if there is one.
fn is_admitted(only: Option<IpAddr>, host: IpAddr) -> bool
    ensures { IsTrue result ↔ IfSome only (λ one. one ≡ host) }
{
    match only {
        Some(one) => one == host,
        None => true,
    }
}

/// Takes the next connection, with the time for which a read of it waits.
fn accept_next(listener: &TcpListener) -> io::Result<TcpStream> {
    let (stream, _) = listener.accept()?;
    let _ = stream.set_nodelay(true);
    let _ = stream.set_read_timeout(Some(Duration::from_secs(SILENCE_SECONDS)));
    Ok(stream)
}

/// Whether the other side has not closed the connection yet.
fn is_open(stream: &TcpStream) -> bool {
    let mut first = [0];
    if stream.set_nonblocking(true).is_err() {
        return false;
    }
    let found = stream.peek(&mut first);
    if stream.set_nonblocking(false).is_err() {
        return false;
    }
    match found {
        Ok(count) => count > 0,
        Err(error) => error.kind() == ErrorKind::WouldBlock,
    }
}
