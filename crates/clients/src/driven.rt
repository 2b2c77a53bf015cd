//! A connection, as its driver has it.
ghost use Rattle.std.specs.Prelude.{◌≡◌, ◌||◌, true};
ghost use Rattle.mio.specs.Event.{is_error, is_write_closed};
ghost use Rattle.clients.specs.declared.reply_side.WritingState.TheVariants as writing;
ghost use Rattle.clients.specs.declared.request_side.ReadingState.TheVariants as reading;
ghost use Rattle.clients.specs.Driven.{Hears, IsVisit};
ghost use Rattle.clients.specs.ReplySide.{IsVisited, StaysWritten};
ghost use Rattle.clients.specs.RequestSide.{KeepsRequests, StaysRead};

use crate::measured::{Measured, Standing};
use crate::registration::{NotRegistered, register};
use crate::reply_side::{ReplySide, Written};
use crate::request_side::RequestSide;
use crate::signals::Signals;
use crate::stillness::Stillness;
use kv_types::Seen;
use mio::Registry;
use mio::event::Event;
use node_log::{Counted, Waits};
use pipes::Seat;
use std::net::{Shutdown, TcpStream};
use std::sync::Wait;
use std::time::{Duration, Instant};

/// What a driver does with a connection next.
#[derive(Clone, Copy, Debug, PartialEq, Eq)]
pub(crate) enum Next {
    /// It waits until the socket is ready or somebody calls.
    Waits,
    /// There may be more to do at once.
    Busy,
    /// All is done: the socket is to be closed.
    Closes,
}

/// One look at all connections: when it is, and how long nothing may come on one.
#[derive(Clone, Copy)]
pub(crate) struct Look {
    pub(crate) now: Option<Instant>,
    pub(crate) idle: Option<Duration>,
}

/// A connection, as its driver has it: its socket, which never blocks, and its requests and replies.
#[derive(Drop)]
pub struct DrivenConnection {
    pub(crate) place: Seat,
    pub(crate) stream: TcpStream,
    pub(crate) requests: RequestSide,
    pub(crate) replies: ReplySide,
    pub(crate) signals: Signals,
    /// Whether it is among those that its driver visits next.
    pub(crate) is_noted: bool,
    /// For how long nothing has come.
    pub(crate) stillness: Stillness,
    /// How many requests had come when the driver looked last, modulo 2^64.
    pub(crate) counted: u64,
    /// What is measured of its waits.
    pub(crate) measured: Measured,
}

impl DrivenConnection {
    /// Has the poll report the socket by its place.
    ///
    /// # Errors
    ///
    /// Only `NotRegistered`.
    pub(crate) fn register(&self, registry: &Registry) -> Result<(), NotRegistered> {
        register(registry, &self.stream, &self.place)
    }

    /// Notes for what the socket is ready.
    pub(crate) fn hear(&mut self, event: &Event)
        ensures heard { Hears event.now self.new }
        ensures replies { StaysWritten self.old.replies self.new.replies }
        ensures requests { StaysRead self.old.requests self.new.requests }
        ensures gone { self.new.replies.is_gone ≡ self.old.replies.is_gone || (is_write_closed event.now || is_error event.now) }
        ensures place { self.new.place ≡ self.old.place }
    {
        if event.is_readable() {
            self.requests.is_readable();
        }
        if event.is_read_closed() || event.is_error() {
            self.requests.ends();
        }
        if event.is_writable() || event.is_write_closed() || event.is_error() {
            self.replies.is_writable();
        }
        self.replies
            .note_gone(event.is_write_closed() || event.is_error());
    }

    /// Goes on with all that it can do now, and notes how long a reply was waited for.
    pub(crate) fn visit<R: Wait>(&mut self, rt: &R, seen: &Seen, waits: &mut Waits) -> Next
        ensures visits { IsVisit seen.now self.old.requests self.new.requests self.old.replies self.new.replies }
        ensures closes { result ≡ Next.Closes → (self.new.requests.state ≡ reading.Over) × (self.new.replies.state ≡ writing.Over) }
        ensures place { self.new.place ≡ self.old.place }
    {
        let reads_on = self.requests.go_on(rt, &self.stream, &self.signals);
        let writes_on = self.write(rt, seen);
        self.measure(seen, waits);
        if self.requests.is_over() && self.replies.is_over() {
            waits.note_end(self.requests.offered().wrapping_sub(self.counted));
            Next::Closes
        } else if reads_on | writes_on {
            Next::Busy
        } else {
            Next::Waits
        }
    }

    /// Notes for how long the reply was waited for that both marks have covered by now, if there is one.
    fn measure(&mut self, seen: &Seen, waits: &mut Waits)
        ensures requests { self.new.requests ≡ self.old.requests }
        ensures replies { self.new.replies ≡ self.old.replies }
        ensures place { self.new.place ≡ self.old.place }
    {
        let Some(now) = waits.now else {
            return;
        };
        let standing = Standing {
            asked: self.requests.offered(),
            taken: self.replies.taken(),
            last: self.replies.last(),
        };
        if let Some(waited) = self.measured.go_on(now, &standing, seen) {
            waits.note(waited);
        }
    }

    /// Goes on with writing. Says whether there may be more to do at once.
    fn write<R: Wait>(&mut self, rt: &R, seen: &Seen) -> bool
        ensures requests { KeepsRequests self.old.requests self.new.requests }
        ensures replies { IsVisited seen.now self.old.replies self.new.replies }
        ensures ends { self.old.requests.state ≡ reading.Open → (self.new.requests.state ≡ reading.Open → ⊥) → self.new.replies.state ≡ writing.Over }
        ensures place { self.new.place ≡ self.old.place }
    {
        match self.replies.go_on(rt, &self.stream, seen, &self.signals) {
            Written::Waits => false,
            Written::Busy => true,
            Written::Fails => {
                self.cut_off();
                true
            }
            Written::Ends => {
                self.end(rt);
                true
            }
        }
    }

    /// Nobody reports the socket. So nothing is written, and the peer's requests end.
    pub(crate) fn break_off(&mut self, refused: &NotRegistered) {
        self.replies.fail(refused);
        self.cut_off();
    }

    /// Nothing can be written any more. So the peer's requests end too.
    fn cut_off(&mut self)
        ensures requests { StaysRead self.old.requests self.new.requests }
        ensures replies { self.new.replies ≡ self.old.replies }
        ensures place { self.new.place ≡ self.old.place }
    {
        let _ = self.stream.shutdown(Shutdown::Both);
        self.requests.ends();
    }

    /// All replies are written. Where the peer may still send requests, nobody takes them any more. A peer gets the last reply whichever side is shut down.
    fn end<R: Wait>(&mut self, rt: &R)
        ensures requests { KeepsRequests self.old.requests self.new.requests }
        ensures replies { self.new.replies ≡ self.old.replies }
        ensures place { self.new.place ≡ self.old.place }
    {
        if self.requests.is_open() {
            let _ = self.stream.shutdown(Shutdown::Both);
            self.requests.leave(rt, &self.signals);
        } else {
            let _ = self.stream.shutdown(Shutdown::Write);
        }
    }

    /// The driver looks at it, once a second, whether or not anybody called. Where nothing has come for too long, and nothing waits, its requests end as if
    /// the peer had ended them.
    pub(crate) fn look(&mut self, look: &Look, counted: &mut Counted)
        ensures requests { StaysRead self.old.requests self.new.requests }
        ensures replies { self.new.replies ≡ self.old.replies }
        ensures place { self.new.place ≡ self.old.place }
    {
        if let Some(now) = look.now {
            counted.waits.note(self.measured.lasts(now));
        }
        let offered = self.requests.offered();
        counted.count(
            offered.wrapping_sub(self.counted),
            self.replies.is_waiting(),
        );
        self.counted = offered;
        self.end_if_idle(look);
        self.requests.look(self.replies.is_over());
    }

    /// Where nothing has come for too long, and nothing waits, its requests end as if the peer had ended them. Answers whether they do.
    pub(crate) fn end_if_idle(&mut self, look: &Look) -> bool
        ensures requests { StaysRead self.old.requests self.new.requests }
        ensures replies { self.new.replies ≡ self.old.replies }
        ensures place { self.new.place ≡ self.old.place }
        ensures noted { self.new.is_noted ≡ self.old.is_noted }
    {
        let is_idle = self.is_idle(look);
        if is_idle {
            let _ = self.stream.shutdown(Shutdown::Both);
            self.requests.ends();
        }
        is_idle
    }

    /// Somebody waits for a place: it ends where it has been idle for too long, and where its peer sends no more and waits for replies, it is taken for gone. Answers
    /// whether either is so.
    pub(crate) fn make_room(&mut self, look: &Look) -> bool
        ensures requests { StaysRead self.old.requests self.new.requests }
        ensures replies { StaysWritten self.old.replies self.new.replies }
        ensures place { self.new.place ≡ self.old.place }
        ensures noted { self.new.is_noted ≡ self.old.is_noted }
    {
        let is_left = self.note_if_left();
        self.end_if_idle(look) | is_left
    }

    /// Where its peer sends no more and waits for replies, it is taken for gone: most such peers have given up. Answers whether it is.
    fn note_if_left(&mut self) -> bool
        ensures over { result ≡ true → self.old.requests.state ≡ reading.Over }
        ensures gone { self.new.replies.is_gone ≡ self.old.replies.is_gone || result }
        ensures requests { self.new.requests ≡ self.old.requests }
        ensures replies { StaysWritten self.old.replies self.new.replies }
        ensures place { self.new.place ≡ self.old.place }
        ensures noted { self.new.is_noted ≡ self.old.is_noted }
    {
        let is_left = self.requests.is_over() && self.replies.has_peer();
        self.replies.note_gone(is_left);
        is_left
    }

    /// Whether nothing has come for too long, and nothing waits: each request has its reply, and each reply is written.
    fn is_idle(&mut self, look: &Look) -> bool
        ensures requests { StaysRead self.old.requests self.new.requests }
        ensures replies { self.new.replies ≡ self.old.replies }
        ensures place { self.new.place ≡ self.old.place }
        ensures noted { self.new.is_noted ≡ self.old.is_noted }
    {
        let has_come = self.requests.take_has_come();
        if has_come || !self.replies.has_written(self.requests.offered()) {
            self.stillness.is_broken(look.now);
        }
        match look.now {
            Some(now) => self.stillness.lasts(now, look.idle),
            None => false,
        }
    }

    /// Closes the socket, and gives the place back.
    pub(crate) fn close(self) -> Seat
        ensures { result ≡ self.place }
    {
        let DrivenConnection { place, stream, .. } = self;
        drop(stream);
        place
    }
}
