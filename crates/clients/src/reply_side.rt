//! The replies of a connection, as its driver has them.
ghost use Rattle.std.specs.Prelude.{◌≡◌, ◌<◌, ◌||◌, [], length, true, false};
ghost use Rattle.kv_types.specs.declared.seen.Seen.{Seen};
ghost use Rattle.pipes.specs.Ring.{known_at};
ghost use Rattle.clients.specs.ReplySide.{GoesOn, Says, Stands, StaysWritten, Writes};

use crate::outbox::Outbox;
use crate::registration::NotRegistered;
use crate::signals::{Signals, WasOver};
use crate::writing::{Round, let_replies_go, write_round};
use kv_types::{Held, Seen};
use pipes::RingInlet;
use std::io;
use std::net::TcpStream;
use std::sync::Wait;

/// How far the writing of a connection is.
#[derive(Clone, Copy, Debug, PartialEq, Eq)]
enum WritingState {
    /// Its replies are written.
    Open,
    /// A write failed, or memory was refused: the replies are taken and let go. Otherwise the thread that serves would wait for room for ever.
    Failed,
    /// Nothing more is written.
    Over,
}

/// What a turn of writing came to.
#[derive(Clone, Copy, Debug, PartialEq, Eq)]
pub(crate) enum Written {
    /// It waits for replies, for the marks or for the socket.
    Waits,
    /// There may be more to do at once.
    Busy,
    /// It failed just now.
    Fails,
    /// It ended just now.
    Ends,
}

/// The replies of a connection, as its driver has them.
#[derive(Drop)]
pub struct ReplySide {
    pub(crate) replies: RingInlet<Held>,
    outbox: Outbox,
    state: WritingState,
    /// Whether the socket may take bytes.
    is_ready: bool,
    /// Whether the peer is gone, or is taken for gone: no byte would come to it any more.
    is_gone: bool,
}

impl ReplySide {
    /// Nothing was written yet.
    pub(crate) fn new(replies: RingInlet<Held>, outbox: Outbox) -> ReplySide
        ensures replies { result.replies ≡ replies }
    {
        ReplySide {
            replies,
            outbox,
            state: WritingState::Open,
            is_ready: true,
            is_gone: false,
        }
    }

    /// The socket may take bytes.
    pub(crate) fn is_writable(&mut self)
        ensures ready { self.new.is_ready ≡ true }
        ensures kept { StaysWritten self.old self.new }
        ensures gone { self.new.is_gone ≡ self.old.is_gone }
    {
        self.is_ready = true;
    }

    /// The peer is gone, where that is so.
    pub(crate) fn note_gone(&mut self, is_gone: bool)
        ensures gone { self.new.is_gone ≡ self.old.is_gone || is_gone }
        ensures kept { StaysWritten self.old self.new }
    {
        self.is_ready |= is_gone;
        self.is_gone |= is_gone;
    }

    /// Whether replies are still written to a peer that is not taken for gone.
    pub(crate) fn has_peer(&self) -> bool {
        self.state == WritingState::Open && !self.is_gone
    }

    /// Whether nothing more is written.
    pub(crate) fn is_over(&self) -> bool
        ensures { result ≡ true → self.now.state ≡ WritingState.Over }
    {
        self.state == WritingState::Over
    }

    /// Whether a reply waits for the marks.
    pub(crate) fn is_waiting(&self) -> bool {
        self.state == WritingState::Open && self.outbox.is_waiting()
    }

    /// How many replies were taken so far, modulo 2^64.
    pub(crate) fn taken(&self) -> u64 {
        self.outbox.count()
    }

    /// The greatest position of a reply that was taken so far.
    pub(crate) fn last(&self) -> u64 {
        self.outbox.last()
    }

    /// Whether so many replies were taken, modulo 2^64, and all of them are written.
    pub(crate) fn has_written(&self, count: u64) -> bool {
        let is_left = self.outbox.is_waiting() || self.outbox.is_pending();
        self.outbox.count() == count && !is_left
    }

    /// Goes on as far as it can, where both marks were seen so far.
    pub(crate) fn go_on<R: Wait>(
        &mut self,
        rt: &R,
        stream: &TcpStream,
        seen: &Seen,
        signals: &Signals,
    ) -> Written
        ensures goes_on { GoesOn seen.now result self.old self.new }
        ensures gone { self.old.state ≡ WritingState.Open → self.old.is_ready ≡ true → self.old.is_gone ≡ true → result ≡ Written.Fails }
    {
        // This is asked first: what was offered before the connection was over is taken then.
        let over = signals.was_over();
        match self.state {
            WritingState::Open if self.is_ready && self.is_gone => self.lose(),
            WritingState::Open if self.is_ready => self.write(rt, stream, seen, over, signals),
            WritingState::Failed => self.let_go(rt, over, signals),
            _ => Written::Waits,
        }
    }

    /// Takes replies and writes for one round.
    fn write<R: Wait>(
        &mut self,
        rt: &R,
        stream: &TcpStream,
        seen: &Seen,
        over: WasOver,
        signals: &Signals,
    ) -> Written
        ensures writes { Writes seen.now result self.old self.new }
        ensures over { result ≡ Written.Ends → over.is_over ≡ true }
        ensures stands { Stands result self.old.state self.new.state }
        ensures ready { self.old.is_ready ≡ true → self.new.is_ready ≡ false → 0 < length self.new.outbox.gate.pending }
    {
        let mut socket = stream;
        let round = write_round(
            rt,
            &mut socket,
            &mut self.replies,
            &mut self.outbox,
            seen,
            over,
            signals,
        );
        self.after(round)
    }

    /// The peer is gone: a round fails before it takes or writes anything.
    fn lose(&mut self) -> Written
        ensures fails { result ≡ Written.Fails }
        ensures writes { (seen : Seen) → Writes seen Written.Fails self.old self.new }
        ensures state { self.new.state ≡ WritingState.Failed }
        ensures outbox { self.new.outbox ≡ self.old.outbox }
        ensures ready { self.new.is_ready ≡ self.old.is_ready }
    {
        self.state = WritingState::Failed;
        Written::Fails
    }

    /// What a round came to.
    fn after(&mut self, round: io::Result<Round>) -> Written
        ensures says { Says round self.old.is_ready self.new.is_ready result }
        ensures stands { Stands result self.old.state self.new.state }
        ensures kept { (self.new.outbox ≡ self.old.outbox) × (self.new.replies ≡ self.old.replies) }
    {
        match round {
            Ok(Round::Idle) => Written::Waits,
            Ok(Round::Busy) => Written::Busy,
            Ok(Round::Blocked) => {
                self.is_ready = false;
                Written::Waits
            }
            Ok(Round::Last) => {
                self.state = WritingState::Over;
                Written::Ends
            }
            Err(_) => {
                self.state = WritingState::Failed;
                Written::Fails
            }
        }
    }

    /// Nobody reports for what the socket is ready. So nothing is written, and the replies are let go until the connection is over.
    pub(crate) fn fail(&mut self, _refused: &NotRegistered) {
        self.state = WritingState::Failed;
    }

    /// Takes replies and lets them go. It ends where there are none and the connection was over before.
    fn let_go<R: Wait>(&mut self, rt: &R, over: WasOver, signals: &Signals) -> Written
        ensures outbox { self.new.outbox ≡ self.old.outbox }
        ensures over { result ≡ Written.Ends → over.is_over ≡ true }
        ensures none { result ≡ Written.Ends → known_at self.new.replies ≡ [] }
        ensures stands { Stands result self.old.state self.new.state }
        ensures ready { self.new.is_ready ≡ self.old.is_ready }
    {
        if let_replies_go(&mut self.replies) {
            signals.made_room(rt);
            return Written::Busy;
        }
        if !over.is_over() {
            return Written::Waits;
        }
        self.state = WritingState::Over;
        Written::Ends
    }
}
