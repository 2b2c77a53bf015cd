//! The requests of a connection, as its driver has them.
ghost use Rattle.std.specs.Prelude.{◌≡◌, true, false};
ghost use Rattle.pipes.specs.Ring.{offered_at};
ghost use Rattle.clients.specs.RequestSide.{Asks, KeepsRequests, ReadsOn, StaysRead};

use crate::reading::{LastPiece, Progress, RequestReader};
use crate::signals::Signals;
use kv_types::Item;
use pipes::RingOutlet;
use std::net::TcpStream;
use std::sync::Wait;

/// How many blocks are read and let go after the last item, 16 MiB in all: a client that sends a word which is too long is told so, where it still writes.
const LAST_BLOCKS: usize = 1_024;

/// How far the reading of a connection is.
#[derive(Clone, Copy, Debug, PartialEq, Eq)]
enum ReadingState {
    /// Its requests are read.
    Open,
    /// Nothing more is offered. What the peer still sends is read and let go, since a socket that is closed with bytes unread would take the last reply from
    /// the peer.
    LetsGo,
    /// Nothing more is read.
    Over,
}

/// The requests of a connection, as its driver has them.
#[derive(Drop)]
pub struct RequestSide {
    reader: RequestReader,
    pub(crate) items: RingOutlet<Item>,
    state: ReadingState,
    /// Whether the socket may have something to read.
    is_ready: bool,
    /// Whether the peer will send no more, so that what is read last is its end. The system does not tell it again.
    is_at_end: bool,
    /// Whether nothing came since the driver looked last.
    is_quiet: bool,
    /// Whether the system said since then that something came.
    has_come: bool,
    /// How many more blocks are let go.
    last_blocks: usize,
}

impl RequestSide {
    /// Nothing was read yet.
    pub(crate) fn new(reader: RequestReader, items: RingOutlet<Item>) -> RequestSide
        ensures items { result.items ≡ items }
    {
        RequestSide {
            reader,
            items,
            state: ReadingState::Open,
            is_ready: true,
            is_at_end: false,
            is_quiet: false,
            has_come: true,
            last_blocks: LAST_BLOCKS,
        }
    }

    /// The socket may have something to read.
    pub(crate) fn is_readable(&mut self)
        ensures kept { StaysRead self.old self.new }
        ensures ready { self.new.is_ready ≡ true }
    {
        self.is_ready = true;
        self.has_come = true;
    }

    /// How many requests were offered so far, modulo 2^64.
    pub(crate) fn offered(&self) -> u64 {
        self.reader.offered()
    }

    /// Whether something came since this was asked last.
    pub(crate) fn take_has_come(&mut self) -> bool
        ensures kept { StaysRead self.old self.new }
    {
        let has_come = self.has_come;
        self.has_come = false;
        has_come
    }

    /// The peer will send no more.
    pub(crate) fn ends(&mut self)
        ensures kept { StaysRead self.old self.new }
        ensures ready { self.new.is_ready ≡ true }
    {
        self.is_ready = true;
        self.is_at_end = true;
    }

    /// Whether requests are still read.
    pub(crate) fn is_open(&self) -> bool
        ensures { result ≡ false → self.now.state ≡ ReadingState.Open → ⊥ }
    {
        self.state == ReadingState::Open
    }

    /// Whether nothing more is read.
    pub(crate) fn is_over(&self) -> bool
        ensures { result ≡ true → self.now.state ≡ ReadingState.Over }
    {
        self.state == ReadingState::Over
    }

    /// Goes on as far as it can. Says whether there may be more to do at once.
    pub(crate) fn go_on<R: Wait>(&mut self, rt: &R, stream: &TcpStream, signals: &Signals) -> bool
        ensures asks { Asks self.old self.new }
        ensures ends { self.old.state ≡ ReadingState.Open → (self.new.state ≡ ReadingState.Open → ⊥) → self.new.reader.is_done ≡ true }
    {
        match self.state {
            ReadingState::Open => self.read(rt, stream, signals),
            ReadingState::LetsGo => self.let_go(stream),
            ReadingState::Over => false,
        }
    }

    /// Reads and offers for one turn, and calls the thread that serves.
    fn read<R: Wait>(&mut self, rt: &R, stream: &TcpStream, signals: &Signals) -> bool
        ensures reads { ReadsOn self.old self.new }
        ensures ends { self.old.state ≡ ReadingState.Open → (self.new.state ≡ ReadingState.Open → ⊥) → self.new.reader.is_done ≡ true }
        ensures was_open { self.new.state ≡ ReadingState.Open → self.old.state ≡ ReadingState.Open }
    {
        if !self.is_ready && !self.reader.is_held() {
            return false;
        }
        let mut socket = stream;
        let progress = self.reader.read(&mut socket, &mut self.items, signals);
        signals.call(rt);
        match progress {
            Ok(Progress::More) => true,
            Ok(Progress::Drained) => self.drained(),
            Ok(Progress::Full) => false,
            Ok(Progress::Ended) | Err(_) => {
                self.end(rt, signals);
                true
            }
        }
    }

    /// Nothing is left to read, unless the peer's end is. Says whether it may be.
    fn drained(&mut self) -> bool
        ensures kept { (self.new.reader ≡ self.old.reader) × (self.new.items ≡ self.old.items) × (self.new.state ≡ self.old.state) }
    {
        self.is_ready = self.is_at_end;
        self.is_at_end = false;
        self.is_ready
    }

    /// Offers nothing more, says so and calls the thread that serves.
    fn end<R: Wait>(&mut self, rt: &R, signals: &Signals)
        ensures reader { self.new.reader ≡ self.old.reader }
        ensures items { self.new.items ≡ self.old.items }
        ensures state { self.new.state ≡ ReadingState.LetsGo }
    {
        self.state = ReadingState::LetsGo;
        signals.end_reading(rt);
    }

    /// Reads nothing more.
    pub(crate) fn leave<R: Wait>(&mut self, rt: &R, signals: &Signals)
        ensures keeps { KeepsRequests self.old self.new }
        ensures state { self.new.state ≡ ReadingState.Over }
    {
        if self.is_open() {
            self.end(rt, signals);
        }
        self.state = ReadingState::Over;
    }

    /// Reads one block and lets it go. Says whether there may be more.
    fn let_go(&mut self, stream: &TcpStream) -> bool
        ensures items { self.new.items ≡ self.old.items }
        ensures state { self.new.state ≡ ReadingState.Open → self.old.state ≡ ReadingState.Open }
    {
        if !self.is_ready {
            return false;
        }
        let mut socket = stream;
        match self.reader.let_go(&mut socket) {
            Ok(LastPiece::Bytes) => self.let_block_go(),
            Ok(LastPiece::NoneNow) => self.drained(),
            Ok(LastPiece::End) | Err(_) => {
                self.state = ReadingState::Over;
                false
            }
        }
    }

    /// A block was let go. Says whether there may be more.
    fn let_block_go(&mut self) -> bool
        ensures items { self.new.items ≡ self.old.items }
        ensures state { self.new.state ≡ ReadingState.Open → self.old.state ≡ ReadingState.Open }
    {
        self.is_quiet = false;
        self.last_blocks = self.last_blocks.saturating_sub(1);
        if self.last_blocks == 0 {
            self.state = ReadingState::Over;
        }
        self.last_blocks > 0
    }

    /// The driver looks, once a second. Where it waits for the last bytes of the peer, and none came since it looked last, nothing more is read.
    pub(crate) fn look(&mut self, is_written: bool)
        ensures kept { StaysRead self.old self.new }
    {
        self.is_ready = true;
        if is_written && self.is_quiet && !self.is_open() {
            self.state = ReadingState::Over;
        }
        self.is_quiet = is_written;
    }
}
