//! The replies of one connection that are on their way out.
ghost use Rattle.std.specs.Prelude.{◌≡◌, ◌<◌, ◌≤◌, ℕ, [], ◌∷◌, ◌++◌, take, drop, length, true, false, IfOk, OnOk, OnErr};
ghost use Rattle.std.specs.Io.KnownBytes.{Appends, Keeps};
ghost use Rattle.kv_types.specs.Reply.{text_of};
ghost use Rattle.pipes.specs.Ring.{taken_at, known_at};
ghost use Rattle.reply_gate.specs.Gate.{covered_bytes, uncovered_rest};
ghost use Rattle.clients.specs.Texts.{held_text, IsWithin, Holds, HoldsAllButLast, Sends};

use kv_types::{Held, Seen};
use pipes::{Inlet, RingInlet};
use reply_gate::Gate;
use std::alloc::{AllocError, Global};
use std::io;
use std::io::{ErrorKind, Write};

/// How many replies are taken from a ring at a time.
pub const BATCH: usize = 256;

/// Marks that cover every position.
const ALL: Seen = Seen {
    local: u64::MAX,
    remote: u64::MAX,
};

/// What was taken from a ring of replies.
#[derive(Clone, Copy, Debug, PartialEq, Eq)]
pub enum Taken {
    /// Nothing: there was none.
    Nothing,
    /// All that were there.
    All,
    /// A whole batch. There may be more.
    Batch,
}

impl Taken {
    /// All that were there, which are none or some.
    pub(crate) fn all(is_some: bool) -> Taken
        ensures nothing { result ≡ Taken.Nothing → is_some ≡ false }
        ensures all { result ≡ Taken.Batch → ⊥ }
    {
        if is_some { Taken::All } else { Taken::Nothing }
    }
}

/// A connection's gate, and the position at which all that it holds is covered.
#[derive(Drop)]
pub struct Outbox {
    gate: Gate,
    /// The greatest position of a reply that was held so far.
    last: u64,
    /// How many replies were held so far, modulo 2^64.
    count: u64,
    ghost within: { IsWithin last gate },
}

impl Outbox {
    /// One that holds nothing.
    pub fn new(alloc: Global) -> Outbox
        ensures { (result.gate.pending ≡ []) × (result.gate.waiting ≡ []) × (result.gate.replies ≡ []) }
    {
        Outbox {
            gate: Gate::new(alloc),
            last: 0,
            count: 0,
        }
    }

    /// Holds a reply until the position at which it was made is covered. After an `Err` nothing more is held.
    fn hold(&mut self, held: &Held) -> Result<(), AllocError>
        ensures waiting { OnOk result (self.new.gate.waiting ≡ self.old.gate.waiting ++ text_of held.now.reply) }
        ensures replies { OnOk result (self.new.gate.replies ≡ self.old.gate.replies ++ held_text held.now ∷ []) }
        ensures pending { self.new.gate.pending ≡ self.old.gate.pending }
        ensures err { OnErr result (self.new.gate ≡ self.old.gate) }
    {
        self.last = later(self.last, held.position);
        self.count = self.count.wrapping_add(1);
        self.gate.hold(&held.reply, held.position)
    }

    /// Takes replies from the ring and holds them: all that are there, up to `BATCH`.
    ///
    /// # Errors
    ///
    /// Only `AllocError`. The reply that was taken last is lost then.
    pub fn hold_all(&mut self, replies: &mut RingInlet<Held>) -> Result<Taken, AllocError>
        ensures taken { OnOk result (Holds (taken_at replies.old) (taken_at replies.new) self.old.gate self.new.gate) }
        ensures lost { OnErr result (HoldsAllButLast (taken_at replies.old) (taken_at replies.new) self.old.gate self.new.gate) }
        ensures nothing { IfOk result (λ taken. taken ≡ Taken.Nothing → taken_at replies.new ≡ taken_at replies.old) }
        ensures all { IfOk result (λ taken. (taken ≡ Taken.Batch → ⊥) → known_at replies.new ≡ []) }
        ensures pending { self.new.gate.pending ≡ self.old.gate.pending }
    {
        for count in 0..BATCH {
            let Some(held) = replies.take() else {
                return Ok(Taken::all(count > 0));
            };
            self.hold(&held)?;
        }
        Ok(Taken::Batch)
    }

    /// How many replies were held so far, modulo 2^64.
    pub(crate) fn count(&self) -> u64 {
        self.count
    }

    /// The greatest position of a reply that was held so far.
    pub(crate) fn last(&self) -> u64 {
        self.last
    }

    /// Whether a reply is held that was not released yet.
    pub(crate) fn is_waiting(&self) -> bool {
        self.gate.can_release(&ALL)
    }

    /// Whether some of what was released is not written yet.
    pub(crate) fn is_pending(&self) -> bool {
        self.gate.pending_len() > 0
    }

    /// Whether both nodes hold the positions of all replies that were ever held here.
    pub fn is_covered(&self, seen: &Seen) -> bool
        ensures { result ≡ true → uncovered_rest seen.now self.now.gate.replies ≡ [] }
    {
        seen.covers(self.last)
    }

    /// Writes what was released before and is not written yet, as far as the writer takes it. Says whether all of it is written.
    ///
    /// # Errors
    ///
    /// Only of the writer. What was written then is no longer pending, as ever.
    pub fn write_released<W: Write>(&mut self, writer: &mut W) -> io::Result<bool>
        ensures sends { Sends (W.contents writer.old) (W.contents writer.new) self.old.gate.pending self.new.gate.pending }
        ensures none_left { IfOk result (λ all. all ≡ true → self.new.gate.pending ≡ []) }
        ensures some_left { IfOk result (λ all. all ≡ false → 0 < length self.new.gate.pending) }
        ensures waiting { self.new.gate.waiting ≡ self.old.gate.waiting }
        ensures replies { self.new.gate.replies ≡ self.old.gate.replies }
    {
        write_pending(&mut self.gate, writer)
    }

    /// Releases exactly the longest prefix of covered replies, and writes what is released, as far as the writer takes it. Says whether all of it is written.
    ///
    /// # Errors
    ///
    /// Only of the writer.
    pub fn write_covered<W: Write>(&mut self, writer: &mut W, seen: &Seen) -> io::Result<bool>
        ensures sends { Sends (W.contents writer.old) (W.contents writer.new)
            (self.old.gate.pending ++ take (covered_bytes seen.now self.old.gate.replies) self.old.gate.waiting) self.new.gate.pending }
        ensures none_left { IfOk result (λ all. all ≡ true → self.new.gate.pending ≡ []) }
        ensures some_left { IfOk result (λ all. all ≡ false → 0 < length self.new.gate.pending) }
        ensures all { uncovered_rest seen.now self.old.gate.replies ≡ [] → self.new.gate.waiting ≡ [] }
        ensures waiting { self.new.gate.waiting ≡ drop (covered_bytes seen.now self.old.gate.replies) self.old.gate.waiting }
        ensures replies { self.new.gate.replies ≡ uncovered_rest seen.now self.old.gate.replies }
    {
        self.gate.release(seen);
        write_pending(&mut self.gate, writer)
    }
}

fn later(one: u64, other: u64) -> u64
    ensures one { one ≤ result }
    ensures other { other ≤ result }
{
    if one <= other { other } else { one }
}

/// Writes what was released, as far as the writer takes it. Says whether all of it is written.
fn write_pending<W: Write>(gate: &mut Gate, writer: &mut W) -> io::Result<bool>
    ensures sends { Sends (W.contents writer.old) (W.contents writer.new) gate.old.pending gate.new.pending }
    ensures none_left { IfOk result (λ all. all ≡ true → gate.new.pending ≡ []) }
    ensures some_left { IfOk result (λ all. all ≡ false → 0 < length gate.new.pending) }
    ensures waiting { gate.new.waiting ≡ gate.old.waiting }
    ensures replies { gate.new.replies ≡ gate.old.replies }
{
    while gate.pending_len() > 0 {
        if !write_first(gate, writer)? {
            return Ok(false);
        }
    }
    Ok(true)
}

/// Writes the first of the bytes that were released, as many of those that lie together as the writer takes. Says whether it took any: otherwise it
/// takes none now.
fn write_first<W: Write>(gate: &mut Gate, writer: &mut W) -> io::Result<bool>
    requires { 0 < length gate.old.pending }
    ensures sends { Sends (W.contents writer.old) (W.contents writer.new) gate.old.pending gate.new.pending }
    ensures less { IfOk result (λ some. some ≡ true → length gate.new.pending < length gate.old.pending) }
    ensures some_left { IfOk result (λ some. some ≡ false → 0 < length gate.new.pending) }
    ensures waiting { gate.new.waiting ≡ gate.old.waiting }
    ensures replies { gate.new.replies ≡ gate.old.replies }
{
    match write_some(writer, gate.pending()) {
        Ok(0) => Err(io::Error::from(ErrorKind::WriteZero)),
        Ok(count) => {
            gate.sent(count);
            Ok(true)
        }
        Err(error) if error.kind() == ErrorKind::WouldBlock => Ok(false),
        Err(error) => Err(error),
    }
}

/// Writes once. A write that a signal interrupted is none.
fn write_some<W: Write>(writer: &mut W, bytes: &[u8]) -> io::Result<usize>
    ensures ok { IfOk result (λ count. (count ≤ length bytes.now) × Appends (W.contents writer.old) (W.contents writer.new) (take count bytes.now)) }
    ensures err { OnErr result (Keeps (W.contents writer.old) (W.contents writer.new)) }
{
    for _ in 0..u64::MAX {
        match writer.write(bytes) {
            Err(error) if error.kind() == ErrorKind::Interrupted => {}
            wrote => return wrote,
        }
    }
    Err(io::Error::from(ErrorKind::Interrupted))
}
