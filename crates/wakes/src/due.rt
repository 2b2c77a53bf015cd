//! The writers that wait until their replies may go out.
ghost use Rattle.std.specs.Prelude.{◌≡◌, ◌<◌, ◌↔◌, [], ◌∷◌, ◌++◌, length, false, IsTrue, IfOk, if◌then◌else◌};
ghost use Rattle.rtrb.specs.Ring.{known_free};
ghost use Rattle.wakes.specs.Waiting.{AreEndsOfOne, MayWait, WakesDue, put_at, woken_at, found_at, due_first, not_due_first};
ghost use Rattle.wakes.specs.declared.due.TheConstants.{DUE_ITEMS};

use crate::seat_waker::SeatWaker;
use rtrb::{Consumer, Producer, RingBuffer};
use std::alloc::{AllocError, Global};

/// How many writers can wait at a time.
pub const DUE_ITEMS: usize = 65_536;

/// A writer to be woken once both marks are at this position.
#[derive(Drop)]
pub struct Due {
    /// The position of the last call to which it has a reply.
    pub position: u64,
    /// Calls the writer's driver to it.
    pub writer: SeatWaker,
}

/// The end at which the thread that serves says which writers wait. A clause sees all that it ever put here (`put_at`).
#[derive(Drop)]
pub struct DueIn {
    producer: Producer<Due>,
}

/// The end at which the thread that hears acknowledgements wakes them, oldest first. A clause sees all that it ever took out (`woken_at`), and
/// those that it found here and left (`found_at`).
#[derive(Drop)]
pub struct DueOut {
    consumer: Consumer<Due>,
}

/// An empty list, with room for `DUE_ITEMS` writers: its two ends, each of which may go to a thread of its own.
///
/// # Errors
///
/// Only `AllocError`.
pub fn due_list(alloc: Global) -> Result<(DueIn, DueOut), AllocError>
    ensures ends { IfOk result (λ list. AreEndsOfOne list.0 list.1) }
    ensures empty { IfOk result (λ list. (put_at list.0 ≡ []) × (woken_at list.1 ≡ []) × (found_at list.1 ≡ [])) }
    ensures room { IfOk result (λ list. known_free list.0.producer ≡ DUE_ITEMS) }
{
    let (producer, consumer) = RingBuffer::new(alloc, DUE_ITEMS)?;
    Ok((DueIn { producer }, DueOut { consumer }))
}

impl DueIn {
    /// Has the writer woken once both marks are at the position: now, if both are known to be at `known` and that is far enough, and otherwise
    /// by the other end. If there is no room for it, or memory for another waker is refused, the writer is woken now too, and finds that it is
    /// early.
    ///
    /// The marks can rise after `known` was read and before the writer stands in the list, where the other end then does not see it in time. So
    /// the caller reads the marks once more afterwards, and wakes the writer itself if they are far enough.
    pub fn wake_at(&mut self, position: u64, known: u64, writer: &SeatWaker)
        ensures { MayWait self.old position known writer.now self.new }
    {
        if position <= known || !self.put(position, writer) {
            writer.wake();
        }
    }

    // Puts a writer last. The answer is whether it could.
    fn put(&mut self, position: u64, waker: &SeatWaker) -> bool
        ensures { put_at self.new ≡ put_at self.old ++ (if result then record { position = position; writer = waker.now } ∷ [] else []) }
    {
        match waker.another() {
            Ok(writer) => self.producer.push(Due { position, writer }).is_ok(),
            Err(_) => false,
        }
    }
}

impl DueOut {
    /// Wakes each writer whose position is at most `known`, oldest first, up to the first that is not due. One that is put meanwhile may be left.
    pub fn wake_up_to(&mut self, known: u64)
        ensures { WakesDue self.old known self.new }
    {
        self.consumer.slots();
        self.wake_found(known);
    }

    // Wakes those that were found.
    fn wake_found(&mut self, known: u64)
        ensures woken { woken_at self.new ≡ woken_at self.old ++ due_first known (found_at self.old) }
        ensures left { found_at self.new ≡ not_due_first known (found_at self.old) }
    {
        while self.is_first_due(known) {
            let due = self.consumer.pop_known();
            due.writer.wake();
        }
    }

    // Whether the oldest that was found is due.
    fn is_first_due(&self, known: u64) -> bool
        ensures due { IsTrue result ↔ (0 < length (due_first known (found_at self.now))) }
        ensures not_due { result ≡ false → not_due_first known (found_at self.now) ≡ found_at self.now }
    {
        self.consumer.cached_slots() > 0 && self.consumer.peek_known().position <= known
    }
}
