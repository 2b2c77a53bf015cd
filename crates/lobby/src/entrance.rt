//! The entrance of a server whose connections are served in other threads.
ghost use Rattle.std.specs.Prelude.{◌≡◌, ◌==◌, ℕ, ◌<◌, ◌≤◌, ◌↔◌, [], ◌∷◌, ◌++◌, All, IsOk, IsTrue, OnOk, IfOk, IfErr, IfSome, IsErrOf, MatchOption, Some, map, slice_get};
ghost use Rattle.std.specs.List.{list_any};
ghost use Rattle.std.specs.VecDeque.{deque_capacity};
ghost use Rattle.pipes.specs.declared.limits.TheConstants.{MAX_SEATS};
ghost use Rattle.lobby.specs.Book.{Moves, free, taken};
ghost use Rattle.lobby.specs.Attendance.{IsHeld, AreEachOnce, numbers_of};

use crate::arrival::Arrival;
use crate::lobby::Lobby;
use kv_types::Refusal;
use pipes::{MAX_SEATS, Seat};
use std::alloc::Global;
use std::collections::VecDeque;
use std::marker::Model;

/// A lobby, and the connections that have arrived and wait to be served. A clause sees both, the longest waiting first; each number is
/// free, held by whoever was given its seat, or waiting.
#[derive(Drop)]
pub struct Entrance<I, O> {
    lobby: Lobby,
    arrivals: VecDeque<Arrival<I, O>>,
    ghost each_once: { AreEachOnce lobby.statuses (numbers_of arrivals.items) },
    // The room is allocated with the entrance, so that no later call takes memory.
    ghost has_room: { MAX_SEATS ≤ deque_capacity arrivals },
}

impl<I, O> Model for Entrance<I, O> {
    ghost use Rattle.lobby.specs.Attendance.{Attendance};

    ghost Value = { Attendance I O };

    ghost view = { λ entrance. record { book = entrance.lobby; arrivals = entrance.arrivals.items; each_once = entrance.each_once } };
}

impl<I, O> Entrance<I, O> {
    /// An entrance whose seats are all free. It allocates all the memory that it will ever need.
    ///
    /// # Errors
    ///
    /// Only `Memory`.
    pub fn new(alloc: Global) -> Result<Entrance<I, O>, Refusal>
        ensures all_free { IfOk result (λ entrance. All (λ status. status ≡ free) entrance.book.statuses) }
        ensures none_wait { IfOk result (λ entrance. entrance.arrivals ≡ []) }
        ensures err { IfErr result (λ refusal. refusal ≡ Refusal.Memory) }
    {
        let lobby = Lobby::new(alloc)?;
        let arrivals = VecDeque::with_capacity(alloc, MAX_SEATS)?;
        Ok(Entrance { lobby, arrivals })
    }

    /// Gives out the lowest free seat. It takes no memory.
    ///
    /// # Errors
    ///
    /// `SeatsFull` if no seat is free. Nothing has changed then.
    pub fn enter(&mut self) -> Result<Seat, Refusal>
        ensures moves { IfOk result (λ seat. Moves self.old.book seat free taken self.new.book) }
        ensures lowest { IfOk result (λ seat. (lower : ℕ) → lower < seat → slice_get self.old.book.statuses lower ≡ Some taken) }
        ensures waiting { self.new.arrivals ≡ self.old.arrivals }
        ensures full { IsErrOf result Refusal.SeatsFull ↔ All (λ status. status ≡ taken) self.old.book.statuses }
        ensures err { IfErr result (λ refusal. (refusal ≡ Refusal.SeatsFull) × (self.new ≡ self.old)) }
    {
        self.lobby.enter()
    }

    /// Lets a connection wait after all that already wait. It takes no memory.
    ///
    /// # Errors
    ///
    /// The arrival, if its seat is not held from here. Nothing has changed then.
    pub fn arrive(&mut self, arrival: Arrival<I, O>) -> Result<(), Arrival<I, O>>
        ensures accepts { IsOk result ↔ IsHeld self.old arrival.seat }
        ensures last { OnOk result (self.new.arrivals ≡ self.old.arrivals ++ arrival ∷ []) }
        ensures book { self.new.book ≡ self.old.book }
        ensures returned { IfErr result (λ back. (back ≡ arrival) × (self.new ≡ self.old)) }
    {
        if !self.is_held(&arrival.seat) {
            return Err(arrival);
        }
        self.arrivals.push_back_reserved(arrival);
        Ok(())
    }

    /// Takes out the connection that has waited longest. Its seat is held from then on. It takes no memory.
    pub fn waiting(&mut self) -> Option<Arrival<I, O>>
        ensures oldest { MatchOption result ((self.old.arrivals ≡ []) × (self.new ≡ self.old)) (λ arrival. self.old.arrivals ≡ arrival ∷ self.new.arrivals) }
        ensures held { IfSome result (λ arrival. IsHeld self.new arrival.seat) }
        ensures book { self.new.book ≡ self.old.book }
    {
        self.arrivals.pop_front()
    }

    /// Takes a seat back. A seat that is not held from here changes nothing. It takes no memory.
    pub fn leave(&mut self, seat: Seat)
        ensures moves { IsHeld self.old seat → Moves self.old.book seat taken free self.new.book }
        ensures waiting { self.new.arrivals ≡ self.old.arrivals }
        ensures unchanged { (IsHeld self.old seat → ⊥) → self.new ≡ self.old }
    {
        if self.is_held(&seat) {
            self.lobby.leave(seat);
        }
    }

    // Whether the seat of this number was given out and is not waiting.
    fn is_held(&self, seat: &Seat) -> bool
        ensures { IsTrue result ↔ IsHeld self.now seat.now }
    {
        self.lobby.is_taken(seat) && !is_waiting(&self.arrivals, seat.number())
    }
}

fn is_waiting<I, O>(arrivals: &VecDeque<Arrival<I, O>>, number: usize) -> bool
    ensures { result ≡ list_any (λ arrival. arrival.seat == number) arrivals.now.items }
{
    arrivals
        .iter()
        .any(|arrival| arrival.seat.number() == number)
}
