//! The lobby and its book of seats.
ghost use Rattle.std.specs.Prelude.{◌≡◌, ◌≢◌, ℕ, ◌<◌, ◌↔◌, All, IsTrue, IfOk, IfErr, IsErrOf, Some, map, slice_get, slice_set, vec_len};
ghost use Rattle.lobby.specs.Book.{Moves, free, taken};
ghost use Rattle.lobby.specs.Slot.{IsSound, TakesLowest};

use kv_types::Refusal;
use pipes::{MAX_SEATS, Seat};
use std::alloc::{AllocError, Global};
use std::marker::Model;

/// The 1,024 seats of a server, of which it holds the free ones. A clause sees whether each number is free or taken.
#[derive(Debug, Drop)]
pub struct Lobby {
    // Each free seat, in the slot of its number.
    slots: Vec<Option<Seat>>,
    ghost sound: { IsSound slots.items },
}

impl Model for Lobby {
    ghost use Rattle.lobby.specs.Book.{Book};
    ghost use Rattle.lobby.specs.Slot.{book_of};

    ghost Value = { Book };

    ghost view = { λ lobby. book_of lobby.slots.items lobby.sound };
}

impl Lobby {
    /// A lobby whose seats are all free. It allocates all the memory that it will ever need.
    ///
    /// # Errors
    ///
    /// Only `Memory`.
    pub fn new(alloc: Global) -> Result<Lobby, Refusal>
        ensures all_free { IfOk result (λ lobby. All (λ status. status ≡ free) lobby.statuses) }
        ensures err { IfErr result (λ refusal. refusal ≡ Refusal.Memory) }
    {
        let slots = slots_of(alloc, Seat::all(alloc)?)?;
        Ok(Lobby { slots })
    }

    /// Gives out the lowest free seat. It takes no memory.
    ///
    /// # Errors
    ///
    /// `SeatsFull` if every seat is taken. Nothing has changed then.
    pub fn enter(&mut self) -> Result<Seat, Refusal>
        ensures moves { IfOk result (λ seat. Moves self.old seat free taken self.new) }
        ensures lowest { IfOk result (λ seat. (lower : ℕ) → lower < seat → slice_get self.old.statuses lower ≡ Some taken) }
        ensures full { IsErrOf result Refusal.SeatsFull ↔ All (λ status. status ≡ taken) self.old.statuses }
        ensures err { IfErr result (λ refusal. (refusal ≡ Refusal.SeatsFull) × (self.new ≡ self.old)) }
    {
        take_lowest(&mut self.slots).ok_or(Refusal::SeatsFull)
    }

    /// Takes a seat back. A seat whose number is not taken here changes nothing. It takes no memory.
    pub fn leave(&mut self, seat: Seat)
        ensures moves { slice_get self.old.statuses seat ≡ Some taken → Moves self.old seat taken free self.new }
        ensures unchanged { slice_get self.old.statuses seat ≢ Some taken → self.new ≡ self.old }
    {
        put_back(&mut self.slots, seat);
    }

    // Whether the number of this seat is taken here.
    pub(crate) fn is_taken(&self, seat: &Seat) -> bool
        ensures { IsTrue result ↔ (slice_get self.now.statuses seat.now ≡ Some taken) }
    {
        self.slots[seat.number()].is_none()
    }
}

// Each seat in a slot of its own.
fn slots_of(alloc: Global, seats: Vec<Seat>) -> Result<Vec<Option<Seat>>, AllocError>
    ensures { IfOk result (λ slots. slots.items ≡ map Some seats.items) }
{
    seats.into_iter().map(Some).collect(alloc)
}

// Takes out the seat in the lowest slot that holds one.
fn take_lowest(slots: &mut Vec<Option<Seat>>) -> Option<Seat>
    ensures { TakesLowest slots.old.items result slots.new.items }
{
    let index = slots.iter().position(|slot| slot.is_some())?;
    slots[index].take()
}

// Puts a seat into the slot of its number.
fn put_back(slots: &mut Vec<Option<Seat>>, seat: Seat)
    requires { vec_len slots.old ≡ MAX_SEATS }
    ensures { slots.new.items ≡ slice_set slots.old.items seat (Some seat) }
{
    let index = seat.number();
    slots[index] = Some(seat);
}
