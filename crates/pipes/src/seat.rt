//! The seats of the connections, which a lobby gives out.
ghost use Rattle.std.specs.Prelude.{◌≡◌, ◌<◌, slice_index, vec_len, EachIndex, IfOk};

use crate::limits::MAX_SEATS;
use std::alloc::{AllocError, Global};
use std::marker::Model;

/// A connection's seat, which is its number, 0 to 1,023. It can be neither copied nor made from a number, so if one lobby gives the seats
/// out, each number has one holder at a time. A clause sees the number.
#[derive(Debug, Drop)]
pub struct Seat {
    number: u16,
}

impl Model for Seat {
    ghost use Rattle.std.specs.Prelude.{ℕ, ◌<◌};
    ghost use Rattle.pipes.specs.declared.limits.TheConstants.{MAX_SEATS};

    ghost Value = { ℕ };

    ghost view = { λ seat. seat.number };

    ghost invariant = { λ seat. seat.number < MAX_SEATS };
}

impl Seat {
    /// All seats of one lobby, in the order of their numbers. Nothing else makes a seat.
    ///
    /// # Errors
    ///
    /// Only `AllocError`, if memory for them is refused.
    pub fn all(alloc: Global) -> Result<Vec<Seat>, AllocError>
        ensures count { IfOk result (λ seats. vec_len seats ≡ MAX_SEATS) }
        ensures each_once { IfOk result (λ seats. EachIndex seats.items (λ n. slice_index seats.items n ≡ n)) }
    {
        let mut seats = Vec::with_capacity(alloc, MAX_SEATS)?;
        for number in 0..MAX_SEATS as u16 {
            seats.push(Seat { number })?;
        }
        Ok(seats)
    }

    /// The seat's number, 0 to 1,023.
    pub fn number(&self) -> usize
        ensures value { result ≡ self.now }
        ensures bound { result < MAX_SEATS }
    {
        usize::from(self.number)
    }
}
