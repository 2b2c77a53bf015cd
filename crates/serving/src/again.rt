//! The seats that wait to be served.
ghost use Rattle.std.specs.Prelude.{◌≡◌, [], Some, None, IfNone, IfOk, IfSome, length};
ghost use Rattle.std.specs.List.{remove};
ghost use Rattle.serving.specs.Again.{Lists, StandsAt};

use pipes::MAX_SEATS;
use std::alloc::{AllocError, Global};
use std::collections::VecDeque;
use std::marker::Model;
use wakes::SeatNumber;

/// The seats that wait to be served, each once, who has waited longest first. A clause sees their numbers.
#[derive(Drop)]
pub(crate) struct Again {
    numbers: VecDeque<SeatNumber>,
}

impl Model for Again {
    ghost use Rattle.std.specs.Prelude.{ℕ, ◌≤◌, List, map};
    ghost use Rattle.std.specs.VecDeque.{deque_capacity};
    ghost use Rattle.pipes.specs.declared.limits.TheConstants.{MAX_SEATS};
    ghost use Rattle.serving.specs.Again.{number_of};

    ghost Value = { List ℕ };

    ghost view = { λ again. map number_of again.numbers.items };

    ghost invariant = { λ again. MAX_SEATS ≤ deque_capacity again.numbers };
}

impl Again {
    /// None. It allocates all the memory that it will ever need.
    ///
    /// # Errors
    ///
    /// Only `AllocError`.
    pub(crate) fn new(alloc: Global) -> Result<Again, AllocError>
        ensures { IfOk result (λ again. again ≡ []) }
    {
        Ok(Again {
            numbers: VecDeque::with_capacity(alloc, MAX_SEATS)?,
        })
    }

    /// How many there are.
    pub(crate) fn len(&self) -> usize
        ensures { result ≡ length self.now }
    {
        self.numbers.len()
    }

    /// Who stands behind so many.
    pub(crate) fn at(&self, index: usize) -> Option<SeatNumber>
        ensures someone { IfSome result (λ seat. StandsAt self.now index (Some seat.number)) }
        ensures nobody { IfNone result (StandsAt self.now index None) }
    {
        self.numbers.get(index).copied()
    }

    /// Takes out who stands behind so many, if somebody does.
    pub(crate) fn take_out(&mut self, index: usize)
        ensures { self.new ≡ remove self.old index }
    {
        self.numbers.remove(index);
    }

    /// Puts a seat last. Answers whether there was room for it: there is, where fewer than 1,024 are listed.
    pub(crate) fn add(&mut self, number: SeatNumber) -> bool
        ensures { Lists number.number self.old self.new result }
    {
        self.numbers.push_back(number).is_ok()
    }
}
