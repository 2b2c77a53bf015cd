//! A pipe within one thread.
ghost use Rattle.std.specs.Prelude.{◌≡◌, ◌-◌, ◌≤◌, ◌==◌, ◌∷◌, ◌++◌, List, [], length, IfOk, MatchOption};
ghost use Rattle.std.specs.VecDeque.{deque_capacity};
ghost use Rattle.pipes.specs.declared.limits.TheConstants.{PIPE_ITEMS};

use crate::ends::{Inlet, Outlet};
use crate::limits::PIPE_ITEMS;
use std::alloc::{AllocError, Global};
use std::collections::VecDeque;
use std::marker::Model;

/// A pipe that is one object with both ends. A clause sees the items that wait in it, oldest first.
#[derive(Debug, Drop)]
pub struct LocalPipe<T> {
    waiting: VecDeque<T>,
    ghost within: { length waiting.items ≤ PIPE_ITEMS },
    // The room is allocated with the pipe, so that no later call takes memory.
    ghost has_room: { PIPE_ITEMS ≤ deque_capacity waiting },
}

impl<T> Model for LocalPipe<T> {
    ghost use Rattle.pipes.specs.Waiting.{Waiting};

    ghost Value = { Waiting T };

    ghost view = { λ pipe. record { items = pipe.waiting.items; within = pipe.within } };
}

impl<T> LocalPipe<T> {
    /// An empty pipe, with room for all the items that it may ever hold.
    ///
    /// # Errors
    ///
    /// Only `AllocError`, if memory for that room is refused.
    pub fn new(alloc: Global) -> Result<LocalPipe<T>, AllocError>
        ensures { IfOk result (λ pipe. pipe.items ≡ []) }
    {
        let waiting = VecDeque::with_capacity(alloc, PIPE_ITEMS)?;
        Ok(LocalPipe { waiting })
    }

    /// How many items wait.
    pub fn len(&self) -> usize
        ensures { result ≡ length self.now.items }
    {
        self.waiting.len()
    }

    /// The items that wait, oldest first: those of the first slice and then those of the second.
    pub fn as_slices(&self) -> (&[T], &[T])
        ensures { result.0.now ++ result.1.now ≡ self.now.items }
    {
        self.waiting.as_slices()
    }

    /// The oldest item that waits.
    pub fn first(&self) -> Option<&T>
        ensures { MatchOption result (self.now.items ≡ []) (λ item. (rest : List T) × (self.now.items ≡ item.now ∷ rest)) }
    {
        self.waiting.front()
    }

    /// Whether no item waits.
    pub fn is_empty(&self) -> bool
        ensures { result ≡ (length self.now.items == 0) }
    {
        self.waiting.is_empty()
    }
}

impl<T> Outlet for LocalPipe<T> {
    type Item = T;

    ghost offered = { λ pipe. pipe.items };

    ghost known_room = { λ pipe. PIPE_ITEMS - length pipe.items };

    // whoever holds the pipe sees what waits in it
    ghost may_offer = { λ _ _. Unit {0} };

    ghost is_same = { λ _ _. Unit {0} };

    fn room(&mut self) -> usize {
        PIPE_ITEMS - self.waiting.len()
    }

    fn offer(&mut self, item: T) -> Result<(), T> {
        if self.waiting.len() == PIPE_ITEMS {
            return Err(item);
        }
        self.waiting.push_back_reserved(item);
        Ok(())
    }

    ghost same_refl = { λ _. tt };

    ghost same_trans = { λ _ _ _ _ _. tt };

    ghost may_still = { λ _ _ _ _ _ _. tt };
}

impl<T> Inlet for LocalPipe<T> {
    ghost use Rattle.pipes.specs.Waiting.{LocalTakes};

    type Item = T;

    ghost known_items = { λ pipe. pipe.items };

    ghost take_gives = { LocalTakes };

    fn take(&mut self) -> Option<T> {
        self.waiting.pop_front()
    }

    ghost use Rattle.pipes.specs.Waiting.{LocalTakes-known};

    ghost known_first = { LocalTakes-known };
}
