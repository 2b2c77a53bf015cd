//! A pipe between two threads.
ghost use Rattle.std.specs.Prelude.{◌≡◌, [], IfOk};
ghost use Rattle.rtrb.specs.Ring.{known_free};
ghost use Rattle.pipes.specs.Ring.{AreEndsOfOne, offered_at, taken_at};
ghost use Rattle.pipes.specs.declared.limits.TheConstants.{PIPE_ITEMS};

use crate::ends::{Inlet, Outlet};
use crate::finished::{FinishedInlet, FinishedOutlet};
use crate::limits::PIPE_ITEMS;
use rtrb::{AnyItems, Consumer, Producer, Protocol, PushError, RingBuffer};
use std::alloc::{AllocError, Global};

/// A new pipe between two threads: its two ends, each of which may go to a thread of its own. Neither end waits for the other.
#[derive(Drop)]
pub struct RingPipe<T, P: Protocol<T> = AnyItems> {
    /// The end at which items go in.
    pub outlet: RingOutlet<T, P>,
    /// The end at which they come out.
    pub inlet: RingInlet<T, P>,
}

impl<T: Drop, P: Protocol<T>> RingPipe<T, P> {
    /// An empty pipe, with room for all the items that it may ever hold.
    ///
    /// # Errors
    ///
    /// Only `AllocError`, if memory for that room is refused.
    pub fn new(alloc: Global) -> Result<RingPipe<T, P>, AllocError>
        ensures ends { IfOk result (λ pipe. AreEndsOfOne pipe.outlet pipe.inlet) }
        ensures empty { IfOk result (λ pipe. (offered_at pipe.outlet ≡ []) × (taken_at pipe.inlet ≡ [])) }
        ensures room { IfOk result (λ pipe. known_free pipe.outlet.producer ≡ PIPE_ITEMS) }
    {
        let (producer, consumer) = RingBuffer::with_protocol::<Global, P>(alloc, PIPE_ITEMS)?;
        Ok(RingPipe {
            outlet: RingOutlet { producer },
            inlet: RingInlet { consumer },
        })
    }
}

/// The end of a ring at which items go in. A clause sees all that was ever offered here (`offered_at`).
#[derive(Drop)]
pub struct RingOutlet<T, P: Protocol<T> = AnyItems> {
    pub(crate) producer: Producer<T, Global, P>,
}

impl<T, P: Protocol<T>> RingOutlet<T, P> {
    /// Stops offering. The state of this end is kept for `join`.
    pub fn finish(self) -> FinishedOutlet<T, P>
        ensures { result ≡ self }
    {
        FinishedOutlet { outlet: self }
    }
}

impl<T, P: Protocol<T>> Outlet for RingOutlet<T, P> {
    ghost use Rattle.pipes.specs.Ring.{IsSameOutlet, IsSameOutlet-refl, IsSameOutlet-trans, MayOffer-still};

    type Item = T;

    ghost offered = { offered_at };

    ghost known_room = { λ outlet. known_free outlet.producer };

    ghost may_offer = { λ outlet item. P.allows (offered_at outlet) item };

    ghost is_same = { IsSameOutlet };

    fn room(&mut self) -> usize {
        self.producer.slots()
    }

    fn offer(&mut self, item: T) -> Result<(), T> {
        match self.producer.push(item) {
            Ok(()) => Ok(()),
            Err(PushError::Full(back)) => Err(back),
        }
    }

    ghost same_refl = { IsSameOutlet-refl };

    ghost same_trans = { IsSameOutlet-trans };

    ghost may_still = { MayOffer-still P.allows };
}

/// The end of a ring at which items come out. A clause sees all that was ever taken here (`taken_at`).
#[derive(Drop)]
pub struct RingInlet<T, P: Protocol<T> = AnyItems> {
    pub(crate) consumer: Consumer<T, Global, P>,
}

impl<T, P: Protocol<T>> RingInlet<T, P> {
    /// Stops taking here. The state of this end is kept for `join`, which gives what is left.
    pub fn finish(self) -> FinishedInlet<T, P>
        ensures { result ≡ self }
    {
        FinishedInlet { inlet: self }
    }
}

impl<T, P: Protocol<T>> Inlet for RingInlet<T, P> {
    ghost use Rattle.pipes.specs.Ring.{known_at, RingTakes, RingTakes-known};

    type Item = T;

    ghost known_items = { known_at };

    ghost take_gives = { RingTakes P.allows };

    fn take(&mut self) -> Option<T> {
        self.consumer.pop().ok()
    }

    ghost known_first = { RingTakes-known P.allows };
}
