//! The two ends of a pipe between threads once they have finished, and what is left in the pipe when they are joined.
ghost use Rattle.std.specs.Prelude.{◌≡◌, ◌==◌, List, [], ◌++◌, length};
ghost use mathlib.Core.List.{IsPrefix};
ghost use Rattle.pipes.specs.Ring.{AreEndsOfOne, offered_at, taken_at};

use crate::ends::Inlet;
use crate::ring_pipe::{RingInlet, RingOutlet};
use rtrb::{AnyItems, Consumer, Protocol};
use std::alloc::Global;
use std::marker::Model;

/// An outlet that offers nothing more. A clause sees the outlet that it was.
#[derive(Drop)]
pub struct FinishedOutlet<T, P: Protocol<T> = AnyItems> {
    pub(crate) outlet: RingOutlet<T, P>,
}

impl<T, P: Protocol<T>> Model for FinishedOutlet<T, P> {
    ghost use Rattle.pipes.specs.declared.ring_pipe.RingOutlet.{RingOutlet};

    ghost Value = { RingOutlet T P };

    ghost view = { λ finished. finished.outlet };
}

/// An inlet that takes nothing more. A clause sees the inlet that it was.
#[derive(Drop)]
pub struct FinishedInlet<T, P: Protocol<T> = AnyItems> {
    pub(crate) inlet: RingInlet<T, P>,
}

impl<T, P: Protocol<T>> Model for FinishedInlet<T, P> {
    ghost use Rattle.pipes.specs.declared.ring_pipe.RingInlet.{RingInlet};

    ghost Value = { RingInlet T P };

    ghost view = { λ finished. finished.inlet };
}

/// What is left in a pipe whose ends have both finished. A clause sees the items, oldest first.
#[derive(Drop)]
pub struct LeftItems<T, P: Protocol<T> = AnyItems> {
    consumer: Consumer<T, Global, P>,
}

impl<T, P: Protocol<T>> Model for LeftItems<T, P> {
    ghost use Rattle.std.specs.Prelude.{List};
    ghost use Rattle.rtrb.specs.Ring.{known_items};

    ghost Value = { List T };

    ghost view = { λ left. known_items left.consumer };
}

/// Joins the two ends of one pipe. What was taken, followed by what is left, is what was offered: in order, and each item once. So what
/// had been taken at any earlier moment was a prefix of what was offered.
pub fn join<T: Drop, P: Protocol<T>>(
    outlet: FinishedOutlet<T, P>,
    inlet: FinishedInlet<T, P>,
) -> LeftItems<T, P>
    requires { AreEndsOfOne outlet inlet }
    ensures each_once { taken_at inlet ++ result ≡ offered_at outlet }
    ensures prefix { (earlier : List T) → IsPrefix earlier (taken_at inlet) → IsPrefix earlier (offered_at outlet) }
{
    let FinishedOutlet { mut outlet } = outlet;
    let FinishedInlet { mut inlet } = inlet;
    inlet.consumer.slots_beside(&mut outlet.producer);
    let RingInlet { consumer } = inlet;
    LeftItems { consumer }
}

impl<T, P: Protocol<T>> LeftItems<T, P> {
    /// How many items are left.
    pub fn len(&self) -> usize
        ensures { result ≡ length self.now }
    {
        self.consumer.cached_slots()
    }

    /// Whether none is left.
    pub fn is_empty(&self) -> bool
        ensures { result ≡ (length self.now == 0) }
    {
        self.len() == 0
    }
}

impl<T, P: Protocol<T>> Inlet for LeftItems<T, P> {
    ghost use Rattle.pipes.specs.Ring.{LeftTakes, LeftTakes-known};

    type Item = T;

    ghost known_items = { λ left. left };

    ghost take_gives = { LeftTakes };

    fn take(&mut self) -> Option<T> {
        if self.is_empty() {
            return None;
        }
        Some(self.consumer.pop_known())
    }

    ghost known_first = { LeftTakes-known };
}
