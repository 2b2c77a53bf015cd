//! Where a thread sleeps.
ghost use Rattle.std.specs.Prelude.{◌≡◌, IfOk};

use crate::waker::Waker;
use crossbeam_utils::sync::Parker;
use std::alloc::{AllocError, Global};
use std::marker::Model;
use std::sync::Wait;
use std::time::{Clock, Duration};

/// How long a thread sleeps at most, in milliseconds. One that is idle looks again after this time, though nobody woke it.
pub const LONGEST_SLEEP_MILLISECONDS: u64 = 1_000;

/// Where a thread sleeps until one of its wakers wakes it. A clause sees which thread it is.
#[derive(Drop)]
pub struct Sleeper {
    parker: Parker,
}

impl Model for Sleeper {
    ghost use Rattle.std.specs.Arc.{arc_value};
    ghost use Rattle.wakes.specs.Thread.{Thread};

    ghost Value = { Thread };

    ghost view = { λ sleeper. (arc_value sleeper.parker.unparker.state).shared.table_id };
}

/// Where a new thread sleeps, with a waker of it.
///
/// # Errors
///
/// Only `AllocError`.
pub fn new_sleeper(alloc: Global) -> Result<(Sleeper, Waker), AllocError>
    ensures same_thread { IfOk result (λ ends. ends.1 ≡ ends.0) }
{
    let parker = Parker::new(alloc)?;
    let unparker = parker.unparker().clone()?;
    Ok((Sleeper { parker }, Waker { unparker }))
}

impl Sleeper {
    /// Sleeps until it is woken or `LONGEST_SLEEP_MILLISECONDS` have passed. Where it was woken since the last sleep, this one ends at once.
    pub fn sleep<R: Wait + Clock>(&self, rt: &R) {
        self.parker
            .park_timeout(rt, Duration::from_millis(LONGEST_SLEEP_MILLISECONDS));
    }
}
