//! What wakes a thread.
ghost use Rattle.std.specs.Prelude.{◌≡◌, IfOk};

use crossbeam_utils::sync::Unparker;
use std::alloc::AllocError;
use std::marker::Model;

/// Wakes one thread. A clause sees which.
#[derive(Drop)]
pub struct Waker {
    pub(crate) unparker: Unparker,
}

impl Model for Waker {
    ghost use Rattle.std.specs.Arc.{arc_value};
    ghost use Rattle.wakes.specs.Thread.{Thread};

    ghost Value = { Thread };

    ghost view = { λ waker. (arc_value waker.unparker.state).shared.table_id };
}

impl Waker {
    /// Wakes the thread. If it does not sleep now, its next sleep ends at once.
    pub fn wake(&self) {
        self.unparker.unpark();
    }

    /// Another waker of the same thread.
    ///
    /// # Errors
    ///
    /// Only `AllocError`.
    pub fn another(&self) -> Result<Waker, AllocError>
        ensures same_thread { IfOk result (λ other. other ≡ self.now) }
    {
        let unparker = self.unparker.clone()?;
        Ok(Waker { unparker })
    }
}
