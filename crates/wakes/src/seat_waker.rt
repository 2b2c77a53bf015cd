//! What calls a driver to one of its connections.
ghost use Rattle.std.specs.Prelude.{◌≡◌, IfOk};
ghost use Rattle.std.specs.Arc.{arc_value};

use crate::calls::Calls;
use crate::seat_number::SeatNumber;
use std::alloc::AllocError;
use std::marker::Model;
use std::sync::Arc;

/// Calls a driver to the connection at one of its places. A clause sees which place of which driver.
#[derive(Drop)]
pub struct SeatWaker {
    calls: Arc<Calls>,
    place: SeatNumber,
}

impl Model for SeatWaker {
    ghost use Rattle.std.specs.Arc.{arc_value};
    ghost use Rattle.wakes.specs.Place.{Place};

    ghost Value = { Place };

    ghost view = { λ waker. record { calls = arc_value waker.calls; number = waker.place.number } };
}

impl SeatWaker {
    /// What calls this driver to the connection at this place.
    pub fn new(calls: Arc<Calls>, place: SeatNumber) -> SeatWaker
        ensures place { result.number ≡ place.number }
        ensures calls { result.calls ≡ arc_value calls }
    {
        SeatWaker { calls, place }
    }

    /// Calls the driver to the connection. If it does not sleep now, it looks before it does.
    pub fn wake(&self) {
        self.calls.call(self.place);
    }

    /// Another waker for the same place.
    ///
    /// # Errors
    ///
    /// Only `AllocError`.
    pub fn another(&self) -> Result<SeatWaker, AllocError>
        ensures same_place { IfOk result (λ other. other ≡ self.now) }
    {
        let calls = Arc::try_clone(&self.calls)?;
        Ok(SeatWaker {
            calls,
            place: self.place,
        })
    }
}
