//! Which seat somebody calls for.
ghost use Rattle.std.specs.Prelude.{◌≡◌, ◌<◌};
ghost use Rattle.pipes.specs.declared.limits.TheConstants.{MAX_SEATS};

use pipes::Seat;

/// The number of a seat, 0 to 1,023. It names the seat and gives nobody a hold of it, so each thread of a connection can have it.
#[derive(Clone, Copy, Debug, Drop)]
pub struct SeatNumber {
    number: usize,
    ghost bound: { number < MAX_SEATS },
}

impl SeatNumber {
    /// The number of this seat.
    pub fn of(seat: &Seat) -> SeatNumber
        ensures { result.number ≡ seat.now }
    {
        SeatNumber {
            number: seat.number(),
        }
    }

    /// The number as an index into a list with one place for each seat.
    pub fn index(&self) -> usize
        ensures value { result ≡ self.now.number }
        ensures bound { result < MAX_SEATS }
    {
        self.number
    }
}
