//! The token with which a thread takes steps on the marks.
use crate::view::MarkView;
use atomic_table::Seat;
use std::marker::Model;

/// A zero-sized token. A clause sees the marks to which it belongs and what it knows of them.
#[derive(Drop)]
pub struct MarkSeat {
    pub(crate) seat: Seat<(), MarkView>,
}

impl Model for MarkSeat {
    ghost use Rattle.std.specs.Prelude.{◌≡◌, []};
    ghost use Rattle.marks.specs.Held.{Held};

    ghost Value = { Held };

    ghost view = { λ s. record { marks = s.seat.table_id; knows = s.seat.me.0 } };

    // it holds no slot, since there are none
    ghost invariant = { λ s. s.seat.me.1 ≡ [] };
}
