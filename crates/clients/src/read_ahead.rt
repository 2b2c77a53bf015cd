//! How far a reader reads ahead of the thread that serves.
ghost use Rattle.std.specs.Prelude.{◌≡◌, ◌+◌, ◌≤◌, IsTrue};
ghost use Rattle.clients.specs.declared.read_ahead.TheConstants.{LOT_BLOCKS};

use crate::signals::Signals;
use pipes::{Outlet, PIPE_ITEMS};

/// How many blocks are read, at most, before all items that were offered before them have to be taken. So a ring holds the items of twice as many, 2 MiB, whatever the
/// length of a value, or one item that is longer.
pub(crate) const LOT_BLOCKS: usize = 64;

/// The blocks that were read since all earlier items had to be taken last.
#[derive(Clone, Copy, Debug, PartialEq, Eq)]
pub(crate) struct ReadAhead {
    /// How many they are.
    blocks: usize,
    /// How many items were offered before them, modulo 2^64.
    before: u64,
}

impl ReadAhead {
    /// Nothing was read yet.
    pub(crate) fn new() -> ReadAhead {
        ReadAhead {
            blocks: 0,
            before: 0,
        }
    }

    /// Counts one block more, and says whether it may be read. It may not where as many were read as may be, and the thread that serves has yet to take an item
    /// that was offered before them. That thread then calls the driver once it has taken one.
    pub(crate) fn next<O: Outlet>(
        &mut self,
        offered: u64,
        outlet: &mut O,
        signals: &Signals,
    ) -> bool
        ensures bound { IsTrue result → self.new.blocks ≤ LOT_BLOCKS }
        ensures unchanged { O.offered outlet.new ≡ O.offered outlet.old }
        ensures same { O.is_same outlet.old outlet.new }
    {
        let since = offered.wrapping_sub(self.before);
        if self.blocks < LOT_BLOCKS {
            self.blocks += 1;
            return true;
        }
        if !are_taken(since, outlet, signals) {
            return false;
        }
        *self = ReadAhead {
            blocks: 1,
            before: offered,
        };
        true
    }
}

/// Whether all items but the last of this number were taken. Where they were not, says that the reader waits, and looks once more. So whoever takes one after the
/// second look sees that the reader waits.
fn are_taken<O: Outlet>(last: u64, outlet: &mut O, signals: &Signals) -> bool
    ensures unchanged { O.offered outlet.new ≡ O.offered outlet.old }
    ensures same { O.is_same outlet.old outlet.new }
{
    if waiting(outlet) <= last {
        return true;
    }
    signals.wait_for_room();
    waiting(outlet) <= last
}

/// How many items wait in the ring.
fn waiting<O: Outlet>(outlet: &mut O) -> u64
    ensures unchanged { O.offered outlet.new ≡ O.offered outlet.old }
    ensures same { O.is_same outlet.old outlet.new }
{
    PIPE_ITEMS.saturating_sub(outlet.room()) as u64
}
