//! How much of a group is taken by the changes that wait to be in it.
ghost use Rattle.std.specs.Prelude.{◌≡◌, ◌+◌, ◌-◌, ◌<◌, ◌≤◌};
ghost use Rattle.serving.specs.Filling as spec;

use crate::needs::Need;
use model::MAX_PARTS;

/// So many lines of 64 bytes the changes of a group take at most, unless one takes more by itself: so nobody waits for 64 of the longest values before the
/// next group has room. They are 4 MiB of values, and 1 KiB for each of 64 keys and the words around it: 64 values of 65,536 bytes are one full group.
pub(crate) const MOST_LINES: u64 = 66_560;

/// What the changes take that wait to be in a group.
#[derive(Clone, Copy)]
pub(crate) struct Filling {
    /// The position of the last change that is in a group.
    pub(crate) closed: u64,
    /// How many lines the changes behind it may take at most.
    pub(crate) lines: u64,
}

impl Filling {
    /// No change waits behind this position.
    pub(crate) fn new(closed: u64) -> Filling
        ensures { result ≡ record { closed = closed; lines = 0 } }
    {
        Filling { closed, lines: 0 }
    }

    /// All changes up to this position are in groups.
    pub(crate) fn close(&mut self, closed: u64)
        ensures { self.new ≡ spec.closed_at self.old closed }
    {
        if self.closed != closed {
            *self = Filling::new(closed);
        }
    }

    /// Whether a request that may need so much is to wait for the next group, since this one would be too large with it.
    pub(crate) fn is_too_large(&self, need: Need) -> bool
        ensures { result ≡ spec.is_too_large self.now need }
    {
        self.lines > 0 && need.count > 0 && MOST_LINES < self.lines_with(need)
    }

    /// A request that may need so much has changed something.
    pub(crate) fn add(&mut self, need: Need)
        ensures { self.new ≡ spec.filled self.old need }
    {
        self.lines = self.lines_with(need);
    }

    /// How many parts the next of so many who wait may add to the group, where the list is at this position: an equal share of what is free, and one at least,
    /// where there is any.
    pub(crate) fn share(&self, position: u64, waiting: u64) -> u64
        ensures share { result ≡ spec.share_of (spec.free_parts self.now.closed position) waiting }
        // one is left for each of the others, where there are as many
        ensures others { 0 < waiting → waiting ≤ spec.free_parts self.now.closed position → result + (waiting - 1) ≤ spec.free_parts self.now.closed position }
    {
        let parts = position.saturating_sub(self.closed);
        let free = (MAX_PARTS as u64).saturating_sub(parts);
        (free / waiting.max(1)).max(1).min(free)
    }

    /// The lines of what waits and of a request behind it that may need so much.
    fn lines_with(&self, need: Need) -> u64
        ensures { result ≡ spec.lines_with self.now need }
    {
        self.lines.saturating_add(need.all_lines())
    }
}
