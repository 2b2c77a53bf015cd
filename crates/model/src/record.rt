//! The commit record of an image: which stamps are durable.
use crate::layout::Layout;
use arrayvec::ArrayVec;

/// How many gaps a record holds at most, of those of any layout.
pub const MAX_GAPS: usize = 32;

/// The epoch of new images. Each promotion adds one.
pub const FIRST_EPOCH: u64 = 1;

/// What a node is: it serves clients, or it stands by, or it stands by and holds nothing yet.
#[derive(Clone, Copy, Debug, PartialEq, Eq)]
pub enum Role {
    Primary = 1,
    Standby = 2,
    /// A standby that has not got its copy: its image holds nothing, at position 0. Its epoch is that of its record.
    Newcomer = 3,
}

/// Stamps that were never committed: all from `first` to `last`.
#[derive(Clone, Copy, Debug, Default, PartialEq, Eq)]
pub struct Gap {
    pub first: u64,
    pub last: u64,
}

/// What a commit makes durable in one step.
#[derive(Debug, Drop)]
pub struct Record {
    /// The layout of the image that has it.
    pub layout: Layout,
    /// Its number, from 1. Record `n` is in slot `n mod 2`.
    pub number: u64,
    /// The position of the list of calls: how many calls changed something. A newcomer's is 0.
    pub position: u64,
    /// Each stamp up to this one is durable, except those in a gap.
    pub cp: u64,
    /// Each stamp that was given out before the next record is below this one.
    pub cd: u64,
    /// Which primary of the pair wrote it, from 1.
    pub epoch: u64,
    pub role: Role,
    /// At most as many as the layout has room for, in order of stamps.
    pub gaps: ArrayVec<Gap, MAX_GAPS>,
    /// The position up to which what has ended may have been freed; 0 where nothing is known to be.
    pub floor: u64,
}

impl Record {
    ghost use Rattle.std.specs.Prelude.{◌≡◌};
    ghost use Rattle.std.specs.List.{list_any};
    ghost use Rattle.model.specs.Image.{counts, is_in_gap};

    /// Whether a stamp was committed: it is 1 to `cp`, and in no gap.
    pub fn counts(&self, stamp: u64) -> bool
        ensures { result ≡ counts self.now stamp }
    {
        0 < stamp && stamp <= self.cp && !self.has_in_gap(stamp)
    }

    /// Whether one of the gaps holds the stamp.
    pub fn has_in_gap(&self, stamp: u64) -> bool
        ensures { result ≡ list_any (is_in_gap stamp) self.now.gaps.items }
    {
        self.gaps.iter().any(|gap| gap.holds(stamp))
    }
}

impl Gap {
    ghost use Rattle.std.specs.Prelude.{◌≡◌};
    ghost use Rattle.model.specs.Image.{is_in_gap};

    /// Whether the stamp is one of the gap's.
    pub fn holds(&self, stamp: u64) -> bool
        ensures { result ≡ is_in_gap stamp self.now }
    {
        self.first <= stamp && stamp <= self.last
    }
}
