//! How much of an image's room is taken.
ghost use Rattle.std.specs.Prelude.{◌≡◌, ◌-◌};
ghost use Rattle.model.specs.Layout as layouts;
ghost use Rattle.node_log.specs.Usage.{percent_taken, usage_of};

use model::Layout;
use placing::Fill;
use std::fmt;

/// How many versions and how many lines an image has room for.
#[derive(Clone, Copy, Debug, PartialEq, Eq)]
pub struct Capacity {
    pub versions: u64,
    pub lines: u64,
}

/// So many of so many.
#[derive(Clone, Copy, Debug, PartialEq, Eq)]
pub struct Share {
    pub taken: u64,
    pub of: u64,
}

/// How many keys a node holds, and how much of its image's room is taken.
#[derive(Clone, Copy, Debug, PartialEq, Eq)]
pub struct Usage {
    pub keys: u64,
    pub versions: Share,
    pub lines: Share,
}

impl Capacity {
    /// That of an image of this layout and so many lines.
    pub fn of_image(layout: Layout, lines: u64) -> Capacity
        ensures versions { result.versions ≡ layouts.entries_of_lines layout lines }
        ensures lines { result.lines ≡ lines - layouts.first_extent_line lines }
    {
        Capacity {
            versions: layout.entries_of_lines(lines),
            lines: lines.saturating_sub(Layout::first_extent_line(lines)),
        }
    }
}

impl Usage {
    /// Of a node that holds so much, and whose image has room for so many.
    pub fn of(fill: &Fill, capacity: Capacity) -> Usage
        ensures { result ≡ usage_of fill.now capacity }
    {
        Usage {
            keys: fill.keys,
            versions: Share {
                taken: capacity.versions.saturating_sub(fill.free_entries),
                of: capacity.versions,
            },
            lines: Share {
                taken: capacity.lines.saturating_sub(fill.free_lines),
                of: capacity.lines,
            },
        }
    }
}

impl Share {
    /// How many of 100 are taken at least: 99, 90, 80, or 0 for fewer.
    pub(crate) fn percent(self) -> u64
        ensures { result ≡ percent_taken self }
    {
        let free = self.of.saturating_sub(self.taken);
        if free <= self.of / 100 {
            99
        } else if free <= self.of / 10 {
            90
        } else if free <= self.of / 5 {
            80
        } else {
            0
        }
    }
}

impl fmt::Display for Share {
    fn fmt<W: fmt::Write>(&self, f: &mut fmt::Formatter<W>) -> fmt::Result {
        let Share { taken, of } = self;
        write!(f, "{taken} of {of}")
    }
}

impl fmt::Display for Usage {
    fn fmt<W: fmt::Write>(&self, f: &mut fmt::Formatter<W>) -> fmt::Result {
        let Usage {
            keys,
            versions,
            lines,
        } = self;
        write!(f, "{keys} keys, {versions} versions and {lines} lines")
    }
}
