//! Extents in the order of their lines, and the free lines between them.
ghost use Rattle.std.specs.Prelude.{◌≡◌, ◌+◌, ◌^◌, ◌<◌, IfOk};
ghost use Rattle.packing.specs.Sliding.{IsInOrder, to_line};

use crate::moves::Move;
use kv_types::Extent;
use std::alloc::{AllocError, Global};

/// An extent that was given.
#[derive(Clone, Copy)]
pub(crate) struct Placed {
    /// Its index in the list that was given.
    pub(crate) index: usize,
    pub(crate) extent: Extent,
}

impl Placed {
    pub(crate) fn first_line(&self) -> u64
        ensures { result ≡ (self.now).extent.first_line }
    {
        self.extent.first_line
    }

    pub(crate) fn lines(&self) -> u64
        ensures { result ≡ (self.now).extent.lines }
    {
        self.extent.lines
    }

    pub(crate) fn end(&self) -> u64
        ensures { (self.now).extent.first_line + (self.now).extent.lines < 2 ^ 64 → result ≡ (self.now).extent.first_line + (self.now).extent.lines }
    {
        end_of(self.extent)
    }

    /// The move of it to lines from this one on.
    pub(crate) fn to(&self, first_line: u64) -> Move
        ensures { result ≡ to_line self.now first_line }
    {
        let to = Extent {
            first_line,
            lines: self.extent.lines,
        };
        Move {
            index: self.index,
            to,
        }
    }
}

/// The line behind the extent.
pub(crate) fn end_of(extent: Extent) -> u64
    ensures { extent.first_line + extent.lines < 2 ^ 64 → result ≡ extent.first_line + extent.lines }
{
    extent.first_line.saturating_add(extent.lines)
}

/// The lines from `low` up to but not including `high`: none where there are none.
pub(crate) fn lines_between(low: u64, high: u64) -> Extent {
    Extent {
        first_line: low,
        lines: high.saturating_sub(low),
    }
}

/// The extents in the order of their lines.
pub(crate) fn in_order(alloc: Global, extents: &[Extent]) -> Result<Vec<Placed>, AllocError>
    ensures { IfOk result (λ placed. IsInOrder extents.now placed.items) }
{
    let mut placed = Vec::with_capacity(alloc, extents.len())?;
    for (index, extent) in extents.iter().enumerate() {
        placed.push(Placed {
            index,
            extent: *extent,
        })?;
    }
    placed.sort_unstable_by_key(|one| one.extent.first_line);
    Ok(placed)
}

/// The free lines from `first` up to but not including `end`: those below each of the extents, also where there are none, and at last those behind all.
pub(crate) fn gaps(
    alloc: Global,
    placed: &[Placed],
    first: u64,
    end: u64,
) -> Result<Vec<Extent>, AllocError> {
    let mut gaps = Vec::new(alloc);
    let mut low = first;
    for one in placed {
        gaps.push(lines_between(low, one.first_line().min(end)))?;
        low = low.max(one.end());
    }
    gaps.push(lines_between(low, end))?;
    Ok(gaps)
}

/// How many lines the extents have that stand before each, and at last how many all have.
pub(crate) fn sums(alloc: Global, placed: &[Placed]) -> Result<Vec<u64>, AllocError> {
    let mut sums = Vec::new(alloc);
    let mut sum = 0u64;
    for one in placed {
        sums.push(sum)?;
        sum = sum.saturating_add(one.lines());
    }
    sums.push(sum)?;
    Ok(sums)
}
