//! Holes into which extents go, each into the shortest that is long enough.

use crate::placed::end_of;
use kv_types::Extent;
use std::alloc::{AllocError, Global};

/// Free lines, for extents that come the longest first.
#[derive(Drop)]
pub(crate) struct Holes {
    /// Those that are too short for what came so far, the shortest first.
    short: Vec<Extent>,
    /// Those that are long enough for what came last, the shortest at the end.
    enough: Vec<Extent>,
    /// What is left of those that were taken, the shortest first.
    rests: Vec<Extent>,
}

/// The holes that have a line, the shortest first.
pub(crate) fn by_length(alloc: Global, gaps: &[Extent]) -> Result<Vec<Extent>, AllocError> {
    let mut holes = Vec::new(alloc);
    for gap in gaps {
        if gap.lines > 0 {
            holes.push(*gap)?;
        }
    }
    holes.sort_unstable_by_key(|hole| hole.lines);
    Ok(holes)
}

/// How many lines the holes have together.
pub(crate) fn total_of(holes: &[Extent]) -> u64 {
    let mut total = 0u64;
    for hole in holes {
        total = total.saturating_add(hole.lines);
    }
    total
}

impl Holes {
    /// Those of these holes, the shortest first, that do not begin within the stretch.
    pub(crate) fn outside(
        alloc: Global,
        holes: &[Extent],
        stretch: Extent,
    ) -> Result<Holes, AllocError> {
        let mut short = Vec::with_capacity(alloc, holes.len())?;
        for hole in holes {
            if hole.first_line < stretch.first_line || end_of(stretch) <= hole.first_line {
                short.push(*hole)?;
            }
        }
        Ok(Holes {
            short,
            enough: Vec::new(alloc),
            rests: Vec::new(alloc),
        })
    }

    /// Takes so many lines, not more than those before, from the shortest hole that has them: the first of them.
    pub(crate) fn take(&mut self, lines: u64) -> Result<Option<u64>, AllocError> {
        self.look_down_to(lines)?;
        let Some(hole) = self.shortest(lines) else {
            return Ok(None);
        };
        self.leave(Extent {
            first_line: hole.first_line.saturating_add(lines),
            lines: hole.lines.saturating_sub(lines),
        })?;
        Ok(Some(hole.first_line))
    }

    /// Counts those of so many lines among the ones that are long enough.
    fn look_down_to(&mut self, lines: u64) -> Result<(), AllocError> {
        let from = self.short.partition_point(|hole| hole.lines < lines);
        for _ in from..self.short.len() {
            if let Some(hole) = self.short.pop() {
                self.enough.push(hole)?;
            }
        }
        Ok(())
    }

    /// Takes out the shortest that has so many lines.
    fn shortest(&mut self, lines: u64) -> Option<Extent> {
        let at = self.rests.partition_point(|rest| rest.lines < lines);
        let Some(rest) = self.rests.get(at).copied() else {
            return self.enough.pop();
        };
        let is_longer = self
            .enough
            .last()
            .is_some_and(|hole| hole.lines < rest.lines);
        if is_longer {
            return self.enough.pop();
        }
        Some(self.rests.remove(at))
    }

    /// Keeps what is left of a hole.
    fn leave(&mut self, rest: Extent) -> Result<(), AllocError> {
        if rest.lines > 0 {
            let at = self.rests.partition_point(|one| one.lines < rest.lines);
            self.rests.insert(at, rest)?;
        }
        Ok(())
    }
}
