//! Stretches of lines whose extents go out of the way: into holes elsewhere, or else down to where the stretch begins.

use crate::holes::Holes;
use crate::moves::Move;
use crate::placed::{Placed, end_of, lines_between};
use crate::plan::Bounds;
use kv_types::Extent;
use std::alloc::{AllocError, Global};

/// An extent of a stretch.
#[derive(Clone, Copy)]
struct Going {
    one: Placed,
    /// The first line of the hole that takes it, if there is one.
    to: Option<u64>,
}

/// Extents that went out of the way.
#[derive(Drop)]
pub(crate) struct Emptied {
    pub(crate) moves: Vec<Move>,
    /// The line behind those that stay in the stretch, from which on it is free.
    pub(crate) floor: u64,
}

/// Moves of the extents that begin in the stretch, in the order of their lines, up to the one below which `need` lines are free then. `None` where fewer
/// are free behind all of them.
///
/// Each goes into a hole outside the stretch, the longest first; where none is long enough it goes down to the others that stay: straight, or by way of
/// the spare place.
pub(crate) fn empty(
    alloc: Global,
    placed: &[Placed],
    holes: &[Extent],
    bounds: Bounds,
    first_line: u64,
    lines: u64,
    need: u64,
) -> Result<Option<Emptied>, AllocError> {
    let stretch = up_to_an_extent(placed, bounds, first_line, lines);
    let mut emptied = Emptied {
        moves: Vec::new(alloc),
        floor: first_line,
    };
    let going = find_holes(alloc, placed, holes, stretch)?;
    for each in going.iter() {
        if emptied.hole_below(each.one.first_line().min(bounds.end)) >= need {
            return Ok(Some(emptied));
        }
        emptied.let_go(*each, bounds)?;
    }
    if emptied.hole_below(end_of(stretch)) >= need {
        Ok(Some(emptied))
    } else {
        Ok(None)
    }
}

/// The lines from this one on, so many and more, up to where the next extent begins.
fn up_to_an_extent(placed: &[Placed], bounds: Bounds, first_line: u64, lines: u64) -> Extent {
    let behind = first_line.saturating_add(lines);
    let next = placed.partition_point(|one| one.first_line() < behind);
    let end = placed
        .get(next)
        .map_or(bounds.end, |one| one.first_line().min(bounds.end));
    lines_between(first_line, end)
}

/// The extents that begin in the stretch, in order, each with the hole that takes it.
fn find_holes(
    alloc: Global,
    placed: &[Placed],
    holes: &[Extent],
    stretch: Extent,
) -> Result<Vec<Going>, AllocError> {
    let mut going = Vec::new(alloc);
    let from = placed.partition_point(|one| one.first_line() < stretch.first_line);
    let (_, above) = placed.split_at(from.min(placed.len()));
    for one in above {
        if one.first_line() >= end_of(stretch) {
            break;
        }
        going.push(Going {
            one: *one,
            to: None,
        })?;
    }
    going.sort_unstable_by_key(|each| u64::MAX - each.one.extent.lines);
    let mut holes = Holes::outside(alloc, holes, stretch)?;
    for each in going.iter_mut() {
        each.to = holes.take(each.one.lines())?;
    }
    going.sort_unstable_by_key(|each| each.one.extent.first_line);
    Ok(going)
}

impl Emptied {
    /// How many lines there are from the floor up to this line.
    fn hole_below(&self, line: u64) -> u64 {
        line.saturating_sub(self.floor)
    }

    /// The extent goes into its hole, or else down to the floor. It stays where it cannot.
    fn let_go(&mut self, each: Going, bounds: Bounds) -> Result<(), AllocError> {
        let one = each.one;
        if let Some(line) = each.to {
            self.moves.push(one.to(line))?;
            return Ok(());
        }
        let hole = self.hole_below(one.first_line());
        let straight = hole >= one.lines();
        let spare = lines_between(bounds.end, bounds.lines);
        if hole == 0 || !straight && spare.lines < one.lines() {
            self.floor = self.floor.max(one.end());
            return Ok(());
        }
        if !straight {
            self.moves.push(one.to(spare.first_line))?;
        }
        self.moves.push(one.to(self.floor))?;
        self.floor = self.floor.saturating_add(one.lines());
        Ok(())
    }
}
