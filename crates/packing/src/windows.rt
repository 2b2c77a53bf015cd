//! Runs that are made in a stretch of the lines: the extents that begin in it go out of the way, and no others.
ghost use Rattle.std.specs.Prelude.{IfOk, IfSome};
ghost use Rattle.packing.specs.Moves.{MakesRun, MovesAtMost};

use crate::choice::{Choice, keep_cheapest};
use crate::holes::{by_length, total_of};
use crate::moves::{Move, moves_at_most};
use crate::placed::{Placed, gaps, in_order, sums};
use crate::plan::{Bounds, leaves_run};
use crate::stretches::{Emptied, empty};
use kv_types::Extent;
use std::alloc::{AllocError, Global};

/// How many lengths of stretches are tried at most: each but the first two has twice as many lines more than the run as the one before.
const LENGTHS: u64 = 32;

/// Few moves that leave a run of `need` free lines from `first` up to but not including `end`, or `None` where none were found. They are at most `most`, and
/// move no more lines together.
///
/// Each goes to lines from `first` up to `lines` that no extent has at its turn. The extents, which share no line, come in any order. Only those move that
/// begin in one stretch of the lines. Each goes to the shortest hole elsewhere that is long enough. Where none is it goes down to where the stretch begins:
/// straight, or by way of the lines from `end` on. Stretches as long as the run come first, then longer ones; of equally long ones the plan with the
/// fewest moves is taken. A plan is checked on a table of one byte for each of `lines`. `AllocError` where memory was refused.
pub fn make_window(
    alloc: Global,
    extents: &[Extent],
    first: u64,
    end: u64,
    lines: u64,
    need: u64,
    most: u64,
) -> Result<Option<Vec<Move>>, AllocError>
    ensures run { IfOk result (λ plan. IfSome plan (λ moves. MakesRun first end lines need extents.now moves.items)) }
    ensures few { IfOk result (λ plan. IfSome plan (λ moves. MovesAtMost most moves.items)) }
{
    let bounds = Bounds { first, end, lines };
    let placed = in_order(alloc, extents)?;
    let gaps = gaps(alloc, placed.as_slice(), first, end)?;
    let holes = by_length(alloc, gaps.as_slice())?;
    if total_of(holes.as_slice()) < need {
        return Ok(None);
    }
    let whole = end.saturating_sub(first);
    let mut more = 0u64;
    for _ in 0..LENGTHS {
        let length = need.saturating_add(more).min(whole);
        let found = cheapest(
            alloc,
            placed.as_slice(),
            holes.as_slice(),
            bounds,
            length,
            need,
        )?;
        if let Some(plan) = within(alloc, bounds, extents, found, need, most)? {
            return Ok(Some(plan));
        }
        if length >= whole.min(most) {
            return Ok(None);
        }
        more = longer(more, need);
    }
    Ok(None)
}

/// How many lines more than the run the next stretch has.
fn longer(more: u64, need: u64) -> u64 {
    if more == 0 {
        (need / 8).max(1)
    } else {
        more.saturating_add(more)
    }
}

/// The moves, where they are at most `most`, move no more lines, and leave the run.
fn within(
    alloc: Global,
    bounds: Bounds,
    extents: &[Extent],
    found: Option<Emptied>,
    need: u64,
    most: u64,
) -> Result<Option<Vec<Move>>, AllocError>
    ensures run { IfOk result (λ plan. IfSome plan (λ moves. MakesRun bounds.first bounds.end bounds.lines need extents.now moves.items)) }
    ensures few { IfOk result (λ plan. IfSome plan (λ moves. MovesAtMost most moves.items)) }
{
    let Some(found) = found else {
        return Ok(None);
    };
    let run = Extent {
        first_line: found.floor,
        lines: need,
    };
    let moves = found.moves.as_slice();
    if moves_at_most(most, moves) && leaves_run(alloc, bounds, extents, moves, run)? {
        Ok(Some(found.moves))
    } else {
        Ok(None)
    }
}

/// What empties a stretch of so many lines by the fewest moves, of the stretches that have the fewest in use.
fn cheapest(
    alloc: Global,
    placed: &[Placed],
    holes: &[Extent],
    bounds: Bounds,
    length: u64,
    need: u64,
) -> Result<Option<Emptied>, AllocError> {
    let mut best: Option<Emptied> = None;
    for choice in stretches(alloc, placed, bounds, length)?.iter() {
        if let Some(found) = empty(alloc, placed, holes, bounds, choice.line, length, need)?
            && best
                .as_ref()
                .is_none_or(|best| found.moves.len() < best.moves.len())
        {
            best = Some(found);
        }
    }
    Ok(best)
}

/// The stretches of so many lines that have the fewest in use.
fn stretches(
    alloc: Global,
    placed: &[Placed],
    bounds: Bounds,
    length: u64,
) -> Result<Vec<Choice>, AllocError> {
    let sums = sums(alloc, placed)?;
    let starts = starts(alloc, placed, bounds, length)?;
    let mut stretches = Vec::with_capacity(alloc, starts.len())?;
    for line in starts.iter() {
        let cost = cost(placed, sums.as_slice(), *line, length);
        stretches.push(Choice { cost, line: *line })?;
    }
    keep_cheapest(&mut stretches);
    Ok(stretches)
}

/// Where a stretch might begin, in order: at the first line, and where an extent begins or ends.
fn starts(
    alloc: Global,
    placed: &[Placed],
    bounds: Bounds,
    length: u64,
) -> Result<Vec<u64>, AllocError> {
    let mut starts = Vec::new(alloc);
    starts.push(bounds.first)?;
    for one in placed {
        starts.push(one.first_line())?;
        starts.push(one.end())?;
    }
    starts.retain(|line| bounds.first <= *line && line.saturating_add(length) <= bounds.end);
    starts.sort_unstable();
    starts.dedup();
    Ok(starts)
}

/// How many lines the extents have that begin in the stretch.
fn cost(placed: &[Placed], sums: &[u64], line: u64, length: u64) -> u64 {
    let behind = line.saturating_add(length);
    let from = placed.partition_point(|one| one.first_line() < line);
    let to = placed.partition_point(|one| one.first_line() < behind);
    sum_at(sums, to).saturating_sub(sum_at(sums, from))
}

fn sum_at(sums: &[u64], at: usize) -> u64 {
    sums.get(at).copied().unwrap_or(0)
}
