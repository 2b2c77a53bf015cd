//! Plans, which are given out only where they were played through and left the run.
ghost use Rattle.std.specs.Prelude.{◌≡◌, ◌↔◌, IsTrue, IfOk, IfSome, None};
ghost use Rattle.packing.specs.Moves.{MakesRun};
ghost use Rattle.packing.specs.Sliding.{LeavesRun};

use crate::moves::{Move, ends_by, is_free, replay};
use crate::taken::shows;
use kv_types::Extent;
use std::alloc::{AllocError, Global};

/// The part of an image that is to be used.
#[derive(Clone, Copy)]
pub(crate) struct Bounds {
    /// Its first line.
    pub(crate) first: u64,
    /// The line behind those in which runs are wanted.
    pub(crate) end: u64,
    /// The line behind all to which an extent may go.
    pub(crate) lines: u64,
}

/// Whether each move goes to free lines at its turn and the lines of `run` are free behind them all.
///
/// Mostly this shows on a table of the lines (`shows`). Where it does not, each move is played against every extent.
pub(crate) fn leaves_run(
    alloc: Global,
    bounds: Bounds,
    extents: &[Extent],
    moves: &[Move],
    run: Extent,
) -> Result<bool, AllocError>
    ensures { IfOk result (λ leaves. IsTrue leaves ↔ LeavesRun bounds.first bounds.end bounds.lines run extents.now moves.now) }
{
    if run.first_line < bounds.first || !ends_by(run, bounds.end) {
        return Ok(false);
    }
    if shows(alloc, bounds.first, bounds.lines, extents, moves, run)? {
        return Ok(true);
    }
    let Some(left) = replay(alloc, bounds.first, bounds.lines, extents, moves)? else {
        return Ok(false);
    };
    Ok(is_free(run, left.as_slice()))
}

/// The moves, where each goes to free lines at its turn and the lines of `run` are free behind them all.
pub(crate) fn checked(
    alloc: Global,
    bounds: Bounds,
    extents: &[Extent],
    moves: Vec<Move>,
    run: Extent,
) -> Result<Option<Vec<Move>>, AllocError>
    ensures plan { IfOk result (λ plan. IfSome plan (λ moves. MakesRun bounds.first bounds.end bounds.lines run.lines extents.now moves.items)) }
    ensures none { IfOk result (λ plan. plan ≡ None → ¬ LeavesRun bounds.first bounds.end bounds.lines run extents.now moves.items) }
{
    if leaves_run(alloc, bounds, extents, moves.as_slice(), run)? {
        Ok(Some(moves))
    } else {
        Ok(None)
    }
}
