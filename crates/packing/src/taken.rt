//! Plans that are played on a table of the lines that are taken, in one step for each line that moves.
ghost use Rattle.std.specs.Prelude.{◌≡◌, ◌+◌, ◌≤◌, IsTrue, IfOk, IfSome, length, false};
ghost use Rattle.packing.specs.Moves.{AreMoves, IsMove, after_move, after_moves, is_free};
ghost use Rattle.packing.specs.Taken.{AllTaken, IsAll, IsMarked, Takes};

use crate::moves::{Move, ends_by};
use kv_types::Extent;
use std::alloc::{AllocError, Global};

/// Marks the lines of the extent in the table.
fn mark(taken: &mut Vec<bool>, extent: Extent, is_taken: bool)
    requires { extent.first_line + extent.lines ≤ length taken.old.items }
    ensures { IsMarked taken.old.items extent.first_line (extent.first_line + extent.lines) is_taken taken.new.items }
{
    for line in extent.first_line..extent.first_line + extent.lines {
        taken[line as usize] = is_taken;
    }
}

/// Whether the table has the lines of the extent, and none of them is taken.
fn are_free(taken: &[bool], extent: Extent) -> bool
    ensures { IsTrue result → IsAll taken.now false extent }
{
    if !ends_by(extent, taken.len() as u64) {
        return false;
    }
    for line in extent.first_line..extent.first_line + extent.lines {
        if taken[line as usize] {
            return false;
        }
    }
    true
}

/// Takes the lines of the extent. Answers `false`, and takes none, where it has none or one is not free.
fn take(taken: &mut Vec<bool>, extent: Extent) -> bool
    ensures { IsTrue result → Takes taken.old.items extent taken.new.items }
{
    if extent.lines == 0 || !are_free(taken.as_slice(), extent) {
        return false;
    }
    mark(taken, extent, true);
    true
}

/// A table of so many lines, in which those of the extents are taken. `None` where an extent has no line, one that the table has not, or one of another.
fn table(alloc: Global, lines: u64, extents: &[Extent]) -> Result<Option<Vec<bool>>, AllocError>
    ensures taken { IfOk result (λ table. IfSome table (λ taken. AllTaken taken.items extents.now)) }
    ensures lines { IfOk result (λ table. IfSome table (λ taken. length taken.items ≡ lines)) }
{
    let mut taken = vec![in alloc; false; lines as usize]?;
    for extent in extents {
        if !take(&mut taken, *extent) {
            return Ok(None);
        }
    }
    Ok(Some(taken))
}

/// Makes the move, and answers `true`, where it goes to as many lines from `first` on, all of them free.
fn make(first: u64, taken: &mut Vec<bool>, extents: &mut Vec<Extent>, step: Move) -> bool
    requires { AllTaken taken.old.items extents.old.items }
    ensures is { IsTrue result → IsMove first (length taken.old.items) extents.old.items step }
    ensures made { IsTrue result → extents.new.items ≡ after_move extents.old.items step }
    ensures taken { IsTrue result → AllTaken taken.new.items extents.new.items }
    ensures lines { IsTrue result → length taken.new.items ≡ length taken.old.items }
{
    let Some(extent) = extents.get(step.index).copied() else {
        return false;
    };
    if extent.lines != step.to.lines || step.to.first_line < first || !take(taken, step.to) {
        return false;
    }
    mark(taken, extent, false);
    extents[step.index] = step.to;
    true
}

/// Whether it shows on a table, of one byte for each of `lines`, that each move goes to free lines between `first` and `lines` at its turn, and that the lines
/// of `run` are free behind them all. It does not show where an extent, or the run, has no line, or where two extents have one in common.
pub(crate) fn shows(
    alloc: Global,
    first: u64,
    lines: u64,
    extents: &[Extent],
    moves: &[Move],
    run: Extent,
) -> Result<bool, AllocError>
    ensures are { IfOk result (λ shows. IsTrue shows → AreMoves first lines extents.now moves.now) }
    ensures free { IfOk result (λ shows. IsTrue shows → IsTrue (is_free run (after_moves extents.now moves.now))) }
{
    if run.lines == 0 {
        return Ok(false);
    }
    let Some(mut taken) = table(alloc, lines, extents)? else {
        return Ok(false);
    };
    let mut left = extents.to_vec(alloc)?;
    for step in moves {
        if !make(first, &mut taken, &mut left, *step) {
            return Ok(false);
        }
    }
    Ok(are_free(taken.as_slice(), run))
}
