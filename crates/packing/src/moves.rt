//! Moves, and whether each goes to free lines.
ghost use Rattle.std.specs.Prelude.{◌≡◌, ◌+◌, ◌≤◌, ◌↔◌, IsTrue, IfOk, IfSome, None};
ghost use Rattle.packing.specs.Moves.{are_apart, is_free, IsMove, AreMoves, MovesAtMost, after_moves};

use kv_types::Extent;
use std::alloc::{AllocError, Global};

/// A move of one of the extents that were given.
#[derive(Clone, Copy, Debug, PartialEq, Eq)]
pub struct Move {
    /// Which of them: its index in the list that was given.
    pub index: usize,
    /// Where it goes: as many lines as it has.
    pub to: Extent,
}

/// Whether the extent ends at or below this line.
pub(crate) fn ends_by(extent: Extent, line: u64) -> bool
    ensures { IsTrue result ↔ (extent.first_line + extent.lines ≤ line) }
{
    extent.lines <= line && extent.first_line <= line - extent.lines
}

/// Whether no line is in both.
pub(crate) fn are_apart(a: Extent, b: Extent) -> bool
    ensures { result ≡ are_apart a b }
{
    ends_by(a, b.first_line) || ends_by(b, a.first_line)
}

/// Whether none of the extents has a line of this one.
pub(crate) fn is_free(wanted: Extent, extents: &[Extent]) -> bool
    ensures { result ≡ is_free wanted extents.now }
{
    for extent in extents {
        if !are_apart(wanted, *extent) {
            return false;
        }
    }
    true
}

/// Whether the move goes to as many lines between `first` and `end`, all of them free.
fn is_move(first: u64, end: u64, extents: &[Extent], step: Move) -> bool
    ensures { IsTrue result ↔ IsMove first end extents.now step }
{
    let Some(extent) = extents.get(step.index) else {
        return false;
    };
    extent.lines == step.to.lines
        && first <= step.to.first_line
        && ends_by(step.to, end)
        && is_free(step.to, extents)
}

/// Whether they are at most so many, and move at most so many lines together.
pub(crate) fn moves_at_most(most: u64, moves: &[Move]) -> bool
    ensures { IsTrue result ↔ MovesAtMost most moves.now }
{
    let mut left = most;
    for step in moves {
        if left < step.to.lines {
            return false;
        }
        left -= step.to.lines;
    }
    moves.len() as u64 <= most
}

/// Where the extents lie after these moves. `None` where one of them does not go to free lines between `first` and `end` at its turn.
pub(crate) fn replay(
    alloc: Global,
    first: u64,
    end: u64,
    extents: &[Extent],
    moves: &[Move],
) -> Result<Option<Vec<Extent>>, AllocError>
    ensures are { IfOk result (λ after. IfSome after (λ _. AreMoves first end extents.now moves.now)) }
    ensures none { IfOk result (λ after. after ≡ None → ¬ AreMoves first end extents.now moves.now) }
    ensures after { IfOk result (λ after. IfSome after (λ left. left.items ≡ after_moves extents.now moves.now)) }
{
    let mut left = extents.to_vec(alloc)?;
    for step in moves {
        if !is_move(first, end, left.as_slice(), *step) {
            return Ok(None);
        }
        left[step.index] = step.to;
    }
    Ok(Some(left))
}
