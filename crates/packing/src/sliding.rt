//! Extents that slide down to the first line, one behind another, by way of the lines behind them.
ghost use Rattle.std.specs.Prelude.{◌≡◌, ◌+◌, ◌^◌, ◌<◌, ◌++◌, ℕ, List, IfOk, IfSome, OnOk, None};
ghost use Rattle.kv_types.specs.declared.place.Extent.{Extent as Lines};
ghost use Rattle.packing.specs.Moves.{MakesRun};
ghost use Rattle.packing.specs.Sliding.{CanSlide, IsInOrder, LeavesRun, step};

use crate::moves::Move;
use crate::placed::{Placed, in_order};
use crate::plan::{Bounds, checked};
use kv_types::Extent;
use std::alloc::{AllocError, Global};

/// Moves that let extents slide down, the lowest first, until a run of `need` free lines lies from `first` up to but not including `end`. Each goes to lines
/// from `first` up to `lines` that no extent has at its turn. `None` where none were found.
///
/// An extent goes straight down where the hole below it is long enough; where it is not, it goes to the lines from `end` on, and from there down. So there are
/// moves wherever the extents share no line, lie between `first` and `end`, have no more lines each than there are from `end` up to `lines`, and leave `need`
/// lines free in all. They may be more than other plans take. They are checked on a table of one byte for each of `lines`. `AllocError` where memory was
/// refused.
pub fn slide_down(
    alloc: Global,
    extents: &[Extent],
    first: u64,
    end: u64,
    lines: u64,
    need: u64,
) -> Result<Option<Vec<Move>>, AllocError>
    ensures plan { IfOk result (λ plan. IfSome plan (λ moves. MakesRun first end lines need extents.now moves.items)) }
    ensures found { CanSlide first end lines need extents.now → IfOk result (λ plan. ¬ (plan ≡ None)) }
{
    let bounds = Bounds { first, end, lines };
    let placed = in_order(alloc, extents)?;
    let slid = slide(alloc, placed.as_slice(), first, end, need)?;
    let run = Extent {
        first_line: slid.floor,
        lines: need,
    };
    checked(alloc, bounds, extents, slid.moves, run)
}

/// Extents that slid down.
#[derive(Drop)]
struct Slid {
    moves: Vec<Move>,
    /// The line to which the next one goes.
    floor: u64,
}

/// Lets the extents slide down to `first`, the lowest first, until `need` free lines lie above the last of them.
fn slide(
    alloc: Global,
    placed: &[Placed],
    first: u64,
    end: u64,
    need: u64,
) -> Result<Slid, AllocError>
    ensures { IfOk result (λ slid. (lines : ℕ) (extents : List Lines) → IsInOrder extents placed.now → CanSlide first end lines need extents
        → LeavesRun first end lines (record { first_line = slid.floor; lines = need }) extents slid.moves.items) }
{
    let mut slid = Slid {
        moves: Vec::new(alloc),
        floor: first,
    };
    for one in placed {
        if one.first_line().saturating_sub(slid.floor) >= need {
            return Ok(slid);
        }
        slid.take(*one, end)?;
    }
    Ok(slid)
}

impl Slid {
    /// The extent goes down to the floor: straight, or by way of the lines from `end` on.
    fn take(&mut self, one: Placed, end: u64) -> Result<(), AllocError>
        ensures moves { OnOk result (self.old.floor + one.extent.lines < 2 ^ 64
            → self.new.moves.items ≡ self.old.moves.items ++ (step end self.old.floor one).0) }
        ensures floor { OnOk result (one.extent.first_line + one.extent.lines < 2 ^ 64 → self.old.floor + one.extent.lines < 2 ^ 64
            → self.new.floor ≡ (step end self.old.floor one).1) }
    {
        if one.first_line() <= self.floor {
            self.floor = one.end();
            return Ok(());
        }
        let behind = self.floor.saturating_add(one.lines());
        if behind > one.first_line() {
            self.moves.push(one.to(end))?;
        }
        self.moves.push(one.to(self.floor))?;
        self.floor = behind;
        Ok(())
    }
}
