//! Small cases by hand.

use crate::taken::shows;
use crate::{Move, make_window};
use kv_types::Extent;
use std::alloc::AllocError;

fn lines(first_line: u64, lines: u64) -> Extent {
    Extent { first_line, lines }
}

/// The moves of extents of three lines, each given by its index and the line to which it goes.
fn moves_of_three(moves: [(usize, u64); 4]) -> [Move; 4] {
    moves.map(|(index, line)| Move {
        index,
        to: lines(line, 3),
    })
}

/// An extent of two lines between two holes of two goes into a third: six lines are free then.
#[test]
fn empties_a_window(rt: HostRuntime) -> Result<(), AllocError> {
    let extents = [lines(10, 4), lines(6, 2), lines(0, 4)];
    let plan = make_window(rt.alloc(), &extents, 0, 16, 16, 4, 8)?;
    let moved = Move {
        index: 1,
        to: lines(14, 2),
    };
    assert!(rt; plan.is_some_and(|moves| moves.as_slice() == [moved].as_slice()));
    Ok(())
}

/// Extents of three lines between holes of one go down by way of the four free lines from 11 on.
#[test]
fn pushes_down_by_way_of_the_spare_place(rt: HostRuntime) -> Result<(), AllocError> {
    let extents = [lines(8, 3), lines(0, 3), lines(4, 3)];
    assert!(rt; make_window(rt.alloc(), &extents, 0, 12, 12, 3, 12)?.is_none());
    assert!(rt; make_window(rt.alloc(), &extents, 0, 12, 15, 3, 11)?.is_none());
    let plan = make_window(rt.alloc(), &extents, 0, 12, 15, 3, 12)?;
    let moved = moves_of_three([(2, 12), (2, 3), (0, 12), (0, 6)]);
    assert!(rt; plan.is_some_and(|moves| moves.as_slice() == moved.as_slice()));
    Ok(())
}

/// Moves into lines that earlier ones left show on the table, and not with another line in the run or to lines that are not left.
#[test]
fn moves_into_left_lines_show(rt: HostRuntime) -> Result<(), AllocError> {
    let extents = [lines(8, 3), lines(0, 3), lines(4, 3)];
    let slid = moves_of_three([(2, 12), (2, 3), (0, 12), (0, 6)]);
    assert!(rt; shows(rt.alloc(), 0, 15, &extents, &slid, lines(9, 6))?);
    assert!(rt; !shows(rt.alloc(), 0, 15, &extents, &slid, lines(8, 6))?);
    let straight = moves_of_three([(2, 12), (2, 3), (0, 12), (0, 5)]);
    assert!(rt; !shows(rt.alloc(), 0, 15, &extents, &straight, lines(9, 6))?);
    Ok(())
}
