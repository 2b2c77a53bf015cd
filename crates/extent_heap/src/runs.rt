//! Free runs, of which an extent is claimed and to which one is given back. Each call goes a few times down the tree of the runs.
//!
//! A claim from the front of a run, and a give beside just one run, change that run in its fork. Any other takes the tree apart and puts it together.
ghost use Rattle.std.specs.Prelude.{◌≡◌, ◌+◌, ◌^◌, ◌<◌, ◌≤◌, ◌↔◌, false, IsTrue, length, vec_len};
ghost use Rattle.std.specs.Vec.{vec_capacity};
ghost use Rattle.extent_heap.specs.Runs.{AreInOrder, IsApart, IsPart, IsCut, HasGiven, HasClaimed};
ghost use Rattle.extent_heap.specs.Joined.{JoinsLast, JoinsFirst};

use crate::spare::Spare;
use crate::tree::Tree;
use kv_types::Extent;
use std::mem;

/// Gives the runs the lines of the extent, which were in none. Runs that touch become one.
pub(crate) fn give(runs: &mut Tree, spare: &mut Spare, extent: Extent)
    requires ordered { AreInOrder runs.old }
    requires some { 0 < extent.lines }
    requires fits { extent.first_line + extent.lines < 2 ^ 64 }
    requires apart { IsApart runs.old extent }
    requires fork { 0 < vec_len (spare.old).forks }
    requires room { vec_len (spare.old).forks + length runs.old ≤ vec_capacity (spare.old).forks }
    ensures given { HasGiven runs.old extent runs.new }
    ensures forks { vec_len (spare.new).forks + length runs.new ≡ vec_len (spare.old).forks + length runs.old }
    ensures one { vec_len (spare.old).forks ≤ vec_len (spare.new).forks + 1 }
    ensures made { (spare.new).made ≡ (spare.old).made }
    ensures room { vec_capacity (spare.new).forks ≡ vec_capacity (spare.old).forks }
{
    if !lengthen(runs, extent) {
        let whole = mem::replace(runs, Tree::new());
        *runs = rebuild_with(whole, spare, extent);
    }
}

/// Where just one run touches the extent, makes that run longer by it, in its fork. Answers whether it did: where not, nothing changed.
fn lengthen(runs: &mut Tree, extent: Extent) -> bool
    requires ordered { AreInOrder runs.old }
    requires some { 0 < extent.lines }
    requires fits { extent.first_line + extent.lines < 2 ^ 64 }
    requires apart { IsApart runs.old extent }
    ensures given { IsTrue result → HasGiven runs.old extent runs.new }
    ensures as_many { length runs.new ≡ length runs.old }
    ensures same { result ≡ false → runs.new ≡ runs.old }
{
    // Line 0 has none before it. It is then the extent's own, and so in no run either.
    let before = runs.run_at(extent.first_line.saturating_sub(1));
    let behind = runs.run_at(extent.first_line + extent.lines);
    match (before, behind) {
        (Some(run), None) => {
            let joined = Extent {
                first_line: run.first_line,
                lines: run.lines + extent.lines,
            };
            runs.replace(run, joined)
        }
        (None, Some(run)) => {
            let joined = Extent {
                first_line: extent.first_line,
                lines: extent.lines + run.lines,
            };
            runs.replace(run, joined)
        }
        _ => false,
    }
}

/// The runs with the lines of the extent, which were in none. Runs that touch become one.
fn rebuild_with(runs: Tree, spare: &mut Spare, extent: Extent) -> Tree
    requires ordered { AreInOrder runs }
    requires some { 0 < extent.lines }
    requires fits { extent.first_line + extent.lines < 2 ^ 64 }
    requires apart { IsApart runs extent }
    requires fork { 0 < vec_len (spare.old).forks }
    requires room { vec_len (spare.old).forks + length runs ≤ vec_capacity (spare.old).forks }
    ensures given { HasGiven runs extent result }
    ensures forks { vec_len (spare.new).forks + length result ≡ vec_len (spare.old).forks + length runs }
    ensures one { vec_len (spare.old).forks ≤ vec_len (spare.new).forks + 1 }
    ensures made { (spare.new).made ≡ (spare.old).made }
    ensures room { vec_capacity (spare.new).forks ≡ vec_capacity (spare.old).forks }
{
    let (below, rest) = runs.split(extent.first_line);
    let (below, longer) = join_last(below, spare, extent);
    let (joined, rest) = join_first(rest, spare, longer);
    spare.push(below, joined).join(rest)
}

/// The extent, joined with the last run if that ends where it begins; and the other runs.
fn join_last(runs: Tree, spare: &mut Spare, extent: Extent) -> (Tree, Extent)
    requires fits { extent.first_line + extent.lines < 2 ^ 64 }
    requires room { vec_len (spare.old).forks + length runs ≤ vec_capacity (spare.old).forks }
    ensures joins { JoinsLast runs extent result.0 result.1 }
    ensures forks { vec_len (spare.new).forks + length result.0 ≡ vec_len (spare.old).forks + length runs }
    ensures more { vec_len (spare.old).forks ≤ vec_len (spare.new).forks }
    ensures made { (spare.new).made ≡ (spare.old).made }
    ensures room { vec_capacity (spare.new).forks ≡ vec_capacity (spare.old).forks }
{
    let (rest, last) = spare.pop_last(runs);
    match last {
        None => (rest, extent),
        Some(run) => {
            if ends_at(run, extent.first_line) {
                let joined = Extent {
                    first_line: run.first_line,
                    lines: run.lines + extent.lines,
                };
                (rest, joined)
            } else {
                (spare.push(rest, run), extent)
            }
        }
    }
}

/// The extent, joined with the first run if that begins where it ends; and the other runs.
fn join_first(runs: Tree, spare: &mut Spare, extent: Extent) -> (Extent, Tree)
    requires ordered { AreInOrder runs }
    requires fits { extent.first_line + extent.lines < 2 ^ 64 }
    requires room { vec_len (spare.old).forks + length runs ≤ vec_capacity (spare.old).forks }
    ensures joins { JoinsFirst runs extent result.0 result.1 }
    ensures forks { vec_len (spare.new).forks + length result.1 ≡ vec_len (spare.old).forks + length runs }
    ensures more { vec_len (spare.old).forks ≤ vec_len (spare.new).forks }
    ensures made { (spare.new).made ≡ (spare.old).made }
    ensures room { vec_capacity (spare.new).forks ≡ vec_capacity (spare.old).forks }
{
    let (first, rest) = spare.pop_first(runs);
    match first {
        None => (extent, rest),
        Some(run) => {
            if ends_at(extent, run.first_line) {
                let joined = Extent {
                    first_line: extent.first_line,
                    lines: extent.lines + run.lines,
                };
                (joined, rest)
            } else {
                let first = spare.push(Tree::new(), run);
                (extent, first.join(rest))
            }
        }
    }
}

/// Whether the run ends where this line begins.
fn ends_at(run: Extent, line: u64) -> bool
    ensures { IsTrue result ↔ (run.first_line + run.lines ≡ line) }
{
    run.first_line <= line && line - run.first_line == run.lines
}

/// Takes the lines of the extent, all of which are in one run, out of the runs. What is left of that run before and behind the extent stays.
pub(crate) fn claim(runs: &mut Tree, spare: &mut Spare, extent: Extent)
    requires ordered { AreInOrder runs.old }
    requires some { 0 < extent.lines }
    requires part { IsPart runs.old extent }
    requires fork { 0 < vec_len (spare.old).forks }
    requires room { vec_len (spare.old).forks + length runs.old ≤ vec_capacity (spare.old).forks }
    ensures claimed { HasClaimed runs.old extent runs.new }
    ensures forks { vec_len (spare.new).forks + length runs.new ≡ vec_len (spare.old).forks + length runs.old }
    ensures one { vec_len (spare.old).forks ≤ vec_len (spare.new).forks + 1 }
    ensures made { (spare.new).made ≡ (spare.old).made }
    ensures room { vec_capacity (spare.new).forks ≡ vec_capacity (spare.old).forks }
{
    if !shorten(runs, extent) {
        let whole = mem::replace(runs, Tree::new());
        *runs = rebuild_without(whole, spare, extent);
    }
}

/// Where a run begins with the extent and goes on behind it, takes the extent off it, in its fork. Answers whether it did: where not, nothing changed.
fn shorten(runs: &mut Tree, extent: Extent) -> bool
    requires ordered { AreInOrder runs.old }
    requires some { 0 < extent.lines }
    ensures claimed { IsTrue result → HasClaimed runs.old extent runs.new }
    ensures as_many { length runs.new ≡ length runs.old }
    ensures same { result ≡ false → runs.new ≡ runs.old }
{
    let Some(run) = runs.run_at(extent.first_line) else {
        return false;
    };
    if run.first_line < extent.first_line || run.lines <= extent.lines {
        return false;
    }
    let rest = Extent {
        first_line: extent.first_line + extent.lines,
        lines: run.lines - extent.lines,
    };
    runs.replace(run, rest)
}

/// The runs without the lines of the extent, all of which were in one of them. What is left of that run before and behind the extent stays.
fn rebuild_without(runs: Tree, spare: &mut Spare, extent: Extent) -> Tree
    requires ordered { AreInOrder runs }
    requires some { 0 < extent.lines }
    requires part { IsPart runs extent }
    requires fork { 0 < vec_len (spare.old).forks }
    requires room { vec_len (spare.old).forks + length runs ≤ vec_capacity (spare.old).forks }
    ensures claimed { HasClaimed runs extent result }
    ensures forks { vec_len (spare.new).forks + length result ≡ vec_len (spare.old).forks + length runs }
    ensures one { vec_len (spare.old).forks ≤ vec_len (spare.new).forks + 1 }
    ensures made { (spare.new).made ≡ (spare.old).made }
    ensures room { vec_capacity (spare.new).forks ≡ vec_capacity (spare.old).forks }
{
    let (before, run, behind) = cut(runs, spare, extent);
    let end = extent.first_line + extent.lines;
    let front = Extent {
        first_line: run.first_line,
        lines: extent.first_line - run.first_line,
    };
    let back = Extent {
        first_line: end,
        lines: run.first_line + run.lines - end,
    };
    let before = spare.push(before, front);
    let before = spare.push(before, back);
    before.join(behind)
}

/// Takes the run out that has the lines of the extent: the runs before it, the run itself, and those behind it.
fn cut(runs: Tree, spare: &mut Spare, extent: Extent) -> (Tree, Extent, Tree)
    requires ordered { AreInOrder runs }
    requires some { 0 < extent.lines }
    requires part { IsPart runs extent }
    requires room { vec_len (spare.old).forks + length runs ≤ vec_capacity (spare.old).forks }
    ensures cut { IsCut runs extent result.0 result.1 result.2 }
    ensures one_more { vec_len (spare.new).forks ≡ vec_len (spare.old).forks + 1 }
    ensures made { (spare.new).made ≡ (spare.old).made }
    ensures room { vec_capacity (spare.new).forks ≡ vec_capacity (spare.old).forks }
{
    let (below, behind) = runs.split(extent.first_line + 1);
    let (before, last) = spare.pop_last(below);
    match last {
        Some(run) => (before, run, behind),
        None => unreachable!(),
    }
}
