//! Runs in order, in a balanced tree: each fork knows the length of the longest run at and below it.
//!
//! The tree is a treap (Seidel and Aragon, "Randomized search trees", 1996): where two trees are joined, the root of the higher rank comes above. A fork's
//! rank is made from the line where its run ends, so that it takes no memory, and stays as it is when lines are claimed from the run's front. The ranks
//! are spread as if by chance, so the tree is some 2 log2(runs) deep. A fork whose run grows at its end keeps its place, though its rank is then another:
//! the tree is hardly deeper for that. Nothing but the time that a call takes rests on the ranks.
ghost use Rattle.std.specs.Prelude.{◌≡◌, ◌-◌, ◌<◌, false, IsTrue, [], ◌∷◌, ◌++◌, MatchOption};
ghost use Rattle.extent_heap.specs.Below.{lines_below, pieces_below};
ghost use Rattle.extent_heap.specs.OneRun.{FindsRun, Replaces};
ghost use Rattle.extent_heap.specs.Runs.{longest, pieces, IsFirstFit, TellsPart};
ghost use Rattle.extent_heap.specs.Split.{IsSplit};
ghost use Rattle.extent_heap.specs.Tree.{runs_at};

use kv_types::Extent;
use std::marker::Model;
use std::mem;

/// Runs in order. A clause sees them as a list.
#[cycle(tree)]
#[derive(Drop)]
pub(crate) struct Tree {
    root: Option<Box<Fork>>,
}

/// A run, with those before it and those behind it.
#[cycle(tree)]
#[derive(Drop)]
pub(crate) struct Fork {
    left: Tree,
    pub(crate) run: Extent,
    right: Tree,
    /// How many lines the longest run at and below this fork has.
    longest: u64,
}

impl Model for Tree {
    ghost use Rattle.std.specs.Prelude.{List, length};
    ghost use Rattle.kv_types.specs.declared.place.Extent.{Extent};

    ghost Value = { List Extent };

    ghost use Rattle.extent_heap.specs.Tree.{runs_of, IsSummed};

    ghost view = { λ tree. runs_of tree.root };

    ghost invariant = { λ tree. IsSummed tree.root };

    ghost size = { length };

    ghost use Rattle.std.proofs.Common.{arith, length-append};

    ghost size_decreases = { λ tree summed. Prim.grind (arith, length-append) };
}

impl Fork {
    /// A fork that holds no run yet.
    pub(crate) fn new() -> Fork {
        Fork {
            left: Tree::new(),
            run: Extent {
                first_line: 0,
                lines: 0,
            },
            right: Tree::new(),
            longest: 0,
        }
    }

    fn rank(&self) -> u64 {
        rank_of(self.run.first_line.wrapping_add(self.run.lines))
    }

    /// Finds the longest run anew, after the fork's own run or those below it changed.
    #[tactic(auto, using(crate::proofs::RunsLemmas::longest_fork))]
    fn sum(&mut self)
        ensures { self.new ≡ record self.old { longest = longest (runs_at self.old) } }
    {
        self.longest = self
            .left
            .longest()
            .max(self.run.lines)
            .max(self.right.longest());
    }
}

impl Tree {
    pub(crate) fn new() -> Tree
        ensures { result ≡ [] }
    {
        Tree { root: None }
    }

    /// How many lines the longest run has: 0 if there is no run.
    pub(crate) fn longest(&self) -> u64
        ensures { result ≡ longest self.now }
    {
        match &self.root {
            None => 0,
            Some(fork) => fork.longest,
        }
    }

    /// The fork with the runs before and behind it. Its own sum is made anew.
    fn of(mut fork: Box<Fork>) -> Tree
        ensures { result ≡ fork.value.left ++ fork.value.run ∷ fork.value.right }
    {
        fork.sum();
        Tree { root: Some(fork) }
    }

    /// One run, in a fork that was not in use.
    pub(crate) fn single(mut fork: Box<Fork>, run: Extent) -> Tree
        ensures { result ≡ run ∷ [] }
    {
        fork.left = Tree::new();
        fork.run = run;
        fork.right = Tree::new();
        Tree::of(fork)
    }

    /// These runs, and then the others.
    pub(crate) fn join(self, others: Tree) -> Tree
        ensures { result ≡ self ++ others }
    {
        let Some(mut before) = self.root else {
            return others;
        };
        let Some(mut after) = others.root else {
            return Tree { root: Some(before) };
        };
        if before.rank() >= after.rank() {
            let inner = mem::replace(&mut before.right, Tree::new());
            before.right = inner.join(Tree { root: Some(after) });
            Tree::of(before)
        } else {
            let inner = mem::replace(&mut after.left, Tree::new());
            after.left = Tree { root: Some(before) }.join(inner);
            Tree::of(after)
        }
    }

    /// The runs that begin below the line, and the others.
    pub(crate) fn split(self, line: u64) -> (Tree, Tree)
        ensures { IsSplit line self result.0 result.1 }
    {
        let Some(mut fork) = self.root else {
            return (Tree::new(), Tree::new());
        };
        if fork.run.first_line < line {
            let inner = mem::replace(&mut fork.right, Tree::new());
            let (below, rest) = inner.split(line);
            fork.right = below;
            (Tree::of(fork), rest)
        } else {
            let inner = mem::replace(&mut fork.left, Tree::new());
            let (below, rest) = inner.split(line);
            fork.left = rest;
            (below, Tree::of(fork))
        }
    }

    /// Takes the last run out, with its fork. The fork's other parts mean nothing.
    pub(crate) fn pop_last(self) -> (Tree, Option<Box<Fork>>)
        ensures { MatchOption result.1 ((self ≡ []) × (result.0 ≡ [])) (λ fork. self ≡ result.0 ++ fork.value.run ∷ []) }
    {
        let Some(mut fork) = self.root else {
            return (Tree::new(), None);
        };
        let inner = mem::replace(&mut fork.right, Tree::new());
        let (rest, last) = inner.pop_last();
        match last {
            None => {
                let left = mem::replace(&mut fork.left, Tree::new());
                (left, Some(fork))
            }
            Some(last) => {
                fork.right = rest;
                (Tree::of(fork), Some(last))
            }
        }
    }

    /// Takes the first run out, with its fork. The fork's other parts mean nothing.
    pub(crate) fn pop_first(self) -> (Option<Box<Fork>>, Tree)
        ensures { MatchOption result.0 ((self ≡ []) × (result.1 ≡ [])) (λ fork. self ≡ fork.value.run ∷ result.1) }
    {
        let Some(mut fork) = self.root else {
            return (None, Tree::new());
        };
        let inner = mem::replace(&mut fork.left, Tree::new());
        let (first, rest) = inner.pop_first();
        match first {
            None => {
                let right = mem::replace(&mut fork.right, Tree::new());
                (Some(fork), right)
            }
            Some(first) => {
                fork.left = rest;
                (Some(first), Tree::of(fork))
            }
        }
    }

    /// Puts another run in the place of this one. Answers whether it was there: where not, nothing changed.
    pub(crate) fn replace(&mut self, run: Extent, by: Extent) -> bool
        ensures replaces { IsTrue result → Replaces self.old run by self.new }
        ensures same { result ≡ false → self.new ≡ self.old }
    {
        let Some(fork) = &mut self.root else {
            return false;
        };
        let is_there = if fork.run == run {
            fork.run = by;
            true
        } else if run.first_line < fork.run.first_line {
            fork.left.replace(run, by)
        } else {
            fork.right.replace(run, by)
        };
        fork.sum();
        is_there
    }

    /// The run that has this line.
    pub(crate) fn run_at(&self, line: u64) -> Option<Extent>
        ensures { FindsRun self.now line result }
    {
        let mut tree = self;
        while let Some(fork) = &tree.root {
            if line < fork.run.first_line {
                tree = &fork.left;
            } else if line - fork.run.first_line < fork.run.lines {
                return Some(fork.run);
            } else {
                tree = &fork.right;
            }
        }
        None
    }

    /// The first run of at least this many lines.
    pub(crate) fn first_fit(&self, lines: u64) -> Option<Extent>
        requires { 0 < lines }
        ensures { MatchOption result (longest self.now < lines) (λ run. IsFirstFit lines self.now run) }
    {
        match &self.root {
            None => None,
            Some(fork) => {
                if fork.left.longest() >= lines {
                    fork.left.first_fit(lines)
                } else if fork.run.lines >= lines {
                    Some(fork.run)
                } else {
                    fork.right.first_fit(lines)
                }
            }
        }
    }

    /// Whether one run holds all lines of the extent.
    pub(crate) fn holds(&self, extent: Extent) -> bool
        requires { 0 < extent.lines }
        ensures { TellsPart self.now extent result }
    {
        match self.run_at(extent.first_line) {
            None => false,
            Some(run) => extent.lines <= run.lines - (extent.first_line - run.first_line),
        }
    }

    /// How many of so many extents of this many lines cannot be cut from the runs. It looks no further once there are enough.
    #[tactic(auto, using(crate::proofs::RunsLemmas::none_short))]
    pub(crate) fn lacking(&self, lines: u64, wanted: u64) -> u64
        requires { 0 < lines }
        ensures { result ≡ wanted - pieces lines self.now }
    {
        if wanted == 0 {
            return 0;
        }
        if self.longest() < lines {
            return wanted;
        }
        match &self.root {
            None => wanted,
            Some(fork) => {
                let before = fork.left.lacking(lines, wanted);
                let here = before.saturating_sub(fork.run.lines / lines);
                fork.right.lacking(lines, here)
            }
        }
    }

    /// How many of so many extents of this many lines cannot be cut from the runs below `end`. It looks no further once there are enough.
    #[tactic(auto, using(crate::proofs::BelowLemmas::none_short_below))]
    pub(crate) fn lacking_below(&self, lines: u64, end: u64, wanted: u64) -> u64
        requires { 0 < lines }
        ensures { result ≡ wanted - pieces_below lines end self.now }
    {
        if wanted == 0 {
            return 0;
        }
        if self.longest() < lines {
            return wanted;
        }
        match &self.root {
            None => wanted,
            Some(fork) => {
                let before = fork.left.lacking_below(lines, end, wanted);
                let here = before.saturating_sub(lines_below(fork.run, end) / lines);
                fork.right.lacking_below(lines, end, here)
            }
        }
    }
}

/// How many lines of the run lie below `end`.
fn lines_below(run: Extent, end: u64) -> u64
    ensures { result ≡ lines_below end run }
{
    run.lines.min(end.saturating_sub(run.first_line))
}

/// The rank of the fork of a run that ends at this line: a number that looks random (Steele, Lea and Flood, "Fast splittable pseudorandom number
/// generators", 2014).
fn rank_of(end_line: u64) -> u64 {
    let spread = end_line.wrapping_mul(0x9E37_79B9_7F4A_7C15);
    let mixed = (spread ^ (spread >> 30)).wrapping_mul(0xBF58_476D_1CE4_E5B9);
    let mixed = (mixed ^ (mixed >> 27)).wrapping_mul(0x94D0_49BB_1331_11EB);
    mixed ^ (mixed >> 31)
}
