//! Forks that hold no run: made when memory may be asked for, and used when it may not.
ghost use Rattle.std.specs.Prelude.{◌≡◌, ◌+◌, ◌-◌, ◌<◌, ◌≤◌, [], ◌∷◌, ◌++◌, length, vec_len, MatchOption, OnOk};
ghost use Rattle.std.specs.Vec.{vec_capacity};
ghost use Rattle.extent_heap.specs.Runs.{some_run};

use crate::tree::{Fork, Tree};
use kv_types::Extent;
use std::alloc::{AllocError, Global};

/// Forks that hold no run.
#[derive(Drop)]
pub(crate) struct Spare {
    alloc: Global,
    pub(crate) forks: Vec<Box<Fork>>,
    /// How many forks were made. Each is spare or in the tree.
    pub(crate) made: usize,
}

impl Spare {
    pub(crate) fn new(alloc: Global) -> Spare
        ensures none { vec_len result.forks ≡ 0 }
        ensures made { result.made ≡ 0 }
    {
        Spare {
            alloc,
            forks: Vec::new(alloc),
            made: 0,
        }
    }

    /// Makes forks until so many are spare. Fails where a growth was refused, and then may have made some.
    pub(crate) fn make(&mut self, wanted: usize) -> Result<(), AllocError>
        requires counted { vec_len (self.old).forks ≤ (self.old).made }
        requires room { (self.old).made ≤ vec_capacity (self.old).forks }
        ensures enough { OnOk result (wanted ≤ vec_len (self.new).forks) }
        ensures more { vec_len (self.old).forks ≤ vec_len (self.new).forks }
        ensures counted { (self.new).made + vec_len (self.old).forks ≡ (self.old).made + vec_len (self.new).forks }
        ensures room { (self.new).made ≤ vec_capacity (self.new).forks }
    {
        while self.forks.len() < wanted {
            self.make_one()?;
        }
        Ok(())
    }

    fn make_one(&mut self) -> Result<(), AllocError>
        requires counted { vec_len (self.old).forks ≤ (self.old).made }
        requires room { (self.old).made ≤ vec_capacity (self.old).forks }
        ensures one_more { OnOk result (vec_len (self.new).forks ≡ vec_len (self.old).forks + 1) }
        ensures more { vec_len (self.old).forks ≤ vec_len (self.new).forks }
        ensures counted { (self.new).made + vec_len (self.old).forks ≡ (self.old).made + vec_len (self.new).forks }
        ensures room { (self.new).made ≤ vec_capacity (self.new).forks }
    {
        self.forks.reserve(self.made - self.forks.len() + 1)?;
        let fork = Box::new(self.alloc, Fork::new())?;
        self.forks.push_reserved(fork);
        self.made += 1;
        Ok(())
    }

    /// The runs with this one behind them, in a spare fork; without it if it has no line.
    pub(crate) fn push(&mut self, runs: Tree, run: Extent) -> Tree
        requires { 0 < vec_len (self.old).forks }
        ensures runs { result ≡ runs ++ some_run run }
        ensures forks { vec_len (self.new).forks + length result ≡ vec_len (self.old).forks + length runs }
        ensures one { vec_len (self.old).forks ≤ vec_len (self.new).forks + 1 }
        ensures made { (self.new).made ≡ (self.old).made }
        ensures room { vec_capacity (self.new).forks ≡ vec_capacity (self.old).forks }
    {
        if run.lines == 0 {
            return runs;
        }
        let fork = self.forks.pop().unwrap();
        runs.join(Tree::single(fork, run))
    }

    /// Takes the last run out. Its fork is then spare.
    pub(crate) fn pop_last(&mut self, runs: Tree) -> (Tree, Option<Extent>)
        requires { vec_len (self.old).forks + length runs ≤ vec_capacity (self.old).forks }
        ensures runs { MatchOption result.1 ((runs ≡ []) × (result.0 ≡ [])) (λ run. runs ≡ result.0 ++ run ∷ []) }
        ensures forks { vec_len (self.new).forks + length result.0 ≡ vec_len (self.old).forks + length runs }
        ensures made { (self.new).made ≡ (self.old).made }
        ensures room { vec_capacity (self.new).forks ≡ vec_capacity (self.old).forks }
    {
        let (rest, last) = runs.pop_last();
        match last {
            None => (rest, None),
            Some(fork) => {
                let run = fork.run;
                self.forks.push_reserved(fork);
                (rest, Some(run))
            }
        }
    }

    /// Takes the first run out. Its fork is then spare.
    pub(crate) fn pop_first(&mut self, runs: Tree) -> (Option<Extent>, Tree)
        requires { vec_len (self.old).forks + length runs ≤ vec_capacity (self.old).forks }
        ensures runs { MatchOption result.0 ((runs ≡ []) × (result.1 ≡ [])) (λ run. runs ≡ run ∷ result.1) }
        ensures forks { vec_len (self.new).forks + length result.1 ≡ vec_len (self.old).forks + length runs }
        ensures made { (self.new).made ≡ (self.old).made }
        ensures room { vec_capacity (self.new).forks ≡ vec_capacity (self.old).forks }
    {
        let (first, rest) = runs.pop_first();
        match first {
            None => (None, rest),
            Some(fork) => {
                let run = fork.run;
                self.forks.push_reserved(fork);
                (Some(run), rest)
            }
        }
    }
}
