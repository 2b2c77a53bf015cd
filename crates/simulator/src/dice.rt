//! Numbers that are drawn.
ghost use Rattle.std.specs.Prelude.{◌<◌};

use rand_core::{Rng, SeedableRng};
use rand_xoshiro::Xoshiro256PlusPlus;

/// Draws numbers. The same seed gives the same numbers, always.
#[derive(Drop)]
pub struct Dice {
    generator: Xoshiro256PlusPlus,
}

impl Dice {
    pub fn new(seed: u64) -> Dice {
        Dice {
            generator: Xoshiro256PlusPlus::seed_from_u64(seed),
        }
    }

    /// Any number.
    pub fn number(&mut self) -> u64 {
        self.generator.next_u64()
    }

    /// A number below `count`.
    pub fn below(&mut self, count: u64) -> u64
        requires { 0 < count }
        ensures { result < count }
    {
        self.generator.next_u64() % count
    }

    /// Whether one of `count` times.
    pub fn is_one_of(&mut self, count: u64) -> bool
        requires { 0 < count }
    {
        self.below(count) == 0
    }

    /// One of these, which are not none.
    pub fn one_of<'a, T>(&mut self, all: &'a [T]) -> Option<&'a T> {
        if all.is_empty() {
            return None;
        }
        let place = self.below(all.len() as u64);
        all.get(place as usize)
    }
}
