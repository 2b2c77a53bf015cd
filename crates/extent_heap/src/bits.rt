//! Numbers that are marked, one bit for each.
ghost use Rattle.std.specs.Prelude.{◌≡◌, ℕ, ◌+◌, ◌*◌, ◌/◌, ◌^◌, ◌<◌, ◌≤◌, IfOk, MatchOption, replicate, get_or, length};
ghost use Rattle.extent_heap.specs.Bits.{Assigns, IsFirstBit, IsFirstWord};

use std::alloc::{AllocError, Global};

/// How many numbers a word has.
pub(crate) const WORD_BITS: usize = 64;

/// Numbers that are marked: number `i` is where bit `i % 64` of word `i / 64` is 1.
#[derive(Drop)]
pub(crate) struct Bits {
    words: Vec<u64>,
}

impl Bits {
    /// So many words, in which no number is marked.
    pub(crate) fn new(alloc: Global, words: usize) -> Result<Bits, AllocError>
        ensures { IfOk result (λ bits. bits.words.items ≡ replicate words 0) }
    {
        let words = vec![in alloc; 0; words]?;
        Ok(Bits { words })
    }

    /// Marks the number, or does so no more. Answers whether its word has a number that is marked.
    pub(crate) fn assign(&mut self, number: usize, mark: bool) -> bool
        requires { number / 64 < length self.old.words.items }
        ensures { Assigns self.old.words.items number mark self.new.words.items result }
    {
        let at = number / WORD_BITS;
        let bit = 1 << (number % WORD_BITS);
        let word = self.words[at];
        let word = if mark { word | bit } else { word & !bit };
        self.words[at] = word;
        word != 0
    }

    /// The first word that has a number that is marked.
    pub(crate) fn first_word(&self) -> Option<usize>
        ensures { MatchOption result ((k : ℕ) → get_or self.now.words.items k 0 ≡ 0) (IsFirstWord self.now.words.items) }
    {
        self.words.iter().position(|word| *word != 0)
    }

    /// The lowest number that is marked, which is one of this word.
    pub(crate) fn first_of(&self, word: usize) -> usize
        requires first { IsFirstWord self.now.words.items word }
        requires small { 64 * length self.now.words.items ≤ 2 ^ 64 }
        ensures { IsFirstBit self.now.words.items result }
    {
        word * WORD_BITS + self.words[word].trailing_zeros() as usize
    }
}
