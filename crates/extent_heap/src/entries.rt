//! The free entries, one bit for each.
ghost use Rattle.std.specs.Prelude.{◌≡◌, ℕ, ◌<◌, Bool, true, false, not, set, get_or, IfOk, MatchOption, replicate, length};
ghost use Rattle.extent_heap.specs.Entries.{count_free, is_free, IsLowest};

use crate::bits::{Bits, WORD_BITS};
use std::alloc::{AllocError, Global};
use std::marker::Model;

/// How many entries a word of `EntrySet::words` stands for.
const BLOCK_ENTRIES: usize = 4096;

/// How many entries a word of `EntrySet::blocks` stands for.
const TOP_ENTRIES: usize = 262144;

/// The free entries of an image. A clause sees them as a list: item `i` tells whether entry `i` is free.
///
/// A set of marks over the words of another tells which of them are not 0. So the lowest entry is found in three steps, the first of which looks at
/// one word for each 262,144 entries.
#[derive(Drop)]
pub(crate) struct EntrySet {
    end: u64,
    /// The free entries.
    entries: Bits,
    /// The words of `entries` that are not 0.
    words: Bits,
    /// The words of `words` that are not 0.
    blocks: Bits,
    /// How many entries are free.
    free: u64,
}

impl Model for EntrySet {
    ghost use Rattle.std.specs.Prelude.{Bool, List};
    ghost use Rattle.extent_heap.specs.Bits.{flags};
    ghost use Rattle.extent_heap.specs.EntrySet.{IsEntrySet};

    ghost Value = { List Bool };

    ghost view = { λ set. flags set.entries.words.items set.end };

    ghost invariant = { λ set. IsEntrySet set.end set.entries.words.items set.words.words.items set.blocks.words.items set.free };
}

impl EntrySet {
    /// All entries below `end`, an eighth of a byte for each.
    pub(crate) fn new(alloc: Global, end: u64) -> Result<EntrySet, AllocError>
        ensures { IfOk result (λ entries. entries ≡ replicate end true) }
    {
        let mut entries = EntrySet::none(alloc, end)?;
        for entry in 0..end {
            entries.assign(entry, true);
        }
        Ok(entries)
    }

    /// None of the entries below `end`.
    fn none(alloc: Global, end: u64) -> Result<EntrySet, AllocError>
        ensures { IfOk result (λ entries. entries ≡ replicate end false) }
    {
        let count = end as usize;
        Ok(EntrySet {
            end,
            entries: Bits::new(alloc, count / WORD_BITS + 1)?,
            words: Bits::new(alloc, count / BLOCK_ENTRIES + 1)?,
            blocks: Bits::new(alloc, count / TOP_ENTRIES + 1)?,
            free: 0,
        })
    }

    /// How many entries are free.
    pub(crate) fn count(&self) -> u64
        ensures { result ≡ count_free self.now }
    {
        self.free
    }

    /// The lowest free entry.
    pub(crate) fn lowest(&self) -> Option<u64>
        ensures { MatchOption result ((i : ℕ) → is_free self.now i ≡ false) (IsLowest self.now) }
    {
        let Some(top) = self.blocks.first_word() else {
            return None;
        };
        let block = self.blocks.first_of(top);
        let word = self.words.first_of(block);
        Some(self.entries.first_of(word) as u64)
    }

    /// Makes the entry free, which was not, or no longer free.
    pub(crate) fn assign(&mut self, entry: u64, free: bool)
        requires within { entry < length self.old }
        requires changes { is_free self.old entry ≡ not free }
        ensures { self.new ≡ set self.old entry free }
    {
        let number = entry as usize;
        let any = self.entries.assign(number, free);
        let any = self.words.assign(number / WORD_BITS, any);
        self.blocks.assign(number / BLOCK_ENTRIES, any);
        self.free = if free { self.free + 1 } else { self.free - 1 };
    }
}
