// The words of a device in memory.
ghost use Rattle.std.specs.Prelude.{◌≡◌, ℕ, ◌+◌, ◌-◌, ◌*◌, ◌/◌, ◌%◌, ◌^◌, ◌<◌, ◌≤◌, ◌++◌, [], List, length, replicate, set, take, drop, slice_index, vec_len, vec_capacity, true, IsTrue, IfOk, OnOk};
ghost use Rattle.pmem.specs.Device.{settled};
ghost use Rattle.pmem.specs.History.{words_of, past_of, failures_of};
ghost use Rattle.pmem_file.specs.Byte.{bytes_of, words_in};
ghost use Rattle.journal.specs.Record.{Record};
ghost use Rattle.journal.specs.Journal.{IsJournal};
ghost use Rattle.journal.specs.Replay.{replayed};

use crate::bytes::{are_zeros, decode};
use journal::replay;
use pmem::History;
use std::alloc::{AllocError, Global};
use std::marker::Model;

/// Words of a device, for all of which there is room. Those behind the last block that was read with another byte than 0, and behind the last that was set
/// since, are not kept: each of them is 0, and its place in memory is not touched. A clause sees the list of all words.
#[derive(Drop)]
pub struct Words {
    /// The first words.
    kept: Vec<u64>,
    /// How many words there are, kept or not.
    count: usize,
}

impl Model for Words {
    ghost use Rattle.std.specs.Prelude.{ℕ, ◌-◌, ◌≤◌, ◌++◌, List, length, replicate, vec_capacity};

    ghost Value = { List ℕ };

    ghost view = { λ words. words.kept.items ++ replicate (words.count - length words.kept.items) 0 };

    ghost invariant = { λ words. (length words.kept.items ≤ words.count) × (words.count ≤ vec_capacity words.kept) };
}

impl Words {
    /// No words, with room for so many.
    pub fn new(alloc: Global, room: usize) -> Result<Words, AllocError>
        ensures { IfOk result (λ words. words ≡ []) }
    {
        Ok(Words {
            kept: Vec::with_capacity(alloc, room)?,
            count: 0,
        })
    }

    /// How many words there are.
    pub fn len(&self) -> usize
        ensures value { result ≡ length self.now }
        ensures fit { (word : ℕ) → slice_index self.now word < 2 ^ 64 }
    {
        fit(&self.kept);
        self.count
    }

    /// The word at this place, and 0 where there is none.
    #[inline]
    pub fn get(&self, word: usize) -> u64
        ensures { result ≡ slice_index self.now word }
    {
        match self.kept.get(word) {
            Some(value) => *value,
            None => 0,
        }
    }

    /// The first words, all that another than 0 is among.
    pub fn kept(&self) -> &[u64]
        ensures { (word : ℕ) → slice_index result.now word ≡ slice_index self.now word }
    {
        &self.kept
    }

    /// Whether each word from this one on is 0.
    pub fn are_zeros_from(&self, first: usize) -> bool
        ensures { result ≡ true → (word : ℕ) → first ≤ word → slice_index self.now word ≡ 0 }
    {
        for word in first..self.count {
            if self.get(word) != 0 {
                return false;
            }
        }
        true
    }

    /// Takes the words from this one on away, and gives them.
    pub fn split_off(&mut self, alloc: Global, at: usize) -> Result<Vec<u64>, AllocError>
        requires { at ≤ length self.old }
        ensures kept { OnOk result (self.new ≡ take at self.old) }
        ensures taken { IfOk result (λ taken. taken.items ≡ drop at self.old) }
    {
        let mut taken = Vec::with_capacity(alloc, self.count - at)?;
        for word in at..self.count {
            taken.push(self.get(word))?;
        }
        self.cut(at);
        Ok(taken)
    }

    /// Lets go of the words from this one on. It takes no memory.
    pub fn cut(&mut self, at: usize)
        requires { at ≤ length self.old }
        ensures { self.new ≡ take at self.old }
    {
        self.kept.truncate(at);
        self.count = at;
    }

    /// Brings the lines of the records at the beginning of a journal to these words, which are those of an image of so many lines. It takes no memory.
    pub fn replay(&mut self, lines: u64, journal: &[u64])
        requires { length self.old ≡ 8 * lines }
        ensures count { length self.new ≡ length self.old }
        ensures replayed { (records : List Record) × IsJournal lines journal.now records
            × ((word : ℕ) → slice_index self.new word ≡ replayed records (λ w. slice_index self.old w) word) }
    {
        replay(lines, journal, &mut self.kept);
        // (behind the lines of the image there is nothing but zeros)
        self.kept.truncate(self.count);
    }

    /// The same words in fresh memory, of which those up to the last that is not 0 are kept.
    pub fn compacted(self, alloc: Global) -> Result<Words, AllocError>
        ensures { IfOk result (λ words. words ≡ self) }
    {
        let (used, _) = self.kept.split_at(up_to_last(&self.kept));
        let mut kept = Vec::with_capacity(alloc, self.count)?;
        kept.extend_from_slice(used)?;
        Ok(Words {
            kept,
            count: self.count,
        })
    }

    /// Puts a value in the place of a word. It takes no memory.
    pub fn set(&mut self, word: usize, value: u64)
        requires { word < length self.old }
        ensures { self.new ≡ set self.old word value }
    {
        fill(&mut self.kept, word + 1);
        self.kept[word] = value;
    }

    /// Adds the words that these bytes are.
    pub fn add(&mut self, bytes: &[u8]) -> Result<(), AllocError>
        ensures words { OnOk result (self.new ≡ self.old ++ words_in bytes.now) }
        ensures whole { OnOk result (length bytes.now % 8 ≡ 0 → bytes_of (words_in bytes.now) ≡ bytes.now) }
    {
        if are_zeros(bytes) {
            self.add_zeros(bytes.len() / 8)
        } else {
            self.add_read(bytes)
        }
    }

    /// Adds so many words that are 0.
    fn add_zeros(&mut self, count: usize) -> Result<(), AllocError>
        ensures { OnOk result (self.new ≡ self.old ++ replicate count 0) }
    {
        let Some(more) = (self.count - self.kept.len()).checked_add(count) else {
            return Err(AllocError);
        };
        self.kept.reserve(more)?;
        self.count += count;
        Ok(())
    }

    /// Adds the words that these bytes are, and keeps all up to them.
    fn add_read(&mut self, bytes: &[u8]) -> Result<(), AllocError>
        ensures words { OnOk result (self.new ≡ self.old ++ words_in bytes.now) }
    {
        fill(&mut self.kept, self.count);
        let done = decode(bytes, &mut self.kept);
        self.count = self.kept.len();
        done
    }

    /// The history of a device that was made with these words, each of them durable.
    pub fn history(&self) -> History
        ensures words { words_of result ≡ (λ word. settled (slice_index self.now word)) }
        ensures past { past_of result ≡ [] }
        ensures failures { failures_of result ≡ 0 }
    {
        History::opened(&self.kept)
    }

    /// Puts the bytes of `count` words from the first on in the place of what the buffer held. It takes no memory.
    pub fn encode(&self, first: usize, count: usize, buffer: &mut Vec<u8>)
        requires within { first + count ≤ length self.now }
        requires room { 8 * count ≤ vec_capacity buffer.old }
        ensures bytes { buffer.new.items ≡ bytes_of (take count (drop first self.now)) }
        ensures capacity { vec_capacity buffer.old ≤ vec_capacity buffer.new }
    {
        // (so many that a sum below fits)
        let _words = self.len();
        buffer.clear();
        for i in 0..count {
            if buffer
                .extend_from_slice(&self.get(first + i).to_le_bytes())
                .is_err()
            {
                unreachable!();
            }
        }
    }
}

/// Makes them so many words at least, by zeros. It takes no memory.
fn fill(words: &mut Vec<u64>, count: usize)
    requires { count ≤ vec_capacity words.old }
    ensures items { words.new.items ≡ words.old.items ++ replicate (count - length words.old.items) 0 }
    ensures capacity { vec_capacity words.new ≡ vec_capacity words.old }
{
    while words.len() < count {
        words.push_reserved(0);
    }
}

/// How many words there are up to the last that is not 0.
fn up_to_last(words: &[u64]) -> usize
    ensures within { result ≤ length words.now }
    ensures last { 0 < result → 0 < slice_index words.now (result - 1) }
    ensures zeros { (word : ℕ) → result ≤ word → slice_index words.now word ≡ 0 }
{
    let mut count = words.len();
    while count > 0 && words[count - 1] == 0 {
        count -= 1;
    }
    count
}

/// A law: words fit in 64 bits, and 0 does too, where there is none.
fn fit(words: &[u64])
    ensures { (word : ℕ) → slice_index words.now word < 2 ^ 64 }
{}
