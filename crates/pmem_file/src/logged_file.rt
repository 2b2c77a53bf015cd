// A file with the list of what was asked of it.
ghost use Rattle.std.specs.Prelude.{◌≡◌, ℕ, ◌+◌, ◌*◌, ◌^◌, ◌<◌, ◌≤◌, [], ◌∷◌, true, false, not, length, vec_capacity};
ghost use Rattle.pmem_file.specs.Call.{read_of, calls_of, has_failed, Brings, Wrote, Measured, Synced};
ghost use Rattle.pmem_file.specs.Written.{Writes, MayWrite, Commits, is_among, is_in, from, word_of, blank};
ghost use Rattle.pmem_file.specs.Line.{has_line, runs_of, run_bytes, with_writes, Fixes};

use crate::bytes::{encode, fill_zeros};
use crate::file_calls::FileCalls;
use crate::run::{LINES_A_WRITE, Run};
use crate::words::Words;
use std::fs::File;
use std::io::{Seek, SeekFrom};
use std::os::unix::fs::FileExt;

/// How many words one write has at most.
const WORDS_A_WRITE: usize = 8_192;

/// An open file. Each call of the system stands in a method of its own, which notes it with what came of it.
#[derive(Drop)]
pub struct LoggedFile {
    file: File,
    /// Some call has failed.
    failed: bool,
    calls: FileCalls,
    ghost told: { failed ≡ has_failed (calls_of calls) },
}

impl LoggedFile {
    /// A file that held these words when it was read.
    pub fn new(file: File, words: &Words) -> LoggedFile
        ensures read { read_of result.calls ≡ words.now }
        ensures calls { calls_of result.calls ≡ [] }
    {
        LoggedFile {
            file,
            failed: false,
            calls: FileCalls::read(words),
        }
    }

    /// Whether some call has failed.
    pub fn has_failed(&self) -> bool
        ensures { result ≡ has_failed (calls_of self.now.calls) }
    {
        self.failed
    }

    /// Whether the file is exactly `bytes` bytes long.
    pub fn measure(&mut self, bytes: u64) -> bool
        ensures read { read_of self.new.calls ≡ read_of self.old.calls }
        ensures calls { calls_of self.new.calls ≡ Measured bytes result ∷ calls_of self.old.calls }
    {
        // (to ask for the file's times as well would make each write set them anew)
        let done = self
            .file
            .seek(SeekFrom::End(0))
            .is_ok_and(|length| length == bytes);
        self.failed |= !done;
        self.calls.measured(bytes, done);
        done
    }

    /// Writes bytes from the byte `offset` on.
    fn write(&mut self, offset: u64, bytes: &Vec<u8>) -> bool
        ensures read { read_of self.new.calls ≡ read_of self.old.calls }
        ensures calls { calls_of self.new.calls ≡ Wrote offset bytes.now.items result ∷ calls_of self.old.calls }
    {
        let done = self.file.write_all_at(bytes, offset).is_ok();
        self.failed |= !done;
        self.calls.wrote(offset, bytes, done);
        done
    }

    /// Makes durable what was written.
    pub fn sync(&mut self) -> bool
        ensures read { read_of self.new.calls ≡ read_of self.old.calls }
        ensures calls { calls_of self.new.calls ≡ Synced result ∷ calls_of self.old.calls }
    {
        let done = self.file.sync_data().is_ok();
        self.failed |= !done;
        self.calls.synced(done);
        done
    }

    /// Cuts the file to so many bytes, and makes that durable. Nothing more is asked of it.
    pub fn cut(self, bytes: u64) -> bool {
        self.file.set_len(bytes).is_ok() && self.file.sync_all().is_ok()
    }

    /// Writes a run of lines of these words. The buffer holds its bytes meanwhile.
    pub fn write_run(&mut self, buffer: &mut Vec<u8>, words: &Words, run: Run) -> bool
        requires in_range { 8 * (run.first + run.count) ≤ length words.now }
        requires short { run.count ≤ LINES_A_WRITE }
        requires room { 64 * LINES_A_WRITE ≤ vec_capacity buffer.old }
        requires countable { 8 * length words.now < 2 ^ 64 }
        ensures read { read_of self.new.calls ≡ read_of self.old.calls }
        ensures calls { calls_of self.new.calls
            ≡ Wrote (64 * run.first) (run_bytes words.now (run.first, run.count)) result ∷ calls_of self.old.calls }
        ensures capacity { vec_capacity buffer.old ≤ vec_capacity buffer.new }
    {
        words.encode(8 * run.first as usize, 8 * run.count as usize, buffer);
        self.write(64 * run.first, buffer)
    }

    /// Writes these lines of these words, neighbours by one write, and ends where a write fails.
    pub fn write_lines(&mut self, buffer: &mut Vec<u8>, words: &Words, lines: &[u64]) -> bool
        requires in_range { (line : ℕ) → has_line lines.now line ≡ true → 8 * line + 8 ≤ length words.now }
        requires room { 64 * LINES_A_WRITE ≤ vec_capacity buffer.old }
        requires countable { 8 * length words.now < 2 ^ 64 }
        requires unfailed { has_failed (calls_of self.old.calls) ≡ false }
        ensures read { read_of self.new.calls ≡ read_of self.old.calls }
        ensures done { result ≡ true → calls_of self.new.calls ≡ with_writes words.now (runs_of lines.now) (calls_of self.old.calls) }
        ensures failed { has_failed (calls_of self.new.calls) ≡ not result }
        ensures within { Brings words.now (calls_of self.old.calls) (calls_of self.new.calls) }
        ensures written { result ≡ true → Writes (is_in lines.now) (word_of words.now) (calls_of self.old.calls) (calls_of self.new.calls) }
        ensures only { MayWrite (is_in lines.now) (word_of words.now) (calls_of self.old.calls) (calls_of self.new.calls) }
        ensures capacity { vec_capacity buffer.old ≤ vec_capacity buffer.new }
    {
        let Some((first, later)) = lines.split_first() else {
            return true;
        };
        // (each of them is a word)
        let _words = words.len();
        let mut run = Run::of(*first);
        for line in later {
            if run.is_next(*line) {
                run.count += 1;
            } else if self.write_run(buffer, words, run) {
                run = Run::of(*line);
            } else {
                return false;
            }
        }
        self.write_run(buffer, words, run)
    }

    /// Writes these words from this word of the file on, as many at a time as the buffer has room for, and ends where a write fails.
    pub fn write_words(&mut self, buffer: &mut Vec<u8>, first: u64, words: &[u64]) -> bool
        requires room { 64 * LINES_A_WRITE ≤ vec_capacity buffer.old }
        requires countable { 8 * (first + length words.now) < 2 ^ 64 }
        requires unfailed { has_failed (calls_of self.old.calls) ≡ false }
        ensures read { read_of self.new.calls ≡ read_of self.old.calls }
        ensures failed { has_failed (calls_of self.new.calls) ≡ not result }
        ensures written { result ≡ true
            → Writes (is_among first (length words.now)) (from first words.now) (calls_of self.old.calls) (calls_of self.new.calls) }
        ensures only { MayWrite (is_among first (length words.now)) (from first words.now) (calls_of self.old.calls) (calls_of self.new.calls) }
        ensures capacity { vec_capacity buffer.old ≤ vec_capacity buffer.new }
    {
        let mut at = first;
        let mut rest = words;
        while !rest.is_empty() {
            let (block, later) = rest.split_at(rest.len().min(WORDS_A_WRITE));
            encode(block, buffer);
            if !self.write(8 * at, buffer) {
                return false;
            }
            at += block.len() as u64;
            rest = later;
        }
        true
    }

    /// Writes so many zeros from this word of the file on.
    pub fn write_zeros(&mut self, buffer: &mut Vec<u8>, first: u64, count: u64) -> bool
        requires room { 64 * LINES_A_WRITE ≤ vec_capacity buffer.old }
        requires countable { 8 * (first + count) < 2 ^ 64 }
        requires unfailed { has_failed (calls_of self.old.calls) ≡ false }
        ensures read { read_of self.new.calls ≡ read_of self.old.calls }
        ensures failed { has_failed (calls_of self.new.calls) ≡ not result }
        ensures written { result ≡ true → Writes (is_among first count) blank (calls_of self.old.calls) (calls_of self.new.calls) }
        ensures only { MayWrite (is_among first count) blank (calls_of self.old.calls) (calls_of self.new.calls) }
        ensures capacity { vec_capacity buffer.old ≤ vec_capacity buffer.new }
    {
        let mut at = first;
        let mut left = count;
        while left > 0 {
            let block = left.min(WORDS_A_WRITE as u64);
            fill_zeros(buffer, 8 * block as usize);
            if !self.write(8 * at, buffer) {
                return false;
            }
            at += block;
            left -= block;
        }
        true
    }

    /// Writes these words from this word of the file on, and makes them durable.
    pub fn commit_words(&mut self, buffer: &mut Vec<u8>, first: u64, words: &[u64]) -> bool
        requires room { 64 * LINES_A_WRITE ≤ vec_capacity buffer.old }
        requires countable { 8 * (first + length words.now) < 2 ^ 64 }
        requires unfailed { has_failed (calls_of self.old.calls) ≡ false }
        ensures read { read_of self.new.calls ≡ read_of self.old.calls }
        ensures failed { has_failed (calls_of self.new.calls) ≡ not result }
        ensures committed { result ≡ true
            → Commits (is_among first (length words.now)) (from first words.now) (calls_of self.old.calls) (calls_of self.new.calls) }
        ensures only { MayWrite (is_among first (length words.now)) (from first words.now) (calls_of self.old.calls) (calls_of self.new.calls) }
        ensures capacity { vec_capacity buffer.old ≤ vec_capacity buffer.new }
    {
        if !self.write_words(buffer, first, words) {
            return false;
        }
        self.sync()
    }

    /// Writes so many zeros from this word of the file on, and makes them durable.
    pub fn commit_zeros(&mut self, buffer: &mut Vec<u8>, first: u64, count: u64) -> bool
        requires room { 64 * LINES_A_WRITE ≤ vec_capacity buffer.old }
        requires countable { 8 * (first + count) < 2 ^ 64 }
        requires unfailed { has_failed (calls_of self.old.calls) ≡ false }
        ensures read { read_of self.new.calls ≡ read_of self.old.calls }
        ensures failed { has_failed (calls_of self.new.calls) ≡ not result }
        ensures committed { result ≡ true → Commits (is_among first count) blank (calls_of self.old.calls) (calls_of self.new.calls) }
        ensures only { MayWrite (is_among first count) blank (calls_of self.old.calls) (calls_of self.new.calls) }
        ensures capacity { vec_capacity buffer.old ≤ vec_capacity buffer.new }
    {
        if !self.write_zeros(buffer, first, count) {
            return false;
        }
        self.sync()
    }

    /// Writes these lines of these words, and makes them durable.
    pub fn commit_lines(&mut self, buffer: &mut Vec<u8>, words: &Words, lines: &[u64]) -> bool
        requires in_range { (line : ℕ) → has_line lines.now line ≡ true → 8 * line + 8 ≤ length words.now }
        requires room { 64 * LINES_A_WRITE ≤ vec_capacity buffer.old }
        requires countable { 8 * length words.now < 2 ^ 64 }
        requires unfailed { has_failed (calls_of self.old.calls) ≡ false }
        ensures read { read_of self.new.calls ≡ read_of self.old.calls }
        ensures failed { has_failed (calls_of self.new.calls) ≡ not result }
        ensures committed { result ≡ true → Commits (is_in lines.now) (word_of words.now) (calls_of self.old.calls) (calls_of self.new.calls) }
        ensures only { MayWrite (is_in lines.now) (word_of words.now) (calls_of self.old.calls) (calls_of self.new.calls) }
        ensures capacity { vec_capacity buffer.old ≤ vec_capacity buffer.new }
    {
        if !self.write_lines(buffer, words, lines) {
            return false;
        }
        self.sync()
    }

    /// Brings these lines of these words to the disk, and says whether it did. Nothing more is asked once a call has failed.
    pub fn persist(
        &mut self,
        buffer: &mut Vec<u8>,
        words: &Words,
        lines: &[u64],
        bytes: u64,
    ) -> bool
        requires in_range { (line : ℕ) → has_line lines.now line ≡ true → 8 * line + 8 ≤ length words.now }
        requires room { 64 * LINES_A_WRITE ≤ vec_capacity buffer.old }
        requires countable { 8 * length words.now < 2 ^ 64 }
        ensures read { read_of self.new.calls ≡ read_of self.old.calls }
        ensures done { result ≡ true → calls_of self.new.calls
            ≡ Synced true ∷ with_writes words.now (runs_of lines.now) (Measured bytes true ∷ calls_of self.old.calls) }
        ensures failed { has_failed (calls_of self.new.calls) ≡ not result }
        ensures lasting { has_failed (calls_of self.old.calls) ≡ true → self.new ≡ self.old }
        ensures within { Brings words.now (calls_of self.old.calls) (calls_of self.new.calls) }
        ensures durable { result ≡ true → Fixes words.now lines.now (calls_of self.new.calls) }
        ensures committed { result ≡ true → Commits (is_in lines.now) (word_of words.now) (calls_of self.old.calls) (calls_of self.new.calls) }
        ensures only { MayWrite (is_in lines.now) (word_of words.now) (calls_of self.old.calls) (calls_of self.new.calls) }
        ensures capacity { vec_capacity buffer.old ≤ vec_capacity buffer.new }
    {
        if self.failed {
            return false;
        }
        // (each of them is a word)
        let _words = words.len();
        if !self.measure(bytes) {
            return false;
        }
        if !self.write_lines(buffer, words, lines) {
            return false;
        }
        self.sync()
    }
}
