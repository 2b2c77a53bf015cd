// A device over a file without a journal.
ghost use Rattle.std.specs.Prelude.{◌≡◌, ◌*◌, ◌^◌, ◌<◌, ◌≤◌, ◌-◌, min, length, vec_len, vec_capacity};
ghost use Rattle.pmem.specs.History.{words_of, failures_of};
ghost use Rattle.pmem_file.specs.Call.{read_of, calls_of};
ghost use Rattle.pmem_file.specs.declared.run.TheConstants.{LINES_A_WRITE};
ghost use Rattle.pmem_file.specs.Holding.{Holds};
ghost use Rattle.pmem_file.specs.Known.{Holds-prop};

use crate::logged_file::LoggedFile;
use crate::notes::Notes;
use crate::opening_calls::OpeningCalls;
use crate::words::Words;
use pmem::{Fault, History, Pmem};

/// A device whose words are in a file. Once it is open it takes no memory.
///
/// A store changes a copy of the words; a flush notes its line; a fence brings the noted lines to the file and syncs it. Where any of
/// that fails, each fence fails from then on, since a system may forget what it failed to write.
#[derive(Drop)]
pub struct PlacedFile {
    /// The newest value of each word.
    words: Words,
    /// The lines flushed since the last fence that succeeded.
    notes: Notes,
    /// Room for the bytes of one write.
    buffer: Vec<u8>,
    /// What was asked of the file before it was a device.
    opening: OpeningCalls,
    file: LoggedFile,
    /// How many bytes the file has. Behind those of the words there may be room for a journal.
    bytes: u64,
    failures: u64,
    history: History,
    ghost sized: { length words ≡ 8 * vec_len notes.marks },
    ghost countable: { 8 * vec_len notes.marks < 2 ^ 64 },
    ghost addressed: { 8 * length words < 2 ^ 64 },
    ghost room: { 64 * LINES_A_WRITE ≤ vec_capacity buffer },
    ghost holds: { Holds words notes (read_of file.calls) (calls_of file.calls) (words_of history) } by { Holds-prop words notes (read_of file.calls) (calls_of file.calls) (words_of history) },
    ghost counted: { failures ≡ min (failures_of history) (2 ^ 64 - 1) },
}

impl PlacedFile {
    ghost use Rattle.std.specs.Prelude.{ℕ, [], slice_index};
    ghost use Rattle.pmem_file.specs.Placed.{state_of, read_by, asked_by, opening_by, IsFresh, LeavesItsImage};
    ghost use Rattle.pmem_file.specs.Opening.{steps_of};

    /// A device over an open file whose first words are these, of which nothing was asked as a device. There is room to note every line of these words and for
    /// the bytes of one write.
    pub fn new(
        words: Words,
        notes: Notes,
        buffer: Vec<u8>,
        opening: OpeningCalls,
        file: LoggedFile,
        bytes: u64,
    ) -> PlacedFile
        requires sized { length words ≡ 8 * vec_len notes.marks }
        requires countable { 8 * length words < 2 ^ 64 }
        requires room { 64 * LINES_A_WRITE ≤ vec_capacity buffer }
        requires read { (word : ℕ) → word < length words → slice_index words word ≡ slice_index (read_of file.calls) word }
        requires unasked { calls_of file.calls ≡ [] }
        ensures fresh { IsFresh result }
        ensures words { result.words ≡ words }
        ensures lines { (state_of result).lines ≡ vec_len notes.marks }
        ensures read { read_by result ≡ read_of file.calls }
        ensures bytes { result.bytes ≡ bytes }
        ensures opening { opening_by result ≡ steps_of opening }
    {
        // (each of them is a word)
        let _words = words.len();
        let history = words.history();
        PlacedFile {
            words,
            notes,
            buffer,
            opening,
            file,
            bytes,
            failures: 0,
            history,
        }
    }

    /// A law, at every moment between two calls: what an opening makes of an image that a crash may leave in the file, by the list of what was asked of it, is
    /// one that a crash may leave of the device.
    pub fn leaves_an_image(&self)
        ensures { LeavesItsImage self.now }
    {}
}

impl Pmem for PlacedFile {
    ghost use Rattle.std.specs.Prelude.{◌≡◌, ◌*◌, ◌<◌, ◌≤◌, ◌+◌, true, suc, OnOk, OnErr, IsOk, IsErr, IsTrue};
    ghost use Rattle.pmem.specs.Device.{Steps, store_at, flush_at, fenced, fences_after, must_fail, may_fail, is_unsure, moment};
    ghost use Rattle.pmem_file.specs.Call.{has_failed};
    ghost use Rattle.pmem_file.specs.Placed.{state_of, floor_of, read_by, asked_by, opening_by, Persists, countable, reached};

    ghost state = { state_of };

    ghost floor = { floor_of };

    fn load(&self, word: u64) -> u64 {
        self.words.get(word as usize)
    }

    fn store(&mut self, word: u64, value: u64)
        requires { word < 8 * (state_of self.old).lines }
        ensures steps { Steps (state_of self.old) (state_of self.new)
            (store_at word value (state_of self.old).words) (state_of self.old).failures (state_of self.old).fences }
        ensures rises { floor_of self.old ≤ floor_of self.new }
        // the file is not touched
        ensures file { asked_by self.new ≡ asked_by self.old }
        ensures opening { opening_by self.new ≡ opening_by self.old }
        ensures read { read_by self.new ≡ read_by self.old }
    {
        self.words.set(word as usize, value);
        self.history.stored(word, value);
    }

    fn flush(&mut self, line: u64)
        requires { line < (state_of self.old).lines }
        ensures steps { Steps (state_of self.old) (state_of self.new)
            (flush_at line (state_of self.old).words) (state_of self.old).failures (state_of self.old).fences }
        ensures rises { floor_of self.old ≤ floor_of self.new }
        ensures file { asked_by self.new ≡ asked_by self.old }
        ensures opening { opening_by self.new ≡ opening_by self.old }
        ensures read { read_by self.new ≡ read_by self.old }
    {
        self.notes.add(line);
        self.history.flushed(line);
    }

    fn fence(&mut self) -> Result<(), Fault>
        ensures ok { OnOk result (Steps (state_of self.old) (state_of self.new)
            (fenced (state_of self.old).words) (state_of self.old).failures (fences_after (state_of self.old).fences)) }
        ensures err { OnErr result (Steps (state_of self.old) (state_of self.new)
            (state_of self.old).words (suc (state_of self.old).failures) (fences_after (state_of self.old).fences)) }
        ensures asked { IsTrue (must_fail (state_of self.old)) → IsErr result }
        ensures unasked { IsErr result → IsTrue (may_fail (state_of self.old)) }
        ensures rises { floor_of self.old ≤ floor_of self.new }
        ensures written { OnOk result (Persists self.old self.new) }
        // it fails just where a call of this fence or of an earlier one failed
        ensures cause { OnErr result (has_failed (asked_by self.new) ≡ true) }
        ensures lasting { has_failed (asked_by self.old) ≡ true → asked_by self.new ≡ asked_by self.old }
        ensures fails { has_failed (asked_by self.old) ≡ true → IsErr result }
        ensures opening { opening_by self.new ≡ opening_by self.old }
        ensures read { read_by self.new ≡ read_by self.old }
    {
        self.notes.sort();
        if self.file.persist(
            &mut self.buffer,
            &self.words,
            self.notes.lines(),
            self.bytes,
        ) {
            self.notes.clear();
            self.history.fenced();
            Ok(())
        } else {
            self.history.failed();
            self.failures = self.failures.saturating_add(1);
            Err(Fault)
        }
    }

    /// Does nothing: each fence that succeeds syncs the file.
    fn sync(&mut self) -> Result<(), Fault>
        ensures ok { OnOk result (state_of self.new ≡ state_of self.old) }
        ensures durable { OnOk result (floor_of self.new ≡ moment (state_of self.new)) }
        ensures err { OnErr result (state_of self.new ≡ record (state_of self.old) { failures = suc (state_of self.old).failures }) }
        ensures unasked { IsErr result → IsTrue (is_unsure (state_of self.old).fences) }
        ensures rises { floor_of self.old ≤ floor_of self.new }
        ensures same { self.new ≡ self.old }
        ensures done { IsOk result }
    {
        Ok(())
    }

    fn lines(&self) -> u64 {
        self.words.len() as u64 / 8
    }

    fn failures(&self) -> u64 {
        self.failures
    }

    ghost countable = { countable };

    ghost reached = { reached };
}
