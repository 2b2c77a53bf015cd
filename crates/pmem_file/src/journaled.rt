// A device over a file with a journal.
ghost use Rattle.std.specs.Prelude.{◌≡◌, ◌*◌, ◌^◌, ◌<◌, ◌≤◌, ◌-◌, min, length, vec_len, vec_capacity};
ghost use Rattle.pmem.specs.History.{words_of, past_of, failures_of};
ghost use Rattle.pmem_file.specs.Call.{read_of, calls_of};
ghost use Rattle.pmem_file.specs.declared.run.TheConstants.{LINES_A_WRITE};
ghost use Rattle.pmem_file.specs.Following.{Copies, Keeps, IsBlankBehind};
ghost use Rattle.pmem_file.specs.Known.{Copies-prop, IsBlankBehind-prop};

use crate::file_journal::FileJournal;
use crate::logged_file::LoggedFile;
use crate::notes::Notes;
use crate::opening_calls::OpeningCalls;
use crate::words::Words;
use pmem::{Fault, History, Pmem};
use std::snapshot::Snapshot;

/// A device whose words are in a file with a journal. Once it is open it takes no memory.
///
/// A store changes a copy of the words; a flush notes its line; a fence seals the noted lines as a record of the journal; a sync brings all records to the file
/// and syncs it. Where any of that fails, each fence and each sync fails from then on, since a system may forget what it failed to write.
#[derive(Drop)]
pub struct JournaledFile {
    /// The newest value of each word.
    words: Words,
    /// The lines flushed since the last fence that succeeded.
    notes: Notes,
    /// Room for the bytes of one write.
    buffer: Vec<u8>,
    /// What was asked of the file before its words were there.
    opening: OpeningCalls,
    file: LoggedFile,
    journal: FileJournal,
    failures: u64,
    history: History,
    /// What it had gone through at its last sync.
    synced: Snapshot<History>,
    ghost sized: { length words ≡ 8 * vec_len notes.marks },
    ghost shaped: { vec_len notes.marks ≡ journal.head.shape.lines },
    ghost countable: { 8 * vec_len notes.marks < 2 ^ 64 },
    ghost addressed: { 8 * length words < 2 ^ 64 },
    ghost room: { 64 * LINES_A_WRITE ≤ vec_capacity buffer },
    ghost copies: { Copies words notes (words_of history) } by { Copies-prop words notes (words_of history) },
    ghost blank: { IsBlankBehind (vec_len notes.marks) (words_of history) (past_of history) } by { IsBlankBehind-prop (vec_len notes.marks) (words_of history) (past_of history) },
    ghost kept: { ∥ Keeps journal (read_of file.calls) (calls_of file.calls) (words_of history) (past_of history) (length (past_of synced.value)) ∥₁ },
    ghost reached: { length (past_of synced.value) ≤ length (past_of history) },
    ghost counted: { failures ≡ min (failures_of history) (2 ^ 64 - 1) },
}

impl JournaledFile {
    ghost use Rattle.std.specs.Prelude.{ℕ, false, [], slice_index};
    ghost use Rattle.pmem_file.specs.Call.{has_failed};
    ghost use Rattle.pmem_file.specs.Opening.{steps_of};
    ghost use Rattle.pmem_file.specs.Written.{word_of};
    ghost use Rattle.pmem_file.specs.Journaled.{Journals};
    ghost use Rattle.pmem_file.specs.OverJournal.{state_of, read_by, asked_by, opening_by, IsFresh, LeavesItsImage, LeavesItsHead};

    /// A device over an open file with a journal whose part in use is empty, and these words in place. There is room to note every line of these words and for
    /// the bytes of one write.
    pub fn new(
        words: Words,
        notes: Notes,
        buffer: Vec<u8>,
        opening: OpeningCalls,
        file: LoggedFile,
        journal: FileJournal,
    ) -> JournaledFile
        requires sized { length words ≡ 8 * vec_len notes.marks }
        requires shaped { vec_len notes.marks ≡ journal.head.shape.lines }
        requires countable { 8 * length words < 2 ^ 64 }
        requires room { 64 * LINES_A_WRITE ≤ vec_capacity buffer }
        requires unfailed { has_failed (calls_of file.calls) ≡ false }
        requires begun { Journals journal (read_of file.calls) (calls_of file.calls) (word_of words) [] [] }
        ensures fresh { IsFresh result }
        ensures words { result.words ≡ words }
        ensures lines { (state_of result).lines ≡ vec_len notes.marks }
        ensures journal { result.journal ≡ journal }
        ensures read { read_by result ≡ read_of file.calls }
        ensures asked { asked_by result ≡ calls_of file.calls }
        ensures opening { opening_by result ≡ steps_of opening }
    {
        let history = words.history();
        let synced = Snapshot::of(&history);
        JournaledFile {
            words,
            notes,
            buffer,
            opening,
            file,
            journal,
            failures: 0,
            history,
            synced,
        }
    }

    /// Cuts the file behind the lines of the image, and makes that durable. It lets the device go.
    pub fn cut(self) -> bool {
        let bytes = 8 * self.words.len() as u64;
        self.file.cut(bytes)
    }

    /// A law, at every moment between two calls: what an opening makes of an image that a crash may leave in the file, by the list of what was asked of it, is
    /// one that a crash may leave of the device from its floor on; and the file has the head of its journal.
    pub fn leaves_an_image(&self)
        ensures image { LeavesItsImage self.now }
        ensures head { ∥ LeavesItsHead self.now ∥₁ }
    {}
}

impl Pmem for JournaledFile {
    ghost use Rattle.std.specs.Prelude.{◌≡◌, ◌*◌, ◌<◌, ◌≤◌, ◌+◌, true, suc, OnOk, OnErr, IsErr, IsTrue};
    ghost use Rattle.pmem.specs.Device.{Steps, store_at, flush_at, fenced, fences_after, must_fail, may_fail, is_unsure, moment};
    ghost use Rattle.pmem_file.specs.Call.{has_failed};
    ghost use Rattle.pmem_file.specs.OverJournal.{state_of, floor_of, read_by, asked_by, opening_by, countable, reached};

    ghost state = { state_of };

    ghost floor = { floor_of };

    fn load(&self, word: u64) -> u64 {
        self.words.get(word as usize)
    }

    fn store(&mut self, word: u64, value: u64)
        requires { word < 8 * (state_of self.old).lines }
        ensures steps { Steps (state_of self.old) (state_of self.new)
            (store_at word value (state_of self.old).words) (state_of self.old).failures (state_of self.old).fences }
        ensures rises { floor_of self.old ≤ floor_of self.new }
        // the file is not touched
        ensures file { asked_by self.new ≡ asked_by self.old }
        ensures opening { opening_by self.new ≡ opening_by self.old }
        ensures read { read_by self.new ≡ read_by self.old }
    {
        self.words.set(word as usize, value);
        self.history.stored(word, value);
    }

    fn flush(&mut self, line: u64)
        requires { line < (state_of self.old).lines }
        ensures steps { Steps (state_of self.old) (state_of self.new)
            (flush_at line (state_of self.old).words) (state_of self.old).failures (state_of self.old).fences }
        ensures rises { floor_of self.old ≤ floor_of self.new }
        ensures file { asked_by self.new ≡ asked_by self.old }
        ensures opening { opening_by self.new ≡ opening_by self.old }
        ensures read { read_by self.new ≡ read_by self.old }
    {
        self.notes.add(line);
        self.history.flushed(line);
    }

    fn fence(&mut self) -> Result<(), Fault>
        ensures ok { OnOk result (Steps (state_of self.old) (state_of self.new)
            (fenced (state_of self.old).words) (state_of self.old).failures (fences_after (state_of self.old).fences)) }
        ensures err { OnErr result (Steps (state_of self.old) (state_of self.new)
            (state_of self.old).words (suc (state_of self.old).failures) (fences_after (state_of self.old).fences)) }
        ensures asked { IsTrue (must_fail (state_of self.old)) → IsErr result }
        ensures unasked { IsErr result → IsTrue (may_fail (state_of self.old)) }
        ensures rises { floor_of self.old ≤ floor_of self.new }
        // it fails just where a call of this fence or of an earlier one failed
        ensures cause { OnErr result (has_failed (asked_by self.new) ≡ true) }
        ensures lasting { has_failed (asked_by self.old) ≡ true → asked_by self.new ≡ asked_by self.old }
        ensures fails { has_failed (asked_by self.old) ≡ true → IsErr result }
        ensures opening { opening_by self.new ≡ opening_by self.old }
        ensures read { read_by self.new ≡ read_by self.old }
    {
        self.notes.sort();
        if self.journal.order(
            &mut self.file,
            &mut self.buffer,
            &self.words,
            self.notes.lines(),
        ) {
            self.notes.clear();
            self.history.fenced();
            Ok(())
        } else {
            self.history.failed();
            self.failures = self.failures.saturating_add(1);
            Err(Fault)
        }
    }

    fn sync(&mut self) -> Result<(), Fault>
        ensures ok { OnOk result (state_of self.new ≡ state_of self.old) }
        ensures durable { OnOk result (floor_of self.new ≡ moment (state_of self.new)) }
        ensures err { OnErr result (state_of self.new ≡ record (state_of self.old) { failures = suc (state_of self.old).failures }) }
        ensures unasked { IsErr result → IsTrue (is_unsure (state_of self.old).fences) }
        ensures rises { floor_of self.old ≤ floor_of self.new }
        // it fails just where a call of this sync or an earlier one failed
        ensures cause { OnErr result (has_failed (asked_by self.new) ≡ true) }
        ensures lasting { has_failed (asked_by self.old) ≡ true → asked_by self.new ≡ asked_by self.old }
        ensures fails { has_failed (asked_by self.old) ≡ true → IsErr result }
        ensures opening { opening_by self.new ≡ opening_by self.old }
        ensures read { read_by self.new ≡ read_by self.old }
    {
        if self.journal.sync(&mut self.file, &mut self.buffer) {
            self.synced = Snapshot::of(&self.history);
            Ok(())
        } else {
            self.history.unsynced();
            self.failures = self.failures.saturating_add(1);
            Err(Fault)
        }
    }

    fn lines(&self) -> u64 {
        self.words.len() as u64 / 8
    }

    fn failures(&self) -> u64 {
        self.failures
    }

    ghost countable = { countable };

    ghost reached = { reached };
}
