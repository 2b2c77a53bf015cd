// The journal of a device over a file, behind the lines of its image in the same file.
ghost use Rattle.std.specs.Prelude.{◌≡◌, ◌+◌, ◌*◌, ◌^◌, ◌<◌, ◌≤◌, vec_len, vec_capacity};
ghost use Rattle.journal.specs.File.{lines_of_file};

use crate::logged_file::LoggedFile;
use crate::notes::Notes;
use crate::words::Words;
use journal::{Head, Shape, next_record, seal, sealed_words};
use std::alloc::{AllocError, Global};

/// What a device knows of its journal. A fence seals its lines as a record in memory; a sync writes all sealed records behind those that are durable, over
/// zeros that are, and syncs once. A checkpoint puts the lines of all durable records in their places and begins the next generation in the other part.
///
/// Once it is there it takes no memory. Where a call that may ask something of the file answers false, a call of the system has failed, and nothing more is
/// asked of the file.
#[derive(Drop)]
pub struct FileJournal {
    head: Head,
    /// How many words of the part in use have durable records.
    used: u64,
    /// The words of the records that were sealed since the last sync. There is room for a part.
    sealed: Vec<u64>,
    /// The lines that a record of this generation has.
    recorded: Notes,
    ghost fits: { used + vec_len sealed ≤ 8 * head.shape.part },
    ghost room: { 8 * head.shape.part ≤ vec_capacity sealed },
    ghost marked: { vec_len recorded.marks ≡ head.shape.lines },
    ghost countable: { 64 * lines_of_file head.shape < 2 ^ 64 },
}

impl FileJournal {
    ghost use Rattle.std.specs.Prelude.{◌≢◌, ◌↔◌, ℕ, ◌%◌, ◌||◌, [], ◌++◌, List, true, false, not, length, slice_index, IsTrue, IfOk};
    ghost use Rattle.journal.specs.Record.{Record};
    ghost use Rattle.journal.specs.Head.{head_of};
    ghost use Rattle.journal.specs.File.{head_at, part_at, generation_in, part_in};
    ghost use Rattle.journal.specs.Journal.{IsJournal};
    ghost use Rattle.journal.specs.Replay.{replayed, is_recorded};
    ghost use Rattle.pmem_file.specs.declared.run.TheConstants.{LINES_A_WRITE};
    ghost use Rattle.pmem_file.specs.Call.{read_of, calls_of, has_failed};
    ghost use Rattle.pmem_file.specs.Line.{has_line};
    ghost use Rattle.pmem_file.specs.Noted.{is_noted};
    ghost use Rattle.pmem_file.specs.Written.{MayWrite, Commits, is_among, from, word_of};
    ghost use Rattle.pmem_file.specs.Journaled.{IsHead, Journals, Orders, Syncs, ChecksPoint, ClearsAway, Stops, Sealed, LeavesTheSame, IsUnbegun, LeavesTheFirst};

    /// The journal of a file whose part in use is empty.
    pub fn new(alloc: Global, head: Head) -> Result<FileJournal, AllocError>
        requires { 64 * lines_of_file head.shape < 2 ^ 64 }
        ensures head { IfOk result (λ journal. journal.head ≡ head) }
        ensures used { IfOk result (λ journal. journal.used ≡ 0) }
        ensures sealed { IfOk result (λ journal. journal.sealed.items ≡ []) }
        ensures recorded { IfOk result (λ journal. (line : ℕ) → is_noted journal.recorded line ≡ false) }
    {
        Ok(FileJournal {
            head,
            used: 0,
            sealed: Vec::with_capacity(alloc, 8 * head.shape.part as usize)?,
            recorded: Notes::new(alloc, head.shape.lines as usize)?,
        })
    }

    /// The shape of the file.
    pub fn shape(&self) -> Shape
        ensures { result ≡ self.now.head.shape }
    {
        self.head.shape
    }

    /// Orders these lines of these words behind all that was ordered before, and asks nothing of the file where the part in use has room for a record of them.
    pub fn order(
        &mut self,
        file: &mut LoggedFile,
        buffer: &mut Vec<u8>,
        words: &Words,
        lines: &[u64],
    ) -> bool
        requires sized { length words.now ≡ 8 * self.old.head.shape.lines }
        requires in_range { (line : ℕ) → has_line lines.now line ≡ true → 8 * line + 8 ≤ length words.now }
        requires few { length lines.now ≤ self.old.head.shape.lines }
        requires room { 64 * LINES_A_WRITE ≤ vec_capacity buffer.old }
        ensures read { read_of file.new.calls ≡ read_of file.old.calls }
        ensures failed { has_failed (calls_of file.new.calls) ≡ not result }
        ensures lasting { has_failed (calls_of file.old.calls) ≡ true → file.new ≡ file.old }
        ensures shape { self.new.head.shape ≡ self.old.head.shape }
        ensures ordered { result ≡ true → Orders self.old self.new (calls_of file.old.calls) (calls_of file.new.calls) words.now lines.now }
        ensures stopped { has_failed (calls_of file.old.calls) ≡ false → result ≡ false
            → Stops self.old self.new (calls_of file.old.calls) (calls_of file.new.calls) words.now }
        ensures same { has_failed (calls_of file.old.calls) ≡ true → self.new ≡ self.old }
        ensures unasked { self.old.used + (length self.old.sealed.items + (2 + 9 * length lines.now)) ≤ 8 * self.old.head.shape.part
            → file.new ≡ file.old }
        ensures capacity { vec_capacity buffer.old ≤ vec_capacity buffer.new }
    {
        if file.has_failed() {
            return false;
        }
        if lines.is_empty() {
            return true;
        }
        if self.has_room(lines.len()) {
            self.seal(words, lines);
            return true;
        }
        self.order_anew(file, buffer, words, lines)
    }

    /// Orders these lines, for a record of which there is no room: all before them is put in place, and a generation begins. Where no part has room, they are put
    /// in place as well, and another generation begins.
    fn order_anew(
        &mut self,
        file: &mut LoggedFile,
        buffer: &mut Vec<u8>,
        words: &Words,
        lines: &[u64],
    ) -> bool
        requires unfailed { has_failed (calls_of file.old.calls) ≡ false }
        requires some { lines.now ≢ [] }
        requires sized { length words.now ≡ 8 * self.old.head.shape.lines }
        requires in_range { (line : ℕ) → has_line lines.now line ≡ true → 8 * line + 8 ≤ length words.now }
        requires few { length lines.now ≤ self.old.head.shape.lines }
        requires room { 64 * LINES_A_WRITE ≤ vec_capacity buffer.old }
        ensures read { read_of file.new.calls ≡ read_of file.old.calls }
        ensures failed { has_failed (calls_of file.new.calls) ≡ not result }
        ensures shape { self.new.head.shape ≡ self.old.head.shape }
        ensures ordered { result ≡ true → Orders self.old self.new (calls_of file.old.calls) (calls_of file.new.calls) words.now lines.now }
        ensures stopped { result ≡ false → Stops self.old self.new (calls_of file.old.calls) (calls_of file.new.calls) words.now }
        ensures capacity { vec_capacity buffer.old ≤ vec_capacity buffer.new }
    {
        if !self.clear_away(file, buffer, words) {
            return false;
        }
        if self.has_room(lines.len()) {
            self.seal(words, lines);
            return true;
        }
        // (whoever reads meanwhile may have read these lines before: a record that is sealed later is of another generation)
        file.persist(buffer, words, lines, 64 * self.head.shape.lines_of_file())
            && self.clear_away(file, buffer, words)
    }

    /// Puts all that was ordered in place, and begins a generation.
    fn clear_away(&mut self, file: &mut LoggedFile, buffer: &mut Vec<u8>, words: &Words) -> bool
        requires unfailed { has_failed (calls_of file.old.calls) ≡ false }
        requires sized { length words.now ≡ 8 * self.old.head.shape.lines }
        requires room { 64 * LINES_A_WRITE ≤ vec_capacity buffer.old }
        ensures read { read_of file.new.calls ≡ read_of file.old.calls }
        ensures failed { has_failed (calls_of file.new.calls) ≡ not result }
        ensures shape { self.new.head.shape ≡ self.old.head.shape }
        ensures begun { result ≡ true → ClearsAway self.old self.new (calls_of file.old.calls) (calls_of file.new.calls) words.now }
        ensures stopped { result ≡ false → Stops self.old self.new (calls_of file.old.calls) (calls_of file.new.calls) words.now }
        ensures capacity { vec_capacity buffer.old ≤ vec_capacity buffer.new }
    {
        if !self.sync(file, buffer) {
            return false;
        }
        self.checkpoint(file, buffer, words)
    }

    /// Makes durable all that was sealed, by one sync.
    pub fn sync(&mut self, file: &mut LoggedFile, buffer: &mut Vec<u8>) -> bool
        requires room { 64 * LINES_A_WRITE ≤ vec_capacity buffer.old }
        ensures read { read_of file.new.calls ≡ read_of file.old.calls }
        ensures failed { has_failed (calls_of file.new.calls) ≡ not result }
        ensures lasting { has_failed (calls_of file.old.calls) ≡ true → file.new ≡ file.old }
        ensures head { self.new.head ≡ self.old.head }
        ensures clear { result ≡ true → self.new.sealed.items ≡ [] }
        ensures durable { result ≡ true → Syncs self.old self.new (calls_of file.old.calls) (calls_of file.new.calls) }
        ensures stopped { (words : List ℕ) → has_failed (calls_of file.old.calls) ≡ false → result ≡ false
            → Stops self.old self.new (calls_of file.old.calls) (calls_of file.new.calls) words }
        ensures same { result ≡ false → self.new ≡ self.old }
        ensures capacity { vec_capacity buffer.old ≤ vec_capacity buffer.new }
    {
        if file.has_failed() {
            return false;
        }
        if self.sealed.is_empty() {
            return true;
        }
        if !self.write_sealed(file, buffer) {
            return false;
        }
        self.used += self.sealed.len() as u64;
        self.sealed.clear();
        true
    }

    /// Writes what was sealed behind what is durable, and syncs.
    fn write_sealed(&self, file: &mut LoggedFile, buffer: &mut Vec<u8>) -> bool
        requires unfailed { has_failed (calls_of file.old.calls) ≡ false }
        requires room { 64 * LINES_A_WRITE ≤ vec_capacity buffer.old }
        ensures read { read_of file.new.calls ≡ read_of file.old.calls }
        ensures failed { has_failed (calls_of file.new.calls) ≡ not result }
        ensures done { result ≡ true → let first = part_at self.now.head.shape self.now.head.generation + self.now.used in
            Commits (is_among first (length self.now.sealed.items)) (from first self.now.sealed.items) (calls_of file.old.calls) (calls_of file.new.calls) }
        ensures within { let first = part_at self.now.head.shape self.now.head.generation + self.now.used in
            MayWrite (is_among first (length self.now.sealed.items)) (from first self.now.sealed.items) (calls_of file.old.calls) (calls_of file.new.calls) }
        ensures capacity { vec_capacity buffer.old ≤ vec_capacity buffer.new }
    {
        let first = self.head.shape.part_at(self.head.generation) + self.used;
        file.measure(64 * self.head.shape.lines_of_file())
            && file.commit_words(buffer, first, &self.sealed)
    }

    /// Puts in place the lines of all records, each of which is durable, and begins the next generation, in the other part, which holds zeros. The part that was in
    /// use is filled with zeros, which the next sync makes durable: it is used again a generation later.
    fn checkpoint(&mut self, file: &mut LoggedFile, buffer: &mut Vec<u8>, words: &Words) -> bool
        requires unfailed { has_failed (calls_of file.old.calls) ≡ false }
        requires sized { length words.now ≡ 8 * self.old.head.shape.lines }
        requires clear { self.old.sealed.items ≡ [] }
        requires room { 64 * LINES_A_WRITE ≤ vec_capacity buffer.old }
        ensures read { read_of file.new.calls ≡ read_of file.old.calls }
        ensures failed { has_failed (calls_of file.new.calls) ≡ not result }
        ensures shape { self.new.head.shape ≡ self.old.head.shape }
        ensures begun { result ≡ true → ChecksPoint self.old self.new (calls_of file.old.calls) (calls_of file.new.calls) words.now }
        ensures stopped { result ≡ false → Stops self.old self.new (calls_of file.old.calls) (calls_of file.new.calls) words.now }
        ensures capacity { vec_capacity buffer.old ≤ vec_capacity buffer.new }
    {
        self.recorded.sort();
        let old = self.head.shape.part_at(self.head.generation);
        let used = self.used;
        if !file.commit_lines(buffer, words, self.recorded.lines()) {
            return false;
        }
        if !self.begin_next(file, buffer) {
            return false;
        }
        file.write_zeros(buffer, old, used)
    }

    /// Puts in place the lines of these records, which are durable in the part in use, and begins the next generation, once the other part holds zeros that are
    /// durable. These words have the records replayed.
    pub fn recover(
        &mut self,
        file: &mut LoggedFile,
        buffer: &mut Vec<u8>,
        words: &Words,
        part: &[u64],
    ) -> bool
        requires fresh { calls_of file.old.calls ≡ [] }
        requires sized { length words.now ≡ 8 * self.old.head.shape.lines }
        requires whole { length (read_of file.old.calls) ≡ 8 * lines_of_file self.old.head.shape }
        requires empty { (self.old.used ≡ 0) × (self.old.sealed.items ≡ []) × ((line : ℕ) → is_noted self.old.recorded line ≡ false) }
        requires replayed { (records : List Record) × IsJournal self.old.head.shape.lines part.now records
            × ((word : ℕ) → word < length words.now → slice_index words.now word ≡ replayed records (λ w. slice_index (read_of file.old.calls) w) word) }
        requires room { 64 * LINES_A_WRITE ≤ vec_capacity buffer.old }
        ensures read { read_of file.new.calls ≡ read_of file.old.calls }
        ensures failed { has_failed (calls_of file.new.calls) ≡ not result }
        ensures shape { self.new.head.shape ≡ self.old.head.shape }
        ensures begun { result ≡ true
            → Journals self.new (read_of file.new.calls) (calls_of file.new.calls) (word_of words.now) [] [] }
        // wherever it is cut off, where the file had a head of this generation
        ensures same { IsHead self.old.head.shape self.old.head.generation (word_of (read_of file.old.calls))
            → part.now ≡ part_in self.old.head.shape self.old.head.generation (word_of (read_of file.old.calls))
            → LeavesTheSame self.new.head.shape self.new.head.generation (read_of file.new.calls) (calls_of file.new.calls) words.now }
        // and where it had none yet
        ensures first { self.old.head.generation ≡ 0 → IsUnbegun self.old.head.shape (word_of (read_of file.old.calls))
            → part.now ≡ part_in self.old.head.shape (generation_in self.old.head.shape (word_of (read_of file.old.calls))) (word_of (read_of file.old.calls))
            → LeavesTheFirst self.old.head.shape (read_of file.new.calls) (calls_of file.new.calls) words.now }
        ensures capacity { vec_capacity buffer.old ≤ vec_capacity buffer.new }
    {
        self.note_recorded(part);
        self.recorded.sort();
        let old = self.head.shape.part_at(self.head.generation);
        let next = self
            .head
            .shape
            .part_at(self.head.generation.wrapping_add(1));
        let words_of_part = 8 * self.head.shape.part;
        if !file.commit_lines(buffer, words, self.recorded.lines()) {
            return false;
        }
        if !file.commit_zeros(buffer, next, words_of_part) {
            return false;
        }
        if !self.begin_next(file, buffer) {
            return false;
        }
        file.write_zeros(buffer, old, words_of_part)
    }

    /// Notes the lines that the records have at the beginning of these words.
    fn note_recorded(&mut self, part: &[u64])
        ensures noted { (records : List Record) → IsJournal self.old.head.shape.lines part.now records
            → (line : ℕ) → is_noted self.new.recorded line ≡ (is_noted self.old.recorded line || is_recorded records line) }
        ensures head { self.new.head ≡ self.old.head }
        ensures used { self.new.used ≡ self.old.used }
        ensures sealed { self.new.sealed ≡ self.old.sealed }
    {
        let lines = self.head.shape.lines;
        let mut rest = part;
        while let Some(record) = next_record(lines, rest) {
            self.recorded.add_all(record.numbers);
            rest = record.behind;
        }
    }

    /// Begins the next generation. All that is recorded is in place, and the other part holds zeros; both are durable.
    fn begin_next(&mut self, file: &mut LoggedFile, buffer: &mut Vec<u8>) -> bool
        requires unfailed { has_failed (calls_of file.old.calls) ≡ false }
        requires room { 64 * LINES_A_WRITE ≤ vec_capacity buffer.old }
        ensures read { read_of file.new.calls ≡ read_of file.old.calls }
        ensures failed { has_failed (calls_of file.new.calls) ≡ not result }
        ensures shape { self.new.head.shape ≡ self.old.head.shape }
        ensures generation { self.new.head.generation ≡ (self.old.head.generation + 1) % 2 ^ 64 }
        ensures used { self.new.used ≡ 0 }
        ensures sealed { self.new.sealed ≡ self.old.sealed }
        ensures recorded { (line : ℕ) → is_noted self.new.recorded line ≡ false }
        ensures done { result ≡ true → let first = head_at self.old.head.shape in
            Commits (is_among first 8) (from first (head_of self.old.head.shape self.new.head.generation)) (calls_of file.old.calls) (calls_of file.new.calls) }
        ensures within { let first = head_at self.old.head.shape in
            MayWrite (is_among first 8) (from first (head_of self.old.head.shape self.new.head.generation)) (calls_of file.old.calls) (calls_of file.new.calls) }
        ensures capacity { vec_capacity buffer.old ≤ vec_capacity buffer.new }
    {
        self.head.generation = self.head.generation.wrapping_add(1);
        self.used = 0;
        self.recorded.clear();
        file.commit_words(buffer, self.head.shape.head_at(), &self.head.words())
    }

    /// Whether a record of so many lines fits into the part in use, behind what is sealed.
    fn has_room(&self, count: usize) -> bool
        requires { 2 + 9 * count < 2 ^ 64 }
        ensures { IsTrue result ↔ (self.now.used + (length self.now.sealed.items + (2 + 9 * count)) ≤ 8 * self.now.head.shape.part) }
    {
        let left = 8 * self.head.shape.part - self.used - self.sealed.len() as u64;
        sealed_words(count) as u64 <= left
    }

    /// Seals these lines of these words.
    fn seal(&mut self, words: &Words, lines: &[u64])
        requires some { lines.now ≢ [] }
        requires sized { length words.now ≡ 8 * self.old.head.shape.lines }
        requires in_range { (line : ℕ) → has_line lines.now line ≡ true → 8 * line + 8 ≤ length words.now }
        requires room { self.old.used + (length self.old.sealed.items + (2 + 9 * length lines.now)) ≤ 8 * self.old.head.shape.part }
        ensures { Sealed self.old self.new words.now lines.now }
    {
        seal(lines, words.kept(), &mut self.sealed);
        self.recorded.add_all(lines);
    }
}
