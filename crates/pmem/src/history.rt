// The calls that a device has gone through, for contracts only.
ghost use Rattle.std.specs.Prelude.{◌≡◌, [], ◌∷◌, suc, slice_index};
ghost use Rattle.pmem.specs.Device.{store_at, flush_at, fenced, settled};
ghost use Rattle.pmem.specs.History.{words_of, past_of, failures_of};

use std::snapshot::Snapshot;

/// What a device has gone through since it was made, the newest call outermost. It takes no memory beyond its tag: a snapshot has no bytes.
#[derive(Drop)]
pub enum History {
    /// Nothing yet: all words are 0.
    Zeros,
    /// Nothing yet: these are the words.
    Opened(Snapshot<Vec<u64>>),
    /// A store of a value at a word.
    Stored(Snapshot<u64>, Snapshot<u64>, Snapshot<History>),
    /// A flush of a line.
    Flushed(Snapshot<u64>, Snapshot<History>),
    /// A fence that succeeded.
    Fenced(Snapshot<History>),
    /// A fence that failed.
    Failed(Snapshot<History>),
    /// A sync that failed.
    Unsynced(Snapshot<History>),
    /// A crash, and the words that it left.
    Crashed(Snapshot<Vec<u64>>, Snapshot<History>),
}

impl History {
    /// The history of a device that was made with these words, each of them durable.
    pub fn opened(words: &Vec<u64>) -> History
        ensures words { words_of result ≡ (λ word. settled (slice_index words.now.items word)) }
        ensures past { past_of result ≡ [] }
        ensures failures { failures_of result ≡ 0 }
    {
        History::Opened(Snapshot::of(words))
    }

    /// Adds a store.
    pub fn stored(&mut self, word: u64, value: u64)
        ensures words { words_of self.new ≡ store_at word value (words_of self.old) }
        ensures past { past_of self.new ≡ words_of self.old ∷ past_of self.old }
        ensures failures { failures_of self.new ≡ failures_of self.old }
    {
        let before = Snapshot::of(self);
        *self = History::Stored(Snapshot::of(&word), Snapshot::of(&value), before);
    }

    /// Adds a flush.
    pub fn flushed(&mut self, line: u64)
        ensures words { words_of self.new ≡ flush_at line (words_of self.old) }
        ensures past { past_of self.new ≡ words_of self.old ∷ past_of self.old }
        ensures failures { failures_of self.new ≡ failures_of self.old }
    {
        let before = Snapshot::of(self);
        *self = History::Flushed(Snapshot::of(&line), before);
    }

    /// Adds a fence that succeeded.
    pub fn fenced(&mut self)
        ensures words { words_of self.new ≡ fenced (words_of self.old) }
        ensures past { past_of self.new ≡ words_of self.old ∷ past_of self.old }
        ensures failures { failures_of self.new ≡ failures_of self.old }
    {
        *self = History::Fenced(Snapshot::of(self));
    }

    /// Adds a fence that failed.
    pub fn failed(&mut self)
        ensures words { words_of self.new ≡ words_of self.old }
        ensures past { past_of self.new ≡ words_of self.old ∷ past_of self.old }
        ensures failures { failures_of self.new ≡ suc (failures_of self.old) }
    {
        *self = History::Failed(Snapshot::of(self));
    }

    /// Adds a sync that failed, which is no moment of its own.
    pub fn unsynced(&mut self)
        ensures words { words_of self.new ≡ words_of self.old }
        ensures past { past_of self.new ≡ past_of self.old }
        ensures failures { failures_of self.new ≡ suc (failures_of self.old) }
    {
        *self = History::Unsynced(Snapshot::of(self));
    }

    /// Adds a crash that left these words.
    pub fn crashed(&mut self, left: &Vec<u64>)
        ensures words { words_of self.new ≡ (λ word. settled (slice_index left.now.items word)) }
        ensures past { past_of self.new ≡ words_of self.old ∷ past_of self.old }
        ensures failures { failures_of self.new ≡ failures_of self.old }
    {
        let before = Snapshot::of(self);
        *self = History::Crashed(Snapshot::of(left), before);
    }
}
