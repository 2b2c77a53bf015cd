// The moment whose candidates the next crash picks from.
ghost use Rattle.std.specs.Prelude.{◌≡◌, ◌⊎◌, ℕ, suc, true, ◌+◌, Some, Bool, ◌||◌, ◌∷◌, length, vec_len};
ghost use Rattle.pmem.specs.Cell.{Holds};
ghost use Rattle.pmem.specs.History.{words_of, past_of};
ghost use Rattle.pmem.specs.Keep.{kept_moment, words_kept, is_forgotten, HoldsKept};

use crate::cells::Cells;
use crate::history::History;
use std::mem;
use std::snapshot::Snapshot;

/// What the next crash picks from.
#[derive(Drop)]
pub enum Keep {
    /// The candidates at the moment of the crash.
    Unasked,
    /// The candidates after the next call and this many more.
    Awaited(u64),
    /// This copy of the candidates after that history.
    Kept(Cells, Snapshot<History>),
    /// The candidates after that history, but there was no memory for a copy.
    Forgotten(Snapshot<History>),
}

impl Keep {
    /// Keeps the candidates as they will be after `k` more calls: a copy of the present ones if `k` is 0.
    pub fn after(k: u64, cells: &Cells, history: &History) -> Keep
        ensures moment { kept_moment result (length (past_of history.now)) ≡ Some (length (past_of history.now) + k) }
        ensures held { (starved : Bool) → Holds cells.now (words_of history.now) starved
            → HoldsKept result (vec_len cells.now.heads) history.now (starved || is_forgotten result) }
        ensures forgets { is_forgotten result ≡ true → k ≡ 0 }
    {
        if k == 0 {
            Keep::copy_of(cells, history)
        } else {
            Keep::Awaited(k - 1)
        }
    }

    /// A copy of the present cells, or `Forgotten` if memory for it is refused.
    fn copy_of(cells: &Cells, history: &History) -> Keep
        ensures moment { (now : ℕ) → kept_moment result now ≡ Some (length (past_of history.now)) }
        ensures held { (starved : Bool) → Holds cells.now (words_of history.now) starved
            → HoldsKept result (vec_len cells.now.heads) history.now (starved || is_forgotten result) }
    {
        match cells.try_clone() {
            Ok(copy) => Keep::Kept(copy, Snapshot::of(history)),
            Err(_) => Keep::Forgotten(Snapshot::of(history)),
        }
    }

    /// Whether there was no memory for the copy.
    pub fn is_forgotten(&self) -> bool
        ensures { result ≡ is_forgotten self.now }
    {
        matches!(self, Keep::Forgotten(_))
    }

    /// Takes note of one more call, after which the device holds these cells: an awaited moment may have come. Returns whether there
    /// was no memory for the copy.
    pub fn advance(&mut self, cells: &Cells, history: &History) -> bool
        ensures answer { result ≡ is_forgotten self.new }
        ensures moment { (now : ℕ) → length (past_of history.now) ≡ suc now
            → kept_moment self.new (suc now) ≡ kept_moment self.old now }
        ensures held { (before : History) (starved : Bool) → past_of history.now ≡ words_of before ∷ past_of before
            → Holds cells.now (words_of history.now) starved → HoldsKept self.old (vec_len cells.now.heads) before starved
            → HoldsKept self.new (vec_len cells.now.heads) history.now (starved || is_forgotten self.new) }
        // memory is requested only when the awaited moment has come
        ensures forgets { is_forgotten self.new ≡ true → (is_forgotten self.old ≡ true) ⊎ (self.old ≡ Keep.Awaited 0) }
    {
        match self {
            Keep::Awaited(0) => *self = Keep::copy_of(cells, history),
            Keep::Awaited(more) => *more -= 1,
            Keep::Unasked | Keep::Kept(_, _) | Keep::Forgotten(_) => {}
        }
        self.is_forgotten()
    }

    /// Replaces the cells by the kept copy, if there is one. Nothing is kept afterwards.
    pub fn restore(&mut self, cells: &mut Cells)
        ensures unasked { self.new ≡ Keep.Unasked }
        ensures held { (now : History) (starved : Bool) → Holds cells.old (words_of now) starved
            → HoldsKept self.old (vec_len cells.old.heads) now starved → Holds cells.new (words_kept self.old now) starved }
        ensures lines { (now : History) (starved : Bool) → HoldsKept self.old (vec_len cells.old.heads) now starved
            → vec_len cells.new.heads ≡ vec_len cells.old.heads }
    {
        if let Keep::Kept(copy, _) = mem::replace(self, Keep::Unasked) {
            *cells = copy;
        }
    }
}
