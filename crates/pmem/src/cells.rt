// The words of a simulated device: the newest value of each, and one pool of older candidates, chained by line.
ghost use Rattle.std.specs.Prelude.{◌≡◌, ℕ, ◌+◌, ◌*◌, ◌^◌, ◌/◌, ◌<◌, ◌≤◌, Bool, true, false, vec_len, vec_capacity, OnOk, OnErr, IfOk, slice_index, slice_index_or, filter, not, map, length, ◌-◌, ◌%◌, ◌++◌, ◌∷◌, []};
ghost use Rattle.pmem.specs.Cell.{IsChained, at, older_in, held_in};
ghost use Rattle.pmem.specs.Crash.{picked};
ghost use Rattle.pmem.specs.Device.{Word, store_at, flush_at, fenced, settled};

use std::alloc::{AllocError, Global};

/// An older candidate of a word.
#[derive(Clone, Copy)]
pub struct Candidate {
    pub word: u64,
    pub value: u64,
    /// Whether a flush has since noted a newer candidate of the word.
    pub passed: bool,
    /// The index in the pool of the previous candidate of the same line.
    pub next: Option<usize>,
}

/// The candidates of all words.
#[derive(Drop)]
pub struct Cells {
    /// The newest value of each word.
    pub newest: Vec<u64>,
    /// For each line, the index in the pool of its last older candidate.
    pub heads: Vec<Option<usize>>,
    /// The older candidates of all words, in the order in which they were added.
    pub pool: Vec<Candidate>,
}

impl Cells {
    ghost use Rattle.pmem.specs.Cell.{Holds, held};

    /// The cells of `lines` lines, all zero.
    pub fn new(alloc: Global, lines: usize) -> Result<Cells, AllocError>
        requires { 8 * lines < 2 ^ 64 }
        ensures { IfOk result (λ cells. (vec_len cells.heads ≡ lines) × Holds cells (λ word. settled 0) false) }
    {
        Ok(Cells {
            newest: vec![in alloc; 0; 8 * lines]?,
            heads: vec![in alloc; None; lines]?,
            pool: Vec::new(alloc),
        })
    }

    /// Stores a value. On `Err` it is stored too, but the previous value is no longer a candidate.
    pub fn store(&mut self, word: u64, value: u64) -> Result<(), AllocError>
        requires sizes { vec_len self.old.newest ≡ 8 * vec_len self.old.heads }
        requires in_range { word < vec_len self.old.newest }
        ensures ok { OnOk result ((words : ℕ → Word) (starved : Bool) →
            Holds self.old words starved → Holds self.new (store_at word value words) starved) }
        ensures err { OnErr result ((words : ℕ → Word) (starved : Bool) →
            Holds self.old words starved → Holds self.new (store_at word value words) true) }
        // the pool had no room for one more candidate, and was refused memory to grow
        ensures refused { OnErr result ((vec_capacity self.old.pool ≤ vec_len self.old.pool)
            × (vec_len self.new.pool ≡ vec_len self.old.pool)) }
        ensures lines { vec_len self.new.heads ≡ vec_len self.old.heads }
    {
        let line = word as usize / 8;
        let place = self.pool.len();
        let older = Candidate {
            word,
            value: self.newest[word as usize],
            passed: false,
            next: self.heads[line],
        };
        self.newest[word as usize] = value;
        self.pool.push(older)?;
        self.heads[line] = Some(place);
        Ok(())
    }

    /// Notes the newest candidate of each word of a line.
    pub fn flush(&mut self, line: u64)
        requires chained { IsChained self.old.heads.items self.old.pool.items }
        requires in_range { line < vec_len self.old.heads }
        ensures held { (words : ℕ → Word) (starved : Bool) →
            Holds self.old words starved → Holds self.new (flush_at line words) starved }
        ensures lines { vec_len self.new.heads ≡ vec_len self.old.heads }
    {
        let mut place = self.heads[line as usize];
        while let Some(k) = place {
            let candidate = &mut self.pool[k];
            candidate.passed = true;
            place = candidate.next;
        }
    }

    /// Drops each candidate that was passed.
    pub fn fence(&mut self)
        requires chained { IsChained self.old.heads.items self.old.pool.items }
        ensures held { (words : ℕ → Word) → Holds self.old words false → Holds self.new (fenced words) false }
        ensures lines { vec_len self.new.heads ≡ vec_len self.old.heads }
    {
        unlink(&mut self.heads, &self.pool);
        compact(&mut self.heads, &mut self.pool);
    }

    /// Leaves one candidate of each word: the i-th word with several, in ascending order, gets candidate `picks[i]` modulo their number.
    pub fn crash(&mut self, picks: &[u64])
        requires sizes { vec_len self.old.newest ≡ 8 * vec_len self.old.heads }
        requires chained { IsChained self.old.heads.items self.old.pool.items }
        ensures picked { (word : ℕ) → slice_index self.new.newest.items word ≡ picked (held self.old) picks.now word }
        ensures held { Holds self.new (λ word. settled (slice_index self.new.newest.items word)) false }
        ensures lines { vec_len self.new.heads ≡ vec_len self.old.heads }
    {
        pick_all(&mut self.newest, &self.heads, &self.pool, picks);
        unlink(&mut self.heads, &self.pool);
        self.pool.clear();
    }

    /// A copy of the cells.
    pub fn try_clone(&self) -> Result<Cells, AllocError>
        ensures { IfOk result (λ cells. (cells.newest.items ≡ self.now.newest.items)
            × (cells.heads.items ≡ self.now.heads.items) × (cells.pool.items ≡ self.now.pool.items)) }
    {
        Ok(Cells {
            newest: self.newest.clone()?,
            heads: self.heads.clone()?,
            pool: self.pool.clone()?,
        })
    }
}

/// Empties the chains of all lines that have a candidate.
fn unlink(heads: &mut Vec<Option<usize>>, pool: &Vec<Candidate>)
    requires { IsChained heads.old.items pool.now.items }
    ensures unlinked { (line : ℕ) → slice_index_or heads.new.items line None ≡ None }
    ensures lines { vec_len heads.new ≡ vec_len heads.old }
{
    for candidate in pool {
        heads[candidate.word as usize / 8] = None;
    }
}

/// Keeps the candidates that are not passed, in order, and chains them.
fn compact(heads: &mut Vec<Option<usize>>, pool: &mut Vec<Candidate>)
    requires unlinked { (line : ℕ) → slice_index_or heads.old.items line None ≡ None }
    requires lines { (k : ℕ) → k < vec_len pool.old → (at pool.old.items k).word / 8 < vec_len heads.old }
    ensures chained { IsChained heads.new.items pool.new.items }
    ensures kept { (word : ℕ) → older_in pool.new.items word ≡ filter (λ o. not o.passed) (older_in pool.old.items word) }
    ensures lines { vec_len heads.new ≡ vec_len heads.old }
{
    let mut kept = 0;
    for i in 0..pool.len() {
        let candidate = pool[i];
        if !candidate.passed {
            let line = candidate.word as usize / 8;
            pool[kept] = Candidate {
                next: heads[line],
                ..candidate
            };
            heads[line] = Some(kept);
            kept += 1;
        }
    }
    pool.truncate(kept);
}

/// Gives each word its picked candidate.
fn pick_all(newest: &mut Vec<u64>, heads: &Vec<Option<usize>>, pool: &Vec<Candidate>, picks: &[u64])
    requires sizes { vec_len newest.old ≡ 8 * vec_len heads.now }
    requires chained { IsChained heads.now.items pool.now.items }
    ensures picked { (word : ℕ) → slice_index newest.new.items word ≡ picked (held_in newest.old.items pool.now.items) picks.now word }
    ensures words { vec_len newest.new ≡ vec_len newest.old }
{
    let mut used = 0;
    for word in 0..newest.len() {
        if older_count(heads, pool, word as u64) > 0 {
            newest[word] = candidate_at(
                heads,
                pool,
                word as u64,
                newest[word],
                pick_at(picks, used),
            );
            used += 1;
        }
    }
}

/// The pick at an index, or 0 past the end.
fn pick_at(picks: &[u64], place: usize) -> u64
    ensures { result ≡ slice_index picks.now place }
{
    picks.get(place).copied().unwrap_or(0)
}

/// The candidate of a word that a pick selects: the pick modulo the number of candidates, where 0 is the oldest and the last the newest.
fn candidate_at(
    heads: &Vec<Option<usize>>,
    pool: &Vec<Candidate>,
    word: u64,
    newest: u64,
    pick: u64,
) -> u64
    requires chained { IsChained heads.now.items pool.now.items }
    requires in_range { word < 8 * vec_len heads.now }
    ensures { result ≡ slice_index (map (λ o. o.value) (older_in pool.now.items word) ++ newest ∷ [])
        (pick % (length (older_in pool.now.items word) + 1)) }
{
    let count = older_count(heads, pool, word);
    let place = (pick % (count as u64 + 1)) as usize;
    if place == count {
        newest
    } else {
        older_value(heads, pool, word, count - 1 - place)
    }
}

/// How many older candidates a word has.
fn older_count(heads: &Vec<Option<usize>>, pool: &Vec<Candidate>, word: u64) -> usize
    requires chained { IsChained heads.now.items pool.now.items }
    requires in_range { word < 8 * vec_len heads.now }
    ensures count { result ≡ length (older_in pool.now.items word) }
    ensures bound { result ≤ vec_len pool.now }
{
    let mut count = 0;
    let mut place = heads[word as usize / 8];
    while let Some(k) = place {
        let candidate = &pool[k];
        if candidate.word == word {
            count += 1;
        }
        place = candidate.next;
    }
    count
}

/// The value of one of a word's older candidates: the one with `newer` newer ones among them.
fn older_value(heads: &Vec<Option<usize>>, pool: &Vec<Candidate>, word: u64, newer: usize) -> u64
    requires chained { IsChained heads.now.items pool.now.items }
    requires in_range { word < 8 * vec_len heads.now }
    requires there { newer < length (older_in pool.now.items word) }
    ensures { result ≡ slice_index (map (λ o. o.value) (older_in pool.now.items word)) (length (older_in pool.now.items word) - 1 - newer) }
{
    let mut newer = newer;
    let mut place = heads[word as usize / 8];
    while let Some(k) = place {
        let candidate = &pool[k];
        if candidate.word == word {
            if newer == 0 {
                return candidate.value;
            }
            newer -= 1;
        }
        place = candidate.next;
    }
    unreachable!()
}
