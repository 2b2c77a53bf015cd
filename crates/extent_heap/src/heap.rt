//! The free lines and entries of an image.
ghost use Rattle.std.specs.Prelude.{◌≡◌, ℕ, ◌+◌, ◌^◌, ◌<◌, ◌≤◌, ◌↔◌, ◌⊎◌, false, IsTrue, IfOk, IfErr, OnOk, OnErr, IsErrOf, length, vec_len};
ghost use Rattle.std.specs.Vec.{vec_capacity};
ghost use Rattle.extent_heap.specs.Below.{has_room_below};
ghost use Rattle.extent_heap.specs.Entries.{count_free};
ghost use Rattle.extent_heap.specs.Runs.{longest, some_run};
ghost use Rattle.extent_heap.specs.Room.{Room, fresh_room, has_room, is_free_line, is_free_entry, IsFreeRun, free_lines_below, ClaimsExtent, TakesExtent, GivesExtent, IsOut, ClaimsEntry, TakesEntry, GivesEntry, IsOutEntry};

use crate::entries::EntrySet;
use crate::runs;
use crate::spare::Spare;
use crate::tree::Tree;
use kv_types::{EntryNo, Extent, Refusal};
use std::alloc::{AllocError, Global};
use std::marker::Model;

/// The free lines and entries of an image. A clause sees which they are, as a `Room`.
///
/// Finding the lowest run that is long enough, and taking, claiming and giving back, each go a few times down a tree of the free runs. The free
/// entries are bits. `new`, `take`, `claim` and `claim_if_free` ask for memory: they make the room that the other calls will want, which ask for none.
#[derive(Drop)]
pub struct ExtentHeap {
    lines: Tree,
    line_forks: Spare,
    end_line: u64,
    /// How many lines are free.
    free: u64,
    /// How many extents were handed out and not given back.
    held: usize,
    entries: EntrySet,
}

impl Model for ExtentHeap {
    ghost use Rattle.extent_heap.specs.Room.{Room};
    ghost use Rattle.std.specs.Prelude.{length};
    ghost use Rattle.extent_heap.specs.Pool.{AreLines};

    ghost Value = { Room };

    ghost view = { λ heap. record {
      lines = heap.lines;
      end_line = heap.end_line;
      held = heap.held;
      entries = heap.entries;
      end_entry = length heap.entries;
    } };

    ghost invariant = { λ heap. AreLines heap.end_line heap.lines heap.line_forks heap.free heap.held };
}

impl ExtentHeap {
    /// A heap in which all lines from `first` up to but not including `end` are free, and all entries below `entries`.
    ///
    /// Makes the room for all entry numbers: an eighth of a byte for each. `Refusal::Memory` where a growth was refused.
    pub fn new(alloc: Global, first: u64, end: u64, entries: u64) -> Result<ExtentHeap, Refusal>
        ensures room { IfOk result (λ heap. heap ≡ fresh_room first end entries) }
        ensures lines { IfOk result (λ heap. (line : ℕ) → IsTrue (is_free_line heap line) ↔ ((first ≤ line) × (line < end))) }
        ensures entries { IfOk result (λ heap. (i : ℕ) → IsTrue (is_free_entry heap i) ↔ (i < entries)) }
        ensures cause { IfErr result (λ refusal. refusal ≡ Refusal.Memory) }
    {
        let free = end.saturating_sub(first);
        let (lines, line_forks) = fresh(alloc, first, free)?;
        Ok(ExtentHeap {
            lines,
            line_forks,
            end_line: end,
            free,
            held: 0,
            entries: EntrySet::new(alloc, entries)?,
        })
    }

    /// Hands out the lowest run of `lines` free lines.
    ///
    /// `Refusal::Full` if no run is long enough, `Refusal::Memory` where a growth was refused; then nothing changed.
    pub fn take(&mut self, lines: u64) -> Result<Extent, Refusal>
        requires { 0 < lines }
        ensures count { IfOk result (λ extent. extent.lines ≡ lines) }
        ensures ok { IfOk result (λ extent. TakesExtent self.old extent self.new) }
        ensures causes { IfErr result (λ refusal. (refusal ≡ Refusal.Full) ⊎ (refusal ≡ Refusal.Memory)) }
        ensures full_only { IsErrOf result Refusal.Full → (first : ℕ) → ¬ IsFreeRun self.old first lines }
        ensures err { OnErr result (self.new ≡ self.old) }
    {
        let Some(run) = self.lines.first_fit(lines) else {
            return Err(Refusal::Full);
        };
        let extent = Extent {
            first_line: run.first_line,
            lines,
        };
        self.claim(extent)?;
        Ok(extent)
    }

    /// Hands out this extent, whose lines are all free. `Refusal::Memory` where a growth was refused, and then nothing changed.
    pub fn claim(&mut self, extent: Extent) -> Result<(), AllocError>
        requires some { 0 < extent.lines }
        requires free { IsFreeRun self.old extent.first_line extent.lines }
        ensures ok { OnOk result (ClaimsExtent self.old extent self.new) }
        ensures err { OnErr result (self.new ≡ self.old) }
    {
        self.line_forks.make(self.held + 2)?;
        runs::claim(&mut self.lines, &mut self.line_forks, extent);
        self.free -= extent.lines;
        self.held += 1;
        Ok(())
    }

    /// Hands out this extent where all its lines are free, and says whether they were. Where they were not, nothing changed.
    ///
    /// `AllocError` where a growth was refused, and then nothing changed either.
    pub fn claim_if_free(&mut self, extent: Extent) -> Result<bool, AllocError>
        requires some { 0 < extent.lines }
        ensures free { IfOk result (λ is_free. IsTrue is_free ↔ IsFreeRun self.old extent.first_line extent.lines) }
        ensures claims { IfOk result (λ is_free. IsTrue is_free → ClaimsExtent self.old extent self.new) }
        ensures taken { IfOk result (λ is_free. is_free ≡ false → self.new ≡ self.old) }
        ensures err { OnErr result (self.new ≡ self.old) }
    {
        if !self.lines.holds(extent) {
            return Ok(false);
        }
        self.claim(extent)?;
        Ok(true)
    }

    /// Gives an extent back, which may be a part of what was handed out, or more than one. Free runs that touch become one.
    pub fn give(&mut self, extent: Extent)
        requires { IsOut self.old extent }
        ensures after { GivesExtent self.old extent self.new }
        ensures undoes { (before : Room) → TakesExtent before extent self.old → self.new ≡ before }
    {
        runs::give(&mut self.lines, &mut self.line_forks, extent);
        self.free += extent.lines;
        self.held -= 1;
    }

    /// How many lines are free.
    pub fn free_lines(&self) -> u64
        ensures { result ≡ free_lines_below self.now (self.now).end_line }
    {
        self.free
    }

    /// How many entries are free.
    pub fn free_entries(&self) -> u64
        ensures { result ≡ count_free (self.now).entries }
    {
        self.entries.count()
    }

    /// How many lines the longest run of free lines has: 0 if no line is free.
    pub fn longest_run(&self) -> u64
        ensures longest { result ≡ longest (self.now).lines }
        ensures none_longer { (first lines : ℕ) → result < lines → ¬ IsFreeRun self.now first lines }
    {
        self.lines.longest()
    }

    /// Whether so many entries are free, and so many extents of this many lines can be cut from the free runs.
    pub fn has_room(&self, count: u64, lines: u64) -> bool
        requires { 0 < lines }
        ensures { result ≡ has_room count lines self.now }
    {
        count <= self.entries.count() && self.lines.lacking(lines, count) == 0
    }

    /// Whether so many entries are free, and so many extents of this many lines can be cut from the free runs below `end`: of a run that goes on beyond it
    /// the lines below count.
    pub fn has_room_below(&self, count: u64, lines: u64, end: u64) -> bool
        requires { 0 < lines }
        ensures { result ≡ has_room_below count lines end self.now }
    {
        count <= self.entries.count() && self.lines.lacking_below(lines, end, count) == 0
    }

    /// Whether all lines of the extent are free.
    pub fn is_free(&self, extent: Extent) -> bool
        requires { 0 < extent.lines }
        ensures { IsTrue result ↔ IsFreeRun self.now extent.first_line extent.lines }
    {
        self.lines.holds(extent)
    }

    /// Hands out the lowest free entry. `Refusal::Full` if none is free, and then nothing changed.
    pub fn take_entry(&mut self) -> Result<EntryNo, Refusal>
        ensures ok { IfOk result (λ entry. TakesEntry self.old entry self.new) }
        ensures full { IfErr result (λ refusal. refusal ≡ Refusal.Full) }
        ensures full_only { OnErr result ((i : ℕ) → is_free_entry self.old i ≡ false) }
        ensures err { OnErr result (self.new ≡ self.old) }
    {
        let Some(lowest) = self.entries.lowest() else {
            return Err(Refusal::Full);
        };
        let entry = EntryNo(lowest);
        self.claim_entry(entry);
        Ok(entry)
    }

    /// Hands out this entry, which is free.
    pub fn claim_entry(&mut self, entry: EntryNo)
        requires { IsTrue (is_free_entry self.old entry.0) }
        ensures { ClaimsEntry self.old entry self.new }
    {
        self.entries.assign(entry.0, false);
    }

    /// Gives an entry back.
    pub fn give_entry(&mut self, entry: EntryNo)
        requires { IsOutEntry self.old entry }
        ensures after { GivesEntry self.old entry self.new }
        ensures undoes { (before : Room) → TakesEntry before entry self.old → self.new ≡ before }
    {
        self.entries.assign(entry.0, true);
    }
}

/// One run, if it has a line, and the fork that it may want.
fn fresh(alloc: Global, first_line: u64, lines: u64) -> Result<(Tree, Spare), AllocError>
    ensures runs { IfOk result (λ made. made.0 ≡ some_run (record { first_line = first_line; lines = lines })) }
    ensures counted { IfOk result (λ made. (made.1).made ≡ vec_len (made.1).forks + length made.0) }
    ensures room { IfOk result (λ made. (made.1).made ≤ vec_capacity (made.1).forks) }
{
    let mut spare = Spare::new(alloc);
    spare.make(1)?;
    let runs = spare.push(Tree::new(), Extent { first_line, lines });
    Ok((runs, spare))
}
