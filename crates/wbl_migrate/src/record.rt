//! The record of version 2: its body goes into the lines of entries that are no longer read, and then its number into a word of the superblock that version 1
//! does not have. So the record of version 1 stays the one that is read until the image is marked as new.
ghost use Rattle.std.specs.Prelude.{◌≡◌, ◌⊎◌, ◌+◌, ◌<◌, ◌≤◌, ◌↔◌, Err, IsErrOf, IsTrue, IfErr, OnOk, OnErr, length};
ghost use Rattle.kv_types.specs.Keyspace.{Keyspace};
ghost use Rattle.pmem.specs.Runs.{LeavesOnly, Staged, StageFailed, pairs_from, lines_from};
ghost use Rattle.model.specs.declared.image.TheConstants.{MIN_LINES};
ghost use Rattle.model.specs.declared.layout.Layout.TheVariants.{Version2, Halfway};
ghost use Rattle.model.specs.declared.record.Record.{Record as CommitRecord};
ghost use Rattle.model.specs.Layout.{first_word};
ghost use Rattle.model.specs.Image.{HasRecord};
ghost use Rattle.wbl_record.specs.Record.{IsRecordWord};
ghost use Rattle.wbl_migrate.specs.Stage.{IsMovable};
ghost use Rattle.wbl_migrate.specs.Steps.{Leaves, KeepsOthers, renewed};

use arrayvec::ArrayVec;
use kv_types::Refusal;
use model::{COUNTER_LIMIT, LINE_WORDS, Layout, Record};
use pmem::{Fault, Pmem, flush_lines, persist, store_words};
use wbl_record::words_of;

/// Writes the record of version 2 that follows the current one: the next number, no gap, its position as the floor, and all else as it was. First its body,
/// then its number as the root of version 2, each flushed and fenced. What stood in these words before does not matter. It allocates no memory.
///
/// The image is halfway: nothing that is written is read there.
///
/// # Errors
///
/// `Exhausted` where the number would reach 2^62, with nothing changed; `Fault` where a fence failed.
pub fn write_new_record<P: Pmem>(device: &mut P, current: &Record) -> Result<(), Refusal>
    requires { MIN_LINES ≤ (P.state device.old).lines }
    ensures ok { OnOk result (Leaves (P.state device.new) (HasRecord (P.state device.old).lines (renewed current.now))) }
    ensures sound { OnOk result ((P.state device.new).failures ≡ (P.state device.old).failures) }
    ensures causes { IfErr result (λ refusal. (refusal ≡ Refusal.Fault) ⊎ (refusal ≡ Refusal.Exhausted)) }
    ensures err { IsErrOf result Refusal.Fault → (P.state device.old).failures < (P.state device.new).failures }
    ensures exhausted { IsErrOf result Refusal.Exhausted → (COUNTER_LIMIT ≤ current.now.number + 1) × (P.state device.new ≡ P.state device.old) }
    ensures exhausts { COUNTER_LIMIT ≤ current.now.number + 1 → result ≡ Err Refusal.Exhausted }
    ensures elsewhere { KeepsOthers (P.state device.old) (P.state device.new) (IsRecordWord Version2 (P.state device.old).lines (current.now.number + 1)) }
    ensures moments { (r : CommitRecord) (s : Keyspace)
        → Leaves (P.state device.old) (IsMovable Halfway (P.state device.old).lines r s)
        → LeavesOnly (P.state device.old) (P.state device.new) (IsMovable Halfway (P.state device.old).lines r s) }
{
    if is_last(current) {
        return Err(Refusal::Exhausted);
    }
    match write_record(device, &renewed(current)) {
        Ok(()) => Ok(()),
        Err(Fault) => Err(Refusal::Fault),
    }
}

/// Whether the number after a record's would reach the limit.
pub(crate) fn is_last(current: &Record) -> bool
    ensures { IsTrue result ↔ COUNTER_LIMIT ≤ current.now.number + 1 }
{
    COUNTER_LIMIT - 1 <= current.number
}

/// Writes this record of version 2.
fn write_record<P: Pmem>(device: &mut P, next: &Record) -> Result<(), Fault>
    requires size { MIN_LINES ≤ (P.state device.old).lines }
    requires layout { next.now.layout ≡ Version2 }
    ensures ok { OnOk result (Leaves (P.state device.new) (HasRecord (P.state device.old).lines next.now)) }
    ensures sound { OnOk result ((P.state device.new).failures ≡ (P.state device.old).failures) }
    ensures err { OnErr result ((P.state device.old).failures < (P.state device.new).failures) }
    ensures elsewhere { KeepsOthers (P.state device.old) (P.state device.new) (IsRecordWord Version2 (P.state device.old).lines next.now.number) }
    ensures moments { (r : CommitRecord) (s : Keyspace)
        → Leaves (P.state device.old) (IsMovable Halfway (P.state device.old).lines r s)
        → LeavesOnly (P.state device.old) (P.state device.new) (IsMovable Halfway (P.state device.old).lines r s) }
{
    let layout = next.layout;
    let first_line = layout.slot_line(device.lines(), next.number);
    let words = words_of(next);
    persist_words(device, first_line, layout.slot_lines(), words.as_slice())?;
    persist(device, &[(layout.root_word(), next.number)], &[0])
}

/// Stores `words` starting at line `line`, flushes `lines` lines from there, and fences.
fn persist_words<P: Pmem>(device: &mut P, line: u64, lines: u64, words: &[u64]) -> Result<(), Fault>
    requires in_range { line + lines ≤ (P.state device.old).lines }
    requires enough { length words.now ≤ first_word lines }
    ensures ok { OnOk result (Staged (P.state device.old) (P.state device.new) (pairs_from (first_word line) words.now) (lines_from line lines)) }
    ensures err { OnErr result (StageFailed (P.state device.old) (P.state device.new) (pairs_from (first_word line) words.now)) }
{
    store_words(device, LINE_WORDS * line, words);
    flush_lines(device, line, lines);
    device.fence()
}

/// The record of version 2 that follows this one.
fn renewed(current: &Record) -> Record
    requires { current.now.number + 1 < COUNTER_LIMIT }
    ensures { result ≡ renewed current.now }
{
    Record {
        layout: Layout::Version2,
        number: current.number + 1,
        position: current.position,
        cp: current.cp,
        cd: current.cd,
        epoch: current.epoch,
        role: current.role,
        gaps: ArrayVec::new(),
        floor: current.position,
    }
}
