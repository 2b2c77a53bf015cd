//! The commit record of an image: its body goes into the slot that the last record does not use, and then its number becomes the root.
ghost use Rattle.std.specs.Prelude.{◌≡◌, ◌+◌, ◌*◌, ◌≤◌, ◌++◌, length, slice_index_or, OnOk, OnErr};
ghost use Rattle.pmem.specs.Device.{State, moment};
ghost use Rattle.pmem.specs.Runs.{LeavesOnly, Staged, StageFailed, pairs_from, lines_from};
ghost use Rattle.model.specs.declared.record.Record.{Record};
ghost use Rattle.model.specs.Layout.{first_word};
ghost use Rattle.model.specs.declared.image.TheConstants.{MIN_LINES};
ghost use Rattle.model.specs.Image.{gaps_words, record_words, role_number};
ghost use Rattle.wbl_record.specs.Record.{IsRecorded, IsRecordFault, IsSucceeded, IsEitherRecord};

use arrayvec::ArrayVec;
use model::{GAPS_WORD, Gap, LINE_WORDS, MAX_GAPS, Record, Role};
use pmem::{Fault, Pmem, flush_lines, persist, store_words};

/// How many words a record has at most: those before its gaps, two for each gap, its role and its floor.
pub const MAX_RECORD_WORDS: usize = GAPS_WORD as usize + 2 * MAX_GAPS + 2;

/// Writes the next record: its body into the slot that the current one does not use, then its number as the root, each flushed and fenced.
/// At any moment a crash leaves the current record or the next one. It allocates no memory.
///
/// On `Err` a fence has failed, and a crash may leave either record.
pub fn write_next<P: Pmem>(device: &mut P, next: &Record) -> Result<(), Fault>
    requires { MIN_LINES ≤ (P.state device.old).lines }
    ensures ok { OnOk result (IsRecorded (P.state device.old) (P.state device.new) next.now) }
    ensures err { OnErr result (IsRecordFault (P.state device.old) (P.state device.new) next.now) }
    ensures moments { (current : Record) → IsSucceeded (P.state device.old) current next.now
        → LeavesOnly (P.state device.old) (P.state device.new) (IsEitherRecord (P.state device.old) current next.now) }
{
    let layout = next.layout;
    let first_line = layout.slot_line(device.lines(), next.number);
    let words = words_of(next);
    persist_words(device, first_line, layout.slot_lines(), words.as_slice())?;
    persist(device, &[(layout.root_word(), next.number)], &[0])
}

/// Writes the next record as `write_next` does, and then syncs: it is durable, and so is all that was fenced before. It allocates no memory.
///
/// On `Err` a fence or the sync has failed, and a crash may leave either record.
pub fn write_durably<P: Pmem>(device: &mut P, next: &Record) -> Result<(), Fault>
    requires { MIN_LINES ≤ (P.state device.old).lines }
    ensures ok { OnOk result (IsRecorded (P.state device.old) (P.state device.new) next.now) }
    ensures synced { OnOk result (P.floor device.new ≡ moment (P.state device.new)) }
    ensures err { OnErr result (IsRecordFault (P.state device.old) (P.state device.new) next.now) }
    ensures moments { (current : Record) → IsSucceeded (P.state device.old) current next.now
        → LeavesOnly (P.state device.old) (P.state device.new) (IsEitherRecord (P.state device.old) current next.now) }
{
    write_next(device, next)?;
    device.sync()
}

/// Stores `words` starting at line `line`, flushes `lines` lines from there, and fences.
fn persist_words<P: Pmem>(device: &mut P, line: u64, lines: u64, words: &[u64]) -> Result<(), Fault>
    requires in_range { line + lines ≤ (P.state device.old).lines }
    requires enough { length words.now ≤ first_word lines }
    ensures ok { OnOk result (Staged (P.state device.old) (P.state device.new) (pairs_from (first_word line) words.now) (lines_from line lines)) }
    ensures err { OnErr result (StageFailed (P.state device.old) (P.state device.new) (pairs_from (first_word line) words.now)) }
{
    store_words(device, LINE_WORDS * line, words);
    flush_lines(device, line, lines);
    device.fence()
}

/// The words of a record: as many as its slot has.
pub fn words_of(r: &Record) -> ArrayVec<u64, MAX_RECORD_WORDS>
    ensures { result.items ≡ record_words r.now }
{
    let mut words = ArrayVec::new();
    words.push(r.number);
    words.push(r.position);
    words.push(r.cp);
    words.push(r.cd);
    words.push(r.epoch);
    words.push(r.gaps.len() as u64);
    push_gaps(&mut words, &r.gaps, r.layout.max_gaps());
    words.push(number_of(r.role));
    words.push(r.floor);
    words
}

/// Adds the words of the gaps, in the room for so many.
fn push_gaps(words: &mut ArrayVec<u64, MAX_RECORD_WORDS>, gaps: &ArrayVec<Gap, MAX_GAPS>, room: u64)
    requires { length words.old.items + 2 * room ≤ MAX_RECORD_WORDS }
    ensures { words.new.items ≡ words.old.items ++ gaps_words (2 * room) gaps.now.items }
{
    for k in 0..room {
        let gap = gap_at(gaps, k as usize);
        words.push(gap.first);
        words.push(gap.last);
    }
}

/// The gap at index `k`, or zeros if there is none.
fn gap_at(gaps: &ArrayVec<Gap, MAX_GAPS>, k: usize) -> Gap
    ensures { result ≡ slice_index_or gaps.now.items k (record { first = 0; last = 0 }) }
{
    match gaps.get(k) {
        Some(gap) => *gap,
        None => Gap { first: 0, last: 0 },
    }
}

/// The number by which an image stores a role.
fn number_of(role: Role) -> u64
    ensures { result ≡ role_number role }
{
    match role {
        Role::Primary => 1,
        Role::Standby => 2,
        Role::Newcomer => 3,
    }
}
