//! A version that has ended is moved to another entry and other lines, by hand: it is in no map, so no record has to change for it, and a standby that is
//! behind is still told of it.
ghost use Rattle.std.specs.Prelude.{◌≡◌, ℕ, ◌+◌, ◌<◌, ◌≤◌, [], ◌∷◌, OnOk, OnErr};
ghost use Rattle.kv_types.specs.Keyspace.{Keyspace};
ghost use Rattle.pmem.specs.Crash.{IsImage, image_of};
ghost use Rattle.pmem.specs.Runs.{LeavesOnly, Runs, Staged, StageFailed, stores};
ghost use Rattle.model.specs.Group.{AreApart, Contents, IsConsistent, entries_of};
ghost use Rattle.model.specs.Image.{Holds, Image, IsMapOf, Version, entry_line, entry_word};
ghost use Rattle.wbl_engine.specs.Contents.{IsDurable};
ghost use Rattle.wbl_engine.specs.Lawful.{AreLawful};
ghost use Rattle.wbl_migrate.specs.Ended.{HaveOneMap, IsCopyable, IsMovable, IsMoving, KeepsMoving, after_move, copy_lines, copy_pairs, entry_copy, extent_copy, with_copy};

use heap_layout::entry_word;
use kv_types::EntryNo;
use model::{LINE_WORDS, Layout, Record};
use pmem::{Fault, Pmem, flush_lines, persist, store_words};

/// Moves a version that has ended from its entry to a free one, and its extent to the free lines from `to_line` on. Its record, value, position and stamps
/// stay.
///
/// The copy is durable before its begin is stored, and its begin before the old one is erased. So at any moment a crash leaves the version in its old
/// place, in both or in the new one, and the same map under the same record. On `Err` a fence has failed.
pub fn move_ended<P: Pmem>(
    device: &mut P,
    current: &Record,
    from: EntryNo,
    to: EntryNo,
    to_line: u64,
) -> Result<(), Fault>
    requires { (contents : Contents) × (version : Version)
        × IsMoving current.now (P.state device.old) contents from.0 to.0 to_line version }
    ensures moved { OnOk result ((contents : Contents) (version : Version)
        → IsMoving current.now (P.state device.old) contents from.0 to.0 to_line version
        → IsDurable (P.state device.new) (after_move from.0 to.0 to_line contents)) }
    // the old entry is free
    ensures freed { OnOk result ((image : Image) → IsImage (P.state device.new).words image → image (entry_word from.0 0) ≡ 0) }
    // and the new one has its stamps
    ensures stamps { OnOk result ((image : Image) → IsImage (P.state device.new).words image
        → (image (entry_word to.0 0) ≡ image_of (P.state device.old).words (entry_word from.0 0))
        × (image (entry_word to.0 1) ≡ image_of (P.state device.old).words (entry_word from.0 1))) }
    ensures sound { OnOk result ((P.state device.new).failures ≡ (P.state device.old).failures) }
    ensures fault { OnErr result ((P.state device.old).failures < (P.state device.new).failures) }
    ensures left { OnErr result ((contents : Contents) (version : Version)
        → IsMoving current.now (P.state device.old) contents from.0 to.0 to_line version
        → (image : Image) → IsImage (P.state device.new).words image → KeepsMoving from.0 to.0 to_line contents image) }
    ensures line_count { (P.state device.new).lines ≡ (P.state device.old).lines }
    ensures asked_moment { (P.state device.new).kept ≡ (P.state device.old).kept }
    // in the old place, in both or in the new one, at any moment of the call
    ensures moments { (contents : Contents) (version : Version)
        → IsMoving current.now (P.state device.old) contents from.0 to.0 to_line version
        → LeavesOnly (P.state device.old) (P.state device.new) (KeepsMoving from.0 to.0 to_line contents) }
    // and the same record and map
    ensures map { (contents : Contents) (version : Version) (s : Keyspace)
        → IsMoving current.now (P.state device.old) contents from.0 to.0 to_line version
        → IsMapOf contents.versions (entries_of contents) s
        → LeavesOnly (P.state device.old) (P.state device.new) (Holds contents.lines current.now s) }
{
    copy_version(device, from, to, to_line)?;
    begin_copy(device, from, to)?;
    erase_begin(device, from)
}

/// What has ended is in no map: while such a version is moved, the map is the one that it was, and so is the record.
pub fn moving_what_has_ended_keeps_the_map()
    ensures copied { (contents : Contents) (from to to_line : ℕ) (version : Version) → IsMovable contents from to to_line version
        → HaveOneMap contents (with_copy from to to_line contents) }
    ensures moved { (contents : Contents) (from to to_line : ℕ) (version : Version) → IsMovable contents from to to_line version
        → HaveOneMap contents (after_move from to to_line contents) }
    ensures current { (contents : Contents) (from to to_line : ℕ)
        → ((with_copy from to to_line contents).current ≡ contents.current) × ((after_move from to to_line contents).current ≡ contents.current) }
{}

/// Contents that obey the rules do so with both copies and after the move, so that no image on the way is refused as damaged. Free entries still have no
/// version.
pub fn moving_what_has_ended_keeps_contents_lawful()
    ensures lawful { (contents : Contents) (from to to_line : ℕ) (version : Version) → IsMovable contents from to to_line version → AreLawful contents
        → AreLawful (with_copy from to to_line contents) × AreLawful (after_move from to to_line contents) }
    ensures consistent { (contents : Contents) (from to to_line : ℕ) (version : Version) → IsMovable contents from to to_line version
        → IsConsistent contents → IsConsistent (with_copy from to to_line contents) × IsConsistent (after_move from to to_line contents) }
{}

/// Copies the extent of a version to the lines from `to_line` on, and its entry, but for the begin, to entry `to`; flushes, and fences. While the begin of
/// that entry does not count, nothing of this does.
fn copy_version<P: Pmem>(
    device: &mut P,
    from: EntryNo,
    to: EntryNo,
    to_line: u64,
) -> Result<(), Fault>
    requires { IsCopyable (P.state device.old).lines (image_of (P.state device.old).words) from.0 to.0 to_line }
    ensures ok { OnOk result (Staged (P.state device.old) (P.state device.new)
        (copy_pairs (image_of (P.state device.old).words) from.0 to.0 to_line) (copy_lines (image_of (P.state device.old).words) from.0 to.0 to_line)) }
    ensures err { OnErr result (StageFailed (P.state device.old) (P.state device.new)
        (copy_pairs (image_of (P.state device.old).words) from.0 to.0 to_line)) }
{
    let first_line = device.load(entry_word(from, 3));
    let lines = device.load(entry_word(from, 4));
    copy_extent(device, first_line, to_line, lines);
    copy_entry(device, from, to, to_line);
    flush_lines(device, to_line, lines);
    device.flush(Layout::entry_line(to.0));
    device.fence()
}

/// Copies all words of `count` lines, from `line` on, to the lines from `to_line` on. Nothing is flushed.
fn copy_extent<P: Pmem>(device: &mut P, line: u64, to_line: u64, count: u64)
    requires within { line + count ≤ (P.state device.old).lines }
    requires to_within { to_line + count ≤ (P.state device.old).lines }
    requires apart { AreApart to_line count line count }
    ensures { Runs (P.state device.old) (P.state device.new)
        (stores (extent_copy (image_of (P.state device.old).words) line to_line count) (P.state device.old).words) }
{
    for i in 0..LINE_WORDS * count {
        let value = device.load(LINE_WORDS * line + i);
        device.store(LINE_WORDS * to_line + i, value);
    }
}

/// Copies the words of entry `from` to entry `to`, but for the begin, with `to_line` for the first line. Nothing is flushed.
fn copy_entry<P: Pmem>(device: &mut P, from: EntryNo, to: EntryNo, to_line: u64)
    requires within { entry_line from.0 < (P.state device.old).lines }
    requires to_within { entry_line to.0 < (P.state device.old).lines }
    ensures { Runs (P.state device.old) (P.state device.new)
        (stores (entry_copy (image_of (P.state device.old).words) from.0 to.0 to_line) (P.state device.old).words) }
{
    let words = [
        device.load(entry_word(from, 1)),
        device.load(entry_word(from, 2)),
        to_line,
        device.load(entry_word(from, 4)),
        device.load(entry_word(from, 5)),
        device.load(entry_word(from, 6)),
        device.load(entry_word(from, 7)),
    ];
    store_words(device, entry_word(to, 1), &words);
}

/// Stores the begin of entry `from` as that of entry `to`, flushes and fences: from then on the copy counts.
fn begin_copy<P: Pmem>(device: &mut P, from: EntryNo, to: EntryNo) -> Result<(), Fault>
    requires within { entry_line from.0 < (P.state device.old).lines }
    requires to_within { entry_line to.0 < (P.state device.old).lines }
    ensures ok { OnOk result (Staged (P.state device.old) (P.state device.new)
        ((entry_word to.0 0, image_of (P.state device.old).words (entry_word from.0 0)) ∷ []) (entry_line to.0 ∷ [])) }
    ensures err { OnErr result (StageFailed (P.state device.old) (P.state device.new)
        ((entry_word to.0 0, image_of (P.state device.old).words (entry_word from.0 0)) ∷ [])) }
{
    let begin = device.load(entry_word(from, 0));
    persist(
        device,
        &[(entry_word(to, 0), begin)],
        &[Layout::entry_line(to.0)],
    )
}

/// Stores 0 as the begin of an entry, flushes and fences: from then on the entry is free.
fn erase_begin<P: Pmem>(device: &mut P, entry: EntryNo) -> Result<(), Fault>
    requires { entry_line entry.0 < (P.state device.old).lines }
    ensures ok { OnOk result (Staged (P.state device.old) (P.state device.new) ((entry_word entry.0 0, 0) ∷ []) (entry_line entry.0 ∷ [])) }
    ensures err { OnErr result (StageFailed (P.state device.old) (P.state device.new) ((entry_word entry.0 0, 0) ∷ [])) }
{
    persist(
        device,
        &[(entry_word(entry, 0), 0)],
        &[Layout::entry_line(entry.0)],
    )
}
