//! The words of an image: its superblock and its record.
ghost use Rattle.std.specs.Prelude.{◌≡◌, ◌≢◌, ◌↔◌, ◌+◌, ◌*◌, ◌<◌, ◌≤◌, ◌^◌, IsTrue, MatchOption, length, slice_index};
ghost use Rattle.model.specs.Layout.{max_gaps};
ghost use Rattle.model.specs.declared.record.Record.{Record as CommitRecord};
ghost use Rattle.model.specs.declared.record.Role.{Role as NodeRole};
ghost use Rattle.model.specs.Image.{HasSuperblock, role_number, entry_word as the_entry_word};
ghost use Rattle.model.specs.ReadImage.{image_of, line_count, gaps_from, AreZero, IsFilled, IsRecordOf};

use crate::image::MAGIC;
use crate::layout::{GAPS_WORD, LINE_WORDS, Layout};
use crate::record::{Gap, MAX_GAPS, Record, Role};
use arrayvec::ArrayVec;

/// The word at index `at`, or 0 past the last one.
pub fn word_at(words: &[u64], at: u64) -> u64
    ensures { result ≡ slice_index words.now at }
{
    words.get(at as usize).copied().unwrap_or(0)
}

/// The number of word `k` of entry `i`.
pub fn entry_word(i: u64, k: u64) -> u64
    requires entry { 64 * i < 2 ^ 64 }
    requires word { k < 8 }
    ensures { result ≡ the_entry_word i k }
{
    LINE_WORDS * Layout::entry_line(i) + k
}

/// Whether the words begin with the superblock of an image of this layout and of exactly their number of whole lines.
pub fn has_superblock(words: &[u64], layout: Layout) -> bool
    ensures { IsTrue result ↔ HasSuperblock layout (line_count words.now) (image_of words.now) }
{
    let lines = words.len() as u64 / LINE_WORDS;
    word_at(words, 0) == MAGIC
        && word_at(words, 1) == layout.version()
        && word_at(words, 2) == lines
        && word_at(words, 3) == Layout::directory_room(lines)
}

/// The current record, or `None` where the words have no version, or the slot that its root names holds none.
pub fn read_record(words: &[u64]) -> Option<Record>
    ensures { MatchOption result ((r : CommitRecord) → ¬ IsRecordOf (line_count words.now) (image_of words.now) r)
        (λ r. IsRecordOf (line_count words.now) (image_of words.now) r) }
{
    let layout = Layout::of_version(word_at(words, 1))?;
    let number = word_at(words, layout.root_word());
    let first = LINE_WORDS * layout.slot_line(words.len() as u64 / LINE_WORDS, number);
    let gap_count = word_at(words, first + 5);
    let gaps = read_gaps(words, layout, first + GAPS_WORD, gap_count)?;
    let role_word = first + layout.role_word();
    let role = read_role(word_at(words, role_word))?;
    if !is_filled(words, layout, first, number, gap_count) {
        return None;
    }
    Some(Record {
        layout,
        number,
        position: word_at(words, first + 1),
        cp: word_at(words, first + 2),
        cd: word_at(words, first + 3),
        epoch: word_at(words, first + 4),
        role,
        gaps,
        floor: word_at(words, role_word + 1),
    })
}

/// `count` gaps, each a pair of words, from `first` on, or `None` where a record of this layout cannot hold that many.
fn read_gaps(
    words: &[u64],
    layout: Layout,
    first: u64,
    count: u64,
) -> Option<ArrayVec<Gap, MAX_GAPS>>
    requires { first < 2 ^ 63 }
    ensures { MatchOption result (max_gaps layout < count)
        (λ gaps. (count ≤ max_gaps layout) × (gaps.items ≡ gaps_from (image_of words.now) first count)) }
{
    let mut gaps = ArrayVec::new();
    if count > layout.max_gaps() {
        return None;
    }
    for k in 0..count {
        gaps.push(Gap {
            first: word_at(words, first + 2 * k),
            last: word_at(words, first + 2 * k + 1),
        });
    }
    Some(gaps)
}

/// Whether the slot has this number, and zeros in the room after `gaps` gaps.
fn is_filled(words: &[u64], layout: Layout, first: u64, number: u64, gaps: u64) -> bool
    requires slot { first < 2 ^ 63 }
    requires few { gaps ≤ max_gaps layout }
    ensures { IsTrue result ↔ IsFilled layout (image_of words.now) first number gaps }
{
    let room = 2 * (layout.max_gaps() - gaps);
    word_at(words, first) == number && are_zero(words, first + GAPS_WORD + 2 * gaps, room)
}

/// Whether the `count` words from `first` on are zero.
fn are_zero(words: &[u64], first: u64, count: u64) -> bool
    requires { first + count < 2 ^ 64 }
    ensures { IsTrue result ↔ AreZero (image_of words.now) first count }
{
    for k in 0..count {
        if word_at(words, first + k) != 0 {
            return false;
        }
    }
    true
}

/// The role with this number, or `None` where no role has it.
fn read_role(number: u64) -> Option<Role>
    ensures { MatchOption result ((role : NodeRole) → role_number role ≢ number) (λ role. role_number role ≡ number) }
{
    match number {
        1 => Some(Role::Primary),
        2 => Some(Role::Standby),
        3 => Some(Role::Newcomer),
        _ => None,
    }
}
