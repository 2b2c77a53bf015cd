//! The plain, slow reader of an image, with which every faster one is compared.
ghost use Rattle.std.specs.Prelude.{◌≡◌, ◌<◌, IsTrue, MatchOption, MatchBool, IfOk, IfSome, IfNone};
ghost use Rattle.std.specs.List.{list_any};
ghost use Rattle.model.specs.Image.{IsMapOf, Holds, version_at, entries_of_lines, entry_word as the_entry_word};
ghost use Rattle.model.specs.ReadImage.{image_of, line_count, is_clash as the_clash, IsWhole, HasMap, AddsEntry, CannotAdd};

use crate::image_entries::read_entry;
use crate::image_words::{entry_word, has_superblock, read_record, word_at};
use crate::layout::LINE_WORDS;
use crate::record::Record;
use kv_types::{Change, PlainKeyspace, RecordId};
use std::alloc::{AllocError, Global};

/// What an image holds: its current record, and its map.
#[derive(Debug, Drop)]
pub struct ImageContents {
    pub record: Record,
    pub keyspace: PlainKeyspace,
}

/// Reads the words of an image: its current record, and the map of all versions whose begin counts and whose end does not. `None` where they
/// are not a whole image: the superblock is none for their number of lines, the root's slot holds no record, or the entries have no map.
pub fn read_image(alloc: Global, words: &[u64]) -> Result<Option<ImageContents>, AllocError>
    ensures whole { IfOk result (λ o. IfSome o (λ c. Holds (line_count words.now) c.record c.keyspace (image_of words.now))) }
    ensures refused { IfOk result (λ o. IfNone o (¬ IsWhole words.now)) }
{
    let Some(record) = read_record(words) else {
        return Ok(None);
    };
    if !has_superblock(words, record.layout) {
        return Ok(None);
    }
    let Some(keyspace) = read_map(alloc, words, &record)? else {
        return Ok(None);
    };
    Ok(Some(ImageContents { record, keyspace }))
}

/// The map of the entries under a record, or `None` where they have none.
fn read_map(
    alloc: Global,
    words: &[u64],
    current: &Record,
) -> Result<Option<PlainKeyspace>, AllocError>
    ensures { IfOk result (λ o. MatchOption o (¬ HasMap (line_count words.now) current.now (image_of words.now))
        (λ s. IsMapOf (version_at current.now (image_of words.now)) (entries_of_lines current.now.layout (line_count words.now)) s)) }
{
    let mut keyspace = PlainKeyspace::new(alloc);
    for i in 0..current
        .layout
        .entries_of_lines(words.len() as u64 / LINE_WORDS)
    {
        if !add_entry(alloc, words, current, i, &mut keyspace)? {
            return Ok(None);
        }
    }
    Ok(Some(keyspace))
}

/// Adds what entry `i` holds, and returns whether it could.
fn add_entry(
    alloc: Global,
    words: &[u64],
    current: &Record,
    i: u64,
    keyspace: &mut PlainKeyspace,
) -> Result<bool, AllocError>
    requires { i < entries_of_lines current.now.layout (line_count words.now) }
    ensures { IfOk result (λ added. MatchBool added (AddsEntry (version_at current.now (image_of words.now)) i keyspace.old keyspace.new)
        (CannotAdd (line_count words.now) current.now (image_of words.now) i keyspace.old)) }
{
    if !current.counts(word_at(words, entry_word(i, 0))) {
        return Ok(true);
    }
    let Some((id, value)) = read_entry(alloc, words, i)? else {
        return Ok(false);
    };
    if current.counts(word_at(words, entry_word(i, 1))) {
        return Ok(true);
    }
    if has_clash(keyspace, &id) {
        return Ok(false);
    }
    keyspace.play(Change::Put(id, value))?;
    Ok(true)
}

/// Whether the keyspace has a record that clashes with this one.
fn has_clash(keyspace: &PlainKeyspace, id: &RecordId) -> bool
    ensures { result ≡ list_any (λ entry. the_clash entry.0 id.now) keyspace.now }
{
    keyspace
        .records()
        .iter()
        .any(|entry| is_clash(&entry.0, id))
}

/// Whether the two are the same record, or a string and a field of one key.
fn is_clash(other: &RecordId, id: &RecordId) -> bool
    ensures { result ≡ the_clash other.now id.now }
{
    other.key() == id.key() && (other == id || other.field().is_none() || id.field().is_none())
}
