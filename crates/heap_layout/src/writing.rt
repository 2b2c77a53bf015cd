//! Writing a version: its entry, and an extent with the bytes of key, field and value.
ghost use Rattle.std.specs.Prelude.{◌≡◌, ◌≢◌, ℕ, ◌+◌, ◌*◌, ◌^◌, ◌<◌, ◌≤◌, ◌++◌, length, slice_index};
ghost use Rattle.pmem.specs.Runs.{Runs, stores, flushes, pairs_from};
ghost use Rattle.pmem.specs.Crash.{image_of};
ghost use Rattle.kv_types.specs.Keyspace.{key_of};
ghost use Rattle.model.specs.declared.layout.TheConstants.{LINE_BYTES};
ghost use Rattle.model.specs.Layout.{first_word};
ghost use Rattle.model.specs.Image as images;
ghost use Rattle.model.specs.Group.{IsPlaced, HasItsLines, bytes_of_id};
ghost use Rattle.heap_layout.specs.Put.{word_of_bytes, packed, name_bytes, kind_number, lengths_word, put_pairs, put_lines, entry_of_put, IsStorable, IsShortName};
ghost use Rattle.heap_layout.specs.Entry.{IsEntry, ReadsAlike, entry_in};

use crate::entry::{FIELD_KIND, STRING_KIND};
use crate::place::entry_word;
use kv_types::{Extent, RecordId, Value};
use model::{FIELD_LENGTH_UNIT, LINE_WORDS, Layout, Put, WORD_BYTES, lines_of_bytes};
use pmem::{Pmem, flush_lines, store_words};

/// How many lines a record with this name and this value takes: at least one.
pub fn lines_for(id: &RecordId, value: &Value) -> u64
    ensures { result ≡ images.lines_of_bytes (bytes_of_id id.now + length value.now) }
{
    lines_of_bytes((name_len(id) + value.len()) as u64)
}

/// Stores the entry and the extent of a put, begun with this stamp at this position of the list. Nothing is flushed.
pub fn write_entry<P: Pmem>(device: &mut P, put: &Put, begin: u64, position: u64)
    requires placed { IsPlaced (images.directory_room (P.state device.old).lines) (P.state device.old).lines put.now }
    requires fitting { HasItsLines put.now }
    ensures stored { Runs (P.state device.old) (P.state device.new) (stores (put_pairs begin position put.now) (P.state device.old).words) }
    ensures storable { IsStorable put.now }
    // what was written is read back
    ensures whole { IsEntry (P.state device.old).lines (image_of (P.state device.new).words) put.now.entry.0 }
    ensures read { entry_in (image_of (P.state device.new).words) put.now.entry.0 ≡ entry_of_put begin position put.now }
    // and every other entry as before, unless its extent has one of the lines
    ensures others { (i : ℕ) → i < images.directory_room (P.state device.old).lines → i ≢ put.now.entry.0
        → ReadsAlike (P.state device.old).lines (image_of (P.state device.old).words) (image_of (P.state device.new).words) put.now.extent i }
{
    let words = [
        begin,
        0,
        position,
        put.extent.first_line,
        put.extent.lines,
        kind_of(&put.id),
        lengths_of(&put.id),
        put.value.len() as u64,
    ];
    let (key, field) = name_of(&put.id);
    write_extent(device, &put.extent, key, field, put.value.as_slice());
    store_words(device, entry_word(put.entry, 0), &words);
}

/// Flushes the extent and the entry of a put.
pub fn flush_entry<P: Pmem>(device: &mut P, put: &Put)
    requires placed { IsPlaced (images.directory_room (P.state device.old).lines) (P.state device.old).lines put.now }
    ensures { Runs (P.state device.old) (P.state device.new) (flushes (put_lines put.now) (P.state device.old).words) }
{
    flush_lines(device, put.extent.first_line, put.extent.lines);
    device.flush(Layout::entry_line(put.entry.0));
}

/// The key of a record, and its field: empty for a string.
fn name_of(id: &RecordId) -> (&[u8], &[u8])
    ensures { result.0.now ++ result.1.now ≡ name_bytes id.now }
{
    match id {
        RecordId::Str(key) => (key.as_slice(), &[]),
        RecordId::Field(key, field) => (key.as_slice(), field.as_slice()),
    }
}

/// How many bytes key and field have together.
fn name_len(id: &RecordId) -> usize
    ensures count { result ≡ bytes_of_id id.now }
    ensures bound { result ≤ 1024 }
{
    match id {
        RecordId::Str(key) => key.len(),
        RecordId::Field(key, field) => key.len() + field.len(),
    }
}

/// The kind of a record, as an entry stores it.
fn kind_of(id: &RecordId) -> u64
    ensures { result ≡ kind_number id.now }
{
    match id {
        RecordId::Str(_) => STRING_KIND,
        RecordId::Field(..) => FIELD_KIND,
    }
}

/// The lengths of key and field, as an entry stores them.
fn lengths_of(id: &RecordId) -> u64
    ensures value { result ≡ lengths_word id.now }
    ensures name { IsShortName id.now }
    ensures short { bytes_of_id id.now ≤ 1024 }
{
    match id {
        RecordId::Str(key) => key.len() as u64,
        RecordId::Field(key, field) => key.len() as u64 + FIELD_LENGTH_UNIT * field.len() as u64,
    }
}

/// Stores the bytes of key, field and value in the words of an extent, and zeros in the rest of it.
fn write_extent<P: Pmem>(device: &mut P, extent: &Extent, key: &[u8], field: &[u8], value: &[u8])
    requires in_range { extent.now.first_line + extent.now.lines ≤ (P.state device.old).lines }
    requires few { LINE_BYTES * extent.now.lines < 2 ^ 32 }
    requires short { length key.now + length field.now + length value.now < 2 ^ 32 }
    ensures bytes { (i : ℕ) → slice_index (key.now ++ field.now ++ value.now) i < 256 }
    ensures stored { Runs (P.state device.old) (P.state device.new)
        (stores (pairs_from (first_word extent.now.first_line) (packed (key.now ++ field.now ++ value.now) 0 (first_word extent.now.lines))) (P.state device.old).words) }
{
    for i in 0..LINE_WORDS * extent.lines {
        device.store(
            LINE_WORDS * extent.first_line + i,
            word_at(key, field, value, (WORD_BYTES * i) as usize),
        );
    }
}

/// The word made of the eight bytes from offset `at`, lowest first, with zeros past the end of the value.
fn word_at(key: &[u8], field: &[u8], value: &[u8], at: usize) -> u64
    requires short { length key.now + length field.now + length value.now < 2 ^ 32 }
    requires near { at < 2 ^ 32 }
    ensures { result ≡ word_of_bytes (key.now ++ field.now ++ value.now) at }
{
    if at + 8 <= key.len() {
        return word_within(key, at);
    }
    let name = key.len() + field.len();
    if name + value.len() <= at {
        return 0;
    }
    if name <= at && at + 8 <= name + value.len() {
        return word_within(value, at - name);
    }
    u64::from_le_bytes([
        byte_at(key, field, value, at),
        byte_at(key, field, value, at + 1),
        byte_at(key, field, value, at + 2),
        byte_at(key, field, value, at + 3),
        byte_at(key, field, value, at + 4),
        byte_at(key, field, value, at + 5),
        byte_at(key, field, value, at + 6),
        byte_at(key, field, value, at + 7),
    ])
}

/// The word made of the eight bytes of one slice from offset `at`, lowest first.
fn word_within(bytes: &[u8], at: usize) -> u64
    requires { at + 8 ≤ length bytes.now }
    ensures { result ≡ word_of_bytes bytes.now at }
{
    u64::from_le_bytes([
        bytes[at],
        bytes[at + 1],
        bytes[at + 2],
        bytes[at + 3],
        bytes[at + 4],
        bytes[at + 5],
        bytes[at + 6],
        bytes[at + 7],
    ])
}

/// The byte at offset `at` of key, field and value in a row, or 0 past the end.
fn byte_at(key: &[u8], field: &[u8], value: &[u8], at: usize) -> u8
    ensures { result ≡ slice_index (key.now ++ field.now ++ value.now) at }
{
    if at < key.len() {
        return key[at];
    }
    let at = at - key.len();
    if at < field.len() {
        return field[at];
    }
    let at = at - field.len();
    if at < value.len() { value[at] } else { 0 }
}
