//! The entries of an image: which record each holds.
ghost use Rattle.std.specs.Prelude.{◌≡◌, ℕ, ◌+◌, ◌-◌, ◌/◌, ◌<◌, ◌≤◌, length, vec_len, MatchOption, IfOk};
ghost use Rattle.model.specs.Image as images;
ghost use Rattle.model.specs.Layout.{first_word};
ghost use Rattle.model.specs.ReadImage.{image_of, line_count, IsInFormat, record_in};
ghost use Rattle.model.specs.Shape.{IsShape};

use crate::image_words::{entry_word, word_at};
use crate::layout::{FIELD_LENGTH_UNIT, LINE_BYTES, LINE_WORDS, WORD_BYTES};
use kv_types::{Key, MAX_KEY_BYTES, MAX_VALUE_BYTES, RecordId, Value};
use std::alloc::{AllocError, Global};

/// How long the parts of a record are, in bytes, and the line where they begin.
#[derive(Clone, Copy)]
struct Shape {
    key: u64,
    field: u64,
    value: u64,
    line: u64,
}

/// How many lines so many bytes take: at least one.
pub fn lines_of_bytes(bytes: u64) -> u64
    ensures { result ≡ images.lines_of_bytes bytes }
{
    bytes.div_ceil(LINE_BYTES).max(1)
}

/// The shape of the record in entry `i`, or `None` where its lengths exceed the limits or its extent runs past the end of the image.
fn shape_of(words: &[u64], i: u64) -> Option<Shape>
    requires { i < images.directory_room (line_count words.now) }
    ensures { MatchOption result (¬ IsInFormat (line_count words.now) (image_of words.now) i) (λ shape. IsShape (line_count words.now) (image_of words.now) i shape) }
{
    let names = word_at(words, entry_word(i, 6));
    let shape = Shape {
        key: names % FIELD_LENGTH_UNIT,
        field: names / FIELD_LENGTH_UNIT,
        value: word_at(words, entry_word(i, 7)),
        line: word_at(words, entry_word(i, 3)),
    };
    if shape.key > MAX_KEY_BYTES as u64
        || shape.field > MAX_KEY_BYTES as u64
        || shape.value > MAX_VALUE_BYTES as u64
    {
        return None;
    }
    let lines = words.len() as u64 / LINE_WORDS;
    if shape.line > lines
        || lines_of_bytes(shape.key + shape.field + shape.value) > lines - shape.line
    {
        return None;
    }
    Some(shape)
}

/// `count` bytes from the start of `line` on, the lowest byte of each word first.
fn bytes_at(alloc: Global, words: &[u64], line: u64, count: u64) -> Result<Vec<u8>, AllocError>
    requires { first_word line + (count + (WORD_BYTES - 1)) / WORD_BYTES ≤ length words.now }
    ensures bytes { IfOk result (λ v. v.items ≡ images.bytes_at (image_of words.now) line count) }
    ensures len { IfOk result (λ v. vec_len v ≡ count) }
{
    let mut bytes = Vec::new(alloc);
    for k in 0..(count + (WORD_BYTES - 1)) / WORD_BYTES {
        bytes.extend_from_slice(&word_at(words, LINE_WORDS * line + k).to_le_bytes())?;
    }
    bytes.truncate(count as usize);
    Ok(bytes)
}

/// The name of a record whose bytes begin with its key and its field.
fn id_of(alloc: Global, kind: u64, shape: Shape, bytes: &[u8]) -> Result<RecordId, AllocError>
    requires key { shape.key ≤ MAX_KEY_BYTES }
    requires field { shape.field ≤ MAX_KEY_BYTES }
    requires long { shape.key + shape.field ≤ length bytes.now }
    ensures { IfOk result (λ id. id ≡ images.id_of kind shape.key shape.field bytes.now) }
{
    let (key, rest) = bytes.split_at(shape.key as usize);
    let key = Key::new(alloc, key)?;
    if kind != 2 {
        return Ok(RecordId::Str(key));
    }
    let field = Key::new(alloc, rest.split_at(shape.field as usize).0)?;
    Ok(RecordId::Field(key, field))
}

/// The name and the value of the record in entry `i`, or `None` where its lengths exceed the limits or its extent runs past the end of the image.
pub fn read_entry(
    alloc: Global,
    words: &[u64],
    i: u64,
) -> Result<Option<(RecordId, Value)>, AllocError>
    requires { i < images.directory_room (line_count words.now) }
    ensures { IfOk result (λ o. MatchOption o (¬ IsInFormat (line_count words.now) (image_of words.now) i)
        (λ read. IsInFormat (line_count words.now) (image_of words.now) i × (read ≡ record_in (image_of words.now) i))) }
{
    let Some(shape) = shape_of(words, i) else {
        return Ok(None);
    };
    let bytes = bytes_at(
        alloc,
        words,
        shape.line,
        shape.key + shape.field + shape.value,
    )?;
    let id = id_of(
        alloc,
        word_at(words, entry_word(i, 5)),
        shape,
        bytes.as_slice(),
    )?;
    let (_, value) = bytes
        .as_slice()
        .split_at((shape.key + shape.field) as usize);
    let value = Value::new(alloc, value)?;
    Ok(Some((id, value)))
}
