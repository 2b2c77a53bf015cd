//! The shape of a record in an image: what its entry says of its bytes, and the record that they make up.
ghost use Rattle.std.specs.Prelude.{◌≡◌, ◌↔◌, ◌+◌, ◌-◌, ◌/◌, ◌*◌, ◌^◌, ◌<◌, ◌≤◌, length, vec_len, IsTrue, MatchOption, IfOk};
ghost use Rattle.kv_types.specs.declared.limits.TheConstants.{MAX_KEY_BYTES, MAX_VALUE_BYTES};
ghost use Rattle.pmem.specs.Crash.{image_of};
ghost use Rattle.model.specs.declared.image.TheConstants.{MIN_LINES};
ghost use Rattle.model.specs.Image as images;
ghost use Rattle.model.specs.Layout.{first_word};
ghost use Rattle.heap_layout.specs.Entry.{IsEntry};
ghost use Rattle.heap_layout.specs.Shape.{IsShape, IsOfKind, IsShort, IsPlaced, record_of};

use crate::entry::{FIELD_KIND, STRING_KIND, load_of};
use kv_types::{EntryNo, Extent, Key, MAX_KEY_BYTES, MAX_VALUE_BYTES, RecordId, Value};
use model::{FIELD_LENGTH_UNIT, LINE_WORDS, Layout, WORD_BYTES, lines_of_bytes};
use pmem::Pmem;
use std::alloc::{AllocError, Global};

/// Where the bytes of a record lie, and how many each of its parts has.
#[derive(Clone, Copy)]
pub struct Shape {
    pub kind: u64,
    pub key: u64,
    pub field: u64,
    pub value: u64,
    pub extent: Extent,
}

impl Shape {
    /// The shape of the record in an entry, or `None` where the entry breaks a rule.
    pub fn of_entry<P: Pmem>(device: &P, no: EntryNo) -> Option<Shape>
        requires image { MIN_LINES ≤ (P.state device.now).lines }
        requires entry { no.0 < images.directory_room (P.state device.now).lines }
        ensures { MatchOption result (¬ IsEntry (P.state device.now).lines (image_of (P.state device.now).words) no.0)
            (λ shape. IsShape (P.state device.now).lines (image_of (P.state device.now).words) no.0 shape) }
    {
        let names = load_of(device, no, 6);
        let shape = Shape {
            kind: load_of(device, no, 5),
            key: names % FIELD_LENGTH_UNIT,
            field: names / FIELD_LENGTH_UNIT,
            value: load_of(device, no, 7),
            extent: Extent {
                first_line: load_of(device, no, 3),
                lines: load_of(device, no, 4),
            },
        };
        if !shape.has_kind() || !shape.is_short() || !shape.is_placed(device.lines()) {
            return None;
        }
        Some(shape)
    }

    /// Whether the kind is that of a string, with no field, or that of a field.
    fn has_kind(&self) -> bool
        ensures { IsTrue result ↔ IsOfKind self.now }
    {
        match self.kind {
            STRING_KIND => self.field == 0,
            FIELD_KIND => true,
            _ => false,
        }
    }

    /// Whether key, field and value are within their limits.
    fn is_short(&self) -> bool
        ensures { IsTrue result ↔ IsShort self.now }
    {
        self.key <= MAX_KEY_BYTES as u64
            && self.field <= MAX_KEY_BYTES as u64
            && self.value <= MAX_VALUE_BYTES as u64
    }

    /// Whether the extent has just the lines of the bytes, and lies after the directory of an image of so many lines.
    fn is_placed(&self, lines: u64) -> bool
        requires short { IsShort self.now }
        requires countable { 8 * lines < 2 ^ 64 }
        ensures { IsTrue result ↔ IsPlaced lines self.now }
    {
        self.extent.lines == lines_of_bytes(self.key + self.field + self.value)
            && Layout::first_extent_line(lines) <= self.extent.first_line
            && self.extent.first_line <= lines
            && self.extent.lines <= lines - self.extent.first_line
    }
}

/// The name and the value of a record of this shape.
pub fn read_record<P: Pmem>(
    alloc: Global,
    device: &P,
    shape: Shape,
) -> Result<(RecordId, Value), AllocError>
    requires short { IsShort shape }
    requires placed { IsPlaced (P.state device.now).lines shape }
    ensures { IfOk result (λ read. read ≡ record_of (image_of (P.state device.now).words) shape) }
{
    let bytes = bytes_at(
        alloc,
        device,
        shape.extent.first_line,
        shape.key + shape.field + shape.value,
    )?;
    let id = id_of(alloc, shape, bytes.as_slice())?;
    let (_, value) = bytes
        .as_slice()
        .split_at((shape.key + shape.field) as usize);
    let value = Value::new(alloc, value)?;
    Ok((id, value))
}

/// `count` bytes from the start of a line on, the lowest byte of each word first.
fn bytes_at<P: Pmem>(
    alloc: Global,
    device: &P,
    line: u64,
    count: u64,
) -> Result<Vec<u8>, AllocError>
    requires short { count ≤ 2 * MAX_KEY_BYTES + MAX_VALUE_BYTES }
    requires within { first_word line + (count + (WORD_BYTES - 1)) / WORD_BYTES ≤ first_word (P.state device.now).lines }
    ensures bytes { IfOk result (λ v. v.items ≡ images.bytes_at (image_of (P.state device.now).words) line count) }
    ensures len { IfOk result (λ v. vec_len v ≡ count) }
{
    let words = (count + (WORD_BYTES - 1)) / WORD_BYTES;
    let mut bytes = Vec::with_capacity(alloc, (WORD_BYTES * words) as usize)?;
    for k in 0..words {
        bytes.extend_from_slice(&device.load(LINE_WORDS * line + k).to_le_bytes())?;
    }
    bytes.truncate(count as usize);
    Ok(bytes)
}

/// The name of a record whose bytes begin with its key and its field.
fn id_of(alloc: Global, shape: Shape, bytes: &[u8]) -> Result<RecordId, AllocError>
    requires short { IsShort shape }
    requires long { shape.key + shape.field ≤ length bytes.now }
    ensures { IfOk result (λ id. id ≡ images.id_of shape.kind shape.key shape.field bytes.now) }
{
    let (key, rest) = bytes.split_at(shape.key as usize);
    let key = Key::new(alloc, key)?;
    if shape.kind != FIELD_KIND {
        return Ok(RecordId::Str(key));
    }
    let (field, _) = rest.split_at(shape.field as usize);
    let field = Key::new(alloc, field)?;
    Ok(RecordId::Field(key, field))
}
