//! What is in the way of a new image: what another format has left, or something else.
ghost use Rattle.std.specs.Prelude.{◌≡◌, ◌<◌, ◌≤◌, true, Ok, IfErr};
ghost use Rattle.kv_types.specs.declared.refusal.Refusal.TheVariants.{Memory};
ghost use Rattle.model.specs.declared.image.TheConstants.{MIN_LINES};
ghost use Rattle.pmem.specs.Crash.{image_of};
ghost use Rattle.images.specs.Unfinished.{AreZero, IsFirst, IsLeft, IsUnfinished, IsUnused};
ghost use Rattle.images.specs.declared.unfinished.InTheWay.TheVariants as found;

use crate::formatting::NewImage;
use crate::images::Images;
use journal::{MAX_PART_LINES, Shape};
use kv_types::Refusal;
use model::{DIRECTORY_LINE, LAYOUT, LINE_WORDS, Layout, MIN_LINES, Record};
use pmem::Pmem;
use std::alloc::Global;

/// What a file is that has the name of an image to be made.
#[derive(Clone, Copy, Debug, PartialEq, Eq)]
pub enum InTheWay {
    /// The image that is to be made, which no node has opened yet.
    Unused,
    /// What is left of it where a format was cut: it has no magic, and holds no version.
    Unfinished,
    /// Anything else.
    Other,
}

/// What the file of this name is, where this image is to be made. It is as it was. Only `Memory`.
pub fn in_the_way<I: Images>(
    alloc: Global,
    images: &I,
    name: &str,
    new: NewImage,
) -> Result<InTheWay, Refusal>
    ensures cause { IfErr result (λ refusal. refusal ≡ Memory) }
{
    if !images.has_size(name, new.lines, new.has_journal) {
        return Ok(InTheWay::Other);
    }
    match images.read_only(name) {
        Ok(device) if device.lines() == new.lines => found_on(alloc, &device, new),
        // (all lines of the file are read as its image where none of it is written yet)
        Ok(device) if is_left_of(&device, new.lines) => Ok(InTheWay::Unfinished),
        Err(Refusal::Memory) => Err(Refusal::Memory),
        _ => Ok(InTheWay::Other),
    }
}

/// What this device holds. Only `Memory`.
fn found_on<P: Pmem>(alloc: Global, device: &P, new: NewImage) -> Result<InTheWay, Refusal>
    requires { MIN_LINES ≤ (P.state device.now).lines }
    ensures unused { result ≡ Ok found.Unused → IsUnused (P.state device.now).lines new (image_of (P.state device.now).words) }
    ensures unfinished { result ≡ Ok found.Unfinished
        → IsUnfinished (P.state device.now).lines (P.state device.now).lines (image_of (P.state device.now).words) }
    ensures cause { IfErr result (λ refusal. refusal ≡ Memory) }
{
    match wbl_engine::inspect(alloc, device, LAYOUT) {
        Ok((current, _)) => Ok(if is_first(&current, new) {
            InTheWay::Unused
        } else {
            InTheWay::Other
        }),
        Err(Refusal::BadMagic) => Ok(if is_unfinished(device, device.lines()) {
            InTheWay::Unfinished
        } else {
            InTheWay::Other
        }),
        Err(Refusal::Memory) => Err(Refusal::Memory),
        Err(_) => Ok(InTheWay::Other),
    }
}

/// Whether this record is that of this new image: each opening writes another one.
fn is_first(current: &Record, new: NewImage) -> bool
    ensures { result ≡ true → IsFirst new current.now }
{
    current.number == 1
        && current.position == 0
        && current.role == new.role
        && current.epoch == new.epoch
}

/// Whether a device has what is left where a format was cut, of an image of all its lines or of one with room for a journal behind it.
pub fn is_left<P: Pmem>(device: &P) -> bool
    requires { MIN_LINES ≤ (P.state device.now).lines }
    ensures { result ≡ true → IsLeft (P.state device.now).lines (image_of (P.state device.now).words) }
{
    let all = device.lines();
    if is_unfinished(device, all) {
        return true;
    }
    let lines = lines_before_journal(all);
    Shape::of_image(lines).is_of(all) && is_left_of(device, lines)
}

/// How many lines the image has in a file of so many lines with room for a journal, where there can be such a file.
fn lines_before_journal(all: u64) -> u64 {
    let behind = all.saturating_sub(1);
    if behind / 6 < MAX_PART_LINES {
        4 * (behind / 6) + behind % 6
    } else {
        behind.saturating_sub(2 * MAX_PART_LINES)
    }
}

/// The same of a device that has an image of so many lines, if any, and something behind it.
fn is_left_of<P: Pmem>(device: &P, lines: u64) -> bool
    ensures { result ≡ true → (lines < (P.state device.now).lines)
        × IsUnfinished lines (P.state device.now).lines (image_of (P.state device.now).words) }
{
    MIN_LINES <= lines && lines < device.lines() && is_unfinished(device, lines)
}

/// Whether a device has no magic, and nothing but zeros where an image of its first lines, so many, has its entries and what they hold, and behind it.
fn is_unfinished<P: Pmem>(device: &P, lines: u64) -> bool
    requires least { MIN_LINES ≤ lines }
    requires within { lines ≤ (P.state device.now).lines }
    ensures { result ≡ true → IsUnfinished lines (P.state device.now).lines (image_of (P.state device.now).words) }
{
    device.load(0) == 0
        && are_zeros(device, DIRECTORY_LINE, LAYOUT.first_slot_line(lines))
        && are_zeros(device, Layout::first_extent_line(lines), device.lines())
}

/// Whether all words of the lines from `first` on, up to `end`, are zero.
fn are_zeros<P: Pmem>(device: &P, first: u64, end: u64) -> bool
    requires begin { first ≤ (P.state device.now).lines }
    requires end { end ≤ (P.state device.now).lines }
    ensures { result ≡ true → AreZero first end (image_of (P.state device.now).words) }
{
    for word in LINE_WORDS * first..LINE_WORDS * end {
        if device.load(word) != 0 {
            return false;
        }
    }
    true
}
