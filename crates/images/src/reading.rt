//! The subcommand `status`.
ghost use Rattle.std.specs.Prelude.{◌≡◌, ◌≤◌, ◌<◌, ◌-◌, ℕ, OnOk, IfOk, codes};
ghost use Rattle.std.specs.Io.KnownBytes.{Appends};
ghost use Rattle.model.specs.declared.image.TheConstants.{MIN_LINES};
ghost use Rattle.pmem.specs.Crash.{image_of};
ghost use Rattle.images.specs.Printed.{number_line};
ghost use Rattle.images.specs.Status.{IsReading, status_text};

use crate::causes::tell_cause_of_reading;
use crate::failure::Failure;
use crate::images::Images;
use crate::inspecting::{print_number, print_role};
use crate::pair::pair_of;
use crate::serve_error::ServeError;
use crate::trouble::Trouble;
use heap_layout::{Versions, read_versions};
use kv_types::Refusal;
use model::{LAYOUT, Layout, Record};
use pmem::Pmem;
use std::alloc::Global;
use std::io::{self, Write};

/// How often an image is read again that another process holds, and that changed while it was read.
const TRIES: u32 = 20;

/// What an image of so many lines holds.
#[derive(Drop)]
pub struct Reading {
    pub current: Record,
    pub versions: Versions,
    pub lines: u64,
    /// The number of its pair.
    pub pair: u64,
}

/// Prints how far the image of this name is and how full, and of another one the same, and how far that is behind. They are as they were, and whoever has
/// them open keeps them.
///
/// # Errors
///
/// `InUse` where an image changed each time that it was read, else what reading it refuses.
pub fn status<I: Images, W: Write, E: Write>(
    alloc: Global,
    images: &I,
    name: &str,
    other: Option<&str>,
    writer: &mut W,
    errors: &mut E,
) -> Result<(), Failure> {
    let Some(other) = other else {
        status_of(alloc, images, name, writer, errors)?;
        return Ok(());
    };
    // (which is behind at any moment, so it is read first: read last it might seem ahead)
    let later = read_patiently(alloc, images, other);
    let first = status_of(alloc, images, name, writer, errors)?;
    let second = tell_status(alloc, images, other, later, writer, errors)?;
    match print_distance(first, second, writer) {
        Ok(()) => Ok(()),
        Err(error) => Err(Failure::Stopped(ServeError::Write(error))),
    }
}

/// Prints how far the image of this name is and how full, and answers its position. Where it is refused the cause is told.
fn status_of<I: Images, W: Write, E: Write>(
    alloc: Global,
    images: &I,
    name: &str,
    writer: &mut W,
    errors: &mut E,
) -> Result<u64, Failure> {
    let read = read_patiently(alloc, images, name);
    tell_status(alloc, images, name, read, writer, errors)
}

/// The same of one that was read.
fn tell_status<I: Images, W: Write, E: Write>(
    alloc: Global,
    images: &I,
    name: &str,
    read: Result<Reading, Failure>,
    writer: &mut W,
    errors: &mut E,
) -> Result<u64, Failure> {
    let is_held = tell_cause_of_reading(alloc, images, name, &read, errors);
    match read {
        Ok(reading) => told(reading, writer),
        Err(failure) => Err(failure.while_held(is_held)),
    }
}

/// Reads the image of this name, again and again where another process changes it meanwhile.
fn read_patiently<I: Images>(alloc: Global, images: &I, name: &str) -> Result<Reading, Failure> {
    for _ in 0..TRIES {
        match read(alloc, &images.read_only(name)?) {
            Err(Refusal::Damaged) if images.trouble(name) == Trouble::Held => {}
            read => return Ok(read?),
        }
    }
    Err(Failure::InUse)
}

/// Reads what the image of this device holds, which is as it was.
fn read<P: Pmem>(alloc: Global, device: &P) -> Result<Reading, Refusal>
    requires { MIN_LINES ≤ (P.state device.now).lines }
    ensures { IfOk result (λ reading. IsReading (P.state device.now).lines (image_of (P.state device.now).words) reading) }
{
    let (current, _) = wbl_engine::inspect(alloc, device, LAYOUT)?;
    let versions = read_versions(alloc, device, &current)?;
    Ok(Reading {
        current,
        versions,
        lines: device.lines(),
        pair: pair_of(device),
    })
}

/// Prints what was read of an image, and answers its position.
fn told<W: Write>(reading: Reading, writer: &mut W) -> Result<u64, Failure>
    ensures told { OnOk result ((taken : ℕ) × (room : ℕ) × Appends (W.contents writer.old) (W.contents writer.new) (status_text reading taken room)) }
    ensures position { IfOk result (λ position. position ≡ reading.current.position) }
{
    match print_reading(&reading, writer) {
        Ok(()) => Ok(reading.current.position),
        Err(error) => Err(Failure::Stopped(ServeError::Write(error))),
    }
}

/// Prints what was read of an image. What of its room is taken is found by adding up.
fn print_reading<W: Write>(reading: &Reading, writer: &mut W) -> io::Result<()>
    ensures { OnOk result ((taken : ℕ) × (room : ℕ) × Appends (W.contents writer.old) (W.contents writer.new) (status_text reading.now taken room)) }
{
    let taken = lines_taken(&reading.versions);
    let room = reading
        .lines
        .saturating_sub(Layout::first_extent_line(reading.lines));
    print_numbers(reading, taken, room, writer)
}

/// Prints what was read of an image, of whose lines so many are taken of so many.
fn print_numbers<W: Write>(
    reading: &Reading,
    taken: u64,
    room: u64,
    writer: &mut W,
) -> io::Result<()>
    ensures { OnOk result (Appends (W.contents writer.old) (W.contents writer.new) (status_text reading.now taken room)) }
{
    let count = reading.versions.counted.len() as u64;
    let live = reading.versions.count_live();
    print_role(reading.current.role, writer)?;
    print_number("epoch", reading.current.epoch, writer)?;
    print_number("pair", reading.pair, writer)?;
    print_number("position", reading.current.position, writer)?;
    print_number("versions", count, writer)?;
    print_number("ended", count.saturating_sub(live), writer)?;
    print_number("cut", reading.versions.gapped.len() as u64, writer)?;
    print_number(
        "entries",
        reading.current.layout.entries_of_lines(reading.lines),
        writer,
    )?;
    print_number("lines", taken, writer)?;
    print_number("room", room, writer)?;
    print_number("gaps", reading.current.gaps.len() as u64, writer)?;
    Ok(())
}

/// How many lines the versions take that count.
fn lines_taken(versions: &Versions) -> u64 {
    let mut lines: u64 = 0;
    for (_, entry) in &versions.counted {
        lines = lines.saturating_add(entry.extent.lines);
    }
    lines
}

/// Prints how far the second position is behind the first, or ahead of it.
fn print_distance<W: Write>(first: u64, second: u64, writer: &mut W) -> io::Result<()>
    ensures behind { second ≤ first → OnOk result (Appends (W.contents writer.old) (W.contents writer.new) (number_line (codes "behind") (first - second))) }
    ensures ahead { first < second → OnOk result (Appends (W.contents writer.old) (W.contents writer.new) (number_line (codes "ahead") (second - first))) }
{
    if second <= first {
        print_number("behind", first - second, writer)
    } else {
        print_number("ahead", second - first, writer)
    }
}
