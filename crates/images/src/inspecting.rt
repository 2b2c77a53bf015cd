//! The subcommand `inspect`.
ghost use Rattle.std.specs.Prelude.{◌≤◌, IfErr, OnOk};
ghost use Rattle.std.specs.Io.KnownBytes.{Appends};
ghost use Rattle.model.specs.declared.image.TheConstants.{MIN_LINES};
ghost use Rattle.pmem.specs.Crash.{image_of};
ghost use Rattle.images.specs.Printed.{TellsImage, gap_line, gap_lines, image_text, number_line, role_line};
ghost use Rattle.images.specs.Told.{IsRefusalOf};

use crate::failure::Failure;
use crate::images::Images;
use crate::pair::pair_of;
use crate::serve_error::ServeError;
use model::{Gap, Record, Role};
use pmem::Pmem;
use std::alloc::Global;
use std::io::{self, Write};
use wbl_engine::layout_in;

/// Prints what the image of this name holds. It is as it was, and whoever has it open keeps it.
pub fn inspect<I: Images, W: Write>(
    alloc: Global,
    images: &I,
    name: &str,
    writer: &mut W,
) -> Result<(), Failure> {
    let device = images.read_only(name)?;
    print_image(alloc, &device, writer)
}

/// Prints the version, the record and the number of an undamaged image of any version, and how many of its entries are live.
///
/// A refusal is that of reading the image, with nothing printed.
fn print_image<P: Pmem, W: Write>(alloc: Global, device: &P, writer: &mut W) -> Result<(), Failure>
    requires { MIN_LINES ≤ (P.state device.now).lines }
    ensures told { OnOk result (TellsImage (P.state device.now).lines (image_of (P.state device.now).words)
        (W.contents writer.old) (W.contents writer.new)) }
    ensures refused { IfErr result (IsRefusalOf (P.state device.now).lines (image_of (P.state device.now).words)
        (W.contents writer.old) (W.contents writer.new)) }
{
    let (current, live) = wbl_engine::inspect(alloc, device, layout_in(device))?;
    match print(&current, pair_of(device), live, writer) {
        Ok(()) => Ok(()),
        Err(error) => Err(Failure::Stopped(ServeError::Write(error))),
    }
}

/// Prints the version of an image, its record, the number of its pair and how many entries are live.
fn print<W: Write>(current: &Record, pair: u64, live: u64, writer: &mut W) -> io::Result<()>
    ensures { OnOk result (Appends (W.contents writer.old) (W.contents writer.new) (image_text current.now pair live)) }
{
    print_number("version", current.layout.version(), writer)?;
    print_number("record", current.number, writer)?;
    print_number("position", current.position, writer)?;
    print_number("cp", current.cp, writer)?;
    print_number("cd", current.cd, writer)?;
    print_number("epoch", current.epoch, writer)?;
    print_role(current.role, writer)?;
    print_number("floor", current.floor, writer)?;
    print_number("pair", pair, writer)?;
    print_number("gaps", current.gaps.len() as u64, writer)?;
    print_gaps(&current.gaps, writer)?;
    print_number("live", live, writer)?;
    Ok(())
}

pub(crate) fn print_number<W: Write>(word: &str, number: u64, writer: &mut W) -> io::Result<()>
    ensures { OnOk result (Appends (W.contents writer.old) (W.contents writer.new) (number_line word.now number)) }
{
    writeln!(writer, "{word} {number}")
}

pub(crate) fn print_role<W: Write>(role: Role, writer: &mut W) -> io::Result<()>
    ensures { OnOk result (Appends (W.contents writer.old) (W.contents writer.new) (role_line role)) }
{
    match role {
        Role::Primary => writeln!(writer, "role primary"),
        Role::Standby => writeln!(writer, "role standby"),
        Role::Newcomer => writeln!(writer, "role newcomer"),
    }
}

fn print_gaps<W: Write>(gaps: &[Gap], writer: &mut W) -> io::Result<()>
    ensures { OnOk result (Appends (W.contents writer.old) (W.contents writer.new) (gap_lines gaps.now)) }
{
    for gap in gaps {
        print_gap(gap, writer)?;
    }
    Ok(())
}

fn print_gap<W: Write>(gap: &Gap, writer: &mut W) -> io::Result<()>
    ensures { OnOk result (Appends (W.contents writer.old) (W.contents writer.new) (gap_line gap.now)) }
{
    let first = gap.first;
    let last = gap.last;
    writeln!(writer, "gap {first} {last}")
}
