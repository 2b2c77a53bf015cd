//! The subcommands `journal` and `settle`.
ghost use Rattle.std.specs.Prelude.{◌≤◌, OnOk};
ghost use Rattle.std.specs.Io.KnownBytes.{Appends};
ghost use Rattle.model.specs.declared.image.TheConstants.{MIN_LINES};
ghost use Rattle.model.specs.declared.record.Record.{Record as CommitRecord};
ghost use Rattle.pmem.specs.Crash.{image_of};
ghost use Rattle.wbl_engine.specs.Lawful.{IsUndamaged};
ghost use Rattle.images.specs.Printed.{journaled_text, settled_text};

use crate::failure::Failure;
use crate::images::Images;
use crate::serve_error::ServeError;
use kv_types::Refusal;
use pmem::Pmem;
use std::alloc::Global;
use std::io::Write;
use wbl_engine::layout_in;

/// Gives the image of this name, of any version, a journal, where it has none, and says so. What it holds stays as it is.
///
/// # Errors
///
/// What reading the image refuses, and `Fault` as at `Images::give_journal`.
pub fn add_journal<I: Images, W: Write>(
    alloc: Global,
    images: &I,
    name: &str,
    writer: &mut W,
) -> Result<(), Failure>
    ensures told { OnOk result (Appends (W.contents writer.old) (W.contents writer.new) journaled_text) }
{
    must_be_image(alloc, &images.read_only(name)?)?;
    images.give_journal(name)?;
    match writer.write_all(b"has a journal\n") {
        Ok(()) => Ok(()),
        Err(error) => Err(Failure::Stopped(ServeError::Write(error))),
    }
}

/// Takes the journal of the image of this name, of any version, away, where it has one, and says so. What it holds stays as it is.
///
/// # Errors
///
/// What reading the image refuses, and refusals as at `Images::settle`.
pub fn settle<I: Images, W: Write>(
    alloc: Global,
    images: &I,
    name: &str,
    writer: &mut W,
) -> Result<(), Failure>
    ensures told { OnOk result (Appends (W.contents writer.old) (W.contents writer.new) settled_text) }
{
    must_be_image(alloc, &images.read_only(name)?)?;
    images.settle(name)?;
    match writer.write_all(b"has no journal\n") {
        Ok(()) => Ok(()),
        Err(error) => Err(Failure::Stopped(ServeError::Write(error))),
    }
}

/// Sees that this device has an undamaged image, of any version.
fn must_be_image<P: Pmem>(alloc: Global, device: &P) -> Result<(), Refusal>
    requires { MIN_LINES ≤ (P.state device.now).lines }
    ensures { OnOk result ((r : CommitRecord) × IsUndamaged (P.state device.now).lines r (image_of (P.state device.now).words)) }
{
    wbl_engine::inspect(alloc, device, layout_in(device))?;
    Ok(())
}
