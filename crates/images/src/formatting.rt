//! The subcommand `format`.
ghost use Rattle.std.specs.Prelude.{◌≡◌, ◌⊎◌, ◌<◌, true, Err, Some, OnOk, IfOk, IfErr};
ghost use Rattle.std.specs.Io.KnownBytes.{Appends, Consumes};
ghost use Rattle.kv_types.specs.declared.refusal.Refusal.TheVariants.{WrongSize};
ghost use Rattle.model.specs.declared.image.TheConstants.{COUNTER_LIMIT, MIN_LINES, MAX_LINES};
ghost use Rattle.images.specs.Asked.{yes_line};
ghost use Rattle.images.specs.Pair.{IsFormatted};
ghost use Rattle.images.specs.Printed.{formatted_text};
ghost use Rattle.images.specs.declared.failure.Failure.TheVariants as failure;
ghost use Rattle.images.specs.declared.failure.Kept.{Kept as WhyKept};
ghost use Rattle.images.specs.declared.failure.Kept.TheVariants.{NotConfirmed};
ghost use Rattle.images.specs.declared.losing.Loss.{Loss as Lost};

use crate::asking::may_lose;
use crate::failure::{Failure, Kept};
use crate::images::Images;
use crate::losing::{Loss, loss_of};
use crate::pair::write_pair;
use crate::serve_error::ServeError;
use crate::unfinished::{InTheWay, in_the_way};
use kv_types::Refusal;
use model::{COUNTER_LIMIT, LAYOUT};
use std::alloc::Global;
use std::io::{Read, Write};
use wbl_engine::{Durable, Role, WblEngine};

/// What a new image is to be.
#[derive(Clone, Copy, Debug, PartialEq, Eq)]
pub struct NewImage {
    /// How many lines it has.
    pub lines: u64,
    pub role: Role,
    /// The epoch of its record, 1 to 2^62 - 1: a newcomer's is that of its primary.
    pub epoch: u64,
    /// The number of its pair.
    pub pair: u64,
    /// Whether a journal stands behind its lines.
    pub has_journal: bool,
}

/// Writes a new image under this name, and says so. With `is_new` a file that is there is kept, unless it is that image already, or what a format of it left
/// that was cut. Where `is_asked` says so, the reader has to say `yes` first to what is lost. That is told to `errors`. `Exhausted` where its epoch is none,
/// with nothing touched.
pub fn format<I: Images, R: Read, W: Write, E: Write>(
    alloc: Global,
    images: &I,
    name: &str,
    new: NewImage,
    is_new: bool,
    is_asked: bool,
    reader: &mut R,
    writer: &mut W,
    errors: &mut E,
) -> Result<(), Failure>
    ensures told { OnOk result (Appends (W.contents writer.old) (W.contents writer.new) (formatted_text new.lines)) }
    ensures kept { (why : WhyKept) → result ≡ Err (failure.Kept why) → writer.new ≡ writer.old }
{
    if new.epoch == 0 || COUNTER_LIMIT <= new.epoch {
        return Err(Failure::from(Refusal::Exhausted));
    }
    if is_new && images.is_there(name) {
        match in_the_way(alloc, images, name, new)? {
            // (whoever made it may have ended before it was durable, or had its number)
            InTheWay::Unused | InTheWay::Unfinished => {}
            InTheWay::Other => return Err(Failure::Kept(Kept::IsThere)),
        }
    }
    let lost = loss_of(alloc, images, name, new.lines, new.has_journal)?;
    confirm_loss(name, &lost, is_asked, reader, errors)?;
    let _device = new_image(images, name, new)?;
    if let Some(loss) = lost {
        let _ = writeln!(errors, "{name} held {loss}");
    }
    print_formatted(new.lines, writer)
}

/// Has a person say `yes` to what is lost, if something is and somebody is asked.
///
/// # Errors
///
/// Only `NotConfirmed`.
fn confirm_loss<R: Read, E: Write>(
    name: &str,
    lost: &Option<Loss>,
    is_asked: bool,
    reader: &mut R,
    errors: &mut E,
) -> Result<(), Failure>
    ensures asked { OnOk result (is_asked ≡ true → (loss : Lost) → lost.now ≡ Some loss
        → Consumes (R.remaining reader.old) (R.remaining reader.new) yes_line) }
    ensures cause { IfErr result (λ cause. cause ≡ failure.Kept NotConfirmed) }
{
    let Some(loss) = lost else {
        return Ok(());
    };
    if is_asked {
        let _ = writeln!(errors, "{name} holds {loss}, and format makes it empty");
    }
    if may_lose(is_asked, reader, errors) {
        Ok(())
    } else {
        Err(Failure::Kept(Kept::NotConfirmed))
    }
}

/// Says that an image of so many lines was formatted.
fn print_formatted<W: Write>(lines: u64, writer: &mut W) -> Result<(), Failure>
    ensures told { OnOk result (Appends (W.contents writer.old) (W.contents writer.new) (formatted_text lines)) }
    ensures cause { (why : WhyKept) → ¬ (result ≡ Err (failure.Kept why)) }
{
    let entries = LAYOUT.entries_of_lines(lines);
    match writeln!(writer, "formatted {lines} lines, {entries} entries") {
        Ok(()) => Ok(()),
        Err(error) => Err(Failure::Stopped(ServeError::Write(error))),
    }
}

/// The device with a new image. Its number is written last: a crash before that leaves an image without one.
///
/// `WrongSize` where there cannot be so many lines; otherwise a refusal is that of the device.
fn new_image<I: Images>(images: &I, name: &str, new: NewImage) -> Result<I::Device, Refusal>
    requires some_epoch { 0 < new.epoch }
    requires epoch { new.epoch < COUNTER_LIMIT }
    ensures formatted { IfOk result (λ device. IsFormatted new (I.Device.state device)) }
    ensures unlawful { (new.lines < MIN_LINES) ⊎ (MAX_LINES < new.lines) → result ≡ Err WrongSize }
{
    let device = images.create(name, new.lines, new.has_journal)?;
    let engine = match WblEngine::format(device, new.role, new.epoch) {
        Ok(engine) => engine,
        Err((refusal, _device)) => return Err(refusal),
    };
    let mut device = engine.into_device();
    write_pair(&mut device, new.pair)?;
    Ok(device)
}
