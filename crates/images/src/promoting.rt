//! The subcommand `promote`.
ghost use Rattle.std.specs.Prelude.{◌≡◌, ◌<◌, ℕ, true, false, Err, OnOk, IfOk, IfErr, IsErr};
ghost use Rattle.std.specs.Io.KnownBytes.{Consumes};
ghost use Rattle.kv_types.specs.declared.refusal.Refusal.TheVariants.{NotFenced};
ghost use Rattle.model.specs.declared.record.Record.{Record as CommitRecord};
ghost use Rattle.model.specs.declared.record.Role.TheVariants as role;
ghost use Rattle.wbl_engine.specs.Lawful.{IsUndamaged};
ghost use Rattle.pmem.specs.Device.{Only};
ghost use Rattle.pmem.specs.Crash.{image_of};
ghost use Rattle.images.specs.declared.failure.Failure.TheVariants as failure;
ghost use Rattle.images.specs.declared.failure.Kept.TheVariants.{NotConfirmed};
ghost use Rattle.images.specs.declared.serve_error.ServeError.TheVariants.{Refused};
ghost use Rattle.images.specs.Asked.{IsAtLeast, yes_line};
ghost use Rattle.images.specs.Printed.{TellsPromotion};

use crate::asking::may_lose;
use crate::failure::{Failure, Kept};
use crate::images::Images;
use crate::losing::count_keys;
use crate::serve_error::ServeError;
use failover::operator_fence;
use kv_types::Refusal;
use model::{LAYOUT, MIN_LINES};
use mv_keyspace::MvKeyspace;
use pmem::Pmem;
use standby::Standby;
use std::alloc::Global;
use std::io::{Read, Write};
use wbl_engine::{Role, WblEngine};

/// What the operator is told who does not state the fence.
const NEEDS_FENCE: &[u8] =
    b"promote needs --old-primary-stopped, your word that the old primary is stopped and is not started again\n";

/// Makes the image of this name, which is a stopped standby's, a primary's of the next epoch, and says so. The operator states whether the old
/// primary is stopped: where it is not, that is `NotFenced`, and the image is not even opened. A newcomer's is refused by `NotCopied` and stays as it is.
/// An image below the position `at_least` is kept as it is, and so is one at position 0 where `is_asked` says so and the reader does not say `yes`.
pub fn promote<I: Images, R: Read, W: Write, E: Write>(
    alloc: Global,
    images: &I,
    name: &str,
    old_primary_stopped: bool,
    at_least: u64,
    is_asked: bool,
    reader: &mut R,
    writer: &mut W,
    errors: &mut E,
) -> Result<(), Failure>
    ensures unfenced { old_primary_stopped ≡ false → (result ≡ Err (failure.Stopped (Refused NotFenced))) × (writer.new ≡ writer.old) }
{
    if !old_primary_stopped {
        let _ = errors.write_all(NEEDS_FENCE);
        return Err(Failure::from(Refusal::NotFenced));
    }
    let device = images.open(name)?;
    may_promote(alloc, name, &device, at_least, is_asked, reader, errors)?;
    let device = promote_image(alloc, device, writer)?;
    tell_promoted(alloc, name, &device, errors);
    Ok(())
}

/// Whether the image of this device may be promoted, which stays as it is: it is undamaged, no newcomer's, and not below the position `at_least`. That one at
/// position 0 holds nothing is told, and asked for.
///
/// # Errors
///
/// `NotCopied` for a newcomer's, `Below` and `NotConfirmed`, and what reading the image refuses.
fn may_promote<P: Pmem, R: Read, E: Write>(
    alloc: Global,
    name: &str,
    device: &P,
    at_least: u64,
    is_asked: bool,
    reader: &mut R,
    errors: &mut E,
) -> Result<(), Failure>
    ensures least { OnOk result (IsAtLeast (P.state device.now).lines (image_of (P.state device.now).words) at_least) }
    ensures below { (r : CommitRecord) → IsUndamaged (P.state device.now).lines r (image_of (P.state device.now).words) → r.position < at_least → IsErr result }
    ensures asked { (r : CommitRecord) → IsUndamaged (P.state device.now).lines r (image_of (P.state device.now).words) → r.position ≡ 0 → r.role ≡ role.Standby
        → is_asked ≡ true → OnOk result (Consumes (R.remaining reader.old) (R.remaining reader.new) yes_line) }
{
    let (current, _) = wbl_engine::inspect(alloc, device, LAYOUT)?;
    if current.role == Role::Newcomer {
        return Err(Failure::from(Refusal::NotCopied));
    }
    let position = current.position;
    if position < at_least {
        return Err(Failure::Kept(Kept::Below { position, at_least }));
    }
    if position > 0 {
        return Ok(());
    }
    match current.role {
        // (which is refused as such, as a newcomer's was)
        Role::Primary => Ok(()),
        Role::Newcomer => Ok(()),
        Role::Standby => confirm_empty(name, is_asked, reader, errors),
    }
}

/// Tells that the image of this name holds nothing, and has a person say `yes` to it where somebody is asked.
///
/// # Errors
///
/// Only `NotConfirmed`.
fn confirm_empty<R: Read, E: Write>(
    name: &str,
    is_asked: bool,
    reader: &mut R,
    errors: &mut E,
) -> Result<(), Failure>
    ensures asked { is_asked ≡ true → OnOk result (Consumes (R.remaining reader.old) (R.remaining reader.new) yes_line) }
    ensures cause { IfErr result (λ cause. cause ≡ failure.Kept NotConfirmed) }
{
    let _ = writeln!(
        errors,
        "{name} is at position 0, and a primary made of it holds nothing"
    );
    if may_lose(is_asked, reader, errors) {
        Ok(())
    } else {
        Err(Failure::Kept(Kept::NotConfirmed))
    }
}

/// Tells what an image holds that was promoted. Where memory is refused it is let go.
fn tell_promoted<P: Pmem, E: Write>(alloc: Global, name: &str, device: &P, errors: &mut E) {
    if device.lines() < MIN_LINES {
        return;
    }
    let Ok((current, _)) = wbl_engine::inspect(alloc, device, LAYOUT) else {
        return;
    };
    let Ok(keys) = count_keys(alloc, device, &current) else {
        return;
    };
    let position = current.position;
    let _ = writeln!(
        errors,
        "{name} is a primary's now, at position {position}, with {keys} keys"
    );
}

/// Opens a standby's image again, promotes it, prints its epoch, and gives the device back. The primary of the standby's epoch does nothing more.
fn promote_image<P: Pmem + Drop, W: Write>(
    alloc: Global,
    device: P,
    writer: &mut W,
) -> Result<P, Failure>
    requires settled { (word : ℕ) → Only ((P.state device).words word) (image_of (P.state device).words word) }
    ensures told { IfOk result (λ left. TellsPromotion (P.state device).lines (image_of (P.state device).words) (P.state left)
        (W.contents writer.old) (W.contents writer.new)) }
{
    let standby: Standby<WblEngine<P>, MvKeyspace> = standby::open(alloc, device)?;
    let fenced = operator_fence(standby.epoch());
    let promoted = match failover::promote(standby, fenced) {
        Ok(promoted) => promoted,
        Err((refusal, _standby)) => return Err(Failure::from(refusal)),
    };
    let epoch = promoted.epoch();
    match writeln!(writer, "promoted to epoch {epoch}") {
        Ok(()) => Ok(promoted.into_device()),
        Err(error) => Err(Failure::Stopped(ServeError::Write(error))),
    }
}
