//! The subcommand `migrate`.
ghost use Rattle.std.specs.Prelude.{ℕ, IfOk, MatchResult};
ghost use Rattle.kv_types.specs.Keyspace.{Keyspace};
ghost use Rattle.pmem.specs.Device.{Only};
ghost use Rattle.pmem.specs.Crash.{image_of};
ghost use Rattle.pmem.specs.Runs.{LeavesOnly};
ghost use Rattle.model.specs.declared.record.Record.{Record as CommitRecord};
ghost use Rattle.wbl_migrate.specs.Migrating.{IsMigratable, StaysMigratable};
ghost use Rattle.images.specs.Printed.{TellsMigration};

use crate::failure::Failure;
use crate::images::Images;
use crate::serve_error::ServeError;
use model::Layout;
use pmem::Pmem;
use std::alloc::Global;
use std::io::Write;

/// Brings the image of this name to version 2 of the format, and says how many entries it has then. One of version 2 is kept as it is.
///
/// # Errors
///
/// Refusals as at `wbl_migrate::migrate`. The image can be migrated on then, and its map is the same.
pub fn migrate<I: Images, W: Write>(
    alloc: Global,
    images: &I,
    name: &str,
    writer: &mut W,
) -> Result<(), Failure> {
    let device = images.open(name)?;
    match migrate_image(alloc, device, writer) {
        Ok(_device) => Ok(()),
        Err((failure, _device)) => Err(failure),
    }
}

/// Migrates the image of a device, says so, and hands the device back.
fn migrate_image<P: Pmem, W: Write>(
    alloc: Global,
    device: P,
    writer: &mut W,
) -> Result<P, (Failure, P)>
    requires settled { (word : ℕ) → Only ((P.state device).words word) (image_of (P.state device).words word) }
    ensures told { IfOk result (λ left. TellsMigration (P.state device) (P.state left) (W.contents writer.old) (W.contents writer.new)) }
    ensures moments { (r : CommitRecord) (s : Keyspace) → IsMigratable (P.state device).lines r s (image_of (P.state device).words)
        → MatchResult result
        (λ left. LeavesOnly (P.state device) (P.state left) (StaysMigratable (P.state device).lines r s))
        (λ failed. LeavesOnly (P.state device) (P.state failed.1) (StaysMigratable (P.state device).lines r s)) }
{
    let device = match wbl_migrate::migrate(alloc, device) {
        Ok(device) => device,
        Err((refusal, device)) => return Err((Failure::from(refusal), device)),
    };
    let entries = Layout::Version2.entries_of_lines(device.lines());
    match writeln!(writer, "migrated to version 2, {entries} entries") {
        Ok(()) => Ok(device),
        Err(error) => Err((Failure::Stopped(ServeError::Write(error)), device)),
    }
}
