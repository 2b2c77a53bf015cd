//! A standby that is made of its image.
ghost use Rattle.std.specs.Prelude.{◌≡◌, ◌⊎◌, ◌↔◌, ℕ, IsTrue, false, IfOk, IfErr};
ghost use Rattle.kv_types.specs.declared.refusal.Refusal.TheVariants.{Fault, Memory, NotCopied, WrongRole};
ghost use Rattle.model.specs.declared.layout.TheConstants.{LAYOUT};
ghost use Rattle.model.specs.declared.record.Record.{Record as CommitRecord};
ghost use Rattle.model.specs.declared.record.Role.TheVariants as role;
ghost use Rattle.model.specs.Group.{Contents};
ghost use Rattle.pmem.specs.Device.{Only};
ghost use Rattle.pmem.specs.Crash.{image_of};
ghost use Rattle.placing.specs.Read.{AreOf};
ghost use Rattle.wbl_engine.specs.Contents.{IsDurable};
ghost use Rattle.wbl_engine.specs.Lawful.{IsUndamaged};
ghost use Rattle.wbl_engine.specs.Reopening.{RefusesReading, RefusesReopening};
ghost use Rattle.standby.specs.Following.{Follows};
ghost use Rattle.wbl_engine.specs.Restarting.{IsReopened};

use crate::standby::Standby;
use kv_types::Refusal;
use model::{LAYOUT, Layout, Record};
use mv_keyspace::Keyspace;
use placing::{Rebuilt, rebuild};
use pmem::Pmem;
use std::alloc::Global;
use wbl_engine::{Durable, Role, Versions, WblEngine};

/// Opens a standby's image again: its keyspace and its heap are made of the versions that are there. Those that have ended are listed, and freed
/// with the next frame.
///
/// # Errors
///
/// As at `WblEngine::reopen`, but `NotCopied` for an undamaged image of a newcomer, which follows nobody before it has its copy, and never `WrongRole`; and `Memory`
/// also after it: the image is the reopened one then.
pub fn open<P: Pmem + Drop, K: Keyspace + Drop>(
    alloc: Global,
    device: P,
) -> Result<Standby<WblEngine<P>, K>, Refusal>
    requires settled { (word : ℕ) → Only ((P.state device).words word) (image_of (P.state device).words word) }
    ensures reopens { IfOk result (λ node. IsReopened (P.state device).lines (image_of (P.state device).words) role.Standby
        (⟦<WblEngine<P> as Durable>⟧.contents node.engine)) }
    ensures follows { IfOk result (λ node. Follows (⟦<WblEngine<P> as Durable>⟧.contents node.engine) (K.table node.keyspace) node.heap node.ended.items) }
    ensures durable { IfOk result (λ node. IsDurable (⟦<WblEngine<P> as Durable>⟧.device node.engine) (⟦<WblEngine<P> as Durable>⟧.contents node.engine)) }
    ensures sound { IfOk result (λ node. ⟦<WblEngine<P> as Durable>⟧.is_faulted node.engine ≡ false) }
    ensures refused { IfErr result (λ refusal. (refusal ≡ Fault) ⊎ ((refusal ≡ Memory)
        ⊎ (RefusesReopening LAYOUT (P.state device).lines (image_of (P.state device).words) role.Standby refusal
        ⊎ ((refusal ≡ NotCopied) × ((r : CommitRecord) → IsUndamaged (P.state device).lines r (image_of (P.state device).words) → r.role ≡ role.Newcomer))))) }
    ensures other { IfErr result (λ refusal. refusal ≡ WrongRole
        → (r : CommitRecord) → IsUndamaged (P.state device).lines r (image_of (P.state device).words) → ¬ (r.role ≡ role.Newcomer)) }
{
    match WblEngine::reopen(alloc, device, LAYOUT, Role::Standby) {
        Ok((engine, versions)) => {
            let layout = engine.record().layout;
            let (keyspace, room) = read_back(alloc, layout, engine.lines(), versions)?;
            Ok(Standby::new(engine, keyspace, room))
        }
        Err((Refusal::WrongRole, device)) => Err(refusal_of_role(alloc, &device)),
        Err((refusal, _device)) => Err(refusal),
    }
}

/// Why the image of this device is no standby's: it is a newcomer's, or any other; or why it is not read.
fn refusal_of_role<P: Pmem>(alloc: Global, device: &P) -> Refusal
    ensures newcomer { result ≡ NotCopied
        → (r : CommitRecord) → IsUndamaged (P.state device.now).lines r (image_of (P.state device.now).words) → r.role ≡ role.Newcomer }
    ensures other { result ≡ WrongRole
        → (r : CommitRecord) → IsUndamaged (P.state device.now).lines r (image_of (P.state device.now).words) → ¬ (r.role ≡ role.Newcomer) }
    ensures cause { (result ≡ NotCopied) ⊎ ((result ≡ WrongRole)
        ⊎ RefusesReading LAYOUT (P.state device.now).lines (image_of (P.state device.now).words) result) }
{
    match wbl_engine::inspect(alloc, device, LAYOUT) {
        Ok((current, _)) => {
            if is_newcomer(&current) {
                Refusal::NotCopied
            } else {
                Refusal::WrongRole
            }
        }
        Err(refusal) => refusal,
    }
}

/// Whether the record is a newcomer's.
fn is_newcomer(current: &Record) -> bool
    ensures { IsTrue result ↔ (current.now.role ≡ role.Newcomer) }
{
    current.role == Role::Newcomer
}

/// The keyspace of an image of this layout and `lines` lines, and its free room, made of the versions that were read of it.
///
/// # Errors
///
/// Only `Memory`.
pub(crate) fn read_back<K: Keyspace + Drop>(
    alloc: Global,
    layout: Layout,
    lines: u64,
    versions: Versions,
) -> Result<(K, Rebuilt), Refusal>
    requires { (contents : Contents) × (contents.current.layout ≡ layout) × (contents.lines ≡ lines) × AreOf contents versions.counted.items versions.gapped.items }
    ensures follows { IfOk result (λ made. (contents : Contents) → contents.current.layout ≡ layout → contents.lines ≡ lines
        → AreOf contents versions.counted.items versions.gapped.items → Follows contents (K.table made.0) made.1.heap made.1.ended.items) }
    ensures cause { IfErr result (λ refusal. refusal ≡ Memory) }
{
    let mut keyspace = K::empty(alloc);
    let room = rebuild(
        alloc,
        &mut keyspace,
        layout,
        lines,
        versions.counted,
        &versions.gapped,
    )?;
    Ok((keyspace, room))
}
