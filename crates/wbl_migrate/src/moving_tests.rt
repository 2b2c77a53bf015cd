//! An image that is reopened has what the calls ask for.
ghost use Rattle.std.specs.Prelude.{[], IfOk};
ghost use Rattle.wbl_migrate.specs.Moving.{AreKnown, IsReady};

use crate::{clear_gaps, move_live, read_versions_are_known};
use kv_types::Refusal;
use model::{FIRST_EPOCH, LAYOUT, Role};
use pmem::{Crashing, SimPmem};
use std::alloc::Global;
use wbl_engine::{Durable, Versions, WblEngine};

/// Crashes a device and reopens its image, as a standby's.
fn reopened<P: Crashing + Drop>(
    alloc: Global,
    device: P,
) -> Result<(WblEngine<P>, Versions), Refusal>
    ensures ready { IfOk result (λ o. IsReady (⟦<WblEngine<P> as Durable>⟧.device) (⟦<WblEngine<P> as Durable>⟧.contents) (⟦<WblEngine<P> as Durable>⟧.is_faulted) o.0) }
    ensures known { IfOk result (λ o. AreKnown (⟦<WblEngine<P> as Durable>⟧.contents o.0) o.1.counted.items o.1.gapped.items []) }
{
    let mut device = device;
    device.crash(&[]);
    match WblEngine::reopen(alloc, device, LAYOUT, Role::Standby) {
        Ok(opened) => Ok(opened),
        Err((refusal, _)) => Err(refusal),
    }
}

/// Clears the gaps of an engine that was reopened, and moves its live versions away from the end.
fn make_room<E: Durable>(engine: &mut E, alloc: Global, versions: &Versions) -> Result<(), Refusal>
    requires ready { IsReady E.device E.contents E.is_faulted engine.old }
    requires known { AreKnown (E.contents engine.old) versions.now.counted.items versions.now.gapped.items [] }
{
    let cleared = clear_gaps(engine, alloc)?;
    read_versions_are_known();
    move_live(engine, alloc, versions, &cleared)?;
    Ok(())
}

/// A new image that crashed twice has two gaps, and none afterwards.
#[test]
fn clears_what_crashes_left(rt: HostRuntime) -> Result<(), Refusal> {
    let device = SimPmem::new(rt.alloc(), 4096)?;
    let engine = match WblEngine::format(device, Role::Standby, FIRST_EPOCH) {
        Ok(engine) => engine,
        Err((refusal, _)) => return Err(refusal),
    };
    let (engine, _) = reopened(rt.alloc(), engine.into_device())?;
    let (mut engine, versions) = reopened(rt.alloc(), engine.into_device())?;
    assert_eq!(rt; engine.record().gaps.len(), 2);
    make_room(&mut engine, rt.alloc(), &versions)?;
    assert_eq!(rt; engine.record().gaps.len(), 0);
    assert_eq!(rt; engine.position(), 0);
    Ok(())
}
