//! The last steps, one after the other.
ghost use Rattle.std.specs.Prelude.{◌≡◌, ◌⊎◌, ◌+◌, ◌<◌, ◌≤◌, Err, IsErrOf, IfErr, OnOk};
ghost use Rattle.kv_types.specs.Keyspace.{Keyspace};
ghost use Rattle.pmem.specs.Device.{moment};
ghost use Rattle.pmem.specs.Crash.{IsImage};
ghost use Rattle.pmem.specs.Runs.{LeavesOnly};
ghost use Rattle.model.specs.declared.image.TheConstants.{COUNTER_LIMIT, MIN_LINES};
ghost use Rattle.model.specs.declared.layout.Layout.TheVariants.{Version1, Version2, Halfway};
ghost use Rattle.wbl_migrate.specs.Stage.{IsMovable, KeepsMap};
ghost use Rattle.wbl_migrate.specs.Steps.{Leaves, KeepsOthers, IsAtSomeStage, IsHalfwayOrNew, IsSwitchWord, renewed};

use crate::marking::{mark_halfway, mark_new};
use crate::record::{is_last, write_new_record};
use kv_types::Refusal;
use model::Record;
use pmem::{Fault, Pmem};

/// Makes an image of version 1 one of version 2, under the record that follows the current one. At any moment a crash leaves the same keyspace at the same
/// position; where it leaves an image halfway, `go_on` takes it to its end. It allocates no memory.
///
/// # Errors
///
/// `Exhausted` where the number of the record would reach 2^62, with nothing changed; `Fault` where a fence failed.
pub fn switch<P: Pmem>(device: &mut P, current: &Record) -> Result<(), Refusal>
    requires { MIN_LINES ≤ (P.state device.old).lines }
    ensures ok { OnOk result ((s : Keyspace)
        → Leaves (P.state device.old) (IsMovable Version1 (P.state device.old).lines current.now s)
        → Leaves (P.state device.new) (IsMovable Version2 (P.state device.old).lines (renewed current.now) s)) }
    ensures synced { OnOk result (P.floor device.new ≡ moment (P.state device.new)) }
    ensures sound { OnOk result ((P.state device.new).failures ≡ (P.state device.old).failures) }
    ensures causes { IfErr result (λ refusal. (refusal ≡ Refusal.Fault) ⊎ (refusal ≡ Refusal.Exhausted)) }
    ensures err { IsErrOf result Refusal.Fault → (P.state device.old).failures < (P.state device.new).failures }
    ensures exhausted { IsErrOf result Refusal.Exhausted → (COUNTER_LIMIT ≤ current.now.number + 1) × (P.state device.new ≡ P.state device.old) }
    ensures exhausts { COUNTER_LIMIT ≤ current.now.number + 1 → result ≡ Err Refusal.Exhausted }
    ensures elsewhere { KeepsOthers (P.state device.old) (P.state device.new) (IsSwitchWord (P.state device.old).lines current.now) }
    ensures moments { (s : Keyspace)
        → Leaves (P.state device.old) (IsMovable Version1 (P.state device.old).lines current.now s)
        → LeavesOnly (P.state device.old) (P.state device.new) (IsAtSomeStage (P.state device.old).lines current.now s) }
    // of version 1 it is one that a crash could leave before
    ensures unmarked { (s : Keyspace)
        → Leaves (P.state device.old) (IsMovable Version1 (P.state device.old).lines current.now s)
        → LeavesOnly (P.state device.old) (P.state device.new) (λ image.
        IsImage (P.state device.old).words image ⊎ IsHalfwayOrNew (P.state device.old).lines current.now s image) }
    ensures map { (s : Keyspace)
        → Leaves (P.state device.old) (IsMovable Version1 (P.state device.old).lines current.now s)
        → LeavesOnly (P.state device.old) (P.state device.new) (KeepsMap (P.state device.old).lines current.now.position s) }
{
    if is_last(current) {
        return Err(Refusal::Exhausted);
    }
    let Ok(()) = mark_halfway(device) else {
        return Err(Refusal::Fault);
    };
    go_on(device, current)
}

/// Makes an image that a crash left halfway one of version 2, under the record that follows the current one, whatever was written of that before. At any
/// moment a crash leaves the same keyspace at the same position. It allocates no memory, and reads nothing: `migrate` looks first whether a rule is broken.
///
/// # Errors
///
/// `Exhausted` where the number of the record would reach 2^62, with nothing changed; `Fault` where a fence failed.
pub fn go_on<P: Pmem>(device: &mut P, current: &Record) -> Result<(), Refusal>
    requires { MIN_LINES ≤ (P.state device.old).lines }
    ensures ok { OnOk result ((s : Keyspace)
        → Leaves (P.state device.old) (IsMovable Halfway (P.state device.old).lines current.now s)
        → Leaves (P.state device.new) (IsMovable Version2 (P.state device.old).lines (renewed current.now) s)) }
    ensures synced { OnOk result (P.floor device.new ≡ moment (P.state device.new)) }
    ensures sound { OnOk result ((P.state device.new).failures ≡ (P.state device.old).failures) }
    ensures causes { IfErr result (λ refusal. (refusal ≡ Refusal.Fault) ⊎ (refusal ≡ Refusal.Exhausted)) }
    ensures err { IsErrOf result Refusal.Fault → (P.state device.old).failures < (P.state device.new).failures }
    ensures exhausted { IsErrOf result Refusal.Exhausted → (COUNTER_LIMIT ≤ current.now.number + 1) × (P.state device.new ≡ P.state device.old) }
    ensures exhausts { COUNTER_LIMIT ≤ current.now.number + 1 → result ≡ Err Refusal.Exhausted }
    ensures elsewhere { KeepsOthers (P.state device.old) (P.state device.new) (IsSwitchWord (P.state device.old).lines current.now) }
    ensures moments { (s : Keyspace)
        → Leaves (P.state device.old) (IsMovable Halfway (P.state device.old).lines current.now s)
        → LeavesOnly (P.state device.old) (P.state device.new) (IsHalfwayOrNew (P.state device.old).lines current.now s) }
    ensures map { (s : Keyspace)
        → Leaves (P.state device.old) (IsMovable Halfway (P.state device.old).lines current.now s)
        → LeavesOnly (P.state device.old) (P.state device.new) (KeepsMap (P.state device.old).lines current.now.position s) }
{
    write_new_record(device, current)?;
    match mark_new(device) {
        Ok(()) => Ok(()),
        Err(Fault) => Err(Refusal::Fault),
    }
}
