//! The version of an image is one word, so that each mark is stored whole or not at all.
ghost use Rattle.std.specs.Prelude.{◌≡◌, ◌⊎◌, ◌<◌, OnOk, OnErr};
ghost use Rattle.kv_types.specs.Keyspace.{Keyspace};
ghost use Rattle.pmem.specs.Device.{moment};
ghost use Rattle.pmem.specs.Crash.{IsImage};
ghost use Rattle.pmem.specs.Runs.{LeavesOnly};
ghost use Rattle.model.specs.declared.layout.Layout.TheVariants.{Version1, Version2, Halfway};
ghost use Rattle.model.specs.declared.record.Record.{Record as CommitRecord};
ghost use Rattle.wbl_migrate.specs.Stage.{IsMovable};
ghost use Rattle.wbl_migrate.specs.Steps.{Leaves, KeepsOthers, IsRenewed, renewed};

use model::Layout;
use pmem::{Fault, Pmem, persist, persist_durably};

/// The word of an image that says its version.
pub const VERSION_WORD: u64 = 1;

/// Marks an image of version 1 as halfway. From then on it is read without the entries that version 2 has no room for, of which none may count.
///
/// On `Err` a fence has failed, and a crash may leave the image with the mark or without.
pub fn mark_halfway<P: Pmem>(device: &mut P) -> Result<(), Fault>
    requires { 0 < (P.state device.old).lines }
    ensures ok { OnOk result ((r : CommitRecord) (s : Keyspace)
        → Leaves (P.state device.old) (IsMovable Version1 (P.state device.old).lines r s)
        → Leaves (P.state device.new) (IsMovable Halfway (P.state device.old).lines r s)) }
    ensures sound { OnOk result ((P.state device.new).failures ≡ (P.state device.old).failures) }
    ensures err { OnErr result ((P.state device.old).failures < (P.state device.new).failures) }
    ensures elsewhere { KeepsOthers (P.state device.old) (P.state device.new) (λ word. word ≡ VERSION_WORD) }
    ensures moments { (r : CommitRecord) (s : Keyspace)
        → Leaves (P.state device.old) (IsMovable Version1 (P.state device.old).lines r s)
        → LeavesOnly (P.state device.old) (P.state device.new) (λ image.
        IsMovable Version1 (P.state device.old).lines r s image ⊎ IsMovable Halfway (P.state device.old).lines r s image) }
    // without the mark it is one that a crash could leave before
    ensures unmarked { (r : CommitRecord) (s : Keyspace)
        → Leaves (P.state device.old) (IsMovable Version1 (P.state device.old).lines r s)
        → LeavesOnly (P.state device.old) (P.state device.new) (λ image.
        IsImage (P.state device.old).words image ⊎ IsMovable Halfway (P.state device.old).lines r s image) }
{
    persist(device, &[(VERSION_WORD, Layout::Halfway.version())], &[0])
}

/// Marks an image that is halfway, and that has its record of version 2, as one of version 2, and syncs.
///
/// On `Err` a fence or the sync has failed, and a crash may leave the image with either mark.
pub fn mark_new<P: Pmem>(device: &mut P) -> Result<(), Fault>
    requires { 0 < (P.state device.old).lines }
    ensures ok { OnOk result ((r : CommitRecord) (s : Keyspace)
        → Leaves (P.state device.old) (IsRenewed (P.state device.old).lines r s)
        → Leaves (P.state device.new) (IsMovable Version2 (P.state device.old).lines (renewed r) s)) }
    ensures synced { OnOk result (P.floor device.new ≡ moment (P.state device.new)) }
    ensures sound { OnOk result ((P.state device.new).failures ≡ (P.state device.old).failures) }
    ensures err { OnErr result ((P.state device.old).failures < (P.state device.new).failures) }
    ensures elsewhere { KeepsOthers (P.state device.old) (P.state device.new) (λ word. word ≡ VERSION_WORD) }
    ensures moments { (r : CommitRecord) (s : Keyspace)
        → Leaves (P.state device.old) (IsRenewed (P.state device.old).lines r s)
        → LeavesOnly (P.state device.old) (P.state device.new) (λ image.
        IsRenewed (P.state device.old).lines r s image ⊎ IsMovable Version2 (P.state device.old).lines (renewed r) s image) }
{
    persist_durably(device, &[(VERSION_WORD, Layout::Version2.version())], &[0])
}
