//! Parts are stored, and then the record that makes them count.
ghost use Rattle.std.specs.Prelude.{◌≡◌, ◌⊎◌, ◌<◌, OnOk, OnErr};
ghost use Rattle.pmem.specs.Device.{moment};
ghost use Rattle.pmem.specs.Runs.{LeavesOnly};
ghost use Rattle.model.specs.Group.{IsGroup, next_record, after_group};
ghost use Rattle.wbl_engine.specs.AtRest.{IsAtRest, contents_of};
ghost use Rattle.wbl_engine.specs.Committing.{AreCommittable, after_parts, at_floor, record_after, under_floor};
ghost use Rattle.wbl_engine.specs.Contents.{Keeps, Same};
ghost use Rattle.wbl_record.specs.Current.{IsLawful};

use crate::staging::stage_parts;
use model::{Group, Part, Record};
use pmem::{Fault, Pmem};
use wbl_record::write_durably;

/// Stores a group and the record after it, and syncs. At any moment a crash leaves the contents before the group or those after it.
pub fn commit_group<P: Pmem>(
    device: &mut P,
    group: &Group,
    current: &Record,
    next: &Record,
) -> Result<(), Fault>
    requires rest { IsAtRest current.now (P.state device.old) }
    requires asked { IsGroup (contents_of current.now (P.state device.old)) group.now }
    requires after { next.now ≡ next_record (at_floor next.now.floor current.now) group.now }
    requires lawful { IsLawful next.now }
    ensures rest { OnOk result (IsAtRest next.now (P.state device.new)) }
    ensures moved { OnOk result (Same (after_group (under_floor next.now.floor (contents_of current.now (P.state device.old))) group.now)
        (contents_of next.now (P.state device.new))) }
    ensures sound { OnOk result ((P.state device.new).failures ≡ (P.state device.old).failures) }
    ensures stays { OnErr result (Same (contents_of current.now (P.state device.old)) (contents_of current.now (P.state device.new))) }
    ensures fault { OnErr result ((P.state device.old).failures < (P.state device.new).failures) }
    ensures synced { OnOk result (P.floor device.new ≡ moment (P.state device.new)) }
    ensures asked_moment { (P.state device.new).kept ≡ (P.state device.old).kept }
    ensures moments { LeavesOnly (P.state device.old) (P.state device.new) (λ image.
        Keeps (contents_of current.now (P.state device.old)) image
        ⊎ Keeps (after_group (under_floor next.now.floor (contents_of current.now (P.state device.old))) group.now) image) }
{
    commit_parts(device, group.parts.as_slice(), current, next)
}

/// Stores parts and the record after them, and syncs. At any moment a crash leaves the contents before the parts or those after them.
pub(crate) fn commit_parts<P: Pmem>(
    device: &mut P,
    parts: &[Part],
    current: &Record,
    next: &Record,
) -> Result<(), Fault>
    requires rest { IsAtRest current.now (P.state device.old) }
    requires asked { AreCommittable (contents_of current.now (P.state device.old)) parts.now next.now.position }
    requires after { next.now ≡ record_after current.now parts.now next.now.position next.now.epoch next.now.floor }
    requires lawful { IsLawful next.now }
    ensures rest { OnOk result (IsAtRest next.now (P.state device.new)) }
    ensures moved { OnOk result (Same (after_parts (contents_of current.now (P.state device.old)) parts.now next.now.position next.now.epoch next.now.floor)
        (contents_of next.now (P.state device.new))) }
    ensures sound { OnOk result ((P.state device.new).failures ≡ (P.state device.old).failures) }
    ensures stays { OnErr result (Same (contents_of current.now (P.state device.old)) (contents_of current.now (P.state device.new))) }
    ensures fault { OnErr result ((P.state device.old).failures < (P.state device.new).failures) }
    ensures synced { OnOk result (P.floor device.new ≡ moment (P.state device.new)) }
    ensures asked_moment { (P.state device.new).kept ≡ (P.state device.old).kept }
    ensures moments { LeavesOnly (P.state device.old) (P.state device.new) (λ image.
        Keeps (contents_of current.now (P.state device.old)) image
        ⊎ Keeps (after_parts (contents_of current.now (P.state device.old)) parts.now next.now.position next.now.epoch next.now.floor) image) }
{
    stage_parts(device, parts, current.cp + 1)?;
    write_durably(device, next)
}
