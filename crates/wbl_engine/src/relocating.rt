//! Live versions are moved to other places, under one record of the same position.
ghost use Rattle.std.specs.Prelude.{◌≡◌, ◌⊎◌, ◌<◌, ◌≤◌, length, IfSome, IfNone, OnOk, OnErr};
ghost use Rattle.pmem.specs.Device.{moment};
ghost use Rattle.pmem.specs.Runs.{LeavesOnly};
ghost use Rattle.model.specs.declared.group.TheConstants.{MAX_PARTS};
ghost use Rattle.wbl_record.specs.Current.{IsLawful};
ghost use Rattle.wbl_engine.specs.AtRest.{IsAtRest, contents_of};
ghost use Rattle.wbl_engine.specs.Contents.{Keeps, Same};
ghost use Rattle.wbl_engine.specs.Relocating.{ExhaustsRelocation, IsRelocation, after_relocation, relocated_record};

use crate::commit::commit_parts;
use crate::successor::copy_gaps;
use model::{COUNTER_LIMIT, Part, Record, STAMP_WINDOW};
use pmem::{Fault, Pmem};

/// The record after these versions were moved, or `None` if one of its counters would reach 2^62.
pub fn relocated_record(current: &Record, parts: &[Part]) -> Option<Record>
    requires lawful { IsLawful current.now }
    requires few { length parts.now ≤ MAX_PARTS }
    ensures next { IfSome result (λ next. next ≡ relocated_record (length parts.now) current.now) }
    ensures lawful { IfSome result IsLawful }
    ensures exhausted { IfNone result (ExhaustsRelocation (length parts.now) current.now) }
{
    let number = current.number + 1;
    let cp = current.cp + parts.len() as u64;
    let cd = cp + 1 + STAMP_WINDOW;
    if cd < COUNTER_LIMIT && number < COUNTER_LIMIT {
        Some(Record {
            layout: current.layout,
            number,
            position: current.position,
            cp,
            cd,
            epoch: current.epoch,
            role: current.role,
            gaps: copy_gaps(&current.gaps),
            floor: current.floor,
        })
    } else {
        None
    }
}

/// Stores the parts that move versions, and the record after them, and syncs. At any moment a crash leaves the contents before the parts or those after them.
/// On `Err` a fence or the sync has failed.
pub fn commit_relocation<P: Pmem>(
    device: &mut P,
    parts: &[Part],
    current: &Record,
    next: &Record,
) -> Result<(), Fault>
    requires rest { IsAtRest current.now (P.state device.old) }
    requires asked { IsRelocation (contents_of current.now (P.state device.old)) parts.now }
    requires after { next.now ≡ relocated_record (length parts.now) current.now }
    requires lawful { IsLawful next.now }
    ensures rest { OnOk result (IsAtRest next.now (P.state device.new)) }
    ensures moved { OnOk result (Same (after_relocation (contents_of current.now (P.state device.old)) parts.now)
        (contents_of next.now (P.state device.new))) }
    ensures sound { OnOk result ((P.state device.new).failures ≡ (P.state device.old).failures) }
    ensures stays { OnErr result (Same (contents_of current.now (P.state device.old)) (contents_of current.now (P.state device.new))) }
    ensures fault { OnErr result ((P.state device.old).failures < (P.state device.new).failures) }
    ensures synced { OnOk result (P.floor device.new ≡ moment (P.state device.new)) }
    ensures asked_moment { (P.state device.new).kept ≡ (P.state device.old).kept }
    ensures moments { LeavesOnly (P.state device.old) (P.state device.new) (λ image.
        Keeps (contents_of current.now (P.state device.old)) image
        ⊎ Keeps (after_relocation (contents_of current.now (P.state device.old)) parts.now) image) }
{
    commit_parts(device, parts, current, next)
}
