//! Groups are stored one after another, each with a record of its own, and synced together.
ghost use Rattle.std.specs.Prelude.{◌≡◌, ◌⊎◌, ◌<◌, false, true, OnOk, OnErr};
ghost use Rattle.pmem.specs.Device.{moment};
ghost use Rattle.pmem.specs.Runs.{LeavesOnly};
ghost use Rattle.model.specs.Group.{Contents, IsGroup, next_record, after_group};
ghost use Rattle.wbl_engine.specs.AtRest.{IsAtRest, contents_of};
ghost use Rattle.wbl_engine.specs.Committing.{at_floor, under_floor};
ghost use Rattle.wbl_engine.specs.CommittingAll.{AfterSome, AreGroups, CommitsEach, ExhaustsOne, KeepsSome, after_commits};
ghost use Rattle.wbl_engine.specs.Contents.{Keeps, Same};
ghost use Rattle.wbl_record.specs.Current.{IsLawful};

use crate::staging::stage_parts;
use crate::successor::{copy_record, next_record};
use model::{Group, Record};
use pmem::{Fault, Pmem};
use wbl_record::write_next;

/// Whether committing these groups, one after another, would bring a counter of the record to 2^62.
pub(crate) fn exhausts_one(current: &Record, groups: &[Group], floor: u64) -> bool
    requires lawful { IsLawful current.now }
    requires asked { (contents : Contents) × (contents.current ≡ current.now) × AreGroups contents groups.now }
    ensures one { result ≡ true → (contents : Contents) → contents.current ≡ current.now → ExhaustsOne contents groups.now }
    ensures none { result ≡ false → (contents : Contents) → contents.current ≡ current.now → ¬ ExhaustsOne contents groups.now }
{
    let mut last = copy_record(current);
    for group in groups {
        let Some(next) = next_record(&last, group, floor) else {
            return true;
        };
        last = next;
    }
    false
}

/// Stores groups in order, each with the record after it, and syncs once behind the last. `current` is the record of the last that was stored. At any moment a
/// crash leaves the contents after some first ones of the groups.
pub(crate) fn commit_groups<P: Pmem>(
    device: &mut P,
    groups: &[Group],
    current: &mut Record,
    floor: u64,
) -> Result<(), Fault>
    requires rest { IsAtRest current.old (P.state device.old) }
    requires asked { AreGroups (contents_of current.old (P.state device.old)) groups.now }
    requires fits { ¬ ExhaustsOne (contents_of current.old (P.state device.old)) groups.now }
    ensures rest { OnOk result (IsAtRest current.new (P.state device.new)) }
    ensures moved { OnOk result (Same (after_commits floor (contents_of current.old (P.state device.old)) groups.now)
        (contents_of current.new (P.state device.new))) }
    ensures each { OnOk result (CommitsEach floor (contents_of current.old (P.state device.old)) groups.now (P.state device.old) (P.state device.new)) }
    ensures sound { OnOk result ((P.state device.new).failures ≡ (P.state device.old).failures) }
    ensures stays { OnErr result (AfterSome floor (contents_of current.old (P.state device.old)) groups.now
        (λ some. Same some (contents_of current.new (P.state device.new)))) }
    ensures fault { OnErr result ((P.state device.old).failures < (P.state device.new).failures) }
    ensures synced { OnOk result (P.floor device.new ≡ moment (P.state device.new)) }
    ensures asked_moment { (P.state device.new).kept ≡ (P.state device.old).kept }
    ensures moments { LeavesOnly (P.state device.old) (P.state device.new)
        (KeepsSome floor (contents_of current.old (P.state device.old)) groups.now) }
{
    store_groups(device, groups, current, floor)?;
    device.sync()
}

/// Stores groups in order, each with the record after it, as `commit_groups` does, and does not sync.
fn store_groups<P: Pmem>(
    device: &mut P,
    groups: &[Group],
    current: &mut Record,
    floor: u64,
) -> Result<(), Fault>
    requires rest { IsAtRest current.old (P.state device.old) }
    requires asked { AreGroups (contents_of current.old (P.state device.old)) groups.now }
    requires fits { ¬ ExhaustsOne (contents_of current.old (P.state device.old)) groups.now }
    ensures rest { OnOk result (IsAtRest current.new (P.state device.new)) }
    ensures moved { OnOk result (Same (after_commits floor (contents_of current.old (P.state device.old)) groups.now)
        (contents_of current.new (P.state device.new))) }
    ensures each { OnOk result (CommitsEach floor (contents_of current.old (P.state device.old)) groups.now (P.state device.old) (P.state device.new)) }
    ensures sound { OnOk result ((P.state device.new).failures ≡ (P.state device.old).failures) }
    ensures stays { OnErr result (AfterSome floor (contents_of current.old (P.state device.old)) groups.now
        (λ some. Same some (contents_of current.new (P.state device.new)))) }
    ensures fault { OnErr result ((P.state device.old).failures < (P.state device.new).failures) }
    ensures asked_moment { (P.state device.new).kept ≡ (P.state device.old).kept }
    ensures moments { LeavesOnly (P.state device.old) (P.state device.new)
        (KeepsSome floor (contents_of current.old (P.state device.old)) groups.now) }
{
    for group in groups {
        let Some(next) = next_record(current, group, floor) else {
            unreachable!();
        };
        store_group(device, group, current, &next)?;
        *current = next;
    }
    Ok(())
}

/// Stores a group and the record after it, and does not sync. At any moment a crash leaves the contents before the group or those after it.
fn store_group<P: Pmem>(
    device: &mut P,
    group: &Group,
    current: &Record,
    next: &Record,
) -> Result<(), Fault>
    requires rest { IsAtRest current.now (P.state device.old) }
    requires asked { IsGroup (contents_of current.now (P.state device.old)) group.now }
    requires after { next.now ≡ next_record (at_floor next.now.floor current.now) group.now }
    requires lawful { IsLawful next.now }
    ensures rest { OnOk result (IsAtRest next.now (P.state device.new)) }
    ensures moved { OnOk result (Same (after_group (under_floor next.now.floor (contents_of current.now (P.state device.old))) group.now)
        (contents_of next.now (P.state device.new))) }
    ensures sound { OnOk result ((P.state device.new).failures ≡ (P.state device.old).failures) }
    ensures stays { OnErr result (Same (contents_of current.now (P.state device.old)) (contents_of current.now (P.state device.new))) }
    ensures fault { OnErr result ((P.state device.old).failures < (P.state device.new).failures) }
    ensures asked_moment { (P.state device.new).kept ≡ (P.state device.old).kept }
    ensures moments { LeavesOnly (P.state device.old) (P.state device.new) (λ image.
        Keeps (contents_of current.now (P.state device.old)) image
        ⊎ Keeps (after_group (under_floor next.now.floor (contents_of current.now (P.state device.old))) group.now) image) }
{
    stage_parts(device, group.parts.as_slice(), current.cp + 1)?;
    write_next(device, next)
}
