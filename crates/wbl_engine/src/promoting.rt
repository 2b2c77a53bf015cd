//! The record that makes an image a primary's.
ghost use Rattle.std.specs.Prelude.{◌≡◌, ◌⊎◌, ◌<◌, IfSome, IfNone, OnOk, OnErr};
ghost use Rattle.pmem.specs.Device.{moment};
ghost use Rattle.pmem.specs.Runs.{LeavesOnly};
ghost use Rattle.model.specs.declared.record.Role.TheVariants.{Newcomer};
ghost use Rattle.wbl_record.specs.Current.{IsLawful};
ghost use Rattle.wbl_engine.specs.AtRest.{IsAtRest, contents_of};
ghost use Rattle.wbl_engine.specs.Contents.{Keeps, Same};
ghost use Rattle.wbl_engine.specs.Promoting.{ExhaustsPromotion, promoted, promoted_record};

use crate::successor::{copy_gaps, is_newcomer};
use model::{COUNTER_LIMIT, Record, Role};
use pmem::{Fault, Pmem};
use wbl_record::write_durably;

/// The record after a promotion, or `None` if its number or its epoch would reach 2^62, or the current one is a newcomer's.
pub fn promoted_record(current: &Record) -> Option<Record>
    requires lawful { IsLawful current.now }
    ensures next { IfSome result (λ next. next ≡ promoted_record current.now) }
    ensures lawful { IfSome result IsLawful }
    ensures other { IfSome result (λ next. ¬ (current.now.role ≡ Newcomer)) }
    ensures exhausted { IfNone result (ExhaustsPromotion current.now) }
{
    if is_newcomer(current) {
        return None;
    }
    let number = current.number + 1;
    let epoch = current.epoch + 1;
    if number < COUNTER_LIMIT && epoch < COUNTER_LIMIT {
        Some(Record {
            layout: current.layout,
            number,
            position: current.position,
            cp: current.cp,
            cd: current.cd,
            epoch,
            role: Role::Primary,
            gaps: copy_gaps(&current.gaps),
            floor: current.position,
        })
    } else {
        None
    }
}

/// Writes the record after a promotion, and syncs. At any moment a crash leaves the same versions, under the current record or the promoted one. On `Err`
/// a fence or the sync has failed.
pub fn write_promoted<P: Pmem>(device: &mut P, current: &Record, next: &Record) -> Result<(), Fault>
    requires rest { IsAtRest current.now (P.state device.old) }
    requires after { next.now ≡ promoted_record current.now }
    requires lawful { IsLawful next.now }
    ensures rest { OnOk result (IsAtRest next.now (P.state device.new)) }
    ensures moved { OnOk result (Same (promoted (contents_of current.now (P.state device.old))) (contents_of next.now (P.state device.new))) }
    ensures sound { OnOk result ((P.state device.new).failures ≡ (P.state device.old).failures) }
    ensures stays { OnErr result (Same (contents_of current.now (P.state device.old)) (contents_of current.now (P.state device.new))) }
    ensures fault { OnErr result ((P.state device.old).failures < (P.state device.new).failures) }
    ensures synced { OnOk result (P.floor device.new ≡ moment (P.state device.new)) }
    ensures asked_moment { (P.state device.new).kept ≡ (P.state device.old).kept }
    ensures moments { LeavesOnly (P.state device.old) (P.state device.new) (λ image.
        Keeps (contents_of current.now (P.state device.old)) image
        ⊎ Keeps (promoted (contents_of current.now (P.state device.old))) image) }
{
    write_durably(device, next)
}
