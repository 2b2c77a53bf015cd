//! The record after a group.
ghost use Rattle.std.specs.Prelude.{◌≡◌, ◌↔◌, ◌⊎◌, ◌<◌, ◌≤◌, length, IsTrue, IfSome, IfNone};
ghost use Rattle.model.specs.declared.group.TheConstants.{MAX_PARTS};
ghost use Rattle.model.specs.declared.record.Role.TheVariants.{Newcomer};
ghost use Rattle.model.specs.Floor.{with_floor};
ghost use Rattle.model.specs.Group.{next_record, last_position};
ghost use Rattle.wbl_record.specs.Current.{IsLawful};

use arrayvec::ArrayVec;
use model::{COUNTER_LIMIT, Gap, Group, MAX_GAPS, Part, Record, Role, STAMP_WINDOW};

/// The record after a group, which has this floor if that is higher than the one before, or `None` if one of its counters would reach 2^62, or the record is
/// a newcomer's, which takes no groups.
pub fn next_record(current: &Record, group: &Group, floor: u64) -> Option<Record>
    requires lawful { IsLawful current.now }
    requires few { length group.now.parts.items ≤ MAX_PARTS }
    requires epoch { current.now.epoch ≤ group.now.epoch }
    ensures next { IfSome result (λ next. next ≡ next_record (with_floor floor current.now) group.now) }
    ensures lawful { IfSome result IsLawful }
    ensures other { IfSome result (λ next. ¬ (current.now.role ≡ Newcomer)) }
    ensures exhausted { IfNone result (let next = next_record current.now group.now in
        (COUNTER_LIMIT ≤ next.cd) ⊎ (COUNTER_LIMIT ≤ next.position) ⊎ (COUNTER_LIMIT ≤ next.number)
        ⊎ ((current.now.epoch < next.epoch) × (COUNTER_LIMIT ≤ next.epoch)) ⊎ (current.now.role ≡ Newcomer)) }
{
    if is_newcomer(current) {
        return None;
    }
    let number = current.number + 1;
    let position = last_position(current.position, group.parts.as_slice());
    let cp = current.cp + group.parts.len() as u64;
    let cd = cp + 1 + STAMP_WINDOW;
    if cd < COUNTER_LIMIT
        && position < COUNTER_LIMIT
        && number < COUNTER_LIMIT
        && group.epoch < COUNTER_LIMIT
    {
        Some(Record {
            layout: current.layout,
            number,
            position,
            cp,
            cd,
            epoch: group.epoch,
            role: current.role,
            gaps: copy_gaps(&current.gaps),
            floor: current.floor.max(floor),
        })
    } else {
        None
    }
}

/// Whether the record is a newcomer's.
pub(crate) fn is_newcomer(current: &Record) -> bool
    ensures { IsTrue result ↔ (current.now.role ≡ Newcomer) }
{
    current.role == Role::Newcomer
}

/// The position of the last part, or `before` if there is none.
fn last_position(before: u64, parts: &[Part]) -> u64
    ensures { result ≡ last_position before parts.now }
{
    match parts.last() {
        Some(part) => part.position,
        None => before,
    }
}

/// A copy of a record.
pub(crate) fn copy_record(from: &Record) -> Record
    ensures { result ≡ from.now }
{
    Record {
        layout: from.layout,
        number: from.number,
        position: from.position,
        cp: from.cp,
        cd: from.cd,
        epoch: from.epoch,
        role: from.role,
        gaps: copy_gaps(&from.gaps),
        floor: from.floor,
    }
}

/// A copy of the gaps.
pub(crate) fn copy_gaps(gaps: &ArrayVec<Gap, MAX_GAPS>) -> ArrayVec<Gap, MAX_GAPS>
    ensures { result ≡ gaps.now }
{
    let mut copy = ArrayVec::new();
    for gap in gaps.as_slice() {
        copy.push(*gap);
    }
    copy
}
