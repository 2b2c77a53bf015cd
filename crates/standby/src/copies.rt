//! What a newcomer does with the frames of a copy, by how far it has come with one.
ghost use Rattle.standby.specs.Copies.{IsEndStep, IsPartStep};

use kv_types::RecordId;

/// How far a newcomer has come with a copy: it has the first parts of it.
#[derive(Debug, Drop)]
pub struct Half {
    /// The position that the copy is of.
    pub position: u64,
    /// How many parts it has, from part 0 on: at least one.
    pub parts: u64,
    /// The last record of these parts. That of the next put has to follow it.
    pub last: Option<RecordId>,
}

/// What a newcomer does with a part.
#[derive(Clone, Copy, Debug, PartialEq, Eq)]
pub enum PartStep {
    /// It is the next one, and is staged behind what there is.
    GoesOn,
    /// It is there already, and changes nothing.
    Has,
    /// It is the first one of another copy: what there is goes first.
    Begins,
    /// It is refused with `PositionGap`.
    Misplaced,
}

/// What a newcomer does with the end of a copy.
#[derive(Clone, Copy, Debug, PartialEq, Eq)]
pub enum EndStep {
    /// All parts are there: they count from now on.
    Completes,
    /// The copy has no parts: what there is of another goes, and the node holds nothing.
    Empties,
    /// It is refused with `PositionGap`.
    Misplaced,
}

/// What a newcomer that has come so far does with a part of a copy at this position.
pub fn part_step(half: &Option<Half>, position: u64, number: u64) -> PartStep
    ensures { IsPartStep half.now position number result }
{
    let Some(half) = half else {
        return if number == 0 {
            PartStep::Begins
        } else {
            PartStep::Misplaced
        };
    };
    if position == half.position {
        if number < half.parts {
            PartStep::Has
        } else if number == half.parts {
            PartStep::GoesOn
        } else {
            PartStep::Misplaced
        }
    } else if number == 0 {
        PartStep::Begins
    } else {
        PartStep::Misplaced
    }
}

/// What a newcomer that has come so far does with the end of a copy at this position, which has so many parts.
pub fn end_step(half: &Option<Half>, position: u64, parts: u64) -> EndStep
    ensures { IsEndStep half.now position parts result }
{
    if parts == 0 {
        return EndStep::Empties;
    }
    match half {
        Some(half) if half.position == position && half.parts == parts => EndStep::Completes,
        _ => EndStep::Misplaced,
    }
}
