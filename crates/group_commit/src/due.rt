//! What a committer does next.
ghost use Rattle.std.specs.Prelude.{◌≡◌, ◌∷◌, [], ℕ, Bool, List, true, false, MatchOption};
ghost use Rattle.model.specs.declared.work.FreeList.{FreeList};
ghost use Rattle.group_commit.specs.Due.{due_beside, due_of, has_group, reached_by};
ghost use Rattle.group_commit.specs.declared.stage.Stage.TheVariants.{Ready};

use crate::queue::has_group;
use model::{FreeList, Work};
use pipes::LocalPipe;
use std::collections::VecDeque;

/// The step that is due.
#[derive(Debug, Clone, Copy, PartialEq, Eq)]
pub enum Due {
    /// The groups that wait are to be committed, as many as the link has room for. The free lists before and between them go aside.
    Commit,
    /// The local mark is to be raised to the groups that were committed.
    Raise,
    /// The first group in hand, which the local mark tells of, is to be handed on to the link.
    Hand,
    /// The first free list that is reached is to be freed: the standby has passed it.
    Free,
    /// The oldest gap of the record is to be cleared.
    Clear,
    /// There is nothing to do until something comes, or the standby goes on.
    Nothing,
}

/// The step that is due with no group in hand.
pub(crate) fn due_when_ready(
    aside: &VecDeque<FreeList>,
    work: &LocalPipe<Work>,
    has_room: bool,
    has_gap: bool,
    remote: u64,
) -> Due
    ensures { result ≡ due_of Ready aside.now.items work.now.items has_room has_gap remote }
{
    if has_room && has_group(work) {
        return Due::Commit;
    }
    due_beside(aside, work, has_room, has_gap, remote)
}

/// The step that is due where no group may be taken.
fn due_beside(
    aside: &VecDeque<FreeList>,
    work: &LocalPipe<Work>,
    has_room: bool,
    has_gap: bool,
    remote: u64,
) -> Due
    requires { has_room ≡ true → has_group work.now.items ≡ false }
    ensures { result ≡ due_beside (reached_by has_room aside.now.items work.now.items) has_room has_gap remote }
{
    match first_reached(aside, work, has_room) {
        Some(list) => due_of_list(list, remote),
        None => due_of_gap(has_room, has_gap),
    }
}

/// The first free list that is reached, where no group may be taken: the oldest aside or, where none is and the link has room, the one that waits first.
fn first_reached<'a>(
    aside: &'a VecDeque<FreeList>,
    work: &'a LocalPipe<Work>,
    has_room: bool,
) -> Option<&'a FreeList>
    requires { has_room ≡ true → has_group work.now.items ≡ false }
    ensures { MatchOption result (reached_by has_room aside.now.items work.now.items ≡ [])
        (λ list. (rest : List FreeList) × (reached_by has_room aside.now.items work.now.items ≡ list.now ∷ rest)) }
{
    if !aside.is_empty() || !has_room {
        return aside.front();
    }
    match work.first() {
        Some(Work::Free(list)) => Some(list),
        Some(Work::Commit(_)) | None => None,
    }
}

/// What is due where this free list is the first that is reached.
fn due_of_list(list: &FreeList, remote: u64) -> Due
    ensures { (rest : List FreeList) (has_room has_gap : Bool) → result ≡ due_beside (list.now ∷ rest) has_room has_gap remote }
{
    if list.position <= remote {
        Due::Free
    } else {
        Due::Nothing
    }
}

/// What is due where no free list is reached.
fn due_of_gap(has_room: bool, has_gap: bool) -> Due
    ensures { (remote : ℕ) → result ≡ due_beside [] has_room has_gap remote }
{
    if has_room && has_gap {
        Due::Clear
    } else {
        Due::Nothing
    }
}
