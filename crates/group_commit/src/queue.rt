//! What waits for a committer.
ghost use Rattle.std.specs.Prelude.{◌≡◌, ◌+◌, ◌++◌, ◌≤◌, List, [], ◌∷◌, None, false, length, min, IfOk, IfErr, OnOk, OnErr};
ghost use Rattle.std.specs.VecDeque.{deque_capacity, deque_len};
ghost use Rattle.kv_types.specs.declared.refusal.Refusal.{Refusal as Cause};
ghost use Rattle.model.specs.declared.work.FreeList.{FreeList as Lists};
ghost use Rattle.group_commit.specs.Due.{has_group};
ghost use Rattle.group_commit.specs.Group.{groups_of};
ghost use Rattle.group_commit.specs.Working.{AreTakenEach, SetsAside};

use kv_types::Refusal;
use model::{FreeList, Group, Work};
use pipes::{Inlet, LocalPipe, PIPE_ITEMS};
use std::alloc::Global;
use std::collections::VecDeque;

/// Whether a group waits.
pub(crate) fn has_group(work: &LocalPipe<Work>) -> bool
    ensures { result ≡ has_group work.now.items }
{
    let (first, second) = work.as_slices();
    any_group(first) || any_group(second)
}

/// Whether one of the items is a group.
fn any_group(items: &[Work]) -> bool
    ensures { result ≡ has_group items.now }
{
    items.iter().any(|item| match item {
        Work::Commit(_) => true,
        Work::Free(_) => false,
    })
}

/// How many groups wait.
fn count_groups(work: &LocalPipe<Work>) -> usize
    ensures { result ≡ length (groups_of work.now.items) }
{
    let (first, second) = work.as_slices();
    count_in(first) + count_in(second)
}

/// How many of the items are groups.
fn count_in(items: &[Work]) -> usize
    ensures { result ≡ length (groups_of items.now) }
{
    let mut count = 0;
    for item in items {
        count += groups_in(item);
    }
    count
}

/// How many groups the item is.
fn groups_in(item: &Work) -> usize
    ensures count { result ≡ length (groups_of (item.now ∷ [])) }
    ensures few { result ≤ 1 }
{
    match item {
        Work::Commit(_) => 1,
        Work::Free(_) => 0,
    }
}

/// Takes groups from the queue, in order: all that wait, but `most` at most. The free lists before and between them go aside.
///
/// # Errors
///
/// `Memory` alone, where room for what is taken was refused, and then nothing was taken.
pub(crate) fn take_groups(
    alloc: Global,
    aside: &mut VecDeque<FreeList>,
    work: &mut LocalPipe<Work>,
    most: usize,
) -> Result<Vec<Group>, Refusal>
    ensures many { IfOk result (λ groups. length groups.items ≡ min most (length (groups_of work.old.items))) }
    ensures taken { IfOk result (λ groups. (lists : List Lists) × (aside.new.items ≡ aside.old.items ++ lists)
        × AreTakenEach work.old.items lists groups.items work.new.items) }
    ensures cause { IfErr result (λ refusal. refusal ≡ Cause.Memory) }
    ensures kept { OnErr result ((aside.new.items ≡ aside.old.items) × (work.new ≡ work.old)) }
{
    let many = count_groups(work).min(most);
    aside.reserve(work.len())?;
    let mut groups = Vec::with_capacity(alloc, many)?;
    for _ in 0..many {
        let Some(group) = take_group(aside, work) else {
            unreachable!();
        };
        groups.push_reserved(group);
    }
    Ok(groups)
}

/// Takes all free lists from the queue, where no group waits, and sets them aside.
///
/// # Errors
///
/// `Memory` alone, where room aside was refused, and then nothing was taken.
pub(crate) fn set_aside(
    aside: &mut VecDeque<FreeList>,
    work: &mut LocalPipe<Work>,
) -> Result<(), Refusal>
    requires none { has_group work.old.items ≡ false }
    ensures all { OnOk result (SetsAside aside.old.items work.old.items None aside.new.items work.new.items) }
    ensures cause { IfErr result (λ refusal. refusal ≡ Cause.Memory) }
    ensures kept { OnErr result ((aside.new.items ≡ aside.old.items) × (work.new ≡ work.old)) }
{
    aside.reserve(work.len())?;
    drop(take_group(aside, work));
    Ok(())
}

/// Takes free lists from the queue and sets them aside, and then takes the group behind them, if one comes. There is room aside for all that wait.
fn take_group(aside: &mut VecDeque<FreeList>, work: &mut LocalPipe<Work>) -> Option<Group>
    requires room { deque_len aside.old + length work.old.items ≤ deque_capacity aside.old }
    ensures came { SetsAside aside.old.items work.old.items result aside.new.items work.new.items }
    ensures room { deque_len aside.new + length work.new.items ≤ deque_capacity aside.new }
{
    for _ in 0..PIPE_ITEMS {
        match work.take() {
            Some(Work::Commit(group)) => return Some(group),
            Some(Work::Free(list)) => aside.push_back_reserved(list),
            None => return None,
        }
    }
    None
}
