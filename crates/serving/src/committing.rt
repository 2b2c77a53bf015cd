//! The committer's steps.
ghost use Rattle.std.specs.Prelude.{◌≡◌, ◌≤◌, List, [], nat_lt, ◌&&◌, true, Result, IfOk, OnOk};
ghost use Rattle.kv_types.specs.declared.refusal.Refusal.{Refusal as Cause};
ghost use Rattle.rtrb.specs.Ring.{known_free};
ghost use Rattle.group_commit.specs.Due.{due_now};
ghost use Rattle.group_commit.specs.declared.stage.Done.{Done as Came};
ghost use Rattle.redis_core.specs.Sequencing.{Sequencing};
ghost use Rattle.primary.specs.Ahead.{is_of_commit};
ghost use Rattle.primary.specs.Standing.{BackStands, notices_of, position_after};
ghost use Rattle.serving.specs.CommitJob.{AreSteps, IsShown, IsStep};
ghost use Rattle.serving.specs.Keeping.{KeepsThrough};
ghost use Rattle.serving.specs.Stepping.{EndAs, does_something, is_passed, passed_on};
ghost use Rattle.serving.specs.Steps.{does_step, is_free_worth};

use group_commit::{Done, Due};
use kv_types::Refusal;
use marks::ThreadMarks;
use model::Group;
use pipes::RingOutlet;
use primary::Back;
use std::alloc::Global;
use wakes::Waker;
use wbl_engine::Durable;

/// How many steps the committer takes before the connections are served again, or what they changed is looked at: enough for all that may be on its way
/// (`MOST_ON_THE_WAY`) to be committed, told of and handed on, in full groups and the smaller ones before them.
const MOST_STEPS: usize = 32;

/// What some steps came to: the last of them, and whether any did something. Only the last may have freed what the front is to be told of.
#[derive(Drop)]
pub(crate) struct Stepped {
    pub(crate) last: Done,
    pub(crate) any: bool,
}

/// Whether a step of the committer is due that does something: a group that was told of is handed on only where the link has room. A free that needs a record
/// of its own, for its floor, waits for the next commit, which writes one anyway, unless a request waits for room (`is_short`).
fn is_step_due<E: Durable>(back: &Back<E>, has_room: bool, remote: u64, is_short: bool) -> bool
    ensures { let is_worth = is_free_worth is_short remote (E.contents back.now.committer.engine).current.floor in
        result ≡ does_step has_room is_worth (due_now E.contents back.now.committer back.now.work has_room remote) }
{
    match back.due(has_room, remote) {
        Due::Nothing => false,
        Due::Hand => has_room,
        Due::Free => is_short || remote <= back.floor(),
        Due::Commit | Due::Raise | Due::Clear => true,
    }
}

/// The same, once the standby was heard; before, none is due.
pub(crate) fn is_due<E: Durable>(
    back: &Back<E>,
    has_room: bool,
    remote: u64,
    is_heard: bool,
    is_short: bool,
) -> bool
    ensures { let is_worth = is_free_worth is_short remote (E.contents back.now.committer.engine).current.floor in
        result ≡ (is_heard && does_step has_room is_worth (due_now E.contents back.now.committer back.now.work has_room remote)) }
{
    let is_step_due = is_step_due(back, has_room, remote, is_short);
    is_heard && is_step_due
}

/// Whether the step that is due commits groups, tells of one or hands one on. Without room at the link, whether groups are in hand.
pub(crate) fn is_commit_due<E: Durable>(back: &Back<E>, has_room: bool, remote: u64) -> bool
    ensures { result ≡ is_of_commit (due_now E.contents back.now.committer back.now.work has_room remote) }
{
    match back.due(has_room, remote) {
        Due::Commit | Due::Raise | Due::Hand => true,
        Due::Free | Due::Clear | Due::Nothing => false,
    }
}

/// Takes steps until nothing is to be done, some are taken, or one gives something back; where `is_for_commits`, until nothing is in hand.
/// The local mark is where the engine is, before and after.
///
/// # Errors
///
/// `Fault` and `Exhausted` of the engine. Where memory is refused nothing is lost: that is as if nothing were to be done, and the step is tried again later.
pub(crate) fn take_steps<E: Durable>(
    alloc: Global,
    back: &mut Back<E>,
    marks: &mut ThreadMarks,
    groups: &mut RingOutlet<Group>,
    link: &Waker,
    remote: u64,
    is_for_commits: bool,
) -> Result<Stepped, Refusal>
    requires stands { (s : Sequencing) × BackStands E.device E.contents back.old s [] }
    requires shown { IsShown E.device E.contents back.old marks.old }
    requires first { is_for_commits ≡ true → is_of_commit (due_now E.contents back.old.committer back.old.work (nat_lt 0 (known_free groups.old.producer)) remote) ≡ true }
    ensures stands { IfOk result (λ stepped. (s : Sequencing) → BackStands E.device E.contents back.old s []
        → BackStands E.device E.contents back.new s (notices_of stepped.last)) }
    ensures shown { OnOk result (IsShown E.device E.contents back.new marks.new) }
    ensures steps { (all : List (Result Came Cause)) × AreSteps E.device E.contents E.is_faulted is_for_commits remote back.old groups.old all back.new groups.new
        × EndAs is_for_commits all result }
    // what was kept of the past is
    ensures past { KeepsThrough E.device E.contents E.is_faulted remote back.old result back.new }
{
    let mut any = false;
    for _ in 0..MOST_STEPS {
        let done = take_step(alloc, back, marks, groups, link, remote)?;
        any |= is_something(&done);
        if !gives_nothing_back(&done) {
            return Ok(Stepped { last: done, any });
        }
        let has_more = is_commit_due(back, false, remote);
        let is_over = is_for_commits & !has_more;
        if is_over {
            let last = Done::Idle;
            return Ok(Stepped { last, any });
        }
    }
    let last = Done::Idle;
    Ok(Stepped { last, any })
}

/// Takes the step that is due, shows by the local mark what a commit made durable, and calls the link where a group was handed on. A refusal of memory is as
/// if nothing were due.
fn take_step<E: Durable>(
    alloc: Global,
    back: &mut Back<E>,
    marks: &mut ThreadMarks,
    groups: &mut RingOutlet<Group>,
    link: &Waker,
    remote: u64,
) -> Result<Done, Refusal>
    requires stands { (s : Sequencing) × BackStands E.device E.contents back.old s [] }
    requires shown { IsShown E.device E.contents back.old marks.old }
    ensures stands { IfOk result (λ came. (s : Sequencing) → BackStands E.device E.contents back.old s []
        → BackStands E.device E.contents back.new s (notices_of came)) }
    ensures shown { OnOk result (IsShown E.device E.contents back.new marks.new) }
    ensures step { (came : Result Came Cause) × IsStep E.device E.contents E.is_faulted remote back.old groups.old came back.new groups.new × (result ≡ passed_on came) }
    ensures past { KeepsThrough E.device E.contents E.is_faulted remote back.old result back.new }
{
    match back.commit(alloc, groups, remote) {
        Ok(done) => {
            call(&done, link);
            show(marks, &done);
            Ok(done)
        }
        Err(Refusal::Memory) => Ok(Done::Idle),
        Err(refusal) => Err(refusal),
    }
}

/// Raises the local mark to what a commit made durable.
fn show(marks: &mut ThreadMarks, done: &Done)
    requires raises { marks.old.raises_local ≡ true }
    requires rises { marks.old.local ≤ position_after done.now marks.old.local }
    ensures { marks.new ≡ record marks.old { local = position_after done.now marks.old.local } }
{
    if let Done::Committed(committed) = done {
        marks.raise_local(committed);
    }
}

// Where a group was handed on, the link is called.
fn call(done: &Done, link: &Waker) {
    if let Done::Handed = done {
        link.wake();
    }
}

fn is_something(done: &Done) -> bool
    ensures { result ≡ does_something done.now }
{
    match done {
        Done::Idle => false,
        _ => true,
    }
}

/// Whether a step did something of which the front needs not be told.
fn gives_nothing_back(done: &Done) -> bool
    ensures nothing { result ≡ true → notices_of done.now ≡ [] }
    ensures passed { result ≡ is_passed done.now }
{
    match done {
        Done::Committed(_) | Done::Raised | Done::Handed => true,
        Done::Idle | Done::Freed(_) | Done::Cleared(_) => false,
    }
}
