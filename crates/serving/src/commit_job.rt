//! What the committer's thread is lent, and what it does with it.
ghost use Rattle.std.specs.Prelude.{◌≡◌, ◌↔◌, ℕ, [], Ok, Err, None, false, IfErr, IfOk, OnOk};
ghost use Rattle.primary.specs.Recalling.{BackKeeps, Past};
ghost use Rattle.primary.specs.Standing.{BackStands, IsTold};
ghost use Rattle.serving.specs.CommitJob.{DoesSteps, HasNothingAtHome, IsLed, IsShown, IsShownAfter, StandsAfter};
ghost use Rattle.serving.specs.declared.committing.Stepped.{Stepped as Steps};

use crate::committing::{Stepped, take_steps};
use crate::step_time::StepTime;
use group_commit::Done;
use kv_types::Refusal;
use lending::{Borrower, Terms};
use marks::ThreadMarks;
use model::Group;
use mv_keyspace::Keyspace;
use pipes::RingOutlet;
use primary::{Back, Front, take_back};
use std::alloc::Global;
use std::marker::PhantomData;
use std::sync::Wait;
use std::time::{Clock, Instant};
use wakes::{Idle, Sleeper, Waker};
use wbl_engine::Durable;

/// A primary's back, with all that its steps need, and what the last of them came to.
#[derive(Drop)]
pub(crate) struct CommitJob<E> {
    pub(crate) back: Back<E>,
    /// The marks, of which it raises the local one.
    pub(crate) marks: ThreadMarks,
    pub(crate) groups: RingOutlet<Group>,
    pub(crate) link: Waker,
    /// Whether it is lent for what is to be committed, told of and handed on alone: so further groups may wait behind it meanwhile.
    pub(crate) is_for_commits: bool,
    /// The remote mark, as the node's thread saw it last.
    pub(crate) remote: u64,
    /// What the last steps came to.
    pub(crate) came: Result<Stepped, Refusal>,
    /// Whether steps take long.
    pub(crate) step_time: StepTime,
}

/// What becomes of a job that is lent: the steps that are due are taken.
pub(crate) struct Committing<E> {
    of: PhantomData<E>,
}

impl<E: Durable> Terms<CommitJob<E>> for Committing<E> {
    ghost use Rattle.serving.specs.CommitJob.{DoesSteps, IsLed};

    ghost offers = { IsLed E.device E.contents };

    ghost keeps = { DoesSteps E.device E.contents E.is_faulted };
}

/// A job of which no step was taken yet.
pub(crate) fn new_job<E>(
    back: Back<E>,
    marks: ThreadMarks,
    groups: RingOutlet<Group>,
    link: Waker,
) -> CommitJob<E>
    ensures { (result.back ≡ back) × (result.marks ≡ marks) × (result.remote ≡ 0) }
{
    let last = Done::Idle;
    CommitJob {
        back,
        marks,
        groups,
        link,
        is_for_commits: false,
        remote: 0,
        came: Ok(Stepped { last, any: false }),
        step_time: StepTime::unknown(),
    }
}

/// Whether something may make room: what the job has in hand, or is lent for.
pub(crate) fn is_room_coming<E: Durable>(home: &Option<CommitJob<E>>) -> bool
    ensures { result ≡ false ↔ HasNothingAtHome E.contents home.now }
{
    match home {
        Some(job) => job.back.is_room_coming(),
        None => true,
    }
}

/// Takes the steps that are due.
pub(crate) fn run_job<R: Clock, E: Durable>(
    rt: &R,
    alloc: Global,
    job: CommitJob<E>,
) -> CommitJob<E>
    requires { IsLed E.device E.contents job }
    ensures { DoesSteps E.device E.contents E.is_faulted job result }
{
    let CommitJob {
        mut back,
        mut marks,
        mut groups,
        link,
        is_for_commits,
        remote,
        came,
        mut step_time,
    } = job;
    drop(came);
    let start = Instant::now(rt);
    let came = take_steps(
        alloc,
        &mut back,
        &mut marks,
        &mut groups,
        &link,
        remote,
        is_for_commits,
    );
    step_time.note(rt, start);
    CommitJob {
        back,
        marks,
        groups,
        link,
        is_for_commits,
        remote,
        came,
        step_time,
    }
}

/// The front is told what the steps gave back. Answers whether they did anything, or why the engine refused one.
pub(crate) fn settle<E: Durable, K: Keyspace>(
    front: &mut Front<K>,
    job: &CommitJob<E>,
) -> Result<bool, Refusal>
    requires stands { StandsAfter E.device E.contents job.now.back front.old.sequencer job.now.came }
    requires shown { IsShownAfter E.device E.contents job.now.back job.now.marks job.now.came }
    ensures stands { OnOk result (BackStands E.device E.contents job.now.back front.new.sequencer []) }
    ensures shown { OnOk result (IsShown E.device E.contents job.now.back job.now.marks) }
    ensures told { IfOk result (λ did. (stepped : Steps) × (job.now.came ≡ Ok stepped) × (did ≡ stepped.any) × IsTold stepped.last front.old.sequencer front.new.sequencer) }
    ensures refused { IfErr result (λ refusal. job.now.came ≡ Err refusal) }
    // nothing is called, and what is kept of the past stays so
    ensures at { front.new.sequencer.position ≡ front.old.sequencer.position }
    ensures past { (past : Past) → BackKeeps E.contents past job.now.back front.old.sequencer → BackKeeps E.contents past job.now.back front.new.sequencer }
{
    match &job.came {
        Ok(stepped) => {
            take_back(front, &stepped.last);
            Ok(stepped.any)
        }
        Err(refusal) => Err(*refusal),
    }
}

/// What a thread does with each value that it is lent.
pub(crate) trait Task<T>: Terms<T> {
    /// Does it, as the terms say.
    fn run<R: Clock>(rt: &R, alloc: Global, value: T) -> T
        requires { Self.offers value }
        ensures { Self.keeps value result };
}

impl<E: Durable> Task<CommitJob<E>> for Committing<E> {
    fn run<R: Clock>(rt: &R, alloc: Global, value: CommitJob<E>) -> CommitJob<E> {
        run_job(rt, alloc, value)
    }
}

/// A thread that does its task with each value that it is lent. `owner` wakes the thread that lends.
pub(crate) fn do_each<R: Wait + Clock + Copy, T: Drop, L: Task<T>>(
    rt: R,
    alloc: Global,
    borrower: Borrower<T, L>,
    sleeper: Sleeper,
    owner: Waker,
    most: u32,
)
    requires { borrower.value ≡ None }
{
    let mut borrower = borrower;
    let mut idle = Idle::new(most);
    for _ in rt.forever() {
        match borrower.take() {
            Ok(value) => {
                borrower.give_back(L::run(&rt, alloc, value));
                owner.wake();
                idle.busy();
            }
            Err(_) => idle.wait(&rt, &sleeper),
        }
    }
}
