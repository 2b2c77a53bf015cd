//! The node's thread: it serves the connections, and has committed what they changed and freed what has ended.
ghost use Rattle.std.specs.Prelude.{◌≡◌, ◌≤◌, ◌↔◌, [], max, None, false, true, IfOk, IsSome, OnOk, if◌then◌else◌};
ghost use Rattle.marks.specs.declared.view.MarkView.{MarkView};
ghost use Rattle.placing.specs.Fill.{fill_of};
ghost use Rattle.primary.specs.Settled.{HasNothingOpen};
ghost use Rattle.primary.specs.Standing.{Stands};
ghost use Rattle.serving.specs.Copying.{MakesCopy};
ghost use Rattle.serving.specs.Gathering.{with_copy};
ghost use Rattle.serving.specs.CommitJob.{GoesBy, HasNothingAtHome, IsHereOrLent, IsShown, remote_of};
ghost use Rattle.serving.specs.Keeping.{JobKeepsThrough, PastGoesOn, RunGoesOn, job_of};
ghost use Rattle.serving.specs.Serving.{HasRead, Serves};
ghost use Rattle.serving.specs.Tending.{Fetches, TakesRound, Tends};
ghost use Rattle.serving.specs.Visiting.{ServesRound};

use crate::ahead::Ahead;
use crate::closing::{close_due, close_due_ahead};
use crate::commit_job::{CommitJob, Committing, is_room_coming, new_job, run_job, settle};
use crate::committing::{is_commit_due, is_due};
use crate::copying::{CopyMade, CopyMaker};
use crate::gathering::Gathering;
use crate::open_connections::OpenConnections;
use crate::step_time::StepTime;
use crate::stop::Stop;
use crate::tended::{Fetched, JobCame, Tended};
use kv_types::Refusal;
use lending::Lender;
use marks::ThreadMarks;
use model::{Group, Work};
use mv_keyspace::Keyspace;
use node_log::FillSetter;
use pipes::{LocalPipe, Outlet, RingOutlet};
use primary::{Back, Front, Primary, take_ahead};
use std::alloc::Global;
use std::sync::{Arc, Wait};
use std::time::Clock;
use wakes::{Flag, Idle, Sleeper, Waker};
use wbl_engine::Durable;

/// What the node's thread owns beside its primary.
#[derive(Drop)]
pub struct Node {
    pub connections: OpenConnections,
    /// The marks, which it reads.
    pub marks: ThreadMarks,
    /// The marks as the committer has them, which raises the local one.
    pub committer_marks: ThreadMarks,
    /// The groups that were committed go to the link here.
    pub groups: RingOutlet<Group>,
    /// Wakes the link's sender.
    pub link: Waker,
    /// Makes a newcomer's copy for the link.
    pub(crate) copying: CopyMaker,
    pub sleeper: Sleeper,
    pub idle: Idle,
    /// Set once no further connection is accepted.
    pub listener_closed: Arc<Flag>,
    /// Where it shows how much it holds.
    pub fill: FillSetter,
}

/// The committer's thread, as the node's has it.
#[derive(Drop)]
pub(crate) struct Lent<E: Durable> {
    pub(crate) lender: Lender<CommitJob<E>, Committing<E>>,
    /// Wakes the committer's thread.
    pub(crate) waker: Waker,
    /// For the groups that are closed while that thread has the job.
    pub(crate) ahead: LocalPipe<Work>,
}

/// What the node's thread works with, round by round.
#[derive(Drop)]
struct NodeState<E: Durable, K: Keyspace> {
    front: Front<K>,
    connections: OpenConnections,
    marks: ThreadMarks,
    lender: Lender<CommitJob<E>, Committing<E>>,
    waker: Waker,
    /// The job, where it is not lent.
    home: Option<CommitJob<E>>,
    /// What was closed since, where it is.
    ahead: Ahead,
    gathering: Gathering,
    copying: CopyMaker,
    /// Where it is shown how much the front holds.
    fill: FillSetter,
}

/// Serves the connections until the engine refuses a step, by `Fault` or `Exhausted`, or no further connection is accepted.
pub(crate) fn serve<R: Wait + Clock, E: Durable + Drop, K: Keyspace + Drop>(
    rt: &R,
    alloc: Global,
    node: Node,
    primary: Primary<E, K>,
    lent: Lent<E>,
) -> Stop
    requires stands { Stands E.device E.contents primary }
    requires shown { IsShown E.device E.contents primary.back node.committer_marks }
    requires none { (lent.lender.value ≡ None) × (lent.ahead.items ≡ []) }
{
    let Primary { front, back } = primary;
    let Lent {
        lender,
        waker,
        ahead,
    } = lent;
    let Node {
        connections,
        marks,
        committer_marks,
        groups,
        link,
        copying,
        sleeper,
        mut idle,
        listener_closed,
        fill,
    } = node;
    let gathering = Gathering::new(front.position());
    let mut state = NodeState {
        front,
        connections,
        marks,
        lender,
        waker,
        home: Some(new_job(back, committer_marks, groups, link)),
        ahead: Ahead::new(ahead),
        gathering,
        copying,
        fill,
    };
    let stop = take_rounds(rt, alloc, &mut state, &mut idle, &sleeper, &listener_closed);
    drop(state);
    stop
}

/// Takes rounds, and rests after each in which nothing was done.
fn take_rounds<R: Wait + Clock, E: Durable + Drop, K: Keyspace>(
    rt: &R,
    alloc: Global,
    state: &mut NodeState<E, K>,
    idle: &mut Idle,
    sleeper: &Sleeper,
    listener_closed: &Arc<Flag>,
) -> Stop
    requires stands { IsHereOrLent E.device E.contents state.old.home state.old.lender.value state.old.ahead state.old.front.sequencer }
    requires remote { (remote_of state.old.home ≤ state.old.marks.remote) × (remote_of state.old.lender.value ≤ state.old.marks.remote) }
    // however many rounds there were: the past that was kept goes on
    ensures past { result ≡ Stop.ListenerClosed → RunGoesOn E.device E.contents E.is_faulted state.new.marks.remote (job_of state.old.home state.old.lender.value state.old.ahead)
        state.old.front.sequencer (job_of state.new.home state.new.lender.value state.new.ahead) state.new.front.sequencer }
{
    for _ in rt.forever() {
        let is_busy = match take_round(rt, alloc, state) {
            Ok(is_busy) => is_busy,
            Err(refusal) => return Stop::Refused(refusal),
        };
        if listener_closed.is_set() {
            return Stop::ListenerClosed;
        }
        state.gathering.note_round(is_busy);
        rest(rt, idle, sleeper, is_busy);
    }
    unreachable!()
}

/// Takes the job back if it is done and has committed what is due, so that this goes on while connections are served. Then it has committed what became due
/// meanwhile. Shows how much the front holds. Answers whether anything was done. The job goes by no more of the remote mark than was read of it.
///
/// # Errors
///
/// That with which the engine refused a step.
fn take_round<R: Wait + Clock, E: Durable + Drop, K: Keyspace>(
    rt: &R,
    alloc: Global,
    state: &mut NodeState<E, K>,
) -> Result<bool, Refusal>
    requires stands { IsHereOrLent E.device E.contents state.old.home state.old.lender.value state.old.ahead state.old.front.sequencer }
    requires remote { (remote_of state.old.home ≤ state.old.marks.remote) × (remote_of state.old.lender.value ≤ state.old.marks.remote) }
    ensures stands { OnOk result (IsHereOrLent E.device E.contents state.new.home state.new.lender.value state.new.ahead state.new.front.sequencer) }
    ensures remote { OnOk result ((remote_of state.new.home ≤ state.new.marks.remote) × (remote_of state.new.lender.value ≤ state.new.marks.remote)) }
    ensures read { HasRead state.old.marks state.new.marks }
    ensures round { IfOk result (TakesRound E.device E.contents E.is_faulted state.old.marks state.old.connections state.old.gathering
        state.old.home state.old.lender state.old.ahead state.old.copying state.old.front.sequencer state.new.marks state.new.connections state.new.gathering
        state.new.home state.new.lender state.new.ahead state.new.copying state.new.front.sequencer) }
    ensures past { OnOk result (PastGoesOn E.device E.contents E.is_faulted state.new.marks.remote (job_of state.old.home state.old.lender.value state.old.ahead) state.old.front.sequencer
        (job_of state.new.home state.new.lender.value state.new.ahead) state.new.front.sequencer) }
    ensures shown { OnOk result (state.new.fill ≡ fill_of (state.new.front.sequencer).table (state.new.front.sequencer).room) }
{
    let fetched = fetch(
        &mut state.front,
        &mut state.lender,
        &mut state.home,
        &mut state.ahead,
    )?;
    let before = commit_due(rt, alloc, state)?;
    let made = make_copy(alloc, state);
    let served = serve_connections(rt, alloc, state);
    let after = commit_due(rt, alloc, state)?;
    state.fill.show(&state.front.fill());
    let did_tend = before.is_busy() | after.is_busy();
    Ok(fetched.is_busy() | made.is_busy() | served | did_tend)
}

/// Makes what a newcomer of which the link knows is to get next, before anything more is called. Answers what was done.
fn make_copy<E: Durable, K: Keyspace>(alloc: Global, state: &mut NodeState<E, K>) -> CopyMade
    ensures made { MakesCopy state.new.marks.local state.old.copying state.old.front.sequencer state.new.copying state.new.front.sequencer result }
    ensures read { HasRead state.old.marks state.new.marks }
    ensures gathering { state.new.gathering ≡ with_copy state.new.copying.stage state.old.gathering }
    ensures home { state.new.home ≡ state.old.home }
    ensures lender { state.new.lender ≡ state.old.lender }
    ensures ahead { state.new.ahead ≡ state.old.ahead }
    ensures connections { state.new.connections ≡ state.old.connections }
{
    let made = state
        .copying
        .tend(alloc, &mut state.front, &mut state.marks);
    state.gathering.note_copy(state.copying.stage);
    made
}

/// Takes in who waits at the entrance, serves who called, and notes the lines of what waits then. Answers whether there was anybody.
fn serve_connections<R: Wait, E: Durable + Drop, K: Keyspace>(
    rt: &R,
    alloc: Global,
    state: &mut NodeState<E, K>,
) -> bool
    ensures serves { Serves state.old.front.sequencer state.new.front.sequencer }
    ensures read { HasRead state.old.marks state.new.marks }
    // a request waits for room only where some may come
    ensures waits { state.new.connections.is_short ≡ true → ¬ (HasNothingAtHome E.contents state.new.home × HasNothingOpen state.new.front.sequencer) }
    ensures home { state.new.home ≡ state.old.home }
    ensures lender { state.new.lender ≡ state.old.lender }
    ensures ahead { state.new.ahead ≡ state.old.ahead }
    ensures gathering { state.new.gathering ≡ record state.old.gathering { lines = state.new.connections.filling.lines } }
    ensures copying { state.new.copying ≡ state.old.copying }
    ensures visits { ServesRound state.old.gathering.closed state.old.connections state.new.connections state.old.front.sequencer state.new.front.sequencer }
{
    let is_working = is_room_coming(&state.home);
    let admitted = state.connections.admit(rt, alloc, &mut state.front);
    let served = state.connections.serve(
        rt,
        alloc,
        &mut state.front,
        is_working,
        &mut state.marks,
        state.gathering.closed,
    );
    let lines = state.connections.lines_waiting();
    state.gathering.note_lines(lines);
    admitted | served
}

/// Has committed what is due by the marks as they are now. Answers what was done.
fn commit_due<R: Clock, E: Durable + Drop, K: Keyspace>(
    rt: &R,
    alloc: Global,
    state: &mut NodeState<E, K>,
) -> Result<Tended, Refusal>
    requires stands { IsHereOrLent E.device E.contents state.old.home state.old.lender.value state.old.ahead state.old.front.sequencer }
    requires remote { remote_of state.old.lender.value ≤ state.old.marks.remote }
    ensures stands { OnOk result (IsHereOrLent E.device E.contents state.new.home state.new.lender.value state.new.ahead state.new.front.sequencer) }
    ensures remote { OnOk result ((remote_of state.new.home ≤ state.new.marks.remote) × (remote_of state.new.lender.value ≤ state.new.marks.remote)) }
    ensures read { HasRead state.old.marks state.new.marks }
    ensures tends { IfOk result (Tends E.device E.contents E.is_faulted state.new.marks state.old.connections.is_short state.old.gathering
        state.new.gathering state.old.home state.old.lender state.old.ahead state.old.front.sequencer state.new.home state.new.lender state.new.ahead state.new.front.sequencer) }
    ensures connections { state.new.connections ≡ state.old.connections }
    ensures copying { state.new.copying ≡ state.old.copying }
    ensures past { OnOk result (JobKeepsThrough E.device E.contents E.is_faulted state.new.marks.remote (job_of state.old.home state.old.lender.value state.old.ahead) state.old.front.sequencer
        (job_of state.new.home state.new.lender.value state.new.ahead) state.new.front.sequencer) }
{
    let remote = state.marks.read_remote();
    let is_heard = state.marks.has_heard();
    let is_short = state.connections.is_short();
    commit(
        rt,
        alloc,
        &mut state.front,
        &mut state.lender,
        &state.waker,
        &mut state.home,
        &mut state.ahead,
        &mut state.gathering,
        remote,
        is_heard,
        is_short,
    )
}

/// Takes the job back where the committer's thread is done with it, puts what was closed ahead last in its queue, and tells the front what came of it.
///
/// # Errors
///
/// That with which the engine refused a step of it.
fn fetch<E: Durable + Drop, K: Keyspace>(
    front: &mut Front<K>,
    lender: &mut Lender<CommitJob<E>, Committing<E>>,
    home: &mut Option<CommitJob<E>>,
    ahead: &mut Ahead,
) -> Result<Fetched, Refusal>
    requires { IsHereOrLent E.device E.contents home.old lender.old.value ahead.old front.old.sequencer }
    ensures stands { OnOk result (IsHereOrLent E.device E.contents home.new lender.new.value ahead.new front.new.sequencer) }
    ensures remote { (remote_of home.new ≤ max (remote_of home.old) (remote_of lender.old.value)) × (remote_of lender.new.value ≤ remote_of lender.old.value) }
    ensures fetches { IfOk result (Fetches E.device E.contents E.is_faulted home.old lender.old ahead.old front.old.sequencer home.new lender.new ahead.new front.new.sequencer) }
    ensures past { OnOk result (JobKeepsThrough E.device E.contents E.is_faulted (remote_of lender.old.value) (job_of home.old lender.old.value ahead.old) front.old.sequencer
        (job_of home.new lender.new.value ahead.new) front.new.sequencer) }
{
    if home.is_some() {
        return Ok(Fetched::Here);
    }
    let mut job = match lender.take_back() {
        Ok(job) => job,
        Err(not_yet) => return Ok(Fetched::Away(not_yet)),
    };
    take_ahead(&mut ahead.groups, &mut job.back);
    ahead.room = 0;
    let did = settle(front, &job);
    drop(home.replace(job));
    Ok(Fetched::Back(did?))
}

/// Closes what is due, or, while the job is lent, what is due ahead of it. Where a step is due then, and steps take long, the job is lent; otherwise its steps are
/// taken here. Before the standby was heard in this opening (`is_heard`) no step is taken: so a copy of an older image, which the standby is ahead of, stays
/// behind it for good. Answers what was done.
///
/// # Errors
///
/// That with which the engine refused a step. Where memory for closing is refused, that is closed later.
fn commit<R: Clock, E: Durable + Drop, K: Keyspace>(
    rt: &R,
    alloc: Global,
    front: &mut Front<K>,
    lender: &mut Lender<CommitJob<E>, Committing<E>>,
    waker: &Waker,
    home: &mut Option<CommitJob<E>>,
    ahead: &mut Ahead,
    gathering: &mut Gathering,
    remote: u64,
    is_heard: bool,
    is_short: bool,
) -> Result<Tended, Refusal>
    requires stands { IsHereOrLent E.device E.contents home.old lender.old.value ahead.old front.old.sequencer }
    requires remote { remote_of lender.old.value ≤ remote }
    ensures stands { OnOk result (IsHereOrLent E.device E.contents home.new lender.new.value ahead.new front.new.sequencer) }
    // a job that was here goes by this remote mark, and one that was lent by an earlier one
    ensures goes_by { IsSome home.old → OnOk result (GoesBy remote home.new × GoesBy remote lender.new.value) }
    ensures remote { OnOk result ((remote_of home.new ≤ remote) × (remote_of lender.new.value ≤ remote)) }
    ensures tends { (read : MarkView) → read.remote ≡ remote → read.heard ≡ (if is_heard then 1 else 0) → IfOk result (Tends E.device E.contents E.is_faulted read is_short
        gathering.old gathering.new home.old lender.old ahead.old front.old.sequencer home.new lender.new ahead.new front.new.sequencer) }
    ensures past { OnOk result (JobKeepsThrough E.device E.contents E.is_faulted remote (job_of home.old lender.old.value ahead.old) front.old.sequencer
        (job_of home.new lender.new.value ahead.new) front.new.sequencer) }
{
    let Some(job) = home.take() else {
        let closed = close_due_ahead(alloc, front, ahead, gathering, remote);
        return Ok(Tended {
            closed,
            job: JobCame::Away,
        });
    };
    let mut job = job;
    job.remote = remote;
    let closed = close_due(alloc, front, &mut job.back, gathering, remote, is_short);
    let has_room = job.groups.room() > 0;
    if !is_due(&job.back, has_room, remote, is_heard, is_short) {
        drop(home.replace(job));
        return Ok(Tended {
            closed,
            job: JobCame::Rests,
        });
    }
    if job.step_time.is_long {
        job.is_for_commits = is_commit_due(&job.back, has_room, remote);
        ahead.allow(&job.back, job.is_for_commits);
        lender.lend(job);
        waker.wake();
        return Ok(Tended {
            closed,
            job: JobCame::Lent,
        });
    }
    job.is_for_commits = false;
    let job = run_job(rt, alloc, job);
    let did = settle(front, &job);
    drop(home.replace(job));
    Ok(Tended {
        closed,
        job: JobCame::Stepped(did?),
    })
}

fn rest<R: Wait + Clock>(rt: &R, idle: &mut Idle, sleeper: &Sleeper, is_busy: bool) {
    if is_busy {
        idle.busy();
    } else {
        idle.wait(rt, sleeper);
    }
}
