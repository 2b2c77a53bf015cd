//! What of a primary commits.
ghost use Rattle.std.specs.Prelude.{◌≡◌, ◌⊎◌, ◌↔◌, ◌≤◌, ◌+◌, ◌-◌, ◌++◌, ◌==◌, if◌then◌else◌, false, true, length, nat_lt, ℕ, List, [], None, Some, IfOk, IsErrOf, OnOk};
ghost use Rattle.pmem.specs.Device.{moment, newest_at};
ghost use Rattle.pmem.specs.Device.Fences.{Sure};
ghost use Rattle.pmem.specs.Crash.{IsImage, IsSettled, Keeps, MayLeave, image_of, picked, words_to_crash};
ghost use Rattle.pmem.specs.Runs.{LeavesOnly};
ghost use Rattle.pipes.specs.declared.limits.TheConstants.{PIPE_ITEMS};
ghost use Rattle.model.specs.declared.group.Group.{Group};
ghost use Rattle.model.specs.declared.image.TheConstants.{MAX_LINES, MIN_LINES};
ghost use Rattle.model.specs.declared.record.Record.{Record as CommitRecord};
ghost use Rattle.wbl_engine.specs.Lawful.{IsUndamaged};
ghost use Rattle.wbl_engine.specs.declared.freeing.Freed.{Freed};
ghost use Rattle.redis_core.specs.Sequencing.{Sequencing};
ghost use Rattle.group_commit.specs.Due.{due_now};
ghost use Rattle.group_commit.specs.Working.{Takes};
ghost use Rattle.group_commit.specs.declared.stage.Done.TheVariants as done;
ghost use Rattle.primary.specs.Recalling.{BackKeeps, ImageRecalls, Past};
ghost use Rattle.primary.specs.Settled.{HasNothingInHand};
ghost use Rattle.primary.specs.Standing.{BackStands, notices_of, position_after};

use group_commit::{Committer, Done, Due};
use kv_types::Refusal;
use model::{Group, Record, Work};
use pipes::{LocalPipe, Outlet, PIPE_ITEMS};
use std::alloc::Global;
use wbl_engine::{Committed, Durable, Restarting};

/// A primary's committer, and the queue of what it is to do.
#[derive(Drop)]
pub struct Back<E> {
    pub(crate) work: LocalPipe<Work>,
    pub(crate) committer: Committer<E>,
}

impl<E: Durable> Back<E> {
    /// The position up to which everything is durable on this node.
    pub fn position(&self) -> u64
        ensures { result ≡ (E.contents self.now.committer.engine).current.position }
    {
        self.committer.position()
    }

    /// The local mark: the position up to which this node told that everything is durable.
    pub fn local(&self) -> u64
        ensures { result ≡ self.now.committer.local }
    {
        self.committer.local()
    }

    /// The position up to which everything is durable on this node, as its engine established it.
    pub fn committed(&self) -> Committed
        requires { (s : Sequencing) × BackStands E.device E.contents self.now s [] }
        ensures { result ≡ (E.contents self.now.committer.engine).current.position }
    {
        self.committer.committed()
    }

    /// The epoch of its record: which primary of the pair it is.
    pub fn epoch(&self) -> u64
        ensures { result ≡ (E.contents self.now.committer.engine).current.epoch }
    {
        self.committer.epoch()
    }

    /// The floor of its record: the position up to which what has ended may have been freed.
    pub fn floor(&self) -> u64
        ensures { result ≡ (E.contents self.now.committer.engine).current.floor }
    {
        self.committer.floor()
    }

    /// Whether something is in hand that may make room: groups and free lists that wait for the committer, lists that stand aside, gaps.
    pub fn is_room_coming(&self) -> bool
        ensures { result ≡ false ↔ HasNothingInHand (E.contents self.now.committer.engine) self.now.work.items self.now.committer.aside.items }
    {
        let is_queued = !self.work.is_empty();
        let is_kept = self.committer.has_aside() | self.committer.has_gap();
        is_queued | is_kept
    }

    /// How many more items find room in its queue.
    pub fn room(&self) -> usize
        ensures { result ≡ PIPE_ITEMS - length self.now.work.items }
    {
        PIPE_ITEMS - self.work.len()
    }

    /// The step that the next call of `commit` takes, where nothing comes until then; `has_room` is whether the link has room for a group.
    pub fn due(&self, has_room: bool, remote: u64) -> Due
        ensures { result ≡ due_now E.contents self.now.committer self.now.work has_room remote }
    {
        self.committer.due(&self.work, has_room, remote)
    }

    /// Takes the step of the committer that is due, as `Committer::turn` does. Whatever sequencer is ahead of this before, once it is told of what was freed,
    /// is so after it, once it is told of what the step freed too. The engine's position moves by a commit alone, and never falls.
    ///
    /// # Errors
    ///
    /// As at `Committer::turn`. After `Memory` the step can be taken again.
    pub fn commit<O: Outlet<Item = Group>>(
        &mut self,
        alloc: Global,
        link: &mut O,
        remote: u64,
    ) -> Result<Done, Refusal>
        requires stands { (s : Sequencing) × (notices : List Freed) × BackStands E.device E.contents self.old s notices }
        requires may { (group : Group) → O.may_offer link.old group }
        ensures takes { let has_room = nat_lt 0 (O.known_room link.new) in
            Takes E.device E.contents E.is_faulted O.offered O.known_room (due_now E.contents self.old.committer self.old.work has_room remote) has_room remote
            self.old.committer self.old.work link.old result self.new.committer self.new.work link.new }
        ensures told { IfOk result (λ came. (s : Sequencing) (notices : List Freed) → BackStands E.device E.contents self.old s notices
            → BackStands E.device E.contents self.new s (notices ++ notices_of came)) }
        ensures again { IsErrOf result Refusal.Memory → (s : Sequencing) (notices : List Freed)
            → BackStands E.device E.contents self.old s notices → BackStands E.device E.contents self.new s notices }
        ensures position { IfOk result (λ came. (E.contents self.new.committer.engine).current.position
            ≡ position_after came (E.contents self.old.committer.engine).current.position) }
        ensures rises { IfOk result (λ _. (E.contents self.old.committer.engine).current.position ≤ (E.contents self.new.committer.engine).current.position) }
        ensures stays { IsErrOf result Refusal.Memory → (E.contents self.new.committer.engine).current.position ≡ (E.contents self.old.committer.engine).current.position }
        // no fence failed where it answers, and where memory was refused nothing was done to the engine
        ensures sound { OnOk result (E.is_faulted self.old.committer.engine ≡ false → E.is_faulted self.new.committer.engine ≡ false) }
        ensures unmoved { IsErrOf result Refusal.Memory → self.new.committer.engine ≡ self.old.committer.engine }
        // what it says to be durable is
        ensures committed { IfOk result (λ came. (position : ℕ) → came ≡ done.Committed position → position ≡ (E.contents self.new.committer.engine).current.position) }
        // what is recalled of the past from the record's floor on stays so
        ensures keeps { IfOk result (λ _. (s : Sequencing) (notices : List Freed) (past : Past) → BackStands E.device E.contents self.old s notices
            → BackKeeps E.contents past self.old s → BackKeeps E.contents past self.new s) }
        ensures still { IsErrOf result Refusal.Memory → (s : Sequencing) (notices : List Freed) (past : Past) → BackStands E.device E.contents self.old s notices
            → BackKeeps E.contents past self.old s → BackKeeps E.contents past self.new s }
        ensures asked_moment { (E.device self.new.committer.engine).kept ≡ (E.device self.old.committer.engine).kept }
        // and at any moment of the step a crash leaves an image that recalls it, whatever it comes to
        ensures leaves { E.is_faulted self.old.committer.engine ≡ false → (s : Sequencing) (notices : List Freed) (past : Past)
            → BackStands E.device E.contents self.old s notices → BackKeeps E.contents past self.old s
            → LeavesOnly (E.device self.old.committer.engine) (E.device self.new.committer.engine) (ImageRecalls past) }
        ensures same { O.is_same link.old link.new }
    {
        self.committer.turn(alloc, &mut self.work, link, remote)
    }

    /// Takes this engine for its own, as `Committer::exchange_engine` does, and leaves its own in its place. The primary is to be restarted then.
    pub fn exchange_engine(&mut self, engine: &mut E)
        ensures taken { self.new.committer.engine ≡ engine.old }
        ensures given { engine.new ≡ self.old.committer.engine }
        ensures work { self.new.work ≡ self.old.work }
    {
        self.committer.exchange_engine(engine);
    }

    /// The engine's device, unchanged. What waits is dropped: this primary does nothing more.
    pub fn into_device(self) -> E::Device
        ensures { E.Device.state result ≡ E.device self.committer.engine }
    {
        self.committer.into_device()
    }
}

impl<E: Restarting> Back<E> {
    /// Crashes the engine's device now, as `Committer::crash` does. The engine is faulted until the primary is restarted, and what waits or is in hand
    /// stays until then.
    pub fn crash(&mut self, picks: &[u64])
        ensures settled { IsSettled (E.device self.new.committer.engine).words }
        ensures image { IsImage (E.device self.old.committer.engine).words (image_of (E.device self.new.committer.engine).words) }
        // where the device had the memory to do so
        ensures picked { (E.device self.new.committer.engine).starved ≡ false
            → (word : ℕ) → newest_at (E.device self.new.committer.engine) word ≡ picked (E.device self.old.committer.engine).words picks.now word }
        ensures lines { (E.device self.new.committer.engine).lines ≡ (E.device self.old.committer.engine).lines }
        ensures failures { (E.device self.new.committer.engine).failures ≡ (E.device self.old.committer.engine).failures }
        ensures faulted { E.is_faulted self.new.committer.engine ≡ true }
        ensures moments { LeavesOnly (E.device self.old.committer.engine) (E.device self.new.committer.engine) (IsImage (E.device self.old.committer.engine).words) }
        ensures stage { self.new.committer.stage ≡ self.old.committer.stage }
        ensures local { self.new.committer.local ≡ self.old.committer.local }
        ensures aside { self.new.committer.aside ≡ self.old.committer.aside }
        ensures work { self.new.work ≡ self.old.work }
        // what is left recalls what was remembered
        ensures recalls { (s : Sequencing) (notices : List Freed) (past : Past) → BackStands E.device E.contents self.old s notices
            → BackKeeps E.contents past self.old s → ImageRecalls past (image_of (E.device self.new.committer.engine).words) }
    {
        self.committer.crash(picks);
    }

    /// Makes the n-th fence of the engine's device from now fail, counted from 1; this replaces an earlier request. With 0 no fence is asked to fail.
    pub fn fail_at(&mut self, n: u64)
        ensures asked { E.device self.new.committer.engine ≡ record (E.device self.old.committer.engine) { fences = Sure (if n == 0 then None else Some n) } }
        ensures contents { E.contents self.new.committer.engine ≡ E.contents self.old.committer.engine }
        ensures faulted { E.is_faulted self.new.committer.engine ≡ E.is_faulted self.old.committer.engine }
        ensures stage { self.new.committer.stage ≡ self.old.committer.stage }
        ensures local { self.new.committer.local ≡ self.old.committer.local }
        ensures aside { self.new.committer.aside ≡ self.old.committer.aside }
        ensures work { self.new.work ≡ self.old.work }
    {
        self.committer.fail_at(n);
    }

    /// Makes the next `crash_kept` pick from the candidates of the engine's device as they will be after `k` more calls of it, if that many are made; this
    /// replaces an earlier request. If there is no memory for the copy, the device is starved.
    pub fn keep_at(&mut self, k: u64)
        ensures keeps { Keeps (E.device self.old.committer.engine) (E.device self.new.committer.engine) (moment (E.device self.old.committer.engine) + k) }
        ensures contents { E.contents self.new.committer.engine ≡ E.contents self.old.committer.engine }
        ensures faulted { E.is_faulted self.new.committer.engine ≡ E.is_faulted self.old.committer.engine }
        ensures stage { self.new.committer.stage ≡ self.old.committer.stage }
        ensures local { self.new.committer.local ≡ self.old.committer.local }
        ensures aside { self.new.committer.aside ≡ self.old.committer.aside }
        ensures work { self.new.work ≡ self.old.work }
    {
        self.committer.keep_at(k);
    }

    /// Crashes the engine's device as of the moment that it was asked to keep, as `Restarting::crash_kept` does. The engine is faulted until the primary is
    /// restarted. What
    /// waits or is in hand stays until then.
    pub fn crash_kept(&mut self, picks: &[u64])
        ensures settled { IsSettled (E.device self.new.committer.engine).words }
        // an image of that moment, or of a later one
        ensures left { (t : ℕ) → (E.device self.old.committer.engine).kept ≡ Some t → MayLeave (E.device self.old.committer.engine) t (image_of (E.device self.new.committer.engine).words) }
        ensures unkept { (E.device self.old.committer.engine).kept ≡ None → IsImage (E.device self.old.committer.engine).words (image_of (E.device self.new.committer.engine).words) }
        // where the device had the memory to do so
        ensures picked { (E.device self.new.committer.engine).starved ≡ false → (word : ℕ)
            → newest_at (E.device self.new.committer.engine) word ≡ picked (words_to_crash (E.device self.old.committer.engine) (E.device self.old.committer.engine).kept) picks.now word }
        ensures lines { (E.device self.new.committer.engine).lines ≡ (E.device self.old.committer.engine).lines }
        ensures failures { (E.device self.new.committer.engine).failures ≡ (E.device self.old.committer.engine).failures }
        ensures fences { (E.device self.new.committer.engine).fences ≡ (E.device self.old.committer.engine).fences }
        ensures forgotten { (E.device self.new.committer.engine).kept ≡ None }
        ensures faulted { E.is_faulted self.new.committer.engine ≡ true }
        // what could be left now may be, and then what was
        ensures moments { LeavesOnly (E.device self.old.committer.engine) (E.device self.new.committer.engine)
            (λ image. IsImage (E.device self.old.committer.engine).words image ⊎ (image ≡ image_of (E.device self.new.committer.engine).words)) }
        ensures stage { self.new.committer.stage ≡ self.old.committer.stage }
        ensures local { self.new.committer.local ≡ self.old.committer.local }
        ensures aside { self.new.committer.aside ≡ self.old.committer.aside }
        ensures work { self.new.work ≡ self.old.work }
    {
        self.committer.crash_kept(picks);
    }

    /// The record of the image, as loads return it; none where the image has none that obeys the rules.
    pub fn image_record(&self) -> Option<Record>
        ensures { (r : CommitRecord) → MIN_LINES ≤ (E.device self.now.committer.engine).lines → (E.device self.now.committer.engine).lines ≤ MAX_LINES
            → IsUndamaged (E.device self.now.committer.engine).lines r (image_of (E.device self.now.committer.engine).words) → result ≡ Some r }
    {
        self.committer.image_record()
    }
}
