//! The committer.
ghost use Rattle.std.specs.Prelude.{◌≡◌, ◌≢◌, ◌⊎◌, ◌↔◌, ◌∷◌, [], ◌<◌, Some, Ok, Err, true, false, nat_lt, IsTrue, List, length};
ghost use Rattle.model.specs.declared.group.Group.{Group};
ghost use Rattle.model.specs.declared.work.FreeList.{FreeList};
ghost use Rattle.model.specs.Group.{AreEnded};
ghost use Rattle.wbl_engine.specs.CommittingAll.{AreGroups};
ghost use Rattle.wbl_engine.specs.Contents.{IsDurable};
ghost use Rattle.group_commit.specs.Committing.{Commits, HasShown, in_hand, raised};
ghost use Rattle.group_commit.specs.Due.{due_now, has_group, left_by, reached_by};
ghost use Rattle.group_commit.specs.Working.{ClearsGap, FreesFirst, HandsFirst, IsLawful, LacksRoom, Takes, TakesGroups, entries_of_lists};

use crate::due::{Due, due_when_ready};
use crate::queue::{set_aside, take_groups};
use crate::stage::{Done, Stage};
use kv_types::Refusal;
use model::{FreeList, Group, Layout, Work};
use pipes::{LocalPipe, Outlet};
use pmem::Pmem;
use std::alloc::Global;
use std::collections::VecDeque;
use wbl_engine::{Committed, Durable};

/// Commits groups, all that wait at a time: each is durable before the local mark tells of it, and told of before it is handed on. Beside that it frees what
/// has ended, once the standby has passed the ends, and clears gaps.
#[derive(Drop)]
pub struct Committer<E> {
    pub(crate) engine: E,
    pub(crate) stage: Stage,
    // The position up to which this node told that everything is durable.
    pub(crate) local: u64,
    // Free lists that were taken from the queue, the oldest first. They wait for the standby.
    pub(crate) aside: VecDeque<FreeList>,
}

impl<E: Durable> Committer<E> {
    /// A committer over an engine. It may take a group, its local mark is at the engine's position, and no list stands aside. It takes no memory.
    pub fn new(alloc: Global, engine: E) -> Committer<E>
        ensures engine { result.engine ≡ engine }
        ensures stage { result.stage ≡ Stage.Ready }
        ensures local { result.local ≡ (E.contents engine).current.position }
        ensures aside { result.aside.items ≡ [] }
    {
        let local = engine.position();
        Committer {
            engine,
            stage: Stage::Ready,
            local,
            aside: VecDeque::new(alloc),
        }
    }

    /// How far it is with the groups in hand.
    pub fn stage(&self) -> &Stage
        ensures { result.now ≡ self.now.stage }
    {
        &self.stage
    }

    /// The position up to which everything is durable.
    pub fn position(&self) -> u64
        ensures { result ≡ (E.contents self.now.engine).current.position }
    {
        self.engine.position()
    }

    /// The position up to which everything is durable, as the engine established it.
    pub fn committed(&self) -> Committed
        requires { IsDurable (E.device self.now.engine) (E.contents self.now.engine) }
        ensures { result ≡ (E.contents self.now.engine).current.position }
    {
        self.engine.committed()
    }

    /// The layout of the engine's image.
    pub fn layout(&self) -> Layout
        ensures { result ≡ (E.contents self.now.engine).current.layout }
    {
        self.engine.record().layout
    }

    /// How many lines the engine's image has.
    pub fn lines(&self) -> u64
        ensures { result ≡ (E.contents self.now.engine).lines }
    {
        self.engine.lines()
    }

    /// The epoch of the engine's record.
    pub fn epoch(&self) -> u64
        ensures { result ≡ (E.contents self.now.engine).current.epoch }
    {
        self.engine.record().epoch
    }

    /// The floor of the engine's record: the position up to which what has ended may have been freed.
    pub fn floor(&self) -> u64
        ensures { result ≡ (E.contents self.now.engine).current.floor }
    {
        self.engine.record().floor
    }

    /// The local mark: the position up to which this node told that everything is durable.
    pub fn local(&self) -> u64
        ensures { result ≡ self.now.local }
    {
        self.local
    }

    /// Whether a free list stands aside.
    pub fn has_aside(&self) -> bool
        ensures { IsTrue result ↔ (self.now.aside.items ≢ []) }
    {
        !self.aside.is_empty()
    }

    /// Whether the engine's record has a gap.
    pub fn has_gap(&self) -> bool
        ensures some { IsTrue result ↔ ((E.contents self.now.engine).current.gaps.items ≢ []) }
        ensures counted { result ≡ nat_lt 0 (length (E.contents self.now.engine).current.gaps.items) }
    {
        !self.engine.record().gaps.is_empty()
    }

    /// Takes this engine for its own, and leaves its own in its place. What is in hand, what stands aside and the local mark stay: they are of the engine that was given away,
    /// until the other one is restarted.
    pub fn exchange_engine(&mut self, engine: &mut E)
        ensures taken { self.new.engine ≡ engine.old }
        ensures given { engine.new ≡ self.old.engine }
        ensures stage { self.new.stage ≡ self.old.stage }
        ensures local { self.new.local ≡ self.old.local }
        ensures aside { self.new.aside ≡ self.old.aside }
    {
        std::mem::swap(&mut self.engine, engine);
    }

    /// The engine's device, as it is.
    pub fn into_device(self) -> E::Device
        ensures { E.Device.state result ≡ E.device self.engine }
    {
        self.engine.into_device()
    }

    /// The step that the next turn takes, with this queue, where nothing comes until then; `has_room` is whether the link has room for a group, and `remote` the
    /// remote mark.
    pub fn due(&self, work: &LocalPipe<Work>, has_room: bool, remote: u64) -> Due
        ensures { result ≡ due_now E.contents self.now work.now has_room remote }
    {
        match &self.stage {
            Stage::Ready => due_when_ready(&self.aside, work, has_room, self.has_gap(), remote),
            Stage::Durable(_) => Due::Raise,
            Stage::Shown(_) => Due::Hand,
        }
    }

    /// Takes the one step that is due, and waits for nobody. `remote` is the remote mark: the position up to which everything is durable at the standby.
    ///
    /// Groups in hand are told of, and then handed on to the link, one at a time. With none in hand, the groups that wait are committed, as many as the link has
    /// room for; the free lists before and between them go aside. Where no group may be taken, the first free list that is reached is freed, if the standby has
    /// passed it, and the others go aside; where none is, the oldest gap is cleared.
    ///
    /// # Errors
    ///
    /// `Fault` where a fence failed, in this call or an earlier one, and then the engine refuses each later step. `Exhausted` where a counter would reach
    /// 2^62, and then the engine is as it was. Groups that were to be committed were taken either way. `Memory` where memory was refused: for what is taken, and
    /// then nothing changed, or for a list to be freed, which stays aside, or for a gap to be cleared; the engine is as it was.
    pub fn turn<O: Outlet<Item = Group>>(
        &mut self,
        alloc: Global,
        work: &mut LocalPipe<Work>,
        link: &mut O,
        remote: u64,
    ) -> Result<Done, Refusal>
        requires lawful { self.old.stage ≡ Stage.Ready → IsLawful (E.contents self.old.engine) self.old.aside.items work.old.items }
        requires shown { (group : Group) (rest : List Group) → in_hand self.old.stage ≡ group ∷ rest → O.may_offer link.old group }
        // the step that is due where the link has the room that it was found to have
        ensures takes { let has_room = nat_lt 0 (O.known_room link.new) in
            Takes E.device E.contents E.is_faulted O.offered O.known_room (due_now E.contents self.old work.old has_room remote) has_room remote
            self.old work.old link.old result self.new work.new link.new }
        ensures same { O.is_same link.old link.new }
        ensures asked_moment { (E.device self.new.engine).kept ≡ (E.device self.old.engine).kept }
    {
        match std::mem::replace(&mut self.stage, Stage::Ready) {
            Stage::Ready => self.do_next(alloc, work, link, remote),
            Stage::Durable(groups) => Ok(self.raise_local(groups)),
            Stage::Shown(groups) => Ok(self.hand(groups, link)),
        }
    }

    /// Takes the step that is due with nothing in hand.
    fn do_next<O: Outlet<Item = Group>>(
        &mut self,
        alloc: Global,
        work: &mut LocalPipe<Work>,
        link: &mut O,
        remote: u64,
    ) -> Result<Done, Refusal>
        requires ready { self.old.stage ≡ Stage.Ready }
        requires lawful { IsLawful (E.contents self.old.engine) self.old.aside.items work.old.items }
        ensures takes { let has_room = nat_lt 0 (O.known_room link.new) in
            Takes E.device E.contents E.is_faulted O.offered O.known_room (due_now E.contents self.old work.old has_room remote) has_room remote
            self.old work.old link.old result self.new work.new link.new }
        ensures same { O.is_same link.old link.new }
        ensures asked_moment { (E.device self.new.engine).kept ≡ (E.device self.old.engine).kept }
    {
        let room = link.room();
        let has_room = room > 0;
        match self.due(work, has_room, remote) {
            Due::Commit => self.commit_all(alloc, work, room, remote),
            Due::Free => self.free_reached(alloc, work, has_room),
            Due::Clear => self.clear_gap(alloc),
            Due::Raise | Due::Hand | Due::Nothing => Ok(Done::Idle),
        }
    }

    /// Takes the groups that wait, as many as there is room for at the link, and commits them. The free lists before and between them go aside.
    fn commit_all(
        &mut self,
        alloc: Global,
        work: &mut LocalPipe<Work>,
        room: usize,
        remote: u64,
    ) -> Result<Done, Refusal>
        requires ready { self.old.stage ≡ Stage.Ready }
        requires some { has_group work.old.items ≡ true }
        requires room { 0 < room }
        requires lawful { IsLawful (E.contents self.old.engine) self.old.aside.items work.old.items }
        ensures takes { TakesGroups E.device E.contents E.is_faulted room remote self.old work.old result self.new work.new
            ⊎ LacksRoom E.device E.contents E.is_faulted self.old work.old result self.new work.new }
        ensures asked_moment { (E.device self.new.engine).kept ≡ (E.device self.old.engine).kept }
    {
        let groups = take_groups(alloc, &mut self.aside, work, room)?;
        self.commit(groups, remote)
    }

    /// Commits groups, under records whose floor is this remote mark or higher: the standby has passed what ended up to there. They are in hand then.
    fn commit(&mut self, groups: Vec<Group>, remote: u64) -> Result<Done, Refusal>
        requires ready { self.old.stage ≡ Stage.Ready }
        requires lawful { AreGroups (E.contents self.old.engine) groups.items }
        ensures commits { Commits E.device E.contents E.is_faulted remote self.old groups.items result self.new }
        ensures aside { self.new.aside ≡ self.old.aside }
        ensures asked_moment { (E.device self.new.engine).kept ≡ (E.device self.old.engine).kept }
    {
        let committed = self.engine.commit_all(groups.as_slice(), remote)?;
        self.stage = Stage::Durable(VecDeque::from_vec(groups));
        Ok(Done::Committed(committed))
    }

    /// Sets aside what is reached, and frees the first of it.
    fn free_reached(
        &mut self,
        alloc: Global,
        work: &mut LocalPipe<Work>,
        has_room: bool,
    ) -> Result<Done, Refusal>
        requires ready { self.old.stage ≡ Stage.Ready }
        requires lawful { IsLawful (E.contents self.old.engine) self.old.aside.items work.old.items }
        requires none { has_room ≡ true → has_group work.old.items ≡ false }
        ensures frees { (list : FreeList) (rest : List FreeList) → reached_by has_room self.old.aside.items work.old.items ≡ list ∷ rest
            → ((work.new.items ≡ left_by has_room work.old.items) × FreesFirst E.device E.contents E.is_faulted self.old list rest result self.new)
            ⊎ LacksRoom E.device E.contents E.is_faulted self.old work.old result self.new work.new }
        ensures asked_moment { (E.device self.new.engine).kept ≡ (E.device self.old.engine).kept }
    {
        if !has_room {
            return self.free_first(alloc);
        }
        set_aside(&mut self.aside, work)?;
        self.free_first(alloc)
    }

    /// Frees the oldest list aside, under a record whose floor is the list's position or higher: that of a commit since, or one for it alone.
    fn free_first(&mut self, alloc: Global) -> Result<Done, Refusal>
        requires ready { self.old.stage ≡ Stage.Ready }
        requires lawful { AreEnded (E.contents self.old.engine) (entries_of_lists self.old.aside.items) }
        ensures frees { (list : FreeList) (rest : List FreeList) → self.old.aside.items ≡ list ∷ rest → FreesFirst E.device E.contents E.is_faulted self.old list rest result self.new }
        ensures asked_moment { (E.device self.new.engine).kept ≡ (E.device self.old.engine).kept }
    {
        let Some(list) = self.aside.front() else {
            return Ok(Done::Idle);
        };
        let freed = self.engine.free(alloc, &list.entries, list.position)?;
        let _ = self.aside.pop_front();
        Ok(Done::Freed(freed))
    }

    /// Clears the oldest gap of the record.
    fn clear_gap(&mut self, alloc: Global) -> Result<Done, Refusal>
        requires ready { self.old.stage ≡ Stage.Ready }
        requires alone { self.old.aside.items ≡ [] }
        requires some { 0 < length (E.contents self.old.engine).current.gaps.items }
        ensures clears { ClearsGap E.device E.contents E.is_faulted self.old result self.new }
        ensures asked_moment { (E.device self.new.engine).kept ≡ (E.device self.old.engine).kept }
    {
        let cleared = self.engine.clear_gap(alloc)?;
        Ok(Done::Cleared(cleared))
    }

    /// Raises the local mark to the engine's position, which the groups in hand led to.
    fn raise_local(&mut self, groups: VecDeque<Group>) -> Done
        ensures value { result ≡ Done.Raised }
        ensures raised { self.new ≡ raised E.device E.contents E.is_faulted groups self.old }
    {
        self.local = self.engine.position();
        self.stage = Stage::Shown(groups);
        Done::Raised
    }

    /// Hands the first of these groups on to the link, and keeps the others in hand. Where the link has no room all stay in hand.
    fn hand<O: Outlet<Item = Group>>(&mut self, groups: VecDeque<Group>, link: &mut O) -> Done
        requires ready { self.old.stage ≡ Stage.Ready }
        requires may { (group : Group) (rest : List Group) → groups.items ≡ group ∷ rest → O.may_offer link.old group }
        ensures handed { HandsFirst E.device E.contents E.is_faulted O.offered O.known_room groups.items self.old link.old (Ok result) self.new link.new
            ⊎ ((result ≡ Done.Idle) × (self.new ≡ record self.old { stage = Stage.Shown groups }) × (O.known_room link.old ≡ 0) × (O.offered link.new ≡ O.offered link.old))
            ⊎ ((groups.items ≡ []) × (result ≡ Done.Idle) × (self.new ≡ self.old) × (O.offered link.new ≡ O.offered link.old)) }
        ensures same { O.is_same link.old link.new }
    {
        let mut groups = groups;
        if link.room() == 0 {
            self.stage = Stage::Shown(groups);
            return Done::Idle;
        }
        let Some(group) = groups.pop_front() else {
            return Done::Idle;
        };
        let Ok(()) = link.offer(group) else {
            unreachable!();
        };
        self.stage = shown(groups);
        Done::Handed
    }
}

/// The stage with these groups left to be handed on.
fn shown(groups: VecDeque<Group>) -> Stage
    ensures { HasShown groups.items result }
{
    if groups.is_empty() {
        return Stage::Ready;
    }
    Stage::Shown(groups)
}
