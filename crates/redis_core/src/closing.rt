//! What the sequencer hands out: groups of what calls changed, and free lists of what they ended.
ghost use Rattle.std.specs.Prelude.{◌≡◌, ◌≢◌, ◌↔◌, ◌⊎◌, ◌++◌, ◌∷◌, [], List, length, IsTrue, IfErr, IsErrOf, OnOk, OnErr};
ghost use Rattle.kv_types.specs.declared.place.EntryNo.{EntryNo};
ghost use Rattle.kv_types.specs.declared.place.Extent.{Extent};
ghost use Rattle.model.specs.declared.group.Group.{Group};
ghost use Rattle.model.specs.declared.work.FreeList.{FreeList};
ghost use Rattle.model.specs.Group.{Contents};
ghost use Rattle.redis_core.specs.Sequencing.{Expects, HandsList, HandsOut, IsAheadOf, LeadsOn, Sequencing};

use crate::listing::list_ended;
use crate::sequencer::Sequencer;
use kv_types::Refusal;
use model::{FreeList, Group, MAX_PARTS, Work};
use mv_keyspace::Keyspace;
use pipes::Outlet;
use std::alloc::Global;

impl<K: Keyspace> Sequencer<K> {
    /// Hands out all parts that wait, as one group of the sequencer's epoch, and lists what they ended.
    ///
    /// # Errors
    ///
    /// `PipeFull` where there was no known room, `Memory` where a growth was refused. The parts keep waiting.
    pub fn close_group<G: Outlet<Item = Work>>(
        &mut self,
        alloc: Global,
        outlet: &mut G,
    ) -> Result<(), Refusal>
        requires some { (self.old).waiting ≢ [] }
        requires may { (group : Group) (new : Sequencing) → HandsOut self.old group new → LeadsOn self.old group new → G.may_offer outlet.old (Work.Commit group) }
        ensures ok { OnOk result ((group : Group) × (G.offered outlet.new ≡ G.offered outlet.old ++ Work.Commit group ∷ [])
            × HandsOut self.old group self.new × LeadsOn self.old group self.new) }
        ensures err { OnErr result ((self.new ≡ self.old) × (G.offered outlet.new ≡ G.offered outlet.old)) }
        ensures causes { IfErr result (λ refusal. (refusal ≡ Refusal.PipeFull) ⊎ (refusal ≡ Refusal.Memory)) }
        ensures full_only { IsErrOf result Refusal.PipeFull → G.known_room outlet.old ≡ 0 }
        ensures same { G.is_same outlet.old outlet.new }
    {
        if outlet.room() == 0 {
            return Err(Refusal::PipeFull);
        }
        let empty = Vec::with_capacity(alloc, MAX_PARTS)?;
        list_ended(&mut self.listed, &self.waiting)?;
        let parts = std::mem::replace(&mut self.waiting, empty);
        let before = std::mem::replace(&mut self.before, self.position);
        let group = Group {
            epoch: self.epoch,
            before,
            parts,
        };
        match outlet.offer(Work::Commit(group)) {
            Ok(()) => Ok(()),
            Err(_) => unreachable!(),
        }
    }

    /// Whether entries of ended versions are in no free list yet.
    pub fn has_ended(&self) -> bool
        ensures { IsTrue result ↔ ((self.now).ended ≢ []) }
    {
        !self.listed.entries.is_empty()
    }

    /// How many entries of ended versions are in no free list yet.
    pub fn count_ended(&self) -> usize
        ensures { result ≡ length (self.now).ended }
    {
        self.listed.entries.len()
    }

    /// Hands out the entries of ended versions that are in no free list yet, as one free list. It takes no memory.
    ///
    /// # Errors
    ///
    /// Only `PipeFull`, where there was no known room. Nothing has changed then.
    pub fn close_list<W: Outlet<Item = Work>>(
        &mut self,
        alloc: Global,
        outlet: &mut W,
    ) -> Result<(), Refusal>
        requires some { (self.old).ended ≢ [] }
        requires may { (list : FreeList) (new : Sequencing) → HandsList self.old list new → W.may_offer outlet.old (Work.Free list) }
        ensures ok { OnOk result ((list : FreeList) × (W.offered outlet.new ≡ W.offered outlet.old ++ Work.Free list ∷ []) × HandsList self.old list self.new) }
        ensures err { OnErr result ((self.new ≡ self.old) × (W.offered outlet.new ≡ W.offered outlet.old)) }
        ensures cause { IfErr result (λ refusal. refusal ≡ Refusal.PipeFull) }
        ensures full_only { IsErrOf result Refusal.PipeFull → W.known_room outlet.old ≡ 0 }
        ensures same { W.is_same outlet.old outlet.new }
        ensures stands { (contents : Contents) → IsAheadOf self.old contents → IsAheadOf self.new contents }
        ensures expects { (contents : Contents) (entries : List EntryNo) (extents : List Extent) → Expects self.old contents entries extents → Expects self.new contents entries extents }
    {
        if outlet.room() == 0 {
            return Err(Refusal::PipeFull);
        }
        let entries = std::mem::replace(&mut self.listed.entries, Vec::new(alloc));
        let list = FreeList {
            position: self.listed.position,
            entries,
        };
        match outlet.offer(Work::Free(list)) {
            Ok(()) => Ok(()),
            Err(_) => unreachable!(),
        }
    }
}
