//! What of a primary serves the connections.
ghost use Rattle.std.specs.Prelude.{◌≡◌, ◌≢◌, ℕ, ◌<◌, ◌++◌, ◌∷◌, ◌↔◌, [], List, length, false, true, Some, None, IfErr, OnOk, OnErr};
ghost use Rattle.extent_heap.specs.Room.{has_room};
ghost use Rattle.kv_types.specs.declared.item.Item.{Item};
ghost use Rattle.kv_types.specs.declared.place.EntryNo.{EntryNo};
ghost use Rattle.kv_types.specs.declared.place.Extent.{Extent};
ghost use Rattle.kv_types.specs.declared.reply.Held.{Held};
ghost use Rattle.kv_types.specs.declared.reply.Reply.{Reply};
ghost use Rattle.model.specs.declared.group.TheConstants.{MAX_PARTS};
ghost use Rattle.model.specs.declared.work.FreeList.{FreeList};
ghost use Rattle.model.specs.declared.work.Work.{Work};
ghost use Rattle.model.specs.Group.{Contents};
ghost use Rattle.multi_watch.specs.Session.{idle_session};
ghost use Rattle.placing.specs.Fill.{fill_of};
ghost use Rattle.redis_core.specs.Sequencing.{Expects, IsAheadOf, MovesSeat, TakesBack, is_closed};
ghost use Rattle.redis_core.specs.Turn.{Answers, OnServed, OnIdle, OnBlocked, OnGroupFull, OnEnded, OnUnserved};
ghost use Rattle.primary.specs.Leading.{KeepsLead};
ghost use Rattle.primary.specs.Recalling.{KeepsPast, Past, Recollects};
ghost use Rattle.primary.specs.Settled.{HasNothingOpen};

use kv_types::{Held, Item, Refusal};
use mv_keyspace::Keyspace;
use pipes::{Inlet, Outlet, Seat};
use placing::Fill;
use redis_core::{Sequencer, Turn};
use std::alloc::Global;
use wbl_engine::Freed;

/// A primary's sequencer. Whatever the committer has in hand meanwhile, each call leaves the sequencer ahead of it, if it was (`KeepsLead`).
#[derive(Drop)]
pub struct Front<K: Keyspace> {
    pub(crate) sequencer: Sequencer<K>,
}

impl<K: Keyspace> Front<K> {
    /// The position of the list of calls.
    pub fn position(&self) -> u64
        ensures { result ≡ (self.now.sequencer).position }
    {
        self.sequencer.position()
    }

    /// Whether so many entries are free, and so many extents of this many lines can be cut from what is free.
    pub fn has_room(&self, count: u64, lines: u64) -> bool
        requires { 0 < lines }
        ensures { result ≡ has_room count lines (self.now.sequencer).room }
    {
        self.sequencer.has_room(count, lines)
    }

    /// How many keys there are after all calls so far, and what of the heap is free then.
    pub fn fill(&self) -> Fill
        ensures { result ≡ fill_of (self.now.sequencer).table (self.now.sequencer).room }
    {
        self.sequencer.fill()
    }

    /// Whether something waits here that may make room: changes that wait for a group, and may have ended versions, or ended versions that wait to be
    /// listed.
    pub fn is_room_coming(&self) -> bool
        ensures { result ≡ false ↔ HasNothingOpen self.now.sequencer }
    {
        self.sequencer.has_open() | self.sequencer.has_ended()
    }

    /// How many versions that have ended wait to be listed.
    pub fn count_ended(&self) -> usize
        ensures { result ≡ length (self.now.sequencer).ended }
    {
        self.sequencer.count_ended()
    }

    /// Opens a seat for the connection that was given it, as `Sequencer::open_seat` does.
    ///
    /// # Errors
    ///
    /// Only `Memory`, and then nothing changed.
    pub fn open_seat(&mut self, alloc: Global, seat: &Seat) -> Result<(), Refusal>
        ensures ok { OnOk result (MovesSeat self.old.sequencer seat.now (Some idle_session) self.new.sequencer) }
        ensures cause { IfErr result (λ refusal. refusal ≡ Refusal.Memory) }
        ensures err { OnErr result (self.new ≡ self.old) }
        ensures stands { (contents : Contents) → IsAheadOf self.old.sequencer contents → IsAheadOf self.new.sequencer contents }
        ensures expects { (contents : Contents) (entries : List EntryNo) (extents : List Extent) → IsAheadOf self.old.sequencer contents
            → Expects self.old.sequencer contents entries extents → Expects self.new.sequencer contents entries extents }
        ensures keeps { KeepsLead self.old.sequencer self.new.sequencer }
        ensures recollects { Recollects self.old.sequencer self.new.sequencer }
    {
        self.sequencer.open_seat(alloc, seat)
    }

    /// Closes the seat of a connection that has left. It takes no memory.
    pub fn close_seat(&mut self, seat: &Seat)
        ensures closed { MovesSeat self.old.sequencer seat.now None self.new.sequencer }
        ensures stands { (contents : Contents) → IsAheadOf self.old.sequencer contents → IsAheadOf self.new.sequencer contents }
        ensures expects { (contents : Contents) (entries : List EntryNo) (extents : List Extent) → IsAheadOf self.old.sequencer contents
            → Expects self.old.sequencer contents entries extents → Expects self.new.sequencer contents entries extents }
        ensures keeps { KeepsLead self.old.sequencer self.new.sequencer }
        ensures recollects { Recollects self.old.sequencer self.new.sequencer }
    {
        self.sequencer.close_seat(seat);
    }

    /// Answers one item of a seat, if there is one and there is room for its reply, as `Sequencer::turn` does. It never waits.
    pub fn turn<I: Inlet<Item = Item>, O: Outlet<Item = Held>>(
        &mut self,
        alloc: Global,
        seat: &Seat,
        inlet: &mut I,
        outlet: &mut O,
    ) -> Turn
        requires { (held : Held) → O.may_offer outlet.old held }
        ensures served { OnServed result ((item : Item) × (reply : Reply) × I.take_gives inlet.old (Some item) inlet.new
            × (O.offered outlet.new ≡ O.offered outlet.old ++ record { reply = reply; position = (self.new.sequencer).position } ∷ [])
            × Answers self.old.sequencer seat.now item reply self.new.sequencer) }
        ensures idle { OnIdle result (I.take_gives inlet.old None inlet.new) }
        ensures blocked { OnBlocked result ((O.known_room outlet.old ≡ 0) × (inlet.new ≡ inlet.old)) }
        ensures group_full { OnGroupFull result ((length (self.old.sequencer).waiting ≡ MAX_PARTS) × (inlet.new ≡ inlet.old)) }
        ensures ended { OnEnded result ((is_closed self.old.sequencer seat.now ≡ true) × (inlet.new ≡ inlet.old)) }
        ensures unserved { OnUnserved result ((self.new.sequencer ≡ self.old.sequencer) × (O.offered outlet.new ≡ O.offered outlet.old)) }

        // Conversely, a turn is served only where the seat is open and the group not full, and always where room and an item are known too.
        ensures open { OnServed result ((is_closed self.old.sequencer seat.now ≡ false) × (length (self.old.sequencer).waiting < MAX_PARTS)) }
        ensures otherwise { is_closed self.old.sequencer seat.now ≡ false → length (self.old.sequencer).waiting < MAX_PARTS → 0 < O.known_room outlet.old
            → I.known_items inlet.old ≢ [] → result ≡ Turn.Served }
        ensures same { O.is_same outlet.old outlet.new }
        ensures stands { (contents : Contents) → IsAheadOf self.old.sequencer contents → IsAheadOf self.new.sequencer contents }
        ensures expects { (contents : Contents) (entries : List EntryNo) (extents : List Extent) → IsAheadOf self.old.sequencer contents
            → Expects self.old.sequencer contents entries extents → Expects self.new.sequencer contents entries extents }
        ensures keeps { KeepsLead self.old.sequencer self.new.sequencer }
        ensures recollects { Recollects self.old.sequencer self.new.sequencer }
    {
        self.sequencer.turn(alloc, seat, inlet, outlet)
    }

    /// What was freed on the image is free in the heap again. It takes no memory.
    pub fn take_back(&mut self, freed: &Freed)
        requires expected { (contents : Contents) × (rest : List EntryNo) × (others : List Extent) × IsAheadOf self.old.sequencer contents
            × Expects self.old.sequencer contents (freed.now.entries.items ++ rest) (freed.now.extents.items ++ others) }
        ensures back { TakesBack self.old.sequencer freed.now.entries.items freed.now.extents.items self.new.sequencer }
        ensures stands { (contents : Contents) (rest : List EntryNo) (others : List Extent) → IsAheadOf self.old.sequencer contents
            → Expects self.old.sequencer contents (freed.now.entries.items ++ rest) (freed.now.extents.items ++ others)
            → IsAheadOf self.new.sequencer contents × Expects self.new.sequencer contents rest others }
        ensures keeps { (low : ℕ) (past : Past) (contents : Contents) (items : List Work) (aside : List FreeList) → KeepsPast low past contents items aside self.old.sequencer
            → KeepsPast low past contents items aside self.new.sequencer }
    {
        self.sequencer.accept_freed(&freed.entries, &freed.extents);
    }
}
