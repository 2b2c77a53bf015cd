//! The sequencer: one list of calls for all seats, and the groups of what they changed.
ghost use Rattle.std.specs.Prelude.{◌≡◌, ◌≢◌, ◌+◌, ◌<◌, ◌≤◌, ◌↔◌, ◌⊎◌, ◌++◌, ◌∷◌, [], List, true, false, length, vec_capacity, vec_len, replicate, Some, None, IsTrue, IfOk, IfErr, IsErrOf, OnOk, OnErr};
ghost use Rattle.extent_heap.specs.Room.{has_room};
ghost use Rattle.kv_types.specs.declared.item.Item.{Item};
ghost use Rattle.kv_types.specs.declared.reply.Held.{Held};
ghost use Rattle.kv_types.specs.declared.place.EntryNo.{EntryNo};
ghost use Rattle.kv_types.specs.declared.place.Extent.{Extent};
ghost use Rattle.kv_types.specs.declared.reply.Reply.{Reply, Array};
ghost use Rattle.multi_watch.specs.Session.{idle_session};
ghost use Rattle.multi_watch.specs.Admission.{act_now};
ghost use Rattle.multi_watch.specs.Sessions.{HasRoom};
ghost use Rattle.model.specs.Call.{full_reply, memory_reply};
ghost use Rattle.model.specs.Command as meaning;
ghost use Rattle.model.specs.Group.{Contents};
ghost use Rattle.mv_keyspace.specs.Table.{records};
ghost use Rattle.placing.specs.Back.{HasOut};
ghost use Rattle.placing.specs.Fill.{fill_of};
ghost use Rattle.placing.specs.Left.{IsBeside};
ghost use Rattle.placing.specs.Place.{HasRoomFor};
ghost use Rattle.redis_core.specs.Sequencing.{Expects, IsAheadOf, MovesSeat, TakesBack, Underlies, is_closed, starts};
ghost use Rattle.redis_core.specs.Serving.{Acts, AnswersRequest, Finishes, RefusesMemory, Runs};
ghost use Rattle.redis_core.specs.Turn.{Answers, MayTell, OnServed, OnIdle, OnBlocked, OnGroupFull, OnEnded, OnUnserved};

use crate::error::{memory_reply, refusal_reply};
use crate::seats::Seats;
use crate::store::Store;
use crate::turn::Turn;
use kv_types::{EntryNo, Extent, Held, Item, Listed, ProtocolFault, Refusal, Reply, Request};
use model::{COUNTER_LIMIT, FreeList, MAX_PARTS, Part, closes};
use multi_watch::Act;
use mv_keyspace::Keyspace;
use pipes::{Inlet, MAX_SEATS, Outlet, Seat};
use placing::{Fill, Rebuilt};
use std::alloc::Global;
use std::hash::RandomState;
use std::marker::Model;

/// Turns what each seat asks into calls of one list, one per turn, and keeps what they changed until a group takes it.
///
/// It runs ahead of the engine: its keyspace and its heap are those after the parts that wait, which no commit has seen yet. A clause sees a
/// `Sequencing`.
#[derive(Drop)]
pub struct Sequencer<K: Keyspace> {
    pub(crate) store: Store<K>,
    pub(crate) position: u64,
    // Of each group that it hands out.
    pub(crate) epoch: u64,
    pub(crate) before: u64,
    pub(crate) waiting: Vec<Part>,
    // What groups that were handed out ended, and what had ended before.
    pub(crate) listed: FreeList,
}

impl<K: Keyspace> Model for Sequencer<K> {
    ghost use Rattle.std.specs.Prelude.{vec_capacity};
    ghost use Rattle.redis_core.specs.Keeping.{IsReady};
    ghost use Rattle.redis_core.specs.Sequencing.{Sequencing};

    ghost Value = { Sequencing };

    ghost view = { λ s. record {
      table = s.store.table;
      room = s.store.room;
      position = s.position;
      epoch = s.epoch;
      before = s.before;
      waiting = s.waiting.items;
      ended = s.listed.entries.items;
      newest = s.listed.position;
      sessions = s.store.sessions;
      copy = s.store.copy;
    } };

    ghost invariant = { λ s. IsReady s.position s.waiting.items (vec_capacity s.waiting) s.store.copy s.store.last };
}

impl<K: Keyspace + Drop> Sequencer<K> {
    /// A sequencer over a keyspace at this position of the list, with a heap of what is free beside it and the entries of versions that have ended,
    /// whose groups are of this epoch. All seats are closed, nothing waits, and no copy was begun. Watched keys are hashed with `hash_builder`, on which nothing that is
    /// promised depends.
    ///
    /// # Errors
    ///
    /// `Exhausted` where the position is no number of a change, `Memory` where a growth was refused.
    pub fn new(
        alloc: Global,
        keyspace: K,
        room: Rebuilt,
        position: u64,
        epoch: u64,
        hash_builder: RandomState,
    ) -> Result<Sequencer<K>, Refusal>
        requires beside { IsBeside (K.table keyspace) room.heap }
        requires unpinned { K.pins keyspace ≡ [] }
        requires last { K.last keyspace ≤ position }
        ensures ok { IfOk result (λ s. s ≡ starts (K.table keyspace) room.heap room.ended.items position epoch (replicate MAX_SEATS None)) }
        ensures stands { IfOk result (λ s. (contents : Contents) → Underlies contents (K.table keyspace) room.heap position epoch → IsAheadOf s contents) }
        ensures expects { IfOk result (λ s. (contents : Contents) → HasOut contents room.heap 0 → Expects s contents [] []) }
        ensures causes { IfErr result (λ refusal. (refusal ≡ Refusal.Exhausted) ⊎ (refusal ≡ Refusal.Memory)) }
        ensures exhausted_only { IsErrOf result Refusal.Exhausted ↔ (COUNTER_LIMIT ≤ position) }
    {
        if position >= COUNTER_LIMIT {
            return Err(Refusal::Exhausted);
        }
        let waiting = Vec::with_capacity(alloc, MAX_PARTS)?;
        let seats = Seats::new(alloc, hash_builder)?;
        Ok(Sequencer {
            store: Store::new(keyspace, room.heap, seats),
            position,
            epoch,
            before: position,
            waiting,
            listed: FreeList {
                position,
                entries: room.ended,
            },
        })
    }
}

impl<K: Keyspace> Sequencer<K> {
    /// Whether a changing command waits for a group.
    pub fn has_open(&self) -> bool
        ensures { IsTrue result ↔ ((self.now).waiting ≢ []) }
    {
        !self.waiting.is_empty()
    }

    /// Whether so many entries are free, and so many extents of this many lines can be cut from what is free.
    pub fn has_room(&self, count: u64, lines: u64) -> bool
        requires { 0 < lines }
        ensures { result ≡ has_room count lines (self.now).room }
    {
        self.store.has_room(count, lines)
    }

    /// How many keys there are after all calls so far, and what of the heap is free then.
    pub fn fill(&self) -> Fill
        ensures { result ≡ fill_of (self.now).table (self.now).room }
    {
        self.store.fill()
    }

    /// The position of the list of calls: how many of them changed something.
    pub fn position(&self) -> u64
        ensures { result ≡ (self.now).position }
    {
        self.position
    }

    /// Opens a seat for the connection that was given it, with an idle session, whatever the connection before left there.
    ///
    /// # Errors
    ///
    /// Only `Memory`. Nothing has changed then.
    pub fn open_seat(&mut self, alloc: Global, seat: &Seat) -> Result<(), Refusal>
        ensures ok { OnOk result (MovesSeat self.old seat.now (Some idle_session) self.new) }
        ensures cause { IfErr result (λ refusal. refusal ≡ Refusal.Memory) }
        ensures err { OnErr result (self.new ≡ self.old) }
        ensures stands { (contents : Contents) → IsAheadOf self.old contents → IsAheadOf self.new contents }
        ensures expects { (contents : Contents) (entries : List EntryNo) (extents : List Extent) → IsAheadOf self.old contents
            → Expects self.old contents entries extents → Expects self.new contents entries extents }
    {
        self.store.open(alloc, seat)
    }

    /// Closes the seat of a connection that has left: its queue and its watches are gone. It takes no memory.
    pub fn close_seat(&mut self, seat: &Seat)
        ensures closed { MovesSeat self.old seat.now None self.new }
        ensures stands { (contents : Contents) → IsAheadOf self.old contents → IsAheadOf self.new contents }
        ensures expects { (contents : Contents) (entries : List EntryNo) (extents : List Extent) → IsAheadOf self.old contents
            → Expects self.old contents entries extents → Expects self.new contents entries extents }
    {
        self.store.close(seat);
    }

    /// Answers one item of a seat, if there is one and there is room for its reply. It never waits.
    ///
    /// `Served` is one legal entry of the list, whose reply bears the list's position after it. Its replies `ERR out of memory` and
    /// `ERR store is full` leave keyspace, heap and position as they were; the second comes only where the heap has no room for the command's puts.
    pub fn turn<I: Inlet<Item = Item>, O: Outlet<Item = Held>>(
        &mut self,
        alloc: Global,
        seat: &Seat,
        inlet: &mut I,
        outlet: &mut O,
    ) -> Turn
        requires { (held : Held) → O.may_offer outlet.old held }
        ensures served { OnServed result ((item : Item) × (reply : Reply) × I.take_gives inlet.old (Some item) inlet.new
            × (O.offered outlet.new ≡ O.offered outlet.old ++ record { reply = reply; position = (self.new).position } ∷ [])
            × Answers self.old seat.now item reply self.new) }
        ensures idle { OnIdle result (I.take_gives inlet.old None inlet.new) }
        ensures blocked { OnBlocked result ((O.known_room outlet.old ≡ 0) × (inlet.new ≡ inlet.old)) }
        ensures group_full { OnGroupFull result ((length (self.old).waiting ≡ MAX_PARTS) × (inlet.new ≡ inlet.old)) }
        ensures ended { OnEnded result ((is_closed self.old seat.now ≡ true) × (inlet.new ≡ inlet.old)) }
        ensures unserved { OnUnserved result ((self.new ≡ self.old) × (O.offered outlet.new ≡ O.offered outlet.old)) }

        // Conversely, a turn is served only where the seat is open and the group not full, and always where room and an item are known too.
        ensures open { OnServed result ((is_closed self.old seat.now ≡ false) × (length (self.old).waiting < MAX_PARTS)) }
        ensures otherwise { is_closed self.old seat.now ≡ false → length (self.old).waiting < MAX_PARTS → 0 < O.known_room outlet.old
            → I.known_items inlet.old ≢ [] → result ≡ Turn.Served }
        ensures same { O.is_same outlet.old outlet.new }
        ensures stands { (contents : Contents) → IsAheadOf self.old contents → IsAheadOf self.new contents }
        ensures expects { (contents : Contents) (entries : List EntryNo) (extents : List Extent) → IsAheadOf self.old contents
            → Expects self.old contents entries extents → Expects self.new contents entries extents }
    {
        if self.store.is_closed(seat) {
            return Turn::Ended;
        }
        if self.waiting.len() == MAX_PARTS {
            return Turn::GroupFull;
        }
        if outlet.room() == 0 {
            return Turn::Blocked;
        }
        let Some(item) = inlet.take() else {
            return Turn::Idle;
        };
        let reply = self.answer(alloc, seat, item);
        let held = Held {
            reply,
            position: self.position,
        };
        match outlet.offer(held) {
            Ok(()) => Turn::Served,
            Err(_) => unreachable!(),
        }
    }

    /// What was freed on the image is free in the heap again. It takes no memory.
    pub fn accept_freed(&mut self, entries: &[EntryNo], extents: &[Extent])
        requires expected { (contents : Contents) × (rest : List EntryNo) × (others : List Extent) × IsAheadOf self.old contents
            × Expects self.old contents (entries.now ++ rest) (extents.now ++ others) }
        ensures back { TakesBack self.old entries.now extents.now self.new }
        ensures stands { (contents : Contents) (rest : List EntryNo) (others : List Extent) → IsAheadOf self.old contents
            → Expects self.old contents (entries.now ++ rest) (extents.now ++ others) → IsAheadOf self.new contents × Expects self.new contents rest others }
    {
        self.store.accept(entries, extents);
    }

    /// Answers an item and makes all its changes. One that closes its connection closes the seat.
    fn answer(&mut self, alloc: Global, seat: &Seat, item: Item) -> Reply
        requires open { is_closed self.old seat.now ≡ false }
        requires few { length (self.old).waiting < MAX_PARTS }
        ensures answers { Answers self.old seat.now item result self.new }
        ensures stands { (contents : Contents) → IsAheadOf self.old contents → IsAheadOf self.new contents }
        ensures expects { (contents : Contents) (entries : List EntryNo) (extents : List Extent) → IsAheadOf self.old contents
            → Expects self.old contents entries extents → Expects self.new contents entries extents }
    {
        let is_last = closes(&item);
        let reply = match item {
            Item::Request(request) => self.answer_request(alloc, seat, request),
            Item::Fault(fault) => fault_reply(alloc, fault),
        };
        if is_last {
            self.store.close(seat);
        }
        reply
    }

    /// Does what a request asks for: its session has it run, or queued, or answers it.
    fn answer_request(&mut self, alloc: Global, seat: &Seat, request: Request) -> Reply
        requires open { is_closed self.old seat.now ≡ false }
        requires few { length (self.old).waiting < MAX_PARTS }
        ensures { AnswersRequest self.old seat.now request result self.new }
    {
        match self.store.call(alloc, seat, request) {
            Ok(act) => self.act(alloc, act),
            Err(refusal) => refusal_reply(refusal),
        }
    }

    fn act(&mut self, alloc: Global, act: Act) -> Reply
        requires beside { IsBeside (self.old).table (self.old).room }
        requires few { length (self.old).waiting < MAX_PARTS }
        requires room { HasRoom act }
        ensures acts { Acts self.old (act_now act) result self.new }
        ensures memory { RefusesMemory (act_now act) result }
    {
        match act {
            Act::Answer(reply) => reply,
            Act::Run(request) => self.run(alloc, &request),
            Act::RunAll { requests, replies } => self.run_all(alloc, &requests, replies),
        }
    }

    /// Runs one request as a call.
    fn run(&mut self, alloc: Global, request: &Request) -> Reply
        requires beside { IsBeside (self.old).table (self.old).room }
        requires few { length (self.old).waiting < MAX_PARTS }
        ensures ran { Runs self.old (request.now ∷ []) (result ∷ []) self.new }
        ensures full_only { result ≡ full_reply → ¬ HasRoomFor (self.old).room (meaning.outcome_of (records (self.old).table) request.now).changes }
    {
        let mut running = self.store.begin(alloc, self.position + 1);
        let reply = self.store.run(alloc, request, &mut running);
        finish(&mut self.position, &mut self.waiting, running.part);
        reply
    }

    /// Runs the requests of an EXEC as one call, with nothing between them, and returns the array of their replies.
    fn run_all(&mut self, alloc: Global, requests: &[Request], replies: Vec<Reply>) -> Reply
        requires beside { IsBeside (self.old).table (self.old).room }
        requires few { length (self.old).waiting < MAX_PARTS }
        requires empty { replies.items ≡ [] }
        requires room { length requests.now ≤ vec_capacity replies }
        ensures { (all : List Reply) × (result ≡ Array all) × Runs self.old requests.now all self.new }
    {
        let mut running = self.store.begin(alloc, self.position + 1);
        let replies = self.store.run_all(alloc, requests, replies, &mut running);
        finish(&mut self.position, &mut self.waiting, running.part);
        Reply::Array(Listed::from_vec(replies))
    }
}

/// The changes of a call that is over wait for a group as one part, if there are any; the position of the list is then theirs.
fn finish(position: &mut u64, waiting: &mut Vec<Part>, part: Part)
    requires room { vec_len waiting.old < vec_capacity waiting.old }
    ensures finishes { Finishes position.old waiting.old.items part position.new waiting.new.items }
    ensures capacity { vec_capacity waiting.new ≡ vec_capacity waiting.old }
{
    if part.changes.is_empty() {
        return;
    }
    *position = part.position;
    waiting.push_reserved(part);
}

/// The reply to a protocol fault: its text or, where that shows a byte and memory for it was refused, the memory reply.
fn fault_reply(alloc: Global, fault: ProtocolFault) -> Reply
    ensures { MayTell fault result }
{
    match fault.message(alloc) {
        Ok(text) => Reply::Error(text),
        Err(_) => memory_reply(),
    }
}
