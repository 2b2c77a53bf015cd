//! The three words, and the steps on them.
ghost use Rattle.std.specs.Prelude.{◌≡◌, ℕ, ◌≤◌, max, true, false, if◌then◌else◌, IfOk, IfErr};
ghost use Rattle.marks.specs.View.{opening, keeping, taking, joined};

use crate::rule::{FindHeard, FindLocal, FindRemote, Hear, MarkRule, RaiseLocal, RaiseRemote};
use crate::seat::MarkSeat;
use crate::view::{Both, Cut, Halves, MarkView};
use atomic_table::Table;
use frames::{Ack, CopyWanted};
use kv_types::{Refusal, Seen};
use std::alloc::Global;
use std::marker::Model;
use wbl_engine::Committed;

const LOCAL: usize = 0;

const REMOTE: usize = 1;

const HEARD: usize = 2;

/// How far the list of calls is durable on this node, how far the standby has acknowledged it, and whether it was heard at all.
///
/// Each is a word that threads read and raise in single steps through a `&`, and no word ever falls. A thread takes a step
/// with a seat of these marks. No call but `new` takes memory, and none blocks.
#[derive(Drop)]
pub struct Marks {
    table: Table<(), MarkView, u64, MarkRule, Global>,
}

impl Model for Marks {
    ghost use Rattle.std.specs.Prelude.{◌≡◌};
    ghost use Rattle.atomic_table.specs.Seated.{TableId};

    ghost Value = { TableId };

    ghost view = { λ m. m.table.shared.table_id };

    ghost invariant = { λ m. m.table.shared.table_id.words ≡ 3 };
}

impl Marks {
    /// Marks that begin where the engine's image is durable (local) and at 0 (remote), and of a standby that was not heard, with the seat that raises both.
    ///
    /// # Errors
    ///
    /// Only `Memory`.
    pub fn new(alloc: Global, committed: &Committed) -> Result<(Marks, MarkSeat), Refusal>
        ensures marks { IfOk result (λ made. made.1.marks ≡ made.0) }
        ensures knows { IfOk result (λ made. made.1.knows ≡ opening committed.now) }
        ensures err { IfErr result (λ refusal. refusal ≡ Refusal.Memory) }
    {
        let local = committed.position();
        let (table, seat) = Table::of_words(alloc, &[local, 0, 0], &local)?;
        Ok((Marks { table }, MarkSeat { seat }))
    }

    /// Makes a second seat that knows what this one knows. `C` says which raises move to it.
    pub fn split_seat<C: Cut>(&self, seat: &mut MarkSeat) -> MarkSeat
        requires marks { seat.old.marks ≡ self.now }
        ensures marks { (seat.new.marks ≡ seat.old.marks) × (result.marks ≡ seat.old.marks) }
        ensures keeps { seat.new.knows ≡ keeping C.takes_local C.takes_remote seat.old.knows }
        ensures takes { result.knows ≡ taking C.takes_local C.takes_remote seat.old.knows }
    {
        MarkSeat {
            seat: self.table.shared.split_seat::<Halves<C>>(&mut seat.seat),
        }
    }

    /// Takes in all that another seat knows, and its raises.
    pub fn join_seat(&self, seat: &mut MarkSeat, other: MarkSeat)
        requires marks { (seat.old.marks ≡ self.now) × (other.marks ≡ self.now) }
        ensures marks { seat.new.marks ≡ seat.old.marks }
        ensures knows { seat.new.knows ≡ joined seat.old.knows other.knows }
    {
        let MarkSeat { seat: other } = other;
        self.table.shared.join_seat::<Both>(&mut seat.seat, other);
    }

    /// Raises the local mark to the position of a commit. A position below the mark leaves it unchanged. The seat is the committer's.
    pub fn raise_local(&self, seat: &mut MarkSeat, committed: &Committed)
        requires marks { seat.old.marks ≡ self.now }
        requires raises { seat.old.knows.raises_local ≡ true }
        ensures marks { seat.new.marks ≡ seat.old.marks }
        ensures knows { seat.new.knows ≡ record seat.old.knows { local = max seat.old.knows.local committed.now } }
    {
        self.table
            .shared
            .fetch_max::<RaiseLocal>(&mut seat.seat, LOCAL, committed.position());
    }

    /// Raises the remote mark to the position that the standby acknowledged. A position below the mark leaves it unchanged. The seat is the link's.
    pub fn raise_remote(&self, seat: &mut MarkSeat, ack: Ack)
        requires marks { seat.old.marks ≡ self.now }
        requires raises { seat.old.knows.raises_remote ≡ true }
        ensures marks { seat.new.marks ≡ seat.old.marks }
        ensures knows { seat.new.knows ≡ record seat.old.knows { remote = max seat.old.knows.remote ack.position } }
    {
        self.table
            .shared
            .fetch_max::<RaiseRemote>(&mut seat.seat, REMOTE, ack.position());
    }

    /// Both marks. Neither is below what the seat had seen, and one that the seat raises is exactly what it knew.
    pub fn read(&self, seat: &mut MarkSeat) -> Seen
        requires marks { seat.old.marks ≡ self.now }
        ensures marks { seat.new.marks ≡ seat.old.marks }
        ensures knows { seat.new.knows ≡ record seat.old.knows { local = result.local; remote = result.remote } }
        ensures rises { (seat.old.knows.local ≤ result.local) × (seat.old.knows.remote ≤ result.remote) }
        ensures local { seat.old.knows.raises_local ≡ true → result.local ≡ seat.old.knows.local }
        ensures remote { seat.old.knows.raises_remote ≡ true → result.remote ≡ seat.old.knows.remote }
    {
        let local = self.table.shared.load::<FindLocal>(&mut seat.seat, LOCAL);
        let remote = self.table.shared.load::<FindRemote>(&mut seat.seat, REMOTE);
        Seen { local, remote }
    }

    /// The remote mark, in one step.
    pub fn read_remote(&self, seat: &mut MarkSeat) -> u64
        requires marks { seat.old.marks ≡ self.now }
        ensures marks { seat.new.marks ≡ seat.old.marks }
        ensures knows { seat.new.knows ≡ record seat.old.knows { remote = result } }
        ensures rises { seat.old.knows.remote ≤ result }
        ensures remote { seat.old.knows.raises_remote ≡ true → result ≡ seat.old.knows.remote }
    {
        self.table.shared.load::<FindRemote>(&mut seat.seat, REMOTE)
    }

    /// The standby was heard: it has acknowledged something, perhaps position 0. The heard word is 1 from now on. The seat is the link's.
    pub fn hear(&self, seat: &mut MarkSeat, _ack: &Ack)
        requires marks { seat.old.marks ≡ self.now }
        requires raises { seat.old.knows.raises_remote ≡ true }
        ensures marks { seat.new.marks ≡ seat.old.marks }
        ensures knows { seat.new.knows ≡ record seat.old.knows { heard = 1 } }
    {
        self.note_heard(seat);
    }

    /// A newcomer was heard, which wants a copy: then no standby is left that could be ahead of this node. The heard word is 1 from now on. The seat is the
    /// link's.
    pub fn hear_newcomer(&self, seat: &mut MarkSeat, _wanted: &CopyWanted)
        requires marks { seat.old.marks ≡ self.now }
        requires raises { seat.old.knows.raises_remote ≡ true }
        ensures marks { seat.new.marks ≡ seat.old.marks }
        ensures knows { seat.new.knows ≡ record seat.old.knows { heard = 1 } }
    {
        self.note_heard(seat);
    }

    /// The heard word is 1 from now on.
    fn note_heard(&self, seat: &mut MarkSeat)
        requires marks { seat.old.marks ≡ self.now }
        requires raises { seat.old.knows.raises_remote ≡ true }
        ensures marks { seat.new.marks ≡ seat.old.marks }
        ensures knows { seat.new.knows ≡ record seat.old.knows { heard = 1 } }
    {
        self.table.shared.store::<Hear>(&mut seat.seat, HEARD, 1);
    }

    /// Whether the standby was heard: yes whenever the seat knew it, and only if the heard word is 1.
    pub fn has_heard(&self, seat: &mut MarkSeat) -> bool
        requires marks { seat.old.marks ≡ self.now }
        ensures marks { seat.new.marks ≡ seat.old.marks }
        ensures knows { seat.new.knows ≡ record seat.old.knows { heard = (if result then 1 else 0) } }
        ensures known { seat.old.knows.heard ≡ 1 → result ≡ true }
    {
        let found = self.table.shared.load::<FindHeard>(&mut seat.seat, HEARD);
        found == 1
    }
}
