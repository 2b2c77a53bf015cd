//! The marks, as one thread has them.
ghost use Rattle.std.specs.Prelude.{◌≡◌, ◌≤◌, max, true, if◌then◌else◌};
ghost use Rattle.std.specs.Arc.{arc_value};

use crate::marks::Marks;
use crate::seat::MarkSeat;
use frames::{Ack, CopyWanted};
use kv_types::Seen;
use std::marker::Model;
use std::sync::Arc;
use wbl_engine::Committed;

/// The marks that threads share, with this thread's own seat of them. A clause sees what the seat knows, and which marks it raises.
#[derive(Drop)]
pub struct ThreadMarks {
    marks: Arc<Marks>,
    seat: MarkSeat,
}

impl Model for ThreadMarks {
    ghost use Rattle.std.specs.Prelude.{◌≡◌};
    ghost use Rattle.std.specs.Arc.{arc_value};
    ghost use Rattle.marks.specs.declared.view.MarkView.{MarkView};

    ghost Value = { MarkView };

    ghost view = { λ t. t.seat.knows };

    ghost invariant = { λ t. t.seat.marks ≡ arc_value t.marks };
}

impl ThreadMarks {
    /// These marks, with this seat of them.
    pub fn new(marks: Arc<Marks>, seat: MarkSeat) -> ThreadMarks
        requires { seat.marks ≡ arc_value marks }
        ensures { result ≡ seat.knows }
    {
        ThreadMarks { marks, seat }
    }

    /// Both marks. Neither is below what was read here before, and one that is raised here is exactly what it was raised to.
    pub fn read(&mut self) -> Seen
        ensures knows { self.new ≡ record self.old { local = result.local; remote = result.remote } }
        ensures rises { (self.old.local ≤ result.local) × (self.old.remote ≤ result.remote) }
        ensures local { self.old.raises_local ≡ true → result.local ≡ self.old.local }
        ensures remote { self.old.raises_remote ≡ true → result.remote ≡ self.old.remote }
    {
        self.marks.read(&mut self.seat)
    }

    /// The remote mark, as `read` answers it, in one step.
    pub fn read_remote(&mut self) -> u64
        ensures knows { self.new ≡ record self.old { remote = result } }
        ensures rises { self.old.remote ≤ result }
        ensures remote { self.old.raises_remote ≡ true → result ≡ self.old.remote }
    {
        self.marks.read_remote(&mut self.seat)
    }

    /// Raises the local mark to the position of a commit. A position below the mark leaves it unchanged. The thread is the committer's.
    pub fn raise_local(&mut self, committed: &Committed)
        requires { self.old.raises_local ≡ true }
        ensures { self.new ≡ record self.old { local = max self.old.local committed.now } }
    {
        self.marks.raise_local(&mut self.seat, committed)
    }

    /// Whether the standby was heard, of these marks: yes whenever that was known here.
    pub fn has_heard(&mut self) -> bool
        ensures knows { self.new ≡ record self.old { heard = (if result then 1 else 0) } }
        ensures known { self.old.heard ≡ 1 → result ≡ true }
    {
        self.marks.has_heard(&mut self.seat)
    }

    /// Raises the remote mark to the position that the standby acknowledged, which was heard so. A position below the mark leaves it unchanged. The thread is
    /// the link's.
    pub fn raise_remote(&mut self, ack: Ack)
        requires { self.old.raises_remote ≡ true }
        ensures { self.new ≡ record self.old { remote = max self.old.remote ack.position; heard = 1 } }
    {
        self.marks.raise_remote(&mut self.seat, ack);
        self.marks.hear(&mut self.seat, &ack)
    }

    /// A newcomer was heard, which wants a copy. The marks stay. The thread is the link's.
    pub fn hear_newcomer(&mut self, wanted: &CopyWanted)
        requires { self.old.raises_remote ≡ true }
        ensures { self.new ≡ record self.old { heard = 1 } }
    {
        self.marks.hear_newcomer(&mut self.seat, wanted)
    }
}
