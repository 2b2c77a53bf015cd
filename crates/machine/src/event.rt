//! What may happen to a pair of nodes and their connections.
ghost use Rattle.std.specs.Prelude.{◌≡◌, IfOk};
ghost use Rattle.machine.specs.Copy.{IsCopy};
ghost use Rattle.machine.specs.Event.{is_between};
ghost use Rattle.machine.specs.Row.{are_running, row};

use bytes::Bytes;
use model::MAX_PARTS;
use pipes::MAX_SEATS;
use std::alloc::AllocError;

/// The most connections at a time.
pub const SEATS: u64 = MAX_SEATS as u64;

/// The most items that wait in a pipe.
pub const PIPE_ITEMS: u64 = pipes::PIPE_ITEMS as u64;

/// The most changing commands that wait to be closed into a group: as many as one group holds.
pub const OPEN_CHANGES: u64 = MAX_PARTS as u64;

/// The most groups that the link keeps until they are acknowledged.
pub const KEPT_GROUPS: u64 = pipes::KEPT_GROUPS as u64;

/// One of the two numbers up to which replies are covered.
#[derive(Clone, Copy, Debug, PartialEq, Eq)]
pub enum Mark {
    /// What is durable on the primary.
    Local,
    /// What the standby has acknowledged.
    Remote,
}

/// One of the two nodes.
#[derive(Clone, Copy, Debug, PartialEq, Eq)]
pub enum Node {
    Primary,
    Standby,
}

/// A call that writes to a node's device, and that a crash may cut anywhere.
#[derive(Clone, Copy, Debug, PartialEq, Eq)]
pub enum Cut {
    /// None: the crash comes between two events.
    Between,
    Commit,
    Apply,
    Free,
    ClearGap,
    Reopen,
    Promote,
}

impl Cut {
    /// Whether the crash comes between two events.
    pub fn is_between(self) -> bool
        ensures { result ≡ is_between self }
    {
        match self {
            Cut::Between => true,
            Cut::Commit | Cut::Apply | Cut::Free | Cut::ClearGap | Cut::Reopen | Cut::Promote =>
                false,
        }
    }
}

/// Which nodes have to run for an event.
#[derive(Clone, Copy, Debug, PartialEq, Eq)]
pub enum Runners {
    /// None: a node crashes, or is opened again, or the primary is fenced.
    Neither,
    Primary,
    Standby,
    Both,
}

impl Runners {
    /// Whether they run, where the primary and the standby do so or not.
    pub fn are_running(self, primary: bool, standby: bool) -> bool
        ensures { result ≡ are_running self primary standby }
    {
        match self {
            Runners::Neither => true,
            Runners::Primary => primary,
            Runners::Standby => standby,
            Runners::Both => primary && standby,
        }
    }
}

/// One turn of one actor. A connection is named by its number, which stays its own when it is over: connections count from 0, in the
/// order in which they entered.
#[derive(Debug, Drop)]
pub enum Event {
    /// A new connection takes a seat.
    Enter,
    /// Bytes come in from a connection.
    Feed(u64, Bytes),
    /// The next item of a connection's bytes is handed to the sequencer.
    Offer(u64),
    /// The sequencer runs the first waiting item of a connection.
    Turn(u64),
    /// All changing commands that wait are handed to the committer as one group. Where none waits, the versions that have ended are handed to it as
    /// one free list.
    CloseGroup,
    /// The committer commits the first group that waits, and lays the free lists before it aside.
    Commit,
    /// The committer shows its commit by raising the local mark.
    RaiseLocal,
    /// The committer hands the group to the link.
    Hand,
    /// The committer, where it may not commit, frees the first free list that it has reached, which the remote mark has to cover, and leaves a notice
    /// of it for the sequencer.
    Free,
    /// The sequencer takes a notice of what was freed, and may use its room again.
    AcceptFreed,
    /// The committer, where nothing waits for it, frees what lies in one gap of the record, and leaves a notice of it for the sequencer.
    ClearGap,
    /// The link to the standby opens: the standby tells its position, and the link sends again from there. Where the standby is behind the position at
    /// which the primary was opened, a delta up to that position comes first.
    OpenLink,
    /// The link sends one frame.
    Send,
    /// A frame that was sent arrives at the standby. Frames are numbered from 0, in the order in which they were sent. Its bytes come in pieces of the
    /// second number of bytes, the last of them with what is left; 0: whole.
    Deliver(u64, u64),
    /// The standby takes the first waiting frame.
    Apply,
    /// An acknowledgement that was made arrives at the link. Acknowledgements are numbered from 0.
    AckDelivered(u64),
    /// The link shows what was acknowledged by raising the remote mark.
    RaiseRemote,
    /// A new standby by a copy comes in the place of the one that there is, if any: the next unused device has a new image for the primary's epoch. Whatever
    /// passed between the nodes before is gone.
    Newcomer,
    /// The sequencer pins the copy that the link awaits: the keyspace at the position of the list.
    PinCopy,
    /// The link sends the next frame of the pinned copy.
    SendCopy,
    /// A connection's gate takes the first waiting reply.
    Hold(u64),
    /// A connection's gate reads a mark.
    Read(u64, Mark),
    /// A connection's gate releases the replies that both its numbers cover.
    Release(u64),
    /// The given number of released bytes is written to the connection.
    Write(u64, u64),
    /// A connection is over. Its calls stay; what it asked for and was not called, and what was not written to it, is dropped. Its seat is free again.
    Leave(u64),
    /// The n-th fence of a node's device from now fails, counted from 1; this replaces what was asked for before, and 0 asks for none. The call that meets it
    /// stops the node.
    FailFence(Node, u64),
    /// A node crashes: one that runs or has stopped between two events, or one that may make this call in the middle of it, after so many stores, flushes and
    /// fences of its device. What its device has not made durable is as these picks say, and all that the node held elsewhere is gone.
    Crash(Node, Cut, u64, Vec<u64>),
    /// A node that crashed opens its image again.
    Reopen(Node),
    /// The primary does nothing more, whatever its condition.
    Fence,
    /// After the fence of its primary the standby becomes the primary of the next epoch. All connections of the former one are over.
    Promote,
}

impl Event {
    /// The nodes that have to run for it.
    pub fn runners(&self) -> Runners
        ensures { result ≡ (row self.now).runners }
    {
        match self {
            Event::Crash(_, _, _, _) | Event::Reopen(_) | Event::Fence => Runners::Neither,
            Event::FailFence(Node::Primary, _) => Runners::Primary,
            Event::FailFence(Node::Standby, _) => Runners::Standby,
            Event::Promote => Runners::Standby,
            Event::OpenLink => Runners::Both,
            Event::Deliver(_, _) | Event::Apply => Runners::Standby,
            Event::Enter
            | Event::Feed(_, _)
            | Event::Offer(_)
            | Event::Turn(_)
            | Event::CloseGroup
            | Event::Commit
            | Event::RaiseLocal
            | Event::Hand
            | Event::Free
            | Event::AcceptFreed
            | Event::ClearGap
            | Event::Send
            | Event::AckDelivered(_)
            | Event::RaiseRemote
            | Event::Newcomer
            | Event::PinCopy
            | Event::SendCopy
            | Event::Hold(_)
            | Event::Read(_, _)
            | Event::Release(_)
            | Event::Write(_, _)
            | Event::Leave(_) => Runners::Primary,
        }
    }

    /// A copy of the event. Bytes are shared, picks are not.
    ///
    /// # Errors
    ///
    /// Only `AllocError`, of the picks of a crash.
    pub fn try_clone(&self) -> Result<Event, AllocError>
        ensures { IfOk result (IsCopy self.now) }
    {
        match self {
            Event::Enter => Ok(Event::Enter),
            Event::Feed(connection, piece) => Ok(Event::Feed(*connection, piece.clone()?)),
            Event::Offer(connection) => Ok(Event::Offer(*connection)),
            Event::Turn(connection) => Ok(Event::Turn(*connection)),
            Event::CloseGroup => Ok(Event::CloseGroup),
            Event::Commit => Ok(Event::Commit),
            Event::RaiseLocal => Ok(Event::RaiseLocal),
            Event::Hand => Ok(Event::Hand),
            Event::Free => Ok(Event::Free),
            Event::AcceptFreed => Ok(Event::AcceptFreed),
            Event::ClearGap => Ok(Event::ClearGap),
            Event::OpenLink => Ok(Event::OpenLink),
            Event::Send => Ok(Event::Send),
            Event::Deliver(frame, piece) => Ok(Event::Deliver(*frame, *piece)),
            Event::Apply => Ok(Event::Apply),
            Event::AckDelivered(number) => Ok(Event::AckDelivered(*number)),
            Event::RaiseRemote => Ok(Event::RaiseRemote),
            Event::Newcomer => Ok(Event::Newcomer),
            Event::PinCopy => Ok(Event::PinCopy),
            Event::SendCopy => Ok(Event::SendCopy),
            Event::Hold(connection) => Ok(Event::Hold(*connection)),
            Event::Read(connection, mark) => Ok(Event::Read(*connection, *mark)),
            Event::Release(connection) => Ok(Event::Release(*connection)),
            Event::Write(connection, count) => Ok(Event::Write(*connection, *count)),
            Event::Leave(connection) => Ok(Event::Leave(*connection)),
            Event::FailFence(node, fence) => Ok(Event::FailFence(*node, *fence)),
            Event::Crash(node, cut, after, picks) => Ok(Event::Crash(
                *node,
                *cut,
                *after,
                picks.clone()?,
            )),
            Event::Reopen(node) => Ok(Event::Reopen(*node)),
            Event::Fence => Ok(Event::Fence),
            Event::Promote => Ok(Event::Promote),
        }
    }
}
