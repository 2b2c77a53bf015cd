//! Laws of what a node's thread does, each the contract of a function that does nothing.
ghost use Rattle.node_steps.specs.Law.{
  ActsGoOn,
  AnsweringIsAnAct,
  ClosingIsAnAct,
  CopyingIsAnAct,
  LeavingIsAnAct,
  OpeningsStand,
  OthersChangeNothing,
  RefusedTurnsAreNone,
  SeatingIsAnAct,
  TellingIsAnAct,
  TurnsAreActs,
};
ghost use Rattle.node_steps.specs.Orders.{AnyOrder, TurnsAreBacks};

use model::Group;
use pipes::Outlet;
use wbl_engine::Durable;

/// What is opened is that of each world whose primary was just opened at that position, with nobody connected and nothing on its way.
pub fn openings_stand()
    ensures { OpeningsStand }
{}

/// What a turn of the committer answers names the events that it was, if any: where it committed, for each of its groups the commit, the local mark that rises, and the
/// group that is handed on, one group after another; a list that is freed; a gap that is cleared. The groups that the machine hands on are those that are offered to the
/// link, or are in hand and come next, in this order. Where memory was refused and nothing went aside, it was none.
pub fn turns_are_acts<E: Durable, O: Outlet<Item = Group>>()
    ensures came { TurnsAreActs E.device E.contents E.is_faulted O.offered O.known_room }
    ensures refused { RefusedTurnsAreNone E.device E.contents E.is_faulted O.offered O.known_room }
{}

/// A group or a free list that is closed is one of the machine's.
pub fn closing_is_an_act()
    ensures { ClosingIsAnAct }
{}

/// Telling the sequencer the oldest notice of what was freed is an event of the machine.
pub fn telling_is_an_act()
    ensures { TellingIsAnAct }
{}

/// An item that is answered at the seat of a connection is the machine's turn of that connection, wherever the item is the first that waits there and there is room for
/// its reply.
pub fn answering_is_an_act()
    ensures { AnsweringIsAnAct }
{}

/// Opening a seat that nobody has, for a connection that has none, is no event of the machine, where the connection is open there and nothing of it was answered; and
/// closing the seat of a connection is the event by which it is over.
pub fn seats_are_acts()
    ensures given { SeatingIsAnAct }
    ensures over { LeavingIsAnAct }
{}

/// What the sequencer keeps of a copy for a newcomer is nothing of the machine's: that it moves on is no event.
pub fn copying_is_an_act()
    ensures { CopyingIsAnAct }
{}

/// Events of clients, connections, link and standby leave what the thread has that of the world, but that the link takes the oldest of what was handed on.
pub fn others_change_nothing()
    ensures { OthersChangeNothing }
{}

/// While the front and the back are in threads of their own, what each did may be put in any order; and a turn of the committer is of the back alone.
pub fn any_order_is_acts<E: Durable, O: Outlet<Item = Group>>()
    ensures order { AnyOrder }
    ensures backs { TurnsAreBacks E.device E.contents E.is_faulted O.offered O.known_room }
{}

/// Acts one after the other are a run of the machine in the midst of any events of others.
pub fn acts_go_on()
    ensures { ActsGoOn }
{}
