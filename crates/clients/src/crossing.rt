//! That a driver and its entrance may go to another thread. The prover does not find it of types so large at once, so it is shown part by part.
ghost use Rattle.clients.specs.contracts.driven.DrivenConnection as connection;
ghost use Rattle.clients.specs.contracts.driver.Driver as driver;
ghost use Rattle.clients.specs.contracts.intake.DriverEntrance as entrance;
ghost use Rattle.clients.specs.contracts.intake.IdleLook as idle;
ghost use Rattle.clients.specs.contracts.room.SocketRoom as room;
ghost use Rattle.node_log.specs.contracts.shown.Shown as shown;
ghost use Rattle.lobby.specs.contracts.lobby.Lobby as lobby;
ghost use Rattle.marks.specs.contracts.thread_marks.ThreadMarks as thread_marks;
ghost use Rattle.wakes.specs.contracts.calls.Calls as calls;
ghost use denote.Param.Send.{IsSend, IsSync};

use crate::driven::DrivenConnection;
use crate::intake::IdleLook;
use crate::room::SocketRoom;
use lobby::Lobby;
use marks::ThreadMarks;
use node_log::Shown;
use wakes::Calls;

/// Shows that a driver may go to another thread. It does nothing.
pub fn driver_is_send()
    ensures { IsSend driver.the_row }
{
    connection_is_send();
    entrance_is_send();
    shown_is_send();
    shown_is_sync();
    marks_are_send();
}

/// Shows that a driver's entrance may go to another thread. It does nothing.
pub fn entrance_is_send()
    ensures { IsSend entrance.the_row }
{
    connection_is_send();
    lobby_is_send();
    calls_are_send();
    calls_are_sync();
    idle_is_send();
    idle_is_sync();
    room_is_send();
}

fn connection_is_send()
    ensures { IsSend connection.the_row }
{
    is_send::<DrivenConnection>();
}

fn marks_are_send()
    ensures { IsSend thread_marks.the_row }
{
    is_send::<ThreadMarks>();
}

fn shown_is_send()
    ensures { IsSend shown.the_row }
{
    is_send::<Shown>();
}

fn shown_is_sync()
    ensures { IsSync shown.the_row }
{
    is_sync::<Shown>();
}

fn lobby_is_send()
    ensures { IsSend lobby.the_row }
{
    is_send::<Lobby>();
}

fn calls_are_send()
    ensures { IsSend calls.the_row }
{
    is_send::<Calls>();
}

fn calls_are_sync()
    ensures { IsSync calls.the_row }
{
    is_sync::<Calls>();
}

fn idle_is_send()
    ensures { IsSend idle.the_row }
{
    is_send::<IdleLook>();
}

fn idle_is_sync()
    ensures { IsSync idle.the_row }
{
    is_sync::<IdleLook>();
}

fn room_is_send()
    ensures { IsSend room.the_row }
{
    is_send::<SocketRoom>();
}

fn is_send<T: Send>()
    ensures { IsSend T.row }
{}

fn is_sync<T: Sync>()
    ensures { IsSync T.row }
{}
