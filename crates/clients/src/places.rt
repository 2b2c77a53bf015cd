//! The connections of a driver, each at its place, and which of them are visited next.
ghost use Rattle.std.specs.Prelude.{◌≡◌, ℕ, All, Some, None, true, false, OnOk, vec_len};
ghost use Rattle.clients.specs.Places.{IsHeardAs, IsHeardIn, IsNoted, IsNotedAt, IsQuiet, IsVisitOf, Notes, NotesPlace, Visits, VisitsPlace, connection_at};
ghost use Rattle.mio.specs.Event.{event_token};
ghost use Rattle.mio.specs.Events.{items as events_in};

use crate::driven::{DrivenConnection, Look, Next};
use crate::intake::DriverEntrance;
use kv_types::Seen;
use mio::Events;
use mio::event::Event;
use node_log::{Counted, Waits};
use std::sync::Wait;
use wakes::{Called, Calls};

/// Notes each connection whose socket is ready.
pub(crate) fn note_ready(events: &Events, places: &mut Vec<Option<DrivenConnection>>)
    ensures notes { Notes places.old.items places.new.items }
    ensures ready { All (λ event. IsHeardIn event places.old.items places.new.items) (events_in events.now) }
{
    for event in events.iter() {
        note_event(places, event);
    }
}

/// Notes the connection whose socket is ready, and for what it is.
fn note_event(places: &mut Vec<Option<DrivenConnection>>, event: &Event)
    ensures notes { Notes places.old.items places.new.items }
    ensures ready { IsHeardIn event.now places.old.items places.new.items }
{
    if let Some(place) = places.get_mut(event.token().0) {
        hear(place, event);
    }
}

fn hear(place: &mut Option<DrivenConnection>, event: &Event)
    ensures notes { NotesPlace place.old place.new }
    ensures heard { IsHeardAs event.now place.old place.new }
{
    if let Some(connection) = place {
        connection.hear(event);
        connection.is_noted = true;
    }
}

/// Notes each connection for which somebody called.
pub(crate) fn note_called(calls: &Calls, places: &mut Vec<Option<DrivenConnection>>)
    ensures notes { Notes places.old.items places.new.items }
{
    for index in 0..places.len() {
        if let Some(called) = calls.take(index) {
            note_call(places, called);
        }
    }
}

/// Notes the connection for which somebody called.
fn note_call(places: &mut Vec<Option<DrivenConnection>>, called: Called)
    ensures notes { Notes places.old.items places.new.items }
    ensures called { IsNotedAt places.new.items called.index }
{
    if let Some(place) = places.get_mut(called.index()) {
        note_one(place);
    }
}

fn note_one(place: &mut Option<DrivenConnection>)
    ensures notes { NotesPlace place.old place.new }
    ensures noted { IsNoted place.new }
{
    if let Some(connection) = place {
        connection.is_noted = true;
    }
}

/// Notes all, and looks at each. Answers what was counted; there were these waits before.
pub(crate) fn note_all(
    places: &mut Vec<Option<DrivenConnection>>,
    look: &Look,
    waits: Waits,
) -> Counted
    ensures notes { Notes places.old.items places.new.items }
    ensures all { (k : ℕ) → IsNotedAt places.new.items k }
{
    let mut counted = Counted::nothing(waits);
    for place in places.iter_mut() {
        look_at(place, look, &mut counted);
    }
    counted
}

fn look_at(place: &mut Option<DrivenConnection>, look: &Look, counted: &mut Counted)
    ensures notes { NotesPlace place.old place.new }
    ensures noted { IsNoted place.new }
{
    if let Some(connection) = place {
        connection.look(look, counted);
        connection.is_noted = true;
    }
}

/// Somebody waits for a place: notes those that end for it. Answers whether there was one.
pub(crate) fn make_room(places: &mut Vec<Option<DrivenConnection>>, look: &Look) -> bool
    ensures notes { Notes places.old.items places.new.items }
{
    let mut any = false;
    for place in places.iter_mut() {
        any |= make_room_at(place, look);
    }
    any
}

fn make_room_at(place: &mut Option<DrivenConnection>, look: &Look) -> bool
    ensures notes { NotesPlace place.old place.new }
{
    match place {
        Some(connection) => {
            let ends = connection.make_room(look);
            connection.is_noted |= ends;
            ends
        }
        None => false,
    }
}

/// Puts a connection at its place and notes it. Where somebody is there, it is let go.
pub(crate) fn put(places: &mut Vec<Option<DrivenConnection>>, connection: DrivenConnection)
    ensures notes { Notes places.old.items places.new.items }
{
    let index = connection.place.number();
    make_place(places, index);
    match places.get_mut(index) {
        Some(place) => put_at(place, connection),
        None => drop(connection),
    }
}

fn put_at(place: &mut Option<DrivenConnection>, connection: DrivenConnection)
    ensures notes { NotesPlace place.old place.new }
    ensures put { place.old ≡ None → place.new ≡ Some (record connection { is_noted = true }) }
{
    let mut connection = connection;
    connection.is_noted = true;
    if place.is_none() {
        *place = Some(connection);
    }
}

/// Makes places up to this one. There is room for each.
fn make_place(places: &mut Vec<Option<DrivenConnection>>, index: usize)
    ensures same { (k : ℕ) → connection_at places.new.items k ≡ connection_at places.old.items k }
{
    for _ in places.len()..=index {
        drop(places.push(None));
    }
}

/// Visits each connection that is noted, once. Answers whether one of them has more to do at once; it is noted again.
pub(crate) fn visit_all<R: Wait>(
    rt: &R,
    seen: &Seen,
    entrance: &DriverEntrance,
    waits: &mut Waits,
    places: &mut Vec<Option<DrivenConnection>>,
) -> bool
    ensures visits { Visits seen.now places.old.items places.new.items }
    ensures busy { result ≡ false → (k : ℕ) → IsQuiet (connection_at places.new.items k) }
{
    let mut is_busy = false;
    for place in places.iter_mut() {
        is_busy |= visit_place(rt, seen, entrance, waits, place);
    }
    is_busy
}

/// Visits the connection at a place, if there is one that is noted. Answers whether it has more to do at once. One that is over leaves its place.
fn visit_place<R: Wait>(
    rt: &R,
    seen: &Seen,
    entrance: &DriverEntrance,
    waits: &mut Waits,
    place: &mut Option<DrivenConnection>,
) -> bool
    ensures visits { VisitsPlace seen.now place.old place.new }
    ensures busy { result ≡ false → IsQuiet place.new }
{
    match visit_one(rt, seen, waits, place) {
        Next::Waits => false,
        Next::Busy => true,
        Next::Closes => {
            close(rt, entrance, place);
            false
        }
    }
}

/// Visits the connection at a place, if there is one that is noted. It is noted again where it has more to do.
fn visit_one<R: Wait>(
    rt: &R,
    seen: &Seen,
    waits: &mut Waits,
    place: &mut Option<DrivenConnection>,
) -> Next
    ensures visits { VisitsPlace seen.now place.old place.new }
    ensures closes { result ≡ Next.Closes → (VisitsPlace seen.now place.old None) }
    ensures waits { result ≡ Next.Waits → IsQuiet place.new }
    ensures again { result ≡ Next.Busy → IsNoted place.new }
{
    match place {
        Some(connection) if connection.is_noted => {
            let next = connection.visit(rt, seen, waits);
            connection.is_noted = next == Next::Busy;
            next
        }
        _ => Next::Waits,
    }
}

/// Closes the socket of a connection, and gives its place back.
fn close<R: Wait>(rt: &R, entrance: &DriverEntrance, place: &mut Option<DrivenConnection>)
    ensures { place.new ≡ None }
{
    if let Some(connection) = place.take() {
        entrance.leave(rt, connection.close());
    }
}
