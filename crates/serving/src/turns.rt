//! The turns that one connection gets in a row.
ghost use Rattle.std.specs.Prelude.{◌≡◌, ◌≢◌, ◌+◌, ◌-◌, ◌≤◌, max, nat_le, nat_lt, not, ◌&&◌, ◌||◌, false, true, if◌then◌else◌, is_some};
ghost use Rattle.extent_heap.specs.Room.{has_room};
ghost use Rattle.primary.specs.Settled.{HasNothingOpen};
ghost use Rattle.serving.specs.Ending as ending;
ghost use Rattle.serving.specs.Ending.{EndTurns, lacks_room};
ghost use Rattle.serving.specs.Filling.{filled, is_too_large};
ghost use Rattle.serving.specs.Roomed.{TurnsByNeed};
ghost use Rattle.serving.specs.Serving.{Serves, WaitsOnlyFor};
ghost use Rattle.serving.specs.Turns.{TakesTurns};

use crate::filling::Filling;
use crate::needs::Need;
use crate::open_connection::OpenConnection;
use mv_keyspace::Keyspace;
use primary::Front;
use redis_core::Turn;
use std::alloc::Global;

/// How many turns a connection gets at most before the next one is served.
const MOST_TURNS: usize = 64;

/// How serving a connection ended.
#[derive(Clone, Copy)]
pub(crate) enum Served {
    /// It took as many turns as it may, or its share of the group: it is to be served again.
    Busy,
    /// A group has to be closed first, or room is on its way: it is to be served again.
    Waits,
    /// Nothing is there to be done until somebody calls.
    Idle,
    /// The connection is over.
    Over,
}

/// Serves a connection. Answers whether it was answered anything, and how that ended. `is_working` is whether the committer has something in hand that may
/// make room. `is_short` is whether a request waits for room that is on its way; then no other is taken that needs room, so that the oldest gets what comes.
/// `filling` is what waits to be in the next group, and `share` how many parts the connection may add to it.
pub(crate) fn take_turns<K: Keyspace>(
    alloc: Global,
    front: &mut Front<K>,
    is_working: bool,
    connection: &mut OpenConnection,
    is_short: &mut bool,
    filling: &mut Filling,
    share: u64,
) -> (bool, Served)
    requires short { WaitsOnlyFor is_short.old is_working front.old.sequencer }
    ensures turns { TakesTurns front.old.sequencer connection.old result.0 front.new.sequencer connection.new }
    ensures serves { Serves front.old.sequencer front.new.sequencer }
    ensures short { WaitsOnlyFor is_short.new is_working front.new.sequencer }
    // it waits only where something is under way
    ensures waits { result.1 ≡ Served.Waits → ¬ ((is_working ≡ false) × HasNothingOpen front.new.sequencer) }
    ensures share { front.new.sequencer.position ≤ front.old.sequencer.position + share }
    ensures ends { EndTurns share filling.new is_short.old front.old.sequencer connection.old result.0 front.new.sequencer connection.new result.1 }
    ensures needs { TurnsByNeed is_working is_short.old front.old.sequencer connection.old filling.old connection.new filling.new }
{
    let mut any = false;
    let first = front.position();
    for _ in 0..MOST_TURNS {
        let is_read = connection.is_read();
        let asked = connection.look_ahead();
        let need = connection.queued.need(asked);
        if has_its_share(front, connection, first, share) {
            return (any, Served::Busy);
        }
        if waits_for_group(front, filling, need) {
            return (any, Served::Waits);
        }
        if waits_for_room(front, is_working, need, *is_short) {
            *is_short = true;
            return (any, Served::Waits);
        }
        let before = front.position();
        let turn = connection.take_turn(alloc, front);
        if !is_served(turn) {
            return (any, ended_by(turn, is_read));
        }
        connection.queued.note(asked);
        count_changed(front, before, filling, need);
        any = true;
    }
    (any, Served::Busy)
}

/// Whether a connection that was served from this position on has added as many parts as it may, and a request is left.
fn has_its_share<K: Keyspace>(
    front: &Front<K>,
    connection: &OpenConnection,
    first: u64,
    share: u64,
) -> bool
    ensures { result ≡ (nat_le share (front.now.sequencer.position - first) && is_some connection.now.arrival.requests.items.next) }
{
    share <= front.position().saturating_sub(first) && connection.has_next()
}

/// Whether a request that may need so much is too large for the group that what waits will be. (Where nothing waits and nothing has ended, none will be.)
fn waits_for_group<K: Keyspace>(front: &Front<K>, filling: &Filling, need: Need) -> bool
    ensures waits { result ≡ true → ¬ HasNothingOpen front.now.sequencer }
    ensures large { result ≡ true → is_too_large filling.now need ≡ true }
    ensures taken { result ≡ false → ¬ HasNothingOpen front.now.sequencer → is_too_large filling.now need ≡ false }
{
    filling.is_too_large(need) && front.is_room_coming()
}

/// What a request may need is counted, where the list has gone on from this position by it.
fn count_changed<K: Keyspace>(front: &Front<K>, before: u64, filling: &mut Filling, need: Need)
    ensures { filling.new ≡ (if nat_lt before front.now.sequencer.position then filled filling.old need else filling.old) }
{
    if before < front.position() {
        filling.add(need);
    }
}

fn is_served(turn: Turn) -> bool
    ensures served { result ≡ true → turn ≡ Turn.Served }
    ensures unserved { result ≡ false → turn ≢ Turn.Served }
{
    match turn {
        Turn::Served => true,
        _ => false,
    }
}

/// How serving a connection ends with a turn at which nothing was served.
fn ended_by(turn: Turn, is_read: bool) -> Served
    ensures waits { result ≡ Served.Waits → turn ≡ Turn.GroupFull }
    ensures by { result ≡ ending.ended_by turn is_read }
{
    match turn {
        Turn::GroupFull => Served::Waits,
        Turn::Ended => Served::Over,
        Turn::Idle => idle_or_over(is_read),
        Turn::Blocked | Turn::Served => Served::Idle,
    }
}

/// Whether a request that may need so much room has to wait: there may be none for it, or an older one waits, and some is on its way.
fn waits_for_room<K: Keyspace>(
    front: &Front<K>,
    is_working: bool,
    need: Need,
    is_short: bool,
) -> bool
    // it waits only where something is under way
    ensures waits { result ≡ true → ¬ ((is_working ≡ false) × HasNothingOpen front.now.sequencer) }
    // and only if an older one waits, or there may be no room for it
    ensures lacks { result ≡ true → lacks_room need is_short front.now.sequencer ≡ true }
    // where something is, it is taken only if no older one waits and there is room for it
    ensures taken { result ≡ false → ¬ ((is_working ≡ false) × HasNothingOpen front.now.sequencer)
        → (nat_lt 0 need.count && (is_short || not (has_room need.count (max need.lines 1) (front.now.sequencer).room))) ≡ false }
{
    let is_tight = need.count > 0 && (is_short || !front.has_room(need.count, need.lines.max(1)));
    is_tight && (is_working | front.is_room_coming())
}

// Nothing more comes where all was read before the turn that found nothing.
fn idle_or_over(is_read: bool) -> Served
    ensures { result ≡ (if is_read then Served.Over else Served.Idle) }
{
    if is_read { Served::Over } else { Served::Idle }
}
