//! What is due is closed: changes that wait become a group, versions that have ended a free list.
ghost use Rattle.std.specs.Prelude.{◌≡◌, ℕ, [], length, IfOk, IfErr, OnErr};
ghost use Rattle.extent_heap.specs.Room.{has_room};
ghost use Rattle.primary.specs.Recalling.{BackKeeps, Past};
ghost use Rattle.primary.specs.Standing.{BackStands};
ghost use Rattle.primary.specs.Ahead.{GoesAhead};
ghost use Rattle.serving.specs.Closing.{ClosesAhead, ClosesBoth, ClosesGroup, ClosesList, LacksBoth, LacksGroup, LacksMemory};
ghost use Rattle.serving.specs.Gathering.{is_list_due};
ghost use Rattle.serving.specs.declared.gathering.TheConstants.{LISTED_AT_ONCE};

use crate::ahead::Ahead;
use crate::gathering::{Gathering, LISTED_AT_ONCE};
use kv_types::Refusal;
use mv_keyspace::Keyspace;
use primary::{Back, Front, close, close_ahead};
use std::alloc::Global;
use wbl_engine::Durable;

/// How many lines of extents an image has at least for each of its entries.
const LINES_OF_AN_ENTRY: u64 = 6;

/// Closes what waits as a group, and then what has ended as a list, each where it is due. Room is short where a request waits for it (`is_short`), or where a
/// group leaves less than what may be kept back from a list. Answers whether anything was closed.
///
/// # Errors
///
/// Only `Memory`: what was not closed is closed later.
pub(crate) fn close_due<E: Durable, K: Keyspace>(
    alloc: Global,
    front: &mut Front<K>,
    back: &mut Back<E>,
    gathering: &mut Gathering,
    remote: u64,
    is_short: bool,
) -> Result<bool, Refusal>
    requires { BackStands E.device E.contents back.old front.old.sequencer [] }
    ensures closes { IfOk result (ClosesBoth gathering.old remote is_short front.old.sequencer back.old.work front.new.sequencer back.new.work gathering.new) }
    ensures cause { IfErr result (λ refusal. refusal ≡ Refusal.Memory) }
    // memory is said to be refused only for what was due and might have been closed
    ensures lacks { OnErr result (LacksBoth gathering.old remote is_short front.old.sequencer back.old.work front.new.sequencer back.new.work gathering.new) }
    ensures stands { BackStands E.device E.contents back.new front.new.sequencer [] }
    ensures committer { back.new.committer ≡ back.old.committer }
    // nothing is called, and what is kept of the past stays so
    ensures at { front.new.sequencer.position ≡ front.old.sequencer.position }
    ensures past { (past : Past) → BackKeeps E.contents past back.old front.old.sequencer → BackKeeps E.contents past back.new front.new.sequencer }
{
    let is_closed = close_group(alloc, front, back, gathering, remote, is_short)?;
    let is_tight = is_short || (is_closed && !has_ample_room(front));
    let is_listed = close_list(alloc, front, back, gathering, remote, is_tight)?;
    Ok(is_closed || is_listed)
}

/// Closes the changes that wait as a group while the job is lent, if that is due. It waits until the job is here. Answers whether it did.
///
/// # Errors
///
/// Only `Memory`: it is closed later.
pub(crate) fn close_due_ahead<K: Keyspace>(
    alloc: Global,
    front: &mut Front<K>,
    ahead: &mut Ahead,
    gathering: &mut Gathering,
    remote: u64,
) -> Result<bool, Refusal>
    ensures closes { ClosesAhead gathering.old remote front.old.sequencer ahead.old front.new.sequencer ahead.new gathering.new result }
    ensures at { front.new.sequencer.position ≡ front.old.sequencer.position }
    ensures goes { GoesAhead front.old.sequencer ahead.old.groups.items front.new.sequencer ahead.new.groups.items }
{
    let served = front.position();
    if ahead.room == 0 {
        return Ok(false);
    }
    if !gathering.is_ahead_due(served, remote) {
        return Ok(false);
    }
    let is_closed = close_ahead(alloc, front, &mut ahead.groups)?;
    if !is_closed {
        return Ok(false);
    }
    ahead.room -= 1;
    gathering.closed = served;
    Ok(true)
}

/// Closes the changes that wait as a group, if that is due and the committer's queue has room. Answers whether it did.
///
/// # Errors
///
/// Only `Memory`.
fn close_group<E: Durable, K: Keyspace>(
    alloc: Global,
    front: &mut Front<K>,
    back: &mut Back<E>,
    gathering: &mut Gathering,
    remote: u64,
    is_short: bool,
) -> Result<bool, Refusal>
    ensures closes { IfOk result (ClosesGroup gathering.old remote is_short front.old.sequencer back.old.work front.new.sequencer back.new.work gathering.new) }
    ensures cause { IfErr result (λ refusal. refusal ≡ Refusal.Memory) }
    ensures lacks { OnErr result (LacksGroup gathering.old remote is_short front.old.sequencer back.old.work front.new.sequencer back.new.work gathering.new) }
    ensures stands { BackStands E.device E.contents back.old front.old.sequencer [] → BackStands E.device E.contents back.new front.new.sequencer [] }
    ensures committer { back.new.committer ≡ back.old.committer }
    ensures at { front.new.sequencer.position ≡ front.old.sequencer.position }
    ensures past { (past : Past) → BackStands E.device E.contents back.old front.old.sequencer [] → BackKeeps E.contents past back.old front.old.sequencer
        → BackKeeps E.contents past back.new front.new.sequencer }
{
    let position = front.position();
    if !gathering.is_group_due(position, remote, is_short) {
        return Ok(false);
    }
    if !close(alloc, front, back)? {
        return Ok(false);
    }
    gathering.closed = position;
    Ok(true)
}

/// Closes what has ended as a free list, if that is due and the committer's queue has room. Answers whether it did.
///
/// # Errors
///
/// Only `Memory`.
fn close_list<E: Durable, K: Keyspace>(
    alloc: Global,
    front: &mut Front<K>,
    back: &mut Back<E>,
    gathering: &Gathering,
    remote: u64,
    is_short: bool,
) -> Result<bool, Refusal>
    ensures closes { IfOk result (ClosesList gathering.now remote is_short front.old.sequencer back.old.work front.new.sequencer back.new.work) }
    ensures cause { IfErr result (λ refusal. refusal ≡ Refusal.Memory) }
    ensures lacks { OnErr result (LacksMemory (is_list_due gathering.now front.old.sequencer.position remote is_short (length front.old.sequencer.ended)) front.old.sequencer back.old.work
        front.new.sequencer back.new.work) }
    ensures stands { BackStands E.device E.contents back.old front.old.sequencer [] → BackStands E.device E.contents back.new front.new.sequencer [] }
    ensures committer { back.new.committer ≡ back.old.committer }
    ensures at { front.new.sequencer.position ≡ front.old.sequencer.position }
    ensures past { (past : Past) → BackStands E.device E.contents back.old front.old.sequencer [] → BackKeeps E.contents past back.old front.old.sequencer
        → BackKeeps E.contents past back.new front.new.sequencer }
{
    let ended = front.count_ended();
    if !gathering.is_list_due(front.position(), remote, is_short, ended) {
        return Ok(false);
    }
    close(alloc, front, back)
}

/// Whether as many versions find room as may be kept back from a list, each in as many lines as an image has for each entry.
fn has_ample_room<K: Keyspace>(front: &Front<K>) -> bool
    ensures { result ≡ has_room LISTED_AT_ONCE LINES_OF_AN_ENTRY front.now.sequencer.room }
{
    front.has_room(LISTED_AT_ONCE as u64, LINES_OF_AN_ENTRY)
}
