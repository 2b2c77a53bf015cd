//! From the replies of a connection's ring to the bytes that go out.
ghost use Rattle.std.specs.Prelude.{◌≡◌, [], true, false, OnOk, OnErr, IfOk};
ghost use Rattle.pipes.specs.Ring.{taken_at, known_at};
ghost use Rattle.clients.specs.Rounds.{Rounds, BreaksOff};
ghost use Rattle.clients.specs.Texts.{unsent, Carries};

use crate::outbox::{BATCH, Outbox, Taken};
use crate::signals::{Signals, WasOver};
use kv_types::{Held, Seen};
use pipes::{Inlet, RingInlet};
use std::io;
use std::io::Write;
use std::sync::Wait;

/// What a round of writing came to.
#[derive(Clone, Copy, Debug, PartialEq, Eq)]
pub enum Round {
    /// All that may go out is written.
    Idle,
    /// There may be more replies to take.
    Busy,
    /// The writer takes no more now.
    Blocked,
    /// All replies are written, and no more will come.
    Last,
}

/// Writes what is left from the rounds before, holds the replies that are there, and writes what is covered then, where both marks were seen so far. No
/// replies are taken while the writer does not take what was released, so that the thread that serves leaves a connection whose peer does not read.
///
/// # Errors
///
/// `AllocError`, where the reply that was taken last is lost, and those of the writer.
pub fn write_round<R: Wait, W: Write>(
    rt: &R,
    writer: &mut W,
    replies: &mut RingInlet<Held>,
    outbox: &mut Outbox,
    seen: &Seen,
    over: WasOver,
    signals: &Signals,
) -> io::Result<Round>
    ensures rounds { IfOk result (λ round. Rounds seen.now round (taken_at replies.old) (taken_at replies.new) (W.contents writer.old) (W.contents writer.new)
        outbox.old.gate outbox.new.gate) }
    ensures breaks_off { OnErr result (BreaksOff seen.now (taken_at replies.old) (taken_at replies.new) (W.contents writer.old) (W.contents writer.new)
        outbox.old.gate) }
    ensures carries { OnOk result (Carries (taken_at replies.old) (taken_at replies.new) (W.contents writer.old) (W.contents writer.new)
        (unsent outbox.old.gate) (unsent outbox.new.gate)) }
    ensures last { IfOk result (λ round. round ≡ Round.Last → unsent outbox.new.gate ≡ []) }
    ensures over { IfOk result (λ round. round ≡ Round.Last → (over.is_over ≡ true) × (taken_at replies.new ≡ taken_at replies.old) × (known_at replies.new ≡ [])) }
    ensures idle { IfOk result (λ round. round ≡ Round.Idle → known_at replies.new ≡ []) }
    // nobody calls for a connection that is over: another round finds that there is no more
    ensures ends { IfOk result (λ round. round ≡ Round.Idle → over.is_over ≡ true → taken_at replies.new ≡ taken_at replies.old) }
{
    if !outbox.write_released(writer)? {
        return Ok(Round::Blocked);
    }
    let taken = outbox.hold_all(replies)?;
    if taken != Taken::Nothing {
        signals.made_room(rt);
    }
    let is_over = over.is_over();
    let is_last = outbox.is_covered(seen) & is_over & (taken == Taken::Nothing);
    if !outbox.write_covered(writer, seen)? {
        return Ok(Round::Blocked);
    }
    Ok(round_of(is_last, is_over, taken))
}

/// What a round came to that wrote all that may go out.
fn round_of(is_last: bool, is_over: bool, taken: Taken) -> Round
    ensures last { result ≡ Round.Last → is_last ≡ true }
    ensures idle { result ≡ Round.Idle → taken ≡ Taken.Batch → ⊥ }
    ensures ends { result ≡ Round.Idle → is_over ≡ true → taken ≡ Taken.Nothing }
    ensures written { result ≡ Round.Blocked → ⊥ }
{
    match taken {
        _ if is_last => Round::Last,
        Taken::Batch => Round::Busy,
        Taken::All if is_over => Round::Busy,
        Taken::All | Taken::Nothing => Round::Idle,
    }
}

/// Takes the replies that are there and lets them go, up to a batch. Says whether there was one.
pub(crate) fn let_replies_go(replies: &mut RingInlet<Held>) -> bool
    ensures { result ≡ false → known_at replies.new ≡ [] }
{
    if replies.take().is_none() {
        return false;
    }
    for _ in 1..BATCH {
        if replies.take().is_none() {
            break;
        }
    }
    true
}
