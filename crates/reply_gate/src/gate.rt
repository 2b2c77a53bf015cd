//! The gate of one connection.
ghost use Rattle.std.specs.Prelude.{◌≡◌, ℕ, ◌+◌, ◌≤◌, List, [], ◌∷◌, ◌++◌, length, take, drop, OnOk, OnErr};
ghost use Rattle.kv_types.specs.Reply.{text_of};
ghost use Rattle.reply_gate.specs.Gate.{covered_bytes, uncovered_rest, held_bytes, is_first_covered};

use crate::held_text::HeldText;
use crate::parts::Parts;
use kv_types::{Reply, Seen};
use std::alloc::{AllocError, Global};
use std::collections::VecDeque;
use std::marker::Model;

/// Holds the replies to one connection, in order, until they are covered. A clause sees the bytes that were released and not yet sent, and the
/// text, the positions and the lengths of the replies that are held.
#[derive(Drop)]
pub struct Gate {
    // what was released and not yet sent, followed by the text of the held replies
    parts: Parts,
    // how many bytes of `parts` were released
    pending: usize,
    held: VecDeque<HeldText>,
}

impl Model for Gate {
    ghost use Rattle.std.specs.Prelude.{◌≡◌, ◌≤◌, length, take, drop};
    ghost use Rattle.reply_gate.specs.Gate.{Held, held_bytes};

    ghost Value = { Held };

    ghost use Rattle.reply_gate.specs.Parts.{all_bytes};

    ghost view = { λ g. record { pending = take g.pending (all_bytes g.parts); waiting = drop g.pending (all_bytes g.parts); replies = g.held.items } };

    ghost invariant = { λ g. (g.pending ≤ length (all_bytes g.parts)) × (length (drop g.pending (all_bytes g.parts)) ≡ held_bytes g.held.items) };
}

impl Gate {
    /// A gate that holds nothing.
    pub fn new(alloc: Global) -> Gate
        ensures pending { result.pending ≡ [] }
        ensures waiting { result.waiting ≡ [] }
        ensures replies { result.replies ≡ [] }
    {
        Gate {
            parts: Parts::new(alloc),
            pending: 0,
            held: VecDeque::new(alloc),
        }
    }

    /// Holds a reply that was made at this position in the list of calls. An `Err` changes nothing.
    pub fn hold(&mut self, reply: &Reply, position: u64) -> Result<(), AllocError>
        ensures waiting { OnOk result (self.new.waiting ≡ self.old.waiting ++ text_of reply.now) }
        ensures replies { OnOk result (self.new.replies ≡ self.old.replies ++ record { position = position; bytes = length (text_of reply.now) } ∷ []) }
        ensures pending { self.new.pending ≡ self.old.pending }
        ensures err { OnErr result (self.new ≡ self.old) }
    {
        self.held.reserve(1)?;
        let before = self.parts.len();
        self.parts.write(reply)?;
        let bytes = self.parts.len() - before;
        self.held.push_back_reserved(HeldText { position, bytes });
        Ok(())
    }

    /// Whether the first held reply is covered, so that `release` would release it.
    pub fn can_release(&self, seen: &Seen) -> bool
        ensures { result ≡ is_first_covered seen.now self.now.replies }
    {
        match self.held.front() {
            Some(reply) => reply.is_covered(seen),
            None => false,
        }
    }

    /// Releases exactly the longest prefix of covered replies.
    pub fn release(&mut self, seen: &Seen)
        ensures pending { self.new.pending
            ≡ self.old.pending ++ take (covered_bytes seen.now self.old.replies) self.old.waiting }
        ensures waiting { self.new.waiting ≡ drop (covered_bytes seen.now self.old.replies) self.old.waiting }
        ensures replies { self.new.replies ≡ uncovered_rest seen.now self.old.replies }
    {
        let waiting = self.parts.len() - self.pending;
        self.pending += take_covered(&mut self.held, seen, waiting);
    }

    /// How many bytes were released and not yet sent.
    pub fn pending_len(&self) -> usize
        ensures { result ≡ length self.now.pending }
    {
        self.pending
    }

    /// The first of the bytes that were released and not yet sent: those that lie together. There are none only where none are pending.
    pub fn pending(&self) -> &[u8]
        ensures first { (rest : List ℕ) × (self.now.pending ≡ result.now ++ rest) }
        ensures some { result.now ≡ [] → self.now.pending ≡ [] }
    {
        let first = self.parts.first();
        &first[..self.pending.min(first.len())]
    }

    /// Removes the first `n` of the pending bytes, which were sent. They may end anywhere.
    pub fn sent(&mut self, n: usize)
        requires { n ≤ length self.old.pending }
        ensures pending { self.new.pending ≡ drop n self.old.pending }
        ensures waiting { self.new.waiting ≡ self.old.waiting }
        ensures replies { self.new.replies ≡ self.old.replies }
    {
        self.parts.advance(n);
        self.pending -= n;
    }

    /// Appends the first `n` of the pending bytes to `out`, which takes them as sent. An `Err` changes nothing.
    pub fn write_to(&mut self, n: usize, out: &mut Vec<u8>) -> Result<(), AllocError>
        requires { n ≤ length self.old.pending }
        ensures out { OnOk result (out.new.items ≡ out.old.items ++ take n self.old.pending) }
        ensures pending { OnOk result (self.new.pending ≡ drop n self.old.pending) }
        ensures waiting { self.new.waiting ≡ self.old.waiting }
        ensures replies { self.new.replies ≡ self.old.replies }
        ensures err { OnErr result ((self.new ≡ self.old) × (out.new.items ≡ out.old.items)) }
    {
        self.parts.move_to(n, out)?;
        self.pending -= n;
        Ok(())
    }
}

/// Takes the longest prefix of covered replies, and counts its bytes. All the replies together have at most `most` bytes.
fn take_covered(held: &mut VecDeque<HeldText>, seen: &Seen, most: usize) -> usize
    requires { held_bytes held.old.items ≤ most }
    ensures within { result ≤ most }
    ensures bytes { result ≡ covered_bytes seen.now held.old.items }
    ensures rest { held.new.items ≡ uncovered_rest seen.now held.old.items }
{
    let mut bytes = 0;
    while let Some(reply) = held.front() {
        if !reply.is_covered(seen) {
            break;
        }
        bytes += reply.bytes;
        let _ = held.pop_front();
    }
    bytes
}
