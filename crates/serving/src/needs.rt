//! How much room a request may need.
ghost use Rattle.std.specs.Prelude.{◌≡◌, ◌+◌, ◌++◌, ◌<◌, ◌^◌, List, true};
ghost use Rattle.kv_types.specs.declared.change.Change.{Change as KeyChange};
ghost use Rattle.kv_types.specs.Keyspace.{Keyspace};
ghost use Rattle.cmd_table.specs.Request.{outcome_of_words};
ghost use Rattle.serving.specs.Filling.{all_lines};
ghost use Rattle.serving.specs.Need as spec;

use cmd_table::most_puts;
use kv_types::{CommandName, Item, Request};
use model::lines_of_bytes;

/// Room for so many versions, each in an extent of at most so many lines.
#[derive(Clone, Copy)]
pub(crate) struct Need {
    pub(crate) count: u64,
    pub(crate) lines: u64,
}

/// What an item asks of the room.
#[derive(Clone, Copy)]
pub(crate) enum Asked {
    /// It may take as much, where it runs at once.
    AtMost(Need),
    /// MULTI: what comes waits for EXEC.
    Begins,
    /// EXEC: what waited is run.
    Runs,
    /// DISCARD: what waited is let go.
    Drops,
}

/// What the requests of a connection ask for that wait for EXEC.
#[derive(Clone, Copy)]
pub(crate) struct Queued {
    is_open: bool,
    need: Need,
}

impl Need {
    /// No room.
    pub(crate) const NONE: Need = Need { count: 0, lines: 1 };

    /// The lines of all these versions.
    pub(crate) fn all_lines(&self) -> u64
        ensures { result ≡ all_lines self.now }
    {
        self.count.saturating_mul(self.lines.max(1))
    }

    /// Room for both: enough for the changes of one behind those of the other, as far as 64 bits count them.
    fn and(self, other: Need) -> Need
        ensures value { result ≡ spec.need_of_both self other }
        ensures enough { (changes more : List KeyChange) → self.count + other.count < 2 ^ 64 → spec.IsEnough self changes → spec.IsEnough other more
            → spec.IsEnough result (changes ++ more) }
    {
        Need {
            count: self.count.saturating_add(other.count),
            lines: self.lines.max(other.lines),
        }
    }
}

impl Queued {
    /// Nothing waits.
    pub(crate) const NOTHING: Queued = Queued {
        is_open: false,
        need: Need::NONE,
    };

    /// The room that an item may need in its turn.
    pub(crate) fn need(&self, asked: Asked) -> Need
        ensures { result ≡ spec.need_in_turn self.now asked }
    {
        match asked {
            Asked::Runs => self.need,
            Asked::AtMost(need) if !self.is_open => need,
            _ => Need::NONE,
        }
    }

    /// An item had its turn: in a transaction it waits for EXEC, unless it begins or ends one.
    pub(crate) fn note(&mut self, asked: Asked)
        ensures { self.new ≡ spec.queued_after self.old asked }
    {
        match asked {
            Asked::AtMost(need) if self.is_open => *self = Queued::open_for(self.need.and(need)),
            Asked::AtMost(_) => {}
            Asked::Begins => *self = Queued::open_for(Need::NONE),
            Asked::Runs | Asked::Drops => *self = Queued::NOTHING,
        }
    }

    /// A transaction is open, and what waits may need so much.
    fn open_for(need: Need) -> Queued
        ensures { result ≡ record { is_open = true; need = need } }
    {
        Queued {
            is_open: true,
            need,
        }
    }
}

/// What an item asks of the room.
pub(crate) fn asked_by(item: &Item) -> Asked
    ensures { result ≡ spec.asked_by item.now }
{
    match item {
        Item::Request(request) => asked_by_request(request),
        Item::Fault(_) => Asked::AtMost(Need::NONE),
    }
}

fn asked_by_request(request: &Request) -> Asked
    ensures { result ≡ spec.asked_by_words request.now }
{
    match request.name() {
        Some(CommandName::Multi) => Asked::Begins,
        Some(CommandName::Exec) => Asked::Runs,
        Some(CommandName::Discard) => Asked::Drops,
        _ => Asked::AtMost(need_of(request)),
    }
}

/// The room for all that the request puts, where it runs at once.
fn need_of(request: &Request) -> Need
    ensures value { result ≡ spec.need_of request.now }
    ensures enough { (s : Keyspace) → spec.IsEnough result (outcome_of_words s request.now).changes }
{
    let most = most_puts(request);
    Need {
        count: most.count as u64,
        lines: lines_of_bytes(most.bytes as u64),
    }
}
