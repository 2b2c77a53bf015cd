//! What a request answers and what it changes, computed over any keyspace that can be looked up.
ghost use Rattle.std.specs.Prelude.{◌≡◌, IfOk};
ghost use Rattle.model.specs.Command as meaning;
ghost use Rattle.model.specs.Command.{Gives};

use cmd_core::Lookup;
use cmd_table::outcome_of_words;
use kv_types::{Change, Item, Reply, Request};
use std::alloc::{AllocError, Global};

/// What a request answers, and what it changes, one change after another.
#[derive(Debug, Drop)]
pub struct Effect {
    pub reply: Reply,
    pub changes: Vec<Change>,
}

/// The meaning of a request that is run: what it answers and what it changes where the keyspace is as it is shown.
pub fn outcome_of<L: Lookup>(
    alloc: Global,
    lookup: &L,
    request: &Request,
) -> Result<Effect, AllocError>
    ensures { IfOk result (λ o. Gives o (meaning.outcome_of (L.keyspace lookup.now) request.now)) }
{
    let (reply, changes) = outcome_of_words(alloc, lookup, request)?;
    Ok(Effect { reply, changes })
}

/// Whether nothing more is taken from a connection after this item: a request to quit, or a fault.
pub fn closes(item: &Item) -> bool
    ensures { result ≡ meaning.closes item.now }
{
    match item {
        Item::Request(request) => cmd_table::closes(request),
        Item::Fault(_) => true,
    }
}
