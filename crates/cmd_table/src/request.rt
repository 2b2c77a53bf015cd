//! The whole: from a request to what it is answered and what it changes.
ghost use Rattle.std.specs.Prelude.{◌≡◌, IfOk};
ghost use Rattle.cmd_table.specs.Request as spec;

use crate::command::read_command;
use crate::dispatch::run;
use cmd_core::Lookup;
use kv_types::{Change, CommandName, Reply, Request};
use std::alloc::{AllocError, Global};

/// The reply to a request, and the changes to be made in order, where the keyspace is as it is shown. A misuse is answered as its
/// error, and changes nothing.
#[tactic(auto, unfolding(crate::specs::Request::outcome_of_words))]
pub fn outcome_of_words<L: Lookup>(
    alloc: Global,
    lookup: &L,
    request: &Request,
) -> Result<(Reply, Vec<Change>), AllocError>
    ensures reply { IfOk result (λ parts. parts.0 ≡ (spec.outcome_of_words (L.keyspace lookup.now) request.now).reply) }
    ensures changes { IfOk result (λ parts. parts.1.items ≡ (spec.outcome_of_words (L.keyspace lookup.now) request.now).changes) }
{
    match read_command(request) {
        Ok(command) => run(alloc, lookup, command)?.into_parts(alloc),
        Err(misuse) => {
            let text = misuse.text(alloc)?;
            Ok((Reply::Error(text), Vec::new(alloc)))
        }
    }
}

/// Whether the connection is over once the request is answered.
#[tactic(auto, unfolding(crate::specs::Request::closes))]
pub fn closes(request: &Request) -> bool
    ensures { result ≡ spec.closes request.now }
{
    match request.name() {
        Some(CommandName::Quit) => true,
        _ => false,
    }
}
