//! What a request asks of a session.
ghost use Rattle.std.specs.Prelude.{◌≡◌, IsTrue, drop};
ghost use Rattle.cmd_core.specs.declared.shape.Keys.TheVariants as shape;
ghost use Rattle.cmd_core.specs.Shape.{are_short};
ghost use Rattle.multi_watch.specs.Verb as spec;

use cmd_table::{Misuse, read_request};
use kv_types::{CommandName, Request};

/// What a request asks of a session.
#[derive(Clone, Copy, Debug, PartialEq, Eq)]
pub enum Verb {
    /// It is no command.
    Misused(Misuse),
    Quit,
    Multi,
    Exec,
    Discard,
    Watch,
    Unwatch,
    /// A command that runs on the keyspace.
    Other,
}

impl Verb {
    /// What a request asks of a session.
    #[tactic(auto, unfolding(crate::specs::Verb::verb_of))]
    pub fn of(request: &Request) -> Verb
        ensures verb { result ≡ spec.verb_of request.now }
        ensures keys { result ≡ Verb.Watch → IsTrue (are_short shape.All (drop 1 request.now)) }
    {
        match read_request(request) {
            Ok(command) => Verb::of_name(command.name),
            Err(misuse) => Verb::Misused(misuse),
        }
    }

    fn of_name(name: CommandName) -> Verb
        ensures verb { result ≡ spec.verb_of_name name }
        ensures watch { result ≡ Verb.Watch → name ≡ CommandName.Watch }
    {
        match name {
            CommandName::Quit => Verb::Quit,
            CommandName::Multi => Verb::Multi,
            CommandName::Exec => Verb::Exec,
            CommandName::Discard => Verb::Discard,
            CommandName::Watch => Verb::Watch,
            CommandName::Unwatch => Verb::Unwatch,
            _ => Verb::Other,
        }
    }
}
