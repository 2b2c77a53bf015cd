//! How much a request may put: a column of the table, and what it says of a request's words.
ghost use Rattle.std.specs.Prelude.{◌≡◌};
ghost use Rattle.kv_types.specs.Keyspace.{Keyspace};
ghost use Rattle.cmd_core.specs.Puts.{PutsWithin};
ghost use Rattle.cmd_table.specs.Puts as spec;
ghost use Rattle.cmd_table.specs.Request.{outcome_of_words};

use crate::command::arguments_of;
use cmd_core::{PutBound, Puts};
use kv_types::{CommandName, Request};

/// Which versions the command may put.
pub fn puts_of(name: CommandName) -> Puts
    ensures { result ≡ spec.puts name }
{
    match name {
        CommandName::Set => Puts::Words(2),
        CommandName::Get => Puts::Nothing,
        CommandName::Ping => Puts::Nothing,
        CommandName::Echo => Puts::Nothing,
        CommandName::Quit => Puts::Nothing,
        CommandName::SetNx => Puts::Words(2),
        CommandName::GetDel => Puts::Nothing,
        CommandName::StrLen => Puts::Nothing,
        CommandName::Append => Puts::Appended,
        CommandName::Del => Puts::Nothing,
        CommandName::Exists => Puts::Nothing,
        CommandName::MSet => Puts::Pairs(0),
        CommandName::MSetNx => Puts::Pairs(0),
        CommandName::MGet => Puts::Nothing,
        CommandName::Incr => Puts::Integer(1),
        CommandName::Decr => Puts::Integer(1),
        CommandName::IncrBy => Puts::Integer(1),
        CommandName::DecrBy => Puts::Integer(1),
        CommandName::TypeOf => Puts::Nothing,
        CommandName::DbSize => Puts::Nothing,
        CommandName::FlushDb => Puts::Nothing,
        CommandName::HSet => Puts::Pairs(1),
        CommandName::HSetNx => Puts::Words(3),
        CommandName::HGet => Puts::Nothing,
        CommandName::HMGet => Puts::Nothing,
        CommandName::HDel => Puts::Nothing,
        CommandName::HLen => Puts::Nothing,
        CommandName::HExists => Puts::Nothing,
        CommandName::HStrLen => Puts::Nothing,
        CommandName::HIncrBy => Puts::Integer(2),
        CommandName::HGetAll => Puts::Nothing,
        CommandName::HKeys => Puts::Nothing,
        CommandName::HVals => Puts::Nothing,
        CommandName::Multi => Puts::Nothing,
        CommandName::Exec => Puts::Nothing,
        CommandName::Discard => Puts::Nothing,
        CommandName::Watch => Puts::Nothing,
        CommandName::Unwatch => Puts::Nothing,
    }
}

/// The most that a request puts, told from its words: whatever the keyspace holds, it puts no more versions, and no longer ones. What EXEC runs are
/// requests of their own, and EXEC itself puts nothing.
pub fn most_puts(request: &Request) -> PutBound
    ensures value { result ≡ spec.most_puts request.now }
    ensures enough { (s : Keyspace) → PutsWithin result (outcome_of_words s request.now).changes }
{
    puts_if_named(request.name()).most(arguments_of(request))
}

/// A word that names no command puts nothing.
fn puts_if_named(name: Option<CommandName>) -> Puts
    ensures { result ≡ spec.puts_if_named name }
{
    match name {
        Some(name) => puts_of(name),
        None => Puts::Nothing,
    }
}
