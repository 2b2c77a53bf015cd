//! From a command to its function.
ghost use Rattle.std.specs.Prelude.{◌≡◌, IsTrue, IfOk};
ghost use Rattle.cmd_core.specs.Outcome.{outcome_now};
ghost use Rattle.cmd_core.specs.Shape.{Fits};
ghost use Rattle.cmd_table.specs.Meaning as spec;
ghost use Rattle.cmd_table.specs.Row.{row, is_served};

use crate::command::Command;
use cmd_core::{Answer, Lookup, Outcome, Status};
use kv_types::CommandName;
use std::alloc::{AllocError, Global};

/// What a command that was read answers, and what it changes, where the keyspace is as it is shown.
pub fn run<L: Lookup>(
    alloc: Global,
    lookup: &L,
    command: Command<'_>,
) -> Result<Outcome, AllocError>
    requires fits { Fits (row command.name).words (row command.name).keys command.arguments.now }
    requires served { IsTrue (is_served command.name) }
    ensures { IfOk result (λ o. outcome_now o ≡ spec.does (L.keyspace lookup.now) command.entry.name command.entry.arguments.now) }
{
    let arguments = command.arguments;
    match command.name {
        CommandName::Set => cmd_string::set(alloc, lookup, arguments),
        CommandName::Get => cmd_string::get(alloc, lookup, arguments),
        CommandName::Ping => cmd_string::ping(alloc, arguments),
        CommandName::Echo => cmd_string::echo(alloc, arguments),
        CommandName::Quit => Ok(cmd_string::quit(alloc, arguments)),
        CommandName::SetNx => cmd_string::setnx(alloc, lookup, arguments),
        CommandName::GetDel => cmd_string::getdel(alloc, lookup, arguments),
        CommandName::StrLen => Ok(cmd_string::strlen(alloc, lookup, arguments)),
        CommandName::Append => cmd_string::append(alloc, lookup, arguments),
        CommandName::Del => cmd_string::del(alloc, lookup, arguments),
        CommandName::Exists => Ok(cmd_string::exists(alloc, lookup, arguments)),
        CommandName::MSet => cmd_string::mset(alloc, arguments),
        CommandName::MSetNx => cmd_string::msetnx(alloc, lookup, arguments),
        CommandName::MGet => cmd_string::mget(alloc, lookup, arguments),
        CommandName::Incr => cmd_string::incr(alloc, lookup, arguments),
        CommandName::Decr => cmd_string::decr(alloc, lookup, arguments),
        CommandName::IncrBy => cmd_string::incrby(alloc, lookup, arguments),
        CommandName::DecrBy => cmd_string::decrby(alloc, lookup, arguments),
        CommandName::TypeOf => Ok(cmd_string::type_of(alloc, lookup, arguments)),
        CommandName::DbSize => Ok(cmd_string::dbsize(alloc, lookup, arguments)),
        CommandName::FlushDb => cmd_string::flushdb(alloc, lookup, arguments),
        CommandName::HSet => cmd_hash::hset(alloc, lookup, arguments),
        CommandName::HSetNx => cmd_hash::hsetnx(alloc, lookup, arguments),
        CommandName::HGet => cmd_hash::hget(alloc, lookup, arguments),
        CommandName::HMGet => cmd_hash::hmget(alloc, lookup, arguments),
        CommandName::HDel => cmd_hash::hdel(alloc, lookup, arguments),
        CommandName::HLen => Ok(cmd_hash::hlen(alloc, lookup, arguments)),
        CommandName::HExists => Ok(cmd_hash::hexists(alloc, lookup, arguments)),
        CommandName::HStrLen => Ok(cmd_hash::hstrlen(alloc, lookup, arguments)),
        CommandName::HIncrBy => cmd_hash::hincrby(alloc, lookup, arguments),
        CommandName::HGetAll => cmd_hash::hgetall(alloc, lookup, arguments),
        CommandName::HKeys => cmd_hash::hkeys(alloc, lookup, arguments),
        CommandName::HVals => cmd_hash::hvals(alloc, lookup, arguments),
        CommandName::Unwatch => Ok(unwatch(alloc)),
        _ => unreachable!(),
    }
}

/// UNWATCH: `OK`. That the session forgets its watches is not said here.
fn unwatch(alloc: Global) -> Outcome
    ensures { outcome_now result ≡ spec.unwatch }
{
    Outcome::reads(alloc, Answer::Simple(Status::Ok))
}
