//! The table: what a request of each command looks like, and which commands are served: those that run on a keyspace.
ghost use Rattle.std.specs.Prelude.{◌≡◌};
ghost use Rattle.cmd_table.specs.Row as spec;

use cmd_core::WordCount::{AtLeast, Between, EvenFrom, Exactly, OddFrom};
use cmd_core::{Keys, WordCount};
use kv_types::CommandName;

/// What a request of a command looks like.
#[derive(Clone, Copy)]
pub struct Row {
    /// How many words, the name among them.
    pub words: WordCount,
    /// Which of the words after the name are keys or fields.
    pub keys: Keys,
}

/// What a request of the command looks like.
pub fn row_of(name: CommandName) -> Row
    ensures { result ≡ spec.row name }
{
    match name {
        CommandName::Set => form(AtLeast(3), Keys::First),
        CommandName::Get => form(Exactly(2), Keys::First),
        CommandName::Ping => form(Between(1, 2), Keys::None),
        CommandName::Echo => form(Exactly(2), Keys::None),
        CommandName::Quit => form(AtLeast(1), Keys::None),
        CommandName::SetNx => form(Exactly(3), Keys::First),
        CommandName::GetDel => form(Exactly(2), Keys::First),
        CommandName::StrLen => form(Exactly(2), Keys::First),
        CommandName::Append => form(Exactly(3), Keys::First),
        CommandName::Del => form(AtLeast(2), Keys::All),
        CommandName::Exists => form(AtLeast(2), Keys::All),
        CommandName::MSet => form(OddFrom(3), Keys::EverySecond),
        CommandName::MSetNx => form(OddFrom(3), Keys::EverySecond),
        CommandName::MGet => form(AtLeast(2), Keys::All),
        CommandName::Incr => form(Exactly(2), Keys::First),
        CommandName::Decr => form(Exactly(2), Keys::First),
        CommandName::IncrBy => form(Exactly(3), Keys::First),
        CommandName::DecrBy => form(Exactly(3), Keys::First),
        CommandName::TypeOf => form(Exactly(2), Keys::First),
        CommandName::DbSize => form(Exactly(1), Keys::None),
        CommandName::FlushDb => form(AtLeast(1), Keys::None),
        CommandName::HSet => form(EvenFrom(4), Keys::FirstAndPairs),
        CommandName::HSetNx => form(Exactly(4), Keys::FirstTwo),
        CommandName::HGet => form(Exactly(3), Keys::All),
        CommandName::HMGet => form(AtLeast(3), Keys::All),
        CommandName::HDel => form(AtLeast(3), Keys::All),
        CommandName::HLen => form(Exactly(2), Keys::First),
        CommandName::HExists => form(Exactly(3), Keys::All),
        CommandName::HStrLen => form(Exactly(3), Keys::All),
        CommandName::HIncrBy => form(Exactly(4), Keys::FirstTwo),
        CommandName::HGetAll => form(Exactly(2), Keys::First),
        CommandName::HKeys => form(Exactly(2), Keys::First),
        CommandName::HVals => form(Exactly(2), Keys::First),
        CommandName::Multi => form(Exactly(1), Keys::None),
        CommandName::Exec => form(Exactly(1), Keys::None),
        CommandName::Discard => form(Exactly(1), Keys::None),
        CommandName::Watch => form(AtLeast(2), Keys::All),
        CommandName::Unwatch => form(Exactly(1), Keys::None),
    }
}

fn form(words: WordCount, keys: Keys) -> Row
    ensures { result ≡ record { words = words; keys = keys } }
{
    Row { words, keys }
}

/// Whether the command runs on a keyspace. Sessions alone answer the others.
pub fn is_served(name: CommandName) -> bool
    ensures { result ≡ spec.is_served name }
{
    match name {
        CommandName::Multi => false,
        CommandName::Exec => false,
        CommandName::Discard => false,
        CommandName::Watch => false,
        _ => true,
    }
}
