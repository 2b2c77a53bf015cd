//! The commands by name.
ghost use Rattle.std.specs.Prelude.{◌≡◌};
ghost use Rattle.kv_types.specs.declared.command_name.TheConstants.{COMMANDS};
ghost use Rattle.kv_types.specs.CommandName as spec;

/// A command: one that runs on a keyspace, or one that sessions alone answer.
#[derive(Clone, Copy, Debug, PartialEq, Eq)]
pub enum CommandName {
    Set,
    Get,
    Ping,
    Echo,
    Quit,
    SetNx,
    GetDel,
    StrLen,
    Append,
    Del,
    Exists,
    MSet,
    MSetNx,
    MGet,
    Incr,
    Decr,
    IncrBy,
    DecrBy,
    TypeOf,
    DbSize,
    FlushDb,
    HSet,
    HSetNx,
    HGet,
    HMGet,
    HDel,
    HLen,
    HExists,
    HStrLen,
    HIncrBy,
    HGetAll,
    HKeys,
    HVals,
    Multi,
    Exec,
    Discard,
    Watch,
    Unwatch,
}

/// Every command, in the order in which names are compared.
pub const COMMANDS: [CommandName; 38] = [
    CommandName::Set,
    CommandName::Get,
    CommandName::Ping,
    CommandName::Echo,
    CommandName::Quit,
    CommandName::SetNx,
    CommandName::GetDel,
    CommandName::StrLen,
    CommandName::Append,
    CommandName::Del,
    CommandName::Exists,
    CommandName::MSet,
    CommandName::MSetNx,
    CommandName::MGet,
    CommandName::Incr,
    CommandName::Decr,
    CommandName::IncrBy,
    CommandName::DecrBy,
    CommandName::TypeOf,
    CommandName::DbSize,
    CommandName::FlushDb,
    CommandName::HSet,
    CommandName::HSetNx,
    CommandName::HGet,
    CommandName::HMGet,
    CommandName::HDel,
    CommandName::HLen,
    CommandName::HExists,
    CommandName::HStrLen,
    CommandName::HIncrBy,
    CommandName::HGetAll,
    CommandName::HKeys,
    CommandName::HVals,
    CommandName::Multi,
    CommandName::Exec,
    CommandName::Discard,
    CommandName::Watch,
    CommandName::Unwatch,
];

impl CommandName {
    /// Its name in lower case. A request may write it in any.
    pub fn text(self) -> &'static [u8]
        ensures { result.now ≡ spec.text self }
    {
        match self {
            CommandName::Set => b"set",
            CommandName::Get => b"get",
            CommandName::Ping => b"ping",
            CommandName::Echo => b"echo",
            CommandName::Quit => b"quit",
            CommandName::SetNx => b"setnx",
            CommandName::GetDel => b"getdel",
            CommandName::StrLen => b"strlen",
            CommandName::Append => b"append",
            CommandName::Del => b"del",
            CommandName::Exists => b"exists",
            CommandName::MSet => b"mset",
            CommandName::MSetNx => b"msetnx",
            CommandName::MGet => b"mget",
            CommandName::Incr => b"incr",
            CommandName::Decr => b"decr",
            CommandName::IncrBy => b"incrby",
            CommandName::DecrBy => b"decrby",
            CommandName::TypeOf => b"type",
            CommandName::DbSize => b"dbsize",
            CommandName::FlushDb => b"flushdb",
            CommandName::HSet => b"hset",
            CommandName::HSetNx => b"hsetnx",
            CommandName::HGet => b"hget",
            CommandName::HMGet => b"hmget",
            CommandName::HDel => b"hdel",
            CommandName::HLen => b"hlen",
            CommandName::HExists => b"hexists",
            CommandName::HStrLen => b"hstrlen",
            CommandName::HIncrBy => b"hincrby",
            CommandName::HGetAll => b"hgetall",
            CommandName::HKeys => b"hkeys",
            CommandName::HVals => b"hvals",
            CommandName::Multi => b"multi",
            CommandName::Exec => b"exec",
            CommandName::Discard => b"discard",
            CommandName::Watch => b"watch",
            CommandName::Unwatch => b"unwatch",
        }
    }

    /// The command that a word names, in any ASCII case, and `None` where there is none.
    pub fn of_word(word: &[u8]) -> Option<CommandName>
        ensures { result ≡ spec.find COMMANDS word.now }
    {
        find(&COMMANDS, word)
    }
}

/// The first of the commands that the word names.
fn find(commands: &[CommandName], word: &[u8]) -> Option<CommandName>
    ensures { result ≡ spec.find commands.now word.now }
{
    for command in commands {
        if is_named(command.text(), word) {
            return Some(*command);
        }
    }
    None
}

fn is_named(expected: &[u8], word: &[u8]) -> bool
    ensures { result ≡ spec.is_named expected.now word.now }
{
    word.eq_ignore_ascii_case(expected)
}
