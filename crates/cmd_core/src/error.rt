//! Why a command answers an error.
ghost use Rattle.std.specs.Prelude.{◌≡◌};
ghost use Rattle.cmd_core.specs.Error.{error_text};

/// Why the run of a command answers an error. One that does changes nothing.
#[derive(Clone, Copy, Debug, PartialEq, Eq)]
pub enum CommandError {
    /// An option that the command has not, or options that exclude one another.
    Syntax,
    /// The text of a string or of an argument is no 64-bit integer.
    NotAnInteger,
    /// The text of a field is no 64-bit integer.
    HashNotAnInteger,
    /// The result is no 64-bit integer.
    Overflow,
    /// The amount of DECRBY has no opposite within 64 bits.
    DecrementOverflow,
    /// The key holds a hash where a string is asked for, or a string where a hash is.
    WrongType,
    /// A string would be longer than `MAX_VALUE_BYTES`.
    LongString,
}

impl CommandError {
    /// What stands between the `-` and the line end of the reply.
    pub fn text(self) -> &'static [u8]
        ensures { result.now ≡ error_text self }
    {
        match self {
            CommandError::Syntax => b"ERR syntax error",
            CommandError::NotAnInteger => b"ERR value is not an integer or out of range",
            CommandError::HashNotAnInteger => b"ERR hash value is not an integer",
            CommandError::Overflow => b"ERR increment or decrement would overflow",
            CommandError::DecrementOverflow => b"ERR decrement would overflow",
            CommandError::WrongType =>
                b"WRONGTYPE Operation against a key holding the wrong kind of value",
            CommandError::LongString => b"ERR string is longer than 1048576 bytes",
        }
    }
}
