//! Why a request names no command.
ghost use Rattle.std.specs.Prelude.{◌≡◌, IfOk, IsErr};
ghost use Rattle.kv_types.specs.declared.command_name.CommandName.{CommandName};
ghost use Rattle.cmd_table.specs.Misuse as spec;

use bytes::Bytes;
use kv_types::CommandName;
use std::alloc::{AllocError, Global};

/// Why a request is refused before it runs.
#[derive(Clone, Copy, Debug, PartialEq, Eq)]
pub enum Misuse {
    /// No command that is served has this name.
    UnknownName,
    /// The command takes more words, fewer, or an even or odd number of them.
    WrongNumberOfWords(CommandName),
    /// A key or a field is longer than 512 bytes.
    LongKey,
}

impl Misuse {
    /// What stands between the `-` and the line end of the reply. Only the wrong number of words, whose text shows the name, takes
    /// memory.
    pub fn text(self, alloc: Global) -> Result<Bytes, AllocError>
        ensures text { IfOk result (λ text. text ≡ spec.misuse_text self) }
        ensures memory { IsErr result → (command : CommandName) × (self ≡ Self.WrongNumberOfWords command) }
    {
        let text: &'static [u8] = match self {
            Misuse::UnknownName => b"ERR unknown command",
            Misuse::WrongNumberOfWords(name) => {
                return wrong_number_of_words(alloc, name.text());
            }
            Misuse::LongKey => b"ERR key or field is longer than 512 bytes",
        };
        Ok(Bytes::from_static(text))
    }
}

fn wrong_number_of_words(alloc: Global, name: &[u8]) -> Result<Bytes, AllocError>
    ensures { IfOk result (λ text. text ≡ spec.wrong_number_of_words name.now) }
{
    let mut text = Vec::from_slice(alloc, b"ERR wrong number of arguments for '")?;
    text.extend_from_slice(name)?;
    text.extend_from_slice(b"' command")?;
    Ok(Bytes::from_vec(text)?)
}
