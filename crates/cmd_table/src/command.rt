//! From a request to a command, or to why it is none: tested once, over the table.
ghost use Rattle.std.specs.Prelude.{◌≡◌, ◌≤◌, IsTrue, length, drop, IfOk};
ghost use Rattle.std.specs.List.{AllByRecursion};
ghost use Rattle.kv_types.specs.declared.limits.TheConstants.{MAX_VALUE_BYTES, REQUEST_LIMITS};
ghost use Rattle.kv_types.specs.Word.{IsWithin};
ghost use Rattle.cmd_core.specs.Shape.{Fits};
ghost use Rattle.cmd_table.specs.Command as spec;
ghost use Rattle.cmd_table.specs.Row.{row, is_served};

use crate::misuse::Misuse;
use crate::row::{is_served, row_of};
use bytes::Bytes;
use kv_types::{CommandName, MAX_VALUE_BYTES, Request};

/// A command with the words after its name.
#[derive(Clone, Copy)]
pub struct Command<'a> {
    pub name: CommandName,
    pub arguments: &'a [Bytes],
}

/// The command that the request names, which is served and whose arguments are as its row asks. First the name is looked at, then the
/// number of words, then the lengths of keys and fields.
pub fn read_command(request: &Request) -> Result<Command<'_>, Misuse>
    ensures read { spec.reading_now result ≡ spec.read_command request.now }
    ensures fits { IfOk result (λ command. Fits (row command.name).words (row command.name).keys command.arguments.now) }
    ensures served { IfOk result (λ command. IsTrue (is_served command.name)) }
{
    match request.name() {
        Some(name) if is_served(name) => read_arguments(name, arguments_of(request)),
        _ => Err(Misuse::UnknownName),
    }
}

/// The command that the request names, served or not, whose arguments are as its row asks: what `read_command` reads, and besides the
/// commands that only sessions answer.
pub fn read_request(request: &Request) -> Result<Command<'_>, Misuse>
    ensures read { spec.reading_now result ≡ spec.read_request request.now }
    ensures arguments { IfOk result (λ command. command.arguments.now ≡ drop 1 request.now) }
    ensures fits { IfOk result (λ command. Fits (row command.name).words (row command.name).keys command.arguments.now) }
{
    match request.name() {
        Some(name) => read_arguments(name, arguments_of(request)),
        None => Err(Misuse::UnknownName),
    }
}

/// The words after the name.
pub(crate) fn arguments_of(request: &Request) -> &[Bytes]
    ensures words { result.now ≡ drop 1 request.now }
    ensures short { AllByRecursion (λ word. length word ≤ MAX_VALUE_BYTES) result.now }
    ensures within { IsWithin REQUEST_LIMITS result.now }
{
    &request.words()[1..]
}

fn read_arguments(name: CommandName, arguments: &[Bytes]) -> Result<Command<'_>, Misuse>
    requires { AllByRecursion (λ word. length word ≤ MAX_VALUE_BYTES) arguments.now }
    ensures read { spec.reading_now result ≡ spec.read_arguments name arguments.now }
    ensures fits { IfOk result (λ command. Fits (row command.name).words (row command.name).keys command.arguments.now) }
    ensures named { IfOk result (λ command. command.name ≡ name) }
    ensures arguments { IfOk result (λ command. command.arguments.now ≡ arguments.now) }
{
    let row = row_of(name);
    if !row.words.takes(arguments.len() + 1) {
        return Err(Misuse::WrongNumberOfWords(name));
    }
    if !row.keys.are_short(arguments) {
        return Err(Misuse::LongKey);
    }
    Ok(Command { name, arguments })
}
