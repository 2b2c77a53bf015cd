//! The words of the command line.
use crate::grammar::grammar;
use crate::tasks::{BadValue, Task, asked};
use clap::Error;
use clap::error::ErrorKind;
use std::alloc::Global;

/// What the words ask for, the first of which is the program's name.
///
/// # Errors
///
/// The text for whoever wrote the command line, of what is wrong with it. `OutOfMemory` where memory was refused.
pub fn options<'a>(alloc: Global, words: &'a [String]) -> Result<Task<'a>, Error> {
    let mut command = grammar(alloc)?;
    let matches = match command.try_get_matches_from_mut(words) {
        Ok(matches) => matches,
        Err(error) if error.kind() == ErrorKind::DisplayVersion => return Ok(Task::Version),
        Err(error) if error.kind() == ErrorKind::DisplayHelp => return Ok(Task::Help(error)),
        Err(error) => return Err(error),
    };
    match asked(&matches) {
        Ok(Some(task)) => Ok(task),
        Ok(None) => Err(command.error(ErrorKind::MissingSubcommand, "a subcommand is missing")?),
        Err(BadValue(what)) => Err(command.error(ErrorKind::ValueValidation, what)?),
    }
}

/// The text for a command line of which some word is no text.
pub fn not_text(alloc: Global) -> Error {
    match grammar(alloc) {
        Ok(mut command) => {
            let message = "invalid UTF-8 was detected in one or more arguments";
            match command.error(ErrorKind::ValueValidation, message) {
                Ok(error) => error,
                Err(error) => Error::from(error),
            }
        }
        Err(error) => error,
    }
}
