//! What the words of the command line ask for.
use addresses::is_address;
use bytes::Bytes;
use clap::Error;
use clap::builder::{Arg, ArgAction, Command};
use clap::error::ErrorKind;
use std::alloc::{AllocError, Global};
use version::VERSION;

/// The program's name in its own texts.
pub const PROGRAM: &str = "wbl-cli";

const CONNECT: &str = "connect";

const WORD: &str = "word";

const NO_ADDRESS: &str = "'--connect <A>' takes a host and a port, as 127.0.0.1:7000";

/// What the program is asked to do.
#[derive(Drop)]
pub struct Task<'a> {
    /// The address of the server, as it was written.
    pub address: &'a str,
    /// The words of the one request. Without any the requests are lines of standard input.
    pub words: Vec<Bytes>,
}

/// What the words ask for, the first of which is the program's name.
///
/// # Errors
///
/// The text for whoever wrote the command line: what is wrong with it, or the help that was asked for. `OutOfMemory` where memory was refused.
pub fn options<'a>(alloc: Global, words: &'a [String]) -> Result<Task<'a>, Error> {
    let mut command = grammar(alloc)?;
    let matches = command.try_get_matches_from_mut(words)?;
    let given = matches.get_strs(WORD).unwrap_or(&[]);
    match matches.get_str(CONNECT) {
        Some(address) if !is_address(address) => {
            Err(command.error(ErrorKind::ValueValidation, NO_ADDRESS)?)
        }
        Some(address) => Ok(Task {
            address,
            words: copied(alloc, given)?,
        }),
        None => Err(command.error(ErrorKind::MissingRequiredArgument, "an address is missing")?),
    }
}

/// The text for a command line of which some word is no text.
pub fn not_text(alloc: Global) -> Error {
    match grammar(alloc) {
        Ok(mut command) => {
            let message = "invalid UTF-8 was detected in one or more arguments";
            match command.error(ErrorKind::ValueValidation, message) {
                Ok(error) => error,
                Err(error) => Error::from(error),
            }
        }
        Err(error) => error,
    }
}

/// The option and the words.
fn grammar<'a>(alloc: Global) -> Result<Command<'a>, Error> {
    let connect = Arg::new(alloc, CONNECT)
        .long(CONNECT)
        .value_name("A")
        .help("Where the server listens, as 127.0.0.1:7000")
        .required(true)
        .action(ArgAction::Set);
    let words = Arg::new(alloc, WORD)
        .value_name(WORD)
        .help("A request; without one, each line of standard input is one")
        .num_args(0..)
        .action(ArgAction::Append);
    let command = Command::new(alloc, PROGRAM)
        .bin_name(PROGRAM)?
        .about("Sends requests to a server, and prints the replies")
        .version(VERSION)
        .arg(connect)?
        .arg(words)?;
    Ok(command)
}

/// The bytes of each text.
fn copied(alloc: Global, texts: &[&str]) -> Result<Vec<Bytes>, AllocError> {
    let mut copies = Vec::with_capacity(alloc, texts.len())?;
    for text in texts {
        copies.push(Bytes::copy_from_slice(alloc, text.as_bytes())?)?;
    }
    Ok(copies)
}
