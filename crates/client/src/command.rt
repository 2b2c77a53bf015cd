//! What the program does for the words of its command line.
ghost use Rattle.std.specs.Prelude.{◌≡◌, ◌⊎◌, ◌↔◌, ℕ, ◌<◌, ◌≤◌, List, [], true, false, Some, None, pos, IfOk, OnOk, length};
ghost use Rattle.std.specs.IoError.{raw_os_error};
ghost use Rattle.std.specs.Io.KnownBytes.{Appends};
ghost use Rattle.client.specs.Exchange.{AreAsked, Talks};
ghost use Rattle.client.specs.Told.{AsksHelp, AsksVersion, IsHelp, IsStatus, PrintsReplies, status_after, usage, version_line};
ghost use Rattle.client.specs.declared.failure.Unreached.TheVariants.{Descriptor, Name};

use crate::exchange::Connection;
use crate::failure::{FAILED, Failure, Unreached};
use crate::options::{PROGRAM, Task, options};
use crate::talking::{ask, ask_lines, print};
use clap::Error;
use clap::error::ErrorKind;
use std::alloc::Global;
use std::io::{self, BufRead, Read, Write};
use std::net::{Net, TcpListener, TcpStream};
use version::VERSION;

/// The status where every reply came and was printed, and none was an error.
const DONE: u8 = 0;

/// The system's number of an error where it, or this process, has no descriptor left.
const ENFILE: i32 = 23;

const EMFILE: i32 = 24;

/// What the program prints where it is started without a word.
const USAGE: &str = "wbl-cli --connect A [word ..]\n";

/// Does what the words ask for, the first of which is the program's name, and returns the exit status. Without any further word it says how it
/// is called, asked for its version alone which program it is, and asked for help that. What went wrong is told to `errors`.
pub fn command<N: Net<Listener = TcpListener, Stream = TcpStream>, R: BufRead, W: Write, E: Write>(
    rt: &N,
    alloc: Global,
    words: &[String],
    reader: &mut R,
    writer: &mut W,
    errors: &mut E,
) -> u8
    ensures status { IsStatus result }
    ensures usage { length words.now ≤ 1 → result ≡ 0 → Appends (W.contents writer.old) (W.contents writer.new) usage }
    ensures version { AsksVersion words.now → result ≡ 0 → Appends (W.contents writer.old) (W.contents writer.new) version_line }
    ensures replies { 1 < length words.now → ¬ AsksVersion words.now → ¬ AsksHelp words.now → result ≡ 0 → PrintsReplies false (R.remaining reader.old) (W.contents writer.old) (W.contents writer.new) }
{
    match run(rt, alloc, words, reader, writer) {
        Ok(false) => DONE,
        Ok(true) => FAILED,
        Err(failure) => tell(&failure, errors),
    }
}

/// Tells what went wrong, and returns the exit status. Where even that cannot be written, the status has to do.
pub fn tell<E: Write>(failure: &Failure, errors: &mut E) -> u8
    ensures status { result ≡ status_after failure.now }
    ensures failed { 0 < result }
    ensures known { IsStatus result }
{
    let _ = failure.tell(errors);
    failure.status()
}

/// Does what the words ask for. The answer is whether a reply was an error.
fn run<N: Net<Listener = TcpListener, Stream = TcpStream>, R: BufRead, W: Write>(
    rt: &N,
    alloc: Global,
    words: &[String],
    reader: &mut R,
    writer: &mut W,
) -> Result<bool, Failure>
    ensures usage { length words.now ≤ 1 → OnOk result (Appends (W.contents writer.old) (W.contents writer.new) usage) }
    ensures version { AsksVersion words.now → OnOk result (Appends (W.contents writer.old) (W.contents writer.new) version_line) }
    ensures replies { 1 < length words.now → ¬ AsksVersion words.now → ¬ AsksHelp words.now → IfOk result (λ failed. PrintsReplies failed (R.remaining reader.old) (W.contents writer.old) (W.contents writer.new)) }
{
    if words.len() <= 1 {
        return print_usage(writer);
    }
    if asks_version(words) {
        return print_version(writer);
    }
    let task = match options(alloc, words) {
        Ok(task) => task,
        Err(error) if error.kind() == ErrorKind::DisplayHelp && asks_help(words) => {
            return print_help(&error, writer);
        }
        Err(error) => return Err(Failure::from(error)),
    };
    let stream = match TcpStream::connect(rt, task.address) {
        Ok(stream) => stream,
        Err(error) => return Err(Failure::Unreached(cause_of(&error))),
    };
    // A request is to go out as soon as it is written. A socket that refuses this is slower, and nothing else.
    let _ = stream.set_nodelay(true);
    let mut connection = Connection::new(alloc, &stream, &stream);
    talk(alloc, &task, &mut connection, reader, writer)
}

/// Says how the program is called.
fn print_usage<W: Write>(writer: &mut W) -> Result<bool, Failure>
    ensures { OnOk result (Appends (W.contents writer.old) (W.contents writer.new) usage) }
{
    match print(USAGE.as_bytes(), writer) {
        Ok(()) => Ok(false),
        Err(error) => Err(Failure::Write(error)),
    }
}

/// Whether the words ask which program this is, and for nothing else.
fn asks_version(words: &[String]) -> bool
    ensures asks { result ≡ true → AsksVersion words.now }
    ensures not { result ≡ false → ¬ AsksVersion words.now }
{
    match words {
        [_, word] => word.as_str() == "--version" || word.as_str() == "-V",
        _ => false,
    }
}

/// Says which program this is.
fn print_version<W: Write>(writer: &mut W) -> Result<bool, Failure>
    ensures { OnOk result (Appends (W.contents writer.old) (W.contents writer.new) version_line) }
{
    match writeln!(writer, "{PROGRAM} {VERSION}") {
        Ok(()) => Ok(false),
        Err(error) => Err(Failure::Write(error)),
    }
}

/// Whether one of the words asks for help, before one behind which none is an option.
fn asks_help(words: &[String]) -> bool
    ensures { result ≡ true → AsksHelp words.now }
{
    match words {
        [word, rest @ ..] => is_help(word) || (word.as_str() != "--" && asks_help(rest)),
        [] => false,
    }
}

fn is_help(word: &String) -> bool
    ensures { result ≡ true → IsHelp word.now }
{
    word.as_str() == "--help" || word.as_str() == "-h"
}

/// Prints the help.
fn print_help<W: Write>(help: &Error, writer: &mut W) -> Result<bool, Failure> {
    match write!(writer, "{help}") {
        Ok(()) => Ok(false),
        Err(error) => Err(Failure::Write(error)),
    }
}

/// Why there was no connection. An error of the resolver's own has no number of the system.
fn cause_of(error: &io::Error) -> Unreached
    ensures descriptor { (result ≡ Descriptor) ↔ ((raw_os_error error.now ≡ Some (pos 23)) ⊎ (raw_os_error error.now ≡ Some (pos 24))) }
    ensures name { (result ≡ Name) ↔ (raw_os_error error.now ≡ None) }
{
    match error.raw_os_error() {
        Some(EMFILE | ENFILE) => Unreached::Descriptor,
        Some(_) => Unreached::Nobody,
        None => Unreached::Name,
    }
}

/// Sends the one request, or those of the reader's lines, and prints the replies. The answer is whether one of them was an error.
fn talk<A: Read, B: Write, R: BufRead, W: Write>(
    alloc: Global,
    task: &Task,
    connection: &mut Connection<A, B>,
    reader: &mut R,
    writer: &mut W,
) -> Result<bool, Failure>
    ensures { IfOk result (λ failed. (requests : List (List (List ℕ))) × AreAsked task.now.words.items (R.remaining reader.old) requests
        × Talks requests failed (B.contents connection.old.writer) (B.contents connection.new.writer)
        (A.remaining connection.old.reader) (A.remaining connection.new.reader) connection.old.parser connection.new.parser
        (W.contents writer.old) (W.contents writer.new)) }
{
    if task.words.is_empty() {
        ask_lines(alloc, reader, connection, writer)
    } else {
        ask(alloc, &task.words, connection, writer)
    }
}
