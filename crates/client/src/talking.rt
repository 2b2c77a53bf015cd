//! Requests, each with its reply printed before the next one is read.
ghost use Rattle.std.specs.Prelude.{◌≡◌, ◌||◌, ℕ, List, [], ◌∷◌, IfSome, IfOk, OnOk};
ghost use Rattle.std.specs.Io.KnownBytes.{Appends, IsAtEnd};
ghost use Rattle.client.specs.Asked.{one_request, requests_of, words_of};
ghost use Rattle.client.specs.Exchange.{Talks, is_error};

use crate::exchange::Connection;
use crate::failure::Failure;
use crate::lines::{read_line, words_of};
use crate::printing::printed;
use bytes::Bytes;
use kv_types::Reply;
use std::alloc::Global;
use std::io::{self, BufRead, ErrorKind, Read, Write};

/// Sends a request of these words, and prints the reply. The answer is whether that is an error.
///
/// # Errors
///
/// Any but `Misused` and `Read`. Nothing is printed but where printing failed.
pub fn ask<R: Read, W: Write, O: Write>(
    alloc: Global,
    words: &[Bytes],
    connection: &mut Connection<R, W>,
    out: &mut O,
) -> Result<bool, Failure>
    ensures { IfOk result (λ failed. Talks (words.now ∷ []) failed (W.contents connection.old.writer) (W.contents connection.new.writer)
        (R.remaining connection.old.reader) (R.remaining connection.new.reader) connection.old.parser connection.new.parser
        (O.contents out.old) (O.contents out.new)) }
{
    let reply = connection.exchange(alloc, words)?;
    let text = printed(alloc, &reply)?;
    match print(&text, out) {
        Ok(()) => Ok(is_error(&reply)),
        Err(error) => Err(Failure::Write(error)),
    }
}

/// Sends the request of each line, and prints its reply before the next line is read. A line without a word is skipped. The answer is whether one of them was
/// an error.
///
/// # Errors
///
/// Any but `Misused`. The replies to the requests before are printed then.
pub fn ask_lines<I: BufRead, R: Read, W: Write, O: Write>(
    alloc: Global,
    input: &mut I,
    connection: &mut Connection<R, W>,
    out: &mut O,
) -> Result<bool, Failure>
    ensures { IfOk result (λ failed. (requests : List (List (List ℕ))) × IfSome (I.remaining input.old) (λ text. requests ≡ requests_of text)
        × Talks requests failed (W.contents connection.old.writer) (W.contents connection.new.writer)
        (R.remaining connection.old.reader) (R.remaining connection.new.reader) connection.old.parser connection.new.parser
        (O.contents out.old) (O.contents out.new)) }
{
    let mut line = Vec::new(alloc);
    let mut failed = false;
    for _line in 0..u64::MAX {
        match read_line(input, &mut line) {
            Ok(true) => failed = either(failed, ask_line(alloc, &line, connection, out)?),
            Ok(false) => return Ok(failed),
            Err(error) => return Err(Failure::Read(error)),
        }
    }
    Err(Failure::Read(io::Error::from(ErrorKind::FileTooLarge)))
}

/// Sends the request of a line, if it has a word, and prints the reply. The answer is whether that is an error.
fn ask_line<R: Read, W: Write, O: Write>(
    alloc: Global,
    line: &[u8],
    connection: &mut Connection<R, W>,
    out: &mut O,
) -> Result<bool, Failure>
    ensures { IfOk result (λ failed. Talks (one_request (words_of line.now)) failed (W.contents connection.old.writer) (W.contents connection.new.writer)
        (R.remaining connection.old.reader) (R.remaining connection.new.reader) connection.old.parser connection.new.parser
        (O.contents out.old) (O.contents out.new)) }
{
    let words = words_of(alloc, line)?;
    if words.as_slice().is_empty() {
        return Ok(false);
    }
    ask(alloc, &words, connection, out)
}

/// Whether a reply is an error.
fn is_error(reply: &Reply) -> bool
    ensures { result ≡ is_error reply.now }
{
    match reply {
        Reply::Error(_) => true,
        _ => false,
    }
}

/// Whether one of the two holds.
fn either(one: bool, other: bool) -> bool
    ensures { result ≡ (one || other) }
{
    one || other
}

/// Prints a text, so that whoever waits for it sees it.
pub fn print<O: Write>(text: &[u8], out: &mut O) -> io::Result<()>
    ensures { OnOk result (Appends (O.contents out.old) (O.contents out.new) text.now) }
{
    out.write_all(text)?;
    out.flush()
}
