//! One request and its reply.
ghost use Rattle.std.specs.Prelude.{◌≡◌, [], Some, IfOk, IfErr, OnOk};
ghost use Rattle.std.specs.Io.KnownBytes.{Appends, Consumes, IsAtEnd};
ghost use Rattle.kv_types.specs.Request.{spelling};
ghost use Rattle.resp_codec.specs.Parsing.{fed};
ghost use Rattle.client.specs.Exchange.{IsCause, IsSystem, Takes};

use crate::request::spelled;
use bytes::Bytes;
use kv_types::{Refusal, Reply};
use resp_codec::{ReplyItem, ReplyParser};
use std::alloc::{AllocError, Global};
use std::io::{self, ErrorKind, Read, Write};

/// The most bytes that are read at a time.
const PIECE_BYTES: usize = 65_536;

/// Why no reply came. The connection is of no more use then.
#[derive(Debug, Drop)]
pub enum Broken {
    /// A write or a read failed.
    Failed(io::Error),
    /// The server closed the connection before the reply was whole.
    Closed,
    /// What the server sent is no reply.
    NoReply,
    /// Memory was refused.
    Memory,
}

impl From<io::Error> for Broken {
    ghost use Rattle.std.specs.Prelude.{◌≡◌};
    ghost use Rattle.client.specs.declared.exchange.Broken.TheVariants.{Failed};

    ghost from_gives = { λ error broken. broken ≡ Failed error };

    fn from(error: io::Error) -> Broken {
        Broken::Failed(error)
    }
}

impl From<AllocError> for Broken {
    ghost use Rattle.std.specs.Prelude.{◌≡◌};
    ghost use Rattle.client.specs.declared.exchange.Broken.TheVariants.{Memory};

    ghost from_gives = { λ _ broken. broken ≡ Memory };

    fn from(_error: AllocError) -> Broken {
        Broken::Memory
    }
}

impl From<Refusal> for Broken {
    ghost use Rattle.std.specs.Prelude.{◌≡◌};
    ghost use Rattle.client.specs.declared.exchange.Broken.TheVariants.{Memory};

    ghost from_gives = { λ _ broken. broken ≡ Memory };

    // A parser refuses only for want of memory.
    fn from(_refusal: Refusal) -> Broken {
        Broken::Memory
    }
}

/// A client's two ends of a connection, and what came from the server and was not yet taken.
#[derive(Drop)]
pub struct Connection<R, W> {
    pub reader: R,
    pub writer: W,
    pub parser: ReplyParser,
}

impl<R: Read, W: Write> Connection<R, W> {
    ghost use Rattle.std.specs.Prelude.{◌≡◌, [], Some, IfOk, IfErr, OnOk, OnErr};
    ghost use Rattle.std.specs.Io.KnownBytes.{Appends, Consumes, IsAtEnd};
    ghost use Rattle.kv_types.specs.Request.{spelling};
    ghost use Rattle.client.specs.Exchange.{IsCause, IsSystem, Takes};

    /// A connection over which nothing went yet.
    pub fn new(alloc: Global, reader: R, writer: W) -> Connection<R, W>
        ensures reader { result.reader ≡ reader }
        ensures writer { result.writer ≡ writer }
        ensures nothing { result.parser ≡ Some [] }
    {
        Connection {
            reader,
            writer,
            parser: ReplyParser::new(alloc),
        }
    }

    /// Sends a request of these words and returns the reply to it. It waits for the reply.
    ///
    /// # Errors
    ///
    /// Why no reply came. What was sent is a front of the request then.
    pub fn exchange(&mut self, alloc: Global, words: &[Bytes]) -> Result<Reply, Broken>
        ensures asked { OnOk result (Appends (W.contents self.old.writer) (W.contents self.new.writer) (spelling words.now)) }
        ensures answered { IfOk result (λ reply. Takes (R.remaining self.old.reader) (R.remaining self.new.reader) self.old.parser self.new.parser reply) }
        ensures cause { IfErr result (λ broken. IsCause broken (R.remaining self.old.reader) (R.remaining self.new.reader) self.old.parser) }
    {
        let request = spelled(alloc, words)?;
        self.writer.write_all(&request)?;
        self.writer.flush()?;
        next_reply(alloc, &mut self.reader, &mut self.parser)
    }
}

/// The next reply of the reader's bytes.
fn next_reply<R: Read>(
    alloc: Global,
    reader: &mut R,
    parser: &mut ReplyParser,
) -> Result<Reply, Broken>
    ensures answered { IfOk result (λ reply. Takes (R.remaining reader.old) (R.remaining reader.new) parser.old parser.new reply) }
    ensures cause { IfErr result (λ broken. IsCause broken (R.remaining reader.old) (R.remaining reader.new) parser.old) }
{
    for _piece in 0..u64::MAX {
        match parser.next()? {
            Some(ReplyItem::Reply(reply)) => return Ok(reply),
            Some(ReplyItem::Fault) => return Err(Broken::NoReply),
            None => {}
        }
        let piece = read_piece(alloc, reader)?;
        if piece.is_empty() {
            return Err(Broken::Closed);
        }
        parser.feed(piece)?;
    }
    Err(Broken::Failed(io::Error::from(ErrorKind::FileTooLarge)))
}

/// The next bytes of the reader, and none only at its end.
fn read_piece<R: Read>(alloc: Global, reader: &mut R) -> Result<Bytes, Broken>
    ensures read { IfOk result (λ piece. Consumes (R.remaining reader.old) (R.remaining reader.new) piece) }
    ensures end { IfOk result (λ piece. piece ≡ [] → IsAtEnd (R.remaining reader.new)) }
    ensures cause { IfErr result IsSystem }
{
    let mut buffer = [0; PIECE_BYTES];
    for _try in 0..u64::MAX {
        match reader.read(&mut buffer) {
            Ok(count) => return Ok(Bytes::copy_from_slice(alloc, &buffer[..count])?),
            Err(error) if error.kind() == ErrorKind::Interrupted => {}
            Err(error) => return Err(Broken::Failed(error)),
        }
    }
    Err(Broken::Failed(io::Error::from(ErrorKind::FileTooLarge)))
}
