//! Bytes that come in pieces and are taken from the front, a part at a time.
ghost use Rattle.std.specs.Prelude.{◌≡◌, ◌+◌, ◌≤◌, ◌<◌, ◌==◌, ◌^◌, true, [], ◌++◌, length, take, drop, Err, IfOk, OnOk, OnErr};
ghost use Rattle.kv_types.specs.declared.stop.Stop.TheVariants.{Short};
ghost use Rattle.kv_types.specs.Reader.{Takes};
ghost use Rattle.kv_types.specs.Reading.{payload_at};
ghost use Rattle.resp_codec.specs.Lines.{line_at};
ghost use Rattle.resp_codec.specs.Unread.{unread_bytes, front};

use crate::reading::{Line, line_at, payload_at};
use bytes::{Bytes, BytesMut};
use kv_types::{ProtocolFault, Stop};
use std::alloc::{AllocError, Global};

/// How many bytes of a word room is made for before they came, at most: who names a length and sends no more is not to cost so much.
const JOINED_BYTES: usize = 65_536;

/// The bytes of pieces that were not read yet. A part that lies in one piece is read where it lies.
#[derive(Drop)]
pub(crate) struct Unread {
    /// Those of earlier pieces, joined. Mostly there are none.
    cut: BytesMut,
    /// Those of the last piece, after them.
    rest: Bytes,
}

impl Unread {
    /// No bytes. It takes no memory.
    pub(crate) fn new(alloc: Global) -> Unread
        ensures { unread_bytes result ≡ [] }
    {
        Unread {
            cut: BytesMut::new(alloc),
            rest: Bytes::new(),
        }
    }

    pub(crate) fn allocator(&self) -> Global {
        *self.cut.allocator()
    }

    /// Another of the same bytes.
    pub(crate) fn copy(&self) -> Result<Unread, AllocError>
        ensures { IfOk result (λ copy. unread_bytes copy ≡ unread_bytes self.now) }
    {
        let mut cut = BytesMut::new(self.allocator());
        cut.extend_from_slice(self.cut.as_slice())?;
        Ok(Unread {
            cut,
            rest: self.rest.clone()?,
        })
    }

    /// Puts a piece behind the others. It is not copied, but those before it are joined if they are still unread.
    pub(crate) fn push(&mut self, piece: Bytes) -> Result<(), AllocError>
        ensures ok { OnOk result (unread_bytes self.new ≡ unread_bytes self.old ++ piece) }
        ensures err { OnErr result (unread_bytes self.new ≡ unread_bytes self.old) }
    {
        if !self.rest.is_empty() {
            self.cut.extend_from_slice(self.rest.as_slice())?;
        }
        self.rest = piece;
        Ok(())
    }

    /// The bytes at the front that lie in one place.
    fn front(&self) -> &[u8]
        ensures { result.now ≡ front self.now }
    {
        if self.cut.is_empty() {
            self.rest.as_slice()
        } else {
            self.cut.as_slice()
        }
    }

    /// Joins the next `missing` bytes of the last piece, or all of them, to those of earlier pieces, with room for some that are still to come.
    fn join(&mut self, missing: usize) -> Result<(), AllocError>
        ensures cut { OnOk result (self.new.cut.items ≡ self.old.cut.items ++ take missing self.old.rest) }
        ensures rest { OnOk result (self.new.rest ≡ drop missing self.old.rest) }
        ensures err { OnErr result ((self.new.cut.items ≡ self.old.cut.items) × (self.new.rest ≡ self.old.rest)) }
    {
        let more = missing.min(self.rest.len());
        self.cut.reserve(missing.min(more.max(JOINED_BYTES)))?;
        let (next, _) = self.rest.as_slice().split_at(more);
        self.cut.extend_reserved(next);
        skip(&mut self.rest, more);
        Ok(())
    }

    /// Joins the line at the front, a byte at a time, since it is short and mostly ends soon in the last piece.
    fn join_line(&mut self, line: Line) -> Result<(), AllocError>
        ensures same { unread_bytes self.new ≡ unread_bytes self.old }
        ensures whole { OnOk result (line_at line (front self.new) ≡ Err Short → unread_bytes self.new ≡ front self.new) }
    {
        while !self.cut.is_empty() && !self.rest.is_empty() && is_short(self.cut.as_slice(), line) {
            self.join(1)?;
        }
        Ok(())
    }

    /// Takes the line at the front.
    pub(crate) fn line(
        &mut self,
        line: Line,
    ) -> Result<Result<u64, Stop<ProtocolFault>>, AllocError>
        ensures ok { IfOk result (λ answer. Takes answer (line_at line) (unread_bytes self.old) (unread_bytes self.new)) }
        ensures err { OnErr result (unread_bytes self.new ≡ unread_bytes self.old) }
    {
        self.join_line(line)?;
        let front = self.front();
        match line_at(front, line) {
            Ok((number, after)) => {
                let taken = front.len() - after.len();
                self.advance(taken);
                Ok(Ok(number))
            }
            Err(stop) => Ok(Err(stop)),
        }
    }

    /// Drops bytes that lie in one place.
    fn advance(&mut self, taken: usize)
        requires { taken ≤ length (front self.old) }
        ensures { unread_bytes self.new ≡ drop taken (unread_bytes self.old) }
    {
        if self.cut.is_empty() {
            skip(&mut self.rest, taken);
        } else {
            self.cut.advance(taken);
        }
    }

    /// Joins a word of `len` bytes and its line end, if pieces cut it.
    fn join_word(&mut self, len: usize) -> Result<(), AllocError>
        requires { len < 2 ^ 32 }
        ensures same { unread_bytes self.new ≡ unread_bytes self.old }
        ensures whole { OnOk result (length (front self.new) < len + 2 → unread_bytes self.new ≡ front self.new) }
    {
        let whole = len + 2;
        if !self.cut.is_empty() || self.rest.len() < whole {
            let missing = whole.saturating_sub(self.cut.len());
            self.join(missing)?;
        }
        Ok(())
    }

    /// Takes the `len` bytes of a word and its line end. A word that lies in one piece is a slice of it, and not copied.
    pub(crate) fn word(
        &mut self,
        len: u64,
    ) -> Result<Result<Bytes, Stop<ProtocolFault>>, AllocError>
        requires { len < 2 ^ 32 }
        ensures ok { IfOk result (λ answer. Takes answer (payload_at len) (unread_bytes self.old) (unread_bytes self.new)) }
        ensures err { OnErr result (unread_bytes self.new ≡ unread_bytes self.old) }
    {
        self.join_word(len as usize)?;
        match payload_at(self.front(), len) {
            Ok(_) => Ok(Ok(self.take_word(len as usize)?)),
            Err(stop) => Ok(Err(stop)),
        }
    }

    /// Gives up the block of earlier pieces, where none of their bytes is left: a word that was taken from it has it alone then.
    fn let_go(&mut self)
        ensures { unread_bytes self.new ≡ unread_bytes self.old }
    {
        if self.cut.is_empty() {
            self.cut = BytesMut::new(self.allocator());
        }
    }

    /// Takes a word that lies in one place with its line end.
    fn take_word(&mut self, len: usize) -> Result<Bytes, AllocError>
        requires { len + 2 ≤ length (front self.old) }
        ensures word { IfOk result (λ word. word ≡ take len (front self.old)) }
        ensures ok { OnOk result (unread_bytes self.new ≡ drop (len + 2) (unread_bytes self.old)) }
        ensures err { OnErr result (unread_bytes self.new ≡ unread_bytes self.old) }
    {
        if self.cut.is_empty() {
            let word = self.rest.split_to(len)?;
            skip(&mut self.rest, 2);
            Ok(word)
        } else {
            let word = self.cut.freeze_to(len)?;
            self.cut.advance(2);
            self.let_go();
            Ok(word)
        }
    }
}

/// Whether bytes hold no whole line yet, but may begin one.
fn is_short(bytes: &[u8], line: Line) -> bool
    ensures { line_at line bytes.now ≡ Err Short → result ≡ true }
{
    matches!(line_at(bytes, line), Err(Stop::Short))
}

/// Drops bytes of a piece. A piece of which none are left is let go, so that its block can be filled again.
fn skip(piece: &mut Bytes, taken: usize)
    requires { taken ≤ length piece.old }
    ensures { piece.new ≡ drop taken piece.old }
{
    if taken == piece.len() {
        *piece = Bytes::new();
    } else {
        piece.advance(taken);
    }
}
