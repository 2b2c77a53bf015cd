//! The room that a connection is read into.
ghost use Rattle.std.specs.Prelude.{◌≡◌, ℕ, List, [], ◌++◌, ◌<◌, length, IfOk, IfSome, OnOk, OnErr};
ghost use Rattle.std.specs.Io.KnownBytes.{Consumes, IsAtEnd, Keeps};
ghost use Rattle.clients.specs.Piece.{bytes_of};

use crate::broken_off::BrokenOff;
use bytes::{Bytes, BytesMut};
use std::alloc::{AllocError, Global};
use std::io;
use std::io::{ErrorKind, Read};

/// How many bytes one block for reading has.
pub const BLOCK_BYTES: usize = 16 * 1_024;

/// With less room than this in its block a reader takes a new one.
pub const LEAST_ROOM_BYTES: usize = 2 * 1_024;

/// The room that a connection is read into. Between two reads nothing is in it.
#[derive(Drop)]
pub struct Block {
    input: BytesMut,
    ghost empty: { input.items ≡ [] },
}

impl Block {
    /// An empty block.
    ///
    /// # Errors
    ///
    /// Only `AllocError`.
    pub fn new(alloc: Global) -> Result<Block, AllocError> {
        let input = BytesMut::with_capacity(alloc, BLOCK_BYTES)?;
        Ok(Block { input })
    }

    /// Makes room for a read, where there is little. Answers how much there is.
    pub fn make_room(&mut self) -> Result<usize, AllocError>
        ensures some { OnOk result (0 < self.new.input.spare) }
    {
        // Making room before each read would copy what is there each time.
        if self.input.capacity() < LEAST_ROOM_BYTES {
            self.input.reserve(BLOCK_BYTES)?;
        }
        Ok(self.input.capacity())
    }

    /// The next bytes of the stream, none only at its end, or `None` where there are none now.
    ///
    /// # Errors
    ///
    /// That a read failed, or that memory was refused. Bytes may have been lost then.
    pub fn read<S: Read>(&mut self, stream: &mut S) -> Result<Option<Bytes>, BrokenOff>
        requires some { 0 < self.old.input.spare }
        ensures read { IfOk result (λ piece. Consumes (S.remaining stream.old) (S.remaining stream.new) (bytes_of piece)) }
        ensures end { IfOk result (λ piece. IfSome piece (λ bytes. length bytes ≡ 0 → IsAtEnd (S.remaining stream.new))) }
    {
        read_piece(stream, &mut self.input)
    }
}

fn read_piece<S: Read>(stream: &mut S, input: &mut BytesMut) -> Result<Option<Bytes>, BrokenOff>
    requires empty { input.old.items ≡ [] }
    requires some { 0 < input.old.spare }
    ensures empty { input.new.items ≡ [] }
    ensures read { IfOk result (λ piece. Consumes (S.remaining stream.old) (S.remaining stream.new) (bytes_of piece)) }
    ensures end { IfOk result (λ piece. IfSome piece (λ bytes. length bytes ≡ 0 → IsAtEnd (S.remaining stream.new))) }
{
    match read_some(stream, input) {
        Ok(count) => Ok(Some(take_all(input, count)?)),
        Err(error) if error.kind() == ErrorKind::WouldBlock => Ok(None),
        Err(error) => Err(BrokenOff::from(error)),
    }
}

/// Takes all bytes out, which are so many. Where memory for that is refused, they are lost.
fn take_all(input: &mut BytesMut, count: usize) -> Result<Bytes, AllocError>
    requires { length input.old.items ≡ count }
    ensures empty { input.new.items ≡ [] }
    ensures all { IfOk result (λ bytes. bytes ≡ input.old.items) }
{
    match input.freeze_to(count) {
        Ok(bytes) => Ok(bytes),
        Err(error) => {
            input.clear();
            Err(error)
        }
    }
}

/// Reads once into the spare room. A read that a signal interrupted is none.
fn read_some<S: Read>(stream: &mut S, input: &mut BytesMut) -> io::Result<usize>
    ensures ok { IfOk result (λ count. (more : List ℕ) × (length more ≡ count) × (input.new.items ≡ input.old.items ++ more)
        × Consumes (S.remaining stream.old) (S.remaining stream.new) more) }
    ensures end { IfOk result (λ count. 0 < input.old.spare → count ≡ 0 → IsAtEnd (S.remaining stream.new)) }
    ensures err { OnErr result ((input.new ≡ input.old) × Keeps (S.remaining stream.old) (S.remaining stream.new)) }
{
    for _ in 0..u64::MAX {
        match input.read_from(stream) {
            Err(error) if error.kind() == ErrorKind::Interrupted => {}
            read => return read,
        }
    }
    Err(io::Error::from(ErrorKind::Interrupted))
}
