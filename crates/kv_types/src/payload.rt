//! The bytes of a bulk string.
ghost use Rattle.std.specs.Prelude.{◌≡◌, ◌<◌, ◌^◌, length, IfOk, IfSome};

use crate::storage::Storage;
use bytes::Bytes;
use std::alloc::AllocError;
use std::marker::Model;

/// Where the bytes of a bulk string lie.
#[derive(Debug, Drop)]
enum Source {
    /// In what was read.
    Part(Bytes),
    /// In a value that is kept, or in a copy of it.
    Kept(Storage),
}

/// The bytes of a bulk string: a part of what was read, or a value that is kept, with no copy of more than 22 bytes. A clause sees the list of
/// the bytes.
#[derive(Debug, Drop)]
pub struct Payload {
    source: Source,
}

impl Model for Payload {
    ghost use Rattle.std.specs.Prelude.{ℕ, List};
    ghost use Rattle.kv_types.specs.Storage.{items_at};

    ghost Value = { List ℕ };

    ghost view = { λ payload. items_at payload.source };
}

impl Payload {
    ghost use Rattle.kv_types.specs.Storage.{items_of};

    /// A part of what was read.
    pub fn new(bytes: Bytes) -> Payload
        ensures { result ≡ bytes }
    {
        Payload {
            source: Source::Part(bytes),
        }
    }

    /// Bytes that are kept.
    pub(crate) fn of(storage: Storage) -> Payload
        ensures { result ≡ items_of storage }
    {
        Payload {
            source: Source::Kept(storage),
        }
    }

    /// How many bytes there are.
    pub fn len(&self) -> usize
        ensures value { result ≡ length self.now }
        ensures bound { result < 2 ^ 63 }
    {
        self.as_slice().len()
    }

    #[inline]
    pub fn as_slice(&self) -> &[u8]
        ensures { result.now ≡ self.now }
    {
        match &self.source {
            Source::Part(bytes) => bytes.as_slice(),
            Source::Kept(storage) => storage.as_slice(),
        }
    }

    /// Another owner of the bytes, and `None` where they are a few that are kept.
    pub fn to_bytes(&self) -> Result<Option<Bytes>, AllocError>
        ensures { IfOk result (λ shared. IfSome shared (λ bytes. bytes ≡ self.now)) }
    {
        match &self.source {
            Source::Part(bytes) => Ok(Some(bytes.slice(..)?)),
            Source::Kept(storage) => storage.to_bytes(),
        }
    }
}

impl Clone for Payload {
    ghost is_clone = { λ payload copy. copy ≡ payload };

    fn clone(&self) -> Result<Payload, AllocError> {
        Ok(match &self.source {
            Source::Part(bytes) => Payload::new(bytes.slice(..)?),
            Source::Kept(storage) => Payload::of(storage.again()?),
        })
    }
}
