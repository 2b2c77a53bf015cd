//! How bytes are kept, by how many they are.
ghost use Rattle.std.specs.Prelude.{◌≡◌, length, IfOk, IfSome};
ghost use Rattle.kv_types.specs.Storage.{items_of};

use crate::counted::CountedBytes;
use crate::inline::InlineBytes;
use bytes::Bytes;
use std::alloc::{AllocError, Global};
use std::sync::Arc;

/// The most bytes that lie in the value itself: with their number and what tells them from longer ones they take three words.
const SHORT_BYTES: usize = 22;

/// The most bytes that lie with a count of their owners in a small block: with that count they take seven words, which is what an allocator gives whose
/// blocks are a multiple of two words with one of its own.
const SMALL_BYTES: usize = 48;

/// The same of a larger block, of thirteen words.
const LARGE_BYTES: usize = 96;

/// Some bytes, kept in as little memory as their number allows. Those that do not lie in the value itself are shared by its copies.
#[derive(Debug, Drop)]
pub(crate) enum Storage {
    /// At most `SHORT_BYTES`, which take no memory elsewhere.
    Short(InlineBytes<SHORT_BYTES>),
    /// At most `SMALL_BYTES`.
    Small(CountedBytes<SMALL_BYTES>),
    /// At most `LARGE_BYTES`.
    Large(CountedBytes<LARGE_BYTES>),
    /// Any number, which may be shared with a reply too.
    Long(Arc<Bytes>),
}

impl Storage {
    /// A copy of these bytes.
    pub(crate) fn new(alloc: Global, bytes: &[u8]) -> Result<Storage, AllocError>
        ensures { IfOk result (λ storage. items_of storage ≡ bytes.now) }
    {
        if bytes.len() <= SHORT_BYTES {
            Ok(Storage::Short(InlineBytes::new(bytes)))
        } else if bytes.len() <= SMALL_BYTES {
            Ok(Storage::Small(CountedBytes::new(alloc, bytes)?))
        } else if bytes.len() <= LARGE_BYTES {
            Ok(Storage::Large(CountedBytes::new(alloc, bytes)?))
        } else {
            Storage::long(alloc, Bytes::copy_from_slice(alloc, bytes)?)
        }
    }

    /// These bytes, which are copied where they are few.
    pub(crate) fn from_vec(alloc: Global, bytes: Vec<u8>) -> Result<Storage, AllocError>
        ensures { IfOk result (λ storage. items_of storage ≡ bytes.items) }
    {
        if bytes.len() <= LARGE_BYTES {
            Storage::new(alloc, &bytes)
        } else {
            Storage::long(alloc, Bytes::from_vec(bytes)?)
        }
    }

    fn long(alloc: Global, bytes: Bytes) -> Result<Storage, AllocError>
        ensures { IfOk result (λ storage. items_of storage ≡ bytes) }
    {
        Ok(Storage::Long(Arc::new(alloc, bytes)?))
    }

    #[inline]
    pub(crate) fn as_slice(&self) -> &[u8]
        ensures { result.now ≡ items_of self.now }
    {
        match self {
            Storage::Short(bytes) => bytes.as_slice(),
            Storage::Small(bytes) => bytes.as_slice(),
            Storage::Large(bytes) => bytes.as_slice(),
            Storage::Long(bytes) => bytes.as_slice(),
        }
    }

    /// Another owner of many bytes, and `None` where they are few.
    pub(crate) fn to_bytes(&self) -> Result<Option<Bytes>, AllocError>
        ensures { IfOk result (λ shared. IfSome shared (λ bytes. bytes ≡ items_of self.now)) }
    {
        match self {
            Storage::Long(bytes) => Ok(Some(bytes.slice(..)?)),
            _ => Ok(None),
        }
    }

    /// The same bytes once more, of which only the short are copied.
    pub(crate) fn again(&self) -> Result<Storage, AllocError>
        ensures { IfOk result (λ copy. items_of copy ≡ items_of self.now) }
    {
        Ok(match self {
            Storage::Short(bytes) => Storage::Short(*bytes),
            Storage::Small(bytes) => Storage::Small(bytes.again()?),
            Storage::Large(bytes) => Storage::Large(bytes.again()?),
            Storage::Long(bytes) => Storage::Long(Arc::try_clone(bytes)?),
        })
    }
}
