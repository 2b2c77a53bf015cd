//! Bytes of a bounded length: keys, fields and values.
ghost use Rattle.std.specs.Prelude.{◌≡◌, ◌≤◌, ◌==◌, length, nat_eq, refl, IfOk, Some};
ghost use Rattle.std.specs.Ordering.{nat_cmp};
ghost use Rattle.std.specs.Cmp.{partial_equiv_from_equiv};
ghost use Rattle.std.specs.Cmp.Lexicographic.{pointwise, slice_cmp, nat_list_eq_equiv, nat_list_cmp_total, texts_ties, texts_po};

use crate::byte_order::compare_bytes;
use crate::limits::{MAX_KEY_BYTES, MAX_VALUE_BYTES};
use crate::payload::Payload;
use crate::storage::Storage;
use std::alloc::{AllocError, Global};
use std::cmp::Ordering;
use std::marker::Model;

/// A key, at most 512 bytes.
pub type Key = BoundedBytes<MAX_KEY_BYTES>;

/// A field of a hash, at most 512 bytes.
pub type Field = BoundedBytes<MAX_KEY_BYTES>;

/// A value, at most 1,048,576 bytes.
pub type Value = BoundedBytes<MAX_VALUE_BYTES>;

/// At most `MAX` bytes of any content. Up to 22 lie in the value itself, and more are shared by its copies. A clause sees the list of the
/// bytes.
#[derive(Debug, Drop)]
pub struct BoundedBytes<const MAX: usize> {
    storage: Storage,
}

impl<const MAX: usize> Model for BoundedBytes<MAX> {
    ghost use Rattle.std.specs.Prelude.{ℕ, ◌≤◌, List, length};
    ghost use Rattle.kv_types.specs.Storage.{items_of};

    ghost Value = { List ℕ };

    ghost view = { λ b. items_of b.storage };

    ghost invariant = { λ b. length (items_of b.storage) ≤ MAX };
}

impl<const MAX: usize> BoundedBytes<MAX> {
    /// A copy of these bytes, which are few enough.
    pub fn new(alloc: Global, bytes: &[u8]) -> Result<BoundedBytes<MAX>, AllocError>
        requires { length bytes.now ≤ MAX }
        ensures { IfOk result (λ b. b ≡ bytes.now) }
    {
        Ok(BoundedBytes {
            storage: Storage::new(alloc, bytes)?,
        })
    }

    /// These bytes, which are few enough. Many are not copied.
    pub fn from_vec(alloc: Global, bytes: Vec<u8>) -> Result<BoundedBytes<MAX>, AllocError>
        requires { length bytes.items ≤ MAX }
        ensures { IfOk result (λ b. b ≡ bytes.items) }
    {
        Ok(BoundedBytes {
            storage: Storage::from_vec(alloc, bytes)?,
        })
    }

    /// How many bytes there are.
    pub fn len(&self) -> usize
        ensures value { result ≡ length self.now }
        ensures bound { result ≤ MAX }
    {
        self.storage.as_slice().len()
    }

    pub fn is_empty(&self) -> bool
        ensures { result ≡ (length self.now == 0) }
    {
        self.storage.as_slice().is_empty()
    }

    #[inline]
    pub fn as_slice(&self) -> &[u8]
        ensures { result.now ≡ self.now }
    {
        self.storage.as_slice()
    }

    /// The same bytes as a bulk string.
    pub fn to_payload(&self) -> Result<Payload, AllocError>
        ensures { IfOk result (λ payload. payload ≡ self.now) }
    {
        Ok(Payload::of(self.storage.again()?))
    }

    /// The bytes as a bulk string.
    pub fn into_payload(self) -> Payload
        ensures { result ≡ self.entry }
    {
        let BoundedBytes { storage } = self;
        Payload::of(storage)
    }
}

impl<const MAX: usize> Clone for BoundedBytes<MAX> {
    ghost is_clone = { λ b copy. copy ≡ b };

    fn clone(&self) -> Result<BoundedBytes<MAX>, AllocError> {
        Ok(BoundedBytes {
            storage: self.storage.again()?,
        })
    }
}

impl<const MAX: usize> PartialEq for BoundedBytes<MAX> {
    ghost eq = { pointwise nat_eq };

    ghost laws = { partial_equiv_from_equiv nat_list_eq_equiv };

    fn eq(&self, other: &Self) -> bool {
        self.as_slice() == other.as_slice()
    }
}

impl<const MAX: usize> Eq for BoundedBytes<MAX> {
    ghost laws = { nat_list_eq_equiv };
}

impl<const MAX: usize> PartialOrd for BoundedBytes<MAX> {
    ghost partial_cmp = { λ x y. Some (slice_cmp nat_cmp x y) };

    ghost laws = { texts_po };

    fn partial_cmp(&self, other: &Self) -> Option<Ordering> {
        Some(self.cmp(other))
    }
}

impl<const MAX: usize> Ord for BoundedBytes<MAX> {
    ghost cmp = { slice_cmp nat_cmp };

    ghost total = { nat_list_cmp_total };

    ghost matches_partial_cmp = { λ x y. refl };

    ghost matches_eq = { texts_ties };

    fn cmp(&self, other: &Self) -> Ordering {
        compare_bytes(self.as_slice(), other.as_slice())
    }
}
