//! Records with a number made of their key each: most are told apart by it, without a look at their bytes.
ghost use Rattle.std.specs.Prelude.{◌≡◌};
ghost use Rattle.kv_types.specs.Keyspace.{key_of};
ghost use Rattle.heap_layout.specs.Tag.{tag_of};

use kv_types::RecordId;
use std::cmp::Ordering;

/// By what a number is multiplied for each byte: odd, so that no byte is lost.
const TAG_FACTOR: u64 = 6_364_136_223_846_793_005;

/// A record, which stands elsewhere.
#[derive(Clone, Copy)]
pub(crate) struct Tagged<'a> {
    /// The number made of its key.
    tag: u64,
    pub(crate) id: &'a RecordId,
    ghost made: { tag ≡ tag_of (key_of id.now) },
}

impl<'a> Tagged<'a> {
    ghost use Rattle.std.specs.Prelude.{◌≡◌};
    ghost use Rattle.heap_layout.specs.Tagged.{tagged_cmp};

    pub(crate) fn new(id: &'a RecordId) -> Tagged<'a>
        ensures { result.id.now ≡ id.now }
    {
        Tagged {
            tag: tag_of(id.key().as_slice()),
            id,
        }
    }

    /// The order by numbers and, of one number, of records. So the records of one key come one after another, in their order.
    pub(crate) fn order(&self, other: &Tagged<'a>) -> Ordering
        ensures { result ≡ tagged_cmp self.now other.now }
    {
        match self.tag.cmp(&other.tag) {
            Ordering::Equal => self.id.cmp(other.id),
            order => order,
        }
    }
}

/// A number made of a key. Keys with the same number are few, but nothing that is promised rests on that.
fn tag_of(key: &[u8]) -> u64
    ensures { result ≡ tag_of key.now }
{
    let mut tag = 0u64;
    for byte in key {
        tag = tag.wrapping_mul(TAG_FACTOR).wrapping_add(*byte as u64);
    }
    tag
}
