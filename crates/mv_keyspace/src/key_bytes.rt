//! The bytes of a key that is looked for in a map.
ghost use Rattle.std.specs.Ordering.{nat_cmp};
ghost use Rattle.std.specs.Cmp.Lexicographic.{nat_list_cmp_total, slice_cmp};
ghost use Rattle.std.specs.BTreeMap.Comparable.{le_lt_trans};

use kv_types::{Key, compare_bytes};
use std::cmp::Ordering;
use std::collections::btree_map::Comparable;

/// The bytes of a key that is looked for, so that no `Key` is made of them.
#[derive(Clone, Copy)]
pub(crate) struct KeyBytes<'a>(pub(crate) &'a [u8]);

impl<'a> Comparable<Key> for KeyBytes<'a> {
    ghost compare = { λ bytes key. slice_cmp nat_cmp bytes.0.now key };

    ghost respects_cmp = { λ bytes x y. nat_list_cmp_total.congr bytes.0.now x y };

    ghost below_greater = { λ bytes x y. le_lt_trans nat_list_cmp_total bytes.0.now x y };

    fn compare(&self, key: &Key) -> Ordering {
        compare_bytes(self.0, key.as_slice())
    }
}
