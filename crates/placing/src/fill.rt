//! How much a node holds, and how much it has room for.
ghost use Rattle.std.specs.Prelude.{◌≡◌};
ghost use Rattle.placing.specs.Fill.{fill_of};

use extent_heap::ExtentHeap;
use mv_keyspace::Keyspace;

/// How much a node holds, and how much it has room for.
#[derive(Clone, Copy, Debug, PartialEq, Eq)]
pub struct Fill {
    /// How many keys there are.
    pub keys: u64,
    /// How many entries are free, of which a version takes one.
    pub free_entries: u64,
    /// How many lines are free, of which a version takes one run.
    pub free_lines: u64,
}

/// How much there is in a keyspace, and how much room in the heap beside it.
pub fn count_fill<K: Keyspace>(keyspace: &K, heap: &ExtentHeap) -> Fill
    ensures { result ≡ fill_of (K.table keyspace.now) heap.now }
{
    Fill {
        keys: keyspace.count_keys(),
        free_entries: heap.free_entries(),
        free_lines: heap.free_lines(),
    }
}
