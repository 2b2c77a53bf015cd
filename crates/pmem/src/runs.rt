// Runs of stores and flushes: the only loops over words and lines.
ghost use Rattle.std.specs.Prelude.{◌≡◌, ℕ, suc, ◌+◌, ◌*◌, ◌≤◌, ◌<◌, All, length, OnOk, OnErr, IsErr, IsTrue};
ghost use Rattle.pmem.specs.Device.{moment, must_fail};
ghost use Rattle.pmem.specs.Runs.{Runs, Staged, StageFailed, HasCause, stores, flushes, pairs_from, lines_from};

use crate::device::{Fault, Pmem};

/// Stores each pair of a word and a value, in order.
pub fn store_all<P: Pmem>(device: &mut P, pairs: &[(u64, u64)])
    requires { All (λ pair. pair.0 < 8 * (P.state device.old).lines) pairs.now }
    ensures { Runs (P.state device.old) (P.state device.new) (stores pairs.now (P.state device.old).words) }
{
    for (word, value) in pairs {
        device.store(*word, *value);
    }
}

/// Stores these values in consecutive words, starting at word `first`.
pub fn store_words<P: Pmem>(device: &mut P, first: u64, values: &[u64])
    requires { first + length values.now ≤ 8 * (P.state device.old).lines }
    ensures { Runs (P.state device.old) (P.state device.new)
        (stores (pairs_from first values.now) (P.state device.old).words) }
{
    for (i, value) in values.iter().enumerate() {
        device.store(first + i as u64, *value);
    }
}

/// Flushes each of these lines.
pub fn flush_all<P: Pmem>(device: &mut P, lines: &[u64])
    requires { All (λ line. line < (P.state device.old).lines) lines.now }
    ensures { Runs (P.state device.old) (P.state device.new) (flushes lines.now (P.state device.old).words) }
{
    for line in lines {
        device.flush(*line);
    }
}

/// Flushes `count` consecutive lines, starting at line `first`.
pub fn flush_lines<P: Pmem>(device: &mut P, first: u64, count: u64)
    requires { first + count ≤ (P.state device.old).lines }
    ensures { Runs (P.state device.old) (P.state device.new) (flushes (lines_from first count) (P.state device.old).words) }
{
    for i in 0..count {
        device.flush(first + i);
    }
}

/// Stores each pair of a word and a value, flushes these lines, and fences. On `Err` any of the values may be lost, each independently.
pub fn persist<P: Pmem>(device: &mut P, pairs: &[(u64, u64)], lines: &[u64]) -> Result<(), Fault>
    requires words_in_range { All (λ pair. pair.0 < 8 * (P.state device.old).lines) pairs.now }
    requires lines_in_range { All (λ line. line < (P.state device.old).lines) lines.now }
    ensures ok { OnOk result (Staged (P.state device.old) (P.state device.new) pairs.now lines.now) }
    ensures err { OnErr result (StageFailed (P.state device.old) (P.state device.new) pairs.now) }
    ensures asked { IsTrue (must_fail (P.state device.old)) → IsErr result }
    ensures unasked { IsErr result → HasCause (P.state device.old).fences (P.state device.new) }
{
    store_all(device, pairs);
    flush_all(device, lines);
    device.fence()
}

/// Persists as `persist` does, and then syncs: that is durable, and all that was fenced before. On `Err` any of the values may be lost, each independently.
pub fn persist_durably<P: Pmem>(
    device: &mut P,
    pairs: &[(u64, u64)],
    lines: &[u64],
) -> Result<(), Fault>
    requires words_in_range { All (λ pair. pair.0 < 8 * (P.state device.old).lines) pairs.now }
    requires lines_in_range { All (λ line. line < (P.state device.old).lines) lines.now }
    ensures ok { OnOk result (Staged (P.state device.old) (P.state device.new) pairs.now lines.now) }
    ensures synced { OnOk result (P.floor device.new ≡ moment (P.state device.new)) }
    ensures err { OnErr result (StageFailed (P.state device.old) (P.state device.new) pairs.now) }
    ensures asked { IsTrue (must_fail (P.state device.old)) → IsErr result }
    ensures unasked { IsErr result → HasCause (P.state device.old).fences (P.state device.new) }
{
    persist(device, pairs, lines)?;
    device.sync()
}
