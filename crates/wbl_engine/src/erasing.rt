//! Stamps are erased: an entry whose begin is 0 is free, and one whose end is 0 has not ended.
ghost use Rattle.std.specs.Prelude.{◌≡◌, ◌<◌, OnOk, OnErr};
ghost use Rattle.pmem.specs.Device.{moment};
ghost use Rattle.pmem.specs.Runs.{Runs, Staged, StageFailed, stores};
ghost use Rattle.wbl_engine.specs.Erasing.{zero_pairs, erase_pairs, erase_lines};
ghost use Rattle.wbl_engine.specs.Stage.{AreWithin};

use crate::staging::flush_ends;
use heap_layout::entry_word;
use kv_types::EntryNo;
use pmem::{Fault, Pmem};

/// Stores 0 over the begins of some entries and over the ends of others, flushes their lines, and fences.
///
/// On `Err` the fence has failed, and any of the zeros may be lost, each independently.
pub fn erase_stamps<P: Pmem>(
    device: &mut P,
    begins: &[EntryNo],
    ends: &[EntryNo],
) -> Result<(), Fault>
    requires begins { AreWithin (P.state device.old).lines begins.now }
    requires ends { AreWithin (P.state device.old).lines ends.now }
    ensures ok { OnOk result (Staged (P.state device.old) (P.state device.new) (erase_pairs begins.now ends.now) (erase_lines begins.now ends.now)) }
    ensures err { OnErr result (StageFailed (P.state device.old) (P.state device.new) (erase_pairs begins.now ends.now)) }
{
    store_zeros(device, begins, 0);
    store_zeros(device, ends, 1);
    flush_ends(device, begins);
    flush_ends(device, ends);
    device.fence()
}

/// Erases as `erase_stamps` does, and then syncs: the zeros are durable, and so is all that was fenced before.
///
/// On `Err` the fence or the sync has failed, and any of the zeros may be lost, each independently.
pub fn erase_durably<P: Pmem>(
    device: &mut P,
    begins: &[EntryNo],
    ends: &[EntryNo],
) -> Result<(), Fault>
    requires begins { AreWithin (P.state device.old).lines begins.now }
    requires ends { AreWithin (P.state device.old).lines ends.now }
    ensures ok { OnOk result (Staged (P.state device.old) (P.state device.new) (erase_pairs begins.now ends.now) (erase_lines begins.now ends.now)) }
    ensures synced { OnOk result (P.floor device.new ≡ moment (P.state device.new)) }
    ensures err { OnErr result (StageFailed (P.state device.old) (P.state device.new) (erase_pairs begins.now ends.now)) }
{
    erase_stamps(device, begins, ends)?;
    device.sync()
}

/// Stores 0 in word `k` of these entries.
pub(crate) fn store_zeros<P: Pmem>(device: &mut P, entries: &[EntryNo], k: u64)
    requires word { k < 8 }
    requires within { AreWithin (P.state device.old).lines entries.now }
    ensures { Runs (P.state device.old) (P.state device.new) (stores (zero_pairs k entries.now) (P.state device.old).words) }
{
    for entry in entries {
        device.store(entry_word(*entry, k), 0);
    }
}
