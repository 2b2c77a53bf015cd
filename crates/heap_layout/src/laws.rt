//! What writing and reading are to one another.
ghost use Rattle.std.specs.Prelude.{◌≡◌, ◌≢◌, ◌≤◌, Some, IfOk, IfErr};
ghost use Rattle.model.specs.declared.image.TheConstants.{MIN_LINES};
ghost use Rattle.model.specs.Layout.{directory_room};
ghost use Rattle.model.specs.Group.{IsPlaced, HasItsLines};
ghost use Rattle.heap_layout.specs.Put.{entry_of_put};

use crate::entry::{Entry, read_entry};
use crate::writing::write_entry;
use kv_types::Refusal;
use model::Put;
use pmem::Pmem;
use std::alloc::Global;

/// Writes a put and reads its entry: what is read is what was written, and only an allocation can be refused.
pub fn put_is_read_back<P: Pmem>(
    alloc: Global,
    device: &mut P,
    put: &Put,
    begin: u64,
    position: u64,
) -> Result<Option<Entry>, Refusal>
    requires image { MIN_LINES ≤ (P.state device.old).lines }
    requires placed { IsPlaced (directory_room (P.state device.old).lines) (P.state device.old).lines put.now }
    requires fitting { HasItsLines put.now }
    requires begun { begin ≢ 0 }
    ensures read { IfOk result (λ o. o ≡ Some (entry_of_put begin position put.now)) }
    ensures never { IfErr result (λ refusal. refusal ≡ Refusal.Memory) }
{
    write_entry(device, put, begin, position);
    read_entry(alloc, device, put.entry)
}
