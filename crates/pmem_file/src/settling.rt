// Making a file with a journal one without.
ghost use Rattle.std.specs.Prelude.{◌≡◌, ◌⊎◌, IfErr};
ghost use Rattle.kv_types.specs.declared.refusal.Refusal;

use crate::device::FilePmem;
use kv_types::Refusal;
use std::alloc::Global;
use std::fs::{File, Files};

impl FilePmem {
    /// Makes of a file with a journal one without, which has the lines of its image alone. A file without a journal stays as it is.
    ///
    /// All that the journal has is put in place and synced, as by `open`, before the file is cut behind the lines and synced. So a crash leaves a file with its
    /// journal or one without, and either has the image.
    ///
    /// # Errors
    ///
    /// `Fault`, `WrongSize` and `Memory` as `open`; `Fault`, too, where the file cannot be cut, or synced then. What an opening makes of its bytes is as it was.
    pub fn settle<R: Files<File = File> + Alloc<A = Global>>(
        rt: &R,
        path: &str,
    ) -> Result<(), Refusal>
        ensures causes { IfErr result (λ refusal. (refusal ≡ Refusal.Fault) ⊎ ((refusal ≡ Refusal.WrongSize) ⊎ (refusal ≡ Refusal.Memory))) }
    {
        match FilePmem::open(rt, path)? {
            FilePmem::Placed(_) => Ok(()),
            FilePmem::Journaled(device) => {
                if device.cut() {
                    Ok(())
                } else {
                    Err(Refusal::Fault)
                }
            }
        }
    }
}
