// What a file keeps of a device where its disk and its cache are as the premise has them.
ghost use Rattle.std.specs.Prelude.{◌≡◌, ◌⊎◌, true, List};
ghost use Rattle.pmem_file.specs.Device.{read_by, asked_by, opening_by, IsOpened, IsCreated};
ghost use Rattle.pmem_file.specs.PageCache.{Pages, Event, pages_after, tells, calls_in, changes_in, HasOnly, Allows, ReadingIsNotEnough};

use crate::device::FilePmem;

impl FilePmem {
    /// A law: whatever a file's disk and its cache held, once the device was opened or created the disk has the words that it read.
    pub fn begins_on_the_disk(&self)
        ensures { IsOpened self.now ⊎ IsCreated self.now → (start : Pages) (events : List Event) → tells events ≡ true
            → calls_in events ≡ changes_in (opening_by self.now) → HasOnly (read_by self.now) (pages_after events start) }
    {}

    /// A law, at every moment between two calls: what a power cut or the end of the process leaves of the file is what the list of calls allows.
    pub fn leaves_what_is_allowed(&self)
        ensures { IsOpened self.now ⊎ IsCreated self.now → (start : Pages) (opening since : List Event) → tells opening ≡ true
            → calls_in opening ≡ changes_in (opening_by self.now) → tells since ≡ true → calls_in since ≡ asked_by self.now
            → Allows (read_by self.now) (asked_by self.now) (pages_after since (pages_after opening start)) }
    {}
}

/// A law: an opening that reads and syncs, and writes nothing back, may have read what the disk has not. A write whose sync failed is enough.
pub fn reading_is_not_enough()
    ensures { ReadingIsNotEnough }
{}
