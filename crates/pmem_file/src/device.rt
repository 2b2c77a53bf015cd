// A device over a file.
use crate::journaled::JournaledFile;
use crate::placed::PlacedFile;
use pmem::{Fault, Pmem};

/// A device whose words are in a file. Once it is open it takes no memory.
#[derive(Drop)]
pub enum FilePmem {
    /// Each fence puts lines in their places and syncs.
    Placed(PlacedFile),
    /// Each fence seals a record of a journal behind the lines, and a sync makes all records durable.
    Journaled(JournaledFile),
}

impl FilePmem {
    ghost use Rattle.std.specs.Prelude.{◌≡◌};
    ghost use Rattle.pmem_file.specs.Device.{LeavesAnImage, LeavesAHead, has_journal};

    /// Whether the file has a journal, so that a fence makes nothing durable, and a sync does.
    pub fn has_journal(&self) -> bool
        ensures { result ≡ has_journal self.now }
    {
        match self {
            FilePmem::Placed(_) => false,
            FilePmem::Journaled(_) => true,
        }
    }

    /// A law, at every moment between two calls: what an opening makes of an image that a crash may leave in the file, by the list of what was asked of it, is
    /// one that a crash may leave of the device from its floor on; and the opening finds the journal, where there is one.
    pub fn leaves_an_image(&self)
        ensures image { LeavesAnImage self.now }
        ensures head { ∥ LeavesAHead self.now ∥₁ }
    {
        match self {
            FilePmem::Placed(device) => device.leaves_an_image(),
            FilePmem::Journaled(device) => device.leaves_an_image(),
        }
    }
}

impl Pmem for FilePmem {
    ghost use Rattle.std.specs.Prelude.{◌≡◌, ◌*◌, ◌<◌, ◌≤◌, ◌+◌, true, suc, OnOk, OnErr, IsErr, IsTrue};
    ghost use Rattle.pmem.specs.Device.{Steps, store_at, flush_at, fenced, fences_after, must_fail, may_fail, is_unsure, moment};
    ghost use Rattle.pmem_file.specs.Call.{has_failed};
    ghost use Rattle.pmem_file.specs.Device.{state_of, floor_of, read_by, asked_by, opening_by, has_journal, PersistsInPlace, countable, reached};

    ghost state = { state_of };

    ghost floor = { floor_of };

    fn load(&self, word: u64) -> u64 {
        match self {
            FilePmem::Placed(device) => device.load(word),
            FilePmem::Journaled(device) => device.load(word),
        }
    }

    fn store(&mut self, word: u64, value: u64)
        requires { word < 8 * (state_of self.old).lines }
        ensures steps { Steps (state_of self.old) (state_of self.new)
            (store_at word value (state_of self.old).words) (state_of self.old).failures (state_of self.old).fences }
        ensures rises { floor_of self.old ≤ floor_of self.new }
        // the file is not touched
        ensures file { asked_by self.new ≡ asked_by self.old }
        ensures opening { opening_by self.new ≡ opening_by self.old }
        ensures read { read_by self.new ≡ read_by self.old }
        ensures journal { has_journal self.new ≡ has_journal self.old }
    {
        match self {
            FilePmem::Placed(device) => device.store(word, value),
            FilePmem::Journaled(device) => device.store(word, value),
        }
    }

    fn flush(&mut self, line: u64)
        requires { line < (state_of self.old).lines }
        ensures steps { Steps (state_of self.old) (state_of self.new)
            (flush_at line (state_of self.old).words) (state_of self.old).failures (state_of self.old).fences }
        ensures rises { floor_of self.old ≤ floor_of self.new }
        ensures file { asked_by self.new ≡ asked_by self.old }
        ensures opening { opening_by self.new ≡ opening_by self.old }
        ensures read { read_by self.new ≡ read_by self.old }
        ensures journal { has_journal self.new ≡ has_journal self.old }
    {
        match self {
            FilePmem::Placed(device) => device.flush(line),
            FilePmem::Journaled(device) => device.flush(line),
        }
    }

    fn fence(&mut self) -> Result<(), Fault>
        ensures ok { OnOk result (Steps (state_of self.old) (state_of self.new)
            (fenced (state_of self.old).words) (state_of self.old).failures (fences_after (state_of self.old).fences)) }
        ensures err { OnErr result (Steps (state_of self.old) (state_of self.new)
            (state_of self.old).words (suc (state_of self.old).failures) (fences_after (state_of self.old).fences)) }
        ensures asked { IsTrue (must_fail (state_of self.old)) → IsErr result }
        ensures unasked { IsErr result → IsTrue (may_fail (state_of self.old)) }
        ensures rises { floor_of self.old ≤ floor_of self.new }
        ensures written { OnOk result (PersistsInPlace self.old self.new) }
        // it fails just where a call of this fence or of an earlier one failed
        ensures cause { OnErr result (has_failed (asked_by self.new) ≡ true) }
        ensures lasting { has_failed (asked_by self.old) ≡ true → asked_by self.new ≡ asked_by self.old }
        ensures fails { has_failed (asked_by self.old) ≡ true → IsErr result }
        ensures opening { opening_by self.new ≡ opening_by self.old }
        ensures read { read_by self.new ≡ read_by self.old }
        ensures journal { has_journal self.new ≡ has_journal self.old }
    {
        match self {
            FilePmem::Placed(device) => device.fence(),
            FilePmem::Journaled(device) => device.fence(),
        }
    }

    fn sync(&mut self) -> Result<(), Fault>
        ensures ok { OnOk result (state_of self.new ≡ state_of self.old) }
        ensures durable { OnOk result (floor_of self.new ≡ moment (state_of self.new)) }
        ensures err { OnErr result (state_of self.new ≡ record (state_of self.old) { failures = suc (state_of self.old).failures }) }
        ensures unasked { IsErr result → IsTrue (is_unsure (state_of self.old).fences) }
        ensures rises { floor_of self.old ≤ floor_of self.new }
        ensures cause { OnErr result (has_failed (asked_by self.new) ≡ true) }
        ensures lasting { has_failed (asked_by self.old) ≡ true → asked_by self.new ≡ asked_by self.old }
        ensures opening { opening_by self.new ≡ opening_by self.old }
        ensures read { read_by self.new ≡ read_by self.old }
        ensures journal { has_journal self.new ≡ has_journal self.old }
    {
        match self {
            FilePmem::Placed(device) => device.sync(),
            FilePmem::Journaled(device) => device.sync(),
        }
    }

    fn lines(&self) -> u64 {
        match self {
            FilePmem::Placed(device) => device.lines(),
            FilePmem::Journaled(device) => device.lines(),
        }
    }

    fn failures(&self) -> u64 {
        match self {
            FilePmem::Placed(device) => device.failures(),
            FilePmem::Journaled(device) => device.failures(),
        }
    }

    ghost countable = { countable };

    ghost reached = { reached };
}
