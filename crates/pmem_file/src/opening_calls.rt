// What was asked of a file before the device over it was there, for contracts alone.
ghost use Rattle.std.specs.Prelude.{◌≡◌, [], ◌∷◌};
ghost use Rattle.pmem_file.specs.Opening.{step_of, steps_of};

use std::snapshot::Snapshot;

/// One call of the system, and whether it succeeded.
#[derive(Drop)]
pub enum OpeningCall {
    /// The making of a file, which fails where one is there.
    Make(bool),
    /// The opening of a file that is there.
    Open(bool),
    /// The lock on it, against every other device.
    Lock(bool),
    /// The setting of its length, in bytes.
    Resize(u64, bool),
    /// A sync of the file, its data and its length.
    SyncFile(bool),
    /// A sync of its folder, which holds its name.
    SyncFolder(bool),
    /// A look at its length, and the bytes that it found.
    Measure(Option<u64>),
    /// A read of as many bytes as these from this byte of the file on, and what the block held then.
    Read(u64, Snapshot<Vec<u8>>, bool),
    /// A write of these bytes, which were read there, from this byte of the file on.
    WriteBack(u64, Snapshot<Vec<u8>>, bool),
    /// A sync of the file's data.
    SyncData(bool),
}

/// What was asked of a file, the newest call outermost. It takes no memory but its tag: a snapshot has no bytes.
#[derive(Drop)]
pub enum OpeningCalls {
    /// Nothing yet.
    Nothing,
    /// One call more.
    Then(Snapshot<OpeningCall>, Snapshot<OpeningCalls>),
}

impl OpeningCalls {
    /// Nothing was asked yet.
    pub fn none() -> OpeningCalls
        ensures { steps_of result ≡ [] }
    {
        OpeningCalls::Nothing
    }

    /// Adds a call.
    pub fn note(&mut self, call: &OpeningCall)
        ensures { steps_of self.new ≡ step_of call.now ∷ steps_of self.old }
    {
        let before = Snapshot::of(self);
        *self = OpeningCalls::Then(Snapshot::of(call), before);
    }
}
