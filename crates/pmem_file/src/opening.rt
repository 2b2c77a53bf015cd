// A file that is to become a device, with the list of what was asked of it.
ghost use Rattle.std.specs.Prelude.{◌≡◌, ◌⊎◌, ◌↔◌, [], ◌∷◌, true, false, is_ok, is_some, if◌then◌else◌, vec_len, IfOk, IfErr};
ghost use Rattle.std.specs.IoError.{error_kind};
ghost use Rattle.kv_types.specs.declared.refusal.Refusal;
ghost use Rattle.pmem_file.specs.Opening.{steps_of, Made, Opened, Locked, Resized, FileSynced, FolderSynced, Found, ReadAt, WroteBack, DataSynced, with_block};

use crate::opening_calls::{OpeningCall, OpeningCalls};
use kv_types::Refusal;
use std::alloc::Global;
use std::fs::{self, File, Files, OpenOptions};
use std::io::{self, ErrorKind};
use std::os::unix::fs::{FileExt, OpenOptionsExt};
use std::snapshot::Snapshot;

/// An open file. Each call of the system stands in a function of its own, which notes it with what came of it.
#[derive(Drop)]
pub struct Opening {
    file: File,
    calls: OpeningCalls,
}

impl Opening {
    /// Opens a file that is there, for reading and writing.
    pub fn open<R: Files<File = File> + Alloc<A = Global>>(
        rt: &R,
        path: &str,
    ) -> Result<Opening, Refusal>
        ensures noted { IfOk result (λ opening. steps_of opening.calls ≡ Opened true ∷ []) }
        ensures causes { IfErr result (λ refusal. refusal ≡ Refusal.Fault) }
    {
        let mut calls = OpeningCalls::none();
        let file = open_file(rt, path, &mut calls)?;
        Ok(Opening { file, calls })
    }

    /// Opens a file that is there, for reading alone.
    pub fn open_to_read<R: Files<File = File> + Alloc<A = Global>>(
        rt: &R,
        path: &str,
    ) -> Result<Opening, Refusal>
        ensures noted { IfOk result (λ opening. steps_of opening.calls ≡ Opened true ∷ []) }
        ensures causes { IfErr result (λ refusal. refusal ≡ Refusal.Fault) }
    {
        let mut calls = OpeningCalls::none();
        let opened = File::open(rt, path);
        calls.note(&OpeningCall::Open(opened.is_ok()));
        match opened {
            Ok(file) => Ok(Opening { file, calls }),
            Err(_) => Err(Refusal::Fault),
        }
    }

    /// Makes a file of no bytes or opens the one that is there, for reading and writing, and says whether it made it.
    pub fn make_or_open<R: Files<File = File> + Alloc<A = Global>>(
        rt: &R,
        path: &str,
    ) -> Result<(Opening, bool), Refusal>
        ensures noted { IfOk result (λ made. steps_of made.0.calls
            ≡ (if made.1 then Made true ∷ [] else Opened true ∷ Made false ∷ [])) }
        ensures causes { IfErr result (λ refusal. refusal ≡ Refusal.Fault) }
    {
        let mut calls = OpeningCalls::none();
        if let Some(file) = make_file(rt, path, &mut calls)? {
            return Ok((Opening { file, calls }, true));
        }
        let file = open_file(rt, path, &mut calls)?;
        Ok((Opening { file, calls }, false))
    }

    /// The file, and what was asked of it.
    pub fn into_parts(self) -> (File, OpeningCalls)
        ensures { result.1 ≡ self.calls }
    {
        (self.file, self.calls)
    }

    /// Takes away the file that this one made, where that can be done, and lets it go.
    pub fn remove<R: Files<File = File> + Alloc<A = Global>>(self, rt: &R, path: &str) {
        // (a file that stays is refused at its next opening, or is an image of zeros)
        let _removed = fs::remove_file(rt, path);
    }

    /// Locks the file against every other device.
    pub fn lock(&mut self) -> bool
        ensures { steps_of self.new.calls ≡ Locked result ∷ steps_of self.old.calls }
    {
        let done = self.file.try_lock().is_ok();
        self.calls.note(&OpeningCall::Lock(done));
        done
    }

    /// Gives the file this length. What it gains is zeros.
    pub fn resize(&mut self, bytes: u64) -> bool
        ensures { steps_of self.new.calls ≡ Resized bytes result ∷ steps_of self.old.calls }
    {
        let done = self.file.set_len(bytes).is_ok();
        self.calls.note(&OpeningCall::Resize(bytes, done));
        done
    }

    /// Makes the file's data and length durable.
    pub fn sync_file(&mut self) -> bool
        ensures { steps_of self.new.calls ≡ FileSynced result ∷ steps_of self.old.calls }
    {
        let done = self.file.sync_all().is_ok();
        self.calls.note(&OpeningCall::SyncFile(done));
        done
    }

    /// Makes the file's name in its folder durable.
    ///
    /// # Errors
    ///
    /// `Memory` where there was none to find the folder; else `Fault`. The file is as it was.
    pub fn sync_folder<R: Files<File = File> + Alloc<A = Global>>(
        &mut self,
        rt: &R,
        path: &str,
    ) -> Result<(), Refusal>
        ensures noted { steps_of self.new.calls ≡ FolderSynced (is_ok result) ∷ steps_of self.old.calls }
        ensures causes { IfErr result (λ refusal. (refusal ≡ Refusal.Fault) ⊎ (refusal ≡ Refusal.Memory)) }
    {
        let synced = sync_folder_of(rt, path);
        self.calls.note(&OpeningCall::SyncFolder(synced.is_ok()));
        match synced {
            Ok(()) => Ok(()),
            Err(error) => Err(refusal_of(&error)),
        }
    }

    /// How many bytes the file has, where that can be told.
    pub fn measure(&mut self) -> Option<u64>
        ensures { steps_of self.new.calls ≡ Found result ∷ steps_of self.old.calls }
    {
        let found = match self.file.metadata() {
            // (a folder can be opened for reading)
            Ok(data) if !data.is_dir() => Some(data.len()),
            _ => None,
        };
        self.calls.note(&OpeningCall::Measure(found));
        found
    }

    /// Fills a block with the bytes from the byte `offset` on.
    pub fn read(&mut self, offset: u64, block: &mut Vec<u8>) -> bool
        ensures noted { steps_of self.new.calls ≡ ReadAt offset block.new.items result ∷ steps_of self.old.calls }
        ensures length { vec_len block.new ≡ vec_len block.old }
    {
        let done = self.file.read_exact_at(block, offset).is_ok();
        self.calls
            .note(&OpeningCall::Read(offset, Snapshot::of(block), done));
        done
    }

    /// Fills a block with the bytes from the byte `offset` on, and writes it back where that is asked for.
    pub fn read_block(&mut self, offset: u64, block: &mut Vec<u8>, writes_back: bool) -> bool
        ensures noted { result ≡ true → steps_of self.new.calls ≡ with_block writes_back offset block.new.items (steps_of self.old.calls) }
        ensures length { vec_len block.new ≡ vec_len block.old }
    {
        if !self.read(offset, block) {
            return false;
        }
        if writes_back {
            self.write_back(offset, block)
        } else {
            true
        }
    }

    /// Writes a block from the byte `offset` on, where it was read.
    fn write_back(&mut self, offset: u64, block: &Vec<u8>) -> bool
        ensures { steps_of self.new.calls ≡ WroteBack offset block.now.items result ∷ steps_of self.old.calls }
    {
        let done = self.file.write_all_at(block, offset).is_ok();
        self.calls
            .note(&OpeningCall::WriteBack(offset, Snapshot::of(block), done));
        done
    }

    /// Makes the file's data durable.
    pub fn sync_data(&mut self) -> bool
        ensures { steps_of self.new.calls ≡ DataSynced result ∷ steps_of self.old.calls }
    {
        let done = self.file.sync_data().is_ok();
        self.calls.note(&OpeningCall::SyncData(done));
        done
    }
}

/// Opens a file that is there.
fn open_file<R: Files<File = File> + Alloc<A = Global>>(
    rt: &R,
    path: &str,
    calls: &mut OpeningCalls,
) -> Result<File, Refusal>
    ensures noted { IfOk result (λ _. steps_of calls.new ≡ Opened true ∷ steps_of calls.old) }
    ensures causes { IfErr result (λ refusal. refusal ≡ Refusal.Fault) }
{
    let opened = OpenOptions::new().read(true).write(true).open(rt, path);
    calls.note(&OpeningCall::Open(opened.is_ok()));
    match opened {
        Ok(file) => Ok(file),
        Err(_) => Err(Refusal::Fault),
    }
}

/// Makes a file where none is there, which its owner alone may read and write.
fn make_file<R: Files<File = File> + Alloc<A = Global>>(
    rt: &R,
    path: &str,
    calls: &mut OpeningCalls,
) -> Result<Option<File>, Refusal>
    ensures noted { IfOk result (λ made. steps_of calls.new ≡ Made (is_some made) ∷ steps_of calls.old) }
    ensures causes { IfErr result (λ refusal. refusal ≡ Refusal.Fault) }
{
    let made = OpenOptions::new()
        .read(true)
        .write(true)
        .create_new(true)
        .mode(0o600)
        .open(rt, path);
    calls.note(&OpeningCall::Make(made.is_ok()));
    match made {
        Ok(file) => Ok(Some(file)),
        Err(error) if error.kind() == ErrorKind::AlreadyExists => Ok(None),
        Err(_) => Err(Refusal::Fault),
    }
}

/// What refuses a device for this error of the system.
fn refusal_of(error: &io::Error) -> Refusal
    ensures memory { (result ≡ Refusal.Memory) ↔ (error_kind error.now ≡ ErrorKind.OutOfMemory) }
    ensures causes { (result ≡ Refusal.Fault) ⊎ (result ≡ Refusal.Memory) }
{
    match error.kind() {
        ErrorKind::OutOfMemory => Refusal::Memory,
        _ => Refusal::Fault,
    }
}

/// Syncs the folder that the file at this path is in.
fn sync_folder_of<R: Files<File = File> + Alloc<A = Global>>(rt: &R, path: &str) -> io::Result<()> {
    let mut folder = fs::canonicalize(rt, path)?;
    folder.pop();
    File::open(rt, folder.as_str())?.sync_all()
}
