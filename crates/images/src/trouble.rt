//! What keeps an image from being opened, made or used, as the system says where it is asked again.

use std::fmt;
use std::fs::{File, TryLockError};
use std::io::{self, ErrorKind, Write};
use std::os::unix::fs::FileExt;

/// What keeps a name from being opened, or its file from being made or used.
#[derive(Clone, Copy, Debug, PartialEq, Eq)]
pub enum Trouble {
    /// Nothing that can be told.
    None,
    /// There is nothing of this name.
    Missing,
    /// There is not even the folder.
    NoFolder,
    /// What has this name is no file, such as a pipe: to open one may wait for ever.
    NoFile,
    /// Another process has locked it.
    Held,
    /// The system refuses this step.
    Refused(Step, Why),
}

/// What is asked of the system.
#[derive(Clone, Copy, Debug, PartialEq, Eq)]
pub enum Step {
    Make,
    Open,
    Lock,
    Read,
    Write,
    Sync,
}

/// Why the system refuses it.
#[derive(Clone, Copy, Debug, PartialEq, Eq)]
pub enum Why {
    /// There is no folder to make it in.
    NoFolder,
    /// No file can have this name.
    BadName,
    /// This user may not.
    Forbidden,
    /// Nobody may, since its file system is read-only.
    ReadOnly,
    /// Its file system, or what this user may take of it, has no room for it.
    NoRoom,
    /// No file there, or of this process, may be as large.
    TooLarge,
    /// This process, or the system, has no descriptor left.
    NoDescriptor,
    /// For this number of the system's.
    Error(i32),
    /// It does not say.
    Unsaid,
}

/// The system's numbers of an error where it, or this process, has no descriptor left.
const ENFILE: i32 = 23;

const EMFILE: i32 = 24;

const LINE_BYTES: u64 = 64;

/// How many bytes are read or written at once, and how many lines that are.
const BLOCK_BYTES: usize = 65_536;

const BLOCK_LINES: u64 = 1_024;

impl fmt::Display for Trouble {
    fn fmt<W: fmt::Write>(&self, f: &mut fmt::Formatter<W>) -> fmt::Result {
        match self {
            Trouble::None => f.write_str("could not be made or used a moment ago, and can be now"),
            Trouble::Missing | Trouble::NoFolder => f.write_str("is not there"),
            Trouble::NoFile => f.write_str("is no file"),
            Trouble::Held => f.write_str("is held by another process"),
            Trouble::Refused(step, why) => write!(f, "could not be {step}: {why}"),
        }
    }
}

impl fmt::Display for Step {
    fn fmt<W: fmt::Write>(&self, f: &mut fmt::Formatter<W>) -> fmt::Result {
        match self {
            Step::Make => f.write_str("made"),
            Step::Open => f.write_str("opened"),
            Step::Lock => f.write_str("locked"),
            Step::Read => f.write_str("read"),
            Step::Write => f.write_str("written"),
            Step::Sync => f.write_str("synced"),
        }
    }
}

impl fmt::Display for Why {
    fn fmt<W: fmt::Write>(&self, f: &mut fmt::Formatter<W>) -> fmt::Result {
        match self {
            Why::NoFolder => f.write_str("its folder is not there"),
            Why::BadName => f.write_str("no file can have this name"),
            Why::Forbidden => f.write_str("this user is not permitted to"),
            Why::ReadOnly => f.write_str("its file system is read-only"),
            Why::NoRoom => f.write_str("its file system has no room for it"),
            Why::TooLarge => f.write_str("no file may be as large, there or for this process"),
            Why::NoDescriptor => f.write_str("no descriptor is left"),
            Why::Error(number) => {
                let error = io::Error::from_raw_os_error(*number);
                write!(f, "{error}")
            }
            Why::Unsaid => f.write_str("the system does not say why"),
        }
    }
}

impl Trouble {
    /// Whether it may pass, and the same be done another time.
    pub fn may_pass(self) -> bool {
        match self {
            Trouble::Held | Trouble::Refused(_, Why::NoDescriptor) => true,
            _ => false,
        }
    }
}

/// What an error of this step says.
pub fn refused(step: Step, error: &io::Error) -> Trouble {
    Trouble::Refused(step, reason_of(error))
}

/// What an error says of a file that is to be made. One that was not found, in a folder that is there, has no name.
pub fn refused_making(error: &io::Error) -> Trouble {
    match error.kind() {
        ErrorKind::NotFound | ErrorKind::InvalidFilename | ErrorKind::InvalidInput => {
            Trouble::Refused(Step::Make, Why::BadName)
        }
        _ => refused(Step::Make, error),
    }
}

/// Why the system refused a call.
fn reason_of(error: &io::Error) -> Why {
    match error.kind() {
        ErrorKind::PermissionDenied => Why::Forbidden,
        ErrorKind::ReadOnlyFilesystem => Why::ReadOnly,
        ErrorKind::StorageFull | ErrorKind::QuotaExceeded => Why::NoRoom,
        ErrorKind::FileTooLarge => Why::TooLarge,
        _ => reason_of_number(error.raw_os_error()),
    }
}

fn reason_of_number(number: Option<i32>) -> Why {
    match number {
        Some(ENFILE | EMFILE) => Why::NoDescriptor,
        Some(number) => Why::Error(number),
        None => Why::Unsaid,
    }
}

/// The file, once it is locked.
pub fn locked(file: File) -> Result<File, Trouble> {
    match file.try_lock() {
        Ok(()) => Ok(file),
        Err(TryLockError::WouldBlock) => Err(Trouble::Held),
        Err(TryLockError::Error(error)) => Err(refused(Step::Lock, &error)),
    }
}

/// What keeps a locked file from being read, written back as it is, and synced, as an opening does.
pub fn trouble_of_using(file: &File) -> Trouble {
    if let Err(trouble) = read_through(file, true) {
        return trouble;
    }
    match file.sync_data() {
        Ok(()) => Trouble::None,
        Err(error) => refused(Step::Sync, &error),
    }
}

/// What keeps a file from being read.
pub fn trouble_of_reading(file: &File) -> Trouble {
    match read_through(file, false) {
        Ok(()) => Trouble::None,
        Err(trouble) => trouble,
    }
}

/// Reads all of a file, block by block, and writes each back as it was read where that is asked for.
fn read_through(file: &File, writes_back: bool) -> Result<(), Trouble> {
    let bytes = match file.metadata() {
        Ok(data) => data.len(),
        Err(error) => return Err(refused(Step::Read, &error)),
    };
    let mut block = [0; BLOCK_BYTES];
    for number in 0..bytes.div_ceil(BLOCK_BYTES as u64) {
        let at = number.saturating_mul(BLOCK_BYTES as u64);
        let count = bytes.saturating_sub(at).min(BLOCK_BYTES as u64) as usize;
        read_block(file, at, &mut block[..count], writes_back)?;
    }
    Ok(())
}

/// Reads a block from the byte `at` on, and writes it back where that is asked for.
fn read_block(file: &File, at: u64, block: &mut [u8], writes_back: bool) -> Result<(), Trouble> {
    if let Err(error) = file.read_exact_at(block, at) {
        return Err(refused(Step::Read, &error));
    }
    if !writes_back {
        return Ok(());
    }
    match file.write_all_at(block, at) {
        Ok(()) => Ok(()),
        Err(error) => Err(refused(Step::Write, &error)),
    }
}

/// What keeps a new file from having so many lines of zeros on the disk.
pub fn trouble_of_filling(file: &File, lines: u64) -> Trouble {
    match fill(file, lines) {
        Ok(()) => Trouble::None,
        Err(error) => refused(Step::Make, &error),
    }
}

/// Writes so many lines of zeros, and has them on the disk.
fn fill(file: &File, lines: u64) -> io::Result<()> {
    file.set_len(lines.saturating_mul(LINE_BYTES))?;
    let zeros = [0; BLOCK_BYTES];
    let mut file = file;
    for _ in 0..lines.div_ceil(BLOCK_LINES) {
        file.write_all(&zeros)?;
    }
    file.sync_all()
}
