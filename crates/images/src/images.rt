//! Where images are found by name.
ghost use Rattle.std.specs.Prelude.{◌≡◌, ◌⊎◌, ℕ, ◌<◌, ◌≤◌, ◌^◌, Err, IfOk};
ghost use Rattle.kv_types.specs.declared.refusal.Refusal.TheVariants.{WrongSize};
ghost use Rattle.model.specs.declared.image.TheConstants.{MIN_LINES, MAX_LINES};
ghost use Rattle.pmem.specs.Device.{Only};
ghost use Rattle.pmem.specs.Crash.{image_of};

use crate::room::{LINE_BYTES, give_room};
use crate::trouble::{
    Step, Trouble, Why, locked, refused, refused_making, trouble_of_filling, trouble_of_reading,
    trouble_of_using,
};
use journal::Shape;
use kv_types::Refusal;
use model::{MAX_LINES, MIN_LINES};
use pmem::Pmem;
use pmem_file::FilePmem;
use std::fs::{self, File};
use std::io::{self, ErrorKind};
use std::thread;
use std::time::Duration;

/// Devices that hold images, each by its name.
pub trait Images {
    type Device: Pmem + Drop;

    /// Whether there is something of this name.
    fn is_there(&self, name: &str) -> bool;

    /// What keeps this name from being opened just now.
    fn trouble(&self, name: &str) -> Trouble;

    /// What keeps this name from being opened just now, or read, written back as it is and synced. Its bytes are as they were.
    fn trouble_of_using(&self, name: &str) -> Trouble;

    /// What keeps this name from being opened and read just now. Whoever has it open keeps it, and nothing is written to it.
    fn trouble_of_reading(&self, name: &str) -> Trouble;

    /// What keeps a file for an image of so many lines, with room for a journal or without, from being made under this name just now, or one that is there from
    /// being used. Nothing is left there.
    fn trouble_of_making(&self, name: &str, lines: u64, has_journal: bool) -> Trouble;

    /// What keeps an image of this name from being given a journal just now. It is as it was.
    fn trouble_of_giving(&self, name: &str) -> Trouble;

    /// Whether what has this name has the size of an image of so many lines, with a journal or without.
    fn has_size(&self, name: &str, lines: u64, has_journal: bool) -> bool;

    /// The device of `lines` lines of this name, which is made where there is none, with a journal or without.
    ///
    /// `WrongSize` where `lines` is not 4,096 to 2^31, with nothing touched, or where the one that is there has another size, or something else than zeros or a
    /// journal of such an image where its journal is to be; `Fault` where it cannot be made or read; `Memory`.
    fn create(&self, name: &str, lines: u64, has_journal: bool) -> Result<Self::Device, Refusal>
        ensures lines { IfOk result (λ device. (Self.Device.state device).lines ≡ lines) }
        ensures unlawful { (lines < MIN_LINES) ⊎ (MAX_LINES < lines) → result ≡ Err WrongSize };

    /// The device of this name as it was left: a crash leaves what is read from it.
    ///
    /// `WrongSize` where it has not 4,096 to 2^31 lines; `Fault` where there is none, or another has it and keeps it for two seconds, or it cannot be read or
    /// written; `Memory`. It is as it was.
    fn open(&self, name: &str) -> Result<Self::Device, Refusal>
        ensures many { IfOk result (λ device. MIN_LINES ≤ (Self.Device.state device).lines) }
        ensures few { IfOk result (λ device. (Self.Device.state device).lines ≤ MAX_LINES) }
        ensures settled { IfOk result (λ device. (word : ℕ)
            → Only ((Self.Device.state device).words word) (image_of (Self.Device.state device).words word)) };

    /// The device of this name for reading alone: whoever has it open keeps it, and nothing is written to it.
    ///
    /// `WrongSize` where it has not 4,096 to 2^31 lines; `Fault` where there is none or it cannot be read; `Memory`.
    fn read_only(&self, name: &str) -> Result<Self::Device, Refusal>
        ensures many { IfOk result (λ device. MIN_LINES ≤ (Self.Device.state device).lines) }
        ensures few { IfOk result (λ device. (Self.Device.state device).lines ≤ MAX_LINES) }
        ensures settled { IfOk result (λ device. (word : ℕ)
            → Only ((Self.Device.state device).words word) (image_of (Self.Device.state device).words word)) };

    /// Gives the image of this name a journal, where it has none. At any moment a crash leaves what it holds.
    ///
    /// Only `Fault`, where another has it and keeps it for two seconds, or there is no room for a journal.
    fn give_journal(&self, name: &str) -> Result<(), Refusal>;

    /// Takes the journal of the image of this name away, where it has one. At any moment a crash leaves what it holds.
    ///
    /// Refusals as at `open`.
    fn settle(&self, name: &str) -> Result<(), Refusal>;
}

/// How often a file that another process holds is tried again, and after how many milliseconds: one that was killed holds it for a moment.
const TRIES: u32 = 20;

const PAUSE_MILLISECONDS: u64 = 100;

/// Images in the files of the system, by their paths.
#[derive(Clone, Copy)]
pub struct Files<'a> {
    rt: &'a HostRuntime,
}

impl<'a> Files<'a> {
    /// The files that this runtime reaches.
    pub fn of(rt: &'a HostRuntime) -> Files<'a> {
        Files { rt }
    }

    /// The file of this name, for reading and writing, once it is locked.
    fn locked(&self, name: &str) -> Result<File, Trouble> {
        if self.is_no_file(name) {
            return Err(Trouble::NoFile);
        }
        match File::options().read(true).write(true).open(self.rt, name) {
            Ok(file) => locked(file),
            Err(error) => Err(self.trouble_by_opening(name, &error)),
        }
    }

    /// What an error says of a file that could not be opened.
    fn trouble_by_opening(&self, name: &str, error: &io::Error) -> Trouble {
        match error.kind() {
            ErrorKind::NotFound => self.missing(name),
            ErrorKind::NotADirectory => Trouble::NoFolder,
            ErrorKind::InvalidFilename => Trouble::Missing,
            _ => refused(Step::Open, error),
        }
    }

    /// What of a file that is not there is missing.
    fn missing(&self, name: &str) -> Trouble {
        match fs::metadata(self.rt, folder_of(name)) {
            Err(error) if error.kind() == ErrorKind::NotFound => Trouble::NoFolder,
            _ => Trouble::Missing,
        }
    }

    /// Gives the file of this name room for a journal, once it is locked.
    fn give_room(&self, name: &str) -> Result<(), Trouble> {
        let file = self.locked(name)?;
        give_room(&file)
    }

    /// Makes a file of this name and so many lines, and takes it away again.
    fn try_to_make(&self, name: &str, lines: u64) -> Trouble {
        match File::options()
            .write(true)
            .create_new(true)
            .open(self.rt, name)
        {
            Ok(file) => {
                let trouble = trouble_of_filling(&file, lines);
                let _removed = fs::remove_file(self.rt, name);
                trouble
            }
            Err(error) => refused_making(&error),
        }
    }

    /// Whether what has this name is no file, such as a pipe: to open one may wait for ever.
    fn is_no_file(&self, name: &str) -> bool {
        match fs::metadata(self.rt, name) {
            Ok(found) => !found.is_file(),
            Err(_) => false,
        }
    }

    /// Waits up to two seconds where another process holds this file.
    fn wait_for(&self, name: &str) {
        for _ in 0..TRIES {
            if self.trouble(name) != Trouble::Held {
                return;
            }
            thread::sleep(self.rt, Duration::from_millis(PAUSE_MILLISECONDS));
        }
    }
}

/// How many lines the file of an image of so many lines has, with a journal or without.
fn lines_of_file(lines: u64, has_journal: bool) -> u64
    requires { lines ≤ MAX_LINES }
    ensures { result < 2 ^ 33 }
{
    if has_journal {
        Shape::of_image(lines).lines_of_file()
    } else {
        lines
    }
}

/// The folder of a file.
fn folder_of(name: &str) -> &str {
    match name.rsplit_once('/') {
        Some(("", _)) => "/",
        Some((folder, _)) => folder,
        None => ".",
    }
}

impl<'a> Images for Files<'a> {
    type Device = FilePmem;

    fn is_there(&self, name: &str) -> bool {
        // (a link that leads nowhere is there as well)
        fs::symlink_metadata(self.rt, name).is_ok()
    }

    fn trouble(&self, name: &str) -> Trouble {
        match self.locked(name) {
            Ok(_file) => Trouble::None,
            Err(trouble) => trouble,
        }
    }

    fn trouble_of_using(&self, name: &str) -> Trouble {
        match self.locked(name) {
            Ok(file) => trouble_of_using(&file),
            Err(trouble) => trouble,
        }
    }

    fn trouble_of_reading(&self, name: &str) -> Trouble {
        if self.is_no_file(name) {
            return Trouble::NoFile;
        }
        match File::open(self.rt, name) {
            Ok(file) => trouble_of_reading(&file),
            Err(error) => self.trouble_by_opening(name, &error),
        }
    }

    fn trouble_of_making(&self, name: &str, lines: u64, has_journal: bool) -> Trouble {
        match self.trouble_of_using(name) {
            Trouble::Missing if lines <= MAX_LINES => {
                self.try_to_make(name, lines_of_file(lines, has_journal))
            }
            Trouble::NoFolder => Trouble::Refused(Step::Make, Why::NoFolder),
            trouble => trouble,
        }
    }

    fn trouble_of_giving(&self, name: &str) -> Trouble {
        // (what kept it a moment ago may be over: then it has a journal)
        match self.give_room(name) {
            Ok(()) => Trouble::None,
            Err(trouble) => trouble,
        }
    }

    fn has_size(&self, name: &str, lines: u64, has_journal: bool) -> bool {
        match fs::metadata(self.rt, name) {
            Ok(found) if lines <= MAX_LINES => {
                found.len() == LINE_BYTES * lines_of_file(lines, has_journal)
            }
            _ => false,
        }
    }

    fn create(&self, name: &str, lines: u64, has_journal: bool) -> Result<FilePmem, Refusal> {
        if MIN_LINES <= lines && lines <= MAX_LINES && self.is_no_file(name) {
            return Err(Refusal::Fault);
        }
        FilePmem::create(self.rt, name, lines, has_journal)
    }

    fn open(&self, name: &str) -> Result<FilePmem, Refusal> {
        if self.is_no_file(name) {
            return Err(Refusal::Fault);
        }
        self.wait_for(name);
        FilePmem::open(self.rt, name)
    }

    fn read_only(&self, name: &str) -> Result<FilePmem, Refusal> {
        if self.is_no_file(name) {
            return Err(Refusal::Fault);
        }
        FilePmem::read_only(self.rt, name)
    }

    fn give_journal(&self, name: &str) -> Result<(), Refusal> {
        self.wait_for(name);
        match self.give_room(name) {
            Ok(()) => Ok(()),
            Err(_) => Err(Refusal::Fault),
        }
    }

    fn settle(&self, name: &str) -> Result<(), Refusal> {
        if self.is_no_file(name) {
            return Err(Refusal::Fault);
        }
        self.wait_for(name);
        FilePmem::settle(self.rt, name)
    }
}
