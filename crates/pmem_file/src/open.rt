// Opening and making the file of a device.
ghost use Rattle.std.specs.Prelude.{◌≡◌, ◌⊎◌, ◌+◌, ◌*◌, ◌^◌, ◌<◌, ◌≤◌, ◌-◌, ◌∷◌, ◌++◌, true, false, ℕ, List, slice_index, if◌then◌else◌, Some, None, is_some, min, length, vec_len, vec_capacity, Err, IfOk, IfErr, IfSome, IfNone};
ghost use Rattle.std.specs.Int.{div_ceil};
ghost use Rattle.kv_types.specs.declared.refusal.Refusal;
ghost use Rattle.journal.specs.File.{lines_of_file};
ghost use Rattle.model.specs.declared.image.TheConstants.{MIN_LINES, MAX_LINES};
ghost use Rattle.pmem_file.specs.declared.run.TheConstants.{LINES_A_WRITE};
ghost use Rattle.pmem_file.specs.declared.reading.TheConstants.{MAX_FILE_LINES};
ghost use Rattle.pmem_file.specs.Device.{state_of, read_by, shape_of, has_journal, IsFresh, IsRead, IsReadThrough, IsOpened, IsCreated};
ghost use Rattle.pmem_file.specs.Finding.{IsSeen};
ghost use Rattle.pmem_file.specs.Opening.{Step, AreReads, steps_of, Locked, Resized, FileSynced, FolderSynced, Found, DataSynced, with_blocks};

use crate::device::FilePmem;
use crate::finding::find_journal;
use crate::loading::{journaled_over, placed_over, replayed_over};
use crate::opening::Opening;
use crate::reading::{Loaded, MAX_FILE_LINES, load, load_to_read};
use journal::{Head, Shape};
use kv_types::Refusal;
use model::{LINE_BYTES, MAX_LINES, MIN_LINES};
use std::alloc::Global;
use std::fs::{File, Files};

impl FilePmem {
    /// Opens the device in a file, which stays locked until the device is dropped. A system may hold in memory what it failed to bring to the
    /// disk, or has not brought there yet: so each block is written back as it was read, and the file is synced.
    ///
    /// Where a journal stands behind the lines of the image (`find_journal`), its records are replayed: the lines that they have are put in place, and the next
    /// generation begins.
    ///
    /// # Errors
    ///
    /// `Fault` where the file cannot be opened, locked, read, written or synced; `WrongSize` where it has not 4,096 to 2^31 whole lines of
    /// 64 bytes, and then nothing was written; `Memory` where memory for its words was refused. What an opening makes of its bytes is as it was.
    pub fn open<R: Files<File = File> + Alloc<A = Global>>(
        rt: &R,
        path: &str,
    ) -> Result<FilePmem, Refusal>
        ensures fresh { IfOk result (λ device. IsFresh device) }
        ensures many { IfOk result (λ device. MIN_LINES ≤ (state_of device).lines) }
        ensures few { IfOk result (λ device. (state_of device).lines ≤ MAX_LINES) }
        ensures opened { IfOk result (λ device. IsOpened device) }
        ensures causes { IfErr result (λ refusal. (refusal ≡ Refusal.Fault) ⊎ ((refusal ≡ Refusal.WrongSize) ⊎ (refusal ≡ Refusal.Memory))) }
    {
        let mut opening = locked(Opening::open(rt, path)?)?;
        let lines = count_lines(&mut opening)?;
        match find_journal(rt.alloc(), &mut opening, lines)? {
            Some(head) => {
                let loaded = load(rt.alloc(), &mut opening, head.shape.lines, lines)?;
                journaled_over(rt.alloc(), loaded, opening, head.shape, lines)
            }
            None => {
                if MAX_LINES < lines {
                    return Err(Refusal::WrongSize);
                }
                let loaded = load(rt.alloc(), &mut opening, lines, lines)?;
                Ok(placed_over(loaded, opening, lines, lines))
            }
        }
    }

    /// The device in a file that is to be read alone: it is not locked, nothing is written to it, and a fence that has something to write fails.
    /// Where another program writes the file meanwhile, what was read may be older in one place than in another, but in a file with a journal: of that it reads
    /// an image of one moment.
    ///
    /// # Errors
    ///
    /// `Fault` where the file cannot be opened or read, or its journal began anew each time that it was read; `WrongSize` where it has not 4,096 to 2^31 whole
    /// lines of 64 bytes; `Memory` where memory for its words was refused. The file is as it was.
    pub fn read_only<R: Files<File = File> + Alloc<A = Global>>(
        rt: &R,
        path: &str,
    ) -> Result<FilePmem, Refusal>
        ensures many { IfOk result (λ device. MIN_LINES ≤ (state_of device).lines) }
        ensures few { IfOk result (λ device. (state_of device).lines ≤ MAX_LINES) }
        ensures placed { IfOk result (λ device. has_journal device ≡ false) }
        ensures read { IfOk result (λ device. (IsFresh device × IsRead device) ⊎ IsReadThrough device) }
        ensures causes { IfErr result (λ refusal. (refusal ≡ Refusal.Fault) ⊎ ((refusal ≡ Refusal.WrongSize) ⊎ (refusal ≡ Refusal.Memory))) }
    {
        let mut opening = Opening::open_to_read(rt, path)?;
        let lines = count_lines(&mut opening)?;
        match find_journal(rt.alloc(), &mut opening, lines)? {
            Some(head) => read_through(rt.alloc(), opening, head, lines),
            None => {
                if MAX_LINES < lines {
                    return Err(Refusal::WrongSize);
                }
                let loaded = load_to_read(rt.alloc(), &mut opening, lines, lines)?;
                Ok(placed_over(loaded, opening, lines, lines))
            }
        }
    }

    /// Opens the device of `lines` lines in a file, which stays locked until the device is dropped. Where there is no file it makes one of
    /// zeros, which its owner alone may read and write, with room for a journal behind the lines of the image where that is asked for: the journal begins when
    /// the file, with an image in it, is opened. Either way the file and its name in its folder are synced before it is read, and each
    /// block is written back and synced, as `open` does: so the disk has room for all of it.
    ///
    /// # Errors
    ///
    /// `WrongSize` where `lines` is not 4,096 to 2^31, and then no file was touched, or where a file that is there has another size, a journal of another image,
    /// or neither a journal nor zeros behind the lines of the image;
    /// `Fault` where the file cannot be made, opened, locked, read, written or synced; `Memory` where memory for its words, or to find its
    /// folder, was refused. A file that was made and locked is removed again, where that can be done; what an opening makes of the bytes of another one is as
    /// it was.
    pub fn create<R: Files<File = File> + Alloc<A = Global>>(
        rt: &R,
        path: &str,
        lines: u64,
        has_journal: bool,
    ) -> Result<FilePmem, Refusal>
        ensures fresh { IfOk result (λ device. IsFresh device) }
        ensures lines { IfOk result (λ device. (state_of device).lines ≡ lines) }
        ensures created { IfOk result (λ device. IsCreated device) }
        // nothing stands behind the image where no journal does
        ensures blank { IfOk result (λ device. shape_of device ≡ None → (word : ℕ) → 8 * lines ≤ word → slice_index (read_by device) word ≡ 0) }
        ensures unlawful { (lines < MIN_LINES) ⊎ (MAX_LINES < lines) → result ≡ Err Refusal.WrongSize }
        ensures causes { IfErr result (λ refusal. (refusal ≡ Refusal.Fault) ⊎ ((refusal ≡ Refusal.WrongSize) ⊎ (refusal ≡ Refusal.Memory))) }
    {
        if lines < MIN_LINES || MAX_LINES < lines {
            return Err(Refusal::WrongSize);
        }
        let all = lines_to_make(lines, has_journal);
        let (opening, is_new) = Opening::make_or_open(rt, path)?;
        let mut opening = locked(opening)?;
        match load_created(rt, path, &mut opening, is_new, lines, all) {
            Ok(created) => match created.head {
                Some(head) => journaled_over(rt.alloc(), created.loaded, opening, head.shape, all),
                None => Ok(placed_over(created.loaded, opening, lines, all)),
            },
            Err(refusal) => {
                if is_new {
                    opening.remove(rt, path);
                }
                Err(refusal)
            }
        }
    }
}

/// How many times a file whose journal begins anew is read.
const READINGS: u32 = 16;

/// How many lines the file of a device has, with room for a journal or without.
fn lines_to_make(lines: u64, has_journal: bool) -> u64
    requires { lines ≤ MAX_LINES }
    ensures image { lines ≤ result }
    ensures few { result ≤ MAX_FILE_LINES }
    ensures without { has_journal ≡ false → result ≡ lines }
{
    if has_journal {
        Shape::of_image(lines).lines_of_file()
    } else {
        lines
    }
}

/// The device in a file of `lines` lines with this head, which is to be read alone, as it was at one moment: where the journal began a generation meanwhile, it is
/// read again.
fn read_through(
    alloc: Global,
    mut opening: Opening,
    found: Head,
    lines: u64,
) -> Result<FilePmem, Refusal>
    requires whole { lines_of_file found.shape ≡ lines }
    requires many { MIN_LINES ≤ found.shape.lines }
    requires few { found.shape.lines ≤ MAX_LINES }
    requires readable { lines ≤ MAX_FILE_LINES }
    requires seen { (before : List Step) × IsSeen found before (steps_of opening.calls) }
    ensures through { IfOk result (λ device. IsReadThrough device) }
    ensures placed { IfOk result (λ device. has_journal device ≡ false) }
    ensures many { IfOk result (λ device. MIN_LINES ≤ (state_of device).lines) }
    ensures few { IfOk result (λ device. (state_of device).lines ≤ MAX_LINES) }
    ensures causes { IfErr result (λ refusal. (refusal ≡ Refusal.Fault) ⊎ (refusal ≡ Refusal.Memory)) }
{
    let mut head = found;
    for _ in 0..READINGS {
        let loaded = load_to_read(alloc, &mut opening, head.shape.lines, lines)?;
        let Some(now) = find_journal(alloc, &mut opening, lines)? else {
            return Err(Refusal::Fault);
        };
        if now == head {
            return replayed_over(alloc, loaded, opening, head.shape, lines);
        }
        head = now;
    }
    Err(Refusal::Fault)
}

/// What was read of a file that was made or was there.
#[derive(Drop)]
struct Created {
    loaded: Loaded,
    /// The head of its journal, where it has one.
    head: Option<Head>,
}

/// What a device of `lines` lines has in memory of a locked file of `all` lines, which was made or was there, once its length and its name are durable.
fn load_created<R: Files<File = File> + Alloc<A = Global>>(
    rt: &R,
    path: &str,
    opening: &mut Opening,
    is_new: bool,
    lines: u64,
    all: u64,
) -> Result<Created, Refusal>
    requires image { lines ≤ all }
    requires few { all ≤ MAX_FILE_LINES }
    ensures words { IfOk result (λ created. length created.loaded.words ≡ 8 * all) }
    ensures marks { IfOk result (λ created. vec_len created.loaded.notes.marks ≡ lines) }
    ensures room { IfOk result (λ created. 64 * LINES_A_WRITE ≤ vec_capacity created.loaded.buffer) }
    ensures image { IfOk result (λ created. IfSome created.head (λ head. head.shape.lines ≡ lines)) }
    ensures whole { IfOk result (λ created. IfSome created.head (λ head. lines_of_file head.shape ≡ all)) }
    ensures blank { IfOk result (λ created. created.head ≡ None → (word : ℕ) → 8 * lines ≤ word → slice_index created.loaded.words word ≡ 0) }
    ensures noted { IfOk result (λ created. (looks : List Step) × AreReads looks × (steps_of opening.new.calls
        ≡ DataSynced true ∷ with_blocks true created.loaded.words (div_ceil all LINES_A_WRITE)
        (looks ++ Found (Some (64 * all)) ∷ FolderSynced true ∷ FileSynced true
        ∷ (if is_new then Resized (64 * all) true ∷ steps_of opening.old.calls else steps_of opening.old.calls)))) }
    ensures causes { IfErr result (λ refusal. (refusal ≡ Refusal.Fault) ⊎ ((refusal ≡ Refusal.WrongSize) ⊎ (refusal ≡ Refusal.Memory))) }
{
    if is_new && !opening.resize(LINE_BYTES * all) {
        return Err(Refusal::Fault);
    }
    // (also where the file was there: whoever made it may have ended before it was durable)
    settle(rt, path, opening)?;
    if count_lines(opening)? != all {
        return Err(Refusal::WrongSize);
    }
    let head = find_journal(rt.alloc(), opening, all)?;
    if is_of_another(head, lines) {
        return Err(Refusal::WrongSize);
    }
    let loaded = load(rt.alloc(), opening, lines, all)?;
    // (anything else would be taken for a journal once, or keep one from beginning)
    if head.is_none() && !loaded.words.are_zeros_from(8 * lines as usize) {
        return Err(Refusal::WrongSize);
    }
    Ok(Created { loaded, head })
}

/// Whether this is the head of a journal of an image of another number of lines.
fn is_of_another(head: Option<Head>, lines: u64) -> bool
    ensures { result ≡ false → IfSome head (λ head. head.shape.lines ≡ lines) }
{
    match head {
        Some(head) => head.shape.lines != lines,
        None => false,
    }
}

/// The file, once it is locked.
fn locked(mut opening: Opening) -> Result<Opening, Refusal>
    ensures noted { IfOk result (λ locked. steps_of locked.calls ≡ Locked true ∷ steps_of opening.calls) }
    ensures causes { IfErr result (λ refusal. refusal ≡ Refusal.Fault) }
{
    if opening.lock() {
        Ok(opening)
    } else {
        Err(Refusal::Fault)
    }
}

/// Makes the file's length and its name in its folder durable.
fn settle<R: Files<File = File> + Alloc<A = Global>>(
    rt: &R,
    path: &str,
    opening: &mut Opening,
) -> Result<(), Refusal>
    ensures noted { IfOk result (λ _. steps_of opening.new.calls ≡ FolderSynced true ∷ FileSynced true ∷ steps_of opening.old.calls) }
    ensures causes { IfErr result (λ refusal. (refusal ≡ Refusal.Fault) ⊎ (refusal ≡ Refusal.Memory)) }
{
    if !opening.sync_file() {
        return Err(Refusal::Fault);
    }
    opening.sync_folder(rt, path)
}

/// How many lines a file has.
fn count_lines(opening: &mut Opening) -> Result<u64, Refusal>
    ensures many { IfOk result (λ lines. MIN_LINES ≤ lines) }
    ensures few { IfOk result (λ lines. lines ≤ MAX_FILE_LINES) }
    ensures noted { IfOk result (λ lines. steps_of opening.new.calls ≡ Found (Some (64 * lines)) ∷ steps_of opening.old.calls) }
    ensures causes { IfErr result (λ refusal. (refusal ≡ Refusal.Fault) ⊎ (refusal ≡ Refusal.WrongSize)) }
{
    let Some(bytes) = opening.measure() else {
        return Err(Refusal::Fault);
    };
    let lines = bytes / LINE_BYTES;
    if bytes % LINE_BYTES != 0 || lines < MIN_LINES || MAX_FILE_LINES < lines {
        return Err(Refusal::WrongSize);
    }
    Ok(lines)
}
