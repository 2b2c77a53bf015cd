// A device over what was read of a file.
ghost use Rattle.std.specs.Prelude.{◌≡◌, ◌⊎◌, ◌*◌, ◌^◌, ◌<◌, ◌≤◌, false, ℕ, slice_index, Some, length, vec_len, vec_capacity, IfOk, IfErr, IfSome};
ghost use Rattle.kv_types.specs.declared.refusal.Refusal;
ghost use Rattle.journal.specs.File.{lines_of_file};
ghost use Rattle.pmem_file.specs.declared.run.TheConstants.{LINES_A_WRITE};
ghost use Rattle.pmem_file.specs.declared.reading.TheConstants.{MAX_FILE_LINES};
ghost use Rattle.pmem_file.specs.Device.{state_of, has_journal, shape_of, read_by, opening_by, IsFresh, IsMadeOver};
ghost use Rattle.pmem_file.specs.Opening.{steps_of};

use crate::device::FilePmem;
use crate::file_journal::FileJournal;
use crate::finding::{head_told, part_of};
use crate::journaled::JournaledFile;
use crate::logged_file::LoggedFile;
use crate::opening::Opening;
use crate::placed::PlacedFile;
use crate::reading::{Loaded, MAX_FILE_LINES};
use journal::{Head, Shape};
use kv_types::Refusal;
use model::LINE_BYTES;
use std::alloc::Global;

/// The device in the first `image` lines of a file of `lines` lines, whose fences put lines in place.
pub fn placed_over(loaded: Loaded, opening: Opening, image: u64, lines: u64) -> FilePmem
    requires image { image ≤ lines }
    requires few { lines ≤ MAX_FILE_LINES }
    requires words { length loaded.words ≡ 8 * lines }
    requires marks { vec_len loaded.notes.marks ≡ image }
    requires room { 64 * LINES_A_WRITE ≤ vec_capacity loaded.buffer }
    ensures fresh { IsFresh result }
    ensures placed { has_journal result ≡ false }
    ensures lines { (state_of result).lines ≡ image }
    ensures read { read_by result ≡ loaded.words }
    ensures fit { (word : ℕ) → slice_index loaded.words word < 2 ^ 64 }
    ensures opening { opening_by result ≡ steps_of opening.calls }
{
    let mut words = loaded.words;
    // (each of them is a word)
    let _words = words.len();
    let (file, calls) = opening.into_parts();
    let file = LoggedFile::new(file, &words);
    words.cut(8 * image as usize);
    FilePmem::Placed(PlacedFile::new(
        words,
        loaded.notes,
        loaded.buffer,
        calls,
        file,
        LINE_BYTES * lines,
    ))
}

/// The device in a locked file of `lines` lines and this shape, with all that the journal has. What was read was written back and synced before a line is put
/// in place, since the system may have the records alone that the disk has not.
pub fn journaled_over(
    alloc: Global,
    loaded: Loaded,
    opening: Opening,
    shape: Shape,
    lines: u64,
) -> Result<FilePmem, Refusal>
    requires whole { lines_of_file shape ≡ lines }
    requires few { lines ≤ MAX_FILE_LINES }
    requires words { length loaded.words ≡ 8 * lines }
    requires marks { vec_len loaded.notes.marks ≡ shape.lines }
    requires room { 64 * LINES_A_WRITE ≤ vec_capacity loaded.buffer }
    ensures fresh { IfOk result (λ device. IsFresh device) }
    ensures shape { IfOk result (λ device. shape_of device ≡ Some shape) }
    ensures lines { IfOk result (λ device. (state_of device).lines ≡ shape.lines) }
    ensures read { IfOk result (λ device. read_by device ≡ loaded.words) }
    ensures fit { (word : ℕ) → slice_index loaded.words word < 2 ^ 64 }
    ensures opening { IfOk result (λ device. opening_by device ≡ steps_of opening.calls) }
    ensures causes { IfErr result (λ refusal. (refusal ≡ Refusal.Fault) ⊎ (refusal ≡ Refusal.Memory)) }
{
    let mut words = loaded.words;
    let mut buffer = loaded.buffer;
    // (each of them is a word)
    let _words = words.len();
    let (file, calls) = opening.into_parts();
    let mut file = LoggedFile::new(file, &words);
    let tail = words.split_off(alloc, 8 * shape.lines as usize)?;
    let Some(head) = head_of_tail(&tail, shape, lines) else {
        return Err(Refusal::Fault);
    };
    let part = part_of(&tail, shape);
    words.replay(shape.lines, part);
    // (up to the head of the journal, which is no 0, all words were kept)
    let image = words.compacted(alloc)?;
    let mut journal = FileJournal::new(alloc, head)?;
    if !journal.recover(&mut file, &mut buffer, &image, part) {
        return Err(Refusal::Fault);
    }
    Ok(FilePmem::Journaled(JournaledFile::new(image, loaded.notes, buffer, calls, file, journal)))
}

/// The head that stands at the beginning of what is behind an image.
fn head_of_tail(tail: &[u64], shape: Shape, lines: u64) -> Option<Head>
    requires whole { lines_of_file shape ≡ lines }
    requires some { 8 ≤ length tail.now }
    ensures same { IfSome result (λ head. head.shape ≡ shape) }
{
    let (line, _) = tail.split_at(8);
    head_told(line, shape.lines, lines)
}

/// The device over what was read of a file of this shape, which is to be read alone.
pub fn replayed_over(
    alloc: Global,
    loaded: Loaded,
    opening: Opening,
    shape: Shape,
    lines: u64,
) -> Result<FilePmem, Refusal>
    requires whole { lines_of_file shape ≡ lines }
    requires few { lines ≤ MAX_FILE_LINES }
    requires words { length loaded.words ≡ 8 * lines }
    requires marks { vec_len loaded.notes.marks ≡ shape.lines }
    requires room { 64 * LINES_A_WRITE ≤ vec_capacity loaded.buffer }
    ensures made { IfOk result (λ device. IsMadeOver device shape loaded.words) }
    ensures placed { IfOk result (λ device. has_journal device ≡ false) }
    ensures lines { IfOk result (λ device. (state_of device).lines ≡ shape.lines) }
    ensures opening { IfOk result (λ device. opening_by device ≡ steps_of opening.calls) }
    ensures causes { IfErr result (λ refusal. refusal ≡ Refusal.Memory) }
{
    let mut words = loaded.words;
    let tail = words.split_off(alloc, 8 * shape.lines as usize)?;
    words.replay(shape.lines, part_of(&tail, shape));
    let image = words.compacted(alloc)?;
    let (file, calls) = opening.into_parts();
    let file = LoggedFile::new(file, &image);
    Ok(FilePmem::Placed(PlacedFile::new(
        image,
        loaded.notes,
        loaded.buffer,
        calls,
        file,
        LINE_BYTES * lines,
    )))
}
