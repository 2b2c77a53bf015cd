// Reading a file that is to become a device.
ghost use Rattle.std.specs.Prelude.{◌≡◌, ◌⊎◌, ◌+◌, ◌*◌, ◌≤◌, ◌∷◌, true, false, length, vec_len, vec_capacity, IfOk, IfErr};
ghost use Rattle.std.specs.Int.{div_ceil};
ghost use Rattle.kv_types.specs.declared.refusal.Refusal;
ghost use Rattle.pmem_file.specs.declared.run.TheConstants.{LINES_A_WRITE};
ghost use Rattle.pmem_file.specs.Opening.{steps_of, DataSynced, with_blocks};

use crate::notes::Notes;
use crate::opening::Opening;
use crate::run::LINES_A_WRITE;
use crate::words::Words;
use journal::MAX_PART_LINES;
use kv_types::Refusal;
use model::{LINE_BYTES, MAX_LINES};
use std::alloc::Global;

/// How many lines a file has at most: those of the largest image, and behind them the longest journal.
pub const MAX_FILE_LINES: u64 = MAX_LINES + 1 + 2 * MAX_PART_LINES;

const BLOCK_BYTES: usize = 65_536;

/// What a device over a file has in memory.
#[derive(Drop)]
pub struct Loaded {
    /// All words of the file.
    pub words: Words,
    pub notes: Notes,
    /// Room for the bytes of one write.
    pub buffer: Vec<u8>,
}

/// What a device of `image` lines has in memory of a locked file of `lines` lines, which the disk has too.
pub fn load(alloc: Global, opening: &mut Opening, image: u64, lines: u64) -> Result<Loaded, Refusal>
    requires image { image ≤ lines }
    requires few { lines ≤ MAX_FILE_LINES }
    ensures words { IfOk result (λ loaded. length loaded.words ≡ 8 * lines) }
    ensures marks { IfOk result (λ loaded. vec_len loaded.notes.marks ≡ image) }
    ensures room { IfOk result (λ loaded. 64 * LINES_A_WRITE ≤ vec_capacity loaded.buffer) }
    ensures noted { IfOk result (λ loaded. steps_of opening.new.calls
        ≡ DataSynced true ∷ with_blocks true loaded.words (div_ceil lines LINES_A_WRITE) (steps_of opening.old.calls)) }
    ensures causes { IfErr result (λ refusal. (refusal ≡ Refusal.Fault) ⊎ (refusal ≡ Refusal.Memory)) }
{
    let notes = Notes::new(alloc, image as usize)?;
    let buffer = Vec::with_capacity(alloc, BLOCK_BYTES)?;
    let words = read_words(alloc, opening, lines, true)?;
    if !opening.sync_data() {
        return Err(Refusal::Fault);
    }
    Ok(Loaded {
        words,
        notes,
        buffer,
    })
}

/// What a device of `image` lines that is to be read alone has in memory of a file of `lines` lines.
pub fn load_to_read(
    alloc: Global,
    opening: &mut Opening,
    image: u64,
    lines: u64,
) -> Result<Loaded, Refusal>
    requires image { image ≤ lines }
    requires few { lines ≤ MAX_FILE_LINES }
    ensures words { IfOk result (λ loaded. length loaded.words ≡ 8 * lines) }
    ensures marks { IfOk result (λ loaded. vec_len loaded.notes.marks ≡ image) }
    ensures room { IfOk result (λ loaded. 64 * LINES_A_WRITE ≤ vec_capacity loaded.buffer) }
    ensures noted { IfOk result (λ loaded. steps_of opening.new.calls
        ≡ with_blocks false loaded.words (div_ceil lines LINES_A_WRITE) (steps_of opening.old.calls)) }
    ensures causes { IfErr result (λ refusal. (refusal ≡ Refusal.Fault) ⊎ (refusal ≡ Refusal.Memory)) }
{
    let notes = Notes::new(alloc, image as usize)?;
    let buffer = Vec::with_capacity(alloc, BLOCK_BYTES)?;
    let words = read_words(alloc, opening, lines, false)?;
    Ok(Loaded {
        words,
        notes,
        buffer,
    })
}

/// The words of a file of `lines` lines, read in blocks, each of which is written back as it was read where that is asked for.
fn read_words(
    alloc: Global,
    opening: &mut Opening,
    lines: u64,
    writes_back: bool,
) -> Result<Words, Refusal>
    requires { lines ≤ MAX_FILE_LINES }
    ensures count { IfOk result (λ words. length words ≡ 8 * lines) }
    ensures noted { IfOk result (λ words. steps_of opening.new.calls
        ≡ with_blocks writes_back words (div_ceil lines LINES_A_WRITE) (steps_of opening.old.calls)) }
    ensures causes { IfErr result (λ refusal. (refusal ≡ Refusal.Fault) ⊎ (refusal ≡ Refusal.Memory)) }
{
    let mut words = Words::new(alloc, 8 * lines as usize)?;
    let mut block = vec![in alloc; 0; BLOCK_BYTES]?;
    for number in 0..lines.div_ceil(LINES_A_WRITE) {
        let first = LINES_A_WRITE * number;
        let count = (lines - first).min(LINES_A_WRITE);
        // (only the last block may be shorter)
        block.truncate((LINE_BYTES * count) as usize);
        if !opening.read_block(LINE_BYTES * first, &mut block, writes_back) {
            return Err(Refusal::Fault);
        }
        words.add(&block)?;
    }
    Ok(words)
}
