//! Room for a journal, behind the lines of an image in its file.
ghost use Rattle.std.specs.Prelude.{◌≤◌};
ghost use Rattle.model.specs.declared.image.TheConstants.{MAX_LINES};

use crate::trouble::{Step, Trouble, refused};
use journal::Shape;
use model::{MAX_LINES, MIN_LINES};
use std::fs::File;
use std::io;
use std::os::unix::fs::FileExt;

pub const LINE_BYTES: u64 = 64;

/// Where the superblock tells how many lines the image has, in bytes.
const LINES_AT: u64 = 16;

/// How many bytes are written at once, and how many lines that are.
const BLOCK_BYTES: usize = 65_536;

const BLOCK_LINES: u64 = 1_024;

/// Gives a locked file whose lines are all of its image room for a journal, zeros that are on the disk. Any other one is as it was: of an image, it has a
/// journal. Where a step fails the file gets the length back that it had.
pub fn give_room(file: &File) -> Result<(), Trouble> {
    let bytes = match file.metadata() {
        Ok(data) => data.len(),
        Err(error) => return Err(refused(Step::Read, &error)),
    };
    let lines = bytes / LINE_BYTES;
    if lines < MIN_LINES || MAX_LINES < lines || lines_told(file)? != lines {
        return Ok(());
    }
    match lengthen(file, lines) {
        Ok(()) => Ok(()),
        Err(error) => {
            let _ = file.set_len(bytes);
            let _ = file.sync_all();
            Err(refused(Step::Write, &error))
        }
    }
}

/// How many lines the superblock in this file tells.
fn lines_told(file: &File) -> Result<u64, Trouble> {
    let mut word = [0; 8];
    match file.read_exact_at(&mut word, LINES_AT) {
        Ok(()) => Ok(u64::from_le_bytes(word)),
        Err(error) => Err(refused(Step::Read, &error)),
    }
}

/// Adds zeros to a file of so many lines for the journal of an image of all of them, and has them and its length on the disk.
fn lengthen(file: &File, lines: u64) -> io::Result<()>
    requires { lines ≤ MAX_LINES }
{
    let all = Shape::of_image(lines).lines_of_file();
    file.set_len(LINE_BYTES * all)?;
    let zeros = [0; BLOCK_BYTES];
    let behind = all - lines;
    for number in 0..behind.div_ceil(BLOCK_LINES) {
        let from = BLOCK_LINES * number;
        let count = (behind - from).min(BLOCK_LINES);
        file.write_all_at(
            &zeros[..(LINE_BYTES * count) as usize],
            LINE_BYTES * (lines + from),
        )?;
    }
    file.sync_all()
}
