//! The superblock: line 0, which says what the image is.
ghost use Rattle.std.specs.Prelude.{◌≡◌, ◌≤◌, Some, None, IfOk, IfErr};
ghost use Rattle.pmem.specs.Crash.{image_of};
ghost use Rattle.model.specs.declared.image.TheConstants.{MIN_LINES, MAX_LINES};
ghost use Rattle.model.specs.Image.{HasSuperblock, entries_of_lines, root_word};
ghost use Rattle.heap_layout.specs.Superblock.{super_refusal};

use kv_types::Refusal;
use model::{Layout, MAGIC, MAX_LINES, MIN_LINES};
use pmem::Pmem;

/// What the superblock of an image says.
#[derive(Clone, Copy, Debug, PartialEq, Eq)]
pub struct Superblock {
    /// How many lines of 64 bytes the image has.
    pub lines: u64,
    /// How many entries its directory has.
    pub entries: u64,
    /// The number of the current record. Whether its slot holds that record is not looked at.
    pub root: u64,
}

/// Reads the superblock of an image of this layout. `WrongSize` if the device has fewer than 4,096 lines or more than 2^31; then `BadMagic`; then `BadVersion`, if the image has another version; then
/// `WrongSize` if word 2 is not the number of the device's lines; then `Damaged` if word 3 is not how many of them are for the directory.
pub fn read_super<P: Pmem>(device: &P, layout: Layout) -> Result<Superblock, Refusal>
    ensures ok { IfOk result (λ s. HasSuperblock layout s.lines (image_of (P.state device.now).words)) }
    ensures lines { IfOk result (λ s. s.lines ≡ (P.state device.now).lines) }
    ensures many { IfOk result (λ s. MIN_LINES ≤ s.lines) }
    ensures few { IfOk result (λ s. s.lines ≤ MAX_LINES) }
    ensures root { IfOk result (λ s. s.root ≡ image_of (P.state device.now).words (root_word layout)) }
    ensures entries { IfOk result (λ s. s.entries ≡ entries_of_lines layout (P.state device.now).lines) }
    ensures whole { IfOk result (λ s. super_refusal layout (P.state device.now).lines (image_of (P.state device.now).words) ≡ None) }
    ensures err { IfErr result (λ refusal. super_refusal layout (P.state device.now).lines (image_of (P.state device.now).words) ≡ Some refusal) }
{
    let lines = device.lines();
    if lines < MIN_LINES || MAX_LINES < lines {
        return Err(Refusal::WrongSize);
    }
    if device.load(0) != MAGIC {
        return Err(Refusal::BadMagic);
    }
    if device.load(1) != layout.version() {
        return Err(Refusal::BadVersion);
    }
    if device.load(2) != lines {
        return Err(Refusal::WrongSize);
    }
    if device.load(3) != Layout::directory_room(lines) {
        return Err(Refusal::Damaged);
    }
    Ok(Superblock {
        lines,
        entries: layout.entries_of_lines(lines),
        root: device.load(layout.root_word()),
    })
}
