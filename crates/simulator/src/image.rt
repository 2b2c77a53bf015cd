//! What a device holds.
ghost use Rattle.std.specs.Prelude.{◌≡◌, ◌*◌, map, IfOk};
ghost use Rattle.std.specs.List.{range_with_len};
ghost use Rattle.pmem.specs.Device.{newest_at};

use model::{ImageContents, read_image};
use pmem::Pmem;
use std::alloc::{AllocError, Global};

/// The words of a device, and what they hold as an image.
#[derive(Debug, Drop)]
pub struct DeviceImage {
    pub words: Vec<u64>,
    /// `None` if the words are not a whole image.
    pub contents: Option<ImageContents>,
}

/// Reads a device.
pub fn read_device<P: Pmem>(alloc: Global, device: &P) -> Result<DeviceImage, AllocError> {
    let words = words_of(alloc, device)?;
    let contents = read_image(alloc, words.as_slice())?;
    Ok(DeviceImage { words, contents })
}

/// The newest value of each word of a device.
pub fn words_of<P: Pmem>(alloc: Global, device: &P) -> Result<Vec<u64>, AllocError>
    ensures { IfOk result (λ words. words.items
        ≡ map (newest_at (P.state device.now)) (range_with_len 0 (8 * (P.state device.now).lines))) }
{
    let mut words = Vec::new(alloc);
    for word in 0..8 * device.lines() {
        words.push(device.load(word))?;
    }
    Ok(words)
}
