//! Where the words of an entry lie.
ghost use Rattle.std.specs.Prelude.{◌≡◌, ◌^◌, ◌<◌};
ghost use Rattle.model.specs.Image as images;

use kv_types::EntryNo;
use model::{LINE_WORDS, Layout};

/// The number of word `k` of an entry.
pub fn entry_word(entry: EntryNo, k: u64) -> u64
    requires { images.entry_word entry.0 k < 2 ^ 64 }
    ensures { result ≡ images.entry_word entry.0 k }
{
    LINE_WORDS * Layout::entry_line(entry.0) + k
}
