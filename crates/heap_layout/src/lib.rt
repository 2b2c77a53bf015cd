//! What stands in the lines of an image: its superblock, and its entries with their extents, written and read over a device.
#![tactic(auto)]

mod apart;
mod entry;
mod laws;
mod place;
mod shape;
mod superblock;
mod tagged;
mod version;
mod versions;
mod writing;

pub use entry::{Entry, FIELD_KIND, STRING_KIND, Stamps, read_entry, read_stamps};
pub use laws::put_is_read_back;
pub use place::entry_word;
pub use superblock::{Superblock, read_super};
pub use version::read_version;
pub use versions::{Versions, read_versions};
pub use writing::{flush_entry, lines_for, write_entry};
