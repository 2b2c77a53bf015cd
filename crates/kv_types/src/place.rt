//! Places in an image: numbers of directory entries, and runs of lines.

/// The number of a directory entry, from 0.
#[derive(Clone, Copy, Debug, PartialEq, Eq, PartialOrd, Ord, Hash)]
pub struct EntryNo(pub u64);

/// A run of lines of the image.
#[derive(Clone, Copy, Debug, PartialEq, Eq, Hash)]
pub struct Extent {
    /// The number of its first line.
    pub first_line: u64,
    /// How many lines it has.
    pub lines: u64,
}
