//! The numbers of an image.

/// Word 0 of an image: the bytes `WBLIMG01`, the first one lowest.
pub const MAGIC: u64 = 0x3130_474d_494c_4257;

/// The smallest image, in lines of 64 bytes.
pub const MIN_LINES: u64 = 4_096;

/// The largest image, in lines of 64 bytes.
pub const MAX_LINES: u64 = 2_147_483_648;

/// How many stamps a commit reserves beyond its own.
pub const STAMP_WINDOW: u64 = 4_096;

/// Stamps, positions, epochs and record numbers stay below this.
pub const COUNTER_LIMIT: u64 = 1 << 62;
