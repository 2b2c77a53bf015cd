//! What a primary sends of a copy.
use frames::{CopyEnd, CopyPart};

/// How many bytes the puts of a part of a copy have at most, unless it has one alone. A link takes no more (`MAX_PART_BYTES` of `stream_codec`).
pub const MAX_PART_BYTES: u64 = 1 << 21;

/// A frame of a copy.
#[derive(Debug, Drop)]
pub enum CopyFrame {
    /// Some of the records.
    Part(CopyPart),
    /// All parts were sent.
    End(CopyEnd),
}
