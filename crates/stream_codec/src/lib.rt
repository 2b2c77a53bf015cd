//! Frames between the two nodes: as bytes, and read from bytes in any pieces.
#![tactic(auto)]

mod change;
mod decoder;
mod head;
mod laws;
mod message;
mod missing;
mod reading;
mod scan;
mod step;
mod whole_frames;
mod writing;
mod writing_copies;

pub use decoder::Decoder;
pub use laws::{frames_are_read, in_any_pieces, one_spelling, written_is_read};
pub use message::{GroupHead, LEAST_PUT_BYTES, MAX_BODY_BYTES, MAX_PART_BYTES, Message};
pub use writing::{ACK_BYTES, GROUP_HEAD_BYTES, write_ack, write_group};
pub use writing_copies::{
    COPY_END_BYTES, COPY_WANTED_BYTES, PART_HEAD_BYTES, fits_part, put_len, write_end, write_part,
    write_wanted,
};
