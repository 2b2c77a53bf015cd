//! A journal of an image: records of lines that count their own zeros, their replay, and the file that has them.
#![tactic(auto)]

mod laws;
mod replaying;
mod sealing;
mod shape;

pub use laws::{
    a_record_brings_its_lines, a_record_that_passes_is_whole, an_opening_has_all_that_was_synced,
    an_opening_has_the_old_generation_or_the_new_one, an_opening_takes_all_that_was_synced,
    records_are_told_by_their_words, what_is_recorded_does_not_matter,
};
pub use replaying::{Recorded, next_record, passes, replay};
pub use sealing::{seal, sealed_words};
pub use shape::{Head, MAGIC, MAX_PART_LINES, Shape, read_head};

#[cfg(test)]
mod tests;
