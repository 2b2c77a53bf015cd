//! The commit record of an image: which stamps count, at which position of the list.
#![tactic(auto)]

mod current;
mod laws;
mod record;

pub use current::read_current;
pub use laws::images_have_one_current_record;
pub use record::{MAX_RECORD_WORDS, words_of, write_durably, write_next};
