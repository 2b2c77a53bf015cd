//! The subcommands over images, and how the program ends.
#![tactic(auto)]

mod asking;
mod causes;
mod failure;
mod formatting;
mod images;
mod inspecting;
mod journaling;
mod losing;
mod migrating;
mod pair;
mod promoting;
mod reading;
mod room;
mod serve_error;
mod trouble;
mod unfinished;

pub use causes::{tell_cause, tell_cause_of_giving, tell_cause_of_making, tell_cause_of_reading};
pub use failure::{DONE, Failure, Kept, tell};
pub use formatting::{NewImage, format};
pub use images::{Files, Images};
pub use inspecting::inspect;
pub use journaling::{add_journal, settle};
pub use migrating::migrate;
pub use pair::{
    NO_PAIR, PAIR_WORD, adopt_pair, images_are_read_without_their_number, into_pair, new_pair,
    pair_of, write_pair,
};
pub use promoting::promote;
pub use reading::status;
pub use serve_error::ServeError;
pub use trouble::{Step, Trouble, Why};
