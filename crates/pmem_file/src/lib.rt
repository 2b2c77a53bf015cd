//! Persistent memory over a file.
#![tactic(auto)]

mod bytes;
mod device;
mod file_calls;
mod file_journal;
mod finding;
mod journaled;
mod laws;
mod loading;
mod logged_file;
mod notes;
mod open;
mod opening;
mod opening_calls;
mod placed;
mod reading;
mod run;
mod settling;
mod words;

pub use device::FilePmem;
pub use laws::reading_is_not_enough;
