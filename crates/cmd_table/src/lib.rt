//! The table of commands: from the words of a request to a command, and from a command to what it answers and changes.
#![tactic(auto)]

mod command;
mod dispatch;
mod laws;
mod misuse;
mod puts;
mod request;
mod row;

pub use command::{Command, read_command, read_request};
pub use dispatch::run;
pub use laws::every_command_is_found;
pub use misuse::Misuse;
pub use puts::{most_puts, puts_of};
pub use request::{closes, outcome_of_words};
pub use row::{Row, is_served, row_of};
