//! What each of two nodes says first on a link: which links it speaks, and to which pair it belongs.
#![tactic(auto)]

mod greeting;
mod laws;

pub use greeting::{GREETING_BYTES, Greeting, LINK_VERSION, adopts, judge};
pub use laws::{one_spelling, written_is_read};
