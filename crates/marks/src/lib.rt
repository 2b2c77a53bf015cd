//! The marks: how far each node holds the list of calls, and whether the standby was heard, in three words that threads share.
#![tactic(auto)]

mod gauge;
mod marks;
mod rule;
mod seat;
mod thread_marks;
mod view;

pub use gauge::{GaugeReader, GaugeSetter, GaugeView, new_gauge};
pub use marks::Marks;
pub use seat::MarkSeat;
pub use thread_marks::ThreadMarks;
pub use view::{Committer, Cut, Link, MarkView, Reader};
