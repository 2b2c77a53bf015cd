//! What a node tells of itself while it runs, and what it is told from.
#![tactic(auto)]

mod copy_sending;
mod fill_gauges;
mod filling;
mod frame_watch;
mod link_error;
mod log;
mod news_lines;
mod progress;
mod rate;
mod refused_links;
mod shown;
mod texts;
mod throttle;
mod usage;
mod waits;

pub use copy_sending::CopySending;
pub use fill_gauges::{FillReader, FillSetter, new_fill};
pub use filling::{Alarm, Filling};
pub use link_error::LinkError;
pub use log::{Log, Lost, News};
pub use progress::{Progress, StandbyWatcher};
pub use rate::Rate;
pub use refused_links::RefusedLinks;
pub use shown::{Counted, Shown};
pub use throttle::Throttle;
pub use usage::{Capacity, Share, Usage};
pub use waits::Waits;
