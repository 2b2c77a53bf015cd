//! The primary's link to its standby: each committed group goes out as a frame, and is kept until it is acknowledged.
#![tactic(auto)]

mod copying;
mod frame_of;
mod laws;
mod leading;
mod link;
mod opening;
mod outgoing;

pub use copying::Copying;
pub use laws::{aside_leads_on, deltas_lead_on, ended_are_read};
pub use link::judge;
pub use opening::{Opening, records_ended};
pub use outgoing::Outgoing;
