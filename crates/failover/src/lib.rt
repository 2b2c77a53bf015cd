//! Failover: a standby becomes a primary once the old primary does nothing more.
#![tactic(auto)]

mod fenced;
mod promoting;

pub use fenced::{Fenced, fence, operator_fence};
pub use promoting::{Promoted, promote, promote_image};
