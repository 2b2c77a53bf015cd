//! Changes made on a keyspace, with places from a heap for their puts: keyspace and heap move together, or not at all; and both made anew from the
//! versions of an image.
#![tactic(auto)]

mod below;
mod fill;
mod fitting;
mod giving;
mod laws;
mod performing;
mod places;
mod rebuilding;

pub use below::{fits_surely_below, has_room_below_for};
pub use fill::{Fill, count_fill};
pub use fitting::{fits_surely, has_room_for};
pub use giving::give_all;
pub use laws::images_are_read_by_entries;
pub use performing::{empty_part, perform};
pub use rebuilding::{Rebuilt, rebuild};
