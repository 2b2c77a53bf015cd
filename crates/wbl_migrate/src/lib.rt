//! The migration of an image from version 1 of its format to version 2, step by step.
#![tactic(auto)]

mod choosing;
mod clearing;
mod ended;
#[cfg(test)]
mod ended_tests;
mod known;
mod laws;
mod leaving;
mod marking;
mod migrating;
#[cfg(test)]
mod migrating_tests;
mod moving;
#[cfg(test)]
mod moving_tests;
mod record;
mod stage;
mod switching;
#[cfg(test)]
mod switching_tests;
mod vacating;

pub use clearing::clear_gaps;
pub use ended::{
    move_ended, moving_what_has_ended_keeps_contents_lawful, moving_what_has_ended_keeps_the_map,
};
pub use known::read_versions_are_known;
pub use laws::{
    crashed_devices_go_on, images_are_at_one_stage, new_slots_are_the_last_entries,
    renewed_records_are_lawful, undamaged_images_are_movable,
};
pub use leaving::move_all_ended;
pub use marking::{VERSION_WORD, mark_halfway, mark_new};
pub use migrating::{migratable_images_keep_their_map, migrate};
pub use moving::{Place, move_live, move_version};
pub use record::write_new_record;
pub use stage::stage_of;
pub use switching::{go_on, switch};
pub use vacating::vacate;
