//! Write-behind logging on persistent memory: an image that is formatted, and commits that move its map whole or not at all.
#![tactic(auto)]

mod clearing;
mod commit;
mod commit_all;
mod commit_and_free;
mod committed;
mod copying;
mod durable;
mod engine;
mod erasing;
mod format;
mod freeing;
mod inspecting;
mod laws;
mod promoting;
mod raising;
mod relocating;
mod reopening;
mod restarting;
mod staging;
mod successor;
mod unraised;

pub use committed::Committed;
pub use durable::Durable;
pub use engine::WblEngine;
pub use freeing::Freed;
pub use heap_layout::Versions;
pub use inspecting::inspect;
pub use laws::{
    copies_are_lawful, durable_contents_are_left, groups_keep_contents_lawful,
    lawful_contents_are_reopened, lawful_contents_are_undamaged, new_contents_are_lawful,
    promoted_contents_are_lawful, promoted_contents_are_reopened, reopening_keeps_contents,
    rising_parts_are_fresh, same_contents_are_lawful, synced_contents_are_durable,
};
pub use model::{Gap, Record, Role};
pub use reopening::layout_in;
pub use restarting::Restarting;
pub use unraised::free_unraised;
