//! What the server means: commands, the list of calls, and the image, with the plain programs that compute them.
#![tactic(auto)]

mod call;
mod effect;
mod group;
mod image;
mod image_contents;
mod image_entries;
mod image_words;
mod laws;
mod layout;
mod record;
mod work;

pub use call::{Call, MAX_CHANGE_TEXT_BYTES};
pub use effect::{Effect, closes, outcome_of};
pub use group::{Group, MAX_PARTS, Part, PlacedChange, Put};
pub use image::{COUNTER_LIMIT, MAGIC, MAX_LINES, MIN_LINES, STAMP_WINDOW};
pub use image_contents::{ImageContents, read_image};
pub use image_entries::lines_of_bytes;
pub use laws::{
    calls_see_their_own_session, changes_lead_from_position_to_position,
    changes_stay_within_limits, cut_is_the_longest_prefix, images_hold_one_keyspace,
    images_stand_while_the_list_grows, keyspace_of_a_cut_is_stable, layouts_place_the_parts,
    list_grows, lists_leave_keyspaces, map_is_computed, map_moves_by_the_group,
    refused_calls_change_nothing, sessions_are_read_off_the_list, transactions_answer_each_request,
};
pub use layout::{
    DIRECTORY_LINE, ENTRY_SHARE, FIELD_LENGTH_UNIT, GAPS_WORD, LAYOUT, LINE_BYTES, LINE_WORDS,
    Layout, SUPERBLOCK_WORDS, WORD_BYTES,
};
pub use record::{FIRST_EPOCH, Gap, MAX_GAPS, Record, Role};
pub use work::{FreeList, Work};
