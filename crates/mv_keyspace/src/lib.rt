//! The keyspace that a node keeps in memory: each live record, and the entry that holds it.
#![tactic(auto)]

mod by_key;
mod clearing;
mod counting;
mod ending;
mod filling;
mod gathering;
mod key_bytes;
mod keyspace;
mod list_rows;
mod live;
mod loading;
mod making;
mod overlaying;
mod page_rows;
mod paging;
mod past;
mod pin;
mod putting;
mod reading;
mod row;
mod row_list;
mod sharing;
mod shown;
mod slot;
mod slot_rows;
mod slots;
mod version;
mod versioned;

pub use keyspace::Keyspace;
pub use list_rows::ListRows;
pub use live::Live;
pub use pin::Pin;
pub use row::Row;
pub use shown::Shown;
pub use slot_rows::SlotRows;
pub use versioned::{ListKeyspace, MvKeyspace, Versioned};
