//! What a committer is given to do.
use crate::group::Group;
use kv_types::EntryNo;

/// Entries of versions that have ended, to be freed once the standby has passed their ends.
#[derive(Debug, Drop)]
pub struct FreeList {
    /// The position of the newest of the ends.
    pub position: u64,
    /// Each entry once.
    pub entries: Vec<EntryNo>,
}

/// An item of the committer's queue.
#[derive(Debug, Drop)]
pub enum Work {
    Commit(Group),
    Free(FreeList),
}
