//! The version of a string, as the slot of its key keeps it.
ghost use Rattle.std.specs.Prelude.{◌≡◌, ℕ, List, IfOk};
ghost use Rattle.mv_keyspace.specs.Row.{cell_of_row};
ghost use Rattle.mv_keyspace.specs.Version.{cell_of_shown, string_row};

use crate::row::Row;
use crate::shown::Shown;
use kv_types::{EntryNo, Key, RecordId, Value};
use std::alloc::AllocError;

/// What is kept of a string beside its key, which stands in the map.
#[derive(Debug, Drop)]
pub(crate) struct Version {
    pub(crate) value: Value,
    /// The directory entry that holds it.
    pub(crate) entry: EntryNo,
    /// The position of the list at which it was put.
    pub(crate) position: u64,
}

impl Version {
    /// The version in the row of a string.
    pub(crate) fn of_row(row: Row) -> Version
        ensures { (key : List ℕ) → row.id ≡ RecordId.Str key → string_row key result ≡ row }
    {
        Version {
            value: row.value,
            entry: row.entry,
            position: row.position,
        }
    }

    /// The row of the string of a key. It shares its bytes with the keyspace.
    pub(crate) fn row(&self, key: &Key) -> Result<Row, AllocError>
        ensures { IfOk result (λ row. row ≡ string_row key.now self.now) }
    {
        Ok(Row {
            id: RecordId::Str(key.clone()?),
            value: self.value.clone()?,
            entry: self.entry,
            position: self.position,
        })
    }

    /// The version, as it is shown.
    pub(crate) fn shown(&self) -> Shown<'_>
        ensures { (key : List ℕ) → cell_of_shown result ≡ cell_of_row (string_row key self.now) }
    {
        Shown {
            value: &self.value,
            entry: self.entry,
            position: self.position,
        }
    }
}
