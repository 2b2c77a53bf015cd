//! A live record, as the list keeps it.
ghost use Rattle.std.specs.Prelude.{◌≡◌, IfOk};
ghost use Rattle.mv_keyspace.specs.Table.{cell_of_put};
ghost use Rattle.mv_keyspace.specs.Row.{cell_of_row};
ghost use Rattle.mv_keyspace.specs.Version.{cell_of_shown};

use crate::shown::Shown;
use cmd_core::KeptRecord;
use kv_types::{EntryNo, RecordId, Value};
use model::Put;
use std::alloc::{AllocError, Global};

/// A live record, with the entry that holds it.
#[derive(Debug, Drop)]
pub struct Row {
    pub id: RecordId,
    pub value: Value,
    /// The directory entry that holds its version.
    pub entry: EntryNo,
    /// The position of the list at which it was put.
    pub position: u64,
}

impl KeptRecord for Row {
    ghost kept = { λ row. (row.id, row.value) };

    fn id(&self) -> &RecordId {
        &self.id
    }

    fn value(&self) -> &Value {
        &self.value
    }
}

impl Row {
    /// What it shows of its record.
    pub(crate) fn shown(&self) -> Shown<'_>
        ensures { cell_of_shown result ≡ cell_of_row self.now }
    {
        Shown {
            value: &self.value,
            entry: self.entry,
            position: self.position,
        }
    }
}

/// The row that a put makes at this position.
pub(crate) fn row_of(put: &Put, position: u64) -> Result<Row, AllocError>
    ensures id { IfOk result (λ row. row.id ≡ put.now.id) }
    ensures cell { IfOk result (λ row. cell_of_row row ≡ cell_of_put position put.now) }
{
    Ok(Row {
        id: put.id.clone()?,
        value: put.value.clone()?,
        entry: put.entry,
        position,
    })
}
