//! Live rows laid over versions that ended.
ghost use Rattle.std.specs.Prelude.{◌≡◌, ◌++◌, [], IsTrue, IfOk};
ghost use Rattle.std.specs.FinMap.Entries.{is_sorted};
ghost use Rattle.kv_types.specs.Keyspace.{record_cmp};
ghost use Rattle.mv_keyspace.specs.Row.{table_of};
ghost use Rattle.mv_keyspace.specs.Versions.{table_in, with_rows};

use crate::gathering::put_all;
use crate::row::Row;
use kv_types::RecordId;
use std::alloc::{AllocError, Global};
use std::collections::BTreeMap;

/// The live rows with those versions that ended whose records have none, in the order of records.
pub(crate) fn overlaid(
    alloc: Global,
    past: BTreeMap<RecordId, Row>,
    live: Vec<Row>,
) -> Result<Vec<Row>, AllocError>
    requires order { IsTrue (is_sorted record_cmp (table_of live.items)) }
    ensures { IfOk result (λ rows. table_of rows.items ≡ with_rows (table_of live.items) (table_in past.entries)) }
{
    if past.is_empty() {
        return Ok(live);
    }
    let mut all = past;
    put_all(&mut all, &live)?;
    rows_in(alloc, all)
}

/// All rows of a map, in the order of records.
fn rows_in(alloc: Global, gathered: BTreeMap<RecordId, Row>) -> Result<Vec<Row>, AllocError>
    ensures { IfOk result (λ rows. table_of rows.items ≡ table_in gathered.entries) }
{
    let mut rows = Vec::new(alloc);
    for (id, row) in gathered {
        rows.push(Row { id, ..row })?;
    }
    Ok(rows)
}
