//! Rows that come in any order, as the list keeps them.
ghost use Rattle.std.specs.Prelude.{IsTrue};
ghost use Rattle.std.specs.FinMap.Entries.{is_sorted};
ghost use Rattle.kv_types.specs.Keyspace.{record_cmp};
ghost use Rattle.mv_keyspace.specs.Loading.{AreCompatible, HasRows};
ghost use Rattle.mv_keyspace.specs.Row.{records_of, table_of};

use crate::row::Row;

/// Puts rows in the order of records.
pub(crate) fn sort_rows(rows: &mut Vec<Row>)
    requires { AreCompatible (table_of rows.old.items) }
    ensures rows { HasRows (table_of rows.old.items) (table_of rows.new.items) }
    ensures order { IsTrue (is_sorted record_cmp (records_of rows.new.items)) }
{
    rows.sort_unstable_by(|row, other| row.id.cmp(&other.id));
}
