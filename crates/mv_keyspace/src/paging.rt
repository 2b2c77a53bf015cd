//! Pages of rows, as many as fit as puts of a frame.
ghost use Rattle.std.specs.Prelude.{◌≡◌, ◌<◌, ◌≤◌, ◌++◌, ◌∷◌, [], MatchOption, List, length, take};
ghost use Rattle.std.specs.Option.{option_copied};
ghost use Rattle.mv_keyspace.specs.Paging.{front, is_after, is_until, page, put_size, size_of};
ghost use Rattle.mv_keyspace.specs.Row.{cell_of_row, table_of};

use crate::row::Row;
use kv_types::RecordId;

/// How many bytes a row has as a put of a frame.
pub(crate) fn put_size(row: &Row) -> u64
    ensures value { result ≡ put_size (row.now.id, cell_of_row row.now) }
    ensures some { 0 < result }
{
    let value = row.value.len();
    match &row.id {
        RecordId::Str(key) => (1 + 2 + key.len() + 4 + value) as u64,
        RecordId::Field(key, field) => (1 + 2 + key.len() + 2 + field.len() + 4 + value) as u64,
    }
}

/// Whether a record comes behind another; each does, where there is none.
pub(crate) fn is_after(after: Option<&RecordId>, id: &RecordId) -> bool
    ensures { result ≡ is_after (option_copied after.entry) id.now }
{
    match after {
        Some(before) => !id.cmp(before).is_le(),
        None => true,
    }
}

/// Whether a record is another or comes before it; each does, where there is none.
pub(crate) fn is_until(until: Option<&RecordId>, id: &RecordId) -> bool
    ensures { result ≡ is_until (option_copied until.entry) id.now }
{
    match until {
        Some(last) => id.cmp(last).is_le(),
        None => true,
    }
}

/// The last of the rows, where they have more than so many bytes together.
pub(crate) fn last_of_full(rows: &[Row], bytes: u64) -> Option<&RecordId>
    ensures { MatchOption result (size_of (table_of rows.now) ≤ bytes)
        (λ id. (bytes < size_of (table_of rows.now)) × (front : List Row) × (last : Row) × (rows.now ≡ front ++ last ∷ []) × (id.now ≡ last.id)) }
{
    if count_fitting(rows, bytes) == rows.len() {
        return None;
    }
    match rows {
        [] => None,
        [.., last] => Some(&last.id),
    }
}

/// How many of the first rows have at most so many bytes together.
fn count_fitting(rows: &[Row], bytes: u64) -> usize
    ensures value { front bytes (table_of rows.now) ≡ table_of (take result rows.now) }
    ensures within { result ≤ length rows.now }
{
    let mut room = bytes;
    for (at, row) in rows.iter().enumerate() {
        match room.checked_sub(put_size(row)) {
            Some(left) => room = left,
            None => return at,
        }
    }
    rows.len()
}

/// The rows of a page, where these are the next ones.
pub(crate) fn page_of(mut rows: Vec<Row>, bytes: u64) -> Vec<Row>
    ensures { table_of result.items ≡ page bytes (table_of rows.items) }
{
    let count = count_fitting(&rows, bytes);
    rows.truncate(count.max(1));
    rows
}
