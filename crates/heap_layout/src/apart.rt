//! Whether versions can stand beside one another: no two in one line, no record twice, no string beside a field of its key.
ghost use Rattle.std.specs.Prelude.{◌≡◌, ◌↔◌, ◌<◌, All, IsTrue};
ghost use Rattle.heap_layout.specs.Versions.{NoTwo, overlap};
ghost use Rattle.model.specs.ReadImage.{is_clash as the_clash};

use crate::tagged::Tagged;
use kv_types::{Extent, RecordId};

/// Whether no two of the runs have a line in common. It may change their order.
pub(crate) fn are_apart(runs: &mut [Extent]) -> bool
    requires { All (λ run. 0 < run.lines) runs.old }
    ensures { IsTrue result ↔ NoTwo overlap runs.old }
{
    runs.sort_unstable_by_key(|run| run.first_line);
    runs.is_sorted_by(|run, next| run.lines <= next.first_line.saturating_sub(run.first_line))
}

/// Whether no two of the records clash. It may change their order.
pub(crate) fn are_distinct(ids: &mut [Tagged<'_>]) -> bool
    ensures { IsTrue result ↔ NoTwo (λ a b. the_clash a.id.now b.id.now) ids.old }
{
    // Where any two clash, two neighbours do: a string stands right before the first field of its key.
    ids.sort_unstable_by(|id, other| id.order(other));
    ids.is_sorted_by(|id, next| !is_clash(id.id, next.id))
}

/// Whether the two are the same record, or a string and a field of one key.
fn is_clash(other: &RecordId, id: &RecordId) -> bool
    ensures { result ≡ the_clash other.now id.now }
{
    other.key() == id.key() && (other == id || other.field().is_none() || id.field().is_none())
}
