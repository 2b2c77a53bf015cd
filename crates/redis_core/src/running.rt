//! What a call has done so far, while its requests are run.
ghost use Rattle.std.specs.Prelude.{◌≡◌, ◌+◌, ◌≤◌, ◌↔◌, IsSome, IfSome};
ghost use Rattle.kv_types.specs.Change.{changes_size};

use kv_types::Change;
use model::Part;

/// What a call has done so far: an EXEC runs several requests, any other call one.
#[derive(Debug, Drop)]
pub(crate) struct Running {
    /// What it changed.
    pub(crate) part: Part,
    /// How many bytes of change text it may still make.
    pub(crate) left: usize,
}

/// What is left of `left` bytes after the text of these changes, and nothing where they do not fit.
pub(crate) fn left_after(left: usize, changes: &[Change]) -> Option<usize>
    ensures fits { IsSome result ↔ (changes_size changes.now ≤ left) }
    ensures left { IfSome result (λ rest. rest + changes_size changes.now ≡ left) }
{
    let mut rest = left;
    for change in changes {
        match rest.checked_sub(change.text_size()) {
            Some(less) => rest = less,
            None => return None,
        }
    }
    Some(rest)
}
