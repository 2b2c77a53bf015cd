//! What is named more than once.
ghost use Rattle.std.specs.Prelude.{◌≡◌, IfOk};
ghost use Rattle.cmd_core.specs.Naming as spec;

use kv_types::Key;
use std::alloc::{AllocError, Global};
use std::collections::BTreeSet;

/// The keys or fields, each once and shared, in the order of first naming.
pub fn firsts(alloc: Global, names: &[Key]) -> Result<Vec<Key>, AllocError>
    ensures { IfOk result (λ once. once.items ≡ spec.firsts names.now) }
{
    let mut seen = BTreeSet::new(alloc);
    let mut once = Vec::new(alloc);
    for name in names {
        if seen.insert(name.clone()?)? {
            once.push(name.clone()?)?;
        }
    }
    Ok(once)
}
