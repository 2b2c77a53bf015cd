//! What is stored from a request.
ghost use Rattle.std.specs.Prelude.{◌≡◌, ◌≤◌, length, IfOk};

use kv_types::BoundedBytes;
use std::alloc::{AllocError, Global};

/// A copy of bytes that are few enough, so that what is stored pins nothing of what was read.
pub fn stored<const MAX: usize>(
    alloc: Global,
    bytes: &[u8],
) -> Result<BoundedBytes<MAX>, AllocError>
    requires { length bytes.now ≤ MAX }
    ensures { IfOk result (λ copy. copy ≡ bytes.now) }
{
    BoundedBytes::new(alloc, bytes)
}
