//! A few bytes that lie with the count of their owners.
ghost use Rattle.std.specs.Prelude.{◌≡◌, ◌<◌, ◌≤◌, length, take, IfOk};
ghost use Rattle.std.specs.Arc.{arc_value};

use std::alloc::{AllocError, Global};
use std::sync::Arc;

/// At most `N` bytes, fewer than 256, which all copies share. The places behind them mean nothing.
#[derive(Debug, Drop)]
pub(crate) struct CountedBytes<const N: usize> {
    len: u8,
    bytes: Arc<[u8; N]>,
    ghost fits: { len ≤ N },
    ghost few: { N < 256 },
}

impl<const N: usize> CountedBytes<N> {
    /// A copy of these bytes.
    pub(crate) fn new(alloc: Global, source: &[u8]) -> Result<CountedBytes<N>, AllocError>
        requires short { length source.now ≤ N }
        requires few { N < 256 }
        ensures { IfOk result (λ made. take made.len (arc_value made.bytes) ≡ source.now) }
    {
        let mut bytes = [0; N];
        bytes[..source.len()].copy_from_slice(source);
        Ok(CountedBytes {
            len: source.len() as u8,
            bytes: Arc::new(alloc, bytes)?,
        })
    }

    #[inline]
    pub(crate) fn as_slice(&self) -> &[u8]
        ensures { result.now ≡ take self.now.len (arc_value self.now.bytes) }
    {
        &self.bytes[..self.len as usize]
    }

    /// Another owner.
    pub(crate) fn again(&self) -> Result<CountedBytes<N>, AllocError>
        ensures { IfOk result (λ copy. take copy.len (arc_value copy.bytes) ≡ take self.now.len (arc_value self.now.bytes)) }
    {
        Ok(CountedBytes {
            len: self.len,
            bytes: Arc::try_clone(&self.bytes)?,
        })
    }
}
