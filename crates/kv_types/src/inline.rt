//! A few bytes that lie in the value itself.
ghost use Rattle.std.specs.Prelude.{◌≡◌, ◌<◌, ◌≤◌, length, take};

/// At most `N` bytes, fewer than 256. The places behind them mean nothing.
#[derive(Clone, Copy, Debug, Drop)]
pub(crate) struct InlineBytes<const N: usize> {
    bytes: [u8; N],
    len: u8,
    ghost fits: { len ≤ N },
}

impl<const N: usize> InlineBytes<N> {
    /// A copy of these bytes.
    pub(crate) fn new(source: &[u8]) -> InlineBytes<N>
        requires short { length source.now ≤ N }
        requires few { N < 256 }
        ensures { take result.len result.bytes ≡ source.now }
    {
        let mut bytes = [0; N];
        bytes[..source.len()].copy_from_slice(source);
        InlineBytes {
            bytes,
            len: source.len() as u8,
        }
    }

    #[inline]
    pub(crate) fn as_slice(&self) -> &[u8]
        ensures { result.now ≡ take self.now.len self.now.bytes }
    {
        &self.bytes[..self.len as usize]
    }
}
