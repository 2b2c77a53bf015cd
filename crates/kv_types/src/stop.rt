//! Why a reader stopped.

/// Why nothing whole is at the front of bytes of which more may come.
#[derive(Clone, Copy, Debug, PartialEq, Eq)]
pub enum Stop<F> {
    /// Further bytes may complete it.
    Short,
    /// No further bytes can, because of this fault.
    Broken(F),
}
